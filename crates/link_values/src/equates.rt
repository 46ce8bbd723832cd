//! The values of equates: each once those to which it leads have theirs.

ghost use Rattle.std.specs.Prelude.{◌≡◌, ◌<◌, ◌≤◌, ◌^◌, pos, true, false, ℕ, List, Some, IfOk, IfErr, OnOk, length, slice_get};
ghost use Rattle.std.specs.Bool.{OnTrue};
ghost use Rattle.cycles.specs.Graphs.{IsIn, row_at};
ghost use Rattle.omf_format.specs.declared.value.Value.TheVariants.{At};
ghost use Rattle.link_meaning.specs.LinkValues.{equate_value};
ghost use Rattle.link_meaning.specs.Search.{FoundDefinition};
ghost use Rattle.link_program.specs.Outside.{all_found};
ghost use Rattle.link_meaning.specs.Cycles.{is_equate};
ghost use Rattle.link_program.specs.Programs.{symbol_of, symbol_view};
ghost use Rattle.link_program.specs.OfFiles.{IsOfFiles};
ghost use Rattle.link_values.specs.Slots.{answer_of, rows_of};
ghost use Rattle.link_values.specs.Equates.{IsFirstSlot, AreFirstSlots, IsOpen, AreTrue, AreRows, AreSettled, open_count, with_slot, AreValues, IsCycleRefused};

use crate::circular::cycle_fault;
use crate::leads::leads_of;
use crate::slots::ValueSlot;
use crate::value::{place_at, value_in};
use cycles::{Edges, first_cycle, order_of};
use link_meaning::LinkFault;
use link_program::{Definition, Program, memory_fault, place_of_member};
use omf_format::{Value, ValueFault};
use std::alloc::{AllocError, Global};

/// The place of a name of a run-time library file.
fn place_outside(definition: &Definition) -> Value
    ensures { result ≡ At definition.now.file definition.now.segment definition.now.at (pos 0) }
{
    Value::At {
        file: definition.file,
        segment: definition.segment,
        offset: definition.at,
        shift: 0,
    }
}

/// What is known at first of what a name can find: the place of a label, or of a name of a run-time library file.
fn first_slot(program: &Program, definition: &Definition) -> ValueSlot
    requires files { IsOfFiles program.now }
    requires there { (k : ℕ) × (f : FoundDefinition) × (slice_get (all_found program.now) k ≡ Some f) × (symbol_of definition.now ≡ symbol_view program.now f) }
    ensures { (k : ℕ) (f : FoundDefinition) → slice_get (all_found program.now) k ≡ Some f → symbol_of definition.now ≡ symbol_view program.now f → IsFirstSlot program.now f result }
{
    match definition.expr {
        Some(_) => ValueSlot::Open,
        None => {
            if definition.member == 0 {
                return ValueSlot::Done(place_outside(definition));
            }
            match place_of_member(program, definition.member) {
                Some(member_place) => ValueSlot::Done(place_at(member_place, definition.at)),
                None => unreachable!(),
            }
        }
    }
}

/// What is known at first of all that a name can find.
fn first_slots(alloc: Global, program: &Program) -> Result<Vec<ValueSlot>, AllocError>
    requires { IsOfFiles program.now }
    ensures { IfOk result (λ slots. AreFirstSlots program.now (all_found program.now) slots.items) }
{
    let mut slots = Vec::new(alloc);
    'definitions: loop {
        let number = slots.as_slice().len();
        match program.definition(number) {
            None => return Ok(slots),
            Some(definition) => slots.push(first_slot(program, &definition))?,
        }
    }
}

/// Whether a definition has no value yet.
pub(crate) fn is_open(slots: &[ValueSlot], number: usize) -> bool
    ensures holds { OnTrue result (IsOpen slots.now number) }
    ensures fails { result ≡ false → IsOpen slots.now number → ⊥ }
{
    match slots.get(number) {
        Some(ValueSlot::Open) => true,
        Some(ValueSlot::Done(_)) => false,
        Some(ValueSlot::Failed(_)) => false,
        None => false,
    }
}

/// The first definition of these that has no value yet.
fn first_open(slots: &[ValueSlot], row: &[usize]) -> Option<usize>
    ensures found { (k : ℕ) → result ≡ Some k → IsIn row.now k × IsOpen slots.now k }
    ensures none { result ≡ None → (k : ℕ) → IsIn row.now k → IsOpen slots.now k → ⊥ }
{
    'row: for number in row {
        if is_open(slots, *number) {
            return Some(*number);
        }
    }
    None
}

/// The value of an equate, where those to which it leads have theirs.
fn slot_of(program: &Program, slots: &[ValueSlot], number: usize) -> ValueSlot
    requires files { IsOfFiles program.now }
    requires are { AreTrue program.now slots.now }
    ensures { (f : FoundDefinition) → slice_get (all_found program.now) number ≡ Some f → is_equate f ≡ true
        → answer_of result ≡ Some (equate_value program.now (rows_of (all_found program.now) slots.now) f) }
{
    let definition = match program.definition(number) {
        Some(definition) => definition,
        None => return ValueSlot::Open,
    };
    let expr = match definition.expr {
        Some(expr) => expr,
        None => return ValueSlot::Open,
    };
    let member_place = match place_of_member(program, definition.member) {
        Some(member_place) => member_place,
        None => unreachable!(),
    };
    match value_in(program, slots, member_place, definition.at, expr) {
        Ok(value) => ValueSlot::Done(value),
        Err(fault) => ValueSlot::Failed(fault),
    }
}

/// Gives a definition its slot.
fn set_slot(slots: &mut Vec<ValueSlot>, number: usize, slot: ValueSlot)
    requires { number < length slots.old.items }
    ensures { slots.new.items ≡ with_slot slots.old.items number slot }
{
    slots[number] = slot;
}

/// Finds the value of an equate that has none yet, where those to which it leads have theirs; whether it was found.
fn find_value(program: &Program, edges: &Edges, slots: &mut Vec<ValueSlot>, number: usize) -> bool
    requires files { IsOfFiles program.now }
    requires rows { AreRows program.now (all_found program.now) edges.now }
    requires are { AreTrue program.now slots.old.items }
    ensures are { AreTrue program.now slots.new.items }
    ensures fewer { OnTrue result (open_count slots.new.items < open_count slots.old.items) }
    ensures same { result ≡ false → (slots.new.items ≡ slots.old.items) × (IsOpen slots.old.items number → (k : ℕ) × IsIn (row_at edges.now number) k × IsOpen slots.old.items k) }
{
    if !is_open(slots.as_slice(), number) {
        return false;
    }
    match first_open(slots.as_slice(), edges.row(number)) {
        Some(_) => false,
        None => {
            let slot = slot_of(program, slots.as_slice(), number);
            set_slot(slots, number, slot);
            true
        }
    }
}

/// Finds values in an order.
fn find_values_in_order(
    program: &Program,
    edges: &Edges,
    slots: &mut Vec<ValueSlot>,
    order: &[usize],
)
    requires files { IsOfFiles program.now }
    requires rows { AreRows program.now (all_found program.now) edges.now }
    requires are { AreTrue program.now slots.old.items }
    ensures { AreTrue program.now slots.new.items }
{
    'order: for number in order {
        let _found = find_value(program, edges, slots, *number);
    }
}

/// Finds values from the first definition to the last; whether there was one.
fn find_values_once(program: &Program, edges: &Edges, slots: &mut Vec<ValueSlot>) -> bool
    requires files { IsOfFiles program.now }
    requires rows { AreRows program.now (all_found program.now) edges.now }
    requires are { AreTrue program.now slots.old.items }
    ensures are { AreTrue program.now slots.new.items }
    ensures fewer { OnTrue result (open_count slots.new.items < open_count slots.old.items) }
    ensures settled { result ≡ false → AreSettled edges.now slots.new.items }
{
    let mut number = 0;
    let mut found = false;
    'definitions: while number < edges.count() {
        if find_value(program, edges, slots, number) {
            found = true;
        }
        number += 1;
    }
    found
}

/// Finds values until there are no more to be found.
fn find_all_values(program: &Program, edges: &Edges, slots: &mut Vec<ValueSlot>)
    requires files { IsOfFiles program.now }
    requires rows { AreRows program.now (all_found program.now) edges.now }
    requires are { AreTrue program.now slots.old.items }
    ensures are { AreTrue program.now slots.new.items }
    ensures settled { AreSettled edges.now slots.new.items }
{
    'passes: loop {
        if !find_values_once(program, edges, slots) {
            return;
        }
    }
}

/// Whether a definition has no value.
fn has_open(slots: &[ValueSlot]) -> bool
    ensures some { OnTrue result ((k : ℕ) × IsOpen slots.now k) }
    ensures none { result ≡ false → (k : ℕ) → IsOpen slots.now k → ⊥ }
{
    let mut number = 0;
    'slots: while number < slots.len() {
        if is_open(slots, number) {
            return true;
        }
        number += 1;
    }
    false
}

/// The values of all definitions, or the first equate that leads back to itself.
pub fn values_of(alloc: Global, program: &Program) -> Result<Vec<ValueSlot>, LinkFault>
    requires { IsOfFiles program.now }
    ensures valued { IfOk result (λ slots. AreValues program.now slots.items) }
    ensures refused { IfErr result (λ fault. IsCycleRefused program.now fault) }
{
    let mut slots = match first_slots(alloc, program) {
        Ok(slots) => slots,
        Err(_) => return Err(memory_fault()),
    };
    if !has_open(slots.as_slice()) {
        return Ok(slots);
    }
    let edges = match leads_of(alloc, program, slots.as_slice()) {
        Ok(edges) => edges,
        Err(_) => return Err(memory_fault()),
    };
    let order = match order_of(alloc, &edges) {
        Ok(order) => order,
        Err(_) => return Err(memory_fault()),
    };
    find_values_in_order(program, &edges, &mut slots, order.order.as_slice());
    find_all_values(program, &edges, &mut slots);
    if !has_open(slots.as_slice()) {
        return Ok(slots);
    }
    match first_cycle(alloc, &edges, order.ranks.as_slice()) {
        Ok(Some(number)) => Err(cycle_fault(alloc, program, number)),
        Ok(None) => unreachable!(),
        Err(_) => Err(memory_fault()),
    }
}
