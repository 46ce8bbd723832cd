//! Which equates lead to which.

ghost use Rattle.std.specs.Prelude.{◌≡◌, ◌++◌, ◌∷◌, [], ℕ, List, Some, IfOk, OnOk, slice_get};
ghost use Rattle.std.specs.List.{flat_map};
ghost use Rattle.omf_format.specs.Expression.{IsExpression, terms_in};
ghost use Rattle.omf_expr.specs.View.{view};
ghost use Rattle.link_meaning.specs.Member.{Member};
ghost use Rattle.object_meaning.specs.Terms.{asks_value};
ghost use Rattle.link_meaning.specs.Search.{FoundDefinition};
ghost use Rattle.link_program.specs.Outside.{all_found};
ghost use Rattle.link_program.specs.Programs.{symbol_of, symbol_view};
ghost use Rattle.link_program.specs.Linked.{member_at};
ghost use Rattle.link_program.specs.OfFiles.{IsOfFiles};
ghost use Rattle.link_values.specs.Equates.{AreFirstSlots, IsRow, AreRows, NameRow, FindOne};

use crate::equates::is_open;
use crate::slots::ValueSlot;
use cycles::Edges;
use link_program::{Definition, MemberPlace, Program, expression_of, place_of_member};
use omf_expr::Term;
use std::alloc::{AllocError, Global};

/// Adds the number of the equate that a term's name finds.
fn add_lead(
    program: &Program,
    slots: &[ValueSlot],
    place: u32,
    term: Term,
    row: &mut Vec<usize>,
) -> Result<(), AllocError>
    requires { AreFirstSlots program.now (all_found program.now) slots.now }
    ensures { OnOk result ((m : Member) (names : List (List ℕ)) → member_at program.now place ≡ Some m → FindOne program.now place m (asks_value (view term.entry))
        → NameRow program.now place m names row.old.items → NameRow program.now place m (names ++ asks_value (view term.entry)) row.new.items) }
{
    match term {
        Term::Named(code, name) => {
            if code <= 0x83 {
                match program.find(place, name) {
                    Some(number) => {
                        if is_open(slots, number) {
                            row.push(number)?;
                        }
                    }
                    None => {}
                }
            }
            Ok(())
        }
        Term::Operator(_) | Term::Location | Term::Constant(_) | Term::Offset(_) => Ok(()),
    }
}

/// Adds the numbers of the equates that the names of an expression find in its member.
fn add_leads(
    program: &Program,
    slots: &[ValueSlot],
    member_place: MemberPlace,
    expr: &[u8],
    row: &mut Vec<usize>,
) -> Result<(), AllocError>
    requires slots { AreFirstSlots program.now (all_found program.now) slots.now }
    requires spelled { IsExpression member_place.lab_len expr.now }
    ensures { OnOk result ((m : Member) → member_at program.now member_place.place ≡ Some m → FindOne program.now member_place.place m (flat_map (λ placed. asks_value placed.1) (terms_in member_place.lab_len 0 expr.now))
        → row.old.items ≡ [] → NameRow program.now member_place.place m (flat_map (λ placed. asks_value placed.1) (terms_in member_place.lab_len 0 expr.now)) row.new.items) }
{
    let mut terms = expression_of(expr, member_place.lab_len).terms();
    'terms: loop {
        match terms.next() {
            None => return Ok(()),
            Some((_, term)) => add_lead(program, slots, member_place.place, term, row)?,
        }
    }
}

/// The numbers of the equates to which a definition leads.
fn find_row(
    program: &Program,
    slots: &[ValueSlot],
    definition: &Definition,
    row: &mut Vec<usize>,
) -> Result<(), AllocError>
    requires files { IsOfFiles program.now }
    requires slots { AreFirstSlots program.now (all_found program.now) slots.now }
    requires there { (k : ℕ) × (f : FoundDefinition) × (slice_get (all_found program.now) k ≡ Some f) × (symbol_of definition.now ≡ symbol_view program.now f) }
    ensures { OnOk result ((k : ℕ) (f : FoundDefinition) → slice_get (all_found program.now) k ≡ Some f → symbol_of definition.now ≡ symbol_view program.now f → IsRow program.now f row.new.items) }
{
    row.clear();
    match definition.expr {
        None => Ok(()),
        Some(expr) => match place_of_member(program, definition.member) {
            Some(member_place) => add_leads(program, slots, member_place, expr, row),
            None => unreachable!(),
        },
    }
}

/// Which equates lead to which: a vertex for each definition.
pub fn leads_of(alloc: Global, program: &Program, slots: &[ValueSlot]) -> Result<Edges, AllocError>
    requires files { IsOfFiles program.now }
    requires slots { AreFirstSlots program.now (all_found program.now) slots.now }
    ensures { IfOk result (λ edges. AreRows program.now (all_found program.now) edges) }
{
    let mut edges = Edges::new(alloc);
    let mut row = Vec::new(alloc);
    'definitions: loop {
        match program.definition(edges.count()) {
            None => return Ok(edges),
            Some(definition) => {
                find_row(program, slots, &definition, &mut row)?;
                edges.add(row.as_slice())?;
            }
        }
    }
}
