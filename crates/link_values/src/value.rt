//! The values of expressions in their members.

ghost use Rattle.std.specs.Prelude.{◌≡◌, ◌+◌, ◌<◌, ◌^◌, ℕ, List, Some, option_map};
ghost use Rattle.omf_format.specs.Expression.{Tree, Spells, IsExpression, terms_in};
ghost use Rattle.omf_expr.specs.View.{view};
ghost use Rattle.omf_format.specs.declared.value.ValueFault.TheVariants.{Unknown};
ghost use Rattle.link_meaning.specs.Member.{Member};
ghost use Rattle.link_meaning.specs.Search.{FoundDefinition};
ghost use Rattle.link_program.specs.Outside.{all_found};
ghost use Rattle.object_meaning.specs.Terms.{term_at};
ghost use Rattle.link_meaning.specs.LinkValues.{fault_named, place_value, value_in};
ghost use Rattle.link_meaning.specs.laws.Steps.{fault_found};
ghost use Rattle.link_program.specs.Finding.{IsFirstOf};
ghost use Rattle.link_values.specs.Slots.{AreOnce, AreSlots, rows_of};
ghost use Rattle.link_program.specs.MemberPlaces.{IsMemberPlace};
ghost use Rattle.link_values.specs.Surroundings.{AreKnown};
ghost use Rattle.link_values.specs.Operands.{operand, operand_in};

use crate::member_env::MemberEnv;
use crate::slots::ValueSlot;
use link_program::{MemberPlace, Program, expression_of};
use omf_expr::{Expr, Term, evaluate};
use omf_format::{Value, ValueFault};

/// A place of a member, counted from its start.
pub fn place_at(member_place: MemberPlace, at: u32) -> Value
    requires { member_place.offset + at < 2 ^ 32 }
    ensures { (list : List Member) (m : Member) → IsMemberPlace list m member_place → result ≡ place_value list member_place.place m at }
{
    Value::At {
        file: 1,
        segment: member_place.load_segment,
        offset: member_place.offset + at,
        shift: 0,
    }
}

/// The term, where it isn't an operator.
fn operand(term: Term) -> Option<Term>
    ensures { option_map view result ≡ operand (view term.entry) }
{
    match term {
        Term::Operator(_) => None,
        Term::Location => Some(Term::Location),
        Term::Constant(n) => Some(Term::Constant(n)),
        Term::Named(code, name) => Some(Term::Named(code, name)),
        Term::Offset(n) => Some(Term::Offset(n)),
    }
}

/// The operand of an expression at a place among its bytes.
fn operand_at<'a>(expr: &Expr<'a>, at: usize) -> Option<Term<'a>>
    ensures { option_map view result ≡ operand_in at (terms_in expr.now.lab_len 0 expr.now.text) }
{
    let mut terms = expr.terms();
    'terms: loop {
        match terms.next() {
            None => return None,
            Some((place, term)) => {
                if place == at {
                    match operand(term) {
                        Some(found) => return Some(found),
                        None => {}
                    }
                }
            }
        }
    }
}

/// The fault of the equate that a name found, by its number; otherwise the other one.
fn fault_of(slots: &[ValueSlot], found: Option<usize>, fault: ValueFault) -> ValueFault
    ensures { (list : List Member) (all founds : List FoundDefinition) → AreOnce all → AreSlots list all slots.now → IsFirstOf all founds found
        → result ≡ fault_found list (rows_of all slots.now) fault founds }
{
    match found {
        None => fault,
        Some(number) => match slots.get(number) {
            Some(ValueSlot::Open) => ValueFault::NotRelocatable,
            Some(ValueSlot::Done(_)) => fault,
            Some(ValueSlot::Failed(of)) => *of,
            None => fault,
        },
    }
}

/// The fault of a name at a place among the expression's bytes that has no value: that of its equate, or that it is unknown.
fn fault_at(
    program: &Program,
    slots: &[ValueSlot],
    place: u32,
    expr: &Expr,
    at: usize,
) -> ValueFault
    requires { AreKnown program.now slots.now }
    ensures { (m : Member) (tree : Tree) → member_at program.now place ≡ Some m → Spells expr.now.lab_len expr.now.text tree
        → result ≡ fault_named program.now (rows_of (all_found program.now) slots.now) place m (Unknown at) (term_at expr.now.lab_len at 0 tree) }
{
    let fault = ValueFault::Unknown(at);
    match operand_at(expr, at) {
        Some(Term::Named(code, name)) => {
            if code <= 0x83 {
                fault_of(slots, program.find(place, name), fault)
            } else {
                fault
            }
        }
        Some(Term::Operator(_)) => fault,
        Some(Term::Location) => fault,
        Some(Term::Constant(_)) => fault,
        Some(Term::Offset(_)) => fault,
        None => fault,
    }
}

ghost use Rattle.link_program.specs.Linked.{member_at};

/// The value of an expression of a member, where `location` of its cells are before the record.
pub fn value_in(
    program: &Program,
    slots: &[ValueSlot],
    member_place: MemberPlace,
    location: u32,
    expr: &[u8],
) -> Result<Value, ValueFault>
    requires known { AreKnown program.now slots.now }
    requires spelled { IsExpression member_place.lab_len expr.now }
    requires near { member_place.offset + location < 2 ^ 32 }
    ensures { (m : Member) → IsMemberPlace program.now m member_place
        → result ≡ value_in program.now (rows_of (all_found program.now) slots.now) member_place.place m location expr.now }
{
    let text = expression_of(expr, member_place.lab_len);
    let location = place_at(member_place, location);
    let start = place_at(member_place, 0);
    let meets = MemberEnv::new(program, slots, member_place.place, location, start);
    match evaluate(&text, &meets) {
        Ok(value) => Ok(value),
        Err(ValueFault::DivideByZero) => Err(ValueFault::DivideByZero),
        Err(ValueFault::NotRelocatable) => Err(ValueFault::NotRelocatable),
        Err(ValueFault::Unknown(at)) => {
            Err(fault_at(program, slots, member_place.place, &text, at))
        }
    }
}
