//! The value of an expression, term by term.

ghost use Rattle.std.specs.Prelude.{◌≡◌, ◌≤◌, ◌<◌, ◌-◌, ◌+◌, ℕ, length, Ok, Err, IfErr, OnOk};
ghost use Rattle.omf_format.specs.Expression.{Tree, Spells, IsExpression, operand_count, operands_of, pending_after};
ghost use Rattle.omf_format.specs.Value.{operand_value, value};
ghost use Rattle.omf_format.specs.laws.Steps.{named_value};
ghost use Rattle.omf_expr.specs.View.{view};
ghost use Rattle.omf_expr.specs.Machine.{step_one, step_two, step_operand, step};

use crate::env::Env;
use crate::expr::{Expr, operand_count};
use crate::operators::{apply_one, apply_two};
use crate::reading::next_term;
use crate::stack::Stack;
use crate::term::Term;
use omf_format::{Value, ValueFault};

/// The value of the expression in the environment: that of its tree, or the first fault in the order of its terms.
/// The displacement in an Unknown is in the expression's bytes.
pub fn evaluate<E: Env>(expr: &Expr, env: &E) -> Result<Value, ValueFault>
    ensures value { (tree : Tree) → Spells expr.now.lab_len expr.now.text tree → result ≡ value (E.meaning env.now) expr.now.lab_len 0 tree }
{
    value_of(expr.bytes(), expr.lab_len(), env)
}

/// The value of bytes that spell an expression.
fn value_of<E: Env>(bytes: &[u8], lab_len: u8, env: &E) -> Result<Value, ValueFault>
    requires { IsExpression lab_len bytes.now }
    ensures { (tree : Tree) → Spells lab_len bytes.now tree → result ≡ value (E.meaning env.now) lab_len 0 tree }
{
    let mut pending = Stack::new();
    let mut left = bytes;
    'terms: loop {
        let at = bytes.len() - left.len();
        match next_term(left, lab_len) {
            Ok((Some(term), rest)) => {
                step(&mut pending, term, at, env)?;
                left = rest;
            }
            Ok((None, _)) => return Ok(pending.pop()),
            Err(_) => unreachable!(),
        }
    }
}

/// What a name represents, or the attribute of the name that is asked for.
fn named_value<E: Env>(code: u8, name: &[u8], at: usize, env: &E) -> Result<Value, ValueFault>
    ensures { result ≡ named_value (E.meaning env.now) at code name.now }
{
    if code <= 0x83 {
        return env.label(name, code == 0x82).ok_or(ValueFault::Unknown(at));
    }
    match env.attribute(code, name) {
        Some(n) => Ok(Value::Fixed(n)),
        None => Err(ValueFault::Unknown(at)),
    }
}

/// The value of a term that isn't an operator.
#[tactic(auto, unfolding(omf_format::specs::Value::operand_value))]
fn operand_value<E: Env>(term: Term, at: usize, env: &E) -> Result<Value, ValueFault>
    ensures { result ≡ operand_value (E.meaning env.now) at (view term.entry) }
{
    match term {
        Term::Operator(_) => Err(ValueFault::NotRelocatable),
        Term::Location => Ok(env.location()),
        Term::Constant(n) => Ok(Value::Fixed(n)),
        Term::Named(code, name) => named_value(code, name, at, env),
        Term::Offset(n) => apply_two(0x01, env.start(), Value::Fixed(n)),
    }
}

/// An operator of one operand takes the last pending value, and leaves its own.
fn step_one(pending: &mut Stack, code: u8) -> Result<(), ValueFault>
    requires some { 1 ≤ length pending.old }
    requires most { length pending.old ≤ 64 }
    ensures ok { OnOk result (step_one code pending.old ≡ Ok pending.new) }
    ensures err { IfErr result (λ fault. step_one code pending.old ≡ Err fault) }
{
    let a = pending.pop();
    pending.push(apply_one(code, a)?);
    Ok(())
}

/// An operator of two operands takes the last two pending values, of which the right one is the last, and leaves its own.
fn step_two(pending: &mut Stack, code: u8) -> Result<(), ValueFault>
    requires some { 2 ≤ length pending.old }
    requires most { length pending.old ≤ 64 }
    ensures ok { OnOk result (step_two code pending.old ≡ Ok pending.new) }
    ensures err { IfErr result (λ fault. step_two code pending.old ≡ Err fault) }
{
    let b = pending.pop();
    let a = pending.pop();
    pending.push(apply_two(code, a, b)?);
    Ok(())
}

/// An operand leaves its value.
fn step_operand<E: Env>(
    pending: &mut Stack,
    term: Term,
    at: usize,
    env: &E,
) -> Result<(), ValueFault>
    requires { length pending.old < 64 }
    ensures ok { OnOk result (step_operand (E.meaning env.now) at (view term.entry) pending.old ≡ Ok pending.new) }
    ensures err { IfErr result (λ fault. step_operand (E.meaning env.now) at (view term.entry) pending.old ≡ Err fault) }
{
    pending.push(operand_value(term, at, env)?);
    Ok(())
}

/// One term.
fn step<E: Env>(pending: &mut Stack, term: Term, at: usize, env: &E) -> Result<(), ValueFault>
    requires some { operands_of (view term) ≤ length pending.old }
    requires most { length pending.old ≤ 64 }
    requires room { pending_after (length pending.old) (view term) ≤ 64 }
    ensures ok { OnOk result (step (E.meaning env.now) at (view term.entry) pending.old ≡ Ok pending.new) }
    ensures err { IfErr result (λ fault. step (E.meaning env.now) at (view term.entry) pending.old ≡ Err fault) }
{
    match term {
        Term::Operator(code) => {
            if operand_count(code) == 1 {
                return step_one(pending, code);
            }
            step_two(pending, code)
        }
        Term::Location | Term::Constant(_) | Term::Named(_, _) | Term::Offset(_) => step_operand(
            pending, term, at, env,
        ),
    }
}
