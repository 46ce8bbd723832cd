// Expressions. What no clause says: that the definitions are those of the field, and that memory is enough.
mod reported;
mod wanted;

ghost use Rattle.std.specs.Prelude.{Some, None, if◌then◌else◌};
ghost use Rattle.std.specs.Str.{bytes_eq};
ghost use Rattle.omf_format.specs.Expression.{IsTerm};
ghost use Rattle.omf_expr.specs.View.{view};
ghost use Rattle.omf_format.specs.declared.value.Value.TheVariants as value;

use crate::asserting::same;
use omf_expr::{
    Env, Expr, ExprFault, ExprPutFault, Term, Terms, Value, ValueFault, evaluate, put_term,
};
use reported::{REPORTED, Reported, as_reported, place};
use std::alloc::Global;
use std::process::Abort;
use std::test::Fail;
use wanted::{OF_ONE, OF_TWO, SHIFTS, VALUES};

/// An environment that knows one name.
#[derive(Drop)]
struct OneName<'a> {
    name: &'a [u8],
    value: Value,
    location: Value,
    start: Value,
}

impl<'a> Env for OneName<'a> {
    ghost meaning = { λ n. record {
      label = λ name weak. if bytes_eq n.name.now name then Some (if weak then value.Fixed 0 else n.value) else None;
      attribute = λ term name. if bytes_eq n.name.now name then Some term else None;
      location = n.location;
      start = n.start;
    } };

    fn label(&self, name: &[u8], weak: bool) -> Option<Value> {
        if self.name == name {
            return Some(if weak { Value::Fixed(0) } else { self.value });
        }
        None
    }

    fn attribute(&self, term: u8, name: &[u8]) -> Option<u32> {
        if self.name == name {
            return Some(u32::from(term));
        }
        None
    }

    fn location(&self) -> Value {
        self.location
    }

    fn start(&self) -> Value {
        self.start
    }
}

fn names() -> OneName<'static> {
    OneName {
        name: b"AB",
        value: place(2, 0x100, 0),
        location: place(2, 0x40, 0),
        start: place(2, 0x30, 0),
    }
}

/// The value of the expression at the start of the bytes.
fn value_of(bytes: &[u8], lab_len: u8) -> Reported {
    let expr = Expr::of(bytes, lab_len)?;
    Ok(evaluate(&expr, &names()))
}

/// An operator of two numbers.
fn of_two(code: u8, a: u32, b: u32) -> Reported {
    let [a0, a1, a2, a3] = a.to_le_bytes();
    let [b0, b1, b2, b3] = b.to_le_bytes();
    value_of(&[0x81, a0, a1, a2, a3, 0x81, b0, b1, b2, b3, code, 0], 0)
}

/// An operator of one number.
fn of_one(code: u8, a: u32) -> Reported {
    let [a0, a1, a2, a3] = a.to_le_bytes();
    value_of(&[0x81, a0, a1, a2, a3, code, 0], 0)
}

/// What an operator is to give, where it gives this number: there is no quotient and no remainder by 0.
fn given(code: u8, b: u32, number: u32) -> Reported {
    if b == 0 && (code == 0x04 || code == 0x05) {
        return Ok(Err(ValueFault::DivideByZero));
    }
    Ok(Ok(Value::Fixed(number)))
}

/// Ends the test where the operator of a left operand and each right one doesn't give this row.
fn gives(rt: &impl Abort, code: u8, a: u32, row: &[u32; 5]) {
    for (b, number) in VALUES.iter().zip(row.iter()) {
        let want = given(code, *b, *number);
        same(rt, &(a, code, *b), of_two(code, a, *b), want);
    }
}

/// The same for each left operand.
fn gives_all(rt: &impl Abort, code: u8, rows: &[[u32; 5]; 5]) {
    for (a, row) in VALUES.iter().zip(rows.iter()) {
        gives(rt, code, *a, row);
    }
}

/// Ends the test where the operator of one number doesn't give this row.
fn gives_of_one(rt: &impl Abort, code: u8, row: &[u32; 5]) {
    for (a, number) in VALUES.iter().zip(row.iter()) {
        let want = given(code, 1, *number);
        same(rt, &(code, *a), of_one(code, *a), want);
    }
}

/// Ends the test where the shifts by -33 to 33 don't give this row.
fn shifts_to(rt: &impl Abort, a: u32, row: &[u32; 67]) {
    let mut count = 0u32.wrapping_sub(33);
    for number in row {
        let want = given(0x07, count, *number);
        same(rt, &(a, "by", count), of_two(0x07, a, count), want);
        count = count.wrapping_add(1);
    }
}

#[test]
fn operators_at_the_extremes(rt: HostRuntime) {
    for (code, rows) in &OF_TWO {
        gives_all(&rt, *code, rows);
    }
    for (code, row) in &OF_ONE {
        gives_of_one(&rt, *code, row);
    }
    for (a, row) in VALUES.iter().zip(SHIFTS.iter()) {
        shifts_to(&rt, *a, row);
    }
}

#[test]
fn expressions_have_values_or_faults(rt: HostRuntime) {
    for (bytes, lab_len, want) in &REPORTED {
        same(&rt, bytes, value_of(bytes, *lab_len), as_reported(want));
    }
}

/// The text of a term.
fn written(alloc: Global, term: &Term) -> Result<Vec<u8>, ExprPutFault>
    requires { IsTerm 0 (view term.now) }
{
    let mut text = Vec::new(alloc);
    put_term(&mut text, term)?;
    Ok(text)
}

/// 64 constants 1, then a given number of additions, and then these bytes.
fn sum_of(alloc: Global, additions: u32, last: &[u8]) -> Result<Vec<u8>, Fail> {
    let constant = written(alloc, &Term::Constant(1))?;
    let addition = written(alloc, &Term::Operator(0x01))?;
    let mut text = Vec::new(alloc);
    for _ in 0..64u32 {
        text.extend_from_slice(&constant)?;
    }
    for _ in 0..additions {
        text.extend_from_slice(&addition)?;
    }
    text.extend_from_slice(last)?;
    Ok(text)
}

/// Whether the expression at the start of the text is all of it.
fn is_all(text: &[u8]) -> bool {
    match Expr::of(text, 0) {
        Ok(expr) => expr.bytes() == text,
        Err(_) => false,
    }
}

/// What is reported of 64 constants, a given number of additions and these bytes, and whether they are one expression.
fn reported_of_sum(alloc: Global, additions: u32, last: &[u8]) -> Result<(Reported, bool), Fail> {
    let text = sum_of(alloc, additions, last)?;
    Ok((value_of(&text, 0), is_all(&text)))
}

#[test]
fn sixty_four_values_may_be_pending(rt: HostRuntime) -> Result<(), Fail> {
    let alloc = rt.alloc();
    same(
        &rt,
        &64,
        reported_of_sum(alloc, 63, &[0x00])?,
        (Ok(Ok(Value::Fixed(64))), true),
    );

    let location = written(alloc, &Term::Location)?;
    let deeper = reported_of_sum(alloc, 0, &location)?;
    same(&rt, &65, deeper, (Err(ExprFault::TooDeep(320)), false));
    Ok(())
}

/// Terms, and how they are written.
static WRITTEN: [(Term<'static>, &[u8]); 5] = [
    (Term::Constant(5), b"\x81\x05\x00\x00\x00"),
    (Term::Offset(0x12345678), b"\x87\x78\x56\x34\x12"),
    (Term::Location, b"\x80"),
    (Term::Operator(0x15), b"\x15"),
    (Term::Named(0x82, b"A B"), b"\x82\x03A B"),
];

/// The terms of the text, and two ends, with their displacements.
static TERMS: [Option<(usize, Term<'static>)>; 7] = [
    Some((0, Term::Location)),
    Some((1, Term::Named(0x83, b"A"))),
    Some((4, Term::Constant(5))),
    Some((9, Term::Operator(0x01))),
    Some((10, Term::Operator(0x02))),
    None,
    None,
];

fn next<'a>(terms: &mut Terms<'a>) -> Option<(usize, Term<'a>)> {
    terms.next()
}

#[test]
fn terms_are_written_and_come_with_their_displacements(rt: HostRuntime) -> Result<(), Fail> {
    for (term, want) in &WRITTEN {
        same(&rt, term, written(rt.alloc(), term)?.as_slice(), *want);
    }
    let expr = Expr::of(b"\x80\x83A \x81\x05\0\0\0\x01\x02\0", 2)?;
    let mut terms = expr.terms();
    for want in &TERMS {
        same(&rt, want, next(&mut terms), *want);
    }
    Ok(())
}
