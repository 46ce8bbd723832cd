//! What a formula amounts to: a number, or the expression that is written (ORCA/M reference manual, "Expressions").

ghost use Rattle.std.specs.Prelude.{◌≡◌, ◌++◌, ◌∷◌, [], map, Ok, IfOk, IfSome, OnOk};
ghost use Rattle.omf_format.specs.Expression.{AreTerms, IsTerm, operand_count, term_text, terms_text, Tree, Spells};
ghost use Rattle.omf_format.specs.Expression as expression;
ghost use Rattle.omf_format.specs.Value.{value};
ghost use Rattle.omf_expr.specs.View.{view};
ghost use Rattle.asm_meaning.specs.Constant as meaning;
ghost use Rattle.asm_meaning.specs.Constant.{amount, known_value, worth_of_two};
ghost use Rattle.asm_meaning.specs.laws.Steps.{worth_of_one};
ghost use Rattle.orca_operands.specs.AmountView.{with_terms, IsFormulaOf, kept_view, amount_view, kept_answer, less_location, written_term, written_terms, all_written, is_number_term, are_numbers, worth_of_value, no_environment, worth_view};
ghost use Rattle.orca_operands.specs.NamesView.{constants};
ghost use Rattle.orca_text.specs.View.{term};
ghost use Rattle.orca_operands.specs.FineView.{IsFineAmount};
ghost use Rattle.orca_operands.specs.NumberView.{IsTerms, HasAmount, HasNumber};

use crate::names::KnownConstants;
use asm_meaning::AsmCause;
use omf_expr::{Env, Expr, Term, Value, ValueFault, apply_one, apply_two, evaluate, put_term};
use orca_text::{Formula, FormulaTerm, LinePart, Operands, formula_at, is_too_deep};
use std::alloc::{AllocError, Global};

/// The value of a formula.
#[derive(Clone, Copy)]
pub(crate) enum KnownValue {
    /// A number.
    Number(u32),
    /// None: it contains the location counter, an attribute or a name that is no known constant.
    Open,
    /// A number divided by 0.
    Divided,
}

/// An environment without an answer.
#[derive(Clone, Copy)]
struct Nowhere;

impl Env for Nowhere {
    ghost use Rattle.orca_operands.specs.AmountView.{no_environment};

    ghost meaning = { λ _. no_environment };

    fn label(&self, _: &[u8], _: bool) -> Option<Value> {
        None
    }

    fn attribute(&self, _: u8, _: &[u8]) -> Option<u32> {
        None
    }

    fn location(&self) -> Value {
        Value::Fixed(0)
    }

    fn start(&self) -> Value {
        Value::Fixed(0)
    }
}

/// A term of an expression, with the value of a known constant in place of its name.
#[inline(always)]
fn with_value<'a>(known: KnownConstants<'_>, of: &'a FormulaTerm) -> Term<'a>
    ensures value { view result ≡ written_term (constants known.entry) (term of.now) }
    ensures fine { IsTerm 0 (term of.now) → IsTerm 0 (view result) }
{
    match of {
        FormulaTerm::Operator(code) => Term::Operator(*code),
        FormulaTerm::Location => Term::Location,
        FormulaTerm::Constant(n) => Term::Constant(*n),
        FormulaTerm::Named(code, name) => {
            if *code == 0x83 {
                if let Some(n) = known.value(name.bytes()) {
                    return Term::Constant(n);
                }
            }
            Term::Named(*code, name.bytes())
        }
        FormulaTerm::Offset(n) => Term::Offset(*n),
    }
}

/// Whether a term is a number or an operator.
#[inline(always)]
fn is_number_term(of: Term<'_>) -> bool
    ensures { result ≡ is_number_term (view of.entry) }
{
    match of {
        Term::Operator(_) => true,
        Term::Constant(_) => true,
        Term::Location => false,
        Term::Named(_, _) => false,
        Term::Offset(_) => false,
    }
}

/// Appends a term, or nothing.
fn append_term(out: &mut Vec<u8>, of: Term<'_>) -> Result<(), AllocError>
    requires { IsTerm 0 (view of) }
    ensures { OnOk result (out.new.items ≡ out.old.items ++ term_text 0 (view of.entry)) }
{
    match put_term(out, &of) {
        Ok(()) => Ok(()),
        Err(_) => Err(AllocError),
    }
}

/// Appends a term; in place of the location counter that counter less a number, unless that is 0.
#[inline(always)]
fn put_placed(out: &mut Vec<u8>, back: u8, of: Term<'_>) -> Result<(), AllocError>
    requires { IsTerm 0 (view of) }
    ensures { OnOk result (out.new.items ≡ out.old.items ++ terms_text 0 (written_terms back (view of.entry))) }
{
    if back > 0 {
        if let Term::Location = of {
            return put_location(out, back);
        }
    }
    append_term(out, of)
}

/// Appends the location counter less a number.
#[tactic(auto, using(crate::proofs::Amounts::location_put))]
fn put_location(out: &mut Vec<u8>, back: u8) -> Result<(), AllocError>
    ensures { OnOk result (out.new.items ≡ out.old.items ++ terms_text 0 (less_location back)) }
{
    append_term(out, Term::Location)?;
    append_term(out, Term::Constant(u32::from(back)))?;
    append_term(out, Term::Operator(0x02))
}

/// Appends what is written for the terms of a formula, and answers whether all of them are numbers and operators.
#[tactic(auto, using(crate::proofs::Amounts::terms_put, crate::proofs::Amounts::terms_end))]
fn put_terms(
    out: &mut Vec<u8>,
    known: KnownConstants<'_>,
    back: u8,
    terms: &[FormulaTerm],
) -> Result<bool, AllocError>
    requires { AreTerms 0 (map term terms.now) }
    ensures text { OnOk result (out.new.items ≡ out.old.items ++ terms_text 0 (all_written (constants known.entry) back (map term terms.now))) }
    ensures numbers { IfOk result (λ all. all ≡ are_numbers (constants known.entry) (map term terms.now)) }
    ensures fine { OnOk result (AreTerms 0 (with_terms (constants known.entry) (map term terms.now))) }
{
    let mut all = true;
    'terms: for term in terms {
        let next = with_value(known, term);
        if !is_number_term(next) {
            all = false;
        }
        put_placed(out, back, next)?;
    }
    Ok(all)
}

/// The value of bytes that spell an expression without names and places.
fn value_of(bytes: &[u8]) -> KnownValue
    ensures { (tree : Tree) → Spells 0 bytes.now tree → worth_view result ≡ worth_of_value (value no_environment 0 0 tree) }
{
    match Expr::of(bytes, 0) {
        Ok(expr) => number_of(evaluate(&expr, &Nowhere)),
        Err(_) => KnownValue::Open,
    }
}

/// A value as the value of a formula.
#[inline(always)]
fn number_of(of: Result<Value, ValueFault>) -> KnownValue
    ensures { worth_view result ≡ worth_of_value of }
{
    match of {
        Ok(Value::Fixed(n)) => KnownValue::Number(n),
        Ok(Value::At { .. }) => KnownValue::Open,
        Err(ValueFault::DivideByZero) => KnownValue::Divided,
        Err(ValueFault::NotRelocatable) => KnownValue::Open,
        Err(ValueFault::Unknown(_)) => KnownValue::Open,
    }
}

/// What a formula amounts to.
#[derive(Drop)]
pub enum Amount {
    /// A number.
    Known(u32),
    /// The terms of the expression that is written, without its end.
    Written(Vec<u8>),
}

/// The value of terms that all are numbers and operators, whose text is in `out`. The end is put after them and taken away again.
fn value_after(out: &mut Vec<u8>) -> Result<KnownValue, AllocError>
    ensures text { OnOk result (out.new.items ≡ out.old.items) }
    ensures value { IfOk result (λ w. (tree : Tree) → Spells 0 (out.old.items ++ 0x00 ∷ []) tree → worth_view w ≡ worth_of_value (value no_environment 0 0 tree)) }
{
    out.push(0)?;
    let worth = value_of(out.as_slice());
    let _end = out.pop();
    Ok(worth)
}

/// The number that an operator of one number makes of it.
#[inline(always)]
fn number_of_one(code: u8, a: u32) -> Option<u32>
    ensures { IfSome result (λ n. meaning.Number n ≡ worth_of_one code (meaning.Number a)) }
{
    match apply_one(code, Value::Fixed(a)) {
        Ok(Value::Fixed(n)) => Some(n),
        Ok(Value::At { .. }) => None,
        Err(_) => None,
    }
}

/// The number that an operator of two numbers makes of them. None says nothing.
#[tactic(auto, unfolding(omf_format::specs::Value::apply_two))]
#[inline(always)]
fn number_of_two(code: u8, a: u32, b: u32) -> Option<u32>
    ensures two { IfSome result (λ n. operand_count code ≡ 2) }
    ensures value { IfSome result (λ n. meaning.Number n ≡ worth_of_two code (meaning.Number a) (meaning.Number b)) }
{
    if code == 0x06 || code == 0x0B || code == 0x15 {
        return None;
    }
    match apply_two(code, Value::Fixed(a), Value::Fixed(b)) {
        Ok(Value::Fixed(n)) => Some(n),
        Ok(Value::At { .. }) => None,
        Err(_) => None,
    }
}

/// The number that a formula is whose first term is this number, where each operator after it takes the number so far and at
/// most one more. None says nothing.
fn chained_number(known: KnownConstants<'_>, first: u32, others: &[FormulaTerm]) -> Option<u32>
    ensures { IfSome result (λ n. (t : expression.Term) (tree : Tree) → expression.Constant first ≡ written_term (constants known.entry) t
        → IsFormulaOf (t ∷ map term others.now) tree → meaning.Number n ≡ known_value (constants known.entry) tree) }
{
    let mut number = first;
    let mut left = others;
    'left: loop {
        match left {
            [] => return Some(number),
            [FormulaTerm::Operator(code), rest @ ..] => {
                let Some(n) = number_of_one(*code, number) else {
                    return None;
                };
                number = n;
                left = rest;
            }
            [right, FormulaTerm::Operator(code), rest @ ..] => {
                let Term::Constant(b) = with_value(known, right) else {
                    return None;
                };
                let Some(n) = number_of_two(*code, number, b) else {
                    return None;
                };
                number = n;
                left = rest;
            }
            _ => return None,
        }
    }
}

/// What a formula amounts to whose first term is written as this one, by the bytes of its expression.
#[inline(always)]
fn long_amount(
    alloc: Global,
    known: KnownConstants<'_>,
    back: u8,
    first: Term<'_>,
    others: &[FormulaTerm],
) -> Result<Result<Amount, AsmCause>, AllocError>
    requires first { IsTerm 0 (view first) }
    requires others { AreTerms 0 (map term others.now) }
    ensures { IfOk result (λ answer. (t : expression.Term) (tree : Tree) → view first.entry ≡ written_term (constants known.entry) t
        → IsFormulaOf (t ∷ map term others.now) tree → amount_view answer ≡ kept_answer back (amount (constants known.entry) tree)) }
{
    let mut out = Vec::new(alloc);
    put_placed(&mut out, back, first)?;
    let all = put_terms(&mut out, known, back, others)?;
    if !all || !is_number_term(first) {
        return Ok(Ok(Amount::Written(out)));
    }
    let worth = value_after(&mut out)?;
    match worth {
        KnownValue::Number(n) => Ok(Ok(Amount::Known(n))),
        KnownValue::Divided => Ok(Err(AsmCause::DivideByZero)),
        KnownValue::Open => Ok(Ok(Amount::Written(out))),
    }
}

/// What a formula amounts to where these constants are known. In an instruction the location counter is written less a
/// number, and elsewhere as it is (0).
pub(crate) fn amount_of(
    alloc: Global,
    known: KnownConstants<'_>,
    back: u8,
    terms: &[FormulaTerm],
) -> Result<Result<Amount, AsmCause>, AllocError>
    requires { AreTerms 0 (map term terms.now) }
    ensures { IfOk result (λ answer. (tree : Tree) → IsFormulaOf (map term terms.now) tree → amount_view answer ≡ kept_answer back (amount (constants known.entry) tree)) }
{
    let Some((first, others)) = terms.split_first() else {
        // No formula is empty.
        return Ok(Ok(Amount::Known(0)));
    };
    let of = with_value(known, first);
    if let Term::Constant(n) = of {
        if let Some(number) = chained_number(known, n, others) {
            return Ok(Ok(Amount::Known(number)));
        }
    }
    long_amount(alloc, known, back, of, others)
}

/// The formula that a text is, unless it is too deep or has a number that is too large.
fn formula_in(alloc: Global, text: LinePart<'_>) -> Result<Result<Formula, AsmCause>, AllocError>
    ensures { IfOk result (IsTerms text.entry.bytes.now) }
{
    let Some(found) = formula_at(alloc, Operands::Labels, text)? else {
        return Ok(Err(AsmCause::BadOperand));
    };
    if !found.rest.is_empty() {
        return Ok(Err(AsmCause::BadOperand));
    }
    if is_too_deep(1, &found.formula) {
        return Ok(Err(AsmCause::BadOperand));
    }
    if found.large {
        return Ok(Err(AsmCause::BadNumber));
    }
    Ok(Ok(found.formula))
}

/// What the formula amounts to that a text is.
pub fn amount_in(
    alloc: Global,
    known: KnownConstants<'_>,
    text: LinePart<'_>,
) -> Result<Result<Amount, AsmCause>, AllocError>
    ensures amount { IfOk result (HasAmount (constants known.entry) text.entry.bytes.now) }
    ensures fine { IfOk result (λ answer. IfOk answer IsFineAmount) }
{
    match formula_in(alloc, text)? {
        Ok(formula) => {
            known.recall_small();
            amount_of(alloc, known, 0, formula.terms())
        }
        Err(cause) => Ok(Err(cause)),
    }
}

/// The number that a text is, where it has to be a constant.
pub fn number_in(
    alloc: Global,
    known: KnownConstants<'_>,
    text: LinePart<'_>,
) -> Result<Result<u32, AsmCause>, AllocError>
    ensures { IfOk result (HasNumber (constants known.entry) text.entry.bytes.now) }
{
    match amount_in(alloc, known, text)? {
        Ok(Amount::Known(n)) => Ok(Ok(n)),
        Ok(Amount::Written(_text)) => Ok(Err(AsmCause::UnknownConstant)),
        Err(cause) => Ok(Err(cause)),
    }
}
