//! Conditions and the numbers of conditional assembly (ORCA/M reference manual, "Conditional assembly expressions").

ghost use Rattle.std.specs.Prelude.{◌≡◌, ◌++◌, ◌∷◌, [], ◌==◌, not, List, ℕ, Some, None, Ok, Err, is_some, IfOk, IfErr, IfSome, IfNone, OnOk, MatchOption};
ghost use Rattle.std.specs.List.{list_all};
ghost use Rattle.omf_format.specs.Expression.{AreTerms, terms_text, Tree, Spells};
ghost use Rattle.omf_format.specs.Value.{value, truth, apply_two};
ghost use Rattle.omf_format.specs.declared.value.Value.TheVariants as Value;
ghost use Rattle.orca_meaning.specs.Formula.{operator_code};
ghost use Rattle.macro_meaning.specs.Condition.{attribute, symbol_environment, IsNumber, IsCondition, comparison_at, comparison};
ghost use Rattle.macro_meaning.specs.laws.Steps.{is_declared, number_of, compared_with};
ghost use Rattle.macro_meaning.specs.Symbol.{text_of};
ghost use Rattle.omf_expr.specs.View.{view};
ghost use Rattle.orca_symbols.specs.Short.{HasNumber};
ghost use Rattle.orca_symbols.specs.View.{values};
ghost use Rattle.orca_text.specs.View.{term};

use crate::operands::{quoted_at, unquote};
use crate::symbols::{Values, text_of};
use macro_meaning::MacroCause;
use omf_expr::{Env, Expr, Term, Value, ValueFault, evaluate, put_term};
use orca_meaning::Operator;
use orca_text::{
    Formula, FormulaTerm, LinePart, Operands, ShortFormula, formula_at, is_too_deep, short_formula,
};
use std::alloc::{AllocError, Global};

/// 1 for what is true, and 0 for what isn't.
fn truth(holds: bool) -> u32
    ensures { result ≡ truth holds }
{
    if holds { 1 } else { 0 }
}

/// What a formula asks of a symbol's text.
fn attribute(code: u8, text: LinePart<'_>) -> u32
    ensures { result ≡ attribute code text.entry.bytes.now }
{
    if code == 0x84 {
        return text.bytes.len() as u32;
    }
    truth(!text.bytes.is_empty())
}

impl<'a> Env for Values<'a> {
    ghost use Rattle.macro_meaning.specs.Condition.{symbol_environment};
    ghost use Rattle.orca_symbols.specs.View.{values};

    ghost meaning = { λ of. symbol_environment (values of) };

    fn label(&self, _: &[u8], _: bool) -> Option<Value> {
        None
    }

    fn attribute(&self, term: u8, name: &[u8]) -> Option<u32> {
        match text_of(*self, name) {
            Some(text) => Some(attribute(term, LinePart { bytes: text })),
            None => None,
        }
    }

    fn location(&self) -> Value {
        Value::Fixed(0)
    }

    fn start(&self) -> Value {
        Value::Fixed(0)
    }
}

/// Whether the symbol of which a term asks is declared.
fn is_declared(of: Values<'_>, next: &FormulaTerm) -> bool
    ensures { result ≡ is_declared (values of.entry) (term next.now) }
{
    match next {
        FormulaTerm::Named(_, name) => text_of(of, name.bytes()).is_some(),
        FormulaTerm::Operator(_)
        | FormulaTerm::Location
        | FormulaTerm::Constant(_)
        | FormulaTerm::Offset(_) => true,
    }
}

/// Whether the symbols of which a formula asks are declared.
fn are_declared(of: Values<'_>, terms: &[FormulaTerm]) -> bool
    ensures { result ≡ list_all (is_declared (values of.entry)) (Rattle.std.specs.Prelude.map term terms.now) }
{
    terms.iter().all(|next| is_declared(of, next))
}

/// A term as one of an expression.
fn as_term(of: &FormulaTerm) -> Term<'_>
    ensures { view result ≡ term of.now }
{
    match of {
        FormulaTerm::Operator(code) => Term::Operator(*code),
        FormulaTerm::Location => Term::Location,
        FormulaTerm::Constant(n) => Term::Constant(*n),
        FormulaTerm::Named(code, name) => Term::Named(*code, name.bytes()),
        FormulaTerm::Offset(n) => Term::Offset(*n),
    }
}

/// The bytes of an expression with these terms.
fn expression(alloc: Global, terms: &[FormulaTerm]) -> Result<Vec<u8>, AllocError>
    requires { AreTerms 0 (Rattle.std.specs.Prelude.map term terms.now) }
    ensures { IfOk result (λ v. v.items ≡ terms_text 0 (Rattle.std.specs.Prelude.map term terms.now) ++ 0x00 ∷ []) }
{
    let mut out = Vec::with_capacity(alloc, 6 * terms.len() + 1)?;
    'terms: for next in terms {
        match put_term(&mut out, &as_term(next)) {
            Ok(()) => {}
            Err(_) => return Err(AllocError),
        }
    }
    out.push(0)?;
    Ok(out)
}

/// A value as a number.
fn number_of(value: Result<Value, ValueFault>) -> Result<u32, MacroCause>
    ensures { result ≡ number_of value }
{
    match value {
        Ok(Value::Fixed(n)) => Ok(n),
        Ok(Value::At { .. }) => Err(MacroCause::BadSetting),
        Err(_) => Err(MacroCause::BadSetting),
    }
}

/// The value of a formula with numbers that fit, and at most 64 pending values.
fn value_of(
    alloc: Global,
    of: Values<'_>,
    formula: &Formula,
) -> Result<Result<u32, MacroCause>, AllocError>
    requires { AreTerms 0 formula.now }
    ensures { IfOk result (λ answer. (tree : Tree) → Spells 0 (terms_text 0 formula.now ++ 0x00 ∷ []) tree → answer ≡ number_of (value (symbol_environment (values of.entry)) 0 0 tree)) }
{
    let bytes = expression(alloc, formula.terms())?;
    match Expr::of(bytes.as_slice(), 0) {
        Ok(expr) => Ok(number_of(evaluate(&expr, &of))),
        Err(_) => Ok(Err(MacroCause::BadSetting)),
    }
}

/// What an operator makes of two numbers. None says nothing.
#[tactic(auto, unfolding(omf_format::specs::Value::apply_two, omf_format::specs::Value::number_of_two))]
fn joined_numbers(operator: Operator, a: u32, b: u32) -> Option<u32>
    ensures { IfSome result (λ n. apply_two (operator_code operator) (Value.Fixed a) (Value.Fixed b) ≡ Ok (Value.Fixed n)) }
{
    match operator {
        Operator::Add => Some(a.wrapping_add(b)),
        Operator::Subtract => Some(a.wrapping_sub(b)),
        Operator::Multiply => Some(a.wrapping_mul(b)),
        Operator::Less => Some(truth(a.cast_signed() < b.cast_signed())),
        Operator::Greater => Some(truth(a.cast_signed() > b.cast_signed())),
        Operator::LessOrEqual => Some(truth(a.cast_signed() <= b.cast_signed())),
        Operator::GreaterOrEqual => Some(truth(a.cast_signed() >= b.cast_signed())),
        Operator::Equal => Some(truth(a == b)),
        Operator::NotEqual => Some(truth(a != b)),
        Operator::Divide | Operator::Shift | Operator::And | Operator::Or | Operator::Eor => None,
    }
}

/// The value of a text that is a number, or two or three with operators between them. None says nothing.
#[tactic(auto, using(crate::proofs::Shorts::one_number, crate::proofs::Shorts::two_numbers, crate::proofs::Shorts::three_numbers))]
#[inline(always)]
fn short_value(text: &[u8]) -> Option<u32>
    ensures { IfSome result (λ n. HasNumber text.now n) }
{
    match short_formula(text) {
        Some(ShortFormula::One(n)) => Some(n),
        Some(ShortFormula::Two(operator, a, b)) => joined_numbers(operator, a, b),
        Some(ShortFormula::Three(operator, a, second, b, c)) => match joined_numbers(second, b, c) {
            Some(n) => joined_numbers(operator, a, n),
            None => None,
        },
        None => None,
    }
}

/// The value of the formula that a text is, or what is wrong with it.
#[inline(always)]
pub fn number(
    alloc: Global,
    of: Values<'_>,
    text: LinePart<'_>,
) -> Result<Result<u32, MacroCause>, AllocError>
    ensures { IfOk result (λ answer. IsNumber (values of.entry) text.entry.bytes.now answer) }
{
    match short_value(text.bytes) {
        Some(n) => Ok(Ok(n)),
        None => long_number(alloc, of, text),
    }
}

/// The value of any formula that a text is, or what is wrong with it.
fn long_number(
    alloc: Global,
    of: Values<'_>,
    text: LinePart<'_>,
) -> Result<Result<u32, MacroCause>, AllocError>
    ensures { IfOk result (λ answer. IsNumber (values of.entry) text.entry.bytes.now answer) }
{
    let Some(found) = formula_at(alloc, Operands::Symbols, text)? else {
        return Ok(Err(MacroCause::BadSetting));
    };
    if !found.rest.is_empty() {
        return Ok(Err(MacroCause::BadSetting));
    }
    if !are_declared(of, found.formula.terms()) {
        return Ok(Err(MacroCause::NoSuchSymbol));
    }
    if found.large {
        return Ok(Err(MacroCause::BadSetting));
    }
    if is_too_deep(1, &found.formula) {
        return Ok(Err(MacroCause::BadSetting));
    }
    value_of(alloc, of, &found.formula)
}

/// The comparison at the start: whether it asks for equal texts, and what follows it.
fn comparison_at(text: &[u8]) -> Option<(bool, &[u8])>
    ensures { MatchOption result (comparison_at text.now ≡ None) (λ x. comparison_at text.now ≡ Some (x.0, x.1.now)) }
{
    let Some((first, following)) = text.split_first() else {
        return None;
    };
    if *first == b'=' {
        return Some((true, following));
    }
    let Some((second, rest)) = following.split_first() else {
        return None;
    };
    if *first == b'<' && *second == b'>' {
        return Some((false, rest));
    }
    None
}

/// Whether a text satisfies the comparison that follows it, with a text in quotes.
fn compared_with(a: &[u8], following: &[u8]) -> Option<bool>
    ensures { result ≡ compared_with a.now (comparison_at following.now) }
{
    let Some((equal, rest)) = comparison_at(following) else {
        return None;
    };
    match unquote(rest) {
        Some(b) => Some((a == b) == equal),
        None => None,
    }
}

/// Whether a comparison of two texts in quotes holds, where the text is one.
#[tactic(auto, unfolding(macro_meaning::specs::Condition::comparison))]
fn comparison(text: &[u8]) -> Option<bool>
    ensures { result ≡ comparison text.now }
{
    match quoted_at(text) {
        Some((a, following)) => compared_with(a, following),
        None => None,
    }
}

/// The value of a condition: a comparison of two texts, or a formula.
#[inline(always)]
pub fn condition(
    alloc: Global,
    of: Values<'_>,
    text: LinePart<'_>,
) -> Result<Result<u32, MacroCause>, AllocError>
    ensures { IfOk result (λ answer. IsCondition (values of.entry) text.entry.bytes.now answer) }
{
    match comparison(text.bytes) {
        Some(holds) => Ok(Ok(truth(holds))),
        None => number(alloc, of, text),
    }
}
