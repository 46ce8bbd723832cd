//! The operands and operators of formulas, taken from the start of a text (ORCA/M reference manual, "Expressions").

ghost use Rattle.std.specs.Prelude.{◌≡◌, ◌≢◌, ℕ, List, ◌+◌, ◌≤◌, ◌<◌, ◌∷◌, true, false, map, length, take, drop, Some, None, IfOk, MatchOption, bytes_eq};
ghost use Rattle.std.specs.Char.{to_ascii_uppercase};
ghost use Rattle.std.specs.List.{prefix_len};
ghost use Rattle.orca_meaning.specs.Characters.{is_name_start, is_name_byte, folded};
ghost use Rattle.orca_meaning.specs.Token.{Here, location_at, seen_as, number_at, name_at, symbol_at, attribute_at, operand_at, byte_at, operand_token_at, operator_token_at, Opens, Closes};
ghost use Rattle.orca_meaning.specs.laws.Steps.{other_operand_at};
ghost use Rattle.orca_text.specs.Kept.{fitting, kept_operand, kept_token};
ghost use Rattle.orca_text.specs.TokenView.{operand, operand_token, operator_token, number_operand, letter_of, asked, asked_name};

use crate::fields::from;
use crate::line_part::LinePart;
use crate::operator_tokens::{operator_at, sign_at};
use crate::tokens::number_at;
use omf_base::Name;
use orca_meaning::{Operands, Operator, Sign};
use std::alloc::{AllocError, Global};

/// An operand of a formula.
#[derive(Drop)]
pub(crate) enum FormulaOperand {
    /// The location counter.
    Here,
    /// A number.
    Number(u32),
    /// A number above 4,294,967,295.
    TooLarge,
    /// A label.
    Label(Name),
    /// The length of a label or a symbol.
    LengthOf(Name),
    /// The count of a label or a symbol.
    CountOf(Name),
}

/// A token where an operand is expected.
#[derive(Drop)]
pub(crate) enum OperandToken {
    /// An operand.
    Value(FormulaOperand),
    /// An operator before one.
    Before(Sign),
    /// A parenthesis before one.
    Opens,
}

/// A token after an operand.
#[derive(Clone, Copy)]
pub(crate) enum OperatorToken {
    /// An operator between two.
    Between(Operator),
    /// The end of a parenthesis.
    Closes,
}

/// Whether a name may begin with the byte.
#[inline(always)]
pub fn is_name_start(byte: u8) -> bool
    ensures { result ≡ is_name_start byte }
{
    byte.is_ascii_alphabetic() || byte == b'_' || byte == b'~'
}

/// Whether a name may go on with the byte.
#[inline(always)]
fn is_name_byte(byte: u8) -> bool
    ensures { result ≡ is_name_byte byte }
{
    is_name_start(byte) || byte.is_ascii_digit()
}

/// How many bytes at the start go on with a name.
#[inline(always)]
pub fn name_len(following: &[u8]) -> usize
    ensures value { result ≡ prefix_len is_name_byte following.now }
    ensures bound { result ≤ length following.now }
{
    let mut count = 0;
    'bytes: for byte in following {
        if !is_name_byte(*byte) {
            return count;
        }
        count += 1;
    }
    count
}

/// Bytes in upper case, as a name.
pub fn to_upper_case(alloc: Global, text: LinePart<'_>) -> Result<Name, AllocError>
    ensures { IfOk result (λ name. name ≡ folded text.entry.bytes.now) }
{
    let mut name = Vec::with_capacity(alloc, text.bytes.len())?;
    'bytes: for byte in text.bytes {
        name.push(byte.to_ascii_uppercase())?;
    }
    Ok(Name::from_vec(name))
}

/// The longest name at the start of a text, in upper case, and what follows it.
#[tactic(auto, unfolding(orca_meaning::specs::Token::name_at))]
pub fn name_at(alloc: Global, text: LinePart<'_>) -> Result<Option<(Name, &[u8])>, AllocError>
    ensures { IfOk result (λ found. MatchOption found (name_at text.entry.bytes.now ≡ None) (λ x. name_at text.entry.bytes.now ≡ Some (x.0, x.1.now))) }
{
    let Some((first, following)) = text.bytes.split_first() else {
        return Ok(None);
    };
    if !is_name_start(*first) {
        return Ok(None);
    }
    let (bytes, rest) = text.bytes.split_at(1 + name_len(following));
    let name = to_upper_case(alloc, LinePart { bytes })?;
    Ok(Some((name, rest)))
}

/// The name of a symbol after `&` at the start of a text, and what follows it.
#[tactic(auto, unfolding(orca_meaning::specs::Token::symbol_at))]
pub fn symbol_at(alloc: Global, text: LinePart<'_>) -> Result<Option<(Name, &[u8])>, AllocError>
    ensures { IfOk result (λ found. MatchOption found (symbol_at text.entry.bytes.now ≡ None) (λ x. symbol_at text.entry.bytes.now ≡ Some (x.0, x.1.now))) }
{
    let Some((first, following)) = text.bytes.split_first() else {
        return Ok(None);
    };
    if *first != b'&' {
        return Ok(None);
    }
    name_at(alloc, LinePart { bytes: following })
}

/// What is asked of a name.
#[derive(Clone, Copy)]
enum Asked {
    Length,
    Count,
}

/// What the letter before a colon asks of a name.
#[inline(always)]
fn asked_by(letter: u8) -> Option<Asked>
    ensures { MatchOption result ((to_ascii_uppercase letter ≢ 0x4C) × (to_ascii_uppercase letter ≢ 0x43)) (λ asked. to_ascii_uppercase letter ≡ letter_of asked) }
{
    match letter {
        b'L' | b'l' => Some(Asked::Length),
        b'C' | b'c' => Some(Asked::Count),
        _ => None,
    }
}

/// The name that an attribute is asked of.
fn asked_name(
    alloc: Global,
    operands: Operands,
    text: LinePart<'_>,
) -> Result<Option<(Name, &[u8])>, AllocError>
    ensures { IfOk result (λ found. MatchOption found (asked_name operands text.entry.bytes.now ≡ None) (λ x. asked_name operands text.entry.bytes.now ≡ Some (x.0, x.1.now))) }
{
    match operands {
        Operands::Labels => name_at(alloc, text),
        Operands::Symbols => symbol_at(alloc, text),
    }
}

/// `L:` or `C:` before a name.
#[tactic(auto, unfolding(orca_meaning::specs::Token::attribute_at))]
#[inline(always)]
fn attribute_at(
    alloc: Global,
    operands: Operands,
    text: LinePart<'_>,
) -> Result<Option<(FormulaOperand, &[u8])>, AllocError>
    ensures { IfOk result (λ found. MatchOption found (attribute_at (asked_name operands) text.entry.bytes.now ≡ None)
        (λ x. seen_as kept_operand (attribute_at (asked_name operands) text.entry.bytes.now) ≡ Some (operand x.0, x.1.now))) }
{
    let Some((letter, colon_on)) = text.bytes.split_first() else {
        return Ok(None);
    };
    let Some((colon, following)) = colon_on.split_first() else {
        return Ok(None);
    };
    if *colon != b':' {
        return Ok(None);
    }
    let Some(asked) = asked_by(*letter) else {
        return Ok(None);
    };
    let Some((name, rest)) = asked_name(alloc, operands, LinePart { bytes: following })? else {
        return Ok(None);
    };
    match asked {
        Asked::Length => Ok(Some((FormulaOperand::LengthOf(name), rest))),
        Asked::Count => Ok(Some((FormulaOperand::CountOf(name), rest))),
    }
}

/// What follows `*` at the start.
#[tactic(auto, unfolding(orca_meaning::specs::Token::location_at))]
#[inline(always)]
fn after_star(text: &[u8]) -> Option<&[u8]>
    ensures { MatchOption result (location_at text.now ≡ None) (λ rest. location_at text.now ≡ Some (Here, rest.now)) }
{
    let Some((first, following)) = text.split_first() else {
        return None;
    };
    if *first != b'*' {
        return None;
    }
    Some(following)
}

/// An operand of a statement that isn't a number.
#[inline(always)]
fn label_at(
    alloc: Global,
    text: LinePart<'_>,
) -> Result<Option<(FormulaOperand, &[u8])>, AllocError>
    ensures { IfOk result (λ found. MatchOption found (other_operand_at Operands.Labels text.entry.bytes.now ≡ None)
        (λ x. seen_as kept_operand (other_operand_at Operands.Labels text.entry.bytes.now) ≡ Some (operand x.0, x.1.now))) }
{
    if let Some(following) = after_star(text.bytes) {
        return Ok(Some((FormulaOperand::Here, following)));
    }
    if let Some(found) = attribute_at(alloc, Operands::Labels, text)? {
        return Ok(Some(found));
    }
    match name_at(alloc, text)? {
        Some((name, rest)) => Ok(Some((FormulaOperand::Label(name), rest))),
        None => Ok(None),
    }
}

/// An operand that isn't a number.
#[inline(always)]
fn other_operand_at(
    alloc: Global,
    operands: Operands,
    text: LinePart<'_>,
) -> Result<Option<(FormulaOperand, &[u8])>, AllocError>
    ensures { IfOk result (λ found. MatchOption found (other_operand_at operands text.entry.bytes.now ≡ None)
        (λ x. seen_as kept_operand (other_operand_at operands text.entry.bytes.now) ≡ Some (operand x.0, x.1.now))) }
{
    match operands {
        Operands::Labels => label_at(alloc, text),
        Operands::Symbols => attribute_at(alloc, Operands::Symbols, text),
    }
}

/// A number as an operand.
#[inline(always)]
fn number_operand(number: Option<u32>) -> FormulaOperand
    ensures { operand result ≡ number_operand number }
{
    match number {
        Some(n) => FormulaOperand::Number(n),
        None => FormulaOperand::TooLarge,
    }
}

/// The operand at the start.
#[tactic(auto, unfolding(orca_meaning::specs::Token::operand_at))]
#[inline(always)]
fn operand_at(
    alloc: Global,
    operands: Operands,
    text: LinePart<'_>,
) -> Result<Option<(FormulaOperand, &[u8])>, AllocError>
    ensures { IfOk result (λ found. MatchOption found (operand_at operands text.entry.bytes.now ≡ None)
        (λ x. seen_as kept_operand (operand_at operands text.entry.bytes.now) ≡ Some (operand x.0, x.1.now))) }
{
    if let Some((number, rest)) = number_at(text.bytes) {
        return Ok(Some((number_operand(number), rest)));
    }
    other_operand_at(alloc, operands, text)
}

/// What follows a byte at the start.
#[inline(always)]
pub fn after_byte(text: &[u8], wanted: u8) -> Option<&[u8]>
    ensures { MatchOption result ((following : List ℕ) → text.now ≢ wanted ∷ following) (λ rest. text.now ≡ wanted ∷ rest.now) }
{
    let Some((first, following)) = text.split_first() else {
        return None;
    };
    if *first != wanted {
        return None;
    }
    Some(following)
}

/// The token at the start, where an operand is expected.
#[tactic(auto, unfolding(orca_meaning::specs::Token::operand_token_at, orca_meaning::specs::Token::byte_at))]
#[inline(always)]
pub(crate) fn operand_token(
    alloc: Global,
    operands: Operands,
    text: LinePart<'_>,
) -> Result<Option<(OperandToken, &[u8])>, AllocError>
    ensures { IfOk result (λ found. MatchOption found (operand_token_at operands text.entry.bytes.now ≡ None)
        (λ x. seen_as kept_token (operand_token_at operands text.entry.bytes.now) ≡ Some (operand_token x.0, x.1.now))) }
{
    if let Some(following) = after_byte(text.bytes, b'(') {
        return Ok(Some((OperandToken::Opens, following)));
    }
    if let Some((sign, following)) = sign_at(text.bytes) {
        return Ok(Some((OperandToken::Before(sign), following)));
    }
    match operand_at(alloc, operands, text)? {
        Some((operand, following)) => Ok(Some((OperandToken::Value(operand), following))),
        None => Ok(None),
    }
}

/// The token at the start, after an operand.
#[tactic(auto, unfolding(orca_meaning::specs::Token::operator_token_at, orca_meaning::specs::Token::byte_at))]
#[inline(always)]
pub(crate) fn operator_token(text: &[u8]) -> Option<(OperatorToken, &[u8])>
    ensures { MatchOption result (operator_token_at text.now ≡ None) (λ x. operator_token_at text.now ≡ Some (operator_token x.0, x.1.now)) }
{
    if let Some(following) = after_byte(text, b')') {
        return Some((OperatorToken::Closes, following));
    }
    match operator_at(text) {
        Some((operator, following)) => Some((OperatorToken::Between(operator), following)),
        None => None,
    }
}
