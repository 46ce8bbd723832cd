//! The parts of DC's elements (ORCA/M reference manual, "Declare Constant").

ghost use Rattle.std.specs.Prelude.{◌≡◌, ◌≢◌, ◌≤◌, ◌<◌, ◌+◌, ◌∷◌, ◌++◌, ◌&&◌, ◌||◌, ◌==◌, [], List, ℕ, length, take, drop, map, position, Some, None, IfOk, IfSome, MatchOption};
ghost use Rattle.asm_meaning.specs.Elements.{after_parenthesis, closed_at, text_at, width_at, kind_at, in_range};
ghost use Rattle.asm_meaning.specs.laws.Steps.{text_byte};
ghost use Rattle.orca_operands.specs.ElementView.{element_kind, with_bytes};

use asm_meaning::AsmCause;
use std::alloc::{AllocError, Global};

/// The type of an element.
#[derive(Clone, Copy)]
pub(crate) enum ElementKind {
    /// I and A: numbers of a given number of bytes.
    Number(u8),
    /// H.
    Hexadecimal,
    /// B.
    Binary,
    /// C.
    Characters,
    /// R.
    References,
    /// S.
    WeakReferences,
}

/// What follows a parenthesis that opens at the start.
pub(crate) fn after_parenthesis(text: &[u8]) -> Option<&[u8]>
    ensures { MatchOption result (after_parenthesis text.now ≡ None) (λ following. after_parenthesis text.now ≡ Some following.now) }
{
    let Some((first, following)) = text.split_first() else {
        return None;
    };
    if *first == b'(' {
        return Some(following);
    }
    None
}

/// Where the first `'` is.
fn first_quote(text: &[u8]) -> Option<usize>
    ensures bound { IfSome result (λ at. at < length text.now) }
    ensures value { result ≡ position (λ byte. byte == 0x27) text.now }
{
    text.iter().position(|byte| *byte == b'\'')
}

/// The text up to the next `'`, and what follows that.
#[tactic(auto, using(crate::proofs::Quoted::never_closes))]
pub(crate) fn closed_at(text: &[u8]) -> Option<(&[u8], &[u8])>
    ensures text { MatchOption result (closed_at text.now ≡ None) (λ x. closed_at text.now ≡ Some (x.0.now, x.1.now)) }
{
    let count = first_quote(text)?;
    let (inner, _) = text.split_at(count);
    let (_, rest) = text.split_at(count + 1);
    Some((inner, rest))
}

/// The number of bytes of each number, which is given after I and A.
fn width_at(following: &[u8]) -> (ElementKind, &[u8])
    ensures { (element_kind result.0, result.1.now) ≡ width_at following.now }
{
    let Some((digit, others)) = following.split_first() else {
        return (ElementKind::Number(2), following);
    };
    if *digit >= b'1' && *digit <= b'4' {
        return (ElementKind::Number(*digit - b'0'), others);
    }
    (ElementKind::Number(2), following)
}

/// The type at the start, in upper or lower case.
#[tactic(auto, unfolding(asm_meaning::specs::Elements::kind_at))]
pub(crate) fn kind_at(text: &[u8]) -> Option<(ElementKind, &[u8])>
    ensures { MatchOption result (kind_at text.now ≡ None) (λ x. kind_at text.now ≡ Some (element_kind x.0, x.1.now)) }
{
    let Some((letter, following)) = text.split_first() else {
        return None;
    };
    let capital = letter.to_ascii_uppercase();
    if capital == b'I' || capital == b'A' {
        return Some(width_at(following));
    }
    if capital == b'H' {
        return Some((ElementKind::Hexadecimal, following));
    }
    if capital == b'B' {
        return Some((ElementKind::Binary, following));
    }
    if capital == b'C' {
        return Some((ElementKind::Characters, following));
    }
    if capital == b'R' {
        return Some((ElementKind::References, following));
    }
    if capital == b'S' {
        return Some((ElementKind::WeakReferences, following));
    }
    None
}

/// A count is 1 to 65,535.
pub(crate) fn in_range(n: u32) -> Result<u32, AsmCause>
    ensures { result ≡ in_range n }
{
    if n >= 1 && n <= 65535 {
        return Ok(n);
    }
    Err(AsmCause::BadOperand)
}

/// A byte of a text; with MSB on its high bit is set.
pub(crate) fn text_byte(msb: bool, byte: u8) -> u8
    ensures { result ≡ text_byte msb byte }
{
    if msb { byte | 0x80 } else { byte }
}

/// The text of C up to its closing quote, and what follows that. Two quotes are one quote of the text.
#[tactic(auto, using(crate::proofs::Quoted::text_none, crate::proofs::Quoted::text_more, crate::proofs::Quoted::text_last, crate::proofs::Quoted::text_stops, crate::proofs::Quoted::text_quotes))]
pub(crate) fn text_at(alloc: Global, text: &[u8]) -> Result<Option<(Vec<u8>, &[u8])>, AllocError>
    ensures { IfOk result (λ found. MatchOption found (text_at text.now ≡ None) (λ x. text_at text.now ≡ Some (x.0.items, x.1.now))) }
{
    let mut out = Vec::new(alloc);
    let mut left = text;
    'bytes: loop {
        let Some((byte, others)) = left.split_first() else {
            return Ok(None);
        };
        if *byte != b'\'' {
            out.push(*byte)?;
            left = others;
            continue;
        }
        let Some((next, following)) = others.split_first() else {
            return Ok(Some((out, others)));
        };
        if *next != b'\'' {
            return Ok(Some((out, others)));
        }
        out.push(b'\'')?;
        left = following;
    }
}
