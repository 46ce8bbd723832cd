//! What precedes and what follows the formula of an operand, and the form that it makes.

ghost use Rattle.std.specs.Prelude.{◌≡◌, ◌≢◌, ◌∷◌, ◌<◌, ◌≤◌, [], ℕ, drop, length, Some, None, MatchOption};
ghost use Rattle.orca_meaning.specs.Operand.{after_opening, prefix_of, register_of, index_at, whole_index, indexes_around, plain_form, round_form, square_form, form_after};
ghost use Rattle.orca_meaning.specs.laws.Steps.{opening_of, after_prefix, address_prefix, immediate_prefix, immediate_form};

use crate::fields::from;
use orca_meaning::{Form, Index, Opening, Prefix};

/// What the operand begins with. A parenthesis opens an instruction's operand; elsewhere it belongs to the formula.
#[inline(always)]
pub(crate) fn opening_of(is_instruction: bool, text: &[u8]) -> Opening
    ensures { result ≡ opening_of is_instruction text.now }
{
    let Some((first, _)) = text.split_first() else {
        return Opening::Open;
    };
    match *first {
        b'#' => Opening::Hash,
        b'(' if is_instruction => Opening::Round,
        b'[' => Opening::Square,
        _ => Opening::Open,
    }
}

/// What follows the opening.
#[inline(always)]
pub(crate) fn after_opening(opening: Opening, text: &[u8]) -> &[u8]
    ensures value { result.now ≡ after_opening opening text.now }
    ensures bound { length result.now ≤ length text.now }
{
    match opening {
        Opening::Open => text,
        Opening::Hash => from(text, 1),
        Opening::Round => from(text, 1),
        Opening::Square => from(text, 1),
    }
}

/// A prefix after `#`.
fn immediate_prefix(byte: u8) -> Prefix
    ensures { result ≡ immediate_prefix byte }
{
    match byte {
        b'<' => Prefix::Less,
        b'>' => Prefix::Greater,
        b'^' => Prefix::Caret,
        _ => Prefix::Bare,
    }
}

/// A prefix elsewhere.
#[inline(always)]
fn address_prefix(byte: u8) -> Prefix
    ensures { result ≡ address_prefix byte }
{
    match byte {
        b'<' => Prefix::Less,
        b'>' => Prefix::Greater,
        b'|' | b'!' => Prefix::Bar,
        _ => Prefix::Bare,
    }
}

/// The prefix after the opening.
#[inline(always)]
pub(crate) fn prefix_of(opening: Opening, text: &[u8]) -> Prefix
    ensures { result ≡ prefix_of opening text.now }
{
    let Some((first, _)) = text.split_first() else {
        return Prefix::Bare;
    };
    match opening {
        Opening::Open => address_prefix(*first),
        Opening::Hash => immediate_prefix(*first),
        Opening::Round => address_prefix(*first),
        Opening::Square => address_prefix(*first),
    }
}

/// What follows the prefix.
#[inline(always)]
pub(crate) fn after_prefix(prefix: Prefix, text: &[u8]) -> &[u8]
    ensures value { result.now ≡ after_prefix prefix text.now }
    ensures bound { length result.now ≤ length text.now }
{
    match prefix {
        Prefix::Bare => text,
        Prefix::Less => from(text, 1),
        Prefix::Bar => from(text, 1),
        Prefix::Greater => from(text, 1),
        Prefix::Caret => from(text, 1),
    }
}

/// The register of an index.
#[inline(always)]
fn register_of(letter: u8) -> Option<Index>
    ensures { result ≡ register_of letter }
{
    match letter {
        b'X' | b'x' => Some(Index::X),
        b'Y' | b'y' => Some(Index::Y),
        b'S' | b's' => Some(Index::S),
        _ => None,
    }
}

/// The index at the start, and what follows it.
#[tactic(auto, unfolding(orca_meaning::specs::Operand::index_at))]
#[inline(always)]
fn index_at(text: &[u8]) -> (Index, &[u8])
    ensures { (result.0, result.1.now) ≡ index_at text.now }
{
    let Some((comma, letter_on)) = text.split_first() else {
        return (Index::Absent, text);
    };
    let Some((letter, following)) = letter_on.split_first() else {
        return (Index::Absent, text);
    };
    if *comma != b',' {
        return (Index::Absent, text);
    }
    match register_of(*letter) {
        Some(index) => (index, following),
        None => (Index::Absent, text),
    }
}

/// The index that a whole text is, if it is one or nothing.
#[tactic(auto, unfolding(orca_meaning::specs::Operand::whole_index))]
#[inline(always)]
fn whole_index(text: &[u8]) -> Option<Index>
    ensures { result ≡ whole_index text.now }
{
    let (index, following) = index_at(text);
    match following.split_first() {
        Some(_) => None,
        None => Some(index),
    }
}

/// The indexes before and after the closing byte, up to the end.
#[tactic(auto, unfolding(orca_meaning::specs::Operand::indexes_around))]
#[inline(always)]
fn indexes_around(close: u8, text: &[u8]) -> Option<(Index, Index)>
    ensures { result ≡ indexes_around close text.now }
{
    let (inner, rest) = index_at(text);
    let Some((byte, following)) = rest.split_first() else {
        return None;
    };
    if *byte != close {
        return None;
    }
    match whole_index(following) {
        Some(outer) => Some((inner, outer)),
        None => None,
    }
}

#[inline(always)]
fn plain_form(index: Index) -> Form
    ensures { result ≡ plain_form index }
{
    match index {
        Index::Absent => Form::Plain,
        Index::X => Form::IndexX,
        Index::Y => Form::IndexY,
        Index::S => Form::IndexS,
    }
}

fn round_form(indexes: (Index, Index)) -> Form
    ensures { result ≡ round_form indexes }
{
    match indexes {
        (Index::Absent, Index::Absent) => Form::Paren,
        (Index::Absent, Index::Y) => Form::ParenY,
        (Index::X, Index::Absent) => Form::ParenX,
        (Index::S, Index::Y) => Form::ParenSY,
        _ => Form::Other,
    }
}

fn square_form(indexes: (Index, Index)) -> Form
    ensures { result ≡ square_form indexes }
{
    match indexes {
        (Index::Absent, Index::Absent) => Form::Bracket,
        (Index::Absent, Index::Y) => Form::BracketY,
        _ => Form::Other,
    }
}

/// The form by the opening and what follows the formula.
#[inline(always)]
pub(crate) fn form_after(opening: Opening, rest: &[u8]) -> Option<Form>
    ensures { result ≡ form_after opening rest.now }
{
    match opening {
        Opening::Open => match whole_index(rest) {
            Some(index) => Some(plain_form(index)),
            None => None,
        },
        Opening::Hash => match rest.split_first() {
            Some(_) => None,
            None => Some(Form::Immediate),
        },
        Opening::Round => match indexes_around(b')', rest) {
            Some(indexes) => Some(round_form(indexes)),
            None => None,
        },
        Opening::Square => match indexes_around(b']', rest) {
            Some(indexes) => Some(square_form(indexes)),
            None => None,
        },
    }
}
