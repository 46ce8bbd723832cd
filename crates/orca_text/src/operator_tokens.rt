//! The operators of formulas, taken from the start of a text.

ghost use Rattle.std.specs.Prelude.{◌≡◌, ◌≢◌, ◌≤◌, ◌<◌, ◌∷◌, length, take, drop, Some, None, MatchOption, bytes_eq, true, false};
ghost use Rattle.std.specs.Bool.{MatchBool};
ghost use Rattle.orca_meaning.specs.Characters.{folded};
ghost use Rattle.orca_meaning.specs.Token.{sign_at, operator_at, spelled_at};

use crate::operation::is_spelled;
use orca_meaning::{Operator, Sign};

/// What follows a spelling at the start, in upper or lower case.
fn after_word<'a>(text: &'a [u8], spelling: &[u8]) -> Option<&'a [u8]>
    ensures { MatchOption result (bytes_eq spelling.now (folded (take (length spelling.now) text.now)) ≡ false)
        (λ rest. (bytes_eq spelling.now (folded (take (length spelling.now) text.now)) ≡ true) × (rest.now ≡ drop (length spelling.now) text.now)) }
{
    if text.len() < spelling.len() {
        return None;
    }
    let (front, rest) = text.split_at(spelling.len());
    if is_spelled(front, spelling) {
        return Some(rest);
    }
    None
}

/// The operator before an operand that is at the start.
#[tactic(auto, unfolding(orca_meaning::specs::Token::sign_at, orca_meaning::specs::Token::spelled_at))]
#[inline(always)]
pub(crate) fn sign_at(text: &[u8]) -> Option<(Sign, &[u8])>
    ensures { MatchOption result (sign_at text.now ≡ None) (λ x. sign_at text.now ≡ Some (x.0, x.1.now)) }
{
    let Some((first, following)) = text.split_first() else {
        return None;
    };
    match *first {
        b'-' => Some((Sign::Negate, following)),
        b'.' => match after_word(text, b".NOT.") {
            Some(rest) => Some((Sign::Not, rest)),
            None => None,
        },
        _ => None,
    }
}

/// The operator between two operands that is at the start.
#[tactic(auto, unfolding(orca_meaning::specs::Token::operator_at, orca_meaning::specs::Token::spelled_at))]
#[inline(always)]
pub(crate) fn operator_at(text: &[u8]) -> Option<(Operator, &[u8])>
    ensures { MatchOption result (operator_at text.now ≡ None) (λ x. operator_at text.now ≡ Some (x.0, x.1.now)) }
{
    let Some((first, following)) = text.split_first() else {
        return None;
    };
    match *first {
        b'+' => Some((Operator::Add, following)),
        b'-' => Some((Operator::Subtract, following)),
        b'*' => Some((Operator::Multiply, following)),
        b'/' => Some((Operator::Divide, following)),
        b'|' => Some((Operator::Shift, following)),
        b'=' => Some((Operator::Equal, following)),
        b'<' => less_at(text, following),
        b'>' => greater_at(text, following),
        b'.' => word_at(text),
        _ => None,
    }
}

/// The operators that begin with `<`.
#[tactic(auto, unfolding(orca_meaning::specs::Token::operator_at, orca_meaning::specs::Token::spelled_at))]
fn less_at<'a>(text: &[u8], following: &'a [u8]) -> Option<(Operator, &'a [u8])>
    requires { text.now ≡ 0x3C ∷ following.now }
    ensures { MatchOption result (operator_at text.now ≡ None) (λ x. operator_at text.now ≡ Some (x.0, x.1.now)) }
{
    let Some((second, rest)) = following.split_first() else {
        return Some((Operator::Less, following));
    };
    match *second {
        b'=' => Some((Operator::LessOrEqual, rest)),
        b'>' => Some((Operator::NotEqual, rest)),
        _ => Some((Operator::Less, following)),
    }
}

/// The operators that begin with `>`.
#[tactic(auto, unfolding(orca_meaning::specs::Token::operator_at, orca_meaning::specs::Token::spelled_at))]
fn greater_at<'a>(text: &[u8], following: &'a [u8]) -> Option<(Operator, &'a [u8])>
    requires { text.now ≡ 0x3E ∷ following.now }
    ensures { MatchOption result (operator_at text.now ≡ None) (λ x. operator_at text.now ≡ Some (x.0, x.1.now)) }
{
    let Some((second, rest)) = following.split_first() else {
        return Some((Operator::Greater, following));
    };
    match *second {
        b'=' => Some((Operator::GreaterOrEqual, rest)),
        _ => Some((Operator::Greater, following)),
    }
}

/// The operators that begin with a dot.
#[tactic(auto, unfolding(orca_meaning::specs::Token::operator_at, orca_meaning::specs::Token::spelled_at))]
fn word_at(text: &[u8]) -> Option<(Operator, &[u8])>
    requires { Rattle.std.specs.Prelude.slice_index text.now 0 ≡ 0x2E }
    ensures { MatchOption result (operator_at text.now ≡ None) (λ x. operator_at text.now ≡ Some (x.0, x.1.now)) }
{
    if let Some(rest) = after_word(text, b".AND.") {
        return Some((Operator::And, rest));
    }
    if let Some(rest) = after_word(text, b".OR.") {
        return Some((Operator::Or, rest));
    }
    match after_word(text, b".EOR.") {
        Some(rest) => Some((Operator::Eor, rest)),
        None => None,
    }
}
