//! Formulas of one to three numbers, as most conditions and settings have them once the texts are in place.

ghost use Rattle.std.specs.Prelude.{◌≡◌, ◌<◌, ◌^◌, [], ℕ, List, Some, IfSome, MatchOption};
ghost use Rattle.orca_meaning.specs.Formula.{MeansAt};
ghost use Rattle.orca_meaning.specs.Token.{Value, Number, Between, operand_token_at, operator_token_at};
ghost use Rattle.orca_text.specs.Short.{tree_of, IsShort};

use crate::formula::level;
use crate::operand_tokens::{OperatorToken, after_byte, operator_token};
use crate::operator_tokens::sign_at;
use crate::tokens::number_at;
use orca_meaning::{Operands, Operator};

/// A formula of one number, of two, or of three.
#[derive(Clone, Copy)]
pub enum ShortFormula {
    /// A number.
    One(u32),
    /// An operator between two numbers.
    Two(Operator, u32, u32),
    /// An operator between a number and two, which another operator binds closer.
    Three(Operator, u32, Operator, u32, u32),
}

/// The number at the start where an operand is expected, and what follows it. None where another token is there,
/// and for a number above 4,294,967,295.
#[tactic(auto, using(crate::proofs::Shorts::number_token, crate::proofs::ShortTokens::sign_no_number, crate::proofs::ShortTokens::none_no_number, crate::proofs::ShortTokens::large_no_number))]
fn number_token(text: &[u8]) -> Option<(u32, &[u8])>
    ensures { MatchOption result ((n : ℕ) (rest : List ℕ) → operand_token_at Operands.Symbols text.now ≡ Some (Value (Number n), rest) → n < 2 ^ 32 → ⊥)
        (λ x. operand_token_at Operands.Symbols text.now ≡ Some (Value (Number x.0), x.1.now)) }
{
    if let Some(_) = after_byte(text, b'(') {
        return None;
    }
    if let Some(_) = sign_at(text) {
        return None;
    }
    match number_at(text) {
        Some((Some(n), rest)) => Some((n, rest)),
        Some((None, _)) => None,
        None => None,
    }
}

/// The operator at the start after an operand, and what follows it.
fn operator_after(text: &[u8]) -> Option<(Operator, &[u8])>
    ensures { MatchOption result ((operator : Operator) (following : List ℕ) → operator_token_at text.now ≡ Some (Between operator, following) → ⊥)
        (λ x. operator_token_at text.now ≡ Some (Between x.0, x.1.now)) }
{
    match operator_token(text) {
        Some((OperatorToken::Between(operator), following)) => Some((operator, following)),
        Some((OperatorToken::Closes, _)) => None,
        None => None,
    }
}

/// The formula that the whole text is, where it is one number, two with an operator between them, or three of which the last
/// two are bound closer, without parentheses and with numbers of at most 4,294,967,295. None is returned for every other text,
/// which may still be a formula.
#[tactic(auto, using(crate::proofs::Shorts::one_means, crate::proofs::Shorts::two_mean, crate::proofs::Shorts::three_mean, crate::proofs::ShortTokens::no_first, crate::proofs::ShortTokens::no_operator, crate::proofs::ShortTokens::no_second, crate::proofs::ShortTokens::no_second_operator, crate::proofs::ShortTokens::no_third))]
pub fn short_formula(text: &[u8]) -> Option<ShortFormula>
    ensures tokens { MatchOption result ((f : ShortFormula) → IsShort text.now f → ⊥) (IsShort text.now) }
    ensures means { IfSome result (λ f. MeansAt Operands.Symbols text.now (tree_of f) []) }
{
    let Some((a, rest)) = number_token(text) else {
        return None;
    };
    if rest.is_empty() {
        return Some(ShortFormula::One(a));
    }
    let Some((operator, following)) = operator_after(rest) else {
        return None;
    };
    let Some((b, last)) = number_token(following) else {
        return None;
    };
    if last.is_empty() {
        return Some(ShortFormula::Two(operator, a, b));
    }
    let Some((second, more)) = operator_after(last) else {
        return None;
    };
    let Some((c, end)) = number_token(more) else {
        return None;
    };
    if end.is_empty() && level(second) < level(operator) {
        return Some(ShortFormula::Three(operator, a, second, b, c));
    }
    None
}
