//! The repeat count of an element of DC (ORCA/M reference manual, "Declare Constant").

ghost use Rattle.std.specs.Prelude.{◌≡◌, ◌∷◌, List, ℕ, true, false, Some, None, Ok, Err, IfOk, IfSome, IfNone, MatchOption};
ghost use Rattle.omf_format.specs.Expression.{AreTerms, Tree};
ghost use Rattle.orca_meaning.specs.declared.operators.Operands.TheVariants.{Labels};
ghost use Rattle.orca_meaning.specs.Formula.{MeansAt};
ghost use Rattle.orca_meaning.specs.Token.{digits_at};
ghost use Rattle.asm_meaning.specs.Elements.{Repeat, IsRepeatAt, in_range};
ghost use Rattle.orca_operands.specs.DcView.{IsKeptOf, IsComputed, IsCounted, HasCount, checked_count};
ghost use Rattle.orca_operands.specs.NamesView.{constants};

use crate::element::{after_parenthesis, in_range};
use crate::names::KnownConstants;
use crate::numbers::number_of;
use asm_meaning::AsmCause;
use orca_text::{LinePart, Operands, after_byte, digits_at, formula_at};
use std::alloc::{AllocError, Global};

/// A count, which is 1 to 65,535.
fn check_count(n: Result<u32, AsmCause>) -> Result<u32, AsmCause>
    ensures { result ≡ checked_count n }
{
    match n {
        Ok(n) => in_range(n),
        Err(cause) => Err(cause),
    }
}

/// The count that a formula in parentheses is, after the opening one.
fn computed_count<'a>(
    alloc: Global,
    known: KnownConstants<'_>,
    following: LinePart<'a>,
) -> Result<Option<(Result<u32, AsmCause>, &'a [u8])>, AllocError>
    ensures found { IfOk result (λ found. IfSome found (λ x. IsComputed (constants known.entry) following.entry.bytes.now x.0 x.1.now)) }
    ensures none { IfOk result (λ found. IfNone found ((tree : Tree) (rest : List ℕ) → MeansAt Labels following.entry.bytes.now tree (0x29 ∷ rest) → ⊥)) }
{
    let Some(found) = formula_at(alloc, Operands::Labels, following)? else {
        return Ok(None);
    };
    let Some(rest) = after_byte(found.rest, b')') else {
        return Ok(None);
    };
    let n = number_of(alloc, known, &found.formula, found.large)?;
    Ok(Some((check_count(n), rest)))
}

/// The count that decimal digits are.
fn digits_count(text: &[u8]) -> Option<(Result<u32, AsmCause>, &[u8])>
    ensures { MatchOption result (digits_at 10 text.now ≡ None) (λ x. IsCounted text.now x.0 x.1.now) }
{
    match digits_at(10, text) {
        Some((found, rest)) => Some((count_by(found), rest)),
        None => None,
    }
}

/// A count of digits, of which none is too large a number.
fn count_by(found: Option<u32>) -> Result<u32, AsmCause>
    ensures { result ≡ Rattle.orca_operands.specs.DcView.count_by found }
{
    match found {
        Some(n) => in_range(n),
        None => Err(AsmCause::BadNumber),
    }
}

/// The repeat count of an element at the start of a text, and what follows it.
pub(crate) fn count_at<'a>(
    alloc: Global,
    known: KnownConstants<'_>,
    text: LinePart<'a>,
) -> Result<Option<(Result<u32, AsmCause>, &'a [u8])>, AllocError>
    ensures found { IfOk result (λ found. IfSome found (λ x. HasCount (constants known.entry) text.entry.bytes.now x.0 x.1.now)) }
    ensures none { IfOk result (λ found. IfNone found ((repeat : Repeat) (rest : List ℕ) → IsRepeatAt text.entry.bytes.now repeat rest → ⊥)) }
{
    if let Some(following) = after_parenthesis(text.bytes) {
        let found = computed_count(alloc, known, LinePart { bytes: following })?;
        return Ok(found);
    }
    if let Some((answer, rest)) = digits_count(text.bytes) {
        return Ok(Some((answer, rest)));
    }
    Ok(Some((Ok(1), text.bytes)))
}
