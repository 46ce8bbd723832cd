//! Formulas where numbers are wanted: those of DC's types I and A, and counts (ORCA/M reference manual, "Declare Constant").

ghost use Rattle.std.specs.Prelude.{◌≡◌, ◌≤◌, ◌++◌, [], List, ℕ, map, true, false, Some, None, Ok, Err, IfOk, IfSome, IfNone};
ghost use Rattle.byteorder.specs.Endian.{little_bytes};
ghost use Rattle.omf_format.specs.Expression.{AreTerms, Tree};
ghost use Rattle.orca_text.specs.View.{term};
ghost use Rattle.asm_meaning.specs.Constant as meaning;
ghost use Rattle.asm_meaning.specs.Elements.{number_piece, piece_of_number};
ghost use Rattle.asm_meaning.specs.Formulas.{AreFormulas, number_of};
ghost use Rattle.orca_operands.specs.AmountView.{amount_view, kept_view, kept_of, kept_answer};
ghost use Rattle.orca_operands.specs.DcView.{IsKeptOf, HasNumbers, piece_answer};
ghost use Rattle.orca_operands.specs.JudgedView.{judged_amount, needed_kept};
ghost use Rattle.orca_operands.specs.NamesView.{constants};
ghost use Rattle.orca_operands.specs.PieceView.{piece, pieces_answer};

use crate::amount::{Amount, amount_of};
use crate::causes::{answer_or_fault, gather_answer};
use crate::names::KnownConstants;
use crate::piece::{Piece, number_bytes, shift_and_end};
use asm_meaning::AsmCause;
use omf_format::EXPR;
use orca_text::{Formula, LinePart, Operands, after_byte, formula_at, is_too_deep};
use std::alloc::{AllocError, Global};

/// What a formula amounts to, unless it is too deep or has a number that is too large.
fn judged_amount(
    alloc: Global,
    known: KnownConstants<'_>,
    formula: &Formula,
    large: bool,
) -> Result<Result<Amount, AsmCause>, AllocError>
    requires { large ≡ false → AreTerms 0 formula.now }
    ensures { IfOk result (λ answer. (tree : Tree) → IsKeptOf formula.now large tree → amount_view answer ≡ kept_answer 0 (judged_amount (constants known.entry) tree)) }
{
    if is_too_deep(1, formula) {
        return Ok(Err(AsmCause::BadOperand));
    }
    if large {
        return Ok(Err(AsmCause::BadNumber));
    }
    let answer = amount_of(alloc, known, 0, formula.terms())?;
    Ok(answer)
}

/// The number of an amount that has to be one.
fn require_number(amount: Amount) -> Result<u32, AsmCause>
    ensures { result ≡ needed_kept (kept_view amount) }
{
    match amount {
        Amount::Known(n) => Ok(n),
        Amount::Written(_text) => Err(AsmCause::UnknownConstant),
    }
}

/// The number that a formula is, which has to be a constant.
pub(crate) fn number_of(
    alloc: Global,
    known: KnownConstants<'_>,
    formula: &Formula,
    large: bool,
) -> Result<Result<u32, AsmCause>, AllocError>
    requires { large ≡ false → AreTerms 0 formula.now }
    ensures { IfOk result (λ answer. (tree : Tree) → IsKeptOf formula.now large tree → answer ≡ number_of (constants known.entry) tree) }
{
    let answer = judged_amount(alloc, known, formula, large)?;
    match answer {
        Ok(amount) => Ok(require_number(amount)),
        Err(cause) => Ok(Err(cause)),
    }
}

/// A number of a given number of bytes, of which a constant is cut to them.
fn number_piece(alloc: Global, width: u8, amount: Amount) -> Result<Piece, AllocError>
    requires { width ≤ 4 }
    ensures { IfOk result (λ p. (meant : meaning.Amount) → kept_view amount ≡ kept_of 0 meant → piece p ≡ number_piece width meant) }
{
    match amount {
        Amount::Known(n) => {
            let bytes = number_bytes(alloc, width, n)?;
            Ok(Piece::Bytes(bytes))
        }
        Amount::Written(text) => {
            let expr = shift_and_end(text, 0)?;
            Ok(Piece::Formula {
                code: EXPR,
                count: width,
                n: 0,
                expr,
            })
        }
    }
}

/// What a formula gives where numbers of a given number of bytes are wanted.
fn piece_of_number(
    alloc: Global,
    known: KnownConstants<'_>,
    width: u8,
    formula: &Formula,
    large: bool,
) -> Result<Result<Piece, AsmCause>, AllocError>
    requires width { width ≤ 4 }
    requires fine { large ≡ false → AreTerms 0 formula.now }
    ensures { IfOk result (λ answer. (tree : Tree) → IsKeptOf formula.now large tree → piece_answer answer ≡ piece_of_number (constants known.entry) width tree) }
{
    let answer = judged_amount(alloc, known, formula, large)?;
    match answer {
        Ok(amount) => {
            let piece = number_piece(alloc, width, amount)?;
            Ok(Ok(piece))
        }
        Err(cause) => Ok(Err(cause)),
    }
}

/// What the formulas give that commas separate in a text, numbers of a given number of bytes.
pub(crate) fn numbers_in(
    alloc: Global,
    known: KnownConstants<'_>,
    width: u8,
    text: LinePart<'_>,
) -> Result<Option<Result<Vec<Piece>, AsmCause>>, AllocError>
    requires width { width ≤ 4 }
    ensures found { IfOk result (λ found. IfSome found (λ answer. HasNumbers (constants known.entry) width text.entry.bytes.now (pieces_answer answer))) }
    ensures none { IfOk result (λ found. IfNone found ((trees : List Tree) → AreFormulas text.entry.bytes.now trees → ⊥)) }
{
    let mut out = Vec::new(alloc);
    let mut fault = None;
    let mut left = text.bytes;
    'formulas: loop {
        let Some(found) = formula_at(alloc, Operands::Labels, LinePart { bytes: left })? else {
            return Ok(None);
        };
        let answer = piece_of_number(alloc, known, width, &found.formula, found.large)?;
        gather_answer(&mut out, &mut fault, answer)?;
        let rest = found.rest;
        if rest.is_empty() {
            return Ok(Some(answer_or_fault(fault, out)));
        }
        let Some(following) = after_byte(rest, b',') else {
            return Ok(None);
        };
        left = following;
    }
}
