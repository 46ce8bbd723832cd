//! What instructions give (WDC 65C816 data sheet, addressing modes; GS/OS Reference, appendix F, expression records).

ghost use Rattle.std.specs.Prelude.{◌≡◌, ◌≤◌, ◌<◌, ◌^◌, ◌++◌, ◌∷◌, ◌/◌, [], List, ℕ, length, map, find, true, Some, None, Ok, Err, IfOk, IfSome, OnOk};
ghost use Rattle.omf_format.specs.Expression.{Tree, Leaf, terms_of, terms_text, AreTerms};
ghost use Rattle.orca_operands.specs.AmountView.{IsFormulaOf};
ghost use Rattle.orca_operands.specs.NamesView.{constants};
ghost use Rattle.orca_text.specs.View.{term};
ghost use Rattle.omf_format.specs.Expression as expression;
ghost use Rattle.orca_meaning.specs.Formula.{with_location_less};
ghost use Rattle.orca_meaning.specs.Matrix.{opcode_of};
ghost use Rattle.asm_meaning.specs.Formulas.{expression_text};
ghost use Rattle.asm_meaning.specs.Pieces.{Bytes, Whole};
ghost use Rattle.asm_meaning.specs.Constant as meaning;
ghost use Rattle.asm_meaning.specs.Constant.{tree_of_amount};
ghost use Rattle.orca_operands.specs.AmountView.{kept_view, kept_of, amount_view, kept_answer};
ghost use Rattle.orca_operands.specs.Chosen.{chosen_amount, IsByteAmount, bank_of_amount, by_trees, AreGoodTrees};
ghost use Rattle.orca_meaning.specs.Operand.{Meaning};
ghost use Rattle.orca_text.specs.OperandView.{IsWritten};
ghost use Rattle.asm_meaning.specs.Answer.{Answer};
ghost use Rattle.asm_meaning.specs.Instruction.{opcode_in, address_code, is_long_jump, operand_record, with_number, with_tree, with_known, kind_of, modes_of_form, bank, bank_record, banks_written, block_move_pieces, instruction};
ghost use Rattle.orca_operands.specs.ModeView.{widths, kind};
ghost use Rattle.orca_operands.specs.GivenView.{given_pieces, given_answer};
ghost use Rattle.orca_operands.specs.PieceView.{piece};

use crate::amount::{Amount, amount_of};
use crate::causes::earlier;
use crate::encoding::{Encoding, given_once};
use crate::mode::{
    OperandKind, Widths, first_mode, is_distance, kind_of, mode_of_number, mode_of_tree,
    operand_bytes, shift_in,
};
use crate::names::KnownConstants;
use crate::piece::{Piece, number_text, shift_and_end};
use crate::short_bytes::ShortBytes;
use asm_meaning::AsmCause;
use omf_format::{BEXPR, EXPR, LEXPR, RELEXPR, ZEXPR};
use orca_meaning::{Form, Mnemonic, Mode, Prefix};
use orca_text::{FormulaTerm, Operand};
use std::alloc::{AllocError, Global};

/// The opcode of a mnemonic in a mode.
#[inline(always)]
fn opcode_in(mnemonic: Mnemonic, mode: Mode) -> u8
    ensures { result ≡ opcode_in mnemonic mode }
{
    match w65_encode::opcode(mnemonic, mode) {
        Some(byte) => byte,
        None => 0,
    }
}

/// Whether an address of three bytes is that of a subroutine or a jump.
fn is_long_jump(mnemonic: Mnemonic) -> bool
    ensures { result ≡ is_long_jump mnemonic }
{
    match mnemonic {
        Mnemonic::Jsl => true,
        Mnemonic::Jml => true,
        _ => false,
    }
}

/// The code of the record of an address of a given number of bytes.
#[inline(always)]
fn address_code(mnemonic: Mnemonic, bytes: u8) -> u8
    ensures { result ≡ address_code mnemonic bytes }
{
    if bytes == 1 {
        return ZEXPR;
    }
    if bytes == 2 {
        return BEXPR;
    }
    if is_long_jump(mnemonic) {
        return LEXPR;
    }
    EXPR
}

/// An opcode, and the record of an operand of a given number of bytes with this expression.
#[inline(always)]
fn with_record(
    opcode: u8,
    mnemonic: Mnemonic,
    of: OperandKind,
    width: u8,
    expr: Vec<u8>,
) -> Encoding
    ensures { (tree : Tree) → expr.items ≡ expression_text tree → given_pieces result ≡ Bytes (opcode ∷ []) ∷ Whole (operand_record mnemonic (kind of) width tree) ∷ [] }
{
    match of {
        OperandKind::Address(bytes) => Encoding::Operand {
            opcode,
            code: address_code(mnemonic, bytes),
            count: width,
            n: 0,
            expr,
        },
        OperandKind::Distance(_) => Encoding::Operand {
            opcode,
            code: RELEXPR,
            count: width,
            n: u32::from(width),
            expr,
        },
        OperandKind::Missing | OperandKind::Value | OperandKind::Banks | OperandKind::Sign =>
            Encoding::Operand {
                opcode,
                code: EXPR,
                count: width,
                n: 0,
                expr,
            },
    }
}

/// All bytes of an instruction whose operand is this number.
#[inline(always)]
fn with_number(mnemonic: Mnemonic, mode: Mode, prefix: Prefix, width: u8, n: u32) -> Encoding
    requires { width ≤ 3 }
    ensures { given_pieces result ≡ with_number mnemonic mode prefix width n }
{
    let shift = shift_in(kind_of(mode), prefix);
    Encoding::Bytes(ShortBytes::of_number(opcode_in(mnemonic, mode), width, n >> shift))
}

/// The opcode, and the record of an operand with these terms.
#[inline(always)]
fn with_tree(
    mnemonic: Mnemonic,
    mode: Mode,
    prefix: Prefix,
    width: u8,
    text: Vec<u8>,
) -> Result<Encoding, AllocError>
    ensures { IfOk result (λ given. (tree : Tree) → text.items ≡ terms_text 0 (terms_of (with_location_less 1 tree)) → given_pieces given ≡ with_tree mnemonic mode prefix width tree) }
{
    let of = kind_of(mode);
    let expr = shift_and_end(text, shift_in(of, prefix))?;
    Ok(with_record(opcode_in(mnemonic, mode), mnemonic, of, width, expr))
}

/// An instruction whose operand is a number, in this mode. A branch has its record for a constant too.
#[inline(always)]
fn with_known(
    alloc: Global,
    of: Widths,
    mnemonic: Mnemonic,
    prefix: Prefix,
    n: u32,
    mode: Mode,
) -> Result<Encoding, AllocError>
    ensures { IfOk result (λ given. given_pieces given ≡ with_known (widths of) mnemonic prefix n mode) }
{
    let width = operand_bytes(of, mnemonic, mode);
    if is_distance(kind_of(mode)) {
        let text = number_text(alloc, n)?;
        let given = with_tree(mnemonic, mode, prefix, width, text)?;
        return Ok(given);
    }
    Ok(with_number(mnemonic, mode, prefix, width, n))
}

/// An instruction with one formula, which amounts to this, in one of the modes that it is offered, of which this is the first.
#[inline(always)]
fn with_amount(
    alloc: Global,
    of: Widths,
    mnemonic: Mnemonic,
    form: Form,
    prefix: Prefix,
    first: Mode,
    amount: Amount,
) -> Result<Result<Encoding, AsmCause>, AllocError>
    requires { find (λ m. true) (modes_of_form mnemonic form prefix) ≡ Some first }
    ensures { IfOk result (λ answer. (meant : meaning.Amount) → kept_view amount ≡ kept_of 1 meant → given_answer answer ≡ chosen_amount (widths of) mnemonic prefix first (modes_of_form mnemonic form prefix) meant) }
{
    match amount {
        Amount::Known(n) => match mode_of_number(of, mnemonic, form, prefix, first, n) {
            Ok(mode) => {
                let given = with_known(alloc, of, mnemonic, prefix, n, mode)?;
                Ok(Ok(given))
            }
            Err(cause) => Ok(Err(cause)),
        },
        Amount::Written(text) => {
            let mode = mode_of_tree(mnemonic, form, prefix, first);
            let width = operand_bytes(of, mnemonic, mode);
            let given = with_tree(mnemonic, mode, prefix, width, text)?;
            Ok(Ok(given))
        }
    }
}

/// A bank: one that is a constant fits a byte.
fn bank(amount: Amount) -> Result<Amount, AsmCause>
    ensures bank { (meant : meaning.Amount) (back : ℕ) → kept_view amount ≡ kept_of back meant → amount_view result ≡ kept_answer back (bank meant) }
    ensures small { IfOk result IsByteAmount }
{
    match amount {
        Amount::Known(n) => {
            if n < 256 {
                return Ok(Amount::Known(n));
            }
            Err(AsmCause::DoesNotFit)
        }
        Amount::Written(text) => Ok(Amount::Written(text)),
    }
}

/// The terms of a bank's expression.
fn bank_text(alloc: Global, amount: Amount) -> Result<Vec<u8>, AllocError>
    ensures { IfOk result (λ v. (meant : meaning.Amount) (back : ℕ) → 0 < back → kept_view amount ≡ kept_of back meant → v.items ≡ terms_text 0 (terms_of (with_location_less back (tree_of_amount meant)))) }
{
    match amount {
        Amount::Known(n) => {
            let text = number_text(alloc, n)?;
            Ok(text)
        }
        Amount::Written(text) => Ok(text),
    }
}

/// The record of a bank.
fn bank_record(alloc: Global, amount: Amount) -> Result<Piece, AllocError>
    ensures { IfOk result (λ p. (meant : meaning.Amount) (back : ℕ) → 0 < back → kept_view amount ≡ kept_of back meant → piece p ≡ Whole (bank_record back meant)) }
{
    let text = bank_text(alloc, amount)?;
    let expr = shift_and_end(text, 0)?;
    Ok(Piece::Formula {
        code: EXPR,
        count: 1,
        n: 0,
        expr,
    })
}

/// A block move between banks that are bytes.
fn known_banks(opcode: u8, source: u8, destination: u8) -> Encoding
    ensures { given_pieces result ≡ Bytes (opcode ∷ destination ∷ source ∷ []) ∷ [] }
{
    Encoding::Bytes(ShortBytes::of_two(opcode, destination, source))
}

/// A block move between banks of which one isn't known.
fn written_banks(
    alloc: Global,
    opcode: u8,
    source: Amount,
    destination: Amount,
) -> Result<Encoding, AllocError>
    ensures { IfOk result (λ given. (s d : meaning.Amount) → kept_view source ≡ kept_of 2 s → kept_view destination ≡ kept_of 1 d
        → given_pieces given ≡ Bytes (opcode ∷ []) ∷ Whole (bank_record 1 d) ∷ Whole (bank_record 2 s) ∷ []) }
{
    let bytes = Vec::from_slice(alloc, &[opcode])?;
    let first = bank_record(alloc, destination)?;
    let second = bank_record(alloc, source)?;
    let mut pieces = Vec::with_capacity(alloc, 3)?;
    pieces.push(Piece::Bytes(bytes))?;
    pieces.push(first)?;
    pieces.push(second)?;
    given_once(alloc, pieces)
}

/// A block move between these banks.
fn banks_written(
    alloc: Global,
    opcode: u8,
    source: Amount,
    destination: Amount,
) -> Result<Encoding, AllocError>
    requires source { IsByteAmount source }
    requires destination { IsByteAmount destination }
    ensures { IfOk result (λ given. (s d : meaning.Amount) → kept_view source ≡ kept_of 2 s → kept_view destination ≡ kept_of 1 d → given_pieces given ≡ banks_written opcode s d) }
{
    match source {
        Amount::Known(s) => match destination {
            Amount::Known(d) => Ok(known_banks(opcode, s as u8, d as u8)),
            Amount::Written(d) => {
                let given = written_banks(alloc, opcode, Amount::Known(s), Amount::Written(d))?;
                Ok(given)
            }
        },
        Amount::Written(s) => {
            let given = written_banks(alloc, opcode, Amount::Written(s), destination)?;
            Ok(given)
        }
    }
}

/// A bank, or what is wrong with it.
fn and_bank(amount: Result<Amount, AsmCause>) -> Result<Amount, AsmCause>
    ensures bank { (meant : Answer meaning.Amount) (back : ℕ) → amount_view amount ≡ kept_answer back meant → amount_view result ≡ kept_answer back (bank_of_amount meant) }
    ensures small { IfOk result IsByteAmount }
{
    match amount {
        Ok(amount) => bank(amount),
        Err(cause) => Err(cause),
    }
}

/// A block move: its formulas as they are written, the source first.
fn block_move(
    alloc: Global,
    known: KnownConstants<'_>,
    mnemonic: Mnemonic,
    mode: Mode,
    source: &[FormulaTerm],
    destination: &[FormulaTerm],
) -> Result<Result<Encoding, AsmCause>, AllocError>
    requires source { AreTerms 0 (map term source.now) }
    requires destination { AreTerms 0 (map term destination.now) }
    ensures { IfOk result (λ answer. (s d : Tree) → IsFormulaOf (map term source.now) s → IsFormulaOf (map term destination.now) d
        → given_answer answer ≡ block_move_pieces (constants known.entry) mnemonic mode s d) }
{
    let first = amount_of(alloc, known, 2, source)?;
    let second = amount_of(alloc, known, 1, destination)?;
    match and_bank(first) {
        Ok(from) => match and_bank(second) {
            Ok(to) => {
                let given = banks_written(alloc, opcode_in(mnemonic, mode), from, to)?;
                Ok(Ok(given))
            }
            Err(cause) => Ok(Err(cause)),
        },
        Err(cause) => match and_bank(second) {
            Ok(_to) => Ok(Err(cause)),
            Err(other) => Ok(Err(earlier(cause, other))),
        },
    }
}

/// What the formulas of an operand give: without one, by its mode alone.
fn by_formulas(
    alloc: Global,
    known: KnownConstants<'_>,
    of: Widths,
    mnemonic: Mnemonic,
    operand: &Operand,
    first: Mode,
) -> Result<Result<Encoding, AsmCause>, AllocError>
    requires first { AreTerms 0 operand.now.first }
    requires second { IfSome operand.now.second (λ terms. AreTerms 0 terms) }
    requires mode { find (λ m. true) (modes_of_form mnemonic operand.now.form operand.now.prefix) ≡ Some first }
    ensures { IfOk result (λ answer. (operand_is : Meaning) → IsWritten operand.now operand_is → AreGoodTrees operand_is.trees
        → given_answer answer ≡ by_trees (constants known.entry) (widths of) mnemonic operand_is.prefix first (modes_of_form mnemonic operand_is.form operand_is.prefix) operand_is.trees) }
{
    if let Some(second) = &operand.second {
        let answer = block_move(
            alloc,
            known,
            mnemonic,
            first,
            operand.first.terms(),
            second.terms(),
        )?;
        return Ok(answer);
    }
    if operand.first.terms().is_empty() {
        let width = operand_bytes(of, mnemonic, first);
        return Ok(Ok(with_number(mnemonic, first, Prefix::Bare, width, 0)));
    }
    let found = amount_of(alloc, known, 1, operand.first.terms())?;
    match found {
        Ok(amount) => {
            let answer = with_amount(
                alloc,
                of,
                mnemonic,
                operand.form,
                operand.prefix,
                first,
                amount,
            )?;
            Ok(answer)
        }
        Err(cause) => Ok(Err(cause)),
    }
}

/// What an instruction with this operand gives, or its fault.
pub fn instruct(
    alloc: Global,
    known: KnownConstants<'_>,
    of: Widths,
    mnemonic: Mnemonic,
    operand: &Operand,
) -> Result<Result<Encoding, AsmCause>, AllocError>
    requires first { AreTerms 0 operand.now.first }
    requires second { IfSome operand.now.second (λ terms. AreTerms 0 terms) }
    ensures { IfOk result (λ answer. (operand_is : Meaning) → IsWritten operand.now operand_is → AreGoodTrees operand_is.trees
        → given_answer answer ≡ instruction (constants known.entry) (widths of) mnemonic operand_is) }
{
    match first_mode(mnemonic, operand.form, operand.prefix) {
        Some(first) => {
            let answer = by_formulas(alloc, known, of, mnemonic, operand, first)?;
            Ok(answer)
        }
        None => Ok(Err(AsmCause::BadMode)),
    }
}
