//! The operand of a line (WDC 65C816 data sheet, addressing modes; ORCA/M reference manual, "The operand field").

ghost use Rattle.std.specs.Prelude.{◌≡◌, ◌≢◌, ◌∷◌, ◌+◌, ◌-◌, ◌<◌, ◌≤◌, ◌||◌, max, [], ℕ, length, map, true, false, Some, None, IfOk, IfErr, IfSome, IfNone, IsTrue, ◌↔◌, ◌&&◌, bytes_eq, codes};
ghost use Rattle.omf_format.specs.Expression.{operand_count};
ghost use Rattle.orca_meaning.specs.Characters.{folded};
ghost use Rattle.orca_meaning.specs.Line.{LiesIn, part};
ghost use Rattle.orca_meaning.specs.Operand.{is_accumulator, opening, prefix, body, IsRefusedFor};
ghost use Rattle.orca_meaning.specs.laws.Steps.{means_accumulator, values_here};
ghost use Rattle.orca_text.specs.Decoding.{IsDecoded};
ghost use Rattle.orca_text.specs.OperandView.{IsRead, IsOperandFault, line_mnemonic, line_operand, line_for, IsRefusedHere, IsSecond, HasNoSecond};
ghost use Rattle.orca_text.specs.Peak.{peak};
ghost use Rattle.orca_text.specs.View.{term};

use crate::decoded_line::DecodedLine;
use crate::forms::{after_opening, after_prefix, form_after, opening_of, prefix_of};
use crate::formula::{FormulaAt, formula_at};
use crate::formula_term::{Formula, FormulaTerm};
use crate::line::SourceLine;
use crate::line_part::LinePart;
use crate::operand_tokens::after_byte;
use crate::operation::{DecodedOperation, decode_operation, is_spelled};
use orca_meaning::{Form, Mnemonic, Opening, OperandUse, Operands, Prefix, TextCause, TextFault};
use std::alloc::{AllocError, Global};

/// An operand as it is written.
#[derive(Drop)]
pub struct Operand {
    /// Which of the forms it has.
    pub form: Form,
    /// What precedes its first formula.
    pub prefix: Prefix,
    /// Its formula, empty where the form has none.
    pub first: Formula,
    /// Its second formula, where it is a pair.
    pub second: Option<Formula>,
}

/// How many operands an operator has.
#[inline(always)]
fn operand_count(code: u8) -> usize
    ensures { result ≡ operand_count code }
{
    if code == 0x06 || code == 0x0B || code == 0x15 {
        1
    } else {
        2
    }
}

/// The most values that are pending at once in a formula, where the location counter counts as `here` values.
#[inline(always)]
fn most_pending(here: usize, terms: &[FormulaTerm]) -> usize
    requires { here ≤ 2 }
    ensures { result ≡ peak here 0 0 (map term terms.now) }
{
    let mut now: usize = 0;
    let mut most: usize = 0;
    'terms: for next in terms {
        match next {
            FormulaTerm::Operator(code) => now = now.saturating_sub(operand_count(*code)) + 1,
            FormulaTerm::Location => {
                most = most.max(now + here);
                now += 1;
            }
            FormulaTerm::Constant(_) => {
                most = most.max(now + 1);
                now += 1;
            }
            FormulaTerm::Named(_, _) => {
                most = most.max(now + 1);
                now += 1;
            }
            FormulaTerm::Offset(_) => {
                most = most.max(now + 1);
                now += 1;
            }
        }
    }
    most
}

/// Whether more than 64 values are pending at once in a formula, where the location counter counts as `here` values.
pub fn is_too_deep(here: usize, formula: &Formula) -> bool
    requires { here ≤ 2 }
    ensures { IsTrue result ↔ (64 < peak here 0 0 formula.now) }
{
    most_pending(here, formula.terms()) > 64
}

/// An operand with one formula, unless that is too deep or has a number that is too large.
#[inline(always)]
fn one_formula(
    here: usize,
    form: Form,
    prefix: Prefix,
    first: FormulaAt<'_>,
) -> Result<Operand, TextCause>
    requires { here ≤ 2 }
    ensures ok { IfOk result (λ o. (o.form ≡ form) × (o.prefix ≡ prefix) × (o.first ≡ first.entry.formula) × (o.second ≡ None)
        × (peak here 0 0 first.entry.formula ≤ 64) × (first.entry.large ≡ false)) }
    ensures refused { IfErr result (λ cause. IsRefusedHere cause (peak here 0 0 first.entry.formula) first.entry.large) }
{
    if is_too_deep(here, &first.formula) {
        return Err(TextCause::BadOperand);
    }
    if first.large {
        return Err(TextCause::BadNumber);
    }
    Ok(Operand {
        form,
        prefix,
        first: first.formula,
        second: None,
    })
}

/// An operand with two formulas, unless one is too deep or has a number that is too large.
fn two_formulas(
    here: usize,
    prefix: Prefix,
    first: FormulaAt<'_>,
    second: FormulaAt<'_>,
) -> Result<Operand, TextCause>
    requires { here ≤ 2 }
    ensures ok { IfOk result (λ o. (o.form ≡ Form.Pair) × (o.prefix ≡ prefix) × (o.first ≡ first.entry.formula) × (o.second ≡ Some second.entry.formula)
        × (max (peak here 0 0 first.entry.formula) (peak here 0 0 second.entry.formula) ≤ 64) × ((first.entry.large || second.entry.large) ≡ false)) }
    ensures refused { IfErr result (λ cause. IsRefusedHere cause (max (peak here 0 0 first.entry.formula) (peak here 0 0 second.entry.formula))
        (first.entry.large || second.entry.large)) }
{
    if is_too_deep(here, &first.formula) || is_too_deep(here, &second.formula) {
        return Err(TextCause::BadOperand);
    }
    if first.large || second.large {
        return Err(TextCause::BadNumber);
    }
    Ok(Operand {
        form: Form::Pair,
        prefix,
        first: first.formula,
        second: Some(second.formula),
    })
}

/// The formula after the comma at the start, where nothing else is there.
fn second_formula(alloc: Global, rest: LinePart<'_>) -> Result<Option<FormulaAt<'_>>, AllocError>
    ensures found { IfOk result (λ found. IfSome found (λ x. IsSecond rest.entry.bytes.now x.formula x.large)) }
    ensures none { IfOk result (λ found. IfNone found (HasNoSecond rest.entry.bytes.now)) }
{
    let Some(following) = after_byte(rest.bytes, b',') else {
        return Ok(None);
    };
    let Some(second) = formula_at(alloc, Operands::Labels, LinePart { bytes: following })? else {
        return Ok(None);
    };
    if !second.rest.is_empty() {
        return Ok(None);
    }
    Ok(Some(second))
}

/// How many values the location counter counts.
#[inline(always)]
fn values_here(mnemonic: Option<Mnemonic>) -> usize
    ensures value { result ≡ values_here mnemonic }
    ensures bound { result ≤ 2 }
{
    match mnemonic {
        Some(_) => 2,
        None => 1,
    }
}

/// What the operand opens with, its prefix, and where its formula begins.
#[inline(always)]
fn front_of(mnemonic: Option<Mnemonic>, text: &[u8]) -> (Opening, Prefix, &[u8])
    ensures opening { result.0 ≡ opening mnemonic text.now }
    ensures prefix { result.1 ≡ prefix mnemonic text.now }
    ensures body { result.2.now ≡ body mnemonic text.now }
    ensures bound { length result.2.now ≤ length text.now }
{
    let opening = opening_of(mnemonic.is_some(), text);
    let inside = after_opening(opening, text);
    let prefix = prefix_of(opening, inside);
    (opening, prefix, after_prefix(prefix, inside))
}

/// An operand with a formula.
fn formula_operand(
    alloc: Global,
    mnemonic: Option<Mnemonic>,
    text: LinePart<'_>,
) -> Result<Operand, TextCause>
    requires some { 0 < length text.bytes.now }
    requires other { is_accumulator mnemonic text.bytes.now ≡ false }
    ensures ok { IfOk result (IsRead mnemonic text.entry.bytes.now) }
    ensures refused { IfErr result (λ cause. IsRefusedFor cause mnemonic text.entry.bytes.now) }
{
    let here = values_here(mnemonic);
    let (opening, prefix, body) = front_of(mnemonic, text.bytes);
    let first = match formula_at(alloc, Operands::Labels, LinePart { bytes: body }) {
        Ok(Some(first)) => first,
        Ok(None) => return Err(TextCause::BadOperand),
        Err(_) => return Err(TextCause::Memory),
    };
    if let Some(form) = form_after(opening, first.rest) {
        return one_formula(here, form, prefix, first);
    }
    match opening {
        Opening::Open => match second_formula(alloc, LinePart { bytes: first.rest }) {
            Ok(Some(second)) => two_formulas(here, prefix, first, second),
            Ok(None) => Err(TextCause::BadOperand),
            Err(_) => Err(TextCause::Memory),
        },
        Opening::Hash => Err(TextCause::BadOperand),
        Opening::Round => Err(TextCause::BadOperand),
        Opening::Square => Err(TextCause::BadOperand),
    }
}

/// An operand without formula.
fn bare_operand(alloc: Global, form: Form) -> Operand
    ensures { (result.form ≡ form) × (result.prefix ≡ Prefix.Bare) × (result.first ≡ []) × (result.second ≡ None) }
{
    Operand {
        form,
        prefix: Prefix::Bare,
        first: Formula::of(Vec::new(alloc)),
        second: None,
    }
}

/// The operand of a text, which is `A` of a mnemonic with the accumulator mode or not.
#[inline(always)]
fn operand_of(
    alloc: Global,
    mnemonic: Option<Mnemonic>,
    accumulator: bool,
    text: LinePart<'_>,
) -> Result<Operand, TextCause>
    requires { accumulator ≡ is_accumulator mnemonic text.bytes.now }
    ensures ok { IfOk result (IsRead mnemonic text.entry.bytes.now) }
    ensures refused { IfErr result (λ cause. IsRefusedFor cause mnemonic text.entry.bytes.now) }
{
    if text.bytes.is_empty() {
        return Ok(bare_operand(alloc, Form::Nothing));
    }
    if accumulator {
        return Ok(bare_operand(alloc, Form::Accumulator));
    }
    formula_operand(alloc, mnemonic, text)
}

/// Whether the accumulator is meant where the operand is missing.
fn means_accumulator(operand_use: OperandUse) -> bool
    ensures { result ≡ means_accumulator operand_use }
{
    match operand_use {
        OperandUse::Accumulator => true,
        OperandUse::Never => false,
        OperandUse::Signature => false,
        OperandUse::Always => false,
    }
}

/// Whether the accumulator is the operand of an operation that uses it so.
fn is_accumulator(operand_use: OperandUse, text: &[u8]) -> bool
    ensures { result ≡ (means_accumulator operand_use && bytes_eq (folded text.now) (codes "A")) }
{
    means_accumulator(operand_use) && is_spelled(text, b"A")
}

/// The operand of a line whose operation is this.
fn operand_with(
    alloc: Global,
    line: &SourceLine,
    operation: DecodedOperation,
) -> Result<Operand, TextFault>
    requires operation { LiesIn line.now.text line.now.operation }
    requires operand { LiesIn line.now.text line.now.operand }
    requires decoded { IsDecoded (part line.now.text line.now.operation) operation }
    ensures operand { IfOk result (IsRead (line_mnemonic line.now) (line_operand line.now)) }
    ensures refused { IfErr result (IsOperandFault line.now) }
{
    let text = line.part(line.operand);
    let accumulator = is_accumulator(operation.operand_use, text.bytes);
    match operand_of(alloc, operation.mnemonic, accumulator, text) {
        Ok(operand) => Ok(operand),
        Err(cause) => Err(TextFault {
            cause,
            file: line.file,
            line: line_for(cause, line.line),
        }),
    }
}

/// The operand of a line whose fields lie in its text, as those of `Lines::get` do. `BadOperand` where it has none of the
/// forms, or a formula in it has more than 64 pending values, of which `*` counts two in an instruction; else `BadNumber`
/// where a number in it is above 4,294,967,295.
pub fn read_operand(alloc: Global, line: &SourceLine) -> Result<Operand, TextFault>
    requires operation { LiesIn line.now.text line.now.operation }
    requires operand { LiesIn line.now.text line.now.operand }
    ensures operand { IfOk result (IsRead (line_mnemonic line.now) (line_operand line.now)) }
    ensures refused { IfErr result (IsOperandFault line.now) }
{
    let operation = decode_operation(line.part(line.operation).bytes);
    operand_with(alloc, line, operation)
}

/// The operand of a line as `read_operand` reads it, but the operation isn't looked up again.
pub fn read_decoded_operand(alloc: Global, of: &DecodedLine) -> Result<Operand, TextFault>
    requires operation { LiesIn of.now.line.text of.now.line.operation }
    requires operand { LiesIn of.now.line.text of.now.line.operand }
    ensures operand { IfOk result (IsRead (line_mnemonic of.now.line) (line_operand of.now.line)) }
    ensures refused { IfErr result (IsOperandFault of.now.line) }
{
    operand_with(alloc, &of.line, of.operation)
}

/// The line that a fault for this cause names.
fn line_for(cause: TextCause, line: u32) -> u32
    ensures { result ≡ line_for cause line }
{
    match cause {
        TextCause::Memory => 0,
        TextCause::LineTooLong => line,
        TextCause::TooManyLines => line,
        TextCause::BadOperand => line,
        TextCause::BadNumber => line,
    }
}
