//! What the operands of instructions and of DC give (WDC 65C816 data sheet, addressing modes; ORCA/M reference manual, "Declare
//! Constant").

ghost use Rattle.std.specs.Prelude.{◌≡◌, ◌≤◌, List, ℕ, length, Some, None, IfOk, IfSome, IfNone};
ghost use Rattle.orca_meaning.specs.Line.{LiesIn};
ghost use Rattle.orca_text.specs.OperandView.{line_mnemonic, line_operand};
ghost use Rattle.asm_meaning.specs.Elements.{Element, AreElements};
ghost use Rattle.orca_object.specs.GivenBy.{IsByInstruction, IsByList, HasElements};
ghost use Rattle.orca_operands.specs.GivenView.{given_answer, parts_answer};
ghost use Rattle.orca_object.specs.MarkView.{IsPlainAnswer};
ghost use Rattle.orca_operands.specs.ModeView.{widths};
ghost use Rattle.orca_operands.specs.NamesView.{constants};

use asm_meaning::AsmCause;
use orca_operands::{
    Encoding, KnownConstants, RepeatedPieces, Widths, answer_or_fault, element_at, gather_answer,
    instruct,
};
use orca_text::{
    DecodedLine, LinePart, Mnemonic, SourceLine, TextCause, after_byte, read_decoded_operand,
};
use std::alloc::{AllocError, Global};

/// The operand of a line has at most 255 bytes.
fn know_short(line: &SourceLine)
    requires { LiesIn line.now.text line.now.operand }
    ensures { length (line_operand line.now) ≤ 255 }
{
    let _text = line.part(line.operand);
}

/// What an instruction's line gives, or the first fault of its operand.
pub(crate) fn instruction_given(
    alloc: Global,
    known: KnownConstants<'_>,
    of: Widths,
    mnemonic: Mnemonic,
    line: &DecodedLine,
) -> Result<Result<Encoding, AsmCause>, AllocError>
    requires operation { LiesIn line.now.line.text line.now.line.operation }
    requires operand { LiesIn line.now.line.text line.now.line.operand }
    requires mnemonic { line_mnemonic line.now.line ≡ Some mnemonic }
    ensures given { IfOk result (λ answer. IsByInstruction (constants known.entry) (widths of) mnemonic (line_operand line.now.line) (given_answer answer)) }
    ensures plain { IfOk result IsPlainAnswer }
{
    know_short(&line.line);
    known.recall_small();
    match read_decoded_operand(alloc, line) {
        Ok(operand) => {
            let answer = instruct(alloc, known, of, mnemonic, &operand)?;
            Ok(answer)
        }
        Err(fault) => match fault.cause {
            TextCause::BadOperand => Ok(Err(AsmCause::BadOperand)),
            TextCause::BadNumber => Ok(Err(AsmCause::BadNumber)),
            TextCause::LineTooLong => unreachable!(),
            TextCause::TooManyLines => unreachable!(),
            TextCause::Memory => Err(AllocError),
        },
    }
}

/// What the elements of DC give that commas separate in a text.
fn parts_in(
    alloc: Global,
    known: KnownConstants<'_>,
    msb: bool,
    text: LinePart<'_>,
) -> Result<Option<Result<Vec<RepeatedPieces>, AsmCause>>, AllocError>
    ensures found { IfOk result (λ found. IfSome found (λ answer. HasElements (constants known.entry) msb text.entry.bytes.now (parts_answer answer))) }
    ensures none { IfOk result (λ found. IfNone found ((elements : List Element) → AreElements text.entry.bytes.now elements → ⊥)) }
{
    let mut out = Vec::new(alloc);
    let mut fault = None;
    let mut left = text.bytes;
    'elements: loop {
        let found = element_at(alloc, known, msb, LinePart { bytes: left })?;
        let Some((answer, rest)) = found else {
            return Ok(None);
        };
        gather_answer(&mut out, &mut fault, answer)?;
        if rest.is_empty() {
            return Ok(Some(answer_or_fault(fault, out)));
        }
        let Some(following) = after_byte(rest, b',') else {
            return Ok(None);
        };
        left = following;
    }
}

/// What the operand of DC gives, or its first fault.
pub(crate) fn constants_given(
    alloc: Global,
    known: KnownConstants<'_>,
    msb: bool,
    text: LinePart<'_>,
) -> Result<Result<Encoding, AsmCause>, AllocError>
    ensures { IfOk result (λ answer. IsByList (constants known.entry) msb text.entry.bytes.now (given_answer answer)) }
{
    let found = parts_in(alloc, known, msb, text)?;
    match found {
        Some(answer) => match answer {
            Ok(parts) => Ok(Ok(Encoding::Parts(parts))),
            Err(cause) => Ok(Err(cause)),
        },
        None => Ok(Err(AsmCause::BadOperand)),
    }
}
