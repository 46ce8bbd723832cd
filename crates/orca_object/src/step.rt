//! What a line leaves for those after it (ORCA/M reference manual, "The assembly language statement").

ghost use Rattle.std.specs.Prelude.{◌≡◌, true, false, Some, IfOk};
ghost use Rattle.orca_meaning.specs.Line.{Line, LiesIn, HaveFields, part};
ghost use Rattle.orca_text.specs.OperandView.{line_operand};
ghost use Rattle.orca_text.specs.DecodedView.{decoded_line};
ghost use Rattle.asm_meaning.specs.declared.directives.Operation.TheVariants.{Direct};
ghost use Rattle.asm_meaning.specs.Operations.{operation_of};
ghost use Rattle.asm_meaning.specs.State.{State};
ghost use Rattle.asm_meaning.specs.Statement.{needs_label, is_misplaced};
ghost use Rattle.orca_object.specs.DoneView.{IsSome};
ghost use Rattle.orca_object.specs.StateView.{ShowsState, IsLeft};
ghost use Rattle.orca_object.specs.StepView.{Steps, IsPlacedAs};

use crate::data::{do_anop, do_constants, do_instruct, do_space};
use crate::equates::{do_equ, do_gequ};
use crate::operation::{begins_segment, label_of, needs_segment, operation_of};
use crate::places::{do_align, do_org};
use crate::segments::{do_begin, do_end, do_entry, do_kind, do_using};
use crate::state::AsmState;
use crate::switches::turning;
use asm_meaning::{AsmCause, Directive, Operation};
use omf_base::Name;
use orca_text::{DecodedLine, LinePart};
use std::alloc::{AllocError, Global};

/// A directive that needs no label.
fn do_unlabelled(
    alloc: Global,
    kept: &mut AsmState,
    directive: Directive,
    label: Result<Name, AsmCause>,
    text: LinePart<'_>,
) -> Result<Result<(), AsmCause>, AllocError>
    requires unlabelled { needs_label (Direct directive) ≡ false }
    ensures { IfOk result (λ done. (state : State) (l : Line) → ShowsState state kept.old → IsLeft state l (Direct directive) label text.entry.bytes.now done kept.new) }
{
    match directive {
        Directive::End => do_end(alloc, kept, label),
        Directive::Using => do_using(alloc, kept, label, text),
        Directive::Constants => do_constants(alloc, kept, label, text),
        Directive::Space => do_space(alloc, kept, label, text),
        Directive::Align => do_align(alloc, kept, label, text),
        Directive::Org => do_org(alloc, kept, label, text),
        Directive::Kind => do_kind(alloc, kept, label, text),
        Directive::Turn(switch) => turning(alloc, kept, switch, label, text.bytes),
        Directive::Nothing => do_anop(alloc, kept, label),
        Directive::Ignored => do_anop(alloc, kept, label),
        Directive::Begin(_) | Directive::Entry | Directive::Equ | Directive::Gequ => unreachable!(),
    }
}

/// What an operation leaves, before the segment's length is judged.
fn do_operation(
    alloc: Global,
    kept: &mut AsmState,
    operation: Operation,
    label: Result<Name, AsmCause>,
    of: &DecodedLine,
) -> Result<Result<(), AsmCause>, AllocError>
    requires operation { LiesIn of.now.line.text of.now.line.operation }
    requires operand { LiesIn of.now.line.text of.now.line.operand }
    requires is { operation_of (part of.now.line.text of.now.line.operation) ≡ Some operation }
    requires some { needs_label operation ≡ true → IsSome label }
    ensures { IfOk result (λ done. (state : State) → ShowsState state kept.old → IsLeft state (decoded_line of.now) operation label (line_operand of.now.line) done kept.new) }
{
    let text = of.line.part(of.line.operand);
    match operation {
        Operation::Instruct(mnemonic) => do_instruct(alloc, kept, mnemonic, label, of),
        Operation::Direct(Directive::Begin(class)) => {
            do_begin(
                alloc,
                kept,
                of.line.file,
                of.line.line,
                class,
                label,
                text.bytes,
            )
        }
        Operation::Direct(Directive::Entry) => do_entry(alloc, kept, label),
        Operation::Direct(Directive::Equ) => do_equ(alloc, kept, label, text),
        Operation::Direct(Directive::Gequ) => do_gequ(alloc, kept, label, text),
        Operation::Direct(other) => do_unlabelled(alloc, kept, other, label, text),
    }
}

/// Whether a statement is outside segments and needs one, or is inside one and begins another.
#[inline(always)]
fn is_misplaced(kept: &AsmState, operation: Operation, label: &[u8], operand: &[u8]) -> bool
    ensures { (state : State) → ShowsState state kept.now → result ≡ is_misplaced state.segment operation label.now operand.now }
{
    match &kept.segment {
        Some(_) => begins_segment(operation),
        None => needs_segment(operation, label, operand),
    }
}

/// What an operation leaves, unless the segment is too long then.
#[inline(always)]
fn finish(
    alloc: Global,
    kept: &mut AsmState,
    operation: Operation,
    label: Result<Name, AsmCause>,
    of: &DecodedLine,
) -> Result<Result<(), AsmCause>, AllocError>
    requires operation { LiesIn of.now.line.text of.now.line.operation }
    requires operand { LiesIn of.now.line.text of.now.line.operand }
    requires is { operation_of (part of.now.line.text of.now.line.operation) ≡ Some operation }
    requires some { needs_label operation ≡ true → IsSome label }
    ensures { IfOk result (λ done. (state : State) → ShowsState state kept.old → IsPlacedAs state (decoded_line of.now) operation label (line_operand of.now.line) done kept.new) }
{
    let done = do_operation(alloc, kept, operation, label, of)?;
    match done {
        Ok(()) => {
            if kept.is_too_long() {
                return Ok(Err(AsmCause::SegmentTooLong));
            }
            Ok(Ok(()))
        }
        Err(cause) => Ok(Err(cause)),
    }
}

/// What a line leaves, or its first fault.
pub(crate) fn step(
    alloc: Global,
    kept: &mut AsmState,
    of: &DecodedLine,
) -> Result<Result<(), AsmCause>, AllocError>
    requires fields { HaveFields of.now.line.text (decoded_line of.now).fields }
    ensures { IfOk result (λ done. (state : State) → ShowsState state kept.old → Steps state (decoded_line of.now) done kept.new) }
{
    let Some(operation) = operation_of(of) else {
        return Ok(Err(AsmCause::UnknownOperation));
    };
    let text = of.line.part(of.line.label);
    if is_misplaced(
        kept,
        operation,
        text.bytes,
        of.line.part(of.line.operand).bytes,
    ) {
        return Ok(Err(AsmCause::OutsideSegment));
    }
    let label = label_of(alloc, kept, operation, text)?;
    finish(alloc, kept, operation, label, of)
}
