//! Instructions, DC, DS and ANOP: statements that give bytes or a label alone (ORCA/M reference manual, "DC", "DS" and "ANOP"; GS/OS
//! Reference, appendix F).

ghost use Rattle.std.specs.Prelude.{◌≡◌, ◌≤◌, [], Some, IfOk, OnOk, Ok};
ghost use Rattle.omf_format.specs.declared.codes.TheConstants.{DIRECTIVE_LABEL};
ghost use Rattle.orca_meaning.specs.Line.{Line, LiesIn};
ghost use Rattle.orca_text.specs.OperandView.{line_mnemonic, line_operand};
ghost use Rattle.asm_meaning.specs.declared.directives.Operation.TheVariants.{Instruct, Direct};
ghost use Rattle.asm_meaning.specs.declared.directives.Directive.TheVariants.{Constants};
ghost use Rattle.asm_meaning.specs.State.{State};
ghost use Rattle.orca_object.specs.MarkView.{giving, IsPlainAnswer};
ghost use Rattle.orca_object.specs.StateView.{ShowsState, IsLeft, Leaves};
ghost use Rattle.asm_meaning.specs.Statement.{marking};
ghost use Rattle.orca_object.specs.DoneView.{spaced_by};
ghost use Rattle.asm_meaning.specs.declared.directives.Directive.TheVariants as directives;

use crate::state::{AsmState, OpenSegment};
use crate::statement::{constants_given, instruction_given};
use asm_meaning::AsmCause;
use omf_base::Name;
use omf_format::{DIRECTIVE_LABEL, INSTRUCTION_LABEL};
use omf_records::Rec;
use orca_operands::{Encoding, label_and_encoding, number_in, pair_or_earlier_fault};
use orca_text::{DecodedLine, LinePart, Mnemonic};
use std::alloc::{AllocError, Global};

impl OpenSegment {
    ghost use Rattle.std.specs.Prelude.{◌≡◌, ℕ, min, IfOk};
    ghost use Rattle.orca_operands.specs.GivenView.{given_pieces, given_records};
    ghost use Rattle.asm_meaning.specs.Pieces.{ArePlainPieces};
    ghost use Rattle.asm_meaning.specs.State.{StartedSegment, with_local_record};
    ghost use Rattle.orca_object.specs.StateView.{ShowsSegment, ShowsGrown};

    /// The records of a statement with its label.
    fn mark_given(
        &mut self,
        alloc: Global,
        label: &Name,
        form: u8,
        given: &Encoding,
    ) -> Result<Result<(), AsmCause>, AllocError>
        requires plain { ArePlainPieces (given_pieces given.now) }
        ensures { IfOk result (λ done. (s : StartedSegment) → ShowsSegment s self.old → ShowsGrown done (with_local_record label.now form (given_records given.now) s) self.new) }
    {
        let size = u64::from(given.cells());
        self.mark(alloc, label, form, size)?;
        match self.body.grow(size) {
            Ok(()) => {
                given.put(&mut self.body.writer)?;
                Ok(Ok(()))
            }
            Err(cause) => Ok(Err(cause)),
        }
    }
}

impl AsmState {
    ghost use Rattle.std.specs.Prelude.{◌≡◌, ◌∷◌, [], IfOk, Ok};
    ghost use Rattle.omf_format.specs.declared.codes.TheConstants.{DIRECTIVE_LABEL};
    ghost use Rattle.omf_format.specs.Record.{Space};
    ghost use Rattle.asm_meaning.specs.State.{State, in_segment, with_local_record};
    ghost use Rattle.orca_operands.specs.GivenView.{given_pieces, given_records};
    ghost use Rattle.orca_object.specs.StateView.{ShowsState, Leaves};
    ghost use Rattle.asm_meaning.specs.Pieces.{ArePlainPieces};

    /// A statement with its label.
    fn mark_given(
        &mut self,
        alloc: Global,
        label: &Name,
        form: u8,
        given: &Encoding,
    ) -> Result<Result<(), AsmCause>, AllocError>
        requires plain { ArePlainPieces (given_pieces given.now) }
        ensures { IfOk result (λ done. (state : State) → ShowsState state self.old → Leaves done self.new (Ok (in_segment (with_local_record label.now form (given_records given.now)) state))) }
    {
        if let Some(open) = &mut self.segment {
            return open.mark_given(alloc, label, form, given);
        }
        Ok(Ok(()))
    }

    /// DS.
    fn space(
        &mut self,
        alloc: Global,
        label: &Name,
        n: u32,
    ) -> Result<Result<(), AsmCause>, AllocError>
        ensures { IfOk result (λ done. (state : State) → ShowsState state self.old → Leaves done self.new (Ok (in_segment (with_local_record label.now DIRECTIVE_LABEL (Space n ∷ [])) state))) }
    {
        if let Some(open) = &mut self.segment {
            return open.give_record(alloc, label, &Rec::Space { n }, u64::from(n));
        }
        Ok(Ok(()))
    }
}

/// A statement that gives pieces, with its label.
#[inline(always)]
fn give_statement(
    alloc: Global,
    kept: &mut AsmState,
    form: u8,
    label: Result<Name, AsmCause>,
    given: Result<Encoding, AsmCause>,
) -> Result<Result<(), AsmCause>, AllocError>
    requires plain { IsPlainAnswer given }
    ensures { IfOk result (λ done. (state : State) → ShowsState state kept.old → Leaves done kept.new (giving state form label given)) }
{
    match label_and_encoding(label, given) {
        Ok((name, given)) => kept.mark_given(alloc, &name, form, &given),
        Err(cause) => Ok(Err(cause)),
    }
}

/// An instruction.
pub(crate) fn do_instruct(
    alloc: Global,
    kept: &mut AsmState,
    mnemonic: Mnemonic,
    label: Result<Name, AsmCause>,
    line: &DecodedLine,
) -> Result<Result<(), AsmCause>, AllocError>
    requires operation { LiesIn line.now.line.text line.now.line.operation }
    requires operand { LiesIn line.now.line.text line.now.line.operand }
    requires mnemonic { line_mnemonic line.now.line ≡ Some mnemonic }
    ensures { IfOk result (λ done. (state : State) (l : Line) → ShowsState state kept.old → IsLeft state l (Instruct mnemonic) label (line_operand line.now.line) done kept.new) }
{
    let given = instruction_given(alloc, kept.known_constants(), kept.widths, mnemonic, line)?;
    give_statement(alloc, kept, INSTRUCTION_LABEL, label, given)
}

/// DC.
pub(crate) fn do_constants(
    alloc: Global,
    kept: &mut AsmState,
    label: Result<Name, AsmCause>,
    text: LinePart<'_>,
) -> Result<Result<(), AsmCause>, AllocError>
    ensures { IfOk result (λ done. (state : State) (l : Line) → ShowsState state kept.old → IsLeft state l (Direct Constants) label text.entry.bytes.now done kept.new) }
{
    let known = kept.known_constants();
    known.recall_small();
    let given = constants_given(alloc, known, kept.msb, text)?;
    give_statement(alloc, kept, DIRECTIVE_LABEL, label, given)
}

/// ANOP, and the directives without effect.
pub(crate) fn do_anop(
    alloc: Global,
    kept: &mut AsmState,
    label: Result<Name, AsmCause>,
) -> Result<Result<(), AsmCause>, AllocError>
    ensures { IfOk result (λ done. (state : State) → ShowsState state kept.old → Leaves done kept.new (marking state DIRECTIVE_LABEL label (Ok []))) }
{
    match label {
        Ok(name) => {
            kept.mark_alone(alloc, &name)?;
            Ok(Ok(()))
        }
        Err(cause) => Ok(Err(cause)),
    }
}

/// DS, by its number.
fn space(
    alloc: Global,
    kept: &mut AsmState,
    label: Result<Name, AsmCause>,
    number: Result<u32, AsmCause>,
) -> Result<Result<(), AsmCause>, AllocError>
    ensures { IfOk result (λ done. (state : State) → ShowsState state kept.old → Leaves done kept.new (spaced_by state label number)) }
{
    match pair_or_earlier_fault(label, number) {
        Ok((name, n)) => kept.space(alloc, &name, n),
        Err(cause) => Ok(Err(cause)),
    }
}

/// DS.
pub(crate) fn do_space(
    alloc: Global,
    kept: &mut AsmState,
    label: Result<Name, AsmCause>,
    text: LinePart<'_>,
) -> Result<Result<(), AsmCause>, AllocError>
    ensures { IfOk result (λ done. (state : State) (line : Line) → ShowsState state kept.old → IsLeft state line (Direct directives.Space) label text.entry.bytes.now done kept.new) }
{
    let number = number_in(alloc, kept.known_constants(), text)?;
    space(alloc, kept, label, number)
}
