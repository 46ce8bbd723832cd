//! Lines one after another, and the object at their end (ORCA/M reference manual, "The assembly language statement").

ghost use Rattle.std.specs.Prelude.{◌≡◌, [], List, None, Some, Err, IfOk, MatchOption};
ghost use Rattle.orca_meaning.specs.Line.{Line};
ghost use Rattle.asm_meaning.specs.State.{State};
ghost use Rattle.orca_object.specs.AssembleView.{HasStepped, IsLast, IsAssembled};
ghost use Rattle.orca_operands.specs.TextView.{kept_text};

use crate::state::AsmState;
use crate::step::step;
use asm_meaning::{AsmCause, AsmFault};
use omf_header::header_size;
use orca_operands::RecordBytes;
use orca_text::{DecodedLine, Lines, SourceLine};
use std::alloc::{AllocError, Global};

/// The bytes of records, unless they are more than a file may have.
fn bytes_within_limit(text: &RecordBytes) -> Option<&[u8]>
    ensures { MatchOption result (kept_text text.now ≡ None) (λ bytes. kept_text text.now ≡ Some bytes.now) }
{
    if text.long {
        return None;
    }
    Some(text.bytes.as_slice())
}

/// What the lines so far leave: the segments that have ended, and the one that is open.
#[derive(Drop)]
pub struct Assembly {
    state: AsmState,
}

impl Assembly {
    ghost use Rattle.std.specs.Prelude.{◌≡◌, ◌+◌, is_some, None, Some, IfOk, MatchOption};
    ghost use Rattle.orca_meaning.specs.Line.{HaveFields};
    ghost use Rattle.orca_text.specs.DecodedView.{decoded_line};
    ghost use Rattle.asm_meaning.specs.Object.{object_text};
    ghost use Rattle.asm_meaning.specs.State.{State, start};
    ghost use Rattle.orca_object.specs.AssembleView.{IsLast};
    ghost use Rattle.orca_object.specs.AssemblyView.{Leaves, StepsTo, cells_of_open, open_name, open_header_size, open_text};
    ghost use Rattle.orca_operands.specs.TextView.{text_within_limit};

    /// Before the first line.
    pub fn new(alloc: Global) -> Assembly
        ensures { Leaves start result }
    {
        Assembly {
            state: AsmState::new(alloc),
        }
    }

    /// Assembles one more line, or answers the first fault that it has. After a fault, and after running out of memory, there is
    /// nothing to go on with.
    #[inline(always)]
    pub fn step(
        &mut self,
        alloc: Global,
        of: &DecodedLine,
    ) -> Result<Result<(), AsmCause>, AllocError>
        requires { HaveFields of.now.line.text (decoded_line of.now).fields }
        ensures { IfOk result (λ done. (state : State) → Leaves state self.old → StepsTo state (decoded_line of.now) done self.new) }
    {
        step(alloc, &mut self.state, of)
    }

    /// Whether a segment is open.
    pub fn is_open(&self) -> bool
        ensures { (state : State) → Leaves state self.now → result ≡ is_some state.segment }
    {
        self.state.is_open()
    }

    /// How many cells the open segment has, which is the offset of the next; 0 where none is open.
    pub fn offset(&self) -> u32
        ensures { (state : State) → Leaves state self.now → result ≡ cells_of_open state.segment }
    {
        match &self.state.segment {
            Some(open) => open.body.cells as u32,
            None => 0,
        }
    }

    /// The name of the open segment; empty where none is open.
    pub fn name(&self) -> &[u8]
        ensures { (state : State) → Leaves state self.now → result.now ≡ open_name state.segment }
    {
        match &self.state.segment {
            Some(open) => open.name.bytes(),
            None => &[],
        }
    }

    /// How many bytes the open segment's header will have; 0 where none is open.
    pub fn header_size(&self) -> usize
        ensures { (state : State) → Leaves state self.now → result ≡ open_header_size state.segment }
    {
        match &self.state.segment {
            Some(open) => header_size(&open.name),
            None => 0,
        }
    }

    /// The bytes of the open segment: zeros in the place of its header, and its records. None where they are more than a file may
    /// have; no bytes where no segment is open.
    pub fn open_bytes(&self) -> Option<&[u8]>
        ensures { (state : State) → Leaves state self.now → MatchOption result (text_within_limit (open_text state.segment) ≡ None) (λ bytes. text_within_limit (open_text state.segment) ≡ Some bytes.now) }
    {
        match &self.state.segment {
            Some(open) => bytes_within_limit(&open.body.writer.text),
            None => Some(&[]),
        }
    }

    /// The bytes of the segments that have ended, one after another. None where they are more than a file may have.
    pub fn ended_bytes(&self) -> Option<&[u8]>
        ensures { (state : State) → Leaves state self.now → MatchOption result (text_within_limit (object_text state.ended) ≡ None) (λ bytes. text_within_limit (object_text state.ended) ≡ Some bytes.now) }
    {
        bytes_within_limit(&self.state.object)
    }

    /// The object that the lines leave: the first of their faults is that a segment has no END, at the line that begins it; then
    /// that it is too long, with file 0 and line 0.
    pub fn finish(self) -> Result<Vec<u8>, AsmFault>
        ensures { (state : State) → Leaves state self → IsLast state result }
    {
        let kept = self.state;
        if let Some(open) = &kept.segment {
            return Err(AsmFault {
                cause: AsmCause::Unclosed,
                file: open.file,
                line: open.line,
            });
        }
        if kept.object.long {
            return Err(AsmFault {
                cause: AsmCause::TooLong,
                file: 0,
                line: 0,
            });
        }
        Ok(kept.object.bytes)
    }
}

/// A fault at a line.
fn fault_at(of: &SourceLine, cause: AsmCause) -> AsmFault
    ensures { result ≡ record { cause = cause; file = of.now.file; line = of.now.line } }
{
    AsmFault {
        cause,
        file: of.file,
        line: of.line,
    }
}

/// What lines leave, or the fault of the first that has one.
fn step_all(alloc: Global, lines: &Lines) -> Result<Result<Assembly, AsmFault>, AllocError>
    ensures { IfOk result (HasStepped lines.now) }
{
    let mut assembly = Assembly::new(alloc);
    let mut place: u32 = 0;
    let count = lines.count();
    'lines: while place < count {
        let line = match lines.get_decoded(place) {
            Some(line) => line,
            None => unreachable!(),
        };
        match assembly.step(alloc, line)? {
            Ok(()) => {}
            Err(cause) => return Ok(Err(fault_at(&line.line, cause))),
        }
        place += 1;
    }
    Ok(Ok(assembly))
}

/// The object that lines have left, or the fault of the first that has one.
fn object_or_fault(stepped: Result<Assembly, AsmFault>) -> Result<Vec<u8>, AsmFault>
    ensures assembled { (lines : List Line) → HasStepped lines stepped → IsAssembled lines result }
    ensures fault { (fault : AsmFault) → stepped ≡ Err fault → result ≡ Err fault }
{
    match stepped {
        Ok(assembly) => assembly.finish(),
        Err(fault) => Err(fault),
    }
}

/// The object of expanded lines, or the first fault of theirs.
pub fn assemble_lines(alloc: Global, lines: &Lines) -> Result<Result<Vec<u8>, AsmFault>, AllocError>
    ensures { IfOk result (IsAssembled lines.now) }
{
    let stepped = step_all(alloc, lines)?;
    Ok(object_or_fault(stepped))
}
