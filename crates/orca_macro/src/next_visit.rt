//! The visits of a program, one at a time.

ghost use Rattle.std.specs.Prelude.{◌≡◌, ◌≤◌, ◌<◌, ◌+◌, ◌^◌, [], List, length, IfOk};
ghost use Rattle.macro_meaning.specs.Visit.{Visit, first_visit};
ghost use Rattle.orca_macro.specs.NextVisit.{place_of, IsNext, IsUnderWay, MakesVisit};

use crate::expansion::visit;
use crate::program::MacroProgram;
use crate::visits::{Flow, MOST_VISITS};
use macro_meaning::MacroCause;
use orca_symbols::{ExpansionState, Symbols};
use orca_text::{Lines, SourceLine};
use std::alloc::{AllocError, Global};

/// A line that was visited.
#[derive(Clone, Copy)]
pub struct VisitedLine<'p> {
    /// The line as it stands in its file.
    pub line: &'p SourceLine,
    /// How deep its expansion is nested: 0 in the source.
    pub depth: usize,
    /// What follows it.
    pub flow: Flow,
}

/// Where the visits of a program are.
#[derive(Drop)]
pub struct Expansion {
    state: ExpansionState,
    buffer: Vec<u8>,
    spare: Symbols,
    count: u32,
}

impl Expansion {
    /// At the first line of a source.
    pub fn new(alloc: Global) -> Result<Expansion, AllocError>
        ensures { IfOk result (λ expansion. IsNext [] first_visit (place_of expansion)) }
    {
        let state = ExpansionState::new(alloc)?;
        Ok(Expansion {
            state,
            buffer: Vec::new(alloc),
            spare: Symbols::new(alloc),
            count: 0,
        })
    }

    /// Visits the next line of a program, and appends the line that it gives, if it gives one. None where the source has no
    /// line. After a line that ends the visits or has a fault, and after running out of memory, there is no next one.
    pub fn next<'p>(
        &mut self,
        alloc: Global,
        program: &'p MacroProgram,
        out: &mut Lines,
    ) -> Result<Option<VisitedLine<'p>>, AllocError>
        requires under_way { IsUnderWay (place_of self.old) }
        requires room { length out.old + 1 < 2 ^ 32 }
        ensures visited { IfOk result (λ found. (before : List Visit) (v : Visit) → IsNext before v (place_of self.old) → MakesVisit program.now before v found (place_of self.new) out.old out.new) }
        ensures few { IfOk result (λ found. length out.new ≤ length out.old + 1) }
    {
        let depth = self.state.frames.count();
        let Some((line, plan)) = program.effect_at(self.state.scope.place, self.state.scope.line)
        else {
            return Ok(None);
        };
        if self.count == MOST_VISITS {
            return Ok(Some(VisitedLine {
                line,
                depth,
                flow: Flow::Stops(MacroCause::TooManyLines),
            }));
        }
        let flow = visit(
            alloc,
            program,
            &mut self.state,
            line,
            plan,
            &mut self.buffer,
            &mut self.spare,
            out,
        )?;
        self.count += 1;
        Ok(Some(VisitedLine { line, depth, flow }))
    }
}
