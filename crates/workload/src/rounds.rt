//! The calls of the workload.

ghost use Rattle.std.specs.Prelude.{◌≡◌, ◌≢◌, ◌≤◌, ◌<◌, ◌+◌, ◌*◌, ◌-◌, IfOk, OnOk, OnErr};
ghost use Rattle.omf_io.specs.Files.{FileMap};
ghost use Rattle.loader_machine.specs.State.{first_id};
ghost use Rattle.loader_machine.specs.Commands as commands;
ghost use Rattle.workload_meaning.specs.Draws.{draws, following};
ghost use Rattle.workload.specs.Rounds.{program, round_of};
ghost use Rattle.workload.specs.Answering.{counted, HasDone, AreDone, front_of};

use crate::draws::Draws;
use crate::store::ReliableFiles;
use std::alloc::AllocError;
use sys_loader::{Loader, LoaderFault};

/// The ID of the user that is made first.
pub const USER: u16 = 0x1001;

/// The outcome of a call.
#[derive(Clone, Copy, Debug, PartialEq, Eq)]
pub enum RoundOutcome {
    /// A JSL entered a segment.
    Entered,
    /// Another call was done.
    Done,
    Refused,
}

/// How many JSLs entered a segment, and how many calls were refused.
#[derive(Clone, Copy, Debug, PartialEq, Eq)]
pub struct Counts {
    pub entered: u32,
    pub refused: u32,
}

impl Counts {
    /// Counts the outcome of a call.
    pub fn count(&mut self, outcome: RoundOutcome)
        requires { self.old.entered + self.old.refused < 1000 }
        ensures counted { self.new ≡ counted outcome self.old }
        ensures more { self.new.entered + self.new.refused ≤ self.old.entered + self.old.refused + 1 }
    {
        match outcome {
            RoundOutcome::Entered => self.entered += 1,
            RoundOutcome::Done => {}
            RoundOutcome::Refused => self.refused += 1,
        }
    }
}

/// The outcome that a refusal means, unless out of memory.
fn refused_round(fault: LoaderFault) -> Result<RoundOutcome, AllocError>
    ensures refused { IfOk result (λ outcome. outcome ≡ RoundOutcome.Refused) }
    ensures other { OnOk result (fault ≢ LoaderFault.Memory) }
    ensures memory { OnErr result (fault ≡ LoaderFault.Memory) }
{
    match fault {
        LoaderFault::Memory => Err(AllocError),
        _ => Ok(RoundOutcome::Refused),
    }
}

/// Loads the program.
pub fn load(loader: &mut Loader, files: &mut ReliableFiles) -> Result<RoundOutcome, AllocError>
    ensures held { files.new.files ≡ files.old.files }
    ensures done { IfOk result (λ outcome. HasDone files.old.files (commands.Load program) outcome loader.old loader.new) }
{
    match loader.load(files, "prog") {
        Ok(_) => Ok(RoundOutcome::Done),
        Err(fault) => refused_round(fault),
    }
}

/// Follows the JSL to a dynamic segment, by its number from 1.
fn jsl(loader: &mut Loader, files: &mut ReliableFiles, i: u32) -> Result<RoundOutcome, AllocError>
    requires from { 1 ≤ i }
    requires to { i ≤ 64 }
    ensures held { files.new.files ≡ files.old.files }
    ensures done { IfOk result (λ outcome. HasDone files.old.files (commands.Jsl first_id 1 (4 * (i - 1))) outcome loader.old loader.new) }
{
    match loader.jsl(files, USER, 1, 4 * (i - 1)) {
        Ok(_) => Ok(RoundOutcome::Entered),
        Err(fault) => refused_round(fault),
    }
}

/// Lets a dynamic segment go.
fn unload(loader: &mut Loader, i: u32) -> Result<RoundOutcome, AllocError>
    requires { i ≤ 64 }
    ensures { IfOk result (λ outcome. (held : FileMap) → HasDone held (commands.UnloadSegment first_id (i + 1)) outcome loader.old loader.new) }
{
    match loader.unload_segment(USER, i as u16 + 1) {
        Ok(()) => Ok(RoundOutcome::Done),
        Err(fault) => refused_round(fault),
    }
}

/// Empties the user's purgeable blocks.
fn purge(loader: &mut Loader) -> Result<RoundOutcome, AllocError>
    ensures { IfOk result (λ outcome. (held : FileMap) → HasDone held (commands.Purge first_id) outcome loader.old loader.new) }
{
    match loader.purge(USER) {
        Ok(_) => Ok(RoundOutcome::Done),
        Err(fault) => refused_round(fault),
    }
}

/// The call that a draw says.
fn round(
    loader: &mut Loader,
    files: &mut ReliableFiles,
    n: u32,
    draw: u32,
) -> Result<RoundOutcome, AllocError>
    requires some { 1 ≤ n }
    requires few { n ≤ 64 }
    ensures held { files.new.files ≡ files.old.files }
    ensures done { IfOk result (λ outcome. HasDone files.old.files (round_of n draw) outcome loader.old loader.new) }
{
    let i = 1 + draw / 4 % n;
    if draw % 4 <= 1 {
        jsl(loader, files, i)
    } else if draw % 4 == 2 {
        unload(loader, i)
    } else {
        purge(loader)
    }
}

/// All rounds, after the load.
pub fn rounds(
    loader: &mut Loader,
    files: &mut ReliableFiles,
    n: u32,
    draws: &mut Draws,
    counts: &mut Counts,
) -> Result<(), AllocError>
    requires some { 1 ≤ n }
    requires few { n ≤ 64 }
    requires loaded { AreDone files.old.files (front_of n draws.old.last 0) counts.old loader.old }
    requires small { counts.old.entered + counts.old.refused ≤ 1 }
    ensures held { files.new.files ≡ files.old.files }
    ensures done { OnOk result (AreDone files.old.files (front_of n draws.old.last (8 * n)) counts.new loader.new) }
{
    'rounds: for _ in 0..8 * n {
        let outcome = round(loader, files, n, draws.draw())?;
        counts.count(outcome);
    }
    Ok(())
}
