//! The workload's run.

ghost use Rattle.std.specs.Prelude.{◌≡◌, ◌≤◌, ◌<◌, ◌-◌, ◌^◌, ℕ, IfOk};
ghost use Rattle.omf_io.specs.Files.{FileMap};
ghost use Rattle.loader_machine.specs.State.{Machine, empty_of};
ghost use Rattle.loader_agrees.specs.Agrees.{Agrees};
ghost use Rattle.workload_meaning.specs.Draws.{following};
ghost use Rattle.workload.specs.Rounds.{banks};
ghost use Rattle.workload.specs.Work.{HasWorked};

use crate::draws::Draws;
use crate::rounds::{Counts, load, rounds};
use crate::store::ReliableFiles;
use crate::summing::active_sum;
use std::alloc::{AllocError, Global};
use sys_loader::{BanksFault, Loader};

/// The outcome of a run of the workload.
#[derive(Drop)]
pub struct Worked {
    /// The loader that answered all calls.
    pub loader: Loader,
    /// How many JSLs entered a segment.
    pub entered: u32,
    /// How many calls were refused.
    pub refused: u32,
    /// The sum of all bytes of all active segments, modulo 2^32.
    pub sum: u32,
}

/// A loader of the banks $02 and $03.
fn loader_of(alloc: Global) -> Result<Loader, AllocError>
    ensures { IfOk result (λ loader. (held : FileMap) → Agrees held loader (empty_of banks)) }
{
    match Loader::new(alloc, &[0x02, 0x03]) {
        Ok(loader) => Ok(loader),
        Err(BanksFault::Memory) => Err(AllocError),
        Err(BanksFault::NoBanks) => unreachable!(),
        Err(BanksFault::BankTwice(_)) => unreachable!(),
    }
}

/// Loads the file at the path `prog`, which has `count` segments, and makes 8 n calls by the draws.
#[tactic(auto, using(crate::proofs::Steps::has_worked))]
pub fn work(
    alloc: Global,
    n: u32,
    draws: &mut Draws,
    files: &mut ReliableFiles,
    count: u16,
) -> Result<Worked, AllocError>
    requires some { 1 ≤ n }
    requires few { n ≤ 64 }
    requires segments { count < 2 ^ 16 - 1 }
    ensures { IfOk result (λ worked. (seed : ℕ) → draws.old.last ≡ following n seed → (last : Machine) × Agrees files.old.files worked.loader last
        × HasWorked files.old.files n seed count worked.entered worked.refused worked.sum last) }
{
    let mut loader = loader_of(alloc)?;
    let mut counts = Counts {
        entered: 0,
        refused: 0,
    };
    let outcome = load(&mut loader, files)?;
    counts.count(outcome);
    rounds(&mut loader, files, n, draws, &mut counts)?;
    let sum = active_sum(&loader, count);
    Ok(Worked {
        loader,
        entered: counts.entered,
        refused: counts.refused,
        sum,
    })
}
