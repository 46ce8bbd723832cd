//! Files that are read.

ghost use Rattle.std.specs.Prelude.{◌≡◌, ◌⊎◌, ◌≤◌, ◌<◌, ◌^◌, List, ℕ, length, true, false, IfOk, IfErr};
ghost use Rattle.omf_io.specs.Counts.{one_more};
ghost use Rattle.omf_io.specs.Files.{IsRead, IsUnread};
ghost use Rattle.omf_cells.specs.Load.{IsRefused, IsRuntimeRefused};
ghost use Rattle.loader_users.specs.Taken.{IsReadAs, IsBadFile};

use loader_machine::LoaderFault;
use omf_cells::{LoadCause, LoadFault, LoadFile, read_load, read_runtime};
use omf_io::{Files, ReadFault};
use std::alloc::Global;

/// The bytes of the file at a path.
pub fn read_file<F: Files>(alloc: Global, files: &mut F, path: &str) -> Result<Vec<u8>, LoaderFault>
    ensures held { (F.seen files.new).held ≡ (F.seen files.old).held }
    ensures never_falls { (F.seen files.old).faults ≤ (F.seen files.new).faults }
    ensures asked { (F.seen files.new).asked ≡ one_more (F.seen files.old).asked }
    ensures read { IfOk result (λ bytes. IsRead (F.seen files.old).held path.now bytes.items × ((F.seen files.new).faults ≡ (F.seen files.old).faults)) }
    ensures unread { IfErr result (λ why. ((why ≡ LoaderFault.CannotRead) × IsUnread (F.seen files.old).held path.now (F.seen files.old).faults (F.seen files.new).faults)
        ⊎ ((why ≡ LoaderFault.Memory) × ((F.seen files.new).faults ≡ (F.seen files.old).faults))) }
{
    match files.read(alloc, path) {
        Ok(bytes) => Ok(bytes),
        Err(ReadFault::Absent) => Err(LoaderFault::CannotRead),
        Err(ReadFault::TooLong) => Err(LoaderFault::CannotRead),
        Err(ReadFault::Failed) => Err(LoaderFault::CannotRead),
        Err(ReadFault::Memory) => Err(LoaderFault::Memory),
    }
}

/// What the loader says of a load file's fault.
fn bad_file(fault: LoadFault) -> LoaderFault
    ensures reported { (file : List ℕ) → IsRefused fault file → IsBadFile false file result }
    ensures reported_runtime { (file : List ℕ) → IsRuntimeRefused fault file → IsBadFile true file result }
{
    match fault.cause {
        LoadCause::Memory => LoaderFault::Memory,
        _ => LoaderFault::BadFile(fault),
    }
}

/// The load file.
fn plain_load<'a>(alloc: Global, file: &'a [u8]) -> Result<LoadFile<'a>, LoaderFault>
    requires { length file.now < 2 ^ 32 }
    ensures loaded { IfOk result (λ load. IsReadAs false file.now load) }
    ensures refused { IfErr result (IsBadFile false file.now) }
{
    match read_load(alloc, file) {
        Ok(load) => Ok(load),
        Err(fault) => Err(bad_file(fault)),
    }
}

/// The run-time library file that these bytes are, or why they are none.
pub fn runtime_load<'a>(alloc: Global, file: &'a [u8]) -> Result<LoadFile<'a>, LoaderFault>
    requires { length file.now < 2 ^ 32 }
    ensures loaded { IfOk result (λ load. IsReadAs true file.now load) }
    ensures refused { IfErr result (IsBadFile true file.now) }
{
    match read_runtime(alloc, file) {
        Ok(load) => Ok(load),
        Err(fault) => Err(bad_file(fault)),
    }
}

/// The load file; that of an attached user is a run-time library file.
pub fn load_of<'a>(
    alloc: Global,
    file: &'a [u8],
    attached: bool,
) -> Result<LoadFile<'a>, LoaderFault>
    requires { length file.now < 2 ^ 32 }
    ensures loaded { IfOk result (λ load. IsReadAs attached file.now load) }
    ensures refused { IfErr result (IsBadFile attached file.now) }
{
    match attached {
        true => runtime_load(alloc, file),
        false => plain_load(alloc, file),
    }
}
