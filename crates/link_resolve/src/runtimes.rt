//! Reading run-time library files.

ghost use Rattle.std.specs.Prelude.{◌≡◌, ◌+◌, ◌<◌, ◌^◌, List, ℕ, None, length, IfOk, IfErr};
ghost use Rattle.std.specs.List.{AllByRecursion};
ghost use Rattle.omf_cells.specs.Load.{IsRuntimeRefused};
ghost use Rattle.link_resolve.specs.Runtimes.{files_of, to_link_cause, IsFileRefused, AreRead, IsFirstRefused};

use crate::input::fault_in;
use lib_dict::Member;
use link_meaning::{LinkCause, LinkFault};
use link_program::{OutsideNames, memory_fault};
use load_meaning::{LoadCause, LoadFault};
use omf_cells::{LoadFile, read_runtime};
use std::alloc::Global;

/// Run-time library files as they were read, in order, and the names that they export.
#[derive(Drop)]
pub struct Runtimes<'a> {
    pub loads: Vec<LoadFile<'a>>,
    pub outside: OutsideNames<'a>,
}

/// How a run-time library file's cause is reported; None when out of memory.
fn to_link_cause(cause: LoadCause) -> Option<LinkCause>
    ensures { result ≡ to_link_cause cause }
{
    match cause {
        LoadCause::Truncated => Some(LinkCause::Truncated),
        LoadCause::BadHeader => Some(LinkCause::BadHeader),
        LoadCause::Unsupported => Some(LinkCause::Unsupported),
        LoadCause::BadRecord => Some(LinkCause::BadRecord),
        LoadCause::NotLoadFile
        | LoadCause::Sequence
        | LoadCause::DataTooLong
        | LoadCause::PatchOutside
        | LoadCause::NoSuchTarget
        | LoadCause::DynamicTarget
        | LoadCause::BadTable => Some(LinkCause::BadRuntime),
        LoadCause::Memory => None,
    }
}

/// A run-time library file's fault, where the file has this number.
fn file_fault(fault: LoadFault, file: u32) -> LinkFault
    ensures reported { (bytes : List ℕ) → IsRuntimeRefused fault bytes → IsFileRefused file bytes result }
    ensures memory { result.cause ≡ LinkCause.Memory → fault.cause ≡ LoadCause.Memory }
{
    match to_link_cause(fault.cause) {
        Some(cause) => fault_in(file, fault.segment, fault.at, cause),
        None => memory_fault(),
    }
}

/// Reads the run-time library files, which are numbered after the given number of inputs; in values the first is 2.
pub fn read_runtimes<'a>(
    alloc: Global,
    given: &'a [Member],
    inputs: u32,
) -> Result<Runtimes<'a>, LinkFault>
    requires few { inputs + length given.now < 2 ^ 32 }
    requires least { length given.now < 2 ^ 15 }
    requires short { AllByRecursion (λ file. length file.1 < 2 ^ 32) (files_of given.now) }
    ensures read { IfOk result (λ read. AreRead given.now read.loads.items read.outside) }
    ensures refused { IfErr result (λ fault. IsFirstRefused inputs (files_of given.now) fault) }
{
    let mut loads = Vec::new(alloc);
    let mut outside = OutsideNames::new(alloc);
    let mut place = 0;
    'files: while place < given.len() {
        let load = match read_runtime(alloc, given[place].bytes.as_slice()) {
            Ok(load) => load,
            Err(fault) => {
                drop(loads);
                drop(outside);
                return Err(file_fault(fault, inputs + place as u32 + 1));
            }
        };
        match outside.add_file(&load, place as u16 + 2) {
            Ok(()) => {}
            Err(_) => {
                drop(loads);
                drop(outside);
                return Err(memory_fault());
            }
        }
        match loads.push(load) {
            Ok(()) => {}
            Err(_) => {
                drop(loads);
                drop(outside);
                return Err(memory_fault());
            }
        }
        place += 1;
    }
    Ok(Runtimes { loads, outside })
}
