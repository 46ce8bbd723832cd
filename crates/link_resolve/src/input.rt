//! Reading the segments of an input.

ghost use Rattle.std.specs.Prelude.{◌≡◌, ◌<◌, ◌^◌, List, ℕ, None, length, IfOk, IfErr};
ghost use Rattle.omf_format.specs.File.{IsFile};
ghost use Rattle.omf_records.specs.Segments.{IsRefused};
ghost use Rattle.link_meaning.specs.LinkFaults.{segments_fault};
ghost use Rattle.link_resolve.specs.Reading.{IsFileRefused};

use crate::checks::segments_fault;
use link_meaning::{LinkCause, LinkFault};
use link_program::memory_fault;
use omf_base::Spot;
use omf_format::{FileCause, FileFault};
use omf_records::{SegmentList, segments};
use std::alloc::Global;

/// A fault of a place in an input.
pub fn fault_in(file: u32, segment: u32, at: u32, cause: LinkCause) -> LinkFault
    ensures { result ≡ record { cause = cause; name = None; spot = record { file = file; segment = segment; at = at } } }
{
    LinkFault {
        cause,
        name: None,
        spot: Spot { file, segment, at },
    }
}

/// A file's fault as one of the input with this number.
fn file_fault(fault: FileFault, file: u32) -> LinkFault
    ensures reported { (bytes : List ℕ) → IsRefused fault bytes → IsFileRefused file bytes result }
    ensures memory { result.cause ≡ LinkCause.Memory → fault.cause ≡ FileCause.Memory }
{
    let (segment, at) = (fault.segment, fault.at);
    match fault.cause {
        FileCause::Truncated => fault_in(file, segment, at, LinkCause::Truncated),
        FileCause::BadHeader => fault_in(file, segment, at, LinkCause::BadHeader),
        FileCause::Unsupported => fault_in(file, segment, at, LinkCause::Unsupported),
        FileCause::BadRecord => fault_in(file, segment, at, LinkCause::BadRecord),
        FileCause::Memory => memory_fault(),
    }
}

/// The segments of the input with this number, from 1, where it has no fault of its headers, its records and its segments.
/// What its dictionary says isn't looked at.
pub fn read_segments<'a>(
    alloc: Global,
    bytes: &'a [u8],
    file: u32,
) -> Result<SegmentList<'a>, LinkFault>
    requires { length bytes.now < 2 ^ 32 }
    ensures is_file { IfOk result (λ list. IsFile list bytes.now) }
    ensures sound { IfOk result (λ list. segments_fault 1 list ≡ None) }
    ensures refused { IfErr result (λ fault. IsFileRefused file bytes.now fault) }
{
    let list = match segments(alloc, bytes) {
        Ok(list) => list,
        Err(fault) => return Err(file_fault(fault, file)),
    };
    match segments_fault(&list) {
        None => Ok(list),
        Some((segment, (cause, at))) => Err(fault_in(file, segment, at, cause)),
    }
}
