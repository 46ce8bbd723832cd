//! The headers and records of a file's segments, checked in order.

ghost use Rattle.std.specs.Prelude.{◌≡◌, ◌<◌, ◌≤◌, ◌^◌, length, drop, OnOk, IfOk, IfErr};
ghost use Rattle.omf_format.specs.Reading.{IsBody};
ghost use Rattle.omf_format.specs.File.{FaultAt, IsHeader};
ghost use Rattle.omf_header.specs.View.{fields};
ghost use Rattle.omf_records.specs.Segments.{IsView, HasRecordFault, IsSegmentFault, IsReported};

use crate::file_faults::{to_file_header_fault, to_file_record_fault};
use crate::reading::Records;
use crate::segment::SegmentView;
use omf_format::{FileCause, FileFault};
use omf_header::{Header, read_header};
use std::alloc::Global;

/// The header that starts there, of the segment with this number.
fn header_at(alloc: Global, file: &[u8], start: u32, number: u32) -> Result<Header, FileFault>
    requires short { length file.now < 2 ^ 32 }
    requires inside { start < length file.now }
    ensures ok { IfOk result (λ header. IsHeader start (fields header) file.now) }
    ensures err { IfErr result (λ fault. IsSegmentFault fault number start file.now) }
{
    let bytes = bytes_from(file, start as usize);
    match read_header(alloc, bytes) {
        Ok(header) => Ok(header),
        Err(fault) => Err(in_segment(number, to_file_header_fault(fault, bytes, start))),
    }
}

/// The bytes from a displacement on.
fn bytes_from(bytes: &[u8], at: usize) -> &[u8]
    requires { at ≤ length bytes.now }
    ensures value { result.now ≡ drop at bytes.now }
    ensures size { length result.now ≤ length bytes.now }
{
    &bytes[at..]
}

/// A fault as that of the segment with this number; one with the cause Memory is that of none.
fn in_segment(number: u32, reported: (FileCause, u32)) -> FileFault
    ensures { IsReported reported number result }
{
    let (cause, at) = reported;
    match cause {
        FileCause::Memory => FileFault {
            cause,
            segment: 0,
            at: 0,
        },
        FileCause::Truncated
        | FileCause::BadHeader
        | FileCause::Unsupported
        | FileCause::BadRecord => FileFault {
            cause,
            segment: number,
            at,
        },
    }
}

/// Goes over the records up to END.
fn check_records(records: Records, number: u32) -> Result<(), FileFault>
    ensures ok { OnOk result (IsBody records.entry) }
    ensures err { IfErr result (λ fault. (reported : FaultAt) × HasRecordFault records.entry reported × IsReported reported number fault) }
{
    let mut records = records;
    'records: loop {
        match records.next() {
            Ok(None) => return Ok(()),
            Ok(Some(_)) => {}
            Err(fault) => return Err(in_segment(number, to_file_record_fault(fault))),
        }
    }
}

/// The segment with this number that starts there, its header and records checked.
pub fn segment_at(
    alloc: Global,
    file: &[u8],
    start: u32,
    number: u32,
) -> Result<SegmentView<'_>, FileFault>
    requires short { length file.now < 2 ^ 32 }
    requires inside { start < length file.now }
    ensures start { IfOk result (λ view. view.start ≡ start) }
    ensures ok { IfOk result (λ view. IsView file.now view) }
    ensures err { IfErr result (λ fault. IsSegmentFault fault number start file.now) }
{
    let header = header_at(alloc, file, start, number)?;
    let view = SegmentView {
        start,
        header,
        file,
    };
    check_records(view.records(), number)?;
    Ok(view)
}
