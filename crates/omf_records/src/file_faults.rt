//! Faults of headers and records as they are reported for a file: the cause, and the displacement in the file.

ghost use Rattle.std.specs.Prelude.{◌≡◌};
ghost use Rattle.omf_format.specs.Header.{version_of};
ghost use Rattle.omf_format.specs.File.{to_file_header_fault, to_file_record_fault};
ghost use Rattle.omf_records.specs.Segments.{HasPlace};

use omf_format::{FileCause, HeaderFault, RecordFault};
use omf_header::{displacement_of, version_of};

/// A fault of the header at the start of the bytes, which begin at the displacement `start` in the file. The place of a field goes by the
/// header's version. Lack of memory has no place; `start` is returned for it.
pub fn to_file_header_fault(fault: HeaderFault, bytes: &[u8], start: u32) -> (FileCause, u32)
    requires { HasPlace fault start }
    ensures { result ≡ to_file_header_fault start (version_of bytes.now) fault }
{
    match fault {
        HeaderFault::Truncated(size) => (FileCause::Truncated, start + size),
        HeaderFault::Unsupported(field) => {
            let at = displacement_of(version_of(bytes), field);
            (FileCause::Unsupported, start + at)
        }
        HeaderFault::BadField(field) => {
            let at = displacement_of(version_of(bytes), field);
            (FileCause::BadHeader, start + at)
        }
        HeaderFault::Memory => (FileCause::Memory, start),
    }
}

/// A fault of a record.
pub fn to_file_record_fault(fault: RecordFault) -> (FileCause, u32)
    ensures { result ≡ to_file_record_fault fault }
{
    match fault {
        RecordFault::Truncated(at) => (FileCause::Truncated, at),
        RecordFault::Unsupported(_, at) => (FileCause::Unsupported, at),
        RecordFault::BadRecord(at) => (FileCause::BadRecord, at),
    }
}
