//! What is checked first in a load segment: its header, and then its name and type.

ghost use Rattle.std.specs.Prelude.{◌≡◌, ◌+◌, ◌<◌, ◌≤◌, ◌^◌, length, drop, IfOk, IfErr, Some};
ghost use Rattle.omf_format.specs.Header.{form_of, version_of};
ghost use Rattle.load_meaning.specs.Loadable.{segment_refusal};
ghost use Rattle.load_meaning.specs.laws.Steps.{is_express};
ghost use Rattle.omf_header.specs.View.{fields};
ghost use Rattle.omf_records.specs.Segments.{HasPlace};
ghost use Rattle.omf_cells.specs.Load.{IsLoadHeader, IsReadRefused, IsHeaderFault};

use crate::reported::load_fault;
use load_meaning::{LoadCause, LoadFault};
use omf_format::HeaderFault;
use omf_header::{Header, read_header};
use omf_records::to_file_header_fault;
use std::alloc::Global;

/// The header that starts there, of the segment with this number.
pub fn front_at(alloc: Global, file: &[u8], start: u32, number: u32) -> Result<Header, LoadFault>
    requires short { length file.now < 2 ^ 32 }
    requires inside { start < length file.now }
    ensures ok { IfOk result (λ header. IsLoadHeader start (fields header) file.now) }
    ensures err { IfErr result (λ fault. IsReadRefused fault number start file.now) }
{
    let bytes = bytes_from(file, start as usize);
    let header = match read_header(alloc, bytes) {
        Ok(header) => header,
        Err(fault) => return Err(header_fault(fault, bytes, number, start)),
    };
    match refusal(&header) {
        Some(cause) => Err(LoadFault {
            cause,
            segment: number,
            at: start,
        }),
        None => Ok(header),
    }
}

/// The bytes from a displacement on.
fn bytes_from(bytes: &[u8], at: usize) -> &[u8]
    requires { at ≤ length bytes.now }
    ensures value { result.now ≡ drop at bytes.now }
    ensures size { length result.now ≤ length bytes.now }
{
    &bytes[at..]
}

/// Why a load file can't have a segment of this name and type.
#[tactic(auto, unfolding(load_meaning::specs::Loadable::segment_refusal))]
fn refusal(header: &Header) -> Option<LoadCause>
    ensures value { result ≡ segment_refusal (fields header.now) }
    ensures named { result ≡ Some LoadCause.Memory → ⊥ }
{
    if is_express(header.name.bytes()) {
        return Some(LoadCause::Unsupported);
    }
    if header.kind.form() == 0x08 {
        return Some(LoadCause::NotLoadFile);
    }
    None
}

/// A name of segments for the Express Loader.
fn is_express(name: &[u8]) -> bool
    ensures { result ≡ is_express name.now }
{
    name == b"ExpressLoad".as_slice() || name == b"~ExpressLoad".as_slice()
}

/// A header's fault as one of the load file; `bytes` are those from the segment's start.
fn header_fault(fault: HeaderFault, bytes: &[u8], segment: u32, start: u32) -> LoadFault
    requires { HasPlace fault start }
    ensures { IsHeaderFault fault start (version_of bytes.now) segment result }
{
    match fault {
        HeaderFault::Truncated(_) | HeaderFault::Unsupported(_) | HeaderFault::BadField(_) => {
            load_fault(to_file_header_fault(fault, bytes, start), segment)
        }
        HeaderFault::Memory => LoadFault {
            cause: LoadCause::Memory,
            segment: 0,
            at: 0,
        },
    }
}
