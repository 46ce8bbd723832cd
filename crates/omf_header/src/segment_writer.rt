//! Writing a segment whose header is filled in after its body.

ghost use Rattle.std.specs.Prelude.{◌≡◌, ◌≤◌, ◌+◌, ◌<◌, ◌^◌, ◌++◌, ◌∷◌, [], IfOk, OnOk, IsErrOf, length, take, drop, replicate};
ghost use Rattle.omf_format.specs.Header.{IsWritable, header_bytes};
ghost use Rattle.omf_header.specs.View.{fields};
ghost use Rattle.omf_header.specs.Written.{with_reserved_zeros};

use crate::header::Header;
use crate::writing::{BEFORE_NAME, MAX_FILE, WriteHeaderFault, write_header};
use omf_base::Name;
use std::alloc::{AllocError, Global};

/// How many bytes a header with this name has.
pub fn header_size(name: &Name) -> usize
    ensures value { result ≡ 0x37 + length name.now }
    ensures few { result ≤ 0x136 }
{
    BEFORE_NAME as usize + name.bytes().len()
}

/// LOADNAME has ten bytes.
pub fn recall_header_size(load_name: [u8; 10])
    ensures { length load_name ≡ 10 }
{}

/// Appends `room` zeros, over which a header is written later.
pub fn put_room(out: &mut Vec<u8>, room: usize) -> Result<(), AllocError>
    requires { length out.old.items + room < 2 ^ 33 }
    ensures { OnOk result (out.new.items ≡ out.old.items ++ replicate room 0) }
{
    let end = out.as_slice().len() + room;
    out.resize(end, 0)
}

/// The bytes of a header before a body of `size` bytes with END after it, and with `zeros` zeros after the data in memory.
pub fn header_before(
    alloc: Global,
    header: &Header,
    zeros: u32,
    size: usize,
) -> Result<Vec<u8>, WriteHeaderFault>
    requires { IsWritable (with_reserved_zeros (fields header.now) zeros) }
    ensures ok { IfOk result (λ front. front.items ≡ header_bytes (with_reserved_zeros (fields header.now) zeros) (size + 1)) }
    ensures too_long { IsErrOf result WriteHeaderFault.TooLong → 0x1000000 < 0x37 + length header.now.name + (size + 1) }
    ensures long { 0x1000000 ≤ size → IsErrOf result WriteHeaderFault.TooLong }
{
    if size >= MAX_FILE {
        return Err(WriteHeaderFault::TooLong);
    }
    let written = header.with_reserved_zeros(alloc, zeros)?;
    write_header(alloc, &written, size as u32 + 1)
}

/// Writes a header over the bytes from a place on.
pub fn put_front(out: &mut [u8], start: usize, front: &[u8])
    requires { start + length front.now ≤ length out.old }
    ensures { out.new ≡ take start out.old ++ front.now ++ drop (start + length front.now) out.old }
{
    out[start..start + front.len()].copy_from_slice(front);
}

/// Writes a header into the room before a body, and END after the body. It is too long where there would be more than 16,777,216 bytes.
pub fn close_segment(out: &mut Vec<u8>, start: usize, front: &[u8]) -> Result<(), WriteHeaderFault>
    requires { start + length front.now ≤ length out.old.items }
    ensures ok { OnOk result (out.new.items ≡ take start out.old.items ++ front.now ++ drop (start + length front.now) out.old.items ++ 0 ∷ []) }
    ensures short { OnOk result (length out.new.items ≤ 0x1000000) }
    ensures too_long { IsErrOf result WriteHeaderFault.TooLong → 0x1000000 < length out.old.items + 1 }
    ensures long { 0x1000000 < length out.old.items + 1 → IsErrOf result WriteHeaderFault.TooLong }
{
    if out.as_slice().len() >= MAX_FILE {
        return Err(WriteHeaderFault::TooLong);
    }
    put_front(out.as_mut_slice(), start, front);
    out.push(0)?;
    Ok(())
}
