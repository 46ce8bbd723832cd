//! Writing a header.

ghost use Rattle.std.specs.Prelude.{◌≡◌, ◌≢◌, ◌↔◌, ◌+◌, ◌<◌, ◌≤◌, ◌^◌, ◌++◌, ◌∷◌, [], List, ℕ, length, take, drop, None, OnOk, IfOk, IfErr, IsErrOf};
ghost use Rattle.byteorder.specs.Endian.{little_bytes};
ghost use Rattle.omf_format.specs.Header.{fields_of, header_fault, header_bytes, written_fields, laid_out, IsWritable};
ghost use Rattle.omf_format.specs.WrittenHeader.{FitsWritten};
ghost use Rattle.omf_header.specs.View.{fields};
ghost use Rattle.omf_header.specs.Parts.{sizes, placement, order, displacements, numbers};

use crate::header::Header;
use byteorder::{ByteOrder, LittleEndian};
use std::alloc::{AllocError, AllocFailed, Global};

/// The most bytes that a file has.
pub const MAX_FILE: usize = 16_777_216;

/// The bytes of a written header before the segment's name.
pub(crate) const BEFORE_NAME: u32 = 0x37;

/// Why no header is written.
#[derive(Clone, Copy, Debug, PartialEq, Eq)]
pub enum WriteHeaderFault {
    /// The segment would exceed 16,777,216 bytes.
    TooLong,
    Memory,
}

impl From<AllocError> for WriteHeaderFault {
    ghost use Rattle.std.specs.Prelude.{◌≡◌};
    ghost use Rattle.omf_header.specs.declared.writing.WriteHeaderFault.TheVariants.{Memory};

    ghost from_gives = { λ _ fault. fault ≡ Memory };

    fn from(_: AllocError) -> WriteHeaderFault {
        WriteHeaderFault::Memory
    }
}

impl<T: Drop> From<AllocFailed<T>> for WriteHeaderFault {
    ghost use Rattle.std.specs.Prelude.{◌≡◌};
    ghost use Rattle.omf_header.specs.declared.writing.WriteHeaderFault.TheVariants.{Memory};

    ghost from_gives = { λ _ fault. fault ≡ Memory };

    fn from(_: AllocFailed<T>) -> WriteHeaderFault {
        WriteHeaderFault::Memory
    }
}

fn put_u32(out: &mut Vec<u8>, number: u32) -> Result<(), AllocError>
    ensures { OnOk result (out.new.items ≡ out.old.items ++ little_bytes 4 number) }
{
    let mut bytes = [0; 4];
    LittleEndian::write_u32(&mut bytes, number);
    out.extend_from_slice(&bytes)
}

fn put_u16(out: &mut Vec<u8>, number: u16) -> Result<(), AllocError>
    ensures { OnOk result (out.new.items ≡ out.old.items ++ little_bytes 2 number) }
{
    let mut bytes = [0; 2];
    LittleEndian::write_u16(&mut bytes, number);
    out.extend_from_slice(&bytes)
}

/// The numbers up to VERSION: LABLEN is 0, NUMLEN 4 and VERSION 2.
fn put_sizes(out: &mut Vec<u8>, header: &Header, byte_count: u32) -> Result<(), AllocError>
    ensures { OnOk result (out.new.items ≡ out.old.items ++ laid_out (sizes byte_count (fields header.now))) }
{
    put_u32(out, byte_count)?;
    put_u32(out, header.res_spc)?;
    put_u32(out, header.length)?;
    out.extend_from_slice(&[0, 0, 4, 2])
}

/// The numbers from BANKSIZE to ALIGN.
fn put_placement(out: &mut Vec<u8>, header: &Header) -> Result<(), AllocError>
    ensures { OnOk result (out.new.items ≡ out.old.items ++ laid_out (placement (fields header.now))) }
{
    put_u32(out, header.bank_size)?;
    put_u16(out, header.kind.bits)?;
    put_u16(out, 0)?;
    put_u32(out, header.org)?;
    put_u32(out, header.align)
}

/// The numbers from NUMSEX to ENTRY.
fn put_order(out: &mut Vec<u8>, header: &Header) -> Result<(), AllocError>
    ensures { OnOk result (out.new.items ≡ out.old.items ++ laid_out (order (fields header.now))) }
{
    out.extend_from_slice(&[0, 0])?;
    put_u16(out, header.seg_num)?;
    put_u32(out, header.entry)
}

/// DISPNAME, which is $2C, and DISPDATA.
fn put_displacements(out: &mut Vec<u8>, disp_data: u16) -> Result<(), AllocError>
    ensures { OnOk result (out.new.items ≡ out.old.items ++ laid_out (displacements disp_data)) }
{
    out.extend_from_slice(&[0x2C, 0])?;
    put_u16(out, disp_data)
}

/// LOADNAME, and SEGNAME after its length.
fn put_names(out: &mut Vec<u8>, header: &Header) -> Result<(), AllocError>
    ensures { OnOk result (out.new.items ≡ out.old.items ++ (header.now.load_name ++ length header.now.name ∷ header.now.name)) }
{
    let name = header.name.bytes();
    out.extend_from_slice(&header.load_name)?;
    out.push(name.len() as u8)?;
    out.extend_from_slice(name)
}

/// A header of a segment of a given number of bytes, whose body begins there.
#[tactic(auto, using(crate::proofs::Joined::joined))]
fn put_header(
    out: &mut Vec<u8>,
    header: &Header,
    byte_count: u32,
    disp_data: u16,
) -> Result<(), AllocError>
    requires { out.old.items ≡ [] }
    ensures { OnOk result (out.new.items ≡ laid_out (numbers byte_count disp_data (fields header.now)) ++ header.now.load_name ++ length header.now.name ∷ header.now.name) }
{
    put_sizes(out, header, byte_count)?;
    put_placement(out, header)?;
    put_order(out, header)?;
    put_displacements(out, disp_data)?;
    put_names(out, header)
}

/// Each field is as wide as its type, which the law on written headers asks for.
fn know_widths(header: &Header, body_length: u32)
    requires { 0x37 + length header.now.name + body_length < 2 ^ 32 }
    ensures { FitsWritten (fields header.now) body_length }
{
    let _res_spc = header.res_spc;
    let _length = header.length;
    let _bank_size = header.bank_size;
    let _bits = header.kind.bits;
    let _org = header.org;
    let _align = header.align;
    let _seg_num = header.seg_num;
    let _entry = header.entry;
    let _load_name = &header.load_name;
    let _name = header.name.bytes();
}

/// The header's bytes, where the segment isn't too long.
#[tactic(auto, unfolding(omf_format::specs::Header::header_bytes))]
fn header_bytes(alloc: Global, header: &Header, body_length: u32) -> Result<Vec<u8>, AllocError>
    requires { 0x37 + length header.now.name + body_length < 2 ^ 32 }
    ensures { IfOk result (λ written. written.items ≡ header_bytes (fields header.now) body_length) }
{
    let disp_data = BEFORE_NAME + header.name.bytes().len() as u32;
    let mut written = Vec::with_capacity(alloc, disp_data as usize)?;
    put_header(
        &mut written,
        header,
        disp_data + body_length,
        disp_data as u16,
    )?;
    Ok(written)
}

/// The header of a segment of version 2 whose body has `body_length` bytes: LABLEN 0, NUMLEN 4, VERSION 2, NUMSEX 0,
/// DISPNAME $2C, and DISPDATA and BYTECNT as the name and the body have them. The fields of `header` for these aren't
/// read; its VERSION has to be 2, since no other version is written.
///
/// Followed by the body, and by whatever else, it is read as a header with these fields.
#[tactic(auto, using(omf_format::specs::laws::WrittenHeaderLaws::written_passes))]
pub fn write_header(
    alloc: Global,
    header: &Header,
    body_length: u32,
) -> Result<Vec<u8>, WriteHeaderFault>
    requires { IsWritable (fields header.now) }
    ensures bytes { IfOk result (λ written. written.items ≡ header_bytes (fields header.now) body_length) }
    ensures passes { IfOk result (λ written. (body : List ℕ) → body_length ≤ length body
        → header_fault (written.items ++ body) ≡ None) }
    ensures fields { IfOk result (λ written. (body : List ℕ)
        → fields_of (written.items ++ body) ≡ written_fields (fields header.now) body_length) }
    ensures too_long { IsErrOf result WriteHeaderFault.TooLong
        ↔ (16777216 < 0x37 + length header.now.name + body_length) }
{
    let size = BEFORE_NAME as usize + header.name.bytes().len() + body_length as usize;
    if size > MAX_FILE {
        return Err(WriteHeaderFault::TooLong);
    }
    know_widths(header, body_length);
    let written = header_bytes(alloc, header, body_length)?;
    Ok(written)
}
