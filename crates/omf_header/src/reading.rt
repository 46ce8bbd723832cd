//! Reading a header: the fields at their displacements, and the first of the checks that holds.

ghost use Rattle.std.specs.Prelude.{◌≡◌, ◌+◌, ◌<◌, ◌≤◌, ◌^◌, ◌||◌, nat_lt, length, take, drop, None, OnOk, IfOk, IfErr, ◌%◌, ◌*◌, ◌/◌, ◌==◌, if◌then◌else◌};
ghost use Rattle.omf_format.specs.Number.{number_at};
ghost use Rattle.omf_format.specs.Name.{name_at, name_size, without_trailing};
ghost use Rattle.omf_format.specs.Header.{version_of, kind_of, fields_of, names_end, is_listed, header_fault};
ghost use Rattle.omf_header.specs.View.{fields, IsRefused};

use crate::header::Header;
use crate::kind::Kind;
use byteorder::{ByteOrder, LittleEndian};
use omf_base::{Name, NameFault, without_trailing};
use omf_format::{Field, HeaderFault};
use std::alloc::Global;

#[inline]
#[tactic(auto, unfolding(omf_format::specs::Number::number_at))]
fn u32_at(bytes: &[u8], at: usize) -> u32
    requires { at + 4 ≤ length bytes.now }
    ensures { result ≡ number_at 4 at bytes.now }
{
    LittleEndian::read_u32(&bytes[at..])
}

#[inline]
#[tactic(auto, unfolding(omf_format::specs::Number::number_at))]
fn u16_at(bytes: &[u8], at: usize) -> u16
    requires { at + 2 ≤ length bytes.now }
    ensures { result ≡ number_at 2 at bytes.now }
{
    LittleEndian::read_u16(&bytes[at..])
}

/// The byte there, and 0 past the end.
#[inline]
#[tactic(auto, unfolding(omf_format::specs::Number::number_at))]
fn u8_at(bytes: &[u8], at: usize) -> u8
    ensures { result ≡ number_at 1 at bytes.now }
{
    match bytes.get(at) {
        Some(byte) => *byte,
        None => 0,
    }
}

/// The version of the header at the start of the bytes, 0 where they end before it (VERSION).
#[inline]
#[tactic(auto, unfolding(omf_format::specs::Header::version_of))]
pub fn version_of(bytes: &[u8]) -> u8
    ensures { result ≡ version_of bytes.now }
{
    u8_at(bytes, 0x0F)
}

/// How many bytes the segment says to have.
fn byte_count(bytes: &[u8]) -> u64
    requires { 44 ≤ length bytes.now }
    ensures { result ≡ (if version_of bytes.now == 1 then 512 * number_at 4 0x00 bytes.now else number_at 4 0x00 bytes.now) }
{
    let count = u64::from(u32_at(bytes, 0x00));
    if version_of(bytes) == 1 {
        512 * count
    } else {
        count
    }
}

/// KIND of a header of version 1 from its byte.
fn kind_of_byte(byte: u8) -> u16
    ensures { result ≡ (byte % 32 + 256 * (byte / 32 * 32)) }
{
    let byte = u16::from(byte);
    byte % 32 + 256 * (byte / 32 * 32)
}

#[tactic(auto, unfolding(omf_format::specs::Header::kind_of))]
fn kind(bytes: &[u8]) -> Kind
    requires { 44 ≤ length bytes.now }
    ensures { result.bits ≡ kind_of bytes.now }
{
    let bits = if version_of(bytes) == 1 {
        kind_of_byte(u8_at(bytes, 0x0C))
    } else {
        u16_at(bytes, 0x14)
    };
    Kind { bits }
}

/// Whether a version is read.
fn is_read_version(version: u8) -> bool
    ensures { result ≡ (version == 1 || version == 2) }
{
    version == 1 || version == 2
}

/// How many bytes the name there takes.
#[tactic(auto, unfolding(omf_format::specs::Name::name_size))]
fn name_size(bytes: &[u8], at: usize, lab_len: u8) -> usize
    ensures value { result ≡ name_size lab_len at bytes.now }
    ensures short { result ≤ 256 }
{
    if lab_len == 0 {
        1 + u8_at(bytes, at) as usize
    } else {
        lab_len as usize
    }
}

/// The displacement at which the names end.
#[tactic(auto, unfolding(omf_format::specs::Header::names_end))]
fn names_end(bytes: &[u8]) -> usize
    requires { 44 ≤ length bytes.now }
    ensures { result ≡ names_end bytes.now }
{
    let segment_name = u16_at(bytes, 0x28) as usize + 10;
    segment_name + name_size(bytes, segment_name, u8_at(bytes, 0x0D))
}

fn is_listed(form: u8) -> bool
    ensures { result ≡ is_listed form }
{
    matches!(form, 0x00 | 0x01 | 0x02 | 0x04 | 0x08 | 0x10 | 0x12)
}

/// The fault of the first check that holds.
#[tactic(auto, unfolding(omf_format::specs::Header::header_fault, omf_format::specs::Header::fields_of))]
fn first_fault(bytes: &[u8]) -> Option<HeaderFault>
    requires { length bytes.now < 2 ^ 32 }
    ensures { result ≡ header_fault bytes.now }
{
    let size = bytes.len() as u32;
    if size < 44 {
        return Some(HeaderFault::Truncated(size));
    }
    if u8_at(bytes, 0x0E) != 4 {
        return Some(HeaderFault::Unsupported(Field::NumLen));
    }
    if !is_read_version(version_of(bytes)) {
        return Some(HeaderFault::Unsupported(Field::Version));
    }
    if u32_at(bytes, 0x10) > 0x10000 {
        return Some(HeaderFault::BadField(Field::BankSize));
    }
    if !is_listed(kind(bytes).form()) {
        return Some(HeaderFault::Unsupported(Field::Kind));
    }
    if u8_at(bytes, 0x20) != 0 {
        return Some(HeaderFault::Unsupported(Field::NumSex));
    }
    if u16_at(bytes, 0x28) < 0x2C {
        return Some(HeaderFault::BadField(Field::DispName));
    }
    if byte_count(bytes) > u64::from(size) {
        return Some(HeaderFault::Truncated(size));
    }
    if is_data_misplaced(bytes) {
        return Some(HeaderFault::BadField(Field::DispData));
    }
    if u32_at(bytes, 0x04) > u32_at(bytes, 0x08) {
        return Some(HeaderFault::BadField(Field::ResSpc));
    }
    None
}

/// The names end after DISPDATA, or DISPDATA exceeds BYTECNT.
fn is_data_misplaced(bytes: &[u8]) -> bool
    requires { 44 ≤ length bytes.now }
    ensures { result ≡ (nat_lt (number_at 2 0x2A bytes.now) (names_end bytes.now) || nat_lt (if version_of bytes.now == 1 then 512 * number_at 4 0x00 bytes.now else number_at 4 0x00 bytes.now) (number_at 2 0x2A bytes.now)) }
{
    let disp_data = u16_at(bytes, 0x2A);
    names_end(bytes) > disp_data as usize || u64::from(disp_data) > byte_count(bytes)
}

/// The name there, which ends within the bytes.
#[tactic(auto, unfolding(omf_format::specs::Name::name_at, omf_format::specs::Name::name_size))]
fn name_text(bytes: &[u8], at: usize, lab_len: u8) -> &[u8]
    requires { at + name_size lab_len at bytes.now ≤ length bytes.now }
    ensures value { result.now ≡ name_at lab_len at bytes.now }
    ensures short { length result.now ≤ 255 }
{
    if lab_len == 0 {
        let size = u8_at(bytes, at) as usize;
        front_of(bytes, at + 1, size)
    } else {
        without_trailing(front_of(bytes, at, lab_len as usize), b' ')
    }
}

/// The `size` bytes from there on.
fn front_of(bytes: &[u8], at: usize, size: usize) -> &[u8]
    requires { at + size ≤ length bytes.now }
    ensures value { result.now ≡ take size (drop at bytes.now) }
    ensures size { length result.now ≡ size }
{
    &bytes[at..at + size]
}

fn load_name(bytes: &[u8], at: usize) -> [u8; 10]
    requires { at + 10 ≤ length bytes.now }
    ensures { result ≡ take 10 (drop at bytes.now) }
{
    let mut name = [0; 10];
    name.copy_from_slice(front_of(bytes, at, 10));
    name
}

/// The name's own copy of a text that is short enough.
fn owned_name(alloc: Global, text: &[u8]) -> Result<Name, HeaderFault>
    requires { length text.now ≤ 255 }
    ensures ok { IfOk result (λ name. name ≡ text.now) }
    ensures err { IfErr result (λ fault. fault ≡ HeaderFault.Memory) }
{
    match Name::of(alloc, text) {
        Ok(name) => Ok(name),
        Err(NameFault::TooLong) => unreachable!(),
        Err(NameFault::Memory) => Err(HeaderFault::Memory),
    }
}

/// The fields, where no check holds.
#[tactic(auto, using(omf_format::specs::laws::HeaderLaws::sound_from_none), unfolding(omf_format::specs::Header::fields_of, omf_format::specs::Header::names_end))]
fn header_of(alloc: Global, bytes: &[u8]) -> Result<Header, HeaderFault>
    requires short { length bytes.now < 2 ^ 32 }
    requires passes { header_fault bytes.now ≡ None }
    ensures ok { IfOk result (λ h. fields h ≡ fields_of bytes.now) }
    ensures err { IfErr result (λ fault. fault ≡ HeaderFault.Memory) }
{
    let disp_name = u16_at(bytes, 0x28);
    let lab_len = u8_at(bytes, 0x0D);
    let names = disp_name as usize;
    let name = owned_name(alloc, name_text(bytes, names + 10, lab_len))?;
    Ok(Header {
        byte_count: byte_count(bytes) as u32,
        res_spc: u32_at(bytes, 0x04),
        length: u32_at(bytes, 0x08),
        lab_len,
        version: version_of(bytes),
        bank_size: u32_at(bytes, 0x10),
        kind: kind(bytes),
        org: u32_at(bytes, 0x18),
        align: u32_at(bytes, 0x1C),
        seg_num: u16_at(bytes, 0x22),
        entry: u32_at(bytes, 0x24),
        disp_name,
        disp_data: u16_at(bytes, 0x2A),
        load_name: load_name(bytes, names),
        name,
    })
}

/// The header at the start of the bytes, which are those from the segment's start to the file's end.
///
/// The fault is that of the first check that holds, in the order of the standard's fields that the project
/// chose: the bytes, NUMLEN, VERSION, BANKSIZE, KIND, NUMSEX, DISPNAME, BYTECNT, DISPDATA, RESSPC.
pub fn read_header(alloc: Global, bytes: &[u8]) -> Result<Header, HeaderFault>
    requires { length bytes.now < 2 ^ 32 }
    ensures passes { OnOk result (header_fault bytes.now ≡ None) }
    ensures fields { IfOk result (λ header. fields header ≡ fields_of bytes.now) }
    ensures refused { IfErr result (λ fault. IsRefused fault bytes.now) }
{
    match first_fault(bytes) {
        None => header_of(alloc, bytes),
        Some(fault) => Err(fault),
    }
}
