//! Fields: each is borrowed from the start of the bytes, and returned with the bytes after it. Where the bytes end in the field, it is cut.

ghost use Rattle.std.specs.Prelude.{◌≡◌, ◌<◌, ◌≤◌, length, IfOk, IfErr};
ghost use Rattle.omf_format.specs.Field.{byte_field, bytes_field, number_field, name_field, count_field, shift_field, Gives};

use crate::trailing::without_trailing;
use byteorder::{ByteOrder, LittleEndian};
use omf_format::Flaw;

/// The first `n` bytes, and the bytes after them.
#[inline]
#[tactic(auto, unfolding(omf_format::specs::Field::bytes_field))]
pub fn bytes_field(bytes: &[u8], n: usize) -> Result<(&[u8], &[u8]), Flaw>
    ensures gives { Gives (λ x. (x.0.now, x.1.now)) result (bytes_field n bytes.now) }
    ensures no_longer { IfOk result (λ x. length x.1.now ≤ length bytes.now) }
{
    match bytes.split_at_checked(n) {
        Some((field, rest)) => Ok((field, rest)),
        None => Err(Flaw::Cut),
    }
}

/// One byte, and the bytes after it.
#[inline]
#[tactic(auto, unfolding(omf_format::specs::Field::byte_field))]
pub fn u8_field(bytes: &[u8]) -> Result<(u8, &[u8]), Flaw>
    ensures gives { Gives (λ x. (x.0, x.1.now)) result (byte_field bytes.now) }
    ensures no_longer { IfOk result (λ x. length x.1.now ≤ length bytes.now) }
{
    match bytes.split_first() {
        Some((byte, rest)) => Ok((*byte, rest)),
        None => Err(Flaw::Cut),
    }
}

/// A count of 1 to 4, and the bytes after it. Every other number is broken.
#[inline]
#[tactic(auto, unfolding(omf_format::specs::Field::count_field))]
pub fn count_field(bytes: &[u8]) -> Result<(u8, &[u8]), Flaw>
    ensures gives { Gives (λ x. (x.0, x.1.now)) result (count_field bytes.now) }
    ensures no_longer { IfOk result (λ x. length x.1.now ≤ length bytes.now) }
{
    let (count, rest) = u8_field(bytes)?;
    if count < 1 || count > 4 {
        return Err(Flaw::Broken);
    }
    Ok((count, rest))
}

/// A shift from -31 to 31, and the bytes after it. Every other number is broken.
#[inline]
#[tactic(auto, unfolding(omf_format::specs::Field::shift_field))]
pub fn shift_field(bytes: &[u8]) -> Result<(i8, &[u8]), Flaw>
    ensures gives { Gives (λ x. (x.0, x.1.now)) result (shift_field bytes.now) }
    ensures no_longer { IfOk result (λ x. length x.1.now ≤ length bytes.now) }
{
    let (byte, rest) = u8_field(bytes)?;
    let shift = byte.cast_signed();
    if shift < -31 || shift > 31 {
        return Err(Flaw::Broken);
    }
    Ok((shift, rest))
}

/// A number of two bytes, and the bytes after it.
#[inline]
#[tactic(auto, unfolding(omf_format::specs::Field::number_field, omf_format::specs::Number::number_at))]
pub fn u16_field(bytes: &[u8]) -> Result<(u16, &[u8]), Flaw>
    ensures gives { Gives (λ x. (x.0, x.1.now)) result (number_field 2 bytes.now) }
    ensures no_longer { IfOk result (λ x. length x.1.now ≤ length bytes.now) }
{
    match bytes.split_at_checked(2) {
        Some((field, rest)) => Ok((LittleEndian::read_u16(field), rest)),
        None => Err(Flaw::Cut),
    }
}

/// A number of four bytes, and the bytes after it.
#[inline]
#[tactic(auto, unfolding(omf_format::specs::Field::number_field, omf_format::specs::Number::number_at))]
pub fn u32_field(bytes: &[u8]) -> Result<(u32, &[u8]), Flaw>
    ensures gives { Gives (λ x. (x.0, x.1.now)) result (number_field 4 bytes.now) }
    ensures no_longer { IfOk result (λ x. length x.1.now ≤ length bytes.now) }
{
    match bytes.split_at_checked(4) {
        Some((field, rest)) => Ok((LittleEndian::read_u32(field), rest)),
        None => Err(Flaw::Cut),
    }
}

/// A name, which isn't empty, and the bytes after it.
#[inline]
fn not_empty<'a>(name: &'a [u8], rest: &'a [u8]) -> Result<(&'a [u8], &'a [u8]), Flaw>
    ensures ok { IfOk result (λ x. (x.0.now ≡ name.now) × (x.1.now ≡ rest.now) × (0 < length name.now)) }
    ensures err { IfErr result (λ flaw. (flaw ≡ Flaw.Broken) × (length name.now ≡ 0)) }
{
    if name.is_empty() {
        return Err(Flaw::Broken);
    }
    Ok((name, rest))
}

/// A name, which follows its length byte and isn't empty, and the bytes after it.
#[inline]
#[tactic(auto, using(omf_format::specs::laws::FieldLaws::counted_none, omf_format::specs::laws::FieldLaws::counted_field))]
fn counted_name(bytes: &[u8]) -> Result<(&[u8], &[u8]), Flaw>
    ensures gives { Gives (λ x. (x.0.now, x.1.now)) result (name_field 0 bytes.now) }
    ensures no_longer { IfOk result (λ x. length x.1.now ≤ length bytes.now) }
{
    let Some((size, rest)) = bytes.split_first() else {
        return Err(Flaw::Cut);
    };
    let Some((name, rest)) = rest.split_at_checked(*size as usize) else {
        return Err(Flaw::Cut);
    };
    not_empty(name, rest)
}

/// A name of a given number of bytes without the spaces at its end, and the bytes after it. It isn't empty.
#[inline]
#[tactic(auto, using(omf_format::specs::laws::FieldLaws::padded_field))]
fn padded_name(bytes: &[u8], lab_len: u8) -> Result<(&[u8], &[u8]), Flaw>
    requires { 0 < lab_len }
    ensures gives { Gives (λ x. (x.0.now, x.1.now)) result (name_field lab_len bytes.now) }
    ensures no_longer { IfOk result (λ x. length x.1.now ≤ length bytes.now) }
{
    let Some((field, rest)) = bytes.split_at_checked(lab_len as usize) else {
        return Err(Flaw::Cut);
    };
    let name = without_trailing(field, b' ');
    not_empty(name, rest)
}

/// A name under a LABLEN without what pads it, and the bytes after it. An empty name is broken.
#[inline]
pub fn name_field(bytes: &[u8], lab_len: u8) -> Result<(&[u8], &[u8]), Flaw>
    ensures gives { Gives (λ x. (x.0.now, x.1.now)) result (name_field lab_len bytes.now) }
    ensures no_longer { IfOk result (λ x. length x.1.now ≤ length bytes.now) }
{
    if lab_len == 0 {
        return counted_name(bytes);
    }
    padded_name(bytes, lab_len)
}
