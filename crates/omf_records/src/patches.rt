//! Records of patches.

ghost use Rattle.std.specs.Prelude.{◌≡◌, ◌≤◌, ◌-◌, length, IfOk};
ghost use Rattle.omf_format.specs.Field.{Gives, number_field, taken_as, ◌⊗◌, byte_field};
ghost use Rattle.omf_format.specs.Super.{is_super, end_pages};
ghost use Rattle.omf_format.specs.Reading.{patch_field, super_field};
ghost use Rattle.omf_format.specs.laws.Steps.{lows_after};
ghost use Rattle.omf_records.specs.View.{view};
ghost use Rattle.omf_format.specs.Record.{Reloc, InterSeg, ShortReloc, ShortInterSeg};

use crate::record::Rec;
use omf_base::{bytes_field, count_field, shift_field, u8_field, u16_field, u32_field};
use omf_format::Flaw;

/// The count and the shift of a patch.
#[inline]
#[tactic(auto, unfolding(omf_format::specs::Reading::patch_field))]
fn patch(rest: &[u8]) -> Result<((u8, i8), &[u8]), Flaw>
    ensures gives { Gives (λ x. (x.0, x.1.now)) result (patch_field rest.now) }
    ensures no_longer { IfOk result (λ x. length x.1.now ≤ length rest.now) }
{
    let (count, rest) = count_field(rest)?;
    let (shift, rest) = shift_field(rest)?;
    Ok(((count, shift), rest))
}

#[inline]
pub fn reloc(rest: &[u8]) -> Result<(Rec<'_>, &[u8]), Flaw>
    ensures gives { Gives (λ x. (view x.0, x.1.now)) result (taken_as (λ x. Reloc x.0.0 x.0.1 x.1.0 x.1.1) (patch_field ⊗ number_field 4 ⊗ number_field 4) rest.now) }
    ensures no_longer { IfOk result (λ x. length x.1.now ≤ length rest.now) }
{
    let ((count, shift), rest) = patch(rest)?;
    let (location, rest) = u32_field(rest)?;
    let (offset, rest) = u32_field(rest)?;
    let rec = Rec::Reloc {
        count,
        shift,
        location,
        offset,
    };
    Ok((rec, rest))
}

#[inline]
pub fn interseg(rest: &[u8]) -> Result<(Rec<'_>, &[u8]), Flaw>
    ensures gives { Gives (λ x. (view x.0, x.1.now)) result (taken_as (λ x. InterSeg x.0.0 x.0.1 x.1.0 x.1.1.0 x.1.1.1.0 x.1.1.1.1) (patch_field ⊗ number_field 4 ⊗ number_field 2 ⊗ number_field 2 ⊗ number_field 4) rest.now) }
    ensures no_longer { IfOk result (λ x. length x.1.now ≤ length rest.now) }
{
    let ((count, shift), rest) = patch(rest)?;
    let (location, rest) = u32_field(rest)?;
    let (file, rest) = u16_field(rest)?;
    let (segment, rest) = u16_field(rest)?;
    let (offset, rest) = u32_field(rest)?;
    let rec = Rec::InterSeg {
        count,
        shift,
        location,
        file,
        segment,
        offset,
    };
    Ok((rec, rest))
}

#[inline]
pub fn short_reloc(rest: &[u8]) -> Result<(Rec<'_>, &[u8]), Flaw>
    ensures gives { Gives (λ x. (view x.0, x.1.now)) result (taken_as (λ x. ShortReloc x.0.0 x.0.1 x.1.0 x.1.1) (patch_field ⊗ number_field 2 ⊗ number_field 2) rest.now) }
    ensures no_longer { IfOk result (λ x. length x.1.now ≤ length rest.now) }
{
    let ((count, shift), rest) = patch(rest)?;
    let (location, rest) = u16_field(rest)?;
    let (offset, rest) = u16_field(rest)?;
    let rec = Rec::ShortReloc {
        count,
        shift,
        location,
        offset,
    };
    Ok((rec, rest))
}

#[inline]
pub fn short_interseg(rest: &[u8]) -> Result<(Rec<'_>, &[u8]), Flaw>
    ensures gives { Gives (λ x. (view x.0, x.1.now)) result (taken_as (λ x. ShortInterSeg x.0.0 x.0.1 x.1.0 x.1.1.0 x.1.1.1) (patch_field ⊗ number_field 2 ⊗ byte_field ⊗ number_field 2) rest.now) }
    ensures no_longer { IfOk result (λ x. length x.1.now ≤ length rest.now) }
{
    let ((count, shift), rest) = patch(rest)?;
    let (location, rest) = u16_field(rest)?;
    let (segment, rest) = u8_field(rest)?;
    let (offset, rest) = u16_field(rest)?;
    let rec = Rec::ShortInterSeg {
        count,
        shift,
        location,
        segment,
        offset,
    };
    Ok((rec, rest))
}

/// Whether the bytes are subrecords of a SUPER, one after another.
fn are_pages(bytes: &[u8]) -> bool
    ensures { result ≡ end_pages 0 bytes.now }
{
    let mut lows = 0u32;
    'bytes: for place in 0..bytes.len() {
        lows = lows_after_byte(lows, bytes[place]);
    }
    lows == 0
}

/// How many low bytes of locations are left after a byte of subrecords.
#[inline]
fn lows_after_byte(lows: u32, byte: u8) -> u32
    requires { lows ≤ 128 }
    ensures value { result ≡ lows_after lows byte }
    ensures small { result ≤ 128 }
{
    if lows > 0 {
        lows - 1
    } else if byte < 0x80 {
        u32::from(byte) + 1
    } else {
        0
    }
}

/// Whether a type of SUPER is read.
fn is_super(form: u8) -> bool
    ensures { result ≡ is_super form }
{
    form <= 2 || (form >= 14 && form <= 37)
}

#[inline]
#[tactic(auto, unfolding(omf_format::specs::Reading::super_field))]
pub fn super_record(rest: &[u8]) -> Result<(Rec<'_>, &[u8]), Flaw>
    ensures gives { Gives (λ x. (view x.0, x.1.now)) result (super_field rest.now) }
    ensures no_longer { IfOk result (λ x. length x.1.now ≤ length rest.now) }
{
    let (size, rest) = u32_field(rest)?;
    if size == 0 {
        return Err(Flaw::Broken);
    }
    let (form, rest) = u8_field(rest)?;
    if !is_super(form) {
        return Err(Flaw::Unread);
    }
    let (bytes, rest) = bytes_field(rest, size as usize - 1)?;
    if !are_pages(bytes) {
        return Err(Flaw::Broken);
    }
    Ok((Rec::Super { form, bytes }, rest))
}
