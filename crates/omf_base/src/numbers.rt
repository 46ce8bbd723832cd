// Numbers in files, all unsigned with their lowest byte first (GS/OS Reference, appendix F, NUMSEX 0).
ghost use Rattle.std.specs.Prelude.{◌≡◌, ◌⊎◌, ◌↔◌, ◌+◌, ◌^◌, ◌<◌, ◌≤◌, length, IsNone, IfSome, OnSome};
ghost use Rattle.omf_format.specs.Number.{number_at};

use byteorder::{ByteOrder, LittleEndian};

/// The number of `width` bytes that is at the displacement `at` in the bytes, lowest byte first.
/// None where the width isn't 1 to 4, or the number would pass the end of the bytes.
#[inline]
#[tactic(auto, unfolding(omf_format::specs::Number::number_at))]
pub fn number_at(bytes: &[u8], at: usize, width: usize) -> Option<u32>
    ensures none { IsNone result ↔ ((width < 1) ⊎ (4 < width) ⊎ (length bytes.now < at + width)) }
    ensures value { IfSome result (λ number. number ≡ number_at width at bytes.now) }

    // What the two say besides, as callers need it.
    ensures within { OnSome result (at + width ≤ length bytes.now) }
    ensures fits { IfSome result (λ number. number < 256 ^ width) }
{
    let field = bytes.get(at..)?;
    if field.len() < width {
        return None;
    }
    match width {
        1 => Some(u32::from(field[0])),
        2 => Some(u32::from(LittleEndian::read_u16(field))),
        3 => Some(LittleEndian::read_u24(field)),
        4 => Some(LittleEndian::read_u32(field)),
        _ => None,
    }
}

/// The number of `width` bytes, 1 to 4, that is at the displacement `at` inside the bytes, lowest byte first.
#[inline]
pub fn number(bytes: &[u8], at: usize, width: usize) -> u32
    requires some { 1 ≤ width }
    requires few { width ≤ 4 }
    requires inside { at + width ≤ length bytes.now }
    ensures value { result ≡ number_at width at bytes.now }
    ensures fits { result < 256 ^ width }
{
    match number_at(bytes, at, width) {
        Some(number) => number,
        None => unreachable!(),
    }
}
