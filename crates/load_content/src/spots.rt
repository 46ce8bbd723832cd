//! The bytes of a segment that patches give.

ghost use Rattle.std.specs.Prelude.{◌≡◌, ◌+◌, ◌-◌, ◌<◌, ◌≤◌, ◌/◌, ◌^◌, ◌++◌, length, nat_lt, OnOk, option_map};
ghost use Rattle.std.specs.List.Sorted.{IsNonDecreasingBy};
ghost use Rattle.omf_format.specs.Value.{wrapped_to_32_bits, shifted_bits};
ghost use Rattle.load_content.specs.Content.{IsSplit, patch_of, cells_of_patch, offset_of, part_of, spread_spot, shown_spots, last_at, AreBelow, AreRising, AreRuns, with_cells};
ghost use Rattle.load_content.specs.Places.{address_in};

use crate::places::Places;
use std::alloc::AllocError;

/// A patch as a record gives it. The location of a SUPER may lie above 32 bits.
#[derive(Clone, Copy)]
pub struct Relocation {
    pub location: u64,
    pub count: u8,
    pub file: u16,
    pub segment: u16,
    pub offset: u32,
    pub shift: i8,
}

/// Bytes of a segment that a patch gives: some, one after another, of the place in a segment of the same file.
#[derive(Clone, Copy)]
pub struct PatchSpot {
    /// The offset of the first one in the segment.
    pub at: u32,
    pub offset: u32,
    pub segment: u16,
    pub shift: i8,
    /// Which byte of the place the first one is.
    pub first: u8,
    /// Which byte of the place follows the last one.
    pub end: u8,
}

/// Whether a patch of a given number of bytes reaches past LENGTH.
#[inline(always)]
pub fn is_outside(location: u64, count: u8, length: u32) -> bool
    ensures { result ≡ nat_lt length (location + count) }
{
    let length = u64::from(length);
    length < location || length - location < u64::from(count)
}

/// Adds the bytes that a patch gives.
#[inline(always)]
pub fn add_spot(spots: &mut Vec<PatchSpot>, patch: &Relocation) -> Result<(), AllocError>
    requires file { patch.now.file ≡ 1 }
    requires short { patch.now.location < 2 ^ 32 }
    ensures { OnOk result (shown_spots spots.new.items ≡ shown_spots spots.old.items ++ cells_of_patch (patch_of patch.now)) }
{
    spots.push(PatchSpot {
        at: patch.location as u32,
        offset: patch.offset,
        segment: patch.segment,
        shift: patch.shift,
        first: 0,
        end: patch.count,
    })?;
    Ok(())
}

/// How many bytes a spot has.
#[inline(always)]
pub fn size_of(spot: &PatchSpot) -> u8
    ensures value { result ≡ spot.now.end - spot.now.first }
    ensures small { spot.now.first + result < 2 ^ 8 }
{
    spot.end.saturating_sub(spot.first)
}

/// How many spots begin at most at this offset.
fn count_up_to(spots: &[PatchSpot], at: u32) -> usize
    requires { IsNonDecreasingBy offset_of spots.now }
    ensures split { IsSplit offset_of spots.now at result }
    ensures bound { result ≤ length spots.now }
{
    spots.partition_point(|spot| spot.at <= at)
}

/// The byte at an offset that a spot of a run gives, and that of the last where several do.
fn spot_in(spots: &[PatchSpot], at: u32) -> Option<PatchSpot>
    requires { AreRising spots.now }
    ensures { option_map part_of result ≡ last_at (shown_spots spots.now) at }
{
    let count = count_up_to(spots, at);
    if count == 0 {
        return None;
    }
    let spot = spots[count - 1];
    let passed = at - spot.at;
    if passed < u32::from(size_of(&spot)) {
        Some(PatchSpot {
            at,
            first: spot.first + passed as u8,
            ..spot
        })
    } else {
        None
    }
}

/// The byte at an offset that a spot gives, and that of the last where several do. `runs` has the number of spots in each run.
pub fn spot_at(spots: &[PatchSpot], runs: &[usize], at: u32) -> Option<PatchSpot>
    requires { AreRuns runs.now spots.now }
    ensures { option_map part_of result ≡ last_at (shown_spots spots.now) at }
{
    let mut left = spots;
    let mut found = None;
    'runs: for count in runs {
        let (run, following) = left.split_at(*count);
        found = spot_in(run, at).or(found);
        left = following;
    }
    found
}

/// The bits shifted left by `count`, or right where it is negative; zeros are shifted in.
#[inline(always)]
fn shift_bits(bits: u32, count: i8) -> u32
    ensures { result ≡ shifted_bits bits count }
{
    let count = i32::from(count);
    if count < 0 {
        bits.unbounded_shr(count.unsigned_abs())
    } else {
        bits.unbounded_shl(count as u32)
    }
}

/// A number without its lowest `count` bytes.
#[inline(always)]
fn without_bytes(number: u32, count: u8) -> u32
    ensures { result ≡ number / 256 ^ count }
{
    match count {
        0 => number,
        1 => number / 0x100,
        2 => number / 0x1_0000,
        3 => number / 0x100_0000,
        _ => 0,
    }
}

/// The number that a spot has bytes of, where the segments lie at these addresses.
#[inline(always)]
fn number_of(spot: &PatchSpot, places: &Places) -> u32
    ensures { result ≡ shifted_bits (wrapped_to_32_bits (address_in places.now spot.now.segment + spot.now.offset)) spot.now.shift }
{
    let address = match places.get(u32::from(spot.segment)) {
        Some(address) => address,
        None => 0,
    };
    shift_bits(address.wrapping_add(spot.offset), spot.shift)
}

/// Writes the bytes that a spot represents.
#[inline(always)]
fn write_spot(spot: &PatchSpot, places: &Places, out: &mut [u8])
    requires { AreBelow (length out.old) (spread_spot spot.now) }
    ensures { out.new ≡ with_cells (address_in places.now) (spread_spot spot.now) out.old }
{
    let mut left = without_bytes(number_of(spot, places), spot.first);
    let mut at = spot.at as usize;
    let mut index = spot.first;
    'bytes: while index < spot.end {
        out[at] = (left % 0x100) as u8;
        left /= 0x100;
        at += 1;
        index += 1;
    }
}

/// Writes the bytes that the spots represent, in order.
pub fn write_spots(spots: &[PatchSpot], places: &Places, out: &mut [u8])
    requires { AreBelow (length out.old) (shown_spots spots.now) }
    ensures { out.new ≡ with_cells (address_in places.now) (shown_spots spots.now) out.old }
{
    'spots: for spot in spots {
        write_spot(spot, places, out);
    }
}
