//! The bytes that patches give, in runs in each of which their offsets rise.

ghost use Rattle.std.specs.Prelude.{◌≡◌, ◌<◌, ◌≤◌, ◌^◌, ℕ, [], ◌∷◌, length, take, IsTrue, IfOk, IfSome, OnOk};
ghost use Rattle.std.specs.List.Sorted.{IsPermutation, IsNonDecreasingBy, IsStableByKey};
ghost use Rattle.std.specs.Ordering.{nat_cmp};
ghost use Rattle.load_content.specs.Content.{offset_of, spread_spot, shown_spots, last_at, AreBelow, AreApart, AreRising, AreRuns, IsCut};

use crate::spots::{PatchSpot, size_of};
use std::alloc::{AllocError, Global};

/// How many runs are kept side by side. A byte is searched for in each of them.
const MOST_RUNS: usize = 32;

/// Whether each spot ends where the next one begins, or before it.
fn are_apart(spots: &[PatchSpot]) -> bool
    ensures { IsTrue result → AreApart spots.now }
{
    let mut end = 0u64;
    'spots: for spot in spots {
        if u64::from(spot.at) < end {
            return false;
        }
        end = u64::from(spot.at) + u64::from(size_of(spot));
    }
    true
}

/// The spots in the order of their offsets; those at one offset keep their order.
fn sort_by_offset(alloc: Global, spots: &[PatchSpot]) -> Result<Vec<PatchSpot>, AllocError>
    ensures rise { IfOk result (λ sorted. IsNonDecreasingBy offset_of sorted.items) }
    ensures stable { IfOk result (λ sorted. IsStableByKey offset_of nat_cmp spots.now sorted.items) }
    ensures permutation { IfOk result (λ sorted. IsPermutation spots.now sorted.items) }
{
    let mut sorted = Vec::from_slice(alloc, spots)?;
    sorted.sort_by_key(|spot| spot.at)?;
    Ok(sorted)
}

/// Adds the bytes of a spot one by one.
fn add_bytes(bytes: &mut Vec<PatchSpot>, spot: &PatchSpot) -> Result<(), AllocError>
    requires { AreBelow (2 ^ 32) (spread_spot spot.now) }
    ensures { OnOk result (IsCut bytes.old.items (spread_spot spot.now) bytes.new.items) }
{
    let mut at = spot.at;
    let mut index = spot.first;
    'bytes: while index < spot.end {
        bytes.push(PatchSpot {
            at,
            first: index,
            end: index + 1,
            ..*spot
        })?;
        at = at.wrapping_add(1);
        index += 1;
    }
    Ok(())
}

/// The bytes of the spots, one by one.
fn bytes_of(alloc: Global, spots: &[PatchSpot]) -> Result<Vec<PatchSpot>, AllocError>
    requires { AreBelow (2 ^ 32) (shown_spots spots.now) }
    ensures { IfOk result (λ bytes. IsCut [] (shown_spots spots.now) bytes.items) }
{
    let mut bytes = Vec::new(alloc);
    'spots: for spot in spots {
        add_bytes(&mut bytes, spot)?;
    }
    Ok(bytes)
}

/// The same bytes in the order of their offsets. Only where two spots share a byte, byte by byte, so that the last one of an
/// offset stays the last.
fn in_one_run(alloc: Global, spots: &[PatchSpot]) -> Result<Vec<PatchSpot>, AllocError>
    requires { AreBelow (2 ^ 32) (shown_spots spots.now) }
    ensures rise { IfOk result (λ sorted. AreRising sorted.items) }
    ensures last { IfOk result (λ sorted. (k : ℕ) → last_at (shown_spots sorted.items) k ≡ last_at (shown_spots spots.now) k) }
{
    let whole = sort_by_offset(alloc, spots)?;
    if are_apart(&whole) {
        return Ok(whole);
    }
    let bytes = bytes_of(alloc, spots)?;
    let bytes = sort_by_offset(alloc, &bytes)?;
    Ok(bytes)
}

/// How many spots at the start lie apart, in order.
fn apart_count(spots: &[PatchSpot]) -> usize
    ensures bound { result ≤ length spots.now }
    ensures some { 0 < length spots.now → 0 < result }
    ensures rise { AreRising (take result spots.now) }
{
    let mut end = 0u64;
    let mut count = 0;
    'spots: for spot in spots {
        if u64::from(spot.at) < end {
            return count;
        }
        end = u64::from(spot.at) + u64::from(size_of(spot));
        count += 1;
    }
    count
}

/// How many spots each run of them has, where these runs are few.
fn runs_of(alloc: Global, spots: &[PatchSpot]) -> Result<Option<Vec<usize>>, AllocError>
    ensures { IfOk result (λ found. IfSome found (λ runs. AreRuns runs.items spots.now)) }
{
    let mut runs = Vec::new(alloc);
    let mut left = spots;
    'runs: while !left.is_empty() {
        if runs.len() == MOST_RUNS {
            return Ok(None);
        }
        let count = apart_count(left);
        runs.push(count)?;
        let (_, following) = left.split_at(count);
        left = following;
    }
    Ok(Some(runs))
}

/// One run of `count` spots.
fn one_run(alloc: Global, count: usize) -> Result<Vec<usize>, AllocError>
    ensures { IfOk result (λ runs. runs.items ≡ count ∷ []) }
{
    let mut runs = Vec::new(alloc);
    runs.push(count)?;
    Ok(runs)
}

/// The same spots, in no more memory than they need.
fn trim_capacity(spots: Vec<PatchSpot>) -> Vec<PatchSpot>
    ensures { result.items ≡ spots.items }
{
    let mut spots = spots;
    spots.shrink_to_fit();
    spots
}

/// The same bytes in runs, and how many spots each run has. The spots keep their order where their runs are few, and are sorted by their
/// offsets otherwise.
pub fn in_order(
    alloc: Global,
    spots: Vec<PatchSpot>,
) -> Result<(Vec<PatchSpot>, Vec<usize>), AllocError>
    requires { AreBelow (2 ^ 32) (shown_spots spots.items) }
    ensures runs { IfOk result (λ kept. AreRuns kept.1.items kept.0.items) }
    ensures last { IfOk result (λ kept. (k : ℕ) → last_at (shown_spots kept.0.items) k ≡ last_at (shown_spots spots.items) k) }
{
    // Before the runs take memory, so that they take what this gives back.
    let spots = trim_capacity(spots);
    match runs_of(alloc, &spots)? {
        Some(runs) => return Ok((spots, runs)),
        None => {}
    }
    let sorted = in_one_run(alloc, &spots)?;
    let runs = one_run(alloc, sorted.len())?;
    Ok((sorted, runs))
}
