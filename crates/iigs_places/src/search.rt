//! The search for the least address at which a want fits beside blocks.

ghost use Rattle.std.specs.Prelude.{◌≡◌, ◌⊎◌, ℕ, IsTrue, ◌+◌, ◌-◌, ◌^◌, ◌<◌, ◌≤◌, All, length, slice_index_or, MatchOption, vec_capacity};
ghost use Rattle.iigs_meaning.specs.Placement.{HasNoRoom};
ghost use Rattle.std.specs.List.Sorted.{IsNonDecreasingBy};
ghost use Rattle.iigs_meaning.specs.Fits.{IsWant};
ghost use Rattle.iigs_places.specs.declared.spots.BlockSpot.{BlockSpot};
ghost use Rattle.iigs_places.specs.Spots.{FitsAmong, IsLeastAmong, IsPast, HasNoPlace, IsFewestAmong, FitsWithNone, limit_of, turn_of_unpurgeable, IsBoundedSlot, IsFound};
ghost use Rattle.iigs_places.specs.Runs.{IsLayout};

use crate::bank_map::BankMap;
use crate::layout::BlockLayout;
use crate::open::next_open;
use crate::spots::{BlockSpot, gather_blocks};
use iigs_handles::Handles;
use iigs_meaning::{Block, Want};

/// Where a want goes, and which blocks are purged for it.
#[derive(Clone, Copy)]
pub struct FoundAddress {
    /// Blocks with a turn below this one are purged.
    pub limit: u32,
    /// The address.
    pub at: u32,
}

// The place of the first block from `from` on that isn't purged and ends after the address.
fn first_after(spots: &[BlockSpot], from: usize, limit: u32, address: u32) -> usize
    requires { from ≤ length spots.now }
    ensures after { from ≤ result }
    ensures within { result ≤ length spots.now }
    ensures past { (k : ℕ) (d : BlockSpot) → from ≤ k → k < result → IsPast limit address (slice_index_or spots.now k d) }
    ensures here { (d : BlockSpot) → result < length spots.now → (limit ≤ (slice_index_or spots.now result d).turn) × (address < (slice_index_or spots.now result d).end) }
{
    for place in from..spots.len() {
        let spot = &spots[place];
        if limit <= spot.turn && address < spot.end {
            return place;
        }
    }
    spots.len()
}

// Blocks that leave no room between them.
#[derive(Clone, Copy)]
struct Run {
    // Where the last of them ends.
    end: u32,
    // The place of the block after them.
    next: usize,
}

// The blocks that begin with the one at a place and leave no room for `size` bytes between them. Those with a turn below the limit don't
// count.
fn run_from(spots: &[BlockSpot], first: usize, limit: u32, size: u32) -> Run
    requires inside { first < length spots.now }
    requires size { size ≤ 2 ^ 24 }
    requires ends { All (λ spot. spot.end ≤ 2 ^ 24) spots.now }
    ensures after { (d : BlockSpot) → (slice_index_or spots.now first d).end ≤ result.end }
    ensures within { result.end ≤ 2 ^ 24 }
    ensures inside { result.next ≤ length spots.now }
    ensures past { (k : ℕ) (d : BlockSpot) → first ≤ k → k < result.next → IsPast limit result.end (slice_index_or spots.now k d) }
    ensures full { (d : BlockSpot) (address : ℕ) → (slice_index_or spots.now first d).end ≤ address → address < result.end → HasNoPlace spots.now limit size address }
{
    let mut end = spots[first].end;
    for place in first + 1..spots.len() {
        let spot = &spots[place];
        if limit <= spot.turn {
            if end + size <= spot.at {
                return Run { end, next: place };
            }
            end = end.max(spot.end);
        }
    }
    Run {
        end,
        next: spots.len(),
    }
}

/// The least address at which the want fits beside all blocks whose turn isn't below the limit. The blocks are in order of address.
pub fn least_among(map: &BankMap, want: &Want, spots: &[BlockSpot], limit: u32) -> Option<u32>
    requires want { IsWant want.now }
    requires order { IsNonDecreasingBy (λ spot. spot.at) spots.now }
    requires ends { All (λ spot. spot.end ≤ 2 ^ 24) spots.now }
    ensures { MatchOption result ((address : ℕ) → ¬ FitsAmong map.now want.now spots.now limit address)
        (IsLeastAmong map.now want.now spots.now limit) }
{
    let mut from = 0;
    let mut index = 0;
    while let Some(place) = next_open(map, want, from) {
        index = first_after(spots, index, limit, place);
        let Some(spot) = spots.get(index) else {
            return Some(place);
        };
        if place + want.size <= spot.at {
            return Some(place);
        }
        let run = run_from(spots, index, limit, want.size);
        from = run.end;
        index = run.next;
    }
    None
}

/// The turn below which the first `count` purgeable blocks lie.
#[tactic(auto, unfolding(crate::specs::Spots::limit_of))]
pub fn limit_at(turns: &[u32], count: usize) -> u32
    requires count { count ≤ length turns.now }
    requires small { All (λ turn. turn < turn_of_unpurgeable) turns.now }
    ensures { result ≡ limit_of turns.now count }
{
    if count == 0 { 0 } else { turns[count - 1] + 1 }
}

/// The least address at which the want fits, and the fewest blocks that are purged for it. The turns of those that may be purged are in
/// order.
pub fn fewest_purges(
    map: &BankMap,
    want: &Want,
    spots: &[BlockSpot],
    turns: &[u32],
) -> Option<FoundAddress>
    requires want { IsWant want.now }
    requires order { IsNonDecreasingBy (λ spot. spot.at) spots.now }
    requires ends { All (λ spot. spot.end ≤ 2 ^ 24) spots.now }
    requires rises { IsNonDecreasingBy (λ turn. turn) turns.now }
    requires small { All (λ turn. turn < turn_of_unpurgeable) turns.now }
    ensures { MatchOption result (FitsWithNone map.now want.now spots.now turns.now)
        (IsFewestAmong map.now want.now spots.now turns.now) }
{
    if let Some(at) = least_among(map, want, spots, 0) {
        return Some(FoundAddress { limit: 0, at });
    }
    let all = limit_at(turns, turns.len());
    let Some(mut at) = least_among(map, want, spots, all) else {
        return None;
    };
    let mut none = 0;
    let mut count = turns.len();
    while count - none > 1 {
        let middle = none + (count - none) / 2;
        match least_among(map, want, spots, limit_at(turns, middle)) {
            None => none = middle,
            Some(nearer) => {
                count = middle;
                at = nearer;
            }
        }
    }
    Some(FoundAddress {
        limit: limit_at(turns, count),
        at,
    })
}

/// Where the want goes among the blocks of this table, and which are purged for it. Where it fits beside the runs, none
/// is, and the blocks aren't looked at. `spots` and `turns` are scratch space with room for all blocks.
pub fn find(
    map: &BankMap,
    want: &Want,
    table: &Handles<Block>,
    layout: &BlockLayout,
    spots: &mut Vec<BlockSpot>,
    turns: &mut Vec<u32>,
) -> Option<FoundAddress>
    requires want { IsWant want.now }
    requires bounded { All IsBoundedSlot table.now }
    requires laid { IsLayout table.now layout.now }
    requires joined { IsTrue layout.now.joined }
    requires spots_room { 4096 ≤ vec_capacity spots.old }
    requires turns_room { 4096 ≤ vec_capacity turns.old }
    ensures found { MatchOption result (HasNoRoom map.now table.now want.now) (IsFound map.now table.now want.now) }
    ensures spots_capacity { vec_capacity spots.old ≤ vec_capacity spots.new }
    ensures turns_capacity { vec_capacity turns.old ≤ vec_capacity turns.new }
{
    if let Some(at) = least_among(map, want, &layout.runs, 0) {
        return Some(FoundAddress { limit: 0, at });
    }
    gather_blocks(table, spots, turns);
    fewest_purges(map, want, spots, turns)
}
