//! Runs of bytes of blocks, in order of address: blocks with no byte between them are one run, so that a search passes few.

ghost use Rattle.std.specs.Prelude.{◌≡◌, ℕ, ◌-◌, ◌+◌, ◌<◌, ◌≤◌, ◌^◌, All, IsTrue, length, slice_index_or, slice_set, vec_len, vec_capacity};
ghost use Rattle.std.specs.List.Sorted.{IsNonDecreasingBy};
ghost use Rattle.iigs_places.specs.declared.spots.BlockSpot.{BlockSpot};
ghost use Rattle.iigs_places.specs.Marks.{IsSized};
ghost use Rattle.iigs_places.specs.Runs.{AreRuns, RunsAdd, StandsAt, IsStretch, Cover};

use crate::marks::BlockMark;
use crate::spots::{BlockSpot, NEVER, insert_reserved};

// Whether the last of the first `count` runs ends at an address.
fn ends_at(runs: &[BlockSpot], count: usize, address: u32) -> bool
    requires { count ≤ length runs.now }
    ensures { IsTrue result → (0 < count) × ((d : BlockSpot) → (slice_index_or runs.now (count - 1) d).end ≡ address) }
{
    count > 0 && runs[count - 1].end == address
}

// Lets a run end at another address.
fn extend(runs: &mut Vec<BlockSpot>, place: usize, end: u32)
    requires { place < vec_len runs.old }
    ensures items { (d : BlockSpot) → runs.new.items ≡ slice_set runs.old.items place (record (slice_index_or runs.old.items place d) { end = end }) }
    ensures len { vec_len runs.new ≡ vec_len runs.old }
    ensures capacity { vec_capacity runs.old ≤ vec_capacity runs.new }
{
    runs[place].end = end;
}

// Adds the bytes of a block. The first `count` runs begin before it, and the others after it.
fn add_at(runs: &mut Vec<BlockSpot>, count: usize, at: u32, end: u32)
    requires runs { AreRuns runs.old.items }
    requires stands { StandsAt runs.old.items count at }
    requires some { at < end }
    requires ends { end ≤ 2 ^ 24 }
    requires room { vec_len runs.old < vec_capacity runs.old }
    ensures runs { AreRuns runs.new.items }
    ensures added { RunsAdd runs.old.items at end runs.new.items }
    ensures len { vec_len runs.new ≤ vec_len runs.old + 1 }
    ensures capacity { vec_capacity runs.old ≤ vec_capacity runs.new }
{
    if ends_at(runs, count, at) {
        extend(runs, count - 1, end);
    } else {
        insert_reserved(
            runs,
            count,
            BlockSpot {
                at,
                end,
                turn: NEVER,
            },
        );
    }
}

// How many runs begin at an address or before it.
fn count_up_to(runs: &[BlockSpot], address: u32) -> usize
    requires { IsNonDecreasingBy (λ run. run.at) runs.now }
    ensures { StandsAt runs.now result address }
{
    runs.partition_point(|run| run.at <= address)
}

/// Adds the bytes of a block.
pub fn add_run(runs: &mut Vec<BlockSpot>, at: u32, end: u32)
    requires runs { AreRuns runs.old.items }
    requires some { at < end }
    requires ends { end ≤ 2 ^ 24 }
    requires room { vec_len runs.old < vec_capacity runs.old }
    ensures runs { AreRuns runs.new.items }
    ensures added { RunsAdd runs.old.items at end runs.new.items }
    ensures len { vec_len runs.new ≤ vec_len runs.old + 1 }
    ensures capacity { vec_capacity runs.old ≤ vec_capacity runs.new }
{
    let count = count_up_to(runs, at);
    add_at(runs, count, at, end);
}

/// Blocks with no byte between them.
#[derive(Clone, Copy)]
pub struct Stretch {
    /// The address after the last byte.
    pub end: u32,
    /// The place of the mark of the block after them.
    pub next: usize,
}

// The blocks that begin with the one whose mark is at a place and have no byte between them.
fn stretch_from(marks: &[BlockMark], first: usize) -> Stretch
    requires inside { first < length marks.now }
    requires sized { All IsSized marks.now }
    ensures { IsStretch marks.now first result }
{
    let mut end = marks[first].end;
    for place in first + 1..marks.len() {
        if marks[place].at != end {
            return Stretch { end, next: place };
        }
        end = marks[place].end;
    }
    Stretch {
        end,
        next: marks.len(),
    }
}

/// Makes runs of the blocks with these marks, which are in order.
pub fn join_marks(marks: &[BlockMark], runs: &mut Vec<BlockSpot>)
    requires order { IsNonDecreasingBy (λ mark. mark.at) marks.now }
    requires sized { All IsSized marks.now }
    requires room { length marks.now ≤ vec_capacity runs.old }
    ensures cover { Cover marks.now runs.new.items }
    ensures capacity { vec_capacity runs.old ≤ vec_capacity runs.new }
{
    runs.clear();
    let mut first = 0;
    while first < marks.len() {
        let stretch = stretch_from(marks, first);
        runs.push_reserved(BlockSpot {
            at: marks[first].at,
            end: stretch.end,
            turn: NEVER,
        });
        first = stretch.next;
    }
}
