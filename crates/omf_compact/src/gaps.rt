//! Cells between patches, which are passed over without a look at each.

ghost use Rattle.std.specs.Prelude.{◌≡◌, ◌<◌, ◌≤◌, length};
ghost use Rattle.std.specs.List.Sorted.{IsNonDecreasingBy};
ghost use Rattle.load_meaning.specs.Cells.{cell_at};
ghost use Rattle.load_content.specs.Content.{IsSplit, AreRising, AreRuns, offset_of};
ghost use Rattle.omf_compact.specs.laws.Walk.{IsNoPart, NoneBegins, AreNoParts};

use load_content::PatchSpot;
use omf_cells::LoadFile;

/// How many spots begin at most at this offset.
fn count_up_to(spots: &[PatchSpot], at: u32) -> usize
    requires { IsNonDecreasingBy offset_of spots.now }
    ensures split { IsSplit offset_of spots.now at result }
    ensures bound { result ≤ length spots.now }
{
    spots.partition_point(|spot| spot.at <= at)
}

/// Where the first spot of a run begins after an offset, or `end` where none begins before it.
fn start_in(spots: &[PatchSpot], at: u32, end: u32) -> u32
    requires { AreRising spots.now }
    ensures none { NoneBegins at result spots.now }
    ensures bound { result ≤ end }
{
    let count = count_up_to(spots, at);
    if count < spots.len() {
        end.min(spots[count].at)
    } else {
        end
    }
}

/// Where the first spot begins after an offset, or `end` where none begins before it. `runs` has the number of spots in each run.
fn next_start(spots: &[PatchSpot], runs: &[usize], at: u32, end: u32) -> u32
    requires { AreRuns runs.now spots.now }
    ensures none { NoneBegins at result spots.now }
    ensures bound { result ≤ end }
{
    let mut left = spots;
    let mut next = end;
    'runs: for count in runs {
        let (run, following) = left.split_at(*count);
        next = start_in(run, at, next);
        left = following;
    }
    next
}

/// Where a part may come next after an offset at which there is none, in the segment with this number: up to there no cell is a part.
/// It is `end` at most.
pub fn after_gap(load: &LoadFile, number: u32, at: u32, end: u32) -> u32
    requires inside { at < end }
    requires none { IsNoPart (cell_at load.now number at) }
    ensures none { AreNoParts load.now number at result }
    ensures after { at < result }
    ensures bound { result ≤ end }
{
    let (_, content) = match load.content(number) {
        Some(found) => found,
        None => return end,
    };
    let next = next_start(&content.spots, &content.runs, at, end);
    if next > at { next } else { at + 1 }
}
