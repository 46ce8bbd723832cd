//! Blocks that no slide moves, whatever is purged besides and whatever other blocks are there too.

ghost use Rattle.std.specs.Prelude.{◌+◌, ◌<◌, ◌≤◌, ◌^◌, Contains, IsTrue, vec_len, vec_capacity};
ghost use Rattle.iigs_places.specs.Arranged.{IsArranged};
ghost use Rattle.iigs_places.specs.Fixed.{AreFixed, IsFixed};
ghost use Rattle.iigs_places.specs.Runs.{IsLayout};

use crate::bank_map::BankMap;
use crate::layout::BlockLayout;
use crate::marks::{BlockMark, first_from};
use crate::runs::add_run;
use crate::search::least_among;
use crate::slide::{can_be_moved, held_in};
use crate::spots::BlockSpot;
use iigs_handles::Handles;
use iigs_meaning::Block;

// Whether the block with a mark can't move: it stays in a slide, or it fits nowhere lower beside fixed blocks.
fn is_fixed(
    map: &BankMap,
    table: &Handles<Block>,
    layout: &BlockLayout,
    fixed: &[BlockSpot],
    mark: BlockMark,
) -> bool
    requires arranged { IsArranged map.now table.now }
    requires laid { IsLayout table.now layout.now }
    requires marked { Contains layout.now.marks.items mark }
    requires fixed { AreFixed map.now table.now mark.at fixed.now }
    ensures { IsTrue result → IsFixed map.now table.now mark.slot }
{
    let block = held_in(table, mark.slot).block;
    if !can_be_moved(&block) {
        return true;
    }
    match least_among(map, &block.want, fixed, 0) {
        Some(least) => least == mark.at,
        None => false,
    }
}

// Adds the bytes of the block with a mark, if it can't move.
fn add_fixed(
    map: &BankMap,
    table: &Handles<Block>,
    layout: &BlockLayout,
    fixed: &mut Vec<BlockSpot>,
    mark: BlockMark,
)
    requires arranged { IsArranged map.now table.now }
    requires laid { IsLayout table.now layout.now }
    requires marked { Contains layout.now.marks.items mark }
    requires fixed { AreFixed map.now table.now mark.at fixed.old.items }
    requires room { vec_len fixed.old < vec_capacity fixed.old }
    ensures fixed { AreFixed map.now table.now (mark.at + 1) fixed.new.items }
    ensures len { vec_len fixed.new ≤ vec_len fixed.old + 1 }
    ensures capacity { vec_capacity fixed.old ≤ vec_capacity fixed.new }
{
    if !is_fixed(map, table, layout, fixed, mark) {
        return;
    }
    add_run(fixed, mark.at, mark.end);
}

/// Gathers bytes of blocks that no slide moves: of those that stay, and of each that fits nowhere lower beside those below it.
pub fn gather_fixed(
    map: &BankMap,
    table: &Handles<Block>,
    layout: &BlockLayout,
    fixed: &mut Vec<BlockSpot>,
)
    requires arranged { IsArranged map.now table.now }
    requires laid { IsLayout table.now layout.now }
    requires room { 4096 ≤ vec_capacity fixed.old }
    ensures fixed { AreFixed map.now table.now (2 ^ 24) fixed.new.items }
    ensures capacity { vec_capacity fixed.old ≤ vec_capacity fixed.new }
{
    fixed.clear();
    let mut limit = 0;
    while let Some(mark) = first_from(&layout.marks, limit) {
        add_fixed(map, table, layout, fixed, mark);
        limit = mark.at + 1;
    }
}
