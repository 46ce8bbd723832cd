//! A slide that is only tried: where the movable blocks would go, without a change of any.

ghost use Rattle.std.specs.Prelude.{◌-◌, ◌≤◌, ◌^◌, Contains, vec_capacity};
ghost use Rattle.iigs_meaning.specs.Slide.{AreSettled};
ghost use Rattle.iigs_places.specs.Arranged.{IsArranged};
ghost use Rattle.iigs_places.specs.Runs.{IsLayout};
ghost use Rattle.iigs_places.specs.Tried.{AreSlid, LiesSlid};

use crate::bank_map::BankMap;
use crate::layout::BlockLayout;
use crate::marks::{BlockMark, first_from};
use crate::runs::add_run;
use crate::search::least_among;
use crate::slide::{can_be_moved, held_in};
use crate::spots::BlockSpot;
use iigs_handles::Handles;
use iigs_meaning::Block;

// Where the block with a mark goes in a slide, beside the blocks below it, which were passed.
fn slid_address(
    map: &BankMap,
    table: &Handles<Block>,
    layout: &BlockLayout,
    passed: &[BlockSpot],
    mark: BlockMark,
) -> u32
    requires arranged { IsArranged map.now table.now }
    requires settled { AreSettled map.now table.now }
    requires laid { IsLayout table.now layout.now }
    requires marked { Contains layout.now.marks.items mark }
    requires passed { AreSlid map.now table.now mark.at passed.now }
    ensures slid { LiesSlid map.now table.now mark.slot result (mark.end - mark.at) }
    ensures low { result ≤ mark.at }
{
    let block = held_in(table, mark.slot).block;
    if !can_be_moved(&block) {
        return mark.at;
    }
    match least_among(map, &block.want, passed, 0) {
        Some(least) => least.min(mark.at),
        None => mark.at,
    }
}

/// Gathers the bytes that the blocks have once the movable ones are slid down.
pub fn gather_slid(
    map: &BankMap,
    table: &Handles<Block>,
    layout: &BlockLayout,
    passed: &mut Vec<BlockSpot>,
)
    requires arranged { IsArranged map.now table.now }
    requires settled { AreSettled map.now table.now }
    requires laid { IsLayout table.now layout.now }
    requires room { 4096 ≤ vec_capacity passed.old }
    ensures slid { AreSlid map.now table.now (2 ^ 24) passed.new.items }
    ensures capacity { vec_capacity passed.old ≤ vec_capacity passed.new }
{
    passed.clear();
    let mut limit = 0;
    while let Some(mark) = first_from(&layout.marks, limit) {
        let at = slid_address(map, table, layout, passed, mark);
        add_run(passed, at, at + (mark.end - mark.at));
        limit = mark.at + 1;
    }
}
