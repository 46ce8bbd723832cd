//! Sliding movable blocks down.

ghost use Rattle.std.specs.Prelude.{◌≡◌, ◌+◌, ◌^◌, ◌<◌, ◌≤◌, Contains, IsSome, Some, length, vec_capacity};
ghost use Rattle.iigs_meaning.specs.Slots.{get, slot_at};
ghost use Rattle.iigs_meaning.specs.Fits.{block_in};
ghost use Rattle.iigs_meaning.specs.Slide.{can_move, Slides, AreSettled};
ghost use Rattle.iigs_places.specs.Arranged.{IsArranged};
ghost use Rattle.iigs_places.specs.Sliding.{ArePassed, Sinks};
ghost use Rattle.iigs_places.specs.Runs.{IsLayout};

use crate::bank_map::BankMap;
use crate::layout::BlockLayout;
use crate::marks::{BlockMark, first_from};
use crate::moves::move_to;
use crate::runs::add_run;
use crate::search::least_among;
use crate::spots::BlockSpot;
use iigs_handles::Handles;
use iigs_meaning::{Block, Handle, SlotContent};

/// Whether a block moves in a slide.
#[tactic(auto, unfolding(iigs_meaning::specs::Slide::can_move))]
pub fn can_be_moved(block: &Block) -> bool
    ensures { result ≡ can_move block.now }
{
    block.at.is_some() && block.movable && !block.locked
}

/// A block, and the generation of its handle.
#[derive(Clone, Copy)]
pub struct MarkedBlock {
    pub generation: u8,
    pub block: Block,
}

/// The block in a slot.
pub fn held_in(table: &Handles<Block>, slot: u16) -> MarkedBlock
    requires place { slot < 4096 }
    requires there { IsSome (block_in (slot_at table.now slot)) }
    ensures { get table.now (record { slot = slot; generation = result.generation }) ≡ Some result.block }
{
    let held = &table.slots()[usize::from(slot)];
    let SlotContent::Used(block) = &held.content else {
        unreachable!();
    };
    MarkedBlock {
        generation: held.generation,
        block: *block,
    }
}

// Moves the block with a mark, if it moves, to the least address at which its want fits beside the blocks below it, which
// were passed. Gives its address then.
fn slide_block(
    map: &BankMap,
    table: &mut Handles<Block>,
    layout: &mut BlockLayout,
    passed: &[BlockSpot],
    mark: BlockMark,
) -> u32
    requires arranged { IsArranged map.now table.old }
    requires settled { AreSettled map.now table.old }
    requires laid { IsLayout table.old layout.old }
    requires marked { Contains layout.old.marks.items mark }
    requires passed { ArePassed table.old mark.at passed.now }
    ensures sinks { Sinks map.now table.old mark.slot mark.at result table.new }
    ensures low { result ≤ mark.at }
    ensures arranged { IsArranged map.now table.new }
    ensures laid { IsLayout table.new layout.new }
{
    let held = held_in(table, mark.slot);
    if !can_be_moved(&held.block) {
        return mark.at;
    }
    let Some(to) = least_among(map, &held.block.want, passed, 0) else {
        unreachable!();
    };
    if to == mark.at {
        return to;
    }
    let h = Handle {
        slot: mark.slot,
        generation: held.generation,
    };
    move_to(table, layout, h, &held.block, mark.at, to);
    to
}

/// Slides the movable blocks down. `passed` is scratch space.
pub fn slide_all(
    map: &BankMap,
    table: &mut Handles<Block>,
    layout: &mut BlockLayout,
    passed: &mut Vec<BlockSpot>,
)
    requires arranged { IsArranged map.now table.old }
    requires settled { AreSettled map.now table.old }
    requires laid { IsLayout table.old layout.old }
    requires room { 4096 ≤ vec_capacity passed.old }
    ensures slides { Slides map.now table.old table.new }
    ensures arranged { IsArranged map.now table.new }
    ensures laid { IsLayout table.new layout.new }
    ensures capacity { vec_capacity passed.old ≤ vec_capacity passed.new }
{
    passed.clear();
    let mut limit = 0;
    while let Some(mark) = first_from(&layout.marks, limit) {
        let at = slide_block(map, table, layout, passed, mark);
        add_run(passed, at, at + (mark.end - mark.at));
        limit = mark.at + 1;
    }
}
