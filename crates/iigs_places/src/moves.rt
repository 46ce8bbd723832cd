//! Changes of a table of blocks under handles: what is emptied by number, and single blocks emptied and moved.

ghost use Rattle.std.specs.Prelude.{◌≡◌, ◌⊎◌, ◌+◌, ◌^◌, ◌<◌, ◌≤◌, All, IfOk, IfErr, IsTrue, OnErr, OnOk, Some, false, length, vec_capacity};
ghost use Rattle.std.specs.Option.{option_map_or};
ghost use Rattle.std.specs.List.Sorted.{IsNonDecreasingBy};
ghost use Rattle.iigs_meaning.specs.Slots.{get, with_value};
ghost use Rattle.iigs_meaning.specs.Fits.{IsWant, block_in};
ghost use Rattle.iigs_meaning.specs.Placement.{can_purge, slots_after_purges, count_purgeable as purgeable};
ghost use Rattle.iigs_meaning.specs.Moves.{Empties, IsEmptyRefusal, Shifts, IsShiftRefusal};
ghost use Rattle.iigs_places.specs.Arranged.{IsArranged};
ghost use Rattle.iigs_places.specs.Spots.{IsBoundedSlot};
ghost use Rattle.iigs_places.specs.Open.{IsOpen};
ghost use Rattle.iigs_places.specs.Marks.{AreOnce, AreMarksApart, IsSized, LiesBeside, SharesByte};
ghost use Rattle.iigs_places.specs.Runs.{IsLayout};

use crate::bank_map::BankMap;
use crate::layout::{BlockLayout, lay_all, lay_gone, lay_moved};
use crate::marks::{BlockMark, lies_beside};
use crate::open::is_open;
use crate::search::limit_at;
use crate::spots::{BlockSpot, gather_blocks};
use crate::table::{can_be_purged, empty_below, set};
use iigs_handles::Handles;
use iigs_meaning::{Block, EmptyFault, Handle, ShiftFault, Slot, SlotContent, Stale, Want};

// Whether the block in a slot may be purged.
fn may_purge(slot: &Slot<Block>) -> bool
    ensures { result ≡ option_map_or can_purge (block_in slot.now) false }
{
    let SlotContent::Used(block) = &slot.content else {
        return false;
    };
    can_be_purged(block)
}

/// How many blocks may be purged.
pub fn count_purgeable(slots: &[Slot<Block>]) -> u32
    requires { length slots.now ≤ 4096 }
    ensures value { result ≡ purgeable slots.now }
    ensures small { result ≤ length slots.now }
{
    let mut count = 0;
    for slot in slots {
        if may_purge(slot) {
            count += 1;
        }
    }
    count
}

/// Empties the first `count` purgeable blocks. `spots` and `turns` are scratch space.
pub fn purge_first(
    table: &mut Handles<Block>,
    layout: &mut BlockLayout,
    spots: &mut Vec<BlockSpot>,
    turns: &mut Vec<u32>,
    count: u32,
)
    requires bounded { All IsBoundedSlot table.old }
    requires laid { IsLayout table.old layout.old }
    requires spots_room { 4096 ≤ vec_capacity spots.old }
    requires turns_room { 4096 ≤ vec_capacity turns.old }
    ensures after { table.new ≡ slots_after_purges table.old count }
    ensures laid { IsLayout table.new layout.new }
    ensures spots_capacity { vec_capacity spots.old ≤ vec_capacity spots.new }
    ensures turns_capacity { vec_capacity turns.old ≤ vec_capacity turns.new }
{
    gather_blocks(table, spots, turns);
    let limit = limit_at(turns, turns.len().min(count as usize));
    empty_below(table, limit);
    lay_all(layout, table);
}

/// Empties a purgeable block. Its handle stays.
pub fn empty_block(
    table: &mut Handles<Block>,
    layout: &mut BlockLayout,
    h: Handle,
) -> Result<(), EmptyFault>
    requires laid { IsLayout table.old layout.old }
    ensures emptied { OnOk result (Empties table.old h table.new) }
    ensures refused { IfErr result (IsEmptyRefusal table.old h) }
    ensures err { OnErr result (table.new ≡ table.old) }
    ensures laid { IsLayout table.new layout.new }
{
    let block = match table.look(h) {
        Ok(block) => *block,
        Err(Stale) => return Err(EmptyFault::Stale),
    };
    let Some(at) = block.at else {
        return Err(EmptyFault::Empty);
    };
    if !can_be_purged(&block) {
        return Err(EmptyFault::NotPurgeable);
    }
    set(table, h, Block { at: None, ..block });
    lay_gone(layout, h.slot, at);
    Ok(())
}

// Whether a want fits at an address beside the blocks of other slots.
fn fits_beside(map: &BankMap, marks: &[BlockMark], slot: u16, want: &Want, to: u32) -> bool
    requires want { IsWant want.now }
    requires to { to ≤ 2 ^ 24 }
    requires small { want.now.size ≤ 2 ^ 24 }
    requires order { IsNonDecreasingBy (λ mark. mark.at) marks.now }
    requires once { AreOnce marks.now }
    requires sized { All IsSized marks.now }
    requires apart { AreMarksApart marks.now }
    ensures yes { IsTrue result → IsOpen map.now want.now to × LiesBeside marks.now slot to want.now.size }
    ensures no { result ≡ false → (¬ IsOpen map.now want.now to) ⊎ SharesByte marks.now slot to want.now.size }
{
    is_open(map, want, to) && lies_beside(marks, slot, to, want.size)
}

/// Moves a live handle's block, which is at an address, to another.
pub fn move_to(
    table: &mut Handles<Block>,
    layout: &mut BlockLayout,
    h: Handle,
    block: &Block,
    at: u32,
    to: u32,
)
    requires live { get table.old h ≡ Some block.now }
    requires there { block.now.at ≡ Some at }
    requires small { to + block.now.want.size ≤ 2 ^ 24 }
    requires laid { IsLayout table.old layout.old }
    ensures table { table.new ≡ with_value table.old h (record block.now { at = Some to }) }
    ensures laid { IsLayout table.new layout.new }
{
    let end = to + block.want.size;
    let moved = Block {
        at: Some(to),
        ..*block
    };
    set(table, h, moved);
    let mark = BlockMark {
        at: to,
        end,
        slot: h.slot,
    };
    lay_moved(layout, at, mark);
}

/// Moves a block that isn't locked to an address not above its own at which its kept want fits beside the other blocks, and
/// gives the block as it was.
pub fn shift_block(
    map: &BankMap,
    table: &mut Handles<Block>,
    layout: &mut BlockLayout,
    h: Handle,
    to: u32,
) -> Result<Block, ShiftFault>
    requires arranged { IsArranged map.now table.old }
    requires laid { IsLayout table.old layout.old }
    ensures was { IfOk result (λ block. get table.old h ≡ Some block) }
    ensures shifted { OnOk result (Shifts map.now table.old h to table.new) }
    ensures refused { IfErr result (IsShiftRefusal map.now table.old h to) }
    ensures err { OnErr result (table.new ≡ table.old) }
    ensures arranged { IsArranged map.now table.new }
    ensures laid { IsLayout table.new layout.new }
{
    let block = match table.look(h) {
        Ok(block) => *block,
        Err(Stale) => return Err(ShiftFault::Stale),
    };
    let Some(at) = block.at else {
        return Err(ShiftFault::Empty);
    };
    if block.locked {
        return Err(ShiftFault::Locked);
    }
    if at < to {
        return Err(ShiftFault::Higher);
    }
    if !fits_beside(map, &layout.marks, h.slot, &block.want, to) {
        return Err(ShiftFault::NoFit);
    }
    move_to(table, layout, h, &block, at, to);
    Ok(block)
}
