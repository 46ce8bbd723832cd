//! Blocks as the search for a place sees them.

ghost use Rattle.std.specs.Prelude.{◌≡◌, ◌++◌, ◌+◌, ◌^◌, ◌<◌, ◌≤◌, All, length, vec_len, vec_capacity};
ghost use Rattle.std.specs.List.{insert};
ghost use Rattle.std.specs.Option.{option_to_list};
ghost use Rattle.std.specs.List.Sorted.{IsPermutation, IsNonDecreasingBy};
ghost use Rattle.iigs_places.specs.Spots.{turn_of_unpurgeable, turn_of as turn_in_order, spot_in, turn_in as kept_turn, spots_of, turns_of, IsBounded, IsBoundedSlot, IsSurvey};

use iigs_handles::Handles;
use iigs_meaning::{Block, Slot, SlotContent};

/// A block that is there, or several with no byte between them.
#[derive(Clone, Copy)]
pub struct BlockSpot {
    /// The address of its first byte.
    pub at: u32,
    /// The address after its last byte.
    pub end: u32,
    /// A number that rises along the purge order, or `NEVER`.
    pub turn: u32,
}

/// The turn of a block that isn't purged.
pub const NEVER: u32 = u32::MAX;

/// The turn of a block.
#[tactic(auto, unfolding(iigs_meaning::specs::Placement::can_purge, crate::specs::Spots::turn_of))]
pub fn turn_of(block: &Block) -> u32
    requires bounded { IsBounded block.now }
    ensures { result ≡ turn_in_order block.now }
{
    let Some(at) = block.at else {
        return NEVER;
    };
    if block.locked || block.level == 0 {
        return NEVER;
    }
    u32::from(255 - block.level) * 0x100_0000 + at
}

fn spot_of(slot: &Slot<Block>) -> Option<BlockSpot>
    requires { IsBoundedSlot slot.now }
    ensures { result ≡ spot_in slot.now }
{
    let SlotContent::Used(block) = &slot.content else {
        return None;
    };
    let Some(at) = block.at else {
        return None;
    };
    Some(BlockSpot {
        at,
        end: at + block.want.size,
        turn: turn_of(block),
    })
}

/// Adds an item, if there is one, to a list that has room for it.
pub fn push_some<T: Drop>(items: &mut Vec<T>, item: Option<T>)
    requires { vec_len items.old < vec_capacity items.old }
    ensures items { items.new.items ≡ items.old.items ++ option_to_list item }
    ensures len { vec_len items.new ≤ vec_len items.old + 1 }
    ensures capacity { vec_capacity items.old ≤ vec_capacity items.new }
{
    if let Some(item) = item {
        items.push_reserved(item);
    }
}

/// Puts an item at a place of a list that has room for it.
pub fn insert_reserved<T: Drop>(items: &mut Vec<T>, place: usize, item: T)
    requires place { place ≤ vec_len items.old }
    requires room { vec_len items.old < vec_capacity items.old }
    ensures items { items.new.items ≡ insert items.old.items place item }
    ensures len { vec_len items.new ≡ vec_len items.old + 1 }
    ensures capacity { vec_capacity items.old ≤ vec_capacity items.new }
{
    match items.insert(place, item) {
        Ok(()) => {}
        Err(_) => unreachable!(),
    }
}

// The blocks that are there, in the order of their slots.

#[tactic(auto, unfolding(crate::specs::Spots::spots_of))]
fn gather_spots(slots: &[Slot<Block>], spots: &mut Vec<BlockSpot>)
    requires bounded { All IsBoundedSlot slots.now }
    requires room { length slots.now ≤ vec_capacity spots.old }
    ensures items { spots.new.items ≡ spots_of slots.now }
    ensures capacity { vec_capacity spots.old ≤ vec_capacity spots.new }
{
    spots.clear();
    for slot in slots {
        push_some(spots, spot_of(slot));
    }
}

// Those of a table. Slots that were never used have none.
fn gather_all(table: &Handles<Block>, spots: &mut Vec<BlockSpot>)
    requires bounded { All IsBoundedSlot table.now }
    requires room { 4096 ≤ vec_capacity spots.old }
    ensures items { spots.new.items ≡ spots_of table.now }
    ensures few { length spots.new.items ≤ 4096 }
    ensures capacity { vec_capacity spots.old ≤ vec_capacity spots.new }
{
    gather_spots(&table.slots()[..table.end()], spots);
}

fn turn_in(spot: &BlockSpot) -> Option<u32>
    ensures { result ≡ kept_turn spot.now }
{
    if spot.turn < NEVER {
        Some(spot.turn)
    } else {
        None
    }
}

// The turns of the blocks that may be purged, in the order of the blocks.

#[tactic(auto, unfolding(crate::specs::Spots::turns_of))]
fn gather_turns(spots: &[BlockSpot], turns: &mut Vec<u32>)
    requires room { length spots.now ≤ vec_capacity turns.old }
    ensures items { turns.new.items ≡ turns_of spots.now }
    ensures capacity { vec_capacity turns.old ≤ vec_capacity turns.new }
{
    turns.clear();
    for spot in spots {
        push_some(turns, turn_in(spot));
    }
}

/// Gathers the blocks that are there, in order of address, and the turns of those that may be purged, in order.
pub fn gather_blocks(table: &Handles<Block>, spots: &mut Vec<BlockSpot>, turns: &mut Vec<u32>)
    requires bounded { All IsBoundedSlot table.now }
    requires spots_room { 4096 ≤ vec_capacity spots.old }
    requires turns_room { 4096 ≤ vec_capacity turns.old }
    ensures surveyed { IsSurvey table.now spots.new.items turns.new.items }
    ensures spots_capacity { vec_capacity spots.old ≤ vec_capacity spots.new }
    ensures turns_capacity { vec_capacity turns.old ≤ vec_capacity turns.new }
{
    gather_all(table, spots);
    spots.sort_unstable_by_key(|spot| spot.at);
    gather_turns(spots, turns);
    turns.sort_unstable();
}
