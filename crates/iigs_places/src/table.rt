//! Changes of a table of blocks under handles: what is emptied, released and placed.

ghost use Rattle.std.specs.Prelude.{◌≡◌, ◌<◌, ◌≤◌, true, false, All, map, length, count_by, sum_by, ◌^◌, slice_set, vec_capacity, IsSome, IfOk, IfErr, OnErr, OnOk, nat_lt};
ghost use Rattle.std.specs.Option.{option_map_or};
ghost use Rattle.iigs_meaning.specs.Slots.{is_free, slot_at, get, with_value, new_handle};
ghost use Rattle.iigs_meaning.specs.Fits.{IsWant, block_in};
ghost use Rattle.iigs_meaning.specs.Placement.{emptied_where, can_purge};
ghost use Rattle.iigs_meaning.specs.Puts.{Purges, IsPlaceRefusal, IsReplaceRefusal, IsPlaceAllRefusal, without_user, without_user_in, slots_for};
ghost use Rattle.iigs_meaning.specs.Blocks.{can_purge_of};
ghost use Rattle.iigs_places.specs.Sizes.{size_in, lasting_in};
ghost use Rattle.iigs_places.specs.Spots.{turn_of as turn_in_order, IsBoundedSlot};
ghost use Rattle.iigs_places.specs.Alls.{AllPut};
ghost use Rattle.iigs_places.specs.Table.{IsPut, IsReput};
ghost use Rattle.iigs_places.specs.Runs.{IsLayout};
ghost use Rattle.iigs_places.specs.Arranged.{IsArranged};

use crate::bank_map::BankMap;
use crate::layout::{BlockLayout, join, lay_put};
use crate::marks::BlockMark;
use crate::search::find;
use crate::spots::{BlockSpot, turn_of};
use iigs_handles::Handles;
use iigs_meaning::{Block, Handle, PlaceFault, Slot, SlotContent, Stale, Want};

/// Puts a block in the place of a live handle's.
pub fn set(table: &mut Handles<Block>, h: Handle, block: Block)
    requires { IsSome (get table.old h) }
    ensures { table.new ≡ with_value table.old h block }
{
    match table.change(h) {
        Ok(value) => *value = block,
        Err(Stale) => unreachable!(),
    }
}

// Empties the block in a slot.
fn empty_slot(table: &mut Handles<Block>, place: usize)
    requires place { place < 4096 }
    ensures { table.new ≡ slice_set table.old place (emptied_where (λ block. true) (slot_at table.old place)) }
{
    let slot = &table.slots()[place];
    if let SlotContent::Used(block) = &slot.content {
        let block = Block { at: None, ..*block };
        let h = Handle {
            slot: place as u16,
            generation: slot.generation,
        };
        set(table, h, block);
    }
}

// Whether the block in a slot has a turn below the limit.
fn is_below(table: &Handles<Block>, place: usize, limit: u32) -> bool
    requires place { place < 4096 }
    requires bounded { IsBoundedSlot (slot_at table.now place) }
    ensures { result ≡ option_map_or (λ block. nat_lt (turn_in_order block) limit) (block_in (slot_at table.now place)) false }
{
    let SlotContent::Used(block) = &table.slots()[place].content else {
        return false;
    };
    turn_of(block) < limit
}

/// Empties the blocks with a turn below the limit.
pub fn empty_below(table: &mut Handles<Block>, limit: u32)
    requires bounded { All IsBoundedSlot table.old }
    ensures { table.new ≡ map (emptied_where (λ block. nat_lt (turn_in_order block) limit)) table.old }
{
    if limit == 0 {
        return;
    }
    for place in 0..table.slots().len() {
        if is_below(table, place, limit) {
            empty_slot(table, place);
        }
    }
}

/// A block that was placed: its handle and its address.
#[derive(Clone, Copy)]
pub struct PlacedBlock {
    pub handle: Handle,
    pub at: u32,
}

// Releases the handle of a slot whose block is the user's.
fn release_slot(table: &mut Handles<Block>, place: usize, user: u16)
    requires place { place < 4096 }
    ensures { table.new ≡ slice_set table.old place (without_user_in user (slot_at table.old place)) }
{
    let slot = &table.slots()[place];
    if let SlotContent::Used(block) = &slot.content {
        if block.user == user {
            let h = Handle {
                slot: place as u16,
                generation: slot.generation,
            };
            match table.release(h) {
                Ok(_) => {}
                Err(Stale) => unreachable!(),
            }
        }
    }
}

/// Releases all handles of a user.
pub fn release_user(table: &mut Handles<Block>, user: u16)
    ensures { table.new ≡ without_user table.old user }
{
    for place in 0..table.slots().len() {
        release_slot(table, place, user);
    }
}

// Whether the block in a slot is a purgeable one of the user's.
fn is_purgeable(table: &Handles<Block>, place: usize, user: u16) -> bool
    requires place { place < 4096 }
    ensures { result ≡ option_map_or (can_purge_of user) (block_in (slot_at table.now place)) false }
{
    let SlotContent::Used(block) = &table.slots()[place].content else {
        return false;
    };
    can_be_purged(block) && block.user == user
}

/// Whether a block is purgeable.
#[tactic(auto, unfolding(iigs_meaning::specs::Placement::can_purge))]
pub fn can_be_purged(block: &Block) -> bool
    ensures { result ≡ can_purge block.now }
{
    block.at.is_some() && !block.locked && block.level != 0
}

/// Empties the purgeable blocks of a user, and counts them.
pub fn purge_user(table: &mut Handles<Block>, user: u16) -> u32
    ensures after { table.new ≡ map (emptied_where (can_purge_of user)) table.old }
    ensures count { result ≡ count_by (λ slot. option_map_or (can_purge_of user) (block_in slot) false) table.old }
{
    let mut count = 0;
    for place in 0..table.slots().len() {
        if is_purgeable(table, place, user) {
            empty_slot(table, place);
            count += 1;
        }
    }
    count
}

/// Puts a block where its want goes, under a new handle. Blocks are purged for it as needed. `layout` is that of the
/// table; `spots` and `turns` are scratch space.
pub fn put_block(
    map: &BankMap,
    table: &mut Handles<Block>,
    layout: &mut BlockLayout,
    spots: &mut Vec<BlockSpot>,
    turns: &mut Vec<u32>,
    want: &Want,
    user: u16,
    locked: bool,
    level: u8,
    movable: bool,
) -> Result<PlacedBlock, PlaceFault>
    requires want { IsWant want.now }
    requires arranged { IsArranged map.now table.old }
    requires laid { IsLayout table.old layout.old }
    requires spots_room { 4096 ≤ vec_capacity spots.old }
    requires turns_room { 4096 ≤ vec_capacity turns.old }
    ensures put { IfOk result (λ put. IsPut map.now table.old want.now user locked level movable put table.new) }
    ensures refused { IfErr result (IsPlaceRefusal Purges map.now table.old want.now) }
    ensures err { OnErr result (table.new ≡ table.old) }
    ensures arranged { IsArranged map.now table.new }
    ensures laid { IsLayout table.new layout.new }
    ensures spots_capacity { vec_capacity spots.old ≤ vec_capacity spots.new }
    ensures turns_capacity { vec_capacity turns.old ≤ vec_capacity turns.new }
{
    if table.left() == 0 {
        return Err(PlaceFault::NoHandle);
    }
    join(layout);
    let Some(found) = find(map, want, table, layout, spots, turns) else {
        return Err(PlaceFault::NoRoom(0));
    };
    let end = found.at + want.size;
    empty_below(table, found.limit);
    let block = Block {
        at: Some(found.at),
        want: *want,
        user,
        locked,
        level,
        movable,
    };
    let handle = match table.take(block) {
        Ok(handle) => handle,
        Err(_) => unreachable!(),
    };
    let mark = BlockMark {
        at: found.at,
        end,
        slot: handle.slot,
    };
    lay_put(layout, table, mark, found.limit);
    Ok(PlacedBlock {
        handle,
        at: found.at,
    })
}

/// Puts an empty block anew where its want goes, and gives the address. `layout` is that of the table.
pub fn replace_block(
    map: &BankMap,
    table: &mut Handles<Block>,
    layout: &mut BlockLayout,
    spots: &mut Vec<BlockSpot>,
    turns: &mut Vec<u32>,
    h: Handle,
    want: &Want,
) -> Result<u32, PlaceFault>
    requires want { IsWant want.now }
    requires arranged { IsArranged map.now table.old }
    requires laid { IsLayout table.old layout.old }
    requires spots_room { 4096 ≤ vec_capacity spots.old }
    requires turns_room { 4096 ≤ vec_capacity turns.old }
    ensures put { IfOk result (λ address. IsReput map.now table.old h want.now address table.new) }
    ensures refused { IfErr result (IsReplaceRefusal Purges map.now table.old h want.now) }
    ensures err { OnErr result (table.new ≡ table.old) }
    ensures arranged { IsArranged map.now table.new }
    ensures laid { IsLayout table.new layout.new }
    ensures spots_capacity { vec_capacity spots.old ≤ vec_capacity spots.new }
    ensures turns_capacity { vec_capacity turns.old ≤ vec_capacity turns.new }
{
    let block = match table.look(h) {
        Ok(block) => *block,
        Err(Stale) => return Err(PlaceFault::Stale),
    };
    if block.at.is_some() {
        return Err(PlaceFault::NotEmpty);
    }
    join(layout);
    let Some(found) = find(map, want, table, layout, spots, turns) else {
        return Err(PlaceFault::NoRoom(0));
    };
    let end = found.at + want.size;
    empty_below(table, found.limit);
    let block = Block {
        at: Some(found.at),
        want: *want,
        movable: false,
        ..block
    };
    set(table, h, block);
    let mark = BlockMark {
        at: found.at,
        end,
        slot: h.slot,
    };
    lay_put(layout, table, mark, found.limit);
    Ok(found.at)
}

fn size_of(slot: &Slot<Block>) -> u32
    requires { IsBoundedSlot slot.now }
    ensures value { result ≡ size_in slot.now }
    ensures small { result ≤ 2 ^ 24 }
{
    let SlotContent::Used(block) = &slot.content else {
        return 0;
    };
    if block.at.is_none() {
        return 0;
    }
    block.want.size
}

// How many bytes the blocks that are there in these slots have.
fn bytes_in(slots: &[Slot<Block>]) -> u64
    requires bounded { All IsBoundedSlot slots.now }
    requires few { length slots.now ≤ 4096 }
    ensures { result ≡ sum_by size_in slots.now }
{
    let mut total = 0;
    for slot in slots {
        total += u64::from(size_of(slot));
    }
    total
}

/// How many bytes the blocks that are there have. Slots that were never used have none.
pub fn used_bytes(table: &Handles<Block>) -> u64
    requires { All IsBoundedSlot table.now }
    ensures { result ≡ sum_by size_in table.now }
{
    bytes_in(&table.slots()[..table.end()])
}

fn lasting_of(slot: &Slot<Block>) -> u32
    requires { IsBoundedSlot slot.now }
    ensures value { result ≡ lasting_in slot.now }
    ensures small { result ≤ 2 ^ 24 }
{
    if let SlotContent::Used(block) = &slot.content {
        if can_be_purged(block) {
            return 0;
        }
    }
    size_of(slot)
}

// How many bytes the blocks in these slots have that aren't purgeable.
fn lasting_among(slots: &[Slot<Block>]) -> u64
    requires bounded { All IsBoundedSlot slots.now }
    requires few { length slots.now ≤ 4096 }
    ensures { result ≡ sum_by lasting_in slots.now }
{
    let mut total = 0;
    for slot in slots {
        total += u64::from(lasting_of(slot));
    }
    total
}

/// How many bytes the blocks have that are there and aren't purgeable. Slots that were never used have none.
pub fn lasting_bytes(table: &Handles<Block>) -> u64
    requires { All IsBoundedSlot table.now }
    ensures { result ≡ sum_by lasting_in table.now }
{
    lasting_among(&table.slots()[..table.end()])
}

/// Places blocks for these wants in order, locked with level 0. `layout` is that of the table. `made` says where they are; it, `spots` and
/// `turns` are scratch space.
pub fn put_all(
    map: &BankMap,
    table: &mut Handles<Block>,
    layout: &mut BlockLayout,
    spots: &mut Vec<BlockSpot>,
    turns: &mut Vec<u32>,
    made: &mut Vec<PlacedBlock>,
    user: u16,
    wants: &[Want],
) -> Result<(), PlaceFault>
    requires wants { All IsWant wants.now }
    requires arranged { IsArranged map.now table.old }
    requires laid { IsLayout table.old layout.old }
    requires free { length wants.now ≤ count_by is_free table.old }
    requires few { length wants.now ≤ 4096 }
    requires spots_room { 4096 ≤ vec_capacity spots.old }
    requires turns_room { 4096 ≤ vec_capacity turns.old }
    requires made_room { 4096 ≤ vec_capacity made.old }
    ensures put { OnOk result (AllPut map.now user table.old wants.now made.new.items table.new) }
    ensures refused { IfErr result (IsPlaceAllRefusal Purges map.now user table.old wants.now) }
    ensures arranged { IsArranged map.now table.new }
    ensures laid { IsLayout table.new layout.new }
    ensures spots_capacity { vec_capacity spots.old ≤ vec_capacity spots.new }
    ensures turns_capacity { vec_capacity turns.old ≤ vec_capacity turns.new }
    ensures made_capacity { vec_capacity made.old ≤ vec_capacity made.new }
{
    made.clear();
    for place in 0..wants.len() {
        match put_block(
            map,
            table,
            layout,
            spots,
            turns,
            &wants[place],
            user,
            true,
            0,
            false,
        ) {
            Ok(put) => made.push_reserved(put),
            Err(PlaceFault::NoRoom(_)) => return Err(PlaceFault::NoRoom(place as u32)),
            Err(PlaceFault::NoHandle) => unreachable!(),
            Err(PlaceFault::NotEmpty) => unreachable!(),
            Err(PlaceFault::Stale) => unreachable!(),
            Err(PlaceFault::Memory) => unreachable!(),
        }
    }
    Ok(())
}

/// Takes over a table for a plan; with `fresh` without the user's handles.
pub fn start_plan(plan: &mut Handles<Block>, table: &Handles<Block>, user: u16, fresh: bool)
    ensures { plan.new ≡ slots_for table.now user fresh }
{
    plan.copy_from(table);
    if fresh {
        release_user(plan, user);
    }
}
