//! Places of blocks among banks.

ghost use Rattle.std.specs.Prelude.{◌≡◌, ◌≢◌, ◌+◌, ◌-◌, ◌<◌, ◌≤◌, ◌^◌, ℕ, [], false, All, MatchOption, IsSome, IsSomeAnd, IsTrue, Some, IfSome, IfOk, IfErr, OnErr, OnOk, length, count_by, sum_by, map, vec_capacity};
ghost use Rattle.std.specs.Option.{option_map_or};
ghost use Rattle.std.specs.Result.{result_ok};
ghost use Rattle.iigs_meaning.specs.declared.handles.Handle as declared;
ghost use Rattle.iigs_meaning.specs.Slots.{get, slot_at, with_value, after_release, is_free};
ghost use Rattle.iigs_meaning.specs.Fits.{IsWant, Fits, HoldsByte, block_in};
ghost use Rattle.iigs_meaning.specs.Placement.{emptied_where, slots_after_purges, count_purgeable as purgeable_of};
ghost use Rattle.iigs_meaning.specs.Slide.{Slides, AreSettled};
ghost use Rattle.iigs_meaning.specs.Moves.{count_there, IsNth, Empties, IsEmptyRefusal, Shifts, IsShiftRefusal};
ghost use Rattle.iigs_meaning.specs.Puts.{Purges, IsPlaceRefusal, IsReplaceRefusal, IsPlaceAllRefusal, slots_for};
ghost use Rattle.iigs_meaning.specs.Blocks.{new_slots, can_purge_of, address_in};
ghost use Rattle.iigs_meaning.specs.Banks.{AreDistinctTo, IsBanksRefusal};
ghost use Rattle.iigs_meaning.specs.Room.{CountsBelow, IsRoom};
ghost use Rattle.iigs_places.specs.Offsets.{bytes_below, offset_of};
ghost use Rattle.iigs_places.specs.Sizes.{free_below, lasting_in};
ghost use Rattle.iigs_places.specs.Arranged.{IsArranged};
ghost use Rattle.iigs_places.specs.Table.{IsPut, IsReput};
ghost use Rattle.iigs_places.specs.Alls.{AllPut};
ghost use Rattle.iigs_places.specs.Fixed.{NeverFits};
ghost use Rattle.iigs_places.specs.Tried.{FitsNowhereSlid};

use crate::bank_map::BankMap;
use crate::fixed::gather_fixed;
use crate::layout::{BlockLayout, join, lay_all, lay_less, new_layout};
use crate::marks::{first_from, last_mark};
use crate::moves::{count_purgeable, empty_block, purge_first, shift_block};
use crate::search::least_among;
use crate::slide::slide_all;
use crate::spots::BlockSpot;
use crate::table::{
    PlacedBlock, lasting_bytes, purge_user, put_all, put_block, replace_block, set, start_plan,
    used_bytes,
};
use crate::tried::gather_slid;
use iigs_handles::{Handles, HandlesFault, SLOTS};
use iigs_meaning::{
    BanksFault, Block, EmptyFault, Handle, PlaceFault, ShiftFault, SlotContent, Stale, Want,
};
use std::alloc::{AllocError, Global};
use std::marker::Model;

/// Where blocks lie among banks, under handles.
#[derive(Drop)]
pub struct BlockPlaces {
    map: BankMap,
    table: Handles<Block>,
    layout: BlockLayout,
    // Scratch space for a search.
    spots: Vec<BlockSpot>,
    turns: Vec<u32>,
}

impl Model for BlockPlaces {
    ghost use Rattle.iigs_places.specs.Arranged.{Arrangement};

    ghost Value = { Arrangement };

    ghost use Rattle.std.specs.Prelude.{◌≤◌, vec_capacity};
    ghost use Rattle.iigs_places.specs.Arranged.{IsArranged};
    ghost use Rattle.iigs_places.specs.Runs.{IsLayout};

    ghost view = { λ s. record { banks = s.map; slots = s.table } };

    ghost invariant = { λ s. IsArranged s.map s.table × IsLayout s.table s.layout
        × (4096 ≤ vec_capacity s.spots) × (4096 ≤ vec_capacity s.turns) };
}

fn scratch<T>(alloc: Global, count: usize) -> Result<Vec<T>, AllocError>
    ensures { IfOk result (λ items. count ≤ vec_capacity items) }
{
    Vec::with_capacity(alloc, count)
}

#[tactic(auto, unfolding(iigs_meaning::specs::Blocks::new_slots))]
fn table(alloc: Global) -> Result<Handles<Block>, AllocError>
    ensures { IfOk result (λ table. table ≡ new_slots) }
{
    match Handles::new(alloc) {
        Ok(table) => Ok(table),
        Err(HandlesFault::Memory) => Err(AllocError),
    }
}

// What `new` makes beside the map of the banks.
fn parts(alloc: Global, map: BankMap) -> Result<BlockPlaces, AllocError>
    requires { All (λ bank. bank < 256) map }
    ensures { IfOk result (λ places. (places.banks ≡ map) × (places.slots ≡ new_slots)) }
{
    Ok(BlockPlaces {
        map,
        table: table(alloc)?,
        layout: new_layout(alloc)?,
        spots: scratch(alloc, SLOTS)?,
        turns: scratch(alloc, SLOTS)?,
    })
}

impl BlockPlaces {
    ghost use Rattle.iigs_places.specs.Holder.{Has, IsHolder};
    ghost use Rattle.iigs_places.specs.Lowest.{IsFirstPut};

    /// The places of these banks, without blocks. It takes all the memory that it ever takes.
    pub fn new(alloc: Global, banks: &[u8]) -> Result<BlockPlaces, BanksFault>
        ensures made { IfOk result (λ places. (places.banks ≡ banks.now) × (places.slots ≡ new_slots)) }
        ensures some { OnOk result (banks.now ≢ []) }
        ensures distinct { OnOk result (AreDistinctTo (length banks.now) banks.now) }
        ensures refused { IfErr result (IsBanksRefusal banks.now) }
    {
        let map = BankMap::new(alloc, banks)?;
        match parts(alloc, map) {
            Ok(places) => Ok(places),
            Err(_) => Err(BanksFault::Memory),
        }
    }

    /// Blocks lie apart in free memory of the banks.
    pub fn know_arranged(&self)
        ensures { IsArranged self.now.banks self.now.slots }
    {
        let _map = &self.map;
    }

    /// How many bytes the configured banks have.
    pub fn size(&self) -> usize
        ensures { result ≡ bytes_below self.now.banks 256 }
    {
        self.map.size()
    }

    /// How many bytes the configured banks have before an address.
    pub fn offset(&self, address: u32) -> usize
        requires { address < 2 ^ 24 }
        ensures value { result ≡ offset_of self.now.banks address }
        ensures small { result < 2 ^ 25 }
    {
        self.map.offset(address)
    }

    /// The block of a live handle, whether it is there or was purged.
    pub fn look(&self, h: Handle) -> Result<Block, Stale>
        ensures { result_ok result ≡ get self.now.slots h }
    {
        match self.table.look(h) {
            Ok(block) => Ok(*block),
            Err(Stale) => Err(Stale),
        }
    }

    // The handle of a slot whose block has the byte at an address.
    fn held_at(&self, place: u16, address: u32) -> Option<Handle>
        requires { place < 4096 }
        ensures { MatchOption result (¬ HoldsByte address (slot_at self.now.slots place)) (λ h. (h.slot ≡ place) × Has self.now.slots address h) }
    {
        let slot = &self.table.slots()[usize::from(place)];
        let SlotContent::Used(block) = &slot.content else {
            return None;
        };
        let Some(at) = block.at else {
            return None;
        };
        if at <= address && address - at < block.want.size {
            return Some(Handle {
                slot: place,
                generation: slot.generation,
            });
        }
        None
    }

    /// The handle of the block that has the byte at an address.
    pub fn holder(&self, address: u32) -> Option<Handle>
        ensures { MatchOption result ((h : declared.Handle) → ¬ Has self.now.slots address h) (IsHolder self.now.slots address) }
    {
        match last_mark(&self.layout.marks, address) {
            Some(mark) => self.held_at(mark.slot, address),
            None => None,
        }
    }

    /// Puts a block in the place of a live handle's, with its place and size.
    pub fn set(&mut self, h: Handle, block: Block)
        requires same { IsSomeAnd (get self.old.slots h) (λ old. (block.at ≡ old.at) × (block.want ≡ old.want)) }
        requires level { block.level < 256 }
        ensures { self.new ≡ record self.old { slots = with_value self.old.slots h block } }
    {
        set(&mut self.table, h, block);
    }

    /// Releases a handle, and with it its block.
    pub fn release(&mut self, h: Handle) -> Result<(), Stale>
        ensures live { OnOk result (IsSome (get self.old.slots h)) }
        ensures released { OnOk result (self.new ≡ record self.old { slots = after_release self.old.slots h }) }
        ensures stale { OnErr result (get self.old.slots h ≡ None) }
        ensures err { OnErr result (self.new ≡ self.old) }
    {
        let Ok(block) = self.table.release(h) else {
            return Err(Stale);
        };
        lay_less(&mut self.layout, h.slot, block.at.unwrap_or(0));
        Ok(())
    }

    /// Purges the purgeable blocks of a user, and counts them.
    pub fn purge_user(&mut self, user: u16) -> u32
        ensures after { self.new ≡ record self.old { slots = map (emptied_where (can_purge_of user)) self.old.slots } }
        ensures count { result ≡ count_by (λ slot. option_map_or (can_purge_of user) (block_in slot) false) self.old.slots }
    {
        let count = purge_user(&mut self.table, user);
        lay_all(&mut self.layout, &self.table);
        count
    }

    /// Places a block under a new handle. Blocks are purged for it as needed.
    pub fn place(
        &mut self,
        want: &Want,
        user: u16,
        locked: bool,
        level: u8,
        movable: bool,
    ) -> Result<PlacedBlock, PlaceFault>
        requires want { IsWant want.now }
        ensures put { IfOk result (λ put. IsPut self.old.banks self.old.slots want.now user locked level movable put self.new.slots) }
        ensures banks { self.new.banks ≡ self.old.banks }
        ensures refused { IfErr result (IsPlaceRefusal Purges self.old.banks self.old.slots want.now) }
        ensures err { OnErr result (self.new ≡ self.old) }
    {
        put_block(
            &self.map,
            &mut self.table,
            &mut self.layout,
            &mut self.spots,
            &mut self.turns,
            want,
            user,
            locked,
            level,
            movable,
        )
    }

    /// Places an empty block anew under its handle, and gives the address. It keeps its user, level and lock, and
    /// isn't movable.
    pub fn replace(&mut self, h: Handle, want: &Want) -> Result<u32, PlaceFault>
        requires want { IsWant want.now }
        ensures put { IfOk result (λ address. IsReput self.old.banks self.old.slots h want.now address self.new.slots) }
        ensures banks { self.new.banks ≡ self.old.banks }
        ensures refused { IfErr result (IsReplaceRefusal Purges self.old.banks self.old.slots h want.now) }
        ensures err { OnErr result (self.new ≡ self.old) }
    {
        replace_block(
            &self.map,
            &mut self.table,
            &mut self.layout,
            &mut self.spots,
            &mut self.turns,
            h,
            want,
        )
    }

    /// Takes over the blocks of others among the same banks; with `fresh` without those of a user, whose handles are
    /// released.
    pub fn start_from(&mut self, other: &BlockPlaces, user: u16, fresh: bool)
        requires { self.old.banks ≡ other.now.banks }
        ensures { self.new ≡ record self.old { slots = slots_for other.now.slots user fresh } }
    {
        start_plan(&mut self.table, &other.table, user, fresh);
        lay_all(&mut self.layout, &self.table);
    }

    /// How many slots are free.
    pub fn left(&self) -> u32
        ensures { result ≡ count_by is_free self.now.slots }
    {
        self.table.left()
    }

    /// Places blocks for these wants in order, locked with level 0, and stores in `made` where they are. Where one has no room those before
    /// it are placed.
    pub fn place_all(
        &mut self,
        user: u16,
        wants: &[Want],
        made: &mut Vec<PlacedBlock>,
    ) -> Result<(), PlaceFault>
        requires wants { All IsWant wants.now }
        requires free { length wants.now ≤ count_by is_free self.old.slots }
        requires room { 4096 ≤ vec_capacity made.old }
        ensures put { OnOk result (AllPut self.old.banks user self.old.slots wants.now made.new.items self.new.slots) }
        ensures banks { self.new.banks ≡ self.old.banks }
        ensures refused { IfErr result (IsPlaceAllRefusal Purges self.old.banks user self.old.slots wants.now) }
        ensures capacity { vec_capacity made.old ≤ vec_capacity made.new }
    {
        put_all(
            &self.map,
            &mut self.table,
            &mut self.layout,
            &mut self.spots,
            &mut self.turns,
            made,
            user,
            wants,
        )
    }

    /// How many blocks are there.
    pub fn count(&self) -> u32
        ensures { result ≡ count_there self.now.slots }
    {
        self.layout.marks.len() as u32
    }

    // The handle of a slot.
    fn handle_in(&self, slot: u16) -> Handle
        requires { slot < 4096 }
        ensures { (result.slot ≡ slot) × (result.generation ≡ (slot_at self.now.slots slot).generation) }
    {
        Handle {
            slot,
            generation: self.table.slots()[usize::from(slot)].generation,
        }
    }

    /// The handle of the block at a place, from 0, in order of address.
    pub fn nth(&self, place: u32) -> Option<Handle>
        ensures { MatchOption result (count_there self.now.slots ≤ place) (IsNth self.now.slots place) }
    {
        match self.layout.marks.get(place as usize) {
            Some(mark) => Some(self.handle_in(mark.slot)),
            None => None,
        }
    }

    /// The lowest block from an address on.
    pub fn first_from(&self, address: u32) -> Option<PlacedBlock>
        ensures found { MatchOption result ((place at : ℕ) → address_in (slot_at self.now.slots place) ≡ Some at → at < address) (IsFirstPut self.now.slots address) }
        ensures small { IfSome result (λ put. put.at < 2 ^ 24) }
    {
        match first_from(&self.layout.marks, address) {
            Some(mark) => Some(PlacedBlock {
                handle: self.handle_in(mark.slot),
                at: mark.at,
            }),
            None => None,
        }
    }

    /// How many blocks may be purged.
    pub fn purgeable(&self) -> u32
        ensures value { result ≡ purgeable_of self.now.slots }
        ensures small { result ≤ 4096 }
    {
        count_purgeable(self.table.slots())
    }

    /// Empties the first `count` purgeable blocks, whose handles stay.
    pub fn purge_first(&mut self, count: u32)
        ensures { self.new ≡ record self.old { slots = slots_after_purges self.old.slots count } }
    {
        purge_first(
            &mut self.table,
            &mut self.layout,
            &mut self.spots,
            &mut self.turns,
            count,
        );
    }

    /// Empties a purgeable block. Its handle stays.
    pub fn empty(&mut self, h: Handle) -> Result<(), EmptyFault>
        ensures emptied { OnOk result (Empties self.old.slots h self.new.slots) }
        ensures banks { self.new.banks ≡ self.old.banks }
        ensures refused { IfErr result (IsEmptyRefusal self.old.slots h) }
        ensures err { OnErr result (self.new ≡ self.old) }
    {
        empty_block(&mut self.table, &mut self.layout, h)
    }

    /// Moves a block that isn't locked to an address not above its own at which its kept want fits beside the other
    /// blocks, and gives the block as it was.
    pub fn shift(&mut self, h: Handle, to: u32) -> Result<Block, ShiftFault>
        ensures was { IfOk result (λ block. get self.old.slots h ≡ Some block) }
        ensures shifted { OnOk result (Shifts self.old.banks self.old.slots h to self.new.slots) }
        ensures banks { self.new.banks ≡ self.old.banks }
        ensures refused { IfErr result (IsShiftRefusal self.old.banks self.old.slots h to) }
        ensures err { OnErr result (self.new ≡ self.old) }
    {
        shift_block(&self.map, &mut self.table, &mut self.layout, h, to)
    }

    /// Slides the movable blocks down.
    pub fn slide(&mut self)
        requires { AreSettled self.old.banks self.old.slots }
        ensures slides { Slides self.old.banks self.old.slots self.new.slots }
        ensures banks { self.new.banks ≡ self.old.banks }
    {
        slide_all(
            &self.map,
            &mut self.table,
            &mut self.layout,
            &mut self.spots,
        );
    }

    /// Whether a want fits anywhere beside all blocks.
    pub fn has_room(&mut self, want: &Want) -> bool
        requires { IsWant want.now }
        ensures yes { IsTrue result → (address : ℕ) × Fits self.old.banks self.old.slots want.now address }
        ensures no { result ≡ false → (address : ℕ) → ¬ Fits self.old.banks self.old.slots want.now address }
        ensures same { self.new ≡ self.old }
    {
        join(&mut self.layout);
        least_among(&self.map, want, &self.layout.runs, 0).is_some()
    }

    /// Whether a want fits anywhere beside the blocks that no slide moves, whatever other blocks are there too: those that stay,
    /// and those that fit nowhere lower beside the ones of these below them.
    pub fn may_fit(&mut self, want: &Want) -> bool
        requires { IsWant want.now }
        ensures no { result ≡ false → NeverFits self.old.banks self.old.slots want.now }
        ensures same { self.new ≡ self.old }
    {
        gather_fixed(&self.map, &self.table, &self.layout, &mut self.spots);
        least_among(&self.map, want, &self.spots, 0).is_some()
    }

    /// Whether a want fits anywhere once the movable blocks are slid down. None is moved.
    pub fn fits_slid(&mut self, want: &Want) -> bool
        requires want { IsWant want.now }
        requires settled { AreSettled self.old.banks self.old.slots }
        ensures no { result ≡ false → FitsNowhereSlid self.old.banks self.old.slots want.now }
        ensures same { self.new ≡ self.old }
    {
        gather_slid(&self.map, &self.table, &self.layout, &mut self.spots);
        least_among(&self.map, want, &self.spots, 0).is_some()
    }

    /// How many bytes of free memory lie in no block.
    pub fn room(&self) -> u32
        ensures counts { CountsBelow (IsRoom self.now.banks self.now.slots) (2 ^ 24) result }
        ensures only { (other : ℕ) → CountsBelow (IsRoom self.now.banks self.now.slots) (2 ^ 24) other → other ≡ result }
        ensures all { (address : ℕ) → IsRoom self.now.banks self.now.slots address → address < 2 ^ 24 }
    {
        let free = self.map.free_bytes();
        let used = used_bytes(&self.table);
        free - used as u32
    }

    /// How many bytes of free memory lie in no block, once all purgeable blocks are purged.
    pub fn most_room(&self) -> u32
        ensures { result + sum_by lasting_in self.now.slots ≡ free_below self.now.banks 256 }
    {
        let free = self.map.free_bytes();
        let lasting = lasting_bytes(&self.table);
        free - lasting as u32
    }
}
