//! Memory of banks.

ghost use Rattle.std.specs.Prelude.{◌≡◌, ◌++◌, ◌+◌, All, vec_len, vec_capacity, ◌<◌, ◌≤◌, ◌^◌, ℕ, List, ◌-◌, length, take, drop, replicate, slice_set, IsSomeAnd, IsSome, IfOk, IfErr, OnErr, OnOk, [], true, false};
ghost use Rattle.std.specs.Option.{option_map};
ghost use Rattle.std.specs.Result.{result_ok};
ghost use Rattle.std.specs.Borrow.{sem};
ghost use Rattle.std.specs.Prelude.{MatchOption};
ghost use Rattle.iigs_meaning.specs.declared.handles.Handle as declared;
ghost use Rattle.iigs_meaning.specs.Slots.{get, slot_at, with_value};
ghost use Rattle.iigs_meaning.specs.Fits.{IsWant, HoldsByte};
ghost use Rattle.iigs_meaning.specs.Puts.{Purges, IsPlaceRefusal, IsReplaceRefusal, IsPlaceAllRefusal, slots_for};
ghost use Rattle.iigs_meaning.specs.Blocks.{IsBlockRefusal, IsStale, AreApart, new_slots, state_of};
ghost use Rattle.iigs_meaning.specs.Banks.{IsBanksRefusal};
ghost use Rattle.iigs_meaning.specs.Memory.{bytes_at, IsBorrowed, KeepsBut, Changes, IsFreed, IsPurged, IsPlaced, AreAllPlaced, IsReplaced, IsNew};
ghost use Rattle.iigs_meaning.specs.Placement.{slots_after_purges};
ghost use Rattle.iigs_meaning.specs.Moves.{count_there, IsNth, IsEmptied, IsEmptyRefusal, IsShifted, IsShiftRefusal};
ghost use Rattle.iigs_meaning.specs.Room.{CountsBelow, IsRoom};

use crate::part::BlockPart;
use crate::placed::{clear, clear_all, copy_bytes, give};
use iigs_handles::SLOTS;
use iigs_meaning::{
    BanksFault, Block, BlockFault, BlockState, EmptyFault, Handle, PlaceFault, ShiftFault, Stale,
    Want,
};
use iigs_places::{BlockPlaces, PlacedBlock};
use std::alloc::{AllocError, Global};
use std::marker::Model;
use std::mem;

/// Banks of memory with blocks under handles.
#[derive(Drop)]
pub struct Banks {
    places: BlockPlaces,
    // Scratch space for the placement of several blocks, all or none.
    plan: BlockPlaces,
    made: Vec<PlacedBlock>,
    // The bytes of all configured banks.
    bytes: Vec<u8>,
    // Whether they are all zeros: none was ever borrowed to be written.
    blank: bool,
}

impl Model for Banks {
    ghost use Rattle.std.specs.Prelude.{vec_capacity};
    ghost use Rattle.iigs_meaning.specs.Memory.{Memory};

    ghost Value = { Memory };

    ghost use Rattle.std.specs.Prelude.{◌≡◌};
    ghost use Rattle.iigs_memory.specs.Store.{memory_of, IsStore, IsBlank};

    ghost view = { λ s. memory_of s.places.banks s.places.slots s.bytes.items };

    ghost invariant = { λ s. IsStore s.places.banks s.bytes.items (vec_capacity s.made) × (s.plan.banks ≡ s.places.banks)
        × IsBlank s.blank s.bytes.items };
}

fn slice(bytes: &[u8], start: usize, end: usize) -> &[u8]
    requires order { start ≤ end }
    requires within { end ≤ length bytes.now }
    ensures { result.now ≡ take (end - start) (drop start bytes.now) }
{
    &bytes[start..end]
}

fn zeros(alloc: Global, size: usize) -> Result<Vec<u8>, AllocError>
    ensures { IfOk result (λ bytes. bytes.items ≡ replicate size 0) }
{
    vec![in alloc; 0u8; size]
}

fn scratch<T>(alloc: Global, count: usize) -> Result<Vec<T>, AllocError>
    ensures { IfOk result (λ items. count ≤ vec_capacity items) }
{
    Vec::with_capacity(alloc, count)
}

// What `new` makes beside the places.
fn parts(alloc: Global, places: BlockPlaces, plan: BlockPlaces) -> Result<Banks, AllocError>
    requires { plan.banks ≡ places.banks }
    ensures { IfOk result (λ banks. (banks.banks ≡ places.banks) × (banks.slots ≡ places.slots)) }
{
    let bytes = zeros(alloc, places.size())?;
    Ok(Banks {
        places,
        plan,
        made: scratch(alloc, SLOTS)?,
        bytes,
        blank: true,
    })
}

impl Banks {
    ghost use Rattle.iigs_memory.specs.Overlay.{with_bytes_written, lends_block};
    ghost use Rattle.iigs_memory.specs.Store.{IsPart};
    ghost use Rattle.iigs_places.specs.Holder.{Has, IsHolder};

    /// Memory of these banks, without blocks. It takes all the memory that it ever takes.
    pub fn new(alloc: Global, banks: &[u8]) -> Result<Banks, BanksFault>
        ensures made { IfOk result (IsNew banks.now) }
        ensures refused { IfErr result (IsBanksRefusal banks.now) }
    {
        let places = BlockPlaces::new(alloc, banks)?;
        let plan = BlockPlaces::new(alloc, banks)?;
        match parts(alloc, places, plan) {
            Ok(banks) => Ok(banks),
            Err(_) => Err(BanksFault::Memory),
        }
    }

    /// No two blocks share a byte, and each lies in free memory of the banks.
    pub fn blocks_lie_apart(&self)
        ensures { AreApart self.now.banks self.now.slots }
    {
        self.places.know_arranged();
    }

    /// Each byte of a block has an address of 24 bits.
    pub fn blocks_have_addresses(&self)
        ensures { (place address : ℕ) → HoldsByte address (slot_at self.now.slots place) → address < 2 ^ 24 }
    {
        self.places.know_arranged();
    }

    // The part of the buffer that a block has which is there.
    fn part_of(&self, h: Handle) -> Result<BlockPart, BlockFault>
        ensures part { IfOk result (IsPart self.now h) }
        ensures refused { IfErr result (IsBlockRefusal self.now.slots h) }
    {
        self.places.know_arranged();
        let Ok(block) = self.places.look(h) else {
            return Err(BlockFault::Stale);
        };
        let Some(at) = block.at else {
            return Err(BlockFault::Empty);
        };
        let start = self.places.offset(at);
        Ok(BlockPart {
            start,
            end: start + block.want.size as usize,
        })
    }

    /// The bytes of a block.
    pub fn block(&self, h: Handle) -> Result<&[u8], BlockFault>
        ensures borrowed { IfOk result (λ bytes. IsBorrowed self.now h bytes.now) }
        ensures refused { IfErr result (IsBlockRefusal self.now.slots h) }
    {
        self.places.know_arranged();
        let part = self.part_of(h)?;
        Ok(slice(&self.bytes, part.start, part.end))
    }

    /// The handle of the block that has the byte at an address.
    pub fn holder(&self, address: u32) -> Option<Handle>
        ensures { MatchOption result ((h : declared.Handle) → ¬ Has self.now.slots address h) (IsHolder self.now.slots address) }
    {
        self.places.holder(address)
    }

    /// The bytes of a block, to be written. Of the write itself `lend` says more.
    pub fn block_mut(&mut self, h: Handle) -> Result<&mut [u8], BlockFault>
        ensures borrowed { IfOk result (λ bytes. IsBorrowed self.old h bytes.now) }
        ensures refused { IfErr result (IsBlockRefusal self.old.slots h) }
    {
        self.places.know_arranged();
        let part = self.part_of(h)?;
        self.blank = false;
        Ok(self.bytes.slice_mut(part.start..part.end))
    }

    /// The bytes of a block that is there, to be written. A caller can follow the write.
    pub fn lend(&mut self, h: Handle) -> &mut [u8]
        requires { IsSomeAnd (get self.old.slots h) (λ block. IsSome block.at) }
        ensures* writes_back { sem 𝓛 (lends_block self.entry h result) }
        ensures value { result.now ≡ bytes_at self.old h.slot }
        ensures alone { (w : List ℕ) → length w ≡ length (bytes_at self.old h.slot)
            → with_bytes_written self.old h w ≡ record self.old { bytes = slice_set self.old.bytes h.slot w } }
    {
        self.places.know_arranged();
        let part = match self.part_of(h) {
            Ok(part) => part,
            Err(BlockFault::Stale) => unreachable!(),
            Err(BlockFault::Empty) => unreachable!(),
        };
        self.blank = false;
        self.bytes.slice_mut(part.start..part.end)
    }

    // The block of a handle, which is there.
    fn resident_block(&self, h: Handle) -> Result<Block, BlockFault>
        ensures there { IfOk result (λ block. (get self.now.slots h ≡ Some block) × IsSome block.at) }
        ensures level { IfOk result (λ block. block.level < 256) }
        ensures refused { IfErr result (IsBlockRefusal self.now.slots h) }
    {
        let Ok(block) = self.places.look(h) else {
            return Err(BlockFault::Stale);
        };
        if block.at.is_none() {
            return Err(BlockFault::Empty);
        }
        Ok(block)
    }

    // Puts a block in the place of a live handle's, with its place and size.
    fn change(&mut self, h: Handle, block: Block)
        requires same { IsSomeAnd (get self.old.slots h) (λ old. (block.at ≡ old.at) × (block.want ≡ old.want)) }
        requires level { block.level < 256 }
        ensures slots { self.new.slots ≡ with_value self.old.slots h block }
        ensures kept { KeepsBut self.old self.new [] }
    {
        self.places.set(h, block);
    }

    /// Locks a block, so that no placement purges it.
    pub fn lock(&mut self, h: Handle) -> Result<(), BlockFault>
        ensures changed { IfOk result (λ _. Changes self.old h (λ block. record block { locked = true }) self.new) }
        ensures refused { IfErr result (IsBlockRefusal self.old.slots h) }
        ensures err { OnErr result (self.new ≡ self.old) }
    {
        let block = self.resident_block(h)?;
        self.change(
            h,
            Block {
                locked: true,
                ..block
            },
        );
        Ok(())
    }

    /// Unlocks a block.
    pub fn unlock(&mut self, h: Handle) -> Result<(), BlockFault>
        ensures changed { IfOk result (λ _. Changes self.old h (λ block. record block { locked = false }) self.new) }
        ensures refused { IfErr result (IsBlockRefusal self.old.slots h) }
        ensures err { OnErr result (self.new ≡ self.old) }
    {
        let block = self.resident_block(h)?;
        self.change(
            h,
            Block {
                locked: false,
                ..block
            },
        );
        Ok(())
    }

    /// Sets how willingly a block is purged: 0 never, the highest level first.
    pub fn set_level(&mut self, h: Handle, level: u8) -> Result<(), BlockFault>
        ensures changed { IfOk result (λ _. Changes self.old h (λ block. record block { level = level }) self.new) }
        ensures refused { IfErr result (IsBlockRefusal self.old.slots h) }
        ensures err { OnErr result (self.new ≡ self.old) }
    {
        let block = self.resident_block(h)?;
        self.change(h, Block { level, ..block });
        Ok(())
    }

    /// Releases a handle, and with it its block.
    pub fn free(&mut self, h: Handle) -> Result<(), BlockFault>
        ensures freed { IfOk result (λ _. IsFreed self.old h self.new) }
        ensures refused { IfErr result (IsStale self.old.slots h) }
        ensures err { OnErr result (self.new ≡ self.old) }
    {
        let Ok(()) = self.places.release(h) else {
            return Err(BlockFault::Stale);
        };
        Ok(())
    }

    /// The state of a handle's block, whether it is there or was purged.
    pub fn state(&self, h: Handle) -> Result<BlockState, BlockFault>
        ensures state { result_ok result ≡ option_map state_of (get self.now.slots h) }
        ensures refused { IfErr result (IsStale self.now.slots h) }
    {
        match self.places.look(h) {
            Ok(block) => Ok(BlockState {
                at: block.at,
                size: block.want.size,
                user: block.user,
                level: block.level,
                locked: block.locked,
            }),
            Err(Stale) => Err(BlockFault::Stale),
        }
    }

    /// Purges the purgeable blocks of a user, and counts them.
    pub fn purge_user(&mut self, user: u16) -> u32
        ensures { IsPurged self.old user result self.new }
    {
        self.places.purge_user(user)
    }

    /// Places a block under a new handle, which isn't movable. It is all zeros. Blocks are purged for it as needed.
    pub fn place(
        &mut self,
        want: &Want,
        user: u16,
        locked: bool,
        level: u8,
    ) -> Result<Handle, PlaceFault>
        requires want { IsWant want.now }
        ensures placed { IfOk result (λ h. IsPlaced Purges self.old want.now user locked level false h self.new) }
        ensures refused { IfErr result (IsPlaceRefusal Purges self.old.banks self.old.slots want.now) }
        ensures err { OnErr result (self.new ≡ self.old) }
    {
        self.put(want, user, locked, level, false)
    }

    /// Places a block under a new handle, which may be movable. It is all zeros. Blocks are purged for it as needed.
    pub fn put(
        &mut self,
        want: &Want,
        user: u16,
        locked: bool,
        level: u8,
        movable: bool,
    ) -> Result<Handle, PlaceFault>
        requires want { IsWant want.now }
        ensures placed { IfOk result (λ h. IsPlaced Purges self.old want.now user locked level movable h self.new) }
        ensures refused { IfErr result (IsPlaceRefusal Purges self.old.banks self.old.slots want.now) }
        ensures err { OnErr result (self.new ≡ self.old) }
    {
        self.places.know_arranged();
        let put = self.places.place(want, user, locked, level, movable)?;
        clear(
            &mut self.bytes,
            self.blank,
            self.places.offset(put.at),
            want.size as usize,
        );
        Ok(put.handle)
    }

    /// Places an empty block anew under its handle. It is all zeros, keeps its user, level and lock,
    /// and isn't movable.
    pub fn replace(&mut self, h: Handle, want: &Want) -> Result<(), PlaceFault>
        requires want { IsWant want.now }
        ensures replaced { IfOk result (λ _. IsReplaced Purges self.old h want.now self.new) }
        ensures refused { IfErr result (IsReplaceRefusal Purges self.old.banks self.old.slots h want.now) }
        ensures err { OnErr result (self.new ≡ self.old) }
    {
        self.places.know_arranged();
        let at = self.places.replace(h, want)?;
        clear(
            &mut self.bytes,
            self.blank,
            self.places.offset(at),
            want.size as usize,
        );
        Ok(())
    }

    /// Places blocks for these wants in order, locked with level 0, all or none. With `fresh` the user's handles are
    /// released first.
    pub fn place_all(
        &mut self,
        user: u16,
        fresh: bool,
        wants: &[Want],
        handles: &mut [Handle],
    ) -> Result<(), PlaceFault>
        requires wants { All IsWant wants.now }
        requires lengths { length handles.old ≡ length wants.now }
        ensures placed { OnOk result (AreAllPlaced Purges self.old user fresh wants.now handles.new self.new) }
        ensures refused { IfErr result (IsPlaceAllRefusal Purges self.old.banks user (slots_for self.old.slots user fresh) wants.now) }
        ensures err { OnErr result (self.new ≡ self.old) }
        ensures handles_kept { OnErr result (handles.new ≡ handles.old) }
    {
        self.plan.start_from(&self.places, user, fresh);
        if (self.plan.left() as usize) < wants.len() {
            return Err(PlaceFault::NoHandle);
        }
        self.plan.place_all(user, wants, &mut self.made)?;
        mem::swap(&mut self.places, &mut self.plan);
        clear_all(&self.places, &mut self.bytes, self.blank, wants, &self.made);
        give(&self.made, handles);
        Ok(())
    }

    /// Where the blocks lie.
    pub fn places(&self) -> &BlockPlaces
        ensures { result.now ≡ record { banks = self.now.banks; slots = self.now.slots } }
    {
        &self.places
    }

    /// How many blocks are there.
    pub fn count(&self) -> u32
        ensures { result ≡ count_there self.now.slots }
    {
        self.places.count()
    }

    /// The handle of the block at a place, from 0, in order of address.
    pub fn nth(&self, place: u32) -> Option<Handle>
        ensures { MatchOption result (count_there self.now.slots ≤ place) (IsNth self.now.slots place) }
    {
        self.places.nth(place)
    }

    /// The want with which a handle's block was last placed, whether it is there or was purged.
    pub fn kept(&self, h: Handle) -> Result<Want, BlockFault>
        ensures want { result_ok result ≡ option_map (λ block. block.want) (get self.now.slots h) }
        ensures refused { IfErr result (IsStale self.now.slots h) }
    {
        match self.places.look(h) {
            Ok(block) => Ok(block.want),
            Err(Stale) => Err(BlockFault::Stale),
        }
    }

    /// Purges a block. Its handle stays.
    pub fn empty(&mut self, h: Handle) -> Result<(), EmptyFault>
        ensures emptied { IfOk result (λ _. IsEmptied self.old h self.new) }
        ensures refused { IfErr result (IsEmptyRefusal self.old.slots h) }
        ensures err { OnErr result (self.new ≡ self.old) }
    {
        self.places.know_arranged();
        self.places.empty(h)
    }

    /// Purges the first `count` purgeable blocks, whose handles stay.
    pub fn purge_first(&mut self, count: u32)
        ensures slots { self.new.slots ≡ slots_after_purges self.old.slots count }
        ensures kept { KeepsBut self.old self.new [] }
    {
        self.places.purge_first(count);
    }

    /// Moves a block that isn't locked, with its bytes, to an address not above its own.
    pub fn shift(&mut self, h: Handle, to: u32) -> Result<(), ShiftFault>
        ensures shifted { IfOk result (λ _. IsShifted self.old h to self.new) }
        ensures refused { IfErr result (IsShiftRefusal self.old.banks self.old.slots h to) }
        ensures err { OnErr result (self.new ≡ self.old) }
    {
        self.places.know_arranged();
        let block = self.places.shift(h, to)?;
        let Some(at) = block.at else {
            unreachable!();
        };
        let from = self.places.offset(at);
        let start = self.places.offset(to);
        copy_bytes(
            &mut self.bytes,
            self.blank,
            from,
            block.want.size as usize,
            start,
        );
        Ok(())
    }

    /// How many bytes of free memory lie in no block.
    pub fn room(&self) -> u32
        ensures counts { CountsBelow (IsRoom self.now.banks self.now.slots) (2 ^ 24) result }
        ensures only { (other : ℕ) → CountsBelow (IsRoom self.now.banks self.now.slots) (2 ^ 24) other → other ≡ result }
        ensures all { (address : ℕ) → IsRoom self.now.banks self.now.slots address → address < 2 ^ 24 }
    {
        self.places.room()
    }
}
