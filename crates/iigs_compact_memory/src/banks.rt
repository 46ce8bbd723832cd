//! Memory of banks with movable blocks.

ghost use Rattle.std.specs.Prelude.{◌≡◌, ◌<◌, ◌≤◌, ◌^◌, ℕ, List, [], All, IfErr, IfOk, IsSome, IsSomeAnd, IsTrue, MatchOption, OnErr, OnOk, None, false, true, count_by, length, slice_set};
ghost use Rattle.std.specs.Option.{option_map};
ghost use Rattle.std.specs.Result.{result_ok};
ghost use Rattle.std.specs.Borrow.{sem};
ghost use Rattle.iigs_meaning.specs.declared.handles.Handle as declared;
ghost use Rattle.iigs_meaning.specs.Slots.{get, slot_at, is_free};
ghost use Rattle.iigs_meaning.specs.Fits.{IsWant, HoldsByte};
ghost use Rattle.iigs_meaning.specs.Puts.{IsPlaceRefusal, IsReplaceRefusal, IsPlaceAllRefusal, slots_for};
ghost use Rattle.iigs_meaning.specs.Slide.{AreSettled, AsksNoPlace, PurgesOrSlides, NoAddressRises, count_moved};
ghost use Rattle.iigs_meaning.specs.Moves.{IsSlid};
ghost use Rattle.iigs_meaning.specs.Blocks.{IsBlockRefusal, IsStale, AreApart, state_of};
ghost use Rattle.iigs_meaning.specs.Banks.{IsBanksRefusal};
ghost use Rattle.iigs_meaning.specs.Memory.{bytes_at, IsBorrowed, KeepsBut, Changes, IsFreed, IsPurged, IsPlaced, AreAllPlaced, IsReplaced, IsNew};
ghost use Rattle.iigs_meaning.specs.Room.{CountsBelow, IsRoom};
ghost use Rattle.iigs_places.specs.Holder.{Has, IsHolder};
ghost use Rattle.iigs_memory.specs.Overlay.{with_bytes_written};

use crate::alls::{place_each, plan_all, release};
use crate::carry::carry_out;
use crate::place::{place, replace};
use iigs_meaning::{BanksFault, BlockFault, BlockState, Handle, PlaceFault, Want};
use iigs_memory::Banks;
use iigs_places::BlockPlaces;
use std::alloc::Global;
use std::marker::Model;

/// Banks of memory with blocks under handles, of which some are movable.
#[derive(Drop)]
pub struct CompactBanks {
    banks: Banks,
    // Scratch space: on `plan` several blocks are placed, and on `trial` a slide is planned.
    plan: BlockPlaces,
    trial: BlockPlaces,
    handles: Vec<Handle>,
}

impl Model for CompactBanks {
    ghost use Rattle.std.specs.Prelude.{◌≡◌, ◌≤◌, vec_capacity};
    ghost use Rattle.iigs_meaning.specs.Memory.{Memory};
    ghost use Rattle.iigs_meaning.specs.Slide.{AreSettled};

    ghost Value = { Memory };

    ghost view = { λ s. s.banks };

    ghost invariant = { λ s. AreSettled s.banks.banks s.banks.slots × (s.plan.banks ≡ s.banks.banks) × (s.trial.banks ≡ s.banks.banks)
        × (4096 ≤ vec_capacity s.handles) };
}

impl CompactBanks {
    ghost use Rattle.iigs_compact_memory.specs.Lending.{lends_block};

    /// Memory of these banks, without blocks. It takes all the memory that it ever takes.
    pub fn new(alloc: Global, banks: &[u8]) -> Result<CompactBanks, BanksFault>
        ensures made { IfOk result (IsNew banks.now) }
        ensures refused { IfErr result (IsBanksRefusal banks.now) }
    {
        let plan = BlockPlaces::new(alloc, banks)?;
        let trial = BlockPlaces::new(alloc, banks)?;
        let handles = match Vec::with_capacity(alloc, 4096) {
            Ok(handles) => handles,
            Err(_) => return Err(BanksFault::Memory),
        };
        Ok(CompactBanks {
            banks: Banks::new(alloc, banks)?,
            plan,
            trial,
            handles,
        })
    }

    /// No two blocks share a byte, and each lies in free memory of the banks.
    pub fn blocks_lie_apart(&self)
        ensures { AreApart self.now.banks self.now.slots }
    {
        self.banks.blocks_lie_apart();
    }

    /// Each byte of a block has an address of 24 bits.
    pub fn blocks_have_addresses(&self)
        ensures { (place address : ℕ) → HoldsByte address (slot_at self.now.slots place) → address < 2 ^ 24 }
    {
        self.banks.blocks_have_addresses();
    }

    /// Each block was placed by a want, which fits where it lies but for other blocks; so no slide moves one up.
    pub fn blocks_lie_where_they_fit(&self)
        ensures { AreSettled self.now.banks self.now.slots }
    {
        let _banks = &self.banks;
    }

    /// The handle of the block that has the byte at an address.
    pub fn holder(&self, address: u32) -> Option<Handle>
        ensures { MatchOption result ((h : declared.Handle) → ¬ Has self.now.slots address h) (IsHolder self.now.slots address) }
    {
        self.banks.holder(address)
    }

    /// The bytes of a block.
    pub fn block(&self, h: Handle) -> Result<&[u8], BlockFault>
        ensures borrowed { IfOk result (λ bytes. IsBorrowed self.now h bytes.now) }
        ensures refused { IfErr result (IsBlockRefusal self.now.slots h) }
    {
        self.banks.block(h)
    }

    /// The bytes of a block, to be written. Of the write itself `lend` says more.
    pub fn block_mut(&mut self, h: Handle) -> Result<&mut [u8], BlockFault>
        ensures borrowed { IfOk result (λ bytes. IsBorrowed self.old h bytes.now) }
        ensures refused { IfErr result (IsBlockRefusal self.old.slots h) }
    {
        match self.banks.state(h) {
            Ok(state) if state.at.is_some() => Ok(self.banks.lend(h)),
            Ok(_) => Err(BlockFault::Empty),
            Err(_) => Err(BlockFault::Stale),
        }
    }

    /// The bytes of a block that is there, to be written. A caller can follow the write.
    pub fn lend(&mut self, h: Handle) -> &mut [u8]
        requires { IsSomeAnd (get self.old.slots h) (λ block. IsSome block.at) }
        ensures* writes_back { sem 𝓛 (lends_block self.entry h result) }
        ensures value { result.now ≡ bytes_at self.old h.slot }
        ensures alone { (w : List ℕ) → length w ≡ length (bytes_at self.old h.slot)
            → with_bytes_written self.old h w ≡ record self.old { bytes = slice_set self.old.bytes h.slot w } }
    {
        self.banks.lend(h)
    }

    /// The state of a handle's block, whether it is there or was purged.
    pub fn state(&self, h: Handle) -> Result<BlockState, BlockFault>
        ensures state { result_ok result ≡ option_map state_of (get self.now.slots h) }
        ensures refused { IfErr result (IsStale self.now.slots h) }
    {
        self.banks.state(h)
    }

    /// How many bytes of free memory lie in no block.
    pub fn room(&self) -> u32
        ensures counts { CountsBelow (IsRoom self.now.banks self.now.slots) (2 ^ 24) result }
        ensures only { (other : ℕ) → CountsBelow (IsRoom self.now.banks self.now.slots) (2 ^ 24) other → other ≡ result }
        ensures all { (address : ℕ) → IsRoom self.now.banks self.now.slots address → address < 2 ^ 24 }
    {
        self.banks.room()
    }

    /// Locks a block, so that no placement purges or moves it.
    pub fn lock(&mut self, h: Handle) -> Result<(), BlockFault>
        ensures changed { IfOk result (λ _. Changes self.old h (λ block. record block { locked = true }) self.new) }
        ensures refused { IfErr result (IsBlockRefusal self.old.slots h) }
        ensures err { OnErr result (self.new ≡ self.old) }
    {
        self.banks.lock(h)
    }

    /// Unlocks a block.
    pub fn unlock(&mut self, h: Handle) -> Result<(), BlockFault>
        ensures changed { IfOk result (λ _. Changes self.old h (λ block. record block { locked = false }) self.new) }
        ensures refused { IfErr result (IsBlockRefusal self.old.slots h) }
        ensures err { OnErr result (self.new ≡ self.old) }
    {
        self.banks.unlock(h)
    }

    /// Sets how willingly a block is purged: 0 never, the highest level first.
    pub fn set_level(&mut self, h: Handle, level: u8) -> Result<(), BlockFault>
        ensures changed { IfOk result (λ _. Changes self.old h (λ block. record block { level = level }) self.new) }
        ensures refused { IfErr result (IsBlockRefusal self.old.slots h) }
        ensures err { OnErr result (self.new ≡ self.old) }
    {
        self.banks.set_level(h, level)
    }

    /// Releases a handle, and with it its block.
    pub fn free(&mut self, h: Handle) -> Result<(), BlockFault>
        ensures freed { IfOk result (λ _. IsFreed self.old h self.new) }
        ensures refused { IfErr result (IsStale self.old.slots h) }
        ensures err { OnErr result (self.new ≡ self.old) }
    {
        self.banks.free(h)
    }

    /// Purges the purgeable blocks of a user, and counts them.
    pub fn purge_user(&mut self, user: u16) -> u32
        ensures { IsPurged self.old user result self.new }
    {
        self.banks.purge_user(user)
    }

    /// Slides the movable blocks down, and counts those that changed their address. Nothing is purged.
    pub fn compact(&mut self) -> u32
        ensures slid { IsSlid self.old self.new }
        ensures count { result ≡ count_moved self.old.slots self.new.slots }
        ensures none_rises { NoAddressRises self.old.banks self.old.slots self.new.slots }
    {
        self.banks.blocks_lie_apart();
        self.trial.start_from(self.banks.places(), 0, false);
        self.trial.slide();
        carry_out(&mut self.banks, &self.trial)
    }

    /// Places a block under a new handle. It is all zeros. Blocks are purged for it as needed, and where none makes room, as
    /// few as are needed for a slide of the movable ones to make it.
    pub fn place(
        &mut self,
        want: &Want,
        user: u16,
        locked: bool,
        level: u8,
        movable: bool,
    ) -> Result<Handle, PlaceFault>
        requires want { IsWant want.now }
        requires no_place { IsTrue movable → AsksNoPlace want.now }
        ensures placed { IfOk result (λ h. IsPlaced PurgesOrSlides self.old want.now user locked level movable h self.new) }
        ensures refused { IfErr result (IsPlaceRefusal PurgesOrSlides self.old.banks self.old.slots want.now) }
        ensures err { OnErr result (self.new ≡ self.old) }
    {
        place(
            &mut self.banks,
            &mut self.trial,
            want,
            user,
            locked,
            level,
            movable,
        )
    }

    /// Places an empty block anew under its handle, with room made as for `place`. It is all zeros, keeps its user, level and
    /// lock, and isn't movable.
    pub fn replace(&mut self, h: Handle, want: &Want) -> Result<(), PlaceFault>
        requires want { IsWant want.now }
        ensures replaced { IfOk result (λ _. IsReplaced PurgesOrSlides self.old h want.now self.new) }
        ensures refused { IfErr result (IsReplaceRefusal PurgesOrSlides self.old.banks self.old.slots h want.now) }
        ensures err { OnErr result (self.new ≡ self.old) }
    {
        replace(&mut self.banks, &mut self.trial, h, want)
    }

    // Places blocks for wants in order, all or none, of which one needs a slide.
    fn slide_and_place_all(
        &mut self,
        user: u16,
        fresh: bool,
        wants: &[Want],
        handles: &mut [Handle],
    ) -> Result<(), PlaceFault>
        requires wants { All IsWant wants.now }
        requires lengths { length handles.old ≡ length wants.now }
        requires enough { length wants.now ≤ count_by is_free (slots_for self.old.slots user fresh) }
        ensures placed { OnOk result (AreAllPlaced PurgesOrSlides self.old user fresh wants.now handles.new self.new) }
        ensures refused { IfErr result (IsPlaceAllRefusal PurgesOrSlides self.old.banks user (slots_for self.old.slots user fresh) wants.now) }
        ensures err { OnErr result (self.new ≡ self.old) }
        ensures handles_kept { OnErr result (handles.new ≡ handles.old) }
    {
        self.plan.start_from(self.banks.places(), user, fresh);
        self.plan.know_arranged();
        plan_all(&mut self.plan, &mut self.trial, user, wants)?;
        release(&mut self.banks, user, fresh);
        place_each(
            &mut self.banks,
            &mut self.trial,
            user,
            wants,
            &mut self.handles,
        );
        handles.copy_from_slice(&self.handles);
        Ok(())
    }

    /// Places blocks for these wants in order, locked with level 0, all or none, with room made as for `place`. They aren't
    /// movable. With `fresh` the user's handles are released first.
    pub fn place_all(
        &mut self,
        user: u16,
        fresh: bool,
        wants: &[Want],
        handles: &mut [Handle],
    ) -> Result<(), PlaceFault>
        requires wants { All IsWant wants.now }
        requires lengths { length handles.old ≡ length wants.now }
        ensures placed { OnOk result (AreAllPlaced PurgesOrSlides self.old user fresh wants.now handles.new self.new) }
        ensures refused { IfErr result (IsPlaceAllRefusal PurgesOrSlides self.old.banks user (slots_for self.old.slots user fresh) wants.now) }
        ensures err { OnErr result (self.new ≡ self.old) }
        ensures handles_kept { OnErr result (handles.new ≡ handles.old) }
    {
        match self.banks.place_all(user, fresh, wants, handles) {
            Ok(()) => Ok(()),
            Err(PlaceFault::NoRoom(_)) => self.slide_and_place_all(user, fresh, wants, handles),
            Err(PlaceFault::NoHandle) => Err(PlaceFault::NoHandle),
            Err(PlaceFault::Stale) => unreachable!(),
            Err(PlaceFault::NotEmpty) => unreachable!(),
            Err(PlaceFault::Memory) => unreachable!(),
        }
    }
}
