//! The script's own blocks.

ghost use Rattle.std.specs.Prelude.{◌≡◌, ◌^◌, ℕ, IsTrue, true, false, Some, None, option_map, IfOk, IfErr, OnErr, IsSomeAnd};
ghost use Rattle.std.specs.Result.{result_ok};
ghost use Rattle.omf_io.specs.Files.{FileMap};
ghost use Rattle.iigs_meaning.specs.Slots.{get};
ghost use Rattle.iigs_meaning.specs.Fits.{IsWant};
ghost use Rattle.loader_machine.specs.Rule.{RoomRule};
ghost use Rattle.iigs_meaning.specs.Slide.{AsksNoPlace, NoAddressRises, count_moved};
ghost use Rattle.iigs_meaning.specs.Moves.{IsSlid};
ghost use Rattle.iigs_meaning.specs.Blocks.{state_of};
ghost use Rattle.iigs_meaning.specs.Memory.{IsPlaced, IsFreed};
ghost use Rattle.iigs_meaning.specs.Room.{CountsBelow, IsRoom};
ghost use Rattle.loader_machine.specs.State.{Machine};
ghost use Rattle.loader_machine.specs.Refusals.{free_refusal, change_refusal, state_refusal};
ghost use Rattle.loader_machine.specs.Commands.{Compact, Free, Lock, Unlock, Level, StateOf, Room, Moved, Placed, RoomIs, Refused};
ghost use Rattle.loader_agrees.specs.Agrees.{Agrees, Met, MetAlloc};
ghost use Rattle.sys_loader.specs.Scripts.{HasChanged, OthersStay};
ghost use Rattle.sys_loader.specs.Replies.{done_reply, state_reply, IsAllocRefusal};

use crate::loader::Loader;
use iigs_meaning::{BlockFault, BlockState, Handle, PlaceFault, Want};
use loader_machine::LoaderFault;

/// The user that is the script.
const SCRIPT: u16 = 0;

impl Loader {
    // The block of a handle of the script.
    fn scripts(&self, h: Handle) -> Result<BlockState, LoaderFault>
        ensures ok { IfOk result (λ state. IsSomeAnd (get self.now.memory.slots h) (λ block. (block.user ≡ 0) × (state ≡ state_of block))) }
        ensures free { IfErr result (λ fault. free_refusal self.now.memory.slots h ≡ Some fault) }
        ensures change { IfErr result (λ fault. change_refusal self.now.memory.slots h ≡ Some fault) }
    {
        match self.banks.state(h) {
            Ok(state) => {
                if state.user == SCRIPT {
                    Ok(state)
                } else {
                    Err(LoaderFault::LoaderOwned)
                }
            }
            Err(BlockFault::Stale) => Err(LoaderFault::Stale),
            Err(BlockFault::Empty) => unreachable!(),
        }
    }

    // The block of a handle of the script, which is there.
    fn changeable(&self, h: Handle) -> Result<(), LoaderFault>
        ensures ok { IfOk result (λ _. IsSomeAnd (get self.now.memory.slots h) (λ block. (block.user ≡ 0) × ((address : ℕ) × (block.at ≡ Some address)))
            × (change_refusal self.now.memory.slots h ≡ None)) }
        ensures err { IfErr result (λ fault. change_refusal self.now.memory.slots h ≡ Some fault) }
    {
        let state = self.scripts(h)?;
        match state.at {
            Some(_) => Ok(()),
            None => Err(LoaderFault::Empty),
        }
    }

    // Places a block for the script under a new handle.
    fn put_block(
        &mut self,
        want: &Want,
        locked: bool,
        level: u8,
        movable: bool,
    ) -> Result<Handle, LoaderFault>
        requires want { IsWant want.now }
        requires no_place { IsTrue movable → AsksNoPlace want.now }
        ensures placed { IfOk result (λ h. IsPlaced RoomRule self.old.memory want.now 0 locked level movable h self.new.memory × (self.new.users ≡ self.old.users)) }
        ensures refused { IfErr result (IsAllocRefusal self.old.memory want.now) }
        ensures err { OnErr result (self.new ≡ self.old) }
    {
        match self.banks.place(want, SCRIPT, locked, level, movable) {
            Ok(handle) => Ok(handle),
            Err(PlaceFault::NoHandle) => Err(LoaderFault::NoHandle),
            Err(PlaceFault::NoRoom(_)) => Err(LoaderFault::NoRoom(0)),
            Err(PlaceFault::NotEmpty) => unreachable!(),
            Err(PlaceFault::Stale) => unreachable!(),
            Err(PlaceFault::Memory) => unreachable!(),
        }
    }

    // Releases a handle of the script.
    fn release(&mut self, h: Handle) -> Result<(), LoaderFault>
        ensures freed { IfOk result (λ _. IsFreed self.old.memory h self.new.memory × (self.new.users ≡ self.old.users)
            × IsSomeAnd (get self.old.memory.slots h) (λ block. block.user ≡ 0)) }
        ensures refused { IfErr result (λ fault. free_refusal self.old.memory.slots h ≡ Some fault) }
        ensures err { OnErr result (self.new ≡ self.old) }
    {
        self.scripts(h)?;
        match self.banks.free(h) {
            Ok(()) => Ok(()),
            Err(BlockFault::Stale) => unreachable!(),
            Err(BlockFault::Empty) => unreachable!(),
        }
    }

    /// Places a block for the script under a new handle. Blocks are purged for it as needed, and movable ones are slid down where
    /// no purge makes room. No memory is taken.
    pub fn alloc(
        &mut self,
        want: &Want,
        locked: bool,
        level: u8,
        movable: bool,
    ) -> Result<Handle, LoaderFault>
        requires want { IsWant want.now }
        requires no_place { IsTrue movable → AsksNoPlace want.now }

        // Over files with which the loader agrees, it is the machine's step.
        ensures meets { IfOk result (λ h. (held : FileMap) (state : Machine) → Agrees held self.old state
            → (address : ℕ) × IsSomeAnd (get self.new.memory.slots h) (λ block. block.at ≡ Some address)
            × MetAlloc RoomRule held state want.now locked level movable (Placed h address) self.new) }
        ensures refuses { IfErr result (λ fault. (held : FileMap) (state : Machine) → Agrees held self.old state
            → MetAlloc RoomRule held state want.now locked level movable (Refused fault) self.new) }

        // Over any files this much of it holds.
        ensures placed { IfOk result (λ h. IsPlaced RoomRule self.old.memory want.now 0 locked level movable h self.new.memory × (self.new.users ≡ self.old.users)) }
        ensures refused { IfErr result (IsAllocRefusal self.old.memory want.now) }
        ensures err { OnErr result (self.new ≡ self.old) }
    {
        self.recall_invariant();
        self.put_block(want, locked, level, movable)
    }

    // Slides the movable blocks down.
    fn slide(&mut self) -> u32
        ensures slid { IsSlid self.old.memory self.new.memory × (self.new.users ≡ self.old.users) }
        ensures count { result ≡ count_moved self.old.memory.slots self.new.memory.slots }
        ensures none_rises { NoAddressRises self.old.memory.banks self.old.memory.slots self.new.memory.slots }
    {
        self.banks.compact()
    }

    /// Slides the movable blocks down, and counts those that changed their address. Nothing is purged, and no memory is taken.
    pub fn compact(&mut self) -> u32
        // Over files with which the loader agrees, it is the machine's step.
        ensures meets { (held : FileMap) (state : Machine) → Agrees held self.old state → Met RoomRule held state Compact (Moved result) self.new }

        // Over any files this much of it holds: locked blocks and those of users stay where they are.
        ensures slid { IsSlid self.old.memory self.new.memory × (self.new.users ≡ self.old.users) }
        ensures count { result ≡ count_moved self.old.memory.slots self.new.memory.slots }
        ensures none_rises { NoAddressRises self.old.memory.banks self.old.memory.slots self.new.memory.slots }
        ensures others { OthersStay self.old.memory self.new.memory }
    {
        self.recall_invariant();
        self.slide()
    }

    /// Releases a handle of the script, and with it its block.
    pub fn free(&mut self, h: Handle) -> Result<(), LoaderFault>
        // Over files with which the loader agrees, it is the machine's step.
        ensures meets { (held : FileMap) (state : Machine) → Agrees held self.old state → Met RoomRule held state (Free h) (done_reply result) self.new }

        // Over any files this much of it holds.
        ensures freed { IfOk result (λ _. IsFreed self.old.memory h self.new.memory × (self.new.users ≡ self.old.users)
            × IsSomeAnd (get self.old.memory.slots h) (λ block. block.user ≡ 0)) }
        ensures refused { IfErr result (λ fault. free_refusal self.old.memory.slots h ≡ Some fault) }
        ensures err { OnErr result (self.new ≡ self.old) }
    {
        self.recall_invariant();
        self.release(h)
    }

    // Locks a block of the script.
    fn lock_block(&mut self, h: Handle) -> Result<(), LoaderFault>
        ensures changed { IfOk result (λ _. HasChanged self.old h (λ block. record block { locked = true }) self.new) }
        ensures refused { IfErr result (λ fault. change_refusal self.old.memory.slots h ≡ Some fault) }
        ensures err { OnErr result (self.new ≡ self.old) }
    {
        self.changeable(h)?;
        match self.banks.lock(h) {
            Ok(()) => Ok(()),
            Err(BlockFault::Stale) => unreachable!(),
            Err(BlockFault::Empty) => unreachable!(),
        }
    }

    /// Locks a block of the script, so that no placement purges or moves it.
    pub fn lock(&mut self, h: Handle) -> Result<(), LoaderFault>
        // Over files with which the loader agrees, it is the machine's step.
        ensures meets { (held : FileMap) (state : Machine) → Agrees held self.old state → Met RoomRule held state (Lock h) (done_reply result) self.new }

        // Over any files this much of it holds.
        ensures changed { IfOk result (λ _. HasChanged self.old h (λ block. record block { locked = true }) self.new) }
        ensures refused { IfErr result (λ fault. change_refusal self.old.memory.slots h ≡ Some fault) }
        ensures err { OnErr result (self.new ≡ self.old) }
    {
        self.recall_invariant();
        self.lock_block(h)
    }

    // Unlocks a block of the script.
    fn unlock_block(&mut self, h: Handle) -> Result<(), LoaderFault>
        ensures changed { IfOk result (λ _. HasChanged self.old h (λ block. record block { locked = false }) self.new) }
        ensures refused { IfErr result (λ fault. change_refusal self.old.memory.slots h ≡ Some fault) }
        ensures err { OnErr result (self.new ≡ self.old) }
    {
        self.changeable(h)?;
        match self.banks.unlock(h) {
            Ok(()) => Ok(()),
            Err(BlockFault::Stale) => unreachable!(),
            Err(BlockFault::Empty) => unreachable!(),
        }
    }

    /// Unlocks a block of the script.
    pub fn unlock(&mut self, h: Handle) -> Result<(), LoaderFault>
        // Over files with which the loader agrees, it is the machine's step.
        ensures meets { (held : FileMap) (state : Machine) → Agrees held self.old state → Met RoomRule held state (Unlock h) (done_reply result) self.new }

        // Over any files this much of it holds.
        ensures changed { IfOk result (λ _. HasChanged self.old h (λ block. record block { locked = false }) self.new) }
        ensures refused { IfErr result (λ fault. change_refusal self.old.memory.slots h ≡ Some fault) }
        ensures err { OnErr result (self.new ≡ self.old) }
    {
        self.recall_invariant();
        self.unlock_block(h)
    }

    // Sets the level of a block of the script.
    fn set_level(&mut self, h: Handle, n: u8) -> Result<(), LoaderFault>
        ensures changed { IfOk result (λ _. HasChanged self.old h (λ block. record block { level = n }) self.new) }
        ensures refused { IfErr result (λ fault. change_refusal self.old.memory.slots h ≡ Some fault) }
        ensures err { OnErr result (self.new ≡ self.old) }
    {
        self.changeable(h)?;
        match self.banks.set_level(h, n) {
            Ok(()) => Ok(()),
            Err(BlockFault::Stale) => unreachable!(),
            Err(BlockFault::Empty) => unreachable!(),
        }
    }

    /// Sets how willingly a block of the script is purged: 0 never, the highest level first.
    pub fn level(&mut self, h: Handle, n: u8) -> Result<(), LoaderFault>
        // Over files with which the loader agrees, it is the machine's step.
        ensures meets { (held : FileMap) (state : Machine) → Agrees held self.old state → Met RoomRule held state (Level h n) (done_reply result) self.new }

        // Over any files this much of it holds.
        ensures changed { IfOk result (λ _. HasChanged self.old h (λ block. record block { level = n }) self.new) }
        ensures refused { IfErr result (λ fault. change_refusal self.old.memory.slots h ≡ Some fault) }
        ensures err { OnErr result (self.new ≡ self.old) }
    {
        self.recall_invariant();
        self.set_level(h, n)
    }

    /// The state of a handle's block, whether it is there or was purged.
    pub fn handle(&self, h: Handle) -> Result<BlockState, LoaderFault>
        // Over files with which the loader agrees, it is the machine's step.
        ensures meets { (held : FileMap) (state : Machine) → Agrees held self.now state → Met RoomRule held state (StateOf h) (state_reply result) self.now }

        // Over any files this much of it holds.
        ensures state { result_ok result ≡ option_map state_of (get self.now.memory.slots h) }
        ensures refused { IfErr result (λ fault. state_refusal self.now.memory.slots h ≡ Some fault) }
    {
        match self.banks.state(h) {
            Ok(state) => Ok(state),
            Err(BlockFault::Stale) => Err(LoaderFault::Stale),
            Err(BlockFault::Empty) => unreachable!(),
        }
    }

    /// How many bytes of free memory lie in no block.
    pub fn room(&self) -> u32
        // Over files with which the loader agrees, it is the machine's step.
        ensures meets { (held : FileMap) (state : Machine) → Agrees held self.now state → Met RoomRule held state Room (RoomIs result) self.now }

        // Over any files this much of it holds.
        ensures counts { CountsBelow (IsRoom self.now.memory.banks self.now.memory.slots) (2 ^ 24) result }
    {
        self.banks.room()
    }
}
