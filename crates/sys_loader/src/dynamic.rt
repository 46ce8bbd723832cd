//! Dynamic segments that are made active.

ghost use Rattle.std.specs.Prelude.{◌≡◌, ◌-◌, ◌<◌, ◌≤◌, ◌^◌, ℕ, List, Option, Some, None, IsSome, IsSomeAnd, length, map, true, false, IfOk, IfErr, OnErr};
ghost use Rattle.omf_io.specs.Counts.{one_more};
ghost use Rattle.omf_io.specs.Files.{FileMap};
ghost use Rattle.load_meaning.specs.Loadable.{IsLoadable};
ghost use Rattle.iigs_meaning.specs.Slots.{get};
ghost use Rattle.loader_machine.specs.Rule.{RoomRule};
ghost use Rattle.loader_machine.specs.Heads.{head_of};
ghost use Rattle.loader_machine.specs.State.{Machine, user_of};
ghost use Rattle.loader_machine.specs.Presences as presences;
ghost use Rattle.loader_machine.specs.Steps.{active_block};
ghost use Rattle.loader_machine.specs.Needs.{is_read};
ghost use Rattle.loader_machine.specs.Commands.{LoadSegment, MadeActive};
ghost use Rattle.loader_machine.specs.Refusals.{load_segment_refusal};
ghost use Rattle.loader_agrees.specs.Agrees.{LoadedUser, Agrees, Meets, ReadsNeeded, seen_by};
ghost use Rattle.sys_loader.specs.Lives.{HasTurned};
ghost use Rattle.sys_loader.specs.Replies.{activation_reply};
ghost use Rattle.sys_loader.specs.Activating.{segment_reads, CanLoad, IsBrought, IsBringRefusal, HasCome, HasComeFrom, IsComeRefusal, DidCome, DidActivate};

use crate::loader::Loader;
use iigs_compact_memory::CompactBanks;
use iigs_meaning::{Handle, PlaceFault};
use loader_machine::{LoaderFault, Presence, SegmentHead};
use loader_users::{
    UserSegment, activate, compare, fill_block, is_dynamic, load_of, place_of, presence,
    relink_tables, set_handle, set_places, user_in, want_of,
};
use omf_cells::{LoadFile, Places, PlacesFault};
use omf_io::{Files, ReadFault};
use std::alloc::Global;

/// Places the block of an absent segment under a new handle.
fn place_first(
    banks: &mut CompactBanks,
    user: u16,
    number: u16,
    head: &SegmentHead,
) -> Result<Handle, LoaderFault>
    ensures brought { IfOk result (λ h. (address : ℕ) × IsBrought banks.old user head.now None h address banks.new) }
    ensures refused { IfErr result (IsBringRefusal banks.old head.now None number) }
    ensures err { OnErr result (banks.new ≡ banks.old) }
{
    match banks.place(&want_of(head), user, true, 0, false) {
        Ok(h) => Ok(h),
        Err(PlaceFault::NoHandle) => Err(LoaderFault::NoHandle),
        Err(PlaceFault::NoRoom(_)) => Err(LoaderFault::NoRoom(number)),
        Err(PlaceFault::Stale) => unreachable!(),
        Err(PlaceFault::NotEmpty) => unreachable!(),
        Err(PlaceFault::Memory) => unreachable!(),
    }
}

/// Places the block of a purged segment anew, under the handle that it has.
fn place_again(
    banks: &mut CompactBanks,
    user: u16,
    number: u16,
    head: &SegmentHead,
    h: Handle,
) -> Result<Handle, LoaderFault>
    requires empty { IsSomeAnd (get banks.old.slots h) (λ block. block.at ≡ None) }
    ensures brought { IfOk result (λ k. (address : ℕ) × IsBrought banks.old user head.now (Some h) k address banks.new) }
    ensures refused { IfErr result (IsBringRefusal banks.old head.now (Some h) number) }
    ensures err { OnErr result (banks.new ≡ banks.old) }
{
    match banks.replace(h, &want_of(head)) {
        Ok(()) => {}
        Err(PlaceFault::NoRoom(_)) => return Err(LoaderFault::NoRoom(number)),
        Err(PlaceFault::NoHandle) => unreachable!(),
        Err(PlaceFault::Stale) => unreachable!(),
        Err(PlaceFault::NotEmpty) => unreachable!(),
        Err(PlaceFault::Memory) => unreachable!(),
    }
    activate(banks, h);
    Ok(h)
}

/// Makes room for the places of a file's segments.
pub fn places_of(alloc: Global, load: &LoadFile<'_>) -> Result<Places, LoaderFault>
    ensures ok { IfOk result (λ places. length places ≡ length load.now) }
    ensures err { IfErr result (λ why. why ≡ LoaderFault.Memory) }
{
    match Places::new(alloc, load.count()) {
        Ok(places) => Ok(places),
        Err(PlacesFault::Memory) => Err(LoaderFault::Memory),
    }
}

/// Places the block of a segment that isn't there.
fn place_segment(
    banks: &mut CompactBanks,
    user: u16,
    number: u16,
    segment: &UserSegment,
) -> Result<Handle, LoaderFault>
    requires empty { (k : Handle) → segment.now.handle ≡ Some k → IsSomeAnd (get banks.old.slots k) (λ block. block.at ≡ None) }
    ensures brought { IfOk result (λ h. (address : ℕ) × IsBrought banks.old user segment.now.head segment.now.handle h address banks.new) }
    ensures refused { IfErr result (IsBringRefusal banks.old segment.now.head segment.now.handle number) }
    ensures err { OnErr result (banks.new ≡ banks.old) }
{
    match segment.handle {
        Some(h) => place_again(banks, user, number, &segment.head, h),
        None => place_first(banks, user, number, &segment.head),
    }
}

impl Loader {
    // A dynamic segment of a user that runs.
    fn loadable(&self, id: u16, number: u16) -> Result<UserSegment, LoaderFault>
        ensures can { IfOk result (λ s. CanLoad self.now id number s.head s.handle) }
        ensures refused { IfErr result (λ fault. load_segment_refusal (seen_by self.now id) number ≡ Some fault) }
    {
        let user = self.running(id)?;
        let segment = user.kept_segment(number)?;
        if !is_dynamic(&segment.head) {
            return Err(LoaderFault::Static);
        }
        Ok(segment)
    }

    // An idle segment wakes: the entries for it lead to it, and its block is locked.
    fn reactivate(&mut self, user: u16, number: u16, h: Handle, address: u32)
        requires can { (head : SegmentHead) × CanLoad self.old user number head (Some h) }
        requires idle { presences.presence self.old.memory.slots (Some h) ≡ Presence.Idle h address }
        ensures { HasTurned self.old user number h active_block (Some address) self.new }
    {
        self.recall_invariant();
        let (owner, file) = self.led_by(user);
        let lead = user_in(&self.users, owner);
        relink_tables(
            &mut self.banks,
            &lead.segments,
            Some((file, number)),
            Some(address),
        );
        activate(&mut self.banks, h);
    }

    // A segment of a load file gets a block, and is written into it.
    fn place_and_fill(
        &mut self,
        load: &LoadFile<'_>,
        mut places: Places,
        user: u16,
        number: u16,
        segment: &UserSegment,
    ) -> Result<u32, LoaderFault>
        requires taken { (file : List ℕ) × IsLoadable file load.now }
        requires room { length places ≡ length load.now }
        requires can { CanLoad self.old user number segment.now.head segment.now.handle }
        requires gone { is_read (presences.presence self.old.memory.slots segment.now.handle) ≡ true }
        requires same { (k : LoadedUser) → user_of self.old.users user ≡ Some k → map head_of load.now ≡ k.heads }
        ensures come { (k : LoadedUser) → user_of self.old.users user ≡ Some k
            → IfOk result (λ address. HasCome self.old user number k segment.now.head segment.now.handle load.now address self.new) }
        ensures refused { IfErr result (IsBringRefusal self.old.memory segment.now.head segment.now.handle number) }
        ensures err { OnErr result (self.new ≡ self.old) }
    {
        self.recall_invariant();
        let (owner, file) = self.led_by(user);
        let h = place_segment(&mut self.banks, user, number, segment)?;
        let address = place_of(&self.banks, Some(h));
        let found = user_in(&self.users, user);
        set_places(&self.banks, &found.segments, &mut places);
        places.set(u32::from(number), Some(address));
        fill_block(
            &mut self.banks,
            h,
            load,
            u32::from(number),
            &segment.head,
            &places,
            user,
        );
        let lead = user_in(&self.users, owner);
        relink_tables(
            &mut self.banks,
            &lead.segments,
            Some((file, number)),
            Some(address),
        );
        set_handle(&mut self.users, user, number, h);
        Ok(address)
    }

    // A segment of a file that was read is placed.
    fn load_from(
        &mut self,
        file: &[u8],
        user: u16,
        number: u16,
        segment: &UserSegment,
    ) -> Result<u32, LoaderFault>
        requires short { length file.now < 2 ^ 32 }
        requires can { CanLoad self.old user number segment.now.head segment.now.handle }
        requires gone { is_read (presences.presence self.old.memory.slots segment.now.handle) ≡ true }
        ensures come { (k : LoadedUser) → user_of self.old.users user ≡ Some k
            → IfOk result (λ address. HasComeFrom file.now self.old user number k segment.now.head segment.now.handle address self.new) }
        ensures refused { (k : LoadedUser) → user_of self.old.users user ≡ Some k
            → IfErr result (IsComeRefusal file.now self.old user number k segment.now.head segment.now.handle) }
        ensures err { OnErr result (self.new ≡ self.old) }
    {
        self.recall_invariant();
        let load = load_of(self.alloc, file, self.is_attached(user))?;
        let places = places_of(self.alloc, &load)?;
        let found = user_in(&self.users, user);
        compare(&load, &found.segments)?;
        self.place_and_fill(&load, places, user, number, segment)
    }

    // The file at the user's path is read, and a segment of it is placed.
    fn read_and_load<F: Files>(
        &mut self,
        files: &mut F,
        user: u16,
        number: u16,
        segment: &UserSegment,
    ) -> Result<u32, LoaderFault>
        requires can { CanLoad self.old user number segment.now.head segment.now.handle }
        requires gone { is_read (presences.presence self.old.memory.slots segment.now.handle) ≡ true }
        ensures held { (F.seen files.new).held ≡ (F.seen files.old).held }
        ensures never_falls { (F.seen files.old).faults ≤ (F.seen files.new).faults }
        ensures asked { (F.seen files.new).asked ≡ one_more (F.seen files.old).asked }
        ensures came { (k : LoadedUser) → user_of self.old.users user ≡ Some k
            → DidCome (F.seen files.old).held self.old user number k segment.now.head segment.now.handle result self.new (F.seen files.old).faults (F.seen files.new).faults }
    {
        let found = user_in(&self.users, user);
        let bytes = match files.read(self.alloc, &found.path) {
            Ok(bytes) => bytes,
            Err(ReadFault::Absent) => return Err(LoaderFault::CannotRead),
            Err(ReadFault::TooLong) => return Err(LoaderFault::CannotRead),
            Err(ReadFault::Failed) => return Err(LoaderFault::CannotRead),
            Err(ReadFault::Memory) => return Err(LoaderFault::Memory),
        };
        self.load_from(&bytes, user, number, segment)
    }

    // A dynamic segment of a user that runs is made active.
    pub(crate) fn make_active<F: Files>(
        &mut self,
        files: &mut F,
        user: u16,
        number: u16,
    ) -> Result<u32, LoaderFault>
        ensures held { (F.seen files.new).held ≡ (F.seen files.old).held }
        ensures never_falls { (F.seen files.old).faults ≤ (F.seen files.new).faults }
        ensures asked { load_segment_refusal (seen_by self.old user) number ≡ None → segment_reads self.old user number ≡ true
            → (F.seen files.new).asked ≡ one_more (F.seen files.old).asked }
        ensures unasked { segment_reads self.old user number ≡ false → (F.seen files.new).asked ≡ (F.seen files.old).asked }
        ensures refused_unasked { IsSome (load_segment_refusal (seen_by self.old user) number) → (F.seen files.new).asked ≡ (F.seen files.old).asked }
        ensures did { DidActivate (F.seen files.old).held self.old user number result self.new (F.seen files.old).faults (F.seen files.new).faults }
    {
        let segment = self.loadable(user, number)?;
        match presence(&self.banks, segment.handle) {
            Presence::Active(_, address) => Ok(address),
            Presence::Idle(h, address) => {
                self.reactivate(user, number, h, address);
                Ok(address)
            }
            Presence::Purged(_) => self.read_and_load(files, user, number, &segment),
            Presence::Absent => self.read_and_load(files, user, number, &segment),
        }
    }

    /// Makes a dynamic segment of a user that runs active, and returns its address. An idle one becomes active as it is, with its pokes;
    /// one that isn't there is read again from the file at the user's path, which must be the one that was loaded, and placed. The entries
    /// for it, of the user's jump table or of that of the user to which it is attached, lead to it then. An active or idle segment takes no
    /// memory.
    pub fn load_segment<F: Files>(
        &mut self,
        files: &mut F,
        user: u16,
        segment: u16,
    ) -> Result<u32, LoaderFault>
        ensures held { (F.seen files.new).held ≡ (F.seen files.old).held }
        ensures never_falls { (F.seen files.old).faults ≤ (F.seen files.new).faults }

        // The file is read once where the call isn't refused before and the segment isn't there, and else not at all.
        ensures asked { load_segment_refusal (seen_by self.old user) segment ≡ None → segment_reads self.old user segment ≡ true
            → (F.seen files.new).asked ≡ one_more (F.seen files.old).asked }
        ensures unasked { segment_reads self.old user segment ≡ false → (F.seen files.new).asked ≡ (F.seen files.old).asked }
        ensures refused_unasked { IsSome (load_segment_refusal (seen_by self.old user) segment) → (F.seen files.new).asked ≡ (F.seen files.old).asked }

        // Where the store reveals its files, and the loader agrees with them, it is the machine's step, and reads what that needs.
        ensures meets { (held : FileMap) (state : Machine) → (F.seen files.old).held ≡ Some held → Agrees held self.old state
            → Meets RoomRule held state (LoadSegment user segment) (activation_reply (MadeActive segment) result) self.new (F.seen files.old).faults (F.seen files.new).faults }
        ensures needed { (held : FileMap) (state : Machine) → (F.seen files.old).held ≡ Some held → Agrees held self.old state
            → ReadsNeeded held state (LoadSegment user segment) 0 (F.seen files.old).asked (F.seen files.new).asked }

        // Over any files this much of it holds.
        ensures did { DidActivate (F.seen files.old).held self.old user segment result self.new (F.seen files.old).faults (F.seen files.new).faults }
    {
        self.recall_invariant();
        self.make_active(files, user, segment)
    }
}
