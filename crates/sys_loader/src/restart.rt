//! Programs that are restarted.

ghost use Rattle.std.specs.Prelude.{◌≡◌, ◌<◌, ◌≤◌, ◌^◌, ℕ, List, Option, Some, None, IsSome, length, map, true, false, not, ◌&&◌, ◌||◌, All, IfOk, IfErr, OnOk, OnErr};
ghost use Rattle.omf_io.specs.Counts.{one_more};
ghost use Rattle.omf_io.specs.Files.{FileMap};
ghost use Rattle.load_meaning.specs.Loadable.{IsLoadable};
ghost use Rattle.iigs_meaning.specs.Fits.{IsWant};
ghost use Rattle.loader_machine.specs.Rule.{RoomRule};
ghost use Rattle.iigs_meaning.specs.Memory.{AreAllPlaced};
ghost use Rattle.loader_machine.specs.Heads.{head_of, wants_of};
ghost use Rattle.loader_machine.specs.Heads as heads;
ghost use Rattle.loader_machine.specs.State.{Machine, user_of, is_attached};
ghost use Rattle.loader_machine.specs.Presences as presences;
ghost use Rattle.loader_machine.specs.Refusals.{restart_refusal};
ghost use Rattle.loader_machine.specs.Steps as steps;
ghost use Rattle.loader_machine.specs.Steps.{lost_refusal};
ghost use Rattle.loader_machine.specs.Needs as needs;
ghost use Rattle.loader_machine.specs.Commands.{Restart};
ghost use Rattle.loader_agrees.specs.Agrees.{LoadedUser, Agrees, Meets, ReadsNeeded, kept_outlines, seen_by};
ghost use Rattle.loader_users.specs.View.{kept};
ghost use Rattle.loader_users.specs.Filling.{AreSound, AreReady, AreFilled};
ghost use Rattle.loader_users.specs.Planned.{IsPlan};
ghost use Rattle.sys_loader.specs.Calls.{IsBeginRefusal};
ghost use Rattle.sys_loader.specs.Replies.{load_reply};
ghost use Rattle.sys_loader.specs.Restarting.{CanRestart, is_whole, restart_reads, HasResumed, released_memory, HasBegunAnew, IsAgainRefusal, DidRestart, AreActivated, HasReloaded, HasBegunFrom, IsOtherFile};
ghost use Rattle.loader_users.specs.Users.{kept_heads};
ghost use Rattle.sys_loader.specs.Restarting as restarting;

use crate::answers::Started;
use crate::dynamic::places_of;
use crate::load::{count_of, write_all};
use crate::loader::Loader;
use iigs_compact_memory::CompactBanks;
use iigs_meaning::{Handle, PlaceFault, Want};
use loader_machine::{Life, LoaderFault, Presence};
use loader_users::{
    LoadPlan, User, UserSegment, activate, compare, entry_of, fill_block, first_dangling_entry_of,
    is_read_again, is_static, load_of, number_of, plan_of, presence, set_life, set_lives,
    set_places, set_segments, user_in,
};
use omf_cells::{LoadFile, Places};
use omf_io::{Files, ReadFault};
use std::alloc::AllocError;

/// Whether a segment is there.
fn is_there(banks: &CompactBanks, handle: Option<Handle>) -> bool
    ensures { result ≡ presences.is_there (presences.presence banks.now.slots handle) }
{
    match presence(banks, handle) {
        Presence::Active(_, _) => true,
        Presence::Idle(_, _) => true,
        Presence::Purged(_) => false,
        Presence::Absent => false,
    }
}

/// Whether a segment is static and isn't there.
fn is_missing(banks: &CompactBanks, segment: &UserSegment) -> bool
    ensures { result ≡ (heads.is_static segment.now.head && not (presences.is_there (presences.presence banks.now.slots segment.now.handle))) }
{
    is_static(&segment.head) && !is_there(banks, segment.handle)
}

/// Whether all static segments are there.
fn are_there(banks: &CompactBanks, segments: &Vec<UserSegment>) -> bool
    ensures { result ≡ steps.are_there banks.now.slots (map (λ s. s.head) segments.now.items) (map (λ s. s.handle) segments.now.items) 1 }
{
    'segments: for segment in segments {
        if is_missing(banks, segment) {
            return false;
        }
    }
    true
}

/// Whether a static segment is read again at each restart.
fn some_read_again(segments: &Vec<UserSegment>) -> bool
    ensures { result ≡ needs.some_read_again (map (λ s. s.head) segments.now.items) }
{
    'segments: for segment in segments {
        if is_read_again(&segment.head) {
            return true;
        }
    }
    false
}

/// Whether the file has to be read for a restart: not in place, or with a segment that is read again.
fn has_to_read(segments: &Vec<UserSegment>, in_place: bool) -> bool
    ensures { result ≡ (not in_place || needs.some_read_again (map (λ s. s.head) segments.now.items)) }
{
    !in_place || some_read_again(segments)
}

/// The handle of a static segment.
fn static_handle(segment: &UserSegment) -> Option<Handle>
    ensures { result ≡ restarting.static_handle segment.now }
{
    if is_static(&segment.head) {
        segment.handle
    } else {
        None
    }
}

/// The handle of a segment that is read again.
fn again_handle(segment: &UserSegment) -> Option<Handle>
    ensures { result ≡ restarting.again_handle segment.now }
{
    if is_read_again(&segment.head) {
        segment.handle
    } else {
        None
    }
}

/// The static segments, all of which are there, become active.
fn activate_all(banks: &mut CompactBanks, segments: &Vec<UserSegment>)
    requires { steps.are_there banks.old.slots (map (λ s. s.head) segments.now.items) (map (λ s. s.handle) segments.now.items) 1 ≡ true }
    ensures { AreActivated (map restarting.static_handle segments.now.items) banks.old banks.new }
{
    'places: for k in 0..segments.len() {
        match static_handle(&segments[k]) {
            Some(h) => activate(banks, h),
            None => {}
        }
    }
}

/// Writes the segments that are read again into their blocks.
fn fill_again(
    banks: &mut CompactBanks,
    load: &LoadFile<'_>,
    segments: &Vec<UserSegment>,
    places: &Places,
    user: u16,
)
    requires sound { AreSound load.now }
    requires heads { map (λ s. s.head) segments.now.items ≡ map head_of load.now }
    requires short { length segments.now.items < 2 ^ 16 }
    requires ready { AreReady banks.old (map (λ s. s.head) segments.now.items) (map restarting.again_handle segments.now.items) }
    ensures { AreFilled load.now (map restarting.again_handle segments.now.items) user places.now banks.old banks.new (length segments.now.items) }
{
    'places: for k in 0..segments.len() {
        let segment = &segments[k];
        match again_handle(segment) {
            Some(h) => fill_block(banks, h, load, k as u32 + 1, &segment.head, places, user),
            None => {}
        }
    }
}

/// Places blocks for all static segments, in order, in the place of all that the user has, or none.
fn place_all_anew(
    banks: &mut CompactBanks,
    user: u16,
    segments: &Vec<UserSegment>,
    wants: &[Want],
    handles: &mut [Handle],
) -> Result<(), LoaderFault>
    requires short { length segments.now.items < 2 ^ 16 }
    requires wants { wants.now ≡ wants_of (map (λ s. s.head) segments.now.items) }
    requires are { All IsWant wants.now }
    requires lengths { length handles.old ≡ length wants.now }
    ensures placed { OnOk result (AreAllPlaced RoomRule banks.old user true wants.now handles.new banks.new) }
    ensures refused { IfErr result (IsBeginRefusal (released_memory banks.old user) user (map (λ s. s.head) segments.now.items)) }
    ensures err { OnErr result (banks.new ≡ banks.old) }
{
    match banks.place_all(user, true, wants, handles) {
        Ok(()) => Ok(()),
        Err(PlaceFault::NoHandle) => Err(LoaderFault::NoHandle),
        Err(PlaceFault::NoRoom(place)) => Err(LoaderFault::NoRoom(number_of(segments, place))),
        Err(PlaceFault::Stale) => unreachable!(),
        Err(PlaceFault::NotEmpty) => unreachable!(),
        Err(PlaceFault::Memory) => unreachable!(),
    }
}

impl Loader {
    // Whether the ID has a user that is dormant, which is attached to none.
    fn dormant(&self, user: u16) -> Result<&User, LoaderFault>
        ensures ok { IfOk result (λ found. CanRestart self.now user (kept found.now)) }
        ensures err { IfErr result (λ fault. restart_refusal (is_attached (kept_outlines self.now.users) user) (seen_by self.now user) ≡ Some fault) }
    {
        self.check_unattached(user)?;
        match self.user(user) {
            Some(found) => match found.life {
                Life::Running => Err(LoaderFault::Running),
                Life::Dormant => Ok(found),
            },
            None => Err(LoaderFault::NoUser),
        }
    }

    // The static segments of a user, all of which are there, become active, and it runs, with those attached to it.
    fn resume(&mut self, user: u16) -> Started
        requires can { (k : LoadedUser) × CanRestart self.old user k }
        requires whole { (k : LoadedUser) → user_of self.old.users user ≡ Some k → is_whole self.old k ≡ true }
        ensures { (k : LoadedUser) → user_of self.old.users user ≡ Some k → HasResumed self.old.memory self.old.users user k result self.new }
    {
        self.recall_invariant();
        let found = user_in(&self.users, user);
        activate_all(&mut self.banks, &found.segments);
        let entry = entry_of(&self.banks, &found.segments);
        set_life(&mut self.users, user, Life::Running);
        set_lives(&mut self.users, user, Life::Running);
        Started { user, entry }
    }

    // A dormant user is resumed once its segments that are read again are as this load file has them.
    fn resume_from(&mut self, load: &LoadFile<'_>, mut places: Places, user: u16) -> Started
        requires taken { (file : List ℕ) × IsLoadable file load.now }
        requires room { length places ≡ length load.now }
        requires can { (k : LoadedUser) × CanRestart self.old user k }
        requires whole { (k : LoadedUser) → user_of self.old.users user ≡ Some k → is_whole self.old k ≡ true }
        requires same { (k : LoadedUser) → user_of self.old.users user ≡ Some k
            → (lost_refusal (kept_heads self.old.users k.attached) load.now ≡ None) × (map head_of load.now ≡ k.heads) }
        ensures { (file : List ℕ) (k : LoadedUser) → IsLoadable file load.now → user_of self.old.users user ≡ Some k → HasReloaded file self.old user k result self.new }
    {
        self.recall_invariant();
        let found = user_in(&self.users, user);
        set_places(&self.banks, &found.segments, &mut places);
        fill_again(&mut self.banks, load, &found.segments, &places, user);
        self.resume(user)
    }

    // The file is the one that was loaded, by its headers, and each entry for another file leads to a segment of an attached user.
    fn is_same_file(&self, load: &LoadFile<'_>, user: u16) -> Result<(), LoaderFault>
        requires loadable { (file : List ℕ) × IsLoadable file load.now }
        requires made { IsSome (user_of self.now.users user) }
        ensures same { (k : LoadedUser) → user_of self.now.users user ≡ Some k
            → IfOk result (λ _. (lost_refusal (kept_heads self.now.users k.attached) load.now ≡ None) × (map head_of load.now ≡ k.heads)) }
        ensures other { (k : LoadedUser) → user_of self.now.users user ≡ Some k → IfErr result (IsOtherFile self.now.users k load.now) }
    {
        self.recall_invariant();
        let found = user_in(&self.users, user);
        match first_dangling_entry_of(load, &self.users, &found.attached) {
            Some(fault) => return Err(LoaderFault::BadFile(fault)),
            None => {}
        }
        compare(load, &found.segments)
    }

    // A dormant user is resumed once they are as a file that was read has them, if it is the one that was loaded.
    fn reload(&mut self, file: &[u8], user: u16) -> Result<Started, LoaderFault>
        requires short { length file.now < 2 ^ 32 }
        requires can { (k : LoadedUser) × CanRestart self.old user k }
        requires whole { (k : LoadedUser) → user_of self.old.users user ≡ Some k → is_whole self.old k ≡ true }
        ensures reloaded { (k : LoadedUser) → user_of self.old.users user ≡ Some k → IfOk result (λ started. HasReloaded file.now self.old user k started self.new) }
        ensures refused { (k : LoadedUser) → user_of self.old.users user ≡ Some k → IfErr result (IsAgainRefusal file.now self.old user k) }
        ensures err { OnErr result (self.new ≡ self.old) }
    {
        self.recall_invariant();
        let load = load_of(self.alloc, file, false)?;
        let _count = count_of(&load);
        let places = places_of(self.alloc, &load)?;
        self.is_same_file(&load, user)?;
        Ok(self.resume_from(&load, places, user))
    }

    // A program begins again in new blocks, and those attached to it run.
    fn begin_anew(
        &mut self,
        load: &LoadFile<'_>,
        plan: LoadPlan,
        user: u16,
    ) -> Result<Started, LoaderFault>
        requires can { (k : LoadedUser) × CanRestart self.old user k }
        requires taken { (file : List ℕ) × IsLoadable file load.now }
        requires same { (k : LoadedUser) → user_of self.old.users user ≡ Some k
            → (lost_refusal (kept_heads self.old.users k.attached) load.now ≡ None) × (map head_of load.now ≡ k.heads) }
        requires short { length load.now < 2 ^ 16 }
        requires plan { IsPlan load.now plan }
        ensures begun { (k : LoadedUser) → user_of self.old.users user ≡ Some k → IfOk result (λ started. HasBegunAnew self.old user k load.now started self.new) }
        ensures refused { IfErr result (IsBeginRefusal (released_memory self.old.memory user) user (map head_of load.now)) }
        ensures err { OnErr result (self.new ≡ self.old) }
    {
        let LoadPlan {
            mut segments,
            wants,
            mut handles,
            mut places,
        } = plan;
        place_all_anew(
            &mut self.banks,
            user,
            &segments,
            wants.as_slice(),
            handles.as_mut_slice(),
        )?;
        write_all(
            &mut self.banks,
            load,
            &mut segments,
            handles.as_slice(),
            &mut places,
            user,
        );
        let entry = entry_of(&self.banks, &segments);
        set_segments(&mut self.users, user, segments);
        set_lives(&mut self.users, user, Life::Running);
        Ok(Started { user, entry })
    }

    // A program begins again from a file that was read, if it is the one that was loaded.
    fn start_anew(&mut self, file: &[u8], user: u16) -> Result<Started, LoaderFault>
        requires short { length file.now < 2 ^ 32 }
        requires can { (k : LoadedUser) × CanRestart self.old user k }
        requires gone { (k : LoadedUser) → user_of self.old.users user ≡ Some k → is_whole self.old k ≡ false }
        ensures begun { (k : LoadedUser) → user_of self.old.users user ≡ Some k → IfOk result (λ started. HasBegunFrom file.now self.old user k started self.new) }
        ensures refused { (k : LoadedUser) → user_of self.old.users user ≡ Some k → IfErr result (IsAgainRefusal file.now self.old user k) }
        ensures err { OnErr result (self.new ≡ self.old) }
    {
        self.recall_invariant();
        let load = load_of(self.alloc, file, false)?;
        let _count = count_of(&load);
        self.is_same_file(&load, user)?;
        let plan = match plan_of(self.alloc, &load) {
            Ok(plan) => plan,
            Err(AllocError) => return Err(LoaderFault::Memory),
        };
        self.begin_anew(&load, plan, user)
    }

    // A dormant user is restarted by a read of its file.
    fn read_and_restart<F: Files>(
        &mut self,
        files: &mut F,
        user: u16,
        in_place: bool,
    ) -> Result<Started, LoaderFault>
        requires can { (k : LoadedUser) × CanRestart self.old user k }
        requires whole { (k : LoadedUser) → user_of self.old.users user ≡ Some k → is_whole self.old k ≡ in_place }
        requires reads { restart_reads self.old user ≡ true }
        ensures held { (F.seen files.new).held ≡ (F.seen files.old).held }
        ensures never_falls { (F.seen files.old).faults ≤ (F.seen files.new).faults }
        ensures asked { (F.seen files.new).asked ≡ one_more (F.seen files.old).asked }
        ensures did { DidRestart (F.seen files.old).held self.old user result self.new (F.seen files.old).faults (F.seen files.new).faults }
    {
        let found = user_in(&self.users, user);
        let bytes = match files.read(self.alloc, &found.path) {
            Ok(bytes) => bytes,
            Err(ReadFault::Absent) => return Err(LoaderFault::CannotRead),
            Err(ReadFault::TooLong) => return Err(LoaderFault::CannotRead),
            Err(ReadFault::Failed) => return Err(LoaderFault::CannotRead),
            Err(ReadFault::Memory) => return Err(LoaderFault::Memory),
        };
        if in_place {
            self.reload(&bytes, user)
        } else {
            self.start_anew(&bytes, user)
        }
    }

    // A dormant user is restarted, by a read of its file where that is needed.
    fn restart_user<F: Files>(&mut self, files: &mut F, user: u16) -> Result<Started, LoaderFault>
        ensures held { (F.seen files.new).held ≡ (F.seen files.old).held }
        ensures never_falls { (F.seen files.old).faults ≤ (F.seen files.new).faults }
        ensures asked { restart_refusal (is_attached (kept_outlines self.old.users) user) (seen_by self.old user) ≡ None → restart_reads self.old user ≡ true
            → (F.seen files.new).asked ≡ one_more (F.seen files.old).asked }
        ensures unasked { restart_reads self.old user ≡ false → (F.seen files.new).asked ≡ (F.seen files.old).asked }
        ensures refused_unasked { IsSome (restart_refusal (is_attached (kept_outlines self.old.users) user) (seen_by self.old user)) → (F.seen files.new).asked ≡ (F.seen files.old).asked }
        ensures did { DidRestart (F.seen files.old).held self.old user result self.new (F.seen files.old).faults (F.seen files.new).faults }
    {
        let found = self.dormant(user)?;
        let in_place = are_there(&self.banks, &found.segments);
        if has_to_read(&found.segments, in_place) {
            self.read_and_restart(files, user, in_place)
        } else {
            Ok(self.resume(user))
        }
    }

    /// Restarts a dormant user, and with it the users that are attached to it, whose segments stay as they are; one of these can't be
    /// restarted by itself. Where all its static segments are there it runs in place: they become active, with their pokes, but
    /// those with the reload attribute are read again; idle dynamic ones stay idle. Else all its handles are released, and its file,
    /// which must be the one that was loaded, begins as at a load, under the same ID.
    pub fn restart<F: Files>(&mut self, files: &mut F, user: u16) -> Result<Started, LoaderFault>
        ensures held { (F.seen files.new).held ≡ (F.seen files.old).held }
        ensures never_falls { (F.seen files.old).faults ≤ (F.seen files.new).faults }

        // The file is read once where the user is dormant, and a static segment isn't there or is read again, and else not at all.
        ensures asked { restart_refusal (is_attached (kept_outlines self.old.users) user) (seen_by self.old user) ≡ None → restart_reads self.old user ≡ true
            → (F.seen files.new).asked ≡ one_more (F.seen files.old).asked }
        ensures unasked { restart_reads self.old user ≡ false → (F.seen files.new).asked ≡ (F.seen files.old).asked }
        ensures refused_unasked { IsSome (restart_refusal (is_attached (kept_outlines self.old.users) user) (seen_by self.old user)) → (F.seen files.new).asked ≡ (F.seen files.old).asked }

        // Where the store reveals its files, and the loader agrees with them, it is the machine's step, and reads what that needs.
        ensures meets { (held : FileMap) (state : Machine) → (F.seen files.old).held ≡ Some held → Agrees held self.old state
            → Meets RoomRule held state (Restart user) (load_reply result) self.new (F.seen files.old).faults (F.seen files.new).faults }
        ensures needed { (held : FileMap) (state : Machine) → (F.seen files.old).held ≡ Some held → Agrees held self.old state
            → ReadsNeeded held state (Restart user) 0 (F.seen files.old).asked (F.seen files.new).asked }

        // Over any files this much of it holds.
        ensures did { DidRestart (F.seen files.old).held self.old user result self.new (F.seen files.old).faults (F.seen files.new).faults }
    {
        self.recall_invariant();
        self.restart_user(files, user)
    }
}
