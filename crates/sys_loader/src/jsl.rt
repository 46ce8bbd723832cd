//! Calls that are followed: a JSL in an active segment, and the entry of a jump table to which it may lead.

ghost use Rattle.std.specs.Prelude.{◌≡◌, ◌<◌, ◌≤◌, ℕ, Some, None, IsSome, IsSomeAnd, Result, length, true, false, IfOk, IfErr, OnErr};
ghost use Rattle.omf_io.specs.Counts.{one_more};
ghost use Rattle.omf_io.specs.Files.{FileMap};
ghost use Rattle.load_meaning.specs.declared.table.Target.{Target};
ghost use Rattle.loader_machine.specs.Rule.{RoomRule};
ghost use Rattle.iigs_meaning.specs.Slots.{get};
ghost use Rattle.iigs_meaning.specs.Memory.{bytes_at};
ghost use Rattle.loader_machine.specs.State.{Machine, named_by};
ghost use Rattle.loader_machine.specs.Heads.{at_number};
ghost use Rattle.loader_machine.specs.Presences.{handle_at};
ghost use Rattle.loader_machine.specs.Steps.{no_jsl, address_of};
ghost use Rattle.loader_machine.specs.Commands as commands;
ghost use Rattle.loader_machine.specs.Refusals.{load_segment_refusal};
ghost use Rattle.loader_agrees.specs.Agrees.{Agrees, Meets, ReadsNeeded, kept_outlines, seen_by};
ghost use Rattle.loader_agrees.specs.Acts.{LiesIn};
ghost use Rattle.loader_users.specs.View.{kept};
ghost use Rattle.sys_loader.specs.Activating.{segment_reads, DidActivate};
ghost use Rattle.sys_loader.specs.Calling.{HasCall, EntersTarget};
ghost use Rattle.sys_loader.specs.Following.{jsl_reply, LeadsTo, IsJslRefusal, HasReached, CallsEntry, entered_at, HasAsked, DidJsl};

use crate::answers::Entered;
use crate::loader::{Hit, Loader};
use iigs_compact_memory::CompactBanks;
use iigs_meaning::{BlockFault, Handle};
use jump_table::{entry_at, target_at};
use loader_machine::LoaderFault;
use loader_users::{User, UserSegment, address_in, is_table, user_in};
use omf_base::number;
use omf_io::Files;

/// The code of a JSL.
const JSL: u8 = 0x22;

/// Where a JSL leads: to a place in a segment, or through the entry of a jump table to an offset in one.
#[derive(Clone, Copy)]
pub enum Reached {
    Place(Entered),
    Entry {
        user: u16,
        segment: u16,
        offset: u32,
    },
}

/// The address in a JSL's four bytes.
fn called_address(four: &[u8]) -> Result<u32, LoaderFault>
    requires { length four.now ≡ 4 }
    ensures ok { IfOk result (λ address. (no_jsl four.now ≡ None) × (address ≡ address_of four.now)) }
    ensures err { IfErr result (λ why. no_jsl four.now ≡ Some why) }
{
    if four[0] != JSL {
        return Err(LoaderFault::NotJsl);
    }
    Ok(number(four, 1, 3))
}

/// The bytes of a block that is there.
fn block_of(banks: &CompactBanks, handle: Option<Handle>) -> &[u8]
    requires { IsSomeAnd handle (λ h. IsSomeAnd (get banks.now.slots h) (λ block. IsSome block.at)) }
    ensures { IsSomeAnd handle (λ h. result.now ≡ bytes_at banks.now h.slot) }
{
    let h = match handle {
        Some(h) => h,
        None => unreachable!(),
    };
    match banks.block(h) {
        Ok(bytes) => bytes,
        Err(BlockFault::Stale) => unreachable!(),
        Err(BlockFault::Empty) => unreachable!(),
    }
}

/// A user's segment with a number, from 1.
fn segment_in(user: &User, number: u16) -> UserSegment
    requires some { 1 ≤ number }
    requires inside { number ≤ length user.now.segments.items }
    ensures head { at_number (kept user.now).heads number ≡ Some result.head }
    ensures handle { handle_at (kept user.now).handles number ≡ result.handle }
{
    user.segments[usize::from(number) - 1]
}

impl Loader {
    // The user whose segment an entry of a user's table names by its file number.
    fn named_by(&self, user: u16, file: u16) -> u16
        requires { IsSome (named_by (kept_outlines self.now.users) user file) }
        ensures { named_by (kept_outlines self.now.users) user file ≡ Some result }
    {
        if file == 1 {
            return user;
        }
        user_in(&self.users, user).attached[usize::from(file).saturating_sub(2)]
    }

    // The place to which the JSL at an offset leads.
    fn jsl_place(&self, user: u16, segment: u16, at: u32) -> Result<Hit, LoaderFault>
        ensures leads { IfOk result (λ hit. LeadsTo self.now user segment at hit.place) }
        ensures refused { IfErr result (IsJslRefusal self.now user segment at) }
    {
        self.recall_invariant();
        let four = self.borrow_bytes(user, segment, at, 4)?;
        let address = called_address(four)?;
        match self.find_with_slot(address) {
            Some(hit) => Ok(hit),
            None => Err(LoaderFault::NoTarget),
        }
    }

    // Where a place leads: to itself, or in a table to the entry whose code is there.
    fn reach_segment(&self, place: Entered) -> Result<Reached, LoaderFault>
        requires lies { LiesIn self.now place.address place.user place.segment place.offset }
        ensures reached { (user segment at : ℕ) → LeadsTo self.now user segment at place → IfOk result (HasReached self.now user segment at) }
        ensures refused { (user segment at : ℕ) → LeadsTo self.now user segment at place → IfErr result (IsJslRefusal self.now user segment at) }
    {
        self.recall_invariant();
        let found = segment_in(user_in(&self.users, place.user), place.segment);
        if !is_table(&found.head) {
            return Ok(Reached::Place(place));
        }
        let k = match entry_at(found.head.length, place.offset) {
            Some(k) => k,
            None => return Err(LoaderFault::NotEntry),
        };
        let target = target_at(block_of(&self.banks, found.handle), k);
        Ok(Reached::Entry {
            user: self.named_by(place.user, target.file),
            segment: target.segment,
            offset: target.offset,
        })
    }

    // Notes in which segment a place was found: the first that the next call to that block asks.
    fn note(&mut self, hit: Hit)
        ensures { self.new ≡ self.old }
    {
        self.last_hits[usize::from(hit.slot % 256)] = hit.place.segment;
    }

    // Where the JSL at an offset leads.
    fn reach(&mut self, user: u16, segment: u16, at: u32) -> Result<Reached, LoaderFault>
        ensures same { self.new ≡ self.old }
        ensures reached { IfOk result (HasReached self.old user segment at) }
        ensures refused { IfErr result (IsJslRefusal self.old user segment at) }
    {
        let hit = self.jsl_place(user, segment, at)?;
        self.note(hit);
        self.reach_segment(hit.place)
    }

    // The segment of an entry is made active, and entered.
    fn enter<F: Files>(
        &mut self,
        files: &mut F,
        user: u16,
        segment: u16,
        offset: u32,
    ) -> Result<Entered, LoaderFault>
        ensures held { (F.seen files.new).held ≡ (F.seen files.old).held }
        ensures never_falls { (F.seen files.old).faults ≤ (F.seen files.new).faults }
        ensures asked { load_segment_refusal (seen_by self.old user) segment ≡ None → segment_reads self.old user segment ≡ true
            → (F.seen files.new).asked ≡ one_more (F.seen files.old).asked }
        ensures unasked { segment_reads self.old user segment ≡ false → (F.seen files.new).asked ≡ (F.seen files.old).asked }
        ensures refused_unasked { IsSome (load_segment_refusal (seen_by self.old user) segment) → (F.seen files.new).asked ≡ (F.seen files.old).asked }
        ensures did { (made : Result ℕ LoaderFault) × DidActivate (F.seen files.old).held self.old user segment made self.new (F.seen files.old).faults (F.seen files.new).faults
            × (result ≡ entered_at user segment offset made) }
    {
        match self.make_active(files, user, segment) {
            Ok(address) => Ok(Entered {
                user,
                segment,
                offset,
                address: address_in(address, offset),
            }),
            Err(fault) => Err(fault),
        }
    }

    // The JSL at an offset is followed.
    fn follow<F: Files>(
        &mut self,
        files: &mut F,
        user: u16,
        segment: u16,
        at: u32,
    ) -> Result<Entered, LoaderFault>
        ensures held { (F.seen files.new).held ≡ (F.seen files.old).held }
        ensures never_falls { (F.seen files.old).faults ≤ (F.seen files.new).faults }
        ensures asked { HasAsked self.old user segment at (F.seen files.old).asked (F.seen files.new).asked }
        ensures did { DidJsl (F.seen files.old).held self.old user segment at result self.new (F.seen files.old).faults (F.seen files.new).faults }
    {
        let reached = self.reach(user, segment, at)?;
        match reached {
            Reached::Place(place) => Ok(place),
            Reached::Entry {
                user: other,
                segment: number,
                offset,
            } => self.enter(files, other, number, offset),
        }
    }

    /// Follows the JSL at an offset of an active segment of a user that runs. It enters the active segment in which its address
    /// lies. In a jump table the address must be the code of an entry: the entry's segment, of the table's user or of the attached
    /// user of the entry's file, is made active as by `load_segment`, and entered at the entry's offset. Where that segment is active
    /// or idle, no memory is taken.
    pub fn jsl<F: Files>(
        &mut self,
        files: &mut F,
        user: u16,
        segment: u16,
        at: u32,
    ) -> Result<Entered, LoaderFault>
        ensures held { (F.seen files.new).held ≡ (F.seen files.old).held }
        ensures never_falls { (F.seen files.old).faults ≤ (F.seen files.new).faults }

        // The file of the user that the entry names is read once where the entry's segment isn't there, and else not at all.
        ensures asked { HasAsked self.old user segment at (F.seen files.old).asked (F.seen files.new).asked }

        // Where the store reveals its files, and the loader agrees with them, it is the machine's step, and reads what that needs.
        ensures meets { (held : FileMap) (state : Machine) → (F.seen files.old).held ≡ Some held → Agrees held self.old state
            → Meets RoomRule held state (commands.Jsl user segment at) (jsl_reply result) self.new (F.seen files.old).faults (F.seen files.new).faults }
        ensures needed { (held : FileMap) (state : Machine) → (F.seen files.old).held ≡ Some held → Agrees held self.old state
            → ReadsNeeded held state (commands.Jsl user segment at) 0 (F.seen files.old).asked (F.seen files.new).asked }

        // A JSL to the code of an entry enters where the entry leads, or is refused where the file, a handle, room or memory is missing.
        ensures enters { (held : FileMap) (state : Machine) → (F.seen files.old).held ≡ Some held → Agrees held self.old state
            → (target : Target) → HasCall held state user segment at target → EntersTarget state user target result }

        // Over any files this much of it holds.
        ensures did { DidJsl (F.seen files.old).held self.old user segment at result self.new (F.seen files.old).faults (F.seen files.new).faults }
    {
        self.recall_invariant();
        self.recall_blocks_apart();
        let entered = self.follow(files, user, segment, at);
        self.recall_invariant();
        self.recall_blocks_apart();
        entered
    }
}
