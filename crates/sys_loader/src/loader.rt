//! The loader.

ghost use Rattle.std.specs.Prelude.{◌≡◌, ◌+◌, ℕ, [], Some, None, option_map, map, IfOk, IfErr, OnErr, ◌≤◌, ◌<◌, ◌^◌, length, vec_capacity, MatchOption};
ghost use Rattle.omf_io.specs.Files.{FileMap};
ghost use Rattle.iigs_meaning.specs.Memory.{IsNew};
ghost use Rattle.iigs_meaning.specs.Banks.{IsBanksRefusal};
ghost use Rattle.loader_machine.specs.Rule.{RoomRule};
ghost use Rattle.iigs_meaning.specs.Slots.{slot_at};
ghost use Rattle.iigs_meaning.specs.Fits.{HoldsByte};
ghost use Rattle.iigs_meaning.specs.Blocks.{AreApart};
ghost use Rattle.loader_machine.specs.State.{user_of, is_attached, led_by, Machine, empty_of};
ghost use Rattle.loader_machine.specs.Refusals.{bytes_refusal, info_refusal};
ghost use Rattle.loader_machine.specs.Commands as commands;
ghost use Rattle.loader_machine.specs.Commands.{Bytes, Shown, Refused};
ghost use Rattle.loader_agrees.specs.Agrees.{Loaded, kept_outlines, seen_in, seen_by, IsSound, Agrees, Met};
ghost use Rattle.loader_agrees.specs.Acts.{CanRead, HasBorrowed, HasReported, LiesIn};
ghost use Rattle.loader_agrees.specs.Checks.{PassesRunning, StopsRunning};
ghost use Rattle.loader_users.specs.View.{kept};
ghost use Rattle.sys_loader.specs.Replies.{info_reply, where_reply};
ghost use Rattle.sys_loader.specs.Naming.{NamesPlace};

use crate::answers::{Entered, Info};
use iigs_compact_memory::CompactBanks;
use iigs_meaning::{BanksFault, BlockFault, Handle};
use loader_machine::{Life, LoaderFault};
use loader_users::{FIRST_ID, User, active, holder_of, owner_of, presence, search_owner, slice};
use std::alloc::{AllocError, Global};
use std::marker::Model;

/// How many users can be made.
pub(crate) const MAX_USERS: usize = 255;

/// Programs in memory of banks.
#[derive(Drop)]
pub struct Loader {
    pub(crate) alloc: Global,
    pub(crate) banks: CompactBanks,
    // With room for all users. None is gone.
    pub(crate) users: Vec<Option<User>>,
    // For the last byte of a slot, the number of the segment in whose block a call's address was found last: the first to be asked.
    pub(crate) last_hits: [u16; 256],
}

impl Model for Loader {
    ghost use Rattle.std.specs.Prelude.{◌≤◌, map, option_map, vec_capacity};
    ghost use Rattle.loader_agrees.specs.Agrees.{Loaded, IsSound};
    ghost use Rattle.loader_users.specs.View.{kept, loaded};

    ghost Value = { Loaded };

    ghost view = { λ s. loaded s.banks s.users.items };

    ghost invariant = { λ s. IsSound s.banks (map (option_map kept) s.users.items) × (255 ≤ vec_capacity s.users) };
}

fn no_users(alloc: Global, count: usize) -> Result<Vec<Option<User>>, AllocError>
    ensures { IfOk result (λ users. (users.items ≡ []) × (vec_capacity users ≡ count)) }
{
    Vec::with_capacity(alloc, count)
}

/// Where an address lies, and in which slot's block.
#[derive(Clone, Copy)]
pub(crate) struct Hit {
    pub(crate) place: Entered,
    pub(crate) slot: u16,
}

impl Loader {
    /// A loader of these banks, without users.
    pub fn new(alloc: Global, banks: &[u8]) -> Result<Loader, BanksFault>
        // Over any files it agrees with the empty state.
        ensures agrees { IfOk result (λ loader. (held : FileMap) → Agrees held loader (empty_of banks.now)) }
        ensures empty { IfOk result (λ loader. IsNew banks.now loader.memory × (loader.users ≡ [])) }
        ensures refused { IfErr result (IsBanksRefusal banks.now) }
    {
        let memory = CompactBanks::new(alloc, banks)?;
        match no_users(alloc, MAX_USERS) {
            Ok(users) => Ok(Loader {
                alloc,
                banks: memory,
                users,
                last_hits: [0; 256],
            }),
            Err(AllocError) => Err(BanksFault::Memory),
        }
    }

    // What is true of every loader.
    pub(crate) fn recall_invariant(&self)
        ensures { IsSound self.now.memory self.now.users }
    {
        let _users = &self.users;
    }

    // What is true of every loader's blocks.
    pub(crate) fn recall_blocks_apart(&self)
        ensures apart { AreApart self.now.memory.banks self.now.memory.slots }
        ensures below { (place address : ℕ) → HoldsByte address (slot_at self.now.memory.slots place) → address < 2 ^ 24 }
    {
        self.banks.blocks_lie_apart();
        self.banks.blocks_have_addresses();
    }

    // The user of an ID, who isn't gone.
    pub(crate) fn user(&self, id: u16) -> Option<&User>
        ensures { option_map (λ user. kept user.now) result ≡ user_of self.now.users id }
    {
        if id < FIRST_ID {
            return None;
        }
        match self.users.get(usize::from(id - FIRST_ID)) {
            Some(Some(user)) => Some(user),
            Some(None) => None,
            None => None,
        }
    }

    // The user whose tables lead to the segments of the user of an ID, and the file number by which they do.
    pub(crate) fn led_by(&self, id: u16) -> (u16, u16)
        ensures { result ≡ led_by (kept_outlines self.now.users) id }
    {
        self.recall_invariant();
        match holder_of(&self.users, id) {
            Some(lead) => lead,
            None => (id, 1),
        }
    }

    // The user of an ID is attached to another.
    pub(crate) fn is_attached(&self, id: u16) -> bool
        ensures { result ≡ is_attached (kept_outlines self.now.users) id }
    {
        self.recall_invariant();
        match holder_of(&self.users, id) {
            Some(_) => true,
            None => false,
        }
    }

    // The user of an ID, who runs.
    pub(crate) fn running(&self, id: u16) -> Result<&User, LoaderFault>
        ensures ok { IfOk result (λ user. (user_of self.now.users id ≡ Some (kept user.now)) × ((kept user.now).life ≡ Life.Running)
            × PassesRunning (seen_by self.now id) (seen_in (kept user.now))) }
        ensures err { IfErr result (λ fault. StopsRunning (seen_by self.now id) fault) }
    {
        let Some(user) = self.user(id) else {
            return Err(LoaderFault::NoUser);
        };
        match user.life {
            Life::Running => Ok(user),
            Life::Dormant => Err(LoaderFault::NotRunning),
        }
    }

    // The handle of an active segment of which these bytes may be read.
    fn readable(&self, id: u16, number: u16, at: u32, count: u32) -> Result<Handle, LoaderFault>
        ensures can { IfOk result (λ h. CanRead self.now id number at count h) }
        ensures refused { IfErr result (λ fault. bytes_refusal self.now.memory.slots (seen_by self.now id) number at count ≡ Some fault) }
    {
        let user = self.running(id)?;
        let segment = user.kept_segment(number)?;
        let h = active(&self.banks, segment.handle)?;
        if u64::from(at) + u64::from(count) > u64::from(segment.head.length) {
            return Err(LoaderFault::OutOfSegment);
        }
        Ok(h)
    }

    // The `count` bytes of an active segment from an offset on.
    pub(crate) fn borrow_bytes(
        &self,
        user: u16,
        segment: u16,
        at: u32,
        count: u32,
    ) -> Result<&[u8], LoaderFault>
        ensures borrowed { IfOk result (λ bytes. HasBorrowed self.now user segment at count bytes.now) }
        ensures refused { IfErr result (λ fault. bytes_refusal self.now.memory.slots (seen_by self.now user) segment at count ≡ Some fault) }
    {
        self.recall_invariant();
        let h = self.readable(user, segment, at, count)?;
        match self.banks.block(h) {
            Ok(bytes) => Ok(slice(bytes, at as usize, count as usize)),
            Err(BlockFault::Stale) => unreachable!(),
            Err(BlockFault::Empty) => unreachable!(),
        }
    }

    /// The `length` bytes, from an offset on, of an active segment of a user that runs.
    pub fn bytes(&self, user: u16, segment: u16, at: u32, length: u32) -> Result<&[u8], LoaderFault>
        // Over files with which the loader agrees, it is the machine's step.
        ensures shows { IfOk result (λ bytes. (held : FileMap) (state : Machine) → Agrees held self.now state
            → Met RoomRule held state (Bytes user segment at length) (Shown bytes.now) self.now) }
        ensures refuses { IfErr result (λ fault. (held : FileMap) (state : Machine) → Agrees held self.now state
            → Met RoomRule held state (Bytes user segment at length) (Refused fault) self.now) }

        // Over any files this much of it holds.
        ensures borrowed { IfOk result (λ bytes. HasBorrowed self.now user segment at length bytes.now) }
        ensures refused { IfErr result (λ fault. bytes_refusal self.now.memory.slots (seen_by self.now user) segment at length ≡ Some fault) }
    {
        self.borrow_bytes(user, segment, at, length)
    }

    // What is known of a segment.
    fn report_segment(&self, user: u16, segment: u16) -> Result<Info, LoaderFault>
        ensures reported { IfOk result (λ info. HasReported self.now user segment info.presence info.length info.kind) }
        ensures refused { IfErr result (λ fault. info_refusal (seen_by self.now user) segment ≡ Some fault) }
    {
        let Some(kept) = self.user(user) else {
            return Err(LoaderFault::NoUser);
        };
        let found = kept.kept_segment(segment)?;
        Ok(Info {
            presence: presence(&self.banks, found.handle),
            length: found.head.length,
            kind: found.head.kind,
        })
    }

    /// What is known of a user's segment: whether and where it is in memory, LENGTH and KIND.
    pub fn info(&self, user: u16, segment: u16) -> Result<Info, LoaderFault>
        // Over files with which the loader agrees, it is the machine's step.
        ensures meets { (held : FileMap) (state : Machine) → Agrees held self.now state → Met RoomRule held state (commands.Info user segment) (info_reply result) self.now }

        // Over any files this much of it holds.
        ensures reported { IfOk result (λ info. HasReported self.now user segment info.presence info.length info.kind) }
        ensures refused { IfErr result (λ fault. info_refusal (seen_by self.now user) segment ≡ Some fault) }
    {
        self.report_segment(user, segment)
    }

    // The place of an address among the users' active segments, with the slot of the block that it is in.
    pub(crate) fn find_with_slot(&self, address: u32) -> Option<Hit>
        ensures { MatchOption result ((id number offset : ℕ) → ¬ LiesIn self.now address id number offset)
            (λ hit. LiesIn self.now address hit.place.user hit.place.segment hit.place.offset × (hit.place.address ≡ address)) }
    {
        let h = match self.banks.holder(address) {
            Some(h) => h,
            None => return None,
        };
        let user = owner_of(&self.banks, h);
        match search_owner(
            &self.banks,
            &self.users,
            user,
            h,
            self.last_hits[usize::from(h.slot % 256)],
            address,
        ) {
            Some((segment, offset)) => Some(Hit {
                place: Entered {
                    user,
                    segment,
                    offset,
                    address,
                },
                slot: h.slot,
            }),
            None => None,
        }
    }

    // The place of an address among the users' active segments.
    fn find_address(&self, address: u32) -> Option<Entered>
        ensures { MatchOption result ((id number offset : ℕ) → ¬ LiesIn self.now address id number offset)
            (λ entered. LiesIn self.now address entered.user entered.segment entered.offset × (entered.address ≡ address)) }
    {
        match self.find_with_slot(address) {
            Some(hit) => Some(hit.place),
            None => None,
        }
    }

    /// The active segment of a user that runs in which an address lies, with the offset.
    pub fn locate(&self, address: u32) -> Option<Entered>
        // Over files with which the loader agrees, it is the machine's step.
        ensures meets { (held : FileMap) (state : Machine) → Agrees held self.now state → Met RoomRule held state (commands.Where address) (where_reply result) self.now }

        // Over any files this much of it holds.
        ensures lies { MatchOption result ((id number offset : ℕ) → ¬ LiesIn self.now address id number offset)
            (λ entered. LiesIn self.now address entered.user entered.segment entered.offset × (entered.address ≡ address)) }

        // Three bytes that were patched with a place are an address there.
        ensures names { (held : FileMap) (state : Machine) → Agrees held self.now state → NamesPlace held state address result }
    {
        self.recall_invariant();
        self.recall_blocks_apart();
        self.find_address(address)
    }
}
