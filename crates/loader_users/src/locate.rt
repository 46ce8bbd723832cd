//! Where an address lies among a user's segments.

ghost use Rattle.std.specs.Prelude.{◌≡◌, ◌<◌, ◌^◌, ℕ, length, MatchOption};
ghost use Rattle.loader_users.specs.Lying.{LiesAt, LiesInNone, LiesInOne, IsNowhereOf, IsSomewhereOf, IsNowhereFor, IsSomewhere};
ghost use Rattle.iigs_meaning.specs.Slots.{get};
ghost use Rattle.std.specs.Prelude.{Some, slice_get, IfSome, IsSome, IsSomeAnd};
ghost use Rattle.loader_users.specs.declared.user.User as declared;

use crate::memory::presence;
use crate::user::{FIRST_ID, User, UserSegment};
use iigs_compact_memory::CompactBanks;
use iigs_meaning::{BlockFault, Handle};
use loader_machine::{Life, Presence};

/// The offset at which an address lies in a segment, where that is active under a handle.
fn offset_in(banks: &CompactBanks, segment: &UserSegment, h: Handle, address: u32) -> Option<u32>
    ensures { MatchOption result ((offset : ℕ) → ¬ LiesAt banks.now.slots segment.now h address offset) (LiesAt banks.now.slots segment.now h address) }
{
    let Some(own) = segment.handle else {
        return None;
    };
    if own != h {
        return None;
    }
    match presence(banks, segment.handle) {
        Presence::Active(_, first) => {
            if first <= address && address - first < segment.head.length {
                Some(address - first)
            } else {
                None
            }
        }
        Presence::Idle(_, _) => None,
        Presence::Purged(_) => None,
        Presence::Absent => None,
    }
}

/// The offset at which an address lies in the segment with a number, from 1, where there is one that is active under a handle.
fn offset_there(
    banks: &CompactBanks,
    segments: &Vec<UserSegment>,
    h: Handle,
    number: u16,
    address: u32,
) -> Option<u32>
    ensures { IfSome result (LiesInOne banks.now.slots segments.now.items h address number) }
{
    if number == 0 {
        return None;
    }
    match segments.get(usize::from(number) - 1) {
        Some(segment) => offset_in(banks, segment, h, address),
        None => None,
    }
}

/// The number of the segment, active under a handle, in which an address lies, from 1, with the offset. The one with the number
/// `first` is asked before all.
pub fn search(
    banks: &CompactBanks,
    segments: &Vec<UserSegment>,
    h: Handle,
    first: u16,
    address: u32,
) -> Option<(u16, u32)>
    requires { length segments.now.items < 2 ^ 16 }
    ensures { MatchOption result (LiesInNone banks.now.slots segments.now.items (length segments.now.items) h address)
        (λ found. LiesInOne banks.now.slots segments.now.items h address found.0 found.1) }
{
    match offset_there(banks, segments, h, first, address) {
        Some(offset) => return Some((first, offset)),
        None => {}
    }
    let mut number: u32 = 1;
    'segments: for segment in segments {
        match offset_in(banks, segment, h, address) {
            Some(offset) => return Some((number as u16, offset)),
            None => {}
        }
        number += 1;
    }
    None
}

/// The number of the segment of a user, active under a handle, in which an address lies, with the offset, where the user isn't gone and
/// runs. The one with the number `first` is asked before all.
pub fn search_user(
    banks: &CompactBanks,
    user: &Option<User>,
    h: Handle,
    first: u16,
    address: u32,
) -> Option<(u16, u32)>
    requires { (one : declared.User) → user.now ≡ Some one → length one.segments.items < 2 ^ 16 }
    ensures { MatchOption result (IsNowhereOf banks.now.slots user.now h address) (λ found. IsSomewhereOf banks.now.slots user.now h address found.0 found.1) }
{
    match user {
        Some(one) => match one.life {
            Life::Running => search(banks, &one.segments, h, first, address),
            Life::Dormant => None,
        },
        None => None,
    }
}

/// The user whose block a handle's is.
pub fn owner_of(banks: &CompactBanks, h: Handle) -> u16
    requires { IsSome (get banks.now.slots h) }
    ensures { IsSomeAnd (get banks.now.slots h) (λ block. block.user ≡ result) }
{
    match banks.state(h) {
        Ok(state) => state.user,
        Err(BlockFault::Stale) => unreachable!(),
        Err(BlockFault::Empty) => unreachable!(),
    }
}

/// The number of the segment of the user of an ID, active under a handle, in which an address lies, with the offset.
pub fn search_owner(
    banks: &CompactBanks,
    users: &Vec<Option<User>>,
    id: u16,
    h: Handle,
    first: u16,
    address: u32,
) -> Option<(u16, u32)>
    requires short { (k : ℕ) (one : declared.User) → slice_get users.now.items k ≡ Some (Some one) → length one.segments.items < 2 ^ 16 }
    ensures { MatchOption result (IsNowhereFor banks.now.slots users.now.items h address id)
        (λ found. IsSomewhere banks.now.slots users.now.items h address id found.0 found.1) }
{
    if id < FIRST_ID {
        return None;
    }
    match users.get(usize::from(id - FIRST_ID)) {
        Some(user) => search_user(banks, user, h, first, address),
        None => None,
    }
}
