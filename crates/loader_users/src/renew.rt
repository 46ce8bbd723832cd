//! Entries of tables in memory that follow the segments to which they lead.

ghost use Rattle.std.specs.Prelude.{◌≡◌, ◌+◌, ◌-◌, ◌*◌, ◌%◌, ◌<◌, ◌≤◌, ◌^◌, ℕ, length, map, IsSome, IsSomeAnd};
ghost use Rattle.iigs_meaning.specs.Slots.{get};
ghost use Rattle.iigs_meaning.specs.Memory.{bytes_at};
ghost use Rattle.loader_machine.specs.Presences as presences;
ghost use Rattle.loader_users.specs.Bytes.{with_bytes};
ghost use Rattle.loader_users.specs.Renewing.{is_chosen, code_for, renewed_at, relinked_entries, IsRenewed, AreRoomy, AreRenewed};

use crate::head::is_table;
use crate::memory::presence;
use crate::user::UserSegment;
use iigs_compact_memory::CompactBanks;
use iigs_meaning::Handle;
use jump_table::{entry_count, set_loaded, set_unloaded};
use loader_machine::Presence;
use omf_base::number;

/// The entries for this segment, of the file with this number, follow.
fn is_chosen_entry(only: Option<(u16, u16)>, file: u32, segment: u32) -> bool
    ensures { result ≡ is_chosen only file segment }
{
    match only {
        Some(one) => file == u32::from(one.0) && segment == u32::from(one.1),
        None => true,
    }
}

/// An address of 24 bits.
pub fn address_in(place: u32, offset: u32) -> u32
    ensures { result ≡ (place + offset) % 2 ^ 24 }
{
    ((u64::from(place) + u64::from(offset)) % 0x100_0000) as u32
}

/// The entry that begins there follows, if it is for this segment.
#[tactic(auto, unfolding(crate::specs::Renewing::renewed_at))]
fn relink_entry(bytes: &mut [u8], at: usize, only: Option<(u16, u16)>, place: Option<u32>)
    requires { at + 14 ≤ length bytes.old }
    ensures is { bytes.new ≡ renewed_at only place at bytes.old }
    ensures same { length bytes.new ≡ length bytes.old }
{
    if is_chosen_entry(only, number(bytes, at + 2, 2), number(bytes, at + 4, 2)) {
        match place {
            Some(place) => {
                let offset = number(bytes, at + 6, 4);
                set_loaded(bytes, at, address_in(place, offset));
            }
            None => set_unloaded(bytes, at),
        }
    }
}

/// `count` entries of a table follow.
fn relink_entries(bytes: &mut [u8], count: usize, only: Option<(u16, u16)>, place: Option<u32>)
    requires { 14 * count ≤ length bytes.old - 12 }
    ensures is { bytes.new ≡ relinked_entries only place count bytes.old }
    ensures same { length bytes.new ≡ length bytes.old }
{
    'entries: for k in 0..count {
        relink_entry(bytes, 8 + 14 * k, only, place);
    }
}

/// The entries of a table's block follow.
fn relink_block(
    banks: &mut CompactBanks,
    h: Handle,
    count: usize,
    only: Option<(u16, u16)>,
    place: Option<u32>,
)
    requires there { IsSomeAnd (get banks.old.slots h) (λ block. IsSome block.at) }
    requires room { 14 * count ≤ length (bytes_at banks.old h.slot) - 12 }
    ensures written { banks.new ≡ with_bytes banks.old h.slot (relinked_entries only place count (bytes_at banks.old h.slot)) }
    ensures same { length (relinked_entries only place count (bytes_at banks.old h.slot)) ≡ length (bytes_at banks.old h.slot) }
{
    relink_entries(banks.lend(h), count, only, place);
}

/// The entries of a table follow, if it is there.
fn relink_table(
    banks: &mut CompactBanks,
    table: &UserSegment,
    only: Option<(u16, u16)>,
    place: Option<u32>,
)
    requires room { (h : Handle) → table.now.handle ≡ Some h → IsSome (presences.there_at (presences.presence banks.old.slots (Some h)))
        → table.now.head.length ≤ length (bytes_at banks.old h.slot) }
    ensures { IsRenewed only place table.now.handle table.now.head.length banks.old banks.new }
{
    let count = entry_count(table.head.length) as usize;
    match presence(banks, table.handle) {
        Presence::Active(h, _) => relink_block(banks, h, count, only, place),
        Presence::Idle(h, _) => relink_block(banks, h, count, only, place),
        Presence::Purged(_) => {}
        Presence::Absent => {}
    }
}

/// The entries of a user's tables for a segment, by file and number, or for all, lead to it at a place, or call the loader where it isn't
/// active.
pub fn relink_tables(
    banks: &mut CompactBanks,
    segments: &Vec<UserSegment>,
    only: Option<(u16, u16)>,
    place: Option<u32>,
)
    requires ready { AreRoomy banks.old (map (λ s. s.head) segments.now.items) (map (λ s. s.handle) segments.now.items) }
    ensures { AreRenewed (map (λ s. s.head) segments.now.items) (map (λ s. s.handle) segments.now.items) only place banks.old banks.new (length segments.now.items) }
{
    'places: for k in 0..segments.len() {
        let segment = &segments[k];
        if is_table(&segment.head) {
            relink_table(banks, segment, only, place);
        }
    }
}
