//! What the segments of a program ask of their places, which handles they get, and where the program begins.

ghost use Rattle.std.specs.Prelude.{◌≡◌, ◌<◌, ◌^◌, map, length, unwrap_or, All, IfOk};
ghost use Rattle.iigs_meaning.specs.Fits.{IsWant};
ghost use Rattle.loader_machine.specs.Heads as heads;
ghost use Rattle.loader_machine.specs.Presences as presences;
ghost use Rattle.loader_machine.specs.Stands.{place_in};
ghost use Rattle.loader_machine.specs.Steps.{held_of_heads};

use crate::head::{is_code, is_static, want_of};
use crate::memory::presence;
use crate::user::UserSegment;
use iigs_compact_memory::CompactBanks;
use iigs_meaning::{Handle, Want};
use loader_machine::Presence;
use omf_cells::Places;
use std::alloc::{AllocError, Global};

/// What the static segments ask of their places, in order.
pub fn wants_of(alloc: Global, segments: &Vec<UserSegment>) -> Result<Vec<Want>, AllocError>
    ensures wants { IfOk result (λ wants. wants.items ≡ heads.wants_of (map (λ s. s.head) segments.now.items)) }
    ensures are { IfOk result (λ wants. All IsWant wants.items) }
{
    let mut wants = Vec::new(alloc);
    'segments: for segment in segments {
        if is_static(&segment.head) {
            wants.push(want_of(&segment.head))?;
        }
    }
    Ok(wants)
}

/// Gives the static segments these handles, in order, and the others none.
pub fn assign_handles(segments: &mut Vec<UserSegment>, handles: &[Handle])
    requires { length handles.now ≡ length (heads.wants_of (map (λ s. s.head) segments.old.items)) }
    ensures heads { map (λ s. s.head) segments.new.items ≡ map (λ s. s.head) segments.old.items }
    ensures handles { map (λ s. s.handle) segments.new.items ≡ map (λ held. held.handle) (held_of_heads (map (λ s. s.head) segments.old.items) handles.now) }
{
    let mut next = 0;
    let count = segments.len();
    'places: for place in 0..count {
        let head = segments[place].head;
        if is_static(&head) {
            segments[place] = UserSegment {
                handle: Some(handles[next]),
                head,
            };
            next += 1;
        } else {
            segments[place] = UserSegment { handle: None, head };
        }
    }
}

/// The number of the static segment at a place among the static ones, from 0.
pub fn number_of(segments: &Vec<UserSegment>, place: u32) -> u16
    requires short { length segments.now.items < 2 ^ 16 }
    requires inside { place < length (heads.wants_of (map (λ s. s.head) segments.now.items)) }
    ensures { result ≡ heads.number_of 1 (map (λ s. s.head) segments.now.items) place }
{
    let mut left = place;
    let mut number: u32 = 1;
    'segments: for segment in segments {
        if is_static(&segment.head) {
            if left == 0 {
                return number as u16;
            }
            left -= 1;
        }
        number += 1;
    }
    unreachable!()
}

/// Where a segment lies that is there.
fn address_of(banks: &CompactBanks, handle: Option<Handle>) -> Option<u32>
    ensures { result ≡ presences.there_at (presences.presence banks.now.slots handle) }
{
    match presence(banks, handle) {
        Presence::Active(_, address) => Some(address),
        Presence::Idle(_, address) => Some(address),
        Presence::Purged(_) => None,
        Presence::Absent => None,
    }
}

/// Sets where each segment lies.
pub fn set_places(banks: &CompactBanks, segments: &Vec<UserSegment>, places: &mut Places)
    requires short { length segments.now.items < 2 ^ 16 }
    requires room { length places.old ≡ length segments.now.items }
    ensures { places.new ≡ map (λ s. presences.there_at (presences.presence banks.now.slots s.handle)) segments.now.items }
{
    'places: for place in 0..segments.len() {
        let address = address_of(banks, segments[place].handle);
        places.set(place as u32 + 1, address);
    }
}

/// Where a segment lies, 0 where it isn't there.
pub fn place_of(banks: &CompactBanks, handle: Option<Handle>) -> u32
    ensures { result ≡ unwrap_or (presences.there_at (presences.presence banks.now.slots handle)) 0 }
{
    match address_of(banks, handle) {
        Some(address) => address,
        None => 0,
    }
}

/// Where a program begins: the place of its first static segment of code plus that one's ENTRY, modulo 2^24.
pub fn entry_of(banks: &CompactBanks, segments: &Vec<UserSegment>) -> Option<u32>
    ensures { result ≡ heads.entry_in (map (λ s. s.head) segments.now.items) (place_in banks.now.slots (map (λ s. s.handle) segments.now.items)) 1 }
{
    'segments: for segment in segments {
        if is_static(&segment.head) && is_code(&segment.head) {
            let sum = u64::from(place_of(banks, segment.handle)) + u64::from(segment.head.entry);
            return Some((sum % 0x100_0000) as u32);
        }
    }
    None
}
