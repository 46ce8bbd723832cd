//! Entries of a jump table, read and changed in place.

ghost use Rattle.std.specs.Prelude.{◌≡◌, ◌≢◌, ◌⊎◌, ◌↔◌, ◌+◌, ◌*◌, ◌<◌, ◌≤◌, ◌^◌, ℕ, Option, length, IsNone, IfSome, IfNone, MatchOption, None, Some};
ghost use Rattle.byteorder.specs.Endian.{little_bytes};
ghost use Rattle.load_meaning.specs.declared.table.Entry.{Entry};
ghost use Rattle.load_meaning.specs.Table.{HasCode, IsEntryAt, code_bytes, entry_bytes, entry_place, written_at};
ghost use Rattle.load_meaning.specs.LoadTable as tables;
ghost use Rattle.omf_format.specs.Number.{number_at};

use byteorder::{ByteOrder, LittleEndian};
use load_meaning::{Entry, Target};
use omf_base::number;

/// The code of an entry whose target isn't loaded: a JSL to the loader at $E1F000.
const UNLOADED: [u8; 4] = [0x22, 0x00, 0xF0, 0xE1];

/// How many bytes an entry has.
const ENTRY: usize = 14;

// The code at a displacement, if it is one.
fn read_code(bytes: &[u8], at: usize) -> Option<Option<u32>>
    requires { at + 4 ≤ length bytes.now }
    ensures found { IfSome result (λ code. HasCode code at bytes.now) }
    ensures none { IfNone result ((code : Option ℕ) → ¬ HasCode code at bytes.now) }
{
    match [
        number(bytes, at, 1),
        number(bytes, at + 1, 1),
        number(bytes, at + 2, 1),
        number(bytes, at + 3, 1),
    ] {
        [0x22, 0x00, 0xF0, 0xE1] => Some(None),
        [0x5C, _, _, _] => Some(Some(number(bytes, at + 1, 3))),
        _ => None,
    }
}

/// The entry that begins at a displacement. None where its 14 bytes would pass the end, or where its code is neither
/// that of a target that isn't loaded nor that of one that is.
pub fn read_entry(bytes: &[u8], at: usize) -> Option<Entry>
    ensures found { IfSome result (λ entry. IsEntryAt entry at bytes.now) }
    ensures none { IsNone result ↔ ((length bytes.now < at + 14) ⊎ ((code : Option ℕ) → ¬ HasCode code (at + 10) bytes.now)) }
{
    if bytes.len() < ENTRY || bytes.len() - ENTRY < at {
        return None;
    }
    let loaded = read_code(bytes, at + 10)?;
    let target = target_in(bytes, at);
    Some(Entry {
        user: user_in(bytes, at),
        file: target.file,
        segment: target.segment,
        offset: target.offset,
        loaded,
    })
}

/// The user ID of the entry that begins at a displacement, whatever its code is.
pub fn user_in(bytes: &[u8], at: usize) -> u16
    requires { at + 14 ≤ length bytes.now }
    ensures { result ≡ number_at 2 at bytes.now }
{
    number(bytes, at, 2) as u16
}

/// Where the entry that begins at a displacement leads, whatever its code is.
pub fn target_in(bytes: &[u8], at: usize) -> Target
    requires { at + 14 ≤ length bytes.now }
    ensures file { result.file ≡ number_at 2 (at + 2) bytes.now }
    ensures segment { result.segment ≡ number_at 2 (at + 4) bytes.now }
    ensures offset { result.offset ≡ number_at 4 (at + 6) bytes.now }
{
    Target {
        file: number(bytes, at + 2, 2) as u16,
        segment: number(bytes, at + 4, 2) as u16,
        offset: number(bytes, at + 6, 4),
    }
}

/// Whether the entry that begins at a displacement calls the loader.
pub fn is_unloaded(bytes: &[u8], at: usize) -> bool
    requires { at + 14 ≤ length bytes.now }
    ensures { result ≡ tables.is_call bytes.now (at + 10) }
{
    number(bytes, at + 10, 1) == 0x22
        && number(bytes, at + 11, 1) == 0x00
        && number(bytes, at + 12, 1) == 0xF0
        && number(bytes, at + 13, 1) == 0xE1
}

// Writes bytes over others from a displacement on.
fn overwrite_bytes(bytes: &mut [u8], at: usize, piece: &[u8])
    requires { at + length piece.now ≤ length bytes.old }
    ensures { bytes.new ≡ written_at at piece.now bytes.old }
{
    bytes[at..at + piece.len()].copy_from_slice(piece);
}

/// How many entries a table of a given number of bytes has.
pub fn entry_count(size: u32) -> u32
    ensures { result ≡ tables.entry_count size }
{
    size.saturating_sub(12) / 14
}

/// The place, from 0, of the entry whose code is at an offset of a table of a given number of bytes. None where no entry's code is.
pub fn entry_at(size: u32, offset: u32) -> Option<usize>
    ensures { MatchOption result ((k : ℕ) → k < tables.entry_count size → entry_place k ≢ offset)
        (λ k. (k < tables.entry_count size) × (entry_place k ≡ offset)) }
{
    if offset < 18 {
        return None;
    }
    if (offset - 18) % 14 != 0 {
        return None;
    }
    let place = (offset - 18) / 14;
    if place >= entry_count(size) {
        return None;
    }
    Some(place as usize)
}

/// Where the entry at a place of a table, from 0, leads.
#[tactic(auto, unfolding(load_meaning::specs::LoadTable::target_at))]
pub fn target_at(bytes: &[u8], place: usize) -> Target
    requires { 22 + 14 * place ≤ length bytes.now }
    ensures { result ≡ tables.target_at bytes.now place }
{
    target_in(bytes, 8 + 14 * place)
}

/// The bytes of an entry of a user for a target that isn't loaded.
#[tactic(auto, unfolding(load_meaning::specs::Table::entry_bytes))]
pub(crate) fn entry_of(user: u16, target: Target) -> [u8; 14]
    ensures bytes { result ≡ entry_bytes (record { user = user; file = target.file; segment = target.segment; offset = target.offset; loaded = None }) }
    ensures size { length result ≡ 14 }
{
    let mut entry = [0; 14];
    LittleEndian::write_u16(&mut entry, user);
    LittleEndian::write_u16(&mut entry[2..], target.file);
    LittleEndian::write_u16(&mut entry[4..], target.segment);
    LittleEndian::write_u32(&mut entry[6..], target.offset);
    entry[10..].copy_from_slice(&UNLOADED);
    entry
}

/// Writes an entry of a user for a target that isn't loaded, from a displacement on.
pub fn put_entry(bytes: &mut [u8], at: usize, user: u16, target: Target)
    requires { at + 14 ≤ length bytes.old }
    ensures { bytes.new ≡ written_at at (entry_bytes (record { user = user; file = target.file; segment = target.segment; offset = target.offset; loaded = None })) bytes.old }
{
    overwrite_bytes(bytes, at, &entry_of(user, target));
}

/// Sets the user ID of the entry that begins at a displacement.
pub fn set_user(bytes: &mut [u8], at: usize, user: u16)
    requires { at + 14 ≤ length bytes.old }
    ensures written { bytes.new ≡ written_at at (little_bytes 2 user) bytes.old }
    ensures entry { (entry : Entry) → IsEntryAt entry at bytes.old → IsEntryAt (record entry { user = user }) at bytes.new }
{
    let mut number = [0; 2];
    LittleEndian::write_u16(&mut number, user);
    overwrite_bytes(bytes, at, &number);
}

/// Makes the entry that begins at a displacement jump to its target's address.
pub fn set_loaded(bytes: &mut [u8], at: usize, address: u32)
    requires inside { at + 14 ≤ length bytes.old }
    requires address { address < 2 ^ 24 }
    ensures written { bytes.new ≡ written_at (at + 10) (code_bytes (Some address)) bytes.old }
    ensures entry { (entry : Entry) → IsEntryAt entry at bytes.old → IsEntryAt (record entry { loaded = Some address }) at bytes.new }
{
    let mut number = [0; 3];
    LittleEndian::write_u24(&mut number, address);
    let [low, middle, high] = number;
    overwrite_bytes(bytes, at + 10, &[0x5C, low, middle, high]);
}

/// Makes the entry that begins at a displacement call the loader.
pub fn set_unloaded(bytes: &mut [u8], at: usize)
    requires { at + 14 ≤ length bytes.old }
    ensures written { bytes.new ≡ written_at (at + 10) (code_bytes None) bytes.old }
    ensures entry { (entry : Entry) → IsEntryAt entry at bytes.old → IsEntryAt (record entry { loaded = None }) at bytes.new }
{
    overwrite_bytes(bytes, at + 10, &UNLOADED);
}
