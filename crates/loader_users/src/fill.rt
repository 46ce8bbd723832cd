//! Segments written into their blocks.

ghost use Rattle.std.specs.Prelude.{◌≡◌, ◌+◌, ◌*◌, ◌≤◌, ◌<◌, ◌^◌, ℕ, List, length, map, replicate, IsSomeAnd, IsSome, Some};
ghost use Rattle.omf_io.specs.Counts.{IsFront};
ghost use Rattle.load_meaning.specs.Cells as cells;
ghost use Rattle.load_meaning.specs.Table.{table_bytes};
ghost use Rattle.omf_format.specs.File.{segment_at};
ghost use Rattle.load_content.specs.Places.{address_in};
ghost use Rattle.omf_cells.specs.Load.{HasLength, table_targets};
ghost use Rattle.iigs_meaning.specs.Slots.{get};
ghost use Rattle.iigs_meaning.specs.Memory.{bytes_at};
ghost use Rattle.loader_machine.specs.Heads.{head_of};
ghost use Rattle.loader_users.specs.Filling.{own_entry, HasHead, AreSound, IsFilled, IsWritten, AreReady, AreFilled};

use crate::head::is_table;
use crate::user;
use iigs_compact_memory::CompactBanks;
use iigs_meaning::Handle;
use jump_table::put_entry;
use loader_machine::SegmentHead;
use omf_cells::{LoadFile, Places, patch_into};

/// Writes a segment that is no table to the start of the bytes, as it is at these places.
fn fill_plain(load: &LoadFile<'_>, number: u32, size: usize, places: &Places, out: &mut [u8])
    requires length { HasLength load.now number size }
    requires fits { size ≤ length out.old }
    ensures front { IsSomeAnd (segment_at load.now number) (λ s. IsFront (cells.stands (address_in places.now) s) out.new) }
    ensures same { length out.new ≡ length out.old }
{
    patch_into(load, number, places, &mut out[..size]);
}

/// Makes the bytes zeros.
fn clear(out: &mut [u8])
    ensures { out.new ≡ replicate (length out.old) 0 }
{
    out.fill(0);
}

/// Writes the file's jump table to the start of the bytes, the entries with the user's ID and none of them loaded.
fn fill_table(load: &LoadFile<'_>, user: u16, out: &mut [u8])
    requires fits { 12 + 14 * length (table_targets load.now) ≤ length out.old }
    ensures front { IsFront (table_bytes (map (own_entry user) (table_targets load.now))) out.new }
    ensures same { length out.new ≡ length out.old }
{
    clear(out);
    'entries: for place in 0..load.target_count() {
        let target = match load.target(place) {
            Some(target) => target,
            None => unreachable!(),
        };
        put_entry(out, 8 + 14 * place as usize, user, target);
    }
}

/// Writes a segment's content to the start of the bytes, as it is where the file's segments lie at these places.
fn fill(
    load: &LoadFile<'_>,
    number: u32,
    head: &SegmentHead,
    places: &Places,
    user: u16,
    out: &mut [u8],
)
    requires sound { AreSound load.now }
    requires head { HasHead load.now number head.now }
    requires fits { head.now.length ≤ length out.old }
    ensures filled { IsFilled load.now number user places.now out.new }
    ensures same { length out.new ≡ length out.old }
{
    if is_table(head) {
        fill_table(load, user, out);
    } else {
        fill_plain(load, number, head.length as usize, places, out);
    }
}

/// Writes a segment into its block.
pub fn fill_block(
    banks: &mut CompactBanks,
    h: Handle,
    load: &LoadFile<'_>,
    number: u32,
    head: &SegmentHead,
    places: &Places,
    user: u16,
)
    requires sound { AreSound load.now }
    requires head { HasHead load.now number head.now }
    requires there { IsSomeAnd (get banks.old.slots h) (λ block. IsSome block.at) }
    requires fits { head.now.length ≤ length (bytes_at banks.old h.slot) }
    ensures { IsWritten load.now number user places.now banks.old h banks.new }
{
    fill(load, number, head, places, user, banks.lend(h));
}

/// Writes all segments that have a handle into their blocks.
pub fn fill_all(
    banks: &mut CompactBanks,
    load: &LoadFile<'_>,
    segments: &Vec<user::UserSegment>,
    places: &Places,
    user: u16,
)
    requires sound { AreSound load.now }
    requires heads { map (λ s. s.head) segments.now.items ≡ map head_of load.now }
    requires short { length segments.now.items < 2 ^ 16 }
    requires ready { AreReady banks.old (map (λ s. s.head) segments.now.items) (map (λ s. s.handle) segments.now.items) }
    ensures { AreFilled load.now (map (λ s. s.handle) segments.now.items) user places.now banks.old banks.new (length segments.now.items) }
{
    'places: for place in 0..segments.len() {
        let segment = &segments[place];
        match segment.handle {
            Some(h) => fill_block(
                banks,
                h,
                load,
                place as u32 + 1,
                &segment.head,
                places,
                user,
            ),
            None => {}
        }
    }
}
