//! Segments, as they are written one after another.

ghost use Rattle.std.specs.Prelude.{◌≡◌, ◌≤◌, ◌+◌, ◌<◌, ◌++◌, [], ◌∷◌, Some, length, map, slice_get, IfOk, IfErr, OnOk, IsErrOf, MatchOption};
ghost use Rattle.omf_format.specs.File.{Segment, segment_at};
ghost use Rattle.load_writer.specs.WrittenParts.{seen};
ghost use Rattle.omf_compact.specs.Canonical.{plain_of, plain, canon_segment, canon};
ghost use Rattle.omf_compact.specs.laws.Writing.{IsKnown, HasSegment, HasStretches, AreStretches, AtExports};

use crate::content::put_content;
use crate::exports::put_exports;
use crate::write_fault::CompactWriteFault;
use omf_cells::{LoadFile, Patch};
use omf_header::{close_segment, header_before, header_size, put_room, recall_header_size};
use std::alloc::Global;

/// Appends the segment with this number, whose cells have these patches; `place` is the number of ENTRY records before its own in the file.
/// Returns that number plus the number of its own. It is too long where the file would exceed 16,777,216 bytes.
fn put_segment(
    alloc: Global,
    out: &mut Vec<u8>,
    load: &LoadFile,
    number: u32,
    patches: &[Patch],
    place: u32,
) -> Result<u32, CompactWriteFault>
    requires known { IsKnown load.now }
    requires there { HasSegment load.now number }
    requires whole { (s : Segment) → segment_at load.now number ≡ Some s → HasStretches s (map seen patches.now) }
    requires at { AtExports load.now number place }
    requires short { length out.old.items ≤ 0x1000000 }
    ensures ok { OnOk result ((s : Segment) → segment_at load.now number ≡ Some s → out.new.items ≡ out.old.items ++ canon_segment number (plain_of s)) }
    ensures next { IfOk result (λ next. AtExports load.now (number + 1) next) }
    ensures short { OnOk result (length out.new.items ≤ 0x1000000) }
    ensures too_long { IsErrOf result CompactWriteFault.TooLong → (s : Segment) → segment_at load.now number ≡ Some s
        → 0x1000000 < length out.old.items + length (canon_segment number (plain_of s)) }
{
    let header = match load.header(number) {
        Some(header) => header,
        None => unreachable!(),
    };
    recall_header_size(header.load_name);
    let start = out.as_slice().len();
    let room = header_size(&header.name);
    put_room(out, room)?;
    let zeros = put_content(alloc, out, load, header, patches)?;
    let next = put_exports(out, load, header.seg_num, place)?;
    let size = out.as_slice().len() - start - room;
    let front = header_before(alloc, header, zeros, size)?;
    close_segment(out, start, front.as_slice())?;
    Ok(next)
}

/// The patches at a place.
fn patches_at(lists: &[Vec<Patch>], place: usize) -> Option<&Vec<Patch>>
    ensures { MatchOption result (length lists.now ≤ place) (λ patches. slice_get lists.now place ≡ Some patches.now) }
{
    lists.get(place)
}

/// Appends all segments of a load file, one after another.
pub fn put_segments(
    alloc: Global,
    out: &mut Vec<u8>,
    load: &LoadFile,
    lists: &[Vec<Patch>],
) -> Result<(), CompactWriteFault>
    requires known { IsKnown load.now }
    requires lists { AreStretches load.now lists.now }
    requires empty { out.old.items ≡ [] }
    ensures ok { OnOk result (out.new.items ≡ canon (plain load.now)) }
    ensures short { OnOk result (length out.new.items ≤ 0x1000000) }
    ensures too_long { IsErrOf result CompactWriteFault.TooLong → 0x1000000 < length (canon (plain load.now)) }
{
    let mut place = 0;
    'segments: for index in 0..load.count() {
        let Some(patches) = patches_at(lists, index as usize) else {
            unreachable!()
        };
        place = put_segment(alloc, out, load, index + 1, patches.as_slice(), place)?;
    }
    Ok(())
}
