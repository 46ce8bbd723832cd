//! The patches of a segment's cells, where they don't lie apart: the cells that are parts are gone over one by one, and the bytes between
//! them are passed over.

ghost use Rattle.std.specs.Prelude.{◌≡◌, ◌<◌, true, false, map, Some, None, IfOk, IfSome, MatchOption};
ghost use Rattle.std.specs.List.{AllByRecursion};
ghost use Rattle.omf_format.specs.File.{Segment, segment_at};
ghost use Rattle.load_meaning.specs.Cells.{cells, cell_at};
ghost use Rattle.load_writer.specs.WrittenParts.{seen};
ghost use Rattle.omf_compact.specs.Stretches.{IsWrittenCell};
ghost use Rattle.omf_compact.specs.laws.Walk.{placed, goes_on, with_part, IsNoPart, IsPartAt, IsParted};

use crate::gaps::after_gap;
use omf_cells::{Cell, LoadFile, Patch};
use std::alloc::{AllocError, Global};

/// One byte of a place in a segment of the same file, at an offset.
#[derive(Clone, Copy)]
pub struct Single {
    pub at: u32,
    pub offset: u32,
    pub segment: u16,
    pub shift: i8,
    /// Which byte of the place it is.
    pub index: u8,
}

/// The patches of cells, or the offset of the first part that is broken.
#[derive(Drop)]
pub enum Parted {
    Patches(Vec<Patch>),
    Broken(u32),
}

/// Whether the part is the next byte of the patch's place.
fn goes_on(patch: &Patch, part: &Single) -> bool
    ensures { result ≡ goes_on (seen patch.now) (placed part.now).0 (placed part.now).1 }
{
    u64::from(patch.at) + u64::from(patch.count) == u64::from(part.at)
        && patch.count == part.index
        && patch.segment == part.segment
        && patch.offset == part.offset
        && patch.shift == part.shift
}

/// Makes the last patch one byte longer, if the part, which isn't the first byte of its place, continues it.
fn extend(patches: &mut Vec<Patch>, part: &Single) -> Result<bool, AllocError>
    requires some { (part.now).index ≡ 0 → ⊥ }
    requires few { (part.now).index < 4 }
    ensures put { IfOk result (λ ok. ok ≡ true → with_part (map seen patches.old.items) (placed part.now).0 (placed part.now).1 ≡ Some (map seen patches.new.items)) }
    ensures broken { IfOk result (λ ok. ok ≡ false → with_part (map seen patches.old.items) (placed part.now).0 (placed part.now).1 ≡ None) }
{
    let mut last = match patches.pop() {
        Some(last) => last,
        None => return Ok(false),
    };
    if goes_on(&last, part) {
        last.count += 1;
        patches.push(last)?;
        return Ok(true);
    }
    Ok(false)
}

/// Adds a part to the patches, if it isn't broken.
fn append_part(patches: &mut Vec<Patch>, part: &Single) -> Result<bool, AllocError>
    requires { (part.now).index < 4 }
    ensures put { IfOk result (λ ok. ok ≡ true → with_part (map seen patches.old.items) (placed part.now).0 (placed part.now).1 ≡ Some (map seen patches.new.items)) }
    ensures broken { IfOk result (λ ok. ok ≡ false → with_part (map seen patches.old.items) (placed part.now).0 (placed part.now).1 ≡ None) }
{
    if part.index > 0 {
        return extend(patches, part);
    }
    patches.push(Patch {
        at: part.at,
        count: 1,
        shift: part.shift,
        segment: part.segment,
        offset: part.offset,
    })?;
    Ok(true)
}

/// The part at an offset of the segment with this number, if there is no byte.
fn part_at(load: &LoadFile, number: u32, at: u32) -> Option<Single>
    requires { IfSome (cell_at load.now number at) IsWrittenCell }
    ensures { MatchOption result (IsNoPart (cell_at load.now number at)) (λ part. IsPartAt part at (cell_at load.now number at)) }
{
    match load.cell(number, at) {
        Some(
            Cell::Part {
                file: _,
                segment,
                offset,
                shift,
                index,
            },
        ) => Some(Single {
            at,
            offset,
            segment,
            shift,
            index,
        }),
        Some(Cell::Byte(_)) => None,
        None => None,
    }
}

/// The patches of the cells of the segment with this number, each of which can be written: their stretches, or the first broken
/// part.
pub fn part_cells(alloc: Global, load: &LoadFile, number: u32) -> Result<Parted, AllocError>
    requires { (s : Segment) → segment_at load.now number ≡ Some s → AllByRecursion IsWrittenCell (cells s) }
    ensures { IfOk result (λ parted. (s : Segment) → segment_at load.now number ≡ Some s → IsParted (cells s) parted) }
{
    let end = load.front(number);
    let mut patches = Vec::new(alloc);
    let mut at = 0;
    'cells: while at < end {
        match part_at(load, number, at) {
            Some(part) => {
                if !append_part(&mut patches, &part)? {
                    return Ok(Parted::Broken(at));
                }
                at += 1;
            }
            None => at = after_gap(load, number, at, end),
        }
    }
    Ok(Parted::Patches(patches))
}
