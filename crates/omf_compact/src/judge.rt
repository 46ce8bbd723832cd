//! The patches of all segments, which are found before one is written.

ghost use Rattle.std.specs.Prelude.{◌≡◌, IfOk, IfErr, MatchOption, List, Some, None, length, slice_get};
ghost use Rattle.omf_format.specs.File.{Segment, segment_at};
ghost use Rattle.load_meaning.specs.Cells.{cells};
ghost use Rattle.omf_compact.specs.Canonical.{plain, broken_in};
ghost use Rattle.omf_compact.specs.laws.Walk.{IsParted};
ghost use Rattle.omf_compact.specs.laws.Writing.{IsKnown, AreStretches, IsJudged};

use crate::fault::{CompactCause, CompactFault};
use crate::parting::{Parted, part_cells};
use omf_cells::{LoadFile, Patch};
use std::alloc::{AllocError, Global};

/// The patches of the cells of the segment with this number, or its first broken part.
fn patches_of_segment(alloc: Global, load: &LoadFile, number: u32) -> Result<Parted, AllocError>
    requires { IsKnown load.now }
    ensures { IfOk result (λ patches. (s : Segment) → segment_at load.now number ≡ Some s → IsParted (cells s) patches) }
{
    match load.patches(alloc, number)? {
        Some(patches) => Ok(Parted::Patches(patches)),
        None => part_cells(alloc, load, number),
    }
}

/// The patches of each segment, or the first broken part.
pub fn patches_or_broken_part(
    alloc: Global,
    load: &LoadFile,
) -> Result<Vec<Vec<Patch>>, CompactFault>
    requires { IsKnown load.now }
    ensures whole { IfOk result (λ lists. broken_in 1 (plain load.now) ≡ None) }
    ensures lists { IfOk result (λ lists. AreStretches load.now lists.items) }
    ensures refused { IfErr result (λ fault. IsJudged fault load.now) }
{
    let mut lists = Vec::new(alloc);
    'segments: for place in 0..load.count() {
        match patches_of_segment(alloc, load, place + 1)? {
            Parted::Patches(patches) => lists.push(patches)?,
            Parted::Broken(at) => {
                return Err(CompactFault {
                    cause: CompactCause::BrokenPart,
                    segment: place + 1,
                    at,
                });
            }
        }
    }
    Ok(lists)
}
