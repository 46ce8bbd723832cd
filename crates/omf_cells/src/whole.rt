//! The patches of a segment, where they lie apart.

ghost use Rattle.std.specs.Prelude.{◌≡◌, ◌+◌, IsTrue, IfOk, IfSome, map};
ghost use Rattle.std.specs.List.Sorted.{IsPermutation};
ghost use Rattle.load_content.specs.Content.{spread_all, shown_spots};
ghost use Rattle.load_writer.specs.WrittenParts.{seen};
ghost use Rattle.omf_cells.specs.Whole.{AreSpaced};

use load_content::PatchSpot;
use load_writer::Patch;
use std::alloc::{AllocError, Global};

/// The patches that give the bytes of the spots, one for each, where each spot begins with the first byte of its place.
pub fn whole_patches(alloc: Global, spots: &[PatchSpot]) -> Result<Option<Vec<Patch>>, AllocError>
    ensures { IfOk result (λ found. IfSome found (λ patches. spread_all (map seen patches.items) ≡ shown_spots spots.now)) }
{
    let mut patches = Vec::with_capacity(alloc, spots.len())?;
    'spots: for spot in spots {
        if spot.first != 0 {
            return Ok(None);
        }
        patches.push(Patch {
            at: spot.at,
            count: spot.end,
            shift: spot.shift,
            segment: spot.segment,
            offset: spot.offset,
        })?;
    }
    Ok(Some(patches))
}

/// The patches in the order of their offsets. Those that lie apart in order already stay as they are.
pub fn in_places(patches: Vec<Patch>) -> Result<Vec<Patch>, AllocError>
    ensures { IfOk result (λ sorted. IsPermutation patches.items sorted.items) }
{
    if are_spaced(&patches, u32::MAX) {
        return Ok(patches);
    }
    let mut patches = patches;
    patches.sort_by_key(|patch| patch.at)?;
    Ok(patches)
}

/// Whether the patches have bytes, and lie apart, in order, inside `size` bytes.
pub fn are_spaced(patches: &[Patch], size: u32) -> bool
    ensures { IsTrue result → AreSpaced size 0 (map seen patches.now) }
{
    let mut end = 0u64;
    'patches: for patch in patches {
        if patch.count == 0 || u64::from(patch.at) < end {
            return false;
        }
        end = u64::from(patch.at) + u64::from(patch.count);
        if end > u64::from(size) {
            return false;
        }
    }
    true
}
