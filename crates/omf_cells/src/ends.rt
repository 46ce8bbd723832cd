//! Where a segment's cells end that aren't a byte 0.

ghost use Rattle.std.specs.Prelude.{◌≡◌, ◌≤◌, ℕ, List, length};
ghost use Rattle.load_content.specs.Content.{ArePieces, spread_spot, shown_spots};
ghost use Rattle.load_writer.specs.WrittenParts.{IsKept};
ghost use Rattle.omf_cells.specs.Ends.{IsEnd, HasReach};

use load_content::{BytePiece, PatchSpot, size_of};
use load_writer::stored_length;

/// Where a spot ends; 0 where it has no bytes.
fn end_of(spot: &PatchSpot) -> usize
    ensures { IsEnd (spread_spot spot.now) result }
{
    let size = size_of(spot);
    if size == 0 {
        return 0;
    }
    spot.at as usize + usize::from(size)
}

/// Where the last of the spots ends.
pub fn last_end(spots: &[PatchSpot]) -> usize
    ensures { IsEnd (shown_spots spots.now) result }
{
    let mut end = 0usize;
    'spots: for spot in spots {
        end = end.max(end_of(spot));
    }
    end
}

/// Where the last byte of a piece, from an offset on, ends that isn't 0; 0 where there is none.
fn end_of_nonzero(piece: &BytePiece, low: usize) -> usize
    ensures { HasReach piece.now low result }
{
    let start = piece.start as usize;
    let from = low.saturating_sub(start);
    if piece.bytes.len() <= from {
        return 0;
    }
    let size = stored_length(piece.bytes, from);
    if size == from {
        return 0;
    }
    start + size
}

/// Where the last byte, from an offset on, ends that isn't 0; the offset where there is none.
pub fn end_from(pieces: &[BytePiece], low: usize) -> usize
    ensures { (bytes : List ℕ) → ArePieces pieces.now bytes → low ≤ length bytes → IsKept bytes low result }
{
    let mut end = low;
    'pieces: for piece in pieces {
        end = end.max(end_of_nonzero(piece, low));
    }
    end
}
