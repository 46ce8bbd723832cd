//! Numbers in the data of a segment, lowest byte first.

ghost use Rattle.std.specs.Prelude.{◌≡◌, ◌+◌, ◌≤◌};
ghost use Rattle.omf_format.specs.Number.{number_at};
ghost use Rattle.load_meaning.specs.Cells.{segment_bytes};
ghost use Rattle.omf_records.specs.Segments.{segment_of_view};
ghost use Rattle.load_content.specs.Content.{HasPieces, IsNear};

use crate::pieces::{BytePiece, byte_at, bytes_from};
use omf_records::SegmentView;

/// The byte of the data there.
pub fn data_u8(view: &SegmentView, pieces: &[BytePiece], at: u32) -> u8
    requires pieces { HasPieces view.now pieces.now }
    requires inside { at + 1 ≤ view.now.header.length }
    ensures { number_at 1 at (segment_bytes (segment_of_view view.now)) ≡ result }
{
    byte_at(pieces, at)
}

/// The bytes of the data from an offset on that lie together in the file, of which there may be none, and the place of their piece, which
/// is tried first at the place `last`.
#[inline(always)]
pub fn data_from<'a>(
    view: &SegmentView<'a>,
    pieces: &[BytePiece<'a>],
    last: usize,
    at: u32,
) -> (&'a [u8], usize)
    requires { HasPieces view.now pieces.now }
    ensures { IsNear view.now at result.0.now }
{
    bytes_from(pieces, last, at)
}

/// The byte of the data at `at + place`, where `near` are the bytes from an offset on that lie together in the file.
#[inline(always)]
pub fn near_u8(near: &[u8], place: u32, view: &SegmentView, pieces: &[BytePiece], at: u32) -> u8
    requires near { IsNear view.now at near.now }
    requires pieces { HasPieces view.now pieces.now }
    requires inside { at + place + 1 ≤ view.now.header.length }
    ensures { number_at 1 (at + place) (segment_bytes (segment_of_view view.now)) ≡ result }
{
    if (place as usize) < near.len() {
        near[place as usize]
    } else {
        data_u8(view, pieces, at + place)
    }
}

/// The number in the two bytes of the data there, where `near` are the bytes from there on that lie together in the file.
#[inline(always)]
pub fn near_u16(near: &[u8], view: &SegmentView, pieces: &[BytePiece], at: u32) -> u16
    requires near { IsNear view.now at near.now }
    requires pieces { HasPieces view.now pieces.now }
    requires inside { at + 2 ≤ view.now.header.length }
    ensures { number_at 2 at (segment_bytes (segment_of_view view.now)) ≡ result }
{
    let low = u16::from(near_u8(near, 0, view, pieces, at));
    let high = u16::from(near_u8(near, 1, view, pieces, at));
    low + 0x100 * high
}
