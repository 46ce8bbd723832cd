//! The data of a segment as bytes, one after another.

ghost use Rattle.std.specs.Prelude.{◌≡◌, ◌+◌, ◌-◌, ◌≤◌, ◌++◌, ℕ, List, length, take, replicate, min, IfOk, IfSome, OnOk};
ghost use Rattle.load_content.specs.Content.{ArePieces};

use crate::pieces::BytePiece;
use omf_base::first_items;
use std::alloc::AllocError;

/// Appends `count` zeros.
fn put_zeros(out: &mut Vec<u8>, count: u32) -> Result<(), AllocError>
    ensures { OnOk result (out.new.items ≡ out.old.items ++ replicate count 0) }
{
    let end = out.len() + count as usize;
    out.resize(end, 0)
}

/// Appends bytes up to this many.
fn put_front(out: &mut Vec<u8>, bytes: &[u8], most: u32) -> Result<u32, AllocError>
    ensures put { IfOk result (λ count. out.new.items ≡ out.old.items ++ take count bytes.now) }
    ensures count { IfOk result (λ count. count ≡ min (length bytes.now) most) }
{
    let count = bytes.len().min(most as usize);
    out.extend_from_slice(first_items(bytes, count))?;
    Ok(count as u32)
}

/// Appends zeros up to the start of a piece, and then the piece, where `at` bytes are before them and there are to be no more than `size`.
/// The result is how many there are then.
fn put_piece(piece: &BytePiece, at: u32, size: u32, out: &mut Vec<u8>) -> Result<u32, AllocError>
    ensures put { IfOk result (λ next. out.new.items ≡ out.old.items ++ (replicate (min (piece.now).start size - at) 0 ++ take (next - min (piece.now).start size) (piece.now).bytes.now)) }
    ensures next { IfOk result (λ next. next ≡ min (piece.now).start size + min (length (piece.now).bytes.now) (size - min (piece.now).start size)) }
{
    let start = piece.start.min(size);
    put_zeros(out, start.saturating_sub(at))?;
    let count = put_front(out, piece.bytes, size - start)?;
    Ok(start + count)
}

/// Appends the first `size` of the bytes that have these pieces and are 0 elsewhere.
pub fn put_bytes(pieces: &[BytePiece], size: u32, out: &mut Vec<u8>) -> Result<(), AllocError>
    ensures { OnOk result ((bytes : List ℕ) → ArePieces pieces.now bytes → size ≤ length bytes → out.new.items ≡ out.old.items ++ take size bytes) }
{
    let mut at = 0;
    'pieces: for piece in pieces {
        at = put_piece(piece, at, size, out)?;
    }
    put_zeros(out, size.saturating_sub(at))
}

/// The bytes of the only piece, where it begins them.
pub fn lone_piece<'a>(pieces: &[BytePiece<'a>]) -> Option<&'a [u8]>
    ensures { IfSome result (λ front. (bytes : List ℕ) → ArePieces pieces.now bytes → bytes ≡ front.now ++ replicate (length bytes - length front.now) 0) }
{
    if pieces.len() != 1 || pieces[0].start != 0 {
        return None;
    }
    Some(pieces[0].bytes)
}
