//! The data of a segment: where the bytes of its records are in the file.

ghost use Rattle.std.specs.Prelude.{◌≡◌, ◌+◌, ◌<◌, ◌≤◌, ◌^◌, ◌++◌, ℕ, List, length, length as size_of, slice_get, slice_index, OnOk, IfOk, MatchOption, Some};
ghost use Rattle.std.specs.List.Sorted.{IsNonDecreasingBy};
ghost use Rattle.omf_format.specs.Reading.{IsBody};
ghost use Rattle.omf_format.specs.Record.{content_of};
ghost use Rattle.omf_records.specs.View.{view};
ghost use Rattle.load_content.specs.Walk.{content};
ghost use Rattle.load_content.specs.Content.{IsSplit, IsZeros, ArePieces, start_of};

use crate::content::content_size;
use omf_base::items_after;
use omf_records::{Rec, Records};
use std::alloc::{AllocError, Global};

/// The bytes of one record.
#[derive(Clone, Copy)]
pub struct BytePiece<'a> {
    /// Their offset in the segment.
    pub start: u32,
    pub bytes: &'a [u8],
}

/// The bytes of a record that are in the file; the zeros of a DS don't.
fn bytes_of<'a>(rec: &Rec<'a>) -> Option<&'a [u8]>
    ensures { MatchOption result (IsZeros (content_of (view rec.now))) (λ bytes. content_of (view rec.now) ≡ bytes.now) }
{
    match rec {
        Rec::Const { bytes } | Rec::LongConst { bytes } => Some(bytes),
        Rec::End
        | Rec::Space { .. }
        | Rec::Align { .. }
        | Rec::Org { .. }
        | Rec::Reloc { .. }
        | Rec::InterSeg { .. }
        | Rec::ShortReloc { .. }
        | Rec::ShortInterSeg { .. }
        | Rec::Super { .. }
        | Rec::Using { .. }
        | Rec::Strong { .. }
        | Rec::Label { .. }
        | Rec::Equate { .. }
        | Rec::Formula { .. }
        | Rec::Entry { .. } => None,
    }
}

/// Adds the piece of a record whose bytes begin at this offset, if it has one.
fn add_piece<'a>(
    pieces: &mut Vec<BytePiece<'a>>,
    start: u32,
    rec: &Rec<'a>,
) -> Result<(), AllocError>
    ensures { OnOk result ((so_far : List ℕ) → ArePieces pieces.old.items so_far → start ≡ length so_far
        → ArePieces pieces.new.items (so_far ++ content_of (view rec.now))) }
{
    match bytes_of(rec) {
        Some(bytes) => {
            pieces.push(BytePiece { start, bytes })?;
            Ok(())
        }
        None => Ok(()),
    }
}

/// The pieces of the records, in order, which give at most `length` bytes. Where they give as many, the records that are left
/// aren't read.
pub fn pieces_of<'a>(
    alloc: Global,
    records: Records<'a>,
    length: u32,
) -> Result<Vec<BytePiece<'a>>, AllocError>
    requires body { IsBody records }
    requires fits { size_of (content records) ≤ length }
    ensures are { IfOk result (λ pieces. ArePieces pieces.items (content records.entry)) }

    // As every number of its type.
    ensures short { length < 2 ^ 32 }
{
    let mut records = records;
    let mut pieces = Vec::new(alloc);
    let mut start = 0u64;
    'records: loop {
        if start == u64::from(length) {
            return Ok(pieces);
        }
        match records.next() {
            Ok(None) => return Ok(pieces),
            Ok(Some(found)) => {
                add_piece(&mut pieces, start as u32, &found.1)?;
                start += content_size(&found.1);
            }
            Err(_) => unreachable!(),
        }
    }
}

/// How many pieces begin at most at this offset.
fn count_up_to(pieces: &[BytePiece], at: u32) -> usize
    requires { IsNonDecreasingBy start_of pieces.now }
    ensures split { IsSplit start_of pieces.now at result }
    ensures bound { result ≤ length pieces.now }
{
    pieces.partition_point(|piece| piece.start <= at)
}

/// The byte at an offset: that of the piece which covers it, or 0.
pub fn byte_at(pieces: &[BytePiece], at: u32) -> u8
    requires { IsNonDecreasingBy start_of pieces.now }
    ensures { (bytes : List ℕ) → ArePieces pieces.now bytes → at < length bytes → slice_get bytes at ≡ Some result }
{
    let count = count_up_to(pieces, at);
    if count == 0 {
        return 0;
    }
    let piece = pieces[count - 1];
    match nth(piece.bytes, (at - piece.start) as usize) {
        Some(byte) => byte,
        None => 0,
    }
}

/// The bytes from an offset on that the piece at a place has; none where it doesn't cover the offset, or isn't there.
#[inline(always)]
fn bytes_at<'a>(pieces: &[BytePiece<'a>], place: usize, at: u32) -> &'a [u8]
    ensures { (bytes : List ℕ) (n : ℕ) → ArePieces pieces.now bytes → n < length result.now → slice_get bytes (at + n) ≡ Some (slice_index result.now n) }
{
    let piece = match pieces.get(place) {
        Some(piece) => piece,
        None => return &[],
    };
    if at < piece.start {
        return &[];
    }
    let from = (at - piece.start) as usize;
    if from < piece.bytes.len() {
        items_after(piece.bytes, from)
    } else {
        &[]
    }
}

/// The bytes from an offset on that the piece has which covers it, none where no piece does; and the place at which it was
/// found. It is tried at the place `last` before it is searched for.
#[inline(always)]
pub fn bytes_from<'a>(pieces: &[BytePiece<'a>], last: usize, at: u32) -> (&'a [u8], usize)
    requires { IsNonDecreasingBy start_of pieces.now }
    ensures { (bytes : List ℕ) (n : ℕ) → ArePieces pieces.now bytes → n < length result.0.now → slice_get bytes (at + n) ≡ Some (slice_index result.0.now n) }
{
    let bytes = bytes_at(pieces, last, at);
    if !bytes.is_empty() {
        return (bytes, last);
    }
    let place = count_up_to(pieces, at).saturating_sub(1);
    (bytes_at(pieces, place, at), place)
}

fn nth(bytes: &[u8], at: usize) -> Option<u8>
    ensures { result ≡ slice_get bytes.now at }
{
    bytes.get(at).copied()
}
