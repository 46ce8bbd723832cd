//! Texts separated by commas or plus signs, and texts in quotes.

ghost use Rattle.std.specs.Prelude.{◌≡◌, ◌≤◌, ◌<◌, ◌+◌, ◌^◌, ◌∷◌, [], List, ℕ, map, length, take, drop, position, nat_eq, slice_get, Some, None, IfOk, IfSome, MatchOption, option_copied};
ghost use Rattle.macro_meaning.specs.Pieces.{open_after, parts, pieces, closed_at, quoted_at, unquoted_text, joined_texts};
ghost use Rattle.macro_meaning.specs.laws.Steps.{appended_texts};
ghost use Rattle.orca_symbols.specs.Piece.{piece_len, more_pieces, AreNotTwo};

use orca_text::{LinePart, quote_following};
use std::alloc::{AllocError, Global};
use std::marker::Model;

/// A part of a text, of at most 255 bytes. Contracts see its bytes.
#[derive(Drop)]
pub struct OperandPiece<'a> {
    bytes: &'a [u8],
}

impl<'a> Model for OperandPiece<'a> {
    ghost use Rattle.std.specs.Prelude.{◌≤◌, ℕ, List, length};

    ghost Value = { List ℕ };

    ghost view = { λ piece. piece.bytes.now };

    ghost invariant = { λ piece. length piece.bytes.now ≤ 255 };
}

impl<'a> OperandPiece<'a> {
    fn of(part: LinePart<'a>) -> OperandPiece<'a>
        ensures { result ≡ part.entry.bytes.now }
    {
        OperandPiece { bytes: part.bytes }
    }

    /// These bytes as a part of a line.
    pub fn part(&self) -> LinePart<'a>
        ensures { result.bytes.now ≡ self.now }
    {
        LinePart { bytes: self.bytes }
    }
}

/// The piece at a place.
pub(crate) fn piece_at<'a, 'b>(
    pieces: &'b [OperandPiece<'a>],
    at: usize,
) -> Option<&'b OperandPiece<'a>>
    ensures { MatchOption result (length pieces.now ≤ at) (λ piece. slice_get pieces.now at ≡ Some piece.now) }
{
    pieces.get(at)
}

/// How many parentheses are open after a byte.
fn open_after(quote: Option<u8>, count: usize, byte: u8) -> usize
    requires { count + 1 < 2 ^ 63 }
    ensures value { result ≡ open_after quote count byte }
    ensures most { result ≤ count + 1 }
{
    if quote.is_some() {
        return count;
    }
    match byte {
        b'(' => count + 1,
        b')' => count.saturating_sub(1),
        _ => count,
    }
}

/// How many bytes are before the first separator outside quotes and parentheses.
#[tactic(auto, unfolding(crate::specs::Piece::piece_len))]
fn piece_len(separator: u8, text: LinePart<'_>) -> usize
    ensures value { result ≡ piece_len separator None 0 text.entry.bytes.now }
    ensures bound { result ≤ length text.entry.bytes.now }
{
    let mut quote = None;
    let mut open: usize = 0;
    let mut count: usize = 0;
    'bytes: for byte in text.bytes {
        if quote.is_none() && open == 0 && *byte == separator {
            return count;
        }
        open = open_after(quote, open, *byte);
        quote = quote_following(quote, *byte);
        count += 1;
    }
    count
}

/// The pieces between the separators outside quotes and parentheses.
#[tactic(auto, using(crate::proofs::Parted::last_piece, crate::proofs::Parted::next_piece))]
pub fn pieces<'a>(
    alloc: Global,
    separator: u8,
    text: LinePart<'a>,
) -> Result<Vec<OperandPiece<'a>>, AllocError>
    ensures { IfOk result (λ v. v.items ≡ pieces separator text.entry.bytes.now) }
{
    let mut found = Vec::new(alloc);
    let mut left = text.bytes;
    'pieces: loop {
        let (piece, following) = left.split_at(piece_len(separator, LinePart { bytes: left }));
        found.push(OperandPiece::of(LinePart { bytes: piece }))?;
        let Some((_, others)) = following.split_first() else {
            return Ok(found);
        };
        left = others;
    }
}

/// The first piece, and the text after its separator, if there is one.
#[tactic(auto, using(crate::proofs::Parted::and_more, crate::proofs::Parted::alone))]
pub(crate) fn first_piece(separator: u8, text: LinePart<'_>) -> (LinePart<'_>, Option<&[u8]>)
    ensures following { IfSome result.1 (λ rest. length rest.now < length text.entry.bytes.now) }
    ensures pieces { pieces separator text.entry.bytes.now ≡ result.0.bytes.now ∷ more_pieces separator (option_copied result.1) }
{
    let (first, following) = text.bytes.split_at(piece_len(separator, text));
    let piece = LinePart { bytes: first };
    match following.split_first() {
        Some((_, rest)) => (piece, Some(rest)),
        None => (piece, None),
    }
}

/// The two pieces of a text with just one separator outside quotes and parentheses.
#[tactic(auto, using(crate::proofs::Parted::two_are, crate::proofs::Parted::one_alone, crate::proofs::Parted::three_are))]
pub fn two_pieces(separator: u8, text: LinePart<'_>) -> Option<(LinePart<'_>, LinePart<'_>)>
    ensures { MatchOption result (AreNotTwo (pieces separator text.entry.bytes.now)) (λ x. pieces separator text.entry.bytes.now ≡ x.0.bytes.now ∷ x.1.bytes.now ∷ []) }
{
    let (first, following) = text.bytes.split_at(piece_len(separator, text));
    let Some((_, rest)) = following.split_first() else {
        return None;
    };
    let second = LinePart { bytes: rest };
    if piece_len(separator, second) < rest.len() {
        return None;
    }
    Some((LinePart { bytes: first }, second))
}

/// Where the first quote of this kind is.
fn closing(quote: u8, following: &[u8]) -> Option<usize>
    ensures bound { IfSome result (λ i. i < length following.now) }
    ensures value { result ≡ position (λ byte. nat_eq byte quote) following.now }
{
    following.iter().position(|byte| *byte == quote)
}

/// The text up to the closing quote, and what follows that.
#[tactic(auto, unfolding(macro_meaning::specs::Pieces::closed_at), using(crate::proofs::Parted::closes, crate::proofs::Parted::never_closes))]
fn closed_at(quote: u8, following: &[u8]) -> Option<(&[u8], &[u8])>
    ensures bound { IfSome result (λ x. length x.0.now ≤ length following.now) }
    ensures text { MatchOption result (closed_at quote following.now ≡ None) (λ x. closed_at quote following.now ≡ Some (x.0.now, x.1.now)) }
{
    let Some(close) = closing(quote, following) else {
        return None;
    };
    let (text, _) = following.split_at(close);
    match following.get(close + 1..) {
        Some(others) => Some((text, others)),
        None => unreachable!(),
    }
}

/// The text in quotes at the start, and what follows it.
#[tactic(auto, unfolding(macro_meaning::specs::Pieces::quoted_at))]
pub(crate) fn quoted_at(text: &[u8]) -> Option<(&[u8], &[u8])>
    ensures bound { IfSome result (λ x. length x.0.now ≤ length text.now) }
    ensures text { MatchOption result (quoted_at text.now ≡ None) (λ x. quoted_at text.now ≡ Some (x.0.now, x.1.now)) }
{
    let Some((quote, following)) = text.split_first() else {
        return None;
    };
    if *quote == b'\'' || *quote == b'"' {
        return closed_at(*quote, following);
    }
    None
}

/// The text in quotes that this is.
pub fn unquote(text: &[u8]) -> Option<&[u8]>
    ensures bound { IfSome result (λ x. length x.now ≤ length text.now) }
    ensures text { MatchOption result (unquoted_text text.now ≡ None) (λ x. unquoted_text text.now ≡ Some x.now) }
{
    match quoted_at(text) {
        Some((inside, rest)) => {
            if rest.is_empty() {
                return Some(inside);
            }
            None
        }
        None => None,
    }
}

/// Texts in quotes, joined.
#[tactic(auto, using(crate::proofs::Parted::join_start, crate::proofs::Parted::join_next, crate::proofs::Parted::join_none, crate::proofs::Parted::join_end))]
pub fn join_quoted(
    alloc: Global,
    pieces: &[OperandPiece<'_>],
) -> Result<Option<Vec<u8>>, AllocError>
    ensures { IfOk result (λ found. MatchOption found (joined_texts pieces.now ≡ None) (λ v. joined_texts pieces.now ≡ Some v.items)) }
{
    let mut out = Vec::new(alloc);
    let mut at = 0;
    'pieces: loop {
        let Some(piece) = piece_at(pieces, at) else {
            return Ok(Some(out));
        };
        let Some(text) = unquote(piece.part().bytes) else {
            return Ok(None);
        };
        out.extend_from_slice(text)?;
        at += 1;
    }
}
