//! The records of what statements give, one after another (GS/OS Reference, appendix F, "Segment body").

ghost use Rattle.std.specs.Prelude.{◌≡◌, ◌++◌, ◌∷◌, [], map, replicate, IfSome, OnOk};
ghost use Rattle.std.specs.List.{repeat};
ghost use Rattle.asm_meaning.specs.Pieces as meaning;
ghost use Rattle.orca_operands.specs.PieceView.{piece};

use crate::encoding::RepeatedPieces;
use crate::piece::Piece;
use crate::record_bytes::RecordBytes;
use omf_records::Rec;
use std::alloc::{AllocError, Global};

/// The bytes of records, and the constant bytes of one statement that wait for their record. Between statements these say
/// nothing: their memory is kept for the next.
#[derive(Drop)]
pub struct RecordWriter {
    pub text: RecordBytes,
    pub(crate) waiting: Vec<u8>,
}

/// Appends a byte `count` times.
fn put_byte(out: &mut Vec<u8>, byte: u8, count: u32) -> Result<(), AllocError>
    ensures { OnOk result (out.new.items ≡ out.old.items ++ replicate count byte) }
{
    let end = out.as_slice().len() + count as usize;
    out.resize(end, byte)
}

/// Appends bytes `count` times.
fn put_copies(out: &mut Vec<u8>, bytes: &[u8], count: u32) -> Result<(), AllocError>
    ensures { OnOk result (out.new.items ≡ out.old.items ++ repeat count bytes.now) }
{
    if let [byte] = bytes {
        put_byte(out, *byte, count)?;
        return Ok(());
    }
    let mut left = count;
    'copies: while left > 0 {
        out.extend_from_slice(bytes)?;
        left -= 1;
    }
    Ok(())
}

/// The constant bytes of which pieces consist, if they do.
fn only_bytes(pieces: &[Piece]) -> Option<&[u8]>
    ensures { IfSome result (λ bytes. map piece pieces.now ≡ meaning.Bytes bytes.now ∷ []) }
{
    let (first, others) = pieces.split_first()?;
    if !others.is_empty() {
        return None;
    }
    match first {
        Piece::Bytes(bytes) => Some(bytes.as_slice()),
        _ => None,
    }
}

impl RecordWriter {
    ghost use Rattle.std.specs.Prelude.{◌≡◌, ◌++◌, ◌∷◌, [], List, ℕ, map, OnOk};
    ghost use Rattle.asm_meaning.specs.Object.{records_text};
    ghost use Rattle.asm_meaning.specs.Pieces as meaning;
    ghost use Rattle.asm_meaning.specs.Pieces.{constant_records, copies, records_of, IsPlain, IsPlainPiece, ArePlainPieces};
    ghost use Rattle.omf_format.specs.Record as record_;
    ghost use Rattle.orca_operands.specs.GivenView.{part_pieces, all_pieces};
    ghost use Rattle.orca_operands.specs.PieceView.{piece};
    ghost use Rattle.orca_operands.specs.PutView.{HasWritten};
    ghost use Rattle.orca_operands.specs.TextView.{text_within_limit, kept_text};

    /// Records so far, after which no bytes wait.
    pub fn new(alloc: Global, text: RecordBytes) -> RecordWriter
        ensures { result.text ≡ text }
    {
        RecordWriter {
            text,
            waiting: Vec::new(alloc),
        }
    }

    /// Appends the record of the constant bytes that wait for one, if there are any.
    #[inline(always)]
    fn flush(&mut self) -> Result<(), AllocError>
        ensures text { OnOk result ((text : List ℕ) → kept_text self.old.text ≡ text_within_limit text → kept_text self.new.text ≡ text_within_limit (text ++ records_text (constant_records self.old.waiting.items))) }
        ensures none { OnOk result (self.new.waiting.items ≡ []) }
    {
        if self.waiting.is_empty() {
            return Ok(());
        }
        self.text.put_constant(self.waiting.as_slice())?;
        self.waiting.clear();
        Ok(())
    }

    /// Appends an expression record.
    #[inline(always)]
    fn put_formula(&mut self, code: u8, count: u8, n: u32, expr: &[u8]) -> Result<(), AllocError>
        requires { IsPlain (record_.Formula code count n expr.now) }
        ensures { OnOk result ((whole : List ℕ) (rest : List meaning.Piece) → HasWritten whole self.old (meaning.Whole (record_.Formula code count n expr.now) ∷ rest) → HasWritten whole self.new rest) }
    {
        self.flush()?;
        self.text.put(&Rec::Formula {
            code,
            count,
            n,
            expr,
        })?;
        Ok(())
    }

    /// Appends STRONG.
    fn put_strong(&mut self, name: &[u8]) -> Result<(), AllocError>
        requires { IsPlain (record_.Strong name.now) }
        ensures { OnOk result ((whole : List ℕ) (rest : List meaning.Piece) → HasWritten whole self.old (meaning.Whole (record_.Strong name.now) ∷ rest) → HasWritten whole self.new rest) }
    {
        self.flush()?;
        self.text.put(&Rec::Strong { name })?;
        Ok(())
    }

    /// Appends a piece. Constant bytes wait for those that follow.
    #[inline(always)]
    fn put_piece(&mut self, of: &Piece) -> Result<(), AllocError>
        requires { IsPlainPiece (piece of.now) }
        ensures { OnOk result ((whole : List ℕ) (rest : List meaning.Piece) → HasWritten whole self.old (piece of.now ∷ rest) → HasWritten whole self.new rest) }
    {
        match of {
            Piece::Bytes(bytes) => {
                self.waiting.extend_from_slice(bytes.as_slice())?;
                Ok(())
            }
            Piece::Formula {
                code,
                count,
                n,
                expr,
            } => {
                self.put_formula(*code, *count, *n, expr.as_slice())?;
                Ok(())
            }
            Piece::Strong(name) => {
                self.put_strong(name.bytes())?;
                Ok(())
            }
        }
    }

    /// Appends pieces.
    #[inline(always)]
    fn put_pieces(&mut self, pieces: &[Piece]) -> Result<(), AllocError>
        requires { ArePlainPieces (map piece pieces.now) }
        ensures { OnOk result ((whole : List ℕ) (rest : List meaning.Piece) → HasWritten whole self.old (map piece pieces.now ++ rest) → HasWritten whole self.new rest) }
    {
        'pieces: for piece in pieces {
            self.put_piece(piece)?;
        }
        Ok(())
    }

    /// Appends pieces `count` times.
    fn put_often(&mut self, pieces: &[Piece], count: u32) -> Result<(), AllocError>
        requires { ArePlainPieces (copies count (map piece pieces.now)) }
        ensures { OnOk result ((whole : List ℕ) (rest : List meaning.Piece) → HasWritten whole self.old (copies count (map piece pieces.now) ++ rest) → HasWritten whole self.new rest) }
    {
        let mut left = count;
        'copies: while left > 0 {
            self.put_pieces(pieces)?;
            left -= 1;
        }
        Ok(())
    }

    /// Appends the pieces of a part, as many times as it is repeated.
    #[inline(always)]
    fn put_part(&mut self, part: &RepeatedPieces) -> Result<(), AllocError>
        requires { ArePlainPieces (part_pieces part.now) }
        ensures { OnOk result ((whole : List ℕ) (rest : List meaning.Piece) → HasWritten whole self.old (part_pieces part.now ++ rest) → HasWritten whole self.new rest) }
    {
        match only_bytes(part.pieces.as_slice()) {
            Some(bytes) => {
                put_copies(&mut self.waiting, bytes, part.count)?;
                Ok(())
            }
            None => self.put_often(part.pieces.as_slice(), part.count),
        }
    }

    /// Appends parts.
    fn put_parts(&mut self, parts: &[RepeatedPieces]) -> Result<(), AllocError>
        requires { ArePlainPieces (all_pieces parts.now) }
        ensures { OnOk result ((whole : List ℕ) (rest : List meaning.Piece) → HasWritten whole self.old (all_pieces parts.now ++ rest) → HasWritten whole self.new rest) }
    {
        'parts: for part in parts {
            self.put_part(part)?;
        }
        Ok(())
    }

    /// Appends the records of parts. Constant bytes side by side are gathered, whatever waited before.
    pub(crate) fn put_all_parts(&mut self, parts: &[RepeatedPieces]) -> Result<(), AllocError>
        requires { ArePlainPieces (all_pieces parts.now) }
        ensures { OnOk result ((text : List ℕ) → kept_text self.old.text ≡ text_within_limit text → kept_text self.new.text ≡ text_within_limit (text ++ records_text (records_of (all_pieces parts.now)))) }
    {
        self.waiting.clear();
        self.put_parts(parts)?;
        self.flush()?;
        Ok(())
    }
}
