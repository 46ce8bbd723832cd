//! What a statement gives: its cells, and the bytes of its records (GS/OS Reference, appendix F, "Segment body").

ghost use Rattle.std.specs.Prelude.{◌≡◌, ◌≤◌, ◌*◌, ◌+◌, ◌++◌, List, ℕ, map, min, IfOk, OnOk};
ghost use Rattle.asm_meaning.specs.Answer.{pair_or_earlier_fault};
ghost use Rattle.asm_meaning.specs.Pieces.{length_at, ArePlainPieces};
ghost use Rattle.asm_meaning.specs.Object.{records_text};
ghost use Rattle.orca_operands.specs.GivenView.{given_pieces, given_records, given_answer, labelled_answer};
ghost use Rattle.orca_operands.specs.PieceView.{piece};
ghost use Rattle.orca_operands.specs.PutView.{piece_size, pieces_size, parts_size};
ghost use Rattle.orca_operands.specs.TextView.{text_within_limit, kept_text};
ghost use Rattle.orca_operands.specs.OperandView.{name_answer};

use crate::causes::earlier;
use crate::piece::Piece;
use crate::short_bytes::ShortBytes;
use crate::writer::RecordWriter;
use asm_meaning::AsmCause;
use omf_base::Name;
use std::alloc::{AllocError, Global};

/// Pieces that are repeated `count` times.
#[derive(Drop)]
pub struct RepeatedPieces {
    pub(crate) count: u32,
    pub(crate) pieces: Vec<Piece>,
}

/// What a statement gives.
#[derive(Drop)]
pub enum Encoding {
    /// Few constant bytes.
    Bytes(ShortBytes),
    /// An opcode, and the record of its operand: its code, its count of bytes, its distance, and the expression's bytes.
    Operand {
        opcode: u8,
        code: u8,
        count: u8,
        n: u32,
        expr: Vec<u8>,
    },
    /// Parts one after another.
    Parts(Vec<RepeatedPieces>),
}

/// More cells than a segment may have.
const MOST_CELLS: u32 = 0x0100_0000;

/// How many cells a piece gives, as far as 16,777,216.
#[inline(always)]
fn piece_cells(of: &Piece) -> u32
    ensures { result ≡ min (piece_size of.now) 0x1000000 }
{
    match of {
        Piece::Bytes(bytes) => {
            if bytes.len() < MOST_CELLS as usize {
                bytes.len() as u32
            } else {
                MOST_CELLS
            }
        }
        Piece::Formula { count, .. } => u32::from(*count),
        Piece::Strong(_) => 0,
    }
}

/// A number, as far as 16,777,216.
#[inline(always)]
fn cap_cells(n: u32) -> u32
    ensures { result ≡ min n 0x1000000 }
{
    if n < MOST_CELLS { n } else { MOST_CELLS }
}

/// How many cells pieces give, as far as 16,777,216.
#[inline(always)]
fn pieces_cells(pieces: &[Piece]) -> u32
    ensures { result ≡ min (pieces_size pieces.now) 0x1000000 }
{
    let mut total: u32 = 0;
    'pieces: for piece in pieces {
        total = cap_cells(total + piece_cells(piece));
    }
    total
}

/// How many cells a part gives, as far as 16,777,216.
#[inline(always)]
fn part_cells(part: &RepeatedPieces) -> u32
    ensures { result ≡ min (part.now.count * pieces_size part.now.pieces.items) 0x1000000 }
{
    let each = pieces_cells(part.pieces.as_slice());
    let all = u64::from(part.count) * u64::from(each);
    if all < u64::from(MOST_CELLS) {
        return all as u32;
    }
    MOST_CELLS
}

/// How many cells parts give, as far as 16,777,216.
#[inline(always)]
fn parts_cells(parts: &[RepeatedPieces]) -> u32
    ensures { result ≡ min (parts_size parts.now) 0x1000000 }
{
    let mut total: u32 = 0;
    'parts: for part in parts {
        total = cap_cells(total + part_cells(part));
    }
    total
}

/// What gives these pieces once.
pub(crate) fn given_once(alloc: Global, pieces: Vec<Piece>) -> Result<Encoding, AllocError>
    ensures { IfOk result (λ given. given_pieces given ≡ map piece pieces.items) }
{
    let mut parts = Vec::with_capacity(alloc, 1)?;
    parts.push(RepeatedPieces { count: 1, pieces })?;
    Ok(Encoding::Parts(parts))
}

/// How many cells an opcode and an operand of a given number of bytes give.
fn operand_cells(count: u8) -> u32
    ensures value { result ≡ count + 1 }
    ensures few { result ≤ 0x100 }
{
    u32::from(count) + 1
}

impl Encoding {
    /// How many cells it gives, as far as 16,777,216.
    #[tactic(auto, using(crate::proofs::Sizes::cells_are))]
    pub fn cells(&self) -> u32
        ensures { (at : ℕ) → result ≡ min (length_at at (given_records self.now)) 0x1000000 }
    {
        match self {
            Encoding::Bytes(few) => u32::from(few.count),
            Encoding::Operand { count, .. } => operand_cells(*count),
            Encoding::Parts(parts) => parts_cells(parts.as_slice()),
        }
    }

    /// Appends its records.
    pub fn put(&self, out: &mut RecordWriter) -> Result<(), AllocError>
        requires { ArePlainPieces (given_pieces self.now) }
        ensures { OnOk result ((text : List ℕ) → kept_text out.old.text ≡ text_within_limit text → kept_text out.new.text ≡ text_within_limit (text ++ records_text (given_records self.now))) }
    {
        match self {
            Encoding::Bytes(few) => out.text.put_few(*few),
            Encoding::Operand {
                opcode,
                code,
                count,
                n,
                expr,
            } => out
                .text
                .put_operand(*opcode, *code, *count, *n, expr.as_slice()),
            Encoding::Parts(parts) => out.put_all_parts(parts.as_slice()),
        }
    }
}

/// A statement's label and what it gives, or the first of their faults.
#[inline(always)]
pub fn label_and_encoding(
    label: Result<Name, AsmCause>,
    given: Result<Encoding, AsmCause>,
) -> Result<(Name, Encoding), AsmCause>
    ensures { labelled_answer result ≡ pair_or_earlier_fault (name_answer label) (given_answer given) }
{
    match label {
        Ok(name) => match given {
            Ok(given) => Ok((name, given)),
            Err(cause) => Err(cause),
        },
        Err(cause) => match given {
            Ok(_given) => Err(cause),
            Err(other) => Err(earlier(cause, other)),
        },
    }
}
