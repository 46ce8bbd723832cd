//! The bytes of records, as far as a file may have them (GS/OS Reference, appendix F, "Segment body").

ghost use Rattle.std.specs.Prelude.{◌≡◌, ◌∷◌};
ghost use Rattle.byteorder.specs.Endian.{little_bytes};

use crate::short_bytes::ShortBytes;
use omf_format::RELEXPR;
use omf_records::{Rec, put_record};
use std::alloc::{AllocError, Global};

/// The most bytes that a file has.
pub const MAX_FILE: usize = 16_777_216;

/// Bytes, which are kept as long as they are no more than a file may have.
#[derive(Drop)]
pub struct RecordBytes {
    pub bytes: Vec<u8>,
    /// There were more, and none are kept.
    pub long: bool,
}

/// CONST of an opcode, and what precedes the expression of a distance.
#[inline(always)]
fn with_distance(opcode: u8, code: u8, count: u8, n: u32) -> [u8; 8]
    ensures { result ≡ 1 ∷ opcode ∷ code ∷ count ∷ little_bytes 4 n }
{
    let [a, b, c, d] = n.to_le_bytes();
    [1, opcode, code, count, a, b, c, d]
}

impl RecordBytes {
    ghost use Rattle.std.specs.Prelude.{◌≡◌, ◌≤◌, ◌++◌, ◌∷◌, [], List, ℕ, length, replicate, None, OnOk, IfOk};
    ghost use Rattle.omf_format.specs.Field.{written_layout};
    ghost use Rattle.omf_format.specs.Record.{Const, Formula, spelling, IsRecord};
    ghost use Rattle.omf_records.specs.View.{view};
    ghost use Rattle.asm_meaning.specs.Object.{records_text, most_bytes};
    ghost use Rattle.asm_meaning.specs.Pieces.{constant_records};
    ghost use Rattle.orca_operands.specs.FewView.{few_bytes};
    ghost use Rattle.orca_operands.specs.TextView.{text_within_limit, kept_text};

    /// None.
    #[tactic(auto, using(crate::proofs::Limited::limited_nothing))]
    pub fn new(alloc: Global) -> RecordBytes
        ensures { kept_text result ≡ text_within_limit [] }
    {
        RecordBytes {
            bytes: Vec::new(alloc),
            long: false,
        }
    }

    /// Room for `size` bytes.
    #[tactic(auto, using(crate::proofs::Limited::limited_room))]
    pub fn room(alloc: Global, size: usize) -> Result<RecordBytes, AllocError>
        requires { size ≤ most_bytes }
        ensures { IfOk result (λ text. kept_text text ≡ text_within_limit (replicate size 0)) }
    {
        let mut bytes = Vec::new(alloc);
        bytes.resize(size, 0)?;
        Ok(RecordBytes { bytes, long: false })
    }

    /// Appends a record.
    #[tactic(auto, using(crate::proofs::Limited::stays_long, crate::proofs::Limited::grows_long, crate::proofs::Limited::grows))]
    pub fn put(&mut self, rec: &Rec) -> Result<(), AllocError>
        requires { IsRecord written_layout (view rec.now) }
        ensures { OnOk result ((text : List ℕ) → kept_text self.old ≡ text_within_limit text → kept_text self.new ≡ text_within_limit (text ++ spelling written_layout (view rec.now))) }
    {
        if self.long {
            return Ok(());
        }
        match put_record(&mut self.bytes, rec) {
            Ok(()) => {}
            Err(_) => return Err(AllocError),
        }
        if self.bytes.len() > MAX_FILE {
            self.bytes.clear();
            self.long = true;
            return Ok(());
        }
        Ok(())
    }

    /// Appends bytes.
    #[tactic(auto, using(crate::proofs::Limited::stays_long, crate::proofs::Limited::grows_long, crate::proofs::Limited::grows))]
    #[inline(always)]
    pub(crate) fn append(&mut self, bytes: &[u8]) -> Result<(), AllocError>
        ensures { OnOk result ((text : List ℕ) → kept_text self.old ≡ text_within_limit text → kept_text self.new ≡ text_within_limit (text ++ bytes.now)) }
    {
        if self.long {
            return Ok(());
        }
        self.bytes.extend_from_slice(bytes)?;
        if self.bytes.len() > MAX_FILE {
            self.bytes.clear();
            self.long = true;
            return Ok(());
        }
        Ok(())
    }

    /// Appends the record of constant bytes: CONST of 1 to 223, and LCONST of more.
    pub(crate) fn put_constant(&mut self, bytes: &[u8]) -> Result<(), AllocError>
        requires { 1 ≤ length bytes.now }
        ensures { OnOk result ((text : List ℕ) → kept_text self.old ≡ text_within_limit text → kept_text self.new ≡ text_within_limit (text ++ records_text (constant_records bytes.now))) }
    {
        if bytes.len() <= 223 {
            self.put(&Rec::Const { bytes })?;
            return Ok(());
        }
        if bytes.len() > MAX_FILE {
            self.give_up();
            return Ok(());
        }
        self.put(&Rec::LongConst { bytes })?;
        Ok(())
    }

    /// Appends CONST of few bytes.
    #[tactic(auto, using(crate::proofs::FewLaws::few_record))]
    pub(crate) fn put_few(&mut self, few: ShortBytes) -> Result<(), AllocError>
        ensures { OnOk result ((text : List ℕ) → kept_text self.old ≡ text_within_limit text → kept_text self.new ≡ text_within_limit (text ++ records_text (constant_records (few_bytes few)))) }
    {
        let record = [few.count, few.first, few.second, few.third, few.fourth];
        self.append(&record[..few.count as usize + 1])
    }

    /// Appends CONST of an opcode, and the record of its operand: its code, its count of bytes, its distance, and the
    /// expression's bytes.
    pub(crate) fn put_operand(
        &mut self,
        opcode: u8,
        code: u8,
        count: u8,
        n: u32,
        expr: &[u8],
    ) -> Result<(), AllocError>
        ensures { OnOk result ((text : List ℕ) → kept_text self.old ≡ text_within_limit text → kept_text self.new ≡ text_within_limit (text ++ records_text (Const (opcode ∷ []) ∷ Formula code count n expr.now ∷ []))) }
    {
        if code == RELEXPR {
            self.append(&with_distance(opcode, code, count, n))?;
            return self.append(expr);
        }
        self.append(&[1, opcode, code, count])?;
        self.append(expr)
    }

    /// Appends another, which becomes the whole where nothing precedes it.
    #[tactic(auto, using(crate::proofs::Limited::long_after, crate::proofs::Limited::joins_first, crate::proofs::Limited::joins))]
    pub fn join(&mut self, other: RecordBytes) -> Result<(), AllocError>
        ensures { OnOk result ((text more : List ℕ) → kept_text self.old ≡ text_within_limit text → kept_text other ≡ text_within_limit more → kept_text self.new ≡ text_within_limit (text ++ more)) }
    {
        if other.long {
            self.give_up();
            return Ok(());
        }
        if self.bytes.is_empty() && !self.long {
            *self = other;
            return Ok(());
        }
        self.append(other.bytes.as_slice())
    }

    /// Keeps nothing any more: there are more bytes than a file may have.
    pub fn give_up(&mut self)
        ensures { kept_text self.new ≡ None }
    {
        self.bytes.clear();
        self.long = true;
    }
}
