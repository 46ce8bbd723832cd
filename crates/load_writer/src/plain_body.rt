//! The body of a load segment without patches, whose content is given in pieces (GS/OS Reference, appendix F, "Segment body").

ghost use Rattle.std.specs.Prelude.{◌≡◌, ◌+◌, ◌≤◌, ◌++◌, ◌∷◌, [], ℕ, List, length, take, drop, IfOk, OnOk, OnErr};
ghost use Rattle.std.specs.List.{flat_map};
ghost use Rattle.byteorder.specs.Endian.{little_bytes};
ghost use Rattle.omf_format.specs.declared.codes.TheConstants.{LCONST};
ghost use Rattle.omf_format.specs.Field.{written_layout};
ghost use Rattle.omf_format.specs.Record.{spelling};
ghost use Rattle.load_meaning.specs.WrittenBody.{data_records, written_cells, zeros_after, body_text};
ghost use Rattle.load_writer.specs.Joined.{joined};
ghost use Rattle.load_writer.specs.WrittenParts.{IsKept, IsFront};

use crate::written::BodyFault;
use crate::written_data::{put_over, stored_length};
use omf_format::LCONST;

/// How many bytes are before the data of an LCONST: its code and its count.
const FRONT: usize = 5;

/// Appends pieces, one after another.
#[tactic(auto, using(crate::proofs::Fronts::front_whole))]
fn put_pieces(out: &mut Vec<u8>, pieces: &[&[u8]]) -> Result<(), BodyFault>
    ensures ok { OnOk result (out.new.items ≡ out.old.items ++ joined pieces.now) }
    ensures err { OnErr result (IsFront out.old.items out.new.items) }
{
    for piece in pieces {
        out.extend_from_slice(*piece)?;
    }
    Ok(())
}

/// Appends an LCONST of pieces, whose count isn't written yet.
#[tactic(auto, using(crate::proofs::Fronts::front_whole, crate::proofs::Fronts::front_after))]
fn put_open(out: &mut Vec<u8>, pieces: &[&[u8]]) -> Result<(), BodyFault>
    ensures ok { OnOk result (out.new.items ≡ out.old.items ++ (LCONST ∷ little_bytes 4 0) ++ joined pieces.now) }
    ensures err { OnErr result (IsFront out.old.items out.new.items) }
{
    out.extend_from_slice(&[LCONST, 0, 0, 0, 0])?;
    put_pieces(out, pieces)
}

/// Writes the count of an LCONST that ends there.
fn put_count(out: &mut [u8], start: usize, count: u32)
    requires { start + 5 ≤ length out.old }
    ensures { out.new ≡ take (start + 1) out.old ++ little_bytes 4 count ++ drop (start + 1 + 4) out.old }
{
    put_over(out, start + 1, &count.to_le_bytes());
}

/// How many bytes from a place on there are up to the last that isn't 0.
fn kept_from(out: &[u8], start: usize) -> usize
    requires { start ≤ length out.now }
    ensures { IsKept (drop start out.now) 0 result }
{
    stored_length(&out[start..], 0)
}

/// Ends an LCONST that begins at a place, and returns how many bytes it has: zeros at its end are cut off. Where it has nothing but zeros,
/// all of it is removed.
fn close(out: &mut Vec<u8>, start: usize) -> usize
    requires room { start + 5 ≤ length out.old.items }
    requires small { length out.old.items ≤ start + 5 + 0xFFFFFF }
    ensures kept { IsKept (drop (start + 5) out.old.items) 0 result }
    ensures text { (front content : List ℕ) → out.old.items ≡ front ++ (LCONST ∷ little_bytes 4 0) ++ content → length front ≡ start
        → out.new.items ≡ front ++ flat_map (spelling written_layout) (data_records (take result content)) }
{
    let size = kept_from(out.as_slice(), start + FRONT);
    if size == 0 {
        out.truncate(start);
        return 0;
    }
    out.truncate(start + FRONT + size);
    put_count(out.as_mut_slice(), start, size as u32);
    size
}

/// Appends the body, without END, of a load segment without patches whose content is these pieces, one after another, and returns how many
/// zero bytes are after its data in memory: RESSPC. When out of memory, nothing is appended.
///
/// The pieces have at most $FFFFFF bytes.
#[tactic(auto, using(crate::proofs::Fronts::front_left))]
pub fn put_plain_body(out: &mut Vec<u8>, pieces: &[&[u8]]) -> Result<u32, BodyFault>
    requires small { length (joined pieces.now) ≤ 0xFFFFFF }
    ensures bytes { OnOk result ((own : ℕ) → out.new.items ≡ out.old.items ++ body_text own (joined pieces.now) []) }
    ensures zeros { IfOk result (λ zeros. zeros ≡ zeros_after (written_cells (joined pieces.now) [])) }
    ensures err { OnErr result (out.new.items ≡ out.old.items) }
{
    let start = out.len();
    match put_open(out, pieces) {
        Ok(()) => {}
        Err(fault) => {
            out.truncate(start);
            return Err(fault);
        }
    }
    let whole = out.len() - start - FRONT;
    let size = close(out, start);
    Ok((whole - size) as u32)
}
