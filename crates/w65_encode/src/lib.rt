//! The 65816's instructions as bytes (WDC 65C816 data sheet, opcode matrix and addressing modes): from a mnemonic in a
//! mode to its opcode and back, and how long an instruction is. No call takes memory.
#![tactic(auto)]

ghost use Rattle.std.specs.Prelude.{◌≡◌, ◌≤◌, IfNone, IfSome, IsSomeAnd, Contains, slice_get};
ghost use Rattle.orca_meaning.specs.Length.{length_of};
ghost use Rattle.orca_meaning.specs.Matrix.{matrix, opcode_of};

mod lengths;
mod matrix;
mod rows;

pub use orca_meaning::{Mnemonic, Mode};

/// The opcode of a mnemonic in a mode, or `None` where the mnemonic lacks the mode.
pub fn opcode(mnemonic: Mnemonic, mode: Mode) -> Option<u8>
    ensures exact { result ≡ opcode_of mnemonic mode }
    ensures found { IfSome result (λ byte. slice_get matrix byte ≡ Some (mnemonic, mode)) }
    ensures absent { IfNone result (¬ Contains matrix (mnemonic, mode)) }
{
    rows::opcode_in(mnemonic, mode)
}

/// The mnemonic and the mode of an opcode.
pub fn decode(byte: u8) -> (Mnemonic, Mode)
    ensures entry { slice_get matrix byte ≡ Some result }
    ensures back { opcode_of result.0 result.1 ≡ Some byte }
{
    matrix::instructions()[byte as usize]
}

/// How many bytes the instruction of an opcode has, the opcode included: 1 to 4. `long_a` says whether the accumulator
/// has 16 bits (LONGA), `long_i` whether the index registers have (LONGI).
pub fn length(byte: u8, long_a: bool, long_i: bool) -> u32
    ensures exact { IsSomeAnd (slice_get matrix byte) (λ (m, n). result ≡ length_of m n long_a long_i) }
    ensures bounds { (1 ≤ result) × (result ≤ 4) }
{
    let (mnemonic, mode) = decode(byte);
    lengths::length_of(mnemonic, mode, long_a, long_i)
}
