//! How long an instruction is (WDC 65C816 data sheet, addressing modes).

ghost use Rattle.std.specs.Prelude.{◌≡◌, ◌≤◌};
ghost use Rattle.orca_meaning.specs.Length.{has_long_operand, length_of};

use orca_meaning::Mnemonic::*;
use orca_meaning::Mode::*;
use orca_meaning::{Mnemonic, Mode};

/// The bytes of an instruction, its opcode included.
#[tactic(auto, unfolding(orca_meaning::specs::Length::length_of))]
pub(crate) fn length_of(mnemonic: Mnemonic, mode: Mode, long_a: bool, long_i: bool) -> u32
    ensures exact { result ≡ length_of mnemonic mode long_a long_i }
    ensures bounds { (1 ≤ result) × (result ≤ 4) }
{
    match mode {
        Implied | Accumulator => 1,
        Immediate if has_long_operand(mnemonic, long_a, long_i) => 3,
        Immediate
        | Direct
        | DirectX
        | DirectY
        | DirectIndirect
        | DirectIndirectY
        | DirectXIndirect
        | DirectLong
        | DirectLongY
        | Stack
        | StackIndirectY
        | Relative8
        | Signature => 2,
        Absolute
        | AbsoluteX
        | AbsoluteY
        | AbsoluteIndirect
        | AbsoluteXIndirect
        | AbsoluteLongIndirect
        | Relative16
        | Move => 3,
        Long | LongX => 4,
    }
}

/// Whether the immediate operand of a mnemonic has two bytes.
#[tactic(auto, unfolding(orca_meaning::specs::Length::has_long_operand))]
fn has_long_operand(mnemonic: Mnemonic, long_a: bool, long_i: bool) -> bool
    ensures exact { result ≡ has_long_operand mnemonic long_a long_i }
{
    if matches!(mnemonic, Ora | And | Eor | Adc | Bit | Lda | Cmp | Sbc) {
        return long_a;
    }
    // The operand of REP and SEP has one byte, and the other mnemonics have no immediate mode.
    long_i && matches!(mnemonic, Ldx | Ldy | Cpx | Cpy)
}
