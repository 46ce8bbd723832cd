//! From a mnemonic and a mode to the opcode (WDC 65C816 data sheet, opcode matrix).

ghost use Rattle.std.specs.Prelude.{◌≡◌, true, get_or};
ghost use Rattle.orca_meaning.specs.Matrix.{matrix, opcode_of};
ghost use Rattle.w65_encode.specs.Row.{are_in, in_row, is_answer};

use crate::matrix::instructions;
use orca_meaning::Mnemonic::*;
use orca_meaning::{Mnemonic, Mode};

/// The opcodes of a mnemonic: the only one, or one for each mode in the order of `Mode`, up to the last mode that the
/// mnemonic has, with 0 for each that it lacks.
#[tactic(auto, unfolding(crate::specs::Row::are_in, orca_meaning::specs::Matrix::matrix))]
fn row_of(mnemonic: Mnemonic) -> &'static [u8]
    ensures { are_in mnemonic result.now 0 matrix ≡ true }
{
    match mnemonic {
        Adc => &[
            0, 0, 0x69, 0x65, 0x75, 0, 0x72, 0x71, 0x61, 0x67, 0x77, 0x63, 0x73, 0x6D, 0x7D, 0x79,
            0, 0, 0, 0x6F, 0x7F,
        ],
        And => &[
            0, 0, 0x29, 0x25, 0x35, 0, 0x32, 0x31, 0x21, 0x27, 0x37, 0x23, 0x33, 0x2D, 0x3D, 0x39,
            0, 0, 0, 0x2F, 0x3F,
        ],
        Asl => &[0, 0x0A, 0, 0x06, 0x16, 0, 0, 0, 0, 0, 0, 0, 0, 0x0E, 0x1E],
        Bcc => &[0x90],
        Bcs => &[0xB0],
        Beq => &[0xF0],
        Bit => &[0, 0, 0x89, 0x24, 0x34, 0, 0, 0, 0, 0, 0, 0, 0, 0x2C, 0x3C],
        Bmi => &[0x30],
        Bne => &[0xD0],
        Bpl => &[0x10],
        Bra => &[0x80],
        Brk => &[0x00],
        Brl => &[0x82],
        Bvc => &[0x50],
        Bvs => &[0x70],
        Clc => &[0x18],
        Cld => &[0xD8],
        Cli => &[0x58],
        Clv => &[0xB8],
        Cmp => &[
            0, 0, 0xC9, 0xC5, 0xD5, 0, 0xD2, 0xD1, 0xC1, 0xC7, 0xD7, 0xC3, 0xD3, 0xCD, 0xDD, 0xD9,
            0, 0, 0, 0xCF, 0xDF,
        ],
        Cop => &[0x02],
        Cpx => &[0, 0, 0xE0, 0xE4, 0, 0, 0, 0, 0, 0, 0, 0, 0, 0xEC],
        Cpy => &[0, 0, 0xC0, 0xC4, 0, 0, 0, 0, 0, 0, 0, 0, 0, 0xCC],
        Dec => &[0, 0x3A, 0, 0xC6, 0xD6, 0, 0, 0, 0, 0, 0, 0, 0, 0xCE, 0xDE],
        Dex => &[0xCA],
        Dey => &[0x88],
        Eor => &[
            0, 0, 0x49, 0x45, 0x55, 0, 0x52, 0x51, 0x41, 0x47, 0x57, 0x43, 0x53, 0x4D, 0x5D, 0x59,
            0, 0, 0, 0x4F, 0x5F,
        ],
        Inc => &[0, 0x1A, 0, 0xE6, 0xF6, 0, 0, 0, 0, 0, 0, 0, 0, 0xEE, 0xFE],
        Inx => &[0xE8],
        Iny => &[0xC8],
        Jml => &[
            0, 0, 0, 0, 0, 0, 0, 0, 0, 0, 0, 0, 0, 0, 0, 0, 0, 0, 0xDC, 0x5C,
        ],
        Jmp => &[
            0, 0, 0, 0, 0, 0, 0, 0, 0, 0, 0, 0, 0, 0x4C, 0, 0, 0x6C, 0x7C,
        ],
        Jsl => &[0x22],
        Jsr => &[0, 0, 0, 0, 0, 0, 0, 0, 0, 0, 0, 0, 0, 0x20, 0, 0, 0, 0xFC],
        Lda => &[
            0, 0, 0xA9, 0xA5, 0xB5, 0, 0xB2, 0xB1, 0xA1, 0xA7, 0xB7, 0xA3, 0xB3, 0xAD, 0xBD, 0xB9,
            0, 0, 0, 0xAF, 0xBF,
        ],
        Ldx => &[
            0, 0, 0xA2, 0xA6, 0, 0xB6, 0, 0, 0, 0, 0, 0, 0, 0xAE, 0, 0xBE,
        ],
        Ldy => &[0, 0, 0xA0, 0xA4, 0xB4, 0, 0, 0, 0, 0, 0, 0, 0, 0xAC, 0xBC],
        Lsr => &[0, 0x4A, 0, 0x46, 0x56, 0, 0, 0, 0, 0, 0, 0, 0, 0x4E, 0x5E],
        Mvn => &[0x54],
        Mvp => &[0x44],
        Nop => &[0xEA],
        Ora => &[
            0, 0, 0x09, 0x05, 0x15, 0, 0x12, 0x11, 0x01, 0x07, 0x17, 0x03, 0x13, 0x0D, 0x1D, 0x19,
            0, 0, 0, 0x0F, 0x1F,
        ],
        Pea => &[0xF4],
        Pei => &[0xD4],
        Per => &[0x62],
        Pha => &[0x48],
        Phb => &[0x8B],
        Phd => &[0x0B],
        Phk => &[0x4B],
        Php => &[0x08],
        Phx => &[0xDA],
        Phy => &[0x5A],
        Pla => &[0x68],
        Plb => &[0xAB],
        Pld => &[0x2B],
        Plp => &[0x28],
        Plx => &[0xFA],
        Ply => &[0x7A],
        Rep => &[0xC2],
        Rol => &[0, 0x2A, 0, 0x26, 0x36, 0, 0, 0, 0, 0, 0, 0, 0, 0x2E, 0x3E],
        Ror => &[0, 0x6A, 0, 0x66, 0x76, 0, 0, 0, 0, 0, 0, 0, 0, 0x6E, 0x7E],
        Rti => &[0x40],
        Rtl => &[0x6B],
        Rts => &[0x60],
        Sbc => &[
            0, 0, 0xE9, 0xE5, 0xF5, 0, 0xF2, 0xF1, 0xE1, 0xE7, 0xF7, 0xE3, 0xF3, 0xED, 0xFD, 0xF9,
            0, 0, 0, 0xEF, 0xFF,
        ],
        Sec => &[0x38],
        Sed => &[0xF8],
        Sei => &[0x78],
        Sep => &[0xE2],
        Sta => &[
            0, 0, 0, 0x85, 0x95, 0, 0x92, 0x91, 0x81, 0x87, 0x97, 0x83, 0x93, 0x8D, 0x9D, 0x99, 0,
            0, 0, 0x8F, 0x9F,
        ],
        Stp => &[0xDB],
        Stx => &[0, 0, 0, 0x86, 0, 0x96, 0, 0, 0, 0, 0, 0, 0, 0x8E],
        Sty => &[0, 0, 0, 0x84, 0x94, 0, 0, 0, 0, 0, 0, 0, 0, 0x8C],
        Stz => &[0, 0, 0, 0x64, 0x74, 0, 0, 0, 0, 0, 0, 0, 0, 0x9C, 0x9E],
        Tax => &[0xAA],
        Tay => &[0xA8],
        Tcd => &[0x5B],
        Tcs => &[0x1B],
        Tdc => &[0x7B],
        Trb => &[0, 0, 0, 0x14, 0, 0, 0, 0, 0, 0, 0, 0, 0, 0x1C],
        Tsb => &[0, 0, 0, 0x04, 0, 0, 0, 0, 0, 0, 0, 0, 0, 0x0C],
        Tsc => &[0x3B],
        Tsx => &[0xBA],
        Txa => &[0x8A],
        Txs => &[0x9A],
        Txy => &[0x9B],
        Tya => &[0x98],
        Tyx => &[0xBB],
        Wai => &[0xCB],
        Wdm => &[0x42],
        Xba => &[0xEB],
        Xce => &[0xFB],
    }
}

/// What a row has for a mode: its first opcode where it ends before.
fn in_row(row: &[u8], mode: Mode) -> u8
    ensures { result ≡ in_row row.now mode }
{
    let place = mode as usize;
    if place < row.len() {
        return row[place];
    }
    match row.first() {
        Some(first) => *first,
        None => 0,
    }
}

/// Whether an opcode is that of a mnemonic in a mode.
fn is_opcode(opcode: u8, mnemonic: Mnemonic, mode: Mode) -> bool
    ensures { result ≡ is_answer (opcode_of mnemonic mode) opcode }
{
    instructions()[opcode as usize] == (mnemonic, mode)
}

/// The opcode of a mnemonic in a mode. What the row has for a mode may be the opcode of another.
pub(crate) fn opcode_in(mnemonic: Mnemonic, mode: Mode) -> Option<u8>
    ensures exact { result ≡ opcode_of mnemonic mode }
{
    let opcode = in_row(row_of(mnemonic), mode);
    if is_opcode(opcode, mnemonic, mode) {
        return Some(opcode);
    }
    None
}
