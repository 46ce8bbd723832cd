//! Operations: which mnemonic one is, and what it does with its operand.

ghost use Rattle.std.specs.Prelude.{◌≡◌, ◌≢◌, true, ◌+◌, ◌*◌, ◌<◌, ◌≤◌, length, slice_get, slice_index, MatchOption, Some, None, map, bytes_eq, if◌then◌else◌};
ghost use Rattle.std.specs.Char.{to_ascii_uppercase};
ghost use Rattle.std.specs.List.{list_any};
ghost use Rattle.orca_meaning.specs.Characters.{folded};
ghost use Rattle.orca_meaning.specs.Operation.{mnemonics, mnemonic_of, use_of, without_operand};
ghost use Rattle.orca_text.specs.Decoding.{IsDecoded};
ghost use Rattle.orca_text.specs.Spelling.{is_three, key_of};

use orca_meaning::Mnemonic::*;
use orca_meaning::OperandUse::*;
use orca_meaning::{Mnemonic, OperandUse};

/// What an operation is.
#[derive(Clone, Copy)]
pub struct DecodedOperation {
    /// The mnemonic that it is, if it is one.
    pub mnemonic: Option<Mnemonic>,
    /// What it does with its operand.
    pub operand_use: OperandUse,
}

/// The spellings of the mnemonics, each as the number that its three letters are, the first highest.
static SPELLINGS: [u32; 94] = [
    0x414443, // ADC
    0x414E44, // AND
    0x41534C, // ASL
    0x424343, // BCC
    0x424353, // BCS
    0x424551, // BEQ
    0x424745, // BGE
    0x424954, // BIT
    0x424C54, // BLT
    0x424D49, // BMI
    0x424E45, // BNE
    0x42504C, // BPL
    0x425241, // BRA
    0x42524B, // BRK
    0x42524C, // BRL
    0x425643, // BVC
    0x425653, // BVS
    0x434C43, // CLC
    0x434C44, // CLD
    0x434C49, // CLI
    0x434C56, // CLV
    0x434D50, // CMP
    0x434F50, // COP
    0x435058, // CPX
    0x435059, // CPY
    0x444543, // DEC
    0x444558, // DEX
    0x444559, // DEY
    0x454F52, // EOR
    0x494E43, // INC
    0x494E58, // INX
    0x494E59, // INY
    0x4A4D4C, // JML
    0x4A4D50, // JMP
    0x4A534C, // JSL
    0x4A5352, // JSR
    0x4C4441, // LDA
    0x4C4458, // LDX
    0x4C4459, // LDY
    0x4C5352, // LSR
    0x4D564E, // MVN
    0x4D5650, // MVP
    0x4E4F50, // NOP
    0x4F5241, // ORA
    0x504541, // PEA
    0x504549, // PEI
    0x504552, // PER
    0x504841, // PHA
    0x504842, // PHB
    0x504844, // PHD
    0x50484B, // PHK
    0x504850, // PHP
    0x504858, // PHX
    0x504859, // PHY
    0x504C41, // PLA
    0x504C42, // PLB
    0x504C44, // PLD
    0x504C50, // PLP
    0x504C58, // PLX
    0x504C59, // PLY
    0x524550, // REP
    0x524F4C, // ROL
    0x524F52, // ROR
    0x525449, // RTI
    0x52544C, // RTL
    0x525453, // RTS
    0x534243, // SBC
    0x534543, // SEC
    0x534544, // SED
    0x534549, // SEI
    0x534550, // SEP
    0x535441, // STA
    0x535450, // STP
    0x535458, // STX
    0x535459, // STY
    0x53545A, // STZ
    0x544158, // TAX
    0x544159, // TAY
    0x544344, // TCD
    0x544353, // TCS
    0x544443, // TDC
    0x545242, // TRB
    0x545342, // TSB
    0x545343, // TSC
    0x545358, // TSX
    0x545841, // TXA
    0x545853, // TXS
    0x545859, // TXY
    0x545941, // TYA
    0x545958, // TYX
    0x574149, // WAI
    0x57444D, // WDM
    0x584241, // XBA
    0x584345, // XCE
];

/// The mnemonic of each spelling, and what it does with its operand.
static MNEMONICS: [(Mnemonic, OperandUse); 94] = [
    (Adc, Always),
    (And, Always),
    (Asl, Accumulator),
    (Bcc, Always),
    (Bcs, Always),
    (Beq, Always),
    (Bcs, Always),
    (Bit, Always),
    (Bcc, Always),
    (Bmi, Always),
    (Bne, Always),
    (Bpl, Always),
    (Bra, Always),
    (Brk, Signature),
    (Brl, Always),
    (Bvc, Always),
    (Bvs, Always),
    (Clc, Never),
    (Cld, Never),
    (Cli, Never),
    (Clv, Never),
    (Cmp, Always),
    (Cop, Signature),
    (Cpx, Always),
    (Cpy, Always),
    (Dec, Accumulator),
    (Dex, Never),
    (Dey, Never),
    (Eor, Always),
    (Inc, Accumulator),
    (Inx, Never),
    (Iny, Never),
    (Jml, Always),
    (Jmp, Always),
    (Jsl, Always),
    (Jsr, Always),
    (Lda, Always),
    (Ldx, Always),
    (Ldy, Always),
    (Lsr, Accumulator),
    (Mvn, Always),
    (Mvp, Always),
    (Nop, Never),
    (Ora, Always),
    (Pea, Always),
    (Pei, Always),
    (Per, Always),
    (Pha, Never),
    (Phb, Never),
    (Phd, Never),
    (Phk, Never),
    (Php, Never),
    (Phx, Never),
    (Phy, Never),
    (Pla, Never),
    (Plb, Never),
    (Pld, Never),
    (Plp, Never),
    (Plx, Never),
    (Ply, Never),
    (Rep, Always),
    (Rol, Accumulator),
    (Ror, Accumulator),
    (Rti, Never),
    (Rtl, Never),
    (Rts, Never),
    (Sbc, Always),
    (Sec, Never),
    (Sed, Never),
    (Sei, Never),
    (Sep, Always),
    (Sta, Always),
    (Stp, Never),
    (Stx, Always),
    (Sty, Always),
    (Stz, Always),
    (Tax, Never),
    (Tay, Never),
    (Tcd, Never),
    (Tcs, Never),
    (Tdc, Never),
    (Trb, Always),
    (Tsb, Always),
    (Tsc, Never),
    (Tsx, Never),
    (Txa, Never),
    (Txs, Never),
    (Txy, Never),
    (Tya, Never),
    (Tyx, Never),
    (Wai, Never),
    (Wdm, Signature),
    (Xba, Never),
    (Xce, Never),
];

/// The spellings as numbers.
#[tactic(auto, unfolding(orca_meaning::specs::Operation::mnemonics))]
fn spellings() -> &'static [u32; 94]
    ensures { result.now ≡ map (λ row. key_of row.0) mnemonics }
{
    &SPELLINGS
}

/// The mnemonics of these spellings.
#[tactic(auto, unfolding(orca_meaning::specs::Operation::mnemonics, orca_meaning::specs::Operation::use_of, orca_meaning::specs::Matrix::opcode_of, orca_meaning::specs::Matrix::matrix))]
fn rows() -> &'static [(Mnemonic, OperandUse); 94]
    ensures { result.now ≡ map (λ row. (row.1, use_of row.1)) mnemonics }
{
    &MNEMONICS
}

/// The number that three letters are in upper case.
#[inline(always)]
fn key(operation: &[u8]) -> Option<u32>
    ensures { MatchOption result (length operation.now ≢ 3) (λ n. (is_three (folded operation.now) ≡ true) × (n ≡ key_of (folded operation.now))) }
{
    match operation {
        [a, b, c] => Some(capital(*a) * 65536 + capital(*b) * 256 + capital(*c)),
        _ => None,
    }
}

/// A letter in upper case, and any other byte as it is.
#[inline(always)]
fn capital(byte: u8) -> u32
    ensures value { result ≡ to_ascii_uppercase byte }
    ensures small { result < 256 }
{
    u32::from(byte.to_ascii_uppercase())
}

/// The mnemonic that an operation is, and what it does with its operand.
#[tactic(auto, using(crate::proofs::Lookup::row_other))]
fn row_of(operation: &[u8]) -> Option<(Mnemonic, OperandUse)>
    ensures { MatchOption result (mnemonic_of operation.now ≡ None) (λ row. (mnemonic_of operation.now ≡ Some row.0) × (row.1 ≡ use_of row.0)) }
{
    let Some(key) = key(operation) else {
        return None;
    };
    match spellings().binary_search(&key) {
        Ok(place) => Some(rows()[place]),
        Err(_) => None,
    }
}

/// Whether the text is this spelling, in upper or lower case.
pub fn is_spelled(text: &[u8], spelling: &[u8]) -> bool
    ensures { result ≡ bytes_eq (folded text.now) spelling.now }
{
    text.len() == spelling.len()
        && text
            .iter()
            .zip(spelling)
            .all(|(byte, wanted)| byte.to_ascii_uppercase() == *wanted)
}

/// Whether it is a directive or macro statement without operand.
#[tactic(auto, unfolding(orca_meaning::specs::Operation::without_operand))]
fn is_without_operand(operation: &[u8]) -> bool
    ensures { result ≡ list_any (bytes_eq (folded operation.now)) without_operand }
{
    is_spelled(operation, b"END")
        || is_spelled(operation, b"ENTRY")
        || is_spelled(operation, b"ANOP")
        || is_spelled(operation, b"MACRO")
        || is_spelled(operation, b"MEND")
        || is_spelled(operation, b"MEXIT")
}

/// What an operation that is no mnemonic does with its operand.
fn other_use(operation: &[u8]) -> OperandUse
    ensures { result ≡ (if list_any (bytes_eq (folded operation.now)) without_operand then OperandUse.Never else OperandUse.Always) }
{
    if is_without_operand(operation) {
        return OperandUse::Never;
    }
    OperandUse::Always
}

/// What an operation is, in upper or lower case. BLT and BGE are read as BCC and BCS.
#[tactic(auto, unfolding(orca_meaning::specs::Operation::operation_use))]
pub(crate) fn decode_operation(operation: &[u8]) -> DecodedOperation
    ensures { IsDecoded operation.now result }
{
    match row_of(operation) {
        Some((mnemonic, operand_use)) => DecodedOperation {
            mnemonic: Some(mnemonic),
            operand_use,
        },
        None => DecodedOperation {
            mnemonic: None,
            operand_use: other_use(operation),
        },
    }
}
