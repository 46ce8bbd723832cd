//! Which addressing mode an operand has (WDC 65C816 data sheet, addressing modes).

ghost use Rattle.std.specs.Prelude.{◌≡◌, ◌+◌, ◌-◌, ◌^◌, ◌≤◌, ◌<◌, ◌==◌, ◌&&◌, ◌∷◌, [], true, map, filter, find, length, nat_lt, nat_le, ◌/◌, Some, None, Ok, Err, MatchOption};
ghost use Rattle.orca_meaning.specs.Length.{length_of};
ghost use Rattle.orca_meaning.specs.Operation.{has_mode};
ghost use Rattle.asm_meaning.specs.Instruction.{operand_bytes, modes_of, kind_of, is_address, is_value, is_asked, modes_of_form, fits_value, is_operand_of_width, or_first, mode_of_number, shift_in, is_distance};
ghost use Rattle.asm_meaning.specs.laws.Steps.{value_shift, is_bare, mode_of_tree, or_fault};
ghost use Rattle.orca_operands.specs.ModeView.{widths, kind, offered_test, number_test, two_test};

use asm_meaning::AsmCause;
use orca_meaning::{Form, Mnemonic, Mode, Prefix};

/// The widths of the registers.
#[derive(Clone, Copy)]
pub struct Widths {
    /// The accumulator has 16 bits.
    pub long_a: bool,
    /// The index registers have 16 bits.
    pub long_i: bool,
}

/// What an operand is in the instruction.
#[derive(Clone, Copy)]
pub(crate) enum OperandKind {
    /// Nothing.
    Missing,
    /// A value.
    Value,
    /// An address or a stack offset of a given number of bytes.
    Address(u8),
    /// A distance of a given number of bytes.
    Distance(u8),
    /// Two banks.
    Banks,
    /// A signature.
    Sign,
}

/// How many bytes the operand of an instruction has.
#[tactic(auto, unfolding(asm_meaning::specs::Instruction::operand_bytes, orca_meaning::specs::Length::length_of))]
#[inline(always)]
pub(crate) fn operand_bytes(of: Widths, mnemonic: Mnemonic, mode: Mode) -> u8
    ensures value { result ≡ operand_bytes (widths of) mnemonic mode }
    ensures few { result ≤ 3 }
{
    match mode {
        Mode::Implied | Mode::Accumulator => 0,
        Mode::Immediate => immediate_bytes(of, mnemonic),
        Mode::Direct
        | Mode::DirectX
        | Mode::DirectY
        | Mode::DirectIndirect
        | Mode::DirectIndirectY
        | Mode::DirectXIndirect
        | Mode::DirectLong
        | Mode::DirectLongY
        | Mode::Stack
        | Mode::StackIndirectY
        | Mode::Relative8
        | Mode::Signature => 1,
        Mode::Absolute
        | Mode::AbsoluteX
        | Mode::AbsoluteY
        | Mode::AbsoluteIndirect
        | Mode::AbsoluteXIndirect
        | Mode::AbsoluteLongIndirect
        | Mode::Relative16
        | Mode::Move => 2,
        Mode::Long | Mode::LongX => 3,
    }
}

/// How many bytes an immediate operand has.
#[tactic(auto, unfolding(orca_meaning::specs::Length::length_of, orca_meaning::specs::Length::has_long_operand))]
fn immediate_bytes(of: Widths, mnemonic: Mnemonic) -> u8
    ensures value { result ≡ length_of mnemonic Mode.Immediate of.long_a of.long_i - 1 }
    ensures few { result ≤ 2 }
{
    let long = match mnemonic {
        Mnemonic::Ora
        | Mnemonic::And
        | Mnemonic::Eor
        | Mnemonic::Adc
        | Mnemonic::Bit
        | Mnemonic::Lda
        | Mnemonic::Cmp
        | Mnemonic::Sbc => of.long_a,
        Mnemonic::Ldx | Mnemonic::Ldy | Mnemonic::Cpx | Mnemonic::Cpy => of.long_i,
        _ => false,
    };
    if long { 2 } else { 1 }
}

/// The modes of a form, the narrowest address first.
#[tactic(auto, unfolding(asm_meaning::specs::Instruction::modes_of))]
fn modes_of(form: Form) -> &'static [Mode]
    ensures { result.now ≡ modes_of form }
{
    match form {
        Form::Nothing => &[Mode::Implied, Mode::Accumulator, Mode::Signature],
        Form::Accumulator => &[Mode::Accumulator],
        Form::Immediate => &[Mode::Immediate, Mode::Signature],
        Form::Plain => &[
            Mode::Relative8,
            Mode::Relative16,
            Mode::Signature,
            Mode::Direct,
            Mode::Absolute,
            Mode::Long,
        ],
        Form::IndexX => &[Mode::DirectX, Mode::AbsoluteX, Mode::LongX],
        Form::IndexY => &[Mode::DirectY, Mode::AbsoluteY],
        Form::IndexS => &[Mode::Stack],
        Form::Paren => &[Mode::DirectIndirect, Mode::AbsoluteIndirect],
        Form::ParenY => &[Mode::DirectIndirectY],
        Form::ParenX => &[Mode::DirectXIndirect, Mode::AbsoluteXIndirect],
        Form::ParenSY => &[Mode::StackIndirectY],
        Form::Bracket => &[Mode::DirectLong, Mode::AbsoluteLongIndirect],
        Form::BracketY => &[Mode::DirectLongY],
        Form::Pair => &[Mode::Move],
        Form::Other => &[],
    }
}

/// What an operand in a mode is.
#[tactic(auto, unfolding(asm_meaning::specs::Instruction::kind_of))]
#[inline(always)]
pub(crate) fn kind_of(mode: Mode) -> OperandKind
    ensures { kind result ≡ kind_of mode }
{
    match mode {
        Mode::Implied | Mode::Accumulator => OperandKind::Missing,
        Mode::Immediate => OperandKind::Value,
        Mode::Direct
        | Mode::DirectX
        | Mode::DirectY
        | Mode::DirectIndirect
        | Mode::DirectIndirectY
        | Mode::DirectXIndirect
        | Mode::DirectLong
        | Mode::DirectLongY
        | Mode::Stack
        | Mode::StackIndirectY => OperandKind::Address(1),
        Mode::Absolute
        | Mode::AbsoluteX
        | Mode::AbsoluteY
        | Mode::AbsoluteIndirect
        | Mode::AbsoluteXIndirect
        | Mode::AbsoluteLongIndirect => OperandKind::Address(2),
        Mode::Long | Mode::LongX => OperandKind::Address(3),
        Mode::Relative8 => OperandKind::Distance(1),
        Mode::Relative16 => OperandKind::Distance(2),
        Mode::Move => OperandKind::Banks,
        Mode::Signature => OperandKind::Sign,
    }
}

/// Whether the operand is an address of a given number of bytes.
#[inline(always)]
fn is_address(of: OperandKind, bytes: u8) -> bool
    ensures { result ≡ is_address bytes (kind of) }
{
    match of {
        OperandKind::Address(n) => n == bytes,
        OperandKind::Missing
        | OperandKind::Value
        | OperandKind::Distance(_)
        | OperandKind::Banks
        | OperandKind::Sign => false,
    }
}

/// Whether the operand is a value.
#[inline(always)]
fn is_value(of: OperandKind) -> bool
    ensures { result ≡ is_value (kind of) }
{
    match of {
        OperandKind::Value => true,
        OperandKind::Missing
        | OperandKind::Address(_)
        | OperandKind::Distance(_)
        | OperandKind::Banks
        | OperandKind::Sign => false,
    }
}

/// Whether the operand is the distance of a branch.
#[inline(always)]
pub(crate) fn is_distance(of: OperandKind) -> bool
    ensures { result ≡ is_distance (kind of) }
{
    match of {
        OperandKind::Distance(_) => true,
        OperandKind::Missing
        | OperandKind::Value
        | OperandKind::Address(_)
        | OperandKind::Banks
        | OperandKind::Sign => false,
    }
}

/// Whether a prefix allows such an operand.
#[inline(always)]
fn is_asked(prefix: Prefix, of: OperandKind) -> bool
    ensures { result ≡ is_asked prefix (kind of) }
{
    match prefix {
        Prefix::Bare => true,
        Prefix::Less => is_value(of) || is_address(of, 1),
        Prefix::Bar => is_address(of, 2),
        Prefix::Greater => is_value(of) || is_address(of, 3),
        Prefix::Caret => is_value(of),
    }
}

/// Whether a mnemonic has a mode that the prefix doesn't rule out.
#[inline(always)]
fn is_offered(mnemonic: Mnemonic, prefix: Prefix, mode: Mode) -> bool
    ensures { result ≡ (has_mode mnemonic mode && is_asked prefix (kind_of mode)) }
{
    is_asked(prefix, kind_of(mode)) && w65_encode::opcode(mnemonic, mode).is_some()
}

/// By how much an immediate operand is shifted to the right.
#[inline(always)]
fn value_shift(prefix: Prefix) -> u8
    ensures value { result ≡ value_shift prefix }
    ensures few { result ≤ 16 }
{
    match prefix {
        Prefix::Bare => 0,
        Prefix::Less => 0,
        Prefix::Bar => 0,
        Prefix::Greater => 8,
        Prefix::Caret => 16,
    }
}

/// By how much an operand is shifted to the right: a value alone is.
#[inline(always)]
pub(crate) fn shift_in(of: OperandKind, prefix: Prefix) -> u8
    ensures value { result ≡ shift_in (kind of) prefix }
    ensures few { result ≤ 16 }
{
    match of {
        OperandKind::Value => value_shift(prefix),
        OperandKind::Missing
        | OperandKind::Address(_)
        | OperandKind::Distance(_)
        | OperandKind::Banks
        | OperandKind::Sign => 0,
    }
}

/// Whether a number fits `width` bytes as an unsigned one.
#[inline(always)]
fn fits_width(n: u32, width: u8) -> bool
    requires { width ≤ 3 }
    ensures { result ≡ nat_lt n (256 ^ width) }
{
    match width {
        0 => n < 1,
        1 => n < 0x100,
        2 => n < 0x1_0000,
        _ => n < 0x100_0000,
    }
}

/// Whether a number is one in two's complement of a given number of bytes that is below 0.
fn is_negative(n: u32, width: u8) -> bool
    requires { width ≤ 3 }
    ensures { result ≡ nat_le (2 ^ 32 - 256 ^ width / 2) n }
{
    match width {
        0 => false,
        1 => n >= 0xFFFF_FF80,
        2 => n >= 0xFFFF_8000,
        _ => n >= 0xFF80_0000,
    }
}

/// Whether there is no prefix.
fn is_bare(prefix: Prefix) -> bool
    ensures { result ≡ is_bare prefix }
{
    match prefix {
        Prefix::Bare => true,
        Prefix::Less => false,
        Prefix::Bar => false,
        Prefix::Greater => false,
        Prefix::Caret => false,
    }
}

/// Whether a value fits `width` bytes.
#[inline(always)]
fn fits_value(prefix: Prefix, width: u8, n: u32) -> bool
    requires { width ≤ 3 }
    ensures { result ≡ fits_value prefix width n }
{
    if is_bare(prefix) {
        return fits_width(n, width) || is_negative(n, width);
    }
    true
}

/// Whether the operand can be this number in a given number of bytes.
#[inline(always)]
fn is_operand_of_width(prefix: Prefix, of: OperandKind, width: u8, n: u32) -> bool
    requires { width ≤ 3 }
    ensures { result ≡ is_operand_of_width prefix (kind of) width n }
{
    match of {
        OperandKind::Missing => false,
        OperandKind::Value => fits_value(prefix, width, n),
        OperandKind::Address(_) => fits_width(n, width),
        OperandKind::Distance(_) => true,
        OperandKind::Banks => n < 256,
        OperandKind::Sign => fits_width(n, width),
    }
}

/// The first of these modes that is offered and can have the number.
#[inline(always)]
fn first_holding(
    of: Widths,
    mnemonic: Mnemonic,
    prefix: Prefix,
    modes: &[Mode],
    n: u32,
) -> Option<Mode>
    ensures { result ≡ find (number_test (widths of) mnemonic prefix n) (filter (offered_test mnemonic prefix) modes.now) }
{
    'modes: for mode in modes {
        if is_offered(mnemonic, prefix, *mode) {
            let width = operand_bytes(of, mnemonic, *mode);
            if is_operand_of_width(prefix, kind_of(*mode), width, n) {
                return Some(*mode);
            }
        }
    }
    None
}

/// The first of these modes that is offered.
#[inline(always)]
fn first_offered(mnemonic: Mnemonic, prefix: Prefix, modes: &[Mode]) -> Option<Mode>
    ensures { result ≡ find (λ m. true) (filter (offered_test mnemonic prefix) modes.now) }
{
    'modes: for mode in modes {
        if is_offered(mnemonic, prefix, *mode) {
            return Some(*mode);
        }
    }
    None
}

/// The mode of a form whose operand is an address of two bytes. A form has at most one.
#[tactic(auto, unfolding(asm_meaning::specs::Instruction::modes_of, asm_meaning::specs::Instruction::kind_of))]
#[inline(always)]
fn two_byte_mode(form: Form) -> Option<Mode>
    ensures { MatchOption result (filter two_test (modes_of form) ≡ []) (λ mode. filter two_test (modes_of form) ≡ mode ∷ []) }
{
    match form {
        Form::Plain => Some(Mode::Absolute),
        Form::IndexX => Some(Mode::AbsoluteX),
        Form::IndexY => Some(Mode::AbsoluteY),
        Form::Paren => Some(Mode::AbsoluteIndirect),
        Form::ParenX => Some(Mode::AbsoluteXIndirect),
        Form::Bracket => Some(Mode::AbsoluteLongIndirect),
        Form::Nothing
        | Form::Accumulator
        | Form::Immediate
        | Form::IndexS
        | Form::ParenY
        | Form::ParenSY
        | Form::BracketY
        | Form::Pair
        | Form::Other => None,
    }
}

/// The first mode that a mnemonic offers for a form and a prefix, or BadMode.
#[tactic(auto, unfolding(asm_meaning::specs::Instruction::modes_of_form))]
pub(crate) fn first_mode(mnemonic: Mnemonic, form: Form, prefix: Prefix) -> Option<Mode>
    ensures { result ≡ find (λ m. true) (modes_of_form mnemonic form prefix) }
{
    first_offered(mnemonic, prefix, modes_of(form))
}

/// The mode of an operand that is this number, where the first one that is offered is this.
#[tactic(auto, unfolding(asm_meaning::specs::Instruction::modes_of_form))]
pub(crate) fn mode_of_number(
    of: Widths,
    mnemonic: Mnemonic,
    form: Form,
    prefix: Prefix,
    first: Mode,
    n: u32,
) -> Result<Mode, AsmCause>
    requires { find (λ m. true) (modes_of_form mnemonic form prefix) ≡ Some first }
    ensures { result ≡ mode_of_number (widths of) mnemonic prefix n (modes_of_form mnemonic form prefix) }
{
    let width = operand_bytes(of, mnemonic, first);
    if is_operand_of_width(prefix, kind_of(first), width, n) {
        return Ok(first);
    }
    match first_holding(of, mnemonic, prefix, modes_of(form), n) {
        Some(mode) => Ok(mode),
        None => Err(AsmCause::DoesNotFit),
    }
}

/// The mode of an operand that is no constant, where the first one that is offered is this.
#[tactic(auto, using(crate::proofs::Modes::tree_mode_missing))]
pub(crate) fn mode_of_tree(mnemonic: Mnemonic, form: Form, prefix: Prefix, first: Mode) -> Mode
    ensures { result ≡ or_first first (find two_test (modes_of_form mnemonic form prefix)) }
{
    match two_byte_mode(form) {
        Some(mode) => {
            if is_offered(mnemonic, prefix, mode) {
                return mode;
            }
            first
        }
        None => first,
    }
}
