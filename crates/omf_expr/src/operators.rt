//! Operators on values. Numbers are 32 bits in two's complement.

ghost use Rattle.std.specs.Prelude.{◌≡◌, ◌≢◌, false, pos, int_div, int_rem, IsTrue, IfOk, IfErr};
ghost use Rattle.omf_format.specs.Value.{signed, truth, shifted_bits, number_of_one, number_of_two, divides, apply_one, apply_two};
ghost use Rattle.omf_format.specs.laws.Steps.{arithmetic, logical, comparison, bitwise};
ghost use Rattle.omf_format.specs.Field.{is_shift};
ghost use Rattle.std.specs.Int.{cast_unsigned, w32};

use omf_format::{Value, ValueFault};

const ADD: u8 = 0x01;

const SUBTRACT: u8 = 0x02;

const DIVIDE: u8 = 0x04;

const MODULO: u8 = 0x05;

const SHIFT: u8 = 0x07;

/// 1 for what is true, and 0 for what isn't.
#[inline]
fn truth(holds: bool) -> u32
    ensures { result ≡ truth holds }
{
    if holds { 1 } else { 0 }
}

/// The bits shifted left by `count`, or right where it is negative; zeros are shifted in.
#[inline]
fn shift_bits(bits: u32, count: i32) -> u32
    ensures { result ≡ shifted_bits bits count }
{
    if count < 0 {
        bits.unbounded_shr(count.unsigned_abs())
    } else {
        bits.unbounded_shl(count as u32)
    }
}

/// An operator of one number.
#[tactic(auto, unfolding(omf_format::specs::Value::number_of_one))]
fn number_of_one(code: u8, a: u32) -> u32
    ensures { result ≡ number_of_one code a }
{
    match code {
        0x06 => 0u32.wrapping_sub(a),
        0x0B => truth(a == 0),
        _ => !a,
    }
}

/// The quotient, towards zero, of two numbers in two's complement.
#[inline]
fn quotient(a: u32, b: u32) -> u32
    requires { b ≢ 0 }
    ensures { result ≡ cast_unsigned w32 (int_div (signed a) (signed b)) }
{
    let quotient = a.cast_signed().wrapping_div(b.cast_signed());
    quotient.cast_unsigned()
}

/// The remainder, with the sign of `a`, of two numbers in two's complement.
#[inline]
fn remainder(a: u32, b: u32) -> u32
    requires { b ≢ 0 }
    ensures { result ≡ cast_unsigned w32 (int_rem (signed a) (signed b)) }
{
    let remainder = a.cast_signed().wrapping_rem(b.cast_signed());
    remainder.cast_unsigned()
}

/// Add, subtract, multiply, divide, modulo and shift. A divisor isn't 0.
#[inline]
fn arithmetic(code: u8, a: u32, b: u32) -> u32
    requires { IsTrue (divides code) → b ≢ 0 }
    ensures { result ≡ arithmetic code a b }
{
    match code {
        ADD => a.wrapping_add(b),
        SUBTRACT => a.wrapping_sub(b),
        0x03 => a.wrapping_mul(b),
        DIVIDE => quotient(a, b),
        MODULO => remainder(a, b),
        _ => shift_bits(a, b.cast_signed()),
    }
}

/// Logical AND, OR and EOR.
#[inline]
fn logical(code: u8, a: u32, b: u32) -> u32
    ensures { result ≡ logical code a b }
{
    match code {
        0x08 => truth(a != 0 && b != 0),
        0x09 => truth(a != 0 || b != 0),
        _ => truth((a != 0) != (b != 0)),
    }
}

/// Comparisons of numbers in two's complement: <=, >=, <>, <, > and =.
#[inline]
fn comparison(code: u8, a: u32, b: u32) -> u32
    ensures { result ≡ comparison code a b }
{
    let (left, right) = (a.cast_signed(), b.cast_signed());
    match code {
        0x0C => truth(left <= right),
        0x0D => truth(left >= right),
        0x0E => truth(a != b),
        0x0F => truth(left < right),
        0x10 => truth(left > right),
        _ => truth(a == b),
    }
}

/// Bit AND, OR and EOR.
#[inline]
fn bitwise(code: u8, a: u32, b: u32) -> u32
    ensures { result ≡ bitwise code a b }
{
    match code {
        0x12 => a & b,
        0x13 => a | b,
        _ => a ^ b,
    }
}

/// An operator of two numbers, of which a divisor isn't 0.
#[tactic(auto, unfolding(omf_format::specs::Value::number_of_two))]
fn number_of_two(code: u8, a: u32, b: u32) -> u32
    requires { IsTrue (divides code) → b ≢ 0 }
    ensures { result ≡ number_of_two code a b }
{
    match code {
        ..=0x07 => arithmetic(code, a, b),
        0x08..=0x0A => logical(code, a, b),
        0x0B..=0x11 => comparison(code, a, b),
        0x12.. => bitwise(code, a, b),
    }
}

/// The value of an operator of one operand, by its code (GS/OS Reference, appendix F, "Expressions"): a place has none.
pub fn apply_one(code: u8, a: Value) -> Result<Value, ValueFault>
    ensures { result ≡ apply_one code a }
{
    match a {
        Value::Fixed(a) => Ok(Value::Fixed(number_of_one(code, a))),
        Value::At { .. } => Err(ValueFault::NotRelocatable),
    }
}

/// An operator of two numbers.
#[inline]
#[tactic(auto, unfolding(omf_format::specs::Value::apply_two))]
fn two_numbers(code: u8, a: u32, b: u32) -> Result<Value, ValueFault>
    ensures { result ≡ apply_two code (Value.Fixed a) (Value.Fixed b) }
{
    if (code == DIVIDE || code == MODULO) && b == 0 {
        return Err(ValueFault::DivideByZero);
    }
    Ok(Value::Fixed(number_of_two(code, a, b)))
}

/// The count, from -31 to 31, by which a place is shifted.
#[inline]
fn shift_of(count: u32) -> Result<i8, ValueFault>
    ensures ok { IfOk result (λ shift. (shift ≡ signed count) × IsTrue (is_shift (signed count))) }
    ensures err { IfErr result (λ fault. (fault ≡ ValueFault.NotRelocatable) × (is_shift (signed count) ≡ false)) }
{
    let count = count.cast_signed();
    if count < -31 || 31 < count {
        return Err(ValueFault::NotRelocatable);
    }
    Ok(count as i8)
}

/// An operator of a place without a shift and a number.
#[inline]
#[tactic(auto, unfolding(omf_format::specs::Value::apply_two))]
fn place_and_number(
    code: u8,
    file: u16,
    segment: u16,
    offset: u32,
    b: u32,
) -> Result<Value, ValueFault>
    ensures { result ≡ apply_two code (Value.At file segment offset (pos 0)) (Value.Fixed b) }
{
    let (offset, shift) = match code {
        ADD => (offset.wrapping_add(b), 0),
        SUBTRACT => (offset.wrapping_sub(b), 0),
        SHIFT => (offset, shift_of(b)?),
        _ => return Err(ValueFault::NotRelocatable),
    };
    Ok(Value::At {
        file,
        segment,
        offset,
        shift,
    })
}

/// An operator whose left operand is a number.
#[inline]
#[tactic(auto, unfolding(omf_format::specs::Value::apply_two))]
fn number_first(code: u8, a: u32, b: Value) -> Result<Value, ValueFault>
    ensures { result ≡ apply_two code (Value.Fixed a) b }
{
    match b {
        Value::Fixed(b) => two_numbers(code, a, b),
        Value::At {
            file,
            segment,
            offset,
            shift,
        } => {
            if code != ADD || shift != 0 {
                return Err(ValueFault::NotRelocatable);
            }
            place_and_number(ADD, file, segment, offset, a)
        }
    }
}

/// An operator whose left operand is a place without a shift.
#[inline]
#[tactic(auto, unfolding(omf_format::specs::Value::apply_two))]
fn place_first(
    code: u8,
    file: u16,
    segment: u16,
    offset: u32,
    b: Value,
) -> Result<Value, ValueFault>
    ensures { result ≡ apply_two code (Value.At file segment offset (pos 0)) b }
{
    match b {
        Value::Fixed(b) => place_and_number(code, file, segment, offset, b),
        Value::At {
            file: other_file,
            segment: other_segment,
            offset: other_offset,
            shift,
        } => {
            let is_one_segment = file == other_file && segment == other_segment;
            if code != SUBTRACT || shift != 0 || !is_one_segment {
                return Err(ValueFault::NotRelocatable);
            }
            Ok(Value::Fixed(offset.wrapping_sub(other_offset)))
        }
    }
}

/// The value of an operator of two operands, by its code (GS/OS Reference, appendix F, "Expressions"), or why it has none.
#[tactic(auto, unfolding(omf_format::specs::Value::apply_two))]
pub fn apply_two(code: u8, a: Value, b: Value) -> Result<Value, ValueFault>
    ensures { result ≡ apply_two code a b }
{
    match a {
        Value::Fixed(a) => number_first(code, a, b),
        Value::At {
            file,
            segment,
            offset,
            shift,
        } => {
            if shift != 0 {
                return Err(ValueFault::NotRelocatable);
            }
            place_first(code, file, segment, offset, b)
        }
    }
}
