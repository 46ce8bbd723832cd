//! The digits of DC's types H and B (ORCA/M reference manual, "Declare Constant").

ghost use Rattle.std.specs.Prelude.{◌≡◌, ◌≤◌, ◌<◌, ◌+◌, ◌-◌, ◌/◌, ◌^◌, ◌++◌, ◌⊎◌, List, ℕ, length, take, drop, filter, replicate, not, true, Some, None, IfOk, MatchOption};
ghost use Rattle.std.specs.Char.{is_digit, digit_value};
ghost use Rattle.std.specs.List.{list_all};
ghost use Rattle.std.specs.Str.Parse.{digits_value};
ghost use Rattle.asm_meaning.specs.Elements.{bytes_of_group_digits, packed_digits, bytes_of_digits};
ghost use Rattle.asm_meaning.specs.laws.Steps.{without_spaces};
ghost use Rattle.orca_operands.specs.DigitsView.{are_digits, groups};

use orca_text::digit;
use std::alloc::{AllocError, Global};

/// The digits of a text with spaces between them, if there is one at least and nothing else.
fn digits_in(alloc: Global, base: u32, text: &[u8]) -> Result<Option<Vec<u8>>, AllocError>
    requires { base ≤ 36 }
    ensures found { IfOk result (λ found. MatchOption found ((each : ℕ) → packed_digits base each (without_spaces text.now) ≡ None)
        (λ v. (v.items ≡ without_spaces text.now) × (are_digits base v.items ≡ true) × (1 ≤ length v.items))) }
{
    let mut out = Vec::new(alloc);
    'bytes: for byte in text {
        if *byte == b' ' {
            continue;
        }
        match digit(*byte, base) {
            Some(_) => out.push(*byte)?,
            None => return Ok(None),
        }
    }
    if out.is_empty() {
        return Ok(None);
    }
    Ok(Some(out))
}

/// The value of a digit.
fn digit_of(byte: u8, base: u32) -> u32
    requires base { base ≤ 36 }
    requires digit { is_digit byte base ≡ true }
    ensures value { result ≡ digit_value byte }
    ensures small { result < 36 }
{
    match digit(byte, base) {
        Some(value) => value,
        None => 0,
    }
}

/// The byte that the next `each` digits write, the first of them highest and 0 for each that is missing, and the digits
/// after them.
fn group(base: u32, each: u32, digits: &[u8]) -> (u8, &[u8])
    requires base { (2 ≤ base) × (base ≤ 36) }
    requires whole { base ^ each ≡ 256 }
    requires digits { are_digits base digits.now ≡ true }
    ensures value { result.0 ≡ digits_value base (take each (digits.now ++ replicate each 0x30)) }
    ensures rest { result.1.now ≡ drop each digits.now }
{
    let mut value: u32 = 0;
    let mut left = digits;
    let mut count = each;
    'digits: while count > 0 {
        count -= 1;
        match left.split_first() {
            Some((byte, following)) => {
                let more = digit_of(*byte, base);
                value = value * base + more;
                left = following;
            }
            None => value *= base,
        }
    }
    (value as u8, left)
}

/// The bytes that digits write, `each` digits to a byte.
#[tactic(auto, unfolding(asm_meaning::specs::Elements::bytes_of_group_digits))]
fn pack_digits(alloc: Global, base: u32, each: u32, digits: &[u8]) -> Result<Vec<u8>, AllocError>
    requires base { (2 ≤ base) × (base ≤ 36) }
    requires each { (each ≡ 2) ⊎ (each ≡ 8) }
    requires whole { base ^ each ≡ 256 }
    requires digits { are_digits base digits.now ≡ true }
    ensures { IfOk result (λ v. v.items ≡ bytes_of_group_digits base each (groups each digits.now) digits.now) }
{
    let mut out = Vec::new(alloc);
    let mut left = digits;
    'groups: while !left.is_empty() {
        let (byte, rest) = group(base, each, left);
        out.push(byte)?;
        left = rest;
    }
    Ok(out)
}

/// The bytes of digits, of which there is one at least, with spaces between them: two hexadecimal ones a byte, or eight binary
/// ones. A last byte with fewer is filled with 0 on the right.
#[tactic(auto, unfolding(asm_meaning::specs::Elements::bytes_of_digits))]
pub(crate) fn bytes_of_digits(
    alloc: Global,
    base: u32,
    each: u32,
    text: &[u8],
) -> Result<Option<Vec<u8>>, AllocError>
    requires base { (2 ≤ base) × (base ≤ 36) }
    requires each { (each ≡ 2) ⊎ (each ≡ 8) }
    requires whole { base ^ each ≡ 256 }
    ensures { IfOk result (λ found. MatchOption found (bytes_of_digits base each text.now ≡ None) (λ v. bytes_of_digits base each text.now ≡ Some v.items)) }
{
    match digits_in(alloc, base, text)? {
        Some(digits) => {
            let bytes = pack_digits(alloc, base, each, digits.as_slice())?;
            Ok(Some(bytes))
        }
        None => Ok(None),
    }
}
