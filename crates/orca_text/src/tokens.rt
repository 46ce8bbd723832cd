//! The tokens of formulas, taken from the start of a text.

ghost use Rattle.std.specs.Prelude.{◌≡◌, ◌+◌, ◌*◌, ◌^◌, ◌<◌, ◌≤◌, true, false, length, drop, Some, None, IfOk, IfSome, MatchOption};
ghost use Rattle.std.specs.Char.{digit_value, is_digit};
ghost use Rattle.std.specs.List.{prefix_len};
ghost use Rattle.orca_meaning.specs.Token.{seen_as, digits_at, quoted_number_at, number_at};
ghost use Rattle.orca_text.specs.Kept.{fitting};

use crate::fields::from;
use omf_base::number_at as little_number;

/// The value of a digit in any base up to 36, and 36 of another byte.
#[inline(always)]
fn digit_value(byte: u8) -> u32
    ensures value { result ≡ digit_value byte }
    ensures small { result ≤ 36 }
{
    match byte {
        b'0'..=b'9' => u32::from(byte) - 48,
        b'A'..=b'Z' => u32::from(byte) - 55,
        b'a'..=b'z' => u32::from(byte) - 87,
        _ => 36,
    }
}

/// The value of a digit of a base, which is at most 36.
#[inline(always)]
pub fn digit(byte: u8, base: u32) -> Option<u32>
    requires { base ≤ 36 }
    ensures { MatchOption result (is_digit byte base ≡ false) (λ d. (is_digit byte base ≡ true) × (d ≡ digit_value byte) × (d < 36)) }
{
    let value = digit_value(byte);
    if value < base {
        return Some(value);
    }
    None
}

/// What follows the digits at the start.
fn after_digits(base: u32, text: &[u8]) -> &[u8]
    requires { base ≤ 36 }
    ensures { result.now ≡ drop (prefix_len (λ byte. is_digit byte base) text.now) text.now }
{
    let mut left = text;
    'digits: while let Some((byte, following)) = left.split_first() {
        match digit(*byte, base) {
            Some(_) => left = following,
            None => return left,
        }
    }
    left
}

/// The number that the digits of a base at the start write, `None` where it is above 4,294,967,295, and what follows
/// them. The base is 1 to 36.
#[tactic(auto, unfolding(orca_meaning::specs::Token::digits_at))]
pub fn digits_at(base: u32, text: &[u8]) -> Option<(Option<u32>, &[u8])>
    requires some { 1 ≤ base }
    requires small { base ≤ 36 }
    ensures { MatchOption result (digits_at base text.now ≡ None) (λ x. seen_as fitting (digits_at base text.now) ≡ Some (x.0, x.1.now)) }
{
    let mut left = text;
    let mut value: u32 = 0;
    'digits: while let Some((byte, following)) = left.split_first() {
        let Some(digit) = digit(*byte, base) else {
            break;
        };
        let next = u64::from(value) * u64::from(base) + u64::from(digit);
        if next > 0xFFFF_FFFF {
            return Some((None, after_digits(base, following)));
        }
        value = next as u32;
        left = following;
    }
    if left.len() == text.len() {
        return None;
    }
    Some((Some(value), left))
}

/// Where the first quote of this kind is.
fn closing(quote: u8, following: &[u8]) -> Option<usize>
    ensures { result ≡ Rattle.std.specs.Prelude.position (λ byte. Rattle.std.specs.Prelude.nat_eq byte quote) following.now }
{
    following.iter().position(|byte| *byte == quote)
}

/// The number that a text of one to four bytes is, and what follows its closing quote.
#[tactic(auto, unfolding(orca_meaning::specs::Token::quoted_number_at))]
fn quoted_number_at(quote: u8, following: &[u8]) -> Option<(u32, &[u8])>
    ensures { MatchOption result (quoted_number_at quote following.now ≡ None) (λ x. (quoted_number_at quote following.now ≡ Some (x.0, x.1.now)) × (x.0 < 2 ^ 32)) }
{
    let Some(close) = closing(quote, following) else {
        return None;
    };
    let Some(number) = little_number(following, 0, close) else {
        return None;
    };
    Some((number, from(following, close + 1)))
}

/// The number at the start, `None` where it is above 4,294,967,295, and what follows it.
#[tactic(auto, unfolding(orca_meaning::specs::Token::number_at))]
#[inline(always)]
pub(crate) fn number_at(text: &[u8]) -> Option<(Option<u32>, &[u8])>
    ensures { MatchOption result (number_at text.now ≡ None) (λ x. seen_as fitting (number_at text.now) ≡ Some (x.0, x.1.now)) }
{
    let Some((first, following)) = text.split_first() else {
        return None;
    };
    match *first {
        b'$' => digits_at(16, following),
        b'%' => digits_at(2, following),
        b'@' => digits_at(8, following),
        b'\'' | b'"' => short_text_at(*first, following),
        _ => digits_at(10, text),
    }
}

/// The number that a text of one to four bytes is, which always fits, and what follows its closing quote.
fn short_text_at(quote: u8, following: &[u8]) -> Option<(Option<u32>, &[u8])>
    ensures { MatchOption result (quoted_number_at quote following.now ≡ None) (λ x. seen_as fitting (quoted_number_at quote following.now) ≡ Some (x.0, x.1.now)) }
{
    match quoted_number_at(quote, following) {
        Some((number, rest)) => Some((Some(number), rest)),
        None => None,
    }
}
