//! Numbers of scripts: 1 to 8 upper-case hexadecimal digits.

ghost use Rattle.std.specs.Prelude.{◌≡◌, ◌<◌, ◌≤◌, true, false, length, IfSome, MatchOption};
ghost use Rattle.std.specs.List.{list_all};
ghost use Rattle.std.specs.Char.{digit_value};
ghost use Rattle.loader_machine.specs.Script.{number_of, is_number};
ghost use Rattle.loader_machine.specs.laws.Words.{is_hex_digit};

/// The value of a digit.
fn hex_digit(byte: u8) -> Option<u32>
    ensures value { MatchOption result (is_hex_digit byte ≡ false) (λ n. (is_hex_digit byte ≡ true) × (n ≡ digit_value byte)) }
    ensures small { IfSome result (λ n. n < 16) }
{
    match byte {
        b'0'..=b'9' => Some(u32::from(byte - b'0')),
        b'A'..=b'F' => Some(u32::from(byte - b'A') + 10),
        _ => None,
    }
}

/// The number that at most eight digits write.
#[tactic(auto, unfolding(loader_machine::specs::Script::number_of))]
fn hex_number(word: &[u8]) -> Option<u32>
    requires { length word.now ≤ 8 }
    ensures { MatchOption result (list_all is_hex_digit word.now ≡ false) (λ n. (list_all is_hex_digit word.now ≡ true) × (n ≡ number_of word.now)) }
{
    let mut value = 0;
    'digits: for byte in word {
        let digit = hex_digit(*byte)?;
        value = value * 16 + digit;
    }
    Some(value)
}

/// The number that a word writes, where it lies within these bounds.
#[tactic(auto, unfolding(loader_machine::specs::Script::is_number))]
pub(crate) fn number(word: &[u8], least: u32, most: u32) -> Option<u32>
    ensures value { MatchOption result (is_number least most word.now ≡ false) (λ n. (is_number least most word.now ≡ true) × (n ≡ number_of word.now)) }
    ensures within { IfSome result (λ n. (least ≤ n) × (n ≤ most)) }
{
    if word.is_empty() {
        return None;
    }
    if word.len() > 8 {
        return None;
    }
    let value = hex_number(word)?;
    if value < least {
        return None;
    }
    if value > most {
        return None;
    }
    Some(value)
}
