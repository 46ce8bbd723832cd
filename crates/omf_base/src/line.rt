// Lines of text, made piece by piece.
ghost use Rattle.std.specs.Prelude.{◌≡◌, ◌≤◌, ◌<◌, [], ◌++◌, true, take, drop, length, replicate, OnOk, OnErr};
ghost use Rattle.std.specs.Fmt.{digits, digit_glyph};
ghost use Rattle.omf_base.specs.Digits.{decimal, hexadecimal};

use itoa::Buffer;
use std::alloc::{AllocError, Global};
use std::marker::Model;

/// A line under construction. Contracts see it as the list of its bytes. It has no line end of its own.
#[derive(Debug, Drop)]
pub struct Line {
    bytes: Vec<u8>,
}

impl Model for Line {
    ghost use Rattle.std.specs.Prelude.{ℕ, List};

    ghost Value = { List ℕ };

    ghost view = { λ line. line.bytes.items };
}

/// Why a line didn't grow.
#[derive(Clone, Copy, Debug, PartialEq, Eq)]
pub enum LineFault {
    /// Out of memory.
    Memory,
}

impl From<AllocError> for LineFault {
    ghost use Rattle.std.specs.Prelude.{◌≡◌};
    ghost use Rattle.omf_base.specs.declared.line.LineFault.TheVariants.{Memory};

    ghost from_gives = { λ _ fault. fault ≡ Memory };

    fn from(_: AllocError) -> LineFault {
        LineFault::Memory
    }
}

impl Line {
    /// An empty line. It takes no memory yet.
    pub fn new(alloc: Global) -> Line
        ensures { result ≡ [] }
    {
        Line {
            bytes: Vec::new(alloc),
        }
    }

    /// The bytes of the line so far.
    pub fn bytes(&self) -> &[u8]
        ensures { result.now ≡ self.now }
    {
        self.bytes.as_slice()
    }

    /// The bytes of the line so far, handed out. They aren't copied.
    pub fn into_bytes(self) -> Vec<u8>
        ensures { result.items ≡ self }
    {
        self.bytes
    }

    /// Appends bytes as they are.
    pub fn put(&mut self, piece: &[u8]) -> Result<(), LineFault>
        ensures ok { OnOk result (self.new ≡ self.old ++ piece.now) }
        ensures err { OnErr result (self.new ≡ self.old) }
    {
        self.bytes.extend_from_slice(piece)?;
        Ok(())
    }

    /// Appends a text.
    pub fn text(&mut self, piece: &str) -> Result<(), LineFault>
        ensures ok { OnOk result (self.new ≡ self.old ++ piece.now) }
        ensures err { OnErr result (self.new ≡ self.old) }
    {
        self.put(piece.as_bytes())
    }

    /// Appends a number in decimal, without leading zeros.
    pub fn dec(&mut self, value: u32) -> Result<(), LineFault>
        ensures ok { OnOk result (self.new ≡ self.old ++ decimal value) }
        ensures err { OnErr result (self.new ≡ self.old) }
    {
        let mut buffer = Buffer::new();
        self.put(buffer.format(value).as_bytes())
    }

    /// Appends a number in hexadecimal, in upper case and with zeros to at least `digits` places, of which there
    /// are at most 8.
    pub fn hex(&mut self, value: u32, digits: u32) -> Result<(), LineFault>
        requires { digits ≤ 8 }
        ensures ok { OnOk result (self.new ≡ self.old ++ hexadecimal digits value) }
        ensures err { OnErr result (self.new ≡ self.old) }
    {
        let (places, from) = hex_places(value);
        let first = from.min(8 - digits as usize);
        self.put(&places[first..])
    }
}

// The eight places of a number in hexadecimal, and the place from 0 of its first digit. The places before it are zeros.
fn hex_places(value: u32) -> ([u8; 8], usize)
    ensures shown { drop result.1 result.0 ≡ digits 16 true value }
    ensures zeros { take result.1 result.0 ≡ replicate result.1 48 }
    ensures within { result.1 < 8 }
    ensures eight { length result.0 ≡ 8 }
{
    let mut places = [b'0'; 8];
    let mut from = 7;
    let mut rest = value;
    places[from] = hex_digit(rest % 16);
    'digits: while rest >= 16 {
        rest /= 16;
        from -= 1;
        places[from] = hex_digit(rest % 16);
    }
    (places, from)
}

fn hex_digit(digit: u32) -> u8
    requires { digit < 16 }
    ensures { result ≡ digit_glyph true digit }
{
    if digit < 10 {
        b'0' + digit as u8
    } else {
        b'A' + (digit - 10) as u8
    }
}
