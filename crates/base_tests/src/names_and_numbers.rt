// Names, lines and numbers. What no clause says: that memory is enough, and that the digits and the byte order are those of the field.
use crate::asserting::same;
use omf_base::{Line, LineFault, Name, NameFault, Spot, number_at};
use std::alloc::Global;

/// Whether a name of the first bytes has just these, and whether one of the second is the same name.
fn compared(alloc: Global, first: &[u8], second: &[u8]) -> Result<(bool, bool), NameFault> {
    let name = Name::of(alloc, first)?;
    let other = Name::of(alloc, second)?;
    Ok((name.bytes() == first, name == other))
}

/// A name has at most 255 bytes, and its spaces count.
static NAMES: [(&[u8], &[u8], Result<(bool, bool), NameFault>); 5] = [
    (&[0xE9; 256], b"", Err(NameFault::TooLong)),
    (&[0xE9; 255], &[0xE9; 255], Ok((true, true))),
    (b"", b"", Ok((true, true))),
    (b"MAIN", b"MAIN", Ok((true, true))),
    (b"MAIN", b"MAIN ", Ok((true, false))),
];

/// A piece of a line.
enum Piece {
    Text(&'static str),
    Bytes(&'static [u8]),
    Dec(u32),
    /// A number in hexadecimal digits, and the least number of digits.
    Hex(u32, u32),
}

/// Lines are their pieces, and numbers print as digits.
static LINES: [(&[Piece], &[u8]); 13] = [
    (
        &[Piece::Text("at "), Piece::Hex(43, 8), Piece::Dec(7)],
        b"at 0000002B7",
    ),
    (
        &[
            Piece::Text("at "),
            Piece::Hex(43, 8),
            Piece::Dec(7),
            Piece::Bytes(&[0x0A, 0xFF]),
        ],
        b"at 0000002B7\n\xFF",
    ),
    (&[Piece::Dec(0)], b"0"),
    (&[Piece::Dec(9)], b"9"),
    (&[Piece::Dec(10)], b"10"),
    (&[Piece::Dec(4294967295)], b"4294967295"),
    (&[Piece::Hex(0, 1)], b"0"),
    (&[Piece::Hex(0, 8)], b"00000000"),
    (&[Piece::Hex(15, 2)], b"0F"),
    (&[Piece::Hex(16, 1)], b"10"),
    (&[Piece::Hex(0xABC, 4)], b"0ABC"),
    (&[Piece::Hex(0x12345678, 8)], b"12345678"),
    (&[Piece::Hex(0xFFFFFFFF, 1)], b"FFFFFFFF"),
];

fn add(line: &mut Line, piece: &Piece) -> Result<(), LineFault> {
    match *piece {
        Piece::Text(text) => line.text(text),
        Piece::Bytes(bytes) => line.put(bytes),
        Piece::Dec(value) => line.dec(value),
        Piece::Hex(value, digits) if digits <= 8 => line.hex(value, digits),
        Piece::Hex(_, _) => Ok(()),
    }
}

/// Whether a line of these pieces has these bytes.
fn is_line(alloc: Global, pieces: &[Piece], bytes: &[u8]) -> Result<bool, LineFault> {
    let mut line = Line::new(alloc);
    for piece in pieces {
        add(&mut line, piece)?;
    }
    Ok(line.bytes() == bytes)
}

#[test]
fn names_and_lines_have_their_bytes(rt: HostRuntime) {
    let alloc = rt.alloc();
    for (first, second, want) in &NAMES {
        same(&rt, first, compared(alloc, first, second), *want);
    }
    for (pieces, bytes) in &LINES {
        same(&rt, bytes, is_line(alloc, pieces, bytes), Ok(true));
    }
}

/// Bytes, a place, a width, and the number that is stored there, its lowest byte first.
static NUMBERS: [(&[u8], usize, usize, Option<u32>); 10] = [
    (&[1, 2], 1, 2, None),
    (&[1, 2], 0, 2, Some(513)),
    (&[0x12, 0x34, 0x56, 0x78, 0x9A], 4, 1, Some(0x9A)),
    (&[0x12, 0x34, 0x56, 0x78, 0x9A], 3, 2, Some(0x9A78)),
    (&[0x12, 0x34, 0x56, 0x78, 0x9A], 2, 3, Some(0x9A7856)),
    (&[0x12, 0x34, 0x56, 0x78, 0x9A], 1, 4, Some(0x9A785634)),
    (&[0x12, 0x34, 0x56, 0x78, 0x9A], 2, 4, None),
    (&[0x12, 0x34, 0x56, 0x78, 0x9A], 0, 0, None),
    (&[0x12, 0x34, 0x56, 0x78, 0x9A], 0, 5, None),
    (&[0x12, 0x34, 0x56, 0x78, 0x9A], usize::MAX, 2, None),
];

fn number(bytes: &[u8], at: usize, width: usize) -> Option<u32> {
    number_at(bytes, at, width)
}

/// Whether a spot is itself, and whether it is another one.
fn spots() -> (bool, bool) {
    let first = Spot {
        file: 1,
        segment: 2,
        at: 0x38,
    };
    let next = Spot { at: 0x39, ..first };
    (first == first, first == next)
}

#[test]
fn numbers_stand_lowest_byte_first_and_spots_compare_by_place(rt: HostRuntime) {
    for (bytes, at, width, want) in &NUMBERS {
        same(&rt, &(*at, *width), number(bytes, *at, *width), *want);
    }
    same(&rt, &"spots", spots(), (true, false));
}
