//! Object files whose segments name data segments by USING.
use crate::samples::{BARE, PART};
use std::alloc::{AllocError, Global};

/// Where the names of a segment end that has no SEGNAME.
const BODY: usize = 55;

/// KIND of a segment of code, of one of data, and of one of data that is private.
pub const CODE: u16 = 0;

pub const DATA: u16 = 1;

pub const PRIVATE_DATA: u16 = 0x4001;

/// The records of names that the segments have.
const USING: u8 = 0xE4;

const STRONG: u8 = 0xE5;

/// A segment D of a number, which has L of a number for itself, and its KIND.
pub struct Part(pub u16, pub u16, pub u16);

/// The last digit.
fn digit(number: u16) -> u8 {
    b'0' + (number % 10) as u8
}

/// A number in four digits.
fn digits(number: u16) -> [u8; 4] {
    [
        digit(number / 1000),
        digit(number / 100),
        digit(number / 10),
        digit(number),
    ]
}

/// A record of one name, which is a letter and four digits.
fn record_of(code: u8, letter: u8, number: u16) -> [u8; 7] {
    let [first, second, third, fourth] = digits(number);
    [code, 5, letter, first, second, third, fourth]
}

/// The bytes of such a segment.
fn segment_of(title: u16, label: u16, kind: u16) -> [u8; 72] {
    let mut bytes = PART;
    bytes[0x14..0x16].copy_from_slice(&kind.to_le_bytes());
    bytes[56..60].copy_from_slice(&digits(title));
    bytes[63..67].copy_from_slice(&digits(label));
    bytes
}

/// The first bytes of a segment whose records, without END, have `records` bytes and give no cell.
fn head_of(records: usize) -> [u8; BODY] {
    let mut bytes = [0; BODY];
    bytes.copy_from_slice(&BARE[..BODY]);
    let size = records.saturating_add(BODY + 1);
    bytes[..4].copy_from_slice(&size.to_le_bytes()[..4]);
    bytes
}

/// Adds segments of data.
fn put_parts(bytes: &mut Vec<u8>, parts: &[Part]) -> Result<(), AllocError> {
    for Part(title, label, kind) in parts {
        bytes.extend_from_slice(&segment_of(*title, *label, *kind))?;
    }
    Ok(())
}

/// An object file of these segments of data.
pub fn parts_of(alloc: Global, parts: &[Part]) -> Result<Vec<u8>, AllocError> {
    let mut bytes = Vec::new(alloc);
    put_parts(&mut bytes, parts)?;
    Ok(bytes)
}

/// An object file of a segment that has these numbers of D in USING, and of segments of data.
pub fn using(alloc: Global, usings: &[u16], parts: &[Part]) -> Result<Vec<u8>, AllocError> {
    let mut bytes = Vec::from_slice(alloc, &head_of(usings.len().saturating_mul(7)))?;
    for number in usings {
        bytes.extend_from_slice(&record_of(USING, b'D', *number))?;
    }
    bytes.push(0)?;
    put_parts(&mut bytes, parts)?;
    Ok(bytes)
}

/// An object file of a segment that names `count` data segments by USING and asks for as many names of a letter by STRONG, and of the first
/// `defined` of these data segments.
pub fn uses(alloc: Global, count: u16, letter: u8, defined: u16) -> Result<Vec<u8>, AllocError> {
    let mut bytes = Vec::from_slice(alloc, &head_of(14 * usize::from(count)))?;
    for (code, first) in [(USING, b'D'), (STRONG, letter)] {
        for number in 0..count {
            bytes.extend_from_slice(&record_of(code, first, number))?;
        }
    }
    bytes.push(0)?;
    for number in 0..defined {
        bytes.extend_from_slice(&segment_of(number, number, DATA))?;
    }
    Ok(bytes)
}

/// An equate of a number that is the one of another number.
fn equate_of(number: u16, to: u16) -> [u8; 13] {
    let [low, high] = number.to_le_bytes();
    let [to_low, to_high] = to.to_le_bytes();
    [
        0xF0, 2, low, high, 0, 0, 0x47, 0, 0x82, 2, to_low, to_high, 0,
    ]
}

/// An object file of `count` equates in one segment, each of which is the next one; the last is the one with this number.
pub fn equates(alloc: Global, count: u16, last: u16) -> Result<Vec<u8>, AllocError> {
    let mut bytes = Vec::from_slice(alloc, &head_of(13 * usize::from(count)))?;
    for number in 0..count {
        let next = number.saturating_add(1);
        let to = if next == count { last } else { next };
        bytes.extend_from_slice(&equate_of(number, to))?;
    }
    bytes.push(0)?;
    Ok(bytes)
}
