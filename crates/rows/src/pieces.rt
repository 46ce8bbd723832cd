//! The pieces that lines add to a file.

use std::alloc::{AllocError, Global};

/// A decimal number; 0 where it is none.
pub fn number(text: &str) -> usize {
    match text.parse::<usize>() {
        Ok(number) => number,
        Err(_) => 0,
    }
}

/// A hexadecimal number; 0 where it is none.
pub fn hex(text: &str) -> usize {
    match usize::from_str_radix(text, 16) {
        Ok(number) => number,
        Err(_) => 0,
    }
}

/// The displacement of a field of a segment's header, by its name; or a hexadecimal number.
pub fn displacement(word: &str) -> usize {
    match word {
        "BYTECNT" => 0x00,
        "RESSPC" => 0x04,
        "LENGTH" => 0x08,
        "LABLEN" => 0x0D,
        "NUMLEN" => 0x0E,
        "VERSION" => 0x0F,
        "BANKSIZE" => 0x10,
        "KIND" => 0x14,
        "ORG" => 0x18,
        "ALIGN" => 0x1C,
        "NUMSEX" => 0x20,
        "SEGNUM" => 0x22,
        "ENTRY" => 0x24,
        "DISPNAME" => 0x28,
        "DISPDATA" => 0x2A,
        "LOADNAME" => 0x2C,
        other => hex(other),
    }
}

/// Puts bytes over those from a place on, as far as there are any.
pub fn put_at(bytes: &mut [u8], from: usize, more: &[u8]) {
    for (at, value) in more.iter().enumerate() {
        if let Some(byte) = bytes.get_mut(from.saturating_add(at)) {
            *byte = *value;
        }
    }
}

/// Appends bytes in hexadecimal.
pub fn put_hex(out: &mut Vec<u8>, words: &str) -> Result<(), AllocError> {
    for word in words.split(' ') {
        out.push((hex(word) % 256) as u8)?;
    }
    Ok(())
}

/// Appends what a letter after `\` represents.
fn put_escaped(out: &mut Vec<u8>, letter: u8) -> Result<(), AllocError> {
    let byte = match letter {
        b'n' => b'\n',
        b'r' => b'\r',
        b't' => b'\t',
        other => other,
    };
    out.push(byte)?;
    Ok(())
}

/// Appends a text, in which `\n`, `\r`, `\t` and `\\` mean what they do in programs.
pub fn put_text(out: &mut Vec<u8>, text: &str) -> Result<(), AllocError> {
    let mut escaped = false;
    for byte in text.bytes() {
        if escaped {
            put_escaped(out, byte)?;
            escaped = false;
        } else if byte == b'\\' {
            escaped = true;
        } else {
            out.push(byte)?;
        }
    }
    Ok(())
}

/// The bytes of such a text.
pub fn text_of(alloc: Global, text: &str) -> Result<Vec<u8>, AllocError> {
    let mut bytes = Vec::new(alloc);
    put_text(&mut bytes, text)?;
    Ok(bytes)
}

/// Appends a text `count` times.
pub fn put_again(
    alloc: Global,
    out: &mut Vec<u8>,
    count: usize,
    text: &str,
) -> Result<(), AllocError> {
    let piece = text_of(alloc, text)?;
    for _ in 0..count {
        out.extend_from_slice(&piece)?;
    }
    Ok(())
}

/// A byte of a series: `n0` to `n3` are the bytes of the number, the lowest first, `m0` to `m3` those of the next number.
fn byte_of(word: &str, number: u32) -> u8 {
    let [n0, n1, n2, n3] = number.to_le_bytes();
    let [m0, m1, m2, m3] = number.wrapping_add(1).to_le_bytes();
    match word {
        "n0" => n0,
        "n1" => n1,
        "n2" => n2,
        "n3" => n3,
        "m0" => m0,
        "m1" => m1,
        "m2" => m2,
        "m3" => m3,
        _ => (hex(word) % 256) as u8,
    }
}

/// Appends these bytes for each of `count` numbers from 0.
pub fn put_series(out: &mut Vec<u8>, count: u32, words: &str) -> Result<(), AllocError> {
    for number in 0..count {
        for word in words.split(' ') {
            out.push(byte_of(word, number))?;
        }
    }
    Ok(())
}
