// Segments of programs, written by hand from the format. Their names are empty, and they stay in a bank.
use std::alloc::{AllocError, Global};

/// Code of one byte.
pub(crate) static CODE: [u8; 62] = [
    0x3E, 0, 0, 0, 0, 0, 0, 0, 1, 0, 0, 0, 0, 0, 4, 2, 0, 0, 1, 0, // LENGTH and BANKSIZE
    0, 0, 0, 0, 0, 0, 0, 0, 0, 0, 0, 0, 0, 0, 1, 0, 0, 0, 0, 0, 0x2C, 0, 0x37, 0, // KIND and SEGNUM
    0x20, 0x20, 0x20, 0x20, 0x20, 0x20, 0x20, 0x20, 0x20, 0x20, 0, // the names
    0xF2, 1, 0, 0, 0, 0x60, 0,
];

/// Code with a call of the table's one entry.
pub(crate) static CALLING_CODE: [u8; 80] = [
    0x50, 0, 0, 0, 0, 0, 0, 0, 4, 0, 0, 0, 0, 0, 4, 2, 0, 0, 1, 0, // LENGTH and BANKSIZE
    0, 0, 0, 0, 0, 0, 0, 0, 0, 0, 0, 0, 0, 0, 1, 0, 0, 0, 0, 0, 0x2C, 0, 0x37, 0, // KIND and SEGNUM
    0x20, 0x20, 0x20, 0x20, 0x20, 0x20, 0x20, 0x20, 0x20, 0x20, 0, // the names
    0xF2, 4, 0, 0, 0, 0x22, 0, 0, 0, // the data
    0xE3, 3, 0, 1, 0, 0, 0, 1, 0, 3, 0, 18, 0, 0, 0, // the place of the entry's code
    0,
];

/// A dynamic segment.
pub(crate) static DYNAMIC: [u8; 63] = [
    0x3F, 0, 0, 0, 0, 0, 0, 0, 2, 0, 0, 0, 0, 0, 4, 2, 0, 0, 1, 0, // LENGTH and BANKSIZE
    0, 0x80, 0, 0, 0, 0, 0, 0, 0, 0, 0, 0, 0, 0, 2, 0, 0, 0, 0, 0, 0x2C, 0, 0x37, 0, // KIND and SEGNUM
    0x20, 0x20, 0x20, 0x20, 0x20, 0x20, 0x20, 0x20, 0x20, 0x20, 0, // the names
    0xF2, 2, 0, 0, 0, 0xEA, 0x6B, 0,
];

/// A table with an entry for the dynamic segment.
pub(crate) static TABLE: [u8; 87] = [
    0x57, 0, 0, 0, 0, 0, 0, 0, 26, 0, 0, 0, 0, 0, 4, 2, 0, 0, 1, 0, // LENGTH and BANKSIZE
    2, 0, 0, 0, 0, 0, 0, 0, 0, 0, 0, 0, 0, 0, 3, 0, 0, 0, 0, 0, 0x2C, 0, 0x37, 0, // KIND and SEGNUM
    0x20, 0x20, 0x20, 0x20, 0x20, 0x20, 0x20, 0x20, 0x20, 0x20, 0, // the names
    0xF2, 26, 0, 0, 0, 0, 0, 0, 0, 0, 0, 0, 0, // zeros
    0, 0, 1, 0, 2, 0, 1, 0, 0, 0, 0x22, 0, 0xF0, 0xE1, 0, 0, 0, 0, // the entry
    0,
];

/// A pathname segment with the path `a`, after a table.
pub(crate) static PATHNAMES: [u8; 75] = [
    0x4B, 0, 0, 0, 0, 0, 0, 0, 14, 0, 0, 0, 0, 0, 4, 2, 0, 0, 1, 0, // LENGTH and BANKSIZE
    4, 0, 0, 0, 0, 0, 0, 0, 0, 0, 0, 0, 0, 0, 4, 0, 0, 0, 0, 0, 0x2C, 0, 0x37, 0, // KIND and SEGNUM
    0x20, 0x20, 0x20, 0x20, 0x20, 0x20, 0x20, 0x20, 0x20, 0x20, 0, // the names
    0xF2, 14, 0, 0, 0, 2, 0, 0, 0, 0, 0, 0, 0, 0, 0, 1, b'a', 0, 0, // the row, and its end
    0,
];

/// Code of no byte.
pub(crate) static EMPTY_CODE: [u8; 56] = [
    0x38, 0, 0, 0, 0, 0, 0, 0, 0, 0, 0, 0, 0, 0, 4, 2, 0, 0, 1, 0, // LENGTH and BANKSIZE
    0, 0, 0, 0, 0, 0, 0, 0, 0, 0, 0, 0, 0, 0, 4, 0, 0, 0, 0, 0, 0x2C, 0, 0x37, 0, // KIND and SEGNUM
    0x20, 0x20, 0x20, 0x20, 0x20, 0x20, 0x20, 0x20, 0x20, 0x20, 0, // the names
    0,
];

/// A file of these segments.
pub(crate) fn file_of(alloc: Global, segments: &[&[u8]]) -> Result<Vec<u8>, AllocError> {
    let mut file = Vec::new(alloc);
    for segment in segments {
        file.extend_from_slice(segment)?;
    }
    Ok(file)
}
