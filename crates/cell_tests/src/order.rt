//! Cells and bytes of patches, over the same places too, and where places fall, against those that were worked out apart from this code.

use crate::asserting::same;
use crate::files::{Seen, add, body_of_patches, file_of_one, is_patched, unlike};
use std::alloc::{AllocError, Global};
use std::process::Abort;
use std::test::Fail;

/// Twelve segments, the first one with the bytes 1, 2, 3 by turns and a SUPER of each type in the order of their numbers, each
/// of one location, the next three bytes.
fn file_of_types(alloc: Global) -> Result<Vec<u8>, AllocError> {
    let mut body = vec![in alloc; 0xF2, 81, 0, 0, 0]?;
    for _ in 0..27u32 {
        body.extend_from_slice(&[1, 2, 3])?;
    }
    let mut at = 0u8;
    for form in 0..38u8 {
        if form < 3 || form > 13 {
            body.extend_from_slice(&[0xF7, 3, 0, 0, 0, form, 0, at])?;
            at = at.wrapping_add(3);
        }
    }
    body.push(0)?;
    let mut file = Vec::new(alloc);
    add(&mut file, 1, [0, 0], 81, &body)?;
    for number in 2..13u8 {
        add(&mut file, number, [0, 0], 0, &[0])?;
    }
    Ok(file)
}

/// Ends the test where three cells from an offset on aren't the first two parts of a place, shifted so, and the byte 3.
fn is_low_part(rt: &impl Abort, alloc: Global, file: &[u8], from: u32, segment: u16, shift: i8) {
    let wanted = [
        Seen::Part(segment, 0x201, shift, 0),
        Seen::Part(segment, 0x201, shift, 1),
        Seen::Byte(3),
    ];
    same(rt, &from, unlike(alloc, file, 1, from, &wanted), Ok(None));
}

/// Ends the test where three cells from an offset on aren't the parts of a place.
fn is_whole_part(rt: &impl Abort, alloc: Global, file: &[u8], from: u32, segment: u16) {
    let wanted = [
        Seen::Part(segment, 0x201, 0, 0),
        Seen::Part(segment, 0x201, 0, 1),
        Seen::Part(segment, 0x201, 0, 2),
    ];
    same(rt, &from, unlike(alloc, file, 1, from, &wanted), Ok(None));
}

/// Ends the test where a type of SUPER isn't read.
fn are_types(rt: &impl Abort, alloc: Global, file: &[u8]) {
    is_low_part(rt, alloc, file, 0, 1, 0);
    is_whole_part(rt, alloc, file, 3, 1);
    is_whole_part(rt, alloc, file, 6, 3);
    let mut at = 9u32;
    for segment in 1..13u16 {
        is_low_part(rt, alloc, file, at, segment, 0);
        is_low_part(rt, alloc, file, at.wrapping_add(36), segment, -16);
        at = at.wrapping_add(3);
    }
}

/// Eight bytes of data and four zeros; a SUPER of type 0 at 2 and of type 26 at 3, whose offsets are read from the data; a
/// RELOC of one byte at 4, shifted right by 8.
fn file_over_one_another(alloc: Global) -> Result<Vec<u8>, AllocError> {
    let body = body_of_patches(
        alloc,
        &[
            0xF7, 3, 0, 0, 0, 0, 0, 2, 0xF7, 3, 0, 0, 0, 26, 0, 3, 0xE2, 1, 0xF8, 4, 0, 0, 0, 0x78,
            0x56, 0x34, 0x12,
        ],
    )?;
    file_of_one(alloc, 12, &body)
}

/// Eight bytes of data; a SUPER of type 1, of three bytes, and one of type 26, of two, both at 0 and at 4.
fn file_of_supers(alloc: Global) -> Result<Vec<u8>, AllocError> {
    let body = [
        0xF2, 8, 0, 0, 0, 1, 2, 3, 4, 5, 6, 7, 8, 0xF7, 4, 0, 0, 0, 1, 1, 0, 4, 0xF7, 4, 0, 0, 0,
        26, 1, 0, 4, 0,
    ];
    file_of_one(alloc, 8, &body)
}

/// What is seen of the first file from an offset on.
static LAST: [(u32, &[Seen]); 2] = [
    (
        1,
        &[
            Seen::Byte(2),
            Seen::Part(1, 0x0403, 0, 0),
            Seen::Part(1, 0x0504, -16, 0),
            Seen::Part(1, 0x1234_5678, -8, 0),
            Seen::Byte(6),
        ],
    ),
    (11, &[Seen::Byte(0), Seen::None]),
];

/// What is seen of the second file.
static LATER: [Seen; 8] = [
    Seen::Part(1, 0x0201, -16, 0),
    Seen::Part(1, 0x0201, -16, 1),
    Seen::Part(1, 0x0201, 0, 2),
    Seen::Byte(4),
    Seen::Part(1, 0x0605, -16, 0),
    Seen::Part(1, 0x0605, -16, 1),
    Seen::Part(1, 0x0605, 0, 2),
    Seen::Byte(8),
];

/// A segment of 81 zeros with 40 cRELOCs of three bytes, at 78, 76 and so on down to 0, of the offsets from $1000 up to $1027.
fn file_that_falls(alloc: Global) -> Result<Vec<u8>, AllocError> {
    let mut body = vec![in alloc; 0xF1, 81, 0, 0, 0]?;
    let mut at = 80u8;
    for low in 0..40u8 {
        at = at.wrapping_sub(2);
        body.extend_from_slice(&[0xF5, 3, 0, at, 0, low, 0x10])?;
    }
    body.push(0)?;
    file_of_one(alloc, 81, &body)
}

/// Ends the test where the two cells from each place on aren't the last two bytes of the next one: over its first one the next patch has
/// its third.
fn falls(rt: &impl Abort, alloc: Global, file: &[u8]) {
    let first = [Seen::Part(1, 0x1027, 0, 0)];
    same(rt, &0, unlike(alloc, file, 1, 0, &first), Ok(None));
    let mut at = 81u32;
    for offset in 0x1000..0x1028u32 {
        at = at.wrapping_sub(2);
        let wanted = [Seen::Part(1, offset, 0, 1), Seen::Part(1, offset, 0, 2)];
        same(rt, &offset, unlike(alloc, file, 1, at, &wanted), Ok(None));
    }
}

#[test]
fn cells_are_the_last_patches(rt: HostRuntime) -> Result<(), Fail> {
    let alloc = rt.alloc();
    let file = file_over_one_another(alloc)?;
    for (from, cells) in &LAST {
        same(&rt, from, unlike(alloc, &file, 1, *from, cells), Ok(None));
    }

    // A later SUPER counts.
    let file = file_of_supers(alloc)?;
    same(&rt, &"later", unlike(alloc, &file, 1, 0, &LATER), Ok(None));
    let file = file_of_types(alloc)?;
    are_types(&rt, alloc, &file);

    // Places may fall.
    let file = file_that_falls(alloc)?;
    falls(&rt, alloc, &file);
    Ok(())
}

/// RELOC of $345678 shifted right by 8; cINTERSEG of $FFFF in segment 2 shifted left by 4.
static FIRST: [u8; 19] = [
    0xE2, 4, 0xF8, 0, 0, 0, 0, 0x78, 0x56, 0x34, 0, 0xF6, 4, 4, 4, 0, 2, 0xFF, 0xFF,
];

/// A file of two segments of eight bytes, the first with those patches and the second with a RELOC of its own.
fn file_of_shifts(alloc: Global) -> Result<Vec<u8>, AllocError> {
    let first = body_of_patches(alloc, &FIRST)?;
    let second = body_of_patches(alloc, &[0xE2, 4, 0, 2, 0, 0, 0, 1, 0, 0, 0xE0])?;
    let mut file = Vec::new(alloc);
    add(&mut file, 1, [0, 0], 8, &first)?;
    add(&mut file, 2, [0, 0], 8, &second)?;
    Ok(file)
}

/// The bytes of the places where the segment lies at $30000: $31000 up to $31027.
fn bytes_that_fall(alloc: Global) -> Result<Vec<u8>, AllocError> {
    let mut bytes = vec![in alloc; 0x27]?;
    for _ in 0..40u8 {
        bytes.extend_from_slice(&[0x10, 3])?;
    }
    Ok(bytes)
}

/// Segment of that file, where its two segments lie, and the bytes that are in memory.
static SHIFTED: [(u32, (u32, u32), [u8; 8]); 3] = [
    // Places are added before the shift: $F034_5678, $2_0003 + $FFFF and $2_0003 + $E000_0001.
    (
        1,
        (0xF000_0000, 0x0002_0003),
        [0x56, 0x34, 0xF0, 0, 0x20, 0, 0x30, 0],
    ),
    (2, (0xF000_0000, 0x0002_0003), [1, 2, 4, 0, 2, 0xE0, 7, 8]),
    // A sum above 32 bits begins again at 0.
    (2, (0, 0xFFFF_FFFF), [1, 2, 0, 0, 0, 0xE0, 7, 8]),
];

#[test]
fn segments_are_patched(rt: HostRuntime) -> Result<(), Fail> {
    let alloc = rt.alloc();
    let file = file_of_shifts(alloc)?;
    for (segment, lie, bytes) in &SHIFTED {
        let reported = is_patched(alloc, &file, *segment, *lie, bytes);
        same(&rt, bytes, reported, true);
    }

    // At $F00000 the bytes are those of $F00403, of $F00504 shifted right by 16, and of $1324_5678 by 8.
    let file = file_over_one_another(alloc)?;
    let bytes = [1, 2, 0x03, 0xF0, 0x56, 6, 7, 8, 0, 0, 0, 0];
    let reported = is_patched(alloc, &file, 1, (0x00F0_0000, 0), &bytes);
    same(&rt, &"over one another", reported, true);

    // At $F10000 the first two bytes are $00F1, and the third is that of $F10201 and of $F10605.
    let file = file_of_supers(alloc)?;
    let bytes = [0xF1, 0, 0xF1, 4, 0xF1, 0, 0xF1, 8];
    let reported = is_patched(alloc, &file, 1, (0x00F1_0000, 0), &bytes);
    same(&rt, &"later", reported, true);

    let file = file_that_falls(alloc)?;
    let bytes = bytes_that_fall(alloc)?;
    let reported = is_patched(alloc, &file, 1, (0x0003_0000, 0), &bytes);
    same(&rt, &"falling", reported, true);
    Ok(())
}
