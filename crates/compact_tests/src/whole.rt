//! Whole files in their one form, against bytes that were worked out apart from this code.

use crate::asserting::same;
use crate::files::{add, fault, gives, one, put_all};
use omf_compact::CompactCause;
use std::alloc::{AllocError, Global};
use std::test::Fail;

/// A file, and its form: KIND, LENGTH, the records, and RESSPC and the records.
struct Row(&'static str, u16, u32, &'static [u8], u32, &'static [u8]);

static ROWS: [Row; 6] = [
    Row(
        "code and zeros in one record",
        0,
        8,
        &[8, 0xA9, 1, 0x60, 0, 0, 0, 0, 0, 0],
        5,
        &[0xF2, 3, 0, 0, 0, 0xA9, 1, 0x60, 0],
    ),
    Row(
        "ENTRY records before the data",
        0x8000,
        4,
        &[
            0xF4, 1, 0, 2, 0, 0, 0, 1, 0x41, 0xF2, 4, 0, 0, 0, 1, 2, 3, 4, 0xE2, 1, 0xF8, 0, 0, 0,
            0, 0x45, 0x23, 1, 0, 0xF4, 1, 0, 3, 0, 0, 0, 1, 0x42, 0,
        ],
        0,
        &[
            0xF2, 4, 0, 0, 0, 0x45, 2, 3, 4, 0xE2, 1, 0xF8, 0, 0, 0, 0, 0x45, 0x23, 1, 0, 0xF4, 1,
            0, 2, 0, 0, 0, 1, 0x41, 0xF4, 1, 0, 3, 0, 0, 0, 1, 0x42, 0,
        ],
    ),
    Row(
        "a pathname segment",
        0x04,
        14,
        &[
            0xF2, 14, 0, 0, 0, 2, 0, 0, 0, 0, 0, 0, 0, 0, 0, 1, 0x61, 0, 0, 0,
        ],
        0,
        &[
            0xF2, 14, 0, 0, 0, 2, 0, 0, 0, 0, 0, 0, 0, 0, 0, 1, 0x61, 0, 0, 0,
        ],
    ),
    Row(
        "a jump table",
        0x02,
        12,
        &[12, 0, 0, 0, 0, 0, 0, 0, 0, 0, 0, 0, 0, 0],
        12,
        &[0],
    ),
    Row(
        "the longest LENGTH",
        0,
        0xFFFF_FFFF,
        &[0xF1, 2, 0, 0, 0, 1, 7, 0],
        0xFFFF_FFFC,
        &[0xF2, 3, 0, 0, 0, 0, 0, 7, 0],
    ),
    Row(
        "one byte twice",
        0,
        2,
        &[
            2, 1, 1, 0xE2, 1, 0, 0, 0, 0, 0, 1, 0, 0, 0, 0xE2, 1, 0, 1, 0, 0, 0, 1, 0, 0, 0, 0,
        ],
        0,
        &[
            0xF2, 2, 0, 0, 0, 1, 1, 0xF5, 1, 0, 0, 0, 1, 0, 0xF5, 1, 0, 1, 0, 1, 0, 0,
        ],
    ),
];

#[test]
fn files_in_their_form(rt: HostRuntime) -> Result<(), Fail> {
    for row in &ROWS {
        let file = one(rt.alloc(), row.1, row.2, 0, row.3)?;
        let want = one(rt.alloc(), row.1, row.2, row.4, row.5)?;
        same(&rt, &row.0, gives(rt.alloc(), &file, &want), true);
    }
    Ok(())
}

/// A segment of $300 bytes, with SUPERs of type 0 at $2FD and $2FE.
static TWO: [u8; 16] = [
    0xF1, 0, 3, 0, 0, 0xF7, 5, 0, 0, 0, 0, 0x82, 1, 0xFD, 0xFE, 0,
];

/// What follows its data.
static AFTER: [u8; 17] = [
    0xF5, 1, 0, 0xFD, 2, 0, 0, 0xF7, 4, 0, 0, 0, 0, 0x82, 0, 0xFE, 0,
];

/// The record of `size` zeros, and these bytes after it.
fn long_body(alloc: Global, size: u16, following: &[u8]) -> Result<Vec<u8>, AllocError> {
    let mut body = Vec::new(alloc);
    body.extend_from_slice(&[0xF2, 0, 0, 0, 0])?;
    put_all(&mut body, 1, &u32::from(size).to_le_bytes());
    body.resize(body.len().saturating_add(usize::from(size)), 0)?;
    body.extend_from_slice(following)?;
    Ok(body)
}

#[test]
fn a_shared_byte_in_the_third_page(rt: HostRuntime) -> Result<(), Fail> {
    let file = one(rt.alloc(), 0, 0x300, 0, &TWO)?;
    let body = long_body(rt.alloc(), 0x300, &AFTER)?;
    let want = one(rt.alloc(), 0, 0x300, 0, &body)?;
    assert_eq!(rt; want.len(), 845);
    same(&rt, &"SUPERs", gives(rt.alloc(), &file, &want), true);
    Ok(())
}

/// A file of one segment whose data are `zeros` zeros, and a byte.
fn spaced(alloc: Global, zeros: u32) -> Result<Vec<u8>, AllocError> {
    let mut body = Vec::new(alloc);
    body.push(0xF1)?;
    body.extend_from_slice(&zeros.to_le_bytes())?;
    body.extend_from_slice(&[1, 7, 0])?;
    one(alloc, 0, 0x100_0000, 0, &body)
}

#[test]
fn the_longest_file(rt: HostRuntime) -> Result<(), Fail> {
    let file = spaced(rt.alloc(), 16_777_154)?;
    match crate::files::reported(rt.alloc(), &file) {
        Ok(made) => same(&rt, &"longest", made.len(), 0x100_0000),
        Err(_) => same(&rt, &"longest", 0, 0x100_0000),
    }
    let more = spaced(rt.alloc(), 16_777_155)?;
    same(
        &rt,
        &"more",
        fault(rt.alloc(), &more),
        Some((CompactCause::TooLong, 0, 0)),
    );
    Ok(())
}

/// A segment with a broken part: four zeros, two patches at one place.
static BROKEN: [u8; 28] = [
    0xF1, 4, 0, 0, 0, 0xE2, 2, 0, 0, 0, 0, 0, 0, 0, 0, 0, 0xE2, 1, 0, 0, 0, 0, 0, 1, 0, 0, 0, 0,
];

#[test]
fn a_broken_part_comes_first(rt: HostRuntime) -> Result<(), Fail> {
    let mut file = spaced(rt.alloc(), 16_777_155)?;
    add(&mut file, 2, 0, 4, 0, &BROKEN)?;
    same(
        &rt,
        &"after a long segment",
        fault(rt.alloc(), &file),
        Some((CompactCause::BrokenPart, 2, 1)),
    );
    Ok(())
}
