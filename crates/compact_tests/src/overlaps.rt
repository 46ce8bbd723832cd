//! Patches over patches, against bytes that were worked out apart from this code.

use crate::asserting::same;
use crate::files::{fault, gives, one};
use omf_compact::CompactCause;
use std::alloc::{AllocError, Global};
use std::test::Fail;

/// What a segment of four zero bytes becomes under these patches: RESSPC and the records, or the offset of the first broken part.
enum Want {
    Records(u32, &'static [u8]),
    Broken(u32),
}

/// Patches as RELOC: count, location and offset.
struct Row(&'static str, &'static [(u8, u8, u8)], Want);

static ROWS: [Row; 8] = [
    Row("none", &[], Want::Records(4, &[0])),
    Row(
        "out of order",
        &[(1, 2, 7), (2, 0, 9)],
        Want::Records(
            1,
            &[
                0xF2, 3, 0, 0, 0, 9, 0, 7, 0xF5, 1, 0, 2, 0, 7, 0, 0xF7, 3, 0, 0, 0, 0, 0, 0, 0,
            ],
        ),
    ),
    Row(
        "a shorter one of the same place over a longer one",
        &[(3, 0, 5), (2, 0, 5)],
        Want::Records(
            1,
            &[0xF2, 3, 0, 0, 0, 5, 0, 0, 0xF7, 3, 0, 0, 0, 1, 0, 0, 0],
        ),
    ),
    Row(
        "over the last byte",
        &[(4, 0, 0), (1, 3, 5)],
        Want::Records(
            0,
            &[
                0xF2, 4, 0, 0, 0, 0, 0, 0, 5, 0xF5, 1, 0, 3, 0, 5, 0, 0xF7, 3, 0, 0, 0, 1, 0, 0, 0,
            ],
        ),
    ),
    Row(
        "from the second byte on",
        &[(2, 0, 0), (2, 1, 9)],
        Want::Records(
            1,
            &[
                0xF2, 3, 0, 0, 0, 0, 9, 0, 0xF5, 1, 0, 0, 0, 0, 0, 0xF7, 3, 0, 0, 0, 0, 0, 1, 0,
            ],
        ),
    ),
    Row(
        "over the first bytes",
        &[(3, 0, 0), (2, 0, 9)],
        Want::Broken(2),
    ),
    Row(
        "over the first byte",
        &[(2, 0, 0), (1, 0, 9)],
        Want::Broken(1),
    ),
    Row(
        "before it and over its first byte",
        &[(2, 1, 0), (2, 0, 9)],
        Want::Broken(2),
    ),
];

/// The records of four zero bytes and these patches.
fn body_of(alloc: Global, patches: &[(u8, u8, u8)]) -> Result<Vec<u8>, AllocError> {
    let mut body = Vec::new(alloc);
    body.extend_from_slice(&[0xF1, 4, 0, 0, 0])?;
    for (count, location, offset) in patches {
        body.extend_from_slice(&[0xE2, *count, 0, *location, 0, 0, 0, *offset, 0, 0, 0])?;
    }
    body.push(0)?;
    Ok(body)
}

#[test]
fn patches_that_share_bytes(rt: HostRuntime) -> Result<(), Fail> {
    for row in &ROWS {
        let body = body_of(rt.alloc(), row.1)?;
        let file = one(rt.alloc(), 0, 4, 0, &body)?;
        match row.2 {
            Want::Records(zeros, records) => {
                let want = one(rt.alloc(), 0, 4, zeros, records)?;
                same(&rt, &row.0, gives(rt.alloc(), &file, &want), true);
            }
            Want::Broken(at) => {
                same(
                    &rt,
                    &row.0,
                    fault(rt.alloc(), &file),
                    Some((CompactCause::BrokenPart, 1, at)),
                );
            }
        }
    }
    Ok(())
}
