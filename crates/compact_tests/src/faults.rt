//! What is wrong with a load file is reported as such.

use crate::asserting::same;
use crate::files::{add, fault, one};
use omf_compact::CompactCause;
use std::test::Fail;

/// A file of one segment, and its fault: KIND, LENGTH, the records, the cause and the place.
struct Row(u16, u32, &'static [u8], CompactCause, u32);

static ROWS: [Row; 8] = [
    Row(
        0,
        0,
        &[0xE0, 0, 1, 0, 0, 0],
        CompactCause::NotLoadFile,
        0x37,
    ),
    Row(0, 4, &[0xF2, 4, 0, 0, 0, 1], CompactCause::Truncated, 0x3D),
    Row(0, 0, &[0xE8, 0], CompactCause::Unsupported, 0x37),
    Row(0, 0, &[0xF7, 0, 0, 0, 0, 0], CompactCause::BadRecord, 0x37),
    Row(0, 1, &[2, 1, 2, 0], CompactCause::DataTooLong, 0),
    Row(
        0,
        2,
        &[2, 1, 2, 0xE2, 4, 0, 0, 0, 0, 0, 0, 0, 0, 0, 0],
        CompactCause::PatchOutside,
        0x3A,
    ),
    Row(
        0,
        2,
        &[2, 1, 2, 0xE3, 2, 0, 0, 0, 0, 0, 1, 0, 9, 0, 0, 0, 0, 0, 0],
        CompactCause::NoSuchTarget,
        0x3A,
    ),
    Row(2, 1, &[0], CompactCause::BadTable, 1),
];

#[test]
fn faults_are_kept(rt: HostRuntime) -> Result<(), Fail> {
    for row in &ROWS {
        let file = one(rt.alloc(), row.0, row.1, 0, row.2)?;
        same(
            &rt,
            &row.3,
            fault(rt.alloc(), &file),
            Some((row.3, 1, row.4)),
        );
    }
    same(
        &rt,
        &"empty",
        fault(rt.alloc(), &[]),
        Some((CompactCause::NotLoadFile, 0, 0)),
    );
    Ok(())
}

#[test]
fn faults_of_two_segments_are_kept(rt: HostRuntime) -> Result<(), Fail> {
    let body = [2u8, 1, 2, 0xE3, 2, 0, 0, 0, 0, 0, 1, 0, 2, 0, 0, 0, 0, 0, 0];
    let mut file = one(rt.alloc(), 0, 2, 0, &body)?;
    add(&mut file, 2, 0x8000, 1, 0, &[1, 7, 0])?;
    same(
        &rt,
        &"dynamic",
        fault(rt.alloc(), &file),
        Some((CompactCause::DynamicTarget, 1, 0x3A)),
    );
    let mut twice = one(rt.alloc(), 0, 0, 0, &[0])?;
    add(&mut twice, 1, 0, 0, 0, &[0])?;
    same(
        &rt,
        &"twice",
        fault(rt.alloc(), &twice),
        Some((CompactCause::Sequence, 2, 0x38)),
    );
    Ok(())
}
