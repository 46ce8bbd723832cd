//! Jump tables of load files.

use crate::asserting::same;
use crate::files::{add, file_of_one, read};
use omf_cells::{LoadFault, LoadFile, Target};
use std::alloc::{AllocError, Global};
use std::test::Fail;

/// A table with this many entries, which lead to the offsets of segment 2 in turn, and a dynamic segment of a given number of bytes.
fn file_of_entries(alloc: Global, count: u32) -> Result<Vec<u8>, AllocError> {
    let size = count.wrapping_mul(14).wrapping_add(12);
    let [first, second, third, fourth] = size.to_le_bytes();
    let mut body = vec![in alloc; 0xF2, first, second, third, fourth, 0, 0, 0, 0, 0, 0, 0, 0]?;
    for offset in 0..count {
        body.extend_from_slice(&[0, 0, 1, 0, 2, 0])?;
        body.extend_from_slice(&offset.to_le_bytes())?;
        body.extend_from_slice(&[0x22, 0, 0xF0, 0xE1])?;
    }
    body.extend_from_slice(&[0, 0, 0, 0, 0])?;
    let mut file = Vec::new(alloc);
    add(&mut file, 1, [0x02, 0x00], size, &body)?;
    add(&mut file, 2, [0x00, 0x80], count, &[0])?;
    Ok(file)
}

/// The offset in segment 2 that a target leads to, or any other target.
fn target(load: &LoadFile, place: u32) -> Result<Option<u32>, Target> {
    match load.target(place) {
        Some(
            Target {
                file: 1,
                segment: 2,
                offset,
            },
        ) => Ok(Some(offset)),
        Some(other) => Err(other),
        None => Ok(None),
    }
}

fn targets(load: &LoadFile) -> [Result<Option<u32>, Target>; 4] {
    [
        target(load, 0),
        target(load, 1),
        target(load, 4679),
        target(load, 4680),
    ]
}

/// The table, how many targets it has, and the targets at the places 0, 1, 4679 and 4680.
type Reported = (Option<u32>, u32, [Result<Option<u32>, Target>; 4]);

fn reported(alloc: Global, file: &[u8]) -> Result<Reported, Option<LoadFault>> {
    match read(alloc, file) {
        Ok(load) => Ok((load.table(), load.target_count(), targets(&load))),
        Err(fault) => Err(fault),
    }
}

#[test]
fn entries_lead_to_targets(rt: HostRuntime) -> Result<(), Fail> {
    let alloc = rt.alloc();
    let file = file_of_entries(alloc, 4680)?;
    let targets = [Ok(Some(0)), Ok(Some(1)), Ok(Some(4679)), Ok(None)];
    let want = (Some(1), 4680, targets);
    same(&rt, &"4680", reported(alloc, &file), Ok(want));

    // A file without a table has none.
    let file = file_of_one(alloc, 8, &[0])?;
    let want = (None, 0, [Ok(None); 4]);
    same(&rt, &"none", reported(alloc, &file), Ok(want));
    Ok(())
}
