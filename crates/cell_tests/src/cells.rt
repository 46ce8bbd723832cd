// What no clause says: that the definitions are those of the field, and that memory is enough.
use crate::asserting::same;
use crate::files::{Seen, read, unlike};
use omf_cells::{LoadFault, LoadFile};
use std::alloc::{AllocError, Global};

/// A load file of one code segment: 3 bytes and then 5 zeros.
static ONE: [u8; 64] = [
    0x40, 0, 0, 0, 5, 0, 0, 0, 8, 0, 0, 0, 0, 0, 4, 2, 0, 0, 1, 0, 0, 0, 0, 0, 0, 0, 0, 0, 0, 0, 0,
    0, 0, 0, 1, 0, 0, 0, 0, 0, 0x2C, 0, 0x37, 0, 0x20, 0x20, 0x20, 0x20, 0x20, 0x20, 0x20, 0x20,
    0x20, 0x20, 0, 0xF2, 3, 0, 0, 0, 0xA9, 0x01, 0x60, 0,
];

/// A segment, and the cells of its data, with none after them.
static CELLS: [(u32, &[Seen]); 3] = [
    (
        1,
        &[
            Seen::Byte(0xA9),
            Seen::Byte(0x01),
            Seen::Byte(0x60),
            Seen::Byte(0),
            Seen::Byte(0),
            Seen::Byte(0),
            Seen::Byte(0),
            Seen::Byte(0),
            Seen::None,
        ],
    ),
    (0, &[Seen::None]),
    (2, &[Seen::None]),
];

/// LENGTH of the segment with this number.
fn length_of(load: &LoadFile, segment: u32) -> Option<u32> {
    match load.header(segment) {
        Some(header) => Some(header.length),
        None => None,
    }
}

fn lengths_of(load: &LoadFile) -> [Option<u32>; 3] {
    [length_of(load, 0), length_of(load, 1), length_of(load, 2)]
}

/// How many segments the file has, and the LENGTHs of the first and of those beside it.
fn lengths(alloc: Global) -> Result<(u32, [Option<u32>; 3]), Option<LoadFault>> {
    match read(alloc, &ONE) {
        Ok(load) => Ok((load.count(), lengths_of(&load))),
        Err(fault) => Err(fault),
    }
}

/// The bytes of the first segment, where it has no patches.
fn data_of(alloc: Global, load: &LoadFile) -> Result<Option<Vec<u8>>, AllocError> {
    let length = match load.header(1) {
        Some(header) => header.length,
        None => return Ok(None),
    };
    let mut out = vec![in alloc; 0xFFu8; length as usize]?;
    if load.has_patches(1) {
        return Ok(None);
    }
    load.data_into(1, &mut out);
    Ok(Some(out))
}

/// Whether the data of the file's segment is this as a whole.
fn is_data(alloc: Global, want: &[u8]) -> bool {
    let Ok(load) = read(alloc, &ONE) else {
        return false;
    };
    match data_of(alloc, &load) {
        Ok(Some(data)) => data.as_slice() == want,
        _ => false,
    }
}

#[test]
fn segments_have_lengths_data_and_cells(rt: HostRuntime) {
    let alloc = rt.alloc();
    let count_and_lengths = (1, [None, Some(8), None]);
    same(&rt, &"lengths", lengths(alloc), Ok(count_and_lengths));
    let data = [0xA9, 0x01, 0x60, 0, 0, 0, 0, 0];
    same(&rt, &"data", is_data(alloc, &data), true);
    for (segment, cells) in &CELLS {
        let reported = unlike(alloc, &ONE, *segment, 0, cells);
        same(&rt, segment, reported, Ok(None));
    }
}
