//! Load files for tests, put together segment by segment, and single calls over them.

use omf_cells::{Cell, LoadFault, LoadFile, Places, PlacesFault, patch_into, read_load};
use std::alloc::{AllocError, Global};

/// A header of version 2 without a name: BYTECNT, KIND, LENGTH and SEGNUM are 0.
static HEAD: [u8; 0x37] = [
    0, 0, 0, 0, 0, 0, 0, 0, 0, 0, 0, 0, 0, 0, 4, 2, 0, 0, 1, 0, 0, 0, 0, 0, 0, 0, 0, 0, 0, 0, 0, 0,
    0, 0, 0, 0, 0, 0, 0, 0, 0x2C, 0, 0x37, 0, 0x20, 0x20, 0x20, 0x20, 0x20, 0x20, 0x20, 0x20, 0x20,
    0x20, 0,
];

/// Puts bytes over those from a place on, as far as there are any.
pub(crate) fn put_all(bytes: &mut [u8], from: usize, more: &[u8]) {
    for (at, value) in more.iter().enumerate() {
        if let Some(byte) = bytes.get_mut(from.saturating_add(at)) {
            *byte = *value;
        }
    }
}

/// Adds a segment with this number, the two bytes of KIND, LENGTH and records.
pub(crate) fn add(
    file: &mut Vec<u8>,
    number: u8,
    kind: [u8; 2],
    length: u32,
    body: &[u8],
) -> Result<(), AllocError> {
    let start = file.len();
    let size = body.len().saturating_add(HEAD.len()).to_le_bytes();
    file.extend_from_slice(&HEAD)?;
    file.extend_from_slice(body)?;
    put_all(file, start, &size[..4]);
    put_all(file, start.saturating_add(0x08), &length.to_le_bytes());
    put_all(file, start.saturating_add(0x14), &kind);
    put_all(file, start.saturating_add(0x22), &[number]);
    Ok(())
}

/// The file of one code segment of this LENGTH with these records.
pub(crate) fn file_of_one(alloc: Global, length: u32, body: &[u8]) -> Result<Vec<u8>, AllocError> {
    let mut file = Vec::new(alloc);
    add(&mut file, 1, [0, 0], length, body)?;
    Ok(file)
}

/// The LCONST of eight bytes.
static DATA: [u8; 13] = [0xF2, 8, 0, 0, 0, 1, 2, 3, 4, 5, 6, 7, 8];

/// The records of eight bytes of data and then these.
pub(crate) fn body_of_patches(alloc: Global, patches: &[u8]) -> Result<Vec<u8>, AllocError> {
    let mut body = Vec::new(alloc);
    body.extend_from_slice(&DATA)?;
    body.extend_from_slice(patches)?;
    body.push(0)?;
    Ok(body)
}

/// The file, whose size is that of a file; no fault is reported where it isn't.
pub(crate) fn read(alloc: Global, file: &[u8]) -> Result<LoadFile<'_>, Option<LoadFault>> {
    if file.len() > 0x100_0000 {
        return Err(None);
    }
    match read_load(alloc, file) {
        Ok(load) => Ok(load),
        Err(fault) => Err(Some(fault)),
    }
}

/// A cell as rows name it.
#[derive(Clone, Copy)]
pub(crate) enum Seen {
    Byte(u8),
    /// A byte of a place: segment, offset, shift, and which byte it is.
    Part(u16, u32, i8, u8),
    /// No cell is there.
    None,
}

fn cell(seen: &Seen) -> Option<Cell> {
    match *seen {
        Seen::Byte(byte) => Some(Cell::Byte(byte)),
        Seen::Part(segment, offset, shift, index) => Some(Cell::Part {
            file: 1,
            segment,
            offset,
            shift,
            index,
        }),
        Seen::None => None,
    }
}

/// The first cell of a segment that is unlike these from an offset on, and that offset.
fn first_unlike(
    load: &LoadFile,
    segment: u32,
    from: u32,
    cells: &[Seen],
) -> Option<(u32, Option<Cell>)> {
    let mut at = from;
    for seen in cells {
        let reported = load.cell(segment, at);
        if reported != cell(seen) {
            return Some((at, reported));
        }
        at = at.wrapping_add(1);
    }
    None
}

/// The same in a file, or its fault.
pub(crate) fn unlike(
    alloc: Global,
    file: &[u8],
    segment: u32,
    from: u32,
    cells: &[Seen],
) -> Result<Option<(u32, Option<Cell>)>, Option<LoadFault>> {
    match read(alloc, file) {
        Ok(load) => Ok(first_unlike(&load, segment, from, cells)),
        Err(fault) => Err(fault),
    }
}

/// Places for two segments, which lie at these addresses.
fn places_of(alloc: Global, first: u32, second: u32) -> Result<Places, PlacesFault> {
    let mut places = Places::new(alloc, 2)?;
    places.set(1, Some(first));
    places.set(2, Some(second));
    Ok(places)
}

/// Whether these bytes are in memory for a segment.
fn stands(
    alloc: Global,
    load: &LoadFile,
    segment: u32,
    places: &Places,
    bytes: &[u8],
) -> Result<bool, AllocError> {
    let length = match load.header(segment) {
        Some(header) => header.length,
        None => return Ok(false),
    };
    let mut out = vec![in alloc; 0xFFu8; length as usize]?;
    patch_into(load, segment, places, &mut out);
    Ok(out.as_slice() == bytes)
}

/// Whether these bytes are in memory for a segment of a file whose first two segments lie at these addresses.
pub(crate) fn is_patched(
    alloc: Global,
    file: &[u8],
    segment: u32,
    lie: (u32, u32),
    bytes: &[u8],
) -> bool {
    let (first, second) = lie;
    let Ok(places) = places_of(alloc, first, second) else {
        return false;
    };
    let Ok(load) = read(alloc, file) else {
        return false;
    };
    stands(alloc, &load, segment, &places, bytes) == Ok(true)
}
