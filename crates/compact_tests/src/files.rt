//! Load files for tests, put together segment by segment, and what is reported for them.

use omf_compact::{CompactCause, CompactFault, canonical};
use std::alloc::{AllocError, Global};

/// A header of version 2 without a name: BYTECNT, RESSPC, LENGTH, KIND and SEGNUM are 0.
static HEAD: [u8; 0x37] = [
    0, 0, 0, 0, 0, 0, 0, 0, 0, 0, 0, 0, 0, 0, 4, 2, 0, 0, 1, 0, 0, 0, 0, 0, 0, 0, 0, 0, 0, 0, 0, 0,
    0, 0, 0, 0, 0, 0, 0, 0, 0x2C, 0, 0x37, 0, 0x20, 0x20, 0x20, 0x20, 0x20, 0x20, 0x20, 0x20, 0x20,
    0x20, 0,
];

/// Puts bytes over those from a place on, as far as there are any.
pub(crate) fn put_all(bytes: &mut [u8], from: usize, more: &[u8]) {
    for (at, value) in more.iter().enumerate() {
        if let Some(byte) = bytes.get_mut(from.saturating_add(at)) {
            *byte = *value;
        }
    }
}

/// Adds a segment with this number, KIND, LENGTH, RESSPC and records.
pub(crate) fn add(
    file: &mut Vec<u8>,
    number: u8,
    kind: u16,
    length: u32,
    zeros: u32,
    body: &[u8],
) -> Result<(), AllocError> {
    let start = file.len();
    let size = body.len().saturating_add(HEAD.len()).to_le_bytes();
    file.extend_from_slice(&HEAD)?;
    file.extend_from_slice(body)?;
    put_all(file, start, &size[..4]);
    put_all(file, start.saturating_add(0x04), &zeros.to_le_bytes());
    put_all(file, start.saturating_add(0x08), &length.to_le_bytes());
    put_all(file, start.saturating_add(0x14), &kind.to_le_bytes());
    put_all(file, start.saturating_add(0x22), &[number]);
    Ok(())
}

/// The file of one segment.
pub(crate) fn one(
    alloc: Global,
    kind: u16,
    length: u32,
    zeros: u32,
    body: &[u8],
) -> Result<Vec<u8>, AllocError> {
    let mut file = Vec::new(alloc);
    add(&mut file, 1, kind, length, zeros, body)?;
    Ok(file)
}

/// The canonical form of a file, whose size is that of a file; no fault is reported where it isn't.
pub(crate) fn reported(alloc: Global, file: &[u8]) -> Result<Vec<u8>, Option<CompactFault>> {
    if file.len() > 0x100_0000 {
        return Err(None);
    }
    match canonical(alloc, file) {
        Ok(bytes) => Ok(bytes),
        Err(fault) => Err(Some(fault)),
    }
}

/// Whether these bytes are the canonical form of a file, and their own.
pub(crate) fn gives(alloc: Global, file: &[u8], bytes: &[u8]) -> bool {
    match reported(alloc, file) {
        Ok(made) => made.as_slice() == bytes && is_own(alloc, bytes),
        Err(_) => false,
    }
}

/// Whether a file is its own canonical form.
fn is_own(alloc: Global, file: &[u8]) -> bool {
    match reported(alloc, file) {
        Ok(made) => made.as_slice() == file,
        Err(_) => false,
    }
}

/// Why there is no canonical form of a file.
pub(crate) fn fault(alloc: Global, file: &[u8]) -> Option<(CompactCause, u32, u32)> {
    match reported(alloc, file) {
        Err(Some(fault)) => Some((fault.cause, fault.segment, fault.at)),
        Err(None) => None,
        Ok(_) => None,
    }
}
