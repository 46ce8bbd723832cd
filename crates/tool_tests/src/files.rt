// Files that the tool is given, as the tables of the tests name them.
use crate::programs::{SIX, put_segment};
use std::alloc::Global;
use std::test::Fail;

/// A file.
#[derive(Clone, Copy)]
pub(crate) enum File<'a> {
    /// These bytes.
    Of(&'a [u8]),
    /// The program of six segments, of which some bytes are changed at displacements.
    Six(&'a [(usize, u8)]),
}

/// Its bytes.
pub(crate) fn bytes_of(alloc: Global, file: &File) -> Result<Vec<u8>, Fail> {
    match file {
        File::Of(bytes) => Ok(bytes.to_vec(alloc)?),
        File::Six(changes) => six(alloc, changes),
    }
}

/// Changes bytes at displacements.
fn change(bytes: &mut Vec<u8>, changes: &[(usize, u8)]) {
    for (at, value) in changes {
        if let Some(byte) = bytes.get_mut(*at) {
            *byte = *value;
        }
    }
}

fn six(alloc: Global, changes: &[(usize, u8)]) -> Result<Vec<u8>, Fail> {
    let mut bytes = Vec::new(alloc);
    for segment in &SIX {
        put_segment(&mut bytes, segment)?;
    }
    change(&mut bytes, changes);
    Ok(bytes)
}
