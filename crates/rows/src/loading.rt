//! Load files that are read.

use crate::fixture::Fixture;
use crate::reporting::put_line;
use omf_cells::{LoadFault, read_load};
use std::alloc::{AllocError, Global};

/// The most bytes of a file that is read.
const MOST: usize = 0x100_0000;

/// The fault of a load file that isn't too long, if it has one.
fn fault_in(alloc: Global, file: &[u8]) -> Option<LoadFault> {
    if file.len() > MOST {
        return None;
    }
    match read_load(alloc, file) {
        Ok(load) => {
            drop(load);
            None
        }
        Err(fault) => Some(fault),
    }
}

/// Reads the load file at a path, and prints its fault or that it has none.
pub fn load(alloc: Global, fixture: &mut Fixture, path: &str) -> Result<(), AllocError> {
    let file = fixture.shelf.copy_of(alloc, path)?;
    let Some(fault) = fault_in(alloc, &file) else {
        return put_line(fixture.out(), "loaded");
    };
    let (cause, segment, at) = (fault.cause, fault.segment, fault.at);
    let reported = format!(in alloc; "refused {cause:?} {segment} {at:08X}")?;
    put_line(fixture.out(), reported.as_str())
}
