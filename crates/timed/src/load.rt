//! `load input|read|patch|cells FILE`: reads a load file, writes its first segment's bytes in memory, or looks up cells of it, for
//! `bench/load`.

use crate::ending::{TaskEnd, done};
use omf_cells::{Cell, LoadCause, LoadFault, LoadFile, Places, PlacesFault, patch_into, read_load};
use std::alloc::{AllocError, Global};
use std::io;

/// Where the segment lies.
const ADDRESS: u32 = 0x2_0000;

/// How many cells are looked up.
const LOOK_UPS: u32 = 1_000_000;

/// The load file, where it isn't longer than any file may be.
fn load_of(alloc: Global, file: &[u8]) -> Result<LoadFile<'_>, LoadFault> {
    if file.len() > 0x100_0000 {
        return Err(LoadFault {
            cause: LoadCause::Memory,
            segment: 0,
            at: 0,
        });
    }
    read_load(alloc, file)
}

/// A place for the first segment.
fn first_place(alloc: Global) -> Result<Places, AllocError> {
    match Places::new(alloc, 1) {
        Ok(places) => {
            let mut places = places;
            places.set(1, Some(ADDRESS));
            Ok(places)
        }
        Err(PlacesFault::Memory) => Err(AllocError),
    }
}

/// The bytes that are in memory for the first segment.
fn patched(alloc: Global, load: &LoadFile, places: &Places) -> Result<Vec<u8>, AllocError> {
    let length = match load.header(1) {
        Some(header) => header.length,
        None => return Ok(Vec::new(alloc)),
    };
    let mut out = vec![in alloc; 0u8; length as usize]?;
    patch_into(load, 1, places, &mut out);
    Ok(out)
}

fn sum_of(bytes: &[u8]) -> u32 {
    let mut sum = 0u32;
    for byte in bytes {
        sum = sum.wrapping_add(u32::from(*byte));
    }
    sum
}

/// The sum of the bytes that are in memory for the first segment.
fn patched_sum(alloc: Global, load: &LoadFile) -> Result<u32, AllocError> {
    let places = first_place(alloc)?;
    let bytes = patched(alloc, load, &places)?;
    Ok(sum_of(&bytes))
}

fn is_part(load: &LoadFile, at: u32) -> bool {
    match load.cell(1, at) {
        Some(Cell::Part { .. }) => true,
        Some(Cell::Byte(_)) | None => false,
    }
}

/// How many of the first cells are bytes of a place.
fn part_count(load: &LoadFile) -> u32 {
    let mut count = 0u32;
    for at in 0..LOOK_UPS {
        if is_part(load, at) {
            count = count.wrapping_add(1);
        }
    }
    count
}

/// What is reported of a file that is read, for a word: the sum of its bytes in memory, its parts, or how many segments it has.
fn reported_of(alloc: Global, what: &str, load: &LoadFile) -> Result<u32, AllocError> {
    match what {
        "patch" => patched_sum(alloc, load),
        "cells" => Ok(part_count(load)),
        _ => Ok(load.count()),
    }
}

/// What is reported of the file for a word, which may also ask for nothing.
fn reported(alloc: Global, what: &str, file: &[u8]) -> Result<u32, AllocError> {
    if what == "input" {
        return Ok(0);
    }
    match load_of(alloc, file) {
        Ok(load) => reported_of(alloc, what, &load),
        Err(_) => Ok(0),
    }
}

/// Prints what is reported for the file for a word.
pub fn reveal(rt: &HostRuntime, what: &str, file: &[u8]) -> io::Result<TaskEnd<'static>> {
    match reported(rt.alloc(), what, file) {
        Ok(number) => done(println!(rt; "{what} {number}")),
        Err(AllocError) => Ok(TaskEnd::Memory),
    }
}
