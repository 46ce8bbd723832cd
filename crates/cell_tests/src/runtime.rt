//! Pathname segments, the names that a load file gives to others, and run-time library files.

use crate::asserting::same;
use crate::files::{add, file_of_one, put_all, read};
use omf_cells::{Export, LoadCause, LoadFault, LoadFile, read_runtime};
use std::alloc::{AllocError, Global};
use std::test::Fail;

/// A fault as rows name it: cause, segment and place.
type Fault = (LoadCause, u32, u32);

fn reported(fault: LoadFault) -> Fault {
    (fault.cause, fault.segment, fault.at)
}

/// The fault of a file, if it has one. A file that is too long to be one has none.
fn fault_in(alloc: Global, file: &[u8]) -> Option<Fault> {
    match read(alloc, file) {
        Ok(_) => None,
        Err(Some(fault)) => Some(reported(fault)),
        Err(None) => None,
    }
}

/// The records of a pathname segment with the paths `ab` and `c`.
static BODY: [u8; 33] = [
    0xF2, 27, 0, 0, 0, 2, 0, 0, 0, 0, 0, 0, 0, 0, 0, 2, b'a', b'b', 3, 0, 0, 0, 0, 0, 0, 0, 0, 0,
    1, b'c', 0, 0, 0,
];

/// Where the segment's bytes are in the file.
const DATA: usize = 0x37 + 5;

/// Where the second segment begins.
const AFTER: usize = 0x37 + 33;

/// A pathname segment and a static one of 8 bytes, with one byte changed.
fn file_of_paths(alloc: Global, at: usize, value: u8) -> Result<Vec<u8>, AllocError> {
    let mut file = Vec::new(alloc);
    add(&mut file, 1, [0x04, 0x00], 27, &BODY)?;
    add(&mut file, 2, [0x00, 0x00], 8, &[0])?;
    put_all(&mut file, at, &[value]);
    Ok(file)
}

/// The fault of pathnames with one byte changed.
fn fault_of_paths(alloc: Global, at: usize, value: u8) -> Result<Option<Fault>, AllocError> {
    let file = file_of_paths(alloc, at, value)?;
    Ok(fault_in(alloc, &file))
}

/// A byte that is changed, and the fault.
static FLAWS: [(usize, u8, Option<Fault>); 29] = [
    // A file number that isn't the next, and one that ends the rows before there is any or before the segment's end.
    (DATA + 0, 1, Some((LoadCause::BadTable, 1, 0))),
    (DATA + 0, 3, Some((LoadCause::BadTable, 1, 0))),
    (DATA + 0, 0, Some((LoadCause::BadTable, 1, 0))),
    (DATA + 1, 1, Some((LoadCause::BadTable, 1, 0))),
    (DATA + 13, 2, Some((LoadCause::BadTable, 1, 13))),
    (DATA + 13, 4, Some((LoadCause::BadTable, 1, 13))),
    (DATA + 14, 1, Some((LoadCause::BadTable, 1, 13))),
    (DATA + 13, 0, Some((LoadCause::BadTable, 1, 15))),
    // The zeros.
    (DATA + 2, 1, Some((LoadCause::BadTable, 1, 2))),
    (DATA + 9, 1, Some((LoadCause::BadTable, 1, 2))),
    (DATA + 15, 1, Some((LoadCause::BadTable, 1, 15))),
    (DATA + 22, 1, Some((LoadCause::BadTable, 1, 15))),
    // A path without bytes, and one that passes the end.
    (DATA + 10, 0, Some((LoadCause::BadTable, 1, 10))),
    (DATA + 10, 17, Some((LoadCause::BadTable, 1, 11))),
    (DATA + 23, 0, Some((LoadCause::BadTable, 1, 23))),
    (DATA + 23, 4, Some((LoadCause::BadTable, 1, 24))),
    // What a path may consist of.
    (DATA + 11, 0x20, Some((LoadCause::BadTable, 1, 11))),
    (DATA + 12, 0x7F, Some((LoadCause::BadTable, 1, 11))),
    (DATA + 24, 0x00, Some((LoadCause::BadTable, 1, 24))),
    (DATA + 11, 0x21, None),
    (DATA + 12, 0x7E, None),
    // No row follows the last one, and the number that ends the rows is there whole.
    (DATA + 25, 1, Some((LoadCause::BadTable, 1, 25))),
    (DATA + 25, 4, Some((LoadCause::BadTable, 1, 27))),
    // Dynamic, skipped, and another LENGTH.
    (0x15, 0x80, Some((LoadCause::BadTable, 1, 0))),
    (0x15, 0x02, Some((LoadCause::BadTable, 1, 0))),
    (0x08, 28, Some((LoadCause::BadTable, 1, 0))),
    (0x08, 40, Some((LoadCause::BadTable, 1, 0))),
    // A second one is refused at its start, whatever it is.
    (AFTER + 0x14, 0x04, Some((LoadCause::BadTable, 2, 0))),
    (AFTER + 0x14, 0x00, None),
];

#[test]
fn each_field_of_pathnames(rt: HostRuntime) {
    for (at, value, want) in &FLAWS {
        let found = fault_of_paths(rt.alloc(), *at, *value);
        same(&rt, &(*at, *value), found, Ok(*want));
    }
}

/// The pathname segment, how many paths it has, and those at the places 0, 1 and 2.
type Paths<'a> = (Option<u32>, u32, [Option<&'a [u8]>; 3]);

fn paths_of<'a>(load: &LoadFile<'a>) -> Paths<'a> {
    (
        load.pathnames(),
        load.paths(),
        [load.path(0), load.path(1), load.path(2)],
    )
}

fn paths_in(alloc: Global, file: &[u8]) -> Result<Paths<'_>, Option<LoadFault>> {
    match read(alloc, file) {
        Ok(load) => Ok(paths_of(&load)),
        Err(fault) => Err(fault),
    }
}

#[test]
fn paths_are_reported(rt: HostRuntime) -> Result<(), Fail> {
    let alloc = rt.alloc();
    let file = file_of_paths(alloc, AFTER + 0x14, 0x00)?;
    let want: Paths<'_> = (Some(1), 2, [Some(b"ab"), Some(b"c"), None]);
    same(&rt, &"two", paths_in(alloc, &file), Ok(want));

    let file = file_of_one(alloc, 8, &[0])?;
    let want: Paths<'_> = (None, 0, [None; 3]);
    same(&rt, &"none", paths_in(alloc, &file), Ok(want));
    Ok(())
}

/// The ENTRY records of A, which is at offset 2 of segment 2, and of BC, which is at offset 0 of segment 1, and END.
static ENTRIES: [u8; 20] = [
    0xF4, 2, 0, 2, 0, 0, 0, 1, b'A', 0xF4, 1, 0, 0, 0, 0, 0, 2, b'B', b'C', 0,
];

/// The ENTRY record of D, which is at offset 7 of segment 1, and END.
static ENTRY: [u8; 10] = [0xF4, 1, 0, 7, 0, 0, 0, 1, b'D', 0];

/// Two segments of 8 bytes with these kinds and entries, with one byte changed.
fn file_of_entries(
    alloc: Global,
    first: [u8; 2],
    second: [u8; 2],
    at: usize,
    value: u8,
) -> Result<Vec<u8>, AllocError> {
    let mut file = Vec::new(alloc);
    add(&mut file, 1, first, 8, &ENTRIES)?;
    add(&mut file, 2, second, 8, &ENTRY)?;
    put_all(&mut file, at, &[value]);
    Ok(file)
}

/// How many names a file exports, and those at the places 0 to 3.
type Exports<'a> = (u32, [Option<Export<'a>>; 4]);

fn exports_of<'a>(load: &LoadFile<'a>) -> Exports<'a> {
    (
        load.exports(),
        [
            load.export(0),
            load.export(1),
            load.export(2),
            load.export(3),
        ],
    )
}

fn exports_in(alloc: Global, file: &[u8]) -> Result<Exports<'_>, Option<LoadFault>> {
    match read(alloc, file) {
        Ok(load) => Ok(exports_of(&load)),
        Err(fault) => Err(fault),
    }
}

fn export(name: &[u8], segment: u16, offset: u32, holder: u16) -> Option<Export<'_>> {
    Some(Export {
        name,
        segment,
        offset,
        holder,
    })
}

#[test]
fn exports_are_reported(rt: HostRuntime) -> Result<(), Fail> {
    let alloc = rt.alloc();
    let file = file_of_entries(alloc, [0, 0], [0, 0], 0x22, 1)?;
    let want: Exports<'_> = (
        3,
        [
            export(b"A", 2, 2, 1),
            export(b"BC", 1, 0, 1),
            export(b"D", 1, 7, 2),
            None,
        ],
    );
    same(&rt, &"three", exports_in(alloc, &file), Ok(want));

    let file = file_of_one(alloc, 8, &[0])?;
    let want: Exports<'_> = (0, [None; 4]);
    same(&rt, &"none", exports_in(alloc, &file), Ok(want));
    Ok(())
}

/// A byte of the entries that is changed, and the fault.
static ENTRY_FLAWS: [(usize, u8, Option<Fault>); 5] = [
    // Offset 7 is the last before LENGTH, and a segment is there or not.
    (0x37 + 3, 7, None),
    (0x37 + 3, 8, Some((LoadCause::NoSuchTarget, 1, 0x37))),
    (0x37 + 1, 3, Some((LoadCause::NoSuchTarget, 1, 0x37))),
    (0x37 + 10, 0, Some((LoadCause::NoSuchTarget, 1, 0x37 + 9))),
    // A skipped segment has no place for a name.
    (
        0x37 + 20 + 0x15,
        0x02,
        Some((LoadCause::NoSuchTarget, 1, 0x37)),
    ),
];

fn fault_of_entries(alloc: Global, at: usize, value: u8) -> Result<Option<Fault>, AllocError> {
    let file = file_of_entries(alloc, [0, 0], [0, 0], at, value)?;
    Ok(fault_in(alloc, &file))
}

#[test]
fn each_field_of_an_entry(rt: HostRuntime) {
    for (at, value, want) in &ENTRY_FLAWS {
        let found = fault_of_entries(rt.alloc(), *at, *value);
        same(&rt, &(*at, *value), found, Ok(*want));
    }
}

/// The fault of a file as a run-time library file, if it has one. A file that is too long to be one has none.
fn runtime_fault(alloc: Global, file: &[u8]) -> Option<Fault> {
    if file.len() > 0x100_0000 {
        return None;
    }
    match read_runtime(alloc, file) {
        Ok(_) => None,
        Err(fault) => Some(reported(fault)),
    }
}

/// The kinds of two segments, and the fault of their file as a run-time library file.
static KINDS: [([u8; 2], [u8; 2], Option<Fault>); 4] = [
    ([0x00, 0x80], [0x00, 0x80], None),
    (
        [0x00, 0x80],
        [0x00, 0x00],
        Some((LoadCause::NotLoadFile, 2, 0x37 + 20)),
    ),
    (
        [0x00, 0x00],
        [0x00, 0x00],
        Some((LoadCause::NotLoadFile, 1, 0)),
    ),
    // A fault of phase 3 is reported first: a name is at a place of a skipped segment.
    (
        [0x00, 0x00],
        [0x00, 0x82],
        Some((LoadCause::NoSuchTarget, 1, 0x37)),
    ),
];

fn fault_of_kinds(
    alloc: Global,
    first: [u8; 2],
    second: [u8; 2],
) -> Result<Option<Fault>, AllocError> {
    let file = file_of_entries(alloc, first, second, 0x22, 1)?;
    Ok(runtime_fault(alloc, &file))
}

#[test]
fn runtime_files_are_dynamic(rt: HostRuntime) -> Result<(), Fail> {
    let alloc = rt.alloc();
    for (first, second, want) in &KINDS {
        let found = fault_of_kinds(alloc, *first, *second);
        same(&rt, &(*first, *second), found, Ok(*want));
    }

    // A skipped segment without names, and an empty file.
    let mut file = Vec::new(alloc);
    add(&mut file, 1, [0x00, 0x82], 8, &[0])?;
    let want = Some((LoadCause::NotLoadFile, 1, 0));
    same(&rt, &"skipped", runtime_fault(alloc, &file), want);
    let want = Some((LoadCause::NotLoadFile, 0, 0));
    same(&rt, &"empty", runtime_fault(alloc, &[]), want);
    Ok(())
}
