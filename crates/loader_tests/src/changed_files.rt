// Dynamic segments over a file that changes. Facts and displacements are written by hand from the format.
use crate::asserting::same;
use crate::programs::{CODE, DYNAMIC, EMPTY_CODE, TABLE, file_of};
use omf_io::{MemoryFiles, WriteFault};
use std::alloc::{AllocError, Global};
use std::process::Abort;
use std::test::Fail;
use sys_loader::{Facts, Loader, LoaderFault};

/// The first segment of the program.
const FIRST: Facts = Facts {
    count: 3,
    segment: 1,
    length: 1,
    kind: 0,
    bank_size: 0x1_0000,
    align: 0,
    org: 0,
    entry: 0,
};

/// Where the dynamic segment is placed: after the code and the table.
const PLACE: u32 = 0x81B;

/// How long the program is before its table.
const BEFORE_TABLE: usize = 0x7D;

/// Code, a dynamic segment, and a table with an entry for it, with bytes changed at displacements.
fn program(alloc: Global, changes: &[(usize, u8)]) -> Result<Vec<u8>, AllocError> {
    changed(alloc, &[&CODE, &DYNAMIC, &TABLE], changes)
}

/// A file of these segments, with bytes changed at displacements.
fn changed(
    alloc: Global,
    segments: &[&[u8]],
    changes: &[(usize, u8)],
) -> Result<Vec<u8>, AllocError> {
    let mut file = file_of(alloc, segments)?;
    change(file.as_mut_slice(), changes);
    Ok(file)
}

fn change(bytes: &mut [u8], changes: &[(usize, u8)]) {
    for (at, value) in changes {
        if let Some(byte) = bytes.get_mut(*at) {
            *byte = *value;
        }
    }
}

// The calls as the tests make them. They promise nothing, so a test's proof is as short as the test.
fn files_of(alloc: Global, failing: Vec<u32>) -> MemoryFiles {
    MemoryFiles::new(alloc, failing)
}

fn put(files: &mut MemoryFiles, bytes: &[u8]) -> Result<(), WriteFault> {
    files.set("p", bytes)
}

fn loader_of(alloc: Global) -> Result<Loader, Fail> {
    match Loader::new(alloc, &[2, 0]) {
        Ok(loader) => Ok(loader),
        Err(_) => Err(Fail::new("the banks are refused")),
    }
}

fn load(loader: &mut Loader, files: &mut MemoryFiles) -> Result<(), Fail> {
    match loader.load(files, "p") {
        Ok(_) => Ok(()),
        Err(_) => Err(Fail::new("the program isn't loaded")),
    }
}

/// What is answered where the dynamic segment is made active.
fn comes(loader: &mut Loader, files: &mut MemoryFiles) -> Result<u32, LoaderFault> {
    loader.load_segment(files, 0x1001, 2)
}

fn counts(files: &MemoryFiles) -> (u64, u64) {
    (files.faults(), files.asked())
}

/// Loads the program.
fn start(alloc: Global, loader: &mut Loader, files: &mut MemoryFiles) -> Result<(), Fail> {
    put(files, program(alloc, &[])?.as_slice())?;
    load(loader, files)
}

/// What is answered for the dynamic segment: where it is placed, and its two bytes.
type ReadAnswer = Result<(u32, [u8; 2]), LoaderFault>;

fn answered(loader: &mut Loader, files: &mut MemoryFiles) -> ReadAnswer {
    let place = comes(loader, files)?;
    match loader.bytes(0x1001, 2, 0, 2)? {
        [first, second] => Ok((place, [*first, *second])),
        _ => Err(LoaderFault::OutOfSegment),
    }
}

/// The answer where the file is another one by then.
fn answered_later(
    alloc: Global,
    loader: &mut Loader,
    files: &mut MemoryFiles,
    later: &[u8],
) -> Result<ReadAnswer, Fail> {
    start(alloc, loader, files)?;
    put(files, later)?;
    Ok(answered(loader, files))
}

fn answer_of(alloc: Global, loader: &mut Loader, later: &[u8]) -> Result<ReadAnswer, Fail> {
    let mut files = files_of(alloc, Vec::new(alloc));
    answered_later(alloc, loader, &mut files, later)
}

fn answer(alloc: Global, later: &[u8]) -> Result<ReadAnswer, Fail> {
    let mut loader = loader_of(alloc)?;
    answer_of(alloc, &mut loader, later)
}

/// The same where the program's bytes are changed.
fn answer_to(alloc: Global, changes: &[(usize, u8)]) -> Result<ReadAnswer, Fail> {
    answer(alloc, program(alloc, changes)?.as_slice())
}

/// This is answered where the program's bytes are changed.
fn answers(
    rt: &(impl Alloc<A = Global> + Abort),
    n: usize,
    changes: &[(usize, u8)],
    want: ReadAnswer,
) -> Result<(), Fail> {
    same(rt, n, answer_to(rt.alloc(), changes)?, want);
    Ok(())
}

/// This is answered where the file has these segments, with bytes changed.
fn answers_to(
    rt: &(impl Alloc<A = Global> + Abort),
    n: usize,
    segments: &[&[u8]],
    changes: &[(usize, u8)],
    want: ReadAnswer,
) -> Result<(), Fail> {
    let alloc = rt.alloc();
    let later = changed(alloc, segments, changes)?;
    same(rt, n, answer(alloc, later.as_slice())?, want);
    Ok(())
}

/// The file is refused with these facts.
fn is_changed(kept: Facts, found: Facts) -> ReadAnswer {
    Err(LoaderFault::Changed { kept, found })
}

/// The number of the segment that has a fault, where the file is refused for one.
fn bad_segment(alloc: Global, later: &[u8]) -> Result<Option<u32>, Fail> {
    match answer(alloc, later)? {
        Err(LoaderFault::BadFile(fault)) => Ok(Some(fault.segment)),
        _ => Ok(None),
    }
}

/// What is reported where only the number of segments has changed.
fn many(count: u32) -> Facts {
    Facts {
        count,
        segment: 0,
        length: 0,
        kind: 0,
        bank_size: 0,
        align: 0,
        org: 0,
        entry: 0,
    }
}

static HEADERS: [(&[(usize, u8)], Facts); 6] = [
    (&[(4, 1), (8, 2)], Facts { length: 2, ..FIRST }),
    (&[(0x14, 1)], Facts { kind: 1, ..FIRST }),
    (
        &[(0x12, 0)],
        Facts {
            bank_size: 0,
            ..FIRST
        },
    ),
    (
        &[(0x1A, 2)],
        Facts {
            org: 0x2_0000,
            ..FIRST
        },
    ),
    (
        &[(0x1D, 1)],
        Facts {
            align: 0x100,
            ..FIRST
        },
    ),
    (&[(0x24, 1)], Facts { entry: 1, ..FIRST }),
];

#[test]
fn a_changed_header_is_reported(rt: HostRuntime) -> Result<(), Fail> {
    for (n, (changes, found)) in HEADERS.iter().enumerate() {
        answers(&rt, n, changes, is_changed(FIRST, *found))?;
    }
    Ok(())
}

// What isn't kept of a file may be another: here a byte of the dynamic segment.
#[test]
fn another_body_is_loaded(rt: HostRuntime) -> Result<(), Fail> {
    answers(&rt, 0, &[(0x7A, 0xE8)], Ok((PLACE, [0xE8, 0x6B])))
}

#[test]
fn a_changed_number_of_segments_is_reported(rt: HostRuntime) -> Result<(), Fail> {
    let fewer = is_changed(many(3), many(2));
    answers_to(&rt, 0, &[&CODE, &DYNAMIC], &[], fewer)?;
    let more = is_changed(many(3), many(4));
    answers_to(&rt, 1, &[&CODE, &DYNAMIC, &TABLE, &EMPTY_CODE], &[], more)
}

#[test]
fn a_changed_header_comes_before_the_number_of_segments(rt: HostRuntime) -> Result<(), Fail> {
    let found = Facts {
        count: 2,
        entry: 1,
        ..FIRST
    };
    let both = is_changed(FIRST, found);
    answers_to(&rt, 0, &[&CODE, &DYNAMIC], &[(0x24, 1)], both)
}

// The file is no load file any more: that is reported before what has changed in it.
#[test]
fn a_bad_file_is_reported_before_a_change(rt: HostRuntime) -> Result<(), Fail> {
    let alloc = rt.alloc();
    let later = program(alloc, &[(0x24, 1), (BEFORE_TABLE + 0xF, 7)])?;
    same(&rt, 0, bad_segment(alloc, later.as_slice())?, Some(3));
    same(&rt, 1, bad_segment(alloc, &[])?, Some(0));
    Ok(())
}

fn second_read_fails(
    rt: &(impl Alloc<A = Global> + Abort),
    loader: &mut Loader,
    files: &mut MemoryFiles,
) -> Result<(), Fail> {
    start(rt.alloc(), loader, files)?;
    same(rt, 0, comes(loader, files), Err(LoaderFault::CannotRead));
    same(rt, 1, counts(files), (1, 2));
    same(rt, 2, comes(loader, files), Ok(PLACE));
    same(rt, 3, comes(loader, files), Ok(PLACE));
    same(rt, 4, counts(files), (1, 3));
    Ok(())
}

fn reads(rt: &(impl Alloc<A = Global> + Abort), loader: &mut Loader) -> Result<(), Fail> {
    let alloc = rt.alloc();
    let mut files = files_of(alloc, vec![in alloc; 2]?);
    second_read_fails(rt, loader, &mut files)
}

// The second read fails, and the next one doesn't. A segment that is there isn't read again.
#[test]
fn a_read_that_fails_is_reported(rt: HostRuntime) -> Result<(), Fail> {
    let mut loader = loader_of(rt.alloc())?;
    reads(&rt, &mut loader)
}
