// Files with a pathname segment, in the place of one that was loaded and at a load. Displacements are written by hand from the format.
use crate::asserting::same;
use crate::programs::{CODE, DYNAMIC, PATHNAMES, TABLE, file_of};
use load_meaning::{LoadCause, LoadFault};
use omf_io::{MemoryFiles, WriteFault};
use std::alloc::{AllocError, Global};
use std::test::Fail;
use sys_loader::{Facts, Loader, LoaderFault};

/// Where the pathname segment's bytes are: after the other segments, its header and the first five bytes of its record.
const PATHS: usize = 62 + 63 + 87 + 0x37 + 5;

/// Code, a dynamic segment and a table with an entry for it.
fn plain(alloc: Global) -> Result<Vec<u8>, AllocError> {
    file_of(alloc, &[&CODE, &DYNAMIC, &TABLE])
}

/// The same with a pathname segment, of which the first byte is this one.
fn with_paths(alloc: Global, first: u8) -> Result<Vec<u8>, AllocError> {
    let mut file = file_of(alloc, &[&CODE, &DYNAMIC, &TABLE, &PATHNAMES])?;
    if let Some(byte) = file.get_mut(PATHS) {
        *byte = first;
    }
    Ok(file)
}

// The calls as the tests make them. They promise nothing, so a test's proof is as short as the test.
fn files_of(alloc: Global) -> MemoryFiles {
    MemoryFiles::new(alloc, Vec::new(alloc))
}

fn put(files: &mut MemoryFiles, bytes: &[u8]) -> Result<(), WriteFault> {
    files.set("p", bytes)
}

fn loader_of(alloc: Global) -> Result<Loader, Fail> {
    match Loader::new(alloc, &[2, 0]) {
        Ok(loader) => Ok(loader),
        Err(_) => Err(Fail::new("the banks are refused")),
    }
}

/// Why a load is refused, if it is.
fn load(loader: &mut Loader, files: &mut MemoryFiles) -> Option<LoaderFault> {
    loader.load(files, "p").err()
}

/// Why the dynamic segment isn't loaded, if it isn't.
fn comes(loader: &mut Loader, files: &mut MemoryFiles) -> Option<LoaderFault> {
    loader.load_segment(files, 0x1001, 2).err()
}

/// Leaves the user dormant without its blocks, and returns why it doesn't restart, if it doesn't.
fn restarts(
    loader: &mut Loader,
    files: &mut MemoryFiles,
) -> Result<Option<LoaderFault>, LoaderFault> {
    loader.shut_down(0x1001, true)?;
    loader.purge(0x1001)?;
    Ok(loader.restart(files, 0x1001).err())
}

/// The answer of each call where the file is another one once the program is loaded.
type Answers = (
    Option<LoaderFault>,
    Option<LoaderFault>,
    Result<Option<LoaderFault>, LoaderFault>,
);

fn answers_of(
    loader: &mut Loader,
    files: &mut MemoryFiles,
    before: &[u8],
    later: &[u8],
) -> Result<Answers, Fail> {
    put(files, before)?;
    let loaded = load(loader, files);
    put(files, later)?;
    let came = comes(loader, files);
    Ok((loaded, came, restarts(loader, files)))
}

fn answers(alloc: Global, before: &[u8], later: &[u8]) -> Result<Answers, Fail> {
    let mut loader = loader_of(alloc)?;
    let mut files = files_of(alloc);
    answers_of(&mut loader, &mut files, before, later)
}

/// The file isn't taken, for this cause of its fourth segment.
fn bad(cause: LoadCause) -> Option<LoaderFault> {
    Some(LoaderFault::BadFile(LoadFault {
        cause,
        segment: 4,
        at: 0,
    }))
}

/// What is reported of a file of `count` segments, where only their number has changed.
fn many(count: u32) -> Facts {
    Facts {
        count,
        segment: 0,
        length: 0,
        kind: 0,
        bank_size: 0,
        align: 0,
        org: 0,
        entry: 0,
    }
}

// The segment is one more than the program had. A load reads the file of its row, which isn't there.
#[test]
fn a_pathname_segment_is_one_more(rt: HostRuntime) -> Result<(), Fail> {
    let alloc = rt.alloc();
    let before = plain(alloc)?;
    let later = with_paths(alloc, 2)?;
    let changed = Some(LoaderFault::Changed {
        kept: many(3),
        found: many(4),
    });
    let want: Answers = (None, changed, Ok(changed));
    same(&rt, 0, answers(alloc, &before, &later)?, want);

    let want: Answers = (
        Some(LoaderFault::CannotRead),
        Some(LoaderFault::NoUser),
        Err(LoaderFault::NoUser),
    );
    same(&rt, 1, answers(alloc, &later, &later)?, want);
    Ok(())
}

// A fault of the file is reported first: here its first row doesn't have the number 2.
#[test]
fn bad_pathnames_come_before(rt: HostRuntime) -> Result<(), Fail> {
    let alloc = rt.alloc();
    let before = plain(alloc)?;
    let later = with_paths(alloc, 3)?;
    let faulty = bad(LoadCause::BadTable);
    let want: Answers = (None, faulty, Ok(faulty));
    same(&rt, 0, answers(alloc, &before, &later)?, want);
    Ok(())
}
