//! Files that are cut anywhere.

use crate::fixture::Fixture;
use crate::pieces::put_at;
use crate::reporting::{put_line, report_text};
use crate::running::{RunOutcome, run, words_of};
use crate::shelf::ShelfFile;
use std::alloc::{AllocError, Global};

/// Dumps a file.
fn dump(alloc: Global, bytes: Vec<u8>) -> Result<RunOutcome, AllocError> {
    let mut row = Vec::new(alloc);
    let path = String::from_str(alloc, "obj")?;
    row.push(ShelfFile { path, bytes })?;
    run(alloc, &words_of(alloc, "dump obj")?, &row, &[], &[])
}

/// Dumps a prefix of a file, as it is or with its length as BYTECNT.
fn dump_prefix(alloc: Global, prefix: &[u8], counted: bool) -> Result<RunOutcome, AllocError> {
    let mut bytes = prefix.to_vec(alloc)?;
    if counted {
        let size = (prefix.len() % 0x1_0000_0000) as u32;
        put_at(&mut bytes, 0, &size.to_le_bytes());
    }
    dump(alloc, bytes)
}

/// Reports what the dump prints for a prefix, unless it says only that the file is cut there. Returns whether it says that.
fn is_cut(
    alloc: Global,
    out: &mut Vec<u8>,
    prefix: &[u8],
    counted: bool,
) -> Result<bool, AllocError> {
    let size = prefix.len();
    let run = dump_prefix(alloc, prefix, counted)?;
    let line = format!(in alloc; "refused Truncated 1 1 {size:08X}\n")?;
    if run.text.as_slice() == line.as_bytes() {
        return Ok(true);
    }
    out.extend_from_slice(format!(in alloc; "{size:08X} ")?.as_bytes())?;
    report_text(out, &run.text)?;
    Ok(false)
}

/// Reports this for all prefixes of a file of at least `from` bytes, and how many are cut.
fn report_prefixes(
    alloc: Global,
    file: &[u8],
    from: usize,
    counted: bool,
) -> Result<Vec<u8>, AllocError> {
    let mut reported = Vec::new(alloc);
    let mut cut = 0u64;
    for size in from..file.len() {
        if is_cut(alloc, &mut reported, &file[..size], counted)? {
            cut = cut.wrapping_add(1);
        }
    }
    put_line(&mut reported, format!(in alloc; "{cut} are cut")?.as_str())?;
    Ok(reported)
}

/// Dumps the prefixes of the file at a path: all as they are, or those with a whole header with their length as BYTECNT.
pub fn dump_prefixes(
    alloc: Global,
    fixture: &mut Fixture,
    counted: bool,
    path: &str,
) -> Result<(), AllocError> {
    let file = fixture.shelf.copy_of(alloc, path)?;
    let from = if counted { 44 } else { 1 };
    let reported = report_prefixes(alloc, &file, from, counted)?;
    fixture.out().extend_from_slice(&reported)
}
