//! Runs in which one call fails, the number of the call rising until a run meets no failure.

use crate::fixture::Fixture;
use crate::reporting::{put_line, report_text};
use crate::running::{RunOutcome, run, words_of};
use crate::shelf::ShelfFile;
use std::alloc::{AllocError, Global};

/// More calls than any run here makes.
const MOST: u32 = 64;

/// Whether anything is at `out`, and how it compares with what is there where nothing fails.
fn left_of(run: &RunOutcome, whole: &RunOutcome) -> &'static str {
    match (run.output(), whole.output()) {
        (Some(left), Some(bytes)) if left == bytes => ", all at out",
        (Some(left), Some(bytes)) if bytes.starts_with(left) => ", a prefix at out",
        (Some(_), _) => ", other bytes at out",
        (None, _) => "",
    }
}

/// Prints a run in which a call was to fail.
fn report_failing(
    alloc: Global,
    out: &mut Vec<u8>,
    call: u32,
    run: &RunOutcome,
    whole: &RunOutcome,
) -> Result<(), AllocError> {
    let (status, reads, left) = (run.status, run.reads, left_of(run, whole));
    let line = format!(in alloc; "call {call}: {status:?}, reads {reads}{left}")?;
    put_line(out, line.as_str())?;
    if !run.is_kept {
        put_line(out, "a file changed that was held")?;
    }
    report_text(out, &run.text)
}

/// A run in which a call of the store or of the sink fails.
fn run_failing(
    alloc: Global,
    words: &Vec<String>,
    row: &[ShelfFile],
    of_store: bool,
    call: u32,
) -> Result<RunOutcome, AllocError> {
    if of_store {
        run(alloc, words, row, &[call], &[])
    } else {
        run(alloc, words, row, &[], &[call])
    }
}

/// Reports the runs up to the one that meets no failure.
fn report_all(
    alloc: Global,
    words: &Vec<String>,
    row: &[ShelfFile],
    of_store: bool,
) -> Result<Vec<u8>, AllocError> {
    let mut reported = Vec::new(alloc);
    let whole = run(alloc, words, row, &[], &[])?;
    for call in 1..MOST {
        let run = run_failing(alloc, words, row, of_store, call)?;
        report_failing(alloc, &mut reported, call, &run, &whole)?;
        if run.faults == 0 {
            break;
        }
    }
    Ok(reported)
}

/// Runs the tool with these arguments while each call fails in turn: those of the store, or those of the sink.
pub fn run_each(
    alloc: Global,
    fixture: &mut Fixture,
    of_store: bool,
    words: &str,
) -> Result<(), AllocError> {
    let words = words_of(alloc, words)?;
    let reported = report_all(alloc, &words, fixture.shelf.row(), of_store)?;
    fixture.out().extend_from_slice(&reported)
}
