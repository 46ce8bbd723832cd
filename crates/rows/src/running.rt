//! Runs of the tool over stores and sinks in memory.

use crate::shelf::ShelfFile;
use omf_cli::{Status, run_tool};
use omf_io::{MemoryFiles, MemorySink};
use std::alloc::{AllocError, Global};

/// What a run left.
#[derive(Drop)]
pub struct RunOutcome {
    /// How it ended.
    pub status: Status,
    /// What was printed.
    pub text: Vec<u8>,
    /// The bytes at `out`.
    pub made: Option<Vec<u8>>,
    /// Whether the files that the store held at first are as they were.
    pub is_kept: bool,
    /// How often the store was read.
    pub reads: u64,
    /// How many calls of the store and of the sink failed.
    pub faults: u64,
}

impl RunOutcome {
    /// No run.
    pub fn none(alloc: Global) -> RunOutcome {
        RunOutcome {
            status: Status::Done,
            text: Vec::new(alloc),
            made: None,
            is_kept: true,
            reads: 0,
            faults: 0,
        }
    }

    /// The bytes at `out`.
    pub fn output(&self) -> Option<&[u8]> {
        match &self.made {
            Some(bytes) => Some(bytes.as_slice()),
            None => None,
        }
    }
}

/// Arguments with spaces between them; `''` is an argument without letters.
pub fn words_of(alloc: Global, words: &str) -> Result<Vec<String>, AllocError> {
    let mut list = Vec::new(alloc);
    for word in words.split(' ') {
        let word = if word == "''" { "" } else { word };
        list.push(String::from_str(alloc, word)?)?;
    }
    Ok(list)
}

/// A store that holds these files, and whose calls with these numbers fail.
fn store_of(alloc: Global, row: &[ShelfFile], store: &[u32]) -> Result<MemoryFiles, AllocError> {
    let mut files = MemoryFiles::new(alloc, store.to_vec(alloc)?);
    for held in row {
        if files.set(held.path.as_str(), &held.bytes).is_err() {
            return Err(AllocError);
        }
    }
    Ok(files)
}

/// Whether a store holds these files.
fn holds(files: &MemoryFiles, row: &[ShelfFile]) -> bool {
    for held in row {
        if files.get(held.path.as_str()) != Some(held.bytes.as_slice()) {
            return false;
        }
    }
    true
}

/// The bytes at `out`.
fn made_in(alloc: Global, files: &MemoryFiles) -> Result<Option<Vec<u8>>, AllocError> {
    match files.get("out") {
        Some(bytes) => Ok(Some(bytes.to_vec(alloc)?)),
        None => Ok(None),
    }
}

/// What a run left that ended so.
fn outcome_of(
    alloc: Global,
    status: Status,
    files: &MemoryFiles,
    text: &MemorySink,
    row: &[ShelfFile],
) -> Result<RunOutcome, AllocError> {
    Ok(RunOutcome {
        status,
        text: text.bytes().to_vec(alloc)?,
        made: made_in(alloc, files)?,
        is_kept: holds(files, row),
        reads: files.asked(),
        faults: files.faults().saturating_add(text.faults()),
    })
}

/// Runs the tool with these arguments, over a store that holds these files. The calls of the store and of the sink that fail are given by
/// their numbers.
pub fn run(
    alloc: Global,
    words: &Vec<String>,
    row: &[ShelfFile],
    store: &[u32],
    sink: &[u32],
) -> Result<RunOutcome, AllocError> {
    let mut files = store_of(alloc, row, store)?;
    let mut text = MemorySink::new(alloc, sink.to_vec(alloc)?);
    let mut last = None;
    let status = run_tool(alloc, words, &mut files, &mut text, &mut last);
    drop(last);
    outcome_of(alloc, status, &files, &text, row)
}
