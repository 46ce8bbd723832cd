// Runs of the tool over stores and sinks in memory.
use crate::files::{File, bytes_of};
use omf_cli::{Status, run_tool};
use omf_io::{MemoryFiles, MemorySink};
use std::alloc::{AllocError, Global};
use std::test::Fail;
use sys_loader::Loader;

/// A store that holds these files, each with its path, and whose calls with these numbers fail.
fn store_of(alloc: Global, held: &[(&str, File)], store: &[u32]) -> Result<MemoryFiles, Fail> {
    let mut files = MemoryFiles::new(alloc, store.to_vec(alloc)?);
    for (path, file) in held {
        let bytes = bytes_of(alloc, file)?;
        files.set(path, &bytes)?;
    }
    Ok(files)
}

/// Arguments with spaces between them, as a list.
fn words_of(alloc: Global, words: &str) -> Result<Vec<String>, AllocError> {
    let mut list = Vec::new(alloc);
    for word in words.split(' ') {
        list.push(String::from_str(alloc, word)?)?;
    }
    Ok(list)
}

/// Runs the tool with these arguments, over a store that holds these files, each with its path. The calls of the store and of the sink that
/// fail are given by their numbers. Returns how it ends, and the loader that was handed out.
pub(crate) fn run_whole(
    alloc: Global,
    words: &str,
    held: &[(&str, File)],
    store: &[u32],
    sink: &[u32],
) -> Result<(Status, Option<Loader>), Fail> {
    let words = words_of(alloc, words)?;
    let mut files = store_of(alloc, held, store)?;
    let mut text = MemorySink::new(alloc, sink.to_vec(alloc)?);
    let mut last = None;
    let status = run_tool(alloc, &words, &mut files, &mut text, &mut last);
    Ok((status, last))
}
