//! `macro SOURCE MACROS..`: expands a source with macro files and counts the lines, for `bench/macro`.

use crate::ending::{TaskEnd, done};
use crate::files::{read, read_all};
use orca_macro::expand;
use std::io;

/// Prints how many lines a source with macro files expands to.
fn reveal(rt: &HostRuntime, source: &[u8], macros: &Vec<Vec<u8>>) -> io::Result<()> {
    match expand(rt.alloc(), source, macros) {
        Ok(lines) => println!(rt; "lines {}", lines.count()),
        Err(fault) => println!(rt; "refused {:?} {} {}", fault.cause, fault.file, fault.line),
    }
}

/// Reads the macro files of a source, and does the task.
fn run_with<'w>(rt: &HostRuntime, source: &[u8], paths: &'w [String]) -> io::Result<TaskEnd<'w>> {
    match read_all(rt, paths) {
        Ok(macros) => done(reveal(rt, source, &macros)),
        Err(path) => Ok(TaskEnd::Unread(path)),
    }
}

/// Does what the arguments say.
pub fn run<'w>(rt: &HostRuntime, words: &'w [String]) -> io::Result<TaskEnd<'w>> {
    let Some((path, macros)) = words.split_first() else {
        return Ok(TaskEnd::Misused);
    };
    match read(rt, path.as_str()) {
        Some(source) => run_with(rt, source.as_slice(), macros),
        None => Ok(TaskEnd::Unread(path.as_str())),
    }
}
