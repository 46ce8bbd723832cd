//! Tests as rows: reads rows from standard input, each of files and of arguments of the tool, runs the tool on them over stores and sinks
//! in memory, and prints what it did. `subjects/files.rows` says how a row is written; `stdin` and `stdout` are made from the subjects.
#![tactic(auto)]

mod acts;
mod asking;
mod expanding;
mod failing;
mod fixture;
mod loading;
mod pieces;
mod prefixes;
mod reporting;
mod running;
mod shelf;

use acts::act;
use fixture::Fixture;
use std::alloc::{AllocError, Global};
use std::io::{self, Write};

/// What the rows of a text print.
fn reported(alloc: Global, text: &str) -> Result<Vec<u8>, AllocError> {
    let mut fixture = Fixture::new(alloc);
    for line in text.split('\n') {
        act(alloc, &mut fixture, line)?;
    }
    Ok(fixture.into_reported())
}

fn main(rt: HostRuntime) -> io::Result<()> {
    let text = io::read_to_string(rt.alloc(), rt.reader())?;
    let reported = reported(rt.alloc(), text.as_str())?;
    io::writer(&rt).write_all(&reported)
}
