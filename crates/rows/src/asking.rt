//! What is asked of what a run left.

use crate::fixture::Fixture;
use crate::pieces::{hex, number};
use crate::reporting::{put_line, report_bytes};
use crate::running::RunOutcome;
use std::alloc::{AllocError, Global};

/// Where the body of a load segment without a name begins.
const LOAD_BODY: usize = 0x37;

/// The bytes from a displacement on, all or a given number of them.
fn part_of<'a>(bytes: &'a [u8], words: &str) -> Option<&'a [u8]> {
    match words.split_once(' ') {
        Some((at, count)) => {
            let at = hex(at);
            bytes.get(at..at.saturating_add(number(count)))
        }
        None => bytes.get(hex(words)..),
    }
}

/// The last `count` bytes.
fn end_of(bytes: &[u8], count: usize) -> Option<&[u8]> {
    bytes.get(bytes.len().saturating_sub(count)..)
}

/// The body of the first load segment, which has no name.
fn body_of(bytes: &[u8]) -> Option<&[u8]> {
    match bytes {
        [a, b, c, d, ..] => {
            let size = u32::from_le_bytes([*a, *b, *c, *d]) as usize;
            bytes.get(LOAD_BODY..size)
        }
        _ => None,
    }
}

/// The part that a word asks for of the bytes at `out`.
pub fn asked<'a>(run: &'a RunOutcome, word: &str, rest: &str) -> Option<&'a [u8]> {
    let bytes = run.output()?;
    match word {
        "bytes" => part_of(bytes, rest),
        "end" => end_of(bytes, number(rest)),
        "body" => body_of(bytes),
        _ => Some(bytes),
    }
}

/// Prints what is asked for by a word and the text after it.
pub fn ask(alloc: Global, fixture: &mut Fixture, word: &str, rest: &str) -> Result<(), AllocError> {
    let mut reported = Vec::new(alloc);
    match asked(&fixture.outcome, word, rest) {
        Some(bytes) => report_bytes(&mut reported, bytes)?,
        None => put_line(&mut reported, "nothing")?,
    }
    fixture.out().extend_from_slice(&reported)
}

/// Prints how many bytes are at `out`, or how often the store was read.
pub fn ask_number(alloc: Global, fixture: &mut Fixture, word: &str) -> Result<(), AllocError> {
    let number = match (word, fixture.outcome.output()) {
        ("size", Some(bytes)) => bytes.len() as u64,
        ("size", None) => 0,
        _ => fixture.outcome.reads,
    };
    let line = format!(in alloc; "{word} {number}")?;
    put_line(fixture.out(), line.as_str())
}
