//! Sources that are expanded.

use crate::reporting::put_line;
use crate::shelf::ShelfFile;
use orca_macro::expand;
use orca_text::Lines;
use std::alloc::{AllocError, Global};

/// The row's files but the one at `src`.
fn macros_of(alloc: Global, row: &[ShelfFile]) -> Result<Vec<Vec<u8>>, AllocError> {
    let mut macros = Vec::new(alloc);
    for held in row {
        if held.path.as_str() != "src" {
            macros.push(held.bytes.to_vec(alloc)?)?;
        }
    }
    Ok(macros)
}

/// Prints the lines.
fn report_lines(out: &mut Vec<u8>, lines: &Lines) -> Result<(), AllocError> {
    for place in 0..lines.count() {
        if let Some(line) = lines.get(place) {
            out.extend_from_slice(b"| ")?;
            out.extend_from_slice(line.text.bytes())?;
            out.push(b'\n')?;
        }
    }
    Ok(())
}

/// Prints the file and the number of each line.
fn report_places(alloc: Global, out: &mut Vec<u8>, lines: &Lines) -> Result<(), AllocError> {
    for place in 0..lines.count() {
        if let Some(line) = lines.get(place) {
            let place = format!(in alloc; "{} {}", line.file, line.line)?;
            put_line(out, place.as_str())?;
        }
    }
    Ok(())
}

/// Prints of the lines what a word asks for: the lines, or only where they are from, or only that there are some.
fn report_given(
    alloc: Global,
    out: &mut Vec<u8>,
    word: &str,
    lines: &Lines,
) -> Result<(), AllocError> {
    match word {
        "expand" => report_lines(out, lines),
        "places" => report_places(alloc, out, lines),
        _ => put_line(out, "expanded"),
    }
}

/// Expands a source with the row's files, and prints what a word asks for, or the fault.
pub fn report_expanded(
    alloc: Global,
    out: &mut Vec<u8>,
    word: &str,
    source: &[u8],
    row: &[ShelfFile],
) -> Result<(), AllocError> {
    let macros = macros_of(alloc, row)?;
    match expand(alloc, source, &macros) {
        Ok(lines) => {
            let reported = report_given(alloc, out, word, &lines);
            drop(lines);
            reported
        }
        Err(fault) => {
            let (cause, file, line) = (fault.cause, fault.file, fault.line);
            let reported = format!(in alloc; "refused {cause:?} {file} {line}")?;
            put_line(out, reported.as_str())
        }
    }
}
