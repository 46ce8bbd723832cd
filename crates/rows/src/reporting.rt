//! What is printed of a run.

use crate::running::RunOutcome;
use std::alloc::{AllocError, Global};

/// How many bytes a line has.
const WIDTH: usize = 32;

/// Prints a line.
pub fn put_line(out: &mut Vec<u8>, line: &str) -> Result<(), AllocError> {
    out.extend_from_slice(line.as_bytes())?;
    out.push(b'\n')?;
    Ok(())
}

/// A digit of a number up to 15.
fn digit(number: u8) -> u8 {
    match number {
        0..=9 => b'0'.saturating_add(number),
        _ => b'7'.saturating_add(number),
    }
}

fn report_byte(out: &mut Vec<u8>, byte: u8) -> Result<(), AllocError> {
    out.push(digit(byte / 16))?;
    out.push(digit(byte % 16))?;
    Ok(())
}

/// Prints some bytes in a line.
fn report_some(out: &mut Vec<u8>, bytes: &[u8]) -> Result<(), AllocError> {
    let mut between = false;
    for byte in bytes {
        if between {
            out.push(b' ')?;
        }
        report_byte(out, *byte)?;
        between = true;
    }
    out.push(b'\n')?;
    Ok(())
}

/// Prints bytes in lines.
pub fn report_bytes(out: &mut Vec<u8>, bytes: &[u8]) -> Result<(), AllocError> {
    for line in bytes.chunks(WIDTH) {
        report_some(out, line)?;
    }
    Ok(())
}

/// Prints a text, each line after `|`; where the last one has no end, `~` follows it.
pub fn report_text(out: &mut Vec<u8>, text: &[u8]) -> Result<(), AllocError> {
    let mut begins = true;
    for byte in text {
        if begins {
            out.extend_from_slice(b"| ")?;
        }
        out.push(*byte)?;
        begins = *byte == b'\n';
    }
    if !begins {
        out.extend_from_slice(b"~\n")?;
    }
    Ok(())
}

/// The last `count` lines of a text.
fn last_lines(text: &[u8], count: usize) -> &[u8] {
    let mut left = count;
    let mut from = text.len();
    for (at, byte) in text.iter().enumerate().rev() {
        if *byte == b'\n' {
            if left == 0 {
                break;
            }
            left = left.saturating_sub(1);
        }
        from = at;
    }
    match text.get(from..) {
        Some(lines) => lines,
        None => text,
    }
}

/// Prints how a run ended, what it printed, or of this only the last lines, and whether anything is at `out`.
pub fn report_run(
    alloc: Global,
    out: &mut Vec<u8>,
    run: &RunOutcome,
    lines: usize,
) -> Result<(), AllocError> {
    put_line(out, format!(in alloc; "{:?}", run.status)?.as_str())?;
    if lines == 0 {
        report_text(out, &run.text)?;
    } else {
        put_line(out, "..")?;
        report_text(out, last_lines(&run.text, lines))?;
    }
    report_left(out, run)
}

/// Prints whether anything is at `out`, and whether a file changed that the store held.
fn report_left(out: &mut Vec<u8>, run: &RunOutcome) -> Result<(), AllocError> {
    if run.made.is_some() {
        put_line(out, "written")?;
    }
    if !run.is_kept {
        put_line(out, "a file changed that was held")?;
    }
    Ok(())
}
