//! `text lines|operands FILE`: reads a file as assembly source and counts its lines and operands, for `bench/text`.

use orca_text::{Lines, read_lines, read_operand};
use std::alloc::Global;
use std::io;

/// How many lines have an operand, and how many operands are refused.
#[derive(Clone, Copy)]
struct OperandCount {
    read: u64,
    refused: u64,
}

/// Reads the operand of each line.
fn operands(alloc: Global, lines: &Lines) -> OperandCount {
    let mut count = OperandCount {
        read: 0,
        refused: 0,
    };
    for place in 0..lines.count() {
        let Some(line) = lines.get(place) else {
            continue;
        };
        if read_operand(alloc, line).is_ok() {
            count.read = count.read.wrapping_add(1);
        } else {
            count.refused = count.refused.wrapping_add(1);
        }
    }
    count
}

/// Prints how many operands the lines have.
fn report_operands(rt: &HostRuntime, lines: &Lines) -> io::Result<()> {
    let count = operands(rt.alloc(), lines);
    println!(rt;
        "lines {} operands {} refused {}",
        lines.count(),
        count.read,
        count.refused
    )
}

/// Prints how many lines there are and, where asked for, how many operands.
fn report_lines(rt: &HostRuntime, what: &str, lines: &Lines) -> io::Result<()> {
    if what == "lines" {
        println!(rt; "lines {}", lines.count())
    } else {
        report_operands(rt, lines)
    }
}

/// Reads a source, and prints what it has.
pub fn reveal(rt: &HostRuntime, what: &str, source: &[u8]) -> io::Result<()> {
    match read_lines(rt.alloc(), 0, source) {
        Ok(lines) => report_lines(rt, what, &lines),
        Err(fault) => println!(rt; "refused {:?} {}", fault.cause, fault.line),
    }
}
