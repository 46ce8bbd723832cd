//! How tasks end.

use std::io;
use std::process::ExitCode;

/// How a task ended.
#[derive(Clone, Copy)]
pub enum TaskEnd<'w> {
    /// It printed what it had to report.
    Done,
    /// The arguments say no task.
    Misused,
    /// The word isn't a number.
    NoNumber(&'w str),
    /// The file at the path can't be read.
    Unread(&'w str),
    /// Out of memory.
    Memory,
}

/// A task is done once its line is printed.
pub fn done(printed: io::Result<()>) -> io::Result<TaskEnd<'static>> {
    printed?;
    Ok(TaskEnd::Done)
}

/// The arguments that the program takes.
const USAGE: &str =
    "timed TASK [, TASK].. where a TASK is link read|resolve FILE.., load input|read|patch|cells FILE, \
    library FILE, body input|body COUNT, text lines|operands FILE or macro SOURCE MACROS..";

/// Prints a line of two texts, and answers a status.
fn refuse(rt: &HostRuntime, status: u8, why: &str, what: &str) -> io::Result<ExitCode> {
    println!(rt; "{why} {what}")?;
    Ok(ExitCode::from(status))
}

/// Prints why the tasks weren't done, and answers the program's status.
pub fn leave(rt: &HostRuntime, ended: TaskEnd) -> io::Result<ExitCode> {
    match ended {
        TaskEnd::Done => Ok(ExitCode::from(0)),
        TaskEnd::Misused => refuse(rt, 2, "usage:", USAGE),
        TaskEnd::NoNumber(word) => refuse(rt, 2, "not a number:", word),
        TaskEnd::Unread(path) => refuse(rt, 3, "cannot read", path),
        TaskEnd::Memory => Ok(ExitCode::from(6)),
    }
}
