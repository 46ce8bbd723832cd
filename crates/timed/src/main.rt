//! Does what the scripts under `bench/` time: `timed TASK WORD..`, or several tasks one after another with `,` between them.
#![tactic(auto)]

ghost use Rattle.std.specs.Prelude.{◌<◌, ◌^◌, length};

mod body;
mod ending;
mod files;
mod library;
mod link;
mod load;
mod macros;
mod text;

use ending::{TaskEnd, done, leave};
use files::read;
use std::process::ExitCode;
use std::{env, io};

/// Does a task with the bytes of a file.
fn run_on_bytes(
    rt: &HostRuntime,
    task: &str,
    words: &[String],
    file: &[u8],
) -> io::Result<TaskEnd<'static>>
    requires { length file.now < 2 ^ 32 }
{
    match (task, words) {
        ("library", []) => done(library::report_rows(rt, file)),
        ("load", [what]) => load::reveal(rt, what.as_str(), file),
        ("text", [what]) => done(text::reveal(rt, what.as_str(), file)),
        _ => Ok(TaskEnd::Misused),
    }
}

/// Does a task of one file, whose path is the last word.
fn run_on_file<'w>(rt: &HostRuntime, task: &str, words: &'w [String]) -> io::Result<TaskEnd<'w>> {
    let Some((path, words)) = words.split_last() else {
        return Ok(TaskEnd::Misused);
    };
    match read(rt, path.as_str()) {
        Some(file) => run_on_bytes(rt, task, words, file.as_slice()),
        None => Ok(TaskEnd::Unread(path.as_str())),
    }
}

/// Does the task that the arguments say.
fn run<'w>(rt: &HostRuntime, words: &'w [String]) -> io::Result<TaskEnd<'w>> {
    let Some((task, words)) = words.split_first() else {
        return Ok(TaskEnd::Misused);
    };
    match task.as_str() {
        "link" => link::run(rt, words),
        "body" => body::run(rt, words),
        "macro" => macros::run(rt, words),
        task => run_on_file(rt, task, words),
    }
}

/// Does the tasks that the arguments say one after another, up to the first that isn't done.
fn run_all<'w>(rt: &HostRuntime, words: &'w [String]) -> io::Result<TaskEnd<'w>> {
    for task in words.split(|word| word.as_str() == ",") {
        match run(rt, task)? {
            TaskEnd::Done => {}
            other => return Ok(other),
        }
    }
    Ok(TaskEnd::Done)
}

/// Does the tasks of the arguments after the program's name, and returns the program's status.
fn run_words(rt: &HostRuntime, words: &[String]) -> io::Result<ExitCode> {
    let ended = match words.split_first() {
        Some((_, tasks)) => run_all(rt, tasks)?,
        None => TaskEnd::Misused,
    };
    leave(rt, ended)
}

fn main(rt: HostRuntime) -> io::Result<ExitCode> {
    let words: Vec<String> = env::args(&rt)?.collect(rt.alloc())?;
    run_words(&rt, words.as_slice())
}
