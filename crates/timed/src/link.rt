//! `link read|resolve FILE..`: reads files and resolves them as inputs of the linker, for `bench/link`.

use crate::ending::{TaskEnd, done};
use crate::files::read_all;
use link_meaning::{LinkCause, LinkFault};
use link_resolve::{Program, are_few, resolve};
use omf_base::Spot;
use std::alloc::Global;
use std::io;

/// The files resolved, where they are few. It promises nothing, as what follows it, so that their callers' proofs are short.
fn resolved(alloc: Global, inputs: &Vec<Vec<u8>>) -> Option<Result<Program<'_>, LinkFault>> {
    if !are_few(inputs) {
        return None;
    }
    Some(resolve(alloc, inputs))
}

/// Whether the first name of a member is looked up there with a definition.
fn has_title(program: &Program, place: u32) -> bool {
    match program.view(place) {
        Some(view) => program.symbol(place, view.header.name.bytes()).is_some(),
        None => false,
    }
}

/// How many of the first `members` members have a definition of their first name.
fn count_titles(program: &Program, members: u32) -> u32 {
    let mut count = 0u32;
    for place in 1..=members {
        if has_title(program, place) {
            count = count.wrapping_add(1);
        }
    }
    count
}

/// Prints how many members there are, how many load segments, and how many members have a definition of their first name.
fn report_program(rt: &HostRuntime, program: &Program) -> io::Result<()> {
    let members = program.members();
    let titles = count_titles(program, members);
    println!(rt;
        "members {members} loads {} titles {titles}",
        program.load_count()
    )
}

/// Prints why the files aren't resolved.
fn report_fault(rt: &HostRuntime, cause: LinkCause, spot: Spot) -> io::Result<()> {
    println!(rt;
        "refused {cause:?} {} {} {}",
        spot.file, spot.segment, spot.at
    )
}

/// Prints what the files resolve to.
fn resolve_all(rt: &HostRuntime, inputs: &Vec<Vec<u8>>) -> io::Result<()> {
    match resolved(rt.alloc(), inputs) {
        None => println!(rt; "too long"),
        Some(Ok(program)) => {
            let reported = report_program(rt, &program);
            drop(program);
            reported
        }
        Some(Err(fault)) => report_fault(rt, fault.cause, fault.spot),
    }
}

/// Prints what is reported for the files for a word.
fn reveal(rt: &HostRuntime, what: &str, inputs: &Vec<Vec<u8>>) -> io::Result<()> {
    if what == "resolve" {
        resolve_all(rt, inputs)
    } else {
        println!(rt; "files {}", inputs.len())
    }
}

/// Does what the arguments say.
pub fn run<'w>(rt: &HostRuntime, words: &'w [String]) -> io::Result<TaskEnd<'w>> {
    let Some((what, paths)) = words.split_first() else {
        return Ok(TaskEnd::Misused);
    };
    match read_all(rt, paths) {
        Ok(inputs) => done(reveal(rt, what.as_str(), &inputs)),
        Err(path) => Ok(TaskEnd::Unread(path)),
    }
}
