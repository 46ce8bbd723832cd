//! What is expected of files that are linked, and whether it is so.
use crate::files::{File, inputs_of};
use link_meaning::{LinkCause, LinkFault};
use link_resolve::{Program, are_few, read_segments, resolve};
use std::alloc::Global;
use std::process::Abort;

/// A fault's cause, and its place as file, segment and displacement.
pub type Reported = (LinkCause, u32, u32, u32);

/// What is expected of a list of files.
pub enum Fact {
    /// The first file, read alone under this number, has this fault, which names nothing, or none.
    Read(u32, Option<Reported>),
    /// The list is resolved, and X is an equate of this value in the first member, or no equate.
    Value(Option<u8>),
    /// The member at a place has this file, segment, load segment and offset, or isn't there.
    Member(u32, Option<(u32, u32, u16, u32)>),
    /// The load segment with a number has this LENGTH and ALIGN.
    Size(u32, Option<(u32, u32)>),
    /// In the first member a name finds a definition of the member at this place, or none.
    Found(&'static [u8], Option<u32>),
    /// The list isn't resolved.
    Refused(LinkCause, u32, u32, u32),
}

/// What is tested, a list of files, and what is expected of it.
pub type Row = (&'static str, &'static [File], Fact);

/// Each row is so.
pub fn all_are_so(rt: &impl Abort, alloc: Global, rows: &[Row]) {
    for (name, files, fact) in rows {
        assert!(rt; is_so(alloc, files, fact), "{name}");
    }
}

fn is_so(alloc: Global, files: &[File], fact: &Fact) -> bool {
    match (inputs_of(alloc, files), fact) {
        (Ok(inputs), Fact::Read(number, want)) => is_read(alloc, &inputs, *number, want),
        (Ok(inputs), _) => is_resolved(alloc, &inputs, fact),
        (Err(_), _) => false,
    }
}

fn reported(fault: &LinkFault) -> Reported {
    let spot = fault.spot;
    (fault.cause, spot.file, spot.segment, spot.at)
}

fn is_read(alloc: Global, inputs: &Vec<Vec<u8>>, number: u32, want: &Option<Reported>) -> bool {
    let Some(bytes) = inputs.first() else {
        return false;
    };
    if bytes.len() > u32::MAX as usize {
        return false;
    }
    match read_segments(alloc, bytes, number) {
        Ok(_) => want.is_none(),
        Err(fault) => fault.name.is_none() && *want == Some(reported(&fault)),
    }
}

fn is_resolved(alloc: Global, inputs: &Vec<Vec<u8>>, fact: &Fact) -> bool {
    if !are_few(inputs) {
        return false;
    }
    match resolve(alloc, inputs) {
        Ok(program) => {
            let reported = is_reported(&program, fact);
            drop(program);
            reported
        }
        Err(fault) => is_refused(&fault, fact),
    }
}

fn is_refused(fault: &LinkFault, fact: &Fact) -> bool {
    match fact {
        Fact::Refused(cause, file, segment, at) => reported(fault)
            == (*cause, *file, *segment, *at),
        _ => false,
    }
}

fn is_reported(program: &Program, fact: &Fact) -> bool {
    match fact {
        Fact::Value(want) => value_of(program) == *want,
        Fact::Member(place, want) => member_of(program, *place) == *want,
        Fact::Size(number, want) => size_of(program, *number) == *want,
        Fact::Found(name, want) => found_by(program, name) == *want,
        _ => false,
    }
}

/// The value of the equate that X is in the first member of a program, in a byte.
fn value_of(program: &Program) -> Option<u8> {
    let found = program.symbol(1, b"X")?;
    found.expr?.get(1).copied()
}

/// The file, segment, load segment and offset of the member at a place.
fn member_of(program: &Program, place: u32) -> Option<(u32, u32, u16, u32)> {
    let member = program.member(place)?;
    Some((
        member.file,
        member.segment,
        member.load_segment,
        member.offset,
    ))
}

/// LENGTH and ALIGN of a load segment of a program.
fn size_of(program: &Program, number: u32) -> Option<(u32, u32)> {
    let header = program.load_header(number)?;
    Some((header.length, header.align))
}

/// The place of the member whose definition a name finds in the first member.
fn found_by(program: &Program, name: &[u8]) -> Option<u32> {
    let found = program.symbol(1, name)?;
    Some(found.member)
}
