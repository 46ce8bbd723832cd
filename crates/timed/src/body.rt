//! `body input|body COUNT`: makes COUNT patches, and writes the body of a load segment of them, for `bench/body`.

ghost use Rattle.std.specs.Prelude.{◌≤◌, map, length};
ghost use Rattle.std.specs.Bool.{OnTrue};
ghost use Rattle.load_meaning.specs.WrittenBody.{AreWritten, IsWrittenPatch};
ghost use Rattle.load_writer.specs.WrittenParts.{seen};

use crate::ending::{TaskEnd, done};
use omf_cells::{Body, BodyFault, Patch, body_of};
use std::alloc::{AllocError, Global};
use std::io;

/// Count and shift are those of a patch, and it lies in a part of the segment.
fn is_inside(patch: &Patch, from: usize, size: usize) -> bool
    requires { size ≤ 0xFFFFFF }
    ensures written { OnTrue result (IsWrittenPatch size (seen patch.now)) }
    ensures from { OnTrue result (from ≤ (patch.now).at) }
{
    let _value = *patch;
    let end = patch.at as usize + usize::from(patch.count);
    if patch.count < 1 || patch.count > 4 {
        return false;
    }
    if patch.shift < -31 || patch.shift > 31 {
        return false;
    }
    from <= patch.at as usize && end <= size
}

/// The patches rise, don't overlap and lie inside `size` bytes.
fn are_written(patches: &[Patch], size: usize) -> bool
    requires { size ≤ 0xFFFFFF }
    ensures { OnTrue result (AreWritten size 0 (map seen patches.now)) }
{
    let mut from = 0;
    'patches: for patch in patches {
        if !is_inside(patch, from, size) {
            return false;
        }
        from = patch.at as usize + usize::from(patch.count);
    }
    true
}

/// `size` bytes from 1 to 251 by turns.
fn bytes(alloc: Global, size: u32) -> Result<Vec<u8>, AllocError> {
    let mut bytes = Vec::new(alloc);
    for at in 0..size {
        bytes.push((at % 251) as u8 + 1)?;
    }
    Ok(bytes)
}

/// A patch of two or three bytes in each 16 bytes, of every type of SUPER and of none by turns.
fn patches(alloc: Global, count: u32) -> Result<Vec<Patch>, AllocError> {
    let mut patches = Vec::new(alloc);
    for place in 0..count {
        patches.push(Patch {
            at: place.wrapping_mul(16),
            count: 2 + (place % 2) as u8,
            shift: if place % 5 == 0 { -16 } else { 0 },
            segment: (place % 15) as u16,
            offset: place,
        })?;
    }
    Ok(patches)
}

/// The body, where the patches can be written.
fn written(alloc: Global, content: &[u8], patches: &Vec<Patch>) -> Result<Body, BodyFault> {
    if content.len() > 0xFFFFFF || !are_written(patches, content.len()) {
        return Err(BodyFault::Memory);
    }
    body_of(alloc, 1, content, patches)
}

/// Writes the body, and prints how long it is.
fn report_body(rt: &HostRuntime, content: &[u8], patches: &Vec<Patch>) -> io::Result<()> {
    match written(rt.alloc(), content, patches) {
        Ok(body) => println!(rt; "body {} zeros {}", body.bytes.len(), body.zeros),
        Err(fault) => println!(rt; "refused {fault:?}"),
    }
}

/// Prints how long the input is, or the body.
fn report_input(
    rt: &HostRuntime,
    what: &str,
    content: &[u8],
    patches: &Vec<Patch>,
) -> io::Result<()> {
    if what == "input" {
        println!(rt; "content {} patches {}", content.len(), patches.len())
    } else {
        report_body(rt, content, patches)
    }
}

/// Makes the input for `count` patches, and prints what is reported for it.
fn make(rt: &HostRuntime, what: &str, count: u32) -> io::Result<()> {
    let content = bytes(rt.alloc(), count.wrapping_mul(16))?;
    let patches = patches(rt.alloc(), count)?;
    report_input(rt, what, &content, &patches)
}

/// Does what the arguments say: `input` makes the input alone, and `body` writes the body too.
pub fn run<'w>(rt: &HostRuntime, words: &'w [String]) -> io::Result<TaskEnd<'w>> {
    let [what, count] = words else {
        return Ok(TaskEnd::Misused);
    };
    match count.as_str().parse::<u32>() {
        Ok(count) => done(make(rt, what.as_str(), count)),
        Err(_) => Ok(TaskEnd::NoNumber(count.as_str())),
    }
}
