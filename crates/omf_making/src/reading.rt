//! Reading all inputs in order.

ghost use Rattle.omf_making.specs.Words.{words_of};
ghost use Rattle.omf_making.specs.Making.{HasReadAll};

use omf_io::{Files, ReadFault};
use std::alloc::Global;

/// How reading ends.
#[derive(Drop)]
pub enum Reading<'a> {
    /// All files, in the order of their paths.
    All(Vec<Vec<u8>>),
    /// The first file that couldn't be read.
    Unread(&'a str),
    Memory,
}

/// Reads all inputs, up to the first that can't be read.
pub fn read_all<'a, F: Files>(alloc: Global, inputs: &'a [String], files: &mut F) -> Reading<'a>
    ensures { HasReadAll result (words_of inputs.now) (F.seen files.old) (F.seen files.new) }
{
    let mut all = Vec::new(alloc);
    for input in inputs {
        let path = input.as_str();
        let file = match files.read(alloc, path) {
            Ok(file) => file,
            Err(ReadFault::Absent) => return Reading::Unread(path),
            Err(ReadFault::TooLong) => return Reading::Unread(path),
            Err(ReadFault::Failed) => return Reading::Unread(path),
            Err(ReadFault::Memory) => return Reading::Memory,
        };
        match all.push(file) {
            Ok(()) => {}
            Err(_) => return Reading::Memory,
        }
    }
    Reading::All(all)
}
