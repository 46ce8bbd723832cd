//! The forms of a dictionary's first and third records.

ghost use Rattle.std.specs.Prelude.{◌≡◌, ◌<◌, ◌≤◌, ◌+◌, ◌^◌, length, option_map, drop, IfOk};
ghost use Rattle.lib_dict.specs.Tables.{AreNumbers, AreStarts};

use indexmap::IndexSet;
use omf_base::{items_after, number};
use std::alloc::{AllocError, Global};

/// The file numbers of the first record, where it has its form: each with a name after it, and 0 at the very end.
pub fn file_numbers(alloc: Global, bytes: &[u8]) -> Result<Option<IndexSet<u16>>, AllocError>
    ensures { IfOk result (λ found. AreNumbers (option_map (λ set. set.keys) found) bytes.now) }
{
    let mut numbers = IndexSet::new(alloc);
    let mut rest = bytes;
    'files: loop {
        if rest.len() < 2 {
            return Ok(None);
        }
        let file = number(rest, 0, 2);
        if file == 0 {
            return if rest.len() == 2 {
                Ok(Some(numbers))
            } else {
                Ok(None)
            };
        }
        if rest.len() < 3 {
            return Ok(None);
        }
        let size = 3 + number(rest, 2, 1) as usize;
        if rest.len() < size {
            return Ok(None);
        }
        numbers.insert(file as u16)?;
        rest = items_after(rest, size);
    }
}

/// Where the names of the third record start, where it has its form: names one after another, each after its length.
pub fn name_starts(alloc: Global, bytes: &[u8]) -> Result<Option<IndexSet<u32>>, AllocError>
    requires { length bytes.now < 2 ^ 32 }
    ensures { IfOk result (λ found. AreStarts (option_map (λ set. set.keys) found) bytes.now) }
{
    let mut starts = IndexSet::new(alloc);
    let mut at = 0;
    'names: while at < bytes.len() {
        let size = usize::from(bytes[at]);
        if bytes.len() - at - 1 < size {
            return Ok(None);
        }
        starts.insert(at as u32)?;
        at += 1 + size;
    }
    Ok(Some(starts))
}
