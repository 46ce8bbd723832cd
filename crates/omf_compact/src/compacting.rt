//! The one file that is written for what a load file holds.

ghost use Rattle.std.specs.Prelude.{◌≡◌, ◌<◌, ◌^◌, length, IfOk, IfErr};
ghost use Rattle.omf_format.specs.Number.{IsBytes};
ghost use Rattle.omf_compact.specs.Answer.{IsAnswer, IsRefused};

use crate::fault::{CompactCause, CompactFault, of_load};
use crate::judge::patches_or_broken_part;
use crate::segments::put_segments;
use crate::write_fault::CompactWriteFault;
use omf_cells::read_load;
use std::alloc::Global;

/// The bytes of a file are bytes.
fn know_bytes(file: &[u8])
    ensures { IsBytes file.now }
{
    let _file = file;
}

/// The load file in its one fixed form: files that hold the same give the same answer. All parts are looked at before a segment is written,
/// so a broken part is reported before a file that would be too long. It is refused exactly where it isn't a load file, has a broken part,
/// or the answer would have more than 16,777,216 bytes; or when out of memory.
pub fn canonical(alloc: Global, file: &[u8]) -> Result<Vec<u8>, CompactFault>
    requires { length file.now < 2 ^ 32 }
    ensures ok { IfOk result (λ out. IsAnswer file.now out.items) }
    ensures refused { IfErr result (λ fault. IsRefused fault file.now) }
{
    know_bytes(file);
    let load = match read_load(alloc, file) {
        Ok(load) => load,
        Err(fault) => return Err(of_load(fault)),
    };
    let lists = patches_or_broken_part(alloc, &load)?;
    let mut out = Vec::new(alloc);
    // As much as the file has is mostly enough. Where there isn't so much, it is asked for piece by piece.
    let _ = out.reserve(file.len());
    match put_segments(alloc, &mut out, &load, lists.as_slice()) {
        Ok(()) => Ok(out),
        Err(CompactWriteFault::TooLong) => Err(CompactFault::of(CompactCause::TooLong)),
        Err(CompactWriteFault::Memory) => Err(CompactFault::of(CompactCause::Memory)),
    }
}
