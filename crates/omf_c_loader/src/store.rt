//! Files that a caller hands over with a call.

ghost use Rattle.std.specs.Prelude.{◌≡◌, ◌≤◌, Some, MatchResult, IfErr};
ghost use Rattle.std.specs.Option.{option_map};
ghost use Rattle.std.specs.FinMap.{get};
ghost use Rattle.omf_io.specs.Files.{HasRead, ReadFailed, HasWritten, WriteFailed};
ghost use Rattle.omf_c_loader.specs.Store.{held_of, handed_seen};

use omf_io::{Files, MAX_FILE, ReadFault, WriteFault};
use std::alloc::Global;

/// A file under its path.
#[repr(C)]
pub struct OmfStored<'a> {
    pub path: &'a [u8],
    pub bytes: &'a [u8],
}

/// Files that are handed in, which don't fail, and of which the first at a path is held there; and how often one was read.
pub struct HandedFiles<'a, 'b> {
    pub files: &'b [OmfStored<'a>],
    pub asked: u64,
}

/// The bytes of the first file at a path.
fn content_of<'a>(files: &[OmfStored<'a>], path: &[u8]) -> Option<&'a [u8]>
    ensures { option_map (λ bytes. bytes.now) result ≡ get (held_of files.now) path.now }
{
    'files: for file in files {
        if *file.path == *path {
            return Some(file.bytes);
        }
    }
    None
}

impl<'a, 'b> Files for HandedFiles<'a, 'b> {
    ghost seen = { handed_seen };

    /// A copy of the bytes at a path.
    fn read(&mut self, alloc: Global, path: &str) -> Result<Vec<u8>, ReadFault> {
        self.asked = self.asked.saturating_add(1);
        let Some(bytes) = content_of(self.files, path.as_bytes()) else {
            return Err(ReadFault::Absent);
        };
        if bytes.len() > MAX_FILE {
            return Err(ReadFault::TooLong);
        }
        Ok(Vec::from_slice(alloc, bytes)?)
    }

    /// Nothing is written: no call of the loader does.
    fn write(&mut self, _path: &str, _bytes: &[u8]) -> Result<(), WriteFault> {
        Err(WriteFault::Memory)
    }
}
