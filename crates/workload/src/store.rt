//! A store in memory whose calls don't fail.

ghost use Rattle.std.specs.Prelude.{◌≡◌, ◌≤◌, [], MatchResult, OnOk, OnErr};
ghost use Rattle.std.specs.FinMap as map;
ghost use Rattle.omf_io.specs.Files.{HasRead, ReadFailed, HasWritten, WriteFailed};
ghost use Rattle.workload.specs.Store.{StoreContent, seen};

use omf_io::{Files, MemoryFiles, ReadFault, WriteFault};
use std::alloc::{AllocError, Global};
use std::marker::Model;

/// A store of files in memory, which reveals its files, and no call of which fails but when out of memory.
///
/// Contracts see it as its files and how often it was read.
#[derive(Drop)]
pub struct ReliableFiles {
    files: MemoryFiles,
}

impl Model for ReliableFiles {
    ghost use Rattle.omf_io.specs.Calls.{IsReliable};
    ghost use Rattle.workload.specs.Store.{StoreContent, held_code};

    ghost Value = { StoreContent };

    ghost coded = { held_code };

    ghost view = { λ s. record { files = s.files.files; asked = s.files.asked } };

    ghost invariant = { λ s. IsReliable s.files.calls };
}

impl ReliableFiles {
    /// A store without files.
    pub fn new(alloc: Global) -> ReliableFiles
        ensures { let made : StoreContent = record { files = map.empty; asked = 0 } in result ≡ made }
    {
        ReliableFiles {
            files: MemoryFiles::new(alloc, Vec::new(alloc)),
        }
    }

    /// Puts a file at a path.
    pub fn set(&mut self, path: &str, bytes: &[u8]) -> Result<(), AllocError>
        ensures ok { OnOk result (self.new ≡ record self.old { files = map.insert self.old.files path.now bytes.now }) }
        ensures err { OnErr result (self.new ≡ self.old) }
    {
        self.files.set(path, bytes).map_err(|_| AllocError)
    }
}

impl Files for ReliableFiles {
    ghost use Rattle.workload.specs.Store.{seen};

    ghost seen = { seen };

    fn read(&mut self, alloc: Global, path: &str) -> Result<Vec<u8>, ReadFault> {
        self.files.read(alloc, path)
    }

    fn write(&mut self, path: &str, bytes: &[u8]) -> Result<(), WriteFault> {
        self.files.write(path, bytes)
    }
}
