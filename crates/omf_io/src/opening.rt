// What opens files by their paths.
ghost use Rattle.std.specs.Prelude.{◌≡◌, ℕ, List, IfOk, ⊤};
ghost use Rattle.omf_io.specs.Counts.{one_more};

use std::fs::{File, OpenFile};
use std::io::{self, Read, Write};
use std::marker::Model;
use std::rt;

/// What opens files by their paths: all that a store of files asks of the outside.
pub trait Opens {
    type Reader: Read + Drop;

    type Writer: Write + Drop;

    /// How often a reader was asked for, whatever the answer was. The count stops at 2^64 - 1.
    ghost asked: { Self → ℕ };

    /// A reader at the start of the file at a path.
    ghost reads: { List ℕ → Self.Reader → Type 0 };

    /// A writer of the file at a path, which has no bytes yet.
    ghost writes: { List ℕ → Self.Writer → Type 0 };

    /// A reader of the file at a path, and how many bytes it is reported to have.
    fn open(&mut self, path: &str) -> io::Result<(Self::Reader, u64)>
        ensures counted { asked self.new ≡ one_more (asked self.old) }
        ensures opened { IfOk result (λ found. reads path.now found.0) };

    /// A writer of the file at a path, which takes the place of the one that may be there.
    fn create(&mut self, path: &str) -> io::Result<Self::Writer>
        ensures uncounted { asked self.new ≡ asked self.old }
        ensures made { IfOk result (λ writer. writes path.now writer) };

    /// How often a reader was asked for.
    fn asked(&self) -> u64
        ensures { result ≡ asked self.now };
}

/// The files of the system, of which nothing is revealed. Contracts see how often a reader was asked for.
#[derive(Drop)]
pub struct Host<'a, R: rt::Files> {
    rt: &'a R,
    asked: u64,
}

impl<'a, R: rt::Files> Model for Host<'a, R> {
    ghost use Rattle.std.specs.Prelude.{ℕ};

    ghost Value = { ℕ };

    ghost view = { λ host. host.asked };
}

impl<'a, R: rt::Files> Host<'a, R> {
    /// The files that the runtime reaches.
    pub fn new(rt: &'a R) -> Host<'a, R>
        ensures { result ≡ 0 }
    {
        Host { rt, asked: 0 }
    }
}

impl<'a, R: rt::Files> Opens for Host<'a, R> {
    type Reader = R::File;

    type Writer = R::File;

    ghost asked = { λ count. count };

    ghost reads = { λ _ _. ⊤ };

    ghost writes = { λ _ _. ⊤ };

    fn open(&mut self, path: &str) -> io::Result<(R::File, u64)> {
        self.asked = self.asked.saturating_add(1);
        let file = File::open(self.rt, path)?;
        let reported = file.metadata()?.len();
        Ok((file, reported))
    }

    fn create(&mut self, path: &str) -> io::Result<R::File> {
        File::create(self.rt, path)
    }

    fn asked(&self) -> u64 {
        self.asked
    }
}
