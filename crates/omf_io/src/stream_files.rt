// Files that are read and written as streams, and those of the system among them.
ghost use Rattle.std.specs.Prelude.{◌≡◌, ◌≤◌, ◌<◌, IfOk, IfErr, MatchResult, length};
ghost use Rattle.omf_io.specs.Counts.{one_more};
ghost use Rattle.omf_io.specs.Files.{max_file, HasRead, ReadFailed, HasWritten, WriteFailed};
ghost use Rattle.omf_io.specs.Hosts.{FileCounts, host_seen};
ghost use Rattle.omf_io.specs.Streams.{HasContent, IsLonger, HasTaken};

use crate::opening::{Host, Opens};
use crate::streams::{open_fault, read_whole, write_whole};
use crate::{Files, ReadFault, WriteFault};
use std::alloc::Global;
use std::marker::Model;
use std::rt;

/// Files that something opens by their paths. The store reveals nothing of what they hold; the clauses of its calls say what a reader gave
/// and a writer took.
///
/// Contracts see its two counts.
#[derive(Drop)]
pub struct StreamFiles<O: Opens> {
    opens: O,
    faults: u64,
}

impl<O: Opens> Model for StreamFiles<O> {
    ghost use Rattle.omf_io.specs.Hosts.{FileCounts};

    ghost Value = { FileCounts };

    ghost view = { λ s. record { faults = s.faults; asked = O.asked s.opens } };
}

/// The real files, which the system reads and writes.
pub type HostFiles<'a, R> = StreamFiles<Host<'a, R>>;

impl<'a, R: rt::Files> StreamFiles<Host<'a, R>> {
    /// The files that the runtime reaches, with both counts at 0.
    pub fn new(rt: &'a R) -> HostFiles<'a, R>
        ensures { let made : FileCounts = record { faults = 0; asked = 0 } in result ≡ made }
    {
        StreamFiles::over(Host::new(rt))
    }
}

impl<O: Opens> StreamFiles<O> {
    /// The files that are opened so, without a fault so far.
    pub fn over(opens: O) -> StreamFiles<O>
        ensures { let made : FileCounts = record { faults = 0; asked = O.asked opens } in result ≡ made }
    {
        StreamFiles { opens, faults: 0 }
    }

    /// How many calls failed, or found no file or too long a one.
    pub fn faults(&self) -> u64
        ensures { result ≡ self.now.faults }
    {
        self.faults
    }

    /// How often `read` was called.
    pub fn asked(&self) -> u64
        ensures { result ≡ self.now.asked }
    {
        self.opens.asked()
    }
}

impl<O: Opens + Drop> Files for StreamFiles<O> {
    ghost seen = { host_seen };

    /// The bytes at a path: all that a reader of it has.
    fn read(&mut self, alloc: Global, path: &str) -> Result<Vec<u8>, ReadFault>
        // As every store.
        ensures never_falls { self.old.faults ≤ self.new.faults }
        ensures answer { MatchResult result
            (λ bytes. HasRead bytes.items path.now (host_seen self.old) (host_seen self.new))
            (λ fault. ReadFailed fault path.now (host_seen self.old) (host_seen self.new)) }

        // They are those of the file that was opened, or it is too long.
        ensures content { IfOk result (λ bytes. (reader : O.Reader) × O.reads path.now reader × HasContent (O.Reader.remaining reader) bytes.items) }
        ensures long { IfErr result (λ fault. fault ≡ ReadFault.TooLong → (reader : O.Reader) × O.reads path.now reader × IsLonger (O.Reader.remaining reader)) }
    {
        let read = read_file(&mut self.opens, alloc, path);
        if let Err(ReadFault::Absent | ReadFault::TooLong | ReadFault::Failed) = &read {
            self.faults = self.faults.saturating_add(1);
        }
        read
    }

    /// Puts bytes at a path: a new writer of it took them all.
    fn write(&mut self, path: &str, bytes: &[u8]) -> Result<(), WriteFault>
        // As every store.
        ensures never_falls { self.old.faults ≤ self.new.faults }
        ensures answer { MatchResult result
            (λ _. HasWritten bytes.now path.now (host_seen self.old) (host_seen self.new))
            (λ fault. WriteFailed fault bytes.now path.now (host_seen self.old) (host_seen self.new)) }

        // The writer that was made took them.
        ensures taken { IfOk result (λ _. (writer following : O.Writer) × O.writes path.now writer
            × HasTaken (O.Writer.contents writer) (O.Writer.contents following) bytes.now) }
    {
        let written = write_file(&mut self.opens, path, bytes);
        if let Err(WriteFault::Failed) = &written {
            self.faults = self.faults.saturating_add(1);
        }
        written
    }
}

fn read_file<O: Opens>(opens: &mut O, alloc: Global, path: &str) -> Result<Vec<u8>, ReadFault>
    ensures once { O.asked opens.new ≡ one_more (O.asked opens.old) }
    ensures short { IfOk result (λ bytes. length bytes.items ≤ max_file) }
    ensures content { IfOk result (λ bytes. (reader : O.Reader) × O.reads path.now reader × HasContent (O.Reader.remaining reader) bytes.items) }
    ensures long { IfErr result (λ fault. fault ≡ ReadFault.TooLong → (reader : O.Reader) × O.reads path.now reader × IsLonger (O.Reader.remaining reader)) }
{
    let (reader, reported) = match opens.open(path) {
        Ok(found) => found,
        Err(error) => return Err(open_fault(error)),
    };
    read_whole(alloc, reader, reported)
}

fn write_file<O: Opens>(opens: &mut O, path: &str, bytes: &[u8]) -> Result<(), WriteFault>
    ensures unread { O.asked opens.new ≡ O.asked opens.old }
    ensures failed { IfErr result (λ fault. fault ≡ WriteFault.Failed) }
    ensures taken { IfOk result (λ _. (writer following : O.Writer) × O.writes path.now writer
        × HasTaken (O.Writer.contents writer) (O.Writer.contents following) bytes.now) }
{
    let mut writer = opens.create(path).map_err(|_| WriteFault::Failed)?;
    write_whole(&mut writer, bytes).map_err(|_| WriteFault::Failed)
}
