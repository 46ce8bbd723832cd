// A sink of text over a writer, and the standard output of the program.
ghost use Rattle.std.specs.Prelude.{◌≡◌, ◌≤◌, MatchResult, OnOk, IfErr};
ghost use Rattle.omf_io.specs.Hosts.{Written, print_seen};
ghost use Rattle.omf_io.specs.Sinks.{HasPut, PutFailed};
ghost use Rattle.omf_io.specs.Streams.{HasTaken};

use crate::streams::write_whole;
use crate::{Sink, SinkFault};
use std::io::{self, Write};
use std::marker::Model;

/// A sink over a writer, which gets each piece at once. As a sink it reveals nothing of what was written; the clauses of `put` say what the
/// writer took.
///
/// Contracts see what the writer holds, where that is known, and the count of faults.
#[derive(Drop)]
pub struct WriterSink<W: Write> {
    writer: W,
    faults: u64,
}

impl<W: Write> Model for WriterSink<W> {
    ghost use Rattle.omf_io.specs.Hosts.{Written};

    ghost Value = { Written };

    ghost view = { λ s. record { contents = W.contents s.writer; faults = s.faults } };
}

/// The standard output, to which each piece goes at once.
pub type HostSink<'a, R> = WriterSink<Output<'a, R>>;

impl<'a, R: Print> WriterSink<Output<'a, R>> {
    /// The standard output of the runtime, with the count at 0.
    pub fn new(rt: &'a R) -> HostSink<'a, R>
        ensures { (result).faults ≡ 0 }
    {
        WriterSink::over(Output { rt })
    }
}

impl<W: Write> WriterSink<W> {
    /// A sink over the writer, with the count at 0.
    pub fn over(writer: W) -> WriterSink<W>
        ensures writer { (result).contents ≡ W.contents writer }
        ensures count { (result).faults ≡ 0 }
    {
        WriterSink { writer, faults: 0 }
    }

    /// How many calls failed.
    pub fn faults(&self) -> u64
        ensures { result ≡ (self.now).faults }
    {
        self.faults
    }
}

impl<W: Write + Drop> Sink for WriterSink<W> {
    ghost seen = { print_seen };

    /// Takes a piece: the writer took all of it, once.
    fn put(&mut self, piece: &[u8]) -> Result<(), SinkFault>
        // As every sink.
        ensures never_falls { (self.old).faults ≤ (self.new).faults }
        ensures answer { MatchResult result
            (λ _. HasPut piece.now (print_seen self.old) (print_seen self.new))
            (λ fault. PutFailed fault piece.now (print_seen self.old) (print_seen self.new)) }

        // And what the writer holds then.
        ensures taken { OnOk result (HasTaken (self.old).contents (self.new).contents piece.now) }
        ensures failed { IfErr result (λ fault. fault ≡ SinkFault.Failed) }
    {
        match write_whole(&mut self.writer, piece) {
            Ok(()) => Ok(()),
            Err(_) => {
                self.faults = self.faults.saturating_add(1);
                Err(SinkFault::Failed)
            }
        }
    }
}

/// The standard output as a writer. What it took stays unknown.
#[derive(Drop)]
pub struct Output<'a, R: Print> {
    rt: &'a R,
}

impl<'a, R: Print> Write for Output<'a, R> {
    fn write(&mut self, piece: &[u8]) -> io::Result<usize> {
        self.rt.write_some(piece)
    }

    fn flush(&mut self) -> io::Result<()> {
        Ok(())
    }
}
