//! Commands that make bytes of all their inputs.

ghost use Rattle.std.specs.Prelude.{◌≡◌, ◌⊎◌, ◌≤◌, ℕ, List, Option, length, IfOk};
ghost use Rattle.std.specs.Option.{option_map};
ghost use Rattle.omf_io.specs.Files.{max_file};
ghost use Rattle.omf_io.specs.Outside.{outside};
ghost use Rattle.omf_making.specs.Words.{words_of};
ghost use Rattle.omf_making.specs.Made.{Made, Bytes, Refusal, all_bytes, made_of, first_of, AreShort};
ghost use Rattle.omf_making.specs.Making.{HasCome, HasSaid, MakesRun, CanMake};

use crate::printing::{path_line, print, put};
use crate::reading::{Reading, read_all};
use crate::status::Status;
use omf_base::Line;
use omf_io::{Files, Sink, WriteFault};
use std::alloc::{AllocError, Global};

/// What is made of the inputs of a command.
#[derive(Drop)]
pub enum Making {
    /// What is written to the output, or printed where there is none.
    Bytes(Vec<u8>),
    /// The line that says why nothing is made.
    Refusal(Line),
}

/// What a command makes of its inputs.
pub trait Maker {
    // What may be made of files with these bytes.
    ghost makes: { Self → List (List ℕ) → Made → Type 0 };

    /// What the command makes of the bytes of its inputs, unless out of memory.
    fn make(&self, alloc: Global, files: Vec<Vec<u8>>) -> Result<Making, AllocError>
        requires short { AreShort (all_bytes files.items) }
        requires few { length files.items ≤ 255 }
        ensures { IfOk result (λ made. makes self.now (all_bytes files.items) (made_of made)) };
}

/// The file of a command that reads one.
pub fn first_of(files: &[Vec<u8>]) -> &[u8]
    ensures value { result.now ≡ first_of (all_bytes files.now) }
    ensures short { AreShort (all_bytes files.now) → length result.now ≤ max_file }
{
    match files.first() {
        Some(file) => file.as_slice(),
        None => &[],
    }
}

/// How a command ends before anything is printed.
#[derive(Drop)]
pub enum MakeResult<'a> {
    /// The output was written.
    Written,
    /// What is to be printed.
    Text(Vec<u8>),
    /// The line that says why nothing was made.
    Refused(Line),
    /// The first input that couldn't be read.
    Unread(&'a str),
    /// The output couldn't be written whole.
    Unwritten(&'a str),
    Memory,
}

/// Reads all inputs, makes bytes of them, and then writes these where there is an output.
fn make_all<'a, M: Maker, F: Files>(
    alloc: Global,
    maker: &M,
    output: Option<&'a str>,
    inputs: &'a [String],
    files: &mut F,
) -> MakeResult<'a>
    requires { length inputs.now ≤ 255 }
    ensures { HasCome (M.makes maker.now) (option_map (λ path. path.now) output.entry) (words_of inputs.now) result (F.seen files.old) (F.seen files.new) }
{
    let all = match read_all(alloc, inputs, files) {
        Reading::All(all) => all,
        Reading::Unread(path) => return MakeResult::Unread(path),
        Reading::Memory => return MakeResult::Memory,
    };
    let bytes = match maker.make(alloc, all) {
        Ok(Making::Bytes(bytes)) => bytes,
        Ok(Making::Refusal(text)) => return MakeResult::Refused(text),
        Err(AllocError) => return MakeResult::Memory,
    };
    let path = match output {
        Some(path) => path,
        None => return MakeResult::Text(bytes),
    };
    match files.write(path, &bytes) {
        Ok(()) => MakeResult::Written,
        Err(WriteFault::Failed) => MakeResult::Unwritten(path),
        Err(WriteFault::Memory) => MakeResult::Memory,
    }
}

/// Prints what an end says, and answers its status.
fn report<S: Sink>(alloc: Global, end: MakeResult<'_>, out: &mut S) -> Status
    ensures { HasSaid end.entry result (S.seen out.old) (S.seen out.new) }
{
    match end {
        MakeResult::Written => Status::Done,
        MakeResult::Text(text) => put(&text, Status::Done, out),
        MakeResult::Refused(text) => put(text.bytes(), Status::Refused, out),
        MakeResult::Unread(path) => print(
            path_line(alloc, "cannot read ", path),
            Status::CannotRead,
            out,
        ),
        MakeResult::Unwritten(path) => print(
            path_line(alloc, "cannot write ", path),
            Status::CannotWrite,
            out,
        ),
        MakeResult::Memory => Status::Memory,
    }
}

/// Runs a maker over its inputs, and prints what is to be said.
pub fn run_maker<M: Maker, F: Files, S: Sink>(
    alloc: Global,
    maker: &M,
    output: Option<&str>,
    inputs: &[String],
    files: &mut F,
    out: &mut S,
) -> Status
    requires few { length inputs.now ≤ 255 }
    ensures run { MakesRun (M.makes maker.now) (option_map (λ path. path.now) output.entry) (words_of inputs.now) result
        (outside (F.seen files.old) (F.seen files.new) (S.seen out.old) (S.seen out.new)) }
    ensures completes { CanMake (M.makes maker.now) (words_of inputs.now)
        (outside (F.seen files.old) (F.seen files.new) (S.seen out.old) (S.seen out.new))
        → (result ≡ Status.Done) ⊎ (result ≡ Status.Memory) }
{
    let end = make_all(alloc, maker, output, inputs, files);
    report(alloc, end, out)
}
