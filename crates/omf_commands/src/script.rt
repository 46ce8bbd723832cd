//! `run`: a script of loader commands.

ghost use Rattle.std.specs.Prelude.{◌≡◌, ◌⊎◌, None};
ghost use Rattle.omf_io.specs.Outside.{outside};
ghost use Rattle.omf_making.specs.Words.{words_of};
ghost use Rattle.omf_commands.specs.Script.{ScriptRun, CanRun};

use loader_script::{ScriptEnd, run_script};
use omf_io::{Files, Sink};
use omf_making::{
    Reading, Status, first_of, path_line, print, read_all, script_cause_name, script_line,
};
use std::alloc::Global;
use sys_loader::Loader;

/// Reads a script and runs it, and prints what is to be said. The loader that ran all commands is handed out.
fn read_and_run<F: Files, S: Sink>(
    alloc: Global,
    inputs: &[String],
    files: &mut F,
    out: &mut S,
    last: &mut Option<Loader>,
) -> Status
    requires { last.old ≡ None }
    ensures { ScriptRun (words_of inputs.now) result last.new
        (outside (F.seen files.old) (F.seen files.new) (S.seen out.old) (S.seen out.new)) }
{
    let all = match read_all(alloc, inputs, files) {
        Reading::All(all) => all,
        Reading::Unread(path) => {
            return print(
                path_line(alloc, "cannot read ", path),
                Status::CannotRead,
                out,
            );
        }
        Reading::Memory => return Status::Memory,
    };
    match run_script(alloc, first_of(&all), files, out) {
        ScriptEnd::Done(loader) => {
            *last = loader;
            Status::Done
        }
        ScriptEnd::Refused(fault) => {
            let line = script_line(alloc, script_cause_name(fault.cause), fault.line);
            print(line, Status::Refused, out)
        }
        ScriptEnd::CannotPrint => Status::CannotPrint,
        ScriptEnd::Memory => Status::Memory,
    }
}

/// Runs a script that is read from a file, and hands out the loader that ran it.
pub fn run_file<F: Files, S: Sink>(
    alloc: Global,
    inputs: &[String],
    files: &mut F,
    out: &mut S,
    last: &mut Option<Loader>,
) -> Status
    requires { last.old ≡ None }
    ensures run { ScriptRun (words_of inputs.now) result last.new
        (outside (F.seen files.old) (F.seen files.new) (S.seen out.old) (S.seen out.new)) }
    ensures completes { CanRun (words_of inputs.now)
        (outside (F.seen files.old) (F.seen files.new) (S.seen out.old) (S.seen out.new))
        → (result ≡ Status.Done) ⊎ (result ≡ Status.Memory) }
{
    read_and_run(alloc, inputs, files, out, last)
}
