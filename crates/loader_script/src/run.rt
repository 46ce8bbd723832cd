//! Scripts that are run: each command is given to the loader, and its reply is printed.

ghost use Rattle.std.specs.Prelude.{◌≡◌, ℕ, List, true};
ghost use Rattle.omf_io.specs.Outside.{outside};
ghost use Rattle.loader_machine.specs.Script.{AreCommands};
ghost use Rattle.script_text.specs.View.{IsRefused};
ghost use Rattle.loader_script.specs.Run.{HasRunScript};
ghost use Rattle.loader_script.specs.Running.{HasFinished, IsNotRun};

use loader_machine::{ScriptCause, ScriptFault};
use loader_replies::{ReplyStop, first_loader, okay_line, print, run_command};
use omf_io::{Files, Sink};
use script_text::{Script, read_script};
use std::alloc::{AllocError, Global};
use sys_loader::Loader;

/// How the run of a script ends.
#[derive(Drop)]
pub enum ScriptEnd {
    /// Every command was run. The loader that ran them, or None for a script without commands.
    Done(Option<Loader>),
    /// The script's first bad line. Nothing was run.
    Refused(ScriptFault),
    /// A reply couldn't be printed whole. No command was run after it.
    CannotPrint,
    /// Out of memory. The command in which this happened has no reply.
    Memory,
}

/// Runs the commands of a script in order, and prints the reply of each before the next one is run.
fn run_commands<F: Files, S: Sink>(
    alloc: Global,
    script: &Script,
    files: &mut F,
    out: &mut S,
) -> Result<Option<Loader>, ReplyStop>
    requires { AreCommands true script.now }
    ensures { HasFinished result script.now (outside (F.seen files.old) (F.seen files.new) (S.seen out.old) (S.seen out.new)) }
{
    let first = match script.get(0) {
        Some(first) => first,
        None => return Ok(None),
    };
    let mut loader = match first_loader(alloc, first) {
        Ok(loader) => loader,
        Err(AllocError) => return Err(ReplyStop::Memory),
    };
    print(okay_line(alloc), out)?;
    'commands: for place in 1..script.count() {
        let command = match script.get(place) {
            Some(command) => command,
            None => unreachable!(),
        };
        run_command(alloc, command, &mut loader, files, out)?;
    }
    Ok(Some(loader))
}

/// Reads a script whole, and then runs its commands in order over a loader of its own. The reply of each is printed, a line,
/// before the next one is run.
pub fn run_script<F: Files, S: Sink>(
    alloc: Global,
    text: &[u8],
    files: &mut F,
    out: &mut S,
) -> ScriptEnd
    ensures { HasRunScript result text.now (outside (F.seen files.old) (F.seen files.new) (S.seen out.old) (S.seen out.new)) }
{
    let script = match read_script(alloc, text) {
        Ok(script) => script,
        Err(fault) => return end_of_refused_script(fault),
    };
    match run_commands(alloc, &script, files, out) {
        Ok(loader) => ScriptEnd::Done(loader),
        Err(ReplyStop::CannotPrint) => ScriptEnd::CannotPrint,
        Err(ReplyStop::Memory) => ScriptEnd::Memory,
    }
}

/// How a script ends that wasn't read.
fn end_of_refused_script(fault: ScriptFault) -> ScriptEnd
    ensures reported { (text : List ℕ) → IsRefused fault text → IsNotRun result text }
    ensures memory { result ≡ ScriptEnd.Memory → fault.cause ≡ ScriptCause.Memory }
{
    match fault.cause {
        ScriptCause::Memory => ScriptEnd::Memory,
        ScriptCause::TooManyLines
        | ScriptCause::BadWord
        | ScriptCause::UnknownCommand
        | ScriptCause::BanksFirst
        | ScriptCause::WrongCount
        | ScriptCause::BadNumber
        | ScriptCause::BankTwice => ScriptEnd::Refused(fault),
    }
}
