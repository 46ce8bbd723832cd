//! One command: it is given to the loader, and its reply is printed.

ghost use Rattle.std.specs.Prelude.{◌≡◌, ℕ, List, true, false, Err, IfOk, OnErr};
ghost use Rattle.omf_io.specs.Outside.{outside};
ghost use Rattle.loader_machine.specs.Commands as machine;
ghost use Rattle.loader_machine.specs.Script.{IsCommand};
ghost use Rattle.script_text.specs.View as view;
ghost use Rattle.loader_replies.specs.Answered.{HasPrinted, HasLine, HasAnswered, IsFirstLoader};

use crate::blocks::{alloc_block, compact, free, level, lock, room, state, unlock};
use crate::calls::{
    bytes, info, jsl, load, load_segment, poke, purge, restart, shut_down, unload_segment, where_,
};
use iigs_meaning::BanksFault;
use omf_base::{Line, LineFault};
use omf_io::{Files, Sink, SinkFault};
use script_text::{BankList, Command};
use std::alloc::{AllocError, Global};
use sys_loader::Loader;

/// Why a run stops.
#[derive(Clone, Copy, Debug, PartialEq, Eq)]
pub enum ReplyStop {
    /// The sink failed.
    CannotPrint,
    Memory,
}

/// Prints a line for which memory may have been missing.
pub fn print<S: Sink>(line: Result<Line, LineFault>, out: &mut S) -> Result<(), ReplyStop>
    ensures printed { (text : List ℕ) → IfOk line (λ made. made ≡ text) → HasPrinted result text (S.seen out.old) (S.seen out.new) }
    ensures short { OnErr line ((result ≡ Err ReplyStop.Memory) × (S.seen out.new ≡ S.seen out.old)) }
{
    let line = match line {
        Ok(line) => line,
        Err(LineFault::Memory) => return Err(ReplyStop::Memory),
    };
    match out.put(line.bytes()) {
        Ok(()) => Ok(()),
        Err(SinkFault::Failed) => Err(ReplyStop::CannotPrint),
        Err(SinkFault::Memory) => Err(ReplyStop::Memory),
    }
}

/// Gives the loader a command that isn't the first, and makes the line of the reply.
fn reply<F: Files>(
    alloc: Global,
    command: &Command,
    loader: &mut Loader,
    files: &mut F,
) -> Result<Line, LineFault>
    requires { IsCommand false (view.command command.now) }
    ensures { HasLine result (view.command command.now) loader.old loader.new (F.seen files.old) (F.seen files.new) }
{
    match command {
        Command::Banks { .. } => unreachable!(),
        Command::Load { path } => load(alloc, path, loader, files),
        Command::LoadSegment { user, segment } => {
            load_segment(alloc, *user, *segment, loader, files)
        }
        Command::Jsl { user, segment, at } => jsl(alloc, *user, *segment, *at, loader, files),
        Command::Restart { user } => restart(alloc, *user, loader, files),
        Command::UnloadSegment { user, segment } => {
            unload_segment(alloc, *user, *segment, loader)
        }
        Command::ShutDown { user, keep } => shut_down(alloc, *user, *keep, loader),
        Command::Purge { user } => purge(alloc, *user, loader),
        Command::Poke {
            user,
            segment,
            at,
            byte,
        } => poke(alloc, *user, *segment, *at, *byte, loader),
        Command::Bytes {
            user,
            segment,
            at,
            length,
        } => bytes(alloc, *user, *segment, *at, *length, loader),
        Command::Where { address } => where_(alloc, *address, loader),
        Command::Info { user, segment } => info(alloc, *user, *segment, loader),
        Command::Alloc {
            size,
            attr,
            address,
        } => alloc_block(alloc, *size, *attr, *address, loader),
        Command::Free { handle } => free(alloc, *handle, loader),
        Command::Lock { handle } => lock(alloc, *handle, loader),
        Command::Unlock { handle } => unlock(alloc, *handle, loader),
        Command::Level { handle, level: n } => level(alloc, *handle, *n, loader),
        Command::Handle { handle } => state(alloc, *handle, loader),
        Command::Room => room(alloc, loader),
        Command::Compact => compact(alloc, loader),
    }
}

/// Runs a command that isn't the first, and prints its reply.
pub fn run_command<F: Files, S: Sink>(
    alloc: Global,
    command: &Command,
    loader: &mut Loader,
    files: &mut F,
    out: &mut S,
) -> Result<(), ReplyStop>
    requires { IsCommand false (view.command command.now) }
    ensures { HasAnswered result (view.command command.now) loader.old loader.new
        (outside (F.seen files.old) (F.seen files.new) (S.seen out.old) (S.seen out.new)) }
{
    let line = reply(alloc, command, loader, files);
    print(line, out)
}

/// The loader of the banks that a script names.
fn loader_of(alloc: Global, list: &BankList) -> Result<Loader, AllocError>
    requires { IsCommand true (machine.Banks list.now) }
    ensures { IfOk result (IsFirstLoader (machine.Banks list.now)) }
{
    match Loader::new(alloc, list.bytes()) {
        Ok(loader) => Ok(loader),
        Err(BanksFault::Memory) => Err(AllocError),
        Err(BanksFault::NoBanks) => unreachable!(),
        Err(BanksFault::BankTwice(_)) => unreachable!(),
    }
}

/// The loader that a script's first command asks for.
pub fn first_loader(alloc: Global, first: &Command) -> Result<Loader, AllocError>
    requires { IsCommand true (view.command first.now) }
    ensures { IfOk result (IsFirstLoader (view.command first.now)) }
{
    match first {
        Command::Banks { list } => loader_of(alloc, list),
        _ => unreachable!(),
    }
}
