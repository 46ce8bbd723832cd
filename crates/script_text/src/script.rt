//! Scripts read as a whole.

ghost use Rattle.std.specs.Prelude.{◌≡◌, ◌≤◌, ◌+◌, map, length, slice_get, Some, IfOk, IfErr, OnOk, MatchOption};
ghost use Rattle.loader_machine.specs.Script.{is_skipped, most_lines, IsScript, is_start};
ghost use Rattle.script_text.specs.View.{command, IsRefused, line_for};
ghost use Rattle.script_text.specs.Lines.{HasTaken, IsBadFor};

use crate::command::Command;
use crate::parsing::line_command;
use loader_machine::{ScriptCause, ScriptFault};
use omf_base::split_line;
use std::alloc::Global;
use std::marker::Model;

/// The most lines of a script.
const MOST_LINES: u32 = 65536;

/// The commands of a script, in order. Contracts see the list of them.
#[derive(Drop)]
pub struct Script {
    commands: Vec<Command>,
}

impl Model for Script {
    ghost use Rattle.std.specs.Prelude.{◌≤◌, List, map, length};
    ghost use Rattle.loader_machine.specs.Commands as machine;
    ghost use Rattle.script_text.specs.View.{command};

    ghost Value = { List machine.Command };

    ghost view = { λ script. map command script.commands.items };

    ghost invariant = { λ script. length script.commands.items ≤ 65536 };
}

impl Script {
    /// How many commands there are.
    pub fn count(&self) -> u32
        ensures { result ≡ length self.now }
    {
        self.commands.len() as u32
    }

    /// The command at a place, from 0.
    pub fn get(&self, place: u32) -> Option<&Command>
        ensures { MatchOption result (length self.now ≤ place) (λ found. slice_get self.now place ≡ Some (command found.now)) }
    {
        self.commands.get(place as usize)
    }
}

/// Whether the line is empty or begins with a semicolon.
fn is_skipped(line: &[u8]) -> bool
    ensures { result ≡ is_skipped line.now }
{
    match line.split_first() {
        Some((first, _)) => *first == b';',
        None => true,
    }
}

/// Whether no command was given yet.
fn is_start(commands: &[Command]) -> bool
    ensures { result ≡ is_start (map command commands.now) }
{
    match commands.split_first() {
        Some(_) => false,
        None => true,
    }
}

/// Reads one more line, after `before` others.
fn take_line(
    alloc: Global,
    line: &[u8],
    before: u32,
    commands: &mut Vec<Command>,
) -> Result<(), ScriptCause>
    requires { before ≤ most_lines }
    ensures ok { OnOk result (HasTaken before line.now (map command commands.old.items) (map command commands.new.items)) }
    ensures err { IfErr result (IsBadFor before (is_start (map command commands.old.items)) line.now) }
{
    if before == MOST_LINES {
        return Err(ScriptCause::TooManyLines);
    }
    if is_skipped(line) {
        return Ok(());
    }
    let found = line_command(alloc, line, is_start(commands.as_slice()))?;
    commands.push(found)?;
    Ok(())
}

/// The fault of a line. For lack of memory the line is 0.
fn fault_of(cause: ScriptCause, line: u32) -> ScriptFault
    ensures cause { result.cause ≡ cause }
    ensures line { result.line ≡ line_for cause line }
{
    match cause {
        ScriptCause::Memory => ScriptFault { cause, line: 0 },
        _ => ScriptFault { cause, line },
    }
}

/// The commands of a text, or its first bad line with the first cause against it.
pub fn read_script(alloc: Global, text: &[u8]) -> Result<Script, ScriptFault>
    ensures commands { IfOk result (λ script. IsScript text.now script) }
    ensures refused { IfErr result (λ fault. IsRefused fault text.now) }
{
    let mut commands = Vec::new(alloc);
    let mut rest = text;
    let mut before = 0;
    'lines: while !rest.is_empty() {
        let (line, following) = split_line(rest);
        match take_line(alloc, line, before, &mut commands) {
            Ok(()) => {}
            Err(cause) => return Err(fault_of(cause, before + 1)),
        }
        before += 1;
        rest = following;
    }
    Ok(Script { commands })
}
