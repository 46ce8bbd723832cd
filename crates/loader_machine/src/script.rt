//! Why a script is refused.

use std::alloc::{AllocError, AllocFailed};

/// The commands of a script, by the words that name them.
#[derive(Clone, Copy, PartialEq, Eq, Debug)]
pub enum CommandName {
    Banks,
    Load,
    LoadSegment,
    UnloadSegment,
    Jsl,
    ShutDown,
    Restart,
    Purge,
    Poke,
    Bytes,
    Where,
    Info,
    Alloc,
    Free,
    Lock,
    Unlock,
    Level,
    Handle,
    Room,
    Compact,
}

/// What is wrong with a line of a script: the first cause in this order.
#[derive(Clone, Copy, PartialEq, Eq, Debug)]
pub enum ScriptCause {
    /// The text has more than 65,536 lines.
    TooManyLines,
    /// The line isn't made of words with one space between them, or it or a word is too long.
    BadWord,
    /// The first word names no command.
    UnknownCommand,
    /// The first command isn't `banks`, or a later one is.
    BanksFirst,
    /// The command takes another number of words.
    WrongCount,
    /// A word isn't a number, or the number is out of its range.
    BadNumber,
    /// `banks` names a bank twice.
    BankTwice,
    /// Out of memory; no cause in a line.
    Memory,
}

/// The first bad line of a script, with the first cause against it. For lack of memory the line is 0.
#[derive(Clone, Copy, PartialEq, Eq, Debug)]
pub struct ScriptFault {
    pub cause: ScriptCause,
    /// The line's number, from 1; skipped lines count too.
    pub line: u32,
}

impl From<AllocError> for ScriptCause {
    ghost use Rattle.std.specs.Prelude.{◌≡◌};
    ghost use Rattle.loader_machine.specs.declared.script.ScriptCause.TheVariants as causes;

    ghost from_gives = { λ _ cause. cause ≡ causes.Memory };

    fn from(_: AllocError) -> ScriptCause {
        ScriptCause::Memory
    }
}

impl<T: Drop> From<AllocFailed<T>> for ScriptCause {
    ghost use Rattle.std.specs.Prelude.{◌≡◌};
    ghost use Rattle.loader_machine.specs.declared.script.ScriptCause.TheVariants as causes;

    ghost from_gives = { λ _ cause. cause ≡ causes.Memory };

    fn from(_: AllocFailed<T>) -> ScriptCause {
        ScriptCause::Memory
    }
}
