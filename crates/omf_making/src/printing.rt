//! The lines that the tool prints.

ghost use Rattle.std.specs.Prelude.{◌≡◌, ◌++◌, IfOk, OnOk};
ghost use Rattle.std.specs.Option.{option_map};
ghost use Rattle.omf_base.specs.Lines.{line};
ghost use Rattle.omf_making.specs.Lines.{usage_line, refused_line, script_line, line_fault_line};
ghost use Rattle.omf_making.specs.Steps.{with_name};
ghost use Rattle.omf_making.specs.FileCauses.{cause_name};
ghost use Rattle.omf_making.specs.ScriptCauses.{script_cause_name};
ghost use Rattle.omf_making.specs.Printing.{IsPut, IsPrinted};

use crate::status::Status;
use loader_machine::ScriptCause;
use omf_base::{Line, LineFault, Spot};
use omf_format::FileCause;
use omf_io::{Sink, SinkFault};
use std::alloc::Global;

/// The line that says which forms of arguments there are.
pub fn usage_line(alloc: Global) -> Result<Line, LineFault>
    ensures { IfOk result (λ text. text ≡ usage_line) }
{
    let mut line = Line::new(alloc);
    line.text("usage: omf asm, link, lib, dump, run, stress, rtl, linkrt, list or compact")?;
    line.text("\n")?;
    Ok(line)
}

/// The line that says what couldn't be done with the file at a path.
pub fn path_line(alloc: Global, what: &str, path: &str) -> Result<Line, LineFault>
    ensures { IfOk result (λ text. text ≡ line (what.now ++ path.now)) }
{
    let mut line = Line::new(alloc);
    line.text(what)?;
    line.text(path)?;
    line.text("\n")?;
    Ok(line)
}

/// Appends a name after a space, if there is one.
fn put_name(line: &mut Line, name: Option<&[u8]>) -> Result<(), LineFault>
    ensures { OnOk result (line.new ≡ line.old ++ with_name (option_map (λ bytes. bytes.now) name.entry)) }
{
    match name {
        Some(name) => dump_lines::put_name(line, name),
        None => Ok(()),
    }
}

/// The line that says why an input is refused, by which name, if one is to blame, and where.
pub fn refused_line(
    alloc: Global,
    cause: &str,
    name: Option<&[u8]>,
    spot: Spot,
) -> Result<Line, LineFault>
    ensures { IfOk result (λ text. text ≡ refused_line cause.now (option_map (λ bytes. bytes.now) name.entry) spot.file spot.segment spot.at) }
{
    let mut line = Line::new(alloc);
    line.text("refused ")?;
    line.text(cause)?;
    put_name(&mut line, name)?;
    line.text(" ")?;
    line.dec(spot.file)?;
    line.text(" ")?;
    line.dec(spot.segment)?;
    line.text(" ")?;
    line.hex(spot.at, 8)?;
    line.text("\n")?;
    Ok(line)
}

/// The name of a cause, as it is printed.
pub fn cause_name(cause: FileCause) -> &'static str
    ensures { result.now ≡ cause_name cause }
{
    match cause {
        FileCause::Truncated => "Truncated",
        FileCause::BadHeader => "BadHeader",
        FileCause::Unsupported => "Unsupported",
        FileCause::BadRecord => "BadRecord",
        FileCause::Memory => "Memory",
    }
}

/// The line that says why a script is refused, and at which line of it.
pub fn script_line(alloc: Global, cause: &str, number: u32) -> Result<Line, LineFault>
    ensures { IfOk result (λ text. text ≡ script_line cause.now number) }
{
    let mut line = Line::new(alloc);
    line.text("refused ")?;
    line.text(cause)?;
    line.text(" ")?;
    line.dec(number)?;
    line.text("\n")?;
    Ok(line)
}

/// The line that says why a source is refused, and at which line of which file.
pub fn line_fault_line(
    alloc: Global,
    cause: &str,
    file: u32,
    number: u32,
) -> Result<Line, LineFault>
    ensures { IfOk result (λ text. text ≡ line_fault_line cause.now file number) }
{
    let mut line = Line::new(alloc);
    line.text("refused ")?;
    line.text(cause)?;
    line.text(" ")?;
    line.dec(file)?;
    line.text(" ")?;
    line.dec(number)?;
    line.text("\n")?;
    Ok(line)
}

/// The name of a cause against a script, as it is printed.
pub fn script_cause_name(cause: ScriptCause) -> &'static str
    ensures { result.now ≡ script_cause_name cause }
{
    match cause {
        ScriptCause::TooManyLines => "TooManyLines",
        ScriptCause::BadWord => "BadWord",
        ScriptCause::UnknownCommand => "UnknownCommand",
        ScriptCause::BanksFirst => "BanksFirst",
        ScriptCause::WrongCount => "WrongCount",
        ScriptCause::BadNumber => "BadNumber",
        ScriptCause::BankTwice => "BankTwice",
        ScriptCause::Memory => "Memory",
    }
}

/// Prints a text, and answers the wanted status, or that of what went wrong.
pub fn put<S: Sink>(text: &[u8], wanted: Status, out: &mut S) -> Status
    ensures { IsPut text.now wanted result (S.seen out.old) (S.seen out.new) }
{
    match out.put(text) {
        Ok(()) => wanted,
        Err(SinkFault::Failed) => Status::CannotPrint,
        Err(SinkFault::Memory) => Status::Memory,
    }
}

/// Prints a line for which memory may have been missing.
pub fn print<S: Sink>(line: Result<Line, LineFault>, wanted: Status, out: &mut S) -> Status
    ensures { IsPrinted line wanted result (S.seen out.old) (S.seen out.new) }
{
    match line {
        Ok(line) => put(line.bytes(), wanted, out),
        Err(LineFault::Memory) => Status::Memory,
    }
}
