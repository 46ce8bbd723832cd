//! From files to the map of their link, or their first fault.

ghost use Rattle.std.specs.Prelude.{◌≡◌, ◌+◌, ◌<◌, ◌^◌, length, IfOk, IfErr};
ghost use Rattle.link_meaning.specs.LinkedCells.{targets};
ghost use Rattle.link_meaning.specs.LinkValues.{IsTable};
ghost use Rattle.link_meaning.specs.LinkWritten.{table_images};
ghost use Rattle.link_resolve.specs.Resolved.{given_of, FewGiven, HavePaths};
ghost use Rattle.link_file.specs.Answers.{IsEmitRefused, IsLinkRefused};
ghost use Rattle.link_map.specs.MapText.{map_text, IsMapOf};
ghost use Rattle.link_map.specs.Standing.{IsDrawn};

use crate::members::{put_exports, put_loads};
use crate::runtimes::put_runtimes;
use crate::table::put_table;
use jump_table::Table;
use lib_dict::Member;
use link_file::{EquateValues, emit};
use link_meaning::{LinkFault, LinkForm};
use link_program::{Program, memory_fault};
use link_resolve::resolve_with;
use omf_base::{Line, LineFault};
use std::alloc::Global;

/// The number of the load segment after the jump table. The table would have the number `number`, and is there where it has an entry.
fn number_after(number: u32, table: &Table) -> u32
    requires { number + 1 < 2 ^ 32 }
    ensures { result ≡ number + length (table_images number table.now) }
{
    if table.count() == 0 {
        return number;
    }
    number + 1
}

/// The map of a program that calls these places through the jump table.
fn map_with(alloc: Global, values: &EquateValues, table: &Table) -> Result<Line, LineFault>
    ensures { IfOk result (λ text. IsTable values.now.list values.now.table → table.now ≡ targets values.now.list values.now.table
        → text ≡ map_text values.now.list values.now.table) }
{
    let program = values.program();
    program.know_files();
    let mut line = Line::new(alloc);
    put_loads(&mut line, values)?;
    let number = program.load_count() + 1;
    put_table(alloc, &mut line, number, table)?;
    put_runtimes(&mut line, number_after(number, table), program)?;
    put_exports(&mut line, values)?;
    Ok(line)
}

/// The map of a program with these values. Otherwise the first fault of a record.
fn map_values(alloc: Global, values: &EquateValues) -> Result<Line, LinkFault>
    ensures drawn { IfOk result (λ text. IsTable values.now.list values.now.table → text ≡ map_text values.now.list values.now.table) }
    ensures refused { IfErr result (λ fault. IsEmitRefused values.now.list fault) }
{
    let table = values.targets(alloc)?;
    match map_with(alloc, values, &table) {
        Ok(line) => Ok(line),
        Err(_) => Err(memory_fault()),
    }
}

/// The map of a program, where it can be written to a load file. Otherwise the first fault of the phases after layout.
fn map_program(alloc: Global, program: &Program) -> Result<Line, LinkFault>
    ensures drawn { IfOk result (λ text. IsDrawn program.now text) }
    ensures refused { IfErr result (λ fault. IsEmitRefused program.now fault) }
{
    drop(emit(alloc, program)?);
    let values = EquateValues::of(alloc, program)?;
    map_values(alloc, &values)
}

/// The map of the link of files, which are objects and libraries in any order, with run-time library files, each with the path by which it
/// is known; or to a run-time library file, which has none. Otherwise the first fault, as `link_with` returns it.
pub fn map_files(
    alloc: Global,
    inputs: &Vec<Vec<u8>>,
    runtimes: &Vec<Member>,
    form: LinkForm,
) -> Result<Line, LinkFault>
    requires few { FewGiven (given_of inputs.now.items runtimes.now.items form) }
    requires paths { HavePaths (given_of inputs.now.items runtimes.now.items form) }
    ensures mapped { IfOk result (λ text. IsMapOf (given_of inputs.now.items runtimes.now.items form) text) }
    ensures refused { IfErr result (λ fault. IsLinkRefused (given_of inputs.now.items runtimes.now.items form) fault) }
{
    let program = resolve_with(alloc, inputs, runtimes, form)?;
    let drawn = map_program(alloc, &program);
    drop(program);
    drawn
}
