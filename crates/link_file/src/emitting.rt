//! The second half of linking: from a resolved program to the load file, or the first fault of the phases after layout.

ghost use Rattle.std.specs.Prelude.{◌≡◌, ◌<◌, ◌^◌, Ok, IfOk, IfErr, List, length, map};
ghost use Rattle.omf_header.specs.View.{fields};
ghost use Rattle.link_meaning.specs.Layout.{load_headers};
ghost use Rattle.link_meaning.specs.EmitFaults.{IsEmitAnswer};
ghost use Rattle.link_meaning.specs.LinkedCells.{targets};
ghost use Rattle.link_program.specs.Outside.{all_found};
ghost use Rattle.link_program.specs.Memory.{memory_fault};
ghost use Rattle.link_file.specs.Answers.{IsEmitRefused};
ghost use Rattle.link_values.specs.Equates.{AreValues};
ghost use Rattle.link_content.specs.Fits.{to_load_limits};
ghost use Rattle.link_values.specs.Slots.{rows_of};

use crate::exports::exports_text;
use crate::file::write_linked;
use crate::image::{ImageFault, LoadImages};
use crate::walk::{WalkContext, fill};
use jump_table::Table;
use link_content::{LinkContext, LoadLimits};
use link_meaning::{LinkCause, LinkFault};
use link_program::{Program, memory_fault};
use link_values::{ValueSlot, values_of};
use omf_base::Spot;
use omf_header::Header;
use std::alloc::{AllocError, Global};

/// What is kept of the headers of load segments.
fn loads_of(alloc: Global, headers: &[Header]) -> Result<Vec<LoadLimits>, AllocError>
    ensures { IfOk result (λ loads. loads.items ≡ map to_load_limits (map fields headers.now)) }
{
    let mut loads = Vec::new(alloc);
    'headers: for header in headers {
        loads.push(LoadLimits {
            dynamic: header.kind.is_dynamic(),
            length: header.length,
            bank_size: header.bank_size,
        })?;
    }
    Ok(loads)
}

/// The load file would exceed 16,777,216 bytes.
fn too_long() -> LinkFault
    ensures { result ≡ record { cause = FileTooLong; name = None; spot = no_spot } }
{
    LinkFault {
        cause: LinkCause::FileTooLong,
        name: None,
        spot: Spot {
            file: 0,
            segment: 0,
            at: 0,
        },
    }
}

ghost use Rattle.std.specs.Prelude.{None};
ghost use Rattle.link_meaning.specs.declared.fault.LinkCause.TheVariants.{FileTooLong};
ghost use Rattle.link_meaning.specs.LinkFaults.{no_spot};

/// The load file of a program: the values of its equates and records, the calls through the jump table, the bytes. Otherwise the
/// first fault, with its place.
pub fn emit(alloc: Global, program: &Program) -> Result<Vec<u8>, LinkFault>
    ensures written { IfOk result (λ output. IsEmitAnswer program.now (Ok output.items)) }
    ensures refused { IfErr result (λ fault. IsEmitRefused program.now fault) }
{
    program.know_files();
    let slots = values_of(alloc, program)?;
    let headers = program.load_headers();
    let loads = match loads_of(alloc, headers) {
        Ok(loads) => loads,
        Err(_) => {
            drop(slots);
            return Err(memory_fault());
        }
    };
    let context = WalkContext {
        link: LinkContext {
            program,
            loads: loads.as_slice(),
            table: headers.len() as u16 + 1,
        },
        slots: slots.as_slice(),
    };
    let mut table = Table::new(alloc);
    let contents = match fill(alloc, &context, &mut table) {
        Ok(contents) => contents,
        Err(fault) => {
            drop(table);
            drop(loads);
            drop(slots);
            return Err(fault);
        }
    };
    let exports = match exports_text(alloc, &context) {
        Ok(exports) => exports,
        Err(_) => {
            drop(contents);
            drop(table);
            drop(loads);
            drop(slots);
            return Err(memory_fault());
        }
    };
    let images = LoadImages {
        headers,
        contents: contents.as_slice(),
        exports: exports.as_slice(),
    };
    match write_linked(alloc, images, &table, program) {
        Ok(output) => Ok(output),
        Err(ImageFault::TooLong) => Err(too_long()),
        Err(ImageFault::Memory) => Err(memory_fault()),
    }
}

/// The places that the records of a program call through the jump table, in order of first call, where its names have these values.
/// Otherwise the first fault of a record.
pub fn calls_of<'e>(
    alloc: Global,
    program: &'e Program,
    slots: &'e [ValueSlot],
) -> Result<Table, LinkFault>
    requires { AreValues program.now slots.now }
    ensures made { IfOk result (λ table. table ≡ targets program.now (rows_of (all_found program.now) slots.now)) }
    ensures refused { IfErr result (λ fault. IsEmitRefused program.now fault) }
{
    program.know_files();
    let headers = program.load_headers();
    let loads = match loads_of(alloc, headers) {
        Ok(loads) => loads,
        Err(_) => return Err(memory_fault()),
    };
    let context = WalkContext {
        link: LinkContext {
            program,
            loads: loads.as_slice(),
            table: headers.len() as u16 + 1,
        },
        slots,
    };
    let mut table = Table::new(alloc);
    match fill(alloc, &context, &mut table) {
        Ok(contents) => {
            drop(contents);
            Ok(table)
        }
        Err(fault) => {
            drop(table);
            Err(fault)
        }
    }
}
