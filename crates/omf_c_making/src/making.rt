//! Listings, objects, load files, libraries, maps and sources, made of what the caller has.

ghost use Rattle.std.specs.Prelude.{◌≡◌};
ghost use Rattle.omf_c_making.specs.Making.{contents, link_given, library_given, Dumps, Assembles, Links, MakesLibrary, Expands, Maps, Lists, Compacts};
ghost use Rattle.omf_c_files.specs.Handed.{outcome_of, reported_outcome};

use crate::fault::{
    asm_fault, compact_fault, file_fault, lib_fault, link_fault, list_fault, macro_fault,
};
use crate::file::{OmfBytes, OmfFile, are_short, copies, have_names, members};
use dump_lines::dump_file;
use expand_lines::expand_text;
use lib_dict::{LibFault, make_library};
use link_emit::link_with;
use link_map::map_files;
use link_meaning::{LinkFault, LinkForm};
use link_resolve::may_resolve;
use omf_c_files::{Answer, OmfFault};
use omf_compact::canonical;
use orca_asm::assemble;
use std::alloc::Global;
use w65_list::list_source;

/// The answer that reports a fault; no fault means out of memory.
fn answer_of_fault(fault: Option<OmfFault>) -> Answer
    ensures { outcome_of result ≡ reported_outcome fault }
{
    match fault {
        Some(reported) => Answer::Refused(reported),
        None => Answer::Memory,
    }
}

/// The listing of a file.
pub fn dump_to_answer(alloc: Global, file: &[u8]) -> Answer
    ensures { Dumps file.now (outcome_of result) }
{
    if file.len() > 0xFFFF_FFFF {
        return Answer::Misused;
    }
    match dump_file(alloc, file) {
        Ok(text) => Answer::Made(text.into_bytes()),
        Err(fault) => answer_of_fault(file_fault(fault)),
    }
}

/// The object of a source with macro files.
pub fn assemble_to_answer(alloc: Global, source: &[u8], macros: &[OmfBytes<'_>]) -> Answer
    ensures { Assembles source.now (contents macros.now) (outcome_of result) }
{
    let Ok(macros) = copies(alloc, macros) else {
        return Answer::Memory;
    };
    match assemble(alloc, source, &macros) {
        Ok(object) => Answer::Made(object),
        Err(fault) => answer_of_fault(asm_fault(fault)),
    }
}

/// The load file of objects and libraries in a form, linked with run-time library files.
pub fn link_to_answer(
    alloc: Global,
    inputs: &[OmfBytes<'_>],
    runtimes: &[OmfFile<'_>],
    form: LinkForm,
) -> Answer
    ensures { Links (link_given form (contents inputs.now) runtimes.now) (outcome_of result) }
{
    if !have_names(runtimes) {
        return Answer::Misused;
    }
    let Ok(inputs) = copies(alloc, inputs) else {
        return Answer::Memory;
    };
    let Ok(runtimes) = members(alloc, runtimes) else {
        return Answer::Memory;
    };
    if !may_resolve(&inputs, &runtimes, form) {
        return Answer::Misused;
    }
    match link_with(alloc, &inputs, &runtimes, form) {
        Ok(output) => Answer::Made(output),
        Err(fault) => answer_of_fault(link_fault(&fault)),
    }
}

/// Links objects and libraries, in any order, into a program. Status MISUSED: they are more than 4,294,967,295 files, or have more bytes
/// Links objects and libraries into a program that calls run-time library files, each named by the path by which it is known. Status
/// MISUSED: these are more than 16, or a path isn't 1 to 255 bytes from $21 to $7E; or all files together are more than 4,294,967,295, or
/// The library of files under their names.
pub fn library_to_answer(alloc: Global, files: &[OmfFile<'_>]) -> Answer
    ensures { MakesLibrary (library_given files.now) (outcome_of result) }
{
    if files.len() > 0xFFFF || !have_names(files) || !are_short(files) {
        return Answer::Misused;
    }
    let Ok(members) = members(alloc, files) else {
        return Answer::Memory;
    };
    match make_library(alloc, &members) {
        Ok(library) => Answer::Made(library),
        Err(fault) => answer_of_fault(lib_fault(fault)),
    }
}

/// Makes a library of object files under their names. Status MISUSED: they are more than 65,535, a name has more than 255 bytes, or a file

/// The lines of a source after expansion with macro files.
pub fn expand_to_answer(alloc: Global, source: &[u8], macros: &[OmfBytes<'_>]) -> Answer
    ensures { Expands source.now (contents macros.now) (outcome_of result) }
{
    let Ok(macros) = copies(alloc, macros) else {
        return Answer::Memory;
    };
    match expand_text(alloc, source, &macros) {
        Ok(text) => Answer::Made(text.into_bytes()),
        Err(fault) => answer_of_fault(macro_fault(fault)),
    }
}

/// The map of the link of objects and libraries in a form, with run-time library files.
pub fn map_to_answer(
    alloc: Global,
    inputs: &[OmfBytes<'_>],
    runtimes: &[OmfFile<'_>],
    form: LinkForm,
) -> Answer
    ensures { Maps (link_given form (contents inputs.now) runtimes.now) (outcome_of result) }
{
    if !have_names(runtimes) {
        return Answer::Misused;
    }
    let Ok(inputs) = copies(alloc, inputs) else {
        return Answer::Memory;
    };
    let Ok(runtimes) = members(alloc, runtimes) else {
        return Answer::Memory;
    };
    if !may_resolve(&inputs, &runtimes, form) {
        return Answer::Misused;
    }
    match map_files(alloc, &inputs, &runtimes, form) {
        Ok(text) => Answer::Made(text.into_bytes()),
        Err(fault) => answer_of_fault(link_fault(&fault)),
    }
}

/// The source of an object file.
pub fn list_to_answer(alloc: Global, file: &[u8]) -> Answer
    ensures { Lists file.now (outcome_of result) }
{
    if file.len() > 0xFFFF_FFFF {
        return Answer::Misused;
    }
    match list_source(alloc, file) {
        Ok(text) => Answer::Made(text),
        Err(fault) => answer_of_fault(list_fault(fault)),
    }
}

/// The one fixed form of a load file.
pub fn compact_to_answer(alloc: Global, file: &[u8]) -> Answer
    ensures { Compacts file.now (outcome_of result) }
{
    if file.len() > 0xFFFF_FFFF {
        return Answer::Misused;
    }
    match canonical(alloc, file) {
        Ok(bytes) => Answer::Made(bytes),
        Err(fault) => answer_of_fault(compact_fault(fault)),
    }
}
