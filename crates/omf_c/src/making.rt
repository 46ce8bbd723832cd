//! Listings, objects, load files, libraries, maps and sources, made of what the caller has.

ghost use Rattle.std.specs.Prelude.{ℕ, List, []};
ghost use Rattle.link_meaning.specs.declared.form.LinkForm.TheVariants as forms;
ghost use Rattle.link_meaning.specs.LinkFaults.{plain};
ghost use Rattle.omf_c_making.specs.Making.{contents, link_given, library_given, Dumps, Assembles, Links, MakesLibrary, Expands, Maps, Lists, Compacts};
ghost use Rattle.omf_c_files.specs.Handed.{CallOutcome, IsHanded};

use link_meaning::LinkForm;
use omf_c_files::{OmfFault, hand};
use omf_c_making::{
    OmfBytes, OmfFile, assemble_to_answer, compact_to_answer, dump_to_answer, expand_to_answer,
    library_to_answer, link_to_answer, list_to_answer, map_to_answer,
};
use std::alloc::Global;

/// Lists the segments and records of a file, as `dump` prints them. Status MISUSED: the file has more than 4,294,967,295 bytes.
#[unsafe(no_mangle)]
pub extern "C" fn omf_dump(
    alloc: Global,
    file: &[u8],
    room: &mut [u8],
    size: &mut usize,
    fault: &mut OmfFault,
) -> u32
    ensures { (outcome : CallOutcome (List ℕ)) × Dumps file.now outcome
        × IsHanded outcome result (record { items = room.old; size = size.old }) (record { items = room.new; size = size.new }) fault.old fault.new }
{
    hand(dump_to_answer(alloc, file), room, size, fault)
}

/// Assembles a source with macro files into an object. No call is misused.
#[unsafe(no_mangle)]
pub extern "C" fn omf_assemble(
    alloc: Global,
    source: &[u8],
    macros: &[OmfBytes<'_>],
    room: &mut [u8],
    size: &mut usize,
    fault: &mut OmfFault,
) -> u32
    ensures { (outcome : CallOutcome (List ℕ)) × Assembles source.now (contents macros.now) outcome
        × IsHanded outcome result (record { items = room.old; size = size.old }) (record { items = room.new; size = size.new }) fault.old fault.new }
{
    hand(assemble_to_answer(alloc, source, macros), room, size, fault)
}

/// together.
#[unsafe(no_mangle)]
pub extern "C" fn omf_link(
    alloc: Global,
    inputs: &[OmfBytes<'_>],
    room: &mut [u8],
    size: &mut usize,
    fault: &mut OmfFault,
) -> u32
    ensures { (outcome : CallOutcome (List ℕ)) × Links (plain (contents inputs.now)) outcome
        × IsHanded outcome result (record { items = room.old; size = size.old }) (record { items = room.new; size = size.new }) fault.old fault.new }
{
    hand(
        link_to_answer(alloc, inputs, &[], LinkForm::Program),
        room,
        size,
        fault,
    )
}

/// Links objects and libraries into a run-time library file. Status MISUSED: as of `omf_link`.
#[unsafe(no_mangle)]
pub extern "C" fn omf_link_runtime(
    alloc: Global,
    inputs: &[OmfBytes<'_>],
    room: &mut [u8],
    size: &mut usize,
    fault: &mut OmfFault,
) -> u32
    ensures { (outcome : CallOutcome (List ℕ)) × Links (record { inputs = contents inputs.now; runtimes = []; form = forms.Runtime }) outcome
        × IsHanded outcome result (record { items = room.old; size = size.old }) (record { items = room.new; size = size.new }) fault.old fault.new }
{
    hand(
        link_to_answer(alloc, inputs, &[], LinkForm::Runtime),
        room,
        size,
        fault,
    )
}

/// have more bytes.
#[unsafe(no_mangle)]
pub extern "C" fn omf_link_with(
    alloc: Global,
    inputs: &[OmfBytes<'_>],
    runtimes: &[OmfFile<'_>],
    room: &mut [u8],
    size: &mut usize,
    fault: &mut OmfFault,
) -> u32
    ensures { (outcome : CallOutcome (List ℕ)) × Links (link_given forms.Program (contents inputs.now) runtimes.now) outcome
        × IsHanded outcome result (record { items = room.old; size = size.old }) (record { items = room.new; size = size.new }) fault.old fault.new }
{
    hand(
        link_to_answer(alloc, inputs, runtimes, LinkForm::Program),
        room,
        size,
        fault,
    )
}

/// more than 4,294,967,295.
#[unsafe(no_mangle)]
pub extern "C" fn omf_library(
    alloc: Global,
    files: &[OmfFile<'_>],
    room: &mut [u8],
    size: &mut usize,
    fault: &mut OmfFault,
) -> u32
    ensures { (outcome : CallOutcome (List ℕ)) × MakesLibrary (library_given files.now) outcome
        × IsHanded outcome result (record { items = room.old; size = size.old }) (record { items = room.new; size = size.new }) fault.old fault.new }
{
    hand(library_to_answer(alloc, files), room, size, fault)
}

/// Writes the map of a program of objects and libraries, in any order. Status MISUSED: as of `omf_link`.
#[unsafe(no_mangle)]
pub extern "C" fn omf_map(
    alloc: Global,
    inputs: &[OmfBytes<'_>],
    room: &mut [u8],
    size: &mut usize,
    fault: &mut OmfFault,
) -> u32
    ensures { (outcome : CallOutcome (List ℕ)) × Maps (plain (contents inputs.now)) outcome
        × IsHanded outcome result (record { items = room.old; size = size.old }) (record { items = room.new; size = size.new }) fault.old fault.new }
{
    hand(
        map_to_answer(alloc, inputs, &[], LinkForm::Program),
        room,
        size,
        fault,
    )
}

/// Writes the map of a run-time library file of objects and libraries. Status MISUSED: as of `omf_link`.
#[unsafe(no_mangle)]
pub extern "C" fn omf_map_runtime(
    alloc: Global,
    inputs: &[OmfBytes<'_>],
    room: &mut [u8],
    size: &mut usize,
    fault: &mut OmfFault,
) -> u32
    ensures { (outcome : CallOutcome (List ℕ)) × Maps (record { inputs = contents inputs.now; runtimes = []; form = forms.Runtime }) outcome
        × IsHanded outcome result (record { items = room.old; size = size.old }) (record { items = room.new; size = size.new }) fault.old fault.new }
{
    hand(
        map_to_answer(alloc, inputs, &[], LinkForm::Runtime),
        room,
        size,
        fault,
    )
}

/// Writes the map of a program that calls run-time library files, each named by the path by which it is known. Status MISUSED: as of
/// `omf_link_with`.
#[unsafe(no_mangle)]
pub extern "C" fn omf_map_with(
    alloc: Global,
    inputs: &[OmfBytes<'_>],
    runtimes: &[OmfFile<'_>],
    room: &mut [u8],
    size: &mut usize,
    fault: &mut OmfFault,
) -> u32
    ensures { (outcome : CallOutcome (List ℕ)) × Maps (link_given forms.Program (contents inputs.now) runtimes.now) outcome
        × IsHanded outcome result (record { items = room.old; size = size.old }) (record { items = room.new; size = size.new }) fault.old fault.new }
{
    hand(
        map_to_answer(alloc, inputs, runtimes, LinkForm::Program),
        room,
        size,
        fault,
    )
}

/// Writes the lines of a source after expansion with macro files. No call is misused.
#[unsafe(no_mangle)]
pub extern "C" fn omf_expand(
    alloc: Global,
    source: &[u8],
    macros: &[OmfBytes<'_>],
    room: &mut [u8],
    size: &mut usize,
    fault: &mut OmfFault,
) -> u32
    ensures { (outcome : CallOutcome (List ℕ)) × Expands source.now (contents macros.now) outcome
        × IsHanded outcome result (record { items = room.old; size = size.old }) (record { items = room.new; size = size.new }) fault.old fault.new }
{
    hand(expand_to_answer(alloc, source, macros), room, size, fault)
}

/// Writes the source from which an object with the same content is assembled. Status MISUSED: the file has more than 4,294,967,295 bytes.
#[unsafe(no_mangle)]
pub extern "C" fn omf_list(
    alloc: Global,
    file: &[u8],
    room: &mut [u8],
    size: &mut usize,
    fault: &mut OmfFault,
) -> u32
    ensures { (outcome : CallOutcome (List ℕ)) × Lists file.now outcome
        × IsHanded outcome result (record { items = room.old; size = size.old }) (record { items = room.new; size = size.new }) fault.old fault.new }
{
    hand(list_to_answer(alloc, file), room, size, fault)
}

/// Writes the one fixed form of a load file, in which load files that hold the same are the same bytes. Status MISUSED: the file has more
/// than 4,294,967,295 bytes.
#[unsafe(no_mangle)]
pub extern "C" fn omf_compact(
    alloc: Global,
    file: &[u8],
    room: &mut [u8],
    size: &mut usize,
    fault: &mut OmfFault,
) -> u32
    ensures { (outcome : CallOutcome (List ℕ)) × Compacts file.now outcome
        × IsHanded outcome result (record { items = room.old; size = size.old }) (record { items = room.new; size = size.new }) fault.old fault.new }
{
    hand(compact_to_answer(alloc, file), room, size, fault)
}
