//! Resolving: from files to the linked list with its load segments, or the first fault.

ghost use Rattle.std.specs.Prelude.{◌≡◌, false, ◌+◌, ◌-◌, ◌<◌, ◌≤◌, ◌^◌, ◌++◌, ◌∷◌, [], List, ℕ, None, Some, slice_get, length, IfSome, IfOk, IfErr, OnOk, OnErr};
ghost use Rattle.std.specs.Bool.{OnTrue};
ghost use Rattle.link_meaning.specs.declared.form.LinkForm.TheVariants.{Program as ProgramForm};
ghost use Rattle.link_meaning.specs.declared.fault.LinkCause.TheVariants.{Empty};
ghost use Rattle.link_meaning.specs.First.{HasNone};
ghost use Rattle.link_meaning.specs.Member as meaning;
ghost use Rattle.link_meaning.specs.Member.{LinkSetting};
ghost use Rattle.link_meaning.specs.LinkedList.{all_uses};
ghost use Rattle.link_meaning.specs.LinkFaults.{LinkInput, HasBytes, MayHave, no_spot, plain, HasUseFault, IsResolved};
ghost use Rattle.link_program.specs.Linked.{Holds};
ghost use Rattle.link_program.specs.Files.{AllAmong};
ghost use Rattle.link_tables.specs.Laid.{Laid};
ghost use Rattle.link_program.specs.Outside.{IsTable, IsOutsideOf};
ghost use Rattle.link_program.specs.Resolving.{IsHeld};
ghost use Rattle.link_resolve.specs.Resolved.{all_bytes, given_of, HavePaths, total_size, AreFew, FewGiven, HasGathered, IsReadAll, IsListOf, IsLaidOut, IsInputFault, IsUseFault, IsRefused};

use crate::bytes::{know_bytes, know_members};
use crate::gather::Gathered;
use crate::runtimes::{Runtimes, read_runtimes};
use lib_dict::Member;
use link_meaning::{LinkCause, LinkFault, LinkForm};
use link_program::{
    LinkLayout, Linked, OutsideNames, Program, ResolvedProgram, grow, headers, memory_fault,
    segment_in,
};
use omf_base::{Name, NameFault, Spot};
use omf_records::SegmentList;
use std::alloc::{AllocError, Global};

/// What was read of all files, and what is to be linked with what.
#[derive(Drop)]
struct InputsRead<'a> {
    gathered: Gathered<'a>,
    runtimes: Runtimes<'a>,
    given: &'a [Member],
    form: LinkForm,
}

/// The whole list, with the segments of all files.
#[derive(Drop)]
struct Grown<'a> {
    files: Vec<SegmentList<'a>>,
    linked: Linked<'a>,
    runtimes: Runtimes<'a>,
    given: &'a [Member],
    form: LinkForm,
}

/// Reads all inputs.
fn read_inputs<'a>(alloc: Global, inputs: &'a Vec<Vec<u8>>) -> Result<Gathered<'a>, LinkFault>
    requires { AreFew (all_bytes inputs.now.items) }
    ensures read { IfOk result (λ gathered. HasGathered (all_bytes inputs.now.items) gathered) }
    ensures refused { IfErr result (λ fault. IsInputFault (all_bytes inputs.now.items) fault) }
{
    let mut gathered = Gathered::new(alloc);
    'files: for bytes in inputs {
        match gathered.add(alloc, bytes.as_slice()) {
            Ok(()) => {}
            Err(fault) => {
                drop(gathered);
                return Err(fault);
            }
        }
    }
    Ok(gathered)
}

/// The object files hold no segment.
fn empty_fault() -> LinkFault
    ensures { result ≡ record { cause = Empty; name = None; spot = no_spot } }
{
    LinkFault {
        cause: LinkCause::Empty,
        name: None,
        spot: Spot {
            file: 0,
            segment: 0,
            at: 0,
        },
    }
}

/// Reads all files: the inputs, of which some are object files, and the run-time library files after them.
fn read_all<'a>(
    alloc: Global,
    inputs: &'a Vec<Vec<u8>>,
    given: &'a [Member],
    form: LinkForm,
) -> Result<InputsRead<'a>, LinkFault>
    requires few { FewGiven (given_of inputs.now.items given.now form) }
    requires paths { HavePaths (given_of inputs.now.items given.now form) }
    ensures read { IfOk result (λ read. IsReadAll (given_of inputs.now.items given.now form) read) }
    ensures refused { IfErr result (λ fault. IsRefused (given_of inputs.now.items given.now form) fault) }
{
    let gathered = read_inputs(alloc, inputs)?;
    let runtimes = match read_runtimes(alloc, given, inputs.len() as u32) {
        Ok(runtimes) => runtimes,
        Err(fault) => {
            drop(gathered);
            return Err(fault);
        }
    };
    if gathered.linked.count() == 0 {
        drop(gathered);
        drop(runtimes);
        return Err(empty_fault());
    }
    Ok(InputsRead {
        gathered,
        runtimes,
        given,
        form,
    })
}

/// Grows the list of what was gathered until no use wants a member. The rows are freed after that.
fn grow_whole<'a>(alloc: Global, read: InputsRead<'a>) -> Result<Grown<'a>, AllocError>
    requires { (given : LinkInput) × FewGiven given × IsReadAll given read }
    ensures { IfOk result (λ grown. (given : LinkInput) → FewGiven given → IsReadAll given read.entry → IsListOf given grown) }
{
    let InputsRead {
        gathered,
        runtimes,
        given,
        form,
    } = read;
    let Gathered {
        files,
        mut linked,
        offers,
    } = gathered;
    let grown = grow(
        alloc,
        files.as_slice(),
        &runtimes.outside,
        &offers,
        &mut linked,
    );
    drop(offers);
    match grown {
        Ok(()) => Ok(Grown {
            files,
            linked,
            runtimes,
            given,
            form,
        }),
        Err(error) => {
            drop(files);
            drop(linked);
            drop(runtimes);
            Err(error)
        }
    }
}

/// The first use that doesn't resolve, as a fault; Ok where each does.
fn check_names(alloc: Global, linked: &Linked, outside: &OutsideNames) -> Result<(), LinkFault>
    requires { (list : List meaning.Member) × Holds list linked.now × IsOutsideOf list outside.now }
    ensures fine { OnOk result ((list : List meaning.Member) → Holds list linked.now → IsOutsideOf list outside.now → HasNone (HasUseFault list) (all_uses list)) }
    ensures refused { IfErr result (λ fault. (list : List meaning.Member) → Holds list linked.now → IsOutsideOf list outside.now → IsUseFault list fault) }
{
    let (cause, number) = match linked.first_unresolved_use(outside) {
        None => return Ok(()),
        Some(found) => found,
    };
    let (origin, name, at) = linked.use_numbered(number);
    let name = match Name::of(alloc, name) {
        Ok(name) => name,
        Err(NameFault::TooLong) => unreachable!(),
        Err(NameFault::Memory) => return Err(memory_fault()),
    };
    Err(LinkFault {
        cause,
        name: Some(name),
        spot: Spot {
            file: origin.file,
            segment: origin.segment,
            at,
        },
    })
}

/// The load segments of the whole list.
fn lay_out<'a>(
    alloc: Global,
    files: &[SegmentList<'a>],
    linked: &Linked,
) -> Result<LinkLayout<'a>, AllocError>
    requires held { (list : List meaning.Member) × Holds list linked.now × AllAmong files.now list }
    requires few { length linked.now.members.items < 2 ^ 32 }
    ensures { IfOk result (λ layout. (list : List meaning.Member) → Holds list linked.now → AllAmong files.now list → Laid list layout) }
{
    let mut layout = LinkLayout::new(alloc);
    let mut place = 0;
    'members: while place < linked.count() {
        place += 1;
        let origin = match linked.origin(place) {
            Some(origin) => origin,
            None => unreachable!(),
        };
        let segment = match segment_in(files, origin.file, origin.segment) {
            Some(segment) => segment,
            None => unreachable!(),
        };
        layout.add(segment, origin)?;
    }
    Ok(layout)
}

/// The load segments of the whole list, where neither its names nor they have a fault.
fn lay_out_sound<'a>(alloc: Global, grown: &Grown<'a>) -> Result<LinkLayout<'a>, LinkFault>
    requires { (given : LinkInput) × IsListOf given grown.now }
    ensures laid { IfOk result (λ layout. (given : LinkInput) (of : IsListOf given grown.now) → IsLaidOut given of.grown.list layout) }
    ensures refused { IfErr result (λ fault. (given : LinkInput) → IsListOf given grown.now → IsRefused given fault) }
{
    check_names(alloc, &grown.linked, &grown.runtimes.outside)?;
    let layout = match lay_out(alloc, grown.files.as_slice(), &grown.linked) {
        Ok(layout) => layout,
        Err(_) => return Err(memory_fault()),
    };
    match layout.fault(grown.form) {
        Some(fault) => Err(fault),
        None => Ok(layout),
    }
}

/// The program of a whole list whose names and load segments have no fault.
fn finish<'a>(alloc: Global, grown: Grown<'a>) -> Result<Program<'a>, LinkFault>
    requires { (given : LinkInput) × HasBytes given × IsListOf given grown }
    ensures resolved { (given : LinkInput) → HasBytes given → IsListOf given grown.entry → IfOk result (λ program. IsResolved given program) }
    ensures refused { (given : LinkInput) → IsListOf given grown.entry → IfErr result (λ fault. IsRefused given fault) }
{
    let layout = match lay_out_sound(alloc, &grown) {
        Ok(layout) => layout,
        Err(fault) => {
            drop(grown);
            return Err(fault);
        }
    };
    let headers = match headers(alloc, &layout) {
        Ok(headers) => headers,
        Err(_) => {
            drop(grown);
            drop(layout);
            return Err(memory_fault());
        }
    };
    let Grown {
        files,
        linked,
        runtimes,
        given,
        form,
    } = grown;
    let Runtimes { loads, outside } = runtimes;
    Ok(Program::of(ResolvedProgram {
        files,
        linked,
        places: layout.places,
        headers,
        form,
        given,
        runtimes: loads,
        outside,
    }))
}

/// The program of inputs and run-time library files whose names and load segments have no fault.
fn resolve_all<'a>(
    alloc: Global,
    inputs: &'a Vec<Vec<u8>>,
    given: &'a [Member],
    form: LinkForm,
) -> Result<Program<'a>, LinkFault>
    requires few { FewGiven (given_of inputs.now.items given.now form) }
    requires paths { HavePaths (given_of inputs.now.items given.now form) }
    ensures resolved { IfOk result (λ program. IsResolved (given_of inputs.now.items given.now form) program) }
    ensures refused { IfErr result (λ fault. IsRefused (given_of inputs.now.items given.now form) fault) }
{
    know_bytes(inputs);
    know_members(given);
    let read = read_all(alloc, inputs, given, form)?;
    match grow_whole(alloc, read) {
        Ok(grown) => finish(alloc, grown),
        Err(_) => Err(memory_fault()),
    }
}

/// The program of files whose names and load segments have no fault, without run-time library files.
pub fn resolve<'a>(alloc: Global, inputs: &'a Vec<Vec<u8>>) -> Result<Program<'a>, LinkFault>
    requires { AreFew (all_bytes inputs.now.items) }
    ensures resolved { IfOk result (λ program. IsResolved (plain (all_bytes inputs.now.items)) program) }
    ensures refused { IfErr result (λ fault. IsRefused (plain (all_bytes inputs.now.items)) fault) }
{
    resolve_all(alloc, inputs, &[], LinkForm::Program)
}

/// The program of files whose names and load segments have no fault. A program is linked with run-time library files, each with the path by
/// which it is known; a run-time library file is linked with none.
pub fn resolve_with<'a>(
    alloc: Global,
    inputs: &'a Vec<Vec<u8>>,
    runtimes: &'a Vec<Member>,
    form: LinkForm,
) -> Result<Program<'a>, LinkFault>
    requires few { FewGiven (given_of inputs.now.items runtimes.now.items form) }
    requires paths { HavePaths (given_of inputs.now.items runtimes.now.items form) }
    ensures resolved { IfOk result (λ program. IsResolved (given_of inputs.now.items runtimes.now.items form) program) }
    ensures refused { IfErr result (λ fault. IsRefused (given_of inputs.now.items runtimes.now.items form) fault) }
{
    resolve_all(alloc, inputs, runtimes.as_slice(), form)
}
