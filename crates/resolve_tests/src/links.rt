// Links whose faults no line of a command reports whole: cycles of equates, whose names aren't printed. And the calls that link files in
// one step and in two.
use crate::files::File::{Equates, Whole};
use crate::files::Sample::{Apart, One};
use crate::files::{File, inputs_of};
use link_emit::{emit, link, link_with};
use link_meaning::LinkCause::{Circular, NotRelocatable};
use link_meaning::{LinkCause, LinkFault, LinkForm};
use link_resolve::{are_few, may_resolve, resolve_with};
use std::alloc::Global;

/// The fault of a link: its cause, the name that it reports or none where that is empty, and its displacement in the first segment.
type Reported = (LinkCause, &'static [u8], u32);

/// What is tested, the files, and the fault of their link, if it has one.
type Row = (&'static str, &'static [File], Option<Reported>);

/// Where the equates begin.
const BODY: u32 = 0x37;

/// Each equate has 13 bytes. A weak name that nothing defines ends the chain.
static LINKS: [Row; 5] = [
    (
        "a cycle that the first equate is on",
        &[Equates(10_000, 0)],
        Some((Circular, &[0, 0], BODY)),
    ),
    (
        "a cycle from the second equate on",
        &[Equates(10_000, 1)],
        Some((Circular, &[1, 0], BODY + 13)),
    ),
    (
        "a cycle of the last equate",
        &[Equates(10_000, 9_999)],
        Some((Circular, &[0x0F, 0x27], BODY + 13 * 9_999)),
    ),
    ("a chain of 10000 equates", &[Equates(10_000, 10_000)], None),
    (
        "a distance between load segments",
        &[Whole(Apart)],
        Some((NotRelocatable, b"", 0x38)),
    ),
];

/// Whether a fault reports a name, or none where it is empty.
fn names(fault: &LinkFault, want: &[u8]) -> bool {
    match &fault.name {
        Some(name) => !want.is_empty() && name.bytes() == want,
        None => want.is_empty(),
    }
}

fn is_reported(fault: &LinkFault, want: &Option<Reported>) -> bool {
    let spot = fault.spot;
    match want {
        Some((cause, name, at)) => {
            (fault.cause, spot.file, spot.segment, spot.at) == (*cause, 1, 1, *at)
                && names(fault, name)
        }
        None => false,
    }
}

fn is_linked(alloc: Global, inputs: &Vec<Vec<u8>>, want: &Option<Reported>) -> bool {
    if !are_few(inputs) {
        return false;
    }
    match link(alloc, inputs) {
        Ok(_) => want.is_none(),
        Err(fault) => is_reported(&fault, want),
    }
}

fn is_so(alloc: Global, files: &[File], want: &Option<Reported>) -> bool {
    match inputs_of(alloc, files) {
        Ok(inputs) => is_linked(alloc, &inputs, want),
        Err(_) => false,
    }
}

#[test]
fn cycles_are_found(rt: HostRuntime) {
    let alloc = rt.alloc();
    for (name, files, want) in &LINKS {
        assert!(rt; is_so(alloc, files, want), "{name}");
    }
}

/// The load file of ONE, by hand: RESSPC counts the zeros at its end.
static LINKED: [u8; 64] = [
    0x40, 0, 0, 0, 5, 0, 0, 0, 8, 0, 0, 0, 0, 0, 4, 2, 0, 0, 1, 0, 0, 0, 0, 0, 0, 0, 0, 0, 0, 0, 0,
    0, 0, 0, 1, 0, 0, 0, 0, 0, 0x2C, 0, 0x37, 0, 0x20, 0x20, 0x20, 0x20, 0x20, 0x20, 0x20, 0x20,
    0x20, 0x20, 0, 0xF2, 3, 0, 0, 0, 0xA9, 0x01, 0x60, 0,
];

/// What a link answers in two steps: the program of the files, and its load file.
fn link_in_steps(alloc: Global, inputs: &Vec<Vec<u8>>) -> Option<Result<Vec<u8>, LinkFault>> {
    let none = Vec::new(alloc);
    if !may_resolve(inputs, &none, LinkForm::Program) {
        return None;
    }
    match resolve_with(alloc, inputs, &none, LinkForm::Program) {
        Ok(program) => {
            let emitted = emit(alloc, &program);
            drop(program);
            Some(emitted)
        }
        Err(fault) => Some(Err(fault)),
    }
}

/// What a link without run-time library files answers.
fn link_without(alloc: Global, inputs: &Vec<Vec<u8>>) -> Option<Result<Vec<u8>, LinkFault>> {
    let none = Vec::new(alloc);
    if !may_resolve(inputs, &none, LinkForm::Program) {
        return None;
    }
    Some(link_with(alloc, inputs, &none, LinkForm::Program))
}

/// Whether a link answers the load file of ONE where no fault is expected, and else this fault.
fn is_answer(answer: Option<Result<Vec<u8>, LinkFault>>, want: &Option<Reported>) -> bool {
    match answer {
        Some(Ok(file)) => want.is_none() && file.as_slice() == LINKED.as_slice(),
        Some(Err(fault)) => is_reported(&fault, want),
        None => false,
    }
}

fn agree(alloc: Global, files: &[File], want: &Option<Reported>) -> bool {
    match inputs_of(alloc, files) {
        Ok(inputs) => {
            is_answer(link_in_steps(alloc, &inputs), want)
                && is_answer(link_without(alloc, &inputs), want)
        }
        Err(_) => false,
    }
}

#[test]
fn each_call_links_alike(rt: HostRuntime) {
    let alloc = rt.alloc();
    let apart = Some((NotRelocatable, b"".as_slice(), 0x38));
    assert!(rt; agree(alloc, &[Whole(One)], &None), "a load file");
    assert!(rt;
        agree(alloc, &[Whole(Apart)], &apart),
        "a fault after layout"
    );
    assert!(rt;
        agree(
            alloc,
            &[Equates(10, 0)],
            &Some((Circular, [0, 0].as_slice(), BODY))
        ),
        "a cycle"
    );
}
