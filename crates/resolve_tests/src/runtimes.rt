// Run-time library files: what their names give, which faults they have, and what a program reports of them.
use crate::files::File::{Changed, Cut, Whole};
use crate::files::Sample::{
    After, Dynamic, EquateA, LibraryB, One, Runtime, RuntimeParts, RuntimeTwice, Skipped, Two,
    User, Weak,
};
use crate::files::{File, bytes_of, inputs_of};
use lib_dict::Member;
use link_meaning::LinkCause::{
    BadHeader, BadLibrary, BadRecord, BadRuntime, Duplicate, Empty, NotDynamic, OrgConflict,
    SegmentTooLong, Truncated, Unresolved, Unsupported,
};
use link_meaning::LinkForm::{Program as ProgramForm, Runtime as RuntimeForm};
use link_meaning::{LinkCause, LinkFault, LinkForm};
use link_resolve::{Program, may_resolve, resolve_with};
use omf_base::Name;
use std::alloc::Global;
use std::process::Abort;

/// A run-time library file, and its path.
type Given = (&'static [u8], File);

/// What is expected of files that are linked.
enum Fact {
    /// X is found in the first member: the place of the member that has it, its file and its segment in values, and its place there.
    Finds(u32, u16, u16, u32),
    /// X isn't found in the first member.
    FindsNothing,
    /// This number of run-time library files is reported, the last of them by this path and by LENGTH of its first segment.
    Reports(u32, Option<(&'static [u8], u32)>),
    /// There is a fault.
    Refused(LinkCause, u32, u32, u32),
    /// They may not be given.
    Uncallable,
}

/// What is tested, the inputs, the run-time library files, the form, and what is expected of them.
type Row = (
    &'static str,
    &'static [File],
    &'static [Given],
    LinkForm,
    Fact,
);

fn member_of(alloc: Global, path: &[u8], file: &File) -> Option<Member> {
    let name = match Name::of(alloc, path) {
        Ok(name) => name,
        Err(_) => return None,
    };
    match bytes_of(alloc, file) {
        Ok(bytes) => Some(Member { name, bytes }),
        Err(_) => None,
    }
}

fn members_of(alloc: Global, given: &[Given]) -> Option<Vec<Member>> {
    let mut members = Vec::new(alloc);
    for (path, file) in given {
        let member = member_of(alloc, path, file)?;
        match members.push(member) {
            Ok(()) => {}
            Err(_) => return None,
        }
    }
    Some(members)
}

fn is_so(alloc: Global, row: &Row) -> bool {
    let (_, files, given, form, fact) = row;
    match (inputs_of(alloc, files), members_of(alloc, given)) {
        (Ok(inputs), Some(runtimes)) => is_linked(alloc, &inputs, &runtimes, *form, fact),
        _ => false,
    }
}

fn is_linked(
    alloc: Global,
    inputs: &Vec<Vec<u8>>,
    runtimes: &Vec<Member>,
    form: LinkForm,
    fact: &Fact,
) -> bool {
    if !may_resolve(inputs, runtimes, form) {
        return matches!(fact, Fact::Uncallable);
    }
    match resolve_with(alloc, inputs, runtimes, form) {
        Ok(program) => {
            let reported = program.form() == form && is_reported(&program, fact);
            drop(program);
            reported
        }
        Err(fault) => is_refused(&fault, fact),
    }
}

fn is_refused(fault: &LinkFault, fact: &Fact) -> bool {
    let spot = fault.spot;
    match fact {
        Fact::Refused(cause, file, segment, at) => {
            (fault.cause, spot.file, spot.segment, spot.at) == (*cause, *file, *segment, *at)
        }
        _ => false,
    }
}

fn is_reported(program: &Program, fact: &Fact) -> bool {
    match fact {
        Fact::Finds(member, file, segment, at) => {
            finds(program) == Some((*member, *file, *segment, *at))
        }
        Fact::FindsNothing => finds(program).is_none(),
        Fact::Reports(count, last) => reports(program, *count, *last),
        _ => false,
    }
}

fn finds(program: &Program) -> Option<(u32, u16, u16, u32)> {
    let found = program.symbol(1, b"X")?;
    Some((found.member, found.file, found.segment, found.at))
}

/// `count` run-time library files are reported, and none past them.
fn reports(program: &Program, count: u32, last: Option<(&[u8], u32)>) -> bool {
    if program.runtimes() != count
        || program.runtime(count).is_some()
        || program.runtime_path(count).is_some()
    {
        return false;
    }
    match last {
        Some((path, length)) => count > 0 && is_runtime(program, count - 1, path, length),
        None => count == 0,
    }
}

/// The run-time library file at a place has this path, and its first segment this LENGTH.
fn is_runtime(program: &Program, place: u32, path: &[u8], length: u32) -> bool {
    match (program.runtime(place), program.runtime_path(place)) {
        (Some(load), Some(name)) => {
            name.bytes() == path && load.header(1).is_some_and(|header| header.length == length)
        }
        _ => false,
    }
}

/// A dynamic segment of 3 bytes whose KIND has been changed: it is static, or skipped.
const STATIC: &[(usize, u8)] = &[(0x15, 0)];

const SKIP: &[(usize, u8)] = &[(0x15, 0x82)];

static NAMES: [Row; 18] = [
    (
        "X of a run-time library file",
        &[Whole(User)],
        &[(b"lib", Whole(Runtime))],
        ProgramForm,
        Fact::Finds(0, 2, 1, 1),
    ),
    (
        "X of the second one, which names it in its second segment",
        &[Whole(User)],
        &[
            (b"a", Changed(Runtime, &[(0x48, 0x57)])),
            (b"b", Whole(RuntimeParts)),
        ],
        ProgramForm,
        Fact::Finds(0, 3, 1, 1),
    ),
    (
        "X of two",
        &[Whole(User)],
        &[(b"a", Whole(Runtime)), (b"b", Whole(RuntimeParts))],
        ProgramForm,
        Fact::Refused(Duplicate, 1, 1, 0x38),
    ),
    (
        "X of two, unused: the first",
        &[Whole(One)],
        &[(b"a", Whole(Runtime)), (b"b", Whole(RuntimeParts))],
        ProgramForm,
        Fact::Finds(0, 2, 1, 1),
    ),
    (
        "X twice in one",
        &[Whole(User)],
        &[(b"a", Whole(RuntimeTwice))],
        ProgramForm,
        Fact::Refused(Duplicate, 1, 1, 0x38),
    ),
    (
        "X twice in one, weak",
        &[Whole(Weak)],
        &[(b"a", Whole(RuntimeTwice))],
        ProgramForm,
        Fact::Refused(Duplicate, 1, 1, 0x38),
    ),
    (
        "X twice in one, unused",
        &[Whole(One)],
        &[(b"a", Whole(RuntimeTwice))],
        ProgramForm,
        Fact::Finds(0, 2, 1, 0),
    ),
    (
        "a weak X of a run-time library file",
        &[Whole(Weak)],
        &[(b"a", Whole(Runtime))],
        ProgramForm,
        Fact::Finds(0, 2, 1, 1),
    ),
    (
        "a weak X of none",
        &[Whole(Weak)],
        &[(b"a", Changed(Runtime, &[(0x48, 0x57)]))],
        ProgramForm,
        Fact::FindsNothing,
    ),
    (
        "X of none",
        &[Whole(User)],
        &[(b"a", Changed(Runtime, &[(0x48, 0x57)]))],
        ProgramForm,
        Fact::Refused(Unresolved, 1, 1, 0x38),
    ),
    (
        "X of a library too, which isn't asked",
        &[Whole(User), Whole(LibraryB)],
        &[(b"a", Whole(Runtime))],
        ProgramForm,
        Fact::Finds(0, 2, 1, 1),
    ),
    (
        "X of a library too, and of two run-time library files",
        &[Whole(User), Whole(LibraryB)],
        &[(b"a", Whole(Runtime)), (b"a", Whole(Runtime))],
        ProgramForm,
        Fact::Refused(Duplicate, 1, 1, 0x38),
    ),
    (
        "X of a library alone",
        &[Whole(User), Whole(LibraryB)],
        &[(b"a", Changed(Runtime, &[(0x48, 0x57)]))],
        ProgramForm,
        Fact::Finds(2, 1, 1, 0),
    ),
    (
        "a public X before it",
        &[Whole(User), Whole(EquateA)],
        &[(b"a", Whole(Runtime))],
        ProgramForm,
        Fact::Finds(2, 1, 1, 0),
    ),
    (
        "a private X before it",
        &[Changed(EquateA, &[(0x3F, 1)])],
        &[(b"a", Whole(Runtime))],
        ProgramForm,
        Fact::Finds(1, 1, 1, 0),
    ),
    (
        "no run-time library file",
        &[Whole(User), Whole(EquateA)],
        &[],
        ProgramForm,
        Fact::Reports(0, None),
    ),
    (
        "two run-time library files",
        &[Whole(One)],
        &[
            (b"1/first", Whole(Runtime)),
            (b"second", Whole(RuntimeParts)),
        ],
        ProgramForm,
        Fact::Reports(2, Some((b"second", 3))),
    ),
    (
        "a run-time library file is linked",
        &[Whole(Dynamic)],
        &[],
        RuntimeForm,
        Fact::Reports(0, None),
    ),
];

static FAULTS: [Row; 27] = [
    // A run-time library file keeps the name of a fault that every file can have, and has another one for the rest.
    (
        "cut in its header",
        &[Whole(One)],
        &[(b"a", Cut(Runtime, 43))],
        ProgramForm,
        Fact::Refused(Truncated, 2, 1, 0x2B),
    ),
    (
        "names that begin in the header",
        &[Whole(One)],
        &[(b"a", Changed(Runtime, &[(0x28, 0x2B)]))],
        ProgramForm,
        Fact::Refused(BadHeader, 2, 1, 0x28),
    ),
    (
        "numbers of two bytes",
        &[Whole(One)],
        &[(b"a", Changed(Runtime, &[(0x0E, 2)]))],
        ProgramForm,
        Fact::Refused(Unsupported, 2, 1, 0x0E),
    ),
    (
        "an empty name",
        &[Whole(One)],
        &[(b"a", Changed(Runtime, &[(0x47, 0)]))],
        ProgramForm,
        Fact::Refused(BadRecord, 2, 1, 0x40),
    ),
    (
        "empty",
        &[Whole(One)],
        &[(b"a", Cut(Runtime, 0))],
        ProgramForm,
        Fact::Refused(BadRuntime, 2, 0, 0),
    ),
    (
        "static",
        &[Whole(One)],
        &[(b"a", Changed(Runtime, STATIC))],
        ProgramForm,
        Fact::Refused(BadRuntime, 2, 1, 0),
    ),
    (
        "skipped, where a name is in it",
        &[Whole(One)],
        &[(b"a", Changed(Runtime, SKIP))],
        ProgramForm,
        Fact::Refused(BadRuntime, 2, 1, 0x40),
    ),
    (
        "a name past LENGTH",
        &[Whole(One)],
        &[(b"a", Changed(Runtime, &[(0x43, 3)]))],
        ProgramForm,
        Fact::Refused(BadRuntime, 2, 1, 0x40),
    ),
    (
        "SEGNUM 2 of the first segment",
        &[Whole(One)],
        &[(b"a", Changed(Runtime, &[(0x22, 2)]))],
        ProgramForm,
        Fact::Refused(BadRuntime, 2, 1, 0),
    ),
    (
        "an object file",
        &[Whole(One)],
        &[(b"a", Whole(Runtime)), (b"b", Whole(User))],
        ProgramForm,
        Fact::Refused(BadRuntime, 3, 1, 0x38),
    ),
    // Two at once.
    (
        "BadRuntime before Truncated",
        &[Whole(One)],
        &[(b"a", Changed(Runtime, STATIC)), (b"b", Cut(Runtime, 43))],
        ProgramForm,
        Fact::Refused(BadRuntime, 2, 1, 0),
    ),
    (
        "Truncated before BadRuntime",
        &[Whole(One)],
        &[(b"a", Cut(Runtime, 43)), (b"b", Changed(Runtime, STATIC))],
        ProgramForm,
        Fact::Refused(Truncated, 2, 1, 0x2B),
    ),
    (
        "an input before a run-time library file",
        &[Whole(One), Cut(One, 43)],
        &[(b"a", Changed(Runtime, STATIC))],
        ProgramForm,
        Fact::Refused(Truncated, 2, 1, 0x2B),
    ),
    (
        "a dictionary before a run-time library file",
        &[Whole(User), Changed(LibraryB, &[(0x4F, 0x6B)])],
        &[(b"a", Changed(Runtime, STATIC))],
        ProgramForm,
        Fact::Refused(BadLibrary, 2, 1, 0x47),
    ),
    (
        "a run-time library file before Empty",
        &[Cut(One, 0)],
        &[(b"a", Changed(Runtime, STATIC))],
        ProgramForm,
        Fact::Refused(BadRuntime, 2, 1, 0),
    ),
    (
        "Empty with a run-time library file",
        &[Cut(One, 0)],
        &[(b"a", Whole(Runtime))],
        ProgramForm,
        Fact::Refused(Empty, 0, 0, 0),
    ),
    (
        "a run-time library file before a name",
        &[Whole(User)],
        &[(b"a", Changed(Runtime, STATIC))],
        ProgramForm,
        Fact::Refused(BadRuntime, 2, 1, 0),
    ),
    // Load segments that aren't allowed in a run-time library file.
    (
        "a static load segment",
        &[Whole(One)],
        &[],
        RuntimeForm,
        Fact::Refused(NotDynamic, 1, 1, 0),
    ),
    (
        "a skipped load segment after a dynamic one",
        &[Whole(Skipped)],
        &[],
        RuntimeForm,
        Fact::Refused(NotDynamic, 1, 2, 59),
    ),
    (
        "a static load segment in a program",
        &[Whole(One)],
        &[],
        ProgramForm,
        Fact::FindsNothing,
    ),
    (
        "the first of two static load segments",
        &[Whole(Dynamic), Whole(After), Whole(EquateA)],
        &[],
        RuntimeForm,
        Fact::Refused(Unresolved, 2, 2, 0x77),
    ),
    (
        "too long before NotDynamic",
        &[Changed(Two, LONGER)],
        &[],
        RuntimeForm,
        Fact::Refused(SegmentTooLong, 1, 1, 0),
    ),
    (
        "NotDynamic of the first before too long of the second",
        &[Whole(Skipped), Changed(Two, LONGER)],
        &[],
        RuntimeForm,
        Fact::Refused(SegmentTooLong, 2, 1, 0),
    ),
    (
        "an address before NotDynamic",
        &[Changed(Two, &[(66 + 0x18, 2)])],
        &[],
        RuntimeForm,
        Fact::Refused(OrgConflict, 1, 2, 66),
    ),
    // What may not be given.
    (
        "a path with a space",
        &[Whole(One)],
        &[(b"a b", Whole(Runtime))],
        ProgramForm,
        Fact::Uncallable,
    ),
    (
        "no path",
        &[Whole(One)],
        &[(b"", Whole(Runtime))],
        ProgramForm,
        Fact::Uncallable,
    ),
    (
        "a run-time library file on one",
        &[Whole(Dynamic)],
        &[(b"a", Whole(Runtime))],
        RuntimeForm,
        Fact::Uncallable,
    ),
];

/// Two members of $8000 cells and $8001 in one load segment: LENGTH, and the count of DS.
const LONGER: &[(usize, u8)] = &[
    (8, 0),
    (9, 0x80),
    (0x3D, 0xFD),
    (0x3E, 0x7F),
    (66 + 8, 1),
    (66 + 9, 0x80),
    (66 + 0x3D, 0xFE),
    (66 + 0x3E, 0x7F),
];

fn all_are_so(rt: &impl Abort, alloc: Global, rows: &[Row]) {
    for row in rows {
        assert!(rt; is_so(alloc, row), "{}", row.0);
    }
}

#[test]
fn names_of_runtime_library_files(rt: HostRuntime) {
    all_are_so(&rt, rt.alloc(), &NAMES);
}

#[test]
fn faults_with_runtime_library_files(rt: HostRuntime) {
    all_are_so(&rt, rt.alloc(), &FAULTS);
}

/// `count` run-time library files are linked with an object file, and all are reported; or they may not be given.
fn is_so_with(alloc: Global, count: u32, fact: &Fact) -> bool {
    let mut members = Vec::new(alloc);
    for _ in 0..count {
        match member_of(alloc, b"lib", &Changed(Runtime, &[(0x48, 0x57)])) {
            Some(member) => match members.push(member) {
                Ok(()) => {}
                Err(_) => return false,
            },
            None => return false,
        }
    }
    match inputs_of(alloc, &[Whole(One)]) {
        Ok(inputs) => is_linked(alloc, &inputs, &members, ProgramForm, fact),
        Err(_) => false,
    }
}

#[test]
fn sixteen_runtime_library_files(rt: HostRuntime) {
    let alloc = rt.alloc();
    assert!(rt;
        is_so_with(alloc, 16, &Fact::Reports(16, Some((b"lib", 3)))),
        "16"
    );
    assert!(rt; is_so_with(alloc, 17, &Fact::Uncallable), "17");
}
