// Dictionaries of libraries. What no clause says: that the definitions are those of the field, and that memory is enough.
ghost use Rattle.std.specs.Prelude.{◌<◌, ◌^◌, length, IfOk};

use crate::asserting::same;
use lib_dict::{
    DictFault, Dictionary, LibCause, LibFault, Member, Row, make_library, read_dictionary,
};
use omf_base::{Name, NameFault, Spot};
use omf_format::{FileCause, FileFault};
use std::alloc::{AllocError, Global};
use std::process::Abort;

/// A segment MAIN with a GLOBAL G, a private GEQU Q, a LOCAL and an EQU: put together by hand.
static MAIN: [u8; 102] = [
    0x66, 0, 0, 0, 0, 0, 0, 0, 1, 0, 0, 0, 0, 0, 4, 2, 0, 0, 1, 0, 0, 0, 0, 0, 0, 0, 0, 0, 0, 0, 0,
    0, 0, 0, 1, 0, 0, 0, 0, 0, 0x2C, 0, 0x3B, 0, 0x20, 0x20, 0x20, 0x20, 0x20, 0x20, 0x20, 0x20,
    0x20, 0x20, 4, 0x4D, 0x41, 0x49, 0x4E, 1, 0xEA, 0xE6, 1, 0x47, 1, 0, 0x4E, 0, 0xE7, 1, 0x51, 0,
    0, 0x47, 1, 0x81, 5, 0, 0, 0, 0, 0xEF, 1, 0x4C, 1, 0, 0x4E, 0, 0xF0, 1, 0x45, 0, 0, 0x47, 0,
    0x81, 5, 0, 0, 0, 0, 0,
];

/// A private segment without a name, with a private GLOBAL G.
static OTHER: [u8; 65] = [
    0x41, 0, 0, 0, 0, 0, 0, 0, 1, 0, 0, 0, 0, 0, 4, 2, 0, 0, 1, 0, 0, 0x40, 0, 0, 0, 0, 0, 0, 0, 0,
    0, 0, 0, 0, 1, 0, 0, 0, 0, 0, 0x2C, 0, 0x37, 0, 0x20, 0x20, 0x20, 0x20, 0x20, 0x20, 0x20, 0x20,
    0x20, 0x20, 0, 0xE6, 1, 0x47, 0, 0, 0x4E, 1, 1, 0x60, 0,
];

/// The dictionary of the files `a`, which is MAIN, and `bb`, which is OTHER and MAIN: the file numbers at $41, the rows at $51
/// and the names at $AA.
static DICTIONARY: [u8; 196] = [
    0xC4, 0, 0, 0, 0, 0, 0, 0, 0x73, 0, 0, 0, 0, 0, 4, 2, 0, 0, 0, 0, 8, 0, 0, 0, 0, 0, 0, 0, 0, 0,
    0, 0, 0, 0, 1, 0, 0, 0, 0, 0, 0x2C, 0, 0x41, 0, 0x20, 0x20, 0x20, 0x20, 0x20, 0x20, 0x20, 0x20,
    0x20, 0x20, 0x0A, 0x44, 0x49, 0x43, 0x54, 0x49, 0x4F, 0x4E, 0x41, 0x52, 0x59, 0xF2, 0x0B, 0, 0,
    0, 1, 0, 1, 0x61, 2, 0, 2, 0x62, 0x62, 0, 0, 0xF2, 0x54, 0, 0, 0, 0, 0, 0, 0, 1, 0, 0, 0, 0xC4,
    0, 0, 0, 5, 0, 0, 0, 1, 0, 0, 0, 0xC4, 0, 0, 0, 7, 0, 0, 0, 1, 0, 1, 0, 0xC4, 0, 0, 0, 9, 0, 0,
    0, 2, 0, 1, 0, 0x2A, 1, 0, 0, 0x0B, 0, 0, 0, 2, 0, 0, 0, 0x6B, 1, 0, 0, 0x10, 0, 0, 0, 2, 0, 0,
    0, 0x6B, 1, 0, 0, 0x12, 0, 0, 0, 2, 0, 1, 0, 0x6B, 1, 0, 0, 0xF2, 0x14, 0, 0, 0, 4, 0x4D, 0x41,
    0x49, 0x4E, 1, 0x47, 1, 0x51, 1, 0x47, 4, 0x4D, 0x41, 0x49, 0x4E, 1, 0x47, 1, 0x51, 0,
];

/// An object file of one segment A, of three bytes and five zeros.
static PLAIN: [u8; 66] = [
    0x42, 0, 0, 0, 0, 0, 0, 0, 8, 0, 0, 0, 0, 0, 4, 2, 0, 0, 1, 0, 0, 0, 0, 0, 0, 0, 0, 0, 0, 0, 0,
    0, 0, 0, 1, 0, 0, 0, 0, 0, 0x2C, 0, 0x38, 0, 0x20, 0x20, 0x20, 0x20, 0x20, 0x20, 0x20, 0x20,
    0x20, 0x20, 1, 0x41, 3, 0xA9, 1, 0x60, 0xF1, 5, 0, 0, 0, 0,
];

/// The dictionary of the file `a`, which is that file: its only row lies at $51, and says that A starts at $65.
static ONE_ROW: [u8; 101] = [
    0x65, 0, 0, 0, 0, 0, 0, 0, 0x14, 0, 0, 0, 0, 0, 4, 2, 0, 0, 0, 0, 8, 0, 0, 0, 0, 0, 0, 0, 0, 0,
    0, 0, 0, 0, 1, 0, 0, 0, 0, 0, 0x2C, 0, 0x41, 0, 0x20, 0x20, 0x20, 0x20, 0x20, 0x20, 0x20, 0x20,
    0x20, 0x20, 0x0A, 0x44, 0x49, 0x43, 0x54, 0x49, 0x4F, 0x4E, 0x41, 0x52, 0x59, 0xF2, 6, 0, 0, 0,
    1, 0, 1, 0x61, 0, 0, 0xF2, 0x0C, 0, 0, 0, 0, 0, 0, 0, 1, 0, 0, 0, 0x65, 0, 0, 0, 0xF2, 2, 0, 0,
    0, 1, 0x41, 0,
];

/// The library of those two files.
fn library() -> [u8; 465] {
    let mut bytes = [0; 465];
    bytes[..196].copy_from_slice(&DICTIONARY);
    bytes[196..298].copy_from_slice(&MAIN);
    bytes[298..363].copy_from_slice(&OTHER);
    bytes[363..].copy_from_slice(&MAIN);
    bytes
}

fn put(bytes: &mut [u8], changes: &[(usize, u8)]) {
    for (at, value) in changes {
        if let Some(byte) = bytes.get_mut(*at) {
            *byte = *value;
        }
    }
}

// The calls as the tests make them. They promise nothing, so a test's proof is as short as the test.
fn read(alloc: Global, bytes: &[u8]) -> Result<Dictionary<'_>, DictFault> {
    // No file is as long.
    if bytes.len() > 0x100_0000 {
        return Err(DictFault::Memory);
    }
    read_dictionary(alloc, bytes)
}

fn fault(alloc: Global, bytes: &[u8]) -> Option<DictFault> {
    read(alloc, bytes).err()
}

fn row<'a>(dictionary: &Dictionary<'a>, place: u32) -> Option<Row<'a>> {
    dictionary.row(place)
}

/// The fault of that library from a displacement up to another, with bytes changed at displacements.
fn fault_of(alloc: Global, from: usize, to: usize, changes: &[(usize, u8)]) -> Option<DictFault> {
    let mut bytes = library();
    put(&mut bytes, changes);
    match bytes.get(from..to) {
        Some(part) => fault(alloc, part),
        None => Some(DictFault::Memory),
    }
}

/// The rows of that library: name, file, whether it is private, and where the segment starts; and no row after them.
static ROWS: [Option<Row<'static>>; 8] = [
    Some(Row {
        name: b"MAIN",
        file: 1,
        private: false,
        at: 196,
    }),
    Some(Row {
        name: b"G",
        file: 1,
        private: false,
        at: 196,
    }),
    Some(Row {
        name: b"Q",
        file: 1,
        private: true,
        at: 196,
    }),
    Some(Row {
        name: b"G",
        file: 2,
        private: true,
        at: 298,
    }),
    Some(Row {
        name: b"MAIN",
        file: 2,
        private: false,
        at: 363,
    }),
    Some(Row {
        name: b"G",
        file: 2,
        private: false,
        at: 363,
    }),
    Some(Row {
        name: b"Q",
        file: 2,
        private: true,
        at: 363,
    }),
    None,
];

/// Ends the test where the library has other rows.
fn has_rows(rt: &impl Abort, alloc: Global, bytes: &[u8]) -> Result<u32, DictFault> {
    let dictionary = read(alloc, bytes)?;
    let mut place = 0u32;
    for want in &ROWS {
        same(rt, &place, row(&dictionary, place), *want);
        place = place.wrapping_add(1);
    }
    Ok(dictionary.count())
}

#[test]
fn the_rows_of_a_library(rt: HostRuntime) {
    let bytes = library();
    let count = has_rows(&rt, rt.alloc(), &bytes);
    same(&rt, &"count", count, Ok(7));
}

/// Parts of that library with changes of it, each with the fault.
static FALSE: [(usize, usize, &[(usize, u8)], Option<DictFault>); 28] = [
    (0, 465, &[], None),
    // The first row: no name starts there, no file has the number, MAIN isn't private, no segment starts there, and the
    // dictionary itself does.
    (0, 465, &[(86, 1)], Some(DictFault::BadLibrary(86))),
    (0, 465, &[(90, 3)], Some(DictFault::BadLibrary(86))),
    (0, 465, &[(90, 0)], Some(DictFault::BadLibrary(86))),
    (0, 465, &[(92, 1)], Some(DictFault::BadLibrary(86))),
    (0, 465, &[(93, 1)], Some(DictFault::BadLibrary(86))),
    (0, 465, &[(94, 0xC5)], Some(DictFault::BadLibrary(86))),
    (0, 465, &[(94, 0)], Some(DictFault::BadLibrary(86))),
    // The fourth row: G of the segment without a name is private. Every flag but 0 says so.
    (0, 465, &[(128, 0)], Some(DictFault::BadLibrary(122))),
    (0, 465, &[(128, 2)], None),
    (0, 465, &[(128, 0), (129, 1)], None),
    // Of two false rows the first is reported.
    (
        0,
        465,
        &[(98, 1), (158, 1)],
        Some(DictFault::BadLibrary(98)),
    ),
    // A 0 before the end, a name that runs over, a last record that isn't an LCONST, and a name that runs over there.
    (0, 465, &[(70, 0)], Some(DictFault::BadLibrary(0))),
    (0, 465, &[(72, 0x40)], Some(DictFault::BadLibrary(0))),
    (0, 465, &[(170, 0x18)], Some(DictFault::BadLibrary(0))),
    (0, 465, &[(193, 2)], Some(DictFault::BadLibrary(0))),
    // No 0 after the files, a row of 11 bytes, a fourth LCONST, and one record fewer: the dictionary is to blame.
    (0, 465, &[(79, 3)], Some(DictFault::BadLibrary(0))),
    (
        0,
        465,
        &[(82, 83), (169, 0xF2), (170, 21), (171, 0), (174, 0)],
        Some(DictFault::BadLibrary(0)),
    ),
    (
        0,
        465,
        &[
            (171, 15),
            (190, 0xF2),
            (191, 0),
            (192, 0),
            (193, 0),
            (194, 0),
        ],
        Some(DictFault::BadLibrary(0)),
    ),
    (0, 465, &[(170, 0)], Some(DictFault::BadLibrary(0))),
    // A name that is a LOCAL there, or an EQU, and a name that isn't there: the second row is to blame.
    (0, 465, &[(181, 0x4C)], Some(DictFault::BadLibrary(98))),
    (0, 465, &[(181, 0x45)], Some(DictFault::BadLibrary(98))),
    (0, 465, &[(181, 0x5A)], Some(DictFault::BadLibrary(98))),
    // A segment after the dictionary that is a dictionary too: its first row is to blame.
    (0, 465, &[(383, 8)], Some(DictFault::BadLibrary(134))),
    // LENGTH isn't looked at.
    (0, 465, &[(8, 0)], None),
    // What is no library: MAIN, nothing, and a header that is cut off.
    (196, 298, &[], Some(DictFault::NotLibrary)),
    (0, 0, &[], Some(DictFault::NotLibrary)),
    (
        0,
        43,
        &[],
        Some(DictFault::File(FileFault {
            cause: FileCause::Truncated,
            segment: 1,
            at: 43,
        })),
    ),
];

#[test]
fn each_cause_of_a_false_dictionary(rt: HostRuntime) {
    for (from, to, changes, want) in &FALSE {
        let reported = fault_of(rt.alloc(), *from, *to, changes);
        same(&rt, &(*from, *to, *changes), reported, *want);
    }
}

/// A file with a name.
fn member(alloc: Global, name: &[u8], bytes: &[u8]) -> Result<Member, NameFault>
    requires { length bytes.now < 2 ^ 32 }
    ensures { IfOk result (λ member. length member.bytes.items < 2 ^ 32) }
{
    Ok(Member {
        name: Name::of(alloc, name)?,
        bytes: Vec::from_slice(alloc, bytes)?,
    })
}

/// The library of two files.
fn made(
    alloc: Global,
    first: Member,
    second: Member,
) -> Result<Result<Vec<u8>, LibFault>, AllocError>
    requires first { length first.bytes.items < 2 ^ 32 }
    requires second { length second.bytes.items < 2 ^ 32 }
{
    let mut members = Vec::new(alloc);
    members.push(first)?;
    members.push(second)?;
    Ok(make_library(alloc, &members))
}

/// The library of the files `a` and `bb`, or the fault.
fn outcome(alloc: Global, a: &[u8], bb: &[u8]) -> Result<Result<Vec<u8>, LibFault>, NameFault>
    requires a { length a.now < 2 ^ 32 }
    requires bb { length bb.now < 2 ^ 32 }
{
    let first = member(alloc, b"a", a)?;
    let second = member(alloc, b"bb", bb)?;
    Ok(made(alloc, first, second)?)
}

/// The library of one file.
fn made_of(alloc: Global, first: Member) -> Result<Result<Vec<u8>, LibFault>, AllocError>
    requires { length first.bytes.items < 2 ^ 32 }
{
    let mut members = Vec::new(alloc);
    members.push(first)?;
    Ok(make_library(alloc, &members))
}

/// The library of the file `a` alone, or the fault.
fn alone(alloc: Global, a: &[u8]) -> Result<Result<Vec<u8>, LibFault>, NameFault>
    requires { length a.now < 2 ^ 32 }
{
    let first = member(alloc, b"a", a)?;
    Ok(made_of(alloc, first)?)
}

/// Whether a library is made of these bytes, or the fault that is reported.
fn is_made(
    made: Result<Result<Vec<u8>, LibFault>, NameFault>,
    bytes: &[u8],
) -> Result<bool, Option<LibFault>> {
    match made {
        Ok(Ok(made)) => Ok(made.as_slice() == bytes),
        Ok(Err(fault)) => Err(Some(fault)),
        Err(_) => Err(None),
    }
}

/// The file `bb`, which is OTHER and MAIN.
fn second() -> [u8; 167] {
    let mut bytes = [0; 167];
    bytes[..65].copy_from_slice(&OTHER);
    bytes[65..].copy_from_slice(&MAIN);
    bytes
}

/// The library of the file `a` alone, which is PLAIN.
fn library_of_one() -> [u8; 167] {
    let mut bytes = [0; 167];
    bytes[..101].copy_from_slice(&ONE_ROW);
    bytes[101..].copy_from_slice(&PLAIN);
    bytes
}

#[test]
fn libraries_are_made(rt: HostRuntime) {
    let alloc = rt.alloc();
    let two = outcome(alloc, &MAIN, &second());
    same(&rt, &"two", is_made(two, &library()), Ok(true));
    let cut = LibFault {
        cause: LibCause::Truncated,
        spot: Spot {
            file: 1,
            segment: 1,
            at: 43,
        },
    };
    let reported = outcome(alloc, &MAIN[..43], &MAIN);
    same(&rt, &"cut", is_made(reported, &[]), Err(Some(cut)));

    // A row that is one byte off is false.
    let mut bytes = library_of_one();
    let one = is_made(alone(alloc, &PLAIN), &bytes);
    same(&rt, &"one", one, Ok(true));
    put(&mut bytes, &[(0x59, 0x66)]);
    let off = fault(alloc, &bytes);
    same(&rt, &"one byte off", off, Some(DictFault::BadLibrary(0x51)));
}
