// What no clause says: that the definitions are those of the field, and that memory is enough.
use crate::facts::Fact::{Member, Read, Refused, Size, Value};
use crate::facts::{Row, all_are_so};
use crate::files::File;
use crate::files::File::{Changed, Cut, Loads, Whole};
use crate::files::Sample::{
    After, Apart, Asking, Data, EquateA, EquateB, LibraryB, LibraryC, LibraryD, LibraryP, LibraryY,
    One, Placed, Two, User, Weak,
};
use link_meaning::LinkCause::{
    AlignFault, BadHeader, BadLength, BadLibrary, BadRecord, Duplicate, Empty, OrgConflict,
    SegmentTooLong, TooManySegments, Truncated, Unresolved, Unsupported,
};

/// Where the second of two such segments starts.
const SECOND: usize = 66;

static READING: [Row; 12] = [
    // Each fault has its place.
    ("a segment", &[Whole(One)], Read(1, None)),
    (
        "a header that is cut off",
        &[Cut(One, 43)],
        Read(1, Some((Truncated, 1, 1, 0x2B))),
    ),
    (
        "a jump table",
        &[Changed(One, &[(0x14, 0x02)])],
        Read(1, Some((Unsupported, 1, 1, 0))),
    ),
    (
        "pathnames",
        &[Changed(One, &[(0x14, 0x04)])],
        Read(1, Some((Unsupported, 1, 1, 0))),
    ),
    (
        "LENGTH 9",
        &[Changed(One, &[(0x08, 9)])],
        Read(1, Some((BadLength, 1, 1, 0))),
    ),
    (
        "ALIGN 5 in the place of DS 5",
        &[Changed(One, &[(0x3C, 0xE0)])],
        Read(1, Some((AlignFault, 1, 1, 0x3C))),
    ),
    (
        "names that begin in the header",
        &[Changed(One, &[(0x28, 0x2B)])],
        Read(1, Some((BadHeader, 1, 1, 0x28))),
    ),
    // A dictionary is the first segment, or a fault.
    (
        "a dictionary",
        &[Changed(Two, &[(0x14, 0x08)])],
        Read(7, None),
    ),
    (
        "a later dictionary",
        &[Changed(Two, &[(SECOND + 0x14, 0x08)])],
        Read(7, Some((BadRecord, 7, 2, 66))),
    ),
    // Faults have an order: the type, then the records, then LENGTH.
    (
        "records before LENGTH",
        &[Changed(One, &[(0x3C, 0xE0), (0x08, 9)])],
        Read(1, Some((AlignFault, 1, 1, 0x3C))),
    ),
    (
        "the type before records",
        &[Changed(One, &[(0x3C, 0xE0), (0x08, 9), (0x14, 0x02)])],
        Read(1, Some((Unsupported, 1, 1, 0))),
    ),
    // A header of the second segment is reported before the type of the first.
    (
        "a later header before the type",
        &[Changed(Two, &[(0x14, 0x02), (SECOND + 0x0E, 2)])],
        Read(7, Some((Unsupported, 7, 2, 66 + 0x0E))),
    ),
];

static RESOLVING: [Row; 33] = [
    // Names are found in order.
    (
        "X of an object file, and of libraries",
        &[
            Whole(User),
            Whole(EquateA),
            Whole(LibraryB),
            Whole(LibraryC),
        ],
        Value(Some(1)),
    ),
    (
        "X of the first library",
        &[Whole(User), Whole(LibraryB), Whole(LibraryC)],
        Value(Some(2)),
    ),
    (
        "X of the other library, which is the first",
        &[Whole(User), Whole(LibraryC), Whole(LibraryB)],
        Value(Some(3)),
    ),
    (
        "X of no file",
        &[Whole(User)],
        Refused(Unresolved, 1, 1, 0x38),
    ),
    (
        "X of two object files",
        &[Whole(User), Whole(EquateA), Whole(EquateB)],
        Refused(Duplicate, 1, 1, 0x38),
    ),
    (
        "X of two object files, unused",
        &[Whole(EquateA), Whole(EquateB)],
        Value(Some(1)),
    ),
    (
        "weak X of two object files",
        &[Whole(Weak), Whole(EquateA), Whole(EquateB)],
        Refused(Duplicate, 1, 1, 0x38),
    ),
    (
        "weak X of a library",
        &[Whole(Weak), Whole(LibraryB)],
        Value(None),
    ),
    // Phases have an order.
    (
        "a header that is cut off",
        &[Cut(One, 43)],
        Refused(Truncated, 1, 1, 0x2B),
    ),
    ("no segment", &[Cut(One, 0)], Refused(Empty, 0, 0, 0)),
    (
        "a library alone",
        &[Whole(LibraryB)],
        Refused(Empty, 0, 0, 0),
    ),
    // A later member asks for an address; a name that isn't there is reported first, and a file that isn't read before that.
    (
        "a later member with an address",
        &[Whole(Placed), Whole(Asking)],
        Refused(OrgConflict, 2, 1, 0),
    ),
    (
        "a first member with an address",
        &[Whole(Asking), Whole(Placed)],
        Value(None),
    ),
    (
        "a name before an address",
        &[Whole(Placed), Whole(Asking), Whole(User)],
        Refused(Unresolved, 3, 1, 0x38),
    ),
    (
        "a file that isn't read before a name",
        &[Whole(Placed), Whole(Asking), Whole(User), Cut(One, 43)],
        Refused(Truncated, 4, 1, 0x2B),
    ),
    (
        "a data segment of an object file and of a library",
        &[Whole(Data), Whole(LibraryD)],
        Refused(Duplicate, 1, 1, 0x38),
    ),
    // A resolved program may have no values: `link` refuses it.
    (
        "a distance between load segments",
        &[Whole(Apart)],
        Value(None),
    ),
    // Rows of a library serve their own: the first row's segment starts elsewhere; the second row's file isn't one of the library's.
    (
        "a row whose segment starts elsewhere",
        &[Whole(User), Changed(LibraryB, &[(0x4F, 0x6B)])],
        Refused(BadLibrary, 2, 1, 0x47),
    ),
    (
        "a row of no file of its library",
        &[Whole(User), Changed(LibraryB, &[(0x58, 1)])],
        Refused(BadLibrary, 2, 1, 0x53),
    ),
    (
        "X private to a file of its library",
        &[Whole(User), Changed(LibraryB, &[(0x59, 1), (0xA9, 1)])],
        Refused(Unresolved, 1, 1, 0x38),
    ),
    // Z is private to another file of it.
    (
        "Z private to the file that uses it",
        &[Whole(After), Whole(LibraryY)],
        Value(None),
    ),
    (
        "Z private to another file",
        &[Whole(After), Whole(LibraryP)],
        Refused(Unresolved, 2, 2, 0xCB),
    ),
    // The first of two faults.
    (
        "X before Y",
        &[Whole(User), Whole(After)],
        Refused(Unresolved, 1, 1, 0x38),
    ),
    (
        "Y before X",
        &[Whole(After), Whole(User)],
        Refused(Unresolved, 1, 2, 0x77),
    ),
    (
        "Y of no file before X of two",
        &[Whole(After), Whole(Weak), Whole(EquateA), Whole(EquateB)],
        Refused(Unresolved, 1, 2, 0x77),
    ),
    (
        "X of two files before Y of none",
        &[Whole(Weak), Whole(EquateA), Whole(After), Whole(EquateB)],
        Refused(Duplicate, 1, 1, 0x38),
    ),
    (
        "a header before a record",
        &[Cut(One, 43), Cut(One, 65)],
        Refused(Truncated, 1, 1, 0x2B),
    ),
    (
        "a record before a header",
        &[Cut(One, 65), Cut(One, 43)],
        Refused(Truncated, 1, 1, 0x41),
    ),
    // Two members of $8000 cells each in one load segment: $10000 bytes in a bank are enough, $10001 too many; an address of the second
    // member is reported before.
    (
        "a bank",
        &[Changed(Two, HALVES)],
        Size(1, Some((0x10000, 0))),
    ),
    (
        "a bank and a byte",
        &[Changed(Two, LONGER)],
        Refused(SegmentTooLong, 1, 1, 0),
    ),
    (
        "a bank and a byte, and an address",
        &[Changed(Two, LONGER_PLACED)],
        Refused(OrgConflict, 1, 2, 66),
    ),
    // 254 load segments are enough, and the 255th is one too many.
    ("254 load segments", &[Loads(254)], Size(254, Some((0, 0)))),
    (
        "255 load segments",
        &[Loads(255)],
        Refused(TooManySegments, 1, 255, 254 * 56),
    ),
];

/// Two members of $8000 cells each in one load segment: LENGTH, and the count of DS.
const HALVES: &[(usize, u8)] = &[
    (8, 0),
    (9, 0x80),
    (0x3D, 0xFD),
    (0x3E, 0x7F),
    (SECOND + 8, 0),
    (SECOND + 9, 0x80),
    (SECOND + 0x3D, 0xFD),
    (SECOND + 0x3E, 0x7F),
];

/// The same with a cell more in the second.
const LONGER: &[(usize, u8)] = &[
    (8, 0),
    (9, 0x80),
    (0x3D, 0xFD),
    (0x3E, 0x7F),
    (SECOND + 8, 1),
    (SECOND + 9, 0x80),
    (SECOND + 0x3D, 0xFE),
    (SECOND + 0x3E, 0x7F),
];

/// The same, and the second asks for an address.
const LONGER_PLACED: &[(usize, u8)] = &[
    (8, 0),
    (9, 0x80),
    (0x3D, 0xFD),
    (0x3E, 0x7F),
    (SECOND + 8, 1),
    (SECOND + 9, 0x80),
    (SECOND + 0x3D, 0xFE),
    (SECOND + 0x3E, 0x7F),
    (SECOND + 0x18, 2),
];

const PLACES: &[File] = &[
    Whole(Placed),
    Whole(After),
    Whole(Weak),
    Whole(User),
    Whole(LibraryY),
    Whole(LibraryB),
];

/// A list has its places: the members' files, segments, load segments and offsets, and LENGTH and ALIGN of load segments.
static PLACING: [Row; 11] = [
    ("the 1st member", PLACES, Member(1, Some((1, 1, 1, 0)))),
    ("the 2nd member", PLACES, Member(2, Some((2, 1, 1, 3)))),
    ("the 3rd member", PLACES, Member(3, Some((2, 2, 2, 0)))),
    ("the 4th member", PLACES, Member(4, Some((3, 1, 3, 0)))),
    ("the 5th member", PLACES, Member(5, Some((4, 1, 3, 1)))),
    ("the 6th member", PLACES, Member(6, Some((5, 2, 1, 8)))),
    ("the 7th member", PLACES, Member(7, Some((6, 2, 3, 2)))),
    ("the 8th member", PLACES, Member(8, Some((5, 3, 2, 0x100)))),
    ("no 9th member", PLACES, Member(9, None)),
    ("the 1st load segment", PLACES, Size(1, Some((9, 0x100)))),
    ("the 2nd load segment", PLACES, Size(2, Some((0x102, 0x80)))),
];

#[test]
fn files_are_read_and_resolved(rt: HostRuntime) {
    let alloc = rt.alloc();
    all_are_so(&rt, alloc, &READING);
    all_are_so(&rt, alloc, &RESOLVING);
    all_are_so(&rt, alloc, &PLACING);
}
