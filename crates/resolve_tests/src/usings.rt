// Members that name data segments by USING.
use crate::facts::Fact::{Found, Refused};
use crate::facts::{Row, all_are_so};
use crate::files::File::{Parts, Uses, Using};
use crate::parts::{CODE, DATA, PRIVATE_DATA, Part};
use link_meaning::LinkCause::{Duplicate, Unresolved};

const SIX: &[Part] = &[
    Part(1, 1, DATA),
    Part(2, 2, DATA),
    Part(3, 2, DATA),
    Part(4, 2, CODE),
    Part(5, 5, CODE),
    Part(5, 6, DATA),
];

/// A public data segment and a private one of the same name.
const BOTH: &[Part] = &[Part(1, 1, DATA), Part(1, 2, PRIVATE_DATA)];

/// Names of USING are looked for in order.
static IN_ORDER: [Row; 11] = [
    // One data segment has the label, named or not.
    (
        "the first of three",
        &[Using(&[1, 2, 3], SIX)],
        Found(b"L0001", Some(2)),
    ),
    (
        "the last of three",
        &[Using(&[3, 2, 1], SIX)],
        Found(b"L0001", Some(2)),
    ),
    (
        "one that is named thrice",
        &[Using(&[1, 1, 1], SIX)],
        Found(b"L0001", Some(2)),
    ),
    (
        "one that isn't named",
        &[Using(&[2, 3, 2], SIX)],
        Found(b"L0001", None),
    ),
    // Several have it: the first name of USING decides that finds one of them.
    (
        "two have it, in their order",
        &[Using(&[1, 2, 3], SIX)],
        Found(b"L0002", Some(3)),
    ),
    (
        "two have it, the other is named first",
        &[Using(&[1, 3, 2], SIX)],
        Found(b"L0002", Some(4)),
    ),
    (
        "two have it, the other is named alone",
        &[Using(&[3, 3, 1], SIX)],
        Found(b"L0002", Some(4)),
    ),
    (
        "two have it, neither is named",
        &[Using(&[1, 1, 1], SIX)],
        Found(b"L0002", None),
    ),
    // None has it.
    (
        "none has it",
        &[Using(&[1, 2, 3], SIX)],
        Found(b"L0009", None),
    ),
    // A segment of code has the name of a data segment, and a label of its own.
    (
        "data beside code of the same name",
        &[Using(&[5, 1, 1], SIX)],
        Found(b"L0006", Some(7)),
    ),
    (
        "code beside data of the same name",
        &[Using(&[5, 1, 1], SIX)],
        Found(b"L0005", None),
    ),
];

/// USING finds one data segment of a name.
static OF_A_NAME: [Row; 7] = [
    // The private one of the unit hides the public one.
    (
        "public beside a private one",
        &[Using(&[1], BOTH)],
        Found(b"L0001", None),
    ),
    (
        "private beside a public one",
        &[Using(&[1], BOTH)],
        Found(b"L0002", Some(3)),
    ),
    (
        "public in another file than a private one",
        &[
            Using(&[1], &[Part(1, 2, PRIVATE_DATA)]),
            Parts(&[Part(1, 1, DATA)]),
        ],
        Found(b"L0001", None),
    ),
    (
        "private in another file than a public one",
        &[
            Using(&[1], &[Part(1, 2, PRIVATE_DATA)]),
            Parts(&[Part(1, 1, DATA)]),
        ],
        Found(b"L0002", Some(2)),
    ),
    // Another unit's private one isn't seen.
    (
        "public of another unit",
        &[Using(&[1], &[]), Parts(BOTH)],
        Found(b"L0001", Some(2)),
    ),
    (
        "private of another unit",
        &[Using(&[1], &[]), Parts(BOTH)],
        Found(b"L0002", None),
    ),
    // Of two public ones none is found.
    (
        "two public ones",
        &[Using(&[1], &[Part(1, 1, DATA)]), Parts(&[Part(1, 2, DATA)])],
        Refused(Duplicate, 1, 1, 55),
    ),
];

/// Many are named by USING.
static MANY: [Row; 7] = [
    // As many uses of names that all see, and one of a data segment's own name, which that alone has.
    (
        "L of the first of 2000",
        &[Uses(2000, b'D', 2000)],
        Found(b"L0000", Some(2)),
    ),
    (
        "L of the last of 2000",
        &[Uses(2000, b'D', 2000)],
        Found(b"L1999", Some(2001)),
    ),
    (
        "D of the last of 2000",
        &[Uses(2000, b'D', 2000)],
        Found(b"D1999", Some(2001)),
    ),
    (
        "L of none of 2000",
        &[Uses(2000, b'D', 2000)],
        Found(b"L2000", None),
    ),
    // Each use is of the own name of another data segment.
    (
        "L of the last of 2000, which are all used",
        &[Uses(2000, b'L', 2000)],
        Found(b"L1999", Some(2001)),
    ),
    // The last data segment isn't there, or no name of a letter is.
    (
        "2000 of which the last isn't there",
        &[Uses(2000, b'D', 1999)],
        Refused(Unresolved, 1, 1, 55 + 7 * 1999),
    ),
    (
        "2000 names of which none is there",
        &[Uses(2000, b'M', 2000)],
        Refused(Unresolved, 1, 1, 55 + 7 * 2000),
    ),
];

#[test]
fn names_of_using_are_found(rt: HostRuntime) {
    let alloc = rt.alloc();
    all_are_so(&rt, alloc, &IN_ORDER);
    all_are_so(&rt, alloc, &OF_A_NAME);
    all_are_so(&rt, alloc, &MANY);
}
