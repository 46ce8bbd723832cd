// Jump tables, and their entries as they are read and set.
use crate::asserting::same;
use jump_table::{Entry, Table, TableFault, read_entry, set_loaded, set_unloaded, set_user};
use std::alloc::Global;
use std::process::Abort;

// The calls as the tests make them. They promise nothing, so a test's proof is as short as the test.
fn entry(table: &mut Table, segment: u16, offset: u32) -> Result<u32, TableFault> {
    table.entry(1, segment, offset)
}

/// How many targets a table has, how long its segment is, and whether it is just these bytes.
fn segment(alloc: Global, table: &Table, want: &[u8]) -> Result<(u32, usize, bool), TableFault> {
    let bytes = table.segment_bytes(alloc)?;
    Ok((table.count(), bytes.len(), bytes.as_slice() == want))
}

/// The places of two targets in file 1, and of the first one again: segment, offset and place.
static TWO: [(u16, u32, Result<u32, TableFault>); 3] = [
    (3, 0x1234, Ok(18)),
    (0x102, 0x89AB_CDEF, Ok(32)),
    (3, 0x1234, Ok(18)),
];

/// 8 zeros, the entries of the two targets in the order of their first calls, and 4 zeros: put together by hand.
static TWO_BYTES: [u8; 40] = [
    0, 0, 0, 0, 0, 0, 0, 0, // before the entries
    0, 0, 1, 0, 3, 0, 0x34, 0x12, 0, 0, 0x22, 0x00, 0xF0, 0xE1, // the first
    0, 0, 1, 0, 2, 1, 0xEF, 0xCD, 0xAB, 0x89, 0x22, 0x00, 0xF0, 0xE1, // the second
    0, 0, 0, 0, // after them
];

/// After 4,680 targets, the last of which went to 65524, one more has no place; those that are there keep theirs.
static FULL: [(u16, u32, Result<u32, TableFault>); 4] = [
    (2, 4679, Ok(65524)),
    (2, 4680, Err(TableFault::TooMany)),
    (3, 0, Err(TableFault::TooMany)),
    (2, 0, Ok(18)),
];

/// Ends the test where a target doesn't get its place, or none.
fn have_places(
    rt: &impl Abort,
    table: &mut Table,
    targets: &[(u16, u32, Result<u32, TableFault>)],
) {
    for (segment, offset, want) in targets {
        same(rt, offset, entry(table, *segment, *offset), *want);
    }
}

/// Ends the test where the offsets of segment 2 up to here don't get the next places.
fn are_taken(rt: &impl Abort, table: &mut Table, offsets: u32) {
    let mut place = 18u32;
    for offset in 0..offsets {
        same(rt, &offset, entry(table, 2, offset), Ok(place));
        place = place.wrapping_add(14);
    }
}

#[test]
fn a_table_has_up_to_4680_targets(rt: HostRuntime) {
    let mut table = Table::new(rt.alloc());
    have_places(&rt, &mut table, &TWO);
    let two = segment(rt.alloc(), &table, &TWO_BYTES);
    same(&rt, &"two", two, Ok((2, 40, true)));

    let mut table = Table::new(rt.alloc());
    are_taken(&rt, &mut table, 4680);
    have_places(&rt, &mut table, &FULL);
    let full = segment(rt.alloc(), &table, &TWO_BYTES);
    same(&rt, &"full", full, Ok((4680, 65532, false)));
}

/// An entry between two bytes that is not loaded.
const UNLOADED: [u8; 16] = [
    7, 0x01, 0x10, 1, 0, 3, 0, 0x34, 0x12, 0, 0, 0x22, 0x00, 0xF0, 0xE1, 7,
];

/// The same, loaded, of the next user.
const LOADED: [u8; 16] = [
    7, 0x02, 0x10, 1, 0, 3, 0, 0x34, 0x12, 0, 0, 0x5C, 0x34, 0x12, 0x02, 7,
];

/// The same, not loaded again.
const AGAIN: [u8; 16] = [
    7, 0x02, 0x10, 1, 0, 3, 0, 0x34, 0x12, 0, 0, 0x22, 0x00, 0xF0, 0xE1, 7,
];

/// Whether the setters make of each of these the next one.
fn are_set() -> (bool, bool) {
    let mut loaded = UNLOADED;
    set_loaded(&mut loaded, 1, 0x02_1234);
    set_user(&mut loaded, 1, 0x1002);
    let mut again = LOADED;
    set_unloaded(&mut again, 1);
    (loaded == LOADED, again == AGAIN)
}

/// Bytes, a place, and the entry that is read there.
static ENTRIES: [(&[u8], usize, Option<Entry>); 12] = [
    // An entry between two bytes, in both forms.
    (
        &UNLOADED,
        1,
        Some(Entry {
            user: 0x1001,
            file: 1,
            segment: 3,
            offset: 0x1234,
            loaded: None,
        }),
    ),
    (
        &LOADED,
        1,
        Some(Entry {
            user: 0x1002,
            file: 1,
            segment: 3,
            offset: 0x1234,
            loaded: Some(0x02_1234),
        }),
    ),
    // An entry alone, one byte on, far past it, one byte too short, and no byte.
    (
        &[0, 0, 1, 0, 3, 0, 0, 0, 0, 0, 0x22, 0x00, 0xF0, 0xE1],
        0,
        Some(Entry {
            user: 0,
            file: 1,
            segment: 3,
            offset: 0,
            loaded: None,
        }),
    ),
    (
        &[0, 0, 1, 0, 3, 0, 0, 0, 0, 0, 0x22, 0x00, 0xF0, 0xE1],
        1,
        None,
    ),
    (
        &[0, 0, 1, 0, 3, 0, 0, 0, 0, 0, 0x22, 0x00, 0xF0, 0xE1],
        usize::MAX,
        None,
    ),
    (&[0, 0, 1, 0, 3, 0, 0, 0, 0, 0, 0x22, 0x00, 0xF0], 0, None),
    (&[], 0, None),
    // Each byte of the code is another one.
    (
        &[0, 0, 1, 0, 3, 0, 0, 0, 0, 0, 0x20, 0x00, 0xF0, 0xE1],
        0,
        None,
    ),
    (
        &[0, 0, 1, 0, 3, 0, 0, 0, 0, 0, 0x22, 0x01, 0xF0, 0xE1],
        0,
        None,
    ),
    (
        &[0, 0, 1, 0, 3, 0, 0, 0, 0, 0, 0x22, 0x00, 0xF1, 0xE1],
        0,
        None,
    ),
    (
        &[0, 0, 1, 0, 3, 0, 0, 0, 0, 0, 0x22, 0x00, 0xF0, 0xE0],
        0,
        None,
    ),
    (
        &[0, 0, 1, 0, 3, 0, 0, 0, 0, 0, 0x4C, 0x00, 0xF0, 0xE1],
        0,
        None,
    ),
];

fn read(bytes: &[u8], at: usize) -> Option<Entry> {
    read_entry(bytes, at)
}

#[test]
fn entries_are_read_and_set(rt: HostRuntime) {
    for (bytes, at, want) in &ENTRIES {
        same(&rt, &(*bytes, *at), read(bytes, *at), *want);
    }
    same(&rt, &"set", are_set(), (true, true));
}
