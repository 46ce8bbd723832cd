// Movable blocks that are slid down, at a command and for a placement.
ghost use Rattle.std.specs.Prelude.{◌<◌, IsTrue};
ghost use Rattle.iigs_meaning.specs.Fits.{IsWant};
ghost use Rattle.iigs_meaning.specs.Slide.{AsksNoPlace};

use crate::asserting::same;
use crate::handles::{SLOT_0, SLOT_0_1, SLOT_1, SLOT_2, SLOT_3, SLOT_4};
use iigs_compact_memory::{BlockFault, CompactBanks, Handle, PlaceFault, Want};
use std::alloc::Global;
use std::process::Abort;
use std::test::Fail;

/// A call, and what is answered.
enum Step {
    /// A block of a given number of bytes is placed, at a level, movable or not.
    Put(u32, u8, bool, Result<Handle, PlaceFault>),
    /// So is one for a want.
    Ask(Want, u8, bool, Result<Handle, PlaceFault>),
    Free(Handle),
    Lock(Handle),
    Unlock(Handle),
    Replace(Handle, u32, Result<(), PlaceFault>),
    /// Two blocks of a given number of bytes are placed, or none.
    Both(u32, u32, Result<(Handle, Handle), PlaceFault>),
    /// A given number of blocks is moved.
    Compact(u32),
    At(Handle, Result<Option<u32>, BlockFault>),
    /// The first byte and the last are written.
    Write(Handle, u8, u8),
    /// They are these.
    Ends(Handle, Option<(u8, u8)>),
}

fn of(size: u32) -> Want
    ensures { 0 < size → IsWant result }
{
    Want {
        size,
        align: 1,
        no_cross: false,
        no_special: false,
        at: None,
        bank: None,
        low: None,
    }
}

fn is_want(want: &Want) -> bool
    ensures { IsTrue result → IsWant want.now }
{
    want.size > 0 && (want.align == 1 || want.align == 0x100 || want.align == 0x10000)
}

fn asks_no_place(want: &Want) -> bool
    ensures { IsTrue result → AsksNoPlace want.now }
{
    want.at.is_none() && want.bank.is_none() && want.low.is_none()
}

// The calls as the steps make them. They promise nothing.
fn put(
    banks: &mut CompactBanks,
    want: &Want,
    level: u8,
    movable: bool,
) -> Option<Result<Handle, PlaceFault>> {
    if !is_want(want) {
        return None;
    }
    if !movable {
        return Some(banks.place(want, 0, false, level, false));
    }
    if !asks_no_place(want) {
        return None;
    }
    Some(banks.place(want, 0, false, level, true))
}

fn replace(banks: &mut CompactBanks, h: Handle, size: u32) -> Option<Result<(), PlaceFault>> {
    let want = of(size);
    if !is_want(&want) {
        return None;
    }
    Some(banks.replace(h, &want))
}

fn place_all(
    banks: &mut CompactBanks,
    first: u32,
    second: u32,
    handles: &mut [Handle; 2],
) -> Option<Result<(), PlaceFault>> {
    if first == 0 || second == 0 {
        return None;
    }
    let wants = [of(first), of(second)];
    Some(banks.place_all(7, false, &wants, handles))
}

fn both(
    banks: &mut CompactBanks,
    first: u32,
    second: u32,
) -> Option<Result<(Handle, Handle), PlaceFault>> {
    let mut handles = [SLOT_0_1; 2];
    match place_all(banks, first, second, &mut handles) {
        Some(Ok(())) => Some(Ok((handles[0], handles[1]))),
        Some(Err(fault)) => Some(Err(fault)),
        None => None,
    }
}

fn at(banks: &CompactBanks, h: Handle) -> Result<Option<u32>, BlockFault> {
    Ok(banks.state(h)?.at)
}

fn write(banks: &mut CompactBanks, h: Handle, first: u8, last: u8) {
    if let Ok(bytes) = banks.block_mut(h) {
        if let Some(byte) = bytes.first_mut() {
            *byte = first;
        }
        if let Some(byte) = bytes.last_mut() {
            *byte = last;
        }
    }
}

fn ends(banks: &CompactBanks, h: Handle) -> Option<(u8, u8)> {
    match banks.block(h) {
        Ok(bytes) => Some((*bytes.first()?, *bytes.last()?)),
        Err(_) => None,
    }
}

fn change(rt: &impl Abort, banks: &mut CompactBanks, n: usize, step: &Step) {
    match step {
        Step::Put(size, level, movable, is) => {
            same(rt, n, put(banks, &of(*size), *level, *movable), Some(*is))
        }
        Step::Ask(want, level, movable, is) => {
            same(rt, n, put(banks, want, *level, *movable), Some(*is))
        }
        Step::Free(h) => same(rt, n, banks.free(*h), Ok(())),
        Step::Lock(h) => same(rt, n, banks.lock(*h), Ok(())),
        Step::Unlock(h) => same(rt, n, banks.unlock(*h), Ok(())),
        Step::Replace(h, size, is) => same(rt, n, replace(banks, *h, *size), Some(*is)),
        Step::Both(first, second, is) => same(rt, n, both(banks, *first, *second), Some(*is)),
        Step::Compact(is) => same(rt, n, banks.compact(), *is),
        Step::At(h, is) => same(rt, n, at(banks, *h), *is),
        Step::Write(h, first, last) => write(banks, *h, *first, *last),
        Step::Ends(h, is) => same(rt, n, ends(banks, *h), *is),
    }
}

fn run(rt: &(impl Alloc<A = Global> + Abort), numbers: &[u8], steps: &[Step]) -> Result<(), Fail> {
    let mut banks = CompactBanks::new(rt.alloc(), numbers)?;
    for (n, step) in steps.iter().enumerate() {
        change(rt, &mut banks, n, step);
    }
    Ok(())
}

static SLID: [Step; 11] = [
    Step::Put(0x10, 0, true, Ok(SLOT_0)),
    Step::Put(0x20, 0, true, Ok(SLOT_1)),
    Step::Write(SLOT_1, 0x12, 0x34),
    Step::Free(SLOT_0),
    Step::Put(0xFFE0, 0, true, Ok(SLOT_0_1)),
    Step::At(SLOT_1, Ok(Some(0x02_0000))),
    Step::Ends(SLOT_1, Some((0x12, 0x34))),
    Step::Compact(0),
    Step::Free(SLOT_1),
    Step::Compact(1),
    Step::At(SLOT_0_1, Ok(Some(0x02_0000))),
];

// A placement slides a block down where it finds no room otherwise, and what is placed then is movable where that was asked for.
#[test]
fn a_placement_slides(rt: HostRuntime) -> Result<(), Fail> {
    run(&rt, &[2], &SLID)
}

static FIXED: [Step; 7] = [
    Step::Put(0x10, 0, true, Ok(SLOT_0)),
    Step::Put(0x20, 0, false, Ok(SLOT_1)),
    Step::Free(SLOT_0),
    Step::Put(0xFFE0, 0, true, Err(PlaceFault::NoRoom(0))),
    Step::Compact(0),
    Step::At(SLOT_1, Ok(Some(0x02_0010))),
    Step::Put(0x10, 0, true, Ok(SLOT_0_1)),
];

// A block that isn't movable stays, and a refused placement changes nothing.
#[test]
fn a_fixed_block_stays(rt: HostRuntime) -> Result<(), Fail> {
    run(&rt, &[2], &FIXED)
}

static LOCKED: [Step; 12] = [
    Step::Put(1, 0, true, Ok(SLOT_0)),
    Step::Put(0xFFFF, 1, true, Ok(SLOT_1)),
    Step::Write(SLOT_1, 0x12, 0x34),
    Step::Free(SLOT_0),
    Step::Lock(SLOT_1),
    Step::Compact(0),
    Step::Unlock(SLOT_1),
    Step::Compact(1),
    Step::At(SLOT_1, Ok(Some(0x02_0000))),
    Step::Ends(SLOT_1, Some((0x12, 0x34))),
    Step::Compact(0),
    Step::Replace(SLOT_1, 1, Err(PlaceFault::NotEmpty)),
];

// A locked block moves once it is unlocked, over itself and with all its bytes.
#[test]
fn a_locked_block_waits(rt: HostRuntime) -> Result<(), Fail> {
    run(&rt, &[2], &LOCKED)
}

const PAGE: Want = Want {
    size: 0x10,
    align: 0x100,
    no_cross: false,
    no_special: false,
    at: None,
    bank: None,
    low: None,
};

const IN_A_BANK: Want = Want {
    size: 0x9000,
    align: 1,
    no_cross: true,
    no_special: false,
    at: None,
    bank: None,
    low: None,
};

static OVER_BANKS: [Step; 13] = [
    Step::Put(0x20, 0, false, Ok(SLOT_0)),
    Step::Put(0x10, 0, true, Ok(SLOT_1)),
    Step::Ask(PAGE, 0, true, Ok(SLOT_2)),
    Step::Ask(IN_A_BANK, 0, true, Ok(SLOT_3)),
    Step::Ask(IN_A_BANK, 0, true, Ok(SLOT_4)),
    Step::Write(SLOT_4, 0x12, 0x34),
    Step::At(SLOT_4, Ok(Some(0x02_0000))),
    Step::Free(SLOT_0),
    Step::Free(SLOT_3),
    Step::Compact(2),
    Step::At(SLOT_1, Ok(Some(0x00_0800))),
    Step::At(SLOT_4, Ok(Some(0x00_0910))),
    Step::Ends(SLOT_4, Some((0x12, 0x34))),
];

// A block slides from one bank to another and into special memory, and keeps what its want asks for.
#[test]
fn wants_are_kept(rt: HostRuntime) -> Result<(), Fail> {
    run(&rt, &[0, 2], &OVER_BANKS)
}

const AT_20008: Want = Want {
    size: 8,
    align: 1,
    no_cross: false,
    no_special: false,
    at: Some(0x02_0008),
    bank: None,
    low: None,
};

static ONE_PURGE: [Step; 8] = [
    Step::Put(8, 3, false, Ok(SLOT_0)),
    Step::Put(8, 0, true, Ok(SLOT_1)),
    Step::Put(8, 2, false, Ok(SLOT_2)),
    Step::Put(0x10, 0, true, Ok(SLOT_3)),
    Step::Ask(AT_20008, 0, false, Ok(SLOT_4)),
    Step::At(SLOT_0, Ok(None)),
    Step::At(SLOT_1, Ok(Some(0x02_0000))),
    Step::At(SLOT_2, Ok(Some(0x02_0010))),
];

// One purge and a slide make room, and one purge more would close it.
#[test]
fn the_fewest_purges_are_found(rt: HostRuntime) -> Result<(), Fail> {
    run(&rt, &[2], &ONE_PURGE)
}

static PURGED_AND_SLID: [Step; 7] = [
    Step::Put(0x8000, 1, false, Ok(SLOT_0)),
    Step::Put(0x10, 0, true, Ok(SLOT_1)),
    Step::Write(SLOT_1, 0x12, 0x34),
    Step::Put(0xFFF0, 0, false, Ok(SLOT_2)),
    Step::At(SLOT_0, Ok(None)),
    Step::At(SLOT_2, Ok(Some(0x02_0010))),
    Step::Ends(SLOT_1, Some((0x12, 0x34))),
];

// Where the want doesn't fit beside a block that stays, that is purged, and another slides to its place.
#[test]
fn a_purge_and_a_slide_make_room(rt: HostRuntime) -> Result<(), Fail> {
    run(&rt, &[2], &PURGED_AND_SLID)
}

static REFUSED: [Step; 5] = [
    Step::Put(0x8000, 1, false, Ok(SLOT_0)),
    Step::Put(0x10, 0, false, Ok(SLOT_1)),
    Step::Put(0xFFF8, 0, true, Err(PlaceFault::NoRoom(0))),
    Step::At(SLOT_0, Ok(Some(0x02_0000))),
    Step::At(SLOT_1, Ok(Some(0x02_8000))),
];

// Where the want fits nowhere, whatever is purged and slid down, nothing is.
#[test]
fn a_refused_placement_purges_nothing(rt: HostRuntime) -> Result<(), Fail> {
    run(&rt, &[2], &REFUSED)
}

static REPLACED: [Step; 9] = [
    Step::Put(0x10, 0, true, Ok(SLOT_0)),
    Step::Put(0x10, 1, true, Ok(SLOT_1)),
    Step::Put(0xFFE8, 0, false, Ok(SLOT_2)),
    Step::At(SLOT_1, Ok(None)),
    Step::Free(SLOT_2),
    Step::Replace(SLOT_1, 0x10, Ok(())),
    Step::Free(SLOT_0),
    Step::Compact(0),
    Step::At(SLOT_1, Ok(Some(0x02_0010))),
];

// A block that was purged and is placed anew isn't movable any more.
#[test]
fn a_block_placed_anew_stays(rt: HostRuntime) -> Result<(), Fail> {
    run(&rt, &[2], &REPLACED)
}

static SEVERAL: [Step; 11] = [
    Step::Put(0x10, 0, true, Ok(SLOT_0)),
    Step::Put(0x20, 0, true, Ok(SLOT_1)),
    Step::Write(SLOT_1, 0x12, 0x34),
    Step::Free(SLOT_0),
    Step::Both(8, 0xFFE0, Err(PlaceFault::NoRoom(1))),
    Step::At(SLOT_1, Ok(Some(0x02_0010))),
    Step::Both(0xFFD8, 8, Ok((SLOT_0_1, SLOT_2))),
    Step::At(SLOT_1, Ok(Some(0x02_0000))),
    Step::Ends(SLOT_1, Some((0x12, 0x34))),
    Step::At(SLOT_0_1, Ok(Some(0x02_0020))),
    Step::At(SLOT_2, Ok(Some(0x02_FFF8))),
];

// Several blocks are placed with a slide, or none, and nothing is slid then.
#[test]
fn several_are_placed_with_a_slide(rt: HostRuntime) -> Result<(), Fail> {
    run(&rt, &[2], &SEVERAL)
}
