// Blocks that are reported in order of address, purged one by one and moved.
ghost use Rattle.std.specs.Prelude.{◌<◌};
ghost use Rattle.iigs_meaning.specs.Fits.{IsWant};

use crate::asserting::same;
use crate::handles::{SLOT_0, SLOT_0_1, SLOT_1, SLOT_2};
use iigs_memory::{Banks, BlockFault, EmptyFault, Handle, PlaceFault, ShiftFault, Want};
use std::alloc::Global;
use std::process::Abort;
use std::test::Fail;

/// A call, and what is answered.
enum Step {
    /// A block of a given number of bytes is placed, at a level and locked or not.
    Put(u32, u8, bool, Result<Handle, PlaceFault>),
    Free(Handle, Result<(), BlockFault>),
    Empty(Handle, Result<(), EmptyFault>),
    Shift(Handle, u32, Result<(), ShiftFault>),
    /// The size of the kept want.
    Kept(Handle, Result<u32, BlockFault>),
    Count(u32),
    Nth(u32, Option<Handle>),
    At(Handle, Result<Option<u32>, BlockFault>),
    /// The first byte and the last are written.
    Write(Handle, u8, u8),
    /// They are these.
    Ends(Handle, Option<(u8, u8)>),
}

fn any(size: u32) -> Want
    requires { 0 < size }
    ensures want { IsWant result }
{
    Want {
        size,
        align: 1,
        no_cross: false,
        no_special: false,
        at: None,
        bank: None,
        low: None,
    }
}

// The calls as the steps make them. They promise nothing.
fn put(
    banks: &mut Banks,
    size: u32,
    level: u8,
    locked: bool,
) -> Option<Result<Handle, PlaceFault>> {
    if size == 0 {
        return None;
    }
    Some(banks.place(&any(size), 0, locked, level))
}

fn kept(banks: &Banks, h: Handle) -> Result<u32, BlockFault> {
    Ok(banks.kept(h)?.size)
}

fn at(banks: &Banks, h: Handle) -> Result<Option<u32>, BlockFault> {
    Ok(banks.state(h)?.at)
}

fn write(banks: &mut Banks, h: Handle, first: u8, last: u8) {
    if let Ok(bytes) = banks.block_mut(h) {
        if let Some(byte) = bytes.first_mut() {
            *byte = first;
        }
        if let Some(byte) = bytes.last_mut() {
            *byte = last;
        }
    }
}

fn ends(banks: &Banks, h: Handle) -> Option<(u8, u8)> {
    match banks.block(h) {
        Ok(bytes) => Some((*bytes.first()?, *bytes.last()?)),
        Err(_) => None,
    }
}

fn change(rt: &impl Abort, banks: &mut Banks, n: usize, step: &Step) {
    match step {
        Step::Put(size, level, locked, is) => {
            same(rt, n, put(banks, *size, *level, *locked), Some(*is))
        }
        Step::Free(h, is) => same(rt, n, banks.free(*h), *is),
        Step::Empty(h, is) => same(rt, n, banks.empty(*h), *is),
        Step::Shift(h, to, is) => same(rt, n, banks.shift(*h, *to), *is),
        Step::Write(h, first, last) => write(banks, *h, *first, *last),
        _ => reveal(rt, banks, n, step),
    }
}

fn reveal(rt: &impl Abort, banks: &Banks, n: usize, step: &Step) {
    match step {
        Step::Kept(h, is) => same(rt, n, kept(banks, *h), *is),
        Step::Count(is) => same(rt, n, banks.count(), *is),
        Step::Nth(place, is) => same(rt, n, banks.nth(*place), *is),
        Step::At(h, is) => same(rt, n, at(banks, *h), *is),
        Step::Ends(h, is) => same(rt, n, ends(banks, *h), *is),
        _ => panic!(rt; "step {n} is no step"),
    }
}

fn run(rt: &(impl Alloc<A = Global> + Abort), numbers: &[u8], steps: &[Step]) -> Result<(), Fail> {
    let mut banks = Banks::new(rt.alloc(), numbers)?;
    for (n, step) in steps.iter().enumerate() {
        change(rt, &mut banks, n, step);
    }
    Ok(())
}

static IN_ORDER: [Step; 14] = [
    Step::Count(0),
    Step::Nth(0, None),
    Step::Put(0x10, 1, false, Ok(SLOT_0)),
    Step::Put(0x20, 0, false, Ok(SLOT_1)),
    Step::Put(0x30, 2, false, Ok(SLOT_2)),
    Step::Count(3),
    Step::Empty(SLOT_1, Err(EmptyFault::NotPurgeable)),
    Step::Empty(SLOT_0, Ok(())),
    Step::Empty(SLOT_0, Err(EmptyFault::Empty)),
    Step::Kept(SLOT_0, Ok(0x10)),
    Step::Count(2),
    Step::Nth(0, Some(SLOT_1)),
    Step::Nth(1, Some(SLOT_2)),
    Step::Nth(2, None),
];

// Blocks are reported in order of address, and one is purged.
#[test]
fn blocks_in_order(rt: HostRuntime) -> Result<(), Fail> {
    run(&rt, &[2], &IN_ORDER)
}

static SHIFTED: [Step; 22] = [
    Step::Put(1, 0, false, Ok(SLOT_0)),
    Step::Put(0xFFFE, 0, false, Ok(SLOT_1)),
    Step::Put(1, 0, true, Ok(SLOT_2)),
    Step::Write(SLOT_1, 0x12, 0x34),
    Step::Write(SLOT_2, 0x56, 0x56),
    Step::Shift(SLOT_1, 0x02_0000, Err(ShiftFault::NoFit)),
    Step::Shift(SLOT_1, 0x02_0002, Err(ShiftFault::Higher)),
    Step::Shift(SLOT_2, 0x02_0000, Err(ShiftFault::Locked)),
    Step::Free(SLOT_0, Ok(())),
    Step::Shift(SLOT_0, 0x02_0000, Err(ShiftFault::Stale)),
    Step::Kept(SLOT_0, Err(BlockFault::Stale)),
    Step::Empty(SLOT_0, Err(EmptyFault::Stale)),
    Step::Shift(SLOT_1, 0x02_0000, Ok(())),
    Step::At(SLOT_1, Ok(Some(0x02_0000))),
    Step::Ends(SLOT_1, Some((0x12, 0x34))),
    Step::Ends(SLOT_2, Some((0x56, 0x56))),
    Step::Shift(SLOT_1, 0x02_0000, Ok(())),
    Step::Shift(SLOT_1, 0x01_FFFF, Err(ShiftFault::NoFit)),
    Step::Nth(0, Some(SLOT_1)),
    Step::Put(1, 1, false, Ok(SLOT_0_1)),
    Step::Empty(SLOT_0_1, Ok(())),
    Step::Shift(SLOT_0_1, 0x02_0000, Err(ShiftFault::Empty)),
];

// A block of nearly a bank is moved by one byte, and none of its bytes is lost.
#[test]
fn a_block_is_moved_over_itself(rt: HostRuntime) -> Result<(), Fail> {
    run(&rt, &[2], &SHIFTED)
}
