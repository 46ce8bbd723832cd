// Blocks of memory. A test is a list of steps, so that its proof is short.
ghost use Rattle.std.specs.Prelude.{◌<◌, ◌^◌, IsTrue};
ghost use Rattle.iigs_meaning.specs.Fits.{IsWant};

use crate::asserting::same;
use crate::handles::{SLOT_0, SLOT_0_1, SLOT_1, SLOT_2};
use iigs_memory::{Banks, BanksFault, BlockFault, Handle, PlaceFault, Want};
use std::alloc::Global;
use std::process::Abort;
use std::test::Fail;

/// A call, and what is answered.
enum Step {
    /// A block of a given number of bytes is placed for a user, at a level.
    Put(u32, u16, u8, Result<Handle, PlaceFault>),
    /// The same, locked.
    PutLocked(u32, u16, u8, Result<Handle, PlaceFault>),
    /// Small blocks are placed, each in the next slot, in all slots but the last.
    PutMany,
    /// Three blocks are placed, all or none, the last of a given number of bytes; their handles stay where none is.
    PutAll(u32, bool, Result<(), PlaceFault>, (Handle, Handle, Handle)),
    Replace(Handle, u32, Result<(), PlaceFault>),
    Free(Handle, Result<(), BlockFault>),
    Purge(u16, u32),
    Lock(Handle, Result<(), BlockFault>),
    Unlock(Handle, Result<(), BlockFault>),
    SetLevel(Handle, u8, Result<(), BlockFault>),
    /// Four bytes are written over a block's bytes; the result is how many bytes the block has.
    Write(Handle, Result<usize, BlockFault>),
    Room(u32),
    /// Where a block is.
    At(Handle, Result<Option<u32>, BlockFault>),
    /// Where it is, and its size.
    Lies(Handle, Option<u32>, u32),
    /// Where it is, and its level and lock.
    Stays(Handle, Option<u32>, u8, bool),
    Bytes(Handle, [u8; 4]),
    /// Which block has the byte at an address.
    Holder(u32, Option<Handle>),
    User(Handle, u16),
    /// Each call refuses a stale handle.
    Stale(Handle),
}

// The third slot under its next generation, and slots further on.
const SLOT_2_1: Handle = Handle {
    slot: 2,
    generation: 1,
};

const SLOT_127: Handle = Handle {
    slot: 127,
    generation: 0,
};

const SLOT_128: Handle = Handle {
    slot: 128,
    generation: 0,
};

const SLOT_4095: Handle = Handle {
    slot: 4095,
    generation: 0,
};

// No slots of a table.
const SLOT_4096: Handle = Handle {
    slot: 4096,
    generation: 0,
};

const SLOT_65535: Handle = Handle {
    slot: 65535,
    generation: 255,
};

const NO_HANDLE: Handle = Handle {
    slot: 9,
    generation: 9,
};

fn any(size: u32) -> Want
    requires { 0 < size }
    ensures want { IsWant result }
{
    Want {
        size,
        align: 1,
        no_cross: false,
        no_special: false,
        at: None,
        bank: None,
        low: None,
    }
}

fn is_want(want: &Want) -> bool
    ensures { IsTrue result → IsWant want.now }
{
    want.size > 0 && (want.align == 1 || want.align == 0x100 || want.align == 0x10000)
}

// The calls as the steps make them. They promise nothing.
fn banks_of(alloc: Global, numbers: &[u8]) -> Result<Banks, Fail> {
    Ok(Banks::new(alloc, numbers)?)
}

fn put(
    banks: &mut Banks,
    size: u32,
    user: u16,
    locked: bool,
    level: u8,
) -> Option<Result<Handle, PlaceFault>> {
    if size == 0 {
        return None;
    }
    Some(banks.place(&any(size), user, locked, level))
}

fn put_many(rt: &impl Abort, banks: &mut Banks) {
    for slot in 0..4095u16 {
        let h = Handle {
            slot,
            generation: 0,
        };
        let reported = put(banks, 0x20, 0, false, 1);
        same(rt, usize::from(slot), reported, Some(Ok(h)));
    }
}

fn place_all(
    banks: &mut Banks,
    last: u32,
    locked: bool,
    handles: &mut [Handle; 3],
) -> Option<Result<(), PlaceFault>> {
    if last == 0 {
        return None;
    }
    let wants = [any(0x100), any(0x8000), any(last)];
    Some(banks.place_all(7, locked, &wants, handles))
}

fn put_all(
    banks: &mut Banks,
    last: u32,
    locked: bool,
) -> (Option<Result<(), PlaceFault>>, [Handle; 3]) {
    let mut handles = [NO_HANDLE; 3];
    let reported = place_all(banks, last, locked, &mut handles);
    (reported, handles)
}

fn replace(banks: &mut Banks, h: Handle, size: u32) -> Option<Result<(), PlaceFault>> {
    if size == 0 {
        return None;
    }
    Some(banks.replace(h, &any(size)))
}

fn free(banks: &mut Banks, h: Handle) -> Result<(), BlockFault> {
    banks.free(h)
}

fn purge(banks: &mut Banks, user: u16) -> u32 {
    banks.purge_user(user)
}

fn lock(banks: &mut Banks, h: Handle) -> Result<(), BlockFault> {
    banks.lock(h)
}

fn unlock(banks: &mut Banks, h: Handle) -> Result<(), BlockFault> {
    banks.unlock(h)
}

fn set_level(banks: &mut Banks, h: Handle, level: u8) -> Result<(), BlockFault> {
    banks.set_level(h, level)
}

fn write(banks: &mut Banks, h: Handle) -> Result<usize, BlockFault> {
    let bytes = banks.block_mut(h)?;
    if bytes.len() == 4 {
        bytes.copy_from_slice(&[1, 2, 3, 4]);
    }
    Ok(bytes.len())
}

fn room(banks: &Banks) -> u32 {
    banks.room()
}

fn at(banks: &Banks, h: Handle) -> Result<Option<u32>, BlockFault> {
    Ok(banks.state(h)?.at)
}

fn lies(banks: &Banks, h: Handle) -> Result<(Option<u32>, u32), BlockFault> {
    let state = banks.state(h)?;
    Ok((state.at, state.size))
}

fn stays(banks: &Banks, h: Handle) -> Result<(Option<u32>, u8, bool), BlockFault> {
    let state = banks.state(h)?;
    Ok((state.at, state.level, state.locked))
}

fn user(banks: &Banks, h: Handle) -> Result<u16, BlockFault> {
    Ok(banks.state(h)?.user)
}

fn bytes(banks: &Banks, h: Handle) -> Result<&[u8], BlockFault> {
    banks.block(h)
}

fn holder(banks: &Banks, address: u32) -> Option<Handle> {
    banks.holder(address)
}

fn is_stale(rt: &impl Abort, banks: &mut Banks, n: usize, h: Handle) {
    same(rt, n, lock(banks, h), Err(BlockFault::Stale));
    same(rt, n, unlock(banks, h), Err(BlockFault::Stale));
    same(rt, n, set_level(banks, h, 9), Err(BlockFault::Stale));
    same(rt, n, free(banks, h), Err(BlockFault::Stale));
    same(rt, n, at(banks, h), Err(BlockFault::Stale));
}

// A step that may change something.
fn change(rt: &impl Abort, banks: &mut Banks, n: usize, step: &Step) {
    match step {
        Step::Put(size, user, level, is) => {
            same(rt, n, put(banks, *size, *user, false, *level), Some(*is))
        }
        Step::PutLocked(size, user, level, is) => {
            same(rt, n, put(banks, *size, *user, true, *level), Some(*is))
        }
        Step::PutMany => put_many(rt, banks),
        Step::PutAll(last, locked, is, (a, b, c)) => {
            let reported = put_all(banks, *last, *locked);
            same(rt, n, reported, (Some(*is), [*a, *b, *c]))
        }
        Step::Replace(h, size, is) => same(rt, n, replace(banks, *h, *size), Some(*is)),
        Step::Free(h, is) => same(rt, n, free(banks, *h), *is),
        Step::Purge(user, count) => same(rt, n, purge(banks, *user), *count),
        Step::Lock(h, is) => same(rt, n, lock(banks, *h), *is),
        Step::Unlock(h, is) => same(rt, n, unlock(banks, *h), *is),
        Step::SetLevel(h, level, is) => same(rt, n, set_level(banks, *h, *level), *is),
        Step::Write(h, is) => same(rt, n, write(banks, *h), *is),
        Step::Stale(h) => is_stale(rt, banks, n, *h),
        _ => reveal(rt, banks, n, step),
    }
}

// A step that changes nothing.
fn reveal(rt: &impl Abort, banks: &Banks, n: usize, step: &Step) {
    match step {
        Step::Room(count) => same(rt, n, room(banks), *count),
        Step::At(h, is) => same(rt, n, at(banks, *h), *is),
        Step::Lies(h, first, size) => same(rt, n, lies(banks, *h), Ok((*first, *size))),
        Step::Stays(h, first, level, locked) => {
            same(rt, n, stays(banks, *h), Ok((*first, *level, *locked)))
        }
        Step::Bytes(h, is) => same(rt, n, bytes(banks, *h), Ok(is.as_slice())),
        Step::User(h, is) => same(rt, n, user(banks, *h), Ok(*is)),
        Step::Holder(address, is) => same(rt, n, holder(banks, *address), *is),
        _ => panic!(rt; "step {n} is no step"),
    }
}

fn make_all(rt: &impl Abort, banks: &mut Banks, steps: &[Step]) {
    for (n, step) in steps.iter().enumerate() {
        change(rt, banks, n, step);
    }
}

/// Makes the steps with these banks.
fn run(rt: &(impl Alloc<A = Global> + Abort), numbers: &[u8], steps: &[Step]) -> Result<(), Fail> {
    let mut banks = banks_of(rt.alloc(), numbers)?;
    make_all(rt, &mut banks, steps);
    Ok(())
}

fn fault(alloc: Global, numbers: &[u8]) -> Option<BanksFault> {
    Banks::new(alloc, numbers).err()
}

#[test]
fn banks_are_some_and_distinct(rt: HostRuntime) {
    let alloc = rt.alloc();
    same(&rt, 0, fault(alloc, &[]), Some(BanksFault::NoBanks));
    same(
        &rt,
        1,
        fault(alloc, &[2, 2]),
        Some(BanksFault::BankTwice(2)),
    );
    same(
        &rt,
        2,
        fault(alloc, &[3, 2, 3, 2]),
        Some(BanksFault::BankTwice(3)),
    );
}

static FILLED: [Step; 6] = [
    Step::Put(0x10001, 0, 0, Err(PlaceFault::NoRoom(0))),
    Step::Room(0x10000),
    Step::Put(0x10000, 0, 0, Ok(SLOT_0)),
    Step::At(SLOT_0, Ok(Some(0x02_0000))),
    Step::Room(0),
    Step::Put(1, 0, 0, Err(PlaceFault::NoRoom(0))),
];

// A bank is filled to its last byte.
#[test]
fn one_bank_is_filled(rt: HostRuntime) -> Result<(), Fail> {
    run(&rt, &[2], &FILLED)
}

static ROOM: [Step; 8] = [
    Step::Room(0xA000 + 0x1_0000 + 0xB800),
    Step::Put(0x1234, 7, 1, Ok(SLOT_0)),
    Step::PutLocked(0x10, 7, 1, Ok(SLOT_1)),
    Step::Room(0x2_5800 - 0x1244),
    Step::Purge(7, 1),
    Step::Room(0x2_5800 - 0x10),
    Step::Free(SLOT_1, Ok(())),
    Step::Room(0x2_5800),
];

// Banks $00 and $E1 are free in part. What a block has isn't room until the block is purged.
#[test]
fn room_is_what_is_free_and_in_no_block(rt: HostRuntime) -> Result<(), Fail> {
    run(&rt, &[0xE1, 5, 0], &ROOM)
}

static FREED: [Step; 5] = [
    Step::Put(0x10, 0, 0, Ok(SLOT_0)),
    Step::Free(SLOT_0, Ok(())),
    Step::Put(0x10, 0, 0, Ok(SLOT_0_1)),
    Step::At(SLOT_0, Err(BlockFault::Stale)),
    Step::Lies(SLOT_0_1, Some(0x02_0000), 0x10),
];

// A handle is stale once its block was freed, also where another block took its slot.
#[test]
fn a_freed_handle_is_stale(rt: HostRuntime) -> Result<(), Fail> {
    run(&rt, &[2], &FREED)
}

static LEVELS: [Step; 12] = [
    Step::Put(0x8000, 0, 3, Ok(SLOT_0)),
    Step::Put(0x8000, 0, 1, Ok(SLOT_1)),
    Step::Put(0x8000, 0, 0, Ok(SLOT_2)),
    Step::At(SLOT_2, Ok(Some(0x02_0000))),
    Step::At(SLOT_0, Ok(None)),
    Step::Lies(SLOT_1, Some(0x02_8000), 0x8000),
    Step::Stays(SLOT_1, Some(0x02_8000), 1, false),
    Step::Replace(SLOT_1, 1, Err(PlaceFault::NotEmpty)),
    Step::Free(SLOT_2, Ok(())),
    Step::Replace(SLOT_0, 0x10, Ok(())),
    Step::Lies(SLOT_0, Some(0x02_0000), 0x10),
    Step::Stays(SLOT_0, Some(0x02_0000), 3, false),
];

// Of two purgeable blocks the one of the higher level goes.
#[test]
fn the_highest_level_is_purged_first(rt: HostRuntime) -> Result<(), Fail> {
    run(&rt, &[2], &LEVELS)
}

// The block fills the bank.
static LOCKED: [Step; 8] = [
    Step::Put(0x10000, 5, 3, Ok(SLOT_0)),
    Step::Lock(SLOT_0, Ok(())),
    Step::Stays(SLOT_0, Some(0x02_0000), 3, true),
    Step::Put(1, 5, 0, Err(PlaceFault::NoRoom(0))),
    Step::Unlock(SLOT_0, Ok(())),
    Step::Stays(SLOT_0, Some(0x02_0000), 3, false),
    Step::Put(1, 5, 0, Ok(SLOT_1)),
    Step::Stays(SLOT_0, None, 3, false),
];

#[test]
fn a_locked_block_stays(rt: HostRuntime) -> Result<(), Fail> {
    run(&rt, &[2], &LOCKED)
}

static LEVEL_0: [Step; 8] = [
    Step::Put(0x10000, 5, 3, Ok(SLOT_0)),
    Step::SetLevel(SLOT_0, 0, Ok(())),
    Step::Stays(SLOT_0, Some(0x02_0000), 0, false),
    Step::Put(1, 5, 0, Err(PlaceFault::NoRoom(0))),
    Step::SetLevel(SLOT_0, 255, Ok(())),
    Step::Stays(SLOT_0, Some(0x02_0000), 255, false),
    Step::Put(1, 5, 0, Ok(SLOT_1)),
    Step::Stays(SLOT_0, None, 255, false),
];

#[test]
fn a_block_of_level_0_stays(rt: HostRuntime) -> Result<(), Fail> {
    run(&rt, &[2], &LEVEL_0)
}

static REFUSED: [Step; 12] = [
    Step::Put(0x10000, 5, 3, Ok(SLOT_0)),
    Step::Stale(SLOT_0_1),
    Step::Stale(SLOT_1),
    Step::Stale(SLOT_4095),
    Step::Stale(SLOT_4096),
    Step::Stale(SLOT_65535),
    Step::Stays(SLOT_0, Some(0x02_0000), 3, false),
    Step::Purge(5, 1),
    Step::Lock(SLOT_0, Err(BlockFault::Empty)),
    Step::Unlock(SLOT_0, Err(BlockFault::Empty)),
    Step::SetLevel(SLOT_0, 9, Err(BlockFault::Empty)),
    Step::Stays(SLOT_0, None, 3, false),
];

// A purged block is empty for them; a handle of no slot of the table, of a free slot or of another generation is stale.
#[test]
fn empty_blocks_and_stale_handles_stay(rt: HostRuntime) -> Result<(), Fail> {
    run(&rt, &[2], &REFUSED)
}

static BORROWED: [Step; 18] = [
    Step::Put(4, 0, 1, Ok(SLOT_0)),
    Step::Put(4, 1, 1, Ok(SLOT_1)),
    Step::Put(4, 2, 1, Ok(SLOT_2)),
    Step::Write(SLOT_1, Ok(4)),
    Step::Bytes(SLOT_2, [0; 4]),
    Step::Purge(2, 1),
    Step::Write(SLOT_2, Err(BlockFault::Empty)),
    Step::Bytes(SLOT_0, [0; 4]),
    Step::Bytes(SLOT_1, [1, 2, 3, 4]),
    Step::Stays(SLOT_2, None, 1, false),
    Step::Write(SLOT_2_1, Err(BlockFault::Stale)),
    Step::Bytes(SLOT_0, [0; 4]),
    Step::Bytes(SLOT_1, [1, 2, 3, 4]),
    Step::Stays(SLOT_2, None, 1, false),
    Step::Write(SLOT_4096, Err(BlockFault::Stale)),
    Step::Bytes(SLOT_0, [0; 4]),
    Step::Bytes(SLOT_1, [1, 2, 3, 4]),
    Step::Stays(SLOT_2, None, 1, false),
];

// Three blocks of four bytes side by side: what is written into the second leaves the others, and where no block is borrowed
// all stay.
#[test]
fn a_write_through_a_borrowed_block_changes_it_alone(rt: HostRuntime) -> Result<(), Fail> {
    run(&rt, &[2], &BORROWED)
}

const BYTE: Want = Want {
    size: 1,
    align: 1,
    no_cross: false,
    no_special: false,
    at: None,
    bank: None,
    low: None,
};

static WANTS: [(Want, Option<u32>); 12] = [
    (Want { size: 0x10, ..BYTE }, Some(0x00_0800)),
    (
        Want {
            size: 0x10,
            no_special: true,
            ..BYTE
        },
        Some(0x02_0000),
    ),
    (
        Want {
            size: 0xB800,
            align: 0x100,
            ..BYTE
        },
        Some(0x00_0800),
    ),
    (
        Want {
            size: 0xB801,
            ..BYTE
        },
        Some(0x02_0000),
    ),
    (
        Want {
            size: 0xA000,
            bank: Some(0xE1),
            ..BYTE
        },
        Some(0xE1_2000),
    ),
    (
        Want {
            size: 0xA001,
            bank: Some(0xE1),
            ..BYTE
        },
        None,
    ),
    (
        Want {
            align: 0x10000,
            ..BYTE
        },
        Some(0x02_0000),
    ),
    (
        Want {
            low: Some(0x1000),
            ..BYTE
        },
        Some(0x00_1000),
    ),
    (
        Want {
            low: Some(0xC000),
            ..BYTE
        },
        Some(0x02_C000),
    ),
    (
        Want {
            at: Some(0xE1_BFFF),
            ..BYTE
        },
        Some(0xE1_BFFF),
    ),
    (
        Want {
            at: Some(0xE1_C000),
            ..BYTE
        },
        None,
    ),
    (
        Want {
            size: 0x10001,
            no_cross: true,
            ..BYTE
        },
        None,
    ),
];

// Where a block goes; nothing where it isn't wanted well.
fn goes(banks: &mut Banks, want: &Want) -> Option<Result<Option<u32>, BlockFault>> {
    if !is_want(want) {
        return None;
    }
    match banks.place(want, 0, false, 0) {
        Ok(h) => Some(at(banks, h)),
        Err(_) => Some(Ok(None)),
    }
}

// The same in three banks.
fn placed(alloc: Global, want: &Want) -> Result<Option<Result<Option<u32>, BlockFault>>, Fail> {
    let mut banks = banks_of(alloc, &[0x00, 0xE1, 0x02])?;
    Ok(goes(&mut banks, want))
}

// Worked out by hand for banks $00, $02 and $E1: one row a condition.
#[test]
fn wants_over_three_banks(rt: HostRuntime) -> Result<(), Fail> {
    for (n, (want, address)) in WANTS.iter().enumerate() {
        same(&rt, n, placed(rt.alloc(), want)?, Some(Ok(*address)));
    }
    Ok(())
}

static ALL_OR_NONE: [Step; 9] = [
    Step::Put(0x10, 7, 1, Ok(SLOT_0)),
    Step::PutAll(
        0x8000,
        false,
        Err(PlaceFault::NoRoom(2)),
        (NO_HANDLE, NO_HANDLE, NO_HANDLE),
    ),
    Step::At(SLOT_0, Ok(Some(0x02_0000))),
    Step::Room(0xFFF0),
    Step::PutAll(0x7F00, true, Ok(()), (SLOT_0_1, SLOT_1, SLOT_2)),
    Step::At(SLOT_0, Err(BlockFault::Stale)),
    Step::Stays(SLOT_2, Some(0x02_8100), 0, true),
    Step::User(SLOT_2, 7),
    Step::Room(0),
];

// Where one of several wants has no room, nothing changes.
#[test]
fn all_are_placed_or_none(rt: HostRuntime) -> Result<(), Fail> {
    run(&rt, &[2], &ALL_OR_NONE)
}

static MANY: [Step; 8] = [
    Step::PutMany,
    Step::Room(0x20),
    Step::Put(0x1000, 0, 0, Ok(SLOT_4095)),
    Step::At(SLOT_4095, Ok(Some(0x02_0000))),
    Step::At(SLOT_127, Ok(None)),
    Step::At(SLOT_128, Ok(Some(0x02_1000))),
    Step::Put(1, 0, 0, Err(PlaceFault::NoHandle)),
    Step::Purge(0, 3967),
];

// All slots are used, and a large want purges what it needs and no more.
#[test]
fn many_blocks(rt: HostRuntime) -> Result<(), Fail> {
    run(&rt, &[2, 3], &MANY)
}

static HOLDERS: [Step; 20] = [
    Step::Holder(0x2_0000, None),
    Step::Put(0x10, 1, 0, Ok(SLOT_0)),
    Step::Put(0x20, 2, 3, Ok(SLOT_1)),
    Step::Put(1, 1, 0, Ok(SLOT_2)),
    Step::Holder(0x1_FFFF, None),
    Step::Holder(0x2_0000, Some(SLOT_0)),
    Step::Holder(0x2_000F, Some(SLOT_0)),
    Step::Holder(0x2_0010, Some(SLOT_1)),
    Step::Holder(0x2_002F, Some(SLOT_1)),
    Step::Holder(0x2_0030, Some(SLOT_2)),
    Step::Holder(0x2_0031, None),
    Step::Holder(0xFFFF_FFFF, None),
    Step::Purge(2, 1),
    Step::Holder(0x2_0010, None),
    Step::Free(SLOT_0, Ok(())),
    Step::Holder(0x2_0000, None),
    Step::Holder(0x2_0030, Some(SLOT_2)),
    Step::Put(0x30, 3, 0, Ok(SLOT_0_1)),
    Step::Holder(0x2_0010, Some(SLOT_0_1)),
    Step::Holder(0x2_002F, Some(SLOT_0_1)),
];

// Blocks that are gone have no byte, even before another placement; the block in their place has.
#[test]
fn the_block_of_a_byte_is_found(rt: HostRuntime) -> Result<(), Fail> {
    run(&rt, &[2], &HOLDERS)
}

// The first byte of a block and the byte after its last one; zeros where none is.
fn bytes_of(banks: &Banks, slot: &Option<Handle>) -> (u64, u64)
    ensures { result.1 < 2 ^ 33 }
{
    let Some(h) = *slot else {
        return (0, 0);
    };
    let Ok(state) = banks.state(h) else {
        return (0, 0);
    };
    let Some(at) = state.at else {
        return (0, 0);
    };
    (u64::from(at), u64::from(at) + u64::from(state.size))
}

// Whether the bytes from an address up to another lie beside these blocks.
fn lie_beside(banks: &Banks, there: &[Option<Handle>], at: u64, end: u64) -> bool {
    for slot in there {
        let (first, following) = bytes_of(banks, slot);
        if first < end && at < following {
            return false;
        }
    }
    true
}

// The least address in bank 2 at which `size` bytes lie beside these blocks: the bank's first, or where a block ends.
fn least_gap(banks: &Banks, there: &[Option<Handle>], size: u32) -> u64 {
    if lie_beside(banks, there, 0x2_0000, 0x2_0000 + u64::from(size)) {
        return 0x2_0000;
    }
    let mut least = 0x3_0000;
    for slot in there {
        let (_, end) = bytes_of(banks, slot);
        if 0x2_0000 < end && end < least && lie_beside(banks, there, end, end + u64::from(size)) {
            least = end;
        }
    }
    least
}

// Places a block, which goes to the least gap.
fn goes_to_the_least_gap(
    rt: &impl Abort,
    banks: &mut Banks,
    n: usize,
    there: &[Option<Handle>],
    size: u32,
) -> Option<Handle> {
    let least = least_gap(banks, there, size);
    let h = put(banks, size, 0, false, 0)?.ok()?;
    let (at, _) = bytes_of(banks, &Some(h));
    same(rt, n, at, least);
    Some(h)
}

// The block that a draw names is freed, or placed where it isn't there.
fn comes_or_goes(
    rt: &impl Abort,
    banks: &mut Banks,
    n: usize,
    there: &mut [Option<Handle>; 400],
    draw: u32,
) {
    let place = (draw / 0x1_0000 % 400) as usize;
    match there[place] {
        Some(h) => {
            same(rt, n, free(banks, h), Ok(()));
            there[place] = None;
        }
        None => {
            let h = goes_to_the_least_gap(rt, banks, n, there, draw / 0x100 % 97 + 1);
            same(rt, n, h.is_some(), true);
            there[place] = h;
        }
    }
}

fn come_and_go(rt: &impl Abort, banks: &mut Banks) {
    let mut there = [None; 400];
    let mut draw = 1u32;
    for n in 0..3000usize {
        draw = draw.wrapping_mul(1_103_515_245).wrapping_add(12_345);
        comes_or_goes(rt, banks, n, &mut there, draw);
    }
}

// Some 200 blocks that are placed and freed in mixed order. Each goes to the least gap, as a slow search finds it.
#[test]
fn blocks_come_and_go(rt: HostRuntime) -> Result<(), Fail> {
    let mut banks = banks_of(rt.alloc(), &[2])?;
    come_and_go(&rt, &mut banks);
    Ok(())
}
