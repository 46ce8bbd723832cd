//! Commands on blocks of the memory: each is given to the loader, and the line of its reply made.

ghost use Rattle.std.specs.Prelude.{◌≡◌, ◌≤◌, Some, IsSome, IsSomeAnd};
ghost use Rattle.omf_format.specs.Header.{has_attribute};
ghost use Rattle.omf_io.specs.Files.{StoreSeen};
ghost use Rattle.iigs_meaning.specs.Slots.{get};
ghost use Rattle.loader_machine.specs.Commands as machine;
ghost use Rattle.loader_machine.specs.Heads.{some_if};
ghost use Rattle.loader_machine.specs.laws.Words.{alloc_want, level_in, is_movable};
ghost use Rattle.loader_replies.specs.Answered.{HasLine};

use crate::replies::{done_line, moved_line, placed_line, refusal_line, room_line, state_line};
use iigs_meaning::{Handle, Want};
use omf_base::{Line, LineFault};
use std::alloc::Global;
use sys_loader::Loader;

/// What is asked of the place of a script's block.
#[tactic(auto)]
fn alloc_want(size: u32, attr: u16, address: u32) -> Want
    ensures { result ≡ alloc_want size attr address }
{
    Want {
        size,
        align: if attr & 0x0004 != 0 { 0x100 } else { 1 },
        no_cross: attr & 0x0010 != 0,
        no_special: attr & 0x0008 != 0,
        at: some_if(attr & 0x0002 != 0, address),
        bank: some_if(attr & 0x0001 != 0, address / 0x10000),
        low: None,
    }
}

fn some_if(asked: bool, n: u32) -> Option<u32>
    ensures { result ≡ some_if asked n }
{
    if asked { Some(n) } else { None }
}

/// Where a block lies that was just placed.
fn address_of(loader: &Loader, handle: Handle) -> u32
    requires { IsSomeAnd (get loader.now.memory.slots handle) (λ block. IsSome block.at) }
    ensures { IsSomeAnd (get loader.now.memory.slots handle) (λ block. block.at ≡ Some result) }
{
    let state = match loader.handle(handle) {
        Ok(state) => state,
        Err(_) => unreachable!(),
    };
    match state.at {
        Some(address) => address,
        None => unreachable!(),
    }
}

/// Whether a bit of ATTR is set.
fn has_attribute_bit(attr: u16, bit: u16) -> bool
    ensures { result ≡ has_attribute bit attr }
{
    attr & bit != 0
}

/// The purge level in ATTR.
fn level_in(attr: u16) -> u8
    ensures { result ≡ level_in attr }
{
    (attr / 0x100 % 4) as u8
}

/// Whether a block is movable that is asked for so.
fn is_movable(attr: u16) -> bool
    ensures { result ≡ is_movable attr }
{
    !has_attribute_bit(attr, 0x4000)
        && !has_attribute_bit(attr, 0x0002)
        && !has_attribute_bit(attr, 0x0001)
}

/// Places a block for the script.
pub fn alloc_block(
    alloc: Global,
    size: u32,
    attr: u16,
    address: u32,
    loader: &mut Loader,
) -> Result<Line, LineFault>
    requires { 1 ≤ size }
    ensures { (store : StoreSeen) → HasLine result (machine.Alloc size attr address) loader.old loader.new store store }
{
    let want = alloc_want(size, attr, address);
    match loader.alloc(
        &want,
        has_attribute_bit(attr, 0x8000),
        level_in(attr),
        is_movable(attr),
    ) {
        Ok(handle) => placed_line(alloc, handle, address_of(loader, handle)),
        Err(fault) => refusal_line(alloc, fault),
    }
}

/// Releases a block of the script.
pub fn free(alloc: Global, handle: Handle, loader: &mut Loader) -> Result<Line, LineFault>
    ensures { (store : StoreSeen) → HasLine result (machine.Free handle) loader.old loader.new store store }
{
    done_line(alloc, loader.free(handle))
}

/// Locks a block of the script.
pub fn lock(alloc: Global, handle: Handle, loader: &mut Loader) -> Result<Line, LineFault>
    ensures { (store : StoreSeen) → HasLine result (machine.Lock handle) loader.old loader.new store store }
{
    done_line(alloc, loader.lock(handle))
}

/// Unlocks a block of the script.
pub fn unlock(alloc: Global, handle: Handle, loader: &mut Loader) -> Result<Line, LineFault>
    ensures { (store : StoreSeen) → HasLine result (machine.Unlock handle) loader.old loader.new store store }
{
    done_line(alloc, loader.unlock(handle))
}

/// Sets the purge level of a block of the script.
pub fn level(alloc: Global, handle: Handle, n: u8, loader: &mut Loader) -> Result<Line, LineFault>
    ensures { (store : StoreSeen) → HasLine result (machine.Level handle n) loader.old loader.new store store }
{
    done_line(alloc, loader.level(handle, n))
}

/// Reports the state of a handle's block.
pub fn state(alloc: Global, handle: Handle, loader: &Loader) -> Result<Line, LineFault>
    ensures { (store : StoreSeen) → HasLine result (machine.StateOf handle) loader.now loader.now store store }
{
    match loader.handle(handle) {
        Ok(state) => state_line(alloc, state),
        Err(fault) => refusal_line(alloc, fault),
    }
}

/// Reports how many bytes are free.
pub fn room(alloc: Global, loader: &Loader) -> Result<Line, LineFault>
    ensures { (store : StoreSeen) → HasLine result machine.Room loader.now loader.now store store }
{
    room_line(alloc, loader.room())
}

/// Slides the movable blocks down.
pub fn compact(alloc: Global, loader: &mut Loader) -> Result<Line, LineFault>
    ensures { (store : StoreSeen) → HasLine result machine.Compact loader.old loader.new store store }
{
    moved_line(alloc, loader.compact())
}
