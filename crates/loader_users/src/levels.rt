//! Blocks of segments that wake or idle.

ghost use Rattle.std.specs.Prelude.{◌≡◌, IsSome, IsSomeAnd};
ghost use Rattle.iigs_meaning.specs.Slots.{get};
ghost use Rattle.iigs_meaning.specs.Memory.{Changes};
ghost use Rattle.loader_machine.specs.Steps.{active_block, idle_block};

use iigs_compact_memory::CompactBanks;
use iigs_meaning::{BlockFault, Handle};

/// The purge level of an active segment: it is never purged.
const ACTIVE: u8 = 0;

/// The purge level of an idle segment: it is purged first.
const IDLE: u8 = 3;

// The level of a block that is there.
fn set_level(banks: &mut CompactBanks, h: Handle, level: u8)
    requires { IsSomeAnd (get banks.old.slots h) (λ block. IsSome block.at) }
    ensures { Changes banks.old h (λ block. record block { level = level }) banks.new }
{
    match banks.set_level(h, level) {
        Ok(()) => {}
        Err(BlockFault::Stale) => unreachable!(),
        Err(BlockFault::Empty) => unreachable!(),
    }
}

/// A segment's block that is there becomes idle: unlocked, with level 3.
pub fn idle(banks: &mut CompactBanks, h: Handle)
    requires { IsSomeAnd (get banks.old.slots h) (λ block. IsSome block.at) }
    ensures { Changes banks.old h idle_block banks.new }
{
    match banks.unlock(h) {
        Ok(()) => set_level(banks, h, IDLE),
        Err(BlockFault::Stale) => unreachable!(),
        Err(BlockFault::Empty) => unreachable!(),
    }
}

/// A segment's block that is there becomes active: locked, with level 0.
pub fn activate(banks: &mut CompactBanks, h: Handle)
    requires { IsSomeAnd (get banks.old.slots h) (λ block. IsSome block.at) }
    ensures { Changes banks.old h active_block banks.new }
{
    match banks.lock(h) {
        Ok(()) => set_level(banks, h, ACTIVE),
        Err(BlockFault::Stale) => unreachable!(),
        Err(BlockFault::Empty) => unreachable!(),
    }
}
