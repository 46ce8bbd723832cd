//! Carrying out a slide that was planned: block by block, in order of address, with its bytes.

ghost use Rattle.std.specs.Prelude.{◌≡◌, ◌≤◌, cond, [], slice_set};
ghost use Rattle.iigs_meaning.specs.Slots.{slot_at};
ghost use Rattle.iigs_meaning.specs.Memory.{KeepsBut};
ghost use Rattle.iigs_meaning.specs.Blocks.{AreApart};
ghost use Rattle.iigs_meaning.specs.Slide.{is_moved, count_moved, Slides, AreSettled};
ghost use Rattle.iigs_compact_memory.specs.Carried.{CanCarry};

use iigs_meaning::Stale;
use iigs_memory::{Banks, Handle, ShiftFault};
use iigs_places::BlockPlaces;

// Moves a block, which is at an address, to where it is in the plan, and counts it if that is another one.
fn carry(banks: &mut Banks, plan: &BlockPlaces, h: Handle, at: u32) -> u32
    requires can { CanCarry banks.old.banks banks.old.slots plan.now.slots h at }
    ensures carried { banks.new.slots ≡ slice_set banks.old.slots h.slot (slot_at plan.now.slots h.slot) }
    ensures kept { KeepsBut banks.old banks.new [] }
    ensures moved { result ≡ cond (is_moved (slot_at banks.old.slots h.slot) (slot_at plan.now.slots h.slot)) 1 0 }
    ensures one { result ≤ 1 }
{
    let to = match plan.look(h) {
        Ok(block) => block.at.unwrap_or(at),
        Err(Stale) => unreachable!(),
    };
    if to == at {
        return 0;
    }
    match banks.shift(h, to) {
        Ok(()) => {}
        Err(ShiftFault::Stale) => unreachable!(),
        Err(ShiftFault::Empty) => unreachable!(),
        Err(ShiftFault::Locked) => unreachable!(),
        Err(ShiftFault::Higher) => unreachable!(),
        Err(ShiftFault::NoFit) => unreachable!(),
    }
    1
}

/// Slides blocks down as in the plan, and counts those that changed their address.
pub fn carry_out(banks: &mut Banks, plan: &BlockPlaces) -> u32
    requires apart { AreApart banks.old.banks banks.old.slots }
    requires settled { AreSettled banks.old.banks banks.old.slots }
    requires planned { Slides banks.old.banks banks.old.slots plan.now.slots }
    ensures slots { banks.new.slots ≡ plan.now.slots }
    ensures kept { KeepsBut banks.old banks.new [] }
    ensures count { result ≡ count_moved banks.old.slots banks.new.slots }
{
    let mut moved = 0;
    let mut limit = 0;
    while let Some(first) = banks.places().first_from(limit) {
        moved += carry(banks, plan, first.handle, first.at);
        limit = first.at + 1;
    }
    moved
}
