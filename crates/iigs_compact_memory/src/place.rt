//! Placements with room made by purges, and else by purges and a slide.

ghost use Rattle.std.specs.Prelude.{◌≡◌, ℕ, [], IfErr, IfOk, IsSome, IsSomeAnd, IsTrue, None, OnErr, false};
ghost use Rattle.iigs_meaning.specs.Slots.{get, new_handle};
ghost use Rattle.iigs_meaning.specs.Fits.{IsWant};
ghost use Rattle.iigs_meaning.specs.Placement.{HasNoRoom};
ghost use Rattle.iigs_meaning.specs.Puts.{IsPlaceRefusal, IsReplaceRefusal};
ghost use Rattle.iigs_meaning.specs.Memory.{KeepsBut, IsPlaced, IsReplaced};
ghost use Rattle.iigs_meaning.specs.Slide.{AreSettled, PurgesOrSlides};
ghost use Rattle.iigs_compact_memory.specs.Needs.{NoneAfter, NeedsPurges};

use crate::carry::carry_out;
use crate::needs::least_purges;
use iigs_meaning::{Handle, PlaceFault, Want};
use iigs_memory::Banks;
use iigs_places::BlockPlaces;

// Purges as few blocks as are needed for a slide to make room for the want, and slides. Where none makes room, nothing is
// done.
fn make_room(banks: &mut Banks, trial: &mut BlockPlaces, want: &Want) -> bool
    requires want { IsWant want.now }
    requires banks { trial.old.banks ≡ banks.old.banks }
    requires settled { AreSettled banks.old.banks banks.old.slots }
    ensures yes { IsTrue result → (count : ℕ) × NeedsPurges banks.old.banks banks.old.slots want.now count banks.new.slots }
    ensures kept { IsTrue result → KeepsBut banks.old banks.new [] }
    ensures no { result ≡ false → (count : ℕ) → NoneAfter banks.old.banks banks.old.slots want.now count }
    ensures same { result ≡ false → banks.new ≡ banks.old }
    ensures settled { AreSettled banks.new.banks banks.new.slots }
    ensures banks { trial.new.banks ≡ banks.new.banks }
{
    let Some(count) = least_purges(banks.places(), trial, want) else {
        return false;
    };
    banks.purge_first(count);
    banks.blocks_lie_apart();
    carry_out(banks, trial);
    true
}

// Places a block for which there is no room by purges alone.
fn slide_and_place(
    banks: &mut Banks,
    trial: &mut BlockPlaces,
    want: &Want,
    user: u16,
    locked: bool,
    level: u8,
    movable: bool,
) -> Result<Handle, PlaceFault>
    requires want { IsWant want.now }
    requires banks { trial.old.banks ≡ banks.old.banks }
    requires settled { AreSettled banks.old.banks banks.old.slots }
    requires none { HasNoRoom banks.old.banks banks.old.slots want.now }
    requires handle { IsSome (new_handle banks.old.slots) }
    ensures placed { IfOk result (λ h. IsPlaced PurgesOrSlides banks.old want.now user locked level movable h banks.new) }
    ensures refused { IfErr result (IsPlaceRefusal PurgesOrSlides banks.old.banks banks.old.slots want.now) }
    ensures err { OnErr result (banks.new ≡ banks.old) }
    ensures settled { AreSettled banks.new.banks banks.new.slots }
    ensures banks { trial.new.banks ≡ banks.new.banks }
{
    if !make_room(banks, trial, want) {
        return Err(PlaceFault::NoRoom(0));
    }
    match banks.put(want, user, locked, level, movable) {
        Ok(h) => Ok(h),
        Err(PlaceFault::Stale) => unreachable!(),
        Err(PlaceFault::NotEmpty) => unreachable!(),
        Err(PlaceFault::NoHandle) => unreachable!(),
        Err(PlaceFault::NoRoom(_)) => unreachable!(),
        Err(PlaceFault::Memory) => unreachable!(),
    }
}

/// Places a block under a new handle. Blocks are purged for it as needed, and where none makes room, as few as are needed for
/// a slide to make it. `trial` is scratch space.
pub fn place(
    banks: &mut Banks,
    trial: &mut BlockPlaces,
    want: &Want,
    user: u16,
    locked: bool,
    level: u8,
    movable: bool,
) -> Result<Handle, PlaceFault>
    requires want { IsWant want.now }
    requires banks { trial.old.banks ≡ banks.old.banks }
    requires settled { AreSettled banks.old.banks banks.old.slots }
    ensures placed { IfOk result (λ h. IsPlaced PurgesOrSlides banks.old want.now user locked level movable h banks.new) }
    ensures refused { IfErr result (IsPlaceRefusal PurgesOrSlides banks.old.banks banks.old.slots want.now) }
    ensures err { OnErr result (banks.new ≡ banks.old) }
    ensures settled { AreSettled banks.new.banks banks.new.slots }
    ensures banks { trial.new.banks ≡ banks.new.banks }
{
    match banks.put(want, user, locked, level, movable) {
        Ok(h) => Ok(h),
        Err(PlaceFault::NoRoom(_)) => {
            slide_and_place(banks, trial, want, user, locked, level, movable)
        }
        Err(PlaceFault::NoHandle) => Err(PlaceFault::NoHandle),
        Err(PlaceFault::Stale) => unreachable!(),
        Err(PlaceFault::NotEmpty) => unreachable!(),
        Err(PlaceFault::Memory) => unreachable!(),
    }
}

// Places an empty block anew for which there is no room by purges alone.
fn slide_and_replace(
    banks: &mut Banks,
    trial: &mut BlockPlaces,
    h: Handle,
    want: &Want,
) -> Result<(), PlaceFault>
    requires want { IsWant want.now }
    requires banks { trial.old.banks ≡ banks.old.banks }
    requires settled { AreSettled banks.old.banks banks.old.slots }
    requires none { HasNoRoom banks.old.banks banks.old.slots want.now }
    requires empty { IsSomeAnd (get banks.old.slots h) (λ block. block.at ≡ None) }
    ensures replaced { IfOk result (λ _. IsReplaced PurgesOrSlides banks.old h want.now banks.new) }
    ensures refused { IfErr result (IsReplaceRefusal PurgesOrSlides banks.old.banks banks.old.slots h want.now) }
    ensures err { OnErr result (banks.new ≡ banks.old) }
    ensures settled { AreSettled banks.new.banks banks.new.slots }
    ensures banks { trial.new.banks ≡ banks.new.banks }
{
    if !make_room(banks, trial, want) {
        return Err(PlaceFault::NoRoom(0));
    }
    match banks.replace(h, want) {
        Ok(()) => Ok(()),
        Err(PlaceFault::Stale) => unreachable!(),
        Err(PlaceFault::NotEmpty) => unreachable!(),
        Err(PlaceFault::NoHandle) => unreachable!(),
        Err(PlaceFault::NoRoom(_)) => unreachable!(),
        Err(PlaceFault::Memory) => unreachable!(),
    }
}

/// Places an empty block anew under its handle, with room made as for `place`. `trial` is scratch space.
pub fn replace(
    banks: &mut Banks,
    trial: &mut BlockPlaces,
    h: Handle,
    want: &Want,
) -> Result<(), PlaceFault>
    requires want { IsWant want.now }
    requires banks { trial.old.banks ≡ banks.old.banks }
    requires settled { AreSettled banks.old.banks banks.old.slots }
    ensures replaced { IfOk result (λ _. IsReplaced PurgesOrSlides banks.old h want.now banks.new) }
    ensures refused { IfErr result (IsReplaceRefusal PurgesOrSlides banks.old.banks banks.old.slots h want.now) }
    ensures err { OnErr result (banks.new ≡ banks.old) }
    ensures settled { AreSettled banks.new.banks banks.new.slots }
    ensures banks { trial.new.banks ≡ banks.new.banks }
{
    match banks.replace(h, want) {
        Ok(()) => Ok(()),
        Err(PlaceFault::NoRoom(_)) => slide_and_replace(banks, trial, h, want),
        Err(PlaceFault::Stale) => Err(PlaceFault::Stale),
        Err(PlaceFault::NotEmpty) => Err(PlaceFault::NotEmpty),
        Err(PlaceFault::NoHandle) => unreachable!(),
        Err(PlaceFault::Memory) => unreachable!(),
    }
}
