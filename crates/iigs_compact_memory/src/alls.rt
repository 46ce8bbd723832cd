//! Several blocks placed in order, all or none, with slides where these are needed.

ghost use Rattle.std.specs.Prelude.{◌≡◌, ◌≤◌, ℕ, [], All, Contains, IfErr, IsSome, IsTrue, OnOk, count_by, false, length, map, true, vec_capacity};
ghost use Rattle.iigs_meaning.specs.declared.handles.Handle as declared;
ghost use Rattle.iigs_meaning.specs.Slots.{is_free, new_handle};
ghost use Rattle.iigs_meaning.specs.Fits.{IsWant};
ghost use Rattle.iigs_meaning.specs.Puts.{Puts, PutsAll, LacksRoom, IsPlaceAllRefusal, slots_for};
ghost use Rattle.iigs_meaning.specs.Memory.{KeepsBut, IsThere};
ghost use Rattle.iigs_meaning.specs.Slide.{AreSettled, PurgesOrSlides};
ghost use Rattle.iigs_compact_memory.specs.Alls.{AreZeros, CanPutAll};

use crate::needs::least_purges;
use crate::place::place;
use iigs_meaning::{Handle, PlaceFault, Want};
use iigs_memory::Banks;
use iigs_places::BlockPlaces;
use std::mem;

// Places a block for a want on the plan, locked with level 0, after purges and a slide where it needs them, if there is room.
fn plan_one(plan: &mut BlockPlaces, trial: &mut BlockPlaces, want: &Want, user: u16) -> bool
    requires want { IsWant want.now }
    requires banks { trial.old.banks ≡ plan.old.banks }
    requires settled { AreSettled plan.old.banks plan.old.slots }
    requires handle { IsSome (new_handle plan.old.slots) }
    ensures yes { IsTrue result → (h : declared.Handle) × Puts PurgesOrSlides plan.old.banks plan.old.slots want.now user true 0 false h plan.new.slots }
    ensures no { result ≡ false → LacksRoom PurgesOrSlides plan.old.banks plan.old.slots want.now }
    ensures settled { AreSettled plan.new.banks plan.new.slots }
    ensures banks { (plan.new.banks ≡ plan.old.banks) × (trial.new.banks ≡ plan.old.banks) }
{
    match plan.place(want, user, true, 0, false) {
        Ok(_) => return true,
        Err(PlaceFault::NoRoom(_)) => {}
        Err(PlaceFault::Stale) => unreachable!(),
        Err(PlaceFault::NotEmpty) => unreachable!(),
        Err(PlaceFault::NoHandle) => unreachable!(),
        Err(PlaceFault::Memory) => unreachable!(),
    }
    let Some(_) = least_purges(plan, trial, want) else {
        return false;
    };
    mem::swap(plan, trial);
    match plan.place(want, user, true, 0, false) {
        Ok(_) => true,
        Err(PlaceFault::Stale) => unreachable!(),
        Err(PlaceFault::NotEmpty) => unreachable!(),
        Err(PlaceFault::NoHandle) => unreachable!(),
        Err(PlaceFault::NoRoom(_)) => unreachable!(),
        Err(PlaceFault::Memory) => unreachable!(),
    }
}

/// Places blocks for wants in order on the plan, locked with level 0, with purges and slides as they need them. `trial` is
/// scratch space.
pub fn plan_all(
    plan: &mut BlockPlaces,
    trial: &mut BlockPlaces,
    user: u16,
    wants: &[Want],
) -> Result<(), PlaceFault>
    requires wants { All IsWant wants.now }
    requires banks { trial.old.banks ≡ plan.old.banks }
    requires settled { AreSettled plan.old.banks plan.old.slots }
    requires free { length wants.now ≤ count_by is_free plan.old.slots }
    ensures planned { OnOk result (CanPutAll plan.old.banks user plan.old.slots wants.now) }
    ensures refused { IfErr result (IsPlaceAllRefusal PurgesOrSlides plan.old.banks user plan.old.slots wants.now) }
    ensures banks { (plan.new.banks ≡ plan.old.banks) × (trial.new.banks ≡ plan.old.banks) }
{
    plan.know_arranged();
    for place in 0..wants.len() {
        if !plan_one(plan, trial, &wants[place], user) {
            return Err(PlaceFault::NoRoom(place as u32));
        }
    }
    Ok(())
}

/// Places blocks for wants in order, locked with level 0, which is known to succeed, and stores their handles in `handles`. `trial` is
/// scratch space.
pub fn place_each(
    banks: &mut Banks,
    trial: &mut BlockPlaces,
    user: u16,
    wants: &[Want],
    handles: &mut Vec<Handle>,
)
    requires wants { All IsWant wants.now }
    requires few { length wants.now ≤ 4096 }
    requires room { 4096 ≤ vec_capacity handles.old }
    requires banks { trial.old.banks ≡ banks.old.banks }
    requires settled { AreSettled banks.old.banks banks.old.slots }
    requires can { CanPutAll banks.old.banks user banks.old.slots wants.now }
    ensures puts { PutsAll PurgesOrSlides banks.old.banks user banks.old.slots wants.now handles.new.items banks.new.slots }
    ensures zeros { AreZeros banks.new wants.now handles.new.items }
    ensures kept { KeepsBut banks.old banks.new (map (λ h. h.slot) handles.new.items) }
    ensures there { (place : ℕ) → ¬ Contains (map (λ h. h.slot) handles.new.items) place → IsThere banks.new place → IsThere banks.old place }
    ensures settled { AreSettled banks.new.banks banks.new.slots }
    ensures banks { trial.new.banks ≡ banks.new.banks }
    ensures capacity { vec_capacity handles.old ≤ vec_capacity handles.new }
{
    handles.clear();
    for number in 0..wants.len() {
        match place(banks, trial, &wants[number], user, true, 0, false) {
            Ok(h) => handles.push_reserved(h),
            Err(PlaceFault::Stale) => unreachable!(),
            Err(PlaceFault::NotEmpty) => unreachable!(),
            Err(PlaceFault::NoHandle) => unreachable!(),
            Err(PlaceFault::NoRoom(_)) => unreachable!(),
            Err(PlaceFault::Memory) => unreachable!(),
        }
    }
}

/// Releases a user's handles, if it is asked for.
pub fn release(banks: &mut Banks, user: u16, fresh: bool)
    ensures slots { banks.new.slots ≡ slots_for banks.old.slots user fresh }
    ensures kept { KeepsBut banks.old banks.new [] }
{
    let mut none = [];
    match banks.place_all(user, fresh, &[], &mut none) {
        Ok(()) => {}
        Err(PlaceFault::Stale) => unreachable!(),
        Err(PlaceFault::NotEmpty) => unreachable!(),
        Err(PlaceFault::NoHandle) => unreachable!(),
        Err(PlaceFault::NoRoom(_)) => unreachable!(),
        Err(PlaceFault::Memory) => unreachable!(),
    }
}
