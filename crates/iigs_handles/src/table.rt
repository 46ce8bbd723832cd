//! The table of slots.

ghost use Rattle.std.specs.Prelude.{◌≡◌, ◌+◌, ◌<◌, ◌≤◌, ℕ, false, List, length, IfOk, IfErr, IsOk, IsTrue, IsSome, is_some, ◌↔◌, count_by, replicate};
ghost use Rattle.std.specs.Option.{option_copied, option_copied_mut};
ghost use Rattle.std.specs.Result.{result_ok};
ghost use Rattle.std.specs.List.{position_or_len};
ghost use Rattle.std.specs.Borrow.{sem, Lends};
ghost use Rattle.iigs_handles.specs.Lends.{lends_content};
ghost use Rattle.iigs_meaning.specs.Slots.{get, is_free as passes_free, slot_at, new_slot, new_handle, after_take, after_release, used_value, with_value, released as released_slot};

use iigs_meaning::{Handle, Slot, SlotContent, Stale};
use std::alloc::{AllocError, Global};
use std::marker::Model;
use std::mem;

/// How many slots a table has.
pub const SLOTS: usize = 4096;

// The generation after which a slot isn't used again.
const LAST_GENERATION: u8 = 255;

/// Why there is no table.
#[derive(Clone, Copy, PartialEq, Eq, Debug)]
pub enum HandlesFault {
    /// There is no memory for the slots.
    Memory,
}

impl From<AllocError> for HandlesFault {
    ghost use Rattle.std.specs.Prelude.{◌≡◌};
    ghost use Rattle.iigs_handles.specs.declared.table.HandlesFault.TheVariants.{Memory};

    ghost from_gives = { λ _ fault. fault ≡ Memory };

    fn from(_: AllocError) -> HandlesFault {
        HandlesFault::Memory
    }
}

/// Values under handles: 4,096 slots, each used under at most 256 handles, one after the other.
#[derive(Drop)]
pub struct Handles<T> {
    slots: Vec<Slot<T>>,
    // The place of the lowest free slot, or the number of slots.
    first: usize,
    // How many slots are free.
    free: u32,
    // The place from which on no slot was ever used.
    end: usize,
}

impl<T> Model for Handles<T> {
    ghost use Rattle.std.specs.Prelude.{List};
    ghost use Rattle.iigs_meaning.specs.declared.slots.Slot.{Slot};

    ghost Value = { List (Slot T) };

    ghost use Rattle.iigs_handles.specs.Table.{IsSound};

    ghost view = { λ s. s.slots.items };

    ghost invariant = { λ s. IsSound s.slots.items s.first s.free s.end };
}

// `count` free slots that were never used.
fn free_slots<T: Drop>(alloc: Global, count: usize) -> Result<Vec<Slot<T>>, AllocError>
    ensures { IfOk result (λ v. v.items ≡ replicate count new_slot) }
{
    let mut slots = Vec::with_capacity(alloc, count)?;
    for _ in 0..count {
        slots.push(Slot {
            generation: 0,
            content: SlotContent::Free,
        })?;
    }
    Ok(slots)
}

// The place of the first free slot, where no slot below `from` is free, or the number of slots.
fn next_free<T>(slots: &[Slot<T>], from: usize) -> usize
    requires within { from ≤ length slots.now }
    requires below { (k : ℕ) → k < from → passes_free (slot_at slots.now k) ≡ false }
    ensures { result ≡ position_or_len passes_free slots.now }
{
    for place in from..slots.len() {
        if is_free(&slots[place]) {
            return place;
        }
    }
    slots.len()
}

fn is_free<T>(slot: &Slot<T>) -> bool
    ensures { result ≡ passes_free slot.now }
{
    match &slot.content {
        SlotContent::Free => true,
        SlotContent::Used(_) => false,
        SlotContent::Retired => false,
    }
}

// What a slot becomes that is released under this generation.
fn slot_after_release<T>(generation: u8) -> Slot<T>
    ensures { result ≡ released_slot generation }
{
    if generation == LAST_GENERATION {
        return Slot {
            generation,
            content: SlotContent::Retired,
        };
    }
    Slot {
        generation: generation + 1,
        content: SlotContent::Free,
    }
}

// The value of a used slot.
fn value_of<T: Drop>(slot: Slot<T>) -> T
    requires { IsSome (used_value slot.content) }
    ensures { used_value slot.content ≡ Some result }
{
    match slot.content {
        SlotContent::Used(value) => value,
        SlotContent::Free => unreachable!(),
        SlotContent::Retired => unreachable!(),
    }
}

fn copy_slot<T: Copy>(slot: &Slot<T>) -> Slot<T>
    ensures { result ≡ slot.now }
{
    let content = match &slot.content {
        SlotContent::Free => SlotContent::Free,
        SlotContent::Used(value) => SlotContent::Used(*value),
        SlotContent::Retired => SlotContent::Retired,
    };
    Slot {
        generation: slot.generation,
        content,
    }
}

fn copy_slots<T: Copy>(to: &mut [Slot<T>], from: &[Slot<T>])
    requires { length to.old ≡ length from.now }
    ensures { to.new ≡ from.now }
{
    for place in 0..from.len() {
        to[place] = copy_slot(&from[place]);
    }
}

// The value of a used slot, to be written.
fn content_mut<T>(slot: &mut Slot<T>) -> &mut T
    requires { IsSome (used_value slot.old.content) }
    ensures* writes_back { sem 𝓛 (lends_content T.row slot.entry result) }
    ensures value { used_value slot.old.content ≡ Some result.now }
{
    match &mut slot.content {
        SlotContent::Used(value) => value,
        SlotContent::Free => unreachable!(),
        SlotContent::Retired => unreachable!(),
    }
}

impl<T: Drop> Handles<T> {
    ghost use Rattle.iigs_handles.specs.contracts.table.Handles.{the_row};
    ghost use Rattle.iigs_handles.specs.Lends.{lends_value, lends_content};

    /// A table of 4,096 free slots of generation 0.
    pub fn new(alloc: Global) -> Result<Handles<T>, HandlesFault>
        ensures slots { IfOk result (λ handles. handles ≡ replicate SLOTS new_slot) }
    {
        let slots = free_slots(alloc, SLOTS)?;
        Ok(Handles {
            slots,
            first: 0,
            free: SLOTS as u32,
            end: 0,
        })
    }

    /// Puts a value into the lowest free slot. Where no slot is free, the value is returned.
    pub fn take(&mut self, value: T) -> Result<Handle, T>
        ensures handle { result_ok result ≡ new_handle self.old }
        ensures after { self.new ≡ after_take self.old value }
        ensures back { IfErr result (λ same. same ≡ value) }
    {
        let place = self.first;
        if place >= self.slots.len() {
            return Err(value);
        }
        let generation = self.slots[place].generation;
        self.slots[place].content = SlotContent::Used(value);
        self.first = next_free(&self.slots, place + 1);
        self.free -= 1;
        self.end = self.end.max(place + 1);
        Ok(Handle {
            slot: place as u16,
            generation,
        })
    }

    /// The value of a live handle.
    pub fn look(&self, h: Handle) -> Result<&T, Stale>
        ensures { option_copied (result_ok result) ≡ get self.now h }
    {
        let Some(slot) = self.slots.get(h.slot as usize) else {
            return Err(Stale);
        };
        if slot.generation != h.generation {
            return Err(Stale);
        }
        match &slot.content {
            SlotContent::Used(value) => Ok(value),
            SlotContent::Free => Err(Stale),
            SlotContent::Retired => Err(Stale),
        }
    }

    /// The value of a live handle, to be written. The other slots stay as they are.
    pub fn change(&mut self, h: Handle) -> Result<&mut T, Stale>
        ensures* writes_back { sem 𝓛 (lends_value T.row self.entry h result) }
        ensures value { option_copied_mut (result_ok result) ≡ get self.old h }
    {
        if self.is_live(h) {
            Ok(self.value_mut(h))
        } else {
            Err(Stale)
        }
    }

    // The value of a live handle, to be written.
    fn value_mut(&mut self, h: Handle) -> &mut T
        requires { IsSome (get self.old h) }
        ensures* writes_back { sem 𝓛 (Lends (the_row T.row) T.row self.entry result (with_value self.old h)) }
        ensures value { get self.old h ≡ Some result.now }
    {
        content_mut(&mut self.slots[h.slot as usize])
    }

    /// How many slots are free.
    pub fn left(&self) -> u32
        ensures { result ≡ count_by passes_free self.now }
    {
        self.free
    }

    /// Ends a handle, and gives its value back. The slot is free under the next generation, or retired after the last.
    pub fn release(&mut self, h: Handle) -> Result<T, Stale>
        ensures value { result_ok result ≡ get self.old h }
        ensures after { self.new ≡ after_release self.old h }
    {
        if !self.is_live(h) {
            return Err(Stale);
        }
        let place = h.slot as usize;
        let next = slot_after_release(h.generation);
        let goes_on = is_free(&next);
        let slot = &mut self.slots[place];
        let old = mem::replace(slot, next);
        if goes_on {
            self.first = self.first.min(place);
            self.free += 1;
        }
        Ok(value_of(old))
    }

    /// The slots, in order.
    pub fn slots(&self) -> &[Slot<T>]
        ensures value { result.now ≡ self.now }
        ensures count { length self.now ≡ SLOTS }
    {
        &self.slots
    }

    /// A place from which on no slot was ever used.
    pub fn end(&self) -> usize
        ensures within { result ≤ SLOTS }
        ensures unused { (place : ℕ) → result ≤ place → slot_at self.now place ≡ new_slot }
    {
        self.end
    }

    /// Makes this table a copy of another, without memory. It is another table then: a handle that was released before may
    /// be live in it.
    pub fn copy_from(&mut self, other: &Handles<T>)
    where
        T: Copy,
        ensures { self.new ≡ other.now }
    {
        copy_slots(&mut self.slots, &other.slots);
        self.first = other.first;
        self.free = other.free;
        self.end = other.end;
    }

    // Whether the handle's slot is used under its generation.
    fn is_live(&self, h: Handle) -> bool
        ensures { result ≡ is_some (get self.now h) }
    {
        match self.look(h) {
            Ok(_) => true,
            Err(Stale) => false,
        }
    }
}
