//! Marks of blocks in order of address, by which the block that has a byte is found.

ghost use Rattle.std.specs.Prelude.{◌≡◌, ◌≢◌, ℕ, ◌-◌, ◌+◌, ◌^◌, ◌<◌, ◌≤◌, ◌==◌, ◌∷◌, not, false, IsTrue, slice_index_or, filter, length, Contains, MatchOption, All, vec_len, vec_capacity};
ghost use Rattle.std.specs.List.Sorted.{IsNonDecreasingBy, IsPermutation};
ghost use Rattle.iigs_meaning.specs.Slots.{slot_at};
ghost use Rattle.iigs_places.specs.declared.marks.BlockMark as declared;
ghost use Rattle.iigs_places.specs.Spots.{IsBoundedSlot};
ghost use Rattle.iigs_places.specs.Marks.{mark_in, AreGathered, HaveMarks, AreOnce, AreMarksApart, IsSized, CountsUpTo, CountsBefore, IsLast, IsFirstFrom, IsLastOther, LiesBeside, SharesByte};

use crate::spots::{insert_reserved, push_some};
use iigs_handles::Handles;
use iigs_meaning::{Block, Slot, SlotContent};

/// Where a block begins and ends, and in which slot it is.
#[derive(Clone, Copy)]
pub struct BlockMark {
    /// The address of its first byte.
    pub at: u32,
    /// The address after its last byte.
    pub end: u32,
    pub slot: u16,
}

// The mark of the block in a slot, if one is there.
fn mark_of(slots: &[Slot<Block>], place: usize) -> Option<BlockMark>
    requires inside { place < length slots.now }
    requires few { length slots.now ≤ 4096 }
    requires bounded { IsBoundedSlot (slot_at slots.now place) }
    ensures { result ≡ mark_in place (slot_at slots.now place) }
{
    let SlotContent::Used(block) = &slots[place].content else {
        return None;
    };
    let Some(at) = block.at else {
        return None;
    };
    Some(BlockMark {
        at,
        end: at + block.want.size,
        slot: place as u16,
    })
}

// The marks of the blocks that are there in the first `count` slots, in their order.
fn gather_marks(slots: &[Slot<Block>], count: usize, marks: &mut Vec<BlockMark>)
    requires few { length slots.now ≤ 4096 }
    requires inside { count ≤ length slots.now }
    requires bounded { All IsBoundedSlot slots.now }
    requires room { count ≤ vec_capacity marks.old }
    ensures gathered { AreGathered slots.now count marks.new.items }
    ensures few { length marks.new.items ≤ count }
    ensures capacity { vec_capacity marks.old ≤ vec_capacity marks.new }
{
    marks.clear();
    for place in 0..count {
        push_some(marks, mark_of(slots, place));
    }
}

/// Marks the blocks that are there. Slots that were never used have none.
pub fn mark_all(table: &Handles<Block>, marks: &mut Vec<BlockMark>)
    requires bounded { All IsBoundedSlot table.now }
    requires room { 4096 ≤ vec_capacity marks.old }
    ensures order { IsNonDecreasingBy (λ mark. mark.at) marks.new.items }
    ensures marked { HaveMarks table.now marks.new.items }
    ensures few { length marks.new.items ≤ 4096 }
    ensures capacity { vec_capacity marks.old ≤ vec_capacity marks.new }
{
    gather_marks(table.slots(), table.end(), marks);
    marks.sort_unstable_by_key(|mark| mark.at);
}

// How many marks are at an address or before it.
fn count_up_to(marks: &[BlockMark], address: u32) -> usize
    requires { IsNonDecreasingBy (λ mark. mark.at) marks.now }
    ensures count { CountsUpTo marks.now address result }
    ensures bound { result ≤ length marks.now }
{
    marks.partition_point(|mark| mark.at <= address)
}

/// The last mark at an address or before it.
pub fn last_mark(marks: &[BlockMark], address: u32) -> Option<BlockMark>
    requires { IsNonDecreasingBy (λ mark. mark.at) marks.now }
    ensures { MatchOption result ((mark : declared.BlockMark) → Contains marks.now mark → address < mark.at) (IsLast marks.now address) }
{
    let count = count_up_to(marks, address);
    if count == 0 {
        return None;
    }
    Some(marks[count - 1])
}

/// Adds a mark to marks in order.
pub fn add_mark(marks: &mut Vec<BlockMark>, mark: BlockMark)
    requires order { IsNonDecreasingBy (λ mark. mark.at) marks.old.items }
    requires room { vec_len marks.old < vec_capacity marks.old }
    ensures order { IsNonDecreasingBy (λ mark. mark.at) marks.new.items }
    ensures added { IsPermutation (mark ∷ marks.old.items) marks.new.items }
    ensures capacity { vec_capacity marks.old ≤ vec_capacity marks.new }
{
    let place = count_up_to(marks, mark.at);
    insert_reserved(marks, place, mark);
}

// How many marks are before an address.
fn count_before(marks: &[BlockMark], address: u32) -> usize
    requires { IsNonDecreasingBy (λ mark. mark.at) marks.now }
    ensures { CountsBefore marks.now address result }
{
    marks.partition_point(|mark| mark.at < address)
}

/// The first mark at an address or after it.
pub fn first_from(marks: &[BlockMark], address: u32) -> Option<BlockMark>
    requires { IsNonDecreasingBy (λ mark. mark.at) marks.now }
    ensures { MatchOption result ((mark : declared.BlockMark) → Contains marks.now mark → mark.at < address) (IsFirstFrom marks.now address) }
{
    let count = count_before(marks, address);
    if count == marks.len() {
        return None;
    }
    Some(marks[count])
}

// Of the marks of other slots the last one before an address.
fn last_other(marks: &[BlockMark], address: u32, slot: u16) -> Option<BlockMark>
    requires order { IsNonDecreasingBy (λ mark. mark.at) marks.now }
    requires once { AreOnce marks.now }
    ensures { MatchOption result ((mark : declared.BlockMark) → Contains marks.now mark → mark.slot ≢ slot → address ≤ mark.at) (IsLastOther marks.now address slot) }
{
    let count = count_before(marks, address);
    if count == 0 {
        return None;
    }
    if marks[count - 1].slot != slot {
        return Some(marks[count - 1]);
    }
    if count == 1 {
        return None;
    }
    Some(marks[count - 2])
}

/// Whether none of the `size` bytes from an address on lies in a block of another slot.
pub fn lies_beside(marks: &[BlockMark], slot: u16, address: u32, size: u32) -> bool
    requires order { IsNonDecreasingBy (λ mark. mark.at) marks.now }
    requires once { AreOnce marks.now }
    requires sized { All IsSized marks.now }
    requires apart { AreMarksApart marks.now }
    requires small { address + size < 2 ^ 32 }
    ensures yes { IsTrue result → LiesBeside marks.now slot address size }
    ensures no { result ≡ false → SharesByte marks.now slot address size }
{
    match last_other(marks, address + size, slot) {
        Some(last) => last.end <= address,
        None => true,
    }
}

// The place of a mark of a slot, whose marks are all at one address.
fn place_of(marks: &[BlockMark], slot: u16, at: u32) -> Option<usize>
    requires order { IsNonDecreasingBy (λ mark. mark.at) marks.now }
    requires same { All (λ mark. mark.slot ≡ slot → mark.at ≡ at) marks.now }
    ensures { MatchOption result (All (λ mark. mark.slot ≢ slot) marks.now)
        (λ place. (place < length marks.now) × ((d : declared.BlockMark) → (slice_index_or marks.now place d).slot ≡ slot)) }
{
    let count = count_before(marks, at);
    for place in count..marks.len() {
        if marks[place].slot == slot {
            return Some(place);
        }
        if marks[place].at != at {
            return None;
        }
    }
    None
}

/// Drops the mark of the block in a slot, which is at an address if it is there.
pub fn drop_mark(marks: &mut Vec<BlockMark>, slot: u16, at: u32)
    requires order { IsNonDecreasingBy (λ mark. mark.at) marks.old.items }
    requires same { All (λ mark. mark.slot ≡ slot → mark.at ≡ at) marks.old.items }
    ensures items { marks.new.items ≡ filter (λ mark. not (mark.slot == slot)) marks.old.items }
    ensures few { vec_len marks.new ≤ vec_len marks.old }
    ensures capacity { vec_capacity marks.old ≤ vec_capacity marks.new }
{
    while let Some(place) = place_of(marks, slot, at) {
        marks.remove(place);
    }
}

// Whether a mark that is put at a place keeps the order, where it is at an address.
fn keeps_order(marks: &[BlockMark], place: usize, address: u32) -> bool
    requires { place < length marks.now }
    ensures below { IsTrue result → (d : declared.BlockMark) → 0 < place → (slice_index_or marks.now (place - 1) d).at ≤ address }
    ensures above { IsTrue result → (d : declared.BlockMark) → place + 1 < length marks.now → address ≤ (slice_index_or marks.now (place + 1) d).at }
{
    (place == 0 || marks[place - 1].at <= address)
        && (place + 1 == marks.len() || address <= marks[place + 1].at)
}

/// Moves the one mark of a slot, which is at an address. Where the order stays, no other mark is touched.
pub fn move_mark(marks: &mut Vec<BlockMark>, at: u32, mark: BlockMark)
    requires order { IsNonDecreasingBy (λ mark. mark.at) marks.old.items }
    requires same { All (λ other. other.slot ≡ mark.slot → other.at ≡ at) marks.old.items }
    requires once { AreOnce marks.old.items }
    requires marked { (other : declared.BlockMark) × Contains marks.old.items other × (other.slot ≡ mark.slot) }
    ensures order { IsNonDecreasingBy (λ mark. mark.at) marks.new.items }
    ensures moved { IsPermutation (mark ∷ filter (λ other. not (other.slot == mark.slot)) marks.old.items) marks.new.items }
    ensures capacity { vec_capacity marks.old ≤ vec_capacity marks.new }
{
    if let Some(place) = place_of(marks, mark.slot, at) {
        if keeps_order(marks, place, mark.at) {
            marks[place] = mark;
            return;
        }
    }
    drop_mark(marks, mark.slot, at);
    add_mark(marks, mark);
}
