//! What is done once blocks were placed: their bytes are made zeros, and their handles are given.

ghost use Rattle.std.specs.Prelude.{◌≡◌, ◌++◌, ◌+◌, ◌≤◌, take, drop, replicate, map, length};
ghost use Rattle.iigs_places.specs.Alls.{handle_of};
ghost use Rattle.iigs_memory.specs.Cleared.{FitIn, with_zeroed_blocks};
ghost use Rattle.iigs_memory.specs.Store.{IsBlank};

use iigs_meaning::{Handle, Want};
use iigs_places::{BlockPlaces, PlacedBlock};

fn fill(bytes: &mut Vec<u8>, start: usize, size: usize)
    requires { start + size ≤ length bytes.old.items }
    ensures { bytes.new.items ≡ take start bytes.old.items ++ (replicate size 0 ++ drop (start + size) bytes.old.items) }
{
    bytes.slice_mut(start..start + size).fill(0);
}

/// Makes bytes of the buffer zeros. Where it is blank they are zeros already.
pub fn clear(bytes: &mut Vec<u8>, blank: bool, start: usize, size: usize)
    requires within { start + size ≤ length bytes.old.items }
    requires blank { IsBlank blank bytes.old.items }
    ensures value { bytes.new.items ≡ take start bytes.old.items ++ (replicate size 0 ++ drop (start + size) bytes.old.items) }
    ensures blank { IsBlank blank bytes.new.items }
{
    if !blank {
        fill(bytes, start, size);
    }
}

fn copy(bytes: &mut Vec<u8>, from: usize, size: usize, start: usize)
    requires from { from + size ≤ length bytes.old.items }
    requires to { start + size ≤ length bytes.old.items }
    ensures { bytes.new.items ≡ take start bytes.old.items ++ (take size (drop from bytes.old.items) ++ drop (start + size) bytes.old.items) }
{
    bytes.as_mut_slice().copy_within(from..from + size, start);
}

/// Copies bytes of the buffer to another place, which may overlap theirs. Where it is blank they are there already.
pub fn copy_bytes(bytes: &mut Vec<u8>, blank: bool, from: usize, size: usize, start: usize)
    requires from { from + size ≤ length bytes.old.items }
    requires to { start + size ≤ length bytes.old.items }
    requires blank { IsBlank blank bytes.old.items }
    ensures value { bytes.new.items ≡ take start bytes.old.items ++ (take size (drop from bytes.old.items) ++ drop (start + size) bytes.old.items) }
    ensures blank { IsBlank blank bytes.new.items }
{
    if !blank {
        copy(bytes, from, size, start);
    }
}

/// Makes the bytes of all these blocks zeros. Where the buffer is blank they are zeros already.
pub fn clear_all(
    places: &BlockPlaces,
    bytes: &mut Vec<u8>,
    blank: bool,
    wants: &[Want],
    made: &[PlacedBlock],
)
    requires lengths { length wants.now ≡ length made.now }
    requires blank { IsBlank blank bytes.old.items }
    requires inside { FitIn places.now.banks (length bytes.old.items) wants.now made.now }
    ensures value { bytes.new.items ≡ with_zeroed_blocks places.now.banks wants.now made.now bytes.old.items }
    ensures blank { IsBlank blank bytes.new.items }
{
    for place in 0..made.len() {
        clear(
            bytes,
            blank,
            places.offset(made[place].at),
            wants[place].size as usize,
        );
    }
}

/// Gives the handles of what was put.
pub fn give(made: &[PlacedBlock], handles: &mut [Handle])
    requires { length handles.old ≡ length made.now }
    ensures { handles.new ≡ map handle_of made.now }
{
    for place in 0..made.len() {
        handles[place] = made[place].handle;
    }
}
