//! Where the blocks of a table lie.

ghost use Rattle.std.specs.Prelude.{◌≡◌, ◌≢◌, ◌==◌, ◌<◌, ◌∷◌, [], ℕ, not, filter, All, Contains, IfOk, IsTrue, vec_len};
ghost use Rattle.std.specs.List.Sorted.{IsPermutation};
ghost use Rattle.iigs_places.specs.Spots.{IsBoundedSlot};
ghost use Rattle.iigs_places.specs.declared.marks.BlockMark as declared;
ghost use Rattle.iigs_places.specs.Marks.{AreOnce, HaveMarks, IsSized};
ghost use Rattle.iigs_places.specs.Runs.{HasRoom, IsLaid, IsLayout};

use crate::marks::{BlockMark, add_mark, drop_mark, mark_all, move_mark};
use crate::runs::{add_run, join_marks};
use crate::spots::BlockSpot;
use iigs_handles::{Handles, SLOTS};
use iigs_meaning::Block;
use std::alloc::{AllocError, Global};

/// Where the blocks of a table lie.
#[derive(Drop)]
pub struct BlockLayout {
    /// The blocks that are there, in order of address.
    pub marks: Vec<BlockMark>,
    /// Their bytes, in order of address, where they were joined.
    pub runs: Vec<BlockSpot>,
    /// Whether the runs are those of the blocks.
    pub joined: bool,
}

/// Where no block lies, with room for all.
pub fn new_layout(alloc: Global) -> Result<BlockLayout, AllocError>
    ensures marks { IfOk result (λ layout. layout.marks.items ≡ []) }
    ensures runs { IfOk result (λ layout. layout.runs.items ≡ []) }
    ensures room { IfOk result HasRoom }
{
    let marks = Vec::with_capacity(alloc, SLOTS)?;
    let runs = Vec::with_capacity(alloc, SLOTS)?;
    Ok(BlockLayout {
        marks,
        runs,
        joined: true,
    })
}

/// Lays out the blocks of a table.
pub fn lay_all(layout: &mut BlockLayout, table: &Handles<Block>)
    requires bounded { All IsBoundedSlot table.now }
    requires room { HasRoom layout.old }
    ensures laid { IsLayout table.now layout.new }
    ensures joined { IsTrue layout.new.joined }
{
    mark_all(table, &mut layout.marks);
    join_marks(&layout.marks, &mut layout.runs);
    layout.joined = true;
}

/// Joins the runs, if they aren't those of the blocks.
pub fn join(layout: &mut BlockLayout)
    requires laid { IsLaid layout.old }
    requires sized { All IsSized layout.old.marks.items }
    ensures laid { IsLaid layout.new }
    ensures joined { IsTrue layout.new.joined }
    ensures marks { layout.new.marks.items ≡ layout.old.marks.items }
{
    if !layout.joined {
        join_marks(&layout.marks, &mut layout.runs);
        layout.joined = true;
    }
}

// Whether a mark and a run have room still.
fn has_more(layout: &BlockLayout) -> bool
    ensures { IsTrue result → (vec_len layout.now.marks < 4096) × (vec_len layout.now.runs < 4096) }
{
    layout.marks.len() < SLOTS && layout.runs.len() < SLOTS
}

// Adds a block.
fn lay_more(layout: &mut BlockLayout, mark: BlockMark)
    requires laid { IsLaid layout.old }
    requires joined { IsTrue layout.old.joined }
    requires sized { IsSized mark }
    requires marks_more { vec_len layout.old.marks < 4096 }
    requires runs_more { vec_len layout.old.runs < 4096 }
    ensures laid { IsLaid layout.new }
    ensures added { IsPermutation (mark ∷ layout.old.marks.items) layout.new.marks.items }
{
    add_mark(&mut layout.marks, mark);
    add_run(&mut layout.runs, mark.at, mark.end);
}

/// Lays out a table in which a block was put. Blocks with a turn below the limit were purged for it.
pub fn lay_put(layout: &mut BlockLayout, table: &Handles<Block>, mark: BlockMark, limit: u32)
    requires laid { IsLaid layout.old }
    requires joined { IsTrue layout.old.joined }
    requires bounded { All IsBoundedSlot table.now }
    requires sized { IsSized mark }
    requires more { limit ≡ 0 → HaveMarks table.now (mark ∷ layout.old.marks.items) }
    ensures { IsLayout table.now layout.new }
{
    if limit == 0 && has_more(layout) {
        lay_more(layout, mark);
    } else {
        lay_all(layout, table);
    }
}

/// Lets the block of a slot go, which is at an address if it is there.
pub fn lay_less(layout: &mut BlockLayout, slot: u16, at: u32)
    requires laid { IsLaid layout.old }
    requires same { All (λ mark. mark.slot ≡ slot → mark.at ≡ at) layout.old.marks.items }
    requires sized { All IsSized layout.old.marks.items }
    ensures laid { IsLaid layout.new }
    ensures marks { layout.new.marks.items ≡ filter (λ mark. not (mark.slot == slot)) layout.old.marks.items }
{
    drop_mark(&mut layout.marks, slot, at);
    join_marks(&layout.marks, &mut layout.runs);
    layout.joined = true;
}

/// Lets the block of a slot go, which is at an address if it is there, and leaves the runs for later.
pub fn lay_gone(layout: &mut BlockLayout, slot: u16, at: u32)
    requires laid { IsLaid layout.old }
    requires same { All (λ mark. mark.slot ≡ slot → mark.at ≡ at) layout.old.marks.items }
    ensures laid { IsLaid layout.new }
    ensures marks { layout.new.marks.items ≡ filter (λ mark. not (mark.slot == slot)) layout.old.marks.items }
{
    drop_mark(&mut layout.marks, slot, at);
    layout.joined = false;
}

/// Moves the block of a slot, which is at an address, and leaves the runs for later.
pub fn lay_moved(layout: &mut BlockLayout, at: u32, mark: BlockMark)
    requires laid { IsLaid layout.old }
    requires same { All (λ other. other.slot ≡ mark.slot → other.at ≡ at) layout.old.marks.items }
    requires once { AreOnce layout.old.marks.items }
    requires marked { (other : declared.BlockMark) × Contains layout.old.marks.items other × (other.slot ≡ mark.slot) }
    ensures laid { IsLaid layout.new }
    ensures marks { IsPermutation (mark ∷ filter (λ other. not (other.slot == mark.slot)) layout.old.marks.items) layout.new.marks.items }
{
    move_mark(&mut layout.marks, at, mark);
    layout.joined = false;
}
