//! A pointer to a load file, or to none, as C keeps it.

ghost use Rattle.std.specs.Prelude.{◌≡◌, None, Some, List, Option};
ghost use Rattle.omf_format.specs.File.{Segment};

use c_box::Slot;
use omf_cells::LoadFile;
use std::alloc::Global;
use std::marker::Model;

/// A pointer to a load file, or null. Dropping one frees nothing.
#[repr(C)]
#[derive(Drop)]
pub struct Pointer {
    at: *mut u8,
    alloc: Global,
    pub ghost value: { Option (List Segment) },
}

impl Model for Pointer {
    ghost use Rattle.std.specs.Prelude.{None, Some};
    ghost use Rattle.std.specs.Box.Ownership.{box_owns};
    ghost use Rattle.std.specs.contracts.impls.GlobalAllocator.TheImpl.{ghosts};
    ghost use Rattle.omf_cells.specs.contracts.load.LoadFile.{the_row};
    ghost use base.Fml.{ftrue};
    ghost use denote.Signature.{static_lft};

    ghost also_owns = { λ p. elim p.value [ None ↦ ftrue | Some x ↦ box_owns (ghosts.dealloc_token p.alloc) (the_row static_lft) p.at x ] };
}

impl Pointer {
    /// The pointer of a slot.
    pub fn of(slot: Slot<LoadFile<'static>, Global>) -> Pointer
        ensures { result.value ≡ slot.entry.value }
    {
        let Slot { at, alloc } = slot;
        Pointer {
            at: at as *mut u8,
            alloc,
        }
    }

    /// The slot again.
    pub fn into_slot(self) -> Slot<LoadFile<'static>, Global>
        ensures { result.value ≡ self.value }
    {
        let Pointer { at, alloc } = self;
        Slot {
            at: at as *mut LoadFile<'static>,
            alloc,
        }
    }
}
