//! A pointer to a loader, or to none, as C keeps it.

ghost use Rattle.std.specs.Prelude.{◌≡◌, None, Some, Option};
ghost use Rattle.loader_agrees.specs.Agrees.{Loaded};

use c_box::Slot;
use std::alloc::Global;
use std::marker::Model;
use sys_loader::Loader;

/// A pointer to a loader, or null. Dropping one frees nothing.
#[repr(C)]
#[derive(Drop)]
pub struct Pointer {
    at: *mut u8,
    alloc: Global,
    pub ghost value: { Option Loaded },
}

impl Model for Pointer {
    ghost use Rattle.std.specs.Prelude.{None, Some};
    ghost use Rattle.std.specs.Box.Ownership.{box_owns};
    ghost use Rattle.std.specs.contracts.impls.GlobalAllocator.TheImpl.{ghosts};
    ghost use Rattle.sys_loader.specs.contracts.loader.Loader.{the_row};
    ghost use base.Fml.{ftrue};

    ghost also_owns = { λ p. elim p.value [ None ↦ ftrue | Some x ↦ box_owns (ghosts.dealloc_token p.alloc) the_row p.at x ] };
}

impl Pointer {
    /// The pointer of a slot.
    pub fn of(slot: Slot<Loader, Global>) -> Pointer
        ensures { result.value ≡ slot.value }
    {
        let Slot { at, alloc } = slot;
        Pointer {
            at: at as *mut u8,
            alloc,
        }
    }

    /// The slot again.
    pub fn into_slot(self) -> Slot<Loader, Global>
        ensures { result.value ≡ self.value }
    {
        let Pointer { at, alloc } = self;
        Slot {
            at: at as *mut Loader,
            alloc,
        }
    }
}
