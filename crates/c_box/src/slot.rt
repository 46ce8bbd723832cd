//! A pointer to a value on the heap, or to none.

ghost use Rattle.std.specs.Prelude.{◌≡◌, None, Some, Option, IsSome};
ghost use Rattle.std.specs.Box.Ownership.{box_owns};
ghost use base.Fml.{ftrue};

use std::alloc::Allocator;
use std::marker::Model;

/// A box's pointer, or none. Dropping one frees nothing.
#[derive(Drop)]
pub struct Slot<T, A: Allocator> {
    pub at: *mut T,
    pub alloc: A,
    pub ghost value: { Option T },
}

impl<T, A: Allocator> Model for Slot<T, A> {
    ghost also_owns = { λ s. elim s.value [ None ↦ ftrue | Some x ↦ box_owns (A.dealloc_token s.alloc) T.row s.at x ] };
}

impl<T, A: Allocator> Slot<T, A> {
    /// A null pointer.
    pub fn empty(alloc: A) -> Slot<T, A>
        ensures { result.value ≡ None }
    {
        Slot {
            at: std::ptr::null_mut(),
            alloc,
        }
    }

    /// The pointer of a box.
    pub fn of(boxed: Box<T, A>) -> Slot<T, A>
    where
        T: Drop,
        ensures { result.value ≡ Some boxed.value }
    {
        let (at, alloc) = Box::into_raw_with_allocator(boxed);
        Slot { at, alloc }
    }

    /// The box again.
    pub fn into_box(self) -> Box<T, A>
        requires { IsSome self.value }
        ensures { self.value ≡ Some result.value }
    {
        let Slot { at, alloc } = self;
        unsafe { Box::from_raw(alloc, at) }
    }
}
