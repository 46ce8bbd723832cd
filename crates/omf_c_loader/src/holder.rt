//! A caller's struct with a loader, or without one.

ghost use Rattle.std.specs.Prelude.{◌≡◌, None, Some};

use crate::pointer::Pointer;

/// A loader, or none. All bytes 0 are none. Dropping it frees nothing.
#[repr(C)]
#[derive(Drop)]
pub struct OmfLoader {
    pub(crate) full: u32,
    pub(crate) pointer: Pointer,
    ghost agrees: { full ≡ elim pointer.value [ None ↦ 0 | Some x ↦ 1 ] },
}
