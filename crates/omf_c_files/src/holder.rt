//! A caller's struct with an open load file, or without one.

ghost use Rattle.std.specs.Prelude.{◌≡◌, None, Some};

use crate::pointer::Pointer;

/// An open load file, or none. All bytes 0 are none. Dropping it frees nothing.
#[repr(C)]
#[derive(Drop)]
pub struct OmfFileView {
    pub(crate) full: u32,
    pub(crate) pointer: Pointer,
    ghost agrees: { full ≡ elim pointer.value [ None ↦ 0 | Some x ↦ 1 ] },
}
