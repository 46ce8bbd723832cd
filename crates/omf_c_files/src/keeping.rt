//! A load file that is opened, kept and closed.

ghost use Rattle.std.specs.Prelude.{◌≡◌, None, Some, MatchOption};
ghost use Rattle.omf_c_files.specs.Held.{inside};
ghost use Rattle.omf_c_files.specs.Handed.{status_done, status_no_file};
ghost use Rattle.omf_c_files.specs.Opened.{IsOpened};

use crate::answer::{DONE, IS_OPEN, MEMORY, NO_FILE, REFUSED, TOO_LONG};
use crate::fault::{OmfFault, load_fault};
use crate::holder::OmfFileView;
use crate::pointer::Pointer;
use c_box::Slot;
use omf_cells::{LoadFile, read_load};
use std::alloc::Global;
use std::mem::replace;

/// The most bytes that a file may have.
const MOST: usize = 0xFFFF_FFFF;

impl OmfFileView {
    /// Takes the load file out, if there is one.
    pub(crate) fn take(&mut self, alloc: Global) -> Option<Box<LoadFile<'static>>>
        ensures taken { MatchOption result (inside self.old ≡ None) (λ boxed. inside self.old ≡ Some boxed.value) }
        ensures empty { inside self.new ≡ None }
    {
        if self.full == 0 {
            return None;
        }
        let none = OmfFileView {
            full: 0,
            pointer: Pointer::of(Slot::empty(alloc)),
        };
        let OmfFileView { full: _, pointer } = replace(self, none);
        Some(pointer.into_slot().into_box())
    }

    /// Puts a load file there, where there is none.
    pub(crate) fn put(&mut self, boxed: Box<LoadFile<'static>>)
        requires { inside self.old ≡ None }
        ensures { inside self.new ≡ Some boxed.entry.value }
    {
        *self = OmfFileView {
            full: 1,
            pointer: Pointer::of(Slot::of(boxed)),
        };
    }
}

/// Reads and checks a load file, and keeps it. It borrows the bytes, which have to stay as they are until it is closed.
pub fn open_file(
    alloc: Global,
    file: &'static [u8],
    view: &mut OmfFileView,
    fault: &mut OmfFault,
) -> u32
    ensures { IsOpened file.now result (inside view.old) (inside view.new) fault.old fault.new }
{
    if let Some(load) = view.take(alloc) {
        view.put(load);
        return IS_OPEN;
    }
    if file.len() > MOST {
        return TOO_LONG;
    }
    let load = match read_load(alloc, file) {
        Ok(load) => load,
        Err(found) => match load_fault(found) {
            Some(reported) => {
                *fault = reported;
                return REFUSED;
            }
            None => return MEMORY,
        },
    };
    match Box::new(alloc, load) {
        Ok(boxed) => {
            view.put(boxed);
            DONE
        }
        Err(_) => MEMORY,
    }
}

/// Closes the file, and frees what was kept of it. Status NO_FILE: none is open.
pub fn close_file(alloc: Global, view: &mut OmfFileView) -> u32
    ensures none { inside view.new ≡ None }
    ensures status { MatchOption (inside view.old) (result ≡ status_no_file) (λ _. result ≡ status_done) }
{
    match view.take(alloc) {
        Some(_) => DONE,
        None => NO_FILE,
    }
}
