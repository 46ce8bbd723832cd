//! A loader that is made, kept and freed.

ghost use Rattle.std.specs.Prelude.{◌≡◌, None, Some, MatchOption};
ghost use Rattle.omf_c_loader.specs.Held.{inside, IsMakeAnswer};
ghost use Rattle.omf_c_loader.specs.Refusals.{status_done, status_misused};

use crate::holder::OmfLoader;
use crate::pointer::Pointer;
use crate::refusal::{DONE, MEMORY, MISUSED};
use c_box::Slot;
use iigs_meaning::BanksFault;
use std::alloc::Global;
use std::mem::replace;
use sys_loader::Loader;

impl OmfLoader {
    /// Takes the loader out, if there is one.
    pub fn take(&mut self, alloc: Global) -> Option<Box<Loader>>
        ensures taken { MatchOption result (inside self.old ≡ None) (λ boxed. inside self.old ≡ Some boxed.value) }
        ensures empty { inside self.new ≡ None }
    {
        if self.full == 0 {
            return None;
        }
        let none = OmfLoader {
            full: 0,
            pointer: Pointer::of(Slot::empty(alloc)),
        };
        let OmfLoader { full: _, pointer } = replace(self, none);
        Some(pointer.into_slot().into_box())
    }

    /// Puts a loader there, where there is none.
    pub fn put(&mut self, boxed: Box<Loader>)
        requires { inside self.old ≡ None }
        ensures { inside self.new ≡ Some boxed.value }
    {
        *self = OmfLoader {
            full: 1,
            pointer: Pointer::of(Slot::of(boxed)),
        };
    }
}

/// Makes a loader of these banks, without users. Status MISUSED: there is a loader already, no bank is named, or one is named twice.
pub fn make_loader(alloc: Global, holder: &mut OmfLoader, banks: &[u8]) -> u32
    ensures { IsMakeAnswer banks.now result (inside holder.old) (inside holder.new) }
{
    if let Some(loader) = holder.take(alloc) {
        holder.put(loader);
        return MISUSED;
    }
    let loader = match Loader::new(alloc, banks) {
        Ok(loader) => loader,
        Err(BanksFault::NoBanks) => return MISUSED,
        Err(BanksFault::BankTwice(_)) => return MISUSED,
        Err(BanksFault::Memory) => return MEMORY,
    };
    match Box::new(alloc, loader) {
        Ok(boxed) => {
            holder.put(boxed);
            DONE
        }
        Err(_) => MEMORY,
    }
}

/// Frees the loader, and all its memory. Status MISUSED: there is none.
pub fn free_loader(alloc: Global, holder: &mut OmfLoader) -> u32
    ensures none { inside holder.new ≡ None }
    ensures status { MatchOption (inside holder.old) (result ≡ status_misused) (λ _. result ≡ status_done) }
{
    match holder.take(alloc) {
        Some(_) => DONE,
        None => MISUSED,
    }
}
