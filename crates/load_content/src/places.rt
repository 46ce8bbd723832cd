//! Where the segments of a load file lie in memory.

ghost use Rattle.std.specs.Prelude.{◌≡◌, ◌-◌, ◌≤◌, length, replicate, slice_set, IfOk, None};
ghost use Rattle.load_content.specs.Places.{place_in};

use std::alloc::{AllocError, Global};
use std::marker::Model;

/// Why places weren't made.
#[derive(Clone, Copy, Debug, PartialEq, Eq)]
pub enum PlacesFault {
    Memory,
}

/// The addresses of a file's segments, each by its number from 1. Contracts see a list of them.
#[derive(Drop)]
pub struct Places {
    addresses: Vec<Option<u32>>,
}

impl Model for Places {
    ghost use Rattle.std.specs.Prelude.{ℕ, List, Option};

    ghost Value = { List (Option ℕ) };

    ghost view = { λ places. places.addresses.items };
}

impl Places {
    /// Places for `count` segments, none of which has an address.
    pub fn new(alloc: Global, count: u32) -> Result<Places, PlacesFault>
        ensures { IfOk result (λ places. places ≡ replicate count None) }
    {
        match no_addresses(alloc, count as usize) {
            Ok(addresses) => Ok(Places { addresses }),
            Err(AllocError) => Err(PlacesFault::Memory),
        }
    }

    /// Gives the segment with a number, from 1 to the count, an address or none.
    pub fn set(&mut self, segment: u32, address: Option<u32>)
        requires first { 1 ≤ segment }
        requires within { segment ≤ length self.old }
        ensures { self.new ≡ slice_set self.old (segment - 1) address }
    {
        self.addresses[segment as usize - 1] = address;
    }

    /// The address of the segment with a number, from 1, if it has one.
    #[inline(always)]
    pub fn get(&self, segment: u32) -> Option<u32>
        ensures { result ≡ place_in self.now segment }
    {
        if segment == 0 {
            return None;
        }
        match self.addresses.get(segment as usize - 1) {
            Some(address) => *address,
            None => None,
        }
    }
}

fn no_addresses(alloc: Global, count: usize) -> Result<Vec<Option<u32>>, AllocError>
    ensures { IfOk result (λ addresses. addresses.items ≡ replicate count None) }
{
    vec![in alloc; None; count]
}
