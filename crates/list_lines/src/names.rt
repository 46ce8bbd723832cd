//! Sets of names, and which names can be listed.

ghost use Rattle.std.specs.Prelude.{◌≡◌, List, ℕ, [], ◌∷◌, OnOk};
ghost use Rattle.std.specs.List.{list_all};
ghost use Rattle.list_meaning.specs.Listing.{is_listable};
ghost use Rattle.list_lines.specs.NamesView.{AreNames, has_name, is_upper_start, is_upper};

use indexmap::IndexMap;
use std::alloc::{AllocError, Global};

/// Names, each of which is there or not. They are slices of the file.
#[derive(Drop)]
pub struct Names<'a> {
    pub(crate) map: IndexMap<&'a [u8], bool>,
}

impl<'a> Names<'a> {
    /// No names.
    pub fn new(alloc: Global) -> Names<'a>
        ensures { AreNames result [] }
    {
        Names {
            map: IndexMap::new(alloc),
        }
    }

    /// Whether a name is there.
    pub fn has(&self, name: &[u8]) -> bool
        ensures { result ≡ has_name self.now name.now }
    {
        self.map.get(name).is_some()
    }

    /// Adds a name.
    pub fn add(&mut self, name: &'a [u8]) -> Result<(), AllocError>
        ensures { OnOk result ((all : List (List ℕ)) → AreNames self.old all → AreNames self.new (name.now ∷ all)) }
    {
        match self.map.insert(name, true) {
            Ok(_) => Ok(()),
            Err(_) => Err(AllocError),
        }
    }
}

/// A byte with which a name in upper case begins: a letter, `_` or `~`.
fn is_upper_start(byte: u8) -> bool
    ensures { result ≡ is_upper_start byte }
{
    byte >= b'A' && byte <= b'Z' || byte == b'_' || byte == b'~'
}

/// A byte that a name in upper case has: these, and digits.
fn is_upper(byte: u8) -> bool
    ensures { result ≡ is_upper byte }
{
    is_upper_start(byte) || byte >= b'0' && byte <= b'9'
}

/// Whether all letters of a name are in upper case.
fn are_upper(name: &[u8]) -> bool
    ensures { result ≡ list_all is_upper name.now }
{
    name.iter().all(|&byte| is_upper(byte))
}

/// Whether a name can be written unchanged: it begins with no digit, and all its letters are in upper case.
#[tactic(auto, using(crate::proofs::NameLaws::listable_split, crate::proofs::NameLaws::not_listable))]
pub fn is_listable(name: &[u8]) -> bool
    ensures { result ≡ is_listable name.now }
{
    match name.split_first() {
        Some((first, following)) => is_upper_start(*first) && are_upper(following),
        None => false,
    }
}
