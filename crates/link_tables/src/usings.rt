//! The names of USING records, by the member that has them.

ghost use Rattle.std.specs.Prelude.{◌≡◌, ◌&&◌, ◌||◌, ℕ, List, [], OnOk, false, if◌then◌else◌, nat_eq};
ghost use Rattle.std.specs.Option.{option_map_or};
ghost use Rattle.link_tables.specs.Usings.{names_of, usings_at, is_among, has_using, holds_name};

use indexmap::{IndexMap, IndexSet};
use std::alloc::{AllocError, Global};

/// A name of USING, and the place in the linked list of a member that has it.
#[derive(Clone, Copy, PartialEq, Eq, Hash)]
struct Used<'a> {
    place: u32,
    name: &'a [u8],
}

/// Names of USING in record order, for each member that has any by its place in the linked list. They are kept once more to be
/// looked up one by one, however many a member has.
#[derive(Drop)]
pub struct Usings<'a> {
    names: IndexMap<u32, Vec<&'a [u8]>>,
    each: IndexSet<Used<'a>>,
}

/// The names of the member at a place, one by one.
fn add_each<'a>(
    each: &mut IndexSet<Used<'a>>,
    place: u32,
    names: &[&'a [u8]],
) -> Result<(), AllocError>
    ensures { OnOk result ((other : ℕ) (name : List ℕ)
        → holds_name each.new other name ≡ ((nat_eq place other && is_among name (names_of names.now)) || holds_name each.old other name)) }
{
    for name in names {
        each.insert(Used { place, name: *name })?;
    }
    Ok(())
}

impl<'a> Usings<'a> {
    /// No name.
    pub fn new(alloc: Global) -> Usings<'a>
        ensures none { (place : ℕ) → usings_at result place ≡ [] }
        ensures empty { (place : ℕ) (name : List ℕ) → has_using result place name ≡ false }
    {
        Usings {
            names: IndexMap::new(alloc),
            each: IndexSet::new(alloc),
        }
    }

    /// The names of the member at a place, if it has any.
    pub fn of(&self, place: u32) -> Option<&[&'a [u8]]>
        ensures { option_map_or (λ names. names_of names.now) result [] ≡ usings_at self.now place }
    {
        match self.names.get(&place) {
            Some(names) => Some(names.as_slice()),
            None => None,
        }
    }

    /// Whether a name is one of those of the member at a place.
    pub fn has(&self, place: u32, name: &[u8]) -> bool
        ensures { result ≡ has_using self.now place name.now }
    {
        if self.each.is_empty() {
            return false;
        }
        self.each.contains(&Used { place, name })
    }

    /// The names of the member at a place that has none yet.
    pub fn add(&mut self, place: u32, names: Vec<&'a [u8]>) -> Result<(), AllocError>
        ensures listed { OnOk result (usings_at self.old place ≡ []
            → (other : ℕ) → usings_at self.new other ≡ (if nat_eq place other then names_of names.entry.items else usings_at self.old other)) }
        ensures each { OnOk result ((other : ℕ) (name : List ℕ)
            → has_using self.new other name ≡ ((nat_eq place other && is_among name (names_of names.entry.items)) || has_using self.old other name)) }
    {
        if names.is_empty() {
            return Ok(());
        }
        add_each(&mut self.each, place, names.as_slice())?;
        self.names.insert(place, names)?;
        Ok(())
    }
}
