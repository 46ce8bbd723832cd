//! Tables of names: what each step of a search finds.

ghost use Rattle.std.specs.Prelude.{◌≡◌, ◌∷◌, ◌++◌, [], List, ℕ, IfOk, OnOk};
ghost use Rattle.link_meaning.specs.declared.search.SearchStep.TheVariants.{Within, OfUnit, Everyone};
ghost use Rattle.link_tables.specs.Names.{Row, Indexes, Keeps, outcome, key_of, found_or, kept_under};

use indexmap::IndexMap;
use link_meaning::SearchStep;
use std::alloc::{AllocError, Global};

/// A name that a step sees.
#[derive(Clone, Copy)]
pub struct Key<'a> {
    pub step: SearchStep,
    pub name: &'a [u8],
}

/// A name that all see.
#[derive(Clone, Copy, PartialEq, Eq, Hash)]
struct PublicName<'a> {
    name: &'a [u8],
}

/// A name that the member at this place of the list has for itself.
#[derive(Clone, Copy, PartialEq, Eq, Hash)]
struct OwnName<'a> {
    place: usize,
    name: &'a [u8],
}

/// A name that a unit has for itself.
#[derive(Clone, Copy, PartialEq, Eq, Hash)]
struct UnitName<'a> {
    file: u32,
    from: u16,
    name: &'a [u8],
}

/// What a step finds: nothing, one thing, or several, of which this is the first.
#[derive(Clone, Copy, Debug, PartialEq, Eq)]
pub enum Matches {
    Nothing,
    One(usize),
    Several(usize),
}

/// Names in order, each seen by one step and with the number of what it names. A look-up takes no pass over them. What all see, what
/// members have for themselves and what units have are kept apart: where there is none of a kind, as is common, a name isn't hashed to look
/// for it there, and a key holds no more than it says.
#[derive(Drop)]
pub struct NameTable<'a> {
    public: IndexMap<PublicName<'a>, Matches>,
    own: IndexMap<OwnName<'a>, Matches>,
    units: IndexMap<UnitName<'a>, Matches>,
}

/// What was kept under a key.
fn found_or(kept: Option<Matches>) -> Matches
    ensures { result ≡ found_or kept }
{
    match kept {
        Some(found) => found,
        None => Matches::Nothing,
    }
}

impl<'a> NameTable<'a> {
    /// No name.
    pub fn new(alloc: Global) -> NameTable<'a>
        ensures { Indexes [] result }
    {
        NameTable {
            public: IndexMap::new(alloc),
            own: IndexMap::new(alloc),
            units: IndexMap::new(alloc),
        }
    }

    /// What a step finds under a name.
    #[inline(always)]
    pub fn look(&self, key: Key) -> Matches
        ensures { (rows : List Row) → Indexes rows self.now → result ≡ outcome rows (key_of key.entry) }
    {
        match key.step {
            SearchStep::Everyone => self.look_public(key.name),
            SearchStep::Within(place) => self.look_own(place, key.name),
            SearchStep::OfUnit { file, from } => self.look_unit(file, from, key.name),
        }
    }

    /// What all see under a name.
    #[inline(always)]
    fn look_public(&self, name: &[u8]) -> Matches
        ensures { result ≡ found_or (kept_under Everyone name.now self.now) }
    {
        if self.public.is_empty() {
            return Matches::Nothing;
        }
        found_or(self.public.get(&PublicName { name }).copied())
    }

    /// What the member at a place of the list has for itself under a name.
    #[inline(always)]
    fn look_own(&self, place: usize, name: &[u8]) -> Matches
        ensures { result ≡ found_or (kept_under (Within place) name.now self.now) }
    {
        if self.own.is_empty() {
            return Matches::Nothing;
        }
        found_or(self.own.get(&OwnName { place, name }).copied())
    }

    /// What a unit has for itself under a name.
    #[inline(always)]
    fn look_unit(&self, file: u32, from: u16, name: &[u8]) -> Matches
        ensures { result ≡ found_or (kept_under (OfUnit file from) name.now self.now) }
    {
        if self.units.is_empty() {
            return Matches::Nothing;
        }
        found_or(self.units.get(&UnitName { file, from, name }).copied())
    }

    /// Makes room for `count` more names that all see.
    pub fn reserve(&mut self, count: usize) -> Result<(), AllocError>
        ensures { (rows : List Row) → Indexes rows self.old → Indexes rows self.new }
    {
        self.public.reserve(count)
    }

    /// Adds a name after the others. It is kept as the only one, and as one of several where others were there.
    pub fn add(&mut self, key: Key<'a>, number: usize) -> Result<(), AllocError>
        ensures { OnOk result ((rows : List Row) → Indexes rows self.old → Indexes (rows ++ (key_of key.entry, number) ∷ []) self.new) }
    {
        let first = match self.keep(key, Matches::One(number))? {
            Matches::Nothing => return Ok(()),
            Matches::One(first) | Matches::Several(first) => first,
        };
        self.keep(key, Matches::Several(first))?;
        Ok(())
    }

    /// Keeps this under a key, and gives what was there.
    fn keep(&mut self, key: Key<'a>, found: Matches) -> Result<Matches, AllocError>
        ensures kept { OnOk result (Keeps self.old self.new (key_of key.entry) found) }
        ensures before { IfOk result (λ before. before ≡ found_or (kept_under key.entry.step key.entry.name.now self.old)) }
    {
        let name = key.name;
        match key.step {
            SearchStep::Everyone => {
                let before = self.public.insert(PublicName { name }, found)?;
                Ok(found_or(before))
            }
            SearchStep::Within(place) => {
                let before = self.own.insert(OwnName { place, name }, found)?;
                Ok(found_or(before))
            }
            SearchStep::OfUnit { file, from } => {
                let before = self.units.insert(UnitName { file, from, name }, found)?;
                Ok(found_or(before))
            }
        }
    }
}
