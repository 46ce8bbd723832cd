//! What the rows of libraries offer: which row serves a use that finds nothing.

ghost use Rattle.std.specs.Prelude.{◌≡◌, ◌<◌, ◌++◌, ◌∷◌, [], List, ℕ, Some, length, slice_get, OnOk, if◌then◌else◌};
ghost use Rattle.link_meaning.specs.declared.search.SearchStep.TheVariants.{OfUnit, Everyone};
ghost use Rattle.link_meaning.specs.Member.{Member, Offer};
ghost use Rattle.link_meaning.specs.LinkedList.{row_for};
ghost use Rattle.link_tables.specs.Names.{Row, Indexes, key_of, outcome};
ghost use Rattle.link_tables.specs.Definitions.{IsOf};
ghost use Rattle.link_tables.specs.Offers.{AreOffers, origin_view, IsOfferOf, IsRow, number_of, first_number};

use crate::definitions::{Origin, outer_step};
use crate::names::{Key, Matches, NameTable};
use link_meaning::{SearchKind, SearchStep};
use std::alloc::{AllocError, Global};

/// Rows of libraries in order, each with the member that it would bring in.
#[derive(Drop)]
pub struct Offers<'a> {
    origins: Vec<Origin>,
    names: NameTable<'a>,
    titles: NameTable<'a>,
}

/// A key with its number, where it is one of a title.
fn add_title<'a>(
    titles: &mut NameTable<'a>,
    key: Key<'a>,
    number: usize,
    titled: bool,
) -> Result<(), AllocError>
    ensures { OnOk result ((rows : List Row) → Indexes rows titles.old
        → Indexes (if titled then rows ++ (key_of key.entry, number) ∷ [] else rows) titles.new) }
{
    if titled {
        return titles.add(key, number);
    }
    Ok(())
}

/// The number of the first row of the user's unit with this name, or else of the first that isn't private.
fn first_row(names: &NameTable, user: Origin, name: &[u8]) -> Option<usize>
    ensures { (rows : List Row) → Indexes rows names.now
        → result ≡ first_number rows (record { step = OfUnit user.file user.from; name = name.now }) (record { step = Everyone; name = name.now }) }
{
    let unit = SearchStep::OfUnit {
        file: user.file,
        from: user.from,
    };
    match names.look(Key { step: unit, name }) {
        Matches::Nothing => first_public(names, name),
        Matches::One(number) => Some(number),
        Matches::Several(number) => Some(number),
    }
}

/// The number of the first row with this name that isn't private.
fn first_public(names: &NameTable, name: &[u8]) -> Option<usize>
    ensures { (rows : List Row) → Indexes rows names.now → result ≡ number_of (outcome rows (record { step = Everyone; name = name.now })) }
{
    match names.look(Key {
        step: SearchStep::Everyone,
        name,
    }) {
        Matches::Nothing => None,
        Matches::One(number) => Some(number),
        Matches::Several(number) => Some(number),
    }
}

impl<'a> Offers<'a> {
    /// No row.
    pub fn new(alloc: Global) -> Offers<'a>
        ensures { AreOffers [] result }
    {
        Offers {
            origins: Vec::new(alloc),
            names: NameTable::new(alloc),
            titles: NameTable::new(alloc),
        }
    }

    /// How many rows there are.
    pub fn count(&self) -> usize
        ensures { result ≡ length self.now.origins.items }
    {
        self.origins.as_slice().len()
    }

    /// The member that the row with this number, from 0, would bring in.
    pub fn origin(&self, number: usize) -> Origin
        requires { number < length self.now.origins.items }
        ensures { (os : List Offer) (o : Offer) → AreOffers os self.now → slice_get os number ≡ Some o → result ≡ origin_view o }
    {
        self.origins[number]
    }

    /// Makes room for `count` more rows.
    pub fn reserve(&mut self, count: usize) -> Result<(), AllocError>
        ensures { (os : List Offer) → AreOffers os self.old → AreOffers os self.new }
    {
        self.origins.reserve(count)?;
        self.names.reserve(count)
    }

    /// Adds a row after the others: its name, whether it is private, the member that it would bring in, and whether that is a data segment
    /// with this SEGNAME and privacy.
    pub fn add(
        &mut self,
        name: &'a [u8],
        private: bool,
        origin: Origin,
        titled: bool,
    ) -> Result<(), AllocError>
        ensures { OnOk result ((os : List Offer) (o : Offer) → AreOffers os self.old → IsOfferOf o name.now private origin titled
            → AreOffers (os ++ o ∷ []) self.new) }
    {
        let number = self.origins.as_slice().len();
        let key = Key {
            step: outer_step(private, origin),
            name,
        };
        add_title(&mut self.titles, key, number, titled)?;
        self.names.add(key, number)?;
        self.origins.push(origin)?;
        Ok(())
    }

    /// The number of the row, from 0, that serves a use of a name in a member: one of the member's own library and file
    /// number, or else one that isn't private. A weak name has none.
    pub fn row_for(&self, user: Origin, want: SearchKind, name: &[u8]) -> Option<usize>
        ensures { (os : List Offer) (m : Member) (at : ℕ) → AreOffers os self.now → IsOf m user
            → IsRow os (row_for os m (record { want = want; name = name.now; at = at })) result }
    {
        match want {
            SearchKind::Data => first_row(&self.titles, user, name),
            SearchKind::One => first_row(&self.names, user, name),
            SearchKind::Any => None,
        }
    }
}
