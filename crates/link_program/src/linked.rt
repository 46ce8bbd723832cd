//! The linked list: its members, what they define and use, and what their names find.

ghost use Rattle.std.specs.Prelude.{◌≡◌, ◌+◌, ◌-◌, ◌<◌, ◌≤◌, ◌^◌, ◌++◌, ◌∷◌, [], List, ℕ, Some, None, length, map, nat_eq, if◌then◌else◌, slice_get, filter, OnOk, IfOk, IsNone, MatchOption, ◌⊎◌, option_map};
ghost use Rattle.std.specs.List.{list_any};
ghost use Rattle.omf_records.specs.Segments.{IsSound, segment_of_view};
ghost use Rattle.object_meaning.specs.Sizes.{body_size};
ghost use Rattle.link_meaning.specs.Member.{Member, Offer};
ghost use Rattle.object_meaning.specs.Defines.{data_title_of};
ghost use Rattle.link_meaning.specs.Uses.{usings_of};
ghost use Rattle.link_meaning.specs.Search.{FoundDefinition, entries, data_titles, first_step_found, outer_steps, with_this_name, finds, finds_data};
ghost use Rattle.link_meaning.specs.laws.Steps.{is_seen_by_step, data_name, finds_inside};
ghost use Rattle.link_meaning.specs.First.{HasNone};
ghost use Rattle.link_meaning.specs.LinkedList.{all_uses, found_for, wanted_by};
ghost use Rattle.link_tables.specs.Names.{Row, Indexes, key_of};
ghost use Rattle.link_program.specs.Finding.{IsFirstOf, found_in};
ghost use Rattle.link_program.specs.Resolving.{IsShape, IsHeld, FailsToResolve, IsFirstUse, cause_of};
ghost use Rattle.link_tables.specs.Definitions.{AreDefinitions, AreHolders, IsOf, Sees, founds_in, definition_view};
ghost use Rattle.link_tables.specs.Listed.{definition_of};
ghost use Rattle.link_tables.specs.Uses.{use_of};
ghost use Rattle.link_tables.specs.Offers.{AreOffers, IsRow};
ghost use Rattle.link_program.specs.Wanted.{WantsNothing, IsWanted};
ghost use Rattle.link_program.specs.Linked.{Holds, GainsTitle, SeesPlace, title_of_data, title_in, name_at, names_of, usings_from, used_places, OriginOf, member_at};
ghost use Rattle.link_meaning.specs.declared.search.SearchStep.TheVariants.{Within, Everyone};
ghost use Rattle.std.specs.Prelude.{false, true};
ghost use Rattle.link_meaning.specs.LinkedList.{PlacedUse};
ghost use Rattle.link_program.specs.Opening.{OpensNothing};
ghost use Rattle.link_program.specs.Outside.{IsTable, IsOutsideOf, all_found};

use crate::outside::{OutsideNames, with_number_after};
use indexmap::IndexMap;
use link_meaning::{LinkCause, SearchKind, SearchStep};
use link_tables::{
    Defined, Definitions, Key, Matches, NameTable, Offers, Origin, Use, Uses, Usings, add_body,
    outer_step, title,
};
use omf_records::SegmentView;
use std::alloc::{AllocError, Global};

/// The members of the linked list in order, each by its origin, with what they define and use.
#[derive(Drop)]
pub struct Linked<'a> {
    members: Vec<Origin>,
    /// The names of data segments, by their places in the list.
    names: IndexMap<usize, &'a [u8]>,
    usings: Usings<'a>,
    definitions: Definitions<'a>,
    titles: NameTable<'a>,
    uses: Uses<'a>,
}

/// Adds a data segment's SEGNAME, for which USING asks.
fn add_data_title<'a>(
    titles: &mut NameTable<'a>,
    segment: &SegmentView<'a>,
    origin: Origin,
    place: u32,
) -> Result<(), AllocError>
    requires { IsSound segment.now }
    ensures { OnOk result (GainsTitle titles.old titles.new origin place (data_title_of (segment_of_view segment.now))) }
{
    if segment.header.kind.form() != 0x01 {
        return Ok(());
    }
    let name = title(segment);
    if name.is_empty() {
        return Ok(());
    }
    let step = outer_step(segment.header.kind.is_private(), origin);
    titles.add(Key { step, name }, place as usize)
}

/// Keeps a data segment's SEGNAME by the member's place.
fn add_data_name<'a>(
    names: &mut IndexMap<usize, &'a [u8]>,
    segment: &SegmentView<'a>,
    place: u32,
) -> Result<(), AllocError>
    requires { IsSound segment.now }
    ensures { OnOk result (name_at names.old place ≡ None
        → (other : ℕ) → name_at names.new other ≡ (if nat_eq place other then title_of_data (segment_of_view segment.now) else name_at names.old other)) }
{
    if segment.header.kind.form() == 0x01 {
        names.insert(place as usize, title(segment))?;
    }
    Ok(())
}

/// Adds the name of a use, where it is one of USING.
fn add_using<'a>(names: &mut Vec<&'a [u8]>, used: Use<'a>) -> Result<(), AllocError>
    ensures { OnOk result (names_of names.new.items ≡ names_of names.old.items ++ data_name (use_of used.entry).1) }
{
    match used.want {
        SearchKind::Data => {
            names.push(used.name)?;
            Ok(())
        }
        SearchKind::One => Ok(()),
        SearchKind::Any => Ok(()),
    }
}

/// The names of USING among the uses from this number on, counted from 0.
fn usings_in<'a>(alloc: Global, uses: &Uses<'a>, from: usize) -> Result<Vec<&'a [u8]>, AllocError>
    ensures { IfOk result (λ names. names_of names.items ≡ usings_from uses.now from) }
{
    let mut names = Vec::new(alloc);
    for number in from..uses.count() {
        add_using(&mut names, uses.get(number))?;
    }
    Ok(names)
}

impl<'a> Linked<'a> {
    /// An empty list.
    pub fn new(alloc: Global) -> Linked<'a>
        ensures { Holds [] result }
    {
        Linked {
            members: Vec::new(alloc),
            names: IndexMap::new(alloc),
            usings: Usings::new(alloc),
            definitions: Definitions::new(alloc),
            titles: NameTable::new(alloc),
            uses: Uses::new(alloc),
        }
    }

    /// How many members there are.
    pub fn count(&self) -> u32
        requires { length self.now.members.items < 2 ^ 32 }
        ensures { result ≡ length self.now.members.items }
    {
        self.members.as_slice().len() as u32
    }

    /// The origin of the member at a place of the list, from 1.
    pub fn origin(&self, place: u32) -> Option<Origin>
        ensures { (list : List Member) → Holds list self.now → OriginOf (member_at list place) result }
    {
        if place == 0 {
            return None;
        }
        match self.members.as_slice().get(place as usize - 1) {
            Some(origin) => Some(*origin),
            None => None,
        }
    }

    /// The use with this number, from 0: the origin of its member, its name, and the displacement of its record.
    pub fn use_numbered(&self, number: usize) -> (Origin, &'a [u8], u32)
        requires held { IsHeld self.now }
        requires within { number < length self.now.uses }
        ensures reported { (list : List Member) (a : PlacedUse) → Holds list self.now → slice_get (all_uses list) number ≡ Some a
            → IsOf a.member result.0 × (result.1.now ≡ a.use'.name) × (result.2 ≡ a.use'.at) }
        ensures short { length result.1.now ≤ 255 }
    {
        let found = self.uses.get(number);
        let origin = self.members[found.place as usize - 1];
        (origin, found.name, found.at)
    }

    /// Whether a segment that is to be the next member may open a use again that finds something: it is a data segment with the name of one
    /// other, beside which it is found or which it hides. Where several have the name already, none is found by it.
    pub fn opens(&self, segment: &SegmentView, origin: Origin) -> bool
        ensures { result ≡ false → (list : List Member) (m : Member) → Holds list self.now → IsOf m origin → m.segment ≡ segment_of_view segment.now
            → OpensNothing list m }
    {
        if segment.header.kind.form() != 0x01 {
            return false;
        }
        let name = segment.header.name.bytes();
        if name.is_empty() {
            return false;
        }
        match self.find_rivals(segment.header.kind.is_private(), origin, name) {
            Matches::Nothing => false,
            Matches::One(_) => true,
            Matches::Several(_) => false,
        }
    }

    /// The data segments, by their places in the list, beside which one more of that name would be found, or which it would hide: where it
    /// is private those that its unit finds, else those that all see.
    fn find_rivals(&self, private: bool, origin: Origin, name: &[u8]) -> Matches
        ensures own { private ≡ true → (list : List Member) (m : Member) → Holds list self.now → IsOf m origin → SeesPlace (finds_data list m name.now) result }
        ensures every { private ≡ false → (list : List Member) → Holds list self.now → SeesPlace (filter (is_seen_by_step Everyone) (with_this_name name.now (data_titles list))) result }
    {
        if private {
            return self.find_data(origin, name);
        }
        self.titles.look(Key {
            step: SearchStep::Everyone,
            name,
        })
    }

    /// Adds a member after the others.
    pub fn add(
        &mut self,
        alloc: Global,
        segment: &SegmentView<'a>,
        origin: Origin,
    ) -> Result<(), AllocError>
        requires sound { IsSound segment.now }
        requires short { body_size (segment_of_view segment.now) < 2 ^ 32 }
        requires few { length self.old.members.items + 1 < 2 ^ 32 }
        ensures added { OnOk result ((list : List Member) (m : Member) → IsOf m origin → m.segment ≡ segment_of_view segment.now
            → Holds list self.old → Holds (list ++ m ∷ []) self.new) }
        ensures one { OnOk result (length self.new.members.items ≡ length self.old.members.items + 1) }
    {
        let place = self.members.as_slice().len() as u32 + 1;
        let before = self.uses.count();
        self.definitions.add_title(segment, origin, place)?;
        add_data_title(&mut self.titles, segment, origin, place)?;
        add_body(
            &mut self.definitions,
            &mut self.uses,
            segment,
            origin,
            place,
        )?;
        let names = usings_in(alloc, &self.uses, before)?;
        self.usings.add(place, names)?;
        add_data_name(&mut self.names, segment, place)?;
        self.members.push(origin)?;
        Ok(())
    }

    /// What a name finds among what a unit and all have for themselves.
    fn find_outer(&self, origin: Origin, name: &[u8]) -> Matches
        ensures { (fs : List FoundDefinition) (m : Member) → AreDefinitions fs self.now.definitions → IsOf m origin
            → Sees fs (first_step_found (outer_steps m) (with_this_name name.now fs)) result }
    {
        let unit = SearchStep::OfUnit {
            file: origin.file,
            from: origin.from,
        };
        match self.definitions.look(Key { step: unit, name }) {
            Matches::Nothing => self.definitions.look(Key {
                step: SearchStep::Everyone,
                name,
            }),
            Matches::One(first) => Matches::One(first),
            Matches::Several(first) => Matches::Several(first),
        }
    }

    /// The data segments that a USING name finds, by their places in the list.
    pub fn find_data(&self, origin: Origin, name: &[u8]) -> Matches
        ensures { (list : List Member) (m : Member) → Holds list self.now → IsOf m origin → SeesPlace (finds_data list m name.now) result }
    {
        let unit = SearchStep::OfUnit {
            file: origin.file,
            from: origin.from,
        };
        match self.titles.look(Key { step: unit, name }) {
            Matches::Nothing => self.titles.look(Key {
                step: SearchStep::Everyone,
                name,
            }),
            Matches::One(first) => Matches::One(first),
            Matches::Several(first) => Matches::Several(first),
        }
    }

    /// What a name finds in the first data segment that has it, of those that these names of USING find.
    fn find_used(&self, origin: Origin, usings: &[&[u8]], name: &[u8]) -> Matches
        ensures { (list : List Member) (m : Member) → Holds list self.now → IsOf m origin
            → Sees (entries list) (first_step_found (map Within (used_places list m (names_of usings.now))) (with_this_name name.now (entries list))) result }
    {
        for using in usings {
            match self.find_data(origin, using) {
                Matches::One(data) => match self.definitions.look(Key {
                    step: SearchStep::Within(data),
                    name,
                }) {
                    Matches::Nothing => {}
                    Matches::One(first) => return Matches::One(first),
                    Matches::Several(first) => return Matches::Several(first),
                },
                Matches::Nothing => {}
                Matches::Several(_) => {}
            }
        }
        Matches::Nothing
    }

    /// The name of the data segment at a place of the list, from 1.
    fn data_name(&self, place: usize) -> Option<&'a [u8]>
        ensures { (list : List Member) → Holds list self.now → option_map (λ name. name.now) result ≡ title_in (member_at list place) }
    {
        match self.names.get(&place) {
            Some(name) => Some(*name),
            None => None,
        }
    }

    /// Whether the member at a place finds by USING the data segment at another: it names that one's name, which finds it alone.
    fn uses_data(&self, place: u32, origin: Origin, other: usize) -> bool
        requires { 0 < place }
        ensures { (list : List Member) (m : Member) → Holds list self.now → slice_get list (place - 1) ≡ Some m → IsOf m origin
            → result ≡ list_any (nat_eq other) (used_places list m (usings_of m.segment)) }
    {
        match self.data_name(other) {
            None => false,
            Some(name) => {
                if !self.usings.has(place, name) {
                    return false;
                }
                match self.find_data(origin, name) {
                    Matches::Nothing => false,
                    Matches::One(found) => other == found,
                    Matches::Several(_) => false,
                }
            }
        }
    }

    /// What a name finds in the first data segment that has it, of those that the member at this place names by USING. Where only
    /// one segment has the name, that is all there is to look at, however many are named.
    fn find_by_usings(&self, holders: Matches, place: u32, origin: Origin, name: &[u8]) -> Matches
        requires { 0 < place }
        ensures { (list : List Member) (m : Member) → Holds list self.now → AreHolders (entries list) name.now holders
            → slice_get list (place - 1) ≡ Some m → IsOf m origin
            → Sees (entries list) (first_step_found (map Within (used_places list m (usings_of m.segment))) (with_this_name name.now (entries list))) result }
    {
        match holders {
            Matches::Nothing => Matches::Nothing,
            Matches::One(data) => {
                if !self.uses_data(place, origin, data) {
                    return Matches::Nothing;
                }
                self.definitions.look(Key {
                    step: SearchStep::Within(data),
                    name,
                })
            }
            Matches::Several(_) => match self.usings.of(place) {
                Some(usings) => self.find_used(origin, usings, name),
                None => Matches::Nothing,
            },
        }
    }

    /// What the member at a place has for itself under a name that these members have for themselves: where it isn't one of them,
    /// the name needn't be looked for.
    fn find_own(&self, holders: Matches, place: u32, name: &[u8]) -> Matches
        ensures { (fs : List FoundDefinition) → AreDefinitions fs self.now.definitions → AreHolders fs name.now holders
            → Sees fs (filter (is_seen_by_step (Within place)) (with_this_name name.now fs)) result }
    {
        match holders {
            Matches::Nothing => return Matches::Nothing,
            Matches::One(other) if other != place as usize => return Matches::Nothing,
            Matches::One(_) | Matches::Several(_) => {}
        }
        self.definitions.look(Key {
            step: SearchStep::Within(place as usize),
            name,
        })
    }

    /// What the members define by a name that is used in the member at this place, from 1.
    fn find_inside(&self, place: u32, name: &[u8]) -> Matches
        requires positive { 0 < place }
        requires within { place ≤ length self.now.members.items }
        ensures { (list : List Member) (m : Member) → Holds list self.now → slice_get list (place - 1) ≡ Some m
            → Sees (entries list) (finds_inside list place m name.now) result }
    {
        let origin = self.members[place as usize - 1];
        let holders = self.definitions.holders(name);
        match self.find_own(holders, place, name) {
            Matches::Nothing => {}
            Matches::One(first) => return Matches::One(first),
            Matches::Several(first) => return Matches::Several(first),
        }
        match self.find_by_usings(holders, place, origin, name) {
            Matches::Nothing => self.find_outer(origin, name),
            Matches::One(first) => Matches::One(first),
            Matches::Several(first) => Matches::Several(first),
        }
    }

    /// What a name finds that is used in the member at this place, from 1: the definitions of the members by their numbers, and the names
    /// of the run-time library files by numbers that count on after those.
    pub fn find(&self, outside: &OutsideNames, place: u32, name: &[u8]) -> Matches
        requires positive { 0 < place }
        requires within { place ≤ length self.now.members.items }
        requires table { IsTable outside.now }
        ensures { (list : List Member) (m : Member) → Holds list self.now → IsOutsideOf list outside.now → slice_get list (place - 1) ≡ Some m
            → Sees (all_found list) (finds list place m name.now) result }
    {
        match self.find_inside(place, name) {
            Matches::Nothing => with_number_after(self.definitions.count(), outside.look(name)),
            Matches::One(first) => Matches::One(first),
            Matches::Several(first) => Matches::Several(first),
        }
    }

    /// What a use finds: of data segments the places, of names the numbers.
    fn found_for(&self, outside: &OutsideNames, used: &Use) -> Matches
        requires positive { 0 < used.now.place }
        requires within { used.now.place ≤ length self.now.members.items }
        requires table { IsTable outside.now }
        ensures { (list : List Member) (m : Member) → Holds list self.now → IsOutsideOf list outside.now → slice_get list (used.now.place - 1) ≡ Some m
            → IsShape (found_for list used.now.place m (use_of used.now).1) result }
    {
        match used.want {
            SearchKind::Data => {
                let origin = self.members[used.place as usize - 1];
                self.find_data(origin, used.name)
            }
            SearchKind::One => self.find(outside, used.place, used.name),
            SearchKind::Any => self.find(outside, used.place, used.name),
        }
    }

    /// The number of the row, from 0, whose member a use wants: one that finds nothing, and for which there is a row.
    fn row_wanted(&self, outside: &OutsideNames, offers: &Offers, used: &Use) -> Option<usize>
        requires positive { 0 < used.now.place }
        requires within { used.now.place ≤ length self.now.members.items }
        requires table { IsTable outside.now }
        ensures { (list : List Member) (os : List Offer) (m : Member) → Holds list self.now → IsOutsideOf list outside.now → AreOffers os offers.now
            → slice_get list (used.now.place - 1) ≡ Some m → IsRow os (wanted_by os list used.now.place m (use_of used.now).1) result }
    {
        match self.found_for(outside, used) {
            Matches::Nothing => {
                let origin = self.members[used.place as usize - 1];
                offers.row_for(origin, used.want, used.name)
            }
            Matches::One(_) => None,
            Matches::Several(_) => None,
        }
    }

    /// The first use, in list and record order, that wants a member: its number, from 0, and that of the row that would bring
    /// the member in. The first `from` uses are known to want nothing.
    pub fn wanted(
        &self,
        outside: &OutsideNames,
        offers: &Offers,
        from: usize,
    ) -> Option<(usize, usize)>
        requires held { IsHeld self.now }
        requires table { IsTable outside.now }
        ensures { (list : List Member) (os : List Offer) → Holds list self.now → IsOutsideOf list outside.now → AreOffers os offers.now → WantsNothing os list from
            → IsWanted os list result }
    {
        if offers.count() == 0 {
            return None;
        }
        let mut number = from;
        'uses: while number < self.uses.count() {
            let used = self.uses.get(number);
            match self.row_wanted(outside, offers, &used) {
                Some(row) => return Some((number, row)),
                None => {}
            }
            number += 1;
        }
        None
    }

    /// The number of the first thing that a name finds in the member at this place, from 1, used there or not. None where the place
    /// is no member's, or the name finds none.
    pub fn first(&self, outside: &OutsideNames, place: u32, name: &[u8]) -> Option<usize>
        requires { IsTable outside.now }
        ensures { (list : List Member) → Holds list self.now → IsOutsideOf list outside.now → IsFirstOf (all_found list) (found_in list place name.now) result }
    {
        if place == 0 {
            return None;
        }
        if place as usize > self.members.as_slice().len() {
            return None;
        }
        match self.find(outside, place, name) {
            Matches::Nothing => None,
            Matches::One(number) => Some(number),
            Matches::Several(number) => Some(number),
        }
    }

    /// The definition with a number, from 0, of all in list and record order.
    pub fn definition(&self, number: usize) -> Option<Defined<'a>>
        ensures { (list : List Member) → Holds list self.now → option_map definition_of result ≡ option_map definition_view (slice_get (entries list) number) }
    {
        self.definitions.get(number)
    }

    /// How many definitions there are.
    pub fn definition_count(&self) -> usize
        ensures { (list : List Member) → Holds list self.now → result ≡ length (entries list) }
    {
        self.definitions.count()
    }

    /// The first use, in list and record order, that doesn't resolve: why, and its number, from 0.
    pub fn first_unresolved_use(&self, outside: &OutsideNames) -> Option<(LinkCause, usize)>
        requires held { IsHeld self.now }
        requires table { IsTable outside.now }
        ensures { (list : List Member) → Holds list self.now → IsOutsideOf list outside.now → MatchOption result
            (HasNone (FailsToResolve list) (all_uses list)) (λ found. IsFirstUse list found.0 found.1) }
    {
        let mut number = 0;
        'uses: while number < self.uses.count() {
            let used = self.uses.get(number);
            match use_cause(used.want, self.found_for(outside, &used)) {
                Some(cause) => return Some((cause, number)),
                None => {}
            }
            number += 1;
        }
        None
    }
}

/// How a use fails that finds this: a weak name may have no definition, every other use has one.
fn use_cause(want: SearchKind, found: Matches) -> Option<LinkCause>
    ensures { result ≡ cause_of want found }
{
    match found {
        Matches::Nothing => match want {
            SearchKind::Data => Some(LinkCause::Unresolved),
            SearchKind::One => Some(LinkCause::Unresolved),
            SearchKind::Any => None,
        },
        Matches::One(_) => None,
        Matches::Several(_) => Some(LinkCause::Duplicate),
    }
}
