//! What the members of the linked list define.

ghost use Rattle.std.specs.Prelude.{◌≡◌, ◌<◌, ◌^◌, ◌++◌, ◌∷◌, [], List, ℕ, length, OnOk, filter, slice_get, option_map};
ghost use Rattle.omf_records.specs.Segments.{IsSound, segment_of_view};
ghost use Rattle.omf_records.specs.View.{view};
ghost use Rattle.link_meaning.specs.Member.{Member};
ghost use Rattle.object_meaning.specs.Defines.{scope_of, title_of, defined_by, outer_scope};
ghost use Rattle.link_meaning.specs.Search.{FoundDefinition, step_for};
ghost use Rattle.link_tables.specs.Names.{Row, Indexes, key_of};
ghost use Rattle.link_tables.specs.Definitions.{AreDefinitions, AreHolders, Sees, IsOf, local_under, is_found, key_of_found, definition_view, founds_in};
ghost use Rattle.link_tables.specs.Listed.{definition_of};

use crate::listed::Listed;
use crate::names::{Key, Matches, NameTable};
use crate::segname::title;
use link_meaning::SearchStep;
use omf_format::DIRECTIVE_LABEL;
use omf_records::{Rec, SegmentView};
use std::alloc::{AllocError, Global};

/// A definition of a member, without the member's load segment and offset.
#[derive(Clone, Copy, Debug, PartialEq, Eq)]
pub struct Defined<'a> {
    /// The member's place in the linked list, from 1.
    pub member: u32,
    /// How many cells of the member are before the definition's record; 0 for a SEGNAME.
    pub at: u32,
    /// The expression of GEQU and EQU, the $00 at its end included.
    pub expr: Option<&'a [u8]>,
    /// The length attribute.
    pub length: u16,
    /// The type attribute.
    pub form: u8,
}

/// The origin of a member: its file among the inputs and its number there, both from 1, and the file number of the dictionary's row that
/// brought it in, or 0 in an object file.
#[derive(Clone, Copy, Debug, PartialEq, Eq)]
pub struct Origin {
    pub file: u32,
    pub segment: u32,
    pub from: u16,
}

/// Definitions in list and record order, with a look-up by step and name.
#[derive(Drop)]
pub struct Definitions<'a> {
    names: NameTable<'a>,
    /// What segments have for themselves, by name alone, with the places of their members.
    locals: NameTable<'a>,
    items: Listed<'a>,
}

impl<'a> Definitions<'a> {
    /// No definition.
    pub fn new(alloc: Global) -> Definitions<'a>
        ensures { AreDefinitions [] result }
    {
        Definitions {
            names: NameTable::new(alloc),
            locals: NameTable::new(alloc),
            items: Listed::new(alloc),
        }
    }

    /// What a step finds under a name.
    pub fn look(&self, key: Key) -> Matches
        ensures { (fs : List FoundDefinition) → AreDefinitions fs self.now → Sees fs (filter (is_found (key_of key.entry)) fs) result }
    {
        self.names.look(key)
    }

    /// The members whose segments have the name for themselves, by their places in the list, each as often as it has it.
    pub fn holders(&self, name: &[u8]) -> Matches
        ensures { (fs : List FoundDefinition) → AreDefinitions fs self.now → AreHolders fs name.now result }
    {
        self.locals.look(Key {
            step: SearchStep::Everyone,
            name,
        })
    }

    /// How many definitions there are.
    pub fn count(&self) -> usize
        ensures value { (fs : List FoundDefinition) → AreDefinitions fs self.now → result ≡ length fs }
        ensures few { result < 2 ^ 63 }
    {
        self.items.count()
    }

    /// The definition with this number, from 0.
    pub fn get(&self, number: usize) -> Option<Defined<'a>>
        ensures { (fs : List FoundDefinition) → AreDefinitions fs self.now → option_map definition_of result ≡ option_map definition_view (slice_get fs number) }
    {
        self.items.get(number)
    }

    fn push(&mut self, key: Key<'a>, definition: Defined<'a>) -> Result<(), AllocError>
        ensures { OnOk result ((fs : List FoundDefinition) (f : FoundDefinition) → AreDefinitions fs self.old → key_of key.entry ≡ key_of_found f
            → definition_of definition.entry ≡ definition_view f → AreDefinitions (fs ++ f ∷ []) self.new) }
    {
        let number = self.items.count();
        self.names.add(key, number)?;
        add_local(&mut self.locals, key)?;
        self.items.push(definition)
    }

    /// Adds the SEGNAME of the member at this place of the list, where it has one.
    pub fn add_title(
        &mut self,
        segment: &SegmentView<'a>,
        origin: Origin,
        place: u32,
    ) -> Result<(), AllocError>
        requires { IsSound segment.now }
        ensures { OnOk result ((fs : List FoundDefinition) (m : Member) → IsOf m origin → AreDefinitions fs self.old
            → AreDefinitions (fs ++ founds_in place m (title_of (segment_of_view segment.now))) self.new) }
    {
        let name = title(segment);
        if name.is_empty() {
            return Ok(());
        }
        let step = outer_step(segment.header.kind.is_private(), origin);
        let definition = Defined {
            member: place,
            at: 0,
            expr: None,
            length: 0,
            form: DIRECTIVE_LABEL,
        };
        self.push(Key { step, name }, definition)
    }

    /// Adds what a record defines.
    pub fn add_record(
        &mut self,
        rec: &Rec<'a>,
        location: u32,
        origin: Origin,
        place: u32,
    ) -> Result<(), AllocError>
        ensures { OnOk result ((fs : List FoundDefinition) (m : Member) (at : ℕ) → IsOf m origin → AreDefinitions fs self.old
            → AreDefinitions (fs ++ founds_in place m (defined_by at location (view rec.now))) self.new) }
    {
        match rec {
            Rec::Label {
                global,
                name,
                length,
                form,
                private,
            } => self.push(
                Key {
                    step: step_for(*global, *private, origin, place),
                    name,
                },
                Defined {
                    member: place,
                    at: location,
                    expr: None,
                    length: *length,
                    form: *form,
                },
            ),
            Rec::Equate {
                global,
                name,
                length,
                form,
                private,
                expr,
            } => self.push(
                Key {
                    step: step_for(*global, *private, origin, place),
                    name,
                },
                Defined {
                    member: place,
                    at: location,
                    expr: Some(expr),
                    length: *length,
                    form: *form,
                },
            ),
            Rec::End
            | Rec::Const { .. }
            | Rec::LongConst { .. }
            | Rec::Align { .. }
            | Rec::Org { .. }
            | Rec::Space { .. }
            | Rec::Reloc { .. }
            | Rec::InterSeg { .. }
            | Rec::ShortReloc { .. }
            | Rec::ShortInterSeg { .. }
            | Rec::Super { .. }
            | Rec::Using { .. }
            | Rec::Strong { .. }
            | Rec::Formula { .. }
            | Rec::Entry { .. } => Ok(()),
        }
    }
}

/// Adds a name that a segment has for itself.
fn add_local<'a>(locals: &mut NameTable<'a>, key: Key<'a>) -> Result<(), AllocError>
    ensures { OnOk result ((rows : List Row) → Indexes rows locals.old → Indexes (rows ++ local_under key.entry.step key.entry.name.now) locals.new) }
{
    match key.step {
        SearchStep::Within(place) => {
            let name = Key {
                step: SearchStep::Everyone,
                name: key.name,
            };
            locals.add(name, place)
        }
        SearchStep::OfUnit { .. } => Ok(()),
        SearchStep::Everyone => Ok(()),
    }
}

/// The step that sees what others than the segment itself may see.
pub fn outer_step(private: bool, origin: Origin) -> SearchStep
    ensures { (place : ℕ) → result ≡ step_for place origin.file origin.from (outer_scope private) }
{
    if private {
        SearchStep::OfUnit {
            file: origin.file,
            from: origin.from,
        }
    } else {
        SearchStep::Everyone
    }
}

/// The step that sees a label or an equate.
fn step_for(global: bool, private: u8, origin: Origin, place: u32) -> SearchStep
    ensures { result ≡ step_for place origin.file origin.from (scope_of global private) }
{
    if global {
        outer_step(private != 0, origin)
    } else {
        SearchStep::Within(place as usize)
    }
}
