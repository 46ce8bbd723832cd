//! The names that run-time library files export: the last step of the search.

ghost use Rattle.std.specs.Prelude.{◌≡◌, ◌+◌, ◌<◌, ◌^◌, ◌++◌, ◌∷◌, [], List, ℕ, length, option_map, slice_get, OnOk};
ghost use Rattle.std.specs.List.{filter_map};
ghost use Rattle.load_meaning.specs.Exports.{exports_of};
ghost use Rattle.load_tables.specs.View.{seen_export};
ghost use Rattle.link_meaning.specs.Member.{RuntimeFile};
ghost use Rattle.link_meaning.specs.Search.{FoundDefinition, with_this_name, outside_of};
ghost use Rattle.link_tables.specs.Definitions.{Sees};
ghost use Rattle.link_program.specs.Outside.{AreOutside, IsTable, IsFar, IsBelow, far_of, with_number_after};

use link_meaning::SearchStep;
use link_tables::{Key, Matches, NameTable};
use omf_cells::{Export, LoadFile};
use std::alloc::{AllocError, Global};

/// A place in a run-time library file.
#[derive(Clone, Copy)]
pub struct Far {
    /// The number of the file in values, from 2.
    pub file: u16,
    /// The number of the segment there, from 1.
    pub segment: u16,
    pub offset: u32,
}

/// The names that run-time library files export, in file, segment and record order.
#[derive(Drop)]
pub struct OutsideNames<'a> {
    names: NameTable<'a>,
    places: Vec<Far>,
}

impl<'a> OutsideNames<'a> {
    /// No name.
    pub fn new(alloc: Global) -> OutsideNames<'a>
        ensures { AreOutside [] result }
    {
        OutsideNames {
            names: NameTable::new(alloc),
            places: Vec::new(alloc),
        }
    }

    /// What a name finds.
    pub fn look(&self, name: &[u8]) -> Matches
        ensures found { (fs : List FoundDefinition) → AreOutside fs self.now → Sees fs (with_this_name name.now fs) result }
        ensures below { IsTable self.now → IsBelow (2 ^ 63) result }
    {
        self.names.look(Key {
            step: SearchStep::Everyone,
            name,
        })
    }

    /// The place of the name with this number, from 0.
    pub fn get(&self, number: usize) -> Option<Far>
        ensures { (fs : List FoundDefinition) → AreOutside fs self.now → result ≡ option_map far_of (slice_get fs number) }
    {
        match self.places.get(number) {
            Some(place) => Some(*place),
            None => None,
        }
    }

    /// Adds a name after the others.
    fn push(&mut self, name: &'a [u8], place: Far) -> Result<(), AllocError>
        ensures { OnOk result ((fs : List FoundDefinition) (f : FoundDefinition) → AreOutside fs self.old → IsFar f → f.definition.name ≡ name.now → far_of f ≡ place
            → AreOutside (fs ++ f ∷ []) self.new) }
    {
        let number = self.places.as_slice().len();
        self.names.add(
            Key {
                step: SearchStep::Everyone,
                name,
            },
            number,
        )?;
        self.places.push(place)?;
        Ok(())
    }

    /// Adds a name that the file with this number exports; the segment that it names is there.
    fn add_export(
        &mut self,
        load: &LoadFile<'a>,
        export: Export<'a>,
        file: u16,
    ) -> Result<(), AllocError>
        ensures { OnOk result ((fs : List FoundDefinition) (r : RuntimeFile) → r.segments ≡ load.now → AreOutside fs self.old
            → AreOutside (fs ++ filter_map (outside_of file r) (seen_export export.entry ∷ [])) self.new) }
    {
        match load.header(u32::from(export.segment)) {
            Some(_) => self.push(
                export.name,
                Far {
                    file,
                    segment: export.segment,
                    offset: export.offset,
                },
            ),
            None => Ok(()),
        }
    }

    /// Adds the names that the file with this number exports.
    pub fn add_file(&mut self, load: &LoadFile<'a>, file: u16) -> Result<(), AllocError>
        ensures { OnOk result ((fs : List FoundDefinition) (r : RuntimeFile) → r.segments ≡ load.now → AreOutside fs self.old
            → AreOutside (fs ++ filter_map (outside_of file r) (exports_of r.segments)) self.new) }
    {
        let mut place = 0;
        'names: while place < load.exports() {
            let export = match load.export(place) {
                Some(export) => export,
                None => unreachable!(),
            };
            self.add_export(load, export, file)?;
            place += 1;
        }
        Ok(())
    }
}

/// What was found, with its number increased by `count`.
pub fn with_number_after(count: usize, found: Matches) -> Matches
    requires few { count < 2 ^ 63 }
    requires below { IsBelow (2 ^ 63) found }
    ensures { result ≡ with_number_after count found }
{
    match found {
        Matches::Nothing => Matches::Nothing,
        Matches::One(number) => Matches::One(count + number),
        Matches::Several(number) => Matches::Several(count + number),
    }
}
