//! The lines of the source, and the macros.

ghost use Rattle.std.specs.Prelude.{◌≡◌, ◌≤◌, ◌<◌, ◌+◌, ◌^◌, [], List, ℕ, length, take, map, slice_get, bytes_eq, Some, None, IfOk, IfSome, OnOk, MatchOption, if◌then◌else◌, is_some};
ghost use Rattle.macro_meaning.specs.Definition.{first_named, or_else};
ghost use Rattle.macro_meaning.specs.Visit.{line_at, body_of, target_of};
ghost use Rattle.macro_meaning.specs.laws.Steps.{no_body};
ghost use Rattle.orca_meaning.specs.Line.{HaveFields, fields_of};
ghost use Rattle.name_map.specs.Held.{value_of_name};
ghost use Rattle.orca_macro.specs.Parts.{definition};
ghost use Rattle.orca_macro.specs.Plan.{Fits};
ghost use Rattle.orca_text.specs.View.{line};

use crate::body::MacroBody;
use crate::definitions::MacroDefinition;
use crate::plan::LinePlan;
use name_map::{NameMap, get_by_name, insert_by_name};
use orca_text::SourceLine;
use std::alloc::{AllocError, Global};
use std::marker::Model;

/// The lines of the source, and the macros with their names. Contracts see the lines and the macros.
#[derive(Drop)]
pub struct MacroProgram {
    source: MacroBody,
    definitions: Vec<MacroDefinition>,
    names: NameMap<usize>,
}

impl Model for MacroProgram {
    ghost use Rattle.std.specs.Prelude.{◌≡◌, ℕ, List, map};
    ghost use Rattle.macro_meaning.specs.Visit as meaning;
    ghost use Rattle.macro_meaning.specs.Definition.{first_named};
    ghost use Rattle.name_map.specs.Held.{value_of_name};
    ghost use Rattle.orca_macro.specs.Parts.{definition};

    ghost Value = { meaning.MacroProgram };

    ghost view = { λ program. record { source = program.source; definitions = map definition program.definitions.items } };

    ghost invariant = { λ program. (q : List ℕ) → value_of_name program.names q ≡ first_named q (map definition program.definitions.items) };
}

/// The definition at a place.
fn definition_at(definitions: &[MacroDefinition], at: usize) -> Option<&MacroDefinition>
    ensures { MatchOption result (length definitions.now ≤ at) (λ d. slice_get (map definition definitions.now) at ≡ Some (definition d.now)) }
{
    definitions.get(at)
}

/// The place of a name's definition, unless it has an earlier one.
#[tactic(auto, using(crate::proofs::Firsts::stays, crate::proofs::Firsts::comes))]
fn add_name(
    alloc: Global,
    names: &mut NameMap<usize>,
    name: &[u8],
    at: usize,
) -> Result<(), AllocError>
    ensures { OnOk result ((q : List ℕ) → value_of_name names.new q ≡ or_else (value_of_name names.old q) (if bytes_eq name.now q then Some at else None)) }
{
    if let Some(_) = get_by_name(names, name) {
        return Ok(());
    }
    insert_by_name(alloc, names, name, at)
}

/// The place of each name's first definition.
#[tactic(auto, using(crate::proofs::Firsts::next_name, crate::proofs::Firsts::all_names))]
fn names_of(alloc: Global, definitions: &[MacroDefinition]) -> Result<NameMap<usize>, AllocError>
    ensures { IfOk result (λ names. (q : List ℕ) → value_of_name names q ≡ first_named q (map definition definitions.now)) }
{
    let mut names = NameMap::new(alloc);
    let mut at = 0;
    'definitions: loop {
        let Some(found) = definition_at(definitions, at) else {
            return Ok(names);
        };
        add_name(alloc, &mut names, found.model.name.bytes(), at)?;
        at += 1;
    }
}

impl MacroProgram {
    ghost use Rattle.std.specs.Prelude.{◌≡◌, map};

    /// These lines and macros.
    pub(crate) fn of(
        alloc: Global,
        source: MacroBody,
        definitions: Vec<MacroDefinition>,
    ) -> Result<MacroProgram, AllocError>
        ensures { IfOk result (λ program. program ≡ record { source = source; definitions = map definition definitions.items }) }
    {
        let names = names_of(alloc, definitions.as_slice())?;
        Ok(MacroProgram {
            source,
            definitions,
            names,
        })
    }

    /// The first macro of a name, with its place.
    #[tactic(auto, using(crate::proofs::Firsts::within))]
    pub(crate) fn macro_by_name(&self, name: &[u8]) -> Option<(usize, &MacroDefinition)>
        ensures { MatchOption result (first_named name.now self.now.definitions ≡ None)
            (λ x. (first_named name.now self.now.definitions ≡ Some x.0) × (slice_get self.now.definitions x.0 ≡ Some (definition x.1.now))) }
    {
        let Some(place) = get_by_name(&self.names, name) else {
            return None;
        };
        match definition_at(self.definitions.as_slice(), *place) {
            Some(found) => Some((*place, found)),
            None => unreachable!(),
        }
    }

    /// The body of the macro at a place, or of the source.
    fn body(&self, place: Option<usize>) -> Option<&MacroBody>
        ensures { MatchOption result (body_of self.now place ≡ no_body) (λ body. body_of self.now place ≡ body.now) }
    {
        match place {
            None => Some(&self.source),
            Some(at) => match definition_at(self.definitions.as_slice(), at) {
                Some(found) => Some(&found.body),
                None => None,
            },
        }
    }

    /// A line of the macro at a place, or of the source.
    pub(crate) fn line(&self, place: Option<usize>, at: u32) -> Option<&SourceLine>
        ensures line { MatchOption result (line_at self.now place at ≡ None) (λ found. line_at self.now place at ≡ Some (line found.now)) }
        ensures fields { IfSome result (λ found. HaveFields found.now.text (line found.now).fields) }
        ensures bound { IfSome result (λ _. at + 1 < 2 ^ 32) }
    {
        match self.body(place) {
            Some(body) => body.line(at),
            None => None,
        }
    }

    /// A line of the macro at a place, or of the source, and what is known of it.
    #[tactic(auto, using(crate::proofs::Plans::fits_here))]
    pub(crate) fn effect_at(
        &self,
        place: Option<usize>,
        at: u32,
    ) -> Option<(&SourceLine, Option<&LinePlan>)>
        ensures line { MatchOption result (line_at self.now place at ≡ None) (λ found. line_at self.now place at ≡ Some (line found.0.now)) }
        ensures fields { IfSome result (λ found. HaveFields found.0.now.text (line found.0.now).fields) }
        ensures own { IfSome result (λ found. (line found.0.now).fields ≡ fields_of found.0.now.text) }
        ensures bound { IfSome result (λ _. at + 1 < 2 ^ 32) }
        ensures plan { IfSome result (λ found. IfSome found.1 (λ plan. Fits (line found.0.now) plan.now)) }
    {
        match self.body(place) {
            Some(body) => match body.line(at) {
                Some(found) => Some((found, body.plan(at))),
                None => None,
            },
            None => None,
        }
    }

    /// The only line to which a branch to this sequence symbol can go.
    #[tactic(auto, unfolding(macro_meaning::specs::Visit::target_of, macro_meaning::specs::Visit::places_from))]
    pub(crate) fn target(&self, place: Option<usize>, name: &[u8]) -> Option<u32>
        ensures { result ≡ target_of (body_of self.now place) name.now }
    {
        match self.body(place) {
            Some(body) => body.target(name),
            None => None,
        }
    }
}
