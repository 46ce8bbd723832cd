//! Lines that are visited one after another.

ghost use Rattle.std.specs.Prelude.{◌≡◌, ◌≤◌, ◌<◌, ◌+◌, ◌^◌, ◌∷◌, ◌++◌, [], List, ℕ, length, slice_get, take, bytes_eq, Some, None, IfOk, IfSome, OnOk, MatchOption, if◌then◌else◌};
ghost use Rattle.macro_meaning.specs.Visit.{places_from, target_of, has_sequence};
ghost use Rattle.orca_meaning.specs.Line.{HaveFields, fields_of, part};
ghost use Rattle.name_map.specs.Held.{value_of_name};
ghost use Rattle.orca_macro.specs.DefinitionView.{summary, with_place};
ghost use Rattle.orca_macro.specs.Plan.{HavePlans, FitsAt};
ghost use Rattle.orca_text.specs.View.{line};

use crate::plan::{LinePlan, plan_of};
use name_map::{NameMap, get_by_name, insert_by_name};
use orca_symbols::sequence_name;
use orca_text::{Lines, SourceLine};
use std::alloc::{AllocError, Global};
use std::marker::Model;

/// The place of a sequence symbol.
#[derive(Clone, Copy, Drop)]
pub(crate) enum BranchTarget {
    /// The only line that has it.
    Once(u32),
    /// Two lines or more have it.
    Twice,
}

/// Lines that are visited one after another. Branches go to the first `reach` of them, whose sequence symbols are in a
/// map. For a macro's lines it keeps what is known of each. Contracts see the lines and `reach`.
#[derive(Drop)]
pub(crate) struct MacroBody {
    lines: Lines,
    reach: u32,
    targets: NameMap<BranchTarget>,
    plans: Vec<LinePlan>,
}

impl Model for MacroBody {
    ghost use Rattle.std.specs.Prelude.{◌≡◌, ◌≤◌, ℕ, List, length, take};
    ghost use Rattle.macro_meaning.specs.Definition as meaning;
    ghost use Rattle.macro_meaning.specs.Visit.{places_from};
    ghost use Rattle.name_map.specs.Held.{value_of_name};
    ghost use Rattle.orca_macro.specs.DefinitionView.{summary};
    ghost use Rattle.orca_macro.specs.Plan.{HavePlans};

    ghost Value = { meaning.MacroBody };

    ghost view = { λ body. record { lines = body.lines; reach = body.reach } };

    ghost invariant = { λ body. ((q : List ℕ) → value_of_name body.targets q ≡ summary (places_from 0 q (take body.reach body.lines))) × HavePlans body.lines body.plans.items };
}

/// One more line with this sequence symbol.
fn add(
    alloc: Global,
    targets: &mut NameMap<BranchTarget>,
    name: &[u8],
    at: u32,
) -> Result<(), AllocError>
    ensures { OnOk result ((q : List ℕ) → value_of_name targets.new q ≡ (if bytes_eq name.now q then with_place at (value_of_name targets.old q) else value_of_name targets.old q)) }
{
    let place = match get_by_name(targets, name) {
        Some(_) => BranchTarget::Twice,
        None => BranchTarget::Once(at),
    };
    insert_by_name(alloc, targets, name, place)
}

/// The sequence symbol of a line, if it has one.
fn add_line(
    alloc: Global,
    targets: &mut NameMap<BranchTarget>,
    of: &SourceLine,
    at: u32,
) -> Result<(), AllocError>
    requires { HaveFields of.now.text (line of.now).fields }
    ensures { OnOk result ((q : List ℕ) → value_of_name targets.new q ≡ (if has_sequence q (line of.now) then with_place at (value_of_name targets.old q) else value_of_name targets.old q)) }
{
    match sequence_name(alloc, of.part(of.label))? {
        Some(name) => add(alloc, targets, name.bytes(), at),
        None => Ok(()),
    }
}

/// The sequence symbols of the first `reach` lines.
fn targets_of(alloc: Global, lines: &Lines, reach: u32) -> Result<NameMap<BranchTarget>, AllocError>
    requires { reach ≤ length lines.now }
    ensures { IfOk result (λ targets. (q : List ℕ) → value_of_name targets q ≡ summary (places_from 0 q (take reach lines.now))) }
{
    let mut targets = NameMap::new(alloc);
    let mut at = 0;
    'lines: while at < reach {
        let Some(line) = lines.get(at) else {
            return Ok(targets);
        };
        add_line(alloc, &mut targets, line, at)?;
        at += 1;
    }
    Ok(targets)
}

/// What is known of each line.
#[tactic(auto, using(crate::proofs::Plans::no_plans, crate::proofs::Plans::more_plans))]
fn plans_of(alloc: Global, lines: &Lines) -> Result<Vec<LinePlan>, AllocError>
    ensures { IfOk result (λ plans. HavePlans lines.now plans.items) }
{
    let mut plans = Vec::with_capacity(alloc, lines.count() as usize)?;
    let mut at = 0;
    'lines: while at < lines.count() {
        let Some(line) = lines.get(at) else {
            return Ok(plans);
        };
        let plan = plan_of(alloc, line)?;
        plans.push(plan)?;
        at += 1;
    }
    Ok(plans)
}

/// The plan at a place.
fn plan_at(plans: &[LinePlan], at: usize) -> Option<&LinePlan>
    ensures { MatchOption result (length plans.now ≤ at) (λ plan. slice_get plans.now at ≡ Some plan.now) }
{
    plans.get(at)
}

impl MacroBody {
    ghost use Rattle.std.specs.Prelude.{slice_get};

    /// The lines of the source. A branch can go to all of them.
    #[tactic(auto, using(crate::proofs::Plans::no_plans))]
    pub(crate) fn of_source(alloc: Global, lines: Lines) -> Result<MacroBody, AllocError>
        ensures { IfOk result (λ body. body ≡ record { lines = lines; reach = length lines }) }
    {
        let reach = lines.count();
        let targets = targets_of(alloc, &lines, reach)?;
        Ok(MacroBody {
            lines,
            reach,
            targets,
            plans: Vec::new(alloc),
        })
    }

    /// The lines of a macro, and how many of them a branch can go to.
    pub(crate) fn of_macro(alloc: Global, lines: Lines, reach: u32) -> Result<MacroBody, AllocError>
        requires { reach ≤ length lines }
        ensures { IfOk result (λ body. body ≡ record { lines = lines; reach = reach }) }
    {
        let targets = targets_of(alloc, &lines, reach)?;
        let plans = plans_of(alloc, &lines)?;
        Ok(MacroBody {
            lines,
            reach,
            targets,
            plans,
        })
    }

    /// The line at a place.
    pub(crate) fn line(&self, place: u32) -> Option<&SourceLine>
        ensures line { MatchOption result (slice_get self.now.lines place ≡ None) (λ found. slice_get self.now.lines place ≡ Some (line found.now)) }
        ensures fields { IfSome result (λ found. HaveFields found.now.text (line found.now).fields) }
        ensures own { IfSome result (λ found. (line found.now).fields ≡ fields_of found.now.text) }
        ensures bound { IfSome result (λ _. place + 1 < 2 ^ 32) }
    {
        if place < self.lines.count() {
            return self.lines.get(place);
        }
        None
    }

    /// What is known of the line at a place.
    #[tactic(auto, using(crate::proofs::Plans::plan_there))]
    pub(crate) fn plan(&self, place: u32) -> Option<&LinePlan>
        ensures { IfSome result (λ plan. FitsAt self.now.lines place plan.now) }
    {
        plan_at(self.plans.as_slice(), place as usize)
    }

    /// The only line to which a branch to this sequence symbol can go.
    #[tactic(auto, unfolding(macro_meaning::specs::Visit::target_of), using(crate::proofs::Targets::found_once, crate::proofs::Targets::found_twice, crate::proofs::Targets::found_none))]
    pub(crate) fn target(&self, name: &[u8]) -> Option<u32>
        ensures { result ≡ target_of self.now name.now }
    {
        match get_by_name(&self.targets, name) {
            Some(BranchTarget::Once(place)) => Some(*place),
            Some(BranchTarget::Twice) => None,
            None => None,
        }
    }
}
