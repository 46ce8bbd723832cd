//! Macro definitions of files (ORCA/M reference manual, "Macro definitions").

ghost use Rattle.std.specs.Prelude.{◌≡◌, ◌≤◌, ◌<◌, ◌+◌, ◌-◌, ◌^◌, ◌∷◌, ◌++◌, [], List, ℕ, length, take, drop, map, slice_get, codes, true, Some, None, IfOk, IfErr, IfSome, OnOk, MatchOption, MatchResult, if◌then◌else◌};
ghost use Rattle.std.specs.List.{list_any};
ghost use Rattle.orca_meaning.specs.Line.{HaveFields, fields_of};
ghost use Rattle.orca_meaning.specs.Line as meaning;
ghost use Rattle.macro_meaning.specs.Definition.{operation_is, parts_of, source_line, definitions_in, first_part_fault, definition_of, part_fault, Closed};
ghost use Rattle.macro_meaning.specs.laws.Steps.{counts_after};
ghost use Rattle.macro_meaning.specs.Expansion.{fault_at, line_fault_of};
ghost use Rattle.macro_meaning.specs.Definition as macros;
ghost use Rattle.std.specs.Prelude.{Bool};
ghost use Rattle.orca_symbols.specs.ModelView.{model};
ghost use Rattle.orca_macro.specs.Parts.{definition, HaveOwn, IsScanned, IsBegun, Judged, Scanned};
ghost use Rattle.orca_text.specs.View.{line};

use crate::body::MacroBody;
use macro_meaning::{MacroCause, MacroFault};
use orca_symbols::{ModelLine, model_of, operation_is};
use orca_text::{LinePart, Lines, SourceLine};
use std::alloc::{AllocError, Global};

/// A macro.
#[derive(Drop)]
pub(crate) struct MacroDefinition {
    /// What its model line says.
    pub(crate) model: ModelLine,
    /// It counts in expansions that began after this line of the source, in all where that is 0.
    pub(crate) visible_after: u32,
    /// The lines after the model line, with the MEND line, to which no branch goes.
    pub(crate) body: MacroBody,
}

/// Copies a line to the end of others.
fn copy_line(alloc: Global, to: &mut Lines, of: &SourceLine) -> Result<(), AllocError>
    requires own { (line of.now).fields ≡ fields_of of.now.text }
    requires room { length to.old + 1 < 2 ^ 32 }
    ensures { OnOk result (to.new ≡ to.old ++ line of.now ∷ []) }
{
    to.copy(alloc, of)
}

/// The lines from a place up to another one.
#[tactic(auto, using(crate::proofs::Scans::copy_more))]
fn copy_range(alloc: Global, lines: &Lines, from: u32, to: u32) -> Result<Lines, AllocError>
    requires own { HaveOwn lines.now }
    requires order { from ≤ to }
    requires within { to ≤ length lines.now }
    ensures { IfOk result (λ found. found ≡ take (to - from) (drop from lines.now)) }
{
    let mut found = Lines::new(alloc);
    let mut at = from;
    'lines: while at < to {
        let Some(line) = lines.get(at) else {
            unreachable!();
        };
        copy_line(alloc, &mut found, line)?;
        at += 1;
    }
    Ok(found)
}

/// A fault at a line.
pub(crate) fn fault_at(of: &SourceLine, cause: MacroCause) -> MacroFault
    ensures { result ≡ fault_at (line of.now) cause }
{
    MacroFault {
        cause,
        file: of.file,
        line: of.line,
    }
}

/// The definition with this model line, whose lines after it go up to the MEND line at a place.
fn closed_with(
    alloc: Global,
    following: u32,
    said: ModelLine,
    lines: &Lines,
    from: u32,
    mend: u32,
) -> Result<MacroDefinition, AllocError>
    requires own { HaveOwn lines.now }
    requires order { from ≤ mend }
    requires within { mend < length lines.now }
    requires bound { length lines.now < 2 ^ 32 }
    ensures { IfOk result (λ d. definition d ≡ record {
      model = model said;
      visible_after = following;
      body = record { lines = take (mend + 1 - from) (drop from lines.now); reach = mend - from };
    }) }
{
    let inner = copy_range(alloc, lines, from, mend + 1)?;
    let body = MacroBody::of_macro(alloc, inner, mend - from)?;
    Ok(MacroDefinition {
        model: said,
        visible_after: following,
        body,
    })
}

/// The definition from a MACRO line to a MEND line, or what is wrong with it.
#[tactic(auto, using(crate::proofs::Scans::judged_empty, crate::proofs::Scans::judged_bad, crate::proofs::Scans::judged_good))]
fn close_definition(
    alloc: Global,
    following: u32,
    lines: &Lines,
    begins: u32,
    mend: u32,
) -> Result<Result<MacroDefinition, MacroFault>, AllocError>
    requires own { HaveOwn lines.now }
    requires order { begins < mend }
    requires within { mend < length lines.now }
    requires bound { length lines.now < 2 ^ 32 }
    ensures { IfOk result (λ found. (m e : meaning.Line) → slice_get lines.now begins ≡ Some m → slice_get lines.now mend ≡ Some e
        → Judged following m (take (mend - begins - 1) (drop (begins + 1) lines.now)) e found) }
{
    let Some(model) = lines.get(begins + 1) else {
        unreachable!();
    };
    if begins + 1 == mend {
        return Ok(Err(fault_at(model, MacroCause::BadArguments)));
    }
    let text = LinePart {
        bytes: model.text.bytes(),
    };
    match model_of(alloc, text)? {
        Some(found) => {
            let d = closed_with(alloc, following, found, lines, begins + 2, mend)?;
            Ok(Ok(d))
        }
        None => Ok(Err(fault_at(model, MacroCause::BadArguments))),
    }
}

/// The line after which the definition that begins at a line counts.
fn counts_after(in_source: bool, begins: &SourceLine) -> u32
    ensures { result ≡ counts_after in_source (line begins.now) }
{
    if in_source { begins.line } else { 0 }
}

/// The state of a scan: the lines outside definitions with the MACRO lines, the definitions, and the place of the MACRO line
/// of the definition that is open.
#[derive(Drop)]
pub(crate) struct Scan {
    plain: Lines,
    begun: Option<u32>,
}

/// Takes a line outside definitions.
fn take_outside(alloc: Global, scan: &mut Scan, of: &SourceLine, at: u32) -> Result<(), AllocError>
    requires fields { HaveFields of.now.text (line of.now).fields }
    requires own { (line of.now).fields ≡ fields_of of.now.text }
    requires room { length scan.old.plain + 1 < 2 ^ 32 }
    ensures { OnOk result ((scan.new.plain ≡ scan.old.plain ++ line of.now ∷ []) × (scan.new.begun ≡ (if operation_is (codes "MACRO") (line of.now) then Some at else None))) }
{
    copy_line(alloc, &mut scan.plain, of)?;
    if operation_is(of, b"MACRO") {
        scan.begun = Some(at);
    } else {
        scan.begun = None;
    }
    Ok(())
}

/// Takes one more line of a file: the fault of a definition that ends there, if it has one.
#[tactic(auto, using(crate::proofs::Scans::outside_plain, crate::proofs::Scans::outside_macro, crate::proofs::Scans::inside_on, crate::proofs::Scans::inside_end, crate::proofs::Scans::inside_bad))]
fn take_line(
    alloc: Global,
    in_source: bool,
    lines: &Lines,
    at: u32,
    scan: &mut Scan,
    definitions: &mut Vec<MacroDefinition>,
) -> Result<Option<MacroFault>, AllocError>
    requires own { HaveOwn lines.now }
    requires within { at < length lines.now }
    requires bound { length lines.now < 2 ^ 32 }
    requires few { length scan.old.plain ≤ at }
    requires opened { IfSome scan.old.begun (λ begins. begins < at) }
    ensures few { IfOk result (λ found. length scan.new.plain ≤ at + 1) }
    ensures opened { IfOk result (λ found. IfSome scan.new.begun (λ begins. begins < at + 1)) }
    ensures ok { IfOk result (λ found. (old : List macros.MacroDefinition)
        → IsScanned in_source lines.now at scan.old.plain old (map definition definitions.old.items) scan.old.begun
        → MatchOption found (IsScanned in_source lines.now (at + 1) scan.new.plain old (map definition definitions.new.items) scan.new.begun)
        (λ fault. line_fault_of (first_part_fault (parts_of None lines.now)) ≡ Some fault)) }
{
    let Some(line) = lines.get(at) else {
        return Ok(None);
    };
    let Some(begins) = scan.begun else {
        take_outside(alloc, scan, line, at)?;
        return Ok(None);
    };
    if !operation_is(line, b"MEND") {
        return Ok(None);
    }
    let Some(first) = lines.get(begins) else {
        return Ok(None);
    };
    match close_definition(alloc, counts_after(in_source, first), lines, begins, at)? {
        Ok(d) => {
            definitions.push(d)?;
            scan.begun = None;
            Ok(None)
        }
        Err(fault) => Ok(Some(fault)),
    }
}

/// What the end of a file leaves: the lines that are visited, unless a definition is open.
#[tactic(auto, using(crate::proofs::Scans::ended_good, crate::proofs::Scans::ended_open))]
fn end_of_file(lines: &Lines, scan: Scan) -> Result<Lines, MacroFault>
    requires { IfSome scan.begun (λ begins. begins < length lines.now) }
    ensures { (in_source : Bool) (old new : List macros.MacroDefinition)
        → IsScanned in_source lines.now (length lines.now) scan.plain old new scan.begun → Scanned in_source lines.now old new result }
{
    match scan.begun {
        Some(begins) => match lines.get(begins) {
            Some(line) => Err(fault_at(line, MacroCause::Unclosed)),
            None => unreachable!(),
        },
        None => Ok(scan.plain),
    }
}

/// Adds the definitions of a file to others: the lines that are visited, of each definition its MACRO line alone, or the
/// first fault.
pub(crate) fn scan_file(
    alloc: Global,
    in_source: bool,
    lines: &Lines,
    definitions: &mut Vec<MacroDefinition>,
) -> Result<Result<Lines, MacroFault>, AllocError>
    requires own { HaveOwn lines.now }
    ensures { IfOk result (λ found. Scanned in_source lines.now (map definition definitions.old.items) (map definition definitions.new.items) found) }
{
    let mut scan = Scan {
        plain: Lines::new(alloc),
        begun: None,
    };
    let mut at = 0;
    'lines: while at < lines.count() {
        match take_line(alloc, in_source, lines, at, &mut scan, definitions)? {
            Some(fault) => return Ok(Err(fault)),
            None => at += 1,
        }
    }
    Ok(end_of_file(lines, scan))
}

/// Whether a definition begins at one of the lines.
fn begins_any(lines: &Lines) -> bool
    ensures { result ≡ list_any (operation_is (codes "MACRO")) lines.now }
{
    let mut at = 0;
    'lines: while at < lines.count() {
        let Some(line) = lines.get(at) else {
            unreachable!();
        };
        if operation_is(line, b"MACRO") {
            return true;
        }
        at += 1;
    }
    false
}

/// Adds the definitions of the source to others: the lines that are visited, or the first fault. No line is copied where none
/// begins a definition.
pub(crate) fn scan_source(
    alloc: Global,
    lines: Lines,
    definitions: &mut Vec<MacroDefinition>,
) -> Result<Result<Lines, MacroFault>, AllocError>
    requires own { HaveOwn lines }
    ensures { IfOk result (λ found. Scanned true lines (map definition definitions.old.items) (map definition definitions.new.items) found) }
{
    if begins_any(&lines) {
        return scan_file(alloc, true, &lines, definitions);
    }
    Ok(Ok(lines))
}
