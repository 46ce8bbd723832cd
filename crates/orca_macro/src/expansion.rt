//! The expansion of a source with macro files.

ghost use Rattle.std.specs.Prelude.{◌≡◌, ◌≤◌, ◌<◌, ◌+◌, ◌++◌, ◌^◌, ◌==◌, [], List, ℕ, map, length, false, Some, None, IfOk, IfErr, IfSome, OnOk, MatchOption};
ghost use Rattle.std.specs.Prelude.{IfNone, Ok, Err};
ghost use Rattle.macro_meaning.specs.Call.{no_symbols};
ghost use Rattle.macro_meaning.specs.Effect as effects;
ghost use Rattle.macro_meaning.specs.Expansion as meaning;
ghost use Rattle.macro_meaning.specs.Expansion.{AreGoodFiles, IsExpanded, IsMacroFault, fault_at, file_text_fault, first_in};
ghost use Rattle.macro_meaning.specs.Visit.{Visit, no_texts, line_at, root_by, setting_of, most_visits};
ghost use Rattle.macro_meaning.specs.laws.Steps.{given_by};
ghost use Rattle.omf_format.specs.Lines.{lines_of};
ghost use Rattle.orca_meaning.specs.Line.{HaveFields, fields_of, numbered_lines};
ghost use Rattle.orca_macro.specs.EffectView.{effect_view};
ghost use Rattle.orca_macro.specs.Files.{texts_of_files, CanRead, lines_from, IsTextFault, AllOwn, first_part_in, definitions_of, IsProgram, HasVisited};
ghost use Rattle.orca_macro.specs.Parts.{definition, HaveOwn};
ghost use Rattle.orca_macro.specs.Plan.{Fits, IsGiven};
ghost use Rattle.orca_symbols.specs.Frame.{frame, stack_of};
ghost use Rattle.orca_macro.specs.StateView.{StandsIn, Visited};
ghost use Rattle.orca_symbols.specs.View.{texts_of};
ghost use Rattle.orca_text.specs.Refusals.{IsRefused};
ghost use Rattle.orca_text.specs.View.{line};

use crate::body::MacroBody;
use crate::definitions::{MacroDefinition, fault_at, scan_file, scan_source};
use crate::effect::Effect;
use crate::plan::LinePlan;
use crate::program::MacroProgram;
use crate::untouched::are_untouched;
use crate::visited::{Standing, effect_of, effect_of_template, is_given};
use crate::visits::{Flow, MOST_VISITS, advance, step};
use macro_meaning::{MacroCause, MacroFault};
use orca_symbols::{ExpansionState, Symbols, Values};
use orca_text::{LinePart, Lines, SourceLine, TextCause, TextFault, read_lines};
use std::alloc::{AllocError, Global};

/// The fault when out of memory.
fn no_memory() -> MacroFault
    ensures { result ≡ record { cause = MacroCause.Memory; file = 0; line = 0 } }
{
    MacroFault {
        cause: MacroCause::Memory,
        file: 0,
        line: 0,
    }
}

/// A fault of reading.
fn text_fault(fault: TextFault) -> MacroFault
    requires { CanRead fault.cause }
    ensures reported { (file : ℕ) (source : List ℕ) → IsRefused file source fault → IsTextFault (file_text_fault file source) result }
    ensures memory { result.cause ≡ MacroCause.Memory → fault.cause ≡ TextCause.Memory }
{
    match fault.cause {
        TextCause::LineTooLong => MacroFault {
            cause: MacroCause::LineTooLong,
            file: fault.file,
            line: fault.line,
        },
        TextCause::TooManyLines => MacroFault {
            cause: MacroCause::TooManyLines,
            file: fault.file,
            line: fault.line,
        },
        TextCause::Memory => no_memory(),
        TextCause::BadOperand => unreachable!(),
        TextCause::BadNumber => unreachable!(),
    }
}

/// The lines of a file.
#[tactic(auto, using(crate::proofs::Whole::can_read))]
fn read_file(alloc: Global, file: u32, bytes: &[u8]) -> Result<Lines, MacroFault>
    ensures lines { IfOk result (λ lines. lines ≡ numbered_lines file 1 (lines_of bytes.now)) }
    ensures good { IfOk result (λ lines. file_text_fault file bytes.now ≡ None) }
    ensures refused { IfErr result (λ fault. IsTextFault (file_text_fault file bytes.now) fault) }
{
    match read_lines(alloc, file, bytes) {
        Ok(lines) => Ok(lines),
        Err(fault) => Err(text_fault(fault)),
    }
}

/// The lines of the macro files, in order.
#[tactic(auto, using(crate::proofs::Whole::lines_start, crate::proofs::Whole::lines_more, crate::proofs::Whole::good_more, crate::proofs::Whole::lines_end, crate::proofs::Whole::good_end, crate::proofs::Whole::bad_file))]
fn read_all(alloc: Global, macros: &[Vec<u8>]) -> Result<Vec<Lines>, MacroFault>
    ensures lines { IfOk result (λ found. found.items ≡ lines_from 1 (texts_of_files macros.now)) }
    ensures good { IfOk result (λ found. first_in file_text_fault 1 (texts_of_files macros.now) ≡ None) }
    ensures refused { IfErr result (λ fault. IsTextFault (first_in file_text_fault 1 (texts_of_files macros.now)) fault) }
{
    let mut found = Vec::new(alloc);
    let mut file: u32 = 1;
    'files: for bytes in macros {
        let lines = read_file(alloc, file, bytes.as_slice())?;
        match found.push(lines) {
            Ok(()) => {}
            Err(_) => return Err(no_memory()),
        }
        file = file.saturating_add(1);
    }
    Ok(found)
}

/// Adds the definitions of the macro files to others, unless one has a fault.
#[tactic(auto, using(crate::proofs::Whole::scan_more, crate::proofs::Whole::scan_good, crate::proofs::Whole::scan_bad, crate::proofs::Whole::scan_end, crate::proofs::Whole::scan_all_good))]
fn scan_all(
    alloc: Global,
    macros: &[Lines],
    definitions: &mut Vec<MacroDefinition>,
) -> Result<Option<MacroFault>, AllocError>
    requires { AllOwn macros.now }
    ensures { IfOk result (λ found. MatchOption found
        ((first_part_in macros.now ≡ None) × (map definition definitions.new.items ≡ map definition definitions.old.items ++ definitions_of macros.now))
        (λ fault. first_part_in macros.now ≡ Some fault)) }
{
    'files: for lines in macros {
        match scan_file(alloc, false, lines, definitions)? {
            Ok(_) => {}
            Err(fault) => return Ok(Some(fault)),
        }
    }
    Ok(None)
}

/// The program of these lines and macros.
fn build_expansion(
    alloc: Global,
    plain: Lines,
    definitions: Vec<MacroDefinition>,
) -> Result<MacroProgram, AllocError>
    ensures { IfOk result (λ program. program ≡ record { source = record { lines = plain; reach = length plain }; definitions = map definition definitions.items }) }
{
    let body = MacroBody::of_source(alloc, plain)?;
    MacroProgram::of(alloc, body, definitions)
}

/// The definitions of the macro files and the source, and its lines.
#[tactic(auto, using(crate::proofs::Whole::program_good, crate::proofs::Whole::program_macros_bad, crate::proofs::Whole::program_source_bad))]
fn program_of(
    alloc: Global,
    source: Lines,
    macros: &[Lines],
) -> Result<Result<MacroProgram, MacroFault>, AllocError>
    requires source { HaveOwn source }
    requires macros { AllOwn macros.now }
    ensures { IfOk result (λ found. IsProgram source macros.now found) }
{
    let mut definitions: Vec<MacroDefinition> = Vec::new(alloc);
    match scan_all(alloc, macros, &mut definitions)? {
        Some(fault) => return Ok(Err(fault)),
        None => {}
    }
    match scan_source(alloc, source, &mut definitions)? {
        Ok(plain) => {
            let program = build_expansion(alloc, plain, definitions)?;
            Ok(Ok(program))
        }
        Err(fault) => Ok(Err(fault)),
    }
}

/// The line of the source at which the outermost expansion of a line began.
#[inline(always)]
fn root_of(state: &ExpansionState, number: u32) -> u32
    ensures { (before : List Visit) (v : Visit) → StandsIn before v state.now → result ≡ root_by v.caller v.root number }
{
    if state.frames.count() == 0 {
        return number;
    }
    state.scope.root
}

/// What a line does.
fn effect_at<'a>(
    alloc: Global,
    program: &MacroProgram,
    state: &ExpansionState,
    root: u32,
    of: &'a SourceLine,
    plan: Option<&'a LinePlan>,
    buffer: &'a mut Vec<u8>,
    spare: &mut Symbols,
) -> Result<Effect<'a>, AllocError>
    requires fields { HaveFields of.now.text (line of.now).fields }
    requires plan { IfSome plan (λ p. Fits (line of.now) p.now) }
    ensures { IfOk result (λ d. (before : List Visit) (v : Visit) → StandsIn before v state.now → root ≡ root_by v.caller v.root (line of.now).number
        → effects.IsEffect (setting_of program.now v (line of.now).number) (line of.now) (effect_view d)) }
{
    let at = Standing {
        program,
        root,
        in_source: state.scope.place.is_none(),
        values: Values {
            symbols: &state.scope.symbols,
            texts: &state.texts,
            calls: &state.calls,
        },
    };
    match plan {
        Some(plan) => effect_of_template(alloc, at, of, plan, buffer, spare),
        None => effect_of(alloc, at, of, buffer, spare),
    }
}

/// Appends the line that an effect gives, if it gives one.
fn give(
    alloc: Global,
    out: &mut Lines,
    of: &SourceLine,
    given: &Effect<'_>,
) -> Result<(), AllocError>
    requires { length out.old + 1 < 2 ^ 32 }
    ensures lines { OnOk result (out.new ≡ out.old ++ given_by (line of.now) (effect_view given.now)) }
    ensures few { OnOk result (length out.new ≤ length out.old + 1) }
{
    match given {
        Effect::Emit(text) => {
            let text = LinePart {
                bytes: text.bytes(),
            };
            out.push(alloc, of.file, of.line, text)
        }
        Effect::NoEffect => Ok(()),
        Effect::DeclareSymbol(_, _) => Ok(()),
        Effect::SetSymbol(_, _, _) => Ok(()),
        Effect::BranchTo(_) => Ok(()),
        Effect::SetCounter(_) => Ok(()),
        Effect::Exit => Ok(()),
        Effect::CallMacro(_, _) => Ok(()),
        Effect::Fail(_) => Ok(()),
    }
}

/// Visits a line that is given unchanged.
#[inline(always)]
fn pass_on(
    alloc: Global,
    program: &MacroProgram,
    state: &mut ExpansionState,
    of: &SourceLine,
    spare: &mut Symbols,
    out: &mut Lines,
) -> Result<Flow, AllocError>
    requires own { (line of.now).fields ≡ fields_of of.now.text }
    requires given { IsGiven program.now.definitions (line of.now) }
    requires line { state.old.scope.line + 1 < 2 ^ 32 }
    requires room { length out.old + 1 < 2 ^ 32 }
    ensures visited { IfOk result (λ outcome. (before : List Visit) (v : Visit) → StandsIn before v state.old → line_at program.now v.macro v.line ≡ Some (line of.now)
        → (length before == most_visits) ≡ false → Visited program.now before v (line of.now) outcome state.new out.old out.new) }
    ensures calls { IfOk result (λ outcome. state.new.calls ≤ state.old.calls + 1) }
    ensures few { IfOk result (λ outcome. length out.new ≤ length out.old + 1) }
{
    out.copy(alloc, of)?;
    Ok(advance(program, &mut state.scope, &mut state.frames, spare))
}

/// Does what a visited line says.
fn carry_out(
    alloc: Global,
    program: &MacroProgram,
    state: &mut ExpansionState,
    of: &SourceLine,
    plan: Option<&LinePlan>,
    buffer: &mut Vec<u8>,
    spare: &mut Symbols,
    out: &mut Lines,
) -> Result<Flow, AllocError>
    requires fields { HaveFields of.now.text (line of.now).fields }
    requires plan { IfSome plan (λ p. Fits (line of.now) p.now) }
    requires line { state.old.scope.line + 1 < 2 ^ 32 }
    requires calls { state.old.calls + 1 < 2 ^ 32 }
    requires room { length out.old + 1 < 2 ^ 32 }
    ensures visited { IfOk result (λ outcome. (before : List Visit) (v : Visit) → StandsIn before v state.old → line_at program.now v.macro v.line ≡ Some (line of.now)
        → (length before == most_visits) ≡ false → Visited program.now before v (line of.now) outcome state.new out.old out.new) }
    ensures calls { IfOk result (λ outcome. state.new.calls ≤ state.old.calls + 1) }
    ensures few { IfOk result (λ outcome. length out.new ≤ length out.old + 1) }
{
    let root = root_of(state, of.line);
    let found = effect_at(alloc, program, state, root, of, plan, buffer, spare)?;
    match give(alloc, out, of, &found) {
        Ok(()) => {}
        Err(error) => {
            drop(found);
            return Err(error);
        }
    }
    let outcome = step(alloc, program, state, root, found, spare)?;
    Ok(outcome)
}

/// Visits a line. If a line of the source is given unchanged, nothing else is looked for in it.
pub(crate) fn visit(
    alloc: Global,
    program: &MacroProgram,
    state: &mut ExpansionState,
    of: &SourceLine,
    plan: Option<&LinePlan>,
    buffer: &mut Vec<u8>,
    spare: &mut Symbols,
    out: &mut Lines,
) -> Result<Flow, AllocError>
    requires fields { HaveFields of.now.text (line of.now).fields }
    requires own { (line of.now).fields ≡ fields_of of.now.text }
    requires plan { IfSome plan (λ p. Fits (line of.now) p.now) }
    requires line { state.old.scope.line + 1 < 2 ^ 32 }
    requires calls { state.old.calls + 1 < 2 ^ 32 }
    requires room { length out.old + 1 < 2 ^ 32 }
    ensures visited { IfOk result (λ outcome. (before : List Visit) (v : Visit) → StandsIn before v state.old → line_at program.now v.macro v.line ≡ Some (line of.now)
        → (length before == most_visits) ≡ false → Visited program.now before v (line of.now) outcome state.new out.old out.new) }
    ensures calls { IfOk result (λ outcome. state.new.calls ≤ state.old.calls + 1) }
    ensures few { IfOk result (λ outcome. length out.new ≤ length out.old + 1) }
{
    if plan.is_none() {
        if is_given(alloc, program, of)? {
            return pass_on(alloc, program, state, of, spare, out);
        }
    }
    carry_out(alloc, program, state, of, plan, buffer, spare, out)
}

/// Makes the visits from the first line of the source on. None where they end, and else the fault of the first line that has one.
#[tactic(auto, using(crate::proofs::Runs::finished, crate::proofs::Runs::full))]
fn visits(
    alloc: Global,
    program: &MacroProgram,
    state: &mut ExpansionState,
    buffer: &mut Vec<u8>,
    spare: &mut Symbols,
    out: &mut Lines,
) -> Result<Option<MacroFault>, AllocError>
    requires scope { frame state.old.scope ≡ record { macro = None; line = 0; root = 0; counter = 255; symbols = no_symbols } }
    requires frames { stack_of state.old.frames ≡ [] }
    requires texts { texts_of state.old.texts ≡ no_texts }
    requires calls { state.old.calls ≡ 0 }
    requires none { out.old ≡ [] }
    ensures lines { IfOk result (λ stopped. IfNone stopped (HasVisited program.now (Ok out.new))) }
    ensures refused { IfOk result (λ stopped. IfSome stopped (λ fault. HasVisited program.now (Err fault))) }
{
    let mut count: u32 = 0;
    'visits: loop {
        let Some((line, plan)) = program.effect_at(state.scope.place, state.scope.line) else {
            return Ok(None);
        };
        if count == MOST_VISITS {
            return Ok(Some(fault_at(line, MacroCause::TooManyLines)));
        }
        match visit(alloc, program, state, line, plan, buffer, spare, out)? {
            Flow::Goes => {}
            Flow::Ends => return Ok(None),
            Flow::Stops(cause) => return Ok(Some(fault_at(line, cause))),
        }
        count += 1;
    }
}

/// The lines that the visits give, or the fault of the first that has one.
fn visit_all(alloc: Global, program: &MacroProgram) -> Result<Result<Lines, MacroFault>, AllocError>
    ensures { IfOk result (λ found. HasVisited program.now found) }
{
    let mut state = ExpansionState::new(alloc)?;
    let mut buffer = Vec::new(alloc);
    let mut spare = Symbols::new(alloc);
    let mut out = Lines::new(alloc);
    let found = visits(
        alloc,
        program,
        &mut state,
        &mut buffer,
        &mut spare,
        &mut out,
    );
    drop(state);
    drop(buffer);
    drop(spare);
    match found? {
        None => Ok(Ok(out)),
        Some(fault) => Ok(Err(fault)),
    }
}

/// The lines to which a source expands with macro files, or the first fault: of reading, macro files in order and then the
/// source; else of a definition, in the same order; else that of the first visited line that has one.
pub fn expand(alloc: Global, source: &[u8], macros: &Vec<Vec<u8>>) -> Result<Lines, MacroFault>
    ensures lines { IfOk result (λ lines. IsExpanded source.now (texts_of_files macros.now.items) lines) }
    ensures refused { IfErr result (λ fault. IsMacroFault source.now (texts_of_files macros.now.items) fault) }
{
    let texts = macros.as_slice();
    let files = read_all(alloc, texts)?;
    let mut lines = match read_file(alloc, 0, source) {
        Ok(lines) => lines,
        Err(fault) => {
            drop(files);
            return Err(fault);
        }
    };
    if texts.is_empty() {
        if are_untouched(&lines) {
            drop(files);
            lines.drop_comments();
            return Ok(lines);
        }
    }
    let parts = files.as_slice();
    let program = match program_of(alloc, lines, parts) {
        Ok(Ok(program)) => program,
        Ok(Err(fault)) => {
            drop(files);
            return Err(fault);
        }
        Err(_) => {
            drop(files);
            return Err(no_memory());
        }
    };
    let visited = visit_all(alloc, &program);
    drop(program);
    drop(files);
    match visited {
        Ok(found) => found,
        Err(_) => Err(no_memory()),
    }
}

/// The lines of a source without its definitions, and the macros: those of the macro files, and then its own. Otherwise the
/// first fault: of reading, macro files in order and then the source; else of a definition, in the same order.
pub fn read_program(
    alloc: Global,
    source: &[u8],
    macros: &Vec<Vec<u8>>,
) -> Result<MacroProgram, MacroFault>
    ensures good { OnOk result (AreGoodFiles source.now (texts_of_files macros.now.items)) }
    ensures program { IfOk result (λ program. program ≡ meaning.program_of source.now (texts_of_files macros.now.items)) }
    ensures refused { IfErr result (λ fault. IsMacroFault source.now (texts_of_files macros.now.items) fault) }
{
    let files = read_all(alloc, macros.as_slice())?;
    let lines = match read_file(alloc, 0, source) {
        Ok(lines) => lines,
        Err(fault) => {
            drop(files);
            return Err(fault);
        }
    };
    let read = program_of(alloc, lines, files.as_slice());
    drop(files);
    match read {
        Ok(found) => found,
        Err(_) => Err(no_memory()),
    }
}
