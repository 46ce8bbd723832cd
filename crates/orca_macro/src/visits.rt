//! What follows a visited line.

ghost use Rattle.std.specs.Prelude.{◌≡◌, ◌≤◌, ◌<◌, ◌+◌, ◌^◌, ◌∷◌, ◌++◌, [], List, ℕ, Option, length, Some, None, IfOk, OnOk, IfSome, MatchOption};
ghost use Rattle.macro_meaning.specs.Symbol.{SharedTexts};
ghost use Rattle.macro_meaning.specs.Visit.{Visit, On, Ends, MacroProgram, move_after_expansion, next_line, line_at, root_by, call_of, target_of, body_of, move_of, shared_first};
ghost use Rattle.macro_meaning.specs.laws.Steps.{branch_to};
ghost use Rattle.macro_meaning.specs.Effect as effects;
ghost use Rattle.orca_meaning.specs.Line as meaning;
ghost use Rattle.orca_symbols.specs.Changes.{IsDeclared, IsAssigned};
ghost use Rattle.orca_macro.specs.EffectView.{effect_view};
ghost use Rattle.orca_symbols.specs.Frame.{Frame, frame, stack_of};
ghost use Rattle.orca_macro.specs.Stacks.{Stacks, Stands, IsBack, MovesTo};
ghost use Rattle.orca_macro.specs.StateView.{StandsIn, MovesIn};
ghost use Rattle.orca_symbols.specs.View.{symbols_of, texts_of};

use crate::effect::Effect;
use crate::program::MacroProgram;
use macro_meaning::{Declaration, MacroCause, SymbolKind};
use orca_symbols::{
    CallCounts, CallScope, ExpansionState, Frames, SharedText, SharedTextTable, Symbol, SymbolText,
    Symbols, first_text,
};
use orca_text::SourceLine;
use std::alloc::{AllocError, Global};

/// How the visits go on.
#[derive(Clone, Copy)]
pub enum Flow {
    /// Another line is visited.
    Goes,
    /// That was the last one.
    Ends,
    /// The line has a fault.
    Stops(MacroCause),
}

/// How many lines are visited at most.
pub(crate) const MOST_VISITS: u32 = 1_000_000;

/// How deep calls are nested at most.
const MOST_NESTED: usize = 32;

/// With how many branches an expansion begins.
const FIRST_COUNTER: u32 = 255;

/// Gives a shared symbol its first text, unless it has one.
fn share(
    alloc: Global,
    texts: &mut SharedTextTable,
    name: &[u8],
    kind: SymbolKind,
) -> Result<(), AllocError>
    ensures { OnOk result (texts_of texts.new ≡ shared_first name.now kind (texts_of texts.old)) }
{
    match texts.get(name) {
        Some(_) => Ok(()),
        None => {
            let text = first_text(alloc, kind)?;
            texts.set(alloc, name, SharedText { kind, text })
        }
    }
}

/// Declares a symbol.
fn declare(
    alloc: Global,
    symbols: &mut Symbols,
    texts: &mut SharedTextTable,
    name: &[u8],
    declaration: Declaration,
) -> Result<(), AllocError>
    ensures { OnOk result (IsDeclared name.now declaration (symbols_of symbols.old) (symbols_of symbols.new) (texts_of texts.old) (texts_of texts.new)) }
{
    match declaration {
        Declaration::Local(kind) => {
            let text = first_text(alloc, kind)?;
            symbols.add(alloc, name, Symbol::Own(kind, text))
        }
        Declaration::Shared(kind) => {
            symbols.add(alloc, name, Symbol::Common(kind))?;
            share(alloc, texts, name, kind)
        }
    }
}

/// Sets a symbol to a text.
#[tactic(auto, using(orca_symbols::proofs::Renewals::assigned_own, orca_symbols::proofs::Renewals::assigned_common))]
fn assign(
    alloc: Global,
    symbols: &mut Symbols,
    texts: &mut SharedTextTable,
    name: &[u8],
    kind: SymbolKind,
    text: SymbolText,
) -> Result<(), AllocError>
    ensures { OnOk result (IsAssigned name.now kind text (symbols_of symbols.old name.now) (symbols_of symbols.old) (symbols_of symbols.new) (texts_of texts.old) (texts_of texts.new)) }
{
    match symbols.renew(name, kind, text) {
        Some(text) => texts.set(alloc, name, SharedText { kind, text }),
        None => Ok(()),
    }
}

/// The line after the calls that are under way, or none where the source has ended.
#[tactic(auto, using(crate::proofs::Returns::ended, crate::proofs::Returns::ended_so))]
fn return_from_calls(program: &MacroProgram, frames: &mut Frames) -> Option<CallScope>
    ensures { (before : List Visit) (last : Visit) (depth : ℕ) (caller : Option ℕ) → Stacks before depth caller (stack_of frames.old) → MatchOption result
        (move_after_expansion program.now before last depth caller ≡ Ends)
        (λ scope. (w : Visit) × (move_after_expansion program.now before last depth caller ≡ On w) × IsBack before last w (frame scope) (stack_of frames.new)) }
{
    'frames: while let Some(scope) = frames.pop() {
        match program.line(scope.place, scope.line) {
            Some(_) => return Some(scope),
            None => {}
        }
    }
    None
}

/// What follows an expansion. Its symbols become the spare ones.
fn leave(
    program: &MacroProgram,
    now: &mut CallScope,
    frames: &mut Frames,
    spare: &mut Symbols,
) -> Flow
    ensures { (before : List Visit) (v last : Visit) (line : meaning.Line) (texts : SharedTexts) (calls : ℕ) → Stands before v (frame now.old) (stack_of frames.old) texts calls
        → MovesTo (move_after_expansion program.now before v v.depth v.caller) (before ++ last ∷ []) line result (frame now.new) (stack_of frames.new) texts calls }
{
    match return_from_calls(program, frames) {
        Some(scope) => {
            let gone = std::mem::replace(now, scope);
            *spare = gone.symbols;
            Flow::Goes
        }
        None => Flow::Ends,
    }
}

/// The next line, or what follows the expansion.
pub(crate) fn advance(
    program: &MacroProgram,
    now: &mut CallScope,
    frames: &mut Frames,
    spare: &mut Symbols,
) -> Flow
    requires { now.old.line + 1 < 2 ^ 32 }
    ensures { (before : List Visit) (v last : Visit) (line : meaning.Line) (texts : SharedTexts) (calls : ℕ) → Stands before v (frame now.old) (stack_of frames.old) texts calls
        → MovesTo (next_line program.now before v) (before ++ last ∷ []) line result (frame now.new) (stack_of frames.new) texts calls }
{
    match program.line(now.place, now.line + 1) {
        Some(_) => {
            now.line += 1;
            Flow::Goes
        }
        None => leave(program, now, frames, spare),
    }
}

/// A branch to a sequence symbol.
fn branch(program: &MacroProgram, now: &mut CallScope, name: &[u8]) -> Flow
    ensures { (before : List Visit) (v : Visit) (line : meaning.Line) (fs : List Frame) (texts : SharedTexts) (calls : ℕ) → Stands before v (frame now.old) fs texts calls
        → MovesTo (branch_to v line (target_of (body_of program.now v.macro) name.now)) (before ++ v ∷ []) line result (frame now.new) fs texts calls }
{
    let Some(line) = program.target(now.place, name) else {
        return Flow::Stops(MacroCause::NoSequenceSymbol);
    };
    if now.counter == 0 {
        return Flow::Stops(MacroCause::Counter);
    }
    now.line = line;
    now.counter -= 1;
    Flow::Goes
}

/// Puts an expansion onto the stack, at the line after its call.
fn suspend(frames: &mut Frames, scope: CallScope) -> Result<(), AllocError>
    requires { scope.line + 1 < 2 ^ 32 }
    ensures { OnOk result ((stack_of frames.new) ≡ record (frame scope) { line = scope.line + 1 } ∷ (stack_of frames.old)) }
{
    let mut caller = scope;
    caller.line += 1;
    frames.push(caller)
}

/// A call of a macro.
fn call(
    alloc: Global,
    program: &MacroProgram,
    state: &mut ExpansionState,
    root: u32,
    place: usize,
    symbols: Symbols,
) -> Result<Flow, AllocError>
    requires line { state.old.scope.line + 1 < 2 ^ 32 }
    requires calls { state.old.calls + 1 < 2 ^ 32 }
    ensures moves { IfOk result (λ outcome. (before : List Visit) (v : Visit) (line : meaning.Line) → StandsIn before v state.old → root ≡ root_by v.caller v.root line.number
        → MovesIn (move_of program.now before v line (effects.CallMacro place (symbols_of symbols))) (before ++ v ∷ []) line outcome state.new) }
    ensures calls { IfOk result (λ outcome. state.new.calls ≤ state.old.calls + 1) }
{
    if state.frames.count() == MOST_NESTED {
        return Ok(Flow::Stops(MacroCause::TooNested));
    }
    state.calls.rise(alloc)?;
    let begun = CallScope {
        place: Some(place),
        line: 0,
        root,
        counter: FIRST_COUNTER,
        symbols,
    };
    let caller = std::mem::replace(&mut state.scope, begun);
    suspend(&mut state.frames, caller)?;
    Ok(Flow::Goes)
}

/// A declaration, and the next line.
fn declare_symbol(
    alloc: Global,
    program: &MacroProgram,
    state: &mut ExpansionState,
    name: &[u8],
    declaration: Declaration,
    spare: &mut Symbols,
) -> Result<Flow, AllocError>
    requires { state.old.scope.line + 1 < 2 ^ 32 }
    ensures moves { IfOk result (λ outcome. (before : List Visit) (v : Visit) (line : meaning.Line) → StandsIn before v state.old
        → MovesIn (move_of program.now before v line (effects.DeclareSymbol name.now declaration)) (before ++ v ∷ []) line outcome state.new) }
    ensures calls { IfOk result (λ outcome. state.new.calls ≤ state.old.calls + 1) }
{
    declare(
        alloc,
        &mut state.scope.symbols,
        &mut state.texts,
        name,
        declaration,
    )?;
    Ok(advance(program, &mut state.scope, &mut state.frames, spare))
}

/// A setting, and the next line.
fn assign_symbol(
    alloc: Global,
    program: &MacroProgram,
    state: &mut ExpansionState,
    name: &[u8],
    kind: SymbolKind,
    text: SymbolText,
    spare: &mut Symbols,
) -> Result<Flow, AllocError>
    requires { state.old.scope.line + 1 < 2 ^ 32 }
    ensures moves { IfOk result (λ outcome. (before : List Visit) (v : Visit) (line : meaning.Line) → StandsIn before v state.old
        → MovesIn (move_of program.now before v line (effects.SetSymbol name.now kind text)) (before ++ v ∷ []) line outcome state.new) }
    ensures calls { IfOk result (λ outcome. state.new.calls ≤ state.old.calls + 1) }
{
    assign(
        alloc,
        &mut state.scope.symbols,
        &mut state.texts,
        name,
        kind,
        text,
    )?;
    Ok(advance(program, &mut state.scope, &mut state.frames, spare))
}

/// Carries out what a line does.
pub(crate) fn step(
    alloc: Global,
    program: &MacroProgram,
    state: &mut ExpansionState,
    root: u32,
    of: Effect<'_>,
    spare: &mut Symbols,
) -> Result<Flow, AllocError>
    requires line { state.old.scope.line + 1 < 2 ^ 32 }
    requires calls { state.old.calls + 1 < 2 ^ 32 }
    ensures moves { IfOk result (λ outcome. (before : List Visit) (v : Visit) (line : meaning.Line) → StandsIn before v state.old → root ≡ root_by v.caller v.root line.number
        → MovesIn (move_of program.now before v line (effect_view of.entry)) (before ++ v ∷ []) line outcome state.new) }
    ensures calls { IfOk result (λ outcome. state.new.calls ≤ state.old.calls + 1) }
{
    match of {
        Effect::NoEffect => Ok(advance(program, &mut state.scope, &mut state.frames, spare)),
        Effect::Emit(_) => Ok(advance(program, &mut state.scope, &mut state.frames, spare)),
        Effect::DeclareSymbol(name, declaration) => {
            declare_symbol(alloc, program, state, name.bytes(), declaration, spare)
        }
        Effect::SetSymbol(name, kind, text) => assign_symbol(
            alloc,
            program,
            state,
            name.bytes(),
            kind,
            text,
            spare,
        ),
        Effect::BranchTo(name) => Ok(branch(program, &mut state.scope, name.bytes())),
        Effect::SetCounter(n) => {
            state.scope.counter = n;
            Ok(advance(program, &mut state.scope, &mut state.frames, spare))
        }
        Effect::Exit => Ok(leave(program, &mut state.scope, &mut state.frames, spare)),
        Effect::CallMacro(place, symbols) => call(alloc, program, state, root, place, symbols),
        Effect::Fail(cause) => Ok(Flow::Stops(cause)),
    }
}
