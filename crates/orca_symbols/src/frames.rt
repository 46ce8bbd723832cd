//! The expansions that are under way.

ghost use Rattle.std.specs.Prelude.{◌≡◌, ◌∷◌, [], length, OnOk, IfOk, MatchOption, None};
ghost use Rattle.orca_symbols.specs.Frame.{frame, stack_of};
ghost use Rattle.orca_symbols.specs.View.{symbols_of, texts_of};
ghost use Rattle.macro_meaning.specs.Call.{no_symbols};
ghost use Rattle.macro_meaning.specs.Visit.{no_texts};

use crate::symbols::{CallCounts, SharedTextTable, Symbols};
use std::alloc::{AllocError, Global};

/// An expansion, or the source, at one of its lines.
#[derive(Drop)]
pub struct CallScope {
    /// The macro's place among the definitions, none for the source.
    pub place: Option<usize>,
    /// The place of the line.
    pub line: u32,
    /// The line of the source at which the outermost expansion began.
    pub root: u32,
    pub counter: u32,
    pub symbols: Symbols,
}

/// The expansions that called the present one, each at the line to which it goes back. Contracts see the last first.
#[derive(Drop)]
pub struct Frames {
    pub items: Vec<CallScope>,
}

impl Frames {
    /// No expansions. It takes no memory yet.
    pub fn new(alloc: Global) -> Frames
        ensures { stack_of result ≡ [] }
    {
        Frames {
            items: Vec::new(alloc),
        }
    }

    /// Adds the expansion that calls the next one.
    #[tactic(auto, using(crate::specs::Frame::pushed))]
    pub fn push(&mut self, scope: CallScope) -> Result<(), AllocError>
        ensures ok { OnOk result (stack_of self.new ≡ frame scope ∷ stack_of self.old) }
    {
        self.items.push(scope)?;
        Ok(())
    }

    /// Takes out the expansion that called last, if there is one.
    #[tactic(auto, using(crate::specs::Frame::popped))]
    pub fn pop(&mut self) -> Option<CallScope>
        ensures { MatchOption result ((stack_of self.old ≡ []) × (stack_of self.new ≡ [])) (λ scope. stack_of self.old ≡ frame scope ∷ stack_of self.new) }
    {
        self.items.pop()
    }

    /// How many expansions there are.
    #[tactic(auto, using(crate::specs::Frame::as_long))]
    pub fn count(&self) -> usize
        ensures { result ≡ length (stack_of self.now) }
    {
        self.items.len()
    }
}

/// The state of the visits: the expansion whose line is visited, those that called it, the texts of the shared symbols,
/// and how many macros were called.
#[derive(Drop)]
pub struct ExpansionState {
    pub scope: CallScope,
    pub frames: Frames,
    pub texts: SharedTextTable,
    pub calls: CallCounts,
}

/// The source at its first line.
fn source(alloc: Global) -> CallScope
    ensures { frame result ≡ record { macro = None; line = 0; root = 0; counter = 255; symbols = no_symbols } }
{
    CallScope {
        place: None,
        line: 0,
        root: 0,
        counter: 255,
        symbols: Symbols::new(alloc),
    }
}

impl ExpansionState {
    /// The state at the first line of the source.
    pub fn new(alloc: Global) -> Result<ExpansionState, AllocError>
        ensures scope { IfOk result (λ s. frame s.scope ≡ record { macro = None; line = 0; root = 0; counter = 255; symbols = no_symbols }) }
        ensures frames { IfOk result (λ s. stack_of s.frames ≡ []) }
        ensures texts { IfOk result (λ s. texts_of s.texts ≡ no_texts) }
        ensures calls { IfOk result (λ s. s.calls ≡ 0) }
    {
        let calls = CallCounts::none(alloc)?;
        Ok(ExpansionState {
            scope: source(alloc),
            frames: Frames::new(alloc),
            texts: SharedTextTable::new(alloc),
            calls,
        })
    }
}
