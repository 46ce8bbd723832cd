//! What a visited line can do (ORCA/M reference manual, "Conditional assembly directives").

use macro_meaning::{Declaration, MacroCause, SymbolKind};
use orca_symbols::{SymbolText, Symbols, Word};

/// What a visited line does.
#[derive(Drop)]
pub(crate) enum Effect<'a> {
    /// Nothing.
    NoEffect,
    /// It gives a line.
    Emit(Word<'a>),
    /// It declares a symbol.
    DeclareSymbol(Word<'a>, Declaration),
    /// It sets a symbol to a text.
    SetSymbol(Word<'a>, SymbolKind, SymbolText),
    /// It branches to a sequence symbol.
    BranchTo(Word<'a>),
    /// It sets the counter.
    SetCounter(u32),
    /// It ends its expansion.
    Exit,
    /// It calls the macro at this place, with these symbols.
    CallMacro(usize, Symbols),
    /// It has a fault.
    Fail(MacroCause),
}
