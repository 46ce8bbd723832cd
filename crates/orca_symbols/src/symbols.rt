//! Symbols, and the texts that they represent (ORCA/M reference manual, "Symbolic parameters").

ghost use Rattle.std.specs.Prelude.{◌≡◌, ◌+◌, ◌<◌, ◌≤◌, ◌^◌, [], List, ℕ, length, bytes_eq, Some, None, IfOk, IfSome, OnOk, MatchOption, is_none, IsTrue, if◌then◌else◌, option_map};
ghost use Rattle.macro_meaning.specs.Symbol.{text_of, decimal, signed_decimal, kind_of, declaration_of, is_kind, is_declaration, first_text, is_count};
ghost use Rattle.orca_meaning.specs.Names.{with_name};
ghost use Rattle.macro_meaning.specs.Call.{no_symbols};
ghost use Rattle.macro_meaning.specs.Visit.{no_texts};
ghost use Rattle.macro_meaning.specs.laws.Steps;
ghost use Rattle.orca_symbols.specs.Changes.{IsRenewed, IsRenewedIn};
ghost use Rattle.name_map.specs.Held.{value_of_name};
ghost use Rattle.orca_symbols.specs.View.{symbol, shared_text, symbols_of, texts_of, values};

use crate::text::SymbolText;
use itoa::Buffer;
use macro_meaning::{Declaration, SymbolKind};
use name_map::{NameMap, get_by_name, insert_by_name, insert_new_name};
use orca_text::LinePart;
use std::alloc::{AllocError, Global};
use std::marker::Model;

/// A symbol of an expansion.
#[derive(Drop)]
pub enum Symbol {
    /// Its own, with its text.
    Own(SymbolKind, SymbolText),
    /// One that all expansions share.
    Common(SymbolKind),
}

/// The text of a shared symbol.
#[derive(Drop)]
pub struct SharedText {
    pub kind: SymbolKind,
    pub text: SymbolText,
}

/// The symbols of an expansion by name.
#[derive(Drop)]
pub struct Symbols {
    pub map: NameMap<Symbol>,
}

/// The texts of the shared symbols by name.
#[derive(Drop)]
pub struct SharedTextTable {
    pub map: NameMap<SharedText>,
}

/// How many macros were called, with its digits. Contracts see the number.
#[derive(Drop)]
pub struct CallCounts {
    count: u32,
    digits: SymbolText,
}

impl Model for CallCounts {
    ghost use Rattle.std.specs.Prelude.{◌≡◌, ℕ};
    ghost use Rattle.macro_meaning.specs.Symbol.{decimal};

    ghost Value = { ℕ };

    ghost view = { λ calls. calls.count };

    ghost invariant = { λ calls. calls.digits ≡ decimal calls.count };
}

/// A number in decimal digits.
fn decimal(alloc: Global, n: u32) -> Result<SymbolText, AllocError>
    ensures { IfOk result (λ v. v ≡ decimal n) }
{
    let mut buffer = Buffer::new();
    let digits = LinePart {
        bytes: buffer.format(n).as_bytes(),
    };
    SymbolText::of(alloc, digits)
}

/// A signed number in decimal digits.
#[tactic(auto, using(crate::proofs::Signed::same_digits))]
pub fn signed_decimal(alloc: Global, z: i32) -> Result<SymbolText, AllocError>
    ensures { IfOk result (λ v. v ≡ signed_decimal z) }
{
    let mut buffer = Buffer::new();
    let digits = LinePart {
        bytes: buffer.format(z).as_bytes(),
    };
    SymbolText::of(alloc, digits)
}

impl CallCounts {
    /// The count of no calls.
    pub fn none(alloc: Global) -> Result<CallCounts, AllocError>
        ensures { IfOk result (λ calls. calls ≡ 0) }
    {
        CallCounts::of(alloc, 0)
    }

    fn of(alloc: Global, count: u32) -> Result<CallCounts, AllocError>
        ensures { IfOk result (λ calls. calls ≡ count) }
    {
        let digits = decimal(alloc, count)?;
        Ok(CallCounts { count, digits })
    }

    /// Adds one to the count.
    pub fn rise(&mut self, alloc: Global) -> Result<(), AllocError>
        requires { self.old + 1 < 2 ^ 32 }
        ensures { OnOk result (self.new ≡ self.old + 1) }
    {
        *self = CallCounts::of(alloc, self.count + 1)?;
        Ok(())
    }

    /// The decimal digits of the count.
    pub fn digits(&self) -> &[u8]
        ensures value { result.now ≡ decimal self.now }
        ensures short { length result.now ≤ 255 }
    {
        self.digits.bytes()
    }
}

/// All that a line may name.
#[derive(Clone, Copy)]
pub struct Values<'a> {
    pub symbols: &'a Symbols,
    pub texts: &'a SharedTextTable,
    pub calls: &'a CallCounts,
}

/// Whether a name is SYSCNT.
#[tactic(auto, using(crate::proofs::CountName::other_length))]
pub fn is_count(name: &[u8]) -> bool
    ensures { result ≡ is_count name.now }
{
    name.len() == 6 && b"SYSCNT".as_slice() == name
}

/// Gives a symbol of its own another text. The text of a shared one is handed back.
fn renew(slot: &mut Symbol, kind: SymbolKind, text: SymbolText) -> Option<SymbolText>
    ensures { IsRenewed kind text (symbol slot.old) (symbol slot.new) result }
{
    match slot {
        Symbol::Own(_, _) => {
            *slot = Symbol::Own(kind, text);
            None
        }
        Symbol::Common(_) => Some(text),
    }
}

impl Symbols {
    /// No symbols.
    pub fn new(alloc: Global) -> Symbols
        ensures { symbols_of result ≡ no_symbols }
    {
        Symbols {
            map: NameMap::new(alloc),
        }
    }

    /// No symbols, in the memory of these.
    pub fn into_empty(self) -> Symbols
        ensures { symbols_of result ≡ no_symbols }
    {
        let mut symbols = self;
        symbols.map.clear();
        symbols
    }

    /// What a name represents.
    #[inline(always)]
    pub fn get(&self, name: &[u8]) -> Option<&Symbol>
        ensures { MatchOption result (symbols_of self.now name.now ≡ None) (λ s. symbols_of self.now name.now ≡ Some (symbol s.now)) }
    {
        get_by_name(&self.map, name)
    }

    /// Gives a symbol to a name, which mostly has none yet.
    pub fn add(&mut self, alloc: Global, name: &[u8], value: Symbol) -> Result<(), AllocError>
        ensures { OnOk result (symbols_of self.new ≡ with_name name.now (symbol value) (symbols_of self.old)) }
    {
        self.add_new(alloc, name, value)?;
        Ok(())
    }

    /// Gives a name a symbol. Returns whether the name had none yet.
    pub fn add_new(&mut self, alloc: Global, name: &[u8], value: Symbol) -> Result<bool, AllocError>
        ensures ok { OnOk result (symbols_of self.new ≡ with_name name.now (symbol value) (symbols_of self.old)) }
        ensures fresh { IfOk result (λ fresh. fresh ≡ is_none (symbols_of self.old name.now)) }
    {
        match insert_new_name(alloc, &mut self.map, name, value) {
            Ok(fresh) => Ok(fresh),
            Err(_) => Err(AllocError),
        }
    }

    /// Gives a symbol of its own another text. The text of a shared one is handed back.
    pub fn renew(&mut self, name: &[u8], kind: SymbolKind, text: SymbolText) -> Option<SymbolText>
        ensures { IsRenewedIn name.now kind text (symbols_of self.old name.now) (symbols_of self.old) (symbols_of self.new) result }
    {
        match self.map.get_mut(name) {
            Some(slot) => renew(slot, kind, text),
            None => None,
        }
    }
}

impl SharedTextTable {
    /// No texts.
    pub fn new(alloc: Global) -> SharedTextTable
        ensures { texts_of result ≡ no_texts }
    {
        SharedTextTable {
            map: NameMap::new(alloc),
        }
    }

    /// The text of a name.
    pub fn get(&self, name: &[u8]) -> Option<&SharedText>
        ensures { MatchOption result (texts_of self.now name.now ≡ None) (λ s. texts_of self.now name.now ≡ Some (shared_text s.now)) }
    {
        get_by_name(&self.map, name)
    }

    /// Gives a name a text.
    pub fn set(&mut self, alloc: Global, name: &[u8], value: SharedText) -> Result<(), AllocError>
        ensures { OnOk result (texts_of self.new ≡ with_name name.now (shared_text value) (texts_of self.old)) }
    {
        match insert_by_name(alloc, &mut self.map, name, value) {
            Ok(()) => Ok(()),
            Err(_) => Err(AllocError),
        }
    }
}

/// The text of a shared symbol.
fn common_text<'a>(texts: &'a SharedTextTable, name: &[u8]) -> Option<&'a [u8]>
    ensures short { IfSome result (λ t. length t.now ≤ 255) }
    ensures text { MatchOption result (Steps.shared_text (texts_of texts.now name.now) ≡ None)
        (λ t. Steps.shared_text (texts_of texts.now name.now) ≡ Some t.now) }
{
    match texts.get(name) {
        Some(found) => Some(found.text.bytes()),
        None => None,
    }
}

/// The text of a symbol in upper case, if it is declared.
#[tactic(auto, unfolding(macro_meaning::specs::Symbol::text_of))]
#[inline(always)]
pub(crate) fn text_of<'a>(of: Values<'a>, name: &[u8]) -> Option<&'a [u8]>
    ensures text { MatchOption result (text_of (values of.entry) name.now ≡ None) (λ t. text_of (values of.entry) name.now ≡ Some t.now) }
    ensures short { IfSome result (λ t. length t.now ≤ 255) }
{
    if is_count(name) {
        return Some(of.calls.digits());
    }
    match of.symbols.get(name) {
        Some(Symbol::Own(_, text)) => Some(text.bytes()),
        Some(Symbol::Common(_)) => common_text(of.texts, name),
        None => None,
    }
}

/// What a symbol holds.
pub fn kind_of(of: &Symbol) -> SymbolKind
    ensures { result ≡ kind_of (symbol of.now) }
{
    match of {
        Symbol::Own(kind, _) => *kind,
        Symbol::Common(kind) => *kind,
    }
}

/// How a symbol was declared.
pub fn declaration_of(of: &Symbol) -> Declaration
    ensures { result ≡ declaration_of (symbol of.now) }
{
    match of {
        Symbol::Own(kind, _) => Declaration::Local(*kind),
        Symbol::Common(kind) => Declaration::Shared(*kind),
    }
}

/// Whether two kinds are the same.
pub fn is_kind(kind: SymbolKind, other: SymbolKind) -> bool
    ensures { result ≡ is_kind kind other }
{
    match kind {
        SymbolKind::Number => matches!(other, SymbolKind::Number),
        SymbolKind::Flag => matches!(other, SymbolKind::Flag),
        SymbolKind::Text => matches!(other, SymbolKind::Text),
    }
}

/// Whether two declarations are the same.
pub fn is_declaration(declaration: Declaration, other: Declaration) -> bool
    ensures { result ≡ is_declaration declaration other }
{
    match declaration {
        Declaration::Local(kind) => match other {
            Declaration::Local(second) => is_kind(kind, second),
            Declaration::Shared(_) => false,
        },
        Declaration::Shared(kind) => match other {
            Declaration::Local(_) => false,
            Declaration::Shared(second) => is_kind(kind, second),
        },
    }
}

/// What a symbol holds at first.
pub fn first_text(alloc: Global, kind: SymbolKind) -> Result<SymbolText, AllocError>
    ensures { IfOk result (λ v. v ≡ first_text kind) }
{
    match kind {
        SymbolKind::Number => SymbolText::of(alloc, LinePart { bytes: b"0" }),
        SymbolKind::Flag => SymbolText::of(alloc, LinePart { bytes: b"0" }),
        SymbolKind::Text => SymbolText::of(alloc, LinePart { bytes: b"" }),
    }
}
