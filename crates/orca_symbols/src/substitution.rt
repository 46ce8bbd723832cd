//! Symbols in a line, and the texts that replace them (ORCA/M reference manual, "Symbolic parameters").

ghost use Rattle.std.specs.Prelude.{◌≡◌, ◌≤◌, ◌+◌, ◌<◌, ◌-◌, List, ℕ, length, take, drop, Some, None, is_none, IfOk, OnOk, MatchOption, IsTrue, IfSome, ◌++◌, ◌==◌};
ghost use Rattle.std.specs.Char.{to_ascii_uppercase};
ghost use Rattle.orca_meaning.specs.Characters.{is_letter, is_name_start};
ghost use Rattle.orca_meaning.specs.Line.{LiesIn, HaveFields, part};
ghost use Rattle.macro_meaning.specs.Statements.{statement_of};
ghost use Rattle.orca_meaning.specs.Quotes.{quote_after};
ghost use Rattle.macro_meaning.specs.Substitution.{lies_in, is_asked, may_ask, sets_label, declares, naming_at, name_length, taken_length, first_passes, in_place, substituted_from, with_front};
ghost use Rattle.macro_meaning.specs.laws.Steps.{asks_before, naming_by};
ghost use Rattle.macro_meaning.specs.Symbol.{text_of};
ghost use Rattle.orca_symbols.specs.Plain.{plain_len};
ghost use Rattle.orca_symbols.specs.View.{naming, values};
ghost use Rattle.orca_text.specs.View.{line};

use crate::names::statement_of;
use crate::symbols::{Values, text_of};
use macro_meaning::{Statement, SymbolKind};
use orca_text::{
    LinePart, SourceLine, Span, is_name_start, name_len, part, quote_following, to_upper_case,
};
use std::alloc::{AllocError, Global};

/// What `&NAME` is at a place.
#[derive(Clone, Copy)]
pub(crate) enum Naming {
    /// The symbol's text replaces it.
    Replaced,
    /// It names the symbol, which must be declared.
    Named,
    /// It names a symbol that is declared there.
    Declared,
}

/// Whether a place lies in a field.
fn lies_in(field: Span, at: u32) -> bool
    ensures { result ≡ lies_in field at }
{
    field.from <= at && at < field.to
}

/// Whether `L:` or `C:` is directly before a place.
fn asks_before(text: &[u8], at: u32) -> bool
    requires some { 2 ≤ at }
    requires within { at ≤ length text.now }
    ensures { result ≡ asks_before text.now at }
{
    let letter = text[at as usize - 2].to_ascii_uppercase();
    (letter == b'L' || letter == b'C') && text[at as usize - 1] == b':'
}

/// Whether no quote is open after a text.
fn is_outside(front: &[u8]) -> bool
    ensures { result ≡ is_none (quote_after None front.now) }
{
    let mut quote = None;
    'bytes: for byte in front {
        quote = quote_following(quote, *byte);
    }
    quote.is_none()
}

/// Whether `L:` or `C:` is directly before a place of a field, outside its quotes.
fn is_asked(text: LinePart<'_>, field: Span, at: u32) -> bool
    requires { LiesIn text.bytes.now field }
    ensures { result ≡ is_asked text.entry.bytes.now field at }
{
    if field.from + 2 <= at && at < field.to && asks_before(text.bytes, at) {
        let front = part(
            text,
            Span {
                from: field.from,
                to: at,
            },
        );
        return is_outside(front.bytes);
    }
    false
}

/// Whether the statement's operand may ask for `L:&NAME` and `C:&NAME`.
fn may_ask(statement: Statement) -> bool
    ensures { result ≡ may_ask statement }
{
    match statement {
        Statement::Set(kind) => match kind {
            SymbolKind::Number => true,
            SymbolKind::Flag => true,
            SymbolKind::Text => false,
        },
        Statement::Middle | Statement::BranchIf | Statement::Count | Statement::Note => true,
        Statement::Declare(_)
        | Statement::Branch
        | Statement::Nothing
        | Statement::Leave
        | Statement::Define => false,
    }
}

/// Whether the statement sets the symbol in its label.
fn sets_label(statement: Statement) -> bool
    ensures { result ≡ sets_label statement }
{
    match statement {
        Statement::Set(_) | Statement::Middle => true,
        Statement::Declare(_)
        | Statement::BranchIf
        | Statement::Count
        | Statement::Note
        | Statement::Branch
        | Statement::Nothing
        | Statement::Leave
        | Statement::Define => false,
    }
}

/// Whether the statement declares the symbol in its operand.
fn declares(statement: Statement) -> bool
    ensures { result ≡ declares statement }
{
    match statement {
        Statement::Declare(_) => true,
        Statement::Set(_)
        | Statement::Middle
        | Statement::BranchIf
        | Statement::Count
        | Statement::Note
        | Statement::Branch
        | Statement::Nothing
        | Statement::Leave
        | Statement::Define => false,
    }
}

/// What `&NAME` is at a place of a line with this statement.
fn naming_by(statement: Option<Statement>, of: &SourceLine, at: u32) -> Naming
    requires { HaveFields of.now.text (line of.now).fields }
    ensures { naming result ≡ naming_by statement of.now.text (line of.now).fields at }
{
    let Some(statement) = statement else {
        return Naming::Replaced;
    };
    if declares(statement) && lies_in(of.operand, at) {
        return Naming::Declared;
    }
    if sets_label(statement) && lies_in(of.label, at) {
        return Naming::Named;
    }
    let text = LinePart {
        bytes: of.text.bytes(),
    };
    if may_ask(statement) && is_asked(text, of.operand, at) {
        return Naming::Named;
    }
    Naming::Replaced
}

/// Whether a letter is at the start.
pub(crate) fn begins_letter(following: &[u8]) -> bool
    ensures { result ≡ first_passes is_letter following.now }
{
    match following.split_first() {
        Some((byte, _)) => byte.is_ascii_alphabetic(),
        None => false,
    }
}

/// Whether the start of a name is at the start.
pub(crate) fn begins_name(following: &[u8]) -> bool
    ensures { result ≡ first_passes is_name_start following.now }
{
    match following.split_first() {
        Some((byte, _)) => is_name_start(*byte),
        None => false,
    }
}

/// How many bytes go with the name at the start: its own, and a dot directly after it.
#[tactic(auto, unfolding(macro_meaning::specs::Substitution::taken_length))]
pub(crate) fn taken_length(following: &[u8]) -> usize
    ensures value { result ≡ taken_length following.now }
    ensures bound { result ≤ length following.now }
{
    let length = name_len(following);
    if length < following.len() && following[length] == b'.' {
        return length + 1;
    }
    length
}

/// Whether a name is in upper case, as symbols are kept.
pub fn is_folded(name: &[u8]) -> bool
    ensures { IsTrue result → Rattle.orca_meaning.specs.Characters.folded name.now ≡ name.now }
{
    name.iter().all(|byte| byte.to_ascii_uppercase() == *byte)
}

/// The text of the symbol whose name is at the start.
fn named_text<'a>(
    alloc: Global,
    of: Values<'a>,
    following: LinePart<'_>,
) -> Result<Option<&'a [u8]>, AllocError>
    ensures { IfOk result (λ found. MatchOption found (text_of (values of.entry) (Rattle.orca_meaning.specs.Characters.folded (take (name_length following.entry.bytes.now) following.entry.bytes.now)) ≡ None)
        (λ t. text_of (values of.entry) (Rattle.orca_meaning.specs.Characters.folded (take (name_length following.entry.bytes.now) following.entry.bytes.now)) ≡ Some t.now)) }
{
    let (bytes, _) = following.bytes.split_at(name_len(following.bytes));
    if is_folded(bytes) {
        return Ok(text_of(of, bytes));
    }
    let name = to_upper_case(alloc, LinePart { bytes })?;
    Ok(text_of(of, name.bytes()))
}

/// The text in place of an `&`, and how many of the bytes after it go with it.
pub(crate) fn in_place<'a>(
    alloc: Global,
    of: Values<'a>,
    at: Naming,
    following: LinePart<'_>,
) -> Result<Option<(&'a [u8], usize)>, AllocError>
    ensures place { IfOk result (λ found. MatchOption found (in_place (text_of (values of.entry)) (naming at) following.entry.bytes.now ≡ None)
        (λ x. in_place (text_of (values of.entry)) (naming at) following.entry.bytes.now ≡ Some (x.0.now, x.1))) }
    ensures bound { IfOk result (λ found. IfSome found (λ x. x.1 ≤ length following.entry.bytes.now)) }
{
    match at {
        Naming::Replaced => {
            if !begins_letter(following.bytes) {
                return Ok(Some((b"&", 0)));
            }
            match named_text(alloc, of, following)? {
                Some(text) => Ok(Some((text, taken_length(following.bytes)))),
                None => Ok(None),
            }
        }
        Naming::Named => {
            if !begins_name(following.bytes) {
                return Ok(Some((b"&", 0)));
            }
            match named_text(alloc, of, following)? {
                Some(_) => Ok(Some((b"&", 0))),
                None => Ok(None),
            }
        }
        Naming::Declared => Ok(Some((b"&", 0))),
    }
}

/// What `&NAME` is at a place of a line, whose statement is this.
#[tactic(auto, unfolding(macro_meaning::specs::Substitution::naming_at))]
pub(crate) fn naming_at(of: &SourceLine, statement: Option<Statement>, at: u32) -> Naming
    requires fields { HaveFields of.now.text (line of.now).fields }
    requires known { statement ≡ statement_of (part of.now.text (line of.now).fields.operation) }
    ensures { naming result ≡ naming_at of.now.text (line of.now).fields at }
{
    naming_by(statement, of, at)
}

/// How many bytes are before the first `&`.
#[tactic(auto, unfolding(crate::specs::Plain::plain_len))]
fn plain_len(text: &[u8]) -> usize
    ensures value { result ≡ plain_len text.now }
    ensures bound { result ≤ length text.now }
{
    let mut count: usize = 0;
    'bytes: for byte in text {
        if *byte == b'&' {
            return count;
        }
        count += 1;
    }
    count
}

/// Whether a text contains no `&`.
pub fn is_plain(text: &[u8]) -> bool
    ensures { result ≡ (plain_len text.now == length text.now) }
{
    plain_len(text) == text.len()
}

/// Copies what precedes the first `&`, and returns the text from there on.
pub(crate) fn copy_plain<'a>(out: &mut Vec<u8>, text: &'a [u8]) -> Result<&'a [u8], AllocError>
    ensures rest { IfOk result (λ rest. rest.now ≡ drop (plain_len text.now) text.now) }
    ensures copied { OnOk result (out.new.items ≡ out.old.items ++ take (plain_len text.now) text.now) }
{
    let (plain, rest) = text.split_at(plain_len(text));
    out.extend_from_slice(plain)?;
    Ok(rest)
}

/// The text of a line with the symbols' texts in place; none where a symbol isn't declared. It is stored in the buffer, whose
/// own bytes are lost.
#[tactic(auto, using(crate::proofs::Fronts::run_starts))]
pub fn substitute(
    alloc: Global,
    of: Values<'_>,
    source: &SourceLine,
    buffer: Vec<u8>,
) -> Result<Option<Vec<u8>>, AllocError>
    requires { HaveFields source.now.text (line source.now).fields }
    ensures { IfOk result (λ found. MatchOption found
        (substituted_from (text_of (values of.entry)) (naming_at source.now.text (line source.now).fields) 0 0 source.now.text ≡ None)
        (λ v. substituted_from (text_of (values of.entry)) (naming_at source.now.text (line source.now).fields) 0 0 source.now.text ≡ Some v.items)) }
{
    let text = source.text.bytes();
    let statement = statement_of(source.part(source.operation).bytes);
    let mut out = buffer;
    out.clear();
    let mut left = text;
    'runs: loop {
        let rest = copy_plain(&mut out, left)?;
        let Some((_, following)) = rest.split_first() else {
            return Ok(Some(out));
        };
        let at = (text.len() - rest.len()) as u32;
        let named = naming_at(source, statement, at);
        match in_place(alloc, of, named, LinePart { bytes: following })? {
            Some((put, more)) => {
                out.extend_from_slice(put)?;
                let (_, others) = following.split_at(more);
                left = others;
            }
            None => return Ok(None),
        }
    }
}
