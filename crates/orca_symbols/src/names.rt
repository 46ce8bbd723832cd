//! Which statement an operation is, and the names of symbols and sequence symbols.

ghost use Rattle.std.specs.Prelude.{◌≡◌, List, ℕ, bytes_eq, Some, None, is_some, IfOk, MatchOption};
ghost use Rattle.std.specs.Option.{option_map};
ghost use Rattle.orca_meaning.specs.Characters.{folded};
ghost use Rattle.orca_meaning.specs.Line.{HaveFields};
ghost use Rattle.orca_meaning.specs.Operation.{value_of_spelling};
ghost use Rattle.orca_meaning.specs.Token.{Found};
ghost use Rattle.orca_symbols.specs.Letters.{with_a, with_s, with_l, with_m, with_g};
ghost use Rattle.macro_meaning.specs.Definition.{operation_is};
ghost use Rattle.macro_meaning.specs.Statements.{statement_of, whole_match, symbol_name, sequence_name, target_name};
ghost use Rattle.macro_meaning.specs.laws.Steps.{is_operation, after_dot};
ghost use Rattle.orca_text.specs.View.{line};

use macro_meaning::{Declaration, Statement, SymbolKind};
use omf_base::Name;
use orca_text::{
    LinePart, SourceLine, after_byte, is_name_start, is_spelled, name_at, name_len, symbol_at,
};
use std::alloc::{AllocError, Global};

/// Whether an operation has this spelling.
pub fn is_operation(operation: &[u8], spelling: &[u8]) -> bool
    ensures { result ≡ bytes_eq spelling.now (folded operation.now) }
{
    is_spelled(operation, spelling)
}

/// Whether the operation of a line has this spelling.
pub fn operation_is(of: &SourceLine, spelling: &[u8]) -> bool
    requires { HaveFields of.now.text (line of.now).fields }
    ensures { result ≡ operation_is spelling.now (line of.now) }
{
    is_operation(of.part(of.operation).bytes, spelling)
}

/// The statements that begin with A.
#[tactic(auto, unfolding(crate::specs::Letters::with_a, orca_meaning::specs::Operation::value_of_spelling))]
fn with_a(operation: &[u8]) -> Option<Statement>
    ensures { result ≡ value_of_spelling (folded operation.now) with_a }
{
    if is_operation(operation, b"AMID") {
        return Some(Statement::Middle);
    }
    if is_operation(operation, b"AIF") {
        return Some(Statement::BranchIf);
    }
    if is_operation(operation, b"AGO") {
        return Some(Statement::Branch);
    }
    if is_operation(operation, b"ACTR") {
        return Some(Statement::Count);
    }
    if is_operation(operation, b"ANOP") {
        return Some(Statement::Nothing);
    }
    None
}

/// The statements that begin with S.
#[tactic(auto, unfolding(crate::specs::Letters::with_s, orca_meaning::specs::Operation::value_of_spelling))]
fn with_s(operation: &[u8]) -> Option<Statement>
    ensures { result ≡ value_of_spelling (folded operation.now) with_s }
{
    if is_operation(operation, b"SETA") {
        return Some(Statement::Set(SymbolKind::Number));
    }
    if is_operation(operation, b"SETB") {
        return Some(Statement::Set(SymbolKind::Flag));
    }
    if is_operation(operation, b"SETC") {
        return Some(Statement::Set(SymbolKind::Text));
    }
    None
}

/// The statements that begin with L.
#[tactic(auto, unfolding(crate::specs::Letters::with_l, orca_meaning::specs::Operation::value_of_spelling))]
fn with_l(operation: &[u8]) -> Option<Statement>
    ensures { result ≡ value_of_spelling (folded operation.now) with_l }
{
    if is_operation(operation, b"LCLA") {
        return Some(Statement::Declare(Declaration::Local(SymbolKind::Number)));
    }
    if is_operation(operation, b"LCLB") {
        return Some(Statement::Declare(Declaration::Local(SymbolKind::Flag)));
    }
    if is_operation(operation, b"LCLC") {
        return Some(Statement::Declare(Declaration::Local(SymbolKind::Text)));
    }
    None
}

/// The statements that begin with M.
#[tactic(auto, unfolding(crate::specs::Letters::with_m, orca_meaning::specs::Operation::value_of_spelling))]
fn with_m(operation: &[u8]) -> Option<Statement>
    ensures { result ≡ value_of_spelling (folded operation.now) with_m }
{
    if is_operation(operation, b"MEXIT") {
        return Some(Statement::Leave);
    }
    if is_operation(operation, b"MEND") {
        return Some(Statement::Leave);
    }
    if is_operation(operation, b"MNOTE") {
        return Some(Statement::Note);
    }
    if is_operation(operation, b"MACRO") {
        return Some(Statement::Define);
    }
    None
}

/// The statements that begin with G.
#[tactic(auto, unfolding(crate::specs::Letters::with_g, orca_meaning::specs::Operation::value_of_spelling))]
fn with_g(operation: &[u8]) -> Option<Statement>
    ensures { result ≡ value_of_spelling (folded operation.now) with_g }
{
    if is_operation(operation, b"GBLA") {
        return Some(Statement::Declare(Declaration::Shared(SymbolKind::Number)));
    }
    if is_operation(operation, b"GBLB") {
        return Some(Statement::Declare(Declaration::Shared(SymbolKind::Flag)));
    }
    if is_operation(operation, b"GBLC") {
        return Some(Statement::Declare(Declaration::Shared(SymbolKind::Text)));
    }
    None
}

/// The statement that an operation is, in upper or lower case.
#[tactic(auto, using(crate::proofs::Letters::no_bytes))]
pub fn statement_of(operation: &[u8]) -> Option<Statement>
    ensures { result ≡ statement_of operation.now }
{
    let Some((first, _)) = operation.split_first() else {
        return None;
    };
    let letter = first.to_ascii_uppercase();
    if letter == b'A' {
        return with_a(operation);
    }
    if letter == b'S' {
        return with_s(operation);
    }
    if letter == b'L' {
        return with_l(operation);
    }
    if letter == b'M' {
        return with_m(operation);
    }
    if letter == b'G' {
        return with_g(operation);
    }
    None
}

/// What was found, where nothing follows it.
pub(crate) fn whole_match(found: Option<(Name, &[u8])>) -> Option<Name>
    ensures { result ≡ whole_match (option_map (λ x. (x.0, x.1.now)) found.entry) }
{
    match found {
        Some((name, rest)) => {
            if rest.is_empty() {
                return Some(name);
            }
            None
        }
        None => None,
    }
}

/// The name of a symbol, where the text is `&NAME` and nothing else.
pub(crate) fn symbol_name(alloc: Global, text: LinePart<'_>) -> Result<Option<Name>, AllocError>
    ensures { IfOk result (λ name. name ≡ symbol_name text.entry.bytes.now) }
{
    let found = symbol_at(alloc, text)?;
    Ok(whole_match(found))
}

/// The name of a sequence symbol, where the text is `.NAME` and nothing else.
pub fn sequence_name(alloc: Global, text: LinePart<'_>) -> Result<Option<Name>, AllocError>
    ensures { IfOk result (λ name. name ≡ sequence_name text.entry.bytes.now) }
{
    let Some(following) = after_byte(text.bytes, b'.') else {
        return Ok(None);
    };
    let found = name_at(alloc, LinePart { bytes: following })?;
    Ok(whole_match(found))
}

/// Whether a text is a name.
#[tactic(auto, using(crate::proofs::WholeName::whole_name, crate::proofs::WholeName::no_bytes, crate::proofs::WholeName::no_start))]
pub(crate) fn is_name(text: &[u8]) -> bool
    ensures { result ≡ is_some (whole_match (Rattle.orca_meaning.specs.Token.name_at text.now)) }
{
    let Some((first, others)) = text.split_first() else {
        return false;
    };
    is_name_start(*first) && name_len(others) == others.len()
}

/// Whether a text is `.NAME` and nothing else, the name of a sequence symbol.
pub(crate) fn is_sequence(text: &[u8]) -> bool
    ensures { result ≡ is_some (sequence_name text.now) }
{
    match after_byte(text, b'.') {
        Some(following) => is_name(following),
        None => false,
    }
}

/// Where a branch goes: a sequence symbol, maybe after a `^`.
pub fn target_name(alloc: Global, text: LinePart<'_>) -> Result<Option<Name>, AllocError>
    ensures { IfOk result (λ name. name ≡ target_name text.entry.bytes.now) }
{
    match after_byte(text.bytes, b'^') {
        Some(following) => sequence_name(alloc, LinePart { bytes: following }),
        None => sequence_name(alloc, text),
    }
}

/// Whether a text is a sequence symbol, maybe after a `^`.
pub fn is_target(text: &[u8]) -> bool
    ensures { result ≡ is_some (target_name text.now) }
{
    match after_byte(text, b'^') {
        Some(following) => is_sequence(following),
        None => is_sequence(text),
    }
}
