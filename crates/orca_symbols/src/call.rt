//! Calls of macros: how operands are bound to parameters (ORCA/M reference manual, "Macro calls").

ghost use Rattle.std.specs.Prelude.{◌≡◌, ◌≤◌, ◌<◌, ◌+◌, ◌^◌, ◌∷◌, [], List, ℕ, length, drop, slice_get, bytes_eq, Some, None, IfOk, IfSome, OnOk, MatchOption, if◌then◌else◌, is_some, true, false};
ghost use Rattle.macro_meaning.specs.Definition.{list_of_option};
ghost use Rattle.std.specs.List.{list_any};
ghost use Rattle.orca_meaning.specs.Characters.{folded};
ghost use Rattle.orca_meaning.specs.Token.{name_at};
ghost use Rattle.macro_meaning.specs.Pieces.{pieces};
ghost use Rattle.macro_meaning.specs.Call.{keyword_from, binding, bound_once, bound_all, with_missing, label_bound, all_names, bound_arguments, names_count};
ghost use Rattle.macro_meaning.specs.laws.Steps.{is_among, by_place, arguments};
ghost use Rattle.macro_meaning.specs.Symbol.{is_count};
ghost use Rattle.orca_symbols.specs.Calling.{bind, IsOnce, AreBound};
ghost use Rattle.orca_symbols.specs.ModelView.{model};
ghost use Rattle.orca_symbols.specs.View.{symbols_of};

use crate::model_line::ModelLine;
use crate::operands::first_piece;
use crate::symbols::{Symbol, Symbols, is_count};
use crate::text::SymbolText;
use macro_meaning::SymbolKind;
use omf_base::Name;
use orca_text::{LinePart, after_byte, is_name_start, is_spelled, name_len};
use std::alloc::{AllocError, Global};

/// A parameter, the text that it gets, and the place of the parameter that the next operand without keyword gets.
#[derive(Clone, Copy)]
struct Bind<'a> {
    name: &'a [u8],
    text: &'a [u8],
    next: usize,
}

/// The name among others that a text spells, in upper or lower case.
fn spelled_among<'a>(names: &'a [Name], text: &[u8]) -> Option<&'a [u8]>
    ensures { MatchOption result (is_among names.now (folded text.now) ≡ false)
        (λ found. (is_among names.now (folded text.now) ≡ true) × (found.now ≡ folded text.now)) }
{
    'names: for name in names {
        if is_spelled(text, name.bytes()) {
            return Some(name.bytes());
        }
    }
    None
}

/// The name as it is written, and the text after it, in `NAME=text`.
#[tactic(auto, using(crate::proofs::Binds::no_bytes))]
fn split_keyword(piece: &[u8]) -> Option<(&[u8], &[u8])>
    ensures short { IfSome result (λ x. length x.1.now ≤ length piece.now) }
    ensures found { MatchOption result ((parameters : List (List ℕ)) (place : ℕ) → keyword_from parameters place (name_at piece.now) ≡ None)
        (λ x. name_at piece.now ≡ Some (folded x.0.now, 0x3D ∷ x.1.now)) }
{
    let Some((first, following)) = piece.split_first() else {
        return None;
    };
    if !is_name_start(*first) {
        return None;
    }
    let (name, rest) = piece.split_at(name_len(following) + 1);
    match after_byte(rest, b'=') {
        Some(text) => Some((name, text)),
        None => None,
    }
}

/// `NAME=text` with the name of a parameter.
fn keyword<'a>(parameters: &'a [Name], place: usize, piece: LinePart<'a>) -> Option<Bind<'a>>
    ensures short { IfSome result (λ b. length b.text.now ≤ 255) }
    ensures found { MatchOption result (keyword_from parameters.now place (name_at piece.entry.bytes.now) ≡ None)
        (λ b. keyword_from parameters.now place (name_at piece.entry.bytes.now) ≡ Some (bind b)) }
{
    let Some((name, text)) = split_keyword(piece.bytes) else {
        return None;
    };
    match spelled_among(parameters, name) {
        Some(name) => Some(Bind {
            name,
            text,
            next: place,
        }),
        None => None,
    }
}

/// What an operand binds, if it can be bound.
#[tactic(auto, unfolding(macro_meaning::specs::Call::binding))]
fn binding<'a>(parameters: &'a [Name], place: usize, piece: LinePart<'a>) -> Option<Bind<'a>>
    ensures short { IfSome result (λ b. length b.text.now ≤ 255) }
    ensures found { MatchOption result (binding parameters.now place piece.entry.bytes.now ≡ None)
        (λ b. binding parameters.now place piece.entry.bytes.now ≡ Some (bind b)) }
{
    if let Some(found) = keyword(parameters, place, piece) {
        return Some(found);
    }
    match parameters.get(place) {
        Some(parameter) => Some(Bind {
            name: parameter.bytes(),
            text: piece.bytes,
            next: place + 1,
        }),
        None => None,
    }
}

/// Binds a parameter once: whether it wasn't bound before.
#[tactic(auto, using(crate::proofs::Binds::once))]
fn bind_once(
    alloc: Global,
    symbols: &mut Symbols,
    parameter: &[u8],
    text: LinePart<'_>,
) -> Result<bool, AllocError>
    ensures { IfOk result (λ fresh. IsOnce fresh parameter.now text.entry.bytes.now (symbols_of symbols.old) (symbols_of symbols.new)) }
{
    let text = SymbolText::of(alloc, text)?;
    symbols.add_new(alloc, parameter, Symbol::Own(SymbolKind::Text, text))
}

/// Binds all pieces of an operand in order: the place of the first parameter that wasn't reached, if each can be bound.
#[tactic(auto, using(crate::proofs::Binds::none_reached))]
fn bind_pieces(
    alloc: Global,
    parameters: &[Name],
    operand: LinePart<'_>,
    symbols: &mut Symbols,
) -> Result<Option<usize>, AllocError>
    ensures all { IfOk result (λ fits. MatchOption fits (bound_all parameters.now 0 (pieces 0x2C operand.entry.bytes.now) (symbols_of symbols.old) ≡ None)
        (λ place. bound_all parameters.now 0 (pieces 0x2C operand.entry.bytes.now) (symbols_of symbols.old) ≡ Some (symbols_of symbols.new))) }
    ensures reached { IfOk result (λ fits. IfSome fits (λ place. AreBound parameters.now place (symbols_of symbols.new))) }
{
    let mut place = 0;
    let mut left = operand.bytes;
    'operands: loop {
        let (piece, following) = first_piece(b',', LinePart { bytes: left });
        let Some(found) = binding(parameters, place, piece) else {
            return Ok(None);
        };
        if !bind_once(alloc, symbols, found.name, LinePart { bytes: found.text })? {
            return Ok(None);
        }
        place = found.next;
        let Some(others) = following else {
            return Ok(Some(place));
        };
        left = others;
    }
}

/// Binds all pieces of an operand in order, where the operand may be missing. Returns the place of the first parameter that
/// wasn't reached, if each can be bound.
#[tactic(auto, unfolding(macro_meaning::specs::Call::bound_all), using(crate::proofs::Binds::none_reached))]
fn bind_all(
    alloc: Global,
    parameters: &[Name],
    operand: LinePart<'_>,
    symbols: &mut Symbols,
) -> Result<Option<usize>, AllocError>
    ensures all { IfOk result (λ fits. MatchOption fits (bound_all parameters.now 0 (arguments operand.entry.bytes.now) (symbols_of symbols.old) ≡ None)
        (λ place. bound_all parameters.now 0 (arguments operand.entry.bytes.now) (symbols_of symbols.old) ≡ Some (symbols_of symbols.new))) }
    ensures reached { IfOk result (λ fits. IfSome fits (λ place. AreBound parameters.now place (symbols_of symbols.new))) }
{
    if operand.bytes.is_empty() {
        return Ok(Some(0));
    }
    bind_pieces(alloc, parameters, operand, symbols)
}

/// Gives an empty text to a parameter that isn't bound.
#[tactic(auto, using(crate::proofs::Binds::was_bound, crate::proofs::Binds::was_missing))]
fn bind_missing(alloc: Global, parameter: &Name, symbols: &mut Symbols) -> Result<(), AllocError>
    ensures { OnOk result (symbols_of symbols.new ≡ with_missing (parameter.now ∷ []) (symbols_of symbols.old)) }
{
    if let Some(_) = symbols.get(parameter.bytes()) {
        return Ok(());
    }
    let text = SymbolText::of(alloc, LinePart { bytes: b"" })?;
    symbols.add(
        alloc,
        parameter.bytes(),
        Symbol::Own(SymbolKind::Text, text),
    )
}

/// Gives an empty text to each parameter from a place on that isn't bound.
fn bind_rest(
    alloc: Global,
    parameters: &[Name],
    place: usize,
    symbols: &mut Symbols,
) -> Result<(), AllocError>
    ensures { OnOk result (symbols_of symbols.new ≡ with_missing (drop place parameters.now) (symbols_of symbols.old)) }
{
    let mut at = place;
    'parameters: while let Some(parameter) = parameters.get(at) {
        bind_missing(alloc, parameter, symbols)?;
        at += 1;
    }
    Ok(())
}

/// Gives an empty text to the label parameter if it isn't bound.
#[tactic(auto, unfolding(macro_meaning::specs::Call::with_missing))]
fn bind_label(
    alloc: Global,
    parameter: &Option<Name>,
    symbols: &mut Symbols,
) -> Result<(), AllocError>
    ensures { OnOk result (symbols_of symbols.new ≡ with_missing (list_of_option parameter.now) (symbols_of symbols.old)) }
{
    match parameter {
        Some(name) => bind_missing(alloc, name, symbols),
        None => Ok(()),
    }
}

/// The label, bound to the label parameter.
fn label_bound(
    alloc: Global,
    parameter: &Option<Name>,
    label: LinePart<'_>,
    spare: Symbols,
) -> Result<Symbols, AllocError>
    ensures { IfOk result (λ s. symbols_of s ≡ label_bound parameter.now label.entry.bytes.now) }
{
    let mut symbols = spare.into_empty();
    let Some(parameter) = parameter else {
        return Ok(symbols);
    };
    if label.bytes.is_empty() {
        return Ok(symbols);
    }
    let text = SymbolText::of(alloc, label)?;
    symbols.add(
        alloc,
        parameter.bytes(),
        Symbol::Own(SymbolKind::Text, text),
    )?;
    Ok(symbols)
}

/// The symbols with which an expansion begins, where the operands fit. They are in the memory of the spare ones.
#[tactic(auto, unfolding(macro_meaning::specs::Call::bound_arguments), using(crate::proofs::Binds::bound_none))]
pub fn bind_arguments(
    alloc: Global,
    of: &ModelLine,
    label: LinePart<'_>,
    operand: LinePart<'_>,
    spare: Symbols,
) -> Result<Option<Symbols>, AllocError>
    ensures { IfOk result (λ found. MatchOption found (bound_arguments (model of.now) label.entry.bytes.now operand.entry.bytes.now ≡ None)
        (λ s. bound_arguments (model of.now) label.entry.bytes.now operand.entry.bytes.now ≡ Some (symbols_of s))) }
{
    let mut symbols = label_bound(alloc, &of.label, label, spare)?;
    let parameters = of.parameters.as_slice();
    let Some(place) = bind_all(alloc, parameters, operand, &mut symbols)? else {
        return Ok(None);
    };
    bind_label(alloc, &of.label, &mut symbols)?;
    bind_rest(alloc, parameters, place, &mut symbols)?;
    Ok(Some(symbols))
}

/// Whether SYSCNT is among the parameters.
pub fn names_count(of: &ModelLine) -> bool
    ensures { result ≡ names_count (model of.now) }
{
    match &of.label {
        Some(label) => is_count(label.bytes()) || any_count(of.parameters.as_slice()),
        None => any_count(of.parameters.as_slice()),
    }
}

/// Whether one of the names is SYSCNT.
fn any_count(names: &[Name]) -> bool
    ensures { result ≡ list_any is_count names.now }
{
    names.iter().any(|other| is_count(other.bytes()))
}
