//! Lines that are split once into what is copied and the symbols whose texts go between (ORCA/M reference manual, "Symbolic parameters").

ghost use Rattle.std.specs.Prelude.{◌≡◌, ◌≤◌, ◌+◌, [], List, ℕ, length, take, Option, Some, None, IsTrue, false, IfOk, IfSome, OnOk, MatchOption};
ghost use Rattle.macro_meaning.specs.Substitution.{in_place, with_front, name_length};
ghost use Rattle.macro_meaning.specs.Symbol.{text_of};
ghost use Rattle.orca_meaning.specs.Characters as characters;
ghost use Rattle.orca_meaning.specs.Line.{HaveFields};
ghost use Rattle.orca_symbols.specs.Template.{HasParts, BeginWith, text_before, part_text, replacement_text, more_of, with_more, join};
ghost use Rattle.orca_symbols.specs.View.{naming, values};
ghost use Rattle.orca_text.specs.View.{line};

use crate::names::statement_of;
use crate::substitution::{
    Naming, begins_letter, begins_name, copy_plain, naming_at, taken_length,
};
use crate::symbols::{Values, text_of};
use crate::text::name;
use omf_base::Name;
use orca_text::{LinePart, SourceLine, name_len, to_upper_case};
use std::alloc::{AllocError, Global};

/// A part of a line.
#[derive(Drop)]
pub enum TemplatePart {
    /// These bytes.
    Plain(Name),
    /// The text of this symbol.
    Put(Name),
    /// Nothing, but the symbol must be declared.
    Need(Name),
}

/// What replaces an `&`.
#[derive(Drop)]
pub(crate) enum Replacement {
    /// It stays.
    Ampersand,
    /// The text of this symbol, and how many of the bytes after it go with it.
    Text(Name, usize),
    /// It stays, but the symbol must be declared.
    Asked(Name),
}

/// The name at the start, in upper case.
fn front_name(alloc: Global, following: LinePart<'_>) -> Result<Name, AllocError>
    ensures { IfOk result (λ name. name ≡ characters.folded (take (name_length following.entry.bytes.now) following.entry.bytes.now)) }
{
    let (bytes, _) = following.bytes.split_at(name_len(following.bytes));
    to_upper_case(alloc, LinePart { bytes })
}

/// What replaces an `&` before these bytes.
#[tactic(auto, using(crate::proofs::Templates::ampersand, crate::proofs::Templates::not_letter, crate::proofs::Templates::not_name, crate::proofs::Templates::text, crate::proofs::Templates::asked))]
fn place_of(alloc: Global, at: Naming, following: LinePart<'_>) -> Result<Replacement, AllocError>
    ensures place { IfOk result (λ p. (text_of : List ℕ → Option (List ℕ)) → in_place text_of (naming at) following.entry.bytes.now ≡ with_more (more_of p) (replacement_text text_of p)) }
    ensures bound { IfOk result (λ p. more_of p ≤ length following.entry.bytes.now) }
{
    match at {
        Naming::Replaced => {
            if !begins_letter(following.bytes) {
                return Ok(Replacement::Ampersand);
            }
            let name = front_name(alloc, following)?;
            Ok(Replacement::Text(name, taken_length(following.bytes)))
        }
        Naming::Named => {
            if !begins_name(following.bytes) {
                return Ok(Replacement::Ampersand);
            }
            let name = front_name(alloc, following)?;
            Ok(Replacement::Asked(name))
        }
        Naming::Declared => Ok(Replacement::Ampersand),
    }
}

/// Adds to the parts the bytes that are copied.
#[tactic(auto, using(crate::proofs::Templates::closed_empty, crate::proofs::Templates::closed_some))]
fn close(alloc: Global, parts: &mut Vec<TemplatePart>, run: LinePart<'_>) -> Result<(), AllocError>
    ensures { OnOk result ((text_of : List ℕ → Option (List ℕ)) (tail : Option (List ℕ)) → text_before text_of parts.new.items tail ≡ text_before text_of parts.old.items (with_front run.entry.bytes.now tail)) }
{
    if run.bytes.is_empty() {
        return Ok(());
    }
    let bytes = name(alloc, run)?;
    parts.push(TemplatePart::Plain(bytes))?;
    Ok(())
}

/// Adds to the parts what replaces an `&`. Returns how many of the bytes after the `&` go with it.
#[tactic(auto, using(crate::proofs::Templates::adds_ampersand, crate::proofs::Templates::adds_text, crate::proofs::Templates::adds_asked))]
fn add(
    alloc: Global,
    parts: &mut Vec<TemplatePart>,
    run: &mut Vec<u8>,
    place: Replacement,
) -> Result<usize, AllocError>
    requires { length run.old.items ≤ 255 }
    ensures more { IfOk result (λ more. more ≡ more_of place) }
    ensures short { IfOk result (λ more. length run.new.items ≤ length run.old.items + 1) }
    ensures parts { IfOk result (λ more. (text_of : List ℕ → Option (List ℕ)) (tail : Option (List ℕ))
        → text_before text_of parts.new.items (with_front run.new.items tail) ≡ text_before text_of parts.old.items (with_front run.old.items (join (replacement_text text_of place) tail))) }
{
    match place {
        Replacement::Ampersand => {
            run.push(b'&')?;
            Ok(0)
        }
        Replacement::Text(name, more) => {
            let front = LinePart {
                bytes: run.as_slice(),
            };
            close(alloc, parts, front)?;
            parts.push(TemplatePart::Put(name))?;
            run.clear();
            Ok(more)
        }
        Replacement::Asked(name) => {
            parts.push(TemplatePart::Need(name))?;
            run.push(b'&')?;
            Ok(0)
        }
    }
}

/// The parts of a line.
pub fn parts_of(alloc: Global, of: &SourceLine) -> Result<Vec<TemplatePart>, AllocError>
    requires { HaveFields of.now.text (line of.now).fields }
    ensures { IfOk result (λ parts. HasParts (line of.now) parts.items) }
{
    let text = of.text.bytes();
    let statement = statement_of(of.part(of.operation).bytes);
    let mut parts = Vec::new(alloc);
    let mut run = Vec::new(alloc);
    let mut left = text;
    'runs: loop {
        let rest = copy_plain(&mut run, left)?;
        let Some((_, following)) = rest.split_first() else {
            let last = LinePart {
                bytes: run.as_slice(),
            };
            close(alloc, &mut parts, last)?;
            return Ok(parts);
        };
        let at = (text.len() - rest.len()) as u32;
        let named = naming_at(of, statement, at);
        let place = place_of(alloc, named, LinePart { bytes: following })?;
        let more = add(alloc, &mut parts, &mut run, place)?;
        let (_, others) = following.split_at(more);
        left = others;
    }
}

/// The bytes with which every text that the parts make begins.
#[tactic(auto, using(crate::proofs::Parted::drop_read, crate::proofs::Templates::needs_more))]
pub fn plain_front(parts: &[TemplatePart]) -> Option<LinePart<'_>>
    ensures { IfSome result (λ front. BeginWith parts.now front.bytes.now) }
{
    'parts: for part in parts {
        match part {
            TemplatePart::Plain(bytes) => {
                return Some(LinePart {
                    bytes: bytes.bytes(),
                });
            }
            TemplatePart::Need(_) => {}
            TemplatePart::Put(_) => return None,
        }
    }
    None
}

/// The text that a part makes, if its symbol is declared.
fn part_text<'a>(of: Values<'a>, part: &'a TemplatePart) -> Option<&'a [u8]>
    ensures { MatchOption result (part_text (text_of (values of.entry)) part.now ≡ None) (λ t. part_text (text_of (values of.entry)) part.now ≡ Some t.now) }
{
    match part {
        TemplatePart::Plain(bytes) => Some(bytes.bytes()),
        TemplatePart::Put(name) => text_of(of, name.bytes()),
        TemplatePart::Need(name) => match text_of(of, name.bytes()) {
            Some(_) => Some(b""),
            None => None,
        },
    }
}

/// Puts the text that parts make into a buffer, whose own bytes are lost. Returns whether all their symbols are declared.
pub fn instantiate(
    of: Values<'_>,
    parts: &[TemplatePart],
    out: &mut Vec<u8>,
) -> Result<bool, AllocError>
    ensures text { IfOk result (λ found. IsTrue found → text_before (text_of (values of.entry)) parts.now (Some []) ≡ Some out.new.items) }
    ensures missing { IfOk result (λ found. found ≡ false → text_before (text_of (values of.entry)) parts.now (Some []) ≡ None) }
{
    out.clear();
    'parts: for part in parts {
        let Some(text) = part_text(of, part) else {
            return Ok(false);
        };
        if !text.is_empty() {
            out.extend_from_slice(text)?;
        }
    }
    Ok(true)
}
