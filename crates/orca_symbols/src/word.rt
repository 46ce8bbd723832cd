//! Short texts that are borrowed where they are already stored as wanted, and kept otherwise.

ghost use Rattle.std.specs.Prelude.{◌≡◌, ◌≤◌, length, IfOk, IsTrue};
ghost use Rattle.macro_meaning.specs.Statements.{whole_match, symbol_name, sequence_name, target_name};
ghost use Rattle.orca_meaning.specs.Characters as characters;
ghost use Rattle.orca_meaning.specs.Token.{name_at};

use crate::names::is_name;
use crate::substitution::is_folded;
use omf_base::Name;
use orca_text::{LinePart, after_byte, to_upper_case};
use std::alloc::{AllocError, Global};
use std::marker::Model;

/// At most 255 bytes. Contracts see them.
#[derive(Drop)]
pub struct Word<'a> {
    owned: Option<Name>,
    borrowed: &'a [u8],
}

impl<'a> Model for Word<'a> {
    ghost use Rattle.std.specs.Prelude.{◌≤◌, ℕ, List, length};
    ghost use Rattle.orca_symbols.specs.Words.{word_of};

    ghost Value = { List ℕ };

    ghost view = { λ word. word_of word.owned word.borrowed.now };

    ghost invariant = { λ word. length (word_of word.owned word.borrowed.now) ≤ 255 };
}

impl<'a> Word<'a> {
    /// Bytes that are borrowed.
    pub fn borrowed(part: LinePart<'a>) -> Word<'a>
        ensures { result ≡ part.entry.bytes.now }
    {
        Word {
            owned: None,
            borrowed: part.bytes,
        }
    }

    fn owned(name: Name) -> Word<'a>
        ensures { result ≡ name }
    {
        Word {
            owned: Some(name),
            borrowed: &[],
        }
    }

    /// The bytes of the word.
    pub fn bytes(&self) -> &[u8]
        ensures value { result.now ≡ self.now }
        ensures short { length result.now ≤ 255 }
    {
        match &self.owned {
            Some(name) => name.bytes(),
            None => self.borrowed,
        }
    }
}

/// Bytes in upper case.
fn folded_word<'a>(alloc: Global, text: LinePart<'a>) -> Result<Word<'a>, AllocError>
    ensures { IfOk result (λ word. word ≡ characters.folded text.entry.bytes.now) }
{
    if is_folded(text.bytes) {
        return Ok(Word::borrowed(text));
    }
    let name = to_upper_case(alloc, text)?;
    Ok(Word::owned(name))
}

/// The name that a text is, in upper case.
#[tactic(auto, using(crate::proofs::WholeName::some_name, crate::proofs::WholeName::none_name))]
#[inline(always)]
fn whole_word<'a>(alloc: Global, text: LinePart<'a>) -> Result<Option<Word<'a>>, AllocError>
    ensures { IfOk result (λ word. word ≡ whole_match (name_at text.entry.bytes.now)) }
{
    if is_name(text.bytes) {
        let word = folded_word(alloc, text)?;
        return Ok(Some(word));
    }
    Ok(None)
}

/// The name of a symbol, where the text is `&NAME` and nothing else.
#[tactic(auto, unfolding(orca_meaning::specs::Token::symbol_at))]
#[inline(always)]
pub fn symbol_word<'a>(alloc: Global, text: LinePart<'a>) -> Result<Option<Word<'a>>, AllocError>
    ensures { IfOk result (λ word. word ≡ symbol_name text.entry.bytes.now) }
{
    match after_byte(text.bytes, b'&') {
        Some(following) => whole_word(alloc, LinePart { bytes: following }),
        None => Ok(None),
    }
}

/// The name of a sequence symbol, where the text is `.NAME` and nothing else.
#[inline(always)]
fn sequence_word<'a>(alloc: Global, text: LinePart<'a>) -> Result<Option<Word<'a>>, AllocError>
    ensures { IfOk result (λ word. word ≡ sequence_name text.entry.bytes.now) }
{
    match after_byte(text.bytes, b'.') {
        Some(following) => whole_word(alloc, LinePart { bytes: following }),
        None => Ok(None),
    }
}

/// Where a branch goes: a sequence symbol, maybe after a `^`.
#[inline(always)]
pub fn target_word<'a>(alloc: Global, text: LinePart<'a>) -> Result<Option<Word<'a>>, AllocError>
    ensures { IfOk result (λ word. word ≡ target_name text.entry.bytes.now) }
{
    match after_byte(text.bytes, b'^') {
        Some(following) => sequence_word(alloc, LinePart { bytes: following }),
        None => sequence_word(alloc, text),
    }
}
