//! The words of a line.

ghost use Rattle.std.specs.Prelude.{◌≡◌, ◌==◌, ◌&&◌, nat_le, ◌∷◌, [], length, position, count_by, MatchOption};
ghost use Rattle.std.specs.Option.{option_map_or};
ghost use Rattle.std.specs.List.{list_all};
ghost use Rattle.loader_machine.specs.Script.{words_of, is_word};
ghost use Rattle.loader_machine.specs.laws.Words.{is_well_formed};

use std::marker::Model;

/// The words of a line that are left. Contracts see the list of them.
#[derive(Drop)]
pub(crate) struct Words<'a> {
    rest: &'a [u8],
    more: bool,
}

impl<'a> Model for Words<'a> {
    ghost use Rattle.std.specs.Prelude.{ℕ, List};
    ghost use Rattle.script_text.specs.Words.{words_left};

    ghost Value = { List (List ℕ) };

    ghost view = { λ words. words_left words.more words.rest.now };
}

/// Where the first space is.
fn first_space(line: &[u8]) -> Option<usize>
    ensures { result ≡ position (λ byte. byte == 0x20) line.now }
{
    line.iter().position(|byte| *byte == b' ')
}

/// The first word, and what follows the space after it, if there is one.
#[tactic(auto, using(crate::proofs::FirstWord::words_of_only, crate::proofs::FirstWord::words_of_first, crate::proofs::FirstWord::words_of_past))]
fn split_word(line: &[u8]) -> (&[u8], Option<&[u8]>)
    ensures { words_of line.now ≡ result.0.now ∷ option_map_or (λ rest. words_of rest.now) result.1 [] }
{
    match first_space(line) {
        Some(end) => {
            let (word, following) = line.split_at(end);
            match following.split_first() {
                Some((_, rest)) => (word, Some(rest)),
                None => (word, None),
            }
        }
        None => (line, None),
    }
}

/// How many spaces there are.
fn spaces(line: &[u8]) -> usize
    ensures { result ≡ count_by (λ byte. byte == 0x20) line.now }
{
    line.iter().filter(|byte| **byte == b' ').count()
}

impl<'a> Words<'a> {
    /// All words of a line.
    pub(crate) fn of(line: &'a [u8]) -> Words<'a>
        ensures { result ≡ words_of line.now }
    {
        Words {
            rest: line,
            more: true,
        }
    }

    /// The next word.
    pub(crate) fn next(&mut self) -> Option<&'a [u8]>
        ensures { MatchOption result ((self.old ≡ []) × (self.new ≡ [])) (λ word. self.old ≡ word.now ∷ self.new) }
    {
        if !self.more {
            return None;
        }
        let (word, following) = split_word(self.rest);
        match following {
            Some(rest) => self.rest = rest,
            None => self.more = false,
        }
        Some(word)
    }

    /// How many words are left.
    #[tactic(auto, using(crate::proofs::FirstWord::word_count))]
    pub(crate) fn count(&self) -> usize
        ensures { result ≡ length self.now }
    {
        if !self.more {
            return 0;
        }
        spaces(self.rest) + 1
    }
}

/// Whether each byte is one that words are made of.
fn are_word_bytes(word: &[u8]) -> bool
    ensures { result ≡ list_all (λ byte. nat_le 0x21 byte && nat_le byte 0x7E) word.now }
{
    word.iter().all(|byte| *byte >= 0x21 && *byte <= 0x7E)
}

/// Whether the bytes are a word.
#[tactic(auto, unfolding(loader_machine::specs::Script::is_word))]
fn is_word(word: &[u8]) -> bool
    ensures { result ≡ is_word word.now }
{
    word.len() >= 1 && word.len() <= 255 && are_word_bytes(word)
}

/// Whether the line is words with one space between them, and not too long.
pub(crate) fn is_well_formed(line: &[u8]) -> bool
    ensures { result ≡ is_well_formed line.now }
{
    line.len() <= 1023 && are_words(line)
}

/// Whether each is a word.
fn are_words(line: &[u8]) -> bool
    ensures { result ≡ list_all is_word (words_of line.now) }
{
    let mut words = Words::of(line);
    'words: while let Some(word) = words.next() {
        if !is_word(word) {
            return false;
        }
    }
    true
}
