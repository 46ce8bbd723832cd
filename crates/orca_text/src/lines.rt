//! The lines of a source.

ghost use Rattle.std.specs.Prelude.{◌≡◌, ◌+◌, ◌^◌, ◌≤◌, ◌<◌, [], ◌∷◌, ◌++◌, not, map, length, slice_get, Some, None, IfOk, IfErr, IfSome, OnOk, OnErr, MatchOption};
ghost use Rattle.std.specs.List.{filter};
ghost use Rattle.omf_format.specs.Lines.{lines_of};
ghost use Rattle.orca_meaning.specs.Line.{line_of, line_fault, numbered_lines, first_line_fault, fields_of, is_comment, HaveFields};
ghost use Rattle.orca_text.specs.DecodedView.{decoded_line};
ghost use Rattle.orca_text.specs.View.{line};
ghost use Rattle.orca_text.specs.OwnFields.{HaveOwnFields};
ghost use Rattle.orca_text.specs.Refusals.{IsRefused};

use crate::decoded_line::DecodedLine;
use crate::fields::is_comment;
use crate::line::SourceLine;
use crate::line_part::LinePart;
use omf_base::split_line;
use orca_meaning::{TextCause, TextFault};
use std::alloc::{AllocError, Global};
use std::marker::Model;

/// The most bytes of a line.
const MOST_BYTES: usize = 255;

/// The most lines of a source.
const MOST_LINES: u32 = 65536;

/// Lines in order. Contracts see the list of them. Their fields are those of their bytes.
#[derive(Drop)]
pub struct Lines {
    lines: Vec<DecodedLine>,
}

impl Model for Lines {
    ghost use Rattle.std.specs.Prelude.{◌<◌, ◌^◌, List, map, length};
    ghost use Rattle.orca_meaning.specs.Line as meaning;
    ghost use Rattle.orca_text.specs.DecodedView.{decoded_line};
    ghost use Rattle.orca_text.specs.OwnFields.{HaveOwnFields};

    ghost Value = { List meaning.Line };

    ghost view = { λ lines. map decoded_line lines.lines.items };

    ghost invariant = { λ lines. HaveOwnFields (map decoded_line lines.lines.items) × (length lines.lines.items < 2 ^ 32) };
}

impl Lines {
    /// No lines. It takes no memory yet.
    pub fn new(alloc: Global) -> Lines
        ensures { result ≡ [] }
    {
        Lines {
            lines: Vec::new(alloc),
        }
    }

    /// Appends a line.
    pub fn push(
        &mut self,
        alloc: Global,
        file: u32,
        number: u32,
        text: LinePart<'_>,
    ) -> Result<(), AllocError>
        requires { length self.old + 1 < 2 ^ 32 }
        ensures ok { OnOk result (self.new ≡ self.old ++ line_of file number text.entry.bytes.now ∷ []) }
        ensures err { OnErr result (self.new ≡ self.old) }
    {
        let line = DecodedLine::of(alloc, file, number, text)?;
        self.lines.push(line)?;
        Ok(())
    }

    /// Appends a line unchanged. Its fields are those of its bytes, so they aren't looked for again.
    pub fn copy(&mut self, alloc: Global, of: &SourceLine) -> Result<(), AllocError>
        requires own { (line of.now).fields ≡ fields_of of.now.text }
        requires room { length self.old + 1 < 2 ^ 32 }
        ensures ok { OnOk result (self.new ≡ self.old ++ line of.now ∷ []) }
        ensures err { OnErr result (self.new ≡ self.old) }
    {
        let line = DecodedLine::of_line(alloc, of)?;
        self.lines.push(line)?;
        Ok(())
    }

    /// Drops the comments.
    pub fn drop_comments(&mut self)
        ensures { self.new ≡ filter (λ l. not (is_comment l.text)) self.old }
    {
        self.lines.retain(|of| !is_comment(of.line.text.bytes()));
    }

    /// How many lines there are.
    pub fn count(&self) -> u32
        ensures { result ≡ length self.now }
    {
        self.lines.len() as u32
    }

    /// The line at a place, from 0.
    pub fn get(&self, place: u32) -> Option<&SourceLine>
        ensures line { MatchOption result (length self.now ≤ place) (λ found. slice_get self.now place ≡ Some (line found.now)) }
        ensures fields { IfSome result (λ found. HaveFields found.now.text (line found.now).fields) }
        ensures own { IfSome result (λ found. (line found.now).fields ≡ fields_of found.now.text) }
    {
        match self.get_decoded(place) {
            Some(found) => Some(&found.line),
            None => None,
        }
    }

    /// The line at a place, from 0, with what its operation is.
    pub fn get_decoded(&self, place: u32) -> Option<&DecodedLine>
        ensures line { MatchOption result (length self.now ≤ place) (λ found. slice_get self.now place ≡ Some (decoded_line found.now)) }
        ensures fields { IfSome result (λ found. HaveFields found.now.line.text (decoded_line found.now).fields) }
        ensures own { IfSome result (λ found. (decoded_line found.now).fields ≡ fields_of found.now.line.text) }
    {
        match self.at(place) {
            Some(found) => Some(found),
            None => None,
        }
    }

    fn at(&self, place: u32) -> Option<&DecodedLine>
        ensures line { MatchOption result (length self.now ≤ place) (λ found. slice_get self.now place ≡ Some (decoded_line found.now)) }
        ensures own { HaveOwnFields self.now }
    {
        self.lines.get(place as usize)
    }
}

/// What is wrong with a line of this number.
fn line_fault(number: u32, text: &[u8]) -> Option<TextCause>
    ensures { result ≡ line_fault number text.now }
{
    if text.len() > MOST_BYTES {
        return Some(TextCause::LineTooLong);
    }
    if number > MOST_LINES {
        return Some(TextCause::TooManyLines);
    }
    None
}

/// The fault of a line of this number, where it has one.
fn check_text(file: u32, number: u32, text: &[u8]) -> Result<(), TextFault>
    ensures good { OnOk result (line_fault number text.now ≡ None) }
    ensures bad { IfErr result (λ fault. line_fault number text.now ≡ Some fault.cause) }
    ensures place { IfErr result (λ fault. fault ≡ record { cause = fault.cause; file = file; line = number }) }
{
    match line_fault(number, text) {
        None => Ok(()),
        Some(cause) => Err(TextFault {
            cause,
            file,
            line: number,
        }),
    }
}

/// The lines of a source, or its first line that is too long or one too many.
pub fn read_lines(alloc: Global, file: u32, source: &[u8]) -> Result<Lines, TextFault>
    ensures lines { IfOk result (λ lines. lines ≡ numbered_lines file 1 (lines_of source.now)) }
    ensures good { OnOk result (first_line_fault 1 (lines_of source.now) ≡ None) }
    ensures refused { IfErr result (λ fault. IsRefused file source.now fault) }
{
    let mut lines = Lines::new(alloc);
    let mut rest = source;
    let mut number = 1;
    'lines: while !rest.is_empty() {
        let (text, following) = split_line(rest);
        check_text(file, number, text)?;
        match lines.push(alloc, file, number, LinePart { bytes: text }) {
            Ok(()) => {}
            Err(_) => return Err(TextFault {
                cause: TextCause::Memory,
                file,
                line: 0,
            }),
        }
        number += 1;
        rest = following;
    }
    Ok(lines)
}
