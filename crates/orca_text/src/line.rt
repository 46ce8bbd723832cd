//! A line of a source.

ghost use Rattle.std.specs.Prelude.{◌≡◌, IfOk};
ghost use Rattle.orca_meaning.specs.Line.{part, LiesIn};

use crate::fields::{self, LineFields};
use crate::line_part::LinePart;
use omf_base::{Name, NameFault};
use orca_meaning::Span;
use std::alloc::{AllocError, Global};

/// A line of a source, or one that the expansion of macros gave, with the places of its fields. A comment has three empty
/// fields. Only a line with a label, or with what begins with a comment sign, lacks an operation.
#[derive(Drop)]
pub struct SourceLine {
    /// The file: 0 is the source, and macro files count from 1.
    pub file: u32,
    /// The line's number in its file, from 1.
    pub line: u32,
    /// Its bytes, without its end.
    pub text: Name,
    /// What begins in column 1.
    pub label: Span,
    /// The next field.
    pub operation: Span,
    /// The third field, up to the first blank outside quotes. It is empty where the operation takes no operand.
    pub operand: Span,
}

impl SourceLine {
    ghost use Rattle.orca_text.specs.View.{line, fields};

    /// The line of these bytes with these fields.
    pub(crate) fn with_fields(
        alloc: Global,
        file: u32,
        number: u32,
        text: LinePart<'_>,
        places: LineFields,
    ) -> Result<SourceLine, AllocError>
        ensures { IfOk result (λ l. line l ≡ record { file = file; number = number; text = text.entry.bytes.now; fields = fields places }) }
    {
        match Name::of(alloc, text.bytes) {
            Ok(text) => Ok(SourceLine {
                file,
                line: number,
                text,
                label: places.label,
                operation: places.operation,
                operand: places.operand,
            }),
            Err(NameFault::TooLong) => unreachable!(),
            Err(NameFault::Memory) => Err(AllocError),
        }
    }

    /// The same line once more.
    pub(crate) fn try_copy(&self, alloc: Global) -> Result<SourceLine, AllocError>
        ensures { IfOk result (λ l. line l ≡ line self.now) }
    {
        match Name::of(alloc, self.text.bytes()) {
            Ok(text) => Ok(SourceLine {
                file: self.file,
                line: self.line,
                text,
                label: self.label,
                operation: self.operation,
                operand: self.operand,
            }),
            Err(NameFault::TooLong) => unreachable!(),
            Err(NameFault::Memory) => Err(AllocError),
        }
    }

    /// The bytes of one of its fields.
    pub fn part(&self, span: Span) -> LinePart<'_>
        requires { LiesIn self.now.text span }
        ensures { result.bytes.now ≡ part self.now.text span }
    {
        let text = LinePart {
            bytes: self.text.bytes(),
        };
        fields::part(text, span)
    }
}
