//! Lines whose operations are decoded.

ghost use Rattle.std.specs.Prelude.{◌≡◌, IfOk};
ghost use Rattle.orca_meaning.specs.Line.{line_of, fields_of, part};
ghost use Rattle.orca_text.specs.Decoding.{IsDecoded};

use crate::fields::fields_of;
use crate::line::SourceLine;
use crate::line_part::LinePart;
use crate::operation::{DecodedOperation, decode_operation};
use std::alloc::{AllocError, Global};

/// A line with what its operation is, which is looked up once.
#[derive(Drop)]
pub struct DecodedLine {
    /// The line.
    pub line: SourceLine,
    /// What its operation is.
    pub operation: DecodedOperation,
    pub ghost decoded: { IsDecoded (part line.text line.operation) operation },
}

impl DecodedLine {
    ghost use Rattle.orca_text.specs.View.{line};

    /// The line of these bytes.
    pub(crate) fn of(
        alloc: Global,
        file: u32,
        number: u32,
        text: LinePart<'_>,
    ) -> Result<DecodedLine, AllocError>
        ensures { IfOk result (λ d. line d.line ≡ line_of file number text.entry.bytes.now) }
    {
        let (places, operation) = fields_of(text);
        let line = SourceLine::with_fields(alloc, file, number, text, places)?;
        Ok(DecodedLine { line, operation })
    }

    /// The same line once more, whose fields are those of its bytes.
    pub(crate) fn of_line(alloc: Global, of: &SourceLine) -> Result<DecodedLine, AllocError>
        requires { (line of.now).fields ≡ fields_of of.now.text }
        ensures { IfOk result (λ d. line d.line ≡ line of.now) }
    {
        let operation = decode_operation(of.part(of.operation).bytes);
        let line = of.try_copy(alloc)?;
        Ok(DecodedLine { line, operation })
    }
}
