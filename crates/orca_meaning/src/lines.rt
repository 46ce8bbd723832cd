//! Source lines, and what is wrong with them.

/// A part of a line, from a place up to another one. Places are counted from 0.
#[derive(Clone, Copy, PartialEq, Eq, Debug)]
pub struct Span {
    /// The place of its first byte.
    pub from: u32,
    /// The place after its last byte.
    pub to: u32,
}

/// Why a source line can't be read.
#[derive(Clone, Copy, PartialEq, Eq, Debug)]
pub enum TextCause {
    /// The line has more than 255 bytes.
    LineTooLong,
    /// It is the 65,537th line.
    TooManyLines,
    /// The operand has none of the forms, or a formula in it has more than 64 pending values.
    BadOperand,
    /// A number in the operand is above 4,294,967,295.
    BadNumber,
    /// Out of memory.
    Memory,
}

/// A cause with the line that it is about.
#[derive(Clone, Copy, PartialEq, Eq, Debug)]
pub struct TextFault {
    pub cause: TextCause,
    /// The line's file: 0 is the source.
    pub file: u32,
    /// The line's number, from 1. 0 when out of memory.
    pub line: u32,
}
