//! Why a source with macro files can't be assembled.

/// What is wrong with a line, or with the whole.
#[derive(Clone, Copy, PartialEq, Eq, Debug)]
pub enum AsmCause {
    /// The line has more than 255 bytes, as it is written or with the texts of its symbols.
    LineTooLong,
    /// It is the 65,537th line of a file, or its visit is the 1,000,001st.
    TooManyLines,
    /// A symbol that it names isn't declared.
    NoSuchSymbol,
    /// A declaration or setting that doesn't fit its symbol, or an operand of conditional assembly that has not the form
    /// that its statement needs.
    BadSetting,
    /// A model line that isn't one, or a call whose operands don't fit the parameters.
    BadArguments,
    /// A branch of conditional assembly to a sequence symbol that no line has, or that two lines have.
    NoSequenceSymbol,
    /// A macro definition without its MEND, or a segment without its END.
    Unclosed,
    /// A branch of conditional assembly where the counter of its expansion is 0.
    Counter,
    /// A call from within 32 others.
    TooNested,
    /// A note of this severity, 8 or more.
    Noted(u32),
    /// An operation that is none.
    UnknownOperation,
    /// A statement that belongs inside a segment is outside, or the other way round.
    OutsideSegment,
    /// A label that is no name, or one that is missing.
    BadLabel,
    /// An operand that hasn't the form that its operation needs.
    BadOperand,
    /// A number above 4,294,967,295.
    BadNumber,
    /// An operand's form, or its prefix, for which the mnemonic has no addressing mode.
    BadMode,
    /// A second definition of a name.
    Duplicate,
    /// A formula that has to be a constant and isn't.
    UnknownConstant,
    /// A number divided by 0.
    DivideByZero,
    /// A constant that doesn't fit its bytes.
    DoesNotFit,
    /// The segment has more bytes in memory than its kind may have.
    SegmentTooLong,
    /// The object would exceed 16,777,216 bytes.
    TooLong,
    /// Out of memory.
    Memory,
}

/// A cause with the line that it is about.
#[derive(Clone, Copy, PartialEq, Eq, Debug)]
pub struct AsmFault {
    pub cause: AsmCause,
    /// The line's file: 0 is the source, and macro files count from 1. 0 where the object is too long, or when out of memory.
    pub file: u32,
    /// The line's number, from 1. 0 where the object is too long, or when out of memory.
    pub line: u32,
}
