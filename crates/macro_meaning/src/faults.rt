//! Why sources and macro files can't be expanded.

/// What is wrong with a line.
#[derive(Clone, Copy, PartialEq, Eq, Debug)]
pub enum MacroCause {
    /// The line has more than 255 bytes, as it is written or with the texts of its symbols.
    LineTooLong,
    /// It is the 65,537th line of a file, or its visit is the 1,000,001st.
    TooManyLines,
    /// A symbol that it names isn't declared.
    NoSuchSymbol,
    /// A declaration or setting that doesn't fit its symbol, or an operand of conditional assembly that has not the form
    /// that its statement needs.
    BadSetting,
    /// A model line that isn't one, or a call whose operands don't fit the parameters.
    BadArguments,
    /// A branch to a sequence symbol that no line has, or that two lines have.
    NoSequenceSymbol,
    /// A definition without its MEND.
    Unclosed,
    /// A branch where the counter of its expansion is 0.
    Counter,
    /// A call from within 32 others.
    TooNested,
    /// A note of this severity, 8 or more.
    Noted(u32),
    /// Out of memory.
    Memory,
}

/// A cause with the line that it is about.
#[derive(Clone, Copy, PartialEq, Eq, Debug)]
pub struct MacroFault {
    pub cause: MacroCause,
    /// The line's file: 0 is the source, and macro files count from 1. 0 when out of memory.
    pub file: u32,
    /// The line's number, from 1. 0 when out of memory.
    pub line: u32,
}
