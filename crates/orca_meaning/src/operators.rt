//! The operators of formulas (ORCA/M reference manual, "Expressions").

/// An operator before one operand.
#[derive(Clone, Copy, PartialEq, Eq, Debug)]
pub enum Sign {
    /// `-`: negate.
    Negate,
    /// `.NOT.`: logical NOT.
    Not,
}

/// An operator between two operands.
#[derive(Clone, Copy, PartialEq, Eq, Debug)]
pub enum Operator {
    /// `*`.
    Multiply,
    /// `/`.
    Divide,
    /// `|`: shift to the left, and by a negative count to the right.
    Shift,
    /// `+`.
    Add,
    /// `-`.
    Subtract,
    /// `<`.
    Less,
    /// `>`.
    Greater,
    /// `<=`.
    LessOrEqual,
    /// `>=`.
    GreaterOrEqual,
    /// `<>`.
    NotEqual,
    /// `=`.
    Equal,
    /// `.AND.`: logical AND.
    And,
    /// `.OR.`: logical OR.
    Or,
    /// `.EOR.`: logical exclusive OR.
    Eor,
}

/// Which operands a formula may have besides numbers and texts.
#[derive(Clone, Copy, PartialEq, Eq, Debug)]
pub enum Operands {
    /// Those of statements: the location counter `*`, labels, `L:LABEL` and `C:LABEL`.
    Labels,
    /// Those of conditions and settings: `L:&NAME` and `C:&NAME` of a symbol.
    Symbols,
}
