//! The forms of operands (WDC 65C816 data sheet, addressing modes; ORCA/M reference manual, "The operand field").

/// How an operand is written, `e` and `f` being formulas.
#[derive(Clone, Copy, PartialEq, Eq, Hash, Debug)]
pub enum Form {
    /// Nothing.
    Nothing,
    /// `A`, of a mnemonic that has the accumulator mode.
    Accumulator,
    /// `#e`, `#<e`, `#>e` or `#^e`.
    Immediate,
    /// `e`.
    Plain,
    /// `e,X`.
    IndexX,
    /// `e,Y`.
    IndexY,
    /// `e,S`.
    IndexS,
    /// `(e)`.
    Paren,
    /// `(e),Y`.
    ParenY,
    /// `(e,X)`.
    ParenX,
    /// `(e,S),Y`.
    ParenSY,
    /// `[e]`.
    Bracket,
    /// `[e],Y`.
    BracketY,
    /// `e,f`.
    Pair,
    /// Parentheses or brackets with indexes that no mnemonic has, as `(e),X`.
    Other,
}

/// What precedes an operand's formula, after `#` or a parenthesis that opens the operand.
#[derive(Clone, Copy, PartialEq, Eq, Hash, Debug)]
pub enum Prefix {
    /// Nothing.
    Bare,
    /// `<`.
    Less,
    /// `|` or `!`.
    Bar,
    /// `>`.
    Greater,
    /// `^`, only after `#`.
    Caret,
}

/// The register by which an operand is indexed.
#[derive(Clone, Copy, PartialEq, Eq, Debug)]
pub enum Index {
    /// None.
    Absent,
    /// `,X`.
    X,
    /// `,Y`.
    Y,
    /// `,S`.
    S,
}

/// What an operand begins with.
#[derive(Clone, Copy, PartialEq, Eq, Debug)]
pub enum Opening {
    /// Its formula or a prefix.
    Open,
    /// `#`.
    Hash,
    /// `(`, of an instruction.
    Round,
    /// `[`.
    Square,
}

/// What a mnemonic does with its operand.
#[derive(Clone, Copy, PartialEq, Eq, Debug)]
pub enum OperandUse {
    /// It takes none: what follows it on the line is a comment.
    Never,
    /// Where the operand is missing, or is `A`, the accumulator is meant.
    Accumulator,
    /// Where the operand is missing the signature byte is 0.
    Signature,
    /// It needs one.
    Always,
}
