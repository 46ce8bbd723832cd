//! Operations: instructions and directives (ORCA/M reference manual, "Assembler directives").

use orca_meaning::Mnemonic;

/// What kind of segment begins.
#[derive(Clone, Copy, PartialEq, Eq, Debug)]
pub enum Class {
    /// Code: START.
    Code,
    /// Code whose names are seen in its own file alone: PRIVATE.
    PrivateCode,
    /// Data: DATA.
    Data,
    /// Data whose names are seen in its own file alone: PRIVDATA.
    PrivateData,
}

/// What is turned on and off.
#[derive(Clone, Copy, PartialEq, Eq, Debug)]
pub enum Switch {
    /// The accumulator has 16 bits: LONGA.
    LongA,
    /// The index registers have 16 bits: LONGI.
    LongI,
    /// The texts of DC have their high bits set: MSB.
    Msb,
}

/// A directive.
#[derive(Clone, Copy, PartialEq, Eq, Debug)]
pub enum Directive {
    /// START, PRIVATE, DATA, PRIVDATA.
    Begin(Class),
    /// END.
    End,
    /// ENTRY.
    Entry,
    /// USING.
    Using,
    /// EQU.
    Equ,
    /// GEQU.
    Gequ,
    /// DC.
    Constants,
    /// DS.
    Space,
    /// ALIGN.
    Align,
    /// ORG.
    Org,
    /// KIND.
    Kind,
    /// LONGA, LONGI, MSB.
    Turn(Switch),
    /// ANOP.
    Nothing,
    /// A directive that is accepted without effect.
    Ignored,
}

/// What a line's operation is.
#[derive(Clone, Copy, PartialEq, Eq, Debug)]
pub enum Operation {
    /// An instruction.
    Instruct(Mnemonic),
    /// A directive.
    Direct(Directive),
}
