//! The statements of conditional assembly (ORCA/M reference manual, "Conditional assembly directives").

/// What a symbol holds.
#[derive(Clone, Copy, PartialEq, Eq, Debug)]
pub enum SymbolKind {
    /// A number, as LCLA and GBLA declare it.
    Number,
    /// 0 or 1, as LCLB and GBLB declare it.
    Flag,
    /// A text, as LCLC and GBLC declare it. A parameter is one.
    Text,
}

/// How a symbol is declared.
#[derive(Clone, Copy, PartialEq, Eq, Debug)]
pub enum Declaration {
    /// For its expansion alone: LCLA, LCLB, LCLC.
    Local(SymbolKind),
    /// For all expansions: GBLA, GBLB, GBLC.
    Shared(SymbolKind),
}

/// A statement that expansion carries out.
#[derive(Clone, Copy, PartialEq, Eq, Debug)]
pub enum Statement {
    /// LCLA, LCLB, LCLC, GBLA, GBLB or GBLC.
    Declare(Declaration),
    /// SETA, SETB or SETC.
    Set(SymbolKind),
    /// AMID.
    Middle,
    /// AIF.
    BranchIf,
    /// AGO.
    Branch,
    /// ACTR.
    Count,
    /// ANOP.
    Nothing,
    /// MEXIT or MEND.
    Leave,
    /// MNOTE.
    Note,
    /// MACRO.
    Define,
}
