//! What holds of lines, formulas and operands. These functions do nothing: each is there for its contract.

ghost use Rattle.orca_meaning.specs.SourceLaws.{LfEndsLine, CrLfEndsLine, CrEndsLine, LastNeedsNoEnd, FieldsLieInLine, FieldsPartLine, OutsideIsFirst, OneTree, FormulaSpells, PendingIsDepth, PendingIsWrittenDepth, OneOperand};

/// Lines end with LF, CR or CR LF, and the last one needs no end. The fields of a line lie in it, with blanks between
/// them, and the operand ends at the first blank outside quotes.
pub fn lines_have_fields()
    ensures lf { LfEndsLine }
    ensures cr_lf { CrLfEndsLine }
    ensures cr { CrEndsLine }
    ensures last { LastNeedsNoEnd }
    ensures within { FieldsLieInLine }
    ensures parted { FieldsPartLine }
    ensures outside { OutsideIsFirst }
{}

/// A text begins with at most one formula. Its terms spell an expression in the sense of the file format, and
/// its pending values are those of that expression.
pub fn formulas_are_expressions()
    ensures one_tree { OneTree }
    ensures spells { FormulaSpells }
    ensures pending { PendingIsDepth }
    ensures written { PendingIsWrittenDepth }
{}

/// A text is one operand at most.
pub fn operands_are_read_in_one_way()
    ensures one_operand { OneOperand }
{}
