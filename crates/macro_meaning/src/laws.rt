//! What holds of the expansion of macros. This function does nothing: it is there for its contract.

ghost use Rattle.macro_meaning.specs.ExpansionLaws.{OneExpansion, NoFaultBeside, OneFirstFault, NoneUnanswered};

/// A source with macro files expands to one list of lines, or has one first fault, and none has neither: a visited line does one
/// thing, so there is one list of visits, and it ends.
pub fn sources_have_one_answer()
    ensures expansion { OneExpansion }
    ensures beside { NoFaultBeside }
    ensures fault { OneFirstFault }
    ensures some { NoneUnanswered }
{}
