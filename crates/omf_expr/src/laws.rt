//! Laws of expressions, each the contract of a function that does nothing.

ghost use Rattle.omf_expr.specs.Laws.{SpellsOneTree, NoneBeginsAnother, ReadIsTerm, TermIsRead, HasOneFault, HasNoFault, FieldIsExpression, ExpressionIsRead, FaultDecides};

/// Bytes that spell an expression spell one tree.
pub fn each_spells_one_tree()
    ensures one { SpellsOneTree }
{}

/// No expression begins another, so where bytes begin with one, it is the only one, and the same bytes are after it.
pub fn none_begins_another()
    ensures none { NoneBeginsAnother }
{}

/// A term is read exactly where its bytes are: what is read is a term, and a term is read, whatever follows it.
pub fn term_is_read()
    ensures takes { ReadIsTerm }
    ensures again { TermIsRead }
{}

/// Bytes have one first fault at most, and none where they begin with an expression.
pub fn one_first_fault()
    ensures one { HasOneFault }
    ensures none { HasNoFault }
{}

/// As a field of a record: what is read is an expression, and an expression is read, whatever follows it. Where there is none, the first
/// fault decides.
pub fn field_is_expression()
    ensures takes { FieldIsExpression }
    ensures again { ExpressionIsRead }
    ensures flaw { FaultDecides }
{}
