//! What assembly source means: the definitions that the assembler's crates cite.
#![tactic(auto)]

mod forms;
mod lines;
mod matrix_laws;
mod mnemonics;
mod modes;
mod operators;
mod source_laws;

pub use forms::{Form, Index, Opening, OperandUse, Prefix};
pub use lines::{Span, TextCause, TextFault};
pub use matrix_laws::matrix_has_laws;
pub use mnemonics::Mnemonic;
pub use modes::Mode;
pub use operators::{Operands, Operator, Sign};
pub use source_laws::{formulas_are_expressions, lines_have_fields, operands_are_read_in_one_way};
