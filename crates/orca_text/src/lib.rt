//! Lines and operands of assembly source (ORCA/M reference manual; WDC 65C816 data sheet, addressing modes).
#![tactic(auto)]

mod decoded_line;
mod fields;
mod forms;
mod formula;
mod formula_term;
mod line;
mod line_part;
mod lines;
mod operand;
mod operand_tokens;
mod operation;
mod operator_tokens;
mod short;
mod tokens;
mod waiting;

pub use decoded_line::DecodedLine;
pub use fields::{
    LineFields, is_comment, label_in, operand_after, part, quote_following, three_fields,
};
pub use formula::{FormulaAt, formula_at};
pub use formula_term::{Formula, FormulaTerm};
pub use line::SourceLine;
pub use line_part::LinePart;
pub use lines::{Lines, read_lines};
pub use operand::{Operand, is_too_deep, read_decoded_operand, read_operand};
pub use operand_tokens::{after_byte, is_name_start, name_at, name_len, symbol_at, to_upper_case};
pub use operation::{DecodedOperation, is_spelled};
pub use orca_meaning::{Form, Mnemonic, OperandUse, Operands, Prefix, Span, TextCause, TextFault};
pub use short::{ShortFormula, short_formula};
pub use tokens::{digit, digits_at};
