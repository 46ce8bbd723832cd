//! Symbolic parameters: their names and texts, the lines and conditions that they are in, and the calls that bind them (ORCA/M
//! reference manual, "Symbolic parameters", "Macro calls" and "Conditional assembly expressions").
#![tactic(auto)]

mod call;
mod conditions;
mod frames;
mod model_line;
mod names;
mod operands;
mod sequence;
mod substitution;
mod symbols;
mod template;
mod text;
mod word;

pub use call::{bind_arguments, names_count};
pub use conditions::{condition, number};
pub use frames::{CallScope, ExpansionState, Frames};
pub use model_line::{ModelLine, model_of};
pub use names::{is_operation, is_target, operation_is, sequence_name, statement_of, target_name};
pub use operands::{OperandPiece, join_quoted, pieces, two_pieces, unquote};
pub use sequence::{begins_dot, skip_sequence_symbol};
pub use substitution::{is_folded, is_plain, substitute};
pub use symbols::{
    CallCounts, SharedText, SharedTextTable, Symbol, Symbols, Values, declaration_of, first_text,
    is_count, is_declaration, is_kind, kind_of, signed_decimal,
};
pub use template::{TemplatePart, instantiate, parts_of, plain_front};
pub use text::SymbolText;
pub use word::{Word, symbol_word, target_word};
