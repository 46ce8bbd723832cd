//! Expressions: their postfix form, borrowed from the file, and their value (GS/OS Reference, appendix F,
//! "Expressions").
#![tactic(auto)]

mod env;
mod evaluation;
mod expr;
mod laws;
mod operators;
mod reading;
mod stack;
mod term;
mod terms;
mod writing;

pub use env::Env;
pub use evaluation::evaluate;
pub use expr::Expr;
pub use laws::{
    each_spells_one_tree, field_is_expression, none_begins_another, one_first_fault, term_is_read,
};
pub use omf_format::{ExprFault, Value, ValueFault};
pub use operators::{apply_one, apply_two};
pub use term::Term;
pub use terms::Terms;
pub use writing::{ExprPutFault, put_term};
