//! What macros and conditional assembly mean: the definitions that the crate of their expansion cites (ORCA/M reference
//! manual, "Macros" and "Conditional assembly").
#![tactic(auto)]

mod faults;
mod laws;
mod statements;

pub use faults::{MacroCause, MacroFault};
pub use laws::sources_have_one_answer;
pub use statements::{Declaration, Statement, SymbolKind};
