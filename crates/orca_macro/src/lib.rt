//! The expansion of macros and conditional assembly (ORCA/M reference manual, "Macros" and "Conditional assembly").
#![tactic(auto)]

mod body;
mod definitions;
mod doing;
mod effect;
mod expansion;
mod head;
mod next_visit;
mod plan;
mod program;
mod untouched;
mod visited;
mod visits;

pub use expansion::{expand, read_program};
pub use macro_meaning::{MacroCause, MacroFault};
pub use next_visit::{Expansion, VisitedLine};
pub use program::MacroProgram;
pub use visits::Flow;
