//! Expanded lines to object segments (ORCA/M reference manual, "Assembler directives"; GS/OS Reference, appendix F).
#![tactic(auto)]

mod assembly;
mod data;
mod equates;
mod object;
mod operation;
mod places;
mod segments;
mod state;
mod statement;
mod step;
mod switches;

pub use assembly::{Assembly, assemble_lines};
