//! What assembling means: the definitions that the assembler's crate cites (ORCA/M reference manual, "Assembler directives";
//! WDC 65C816 data sheet, addressing modes; GS/OS Reference, appendix F). What this project adds or leaves out is its own.
#![tactic(auto)]

mod directives;
mod faults;
mod laws;

pub use directives::{Class, Directive, Operation, Switch};
pub use faults::{AsmCause, AsmFault};
pub use laws::labels_stand_at_their_places;
