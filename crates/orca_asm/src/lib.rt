//! The assembler: source lines to object segments (ORCA/M reference manual, "Assembler directives"; WDC 65C816 data sheet;
//! GS/OS Reference, appendix F).
#![tactic(auto)]

mod source;

pub use asm_meaning::{AsmCause, AsmFault};
pub use source::assemble;
