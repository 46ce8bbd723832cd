//! A lister: from an object file to the source that is assembled to the same content (ORCA/M reference manual, "Assembler
//! directives"; WDC 65C816 data sheet, addressing modes). Which segments can be listed, and how, is this project's own.
#![tactic(auto)]

mod front;
mod records;
mod run;
mod source;

pub use list_meaning::{ListCause, ListFault};
pub use run::{RegisterWidths, instruction_of, operand_size, put_rest, widths_following};
pub use source::list_source;
