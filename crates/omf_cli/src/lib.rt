//! The commands of the tool `omf`: all that the program does is here, over a store of files and a sink of text.
#![tactic(auto)]

mod laws;
mod link;
mod stress;
mod tool;

pub use laws::{headline, inputs_are_asked_for_once, linked_files_begin};
pub use link::refusal;
pub use omf_commands::take_first;
pub use omf_making::{Maker, Making, Status, are_paths, line_fault_line, print, run_maker};
pub use tool::run_tool;
