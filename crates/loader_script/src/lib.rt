//! Scripts of the System Loader, run: the commands that a text was read into are given to a loader, each reply a printed line.
#![tactic(auto)]

mod run;

pub use loader_machine::{ScriptCause, ScriptFault};
pub use run::{ScriptEnd, run_script};
pub use script_text::{
    BankList, Command, Script, read_script, scripts_are_read_in_one_way, texts_are_lines,
};
