//! The texts of scripts of loader calls: a text is read into its commands, or refused at its first bad line.
#![tactic(auto)]

mod command;
mod laws;
mod numbers;
mod parsing;
mod script;
mod words;

pub use command::{BankList, Command};
pub use laws::{scripts_are_read_in_one_way, texts_are_lines};
pub use loader_machine::{ScriptCause, ScriptFault};
pub use script::{Script, read_script};
