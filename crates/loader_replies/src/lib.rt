//! Commands of the System Loader's scripts, one at a time: a command is given to a loader, and its reply is a printed line.
#![tactic(auto)]

mod blocks;
mod calls;
mod command;
mod replies;

pub use command::{ReplyStop, first_loader, print, run_command};
pub use replies::okay_line;
