//! The commands that need no linker: `asm`, `lib`, `list`, `dump`, `compact` and `run`, over a store of files and a sink of text.
#![tactic(auto)]

mod asm;
mod compact;
mod dump;
mod library;
mod list;
mod script;

pub use asm::{Asm, inputs_of, take_first};
pub use compact::Compact;
pub use dump::Dump;
pub use library::Lib;
pub use list::Listing;
pub use script::run_file;
