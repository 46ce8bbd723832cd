//! The map of a link: which load segments there are, which members they have, what these define, where the jump table leads, which
//! run-time library files there are, and what is exported (this project's own form).
#![tactic(auto)]

mod exports;
mod mapping;
mod members;
mod runtimes;
mod symbols;
mod table;

pub use mapping::map_files;
