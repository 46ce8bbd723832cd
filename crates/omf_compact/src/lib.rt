//! Canonical load files: the one fixed form of a load file, in which files that hold the same are the same (GS/OS Reference,
//! appendix F; the form is this project's own).
#![tactic(auto)]

mod compacting;
mod content;
mod exports;
mod fault;
mod gaps;
mod judge;
mod laws;
mod parting;
mod segments;
mod write_fault;

pub use compacting::canonical;
pub use fault::{CompactCause, CompactFault};
pub use laws::{
    canonical_files_are_load_files, canonical_files_are_not_seen, canonical_forms_are_one,
};
