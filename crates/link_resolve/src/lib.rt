//! What linking needs to know of its inputs: which segments may be linked, which of libraries are added to the list, and the program
//! of files, or the first fault (GS/OS Reference, appendix F; the order of search is this project's own).
#![tactic(auto)]

mod bytes;
mod checks;
mod gather;
mod given;
mod input;
mod library;
mod resolving;
mod runtimes;

pub use checks::segments_fault;
pub use given::{are_few, may_resolve};
pub use input::read_segments;
pub use link_meaning::LinkForm;
pub use link_program::{
    Definition, LinkMember, Linked, Matches, Offers, Origin, Program, expression_of, memory_fault,
    next_record, size_at,
};
pub use resolving::{resolve, resolve_with};
