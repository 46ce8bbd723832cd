//! What linking means: what a segment defines and uses, which segments are linked, what their names find, where they are, and the first
//! fault of every other input (GS/OS Reference, appendix F, and ORCA/M's linker; the order of search and of faults is this project's own).
//! The definitions that contracts cite are in `specs/`.
#![tactic(auto)]

mod fault;
mod form;
mod laws;
mod search;

pub use fault::{LinkCause, LinkFault};
pub use form::LinkForm;
pub use laws::{
    equates_have_one_value, files_have_one_answer, linkable_files_stand_for_their_cells,
    linked_files_are_loaded, linked_files_have_their_headers_and_cells,
    linked_files_stand_for_their_cells, offsets_are_least, records_without_a_fault_give_cells,
};
pub use search::{SearchKind, SearchStep};
