//! What is made of files for C: listings, objects, load files, libraries, maps, sources and their expanded lines, each as an answer that is
//! handed to the caller; and the causes against them by number.
#![tactic(auto)]

mod causes;
mod fault;
mod file;
mod making;

pub use file::{OmfBytes, OmfFile};
pub use making::{
    assemble_to_answer, compact_to_answer, dump_to_answer, expand_to_answer, library_to_answer,
    link_to_answer, list_to_answer, map_to_answer,
};
