//! Every input has an answer: beside the laws that say *at most one*, the laws that say *one at least*. The definitions that contracts cite are
//! in `specs/`.
#![tactic(auto)]

mod laws;

pub use laws::{
    commands_are_answered, dumps_are_answered, files_are_answered, libraries_are_answered,
    links_are_answered, load_files_are_answered, load_files_are_compacted, scripts_are_answered,
    sources_are_listed, wants_are_answered,
};
