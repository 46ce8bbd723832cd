//! Laws above the linker's meaning: the names of a linked file are read back, each formula spells the tree of its value, what the linked
//! cells name is in the file itself, and the patches of a SUPER record are those of its pages. The definitions that contracts cite are in
//! `specs/`.
#![tactic(auto)]

mod laws;

pub use laws::{
    formulas_are_spelled, linked_names_are_read_back, parts_are_of_the_file, patches_are_by_pages,
};
