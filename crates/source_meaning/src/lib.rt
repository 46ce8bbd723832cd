//! What a source with macro files means: the object that it is assembled to, or its first fault. The lines are those of
//! `macro_meaning`, and what they leave is of `asm_meaning`.
#![tactic(auto)]

mod laws;

pub use laws::{objects_are_files, sources_have_one_object};
