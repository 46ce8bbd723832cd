//! What a loader holds, when it agrees with a state of the loader's machine, and the laws on agreement. The definitions that contracts cite are
//! in `specs/`.
#![tactic(auto)]

mod laws;

pub use laws::commands_have_one_reply;
