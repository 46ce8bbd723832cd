//! The loader's calls, for a loader in a struct of C's.
#![tactic(auto)]

mod answers;
mod calls;

pub use answers::{OmfEntered, OmfStarted};
pub use calls::{jsl, load_segment, poke, purge, restart, shut_down, unload_segment};
