//! The loader, as C holds it: by a pointer in a struct of the caller's, over files that are handed in with each call.
#![tactic(auto)]

mod holder;
mod keeping;
mod pointer;
mod refusal;
mod store;

pub use holder::OmfLoader;
pub use keeping::{free_loader, make_loader};
pub use refusal::{DONE, MEMORY, MISUSED, OmfFacts, OmfRefusal, REFUSED, report};
pub use store::{HandedFiles, OmfStored};
