//! A workload of the whole chain: an object that is made of draws, and many calls of a loader that loaded its load file.
#![tactic(auto)]

mod draws;
mod objects;
mod rounds;
mod store;
mod summing;
mod working;

pub use draws::Draws;
pub use objects::object;
pub use store::ReliableFiles;
pub use working::{Worked, work};
