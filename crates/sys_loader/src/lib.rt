//! The System Loader: programs in memory of banks.
#![tactic(auto)]

mod answers;
mod blocks;
mod dynamic;
mod jsl;
mod load;
mod loader;
mod poke;
mod purge;
mod restart;
mod shutdown;
mod unload;

pub use answers::{Entered, Info, Started};
pub use iigs_meaning::{BanksFault, BlockState, Handle, Want};
pub use loader::Loader;
pub use loader_machine::{Facts, LoaderFault, Presence};
