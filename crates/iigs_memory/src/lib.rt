//! Memory of banks: where blocks are placed under handles, which are purged for them, and their bytes.
//!
//! `Banks` takes all of its memory when it is made. No other call takes any, so none refuses when out of memory.
#![tactic(auto)]

mod banks;
mod law;
mod part;
mod placed;

pub use banks::Banks;
pub use iigs_handles::Handle;
pub use iigs_meaning::{
    BanksFault, Block, BlockFault, BlockState, EmptyFault, PlaceFault, ShiftFault, Want,
};
pub use law::wants_go_to_one_address;
