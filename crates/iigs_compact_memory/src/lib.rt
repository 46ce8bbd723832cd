//! Memory of banks in which movable blocks slide down: at a command, and where a placement finds no room otherwise.
//!
//! `CompactBanks` takes all of its memory when it is made. No other call takes any, so none refuses when out of memory.
#![tactic(auto)]

mod alls;
mod banks;
mod carry;
mod law;
mod needs;
mod place;
mod purge_bound;

pub use banks::CompactBanks;
pub use iigs_memory::{
    BanksFault, Block, BlockFault, BlockState, EmptyFault, Handle, PlaceFault, ShiftFault, Want,
};
pub use law::{no_address_rises, room_is_made_once};
