//! What memory handles and memory of banks mean: slots and handles, wants, blocks and faults. The definitions that contracts cite are
//! in `specs/`.
#![tactic(auto)]

mod faults;
mod handles;
mod slots;
mod wants;

pub use faults::{BanksFault, BlockFault, EmptyFault, PlaceFault, ShiftFault};
pub use handles::{Handle, Stale};
pub use slots::{Slot, SlotContent};
pub use wants::{Block, BlockState, Want};
