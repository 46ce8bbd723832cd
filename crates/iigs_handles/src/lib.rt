//! A table of 4,096 slots, each with 256 generations. A handle names a slot under one generation, so a handle that
//! was released never reaches what the slot holds later.
#![tactic(auto)]

mod law;
mod table;

pub use iigs_meaning::{Handle, Slot, SlotContent, Stale};
pub use law::dead_stay_dead;
pub use table::{Handles, HandlesFault, SLOTS};
