//! Where blocks lie among banks of memory, under handles, without their bytes: where a want goes, and which blocks are
//! purged for it.
//!
//! `Places` takes all of its memory when it is made. No other call takes any, so none refuses when out of memory.
#![tactic(auto)]

mod bank_map;
mod fixed;
mod layout;
mod marks;
mod moves;
mod open;
mod places;
mod runs;
mod search;
mod slide;
mod spots;
mod table;
mod tried;

pub use places::BlockPlaces;
pub use table::PlacedBlock;
