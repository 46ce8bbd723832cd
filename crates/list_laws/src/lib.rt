//! That a listing is assembled to the same content: what its lines represent, and the laws on it.
#![tactic(auto)]

mod laws;

pub use laws::{files_have_one_listing, listings_are_read_again};
