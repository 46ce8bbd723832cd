//! What the listing of an assembly is: its visited lines in order, each with the records that its line gives (this project's own
//! form).
#![tactic(auto)]

mod laws;

pub use laws::listings_are_of_objects;
