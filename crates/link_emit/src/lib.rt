//! All of linking: from files to the load file, or the first fault.
#![tactic(auto)]

mod linking;

pub use link_file::{EquateValues, emit};
pub use link_resolve::LinkForm;
pub use linking::{link, link_with};
