//! Maps by name, which keep few names in a row and look many up.
#![tactic(auto)]

mod map;

pub use map::{NameMap, get_by_name, insert_by_name, insert_new_name};
