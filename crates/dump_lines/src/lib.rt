//! The listing of a file in Object Module Format: a line for each segment, and a line for each of its records.
#![tactic(auto)]

mod dump;

pub use dump::{dump_file, put_field, put_labelled, put_name, put_quoted};
