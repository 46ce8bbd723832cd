//! The bodies of load segments, as a linker writes them (GS/OS Reference, appendix F, "Segment body").
#![tactic(auto)]

mod by_form;
mod choice;
mod pages;
mod plain_body;
mod written;
mod written_data;
mod written_laws;

pub use plain_body::put_plain_body;
pub use written::{Body, BodyFault, Patch, body_of, put_body};
pub use written_data::stored_length;
pub use written_laws::{
    bodies_stand_for_their_cells, files_stand_for_their_cells, locations_are_read_again,
};
