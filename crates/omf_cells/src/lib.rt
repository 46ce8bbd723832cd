//! Load files as lists of cells: what each segment holds in memory before it has a place, and why a file isn't loaded
//! (GS/OS Reference, appendix F).
#![tactic(auto)]

mod ends;
mod front;
mod laws;
mod load;
mod reading;
mod records;
mod reported;
mod shape;
mod whole;

pub use laws::{
    faults_keep_their_places, load_files_are_read_in_one_way, load_segments_are_sound,
    load_segments_have_length_cells,
};
pub use load::{LoadFile, patch_into};
pub use load_content::{Cell, Places, PlacesFault};
pub use load_meaning::{LoadCause, LoadFault, Target};
pub use load_tables::Export;
pub use load_writer::{
    Body, BodyFault, Patch, bodies_stand_for_their_cells, body_of, files_stand_for_their_cells,
    locations_are_read_again, put_body, put_plain_body,
};
pub use reading::{read_load, read_runtime};
