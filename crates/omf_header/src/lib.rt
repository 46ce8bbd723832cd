//! Headers of segments (GS/OS Reference, appendix F, "Segment header").
#![tactic(auto)]

mod displacement;
mod header;
mod kind;
mod reading;
mod segment_writer;
mod writing;

pub use displacement::displacement_of;
pub use header::Header;
pub use kind::Kind;
pub use omf_format::{Field, HeaderFault};
pub use reading::{read_header, version_of};
pub use segment_writer::{
    close_segment, header_before, header_size, put_front, put_room, recall_header_size,
};
pub use writing::{MAX_FILE, WriteHeaderFault, write_header};
