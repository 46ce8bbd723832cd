//! The records of bodies, borrowed from the file, and the segments of a file (GS/OS Reference, appendix F,
//! "Segment body").
#![tactic(auto)]

mod checks;
mod file_faults;
mod front;
mod labels;
mod laws;
mod layout;
mod list;
mod locations;
mod patches;
mod reading;
mod record;
mod segment;
mod writing;

pub use file_faults::{to_file_header_fault, to_file_record_fault};
pub use laws::{
    bodies_are_handed_out, files_are_read_in_one_way, records_are_spelled, segments_are_shown,
};
pub use list::{SegmentList, segments};
pub use locations::Locations;
pub use omf_format::{FileCause, FileFault, RecordFault};
pub use reading::Records;
pub use record::Rec;
pub use segment::SegmentView;
pub use writing::{PutFault, put_record};
