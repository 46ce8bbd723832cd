//! What is kept of a load segment: the pieces of its data, the places that it names and the bytes that its patches give
//! (GS/OS Reference, appendix F).
#![tactic(auto)]

mod body;
mod cell;
mod content;
mod data;
mod filled;
mod order;
mod patches;
mod pieces;
mod places;
mod spots;
mod targets;

pub use body::{is_longer, write_body};
pub use cell::Cell;
pub use data::{data_from, data_u8, near_u8};
pub use filled::{lone_piece, put_bytes};
pub use patches::gives_patches;
pub use pieces::{BytePiece, byte_at};
pub use places::{Places, PlacesFault};
pub use spots::{PatchSpot, size_of, spot_at, write_spots};
pub use targets::{SegmentContent, contents_of, is_place};
