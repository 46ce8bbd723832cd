//! The content of a load segment as it grows, and what a record of a member puts into it: how a value fits, and the cells that it
//! gives.
#![tactic(auto)]

mod content;
mod context;
mod fit;
mod plain;
mod put;
mod record;

pub use content::{ByteStorage, LoadContent};
pub use context::{LinkContext, LoadLimits, RecordPlace, ValuedRecord};
pub use fit::length_of;
pub use record::put_record;
