//! What the System Loader's layers speak of: commands and faults of scripts, the machine and why it refuses. The
//! definitions that contracts cite are in `specs/`.
#![tactic(auto)]

mod faults;
mod script;
mod seen;

pub use faults::LoaderFault;
pub use script::{CommandName, ScriptCause, ScriptFault};
pub use seen::{Facts, Life, Presence, SegmentHead};
