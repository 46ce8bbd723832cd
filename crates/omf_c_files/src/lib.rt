//! Load files as C opens them: each is read and checked once, and kept behind a pointer in a struct of the caller's; what C sees of first
//! faults, headers and tables; and how a call answers.
#![tactic(auto)]

mod answer;
mod export;
mod fault;
mod header;
mod holder;
mod keeping;
mod opened;
mod parts;
mod pointer;
mod target;

pub use answer::{
    Answer, DONE, IS_OPEN, MEMORY, MISUSED, NO_FILE, NO_ITEM, NO_SEGMENT, OTHER_COUNT, REFUSED,
    SMALL, TOO_LONG, hand, write_answer,
};
pub use export::OmfExport;
pub use fault::{OmfFault, load_fault, to_omf_fault};
pub use header::OmfHeader;
pub use holder::OmfFileView;
pub use keeping::{close_file, open_file};
pub use target::OmfTarget;
