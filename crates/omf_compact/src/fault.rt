//! Why no canonical file is written.

ghost use Rattle.std.specs.Prelude.{◌≡◌};
ghost use Rattle.omf_compact.specs.laws.Causes.{compact_cause, as_compact};

use load_meaning::{LoadCause, LoadFault};
use std::alloc::{AllocError, AllocFailed};

/// What is wrong: what is wrong with a load file, and what can't be written in the one fixed form.
#[derive(Clone, Copy, Debug, PartialEq, Eq)]
pub enum CompactCause {
    NotLoadFile,
    Truncated,
    BadHeader,
    Unsupported,
    BadRecord,
    Sequence,
    DataTooLong,
    PatchOutside,
    NoSuchTarget,
    DynamicTarget,
    BadTable,
    /// A cell is byte 1 or a later one of a number, and the cell before it isn't the byte before that one.
    BrokenPart,
    /// The file that is to be written would have more than 16,777,216 bytes.
    TooLong,
    Memory,
}

/// The first thing that is wrong, and where.
#[derive(Clone, Copy, Debug, PartialEq, Eq)]
pub struct CompactFault {
    pub cause: CompactCause,
    /// The number of the segment, from 1; 0 where there is none.
    pub segment: u32,
    /// A displacement in the file, or, at a table, a pathname segment and a broken part, the offset in the segment.
    pub at: u32,
}

/// The same cause.
fn cause_of(cause: LoadCause) -> CompactCause
    ensures { result ≡ compact_cause cause }
{
    match cause {
        LoadCause::NotLoadFile => CompactCause::NotLoadFile,
        LoadCause::Truncated => CompactCause::Truncated,
        LoadCause::BadHeader => CompactCause::BadHeader,
        LoadCause::Unsupported => CompactCause::Unsupported,
        LoadCause::BadRecord => CompactCause::BadRecord,
        LoadCause::Sequence => CompactCause::Sequence,
        LoadCause::DataTooLong => CompactCause::DataTooLong,
        LoadCause::PatchOutside => CompactCause::PatchOutside,
        LoadCause::NoSuchTarget => CompactCause::NoSuchTarget,
        LoadCause::DynamicTarget => CompactCause::DynamicTarget,
        LoadCause::BadTable => CompactCause::BadTable,
        LoadCause::Memory => CompactCause::Memory,
    }
}

/// The fault of a file that isn't a load file.
pub fn of_load(fault: LoadFault) -> CompactFault
    ensures { result ≡ as_compact fault }
{
    CompactFault {
        cause: cause_of(fault.cause),
        segment: fault.segment,
        at: fault.at,
    }
}

impl CompactFault {
    /// A fault without a place.
    pub(crate) const fn of(cause: CompactCause) -> CompactFault
        ensures { result ≡ record { cause = cause; segment = 0; at = 0 } }
    {
        CompactFault {
            cause,
            segment: 0,
            at: 0,
        }
    }
}

impl From<AllocError> for CompactFault {
    ghost use Rattle.std.specs.Prelude.{◌≡◌};
    ghost use Rattle.omf_compact.specs.declared.fault.CompactCause.TheVariants.{Memory};

    ghost from_gives = { λ _ fault. fault ≡ record { cause = Memory; segment = 0; at = 0 } };

    fn from(_: AllocError) -> CompactFault {
        CompactFault::of(CompactCause::Memory)
    }
}

impl<T: Drop> From<AllocFailed<T>> for CompactFault {
    ghost use Rattle.std.specs.Prelude.{◌≡◌};
    ghost use Rattle.omf_compact.specs.declared.fault.CompactCause.TheVariants.{Memory};

    ghost from_gives = { λ _ fault. fault ≡ record { cause = Memory; segment = 0; at = 0 } };

    fn from(_: AllocFailed<T>) -> CompactFault {
        CompactFault::of(CompactCause::Memory)
    }
}
