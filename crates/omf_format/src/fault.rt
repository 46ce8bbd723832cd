//! Why a file is refused: the first fault, with its place.

ghost use Rattle.std.specs.Prelude.{◌≡◌};
ghost use Rattle.omf_format.specs.declared.fault.HeaderFault.TheVariants as header;

use std::alloc::{AllocError, AllocFailed};

/// A header's field that a check names.
#[derive(Clone, Copy, Debug, PartialEq, Eq)]
pub enum Field {
    NumLen,
    Version,
    BankSize,
    Kind,
    NumSex,
    DispName,
    DispData,
    ResSpc,
}

/// Why a header is refused: the first check that fails, in their order.
#[derive(Clone, Copy, Debug, PartialEq, Eq)]
pub enum HeaderFault {
    /// The file ends first. The number of bytes from the segment's start to the file's end.
    Truncated(u32),
    /// A legal value that isn't read here.
    Unsupported(Field),
    /// A value that no segment may have.
    BadField(Field),
    Memory,
}

impl From<AllocError> for HeaderFault {
    ghost from_gives = { λ _ fault. fault ≡ header.Memory };

    fn from(_: AllocError) -> HeaderFault {
        HeaderFault::Memory
    }
}

/// What is wrong with a record: the first of its fields that fails.
#[derive(Clone, Copy, Debug, PartialEq, Eq)]
pub enum Flaw {
    /// The record runs past its segment, or the body ends without END.
    Cut,
    /// A code, type or value that isn't read here.
    Unread,
    /// A value that no record may have.
    Broken,
}

/// Why a record is refused. Displacements are in the file.
#[derive(Clone, Copy, Debug, PartialEq, Eq)]
pub enum RecordFault {
    /// The record runs past its segment, or the body ends without END: the segment's end.
    Truncated(u32),
    /// A code, type or value that isn't read here: the code, and its displacement.
    Unsupported(u8, u32),
    /// A value that no record may have: the displacement of the record's code.
    BadRecord(u32),
}

/// What kind of fault a file has.
#[derive(Clone, Copy, Debug, PartialEq, Eq)]
pub enum FileCause {
    Truncated,
    /// A header's field has a value that no segment may have.
    BadHeader,
    Unsupported,
    BadRecord,
    Memory,
}

/// The first fault of a file. A fault with the cause Memory has segment 0 and displacement 0.
#[derive(Clone, Copy, Debug, PartialEq, Eq)]
pub struct FileFault {
    pub cause: FileCause,
    /// The segment's number, from 1.
    pub segment: u32,
    /// The displacement in the file.
    pub at: u32,
}

impl From<AllocError> for FileFault {
    ghost use Rattle.std.specs.Prelude.{◌≡◌};
    ghost use Rattle.omf_format.specs.declared.fault.FileCause.TheVariants as causes;

    ghost from_gives = { λ _ fault. (fault.cause ≡ causes.Memory) × (fault.segment ≡ 0) × (fault.at ≡ 0) };

    fn from(_: AllocError) -> FileFault {
        FileFault {
            cause: FileCause::Memory,
            segment: 0,
            at: 0,
        }
    }
}

impl<T: Drop> From<AllocFailed<T>> for FileFault {
    ghost use Rattle.std.specs.Prelude.{◌≡◌};
    ghost use Rattle.omf_format.specs.declared.fault.FileCause.TheVariants as causes;

    ghost from_gives = { λ _ fault. (fault.cause ≡ causes.Memory) × (fault.segment ≡ 0) × (fault.at ≡ 0) };

    fn from(_: AllocFailed<T>) -> FileFault {
        FileFault {
            cause: FileCause::Memory,
            segment: 0,
            at: 0,
        }
    }
}
