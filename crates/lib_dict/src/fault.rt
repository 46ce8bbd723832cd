//! Why a dictionary isn't read, and why no library is made.

ghost use Rattle.std.specs.Prelude.{◌≡◌};

use omf_base::Spot;
use omf_format::FileFault;
use std::alloc::{AllocError, AllocFailed};

/// Why a file has no dictionary.
#[derive(Clone, Copy, Debug, PartialEq, Eq)]
pub enum DictFault {
    /// The first fault of the file's headers and records.
    File(FileFault),
    /// The first segment isn't of type $08, or there is none.
    NotLibrary,
    /// The dictionary isn't laid out as one, or says what the library doesn't have: the displacement in the file of the row, or
    /// of the dictionary where no row is to blame.
    BadLibrary(u32),
    Memory,
}

impl From<AllocError> for DictFault {
    ghost use Rattle.std.specs.Prelude.{◌≡◌};
    ghost use Rattle.lib_dict.specs.declared.fault.DictFault.TheVariants as dict;

    ghost from_gives = { λ _ fault. fault ≡ dict.Memory };

    fn from(_: AllocError) -> DictFault {
        DictFault::Memory
    }
}

impl<T: Drop> From<AllocFailed<T>> for DictFault {
    ghost use Rattle.std.specs.Prelude.{◌≡◌};
    ghost use Rattle.lib_dict.specs.declared.fault.DictFault.TheVariants as dict;

    ghost from_gives = { λ _ fault. fault ≡ dict.Memory };

    fn from(_: AllocFailed<T>) -> DictFault {
        DictFault::Memory
    }
}

/// What kind of fault the files of a library have.
#[derive(Clone, Copy, Debug, PartialEq, Eq)]
pub enum LibCause {
    Truncated,
    /// A header's field has a value that no segment may have.
    BadHeader,
    Unsupported,
    /// A record that no file may have, or a dictionary among the segments.
    BadRecord,
    /// The library would exceed 16,777,216 bytes.
    TooLong,
    Memory,
}

/// The first fault of the files.
#[derive(Clone, Copy, Debug, PartialEq, Eq)]
pub struct LibFault {
    pub cause: LibCause,
    /// Where it is; 0, 0, 0 for TooLong and Memory.
    pub spot: Spot,
}

impl From<AllocError> for LibFault {
    ghost use Rattle.std.specs.Prelude.{◌≡◌};
    ghost use Rattle.lib_dict.specs.declared.fault.LibCause.TheVariants as lib;

    ghost from_gives = { λ _ fault. (fault.cause ≡ lib.Memory) × (fault.spot ≡ record { file = 0; segment = 0; at = 0 }) };

    fn from(_: AllocError) -> LibFault {
        LibFault {
            cause: LibCause::Memory,
            spot: NOWHERE,
        }
    }
}

impl<T: Drop> From<AllocFailed<T>> for LibFault {
    ghost use Rattle.std.specs.Prelude.{◌≡◌};
    ghost use Rattle.lib_dict.specs.declared.fault.LibCause.TheVariants as lib;

    ghost from_gives = { λ _ fault. (fault.cause ≡ lib.Memory) × (fault.spot ≡ record { file = 0; segment = 0; at = 0 }) };

    fn from(_: AllocFailed<T>) -> LibFault {
        LibFault {
            cause: LibCause::Memory,
            spot: NOWHERE,
        }
    }
}

/// The spot of a fault that has no place.
pub(crate) const NOWHERE: Spot = Spot {
    file: 0,
    segment: 0,
    at: 0,
};
