//! Why no canonical file is written.

use omf_cells::BodyFault;
use omf_header::WriteHeaderFault;
use omf_records::PutFault;
use std::alloc::{AllocError, AllocFailed};

/// Why no segment is written.
#[derive(Clone, Copy, Debug, PartialEq, Eq)]
pub enum CompactWriteFault {
    /// The file would exceed 16,777,216 bytes.
    TooLong,
    Memory,
}

impl From<AllocError> for CompactWriteFault {
    ghost use Rattle.std.specs.Prelude.{◌≡◌};
    ghost use Rattle.omf_compact.specs.declared.write_fault.CompactWriteFault.TheVariants.{Memory};

    ghost from_gives = { λ _ fault. fault ≡ Memory };

    fn from(_: AllocError) -> CompactWriteFault {
        CompactWriteFault::Memory
    }
}

impl<T: Drop> From<AllocFailed<T>> for CompactWriteFault {
    ghost use Rattle.std.specs.Prelude.{◌≡◌};
    ghost use Rattle.omf_compact.specs.declared.write_fault.CompactWriteFault.TheVariants.{Memory};

    ghost from_gives = { λ _ fault. fault ≡ Memory };

    fn from(_: AllocFailed<T>) -> CompactWriteFault {
        CompactWriteFault::Memory
    }
}

impl From<BodyFault> for CompactWriteFault {
    ghost use Rattle.std.specs.Prelude.{◌≡◌};
    ghost use Rattle.omf_compact.specs.declared.write_fault.CompactWriteFault.TheVariants.{Memory};

    ghost from_gives = { λ _ fault. fault ≡ Memory };

    fn from(_: BodyFault) -> CompactWriteFault {
        CompactWriteFault::Memory
    }
}

impl From<PutFault> for CompactWriteFault {
    ghost use Rattle.std.specs.Prelude.{◌≡◌};
    ghost use Rattle.omf_compact.specs.declared.write_fault.CompactWriteFault.TheVariants.{Memory};

    ghost from_gives = { λ _ fault. fault ≡ Memory };

    fn from(_: PutFault) -> CompactWriteFault {
        CompactWriteFault::Memory
    }
}

impl From<WriteHeaderFault> for CompactWriteFault {
    ghost use Rattle.std.specs.Prelude.{◌≡◌, ◌↔◌};
    ghost use Rattle.omf_header.specs.declared.writing.WriteHeaderFault.TheVariants as header;
    ghost use Rattle.omf_compact.specs.declared.write_fault.CompactWriteFault.TheVariants.{TooLong};

    ghost from_gives = { λ given fault. (fault ≡ TooLong) ↔ (given ≡ header.TooLong) };

    fn from(given: WriteHeaderFault) -> CompactWriteFault {
        match given {
            WriteHeaderFault::TooLong => CompactWriteFault::TooLong,
            WriteHeaderFault::Memory => CompactWriteFault::Memory,
        }
    }
}
