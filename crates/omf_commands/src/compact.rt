//! `compact`: the canonical form of a load file.

ghost use Rattle.std.specs.Prelude.{◌≡◌, ◌≢◌, IfOk, MatchOption};
ghost use Rattle.omf_commands.specs.CompactCauses.{compact_cause_name};
ghost use Rattle.omf_commands.specs.Compact.{ReportsFault};
ghost use Rattle.omf_making.specs.Made.{made_of};

use omf_base::Spot;
use omf_compact::{CompactCause, CompactFault, canonical};
use omf_making::{Maker, Making, first_of, refused_line};
use std::alloc::{AllocError, Global};

pub struct Compact;

/// The name of a cause, as it is printed. `Memory` has none, and no other cause is without one.
fn cause_name(cause: CompactCause) -> Option<&'static str>
    ensures { MatchOption result (cause ≡ CompactCause.Memory) (λ name. (cause ≢ CompactCause.Memory) × (name.now ≡ compact_cause_name cause)) }
{
    match cause {
        CompactCause::NotLoadFile => Some("NotLoadFile"),
        CompactCause::Truncated => Some("Truncated"),
        CompactCause::BadHeader => Some("BadHeader"),
        CompactCause::Unsupported => Some("Unsupported"),
        CompactCause::BadRecord => Some("BadRecord"),
        CompactCause::Sequence => Some("Sequence"),
        CompactCause::DataTooLong => Some("DataTooLong"),
        CompactCause::PatchOutside => Some("PatchOutside"),
        CompactCause::NoSuchTarget => Some("NoSuchTarget"),
        CompactCause::DynamicTarget => Some("DynamicTarget"),
        CompactCause::BadTable => Some("BadTable"),
        CompactCause::BrokenPart => Some("BrokenPart"),
        CompactCause::TooLong => Some("TooLong"),
        CompactCause::Memory => None,
    }
}

/// The line that says why no file is made, unless out of memory.
fn refusal(alloc: Global, fault: CompactFault) -> Result<Making, AllocError>
    ensures { IfOk result (λ made. ReportsFault fault (made_of made)) }
{
    match cause_name(fault.cause) {
        Some(name) => {
            let spot = Spot {
                file: 1,
                segment: fault.segment,
                at: fault.at,
            };
            let line = refused_line(alloc, name, None, spot);
            Ok(Making::Refusal(line.map_err(|_| AllocError)?))
        }
        None => Err(AllocError),
    }
}

impl Maker for Compact {
    ghost use Rattle.omf_commands.specs.Compact.{CompactMakes};

    ghost makes = { λ _ files made. CompactMakes files made };

    fn make(&self, alloc: Global, files: Vec<Vec<u8>>) -> Result<Making, AllocError> {
        match canonical(alloc, first_of(&files)) {
            Ok(bytes) => Ok(Making::Bytes(bytes)),
            Err(fault) => refusal(alloc, fault),
        }
    }
}
