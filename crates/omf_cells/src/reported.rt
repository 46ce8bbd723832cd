//! Faults that any file may have, as those of a load file.

ghost use Rattle.std.specs.Prelude.{◌≡◌};
ghost use Rattle.load_meaning.specs.Loadable.{load_cause, as_load};
ghost use Rattle.load_meaning.specs.laws.Steps.{in_segment};

use load_meaning::{LoadCause, LoadFault};
use omf_format::FileCause;

/// A cause that a load file shares with every file.
fn load_cause(cause: FileCause) -> LoadCause
    ensures { result ≡ load_cause cause }
{
    match cause {
        FileCause::Truncated => LoadCause::Truncated,
        FileCause::BadHeader => LoadCause::BadHeader,
        FileCause::Unsupported => LoadCause::Unsupported,
        FileCause::BadRecord => LoadCause::BadRecord,
        FileCause::Memory => LoadCause::Memory,
    }
}

/// A fault that any file may have, in the segment with this number.
pub fn load_fault(reported: (FileCause, u32), segment: u32) -> LoadFault
    ensures { result ≡ in_segment segment (as_load reported) }
{
    LoadFault {
        cause: load_cause(reported.0),
        segment,
        at: reported.1,
    }
}
