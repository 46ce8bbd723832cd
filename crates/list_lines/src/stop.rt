//! Why writing a listing stops.

use omf_base::LineFault;
use std::alloc::AllocError;

/// Why writing stops.
#[derive(Clone, Copy, Debug, PartialEq, Eq)]
pub enum LineStop {
    /// There is no line for what is here.
    NotListable,
    /// Out of memory.
    Memory,
}

impl From<AllocError> for LineStop {
    ghost use Rattle.std.specs.Prelude.{◌≡◌};
    ghost use Rattle.list_lines.specs.declared.stop.LineStop.TheVariants.{Memory};

    ghost from_gives = { λ _ stop. stop ≡ Memory };

    fn from(_: AllocError) -> LineStop {
        LineStop::Memory
    }
}

impl From<LineFault> for LineStop {
    ghost use Rattle.std.specs.Prelude.{◌≡◌};
    ghost use Rattle.list_lines.specs.declared.stop.LineStop.TheVariants.{Memory};

    ghost from_gives = { λ _ stop. stop ≡ Memory };

    fn from(_: LineFault) -> LineStop {
        LineStop::Memory
    }
}
