//! Lack of memory as a fault.

ghost use Rattle.std.specs.Prelude.{◌≡◌};
ghost use Rattle.link_program.specs.Memory.{memory_fault};

use link_meaning::{LinkCause, LinkFault};
use omf_base::Spot;

/// The fault when out of memory, which has no place.
pub fn memory_fault() -> LinkFault
    ensures { result ≡ memory_fault }
{
    LinkFault {
        cause: LinkCause::Memory,
        name: None,
        spot: Spot {
            file: 0,
            segment: 0,
            at: 0,
        },
    }
}
