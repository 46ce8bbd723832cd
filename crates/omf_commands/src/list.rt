//! `list`: the source of an object.

ghost use Rattle.std.specs.Prelude.{◌≡◌, ◌≢◌, IfOk, MatchOption};
ghost use Rattle.omf_commands.specs.ListCauses.{list_cause_name};
ghost use Rattle.omf_commands.specs.Listings.{ReportsListFault};
ghost use Rattle.omf_making.specs.Made.{made_of};

use omf_base::Spot;
use omf_making::{Maker, Making, first_of, refused_line};
use std::alloc::{AllocError, Global};
use w65_list::{ListCause, ListFault, list_source};

pub struct Listing;

/// The name of a cause, as it is printed. `Memory` has none, and no other cause is without one.
fn cause_name(cause: ListCause) -> Option<&'static str>
    ensures { MatchOption result (cause ≡ ListCause.Memory) (λ name. (cause ≢ ListCause.Memory) × (name.now ≡ list_cause_name cause)) }
{
    match cause {
        ListCause::Truncated => Some("Truncated"),
        ListCause::BadHeader => Some("BadHeader"),
        ListCause::Unsupported => Some("Unsupported"),
        ListCause::BadRecord => Some("BadRecord"),
        ListCause::NotListable => Some("NotListable"),
        ListCause::TooLong => Some("TooLong"),
        ListCause::Memory => None,
    }
}

/// The line that says why there is no source, unless out of memory. The fault is in file 1.
fn refusal(alloc: Global, fault: ListFault) -> Result<Making, AllocError>
    ensures { IfOk result (λ made. ReportsListFault fault (made_of made)) }
{
    match cause_name(fault.cause) {
        Some(name) => {
            let spot = Spot {
                file: 1,
                segment: fault.segment,
                at: fault.at,
            };
            let line = refused_line(alloc, name, None, spot);
            Ok(Making::Refusal(line.map_err(|_| AllocError)?))
        }
        None => Err(AllocError),
    }
}

impl Maker for Listing {
    ghost use Rattle.omf_commands.specs.Listings.{ListMakes};

    ghost makes = { λ _ files made. ListMakes files made };

    fn make(&self, alloc: Global, files: Vec<Vec<u8>>) -> Result<Making, AllocError> {
        match list_source(alloc, first_of(&files)) {
            Ok(text) => Ok(Making::Bytes(text)),
            Err(fault) => refusal(alloc, fault),
        }
    }
}
