//! `dump`: the listing of a file.

use dump_lines::dump_file;
use omf_base::Spot;
use omf_making::{Maker, Making, cause_name, first_of, refused_line};
use omf_records::FileCause;
use std::alloc::{AllocError, Global};

pub struct Dump;

impl Maker for Dump {
    ghost use Rattle.omf_commands.specs.Dump.{DumpMakes};

    ghost makes = { λ _ files made. DumpMakes files made };

    fn make(&self, alloc: Global, files: Vec<Vec<u8>>) -> Result<Making, AllocError> {
        let fault = match dump_file(alloc, first_of(&files)) {
            Ok(text) => return Ok(Making::Bytes(text.into_bytes())),
            Err(fault) => fault,
        };
        match fault.cause {
            FileCause::Memory => Err(AllocError),
            FileCause::Truncated
            | FileCause::BadHeader
            | FileCause::Unsupported
            | FileCause::BadRecord => {
                let spot = Spot {
                    file: 1,
                    segment: fault.segment,
                    at: fault.at,
                };
                let line = refused_line(alloc, cause_name(fault.cause), None, spot);
                Ok(Making::Refusal(line.map_err(|_| AllocError)?))
            }
        }
    }
}
