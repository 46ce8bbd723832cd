//! What is kept of a load file.

ghost use Rattle.std.specs.Prelude.{◌≡◌, length, map, IfOk};
ghost use Rattle.omf_format.specs.Header.{HeaderFields};
ghost use Rattle.omf_header.specs.View.{fields};
ghost use Rattle.loader_machine.specs.Heads.{head_of};
ghost use Rattle.loader_agrees.specs.Acts.{no_handle_of};
ghost use Rattle.loader_users.specs.Filling.{head_in};

use crate::user::UserSegment;
use loader_machine::SegmentHead;
use omf_cells::LoadFile;
use omf_header::Header;
use std::alloc::{AllocError, Global};

/// What is kept of a header.
pub fn head_from(header: &Header) -> SegmentHead
    ensures { result ≡ head_in (fields header.now) }
{
    SegmentHead {
        length: header.length,
        kind: header.kind.bits,
        bank_size: header.bank_size,
        align: header.align,
        org: header.org,
        entry: header.entry,
    }
}

/// The segments of a load file, none of which has a handle.
pub fn segments_of(alloc: Global, load: &LoadFile<'_>) -> Result<Vec<UserSegment>, AllocError>
    ensures heads { IfOk result (λ segments. map (λ s. s.head) segments.items ≡ map head_of load.now) }
    ensures handles { IfOk result (λ segments. map (λ s. s.handle) segments.items ≡ map no_handle_of (map (λ s. s.head) segments.items)) }
{
    let mut segments = Vec::new(alloc);
    'places: for place in 0..load.count() {
        let head = match load.header(place + 1) {
            Some(header) => head_from(header),
            None => unreachable!(),
        };
        segments.push(UserSegment { handle: None, head })?;
    }
    Ok(segments)
}
