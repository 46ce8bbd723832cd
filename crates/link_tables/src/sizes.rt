//! How many cells records give.

ghost use Rattle.std.specs.Prelude.{◌≡◌, ◌+◌, ◌<◌, ◌^◌, ℕ};
ghost use Rattle.object_meaning.specs.Sizes.{size_at, body_size};
ghost use Rattle.link_tables.specs.Sizes.{in_32_bits};
ghost use Rattle.omf_records.specs.Segments.{IsSound, segment_of_view};
ghost use Rattle.omf_records.specs.View.{view};

use crate::reading::next_record;
use omf_base::padding;
use omf_records::{Rec, SegmentView};

/// How many cells a record gives that is at this place of its segment.
pub fn size_at(rec: &Rec, location: u32) -> u64
    ensures value { result ≡ size_at location (view rec.now) }
    ensures small { result < 2 ^ 63 }
{
    match rec {
        Rec::End => 0,
        Rec::Const { bytes } | Rec::LongConst { bytes } => bytes.len() as u64,
        Rec::Align { n } => u64::from(padding(*n, location)),
        Rec::Org { n } | Rec::Space { n } => u64::from(*n),
        Rec::Formula { count, .. } => u64::from(*count),
        Rec::Reloc { .. }
        | Rec::InterSeg { .. }
        | Rec::ShortReloc { .. }
        | Rec::ShortInterSeg { .. }
        | Rec::Super { .. }
        | Rec::Using { .. }
        | Rec::Strong { .. }
        | Rec::Label { .. }
        | Rec::Equate { .. }
        | Rec::Entry { .. } => 0,
    }
}

/// How many cells there are with one more record after `size` of them, where these numbers have 32 bits.
pub fn size_after(size: Option<u32>, rec: &Rec) -> Option<u32>
    ensures { (n : ℕ) → size ≡ in_32_bits n → result ≡ in_32_bits (n + size_at n (view rec.now)) }
{
    match size {
        None => None,
        Some(size) => {
            let next = u64::from(size) + size_at(rec, size);
            if next > u64::from(u32::MAX) {
                return None;
            }
            Some(next as u32)
        }
    }
}
