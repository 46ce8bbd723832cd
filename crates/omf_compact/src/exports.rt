//! The ENTRY records of a written segment.

ghost use Rattle.std.specs.Prelude.{◌≡◌, ◌+◌, ◌++◌, Some, IfOk, IfErr, OnOk};
ghost use Rattle.omf_format.specs.File.{Segment, segment_at};
ghost use Rattle.omf_compact.specs.laws.Writing.{IsKnown, HasSegment, AtExports, entries_text};

use crate::write_fault::CompactWriteFault;
use omf_cells::LoadFile;
use omf_records::{Rec, put_record};

/// Appends the ENTRY records of the segment with this number, which are those of the names from a place on that the file exports. Returns
/// the place after them.
pub fn put_exports(
    out: &mut Vec<u8>,
    load: &LoadFile,
    number: u16,
    place: u32,
) -> Result<u32, CompactWriteFault>
    requires known { IsKnown load.now }
    requires there { HasSegment load.now number }
    requires at { AtExports load.now number place }
    ensures ok { OnOk result ((s : Segment) → segment_at load.now number ≡ Some s → out.new.items ≡ out.old.items ++ entries_text s) }
    ensures next { IfOk result (λ next. AtExports load.now (number + 1) next) }
    ensures memory_alone { IfErr result (λ fault. fault ≡ CompactWriteFault.Memory) }
{
    let end = load.exports();
    let mut place = place;
    'exports: while place < end {
        let export = match load.export(place) {
            Some(export) => export,
            None => unreachable!(),
        };
        if export.holder != number {
            return Ok(place);
        }
        put_record(
            out,
            &Rec::Entry {
                segment: export.segment,
                offset: export.offset,
                name: export.name,
            },
        )?;
        place += 1;
    }
    Ok(place)
}
