//! What the records of a segment define and use.

ghost use Rattle.std.specs.Prelude.{◌≡◌, ◌<◌, ◌^◌, ◌++◌, List, OnOk};
ghost use Rattle.std.specs.List.{flat_map};
ghost use Rattle.omf_records.specs.Segments.{IsSound, segment_of_view};
ghost use Rattle.object_meaning.specs.Sizes.{records_with_offsets, body_size};
ghost use Rattle.link_meaning.specs.Member.{Member};
ghost use Rattle.object_meaning.specs.Defines.{defined_by};
ghost use Rattle.link_meaning.specs.Uses.{uses_of};
ghost use Rattle.link_meaning.specs.Search.{FoundDefinition};
ghost use Rattle.link_tables.specs.Definitions.{AreDefinitions, IsOf, founds_in};
ghost use Rattle.link_tables.specs.Uses.{at_place, HaveShortNames};

use crate::definitions::{Definitions, Origin};
use crate::reading::next_record;
use crate::sizes::size_at;
use crate::uses::{Uses, add_record};
use omf_records::SegmentView;
use std::alloc::AllocError;

/// Adds what the records of the member at this place of the list define and use, in one pass over them.
#[tactic(auto, unfolding(link_meaning::specs::Uses::uses_of))]
pub fn add_body<'a>(
    definitions: &mut Definitions<'a>,
    uses: &mut Uses<'a>,
    segment: &SegmentView<'a>,
    origin: Origin,
    place: u32,
) -> Result<(), AllocError>
    requires sound { IsSound segment.now }
    requires small { body_size (segment_of_view segment.now) < 2 ^ 32 }
    ensures defines { OnOk result ((fs : List FoundDefinition) (m : Member) → IsOf m origin → AreDefinitions fs definitions.old
        → AreDefinitions (fs ++ founds_in place m (flat_map (λ r. defined_by r.at r.location r.content) (records_with_offsets (segment_of_view segment.now)))) definitions.new) }
    ensures gave { OnOk result (uses.new ≡ uses.old ++ at_place place (uses_of (segment_of_view segment.now))) }
    ensures short { OnOk result (HaveShortNames uses.old → HaveShortNames uses.new) }
{
    let lab_len = segment.header.lab_len;
    let mut records = segment.records();
    let mut location = 0;
    'walk: loop {
        match next_record(&mut records) {
            None => return Ok(()),
            Some((at, rec)) => {
                definitions.add_record(&rec, location, origin, place)?;
                add_record(uses, &rec, lab_len, at, place)?;
                location = (u64::from(location) + size_at(&rec, location)) as u32;
            }
        }
    }
}
