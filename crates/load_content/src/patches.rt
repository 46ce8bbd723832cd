//! Which records give patches.

ghost use Rattle.std.specs.Prelude.{◌≡◌, ◌<◌, ◌^◌, length, is_some};
ghost use Rattle.std.specs.List.{list_any};
ghost use Rattle.omf_format.specs.Reading.{records_of, IsBody};
ghost use Rattle.omf_format.specs.Super.{locations_left};
ghost use Rattle.omf_records.specs.View.{view, first};
ghost use Rattle.load_content.specs.Walk.{gives_patch, HasSpelling};

use omf_records::{Locations, Rec, Records};

/// Whether subrecords have a location.
fn has_location(bytes: &[u8]) -> bool
    requires { length bytes.now < 2 ^ 32 }
    ensures { result ≡ is_some (first (locations_left 0 0 bytes.now)) }
{
    let mut locations = Locations::of(bytes);
    locations.next().is_some()
}

/// Whether a record gives a patch; a SUPER without locations gives none.
fn gives_patch(rec: &Rec) -> bool
    requires { HasSpelling (view rec.now) }
    ensures { result ≡ gives_patch (view rec.now) }
{
    match rec {
        Rec::Reloc { .. }
        | Rec::InterSeg { .. }
        | Rec::ShortReloc { .. }
        | Rec::ShortInterSeg { .. } => true,
        Rec::Super { bytes, .. } => has_location(bytes),
        Rec::End
        | Rec::Const { .. }
        | Rec::LongConst { .. }
        | Rec::Space { .. }
        | Rec::Align { .. }
        | Rec::Org { .. }
        | Rec::Using { .. }
        | Rec::Strong { .. }
        | Rec::Label { .. }
        | Rec::Equate { .. }
        | Rec::Formula { .. }
        | Rec::Entry { .. } => false,
    }
}

/// Whether a record of the body gives a patch.
pub fn gives_patches(records: Records) -> bool
    requires { IsBody records }
    ensures { result ≡ list_any (λ found. gives_patch found.1) (records_of records.entry) }
{
    let mut records = records;
    'records: loop {
        match records.next() {
            Ok(None) => return false,
            Ok(Some(found)) => {
                if gives_patch(&found.1) {
                    return true;
                }
            }
            Err(_) => unreachable!(),
        }
    }
}
