//! The names that segments have for others.

ghost use Rattle.std.specs.Prelude.{◌≡◌, ◌<◌, ◌≤◌, ◌+◌, ◌^◌, ◌++◌, length, map, option_map, OnOk};
ghost use Rattle.omf_records.specs.View.{view};
ghost use Rattle.omf_records.specs.Segments.{segment_of_view, IsSound};
ghost use Rattle.omf_format.specs.Reading.{IsBody, records_of};
ghost use Rattle.lib_dict.specs.View.{outer_row, outer_of, record_rows};
ghost use Rattle.lib_dict.specs.Library.{segment_rows};

use crate::listed::Outer;
use omf_records::{Rec, Records, SegmentView};
use std::alloc::AllocError;

/// The name that a record defines for others, and whether it is private.
fn outer_of<'a>(rec: &Rec<'a>) -> Option<(&'a [u8], bool)>
    ensures { option_map (λ found. (found.0.now, found.1)) result ≡ outer_of (view rec.now) }
{
    match *rec {
        Rec::Label {
            global: true,
            name,
            private,
            ..
        }
        | Rec::Equate {
            global: true,
            name,
            private,
            ..
        } => Some((name, private != 0)),
        Rec::Label { .. }
        | Rec::Equate { .. }
        | Rec::End
        | Rec::Const { .. }
        | Rec::LongConst { .. }
        | Rec::Align { .. }
        | Rec::Org { .. }
        | Rec::Space { .. }
        | Rec::Reloc { .. }
        | Rec::InterSeg { .. }
        | Rec::ShortReloc { .. }
        | Rec::ShortInterSeg { .. }
        | Rec::Super { .. }
        | Rec::Using { .. }
        | Rec::Strong { .. }
        | Rec::Formula { .. }
        | Rec::Entry { .. } => None,
    }
}

/// Appends a row for each record of a body that defines a name for others, in order. The segment starts there, in the file with
/// this number.
fn put_records<'a>(
    rows: &mut Vec<Outer<'a>>,
    records: Records<'a>,
    file: u16,
    at: u64,
) -> Result<(), AllocError>
    requires body { IsBody records }
    requires narrow { records.layout.lab_len ≤ 255 }
    ensures { OnOk result (map outer_row rows.new.items ≡ map outer_row rows.old.items ++ record_rows file at (records_of records.entry)) }
{
    let mut records = records;
    'records: loop {
        match records.next() {
            Ok(None) => return Ok(()),
            Ok(Some(found)) => match outer_of(&found.1) {
                Some((name, private)) => rows.push(Outer {
                    name,
                    file,
                    private,
                    at,
                })?,
                None => {}
            },
            Err(_) => unreachable!(),
        }
    }
}

/// Appends the rows of a segment of the file with this number, which begins at the displacement `front`: one for its SEGNAME,
/// where it has one, and one for each GLOBAL and GEQU.
pub fn put_rows<'a>(
    rows: &mut Vec<Outer<'a>>,
    view: &'a SegmentView<'a>,
    file: u16,
    front: u64,
) -> Result<(), AllocError>
    requires sound { IsSound view.now }
    requires fits { front + view.now.start < 2 ^ 64 }
    ensures { OnOk result (map outer_row rows.new.items ≡ map outer_row rows.old.items ++ segment_rows file front (segment_of_view view.now)) }
{
    let at = front + u64::from(view.start);
    let title = view.header.name.bytes();
    if !title.is_empty() {
        rows.push(Outer {
            name: title,
            file,
            private: view.header.kind.is_private(),
            at,
        })?;
    }
    let _lab_len = view.header.lab_len;
    put_records(rows, view.records(), file, at)
}
