//! What the segments of a library define for others.

ghost use Rattle.std.specs.Prelude.{◌≡◌, ◌<◌, ◌+◌, ◌^◌, ◌++◌, length, map, IfOk, OnOk};
ghost use Rattle.omf_records.specs.Segments.{segment_of_view, IsSound};
ghost use Rattle.lib_dict.specs.View.{outer_row};
ghost use Rattle.lib_dict.specs.Tables.{other_rows, following_rows};

use crate::listed::Outer;
use crate::outer::put_rows;
use omf_records::{SegmentList, SegmentView};
use std::alloc::{AllocError, Global};

/// The type of a dictionary.
pub const DICTIONARY: u8 = 0x08;

/// Appends the rows of a segment that isn't a dictionary.
fn put_other<'a>(rows: &mut Vec<Outer<'a>>, view: &'a SegmentView<'a>) -> Result<(), AllocError>
    requires { IsSound view.now }
    ensures { OnOk result (map outer_row rows.new.items ≡ map outer_row rows.old.items ++ other_rows (segment_of_view view.now)) }
{
    if view.header.kind.form() == DICTIONARY {
        return Ok(());
    }
    put_rows(rows, view, 0, 0)
}

/// What the segments after the first one define for others, dictionaries apart.
pub fn names_following<'a>(
    alloc: Global,
    list: &'a SegmentList<'a>,
) -> Result<Vec<Outer<'a>>, AllocError>
    requires { length list.now + 2 < 2 ^ 32 }
    ensures { IfOk result (λ rows. map outer_row rows.items ≡ following_rows list.now) }
{
    let mut rows = Vec::new(alloc);
    let mut passed = 1;
    'segments: loop {
        match list.get(passed + 1) {
            Some(view) => put_other(&mut rows, view)?,
            None => return Ok(rows),
        }
        passed += 1;
    }
}
