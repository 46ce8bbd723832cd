//! What a library's segments define for others, to be looked up by row.

ghost use Rattle.std.specs.Prelude.{◌≡◌, ◌+◌, ◌<◌, ◌^◌, length, map, IfOk};
ghost use Rattle.std.specs.List.{list_any};
ghost use Rattle.lib_dict.specs.View.{outer_row};
ghost use Rattle.lib_dict.specs.Tables.{same_row, HoldsRows, following_rows};

use crate::listed::Outer;
use crate::names_following::names_following;
use indexmap::IndexSet;
use omf_records::SegmentList;
use std::alloc::{AllocError, Global};

/// These rows, each once.
fn known_rows<'a>(alloc: Global, rows: &Vec<Outer<'a>>) -> Result<IndexSet<Outer<'a>>, AllocError>
    ensures { IfOk result (λ known. HoldsRows (map outer_row known.keys) (map outer_row rows.now.items)) }
{
    let mut known = IndexSet::with_capacity(alloc, rows.len())?;
    'rows: for row in rows {
        known.insert(*row)?;
    }
    Ok(known)
}

/// What a library's segments after its dictionary define for others.
pub fn known_in<'a>(
    alloc: Global,
    list: &'a SegmentList<'a>,
) -> Result<IndexSet<Outer<'a>>, AllocError>
    requires { length list.now + 2 < 2 ^ 32 }
    ensures { IfOk result (λ known. HoldsRows (map outer_row known.keys) (following_rows list.now)) }
{
    let rows = names_following(alloc, list)?;
    let known = known_rows(alloc, &rows);
    drop(rows);
    known
}

/// The row is among those.
pub fn is_known(known: &IndexSet<Outer>, row: Outer) -> bool
    ensures { result ≡ list_any (same_row (outer_row row.entry)) (map outer_row known.now.keys) }
{
    known.contains(&row)
}
