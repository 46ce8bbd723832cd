//! The rows of a dictionary, one by one.

ghost use Rattle.std.specs.Prelude.{◌≡◌, ◌<◌, ◌≤◌, ◌+◌, ◌%◌, ◌^◌, length, map, take, drop, option_map, IfOk, IfErr};
ghost use Rattle.omf_format.specs.Number as numbers;
ghost use Rattle.lib_dict.specs.View.{outer_row};
ghost use Rattle.lib_dict.specs.Rows.{seen_row};
ghost use Rattle.lib_dict.specs.Tables.{FitsTables, IsNameAt, IsRowAnswer, rows_at, AreRowsIn, IsRowFault};

use crate::dictionary::Row;
use crate::fault::DictFault;
use crate::known::is_known;
use crate::listed::Outer;
use indexmap::IndexSet;
use omf_base::{first_items, items_after, number};
use omf_records::SegmentList;
use std::alloc::Global;

/// The bytes of a row.
pub const ROW: usize = 12;

/// What is looked up for each row: the first record and its file numbers, the third record and where its names start, the segments, and
/// what those after the dictionary define for others.
#[derive(Drop)]
pub struct Tables<'a, 'b> {
    pub first: &'a [u8],
    pub numbers: IndexSet<u16>,
    pub third: &'a [u8],
    pub starts: IndexSet<u32>,
    pub list: &'b SegmentList<'a>,
    pub known: IndexSet<Outer<'b>>,
}

/// The name that starts there.
fn name_at(third: &[u8], at: usize) -> &[u8]
    requires { IsNameAt third.now at }
    ensures value { result.now ≡ take (numbers.number_at 1 at third.now) (drop (at + 1) third.now) }
    ensures short { length result.now ≤ 255 }
{
    let size = number(third, at, 1) as usize;
    let name = items_after(third, at + 1);
    &name[..size]
}

/// The row of these 12 bytes, where the library bears it out: a name of the third record starts where it says, the first record
/// has its file number, and a segment that isn't a dictionary starts where it says and defines the name so.
fn row_of<'a>(tables: &Tables<'a, '_>, bytes: &[u8]) -> Option<Row<'a>>
    requires whole { length bytes.now ≡ 12 }
    requires fits { FitsTables tables.now }
    ensures { IsRowAnswer tables.now bytes.now (option_map seen_row result) }
{
    let start = number(bytes, 0, 4);
    let file = number(bytes, 4, 2) as u16;
    let private = number(bytes, 6, 2) != 0;
    let at = number(bytes, 8, 4);
    if !tables.starts.contains(&start) {
        return None;
    }
    if !tables.numbers.contains(&file) {
        return None;
    }
    let name = name_at(tables.third, start as usize);
    let outer = Outer {
        name,
        file: 0,
        private,
        at: u64::from(at),
    };
    if !is_known(&tables.known, outer) {
        return None;
    }
    Some(Row {
        name,
        file,
        private,
        at,
    })
}

/// The rows of the second record, whose bytes are at this displacement in the file.
pub fn rows_of<'a>(
    alloc: Global,
    tables: &Tables<'a, '_>,
    second: &[u8],
    at: u32,
) -> Result<Vec<Row<'a>>, DictFault>
    requires whole { length second.now % 12 ≡ 0 }
    requires fits { FitsTables tables.now }
    requires place { at + length second.now < 2 ^ 32 }
    ensures ok { IfOk result (λ rows. AreRowsIn tables.now.list.now (rows_at tables.now at second.now) rows.items) }
    ensures few { IfOk result (λ rows. length rows.items < 2 ^ 32) }
    ensures err { IfErr result (λ fault. IsRowFault fault (rows_at tables.now at second.now)) }
{
    let mut rows = Vec::with_capacity(alloc, second.len() / ROW)?;
    let mut rest = second;
    let mut place = at;
    'rows: while rest.len() >= ROW {
        match row_of(tables, first_items(rest, ROW)) {
            Some(row) => rows.push(row)?,
            None => return Err(DictFault::BadLibrary(place)),
        }
        rest = items_after(rest, ROW);
        place += ROW as u32;
    }
    Ok(rows)
}
