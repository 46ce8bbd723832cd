//! The lines of the jump table.

ghost use Rattle.std.specs.Prelude.{◌≡◌, ◌++◌, ◌<◌, map, OnOk};
ghost use Rattle.load_meaning.specs.Table.{most_entries, file_entry, IsTableOf};
ghost use Rattle.link_map.specs.MapText.{numbered_texts, segment_text, entry_line, table_text};

use crate::members::{LoadLine, put_load_line};
use dump_lines::put_field;
use jump_table::{Table, Target, target_at};
use omf_base::{Line, LineFault};
use std::alloc::Global;

/// Appends the number of a load segment, and before it that of its file, where this isn't the linked file itself.
fn put_segment(line: &mut Line, file: u16, segment: u16) -> Result<(), LineFault>
    ensures { OnOk result (line.new ≡ line.old ++ segment_text file segment) }
{
    if file == 1 {
        return put_field(line, 4, u32::from(segment));
    }
    line.text(" ")?;
    line.dec(u32::from(file))?;
    line.text(":")?;
    line.hex(u32::from(segment), 4)
}

/// Appends the line of an entry: the table's number and the offset of the entry's code there, and where it leads.
#[tactic(auto, unfolding(crate::specs::MapText::entry_line))]
fn put_entry(line: &mut Line, number: u32, place: u32, target: Target) -> Result<(), LineFault>
    requires { place < most_entries }
    ensures { OnOk result (line.new ≡ line.old ++ entry_line number place target) }
{
    line.text("entry at")?;
    put_field(line, 4, number)?;
    put_field(line, 8, 8 + 14 * place + 10)?;
    line.text(" calls")?;
    put_segment(line, target.file, target.segment)?;
    put_field(line, 8, target.offset)?;
    line.text("\n")
}

/// Appends the lines of all entries of a table, whose bytes these are.
fn put_entries(line: &mut Line, number: u32, table: &Table, bytes: &[u8]) -> Result<(), LineFault>
    requires { IsTableOf (map file_entry table.now) bytes.now }
    ensures { OnOk result (line.new ≡ line.old ++ numbered_texts (entry_line number) 0 table.now) }
{
    let mut place = 0;
    'entries: while place < table.count() {
        put_entry(line, number, place, target_at(bytes, place as usize))?;
        place += 1;
    }
    Ok(())
}

/// Appends the lines of a table, which is the load segment with this number, and of its entries, where it has one.
pub fn put_table(
    alloc: Global,
    line: &mut Line,
    number: u32,
    table: &Table,
) -> Result<(), LineFault>
    ensures { OnOk result (line.new ≡ line.old ++ table_text number table.now) }
{
    if table.count() == 0 {
        return Ok(());
    }
    let bytes = match table.segment_bytes(alloc) {
        Ok(bytes) => bytes,
        Err(_) => return Err(LineFault::Memory),
    };
    let load = LoadLine {
        number,
        length: bytes.len() as u32,
        kind: 0x0002,
        align: 0,
        name: b"~JumpTable",
    };
    put_load_line(line, load)?;
    put_entries(line, number, table, bytes.as_slice())
}
