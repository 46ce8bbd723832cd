//! The lines of the names that a run-time library file exports.

ghost use Rattle.std.specs.Prelude.{◌≡◌, ◌++◌, List, ℕ, map, OnOk, flat_map};
ghost use Rattle.omf_header.specs.View.{fields};
ghost use Rattle.omf_format.specs.Record.{Entry};
ghost use Rattle.link_meaning.specs.Fitting.{length_of};
ghost use Rattle.link_meaning.specs.Layout.{load_headers};
ghost use Rattle.link_meaning.specs.LinkWritten.{export_at};
ghost use Rattle.link_file.specs.Exported.{entry_with};
ghost use Rattle.link_map.specs.MapText.{export_line};

use dump_lines::{put_field, put_name};
use link_program::Program;
use omf_base::{Line, LineFault};
use omf_format::{Value, ValueFault};
use omf_header::Header;

/// LENGTH of the load segment with this number.
fn length_of(headers: &[Header], number: u16) -> u32
    ensures { result ≡ length_of (map fields headers.now) number }
{
    match headers.get(usize::from(number).saturating_sub(1)) {
        Some(header) => header.length,
        None => 0,
    }
}

/// The place that a value is, where a name with this value is exported: it has no shift, and is below LENGTH of its load segment.
fn exported_place(headers: &[Header], answer: Result<Value, ValueFault>) -> Option<(u16, u32)>
    ensures { (name : List ℕ) → export_at (map fields headers.now) name answer ≡ entry_with name result }
{
    match answer {
        Ok(
            Value::At {
                file: _,
                segment,
                offset,
                shift,
            },
        ) => {
            if shift == 0 && offset < length_of(headers, segment) {
                return Some((segment, offset));
            }
            None
        }
        Ok(Value::Fixed(_)) | Err(_) => None,
    }
}

/// Appends the line of an exported name with its place.
#[tactic(auto, unfolding(crate::specs::MapText::export_line))]
fn put_export_line(line: &mut Line, name: &[u8], segment: u16, offset: u32) -> Result<(), LineFault>
    ensures { OnOk result (line.new ≡ line.old ++ export_line (Entry segment offset name.now)) }
{
    line.text("export")?;
    put_name(line, name)?;
    line.text(" at")?;
    put_field(line, 4, u32::from(segment))?;
    put_field(line, 8, offset)?;
    line.text("\n")
}

/// Appends the line of a name with this value, where it is exported.
pub fn put_export(
    line: &mut Line,
    program: &Program,
    name: &[u8],
    answer: Result<Value, ValueFault>,
) -> Result<(), LineFault>
    ensures { OnOk result (line.new ≡ line.old ++ flat_map export_line (export_at (load_headers program.now) name.now answer)) }
{
    match exported_place(program.load_headers(), answer) {
        Some((segment, offset)) => put_export_line(line, name, segment, offset),
        None => Ok(()),
    }
}
