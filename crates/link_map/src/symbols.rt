//! The lines of what a member defines.

ghost use Rattle.std.specs.Prelude.{◌≡◌, ◌++◌, ℕ, Some, Ok, OnOk, flat_map};
ghost use Rattle.omf_records.specs.Segments.{IsSound, segment_of_view};
ghost use Rattle.omf_records.specs.View.{view};
ghost use Rattle.link_meaning.specs.Member.{Member};
ghost use Rattle.link_meaning.specs.Layout.{load_headers};
ghost use Rattle.object_meaning.specs.Defines.{scope_of, outer_scope, title_of, defined_by, defined_in};
ghost use Rattle.link_program.specs.Linked.{member_at};
ghost use Rattle.link_file.specs.Valued.{HasPlace};
ghost use Rattle.link_map.specs.MapText.{scope_text, shift_text, value_text, symbol_text, symbol_line};
ghost use Rattle.link_map.specs.Listings.{scope_as, value_line, definition_line};
ghost use Rattle.link_map.specs.Standing.{HasSegment, HasRecord};

use crate::exports::put_export;
use dump_lines::{put_field, put_labelled, put_name};
use link_file::EquateValues;
use link_program::{next_record, size_at};
use omf_base::{Line, LineFault};
use omf_format::{Value, ValueFault};
use omf_records::{Rec, SegmentView};

/// Which lines are appended: those of what is defined, or those of the names of it that a run-time library file exports.
#[derive(Clone, Copy)]
pub enum Listed {
    Symbols,
    Exports,
}

/// Who sees a name: its segment alone, its unit, or all.
#[derive(Clone, Copy)]
pub enum Seen {
    Local,
    Private,
    Public,
}

/// Who sees a label or an equate.
fn seen_by(global: bool, private: u8) -> Seen
    ensures { scope_as result ≡ scope_of global private }
{
    if !global {
        return Seen::Local;
    }
    if private == 0 {
        Seen::Public
    } else {
        Seen::Private
    }
}

/// Who sees a segment's name.
fn title_seen_by(private: bool) -> Seen
    ensures { scope_as result ≡ outer_scope private }
{
    if private { Seen::Private } else { Seen::Public }
}

/// The word for who sees a name.
fn seen_word(seen: Seen) -> &'static str
    ensures { result.now ≡ scope_text (scope_as seen) }
{
    match seen {
        Seen::Local => "local",
        Seen::Private => "private",
        Seen::Public => "public",
    }
}

/// Appends how far a place is shifted, if it is.
fn put_shift(line: &mut Line, shift: i8) -> Result<(), LineFault>
    ensures { OnOk result (line.new ≡ line.old ++ shift_text shift) }
{
    if shift == 0 {
        return Ok(());
    }
    line.text(" shift")?;
    put_field(line, 2, u32::from(shift.cast_unsigned()))
}

/// Appends a number; or a place, with its load segment, its offset there and its shift.
fn put_value(line: &mut Line, value: Value) -> Result<(), LineFault>
    ensures { OnOk result (line.new ≡ line.old ++ value_text (Ok value)) }
{
    match value {
        Value::Fixed(n) => put_labelled(line, " is ", n),
        Value::At {
            file: _,
            segment,
            offset,
            shift,
        } => {
            line.text(" at")?;
            put_field(line, 4, u32::from(segment))?;
            put_field(line, 8, offset)?;
            put_shift(line, shift)
        }
    }
}

/// Appends the value, if there is one.
fn put_answer(line: &mut Line, answer: Result<Value, ValueFault>) -> Result<(), LineFault>
    ensures { OnOk result (line.new ≡ line.old ++ value_text answer) }
{
    match answer {
        Ok(value) => put_value(line, value),
        Err(_) => Ok(()),
    }
}

/// Appends the line of a definition: who sees it, its name, and its value.
#[tactic(auto, unfolding(crate::specs::MapText::symbol_text))]
fn put_symbol(
    line: &mut Line,
    scope: &str,
    name: &[u8],
    answer: Result<Value, ValueFault>,
) -> Result<(), LineFault>
    ensures { OnOk result (line.new ≡ line.old ++ symbol_text scope.now name.now answer) }
{
    line.text(scope)?;
    put_name(line, name)?;
    put_answer(line, answer)?;
    line.text("\n")
}

/// Appends the line of a name with this value.
fn put_value_line(
    line: &mut Line,
    values: &EquateValues,
    listed: Listed,
    seen: Seen,
    name: &[u8],
    answer: Result<Value, ValueFault>,
) -> Result<(), LineFault>
    ensures { OnOk result (line.new ≡ line.old ++ value_line listed (load_headers values.now.list) (scope_as seen) name.now answer) }
{
    match listed {
        Listed::Symbols => put_symbol(line, seen_word(seen), name, answer),
        Listed::Exports => match seen {
            Seen::Local | Seen::Private => Ok(()),
            Seen::Public => put_export(line, values.program(), name, answer),
        },
    }
}

/// Appends the line of the name of a member's segment, where it has one.
fn put_title(
    line: &mut Line,
    values: &EquateValues,
    listed: Listed,
    place: u32,
    segment: &SegmentView,
) -> Result<(), LineFault>
    requires { HasPlace values.now.list place 0 }
    ensures { OnOk result ((m : Member) → member_at values.now.list place ≡ Some m
        → line.new ≡ line.old ++ flat_map (definition_line listed values.now.list values.now.table place m) (title_of (segment_of_view segment.now))) }
{
    let name = segment.header.name.bytes();
    if name.is_empty() {
        return Ok(());
    }
    let seen = title_seen_by(segment.header.kind.is_private());
    put_value_line(
        line,
        values,
        listed,
        seen,
        name,
        Ok(values.place_in(place, 0)),
    )
}

/// Appends the line of what a record of a member defines, if it defines something. `location` of the member's cells are before it.
fn put_defined(
    line: &mut Line,
    values: &EquateValues,
    listed: Listed,
    place: u32,
    location: u32,
    rec: &Rec,
) -> Result<(), LineFault>
    requires { HasRecord values.now.list place location (view rec.now) }
    ensures { OnOk result ((m : Member) (at : ℕ) → member_at values.now.list place ≡ Some m
        → line.new ≡ line.old ++ flat_map (definition_line listed values.now.list values.now.table place m) (defined_by at location (view rec.now))) }
{
    match rec {
        Rec::Label {
            global,
            name,
            private,
            ..
        } => {
            let seen = seen_by(*global, *private);
            let answer = Ok(values.place_in(place, location));
            put_value_line(line, values, listed, seen, name, answer)
        }
        Rec::Equate {
            global,
            name,
            private,
            expr,
            ..
        } => {
            let seen = seen_by(*global, *private);
            let answer = values.value_in(place, location, expr);
            put_value_line(line, values, listed, seen, name, answer)
        }
        Rec::End
        | Rec::Const { .. }
        | Rec::LongConst { .. }
        | Rec::Align { .. }
        | Rec::Org { .. }
        | Rec::Space { .. }
        | Rec::Reloc { .. }
        | Rec::InterSeg { .. }
        | Rec::ShortReloc { .. }
        | Rec::ShortInterSeg { .. }
        | Rec::Super { .. }
        | Rec::Using { .. }
        | Rec::Strong { .. }
        | Rec::Formula { .. }
        | Rec::Entry { .. } => Ok(()),
    }
}

/// Appends the lines of all that the member at a place, from 1, defines, or of what of it is exported, its SEGNAME first.
pub fn put_listed(
    line: &mut Line,
    values: &EquateValues,
    listed: Listed,
    place: u32,
    segment: &SegmentView,
) -> Result<(), LineFault>
    requires sound { IsSound segment.now }
    requires there { HasSegment values.now.list place (segment_of_view segment.now) }
    ensures { OnOk result ((m : Member) → member_at values.now.list place ≡ Some m
        → line.new ≡ line.old ++ flat_map (definition_line listed values.now.list values.now.table place m) (defined_in (segment_of_view segment.now))) }
{
    let program = values.program();
    program.know_files();
    put_title(line, values, listed, place, segment)?;
    let mut records = segment.records();
    let mut location = 0;
    'walk: loop {
        match next_record(&mut records) {
            None => return Ok(()),
            Some(found) => {
                put_defined(line, values, listed, place, location, &found.1)?;
                location = (u64::from(location) + size_at(&found.1, location)) as u32;
            }
        }
    }
}

/// Appends the lines of all that the member at a place, from 1, defines, its SEGNAME first.
pub fn put_symbols(
    line: &mut Line,
    values: &EquateValues,
    place: u32,
    segment: &SegmentView,
) -> Result<(), LineFault>
    requires sound { IsSound segment.now }
    requires there { HasSegment values.now.list place (segment_of_view segment.now) }
    ensures { OnOk result ((m : Member) → member_at values.now.list place ≡ Some m
        → line.new ≡ line.old ++ flat_map (symbol_line values.now.list values.now.table place m) (defined_in (segment_of_view segment.now))) }
{
    put_listed(line, values, Listed::Symbols, place, segment)
}
