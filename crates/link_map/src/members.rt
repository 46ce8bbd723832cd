//! The lines of load segments and of their members.

ghost use Rattle.std.specs.Prelude.{◌≡◌, ◌++◌, Some, OnOk};
ghost use Rattle.omf_format.specs.Header.{HeaderFields};
ghost use Rattle.omf_header.specs.View.{fields};
ghost use Rattle.link_meaning.specs.Member.{Member};
ghost use Rattle.link_meaning.specs.Layout.{load_headers};
ghost use Rattle.link_program.specs.Linked.{member_at};
ghost use Rattle.link_program.specs.Programs.{header_at};
ghost use Rattle.link_meaning.specs.LinkValues.{IsTable};
ghost use Rattle.link_map.specs.MapText.{numbered_texts, member_line, text_in, load_line, load_text, exports_text};
ghost use Rattle.link_map.specs.Listings.{exported_in};
ghost use Rattle.link_map.specs.Standing.{HasMember, HasLoad};

use crate::symbols::{Listed, put_listed, put_symbols};
use dump_lines::{put_labelled, put_quoted};
use link_file::EquateValues;
use link_meaning::LinkForm;
use link_program::LinkMember;
use omf_base::{Line, LineFault};
use omf_header::Header;

/// Appends the line of a member: its file and its segment there, its offset in its load segment, its LENGTH and its SEGNAME.
#[tactic(auto, unfolding(crate::specs::MapText::member_line))]
fn put_member_line(line: &mut Line, member: LinkMember, header: &Header) -> Result<(), LineFault>
    ensures { OnOk result (line.new ≡ line.old ++ member_line member.file member.segment member.offset (fields header.now)) }
{
    line.text("member ")?;
    line.dec(member.file)?;
    line.text(" ")?;
    line.dec(member.segment)?;
    put_labelled(line, " at ", member.offset)?;
    put_labelled(line, " length ", header.length)?;
    line.text(" name ")?;
    put_quoted(line, header.name.bytes())?;
    line.text("\n")
}

/// Appends the lines of the member at a place, from 1, and of what it defines, where it is one of this load segment.
fn put_member(
    line: &mut Line,
    values: &EquateValues,
    number: u32,
    place: u32,
) -> Result<(), LineFault>
    requires { HasMember values.now.list place }
    ensures { OnOk result ((m : Member) → member_at values.now.list place ≡ Some m
        → line.new ≡ line.old ++ text_in values.now.list values.now.table number place m) }
{
    let program = values.program();
    let member = match program.member(place) {
        Some(member) => member,
        None => unreachable!(),
    };
    if u32::from(member.load_segment) != number {
        return Ok(());
    }
    let segment = match program.view(place) {
        Some(segment) => segment,
        None => unreachable!(),
    };
    put_member_line(line, member, &segment.header)?;
    put_symbols(line, values, place, segment)
}

/// Appends the lines of all members of a load segment.
fn put_members(line: &mut Line, values: &EquateValues, number: u32) -> Result<(), LineFault>
    ensures { OnOk result (line.new ≡ line.old ++ numbered_texts (text_in values.now.list values.now.table number) 1 values.now.list) }
{
    let program = values.program();
    let mut place = 0;
    'members: while place < program.members() {
        place += 1;
        put_member(line, values, number, place)?;
    }
    Ok(())
}

/// What the line of a load segment shows: its number, LENGTH, KIND, ALIGN and SEGNAME.
#[derive(Clone, Copy)]
pub struct LoadLine<'e> {
    pub number: u32,
    pub length: u32,
    pub kind: u16,
    pub align: u32,
    pub name: &'e [u8],
}

/// Appends the line of a load segment.
#[tactic(auto, unfolding(crate::specs::MapText::load_line))]
pub fn put_load_line(line: &mut Line, load: LoadLine) -> Result<(), LineFault>
    ensures { OnOk result (line.new ≡ line.old ++ load_line load.entry.number load.entry.length load.entry.kind load.entry.align load.entry.name.now) }
{
    line.text("load ")?;
    line.dec(load.number)?;
    put_labelled(line, " length ", load.length)?;
    line.text(" kind ")?;
    line.hex(u32::from(load.kind), 4)?;
    put_labelled(line, " align ", load.align)?;
    line.text(" name ")?;
    put_quoted(line, load.name)?;
    line.text("\n")
}

/// Appends the lines of the load segment with a number and of its members.
fn put_load(line: &mut Line, values: &EquateValues, number: u32) -> Result<(), LineFault>
    requires { HasLoad values.now.list number }
    ensures { OnOk result ((f : HeaderFields) → header_at (load_headers values.now.list) number ≡ Some f
        → line.new ≡ line.old ++ load_text values.now.list values.now.table number f) }
{
    let program = values.program();
    let header = match program.load_header(number) {
        Some(header) => header,
        None => unreachable!(),
    };
    let load = LoadLine {
        number,
        length: header.length,
        kind: header.kind.bits,
        align: header.align,
        name: header.name.bytes(),
    };
    put_load_line(line, load)?;
    put_members(line, values, number)
}

/// Appends the lines of all load segments, each with its members.
pub fn put_loads(line: &mut Line, values: &EquateValues) -> Result<(), LineFault>
    ensures { OnOk result (line.new ≡ line.old ++ numbered_texts (load_text values.now.list values.now.table) 1 (load_headers values.now.list)) }
{
    let program = values.program();
    let mut number = 0;
    'loads: while number < program.load_count() {
        number += 1;
        put_load(line, values, number)?;
    }
    Ok(())
}

/// Appends the lines of what the member at a place, from 1, exports.
fn put_exported(line: &mut Line, values: &EquateValues, place: u32) -> Result<(), LineFault>
    requires { HasMember values.now.list place }
    ensures { OnOk result ((m : Member) → member_at values.now.list place ≡ Some m
        → line.new ≡ line.old ++ exported_in values.now.list values.now.table place m) }
{
    let program = values.program();
    match program.view(place) {
        Some(segment) => put_listed(line, values, Listed::Exports, place, segment),
        None => unreachable!(),
    }
}

/// Appends the lines of all names that a run-time library file exports; a program exports nothing.
pub fn put_exports(line: &mut Line, values: &EquateValues) -> Result<(), LineFault>
    ensures { OnOk result (IsTable values.now.list values.now.table → line.new ≡ line.old ++ exports_text values.now.list values.now.table) }
{
    let program = values.program();
    match program.form() {
        LinkForm::Program => return Ok(()),
        LinkForm::Runtime => {}
    }
    let mut place = 0;
    'members: while place < program.members() {
        place += 1;
        put_exported(line, values, place)?;
    }
    Ok(())
}
