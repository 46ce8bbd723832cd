//! The listing of a file: a line for each segment, and a line for each of its records.

ghost use Rattle.std.specs.Prelude.{◌≡◌, ◌++◌, ◌<◌, ◌≤◌, ◌+◌, ◌-◌, ◌*◌, ◌^◌, length, take, codes, OnOk, IfOk, IfErr, if◌then◌else◌, nat_le, not, ◌&&◌, ◌==◌, [], nat_lt};
ghost use Rattle.std.specs.List.{flat_map};
ghost use Rattle.omf_format.specs.Field.{length_width_of};
ghost use Rattle.omf_format.specs.Reading.{records_of, IsBody};
ghost use Rattle.omf_header.specs.View.{fields};
ghost use Rattle.omf_records.specs.View.{view};
ghost use Rattle.omf_records.specs.Segments.{IsSound, IsRefused};
ghost use Rattle.omf_records.specs.Segments.{segment_of_view as shown_segment};
ghost use Rattle.dump_lines.specs.Listing.{quoted_name, hex_bytes, labelled_number, segment_line, hex_field, name_text, expression_text, constant_text, patch_text, label_text, formula_name, record_text, segment_text, listing_from, IsListing, HasSpelling};
ghost use Rattle.dump_lines.specs.Steps.{record_line, numbers_text, formula_text};

use omf_base::{Line, LineFault};
use omf_format::{BEXPR, EXPR, RELEXPR, ZEXPR};
use omf_header::Header;
use omf_records::{FileCause, FileFault, Rec, Records, SegmentList, SegmentView, segments};
use std::alloc::Global;

/// A byte of a name in quotes.
fn quoted_byte(byte: u8) -> u8
    ensures { result ≡ (if nat_le 0x20 byte && nat_le byte 0x7E && not (byte == 0x22) then byte else 0x3F) }
{
    if byte >= 0x20 && byte <= 0x7E && byte != b'"' {
        byte
    } else {
        b'?'
    }
}

/// Appends a name in quotes. A byte of it outside $20 to $7E, and a quote, is shown as `?`.
#[tactic(auto, unfolding(crate::specs::Listing::quoted_name))]
pub fn put_quoted(line: &mut Line, name: &[u8]) -> Result<(), LineFault>
    ensures { OnOk result (line.new ≡ line.old ++ quoted_name name.now) }
{
    line.text("\"")?;
    'bytes: for place in 0..name.len() {
        line.put(&[quoted_byte(name[place])])?;
    }
    line.text("\"")
}

/// Appends bytes in hexadecimal.
#[tactic(auto, unfolding(crate::specs::Listing::hex_bytes))]
fn put_hex(line: &mut Line, bytes: &[u8]) -> Result<(), LineFault>
    ensures { OnOk result (line.new ≡ line.old ++ hex_bytes bytes.now) }
{
    'bytes: for place in 0..bytes.len() {
        line.hex(u32::from(bytes[place]), 2)?;
    }
    Ok(())
}

/// The first 16 bytes, or all where there are no more.
fn front(bytes: &[u8]) -> &[u8]
    ensures { result.now ≡ take 16 bytes.now }
{
    &bytes[..bytes.len().min(16)]
}

/// Appends the first 16 bytes, and `..` after them where there are more.
fn put_first(line: &mut Line, bytes: &[u8]) -> Result<(), LineFault>
    ensures { OnOk result (line.new ≡ line.old ++ (hex_bytes (take 16 bytes.now) ++ (if nat_lt 16 (length bytes.now) then codes ".." else []))) }
{
    put_hex(line, front(bytes))?;
    if bytes.len() > 16 {
        return line.text("..");
    }
    Ok(())
}

/// Appends a label and a number in eight digits.
pub fn put_labelled(line: &mut Line, label: &str, n: u32) -> Result<(), LineFault>
    ensures { OnOk result (line.new ≡ line.old ++ labelled_number label.now n) }
{
    line.text(label)?;
    line.hex(n, 8)
}

/// Appends the numbers of a header.
fn put_numbers(line: &mut Line, header: &Header) -> Result<(), LineFault>
    ensures { OnOk result (line.new ≡ line.old ++ numbers_text (fields header.now)) }
{
    line.text(" kind ")?;
    line.hex(u32::from(header.kind.bits), 4)?;
    put_labelled(line, " length ", header.length)?;
    put_labelled(line, " resspc ", header.res_spc)?;
    put_labelled(line, " banksize ", header.bank_size)?;
    put_labelled(line, " align ", header.align)?;
    put_labelled(line, " org ", header.org)?;
    put_labelled(line, " entry ", header.entry)
}

/// Appends the names of a header.
fn put_names(line: &mut Line, header: &Header) -> Result<(), LineFault>
    ensures { OnOk result (line.new ≡ line.old ++ (codes " loadname " ++ quoted_name (fields header.now).load_name ++ codes " segname " ++ quoted_name (fields header.now).name)) }
{
    line.text(" loadname ")?;
    put_quoted(line, &header.load_name)?;
    line.text(" segname ")?;
    put_quoted(line, header.name.bytes())
}

/// Appends the line of a segment.
#[tactic(auto, unfolding(crate::specs::Listing::segment_line))]
fn put_segment_line(
    line: &mut Line,
    number: u32,
    start: u32,
    header: &Header,
) -> Result<(), LineFault>
    ensures { OnOk result (line.new ≡ line.old ++ segment_line number start (fields header.now)) }
{
    line.text("segment ")?;
    line.dec(number)?;
    put_labelled(line, " at ", start)?;
    put_numbers(line, header)?;
    put_names(line, header)?;
    line.text("\n")
}

/// Appends a space and a number in a given number of digits, 1 to 8.
pub fn put_field(line: &mut Line, digits: u32, n: u32) -> Result<(), LineFault>
    requires some { 1 ≤ digits }
    requires most { digits ≤ 8 }
    ensures { OnOk result (line.new ≡ line.old ++ hex_field digits n) }
{
    line.text(" ")?;
    line.hex(n, digits)
}

/// A byte of a name without quotes.
fn printable_byte(byte: u8) -> u8
    ensures { result ≡ (if nat_le 0x21 byte && nat_le byte 0x7E then byte else 0x3F) }
{
    if byte >= 0x21 && byte <= 0x7E {
        byte
    } else {
        b'?'
    }
}

/// Appends a space and a name. A byte of the name outside $21 to $7E is shown as `?`.
#[tactic(auto, unfolding(crate::specs::Listing::name_text))]
pub fn put_name(line: &mut Line, name: &[u8]) -> Result<(), LineFault>
    ensures { OnOk result (line.new ≡ line.old ++ name_text name.now) }
{
    line.text(" ")?;
    'bytes: for place in 0..name.len() {
        line.put(&[printable_byte(name[place])])?;
    }
    Ok(())
}

/// Appends all bytes of an expression.
#[tactic(auto, unfolding(crate::specs::Listing::expression_text))]
fn put_expression(line: &mut Line, expr: &[u8]) -> Result<(), LineFault>
    ensures { OnOk result (line.new ≡ line.old ++ expression_text expr.now) }
{
    line.text(" ")?;
    put_hex(line, expr)
}

/// Appends the number of constant bytes and the first of them.
#[tactic(auto, unfolding(crate::specs::Listing::constant_text))]
fn put_constant(line: &mut Line, bytes: &[u8]) -> Result<(), LineFault>
    requires { length bytes.now < 2 ^ 32 }
    ensures { OnOk result (line.new ≡ line.old ++ constant_text bytes.now) }
{
    put_field(line, 8, bytes.len() as u32)?;
    line.text(" ")?;
    put_first(line, bytes)
}

/// Appends the count and the shift of a patch.
#[tactic(auto, unfolding(crate::specs::Listing::patch_text))]
fn put_patch(line: &mut Line, count: u8, shift: i8) -> Result<(), LineFault>
    ensures { OnOk result (line.new ≡ line.old ++ patch_text count shift) }
{
    put_field(line, 2, u32::from(count))?;
    put_field(line, 2, u32::from(shift.cast_unsigned()))
}

/// How many digits show the length of a label: two for each of its bytes in the file.
#[tactic(auto, unfolding(omf_format::specs::Field::length_width_of))]
fn length_digits(version: u8) -> u32
    ensures value { result ≡ 2 * length_width_of version }
    ensures some { 1 ≤ result }
    ensures most { result ≤ 8 }
{
    if version == 1 { 2 } else { 4 }
}

/// Appends a label's name, its length, its type and its private byte.
#[tactic(auto, unfolding(crate::specs::Listing::label_text))]
fn put_label(
    line: &mut Line,
    version: u8,
    name: &[u8],
    size: u16,
    form: u8,
    private: u8,
) -> Result<(), LineFault>
    ensures { OnOk result (line.new ≡ line.old ++ label_text (length_width_of version) name.now size form private) }
{
    put_name(line, name)?;
    put_field(line, length_digits(version), u32::from(size))?;
    put_field(line, 2, u32::from(form))?;
    put_field(line, 2, u32::from(private))
}

/// Which formula the code means.
fn formula_name(code: u8) -> &'static str
    ensures { result.now ≡ formula_name code }
{
    match code {
        EXPR => " EXPR",
        ZEXPR => " ZEXPR",
        BEXPR => " BEXPR",
        RELEXPR => " RELEXPR",
        _ => " LEXPR",
    }
}

/// Appends a formula.
fn put_formula(line: &mut Line, code: u8, count: u8, n: u32, expr: &[u8]) -> Result<(), LineFault>
    ensures { OnOk result (line.new ≡ line.old ++ formula_text code count n expr.now) }
{
    line.text(formula_name(code))?;
    put_field(line, 2, u32::from(count))?;
    if code == RELEXPR {
        put_field(line, 8, n)?;
    }
    put_expression(line, expr)
}

/// Appends a record's name and a number of eight digits.
fn put_number(line: &mut Line, label: &str, n: u32) -> Result<(), LineFault>
    ensures { OnOk result (line.new ≡ line.old ++ (label.now ++ hex_field 8 n)) }
{
    line.text(label)?;
    put_field(line, 8, n)
}

/// Appends a record's name and its fields.
fn put_reloc(
    line: &mut Line,
    count: u8,
    shift: i8,
    location: u32,
    offset: u32,
) -> Result<(), LineFault>
    ensures { OnOk result (line.new ≡ line.old ++ (codes " RELOC" ++ patch_text count shift ++ hex_field 8 location ++ hex_field 8 offset)) }
{
    line.text(" RELOC")?;
    put_patch(line, count, shift)?;
    put_field(line, 8, location)?;
    put_field(line, 8, offset)
}

/// Appends the name and the fields of an INTERSEG.
fn put_interseg(
    line: &mut Line,
    patch: (u8, i8),
    location: u32,
    file: u16,
    segment: u16,
    offset: u32,
) -> Result<(), LineFault>
    ensures { OnOk result (line.new ≡ line.old
        ++ (codes " INTERSEG" ++ patch_text patch.0 patch.1 ++ hex_field 8 location ++ hex_field 4 file ++ hex_field 4 segment ++ hex_field 8 offset)) }
{
    line.text(" INTERSEG")?;
    put_patch(line, patch.0, patch.1)?;
    put_field(line, 8, location)?;
    put_field(line, 4, u32::from(file))?;
    put_field(line, 4, u32::from(segment))?;
    put_field(line, 8, offset)
}

/// Appends the name and the fields of a cRELOC.
fn put_short_reloc(
    line: &mut Line,
    count: u8,
    shift: i8,
    location: u16,
    offset: u16,
) -> Result<(), LineFault>
    ensures { OnOk result (line.new ≡ line.old ++ (codes " cRELOC" ++ patch_text count shift ++ hex_field 4 location ++ hex_field 4 offset)) }
{
    line.text(" cRELOC")?;
    put_patch(line, count, shift)?;
    put_field(line, 4, u32::from(location))?;
    put_field(line, 4, u32::from(offset))
}

/// Appends the name and the fields of a cINTERSEG.
fn put_short_interseg(
    line: &mut Line,
    patch: (u8, i8),
    location: u16,
    segment: u8,
    offset: u16,
) -> Result<(), LineFault>
    ensures { OnOk result (line.new ≡ line.old
        ++ (codes " cINTERSEG" ++ patch_text patch.0 patch.1 ++ hex_field 4 location ++ hex_field 2 segment ++ hex_field 4 offset)) }
{
    line.text(" cINTERSEG")?;
    put_patch(line, patch.0, patch.1)?;
    put_field(line, 4, u32::from(location))?;
    put_field(line, 2, u32::from(segment))?;
    put_field(line, 4, u32::from(offset))
}

/// Appends the name, the length and the type of a SUPER with `size` bytes of subrecords.
fn put_super(line: &mut Line, form: u8, size: u32) -> Result<(), LineFault>
    requires { size < 2 ^ 32 - 1 }
    ensures { OnOk result (line.new ≡ line.old ++ (codes " SUPER" ++ hex_field 8 (size + 1) ++ hex_field 2 form)) }
{
    put_number(line, " SUPER", size + 1)?;
    put_field(line, 2, u32::from(form))
}

/// Appends the name and the fields of an ENTRY.
fn put_entry(line: &mut Line, segment: u16, offset: u32, name: &[u8]) -> Result<(), LineFault>
    ensures { OnOk result (line.new ≡ line.old ++ (codes " ENTRY" ++ hex_field 4 segment ++ hex_field 8 offset ++ name_text name.now)) }
{
    line.text(" ENTRY")?;
    put_field(line, 4, u32::from(segment))?;
    put_field(line, 8, offset)?;
    put_name(line, name)
}

/// Appends a record's name and fields, of a segment of a version.
#[tactic(auto, unfolding(crate::specs::Listing::record_text))]
fn put_record(line: &mut Line, version: u8, rec: &Rec) -> Result<(), LineFault>
    requires { HasSpelling (view rec.now) }
    ensures { OnOk result (line.new ≡ line.old ++ record_text (length_width_of version) (view rec.now)) }
{
    match rec {
        Rec::End => line.text(" END"),
        Rec::Const { bytes } => {
            line.text(" CONST")?;
            put_constant(line, bytes)
        }
        Rec::LongConst { bytes } => {
            line.text(" LCONST")?;
            put_constant(line, bytes)
        }
        Rec::Align { n } => put_number(line, " ALIGN", *n),
        Rec::Org { n } => put_number(line, " ORG", *n),
        Rec::Space { n } => put_number(line, " DS", *n),
        Rec::Reloc {
            count,
            shift,
            location,
            offset,
        } => put_reloc(line, *count, *shift, *location, *offset),
        Rec::InterSeg {
            count,
            shift,
            location,
            file,
            segment,
            offset,
        } => put_interseg(line, (*count, *shift), *location, *file, *segment, *offset),
        Rec::ShortReloc {
            count,
            shift,
            location,
            offset,
        } => put_short_reloc(line, *count, *shift, *location, *offset),
        Rec::ShortInterSeg {
            count,
            shift,
            location,
            segment,
            offset,
        } => put_short_interseg(line, (*count, *shift), *location, *segment, *offset),
        Rec::Super { form, bytes } => put_super(line, *form, bytes.len() as u32),
        Rec::Using { name } => {
            line.text(" USING")?;
            put_name(line, name)
        }
        Rec::Strong { name } => {
            line.text(" STRONG")?;
            put_name(line, name)
        }
        Rec::Label {
            global,
            name,
            length,
            form,
            private,
        } => {
            line.text(if *global { " GLOBAL" } else { " LOCAL" })?;
            put_label(line, version, name, *length, *form, *private)
        }
        Rec::Equate {
            global,
            name,
            length,
            form,
            private,
            expr,
        } => {
            line.text(if *global { " GEQU" } else { " EQU" })?;
            put_label(line, version, name, *length, *form, *private)?;
            put_expression(line, expr)
        }
        Rec::Formula {
            code,
            count,
            n,
            expr,
        } => put_formula(line, *code, *count, *n, expr),
        Rec::Entry {
            segment,
            offset,
            name,
        } => put_entry(line, *segment, *offset, name),
    }
}

/// Appends the line of a record.
fn put_record_line(line: &mut Line, version: u8, at: u32, rec: &Rec) -> Result<(), LineFault>
    requires { HasSpelling (view rec.now) }
    ensures { OnOk result (line.new ≡ line.old ++ record_line (length_width_of version) (at, view rec.now)) }
{
    line.hex(at, 8)?;
    put_record(line, version, rec)?;
    line.text("\n")
}

/// Appends the lines of a body's records, of a segment of a version.
fn put_records(line: &mut Line, version: u8, records: Records) -> Result<(), LineFault>
    requires { IsBody records }
    ensures { OnOk result (line.new ≡ line.old ++ flat_map (record_line (length_width_of version)) (records_of records.entry)) }
{
    let mut records = records;
    'records: loop {
        match records.next() {
            Ok(None) => return Ok(()),
            Ok(Some(found)) => put_record_line(line, version, found.0, &found.1)?,
            Err(_) => unreachable!(),
        }
    }
}

/// Appends the lines of a segment and of its records.
#[tactic(auto, unfolding(crate::specs::Listing::segment_text))]
fn put_segment(line: &mut Line, number: u32, view: &SegmentView) -> Result<(), LineFault>
    requires { IsSound view.now }
    ensures { OnOk result (line.new ≡ line.old ++ segment_text number (shown_segment view.now)) }
{
    put_segment_line(line, number, view.start, &view.header)?;
    put_records(line, view.header.version, view.records())
}

/// The lines of all segments of a file.
fn dump_text(alloc: Global, list: &SegmentList) -> Result<Line, LineFault>
    ensures { IfOk result (λ text. text ≡ listing_from 1 list.now) }
{
    let mut line = Line::new(alloc);
    'segments: for place in 0..list.count() {
        match list.get(place + 1) {
            Some(view) => put_segment(&mut line, place + 1, view)?,
            None => unreachable!(),
        }
    }
    Ok(line)
}

/// The listing of a file, or its first fault: a line for each segment, in order, with its number from 1, where it starts and
/// what its header says, and after it a line for each of its records, with its displacement in the file, its name and its
/// fields.
pub fn dump_file(alloc: Global, file: &[u8]) -> Result<Line, FileFault>
    requires { length file.now < 2 ^ 32 }
    ensures listed { IfOk result (λ text. IsListing file.now text) }
    ensures refused { IfErr result (λ fault. IsRefused fault file.now) }
{
    let list = segments(alloc, file)?;
    match dump_text(alloc, &list) {
        Ok(text) => Ok(text),
        Err(LineFault::Memory) => Err(FileFault {
            cause: FileCause::Memory,
            segment: 0,
            at: 0,
        }),
    }
}
