//! Writing records of version 2: names with a length byte, as under LABLEN 0.

ghost use Rattle.std.specs.Prelude.{◌≡◌, ◌+◌, ◌<◌, ◌^◌, ◌++◌, ◌∷◌, [], length, OnOk, OnErr};
ghost use Rattle.byteorder.specs.Endian.{little_bytes};
ghost use Rattle.omf_format.specs.Field.{written_layout, shift_byte, name_text, IsName};
ghost use Rattle.omf_format.specs.Record.{Formula, Entry, spelling, IsRecord};
ghost use Rattle.omf_records.specs.View.{view};

use crate::record::Rec;
use omf_format::{
    ALIGN, DS, ENTRY, EQU, GEQU, GLOBAL, INTERSEG, LCONST, LOCAL, ORG, RELEXPR, RELOC,
    SHORT_INTERSEG, SHORT_RELOC, STRONG, SUPER, USING,
};
use std::alloc::AllocError;

/// Why no record was written.
#[derive(Clone, Copy, Debug, PartialEq, Eq)]
pub enum PutFault {
    Memory,
}

impl From<AllocError> for PutFault {
    ghost use Rattle.std.specs.Prelude.{◌≡◌};
    ghost use Rattle.omf_records.specs.declared.writing.PutFault.TheVariants.{Memory};

    ghost from_gives = { λ _ fault. fault ≡ Memory };

    fn from(_: AllocError) -> PutFault {
        PutFault::Memory
    }
}

/// Appends all four, or nothing.
fn put_all(
    out: &mut Vec<u8>,
    front: &[u8],
    second: &[u8],
    third: &[u8],
    last: &[u8],
) -> Result<(), PutFault>
    requires front { length front.now < 2 ^ 32 }
    requires second { length second.now < 2 ^ 32 }
    requires third { length third.now < 2 ^ 32 }
    ensures ok { OnOk result (out.new.items ≡ out.old.items ++ (front.now ++ (second.now ++ (third.now ++ last.now)))) }
    ensures err { OnErr result (out.new.items ≡ out.old.items) }
{
    out.reserve(front.len() + second.len() + third.len() + last.len())?;
    out.extend_from_slice(front)?;
    out.extend_from_slice(second)?;
    out.extend_from_slice(third)?;
    out.extend_from_slice(last)?;
    Ok(())
}

/// Appends both, or neither.
fn put_both(out: &mut Vec<u8>, front: &[u8], bytes: &[u8]) -> Result<(), PutFault>
    requires { length front.now < 2 ^ 32 }
    ensures ok { OnOk result (out.new.items ≡ out.old.items ++ (front.now ++ bytes.now)) }
    ensures err { OnErr result (out.new.items ≡ out.old.items) }
{
    put_all(out, front, &[], &[], bytes)
}

/// A number of four bytes.
fn four_bytes(n: u32) -> [u8; 4]
    ensures { result ≡ little_bytes 4 n }
{
    n.to_le_bytes()
}

/// A number of two bytes.
fn word(n: u16) -> [u8; 2]
    ensures { result ≡ little_bytes 2 n }
{
    n.to_le_bytes()
}

/// Appends a code and a number of four bytes.
fn put_number(out: &mut Vec<u8>, code: u8, n: u32) -> Result<(), PutFault>
    ensures ok { OnOk result (out.new.items ≡ out.old.items ++ (code ∷ little_bytes 4 n)) }
    ensures err { OnErr result (out.new.items ≡ out.old.items) }
{
    put_both(out, &[code], &four_bytes(n))
}

/// A code, and the count and the shift of a patch.
fn patch(code: u8, count: u8, shift: i8) -> [u8; 3]
    ensures { result ≡ code ∷ count ∷ shift_byte shift ∷ [] }
{
    [code, count, shift.cast_unsigned()]
}

/// Two numbers of two bytes.
fn words(first: u16, second: u16) -> [u8; 4]
    ensures { result ≡ little_bytes 2 first ++ little_bytes 2 second }
{
    let [a, b] = word(first);
    let [c, d] = word(second);
    [a, b, c, d]
}

/// Appends the bytes of `front`, a location and an offset.
fn put_reloc(out: &mut Vec<u8>, front: &[u8], location: u32, offset: u32) -> Result<(), PutFault>
    requires { length front.now < 2 ^ 32 }
    ensures ok { OnOk result (out.new.items ≡ out.old.items ++ (front.now ++ (little_bytes 4 location ++ little_bytes 4 offset))) }
    ensures err { OnErr result (out.new.items ≡ out.old.items) }
{
    put_all(out, front, &[], &four_bytes(location), &four_bytes(offset))
}

/// Appends the bytes of `front`, a location, a file, a segment and an offset.
fn put_interseg(
    out: &mut Vec<u8>,
    front: &[u8],
    location: u32,
    file: u16,
    segment: u16,
    offset: u32,
) -> Result<(), PutFault>
    requires { length front.now < 2 ^ 32 }
    ensures ok { OnOk result (out.new.items ≡ out.old.items
        ++ (front.now ++ (little_bytes 4 location ++ (little_bytes 2 file ++ (little_bytes 2 segment ++ little_bytes 4 offset))))) }
    ensures err { OnErr result (out.new.items ≡ out.old.items) }
{
    put_all(
        out,
        front,
        &four_bytes(location),
        &words(file, segment),
        &four_bytes(offset),
    )
}

/// The length, the type and the private byte of a label.
fn attributes(size: u16, form: u8, private: u8) -> [u8; 4]
    ensures { result ≡ (little_bytes 2 size ++ form ∷ private ∷ []) }
{
    let [low, high] = word(size);
    [low, high, form, private]
}

/// Appends a code and a name, the name's length before it, and two texts after it.
#[tactic(auto, unfolding(omf_format::specs::Field::name_text))]
fn put_name(
    out: &mut Vec<u8>,
    code: u8,
    name: &[u8],
    attributes: &[u8],
    expr: &[u8],
) -> Result<(), PutFault>
    requires name { IsName 0 name.now }
    requires attributes { length attributes.now < 2 ^ 32 }
    ensures ok { OnOk result (out.new.items ≡ out.old.items ++ (code ∷ name_text 0 name.now ++ (attributes.now ++ expr.now))) }
    ensures err { OnErr result (out.new.items ≡ out.old.items) }
{
    put_all(out, &[code, name.len() as u8], name, attributes, expr)
}

/// Appends an ENTRY record.
#[tactic(auto, unfolding(omf_format::specs::Record::spelling, omf_format::specs::Field::name_text))]
fn put_entry(out: &mut Vec<u8>, segment: u16, offset: u32, name: &[u8]) -> Result<(), PutFault>
    requires { IsName 0 name.now }
    ensures ok { OnOk result (out.new.items ≡ out.old.items ++ spelling written_layout (Entry segment offset name.now)) }
    ensures err { OnErr result (out.new.items ≡ out.old.items) }
{
    let [low, high] = word(segment);
    put_all(
        out,
        &[ENTRY, low, high],
        &four_bytes(offset),
        &[name.len() as u8],
        name,
    )
}

/// Appends a formula.
#[tactic(auto, unfolding(omf_format::specs::Record::spelling))]
fn put_formula(out: &mut Vec<u8>, code: u8, count: u8, n: u32, expr: &[u8]) -> Result<(), PutFault>
    ensures ok { OnOk result (out.new.items ≡ out.old.items ++ spelling written_layout (Formula code count n expr.now)) }
    ensures err { OnErr result (out.new.items ≡ out.old.items) }
{
    if code == RELEXPR {
        return put_all(out, &[code, count], &four_bytes(n), &[], expr);
    }
    put_both(out, &[code, count], expr)
}

/// Appends the spelling of a record in version 2 under LABLEN 0. When out of memory, nothing is appended.
#[tactic(auto, unfolding(omf_format::specs::Record::spelling))]
pub fn put_record(out: &mut Vec<u8>, rec: &Rec) -> Result<(), PutFault>
    requires { IsRecord written_layout (view rec.now) }
    ensures ok { OnOk result (out.new.items ≡ out.old.items ++ spelling written_layout (view rec.now)) }
    ensures err { OnErr result (out.new.items ≡ out.old.items) }
{
    match rec {
        Rec::End => put_both(out, &[0x00], &[]),
        Rec::Const { bytes } => put_both(out, &[bytes.len() as u8], bytes),
        Rec::LongConst { bytes } => {
            put_all(out, &[LCONST], &four_bytes(bytes.len() as u32), &[], bytes)
        }
        Rec::Align { n } => put_number(out, ALIGN, *n),
        Rec::Org { n } => put_number(out, ORG, *n),
        Rec::Space { n } => put_number(out, DS, *n),
        Rec::Using { name } => put_name(out, USING, name, &[], &[]),
        Rec::Strong { name } => put_name(out, STRONG, name, &[], &[]),
        Rec::Label {
            global,
            name,
            length,
            form,
            private,
        } => {
            let code = if *global { GLOBAL } else { LOCAL };
            put_name(out, code, name, &attributes(*length, *form, *private), &[])
        }
        Rec::Equate {
            global,
            name,
            length,
            form,
            private,
            expr,
        } => {
            let code = if *global { GEQU } else { EQU };
            put_name(out, code, name, &attributes(*length, *form, *private), expr)
        }
        Rec::Formula {
            code,
            count,
            n,
            expr,
        } => put_formula(out, *code, *count, *n, expr),
        Rec::Entry {
            segment,
            offset,
            name,
        } => put_entry(out, *segment, *offset, name),
        Rec::Reloc {
            count,
            shift,
            location,
            offset,
        } => put_reloc(out, &patch(RELOC, *count, *shift), *location, *offset),
        Rec::InterSeg {
            count,
            shift,
            location,
            file,
            segment,
            offset,
        } => {
            let front = patch(INTERSEG, *count, *shift);
            put_interseg(out, &front, *location, *file, *segment, *offset)
        }
        Rec::ShortReloc {
            count,
            shift,
            location,
            offset,
        } => {
            let front = patch(SHORT_RELOC, *count, *shift);
            put_both(out, &front, &words(*location, *offset))
        }
        Rec::ShortInterSeg {
            count,
            shift,
            location,
            segment,
            offset,
        } => {
            let front = patch(SHORT_INTERSEG, *count, *shift);
            put_all(out, &front, &word(*location), &[*segment], &word(*offset))
        }
        Rec::Super { form, bytes } => {
            let size = four_bytes(bytes.len() as u32 + 1);
            put_all(out, &[SUPER], &size, &[*form], bytes)
        }
    }
}
