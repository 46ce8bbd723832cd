//! What a written segment has before its ENTRY records.

ghost use Rattle.std.specs.Prelude.{◌≡◌, ◌≤◌, ◌<◌, ◌++◌, Some, true, false, length, map, take, IfOk, IfErr, OnOk, IsErrOf};
ghost use Rattle.omf_format.specs.File.{Segment, segment_at};
ghost use Rattle.omf_header.specs.View.{fields};
ghost use Rattle.load_writer.specs.WrittenParts.{seen};
ghost use Rattle.omf_cells.specs.Whole.{front_at, data_at};
ghost use Rattle.omf_compact.specs.Canonical.{plain_of, is_pathname, canon_fields, canon_segment};
ghost use Rattle.omf_compact.specs.laws.Writing.{IsKnown, HasSegment, HasStretches, first_text};

use crate::write_fault::CompactWriteFault;
use omf_base::first_items;
use omf_cells::{LoadFile, Patch, put_body};
use omf_header::Header;
use omf_records::{Rec, put_record};
use std::alloc::Global;

/// The type of a pathname segment.
const PATHNAMES: u8 = 0x04;

/// The most bytes that the data of a written segment have.
const MOST_DATA: u32 = 0xFF_FFFF;

/// Appends the records of the segment with this number that isn't a pathname segment: the content is its data up to the last cell
/// that isn't a byte 0, and the patches are those of its cells.
fn put_cells(
    alloc: Global,
    out: &mut Vec<u8>,
    load: &LoadFile,
    number: u16,
    content: &[u8],
    patches: &[Patch],
) -> Result<(), CompactWriteFault>
    requires known { IsKnown load.now }
    requires whole { (s : Segment) → segment_at load.now number ≡ Some s → HasStretches s (map seen patches.now) }
    requires there { HasSegment load.now number }
    requires content { content.now ≡ take (front_at load.now number) (data_at load.now number) }
    requires small { front_at load.now number ≤ 0xFFFFFF }
    ensures ok { OnOk result ((s : Segment) → segment_at load.now number ≡ Some s → is_pathname (plain_of s) ≡ false
        → out.new.items ≡ out.old.items ++ first_text number (plain_of s)) }
    ensures memory_alone { IfErr result (λ fault. fault ≡ CompactWriteFault.Memory) }
{
    let _zeros = put_body(alloc, out, number, content, patches)?;
    Ok(())
}

/// Appends the same records, where the content has `size` bytes. The bytes are borrowed if they lie one after another in the file.
fn put_plain(
    alloc: Global,
    out: &mut Vec<u8>,
    load: &LoadFile,
    number: u16,
    size: u32,
    patches: &[Patch],
) -> Result<(), CompactWriteFault>
    requires known { IsKnown load.now }
    requires whole { (s : Segment) → segment_at load.now number ≡ Some s → HasStretches s (map seen patches.now) }
    requires there { HasSegment load.now number }
    requires size { size ≡ front_at load.now number }
    requires small { size ≤ 0xFFFFFF }
    ensures ok { OnOk result ((s : Segment) → segment_at load.now number ≡ Some s → is_pathname (plain_of s) ≡ false
        → out.new.items ≡ out.old.items ++ first_text number (plain_of s)) }
    ensures memory_alone { IfErr result (λ fault. fault ≡ CompactWriteFault.Memory) }
{
    match load.data(u32::from(number)) {
        Some(bytes) => {
            if size as usize <= bytes.len() {
                return put_cells(
                    alloc,
                    out,
                    load,
                    number,
                    first_items(bytes, size as usize),
                    patches,
                );
            }
        }
        None => {}
    }
    let mut bytes = Vec::new(alloc);
    load.put_data(u32::from(number), size, &mut bytes)?;
    put_cells(alloc, out, load, number, bytes.as_slice(), patches)
}

/// Appends the only record of the pathname segment with this number, which has `size` bytes.
fn put_pathnames(
    alloc: Global,
    out: &mut Vec<u8>,
    load: &LoadFile,
    number: u16,
    size: u32,
) -> Result<(), CompactWriteFault>
    requires known { IsKnown load.now }
    requires there { HasSegment load.now number }
    requires size { (s : Segment) → segment_at load.now number ≡ Some s → size ≡ s.fields.length }
    ensures ok { OnOk result ((s : Segment) → segment_at load.now number ≡ Some s → is_pathname (plain_of s) ≡ true
        → out.new.items ≡ out.old.items ++ first_text number (plain_of s)) }
    ensures memory_alone { IfErr result (λ fault. fault ≡ CompactWriteFault.Memory) }
{
    let mut bytes = Vec::new(alloc);
    load.put_data(u32::from(number), size, &mut bytes)?;
    put_record(out, &Rec::LongConst { bytes: &bytes })?;
    Ok(())
}

/// Appends the records of the segment with this number before its ENTRY records. The answer is how many zero bytes are after
/// the data in memory. It is too long where the data alone would be.
pub fn put_content(
    alloc: Global,
    out: &mut Vec<u8>,
    load: &LoadFile,
    header: &Header,
    patches: &[Patch],
) -> Result<u32, CompactWriteFault>
    requires known { IsKnown load.now }
    requires whole { (s : Segment) → segment_at load.now (header.now).seg_num ≡ Some s → HasStretches s (map seen patches.now) }
    requires header { (s : Segment) → segment_at load.now (header.now).seg_num ≡ Some s → s.fields ≡ fields header.now }
    requires there { HasSegment load.now (header.now).seg_num }
    ensures ok { OnOk result ((s : Segment) → segment_at load.now (header.now).seg_num ≡ Some s
        → out.new.items ≡ out.old.items ++ first_text (header.now).seg_num (plain_of s)) }
    ensures zeros { IfOk result (λ zeros. (s : Segment) → segment_at load.now (header.now).seg_num ≡ Some s
        → zeros ≡ (canon_fields (header.now).seg_num (plain_of s)).res_spc) }
    ensures too_long { IsErrOf result CompactWriteFault.TooLong → (s : Segment) → segment_at load.now (header.now).seg_num ≡ Some s
        → 0x1000000 < length (canon_segment (header.now).seg_num (plain_of s)) }
{
    let number = header.seg_num;
    if header.kind.form() == PATHNAMES {
        put_pathnames(alloc, out, load, number, header.length)?;
        return Ok(0);
    }
    let size = load.front(u32::from(number));
    if size > MOST_DATA {
        return Err(CompactWriteFault::TooLong);
    }
    put_plain(alloc, out, load, number, size, patches)?;
    Ok(header.length.saturating_sub(size))
}
