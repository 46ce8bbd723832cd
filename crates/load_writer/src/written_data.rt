//! The data of a body.

ghost use Rattle.std.specs.Prelude.{◌≡◌, ◌+◌, ◌-◌, ◌≤◌, ◌++◌, length, map, take, drop, IfOk, OnOk, OnErr, IsTrue};
ghost use Rattle.std.specs.List.{flat_map};
ghost use Rattle.omf_format.specs.Field.{is_count, written_layout};
ghost use Rattle.omf_format.specs.Record.{LongConst, spelling};
ghost use Rattle.load_writer.specs.WrittenParts.{seen, end_after, IsKept};
ghost use Rattle.load_meaning.specs.WrittenBody.{AreWritten, with_stored, written_data, data_records};
ghost use Rattle.load_meaning.specs.laws.Steps.{stored_bytes};

use crate::choice::is_far;
use crate::written::{BodyFault, Patch};
use omf_base::first_items;
use omf_records::{Rec, put_record};

/// The low bytes of the offset, lowest first, and in a SUPER of type 2 the segment as the third.
fn low_bytes(own: u16, patch: &Patch) -> [u8; 4]
    requires { IsTrue (is_count (patch.now).count) }
    ensures { take (patch.now).count result ≡ stored_bytes own (seen patch.now) }
{
    let [first, second, third, fourth] = patch.offset.to_le_bytes();
    if is_far(own, patch) {
        return [first, second, patch.segment as u8, 0];
    }
    [first, second, third, fourth]
}

/// Writes bytes over those from a place on.
pub(crate) fn put_over(content: &mut [u8], at: usize, bytes: &[u8])
    requires { at + length bytes.now ≤ length content.old }
    ensures { content.new ≡ take at content.old ++ bytes.now ++ drop (at + length bytes.now) content.old }
{
    content[at..at + bytes.len()].copy_from_slice(bytes);
}

/// Writes what is stored in the data at each patch over the bytes there. The result is where the last patch ends.
fn put_patches(content: &mut [u8], own: u16, patches: &[Patch]) -> usize
    requires { AreWritten (length content.old) 0 (map seen patches.now) }
    ensures written { content.new ≡ with_stored own content.old (map seen patches.now) }
    ensures end { result ≡ end_after 0 (map seen patches.now) }
{
    let mut end = 0;
    'patches: for patch in patches {
        let at = patch.at as usize;
        let count = usize::from(patch.count);
        let bytes = low_bytes(own, patch);
        put_over(content, at, first_items(&bytes, count));
        end = at + count;
    }
    end
}

/// How many bytes there are up to a place, or up to the last one after it that isn't 0.
pub fn stored_length(content: &[u8], end: usize) -> usize
    requires { end ≤ length content.now }
    ensures { IsKept content.now end result }
{
    let mut kept = content.len();
    'zeros: while kept > end {
        if content[kept - 1] != 0 {
            return kept;
        }
        kept -= 1;
    }
    kept
}

/// Where the last patch ends.
fn end_of(patches: &[Patch]) -> usize
    ensures { result ≡ end_after 0 (map seen patches.now) }
{
    let mut end = 0;
    'patches: for patch in patches {
        let last = *patch;
        end = last.at as usize + usize::from(last.count);
    }
    end
}

/// How many bytes the data are: the content up to the end of the last patch, or up to the last byte after it that isn't 0.
fn data_size(content: &[u8], patches: &[Patch]) -> usize
    requires { AreWritten (length content.now) 0 (map seen patches.now) }
    ensures { IsKept content.now (end_after 0 (map seen patches.now)) result }
{
    stored_length(content, end_of(patches))
}

/// Writes what is stored in the data at each patch over the bytes from a place on.
fn put_patches_from(out: &mut [u8], start: usize, own: u16, patches: &[Patch])
    requires start { start ≤ length out.old }
    requires patches { AreWritten (length out.old - start) 0 (map seen patches.now) }
    ensures { out.new ≡ take start out.old ++ with_stored own (drop start out.old) (map seen patches.now) }
{
    let _end = put_patches(&mut out[start..], own, patches);
}

/// Appends the LCONST of these bytes, which are some, with what the patches store over them.
fn put_stored(out: &mut Vec<u8>, own: u16, bytes: &[u8], patches: &[Patch]) -> Result<(), BodyFault>
    requires small { length bytes.now ≤ 0xFFFFFF }
    requires patches { AreWritten (length bytes.now) 0 (map seen patches.now) }
    ensures ok { OnOk result (out.new.items ≡ out.old.items ++ spelling written_layout (LongConst (with_stored own bytes.now (map seen patches.now)))) }
    ensures err { OnErr result (out.new.items ≡ out.old.items) }
{
    put_record(out, &Rec::LongConst { bytes })?;
    let start = out.len() - bytes.len();
    put_patches_from(out, start, own, patches);
    Ok(())
}

/// Appends the LCONST of the data, if there are any, and returns how many bytes they are: the content with what the patches store, without
/// the zeros at the end.
pub fn put_data(
    out: &mut Vec<u8>,
    own: u16,
    content: &[u8],
    patches: &[Patch],
) -> Result<usize, BodyFault>
    requires small { length content.now ≤ 0xFFFFFF }
    requires patches { AreWritten (length content.now) 0 (map seen patches.now) }
    ensures text { OnOk result (out.new.items ≡ out.old.items ++ flat_map (spelling written_layout) (data_records (written_data own content.now (map seen patches.now)))) }
    ensures size { IfOk result (λ size. size ≡ length (written_data own content.now (map seen patches.now))) }
    ensures err { OnErr result (out.new.items ≡ out.old.items) }
{
    let size = data_size(content, patches);
    if size == 0 {
        return Ok(0);
    }
    put_stored(out, own, first_items(content, size), patches)?;
    Ok(size)
}
