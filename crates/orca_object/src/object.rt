//! The bytes of the segments that have ended (GS/OS Reference, appendix F).

ghost use Rattle.std.specs.Prelude.{◌≡◌, ◌≤◌, ◌+◌, ◌++◌, ◌∷◌, [], List, length, drop, replicate, OnOk};
ghost use Rattle.omf_format.specs.Header.{IsWritable};
ghost use Rattle.omf_header.specs.View.{fields};
ghost use Rattle.asm_meaning.specs.State.{FinishedSegment};
ghost use Rattle.asm_meaning.specs.Object.{records_text, segment_text, object_text};
ghost use Rattle.orca_operands.specs.TextView.{text_within_limit, kept_text};

use omf_header::{Header, WriteHeaderFault, header_size, recall_header_size, write_header};
use orca_operands::{MAX_FILE, RecordBytes};
use std::alloc::{AllocError, Global};

/// Writes bytes over those at the start.
fn put_front(text: &mut [u8], front: &[u8])
    requires { length front.now ≤ length text.old }
    ensures { text.new ≡ front.now ++ drop (length front.now) text.old }
{
    text[..front.len()].copy_from_slice(front);
}

/// Writes its header into the room before the records of a segment.
fn close(alloc: Global, header: &Header, segment: &mut RecordBytes) -> Result<(), AllocError>
    requires { IsWritable (fields header.now) }
    ensures { OnOk result ((e : FinishedSegment) → e.header ≡ fields header.now → kept_text segment.old ≡ text_within_limit (replicate (0x37 + length e.header.name) 0 ++ records_text e.body)
        → kept_text segment.new ≡ text_within_limit (segment_text e)) }
{
    recall_header_size(header.load_name);
    if segment.long {
        return Ok(());
    }
    if segment.bytes.len() > MAX_FILE {
        segment.give_up();
        return Ok(());
    }
    let Some(size) = segment.bytes.len().checked_sub(header_size(&header.name)) else {
        return Ok(());
    };
    match write_header(alloc, header, size as u32) {
        Ok(front) => {
            put_front(segment.bytes.as_mut_slice(), front.as_slice());
            Ok(())
        }
        Err(WriteHeaderFault::TooLong) => {
            segment.give_up();
            Ok(())
        }
        Err(WriteHeaderFault::Memory) => Err(AllocError),
    }
}

/// Appends a segment with this header: room for it, and then the records.
pub(crate) fn put_segment(
    alloc: Global,
    object: &mut RecordBytes,
    header: &Header,
    segment: RecordBytes,
) -> Result<(), AllocError>
    requires { IsWritable (fields header.now) }
    ensures { OnOk result ((segments : List FinishedSegment) (e : FinishedSegment) → e.header ≡ fields header.now → kept_text segment ≡ text_within_limit (replicate (0x37 + length e.header.name) 0 ++ records_text e.body)
        → kept_text object.old ≡ text_within_limit (object_text segments) → kept_text object.new ≡ text_within_limit (object_text (segments ++ e ∷ []))) }
{
    let mut segment = segment;
    close(alloc, header, &mut segment)?;
    object.join(segment)
}
