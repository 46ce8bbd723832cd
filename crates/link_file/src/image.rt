//! Load segments, as they are written one after another.

ghost use Rattle.std.specs.Prelude.{◌≡◌, ◌≤◌, ◌+◌, ◌<◌, ◌^◌, ◌++◌, IfOk, IfErr, OnOk, IsErrOf, MatchOption, Some, length, map, slice_get, List};
ghost use Rattle.omf_header.specs.View.{fields};
ghost use Rattle.load_meaning.specs.WrittenBody.{AreWritten, body_text, written_cells, zeros_after};
ghost use Rattle.load_meaning.specs.WrittenFile.{image_text, file_text};
ghost use Rattle.load_writer.specs.WrittenParts.{seen};
ghost use Rattle.omf_format.specs.Record.{Record};
ghost use Rattle.link_file.specs.Images.{spelled_records, image_in, images_in, IsReady, AreReady};

use link_content::{ByteStorage, LoadContent};
use load_writer::{BodyFault, put_body, put_plain_body};
use omf_header::{
    Header, MAX_FILE, WriteHeaderFault, close_segment, header_before, header_size, put_room,
    recall_header_size,
};
use std::alloc::{AllocError, AllocFailed, Global};

/// Load segments that are to be written: their headers and contents, and the ENTRY records of the first.
#[derive(Clone, Copy)]
pub struct LoadImages<'e, 'a> {
    pub headers: &'e [Header],
    pub contents: &'e [LoadContent<'a>],
    pub exports: &'e [u8],
}

/// Why no load segment is written.
#[derive(Clone, Copy, Debug, PartialEq, Eq)]
pub enum ImageFault {
    /// The file would exceed 16,777,216 bytes.
    TooLong,
    Memory,
}

impl From<AllocError> for ImageFault {
    ghost use Rattle.std.specs.Prelude.{◌≡◌};
    ghost use Rattle.link_file.specs.declared.image.ImageFault.TheVariants.{Memory};

    ghost from_gives = { λ _ fault. fault ≡ Memory };

    fn from(_: AllocError) -> ImageFault {
        ImageFault::Memory
    }
}

impl<T: Drop> From<AllocFailed<T>> for ImageFault {
    ghost use Rattle.std.specs.Prelude.{◌≡◌};
    ghost use Rattle.link_file.specs.declared.image.ImageFault.TheVariants.{Memory};

    ghost from_gives = { λ _ fault. fault ≡ Memory };

    fn from(_: AllocFailed<T>) -> ImageFault {
        ImageFault::Memory
    }
}

impl From<BodyFault> for ImageFault {
    ghost use Rattle.std.specs.Prelude.{◌≡◌};
    ghost use Rattle.link_file.specs.declared.image.ImageFault.TheVariants.{Memory};

    ghost from_gives = { λ _ fault. fault ≡ Memory };

    fn from(_: BodyFault) -> ImageFault {
        ImageFault::Memory
    }
}

impl From<WriteHeaderFault> for ImageFault {
    ghost use Rattle.std.specs.Prelude.{◌≡◌, ◌↔◌};
    ghost use Rattle.omf_header.specs.declared.writing.WriteHeaderFault.TheVariants as header;
    ghost use Rattle.link_file.specs.declared.image.ImageFault.TheVariants.{TooLong};

    ghost from_gives = { λ given fault. (fault ≡ TooLong) ↔ (given ≡ header.TooLong) };

    fn from(given: WriteHeaderFault) -> ImageFault {
        match given {
            WriteHeaderFault::TooLong => ImageFault::TooLong,
            WriteHeaderFault::Memory => ImageFault::Memory,
        }
    }
}

/// Appends a body. The answer is how many zero bytes are after the body's data in memory.
fn put_content(
    alloc: Global,
    out: &mut Vec<u8>,
    own: u16,
    content: &LoadContent<'_>,
) -> Result<u32, BodyFault>
    requires small { length (content.now).bytes ≤ 0xFFFFFF }
    requires patches { AreWritten (length (content.now).bytes) 0 (map seen (content.now).patches) }
    ensures bytes { OnOk result (out.new.items ≡ out.old.items ++ body_text own (content.now).bytes (map seen (content.now).patches)) }
    ensures zeros { IfOk result (λ zeros. zeros ≡ zeros_after (written_cells (content.now).bytes (map seen (content.now).patches))) }
{
    let (place, following) = content.place();
    match place {
        ByteStorage::Borrowed(pieces) => {
            let zeros = put_plain_body(out, pieces)?;
            Ok(zeros + following as u32)
        }
        ByteStorage::Own(bytes) => {
            let zeros = put_body(alloc, out, own, bytes, content.patches())?;
            Ok(zeros + following as u32)
        }
    }
}

/// Appends a body, and after it what the segment exports. The answer is how many zero bytes are after the body's data in memory.
fn put_after(
    alloc: Global,
    out: &mut Vec<u8>,
    own: u16,
    content: &LoadContent<'_>,
    exports: &[u8],
) -> Result<u32, ImageFault>
    requires small { length (content.now).bytes ≤ 0xFFFFFF }
    requires patches { AreWritten (length (content.now).bytes) 0 (map seen (content.now).patches) }
    ensures bytes { OnOk result (out.new.items ≡ out.old.items ++ (body_text own (content.now).bytes (map seen (content.now).patches) ++ exports.now)) }
    ensures zeros { IfOk result (λ zeros. zeros ≡ zeros_after (written_cells (content.now).bytes (map seen (content.now).patches))) }
    ensures memory_alone { IfErr result (λ fault. fault ≡ ImageFault.Memory) }
{
    let zeros = put_content(alloc, out, own, content)?;
    out.extend_from_slice(exports)?;
    Ok(zeros)
}

/// Appends a load segment: its header, with RESSPC as the body has it, its body, and the ENTRY records that it exports. It is too
/// long where the file would exceed 16,777,216 bytes.
pub fn put_image(
    alloc: Global,
    out: &mut Vec<u8>,
    header: &Header,
    content: &LoadContent<'_>,
    exports: &[u8],
) -> Result<(), ImageFault>
    requires { IsReady (fields header.now) content.now }
    ensures ok { OnOk result ((records : List Record) → exports.now ≡ spelled_records records → out.new.items ≡ out.old.items ++ image_text (image_in (fields header.now) content.now records)) }
    ensures short { OnOk result (length out.new.items ≤ 0x1000000) }
    ensures too_long { IsErrOf result ImageFault.TooLong → (records : List Record) → exports.now ≡ spelled_records records
        → 0x1000000 < length out.old.items + length (image_text (image_in (fields header.now) content.now records)) }
{
    recall_header_size(header.load_name);
    let start = out.as_slice().len();
    if start > MAX_FILE {
        return Err(ImageFault::TooLong);
    }
    let room = header_size(&header.name);
    put_room(out, room)?;
    let zeros = put_after(alloc, out, header.seg_num, content, exports)?;
    let size = out.as_slice().len() - start - room;
    let front = header_before(alloc, header, zeros, size)?;
    close_segment(out, start, front.as_slice())?;
    Ok(())
}

/// The header at a place.
fn header_at(headers: &[Header], place: usize) -> Option<&Header>
    ensures { MatchOption result (length headers.now ≤ place) (λ header. slice_get headers.now place ≡ Some header.now) }
{
    headers.get(place)
}

/// The content at a place.
fn content_at<'h, 'a>(contents: &'h [LoadContent<'a>], place: usize) -> Option<&'h LoadContent<'a>>
    ensures { MatchOption result (length contents.now ≤ place) (λ content. slice_get contents.now place ≡ Some content.now) }
{
    contents.get(place)
}

/// Appends load segments, one after another; the first has the ENTRY records.
pub fn put_images(
    alloc: Global,
    out: &mut Vec<u8>,
    headers: &[Header],
    contents: &[LoadContent<'_>],
    exports: &[u8],
) -> Result<(), ImageFault>
    requires { AreReady headers.now contents.now }
    ensures ok { OnOk result ((records : List Record) → exports.now ≡ spelled_records records → out.new.items ≡ out.old.items ++ file_text (images_in records headers.now contents.now)) }
    ensures short { OnOk result (length out.old.items ≤ 0x1000000 → length out.new.items ≤ 0x1000000) }
    ensures too_long { IsErrOf result ImageFault.TooLong → (records : List Record) → exports.now ≡ spelled_records records
        → 0x1000000 < length out.old.items + length (file_text (images_in records headers.now contents.now)) }
{
    let count = headers.len();
    let mut own = exports;
    let mut place = 0;
    'loads: while place < count {
        let Some(header) = header_at(headers, place) else {
            unreachable!()
        };
        let Some(content) = content_at(contents, place) else {
            unreachable!()
        };
        put_image(alloc, out, header, content, own)?;
        own = &[];
        place += 1;
    }
    Ok(())
}
