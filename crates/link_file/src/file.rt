//! The load file: its load segments, the jump table after them, and the pathnames after all.

ghost use Rattle.std.specs.Prelude.{◌≡◌, ◌≤◌, ◌+◌, ◌<◌, ◌^◌, ◌++◌, IfOk, IfErr, OnOk, IsErrOf, length, map, List};
ghost use Rattle.object_meaning.specs.Sizes.{most_bytes};
ghost use Rattle.omf_header.specs.View.{fields};
ghost use Rattle.load_meaning.specs.Cells.{Byte};
ghost use Rattle.load_meaning.specs.Table.{file_entry, table_bytes};
ghost use Rattle.load_meaning.specs.WrittenFile.{file_text, table_fields};
ghost use Rattle.link_meaning.specs.Member.{setting_in};
ghost use Rattle.link_meaning.specs.LinkValues.{EquateAnswer};
ghost use Rattle.link_meaning.specs.LinkedCells.{targets};
ghost use Rattle.link_meaning.specs.LinkWritten.{table_images, written_file};
ghost use Rattle.link_content.specs.Contents.{HoldsCells};
ghost use Rattle.link_program.specs.OfFiles.{IsOfFiles};
ghost use Rattle.link_file.specs.Images.{AreReady, AreLoads, images_after, linked_exports};

use crate::image::{ImageFault, LoadImages, put_image, put_images};
use crate::pathnames::put_pathnames;
use jump_table::Table;
use link_content::LoadContent;
use link_program::Program;
use omf_base::{Name, NameFault};
use omf_header::{Header, Kind};
use std::alloc::Global;

/// The content of the jump table's segment.
fn table_content<'a>(alloc: Global, table: &Table) -> Result<LoadContent<'a>, ImageFault>
    ensures ok { IfOk result (λ content. HoldsCells (map Byte (table_bytes (map file_entry table.now))) content) }
    ensures memory_alone { IfErr result (λ fault. fault ≡ ImageFault.Memory) }
{
    let bytes = match table.segment_bytes(alloc) {
        Ok(bytes) => bytes,
        Err(_) => return Err(ImageFault::Memory),
    };
    let mut content = LoadContent::new(alloc);
    content.put_bytes(&bytes)?;
    Ok(content)
}

/// The header of the jump table's segment, which is the load segment with this number.
fn table_header(alloc: Global, number: u16, size: u32) -> Result<Header, ImageFault>
    ensures ok { IfOk result (λ header. fields header ≡ table_fields number size) }
    ensures memory_alone { IfErr result (λ fault. fault ≡ ImageFault.Memory) }
{
    let name = match Name::of(alloc, b"~JumpTable") {
        Ok(name) => name,
        Err(NameFault::Memory) => return Err(ImageFault::Memory),
        Err(NameFault::TooLong) => unreachable!(),
    };
    Ok(Header::written(
        [0x20; 10],
        name,
        Kind { bits: 0x0002 },
        size,
        0x10000,
        number,
    ))
}

/// Appends the jump table, where it has an entry.
fn put_table(alloc: Global, out: &mut Vec<u8>, number: u16, table: &Table) -> Result<(), ImageFault>
    ensures ok { OnOk result (out.new.items ≡ out.old.items ++ file_text (table_images number table.now)) }
    ensures short { OnOk result (length out.old.items ≤ 0x1000000 → length out.new.items ≤ 0x1000000) }
    ensures too_long { IsErrOf result ImageFault.TooLong → 0x1000000 < length out.old.items + length (file_text (table_images number table.now)) }
{
    if table.count() == 0 {
        return Ok(());
    }
    let content = table_content(alloc, table)?;
    let header = table_header(alloc, number, content.len() as u32)?;
    put_image(alloc, out, &header, &content, &[])
}

/// The number of the load segment after the jump table. The table would have the number `number`, and is there where it has an entry.
fn number_after(number: u16, table: &Table) -> u16
    requires { number + 1 < 2 ^ 16 }
    ensures { result ≡ number + length (table_images number table.now) }
{
    if table.count() == 0 {
        return number;
    }
    number + 1
}

/// Appends the jump table, where it has an entry, and the pathnames, where there are run-time library files; the first of them is the
/// load segment with this number.
fn put_rest(
    alloc: Global,
    out: &mut Vec<u8>,
    number: u16,
    table: &Table,
    program: &Program,
) -> Result<(), ImageFault>
    requires files { IsOfFiles program.now }
    requires few { number + 1 < 2 ^ 16 }
    ensures ok { OnOk result (out.new.items ≡ out.old.items ++ file_text (images_after number table.now (setting_in program.now).runtimes)) }
    ensures short { OnOk result (length out.old.items ≤ 0x1000000 → length out.new.items ≤ 0x1000000) }
    ensures too_long { IsErrOf result ImageFault.TooLong
        → 0x1000000 < length out.old.items + length (file_text (images_after number table.now (setting_in program.now).runtimes)) }
{
    put_table(alloc, out, number, table)?;
    put_pathnames(alloc, out, number_after(number, table), program)
}

/// The load file of a program whose load segments are these, and whose jump table has these targets. It is too long where the file that
/// the linker writes exceeds 16,777,216 bytes.
pub fn write_linked(
    alloc: Global,
    images: LoadImages,
    table: &Table,
    program: &Program,
) -> Result<Vec<u8>, ImageFault>
    requires ready { AreReady images.headers.now images.contents.now }
    requires few { length images.headers.now + 2 < 2 ^ 16 }
    requires files { IsOfFiles program.now }
    ensures ok { IfOk result (λ file. (reported : List EquateAnswer) → AreLoads program.now reported images.entry.headers.now images.entry.contents.now → images.entry.exports.now ≡ linked_exports program.now reported
        → table.now ≡ targets program.now reported → file.items ≡ written_file program.now reported) }
    ensures short { IfOk result (λ file. length file.items ≤ 0x1000000) }
    ensures too_long { IsErrOf result ImageFault.TooLong → (reported : List EquateAnswer) → AreLoads program.now reported images.entry.headers.now images.entry.contents.now
        → images.entry.exports.now ≡ linked_exports program.now reported → table.now ≡ targets program.now reported → most_bytes < length (written_file program.now reported) }
{
    let mut file = Vec::new(alloc);
    put_images(
        alloc,
        &mut file,
        images.headers,
        images.contents,
        images.exports,
    )?;
    let number = images.headers.len() as u16 + 1;
    put_rest(alloc, &mut file, number, table, program)?;
    Ok(file)
}
