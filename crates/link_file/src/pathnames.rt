//! The pathname segment of a load file: which file each number of its jump table is (GS/OS Reference, appendix F, pathname
//! segment; the rows are this project's own choice).

ghost use Rattle.std.specs.Prelude.{◌≡◌, ◌+◌, ◌<◌, ◌≤◌, ◌^◌, ◌++◌, ◌∷◌, List, ℕ, length, map, replicate, IfOk, IfErr, OnOk, IsErrOf};
ghost use Rattle.byteorder.specs.Endian.{little_bytes};
ghost use Rattle.omf_format.specs.Field.{written_layout};
ghost use Rattle.omf_format.specs.Header.{IsWritable};
ghost use Rattle.omf_format.specs.Record.{LongConst, spelling};
ghost use Rattle.omf_header.specs.View.{fields};
ghost use Rattle.load_meaning.specs.Pathnames.{paths_text};
ghost use Rattle.load_meaning.specs.WrittenFile.{image_text, file_text, pathnames_fields};
ghost use Rattle.link_meaning.specs.Member.{setting_in};
ghost use Rattle.link_meaning.specs.LinkWritten.{path_images};
ghost use Rattle.link_program.specs.OfFiles.{IsOfFiles};
ghost use Rattle.link_file.specs.Images.{with_space, whole_image};
ghost use Rattle.link_file.specs.Paths.{paths_of};

use crate::image::ImageFault;
use link_program::Program;
use omf_base::{Name, NameFault};
use omf_header::{Header, Kind, MAX_FILE, header_before, header_size, recall_header_size};
use omf_records::{PutFault, Rec, put_record};
use std::alloc::{AllocError, Global};

/// A number of two bytes.
fn word(n: u16) -> [u8; 2]
    ensures { result ≡ little_bytes 2 n }
{
    n.to_le_bytes()
}

/// Appends the row of a file: its number, eight zeros, and its path after a length byte.
fn put_row(out: &mut Vec<u8>, number: u16, path: &[u8]) -> Result<(), AllocError>
    requires { length path.now ≤ 255 }
    ensures { OnOk result (out.new.items ≡ out.old.items ++ (little_bytes 2 number ++ (replicate 8 0 ++ (length path.now ∷ path.now)))) }
{
    out.extend_from_slice(&word(number))?;
    out.extend_from_slice(&[0, 0, 0, 0, 0, 0, 0, 0, path.len() as u8])?;
    out.extend_from_slice(path)?;
    Ok(())
}

/// The rows of the program's run-time library files, and the number 0 after them.
fn rows_of(alloc: Global, program: &Program) -> Result<Vec<u8>, AllocError>
    requires { IsOfFiles program.now }
    ensures { IfOk result (λ text. text.items ≡ paths_text (paths_of program.now)) }
{
    let mut out = Vec::new(alloc);
    let mut place = 0;
    'rows: while place < program.runtimes() {
        let path = match program.runtime_path(place) {
            Some(path) => path,
            None => unreachable!(),
        };
        put_row(&mut out, place as u16 + 2, path.bytes())?;
        place += 1;
    }
    out.extend_from_slice(&[0, 0])?;
    Ok(out)
}

/// The header of the pathname segment, which is the load segment with this number.
fn pathnames_header(alloc: Global, number: u16, size: u32) -> Result<Header, ImageFault>
    ensures ok { IfOk result (λ header. fields header ≡ pathnames_fields number size) }
    ensures memory_alone { IfErr result (λ fault. fault ≡ ImageFault.Memory) }
{
    let name = match Name::of(alloc, b"~Pathnames") {
        Ok(name) => name,
        Err(NameFault::Memory) => return Err(ImageFault::Memory),
        Err(NameFault::TooLong) => unreachable!(),
    };
    Ok(Header::written(
        [0x20; 10],
        name,
        Kind { bits: 0x0004 },
        size,
        0x10000,
        number,
    ))
}

/// Appends an LCONST.
fn put_long(out: &mut Vec<u8>, bytes: &[u8]) -> Result<(), ImageFault>
    requires { length bytes.now < 2 ^ 32 }
    ensures ok { OnOk result (out.new.items ≡ out.old.items ++ spelling written_layout (LongConst bytes.now)) }
    ensures memory_alone { IfErr result (λ fault. fault ≡ ImageFault.Memory) }
{
    match put_record(out, &Rec::LongConst { bytes }) {
        Ok(()) => Ok(()),
        Err(PutFault::Memory) => Err(ImageFault::Memory),
    }
}

/// Appends what is before a body, an LCONST, and END.
fn put_parts(out: &mut Vec<u8>, front: &[u8], bytes: &[u8]) -> Result<(), ImageFault>
    requires { length bytes.now < 2 ^ 32 }
    ensures ok { OnOk result (out.new.items ≡ out.old.items ++ (front.now ++ (spelling written_layout (LongConst bytes.now) ++ 0 ∷ []))) }
    ensures memory_alone { IfErr result (λ fault. fault ≡ ImageFault.Memory) }
{
    out.extend_from_slice(front)?;
    put_long(out, bytes)?;
    out.push(0)?;
    Ok(())
}

ghost use Rattle.std.specs.Prelude.{[]};

/// Appends a load segment whose body is one LCONST of these bytes, zeros at their end too. It is too long where the file would exceed
/// 16,777,216 bytes.
fn put_whole(
    alloc: Global,
    out: &mut Vec<u8>,
    header: &Header,
    bytes: &[u8],
) -> Result<(), ImageFault>
    requires writable { IsWritable (with_space (fields header.now) 0) }
    requires some { 1 ≤ length bytes.now }
    requires small { length bytes.now ≤ 0xFFFFFF }
    ensures ok { OnOk result (out.new.items ≡ out.old.items ++ image_text (whole_image (fields header.now) bytes.now)) }
    ensures short { OnOk result (length out.new.items ≤ 0x1000000) }
    ensures too_long { IsErrOf result ImageFault.TooLong → 0x1000000 < length out.old.items + length (image_text (whole_image (fields header.now) bytes.now)) }
{
    recall_header_size(header.load_name);
    let start = out.as_slice().len();
    if start > MAX_FILE {
        return Err(ImageFault::TooLong);
    }
    let size = 5 + bytes.len();
    if start + header_size(&header.name) + size >= MAX_FILE {
        return Err(ImageFault::TooLong);
    }
    let front = header_before(alloc, header, 0, size)?;
    put_parts(out, front.as_slice(), bytes)
}

/// Appends the pathname segment with this number, where there are run-time library files.
pub fn put_pathnames(
    alloc: Global,
    out: &mut Vec<u8>,
    number: u16,
    program: &Program,
) -> Result<(), ImageFault>
    requires { IsOfFiles program.now }
    ensures ok { OnOk result (out.new.items ≡ out.old.items ++ file_text (path_images number (setting_in program.now).runtimes)) }
    ensures short { OnOk result (length out.old.items ≤ 0x1000000 → length out.new.items ≤ 0x1000000) }
    ensures too_long { IsErrOf result ImageFault.TooLong
        → 0x1000000 < length out.old.items + length (file_text (path_images number (setting_in program.now).runtimes)) }
{
    if program.runtimes() == 0 {
        return Ok(());
    }
    let text = rows_of(alloc, program)?;
    let header = pathnames_header(alloc, number, text.len() as u32)?;
    put_whole(alloc, out, &header, text.as_slice())
}
