//! The bytes of a dictionary's three records.

ghost use Rattle.std.specs.Prelude.{◌≡◌, ◌<◌, ◌≤◌, ◌+◌, ◌-◌, ◌^◌, ◌++◌, ◌∷◌, length, map, IfOk, OnOk};
ghost use Rattle.std.specs.List.{flat_map};
ghost use Rattle.byteorder.specs.Endian.{little_bytes};
ghost use Rattle.lib_dict.specs.View.{outer_row};
ghost use Rattle.lib_dict.specs.Library.{files_text, names_text, rows_text};
ghost use Rattle.lib_dict.specs.Steps.{row_text};
ghost use Rattle.lib_dict.specs.Made.{library_file};
ghost use Rattle.lib_dict.specs.Sizes.{moved_row, StartBefore};

use crate::listed::Outer;
use crate::members::MemberRead;
use std::alloc::{AllocError, Global};

/// Appends a name's length, and the name after it.
fn put_name(out: &mut Vec<u8>, name: &[u8]) -> Result<(), AllocError>
    requires { length name.now ≤ 255 }
    ensures { OnOk result (out.new.items ≡ out.old.items ++ (length name.now ∷ name.now)) }
{
    out.push(name.len() as u8)?;
    out.extend_from_slice(name)
}

/// Appends a file's number, and its name after it.
fn put_file(out: &mut Vec<u8>, file: u16, name: &[u8]) -> Result<(), AllocError>
    requires { length name.now ≤ 255 }
    ensures { OnOk result (out.new.items ≡ out.old.items ++ (little_bytes 2 file ++ length name.now ∷ name.now)) }
{
    out.extend_from_slice(&file.to_le_bytes())?;
    put_name(out, name)
}

/// The content of the first record.
pub fn files_record(alloc: Global, reads: &Vec<MemberRead>) -> Result<Vec<u8>, AllocError>
    requires { length reads.now.items ≤ 65535 }
    ensures { IfOk result (λ out. out.items ≡ files_text 1 (map library_file reads.now.items)) }
{
    let mut out = Vec::new(alloc);
    let mut file = 1u32;
    'files: for read in reads {
        put_file(&mut out, file as u16, read.member.name.bytes())?;
        file += 1;
    }
    out.extend_from_slice(&[0, 0])?;
    Ok(out)
}

/// The content of the third record.
pub fn names_record(alloc: Global, rows: &Vec<Outer>) -> Result<Vec<u8>, AllocError>
    ensures { IfOk result (λ out. out.items ≡ names_text (map outer_row rows.now.items)) }
{
    let mut out = Vec::new(alloc);
    'rows: for row in rows {
        put_name(&mut out, row.name)?;
    }
    Ok(out)
}

/// Appends a number of two bytes.
fn put_u16(out: &mut Vec<u8>, n: u16) -> Result<(), AllocError>
    ensures { OnOk result (out.new.items ≡ out.old.items ++ little_bytes 2 n) }
{
    out.extend_from_slice(&n.to_le_bytes())
}

/// Appends a number of four bytes.
fn put_u32(out: &mut Vec<u8>, n: u32) -> Result<(), AllocError>
    ensures { OnOk result (out.new.items ≡ out.old.items ++ little_bytes 4 n) }
{
    out.extend_from_slice(&n.to_le_bytes())
}

/// Appends a row whose name is at this place in the third record; the first file begins at the displacement `base`.
fn put_row(out: &mut Vec<u8>, name: u32, row: &Outer, base: u32) -> Result<(), AllocError>
    requires { base + row.now.at < 2 ^ 32 }
    ensures { OnOk result (out.new.items ≡ out.old.items ++ row_text name (moved_row base (outer_row row.now))) }
{
    let flag = u16::from(row.private);
    let at = base + row.at as u32;
    put_u32(out, name)?;
    put_u16(out, row.file)?;
    put_u16(out, flag)?;
    put_u32(out, at)?;
    Ok(())
}

/// The content of the second record, where the first file begins at the displacement `base`.
pub fn rows_record(alloc: Global, rows: &Vec<Outer>, base: u32) -> Result<Vec<u8>, AllocError>
    requires names { length (names_text (map outer_row rows.now.items)) < 2 ^ 32 }
    requires places { StartBefore (2 ^ 32 - base) (map outer_row rows.now.items) }
    ensures { IfOk result (λ out. out.items ≡ rows_text 0 (map (moved_row base) (map outer_row rows.now.items))) }
{
    let mut out = Vec::new(alloc);
    let mut name = 0usize;
    'rows: for row in rows {
        put_row(&mut out, name as u32, row, base)?;
        name += 1 + row.name.len();
    }
    Ok(out)
}

/// Appends the bytes of all files.
pub fn put_files(out: &mut Vec<u8>, reads: &Vec<MemberRead>) -> Result<(), AllocError>
    ensures { OnOk result (out.new.items ≡ out.old.items ++ flat_map (λ file. file.bytes) (map library_file reads.now.items)) }
{
    'files: for read in reads {
        out.extend_from_slice(&read.member.bytes)?;
    }
    Ok(())
}
