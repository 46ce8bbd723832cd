//! The rows of all files of a library.

ghost use Rattle.std.specs.Prelude.{◌≡◌, ◌<◌, ◌≤◌, ◌+◌, ◌*◌, ◌^◌, ◌++◌, length, map, IfOk, OnOk};
ghost use Rattle.std.specs.List.{flat_map};
ghost use Rattle.lib_dict.specs.View.{outer_row};
ghost use Rattle.lib_dict.specs.Library.{segment_rows, rows_from};
ghost use Rattle.lib_dict.specs.Made.{library_file};
ghost use Rattle.lib_dict.specs.Sizes.{AreFiles, total_bytes};

use crate::listed::Outer;
use crate::members::MemberRead;
use crate::outer::put_rows;
use omf_records::SegmentList;
use std::alloc::{AllocError, Global};

/// Appends the rows of a file's segments; the file has this number and begins at the displacement `front`.
fn put_file<'a>(
    rows: &mut Vec<Outer<'a>>,
    list: &'a SegmentList<'a>,
    file: u16,
    front: u64,
) -> Result<(), AllocError>
    requires few { length list.now + 2 < 2 ^ 32 }
    requires fits { front + 2 ^ 32 < 2 ^ 64 }
    ensures { OnOk result (map outer_row rows.new.items ≡ map outer_row rows.old.items ++ flat_map (segment_rows file front) list.now) }
{
    let mut passed = 0;
    'segments: loop {
        match list.get(passed + 1) {
            Some(view) => put_rows(rows, view, file, front)?,
            None => return Ok(()),
        }
        passed += 1;
    }
}

/// The rows of all files, in order; the first file begins at the displacement 0.
pub fn rows_of_files<'a>(
    alloc: Global,
    reads: &'a Vec<MemberRead<'a>>,
) -> Result<Vec<Outer<'a>>, AllocError>
    requires few { length reads.now.items ≤ 65535 }
    requires files { AreFiles (map library_file reads.now.items) }
    ensures { IfOk result (λ rows. map outer_row rows.items ≡ rows_from 1 0 (map library_file reads.now.items)) }
{
    let mut rows = Vec::new(alloc);
    let mut file = 1u32;
    let mut front = 0u64;
    'files: for read in reads {
        put_file(&mut rows, &read.list, file as u16, front)?;
        file += 1;
        front += read.member.bytes.len() as u64;
    }
    Ok(rows)
}

/// How many bytes the files have together.
pub fn total_bytes(reads: &Vec<MemberRead>) -> u64
    requires few { length reads.now.items ≤ 65535 }
    requires files { AreFiles (map library_file reads.now.items) }
    ensures { result ≡ total_bytes (map library_file reads.now.items) }
{
    let mut total = 0u64;
    'files: for read in reads {
        total += read.member.bytes.len() as u64;
    }
    total
}
