//! Making a library.

ghost use Rattle.std.specs.Prelude.{◌≡◌, ◌<◌, ◌≤◌, ◌+◌, ◌-◌, ◌^◌, ◌++◌, length, map, All, OnOk, IfOk, IfErr};
ghost use Rattle.std.specs.List.{flat_map};
ghost use Rattle.omf_format.specs.Field.{written_layout};
ghost use Rattle.omf_format.specs.Header.{header_bytes};
ghost use Rattle.omf_format.specs.Record.{End, LongConst, spelling};
ghost use Rattle.omf_header.specs.View.{fields};
ghost use Rattle.lib_dict.specs.View.{outer_row};
ghost use Rattle.lib_dict.specs.Library.{dictionary_fields, dictionary_text, library_bytes, IsLibraryOf};
ghost use Rattle.object_meaning.specs.Sizes.{most_bytes};
ghost use Rattle.lib_dict.specs.Made.{given_file, library_file, IsLibRefused, IsTooLongOrMemory};
ghost use Rattle.lib_dict.specs.Sizes.{AreFiles, first_place, PlaceFits};

use crate::fault::{LibCause, LibFault, NOWHERE};
use crate::files::{rows_of_files, total_bytes};
use crate::member::Member;
use crate::members::{MemberRead, read_members};
use crate::names_following::DICTIONARY;
use crate::texts::{files_record, names_record, put_files, rows_record};
use omf_base::Name;
use omf_header::{Header, Kind, WriteHeaderFault, write_header};
use omf_records::{PutFault, Rec, put_record};
use std::alloc::{AllocError, Global};

/// The most bytes that a file has.
const MAX_FILE: usize = 16_777_216;

/// The bytes of a dictionary that aren't in its three records: its header with its name, the records' codes and lengths, and END.
const OTHERS: usize = 81;

/// Where the first file begins, or None where the library would be too long.
fn place_of(first: usize, rows: usize, third: usize, total: u64) -> Option<u32>
    ensures { PlaceFits (first_place first rows third) total result }
{
    if first > MAX_FILE || rows > MAX_FILE || third > MAX_FILE || total > MAX_FILE as u64 {
        return None;
    }
    let place = OTHERS + first + 12 * rows + third;
    if place + total as usize > MAX_FILE {
        return None;
    }
    Some(place as u32)
}

/// The header of a dictionary whose three records have `length` bytes together.
fn dictionary_header(alloc: Global, length: u32) -> Result<Header, AllocError>
    ensures { IfOk result (λ header. fields header ≡ dictionary_fields length) }
{
    let name = Vec::from_slice(alloc, b"DICTIONARY")?;
    let kind = Kind {
        bits: DICTIONARY as u16,
    };
    Ok(Header::written([32; 10], Name::from_vec(name), kind, length, 0, 1))
}

/// Appends an LCONST.
fn put_long(out: &mut Vec<u8>, bytes: &[u8]) -> Result<(), AllocError>
    requires { length bytes.now < 2 ^ 32 }
    ensures { OnOk result (out.new.items ≡ out.old.items ++ spelling written_layout (LongConst bytes.now)) }
{
    match put_record(out, &Rec::LongConst { bytes }) {
        Ok(()) => Ok(()),
        Err(PutFault::Memory) => Err(AllocError),
    }
}

/// Appends END.
fn put_end(out: &mut Vec<u8>) -> Result<(), AllocError>
    ensures { OnOk result (out.new.items ≡ out.old.items ++ spelling written_layout End) }
{
    match put_record(out, &Rec::End) {
        Ok(()) => Ok(()),
        Err(PutFault::Memory) => Err(AllocError),
    }
}

/// The bytes of the header of a dictionary whose three records have `length` bytes together.
fn header_text(alloc: Global, length: u32) -> Result<Vec<u8>, AllocError>
    requires { length ≤ 16777216 - 81 }
    ensures { IfOk result (λ out. out.items ≡ header_bytes (dictionary_fields length) (16 + length)) }
{
    let header = dictionary_header(alloc, length)?;
    match write_header(alloc, &header, 16 + length) {
        Ok(out) => Ok(out),
        Err(WriteHeaderFault::TooLong) => unreachable!(),
        Err(WriteHeaderFault::Memory) => Err(AllocError),
    }
}

/// The dictionary with these three records, and the files after it.
fn library_of(
    alloc: Global,
    first: &[u8],
    second: &[u8],
    third: &[u8],
    reads: &Vec<MemberRead>,
) -> Result<Vec<u8>, AllocError>
    requires { length first.now + length second.now + length third.now ≤ 16777216 - 81 }
    ensures { IfOk result (λ out. out.items ≡ dictionary_text first.now second.now third.now
        ++ flat_map (λ file. file.bytes) (map library_file reads.now.items)) }
{
    let length = first.len() + second.len() + third.len();
    let mut out = header_text(alloc, length as u32)?;
    put_long(&mut out, first)?;
    put_long(&mut out, second)?;
    put_long(&mut out, third)?;
    put_end(&mut out)?;
    put_files(&mut out, reads)?;
    Ok(out)
}

/// The library of the files that were read.
fn library_from(alloc: Global, reads: &Vec<MemberRead>) -> Result<Vec<u8>, LibFault>
    requires few { length reads.now.items ≤ 65535 }
    requires files { AreFiles (map library_file reads.now.items) }
    ensures ok { IfOk result (λ out. (length out.items ≤ most_bytes) × (out.items ≡ library_bytes (map library_file reads.now.items))) }
    ensures err { IfErr result (λ fault. IsTooLongOrMemory (map library_file reads.now.items) fault) }
{
    let rows = rows_of_files(alloc, reads)?;
    let first = files_record(alloc, reads)?;
    let third = names_record(alloc, &rows)?;
    let place = match place_of(first.len(), rows.len(), third.len(), total_bytes(reads)) {
        Some(place) => place,
        None => return Err(too_long()),
    };
    let second = rows_record(alloc, &rows, place)?;
    let out = library_of(alloc, &first, &second, &third, reads)?;
    Ok(out)
}

/// The refusal of a library that would be longer than a file may be.
fn too_long() -> LibFault
    ensures { result ≡ record { cause = LibCause.TooLong; spot = record { file = 0; segment = 0; at = 0 } } }
{
    LibFault {
        cause: LibCause::TooLong,
        spot: NOWHERE,
    }
}

/// The library of these files: a dictionary of the names that their segments have for others, and then each file's bytes as they are. File
/// numbers count from 1 in the order of the files. The first fault is returned: file by file, a file's own first fault, and then a
/// dictionary among its segments (BadRecord, at that segment's start); after all files TooLong, where the library would exceed 16,777,216
/// bytes.
pub fn make_library(alloc: Global, members: &Vec<Member>) -> Result<Vec<u8>, LibFault>
    requires few { length members.now.items ≤ 65535 }
    requires short { All (λ m. length m.bytes.items < 2 ^ 32) members.now.items }
    ensures made { IfOk result (λ out. IsLibraryOf (map given_file members.now.items) out.items) }
    ensures refused { IfErr result (λ fault. IsLibRefused fault (map given_file members.now.items)) }
{
    let reads = read_members(alloc, members)?;
    library_from(alloc, &reads)
}
