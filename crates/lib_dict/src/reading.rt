//! Reading the dictionary of a library.

ghost use Rattle.std.specs.Prelude.{◌≡◌, ◌<◌, ◌≤◌, ◌+◌, ◌*◌, ◌^◌, ℕ, List, length, drop, IfOk, IfErr};
ghost use Rattle.omf_format.specs.File.{IsFile};
ghost use Rattle.omf_records.specs.Segments.{IsRefused};
ghost use Rattle.link_meaning.specs.Dictionary.{rows_in};
ghost use Rattle.lib_dict.specs.Library.{HasRows};
ghost use Rattle.lib_dict.specs.Rows.{AreReadFrom, HasNoRows};
ghost use Rattle.lib_dict.specs.Parts.{seen_parts, HasPlace};
ghost use Rattle.lib_dict.specs.Tables.{IsInFile, AreRowsIn, IsRowFault, FaultOf};

use crate::dictionary::{Dictionary, Row};
use crate::fault::DictFault;
use crate::known::known_in;
use crate::names_following::DICTIONARY;
use crate::parts::{Parts, parts_of};
use crate::record_forms::{file_numbers, name_starts};
use crate::rows::{ROW, Tables, rows_of};
use omf_format::{FileCause, FileFault};
use omf_records::{SegmentList, segments};
use std::alloc::Global;

/// A file's fault as one of its dictionary.
fn file_fault(fault: FileFault) -> DictFault
    ensures reported { FaultOf fault result }
    ensures memory { result ≡ DictFault.Memory → fault.cause ≡ FileCause.Memory }
{
    match fault.cause {
        FileCause::Truncated => DictFault::File(fault),
        FileCause::BadHeader => DictFault::File(fault),
        FileCause::Unsupported => DictFault::File(fault),
        FileCause::BadRecord => DictFault::File(fault),
        FileCause::Memory => DictFault::Memory,
    }
}

/// The rows of the dictionary that starts there, where its three records have their forms.
fn rows_in<'a>(
    alloc: Global,
    list: &SegmentList<'a>,
    start: u32,
    parts: Parts<'a>,
) -> Result<Vec<Row<'a>>, DictFault>
    requires file { IsInFile list.now }
    requires place { HasPlace (seen_parts parts) }
    ensures ok { IfOk result (λ rows. AreRowsIn list.now
        (rows_in start parts.entry.at parts.entry.first.now parts.entry.second.now parts.entry.third.now (drop 1 list.now)) rows.items) }
    ensures few { IfOk result (λ rows. length rows.items < 2 ^ 32) }
    ensures err { IfErr result (λ fault. IsRowFault fault
        (rows_in start parts.entry.at parts.entry.first.now parts.entry.second.now parts.entry.third.now (drop 1 list.now))) }
{
    let numbers = match file_numbers(alloc, parts.first)? {
        Some(numbers) => numbers,
        None => return Err(DictFault::BadLibrary(start)),
    };
    if parts.second.len() % ROW != 0 {
        drop(numbers);
        return Err(DictFault::BadLibrary(start));
    }
    let starts = match name_starts(alloc, parts.third) {
        Ok(Some(starts)) => starts,
        Ok(None) => {
            drop(numbers);
            return Err(DictFault::BadLibrary(start));
        }
        Err(_) => {
            drop(numbers);
            return Err(DictFault::Memory);
        }
    };
    let known = match known_in(alloc, &*list) {
        Ok(known) => known,
        Err(_) => {
            drop(numbers);
            drop(starts);
            return Err(DictFault::Memory);
        }
    };
    let tables = Tables {
        first: parts.first,
        numbers,
        third: parts.third,
        starts,
        list: &*list,
        known,
    };
    let rows = rows_of(alloc, &tables, parts.second, parts.at + 5);
    drop(tables);
    rows
}

/// The dictionary of a library whose segments were read. `NotLibrary` and `BadLibrary` are returned as by `read_dictionary`.
pub fn dictionary_of_list<'a>(
    alloc: Global,
    list: &SegmentList<'a>,
) -> Result<Dictionary<'a>, DictFault>
    requires { (file : List ℕ) × AreReadFrom list.now file }
    ensures rows { IfOk result (λ dictionary. (file : List ℕ) → AreReadFrom list.now file → HasRows file dictionary) }
    ensures few { IfOk result (λ dictionary. (file : List ℕ) → AreReadFrom list.now file → 12 * length dictionary ≤ length file) }
    ensures refused { IfErr result (λ fault. (file : List ℕ) → AreReadFrom list.now file → HasNoRows fault file) }
{
    let first = match list.get(1) {
        Some(view) => view,
        None => return Err(DictFault::NotLibrary),
    };
    if first.header.kind.form() != DICTIONARY {
        return Err(DictFault::NotLibrary);
    }
    let parts = match parts_of(first.records()) {
        Some(parts) => parts,
        None => return Err(DictFault::BadLibrary(first.start)),
    };
    let rows = rows_in(alloc, list, first.start, parts)?;
    Ok(Dictionary { rows })
}

/// The dictionary of a library. `File` is the file's first fault; `NotLibrary` is returned where the file is sound and doesn't begin with a
/// segment of type $08; `BadLibrary` is returned where its dictionary isn't laid out as one, or has a row that the library doesn't bear
/// out. LENGTH of the dictionary isn't checked.
pub fn read_dictionary<'a>(alloc: Global, file: &'a [u8]) -> Result<Dictionary<'a>, DictFault>
    requires { length file.now < 2 ^ 32 }
    ensures rows { IfOk result (λ dictionary. HasRows file.now dictionary) }
    ensures few { IfOk result (λ dictionary. 12 * length dictionary ≤ length file.now) }
    ensures refused { IfErr result (λ fault. HasNoRows fault file.now) }
{
    let list = match segments(alloc, file) {
        Ok(list) => list,
        Err(fault) => return Err(file_fault(fault)),
    };
    dictionary_of_list(alloc, &list)
}
