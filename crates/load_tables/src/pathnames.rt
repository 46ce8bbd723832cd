//! Pathname segments: whether a segment is laid out as one, and its paths.

ghost use Rattle.std.specs.Prelude.{◌≡◌, ◌+◌, ◌<◌, ◌≤◌, ◌^◌, ◌==◌, ◌&&◌, nat_lt, ℕ, length, map, option_map, IfOk, IfErr, IfNone, OnOk, None};
ghost use Rattle.std.specs.List.{list_all};
ghost use Rattle.omf_format.specs.Reading.{records_of, IsBody};
ghost use Rattle.load_meaning.specs.Cells.{segment_bytes};
ghost use Rattle.load_meaning.specs.Pathnames.{has_pathnames, most_paths, is_path_byte, path_start, path_size, row_flaw, long_bytes, paths_of, pathnames_of};
ghost use Rattle.load_meaning.specs.Loadable.{shape_fault, pathnames_fault, first_in};
ghost use Rattle.load_meaning.specs.laws.Steps.{in_segment};
ghost use Rattle.omf_records.specs.View as records;
ghost use Rattle.omf_records.specs.Segments.{segment_of_view};
ghost use Rattle.load_content.specs.Views.{IsLoadView, AreShown, IsLaterRefused};
ghost use Rattle.load_tables.specs.View.{seen_paths};
ghost use Rattle.load_tables.specs.Paths.{lone_bytes, TakesLast, flaw_in, rows_in, IsFlaw, flaw_after, fault_after, paths_then};

use load_meaning::{LoadCause, LoadFault};
use omf_base::{first_items, items_after, number};
use omf_records::{Rec, Records, SegmentView};
use std::alloc::{AllocFailed, Global};

/// The type of a pathname segment.
const PATHNAMES: u8 = 0x04;

/// The most rows of a pathname segment.
const MOST_PATHS: u16 = 16;

/// The number of bytes of a row before its path.
const PATH_START: usize = 11;

/// The number of the first file that has a row.
const FIRST_FILE: u32 = 2;

/// Why bytes aren't the rows of a pathname segment.
enum RowsFault {
    /// The first field that is wrong or passes the end begins there.
    Flaw(u32),
    Memory,
}

impl<T: Drop> From<AllocFailed<T>> for RowsFault {
    ghost use Rattle.std.specs.Prelude.{◌≡◌};
    ghost use Rattle.load_tables.specs.declared.pathnames.RowsFault.TheVariants.{Memory};

    ghost from_gives = { λ _ fault. fault ≡ Memory };

    fn from(_: AllocFailed<T>) -> RowsFault {
        RowsFault::Memory
    }
}

/// Whether the segment is a pathname segment.
fn has_pathnames(view: &SegmentView) -> bool
    ensures { result ≡ has_pathnames (segment_of_view view.now) }
{
    view.header.kind.form() == PATHNAMES
}

/// The number of the first segment, from 1, that is a pathname segment.
pub fn pathnames_of(views: &Vec<SegmentView>) -> Option<u32>
    requires { length views.now.items + 1 < 2 ^ 32 }
    ensures { result ≡ pathnames_of (map segment_of_view views.now.items) }
{
    let mut number = 1;
    'views: for view in views {
        if has_pathnames(view) {
            return Some(number);
        }
        number += 1;
    }
    None
}

/// Whether all bytes are 0.
fn are_zeros(bytes: &[u8]) -> bool
    ensures { result ≡ list_all (λ byte. byte == 0) bytes.now }
{
    bytes.iter().all(|byte| *byte == 0)
}

/// Whether a path can have these bytes.
fn are_path_bytes(bytes: &[u8]) -> bool
    ensures { result ≡ list_all is_path_byte bytes.now }
{
    bytes.iter().all(|byte| *byte >= 0x21 && *byte <= 0x7E)
}

/// Where, after its number, the first field of the row at the start begins that is wrong or passes the end.
fn row_flaw(bytes: &[u8], at: u32) -> Option<u32>
    requires some { 2 ≤ length bytes.now }
    requires short { at + length bytes.now < 2 ^ 32 }
    ensures value { result ≡ row_flaw at bytes.now }
    ensures inside { IfNone result (path_start + path_size bytes.now ≤ length bytes.now) }
{
    if bytes.len() < 10 || !are_zeros(first_items(items_after(bytes, 2), 8)) {
        return Some(at + 2);
    }
    if bytes.len() < PATH_START || number(bytes, 10, 1) == 0 {
        return Some(at + 10);
    }
    let size = number(bytes, 10, 1) as usize;
    if bytes.len() < PATH_START + size
        || !are_path_bytes(first_items(items_after(bytes, PATH_START), size))
    {
        return Some(at + PATH_START as u32);
    }
    None
}

/// Whether a number ends the rows, after `rows` of them.
fn is_end(file: u32, rows: u16) -> bool
    ensures { result ≡ (file == 0 && nat_lt 0 rows) }
{
    file == 0 && rows > 0
}

/// Whether a number is that of the next row, after `rows` rows of at most `most`.
fn is_next(file: u32, rows: u16, most: u16) -> bool
    ensures { result ≡ (nat_lt rows most && (file == rows + 2)) }
{
    rows < most && file == u32::from(rows) + FIRST_FILE
}

/// The paths of at most `most` rows, or where the first field begins that is wrong or passes the end.
fn paths_in<'a>(alloc: Global, bytes: &'a [u8], most: u16) -> Result<Vec<&'a [u8]>, RowsFault>
    requires { length bytes.now < 2 ^ 32 }
    ensures sound { OnOk result (flaw_in most bytes.now ≡ None) }
    ensures paths { IfOk result (λ paths. seen_paths paths.items ≡ rows_in most bytes.now) }
    ensures flaw { IfErr result (λ fault. IsFlaw fault (flaw_in most bytes.now)) }
{
    let mut paths = Vec::new(alloc);
    let mut rest = bytes;
    let mut at = 0;
    let mut rows: u16 = 0;
    'rows: loop {
        if rest.len() < 2 {
            return Err(RowsFault::Flaw(at));
        }
        let file = number(rest, 0, 2);
        if is_end(file, rows) {
            if rest.len() == 2 {
                return Ok(paths);
            }
            return Err(RowsFault::Flaw(at + 2));
        }
        if !is_next(file, rows, most) {
            return Err(RowsFault::Flaw(at));
        }
        match row_flaw(rest, at) {
            Some(flaw) => return Err(RowsFault::Flaw(flaw)),
            None => {}
        }
        let size = number(rest, 10, 1);
        paths.push(first_items(items_after(rest, PATH_START), size as usize))?;
        rest = items_after(rest, PATH_START + size as usize);
        at += PATH_START as u32 + size;
        rows += 1;
    }
}

/// The bytes of an LCONST.
fn long_bytes<'a>(rec: &Rec<'a>) -> Option<&'a [u8]>
    ensures { option_map (λ bytes. bytes.now) result ≡ long_bytes (records.view rec.now) }
{
    match *rec {
        Rec::LongConst { bytes } => Some(bytes),
        Rec::End
        | Rec::Const { .. }
        | Rec::Align { .. }
        | Rec::Org { .. }
        | Rec::Space { .. }
        | Rec::Reloc { .. }
        | Rec::InterSeg { .. }
        | Rec::ShortReloc { .. }
        | Rec::ShortInterSeg { .. }
        | Rec::Super { .. }
        | Rec::Using { .. }
        | Rec::Strong { .. }
        | Rec::Label { .. }
        | Rec::Equate { .. }
        | Rec::Formula { .. }
        | Rec::Entry { .. } => None,
    }
}

/// There is one record more, and it is the last.
fn takes_last(records: &mut Records) -> bool
    ensures { TakesLast records.old result }
{
    match records.next() {
        Ok(Some(_)) => match records.next() {
            Ok(Some(_)) => false,
            Ok(None) => true,
            Err(_) => false,
        },
        Ok(None) => false,
        Err(_) => false,
    }
}

/// The bytes of a body that is one LCONST and END.
fn lone_bytes<'a>(records: Records<'a>) -> Option<&'a [u8]>
    requires { IsBody records }
    ensures { option_map (λ bytes. bytes.now) result ≡ lone_bytes (records_of records.entry) }
{
    let mut records = records;
    match records.next() {
        Ok(Some(found)) => {
            let bytes = long_bytes(&found.1)?;
            if takes_last(&mut records) {
                Some(bytes)
            } else {
                None
            }
        }
        Ok(None) => None,
        Err(_) => None,
    }
}

/// The paths of a pathname segment: `second` says that another is before it.
fn segment_paths<'a>(
    alloc: Global,
    view: &SegmentView<'a>,
    second: bool,
) -> Result<Vec<&'a [u8]>, RowsFault>
    requires short { length view.now.file.now < 2 ^ 32 }
    requires shown { IsLoadView view.now.file.now view.now }
    requires sized { length (segment_bytes (segment_of_view view.now)) ≡ view.now.header.length }
    ensures sound { OnOk result (flaw_after second (segment_of_view view.now) ≡ None) }
    ensures paths { IfOk result (λ paths. seen_paths paths.items ≡ rows_in most_paths (segment_bytes (segment_of_view view.now))) }
    ensures flaw { IfErr result (λ fault. IsFlaw fault (flaw_after second (segment_of_view view.now))) }
{
    if second || view.header.kind.is_dynamic() || view.header.kind.is_skip() {
        return Err(RowsFault::Flaw(0));
    }
    match lone_bytes(view.records()) {
        Some(bytes) => {
            if bytes.len() != view.header.length as usize {
                return Err(RowsFault::Flaw(0));
            }
            paths_in(alloc, bytes, MOST_PATHS)
        }
        None => Err(RowsFault::Flaw(0)),
    }
}

/// A fault of rows as one of the segment with this number.
fn to_load_fault(fault: RowsFault, segment: u32) -> LoadFault
    ensures flaw { (at : ℕ) → fault ≡ RowsFault.Flaw at → result ≡ in_segment segment (LoadCause.BadTable, at) }
    ensures memory { fault ≡ RowsFault.Memory → result ≡ record { cause = LoadCause.Memory; segment = 0; at = 0 } }
{
    match fault {
        RowsFault::Flaw(at) => LoadFault {
            cause: LoadCause::BadTable,
            segment,
            at,
        },
        RowsFault::Memory => LoadFault {
            cause: LoadCause::Memory,
            segment: 0,
            at: 0,
        },
    }
}

/// Reads the paths of the segment with this number, if it is a pathname segment; `second` says that another is before it.
#[tactic(auto, unfolding(crate::specs::Paths::fault_after, crate::specs::Paths::paths_then))]
fn take_paths<'a>(
    alloc: Global,
    view: &SegmentView<'a>,
    number: u32,
    second: bool,
    paths: &mut Vec<&'a [u8]>,
) -> Result<(), LoadFault>
    requires short { length view.now.file.now < 2 ^ 32 }
    requires shown { IsLoadView view.now.file.now view.now }
    requires sized { length (segment_bytes (segment_of_view view.now)) ≡ view.now.header.length }
    ensures sound { OnOk result (fault_after second number (segment_of_view view.now) ≡ None) }
    ensures paths { OnOk result (seen_paths paths.new.items ≡ paths_then (segment_of_view view.now) (seen_paths paths.old.items)) }
    ensures refused { IfErr result (λ fault. IsLaterRefused fault (fault_after second number (segment_of_view view.now))) }
{
    if !has_pathnames(view) {
        return Ok(());
    }
    match segment_paths(alloc, view, second) {
        Ok(found) => {
            *paths = found;
            Ok(())
        }
        Err(fault) => Err(to_load_fault(fault, number)),
    }
}

/// The paths of the file, or the first fault of phase 4, segment by segment.
pub fn check_pathnames<'a>(
    alloc: Global,
    views: &Vec<SegmentView<'a>>,
) -> Result<Vec<&'a [u8]>, LoadFault>
    requires shown { AreShown views.now.items }
    requires sized { first_in shape_fault 1 (map segment_of_view views.now.items) ≡ None }
    ensures sound { OnOk result (first_in (pathnames_fault (map segment_of_view views.now.items)) 1 (map segment_of_view views.now.items) ≡ None) }
    ensures paths { IfOk result (λ paths. seen_paths paths.items ≡ paths_of (map segment_of_view views.now.items)) }
    ensures refused { IfErr result (λ fault. IsLaterRefused fault (first_in (pathnames_fault (map segment_of_view views.now.items)) 1 (map segment_of_view views.now.items))) }
{
    let mut paths = Vec::new(alloc);
    let mut number = 1;
    let mut second = false;
    'views: for view in views {
        take_paths(alloc, view, number, second, &mut paths)?;
        second = second || has_pathnames(view);
        number += 1;
    }
    Ok(paths)
}
