//! Jump tables: whether a segment is laid out as one, and where its entries lead.

ghost use Rattle.std.specs.Prelude.{◌≡◌, ◌+◌, ◌-◌, ◌<◌, ◌≤◌, ◌^◌, length, map, take, slice_get, option_map, nat_le, ◌&&◌, IfSome, IsSomeAnd, false, not};
ghost use Rattle.std.specs.List.{list_any};
ghost use Rattle.omf_format.specs.Header.{first_of, is_dynamic, is_skipped};
ghost use Rattle.omf_format.specs.Number.{number_at};
ghost use Rattle.load_meaning.specs.Cells.{segment_bytes};
ghost use Rattle.load_meaning.specs.Table.{entry_start};
ghost use Rattle.load_meaning.specs.Pathnames.{paths_of};
ghost use Rattle.load_meaning.specs.LoadTable.{is_table, table_of, is_call, target_at, zero_checks, entries_checks};
ghost use Rattle.load_meaning.specs.laws.Steps.{table_checks, in_segment, entry_checks};
ghost use Rattle.load_meaning.specs.Loadable.{table_flaw, table_fault, first_in};
ghost use Rattle.omf_records.specs.Segments.{segment_of_view};
ghost use Rattle.load_content.specs.Views.{IsLoadView, AreShown};
ghost use Rattle.load_content.specs.Content.{HasPieces, IsNear, AreContents};
ghost use Rattle.omf_format.specs.File.{segment_at};
ghost use Rattle.std.specs.Option.{option_map_or};

use jump_table::{entry_count, is_unloaded, target_in, user_in};
use load_content::{
    BytePiece, SegmentContent, data_from, data_u8, gives_patches, is_place, near_u8,
};
use load_meaning::{LoadCause, LoadFault, Target};
use omf_records::SegmentView;

/// The type of a jump table.
const TABLE: u8 = 0x02;

/// The number of zeros before the entries.
const FRONT: u32 = 8;

/// The number of zeros after them.
const BACK: u32 = 4;

/// The number of bytes of an entry.
const ENTRY: u32 = 14;

/// Whether the segment is a jump table.
fn is_table(view: &SegmentView) -> bool
    ensures { result ≡ is_table (segment_of_view view.now) }
{
    view.header.kind.form() == TABLE
}

/// The number of the first segment, from 1, that is a jump table.
pub fn table_of(views: &Vec<SegmentView>) -> Option<u32>
    requires { length views.now.items + 1 < 2 ^ 32 }
    ensures { result ≡ table_of (map segment_of_view views.now.items) }
{
    let mut number = 1;
    'views: for view in views {
        if is_table(view) {
            return Some(number);
        }
        number += 1;
    }
    None
}

/// The bytes of the entry that begins there.
fn entry_from<'a>(view: &SegmentView<'a>, pieces: &[BytePiece<'a>], at: u32) -> [u8; 14]
    requires pieces { HasPieces view.now pieces.now }
    requires inside { at + 14 ≤ view.now.header.length }
    ensures near { IsNear view.now at result }
    ensures size { length result ≡ 14 }
{
    let (near, _) = data_from(view, pieces, 0, at);
    let mut entry = [0; 14];
    let mut place = 0;
    'bytes: while place < 14 {
        entry[place] = near_u8(near, place as u32, view, pieces, at);
        place += 1;
    }
    entry
}

/// What an entry has: its user ID, where it leads, and whether it calls the loader.
#[derive(Clone, Copy)]
struct EntryFields {
    user: u16,
    target: Target,
    unloaded: bool,
}

/// The fields of the entry that begins there.
fn fields_from(view: &SegmentView, pieces: &[BytePiece], at: u32) -> EntryFields
    requires pieces { HasPieces view.now pieces.now }
    requires inside { at + 14 ≤ view.now.header.length }
    ensures user { result.user ≡ number_at 2 at (segment_bytes (segment_of_view view.now)) }
    ensures file { result.target.file ≡ number_at 2 (at + 2) (segment_bytes (segment_of_view view.now)) }
    ensures segment { result.target.segment ≡ number_at 2 (at + 4) (segment_bytes (segment_of_view view.now)) }
    ensures offset { result.target.offset ≡ number_at 4 (at + 6) (segment_bytes (segment_of_view view.now)) }
    ensures unloaded { result.unloaded ≡ is_call (segment_bytes (segment_of_view view.now)) (at + 10) }
{
    let entry = entry_from(view, pieces, at);
    EntryFields {
        user: user_in(&entry, 0),
        target: target_in(&entry, 0),
        unloaded: is_unloaded(&entry, 0),
    }
}

/// Where the entry at a place among the entries, from 0, leads.
#[tactic(auto, unfolding(load_meaning::specs::LoadTable::target_at))]
pub fn target_from(view: &SegmentView, pieces: &[BytePiece], place: u32) -> Target
    requires pieces { HasPieces view.now pieces.now }
    requires inside { entry_start place + 14 ≤ view.now.header.length }
    ensures { result ≡ target_at (segment_bytes (segment_of_view view.now)) place }
{
    fields_from(view, pieces, FRONT + ENTRY * place).target
}

/// The first of a given number of bytes of the data, from there on, that isn't 0.
fn nonzero_from(view: &SegmentView, pieces: &[BytePiece], at: u32, count: u32) -> Option<u32>
    requires pieces { HasPieces view.now pieces.now }
    requires inside { at + count ≤ view.now.header.length }
    ensures { result ≡ first_of (zero_checks (segment_bytes (segment_of_view view.now)) at count) }
{
    let mut passed = 0;
    'zeros: while passed < count {
        if data_u8(view, pieces, at + passed) != 0 {
            return Some(at + passed);
        }
        passed += 1;
    }
    None
}

/// Whether an entry can lead to the segment with a number, from 1: it is there and dynamic, and isn't skipped.
fn is_called(views: &Vec<SegmentView>, number: u16) -> bool
    ensures { result ≡ (option_map_or (λ s. is_dynamic s.fields.kind && not (is_skipped s.fields.kind)) (segment_at (map segment_of_view views.now.items) number) false) }
{
    if number == 0 {
        return false;
    }
    match views.get(number as usize - 1) {
        Some(view) => view.header.kind.is_dynamic() && !view.header.kind.is_skip(),
        None => false,
    }
}

/// Whether an entry can lead to a file with this number: 1 is the file itself, and each path has one more.
fn is_file_number(paths: u32, file: u16) -> bool
    requires { paths + 1 < 2 ^ 32 }
    ensures { result ≡ (nat_le 1 file && nat_le file (paths + 1)) }
{
    file >= 1 && u32::from(file) <= paths + 1
}

/// Where the first field begins that is wrong in the entry there.
fn entry_flaw(
    views: &Vec<SegmentView>,
    paths: u32,
    view: &SegmentView,
    pieces: &[BytePiece],
    at: u32,
) -> Option<u32>
    requires paths { paths ≡ length (paths_of (map segment_of_view views.now.items)) }
    requires few { paths + 1 < 2 ^ 32 }
    requires pieces { HasPieces view.now pieces.now }
    requires inside { at + 14 ≤ view.now.header.length }
    ensures { result ≡ first_of (entry_checks (map segment_of_view views.now.items) (segment_bytes (segment_of_view view.now)) at) }
{
    let entry = fields_from(view, pieces, at);
    if entry.user != 0 {
        return Some(at);
    }
    let target = entry.target;
    if !is_file_number(paths, target.file) {
        return Some(at + 2);
    }
    let own = target.file == 1;
    if own && !is_called(views, target.segment) {
        return Some(at + 4);
    }
    if own && !is_place(views, target.segment, target.offset) {
        return Some(at + 6);
    }
    if !entry.unloaded {
        return Some(at + 10);
    }
    None
}

/// Where the first field begins that is wrong in the first `count` entries.
fn entries_flaw(
    views: &Vec<SegmentView>,
    paths: u32,
    view: &SegmentView,
    pieces: &[BytePiece],
    count: u32,
) -> Option<u32>
    requires paths { paths ≡ length (paths_of (map segment_of_view views.now.items)) }
    requires few { paths + 1 < 2 ^ 32 }
    requires pieces { HasPieces view.now pieces.now }
    requires inside { entry_start count ≤ view.now.header.length }
    ensures { result ≡ first_of (entries_checks (map segment_of_view views.now.items) (segment_bytes (segment_of_view view.now)) 0 count) }
{
    let mut place = 0;
    'entries: while place < count {
        match entry_flaw(views, paths, view, pieces, FRONT + ENTRY * place) {
            Some(at) => return Some(at),
            None => {}
        }
        place += 1;
    }
    None
}

/// Where the first field begins that is wrong in a table of `count` entries.
fn layout_flaw(
    views: &Vec<SegmentView>,
    paths: u32,
    view: &SegmentView,
    pieces: &[BytePiece],
    count: u32,
) -> Option<u32>
    requires paths { paths ≡ length (paths_of (map segment_of_view views.now.items)) }
    requires few { paths + 1 < 2 ^ 32 }
    requires pieces { HasPieces view.now pieces.now }
    requires inside { entry_start count + 4 ≡ view.now.header.length }
    ensures { result ≡ first_of (table_checks (map segment_of_view views.now.items) (segment_bytes (segment_of_view view.now)) count) }
{
    match nonzero_from(view, pieces, 0, FRONT) {
        Some(at) => return Some(at),
        None => {}
    }
    match entries_flaw(views, paths, view, pieces, count) {
        Some(at) => return Some(at),
        None => {}
    }
    nonzero_from(view, pieces, FRONT + ENTRY * count, BACK)
}

/// Why a table isn't one, as a place in its segment: `second` says that another is before it.
#[tactic(auto, unfolding(load_meaning::specs::Loadable::table_flaw))]
fn table_flaw(
    views: &Vec<SegmentView>,
    paths: u32,
    view: &SegmentView,
    pieces: &[BytePiece],
    number: u32,
    second: bool,
) -> Option<u32>
    requires paths { paths ≡ length (paths_of (map segment_of_view views.now.items)) }
    requires few { paths + 1 < 2 ^ 32 }
    requires short { length view.now.file.now < 2 ^ 32 }
    requires shown { IsLoadView view.now.file.now view.now }
    requires pieces { HasPieces view.now pieces.now }
    requires second { second ≡ list_any is_table (take (number - 1) (map segment_of_view views.now.items)) }
    ensures { result ≡ table_flaw (map segment_of_view views.now.items) number (segment_of_view view.now) }
{
    if second || view.header.kind.is_dynamic() || view.header.kind.is_skip() {
        return Some(0);
    }
    if gives_patches(view.records()) {
        return Some(0);
    }
    let size = view.header.length;
    let count = entry_count(size);
    if u64::from(size) != 12 + 14 * u64::from(count) {
        return Some(size);
    }
    layout_flaw(views, paths, view, pieces, count)
}

/// What is wrong with the segment that has this number, if it is a table.
fn fault_of(
    views: &Vec<SegmentView>,
    paths: u32,
    view: &SegmentView,
    pieces: &[BytePiece],
    number: u32,
    second: bool,
) -> Option<LoadFault>
    requires paths { paths ≡ length (paths_of (map segment_of_view views.now.items)) }
    requires few { paths + 1 < 2 ^ 32 }
    requires short { length view.now.file.now < 2 ^ 32 }
    requires shown { IsLoadView view.now.file.now view.now }
    requires pieces { HasPieces view.now pieces.now }
    requires second { second ≡ list_any is_table (take (number - 1) (map segment_of_view views.now.items)) }
    ensures value { result ≡ option_map (in_segment number) (table_fault (map segment_of_view views.now.items) number (segment_of_view view.now)) }
    ensures named { IfSome result (λ fault. fault.cause ≡ LoadCause.Memory → ⊥) }
{
    if !is_table(view) {
        return None;
    }
    match table_flaw(views, paths, view, pieces, number, second) {
        Some(at) => Some(LoadFault {
            cause: LoadCause::BadTable,
            segment: number,
            at,
        }),
        None => None,
    }
}

/// The data of the segment at a place, from 0.
fn pieces_at<'c, 'a>(contents: &'c Vec<SegmentContent<'a>>, place: usize) -> &'c [BytePiece<'a>]
    requires { place < length contents.now.items }
    ensures { IsSomeAnd (slice_get contents.now.items place) (λ content. content.pieces.items ≡ result.now) }
{
    contents[place].pieces.as_slice()
}

/// The first fault of phase 5, segment by segment, of a file with `paths` paths.
pub fn check_tables(
    views: &Vec<SegmentView>,
    contents: &Vec<SegmentContent>,
    paths: u32,
) -> Option<LoadFault>
    requires shown { AreShown views.now.items }
    requires paths { paths ≡ length (paths_of (map segment_of_view views.now.items)) }
    requires few { paths + 1 < 2 ^ 32 }
    requires contents { AreContents views.now.items contents.now.items }
    ensures value { result ≡ first_in (table_fault (map segment_of_view views.now.items)) 1 (map segment_of_view views.now.items) }
    ensures named { IfSome result (λ fault. fault.cause ≡ LoadCause.Memory → ⊥) }
{
    let mut number = 1;
    let mut second = false;
    'views: for view in views {
        let pieces = pieces_at(contents, number as usize - 1);
        match fault_of(views, paths, view, pieces, number, second) {
            Some(fault) => return Some(fault),
            None => {}
        }
        second = second || is_table(view);
        number += 1;
    }
    None
}
