//! The rows of a library's dictionary, each with the segment that it would bring in.

ghost use Rattle.std.specs.Prelude.{◌≡◌, ◌+◌, ◌<◌, ◌++◌, ◌∷◌, [], List, ℕ, Some, length, map, slice_get, OnOk};
ghost use Rattle.std.specs.List.{filter_map};
ghost use Rattle.omf_format.specs.File.{Segment};
ghost use Rattle.omf_records.specs.Segments.{IsSound, segment_of_view};
ghost use Rattle.lib_dict.specs.Library.{row_view};
ghost use Rattle.lib_dict.specs.Rows.{seen_row};
ghost use Rattle.link_meaning.specs.Member.{Offer, offer_of, LinkSetting};
ghost use Rattle.link_meaning.specs.Member as reported;
ghost use Rattle.link_meaning.specs.LinkedList.{has_title};
ghost use Rattle.link_tables.specs.Offers.{AreOffers};
ghost use Rattle.link_resolve.specs.Libraries.{StartsAscend, IsReported, AreReported};
ghost use Rattle.link_program.specs.Inputs.{StandsIn, AllStand};

use lib_dict::{Dictionary, Row};
use link_program::{Offers, Origin};
use omf_records::{SegmentList, SegmentView};
use std::alloc::AllocError;

/// Where the segment at a place, from 0, starts.
fn start_at(list: &SegmentList, place: u32) -> u32
    requires { place < length list.now }
    ensures { (s : Segment) → slice_get list.now place ≡ Some s → result ≡ s.start }
{
    let _few = list.count();
    match list.get(place + 1) {
        Some(segment) => segment.start,
        None => unreachable!(),
    }
}

/// The number, from 1, of the segment that starts there.
fn number_of(list: &SegmentList, at: u32) -> Option<u32>
    requires { StartsAscend list.now }
    ensures { (k : ℕ) (s : Segment) → slice_get list.now k ≡ Some s → s.start ≡ at → result ≡ Some (k + 1) }
{
    let mut low = 0;
    let mut high = list.count();
    'search: while low < high {
        let middle = low + (high - low) / 2;
        let start = start_at(list, middle);
        if start == at {
            return Some(middle + 1);
        }
        if start < at {
            low = middle + 1;
        } else {
            high = middle;
        }
    }
    None
}

/// Whether a data segment has this SEGNAME and privacy.
fn is_titled(segment: &SegmentView, name: &[u8], private: bool) -> bool
    ensures { result ≡ has_title (segment_of_view segment.now) name.now private }
{
    if segment.header.kind.form() != 0x01 {
        return false;
    }
    let title = segment.header.name.bytes();
    if title.is_empty() {
        return false;
    }
    if name != title {
        return false;
    }
    if private {
        segment.header.kind.is_private()
    } else {
        !segment.header.kind.is_private()
    }
}

/// Adds a row of the library with this number among the inputs.
fn add_row<'a>(
    offers: &mut Offers<'a>,
    segments: &SegmentList<'a>,
    row: Row<'a>,
    file: u32,
) -> Result<(), AllocError>
    requires ascend { StartsAscend segments.now }
    requires reported { IsReported segments.now (seen_row row) }
    ensures { OnOk result ((setting : LinkSetting) (os : List Offer) (r : reported.OfferedRow) (o : Offer) → seen_row row.entry ≡ row_view segments.now r → StandsIn segments.now r
        → offer_of setting file segments.now r ≡ Some o → AreOffers os offers.old → AreOffers (os ++ o ∷ []) offers.new) }
{
    let number = match number_of(segments, row.at) {
        Some(number) => number,
        None => unreachable!(),
    };
    let segment = match segments.get(number) {
        Some(segment) => segment,
        None => unreachable!(),
    };
    let titled = is_titled(segment, row.name, row.private);
    let origin = Origin {
        file,
        segment: number,
        from: row.file,
    };
    offers.add(row.name, row.private, origin, titled)
}

/// Adds the rows of a library's dictionary, in order.
pub fn add_rows<'a>(
    offers: &mut Offers<'a>,
    segments: &SegmentList<'a>,
    dictionary: &Dictionary<'a>,
    file: u32,
) -> Result<(), AllocError>
    requires ascend { StartsAscend segments.now }
    requires reported { AreReported segments.now dictionary.now }
    ensures { OnOk result ((setting : LinkSetting) (os : List Offer) (rows : List reported.OfferedRow) → dictionary.now ≡ map (row_view segments.now) rows → AllStand segments.now rows
        → AreOffers os offers.old → AreOffers (os ++ filter_map (offer_of setting file segments.now) rows) offers.new) }
{
    let rows = dictionary.count() as usize;
    offers.reserve(rows)?;
    let mut place = 0;
    'rows: while place < dictionary.count() {
        let row = match dictionary.row(place) {
            Some(row) => row,
            None => unreachable!(),
        };
        add_row(offers, segments, row, file)?;
        place += 1;
    }
    Ok(())
}
