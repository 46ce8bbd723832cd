//! The source of a file.

ghost use Rattle.std.specs.Prelude.{◌≡◌, ◌<◌, ◌^◌, ◌∷◌, ◌++◌, [], ℕ, List, Err, Some, length, IfOk, IfErr, OnOk, OnErr, IsErrOf};
ghost use Rattle.omf_format.specs.declared.fault.FileFault.{FileFault};
ghost use Rattle.omf_format.specs.Header.{HeaderFields};
ghost use Rattle.omf_format.specs.Reading.{records_of, IsBody};
ghost use Rattle.omf_header.specs.View.{fields};
ghost use Rattle.omf_records.specs.View.{view};
ghost use Rattle.omf_records.specs.Segments.{IsSound, IsRefused, segment_of_view};
ghost use Rattle.list_meaning.specs.Answer.{IsListing, IsListFault, cause_of};
ghost use Rattle.list_meaning.specs.Listing as listing;
ghost use Rattle.list_meaning.specs.Listing.{equate_name, said_from, listing_of};
ghost use Rattle.list_meaning.specs.declared.faults.ListCause.TheVariants as causes;
ghost use Rattle.w65_list.specs.BeforeView.{IsBefore};
ghost use Rattle.list_lines.specs.LineView.{WroteAll};
ghost use Rattle.list_lines.specs.NamesView.{AreNames};
ghost use Rattle.list_lines.specs.OutputView.{finished_lines, open_line};
ghost use Rattle.w65_list.specs.SourceView.{WroteRecords, WroteSegment, WroteFile, equates_in, IsStop, IsRefusal, IsReported, IsSegmentFault};

use crate::front::put_front;
use crate::records::PendingRun;
use list_lines::{LineStop, ListingText, Names};
use list_meaning::{ListCause, ListFault};
use omf_header::Header;
use omf_records::{FileCause, FileFault, Rec, Records, SegmentList, SegmentView, segments};
use std::alloc::{AllocError, Global};

/// The names of the equates among records.
fn equate_names<'a>(alloc: Global, records: Records<'a>) -> Result<Names<'a>, AllocError>
    requires { IsBody records }
    ensures { IfOk result (λ names. AreNames names (equates_in (records_of records.entry))) }
{
    let mut names = Names::new(alloc);
    let mut records = records;
    'records: loop {
        match records.next() {
            Ok(None) => return Ok(names),
            Ok(Some((_, rec))) => add_equate(&mut names, &rec)?,
            Err(_) => unreachable!(),
        }
    }
}

/// The name of an equate, or nothing.
fn add_equate<'a>(names: &mut Names<'a>, rec: &Rec<'a>) -> Result<(), AllocError>
    ensures { OnOk result ((all : List (List ℕ)) → AreNames names.old all → AreNames names.new (equate_name (view rec.now) ++ all)) }
{
    match rec {
        Rec::Equate { name, .. } => names.add(name),
        Rec::End
        | Rec::Const { .. }
        | Rec::LongConst { .. }
        | Rec::Align { .. }
        | Rec::Org { .. }
        | Rec::Space { .. }
        | Rec::Reloc { .. }
        | Rec::InterSeg { .. }
        | Rec::ShortReloc { .. }
        | Rec::ShortInterSeg { .. }
        | Rec::Super { .. }
        | Rec::Using { .. }
        | Rec::Strong { .. }
        | Rec::Label { .. }
        | Rec::Formula { .. }
        | Rec::Entry { .. } => Ok(()),
    }
}

/// Why a segment has no listing, and where.
#[derive(Clone, Copy, Debug, PartialEq, Eq)]
enum Refusal {
    /// There is no line for what is at this displacement.
    NotListable(u32),
    /// Out of memory.
    Memory,
}

impl From<AllocError> for Refusal {
    ghost use Rattle.std.specs.Prelude.{◌≡◌};
    ghost use Rattle.w65_list.specs.declared.source.Refusal.TheVariants.{Memory};

    ghost from_gives = { λ _ refusal. refusal ≡ Memory };

    fn from(_: AllocError) -> Refusal {
        Refusal::Memory
    }
}

/// What stops at a place.
fn refusal_at(place: u32, stop: LineStop) -> Refusal
    ensures { IsStop place stop result }
{
    match stop {
        LineStop::NotListable => Refusal::NotListable(place),
        LineStop::Memory => Refusal::Memory,
    }
}

/// The lines of records.
fn put_records<'a>(
    alloc: Global,
    out: &mut ListingText,
    header: &Header,
    names: &Names,
    before: PendingRun<'a>,
    records: Records<'a>,
) -> Result<(), Refusal>
    requires line { open_line out.old ≡ [] }
    requires body { IsBody records }
    requires layout { records.layout.lab_len ≡ header.now.lab_len }
    requires known { (b : listing.PendingRun) × (all : List (List ℕ)) × IsBefore before b × AreNames names.now all }
    ensures wrote { OnOk result ((b : listing.PendingRun) (all : List (List ℕ)) → IsBefore before.entry b → AreNames names.now all
        → WroteRecords (fields header.now) all b (records_of records.entry) out.old out.new) }
    ensures refused { IfErr result (λ refusal. (b : listing.PendingRun) (all : List (List ℕ)) → IsBefore before.entry b → AreNames names.now all
        → IsRefusal refusal (λ at. said_from (fields header.now) all b (records_of records.entry) ≡ Err at)) }
{
    let mut before = before;
    let mut records = records;
    'records: loop {
        match records.next() {
            Ok(None) => return Ok(()),
            Ok(Some((place, rec))) => match before.put_record(alloc, out, header, names, &rec) {
                Ok(()) => {}
                Err(stop) => return Err(refusal_at(place, stop)),
            },
            Err(_) => unreachable!(),
        }
    }
}

/// The lines of a segment.
fn put_segment(alloc: Global, out: &mut ListingText, view: &SegmentView) -> Result<(), Refusal>
    requires line { open_line out.old ≡ [] }
    requires sound { IsSound view.now }
    ensures wrote { OnOk result (WroteSegment (segment_of_view view.now) out.old out.new) }
    ensures refused { IfErr result (λ refusal. IsRefusal refusal (λ at. listing_of (segment_of_view view.now) ≡ Err at)) }
{
    if let Err(stop) = put_front(out, view) {
        return Err(refusal_at(view.start, stop));
    }
    let names = equate_names(alloc, view.records())?;
    let before = PendingRun::new(alloc, view.header.name.bytes())?;
    put_records(alloc, out, &view.header, &names, before, view.records())
}

/// A fault of a segment.
fn segment_fault(refusal: Refusal, segment: u32) -> ListFault
    ensures { IsReported refusal segment result }
{
    match refusal {
        Refusal::NotListable(at) => ListFault {
            cause: ListCause::NotListable,
            segment,
            at,
        },
        Refusal::Memory => ListFault {
            cause: ListCause::Memory,
            segment: 0,
            at: 0,
        },
    }
}

/// A fault of the file.
fn file_fault(fault: FileFault) -> ListFault
    ensures { result ≡ record { cause = cause_of fault.cause; segment = fault.segment; at = fault.at } }
{
    let cause = match fault.cause {
        FileCause::Truncated => ListCause::Truncated,
        FileCause::BadHeader => ListCause::BadHeader,
        FileCause::Unsupported => ListCause::Unsupported,
        FileCause::BadRecord => ListCause::BadRecord,
        FileCause::Memory => ListCause::Memory,
    };
    ListFault {
        cause,
        segment: fault.segment,
        at: fault.at,
    }
}

/// The lines of all segments.
fn put_file(alloc: Global, list: &SegmentList) -> Result<ListingText, ListFault>
    ensures line { IfOk result (λ out. open_line out ≡ []) }
    ensures wrote { IfOk result (λ out. WroteFile list.now out) }
    ensures refused { IfErr result (λ fault. IsSegmentFault list.now fault) }
{
    let mut out = ListingText::new(alloc);
    'segments: for place in 0..list.count() {
        match list.get(place + 1) {
            Some(view) => match put_segment(alloc, &mut out, view) {
                Ok(()) => {}
                Err(refusal) => return Err(segment_fault(refusal, place + 1)),
            },
            None => unreachable!(),
        }
    }
    Ok(out)
}

/// The source of an object file: assembled without macros it gives segments that represent the same. Or the first fault of the file, else
/// the first place that can't be listed, else that the text is too long.
pub fn list_source(alloc: Global, file: &[u8]) -> Result<Vec<u8>, ListFault>
    requires { length file.now < 2 ^ 32 }
    ensures listed { IfOk result (λ text. IsListing file.now text.items) }
    ensures refused { IfErr result (λ fault. IsListFault file.now fault) }
{
    let list = match segments(alloc, file) {
        Ok(list) => list,
        Err(fault) => return Err(file_fault(fault)),
    };
    let out = put_file(alloc, &list)?;
    match out.into_text() {
        Some(text) => Ok(text),
        None => Err(ListFault {
            cause: ListCause::TooLong,
            segment: 0,
            at: 0,
        }),
    }
}
