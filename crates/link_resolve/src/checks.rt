//! What the segments of an input may have.

ghost use Rattle.std.specs.Prelude.{◌≡◌, Some, None, option_map, IfOk, IfErr};
ghost use Rattle.omf_format.specs.Header.{alignment_of};
ghost use Rattle.omf_header.specs.View.{fields};
ghost use Rattle.omf_records.specs.Segments.{IsSound, segment_of_view};
ghost use Rattle.omf_records.specs.View.{view};
ghost use Rattle.object_meaning.specs.Sizes.{body_size};
ghost use Rattle.link_meaning.specs.LinkFaults.{type_fault, record_fault, segment_fault, segments_fault};
ghost use Rattle.link_meaning.specs.laws.Steps.{records_fault, length_fault};
ghost use Rattle.link_tables.specs.Sizes.{in_32_bits};

use link_meaning::LinkCause;
use link_program::{next_record, size_after};
use omf_header::Header;
use omf_records::{Rec, SegmentList, SegmentView};

/// A type that no input has, and a dictionary that isn't the first segment.
fn type_fault(header: &Header, first: bool) -> Option<LinkCause>
    ensures { result ≡ type_fault first (fields header.now) }
{
    match header.kind.form() {
        0x02 | 0x04 => Some(LinkCause::Unsupported),
        0x08 if !first => Some(LinkCause::BadRecord),
        _ => None,
    }
}

/// Patches and ENTRY belong to load files, and ALIGN can't ask for more than the segment has.
fn record_fault(rec: &Rec, align: u32) -> Option<LinkCause>
    ensures { result ≡ record_fault align (view rec.now) }
{
    match rec {
        Rec::Align { n } => {
            if n.is_power_of_two() && *n <= align {
                None
            } else {
                Some(LinkCause::AlignFault)
            }
        }
        Rec::Reloc { .. }
        | Rec::InterSeg { .. }
        | Rec::ShortReloc { .. }
        | Rec::ShortInterSeg { .. }
        | Rec::Super { .. }
        | Rec::Entry { .. } => Some(LinkCause::BadRecord),
        Rec::End
        | Rec::Const { .. }
        | Rec::LongConst { .. }
        | Rec::Org { .. }
        | Rec::Space { .. }
        | Rec::Using { .. }
        | Rec::Strong { .. }
        | Rec::Label { .. }
        | Rec::Equate { .. }
        | Rec::Formula { .. } => None,
    }
}

/// How many cells a segment's records give, where that number has 32 bits. Otherwise the first of them that it may not have,
/// with its displacement.
fn records_size(segment: &SegmentView) -> Result<Option<u32>, (LinkCause, u32)>
    requires { IsSound segment.now }
    ensures sound { IfOk result (λ _. records_fault (alignment_of segment.now.header.align) (segment_of_view segment.now).records ≡ None) }
    ensures size { IfOk result (λ size. size ≡ in_32_bits (body_size (segment_of_view segment.now))) }
    ensures fault { IfErr result (λ found. records_fault (alignment_of segment.now.header.align) (segment_of_view segment.now).records ≡ Some found) }
{
    let align = segment.header.alignment();
    let mut records = segment.records();
    let mut size = Some(0);
    'walk: loop {
        match next_record(&mut records) {
            None => return Ok(size),
            Some((at, rec)) => match record_fault(&rec, align) {
                Some(cause) => return Err((cause, at)),
                None => size = size_after(size, &rec),
            },
        }
    }
}

/// LENGTH counts the cells of the records and RESSPC.
fn length_fault(segment: &SegmentView, size: Option<u32>) -> Option<(LinkCause, u32)>
    requires { size ≡ in_32_bits (body_size (segment_of_view segment.now)) }
    ensures { result ≡ length_fault (segment_of_view segment.now) }
{
    let length = u64::from(segment.header.length);
    match size {
        Some(size) if u64::from(size) + u64::from(segment.header.res_spc) == length => None,
        _ => Some((LinkCause::BadLength, segment.start)),
    }
}

/// What is wrong with a segment, with its place: its type, then its records, then its LENGTH.
#[tactic(auto, unfolding(link_meaning::specs::LinkFaults::segment_fault))]
fn segment_fault(segment: &SegmentView, first: bool) -> Option<(LinkCause, u32)>
    requires { IsSound segment.now }
    ensures { result ≡ segment_fault first (segment_of_view segment.now) }
{
    match type_fault(&segment.header, first) {
        Some(cause) => Some((cause, segment.start)),
        None => match records_size(segment) {
            Err(found) => Some(found),
            Ok(size) => length_fault(segment, size),
        },
    }
}

/// The first segment at fault: its number, and what is wrong with it.
pub fn segments_fault(list: &SegmentList) -> Option<(u32, (LinkCause, u32))>
    ensures { result ≡ segments_fault 1 list.now }
{
    let mut number = 0;
    'segments: while number < list.count() {
        number += 1;
        match list.get(number) {
            Some(segment) => match segment_fault(segment, number == 1) {
                Some(found) => return Some((number, found)),
                None => {}
            },
            None => unreachable!(),
        }
    }
    None
}
