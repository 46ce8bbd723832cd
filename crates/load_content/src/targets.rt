//! The places that the records of a load file name, which have to be there, and the bytes that its patches give.

ghost use Rattle.std.specs.Prelude.{◌≡◌, ◌+◌, ◌<◌, ◌≤◌, ◌^◌, ◌++◌, [], ◌∷◌, length, map, option_map, IfOk, IfErr, Some, None, Ok, false, not};
ghost use Rattle.omf_format.specs.Reading.{records_of, IsBody};
ghost use Rattle.omf_format.specs.Super.{locations_left};
ghost use Rattle.load_meaning.specs.Cells.{super_patch, patches_in};
ghost use Rattle.load_meaning.specs.LoadTable.{is_place};
ghost use Rattle.load_meaning.specs.Loadable.{patch_refusal, first_refusal, first_target_fault, target_fault, shape_fault, first_in};
ghost use Rattle.load_meaning.specs.laws.Steps.{in_segment, target_refusal};
ghost use Rattle.omf_records.specs.View as records;
ghost use Rattle.omf_records.specs.Segments.{segment_of_view};
ghost use Rattle.load_content.specs.Walk.{HasSpelling, patches_from};
ghost use Rattle.load_content.specs.Views.{IsLoadView, AreShown, IsLaterRefused};
ghost use Rattle.load_content.specs.Content.{HasPieces, IsNear, IsContent, AreContents, patch_of, spread_all, shown_spots, super_count, super_segment};
ghost use Rattle.omf_format.specs.File.{segment_at};
ghost use Rattle.omf_format.specs.Header.{is_skipped, is_dynamic};
ghost use Rattle.std.specs.Option.{option_map_or};

use crate::data::{data_from, near_u8, near_u16};
use crate::order::in_order;
use crate::pieces::{BytePiece, pieces_of};
use crate::spots::{PatchSpot, Relocation, add_spot, is_outside};
use load_meaning::{LoadCause, LoadFault};
use omf_records::{Locations, Rec, Records, SegmentView};
use std::alloc::{AllocError, Global};

/// What is kept of a segment beside its header: its data, and the bytes that patches give, in runs.
#[derive(Drop)]
pub struct SegmentContent<'a> {
    pub pieces: Vec<BytePiece<'a>>,
    pub spots: Vec<PatchSpot>,
    /// How many spots each run has, in which none begins or ends before an earlier one.
    pub runs: Vec<usize>,
}

/// Whether an offset is below LENGTH of the segment with a number, from 1, and the segment isn't skipped.
pub fn is_place(views: &Vec<SegmentView>, number: u16, offset: u32) -> bool
    ensures { result ≡ is_place (map segment_of_view views.now.items) number offset }
{
    if number == 0 {
        return false;
    }
    match views.get(number as usize - 1) {
        Some(view) => !view.header.kind.is_skip() && offset < view.header.length,
        None => false,
    }
}

/// Whether the segment with a number, from 1, is there and isn't skipped.
#[inline(always)]
fn is_kept(views: &Vec<SegmentView>, number: u16) -> bool
    ensures { result ≡ (option_map_or (λ s. not (is_skipped s.fields.kind)) (segment_at (map segment_of_view views.now.items) number) false) }
{
    if number == 0 {
        return false;
    }
    match views.get(number as usize - 1) {
        Some(view) => !view.header.kind.is_skip(),
        None => false,
    }
}

/// Whether the segment with a number, from 1, is there and dynamic.
#[inline(always)]
fn is_dynamic(views: &Vec<SegmentView>, number: u16) -> bool
    ensures { result ≡ (option_map_or (λ s. is_dynamic s.fields.kind) (segment_at (map segment_of_view views.now.items) number) false) }
{
    if number == 0 {
        return false;
    }
    match views.get(number as usize - 1) {
        Some(view) => view.header.kind.is_dynamic(),
        None => false,
    }
}

/// Why a patch that lies in a segment of these isn't allowed there.
#[tactic(auto, unfolding(load_meaning::specs::Loadable::patch_refusal))]
#[inline(always)]
fn refusal(patch: &Relocation, views: &Vec<SegmentView>, view: &SegmentView) -> Option<LoadCause>
    requires inside { patch.now.location + patch.now.count ≤ view.now.header.length }
    ensures value { result ≡ patch_refusal (map segment_of_view views.now.items) (segment_of_view view.now) (patch_of patch.now) }

    // The target of an allowed patch is in this file.
    ensures file { result ≡ None → patch.now.file ≡ 1 }
{
    if !(patch.file == 1 && is_kept(views, patch.segment)) {
        return Some(LoadCause::NoSuchTarget);
    }
    if patch.segment != view.header.seg_num && is_dynamic(views, patch.segment) {
        return Some(LoadCause::DynamicTarget);
    }
    None
}

/// Adds the bytes that a patch inside the segment gives, or returns why it isn't allowed there.
#[inline(always)]
fn take_inside(
    patch: &Relocation,
    views: &Vec<SegmentView>,
    view: &SegmentView,
    spots: &mut Vec<PatchSpot>,
) -> Result<Option<LoadCause>, AllocError>
    requires inside { patch.now.location + patch.now.count ≤ view.now.header.length }
    requires short { patch.now.location < 2 ^ 32 }
    ensures value { IfOk result (λ cause. cause ≡ first_refusal (map segment_of_view views.now.items) (segment_of_view view.now) (patch_of patch.now ∷ [])) }
    ensures spots { result ≡ Ok None → shown_spots spots.new.items ≡ shown_spots spots.old.items ++ spread_all (patch_of patch.now ∷ []) }
{
    match refusal(patch, views, view) {
        Some(cause) => Ok(Some(cause)),
        None => {
            add_spot(spots, patch)?;
            Ok(None)
        }
    }
}

/// Adds the bytes that a patch gives, or returns why it isn't allowed in the segment.
fn take(
    patch: &Relocation,
    views: &Vec<SegmentView>,
    view: &SegmentView,
    spots: &mut Vec<PatchSpot>,
) -> Result<Option<LoadCause>, AllocError>
    ensures value { IfOk result (λ cause. cause ≡ first_refusal (map segment_of_view views.now.items) (segment_of_view view.now) (patch_of patch.now ∷ [])) }
    ensures spots { result ≡ Ok None → shown_spots spots.new.items ≡ shown_spots spots.old.items ++ spread_all (patch_of patch.now ∷ []) }
{
    if is_outside(patch.location, patch.count, view.header.length) {
        return Ok(Some(LoadCause::PatchOutside));
    }
    take_inside(patch, views, view, spots)
}

/// How many bytes a patch of a SUPER of this type has.
#[inline(always)]
fn super_count(form: u8) -> u8
    ensures { result ≡ super_count form }
{
    if form == 1 || form == 2 { 3 } else { 2 }
}

/// The segment that the patch of a SUPER at a location names: the segment itself, or in type 2 the byte of the data after the offset, and
/// else the one that the type names. `near` are bytes of the data from the location on.
#[inline(always)]
fn super_segment(form: u8, at: u32, near: &[u8], view: &SegmentView, pieces: &[BytePiece]) -> u16
    requires near { IsNear view.now at near.now }
    requires pieces { HasPieces view.now pieces.now }
    requires inside { at + super_count form ≤ view.now.header.length }
    ensures { result ≡ super_segment (segment_of_view view.now) form at }
{
    if form == 0 || form == 1 {
        return view.header.seg_num;
    }
    if form == 2 {
        return u16::from(near_u8(near, 2, view, pieces, at));
    }
    let form = u16::from(form);
    if form <= 25 {
        form.saturating_sub(13)
    } else {
        form - 25
    }
}

/// The patch of a SUPER at a location. The bytes near it are those of the data from there on.
#[inline(always)]
fn super_patch(
    form: u8,
    at: u32,
    near: &[u8],
    view: &SegmentView,
    pieces: &[BytePiece],
) -> Relocation
    requires near { IsNear view.now at near.now }
    requires pieces { HasPieces view.now pieces.now }
    requires inside { at + super_count form ≤ view.now.header.length }
    ensures is { patch_of result ≡ super_patch (segment_of_view view.now) form at }
    ensures location { result.location ≡ at }
    ensures count { result.count ≡ super_count form }
{
    Relocation {
        location: u64::from(at),
        count: super_count(form),
        file: 1,
        segment: super_segment(form, at, near, view, pieces),
        offset: u32::from(near_u16(near, view, pieces, at)),
        shift: if form <= 25 { 0 } else { -16 },
    }
}

/// The same for the patch of a SUPER at a location. The data there is read only where the patch lies in the segment, and tried
/// first in the piece at the place `last`, which becomes that of the piece.
#[inline(always)]
fn take_at(
    form: u8,
    location: u64,
    views: &Vec<SegmentView>,
    view: &SegmentView,
    pieces: &[BytePiece],
    last: &mut usize,
    spots: &mut Vec<PatchSpot>,
) -> Result<Option<LoadCause>, AllocError>
    requires { HasPieces view.now pieces.now }
    ensures value { IfOk result (λ cause. cause ≡ first_refusal (map segment_of_view views.now.items) (segment_of_view view.now) (super_patch (segment_of_view view.now) form location ∷ [])) }
    ensures spots { result ≡ Ok None → shown_spots spots.new.items ≡ shown_spots spots.old.items ++ spread_all (super_patch (segment_of_view view.now) form location ∷ []) }
{
    if is_outside(location, super_count(form), view.header.length) {
        return Ok(Some(LoadCause::PatchOutside));
    }
    let at = location as u32;
    let (near, place) = data_from(view, pieces, *last, at);
    *last = place;
    take_inside(
        &super_patch(form, at, near, view, pieces),
        views,
        view,
        spots,
    )
}

/// The same for the patches of a SUPER, one after another.
fn take_super(
    form: u8,
    bytes: &[u8],
    views: &Vec<SegmentView>,
    view: &SegmentView,
    pieces: &[BytePiece],
    spots: &mut Vec<PatchSpot>,
) -> Result<Option<LoadCause>, AllocError>
    requires pieces { HasPieces view.now pieces.now }
    requires short { length bytes.now < 2 ^ 32 }
    ensures value { IfOk result (λ cause. cause ≡ first_refusal (map segment_of_view views.now.items) (segment_of_view view.now) (map (super_patch (segment_of_view view.now) form) (locations_left 0 0 bytes.now))) }
    ensures spots { result ≡ Ok None → shown_spots spots.new.items ≡ shown_spots spots.old.items ++ spread_all (map (super_patch (segment_of_view view.now) form) (locations_left 0 0 bytes.now)) }
{
    // Room for all of them. Where there isn't so much, it is asked for one by one.
    let _ = spots.reserve(bytes.len());
    let mut locations = Locations::of(bytes);
    let mut last = 0;
    'locations: loop {
        match locations.next() {
            None => return Ok(None),
            Some(location) => {
                match take_at(form, location, views, view, pieces, &mut last, spots)? {
                    Some(cause) => return Ok(Some(cause)),
                    None => {}
                }
            }
        }
    }
}

/// Adds the bytes that the patches of a record give, or returns why the record isn't allowed in the segment.
fn take_record(
    rec: &Rec,
    views: &Vec<SegmentView>,
    view: &SegmentView,
    pieces: &[BytePiece],
    spots: &mut Vec<PatchSpot>,
) -> Result<Option<LoadCause>, AllocError>
    requires pieces { HasPieces view.now pieces.now }
    requires spelled { HasSpelling (records.view rec.now) }
    ensures value { IfOk result (λ cause. cause ≡ target_refusal (map segment_of_view views.now.items) (segment_of_view view.now) (records.view rec.now)) }
    ensures spots { result ≡ Ok None → shown_spots spots.new.items ≡ shown_spots spots.old.items ++ spread_all (patches_in (segment_of_view view.now) (records.view rec.now)) }
{
    match rec {
        Rec::Entry {
            segment,
            offset,
            ..
        } => {
            if is_place(views, *segment, *offset) {
                Ok(None)
            } else {
                Ok(Some(LoadCause::NoSuchTarget))
            }
        }
        Rec::Super { form, bytes } => take_super(*form, bytes, views, view, pieces, spots),
        Rec::Reloc {
            count,
            shift,
            location,
            offset,
        } => {
            let patch = Relocation {
                location: u64::from(*location),
                count: *count,
                file: 1,
                segment: view.header.seg_num,
                offset: *offset,
                shift: *shift,
            };
            take(&patch, views, view, spots)
        }
        Rec::ShortReloc {
            count,
            shift,
            location,
            offset,
        } => {
            let patch = Relocation {
                location: u64::from(*location),
                count: *count,
                file: 1,
                segment: view.header.seg_num,
                offset: u32::from(*offset),
                shift: *shift,
            };
            take(&patch, views, view, spots)
        }
        Rec::InterSeg {
            count,
            shift,
            location,
            file,
            segment,
            offset,
        } => {
            let patch = Relocation {
                location: u64::from(*location),
                count: *count,
                file: *file,
                segment: *segment,
                offset: *offset,
                shift: *shift,
            };
            take(&patch, views, view, spots)
        }
        Rec::ShortInterSeg {
            count,
            shift,
            location,
            segment,
            offset,
        } => {
            let patch = Relocation {
                location: u64::from(*location),
                count: *count,
                file: 1,
                segment: u16::from(*segment),
                offset: u32::from(*offset),
                shift: *shift,
            };
            take(&patch, views, view, spots)
        }
        Rec::End
        | Rec::Const { .. }
        | Rec::LongConst { .. }
        | Rec::Space { .. }
        | Rec::Align { .. }
        | Rec::Org { .. }
        | Rec::Using { .. }
        | Rec::Strong { .. }
        | Rec::Label { .. }
        | Rec::Equate { .. }
        | Rec::Formula { .. } => Ok(None),
    }
}

/// Adds the bytes that the patches of the segment with this number give, or returns the first fault of its records.
fn take_records(
    records: Records,
    number: u32,
    views: &Vec<SegmentView>,
    view: &SegmentView,
    pieces: &[BytePiece],
    spots: &mut Vec<PatchSpot>,
) -> Result<Option<LoadFault>, AllocError>
    requires body { IsBody records }
    requires pieces { HasPieces view.now pieces.now }
    ensures value { IfOk result (λ fault. fault ≡ option_map (in_segment number) (first_target_fault (map segment_of_view views.now.items) (segment_of_view view.now) (records_of records.entry))) }
    ensures spots { result ≡ Ok None → shown_spots spots.new.items ≡ shown_spots spots.old.items ++ spread_all (patches_from (segment_of_view view.now) (records_of records.entry)) }
{
    let mut records = records;
    'records: loop {
        match records.next() {
            Ok(None) => return Ok(None),
            Ok(Some(found)) => match take_record(&found.1, views, view, pieces, spots)? {
                Some(cause) => {
                    return Ok(Some(LoadFault {
                        cause,
                        segment: number,
                        at: found.0,
                    }));
                }
                None => {}
            },
            Err(_) => unreachable!(),
        }
    }
}

/// What is kept of the segment with this number, or the first fault of its records.
fn content_of<'a>(
    alloc: Global,
    number: u32,
    views: &Vec<SegmentView<'a>>,
    view: &SegmentView<'a>,
) -> Result<SegmentContent<'a>, LoadFault>
    requires short { length view.now.file.now < 2 ^ 32 }
    requires shown { IsLoadView view.now.file.now view.now }
    requires sized { shape_fault number (segment_of_view view.now) ≡ None }
    ensures ok { IfOk result (λ content. (target_fault (map segment_of_view views.now.items) number (segment_of_view view.now) ≡ None) × IsContent view.now content) }
    ensures refused { IfErr result (λ fault. IsLaterRefused fault (option_map (in_segment number) (target_fault (map segment_of_view views.now.items) number (segment_of_view view.now)))) }
{
    let pieces = pieces_of(alloc, view.records(), view.header.length)?;
    let mut spots = Vec::new(alloc);
    match take_records(view.records(), number, views, view, &pieces, &mut spots)? {
        Some(fault) => return Err(fault),
        None => {}
    }
    let (spots, runs) = in_order(alloc, spots)?;
    Ok(SegmentContent {
        pieces,
        spots,
        runs,
    })
}

/// What is kept of each segment, or the first fault of phase 3, segment by segment.
pub fn contents_of<'a>(
    alloc: Global,
    views: &Vec<SegmentView<'a>>,
) -> Result<Vec<SegmentContent<'a>>, LoadFault>
    requires shown { AreShown views.now.items }
    requires sized { first_in shape_fault 1 (map segment_of_view views.now.items) ≡ None }
    ensures ok { IfOk result (λ contents. (first_in (target_fault (map segment_of_view views.now.items)) 1 (map segment_of_view views.now.items) ≡ None) × AreContents views.now.items contents.items) }
    ensures refused { IfErr result (λ fault. IsLaterRefused fault (first_in (target_fault (map segment_of_view views.now.items)) 1 (map segment_of_view views.now.items))) }
{
    let mut contents = Vec::new(alloc);
    let mut number = 1;
    'views: for view in views {
        let content = content_of(alloc, number, views, view)?;
        contents.push(content)?;
        number += 1;
    }
    Ok(contents)
}
