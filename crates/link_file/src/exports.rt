//! What a run-time library file exports: an ENTRY record for each of its public names whose value is a place (this project's own choice).

ghost use Rattle.std.specs.Prelude.{◌≡◌, ◌+◌, ◌++◌, ◌<◌, Some, List, ℕ, length, map, option_map, slice_get, IfSome, IfOk, OnOk};
ghost use Rattle.omf_format.specs.Field.{IsName, written_layout};
ghost use Rattle.omf_format.specs.Header.{HeaderFields};
ghost use Rattle.omf_format.specs.Record.{Entry, spelling};
ghost use Rattle.omf_records.specs.Segments.{IsSound, segment_of_view};
ghost use Rattle.omf_records.specs.View.{view};
ghost use Rattle.link_meaning.specs.Member.{Member, form_in};
ghost use Rattle.object_meaning.specs.Defines.{scope_of, defined_by, title_of, defined_in};
ghost use Rattle.link_meaning.specs.Search.{FoundDefinition, entries};
ghost use Rattle.link_meaning.specs.Layout.{load_headers};
ghost use Rattle.link_meaning.specs.LinkValues.{found_value};
ghost use Rattle.link_meaning.specs.LinkWritten.{export_at, exports};
ghost use Rattle.link_meaning.specs.laws.Steps.{exports_for};
ghost use Rattle.link_program.specs.Outside.{all_found};
ghost use Rattle.link_content.specs.Fits.{to_load_limits};
ghost use Rattle.link_values.specs.Slots.{AreOnce, AreSlots, rows_of};
ghost use Rattle.link_values.specs.Surroundings.{AreKnown};
ghost use Rattle.link_file.specs.Images.{spelled_records};
ghost use Rattle.link_file.specs.Walks.{IsWhole, answers_in};
ghost use Rattle.link_file.specs.Exported.{is_public, seen_name, IsSeen, DefinesSeen, entry_with, IsExported, StandsBefore};

use crate::walk::WalkContext;
use link_content::{LoadLimits, length_of};
use link_meaning::LinkForm;
use link_program::next_record;
use link_values::{ValueSlot, label_of};
use omf_format::Value;
use omf_records::{PutFault, Rec, SegmentView, put_record};
use std::alloc::Global;

/// A name that is defined, and whether all see it.
#[derive(Clone, Copy)]
struct ExportsSeen<'a> {
    name: &'a [u8],
    public: bool,
}

/// Whether all see a label or an equate.
fn is_public(global: bool, private: u8) -> bool
    ensures { result ≡ is_public (scope_of global private) }
{
    global && private == 0
}

/// The name that a record defines.
fn seen_in<'a>(rec: &Rec<'a>) -> Option<ExportsSeen<'a>>
    ensures { (at place : ℕ) → DefinesSeen (defined_by at place (view rec.now)) (option_map seen_name result) }
{
    match rec {
        Rec::Label {
            global,
            name,
            private,
            ..
        } => Some(ExportsSeen {
            name,
            public: is_public(*global, *private),
        }),
        Rec::Equate {
            global,
            name,
            private,
            ..
        } => Some(ExportsSeen {
            name,
            public: is_public(*global, *private),
        }),
        Rec::End
        | Rec::Const { .. }
        | Rec::LongConst { .. }
        | Rec::Align { .. }
        | Rec::Org { .. }
        | Rec::Space { .. }
        | Rec::Reloc { .. }
        | Rec::InterSeg { .. }
        | Rec::ShortReloc { .. }
        | Rec::ShortInterSeg { .. }
        | Rec::Super { .. }
        | Rec::Using { .. }
        | Rec::Strong { .. }
        | Rec::Formula { .. }
        | Rec::Entry { .. } => None,
    }
}

/// The name of a segment, where it has one.
fn title_seen<'s>(segment: &'s SegmentView) -> Option<ExportsSeen<'s>>
    ensures seen { DefinesSeen (title_of (segment_of_view segment.now)) (option_map seen_name result) }
    ensures named { IfSome result (λ seen. IsName 0 seen.name.now) }
{
    let name = segment.header.name.bytes();
    if name.is_empty() {
        return None;
    }
    Some(ExportsSeen {
        name,
        public: !segment.header.kind.is_private(),
    })
}

/// The place that a value is, where a name with this value is exported: it has no shift, and is below LENGTH of its load segment.
fn exported_place(loads: &[LoadLimits], value: Value) -> Option<(u16, u32)>
    ensures { (headers : List HeaderFields) (name : List ℕ) → loads.now ≡ map to_load_limits headers → export_at headers name (Ok value) ≡ entry_with name result }
{
    match value {
        Value::Fixed(_) => None,
        Value::At {
            file: _,
            segment,
            offset,
            shift,
        } => {
            if shift == 0 && offset < length_of(loads, segment) {
                return Some((segment, offset));
            }
            None
        }
    }
}

ghost use Rattle.std.specs.Prelude.{Ok};

/// Appends an ENTRY record.
fn put_entry(out: &mut Vec<u8>, segment: u16, offset: u32, name: &[u8]) -> Result<(), PutFault>
    requires { IsName 0 name.now }
    ensures { OnOk result (out.new.items ≡ out.old.items ++ spelling written_layout (Entry segment offset name.now)) }
{
    put_record(
        out,
        &Rec::Entry {
            segment,
            offset,
            name,
        },
    )
}

/// The place with which the name of the definition with this number is exported.
fn place_of(loads: &[LoadLimits], slots: &[ValueSlot], number: usize) -> Option<(u16, u32)>
    ensures { (list : List Member) (all : List FoundDefinition) (f : FoundDefinition) (headers : List HeaderFields) (name : List ℕ) → AreOnce all → AreSlots list all slots.now
        → slice_get all number ≡ Some f → loads.now ≡ map to_load_limits headers → export_at headers name (found_value list (rows_of all slots.now) f) ≡ entry_with name result }
{
    match label_of(slots, Some(number), false) {
        Some(value) => exported_place(loads, value),
        None => None,
    }
}

/// Appends the ENTRY record of the definition with this number, which has this name, where its value is a place that is exported.
fn put_export(
    out: &mut Vec<u8>,
    loads: &[LoadLimits],
    slots: &[ValueSlot],
    number: usize,
    name: &[u8],
) -> Result<(), PutFault>
    requires { IsName 0 name.now }
    ensures { OnOk result ((list : List Member) (f : FoundDefinition) → AreKnown list slots.now → slice_get (all_found list) number ≡ Some f
        → loads.now ≡ map to_load_limits (load_headers list)
        → out.new.items ≡ out.old.items ++ spelled_records (export_at (load_headers list) name.now (found_value list (rows_of (all_found list) slots.now) f))) }
{
    match place_of(loads, slots, number) {
        Some((segment, offset)) => put_entry(out, segment, offset, name),
        None => Ok(()),
    }
}

/// Appends the ENTRY record of the definition with this number, where all see it and its value is a place that is exported.
fn put_seen(
    out: &mut Vec<u8>,
    context: &WalkContext,
    number: usize,
    seen: ExportsSeen,
) -> Result<(), PutFault>
    requires whole { IsWhole context.now }
    requires named { IsName 0 seen.name.now }
    ensures { OnOk result ((f : FoundDefinition) → slice_get (entries context.now.link.program.now) number ≡ Some f → IsSeen f.definition (seen_name seen.entry)
        → IsExported context.now.link.program.now (answers_in context.now) number out.old.items
        → IsExported context.now.link.program.now (answers_in context.now) (number + 1) out.new.items) }
{
    if seen.public {
        return put_export(out, context.link.loads, context.slots, number, seen.name);
    }
    Ok(())
}

/// Appends the ENTRY record of a segment's name, and returns the number after it.
fn put_title(
    out: &mut Vec<u8>,
    context: &WalkContext,
    segment: &SegmentView,
    first: usize,
) -> Result<usize, PutFault>
    requires whole { IsWhole context.now }
    requires stands { StandsBefore context.now.link.program.now (segment_of_view segment.now) first }
    requires exported { IsExported context.now.link.program.now (answers_in context.now) first out.old.items }
    ensures next { IfOk result (λ next. next ≡ first + length (title_of (segment_of_view segment.now))) }
    ensures exported { IfOk result (λ next. IsExported context.now.link.program.now (answers_in context.now) next out.new.items) }
{
    let _count = context.slots.len();
    match title_seen(segment) {
        Some(seen) => {
            put_seen(out, context, first, seen)?;
            Ok(first + 1)
        }
        None => Ok(first),
    }
}

/// Appends the ENTRY records of what a member's segment defines, whose first definition has this number, and returns the number after the
/// last.
fn put_segment(
    out: &mut Vec<u8>,
    context: &WalkContext,
    segment: &SegmentView,
    first: usize,
) -> Result<usize, PutFault>
    requires whole { IsWhole context.now }
    requires sound { IsSound segment.now }
    requires stands { StandsBefore context.now.link.program.now (segment_of_view segment.now) first }
    requires exported { IsExported context.now.link.program.now (answers_in context.now) first out.old.items }
    ensures next { IfOk result (λ next. next ≡ first + length (defined_in (segment_of_view segment.now))) }
    ensures exported { IfOk result (λ next. IsExported context.now.link.program.now (answers_in context.now) next out.new.items) }
{
    let _count = context.slots.len();
    let _names = segment.header.lab_len;
    let mut number = put_title(out, context, segment, first)?;
    let mut records = segment.records();
    'walk: loop {
        match next_record(&mut records) {
            None => return Ok(number),
            Some((_, rec)) => match seen_in(&rec) {
                Some(seen) => {
                    put_seen(out, context, number, seen)?;
                    number += 1;
                }
                None => {}
            },
        }
    }
}

/// The ENTRY records of a program, one after another: of a run-time library file those of its public names whose values are places, in list
/// and record order.
pub fn exports_text(alloc: Global, context: &WalkContext) -> Result<Vec<u8>, PutFault>
    requires { IsWhole context.now }
    ensures { IfOk result (λ text. text.items ≡ spelled_records (exports_for (form_in context.now.link.program.now) 1
        (exports context.now.link.program.now (answers_in context.now)))) }
{
    let mut out = Vec::new(alloc);
    match context.link.program.form() {
        LinkForm::Program => return Ok(out),
        LinkForm::Runtime => {}
    }
    let mut number = 0;
    let mut place = 0;
    'members: while place < context.link.program.members() {
        let segment = match context.link.program.view(place + 1) {
            Some(segment) => segment,
            None => unreachable!(),
        };
        number = put_segment(&mut out, context, segment, number)?;
        place += 1;
    }
    Ok(out)
}
