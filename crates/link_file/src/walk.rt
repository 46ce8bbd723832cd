//! The walk over the records of all members, which fills the load segments and the jump table.

ghost use Rattle.std.specs.Prelude.{◌≡◌, ◌⊎◌, ◌+◌, ◌-◌, ◌<◌, ◌≤◌, ◌^◌, ◌++◌, ◌∷◌, ℕ, List, IfErr, IfOk, OnOk, length};
ghost use Rattle.omf_records.specs.Segments.{IsSound, segment_of_view};
ghost use Rattle.omf_records.specs.View.{view};
ghost use Rattle.load_meaning.specs.Cells.{Cell};
ghost use Rattle.link_meaning.specs.declared.fault.LinkCause.TheVariants as causes;
ghost use Rattle.link_meaning.specs.Member.{Member};
ghost use Rattle.link_meaning.specs.LinkedCells.{Item};
ghost use Rattle.link_tables.specs.Uses.{HasSpelling};
ghost use Rattle.link_program.specs.MemberPlaces.{IsMemberPlace};
ghost use Rattle.link_content.specs.Records.{IsWorth};
ghost use Rattle.link_file.specs.Walks.{IsWhole, answers_in, Begins, HasBegun, Puts, StandsAfter, HasStood, PutsMember, Unmade, IsReportedAt, IsWalkedTo, IsValueRefused};

use jump_table::Table;
use link_content::{LinkContext, LoadContent, LoadLimits, RecordPlace, ValuedRecord, put_record};
use link_meaning::{LinkCause, LinkFault};
use link_program::{MemberPlace, Program, memory_fault, next_record, place_of_member, size_at};
use link_values::{ValueSlot, value_in};
use omf_base::Spot;
use omf_format::{Value, ValueFault};
use omf_records::{Rec, SegmentView};
use std::alloc::{AllocError, Global};

/// What the walk meets: what all records meet, and the values of all definitions.
#[derive(Clone, Copy)]
pub struct WalkContext<'e, 'a> {
    pub link: LinkContext<'e, 'a>,
    pub slots: &'e [ValueSlot],
}

/// The value of a record's expression; a number, where the record has none.
fn value_of(context: &WalkContext, place: RecordPlace, rec: &Rec) -> Result<Value, ValueFault>
    requires whole { IsWhole context.now }
    requires spelled { HasSpelling place.member.lab_len (view rec.now) }
    requires near { place.member.offset + place.location < 2 ^ 32 }
    ensures { (i : Item) → IsMemberPlace context.now.link.program.now i.member place.member → place.member.place ≡ i.place → i.here.location ≡ place.location
        → IsWorth context.now.link.program.now (answers_in context.now) i (view rec.now) result }
{
    match rec {
        Rec::Formula { expr, .. } => value_in(
            context.link.program,
            context.slots,
            place.member,
            place.location,
            expr,
        ),
        Rec::Equate { expr, .. } => value_in(
            context.link.program,
            context.slots,
            place.member,
            place.location,
            expr,
        ),
        Rec::End
        | Rec::Const { .. }
        | Rec::LongConst { .. }
        | Rec::Align { .. }
        | Rec::Org { .. }
        | Rec::Space { .. }
        | Rec::Reloc { .. }
        | Rec::InterSeg { .. }
        | Rec::ShortReloc { .. }
        | Rec::ShortInterSeg { .. }
        | Rec::Super { .. }
        | Rec::Using { .. }
        | Rec::Strong { .. }
        | Rec::Label { .. }
        | Rec::Entry { .. } => Ok(Value::Fixed(0)),
    }
}

/// Puts what the records of a member give, after what its load segment holds up to the member's offset. The fault is the first one's, with
/// its displacement.
fn put_records<'a>(
    context: &WalkContext<'_, 'a>,
    member_place: MemberPlace,
    segment: &SegmentView<'a>,
    content: &mut LoadContent<'a>,
    table: &mut Table,
) -> Result<(), (LinkCause, u32)>
    requires whole { IsWhole context.now }
    requires sound { IsSound segment.now }
    requires begun { HasBegun context.now.link.program.now (answers_in context.now) member_place (segment_of_view segment.now) table.old content.old }
    ensures ok { OnOk result ((front : List Member) (m : Member) (back : List Member) (before : List Cell)
        → Begins context.now.link.program.now (answers_in context.now) front m back member_place (segment_of_view segment.now) table.old before content.old
        → Puts context.now.link.program.now (answers_in context.now) front m (segment_of_view segment.now).records table.new before content.new) }
    ensures err { IfErr result (λ fault. (front : List Member) (m : Member) (back : List Member) (before : List Cell)
        → Begins context.now.link.program.now (answers_in context.now) front m back member_place (segment_of_view segment.now) table.old before content.old
        → (fault.0 ≡ causes.Memory) ⊎ Unmade context.now.link.program.now (answers_in context.now) front m fault.0 fault.1) }
{
    let mut records = segment.records();
    let mut location = 0;
    'walk: loop {
        match next_record(&mut records) {
            None => return Ok(()),
            Some((at, rec)) => {
                let place = RecordPlace {
                    member: member_place,
                    location,
                };
                let value = value_of(context, place, &rec);
                let record = ValuedRecord { rec: &rec, value };
                match put_record(&context.link, place, record, content, table) {
                    Ok(()) => {}
                    Err(cause) => return Err((cause, at)),
                }
                location = (u64::from(location) + size_at(&rec, location)) as u32;
            }
        }
    }
}

/// Puts what a member gives: zeros up to its offset, what its records give, and RESSPC zeros.
fn put_segment<'a>(
    context: &WalkContext<'_, 'a>,
    member_place: MemberPlace,
    segment: &SegmentView<'a>,
    content: &mut LoadContent<'a>,
    table: &mut Table,
) -> Result<(), (LinkCause, u32)>
    requires whole { IsWhole context.now }
    requires sound { IsSound segment.now }
    requires stood { HasStood context.now.link.program.now (answers_in context.now) member_place (segment_of_view segment.now) table.old content.old }
    ensures ok { OnOk result ((front : List Member) (m : Member) (back : List Member) (cells : List Cell)
        → StandsAfter context.now.link.program.now (answers_in context.now) front m back member_place (segment_of_view segment.now) table.old cells content.old
        → PutsMember context.now.link.program.now (answers_in context.now) front m table.new cells content.new) }
    ensures err { IfErr result (λ fault. (front : List Member) (m : Member) (back : List Member) (cells : List Cell)
        → StandsAfter context.now.link.program.now (answers_in context.now) front m back member_place (segment_of_view segment.now) table.old cells content.old
        → (fault.0 ≡ causes.Memory) ⊎ Unmade context.now.link.program.now (answers_in context.now) front m fault.0 fault.1) }
{
    let gap = member_place.offset as usize - content.len();
    content.put_zeros(gap);
    put_records(context, member_place, segment, content, table)?;
    content.put_zeros(segment.header.res_spc as usize);
    Ok(())
}

/// The first fault of a member's records, as a fault of the linker.
fn value_fault(program: &Program, place: u32, cause: LinkCause, at: u32) -> LinkFault
    requires { (m : Member) × (member_at program.now place ≡ Some m) }
    ensures reported { (m : Member) → member_at program.now place ≡ Some m → IsReportedAt m cause at result }
    ensures memory { result.cause ≡ causes.Memory → cause ≡ causes.Memory }
{
    match cause {
        LinkCause::Memory => memory_fault(),
        LinkCause::Truncated
        | LinkCause::BadHeader
        | LinkCause::Unsupported
        | LinkCause::BadRecord
        | LinkCause::AlignFault
        | LinkCause::BadLength
        | LinkCause::BadLibrary
        | LinkCause::BadRuntime
        | LinkCause::Empty
        | LinkCause::Unresolved
        | LinkCause::Duplicate
        | LinkCause::OrgConflict
        | LinkCause::TooManySegments
        | LinkCause::SegmentTooLong
        | LinkCause::NotDynamic
        | LinkCause::Circular
        | LinkCause::DivideByZero
        | LinkCause::NotRelocatable
        | LinkCause::DynamicReference
        | LinkCause::OutOfSegment
        | LinkCause::TooManyEntries
        | LinkCause::DoesNotFit
        | LinkCause::FileTooLong => fault_in(program, place, cause, at),
    }
}

/// A fault of a record of the member at a place.
fn fault_in(program: &Program, place: u32, cause: LinkCause, at: u32) -> LinkFault
    requires { (m : Member) × (member_at program.now place ≡ Some m) }
    ensures { (m : Member) → member_at program.now place ≡ Some m → result ≡ record { cause = cause; name = None; spot = spot_in m at } }
{
    match program.member(place) {
        Some(member) => LinkFault {
            cause,
            name: None,
            spot: Spot {
                file: member.file,
                segment: member.segment,
                at,
            },
        },
        None => unreachable!(),
    }
}

ghost use Rattle.std.specs.Prelude.{Some, None};
ghost use Rattle.link_meaning.specs.LinkFaults.{spot_in};
ghost use Rattle.link_program.specs.Linked.{member_at};

/// Puts what the member at a place, from 1, gives, after what the members before it gave.
fn put_member<'a>(
    context: &WalkContext<'_, 'a>,
    place: u32,
    contents: &mut Vec<LoadContent<'a>>,
    table: &mut Table,
) -> Result<(), LinkFault>
    requires whole { IsWhole context.now }
    requires first { 1 ≤ place }
    requires inside { place ≤ length context.now.link.program.now }
    requires walked { IsWalkedTo context.now.link.program.now (answers_in context.now) (place - 1) table.old contents.old.items }
    ensures ok { OnOk result (IsWalkedTo context.now.link.program.now (answers_in context.now) place table.new contents.new.items) }
    ensures err { IfErr result (λ fault. IsValueRefused context.now.link.program.now (answers_in context.now) fault) }
{
    let member_place = match place_of_member(context.link.program, place) {
        Some(member_place) => member_place,
        None => unreachable!(),
    };
    let segment = match context.link.program.view(place) {
        Some(segment) => segment,
        None => unreachable!(),
    };
    let number = usize::from(member_place.load_segment) - 1;
    match put_segment(context, member_place, segment, &mut contents[number], table) {
        Ok(()) => Ok(()),
        Err((cause, at)) => Err(value_fault(context.link.program, place, cause, at)),
    }
}

/// How many cells a load segment has; 0 where there is none at the place.
fn length_at(loads: &[LoadLimits], place: usize) -> usize {
    match loads.get(place) {
        Some(load) => load.length as usize,
        None => 0,
    }
}

/// As many contents without cells as there are load segments, each with room for its own.
fn no_contents<'a>(alloc: Global, loads: &[LoadLimits]) -> Result<Vec<LoadContent<'a>>, AllocError>
    ensures { IfOk result (λ contents. AreEmpty (length loads.now) contents.items) }
{
    let mut contents = Vec::new(alloc);
    let count = loads.len();
    'loads: while contents.as_slice().len() < count {
        let place = contents.as_slice().len();
        contents.push(LoadContent::with_room(alloc, length_at(loads, place)))?;
    }
    Ok(contents)
}

ghost use Rattle.link_file.specs.Walks.{AreEmpty, IsFilled};

/// The load segments with the cells of all members, and the jump table; or the first fault of a record.
pub fn fill<'a>(
    alloc: Global,
    context: &WalkContext<'_, 'a>,
    table: &mut Table,
) -> Result<Vec<LoadContent<'a>>, LinkFault>
    requires whole { IsWhole context.now }
    requires empty { table.old ≡ [] }
    ensures ok { IfOk result (λ contents. IsFilled context.now.link.program.now (answers_in context.now) table.new contents.items) }
    ensures err { IfErr result (λ fault. IsValueRefused context.now.link.program.now (answers_in context.now) fault) }
{
    let mut contents = match no_contents(alloc, context.link.loads) {
        Ok(contents) => contents,
        Err(_) => return Err(memory_fault()),
    };
    let mut place = 0;
    'members: while place < context.link.program.members() {
        place += 1;
        put_member(context, place, &mut contents, table)?;
    }
    Ok(contents)
}

ghost use Rattle.std.specs.Prelude.{[]};
