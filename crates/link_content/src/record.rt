//! What a record of a member puts into its load segment.

ghost use Rattle.std.specs.Prelude.{◌≡◌, ◌⊎◌, ◌+◌, ◌<◌, ◌^◌, ◌++◌, Ok, Err, ℕ, List, IfErr, OnOk, length, map};
ghost use Rattle.load_meaning.specs.Cells.{Cell};
ghost use Rattle.link_meaning.specs.declared.fault.LinkCause.TheVariants as causes;
ghost use Rattle.link_meaning.specs.Fitting.{ends_in_jsl};
ghost use Rattle.link_meaning.specs.laws.Steps.{value_cause};
ghost use Rattle.omf_format.specs.Header.{HeaderFields};
ghost use Rattle.omf_format.specs.Record as format;
ghost use Rattle.object_meaning.specs.Sizes.{size_at};
ghost use Rattle.link_meaning.specs.Member.{Member};
ghost use Rattle.link_meaning.specs.LinkValues.{EquateAnswer, value_in};
ghost use Rattle.link_meaning.specs.LinkedCells.{LinkState, Item, bank_of, cells_before, made_by};
ghost use Rattle.omf_records.specs.View.{view};
ghost use Rattle.link_content.specs.Contents.{HoldsCells};
ghost use Rattle.link_content.specs.Fits.{to_load_limits};
ghost use Rattle.link_content.specs.Records.{IsCounted, IsWorth, StandsAt, PutsMade};

use crate::content::LoadContent;
use crate::context::{LinkContext, RecordPlace, ValuedRecord, bank_of};
use crate::fit::{FormulaRecord, PatchPlace};
use crate::plain::put_plain;
use crate::put::put_formula;
use jump_table::Table;
use link_meaning::LinkCause;
use omf_format::ValueFault;
use omf_records::Rec;

/// A value's fault as one of the linker.
fn cause_of(fault: ValueFault) -> LinkCause
    ensures { result ≡ value_cause fault }
{
    match fault {
        ValueFault::DivideByZero => LinkCause::DivideByZero,
        ValueFault::NotRelocatable => LinkCause::NotRelocatable,
        ValueFault::Unknown(_) => LinkCause::NotRelocatable,
    }
}

/// Whether there are cells after a member's start, and the last one is the byte $22.
fn ends_in_jsl(content: &LoadContent<'_>, start: usize) -> bool
    ensures { (front cells : List Cell) → HoldsCells (front ++ cells) content.now → length front ≡ start → result ≡ ends_in_jsl cells }
{
    if content.len() <= start {
        return false;
    }
    match content.last() {
        Some(byte) => byte == 0x22,
        None => false,
    }
}

/// Where an expression record is in its load segment, whose content this is so far.
fn frame_of(context: &LinkContext, place: RecordPlace, content: &LoadContent<'_>) -> PatchPlace
    requires near { place.member.offset + place.location < 2 ^ 32 }
    ensures own { result.own ≡ place.member.load_segment }
    ensures bank { (headers : List HeaderFields) → context.now.loads.now ≡ map to_load_limits headers → result.bank_size ≡ bank_of headers place.member.load_segment }
    ensures place { result.place ≡ place.member.offset + place.location }
    ensures jsl { (front cells : List Cell) → HoldsCells (front ++ cells) content.now → length front ≡ place.member.offset → result.after_jsl ≡ ends_in_jsl cells }
{
    let member = place.member;
    PatchPlace {
        own: member.load_segment,
        bank_size: bank_of(context.loads, member.load_segment),
        place: member.offset + place.location,
        after_jsl: ends_in_jsl(content, member.offset as usize),
    }
}

/// Puts what an expression record gives.
fn put_value(
    context: &LinkContext,
    place: RecordPlace,
    formula: FormulaRecord,
    content: &mut LoadContent<'_>,
    table: &mut Table,
) -> Result<(), LinkCause>
    requires small { length (content.old).bytes + 4 < 2 ^ 32 }
    requires near { place.member.offset + place.location < 2 ^ 32 }
    ensures ok { OnOk result ((list : List Member) (reported : List EquateAnswer) (state : LinkState) (i : Item) (front : List Cell) (expr : List ℕ)
        → StandsAt list reported state i context.now place table.old front content.old → value_in list reported i.place i.member i.here.location expr ≡ Ok formula.value
        → PutsMade (made_by list reported state i (format.Formula formula.code formula.count formula.n expr)) (front ++ cells_before state i) table.new content.new) }
    ensures err { IfErr result (λ cause. (list : List Member) (reported : List EquateAnswer) (state : LinkState) (i : Item) (front : List Cell) (expr : List ℕ)
        → StandsAt list reported state i context.now place table.old front content.old → value_in list reported i.place i.member i.here.location expr ≡ Ok formula.value
        → (cause ≡ causes.Memory) ⊎ (made_by list reported state i (format.Formula formula.code formula.count formula.n expr) ≡ Err cause)) }
{
    let frame = frame_of(context, place, content);
    put_formula(context, frame, formula, content, table)
}

/// Puts what a record at this place gives, by what its expression is worth, if it has one.
pub fn put_record<'a>(
    context: &LinkContext,
    place: RecordPlace,
    valued: ValuedRecord<'_, 'a>,
    content: &mut LoadContent<'a>,
    table: &mut Table,
) -> Result<(), LinkCause>
    requires counted { IsCounted (view valued.rec.now) }
    requires small { length (content.old).bytes + size_at place.location (view valued.rec.now) + 4 < 2 ^ 32 }
    requires near { place.member.offset + place.location < 2 ^ 32 }
    ensures ok { OnOk result ((list : List Member) (reported : List EquateAnswer) (state : LinkState) (i : Item) (front : List Cell)
        → StandsAt list reported state i context.now place table.old front content.old → IsWorth list reported i (view valued.entry.rec.now) valued.entry.value
        → PutsMade (made_by list reported state i (view valued.entry.rec.now)) (front ++ cells_before state i) table.new content.new) }
    ensures err { IfErr result (λ cause. (list : List Member) (reported : List EquateAnswer) (state : LinkState) (i : Item) (front : List Cell)
        → StandsAt list reported state i context.now place table.old front content.old → IsWorth list reported i (view valued.entry.rec.now) valued.entry.value
        → (cause ≡ causes.Memory) ⊎ (made_by list reported state i (view valued.entry.rec.now) ≡ Err cause)) }
{
    match valued.rec {
        Rec::Formula { code, count, n, .. } => match valued.value {
            Ok(value) => {
                let formula = FormulaRecord {
                    code: *code,
                    count: *count,
                    n: *n,
                    value,
                };
                put_value(context, place, formula, content, table)
            }
            Err(fault) => Err(cause_of(fault)),
        },
        Rec::Equate { .. } => match valued.value {
            Ok(_) => Ok(()),
            Err(fault) => Err(cause_of(fault)),
        },
        Rec::End
        | Rec::Const { .. }
        | Rec::LongConst { .. }
        | Rec::Align { .. }
        | Rec::Org { .. }
        | Rec::Space { .. }
        | Rec::Reloc { .. }
        | Rec::InterSeg { .. }
        | Rec::ShortReloc { .. }
        | Rec::ShortInterSeg { .. }
        | Rec::Super { .. }
        | Rec::Using { .. }
        | Rec::Strong { .. }
        | Rec::Label { .. }
        | Rec::Entry { .. } => match put_plain(content, valued.rec, place.location) {
            Ok(()) => Ok(()),
            Err(_) => Err(LinkCause::Memory),
        },
    }
}
