//! What an expression record puts into its load segment.

ghost use Rattle.std.specs.Prelude.{◌≡◌, ◌⊎◌, ◌+◌, ◌<◌, ◌≤◌, ◌^◌, ◌++◌, Err, List, IsTrue, IfOk, IfErr, IsErrOf, OnOk, length, map};
ghost use Rattle.byteorder.specs.Endian.{little_bytes};
ghost use Rattle.omf_format.specs.Field.{is_count};
ghost use Rattle.omf_format.specs.Header.{HeaderFields};
ghost use Rattle.load_meaning.specs.Cells.{Cell, Byte};
ghost use Rattle.link_meaning.specs.declared.fault.LinkCause.TheVariants as causes;
ghost use Rattle.link_meaning.specs.Member.{setting_in};
ghost use Rattle.link_meaning.specs.Fitting.{fit_value, ends_in_jsl, parts};
ghost use Rattle.link_content.specs.Fits.{to_fit_meaning, shown_frame, to_load_limits, with_room};
ghost use Rattle.link_content.specs.Contents.{HoldsCells};
ghost use Rattle.link_content.specs.Puts.{EntersTarget, LacksRoom, PutsFit, PutsValue};

use crate::content::LoadContent;
use crate::context::LinkContext;
use crate::fit::{FitOutcome, FormulaRecord, PatchPlace, fit_value};
use jump_table::{Table, TableFault, Target};
use link_meaning::LinkCause;
use omf_base::first_items;

/// The bytes of a number, lowest first.
fn bytes_of(n: u32) -> [u8; 4]
    ensures value { result ≡ little_bytes 4 n }
    ensures size { length result ≡ 4 }
{
    let [first, second, third, fourth] = n.to_le_bytes();
    [first, second, third, fourth]
}

/// The low bytes of a number.
fn put_number(content: &mut LoadContent<'_>, count: u8, n: u32) -> Result<(), LinkCause>
    requires { IsTrue (is_count count) }
    ensures ok { OnOk result ((cells : List Cell) → HoldsCells cells content.old → HoldsCells (cells ++ map Byte (little_bytes count n)) content.new) }
    ensures memory_alone { IfErr result (λ cause. cause ≡ causes.Memory) }
{
    let bytes = bytes_of(n);
    match content.put_bytes(first_items(&bytes, usize::from(count))) {
        Ok(()) => Ok(()),
        Err(_) => Err(LinkCause::Memory),
    }
}

/// The place of the table's entry for a target, which is added where it isn't there.
fn entry(table: &mut Table, target: Target) -> Result<u32, LinkCause>
    ensures ok { IfOk result (λ at. EntersTarget table.old table.new target at) }
    ensures err { IfErr result (λ cause. (cause ≡ causes.Memory) ⊎ LacksRoom table.old target cause) }

    // Where there is no room, this is reported, and not lack of memory.
    ensures full { LacksRoom table.old target causes.TooManyEntries → IsErrOf result causes.TooManyEntries }
{
    let _most = table.count();
    let at = match table.entry(target.file, target.segment, target.offset) {
        Ok(at) => at,
        Err(TableFault::TooMany) => return Err(LinkCause::TooManyEntries),
        Err(TableFault::Memory) => return Err(LinkCause::Memory),
    };
    let _few = table.count();
    Ok(at)
}

/// Puts `count` bytes of a place.
fn put_place(
    content: &mut LoadContent<'_>,
    count: u8,
    segment: u16,
    offset: u32,
    shift: i8,
) -> Result<(), LinkCause>
    requires counted { IsTrue (is_count count) }
    requires small { length (content.old).bytes + 4 < 2 ^ 32 }
    ensures ok { OnOk result ((cells : List Cell) → HoldsCells cells content.old → HoldsCells (cells ++ parts count segment offset shift) content.new) }
    ensures memory_alone { IfErr result (λ cause. cause ≡ causes.Memory) }
{
    match content.put_place(count, segment, offset, shift) {
        Ok(()) => Ok(()),
        Err(_) => Err(LinkCause::Memory),
    }
}

/// Puts what a value became; the jump table is the load segment with this number.
fn put_fit(
    content: &mut LoadContent<'_>,
    table: &mut Table,
    number: u16,
    count: u8,
    fit: FitOutcome,
) -> Result<(), LinkCause>
    requires counted { IsTrue (is_count count) }
    requires small { length (content.old).bytes + 4 < 2 ^ 32 }
    ensures ok { OnOk result (PutsFit number count table.old table.new (to_fit_meaning fit) content.old content.new) }
    ensures err { IfErr result (λ cause. (cause ≡ causes.Memory) ⊎ (with_room table.old (to_fit_meaning fit) ≡ Err cause)) }
{
    match fit {
        FitOutcome::Number(n) => put_number(content, count, n),
        FitOutcome::Place {
            segment,
            offset,
            shift,
        } => put_place(content, count, segment, offset, shift),
        FitOutcome::Entry(target) => {
            let at = entry(table, target)?;
            put_place(content, count, number, at, 0)
        }
    }
}

/// Puts what the value of an expression record at this place becomes.
pub fn put_formula(
    context: &LinkContext,
    frame: PatchPlace,
    formula: FormulaRecord,
    content: &mut LoadContent<'_>,
    table: &mut Table,
) -> Result<(), LinkCause>
    requires small { length (content.old).bytes + 4 < 2 ^ 32 }
    ensures ok { OnOk result ((headers : List HeaderFields) (before : List Cell) → context.now.loads.now ≡ map to_load_limits headers → ends_in_jsl before ≡ frame.after_jsl
        → PutsValue headers (shown_frame (setting_in context.now.program.now) frame) before formula context.now.table table.old table.new content.old content.new) }
    ensures err { IfErr result (λ cause. (headers : List HeaderFields) (before : List Cell) → context.now.loads.now ≡ map to_load_limits headers → ends_in_jsl before ≡ frame.after_jsl
        → (cause ≡ causes.Memory) ⊎ (fit_value headers (shown_frame (setting_in context.now.program.now) frame) table.old before formula.code formula.count formula.n formula.value ≡ Err cause)) }
{
    let fit = fit_value(context, frame, formula)?;
    put_fit(content, table, context.table, formula.count, fit)
}
