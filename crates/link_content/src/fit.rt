//! How a value fits into an expression record.

ghost use Rattle.std.specs.Prelude.{◌≡◌, ◌+◌, ◌^◌, ◌<◌, ◌≤◌, ◌&&◌, Bool, IsTrue, List, map, option_map};
ghost use Rattle.omf_format.specs.Field.{is_count};
ghost use Rattle.omf_format.specs.Header.{HeaderFields};
ghost use Rattle.omf_format.specs.Value.{is_unshifted};
ghost use Rattle.load_meaning.specs.Cells.{Cell};
ghost use Rattle.load_meaning.specs.declared.table.Target.{Target};
ghost use Rattle.link_meaning.specs.Member.{LinkSetting, setting_in};
ghost use Rattle.link_meaning.specs.Fitting.{place_fit, is_dynamic_load, length_of, length_outside, ends_in_jsl, call_fit, fit_value};
ghost use Rattle.link_meaning.specs.laws.Steps.{distance_fit, length_there, is_far, number_fit, may_call, or_does_not_fit, is_call};
ghost use Rattle.link_content.specs.Fits.{to_fit_meaning, shown_frame, to_fit, to_load_limits, fit_with_room};

use crate::context::{LinkContext, LoadLimits};
use jump_table::Target;
use link_meaning::{LinkCause, LinkForm};
use link_program::Program;
use omf_format::{BEXPR, EXPR, LEXPR, RELEXPR, Value};

/// What a value becomes in its record.
#[derive(Clone, Copy)]
pub enum FitOutcome {
    /// The low bytes of a number.
    Number(u32),
    /// The bytes of a place.
    Place {
        segment: u16,
        offset: u32,
        shift: i8,
    },
    /// The bytes of the place of the jump table's entry for a target.
    Entry(Target),
}

/// Where an expression record is.
#[derive(Clone, Copy)]
pub struct PatchPlace {
    /// Its load segment's number, from 1.
    pub own: u16,
    /// Its load segment's BANKSIZE.
    pub bank_size: u32,
    /// Its place in the load segment.
    pub place: u32,
    /// Whether the byte before it in its member is $22.
    pub after_jsl: bool,
}

/// What an expression record asks for: its code, how many bytes it gives, RELEXPR's displacement, and the value of its expression.
#[derive(Clone, Copy)]
pub struct FormulaRecord {
    pub code: u8,
    pub count: u8,
    pub n: u32,
    pub value: Value,
    ghost counted: { IsTrue (is_count count) },
}

/// How many numbers `count` bytes can hold.
fn numbers_of(count: u8) -> u64
    requires { IsTrue (is_count count) }
    ensures value { result ≡ 256 ^ count }
    ensures some { 0 < result }
    ensures fits { result ≤ 2 ^ 32 }
{
    match count {
        1 => 0x100,
        2 => 0x1_0000,
        3 => 0x100_0000,
        _ => 0x1_0000_0000,
    }
}

/// What a number becomes.
fn number_fit(formula: FormulaRecord, n: u32) -> Option<FitOutcome>
    ensures { option_map to_fit_meaning result ≡ number_fit formula.code formula.count n }
{
    if formula.code == EXPR {
        return Some(FitOutcome::Number(n));
    }
    if formula.code == RELEXPR {
        return None;
    }
    if u64::from(n) < numbers_of(formula.count) {
        return Some(FitOutcome::Number(n));
    }
    None
}

/// A distance from one offset to another, in two's complement, where it fits signed in a given number of bytes.
fn distance_fit(count: u8, to: u32, from: u64) -> Option<FitOutcome>
    requires counted { IsTrue (is_count count) }
    requires small { from < 2 ^ 33 }
    ensures { option_map to_fit_meaning result ≡ distance_fit count to from }
{
    let numbers = numbers_of(count);
    let to = u64::from(to);
    if from <= to + numbers / 2 && to < from + numbers / 2 {
        return Some(FitOutcome::Number(((to + numbers - from) % numbers) as u32));
    }
    None
}

/// What a place becomes that isn't in another dynamic segment.
fn place_fit(
    frame: PatchPlace,
    formula: FormulaRecord,
    segment: u16,
    offset: u32,
    shift: i8,
) -> Option<FitOutcome>
    ensures { (setting : LinkSetting) → option_map to_fit_meaning result ≡ place_fit (shown_frame setting frame) formula.code formula.count formula.n segment offset shift }
{
    let place = FitOutcome::Place {
        segment,
        offset,
        shift,
    };
    let near = segment == frame.own && shift == 0;
    if formula.code == EXPR || formula.code == LEXPR {
        return Some(place);
    }
    if formula.code == BEXPR {
        return if near && frame.bank_size != 0 {
            Some(place)
        } else {
            None
        };
    }
    if formula.code == RELEXPR {
        return if near {
            distance_fit(
                formula.count,
                offset,
                u64::from(frame.place) + u64::from(formula.n),
            )
        } else {
            None
        };
    }
    None
}

/// Whether the load segment with this number is dynamic.
fn is_dynamic(loads: &[LoadLimits], number: u16) -> bool
    ensures { (headers : List HeaderFields) → loads.now ≡ map to_load_limits headers → result ≡ is_dynamic_load headers number }
{
    match loads.get(usize::from(number).saturating_sub(1)) {
        Some(load) => load.dynamic,
        None => false,
    }
}

/// Whether a place is in a run-time library file, or in another load segment that is dynamic.
fn is_far(loads: &[LoadLimits], own: u16, file: u16, segment: u16) -> bool
    ensures { (headers : List HeaderFields) → loads.now ≡ map to_load_limits headers → result ≡ is_far headers own file segment }
{
    file != 1 || (segment != own && is_dynamic(loads, segment))
}

/// LENGTH of the load segment with this number.
pub fn length_of(loads: &[LoadLimits], number: u16) -> u32
    ensures { (headers : List HeaderFields) → loads.now ≡ map to_load_limits headers → result ≡ length_of headers number }
{
    match loads.get(usize::from(number).saturating_sub(1)) {
        Some(load) => load.length,
        None => 0,
    }
}

/// LENGTH of a segment of the run-time library file with this number in values, from 2.
fn length_outside(program: &Program, file: u16, segment: u16) -> u32
    ensures { result ≡ length_outside (setting_in program.now) file segment }
{
    let load = match program.runtime(u32::from(file).saturating_sub(2)) {
        Some(load) => load,
        None => return 0,
    };
    match load.header(u32::from(segment)) {
        Some(header) => header.length,
        None => 0,
    }
}

/// LENGTH of the segment that is called.
fn length_there(context: &LinkContext, target: Target) -> u32
    ensures { (headers : List HeaderFields) → context.now.loads.now ≡ map to_load_limits headers → result ≡ length_there headers (setting_in context.now.program.now) target }
{
    if target.file == 1 {
        return length_of(context.loads, target.segment);
    }
    length_outside(context.program, target.file, target.segment)
}

/// Whether what is linked so calls through a jump table: a program alone.
fn may_call(form: LinkForm) -> bool
    ensures { result ≡ may_call form }
{
    match form {
        LinkForm::Program => true,
        LinkForm::Runtime => false,
    }
}

/// Whether a record is a call: LEXPR of three bytes, without a shift, after a byte $22.
fn is_call(formula: FormulaRecord, shift: i8, jsl: bool) -> bool
    ensures { (before : List Cell) → ends_in_jsl before ≡ jsl → result ≡ is_call formula.code formula.count shift before }
{
    formula.code == LEXPR && formula.count == 3 && shift == 0 && jsl
}

/// What a place in a run-time library file or in another dynamic segment becomes: an entry of the jump table, where the record calls,
/// what is linked may call, and the offset is below LENGTH.
fn call_fit(length: u32, call: bool, target: Target) -> Result<FitOutcome, LinkCause>
    ensures { (headers : List HeaderFields) (setting : LinkSetting) (targets : List Target) (calls : Bool) → length_there headers setting target ≡ length
        → may_call setting.form && calls ≡ call → call_fit headers setting targets calls target ≡ fit_with_room targets result }
{
    if !call {
        return Err(LinkCause::DynamicReference);
    }
    if length <= target.offset {
        return Err(LinkCause::OutOfSegment);
    }
    Ok(FitOutcome::Entry(target))
}

fn or_does_not_fit(fit: Option<FitOutcome>) -> Result<FitOutcome, LinkCause>
    ensures { to_fit result ≡ or_does_not_fit (option_map to_fit_meaning fit) }
{
    match fit {
        Some(fit) => Ok(fit),
        None => Err(LinkCause::DoesNotFit),
    }
}

/// What the value of an expression record at this place becomes; whether the jump table has room for its target isn't checked.
pub fn fit_value(
    context: &LinkContext,
    frame: PatchPlace,
    formula: FormulaRecord,
) -> Result<FitOutcome, LinkCause>
    ensures { (headers : List HeaderFields) (targets : List Target) (before : List Cell) → context.now.loads.now ≡ map to_load_limits headers → ends_in_jsl before ≡ frame.after_jsl
        → fit_value headers (shown_frame (setting_in context.now.program.now) frame) targets before formula.code formula.count formula.n formula.value ≡ fit_with_room targets result }
{
    match formula.value {
        Value::Fixed(n) => or_does_not_fit(number_fit(formula, n)),
        Value::At {
            file,
            segment,
            offset,
            shift,
        } => {
            if is_far(context.loads, frame.own, file, segment) {
                let target = Target {
                    file,
                    segment,
                    offset,
                };
                let length = length_there(context, target);
                let call = may_call(context.program.form())
                    && is_call(formula, shift, frame.after_jsl);
                return call_fit(length, call, target);
            }
            or_does_not_fit(place_fit(frame, formula, segment, offset, shift))
        }
    }
}
