//! The record at the start of the bytes: each field is taken from the left, and the first that fails decides.

ghost use Rattle.std.specs.Prelude.{◌≡◌, ◌<◌, ◌≤◌, length, IfOk, nat_lt, ◌^◌};
ghost use Rattle.omf_format.specs.Field.{Gives, bytes_field, taken_as, number_field, field_that_passes};
ghost use Rattle.omf_format.specs.Record.{IsRecord, Const, Align, Org, Space};
ghost use Rattle.omf_format.specs.Reading.{rows, by_code, first_record};
ghost use Rattle.omf_records.specs.View.{view, view_layout};
ghost use Rattle.omf_format.specs.laws.Steps.{long_constant_field};
ghost use Rattle.omf_format.specs.declared.fault.Flaw.TheVariants.{Unread};

use crate::labels::{distance, entry, equate, formula, label, strong, using};
use crate::layout::Layout;
use crate::patches::{interseg, reloc, short_interseg, short_reloc, super_record};
use crate::record::Rec;
use omf_base::{bytes_field, u32_field};
use omf_format::{
    ALIGN, BEXPR, DS, ENTRY, EQU, EXPR, Flaw, GEQU, GLOBAL, INTERSEG, LCONST, LEXPR, LOCAL, ORG,
    RELEXPR, RELOC, SHORT_INTERSEG, SHORT_RELOC, STRONG, SUPER, USING, ZEXPR,
};

#[inline]
fn constant(rest: &[u8], n: u8) -> Result<(Rec<'_>, &[u8]), Flaw>
    ensures gives { Gives (λ x. (view x.0, x.1.now)) result (taken_as Const (bytes_field n) rest.now) }
    ensures no_longer { IfOk result (λ x. length x.1.now ≤ length rest.now) }
{
    let (bytes, rest) = bytes_field(rest, n as usize)?;
    Ok((Rec::Const { bytes }, rest))
}

#[inline]
fn long_constant(rest: &[u8]) -> Result<(Rec<'_>, &[u8]), Flaw>
    ensures gives { Gives (λ x. (view x.0, x.1.now)) result (long_constant_field rest.now) }
    ensures no_longer { IfOk result (λ x. length x.1.now ≤ length rest.now) }
{
    let (n, rest) = u32_field(rest)?;
    let (bytes, rest) = bytes_field(rest, n as usize)?;
    Ok((Rec::LongConst { bytes }, rest))
}

#[inline]
fn align(rest: &[u8]) -> Result<(Rec<'_>, &[u8]), Flaw>
    ensures gives { Gives (λ x. (view x.0, x.1.now)) result (taken_as Align (number_field 4) rest.now) }
    ensures no_longer { IfOk result (λ x. length x.1.now ≤ length rest.now) }
{
    let (n, rest) = u32_field(rest)?;
    Ok((Rec::Align { n }, rest))
}

#[inline]
fn org(rest: &[u8]) -> Result<(Rec<'_>, &[u8]), Flaw>
    ensures gives { Gives (λ x. (view x.0, x.1.now)) result (taken_as Org (field_that_passes (λ n. nat_lt n (2 ^ 31)) Unread (number_field 4)) rest.now) }
    ensures no_longer { IfOk result (λ x. length x.1.now ≤ length rest.now) }
{
    let (n, rest) = u32_field(rest)?;
    if n >= 0x8000_0000 {
        return Err(Flaw::Unread);
    }
    Ok((Rec::Org { n }, rest))
}

#[inline]
fn space(rest: &[u8]) -> Result<(Rec<'_>, &[u8]), Flaw>
    ensures gives { Gives (λ x. (view x.0, x.1.now)) result (taken_as Space (number_field 4) rest.now) }
    ensures no_longer { IfOk result (λ x. length x.1.now ≤ length rest.now) }
{
    let (n, rest) = u32_field(rest)?;
    Ok((Rec::Space { n }, rest))
}

/// The record with a code from $E0 on, read from the bytes after the code. It is kept out of the loops over records, which would grow large
/// and slow by it.
#[inline(never)]
#[tactic(auto, unfolding(omf_format::specs::Reading::rows))]
fn by_code(code: u8, rest: &[u8], layout: Layout) -> Result<(Rec<'_>, &[u8]), Flaw>
    ensures gives { Gives (λ x. (view x.0, x.1.now)) result (by_code (rows (view_layout layout)) code rest.now) }
    ensures no_longer { IfOk result (λ x. length x.1.now ≤ length rest.now) }
{
    match code {
        ALIGN => align(rest),
        ORG => org(rest),
        RELOC => reloc(rest),
        INTERSEG => interseg(rest),
        USING => using(rest, layout.lab_len),
        STRONG => strong(rest, layout.lab_len),
        GLOBAL => label(rest, layout, true),
        GEQU => equate(rest, layout, true),
        EXPR => formula(rest, layout.lab_len, EXPR),
        ZEXPR => formula(rest, layout.lab_len, ZEXPR),
        BEXPR => formula(rest, layout.lab_len, BEXPR),
        RELEXPR => distance(rest, layout.lab_len),
        LOCAL => label(rest, layout, false),
        EQU => equate(rest, layout, false),
        DS => space(rest),
        LCONST => long_constant(rest),
        LEXPR => formula(rest, layout.lab_len, LEXPR),
        ENTRY => entry(rest, layout.lab_len),
        SHORT_RELOC => short_reloc(rest),
        SHORT_INTERSEG => short_interseg(rest),
        SUPER => super_record(rest),
        _ => Err(Flaw::Unread),
    }
}

/// The same, taken apart: the record that it gives goes through memory, and the commoner records needn't.
#[inline(always)]
fn rarer(code: u8, rest: &[u8], layout: Layout) -> Result<(Rec<'_>, &[u8]), Flaw>
    ensures gives { Gives (λ x. (view x.0, x.1.now)) result (by_code (rows (view_layout layout)) code rest.now) }
    ensures no_longer { IfOk result (λ x. length x.1.now ≤ length rest.now) }
{
    match by_code(code, rest, layout) {
        Ok((rec, rest)) => Ok((rec, rest)),
        Err(flaw) => Err(flaw),
    }
}

/// The record, and the bytes after it.
#[inline(always)]
#[tactic(auto, unfolding(omf_format::specs::Reading::first_record, omf_format::specs::Reading::rows))]
fn read_front(bytes: &[u8], layout: Layout) -> Result<(Rec<'_>, &[u8]), Flaw>
    ensures gives { Gives (λ x. (view x.0, x.1.now)) result (first_record (view_layout layout) bytes.now) }
    ensures shorter { IfOk result (λ x. length x.1.now < length bytes.now) }
{
    match bytes {
        [] => Err(Flaw::Cut),
        [0x00, rest @ ..] => Ok((Rec::End, rest)),
        [n @ 0x01..=0xDF, rest @ ..] => constant(rest, *n),
        [DS, rest @ ..] => space(rest),
        [LCONST, rest @ ..] => long_constant(rest),
        [code, rest @ ..] => rarer(*code, rest, layout),
    }
}

/// The record, which is one of the format, and the bytes after it.
#[inline(always)]
pub fn record_at_front(bytes: &[u8], layout: Layout) -> Result<(Rec<'_>, &[u8]), Flaw>
    ensures gives { Gives (λ x. (view x.0, x.1.now)) result (first_record (view_layout layout) bytes.now) }
    ensures formed { IfOk result (λ x. IsRecord (view_layout layout) (view x.0)) }
    ensures shorter { IfOk result (λ x. length x.1.now < length bytes.now) }
{
    match read_front(bytes, layout) {
        Ok((rec, rest)) => Ok((rec, rest)),
        Err(flaw) => Err(flaw),
    }
}
