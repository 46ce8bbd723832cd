//! The fields of a source line.

ghost use Rattle.std.specs.Prelude.{◌≡◌, ◌≤◌, ◌+◌, ◌-◌, ◌<◌, length, drop, take, position, Option, None, slice_index};
ghost use Rattle.std.specs.List.{position_or_len, list_all};
ghost use Rattle.orca_meaning.specs.Characters.{is_blank};
ghost use Rattle.orca_meaning.specs.Quotes.{outside_from, quote_following};
ghost use Rattle.orca_meaning.specs.Line.{is_comment, three_fields, operand_span, fields_of, part, LiesIn, HaveFields};
ghost use Rattle.orca_meaning.specs.laws.Steps.{is_ink, statement_fields};
ghost use Rattle.orca_text.specs.Decoding.{IsDecoded};
ghost use Rattle.orca_text.specs.View.{fields};

use crate::line_part::LinePart;
use crate::operation::{DecodedOperation, decode_operation};
use orca_meaning::{OperandUse, Span};

/// The places of a line's fields.
#[derive(Clone, Copy)]
pub struct LineFields {
    /// What begins in column 1.
    pub label: Span,
    /// The next field.
    pub operation: Span,
    /// The third field, up to the first blank outside quotes.
    pub operand: Span,
}

#[inline(always)]
fn is_blank(byte: u8) -> bool
    ensures { result ≡ is_blank byte }
{
    byte == b' ' || byte == b'\t'
}

/// The bytes from a place on.
#[inline(always)]
pub(crate) fn from(text: &[u8], at: usize) -> &[u8]
    ensures { result.now ≡ drop at text.now }
{
    match text.get(at..) {
        Some(rest) => rest,
        None => &[],
    }
}

/// The bytes of a field that lies in the text.
pub fn part(text: LinePart<'_>, span: Span) -> LinePart<'_>
    requires { LiesIn text.bytes.now span }
    ensures value { result.bytes.now ≡ part text.entry.bytes.now span }
    ensures bound { length result.bytes.now ≤ length text.entry.bytes.now }
{
    let field = from(text.bytes, span.from as usize);
    match field.get(..(span.to - span.from) as usize) {
        Some(bytes) => LinePart { bytes },
        None => LinePart { bytes: field },
    }
}

#[inline(always)]
fn first_blank(rest: &[u8]) -> Option<usize>
    ensures { result ≡ position is_blank rest.now }
{
    rest.iter().position(|byte| is_blank(*byte))
}

#[tactic(auto, using(crate::proofs::Places::found, crate::proofs::Places::none))]
#[inline(always)]
fn blank_in(rest: &[u8]) -> usize
    ensures value { result ≡ position_or_len is_blank rest.now }
    ensures bound { result ≤ length rest.now }
{
    match first_blank(rest) {
        Some(at) => at,
        None => rest.len(),
    }
}

#[inline(always)]
fn first_ink(rest: &[u8]) -> Option<usize>
    ensures { result ≡ position is_ink rest.now }
{
    rest.iter().position(|byte| !is_blank(*byte))
}

#[tactic(auto, using(crate::proofs::Places::found, crate::proofs::Places::none))]
#[inline(always)]
fn ink_in(rest: &[u8]) -> usize
    ensures value { result ≡ position_or_len is_ink rest.now }
    ensures bound { result ≤ length rest.now }
{
    match first_ink(rest) {
        Some(at) => at,
        None => rest.len(),
    }
}

/// Which quote is open after a byte.
#[inline(always)]
pub fn quote_following(quote: Option<u8>, byte: u8) -> Option<u8>
    ensures { result ≡ quote_following quote byte }
{
    match quote {
        None => {
            if byte == b'\'' || byte == b'"' {
                return Some(byte);
            }
            None
        }
        Some(open) => {
            if byte == open {
                return None;
            }
            Some(open)
        }
    }
}

/// How many bytes are before the first blank outside quotes.
#[tactic(auto, unfolding(orca_meaning::specs::Quotes::outside_from))]
#[inline(always)]
fn blank_outside(rest: &[u8]) -> usize
    ensures value { result ≡ outside_from is_blank None rest.now }
    ensures bound { result ≤ length rest.now }
{
    let mut quote = None;
    let mut count = 0;
    'bytes: for byte in rest {
        if quote.is_none() && is_blank(*byte) {
            return count;
        }
        quote = quote_following(quote, *byte);
        count += 1;
    }
    count
}

/// The label, the operation, and the third field of a line, whatever the operation does with it.
#[tactic(auto, unfolding(orca_meaning::specs::Line::three_fields))]
pub fn three_fields(text: LinePart<'_>) -> LineFields
    ensures value { fields result ≡ three_fields text.entry.bytes.now }
    ensures within { HaveFields text.entry.bytes.now (fields result) }
{
    let label_end = blank_in(text.bytes) as u32;
    let operation = label_end + ink_in(from(text.bytes, label_end as usize)) as u32;
    let operation_end = operation + blank_in(from(text.bytes, operation as usize)) as u32;
    let operand = operation_end + ink_in(from(text.bytes, operation_end as usize)) as u32;
    let operand_end = operand + blank_outside(from(text.bytes, operand as usize)) as u32;
    LineFields {
        label: Span {
            from: 0,
            to: label_end,
        },
        operation: Span {
            from: operation,
            to: operation_end,
        },
        operand: Span {
            from: operand,
            to: operand_end,
        },
    }
}

/// The third field of a line whose operation ends at a place.
#[tactic(auto, using(crate::proofs::Places::operand_is))]
pub fn operand_after(text: LinePart<'_>, end: usize) -> LinePart<'_>
    requires { (three_fields text.bytes.now).operation.to ≡ end }
    ensures value { result.bytes.now ≡ part text.entry.bytes.now (three_fields text.entry.bytes.now).operand }
    ensures bound { length result.bytes.now ≤ length text.entry.bytes.now }
{
    let following = from(text.bytes, end);
    let (_, third) = following.split_at(ink_in(following));
    let (operand, _) = third.split_at(blank_outside(third));
    LinePart { bytes: operand }
}

/// What begins in column 1 of a line, up to the first blank.
#[tactic(auto, using(crate::proofs::Places::label_is))]
pub fn label_in(text: LinePart<'_>) -> LinePart<'_>
    ensures value { result.bytes.now ≡ part text.entry.bytes.now (three_fields text.entry.bytes.now).label }
    ensures bound { length result.bytes.now ≤ length text.entry.bytes.now }
{
    let (label, _) = text.bytes.split_at(blank_in(text.bytes));
    LinePart { bytes: label }
}

/// Whether all bytes are blank.
fn is_empty(text: &[u8]) -> bool
    ensures { result ≡ list_all is_blank text.now }
{
    text.iter().all(|byte| is_blank(*byte))
}

/// Whether the line is blank, or begins with `*`, `;` or `!`.
pub fn is_comment(text: &[u8]) -> bool
    ensures { result ≡ is_comment text.now }
{
    match text.split_first() {
        Some((first, _)) => { *first == b'*' || *first == b';' || *first == b'!' || is_empty(text) }
        None => true,
    }
}

/// Whether a semicolon is at a place.
#[inline(always)]
fn is_semicolon_at(text: &[u8], at: u32) -> bool
    ensures { result ≡ Rattle.std.specs.Prelude.nat_eq (slice_index text.now at) 0x3B }
{
    match text.get(at as usize) {
        Some(byte) => *byte == b';',
        None => false,
    }
}

/// The third field, or nothing where the operation doesn't take it.
#[inline(always)]
fn operand_span(text: &[u8], third: Span, operand_use: OperandUse) -> Span
    ensures { result ≡ operand_span operand_use text.now third }
{
    let nothing = Span {
        from: third.from,
        to: third.from,
    };
    match operand_use {
        OperandUse::Never => nothing,
        OperandUse::Accumulator => {
            if is_semicolon_at(text, third.from) {
                return nothing;
            }
            third
        }
        OperandUse::Signature => {
            if is_semicolon_at(text, third.from) {
                return nothing;
            }
            third
        }
        OperandUse::Always => third,
    }
}

/// The fields of a line that isn't a comment, and what its operation is.
#[inline(always)]
fn statement_fields(text: LinePart<'_>) -> (LineFields, DecodedOperation)
    ensures value { fields result.0 ≡ statement_fields text.entry.bytes.now (three_fields text.entry.bytes.now) }
    ensures within { HaveFields text.entry.bytes.now (fields result.0) }
    ensures operation { IsDecoded (part text.entry.bytes.now result.0.operation) result.1 }
{
    let three = three_fields(text);
    let operation = decode_operation(part(text, three.operation).bytes);
    let fields = LineFields {
        label: three.label,
        operation: three.operation,
        operand: operand_span(text.bytes, three.operand, operation.operand_use),
    };
    (fields, operation)
}

/// The fields of a line, and what its operation is. A comment has none.
#[tactic(auto, unfolding(orca_meaning::specs::Line::fields_of))]
pub(crate) fn fields_of(text: LinePart<'_>) -> (LineFields, DecodedOperation)
    ensures value { fields result.0 ≡ fields_of text.entry.bytes.now }
    ensures within { HaveFields text.entry.bytes.now (fields result.0) }
    ensures operation { IsDecoded (part text.entry.bytes.now result.0.operation) result.1 }
{
    if is_comment(text.bytes) {
        let nothing = Span { from: 0, to: 0 };
        let fields = LineFields {
            label: nothing,
            operation: nothing,
            operand: nothing,
        };
        return (fields, decode_operation(part(text, nothing).bytes));
    }
    statement_fields(text)
}
