//! Records with names and expressions.

ghost use Rattle.std.specs.Prelude.{◌≡◌, ◌<◌, ◌≤◌, length, IfOk};
ghost use Rattle.omf_format.specs.Field.{Gives, length_width_of, number_field, name_field, taken_as, count_field, ◌⊗◌};
ghost use Rattle.omf_format.specs.Expression.{expression_field};
ghost use Rattle.omf_format.specs.Reading.{attributes_field, label_field, equate_field, formula_field};
ghost use Rattle.omf_records.specs.View.{view, view_layout};
ghost use Rattle.omf_format.specs.Record.{Using, Strong, Formula, Entry};
ghost use Rattle.omf_format.specs.declared.codes.TheConstants.{RELEXPR};

use crate::layout::Layout;
use crate::record::Rec;
use omf_base::{count_field, name_field, u8_field, u16_field, u32_field};
use omf_expr::Expr;
use omf_format::{ExprFault, Flaw, RELEXPR};

#[inline]
pub fn using(rest: &[u8], lab_len: u8) -> Result<(Rec<'_>, &[u8]), Flaw>
    ensures gives { Gives (λ x. (view x.0, x.1.now)) result (taken_as Using (name_field lab_len) rest.now) }
    ensures no_longer { IfOk result (λ x. length x.1.now ≤ length rest.now) }
{
    let (name, rest) = name_field(rest, lab_len)?;
    Ok((Rec::Using { name }, rest))
}

#[inline]
pub fn strong(rest: &[u8], lab_len: u8) -> Result<(Rec<'_>, &[u8]), Flaw>
    ensures gives { Gives (λ x. (view x.0, x.1.now)) result (taken_as Strong (name_field lab_len) rest.now) }
    ensures no_longer { IfOk result (λ x. length x.1.now ≤ length rest.now) }
{
    let (name, rest) = name_field(rest, lab_len)?;
    Ok((Rec::Strong { name }, rest))
}

/// The length of a label: two bytes, and one in version 1.
#[inline]
#[tactic(auto, using(omf_format::specs::laws::FieldLaws::number_of_byte), unfolding(omf_format::specs::Field::length_width_of))]
fn label_length(rest: &[u8], version: u8) -> Result<(u16, &[u8]), Flaw>
    ensures gives { Gives (λ x. (x.0, x.1.now)) result (number_field (length_width_of version) rest.now) }
    ensures no_longer { IfOk result (λ x. length x.1.now ≤ length rest.now) }
{
    if version == 1 {
        let (length, rest) = u8_field(rest)?;
        Ok((u16::from(length), rest))
    } else {
        u16_field(rest)
    }
}

/// The length, the type and the private byte of a label.
#[inline]
#[tactic(auto, unfolding(omf_format::specs::Reading::attributes_field))]
fn attributes(rest: &[u8], version: u8) -> Result<((u16, (u8, u8)), &[u8]), Flaw>
    ensures gives { Gives (λ x. (x.0, x.1.now)) result (attributes_field (length_width_of version) rest.now) }
    ensures no_longer { IfOk result (λ x. length x.1.now ≤ length rest.now) }
{
    let (length, rest) = label_length(rest, version)?;
    let (form, rest) = u8_field(rest)?;
    let (private, rest) = u8_field(rest)?;
    Ok(((length, (form, private)), rest))
}

/// The bytes of an expression.
#[inline]
fn expression(rest: &[u8], lab_len: u8) -> Result<(&[u8], &[u8]), Flaw>
    ensures gives { Gives (λ x. (x.0.now, x.1.now)) result (expression_field lab_len rest.now) }
    ensures no_longer { IfOk result (λ x. length x.1.now ≤ length rest.now) }
{
    match Expr::of(rest, lab_len) {
        Ok(expr) => {
            let text = expr.bytes();
            Ok((text, &rest[text.len()..]))
        }
        Err(ExprFault::Truncated(_)) => Err(Flaw::Cut),
        Err(ExprFault::BadTerm(_)) => Err(Flaw::Broken),
        Err(ExprFault::Shape(_)) => Err(Flaw::Broken),
        Err(ExprFault::TooDeep(_)) => Err(Flaw::Broken),
    }
}

#[inline]
#[tactic(auto, unfolding(omf_format::specs::Reading::label_field))]
pub fn label(rest: &[u8], layout: Layout, global: bool) -> Result<(Rec<'_>, &[u8]), Flaw>
    ensures gives { Gives (λ x. (view x.0, x.1.now)) result (label_field (view_layout layout) global rest.now) }
    ensures no_longer { IfOk result (λ x. length x.1.now ≤ length rest.now) }
{
    let (name, rest) = name_field(rest, layout.lab_len)?;
    let ((length, (form, private)), rest) = attributes(rest, layout.version)?;
    let rec = Rec::Label {
        global,
        name,
        length,
        form,
        private,
    };
    Ok((rec, rest))
}

#[inline]
#[tactic(auto, unfolding(omf_format::specs::Reading::equate_field))]
pub fn equate(rest: &[u8], layout: Layout, global: bool) -> Result<(Rec<'_>, &[u8]), Flaw>
    ensures gives { Gives (λ x. (view x.0, x.1.now)) result (equate_field (view_layout layout) global rest.now) }
    ensures no_longer { IfOk result (λ x. length x.1.now ≤ length rest.now) }
{
    let (name, rest) = name_field(rest, layout.lab_len)?;
    let ((length, (form, private)), rest) = attributes(rest, layout.version)?;
    let (expr, rest) = expression(rest, layout.lab_len)?;
    let rec = Rec::Equate {
        global,
        name,
        length,
        form,
        private,
        expr,
    };
    Ok((rec, rest))
}

/// EXPR, ZEXPR, BEXPR or LEXPR.
#[inline]
#[tactic(auto, unfolding(omf_format::specs::Reading::formula_field))]
pub fn formula(rest: &[u8], lab_len: u8, code: u8) -> Result<(Rec<'_>, &[u8]), Flaw>
    ensures gives { Gives (λ x. (view x.0, x.1.now)) result (formula_field lab_len code rest.now) }
    ensures no_longer { IfOk result (λ x. length x.1.now ≤ length rest.now) }
{
    let (count, rest) = count_field(rest)?;
    let (expr, rest) = expression(rest, lab_len)?;
    let rec = Rec::Formula {
        code,
        count,
        n: 0,
        expr,
    };
    Ok((rec, rest))
}

/// RELEXPR.
#[inline]
pub fn distance(rest: &[u8], lab_len: u8) -> Result<(Rec<'_>, &[u8]), Flaw>
    ensures gives { Gives (λ x. (view x.0, x.1.now)) result (taken_as (λ x. Formula RELEXPR x.0 x.1.0 x.1.1) (count_field ⊗ number_field 4 ⊗ expression_field lab_len) rest.now) }
    ensures no_longer { IfOk result (λ x. length x.1.now ≤ length rest.now) }
{
    let (count, rest) = count_field(rest)?;
    let (n, rest) = u32_field(rest)?;
    let (expr, rest) = expression(rest, lab_len)?;
    let rec = Rec::Formula {
        code: RELEXPR,
        count,
        n,
        expr,
    };
    Ok((rec, rest))
}

/// ENTRY.
#[inline]
pub fn entry(rest: &[u8], lab_len: u8) -> Result<(Rec<'_>, &[u8]), Flaw>
    ensures gives { Gives (λ x. (view x.0, x.1.now)) result (taken_as (λ x. Entry x.0 x.1.0 x.1.1) (number_field 2 ⊗ number_field 4 ⊗ name_field lab_len) rest.now) }
    ensures no_longer { IfOk result (λ x. length x.1.now ≤ length rest.now) }
{
    let (segment, rest) = u16_field(rest)?;
    let (offset, rest) = u32_field(rest)?;
    let (name, rest) = name_field(rest, lab_len)?;
    let rec = Rec::Entry {
        segment,
        offset,
        name,
    };
    Ok((rec, rest))
}
