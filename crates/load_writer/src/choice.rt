//! Which record a patch becomes.

ghost use Rattle.std.specs.Prelude.{◌≡◌, ◌<◌, is_none};
ghost use Rattle.omf_records.specs.View.{view};
ghost use Rattle.load_writer.specs.WrittenParts.{seen};
ghost use Rattle.load_meaning.specs.WrittenBody.{has_shape, is_named, is_short, super_form, lone_record};
ghost use Rattle.load_meaning.specs.laws.Steps.{is_form};

use crate::written::Patch;
use omf_records::Rec;

/// The patch has `count` bytes and this shift, and its offset fits two bytes.
fn has_shape(patch: &Patch, count: u8, shift: i8) -> bool
    ensures { result ≡ has_shape count shift (seen patch.now) }
{
    patch.count == count && patch.shift == shift && patch.offset <= 0xFFFF
}

/// The segment is one that a type from 14 on names.
fn is_named(patch: &Patch) -> bool
    ensures { result ≡ is_named (seen patch.now) }
{
    1 <= patch.segment && patch.segment <= 12
}

/// Location and offset fit two bytes.
fn is_short(patch: &Patch) -> bool
    ensures { result ≡ is_short (seen patch.now) }
{
    patch.at <= 0xFFFF && patch.offset <= 0xFFFF
}

/// The type of the SUPER that holds a patch, if one of the types can hold it.
#[tactic(auto, unfolding(load_meaning::specs::WrittenBody::super_form))]
pub fn super_form(own: u16, patch: &Patch) -> Option<u8>
    ensures { result ≡ super_form own (seen patch.now) }
{
    let is_own = patch.segment == own;
    if is_own && has_shape(patch, 2, 0) {
        return Some(0);
    }
    if is_own && has_shape(patch, 3, 0) {
        return Some(1);
    }
    if !is_own && patch.segment <= 255 && has_shape(patch, 3, 0) {
        return Some(2);
    }
    if !is_own && is_named(patch) && has_shape(patch, 2, 0) {
        return Some(13 + patch.segment as u8);
    }
    if !is_own && is_named(patch) && has_shape(patch, 2, -16) {
        return Some(25 + patch.segment as u8);
    }
    None
}

/// The patch is in the SUPER of type 2, which holds those in another segment with three bytes and no shift.
#[tactic(auto, unfolding(load_meaning::specs::WrittenBody::super_form))]
pub fn is_far(own: u16, patch: &Patch) -> bool
    ensures { result ≡ is_form 2 (super_form own (seen patch.now)) }
{
    patch.segment != own && patch.segment <= 255 && has_shape(patch, 3, 0)
}

/// The record of a patch alone.
#[tactic(auto, unfolding(load_meaning::specs::WrittenBody::lone_record))]
pub fn lone_record<'a>(own: u16, patch: &Patch) -> Rec<'a>
    ensures { view result ≡ lone_record own (seen patch.now) }
{
    if patch.segment == own {
        if is_short(patch) {
            return Rec::ShortReloc {
                count: patch.count,
                shift: patch.shift,
                location: patch.at as u16,
                offset: patch.offset as u16,
            };
        }
        return Rec::Reloc {
            count: patch.count,
            shift: patch.shift,
            location: patch.at,
            offset: patch.offset,
        };
    }
    if patch.segment <= 255 && is_short(patch) {
        return Rec::ShortInterSeg {
            count: patch.count,
            shift: patch.shift,
            location: patch.at as u16,
            segment: patch.segment as u8,
            offset: patch.offset as u16,
        };
    }
    Rec::InterSeg {
        count: patch.count,
        shift: patch.shift,
        location: patch.at,
        file: 1,
        segment: patch.segment,
        offset: patch.offset,
    }
}
