//! The fault of an equate that leads back to itself.

ghost use Rattle.std.specs.Prelude.{◌≡◌, ◌<◌, ℕ, length, option_map};
ghost use Rattle.omf_records.specs.Segments.{IsSound, segment_of_view};
ghost use Rattle.omf_records.specs.View.{view};
ghost use Rattle.object_meaning.specs.Defines.{defined_by, defined_in};
ghost use Rattle.link_meaning.specs.Search.{entries};
ghost use Rattle.link_values.specs.Circulars.{DefinesName, IsAfterTitle, IsNth, IsCircularAt};

use link_meaning::{LinkCause, LinkFault};
use link_program::{Program, memory_fault, next_record};
use omf_base::{Name, Spot};
use omf_records::{Rec, SegmentView};
use std::alloc::Global;

/// The name of what a record defines.
fn defined_name<'a>(rec: &Rec<'a>) -> Option<&'a [u8]>
    ensures { (at place : ℕ) → DefinesName at (defined_by at place (view rec.now)) (option_map (λ name. name.now) result) }
{
    match rec {
        Rec::Label { name, .. } => Some(name),
        Rec::Equate { name, .. } => Some(name),
        Rec::End
        | Rec::Const { .. }
        | Rec::LongConst { .. }
        | Rec::Align { .. }
        | Rec::Org { .. }
        | Rec::Space { .. }
        | Rec::Reloc { .. }
        | Rec::InterSeg { .. }
        | Rec::ShortReloc { .. }
        | Rec::ShortInterSeg { .. }
        | Rec::Super { .. }
        | Rec::Using { .. }
        | Rec::Strong { .. }
        | Rec::Formula { .. }
        | Rec::Entry { .. } => None,
    }
}

/// How many numbers are left after the name of a segment; None where the number is the name's.
fn after_title(segment: &SegmentView, number: usize) -> Option<usize>
    ensures { IsAfterTitle (segment_of_view segment.now) number result }
{
    if segment.header.name.bytes().is_empty() {
        return Some(number);
    }
    if number == 0 {
        return None;
    }
    Some(number - 1)
}

/// The name and the displacement of the definition of a segment with this number, from 0; or how many numbers are left after the last one.
fn nth<'s, 'a>(segment: &'s SegmentView<'a>, number: usize) -> Result<(&'s [u8], u32), usize>
    requires { IsSound segment.now }
    ensures { IsNth (defined_in (segment_of_view segment.now)) number result }
{
    let mut left = match after_title(segment, number) {
        Some(left) => left,
        None => return Ok((segment.header.name.bytes(), segment.start)),
    };
    let mut records = segment.records();
    'walk: loop {
        match next_record(&mut records) {
            None => return Err(left),
            Some((at, rec)) => match defined_name(&rec) {
                Some(name) => {
                    if left == 0 {
                        return Ok((name, at));
                    }
                    left -= 1;
                }
                None => {}
            },
        }
    }
}

/// The fault, with the name and the place of the equate with this number, from 0 among all definitions.
pub fn cycle_fault(alloc: Global, program: &Program, number: usize) -> LinkFault
    requires { number < length (entries program.now) }
    ensures { IsCircularAt program.now number result }
{
    let mut left = number;
    let mut place = 0;
    'members: while place < program.members() {
        place += 1;
        let segment = match program.view(place) {
            Some(segment) => segment,
            None => unreachable!(),
        };
        match nth(segment, left) {
            Ok((name, at)) => return fault_of(alloc, program, place, name, at),
            Err(rest) => left = rest,
        }
    }
    unreachable!()
}

/// The fault of an equate of the member at a place, with its name and displacement.
fn fault_of(alloc: Global, program: &Program, place: u32, name: &[u8], at: u32) -> LinkFault
    ensures { (m : Member) → member_at program.now place ≡ Some m
        → (result ≡ memory_fault) ⊎ (result ≡ record { cause = Circular; name = Some name.now; spot = spot_in m at }) }
{
    let member = match program.member(place) {
        Some(member) => member,
        None => return memory_fault(),
    };
    let name = match Name::of(alloc, name) {
        Ok(name) => name,
        Err(_) => return memory_fault(),
    };
    LinkFault {
        cause: LinkCause::Circular,
        name: Some(name),
        spot: Spot {
            file: member.file,
            segment: member.segment,
            at,
        },
    }
}

ghost use Rattle.std.specs.Prelude.{◌⊎◌, Some};
ghost use Rattle.link_meaning.specs.declared.fault.LinkCause.TheVariants.{Circular};
ghost use Rattle.link_meaning.specs.Member.{Member};
ghost use Rattle.link_meaning.specs.LinkFaults.{spot_in};
ghost use Rattle.link_program.specs.Linked.{member_at};
ghost use Rattle.link_program.specs.Memory.{memory_fault};
