//! Where a member of the program is.

ghost use Rattle.link_program.specs.Linked.{member_at};
ghost use Rattle.link_program.specs.MemberPlaces.{MemberPlaceOf};

use crate::program::Program;

/// Where a member is: its place in the linked list, from 1, and its load segment, from 1, with the offset there; and the LABLEN of its
/// names.
#[derive(Clone, Copy)]
pub struct MemberPlace {
    pub place: u32,
    pub lab_len: u8,
    pub load_segment: u16,
    pub offset: u32,
}

/// Where the member at a place of the list, from 1, is.
pub fn place_of_member(program: &Program, place: u32) -> Option<MemberPlace>
    ensures { MemberPlaceOf program.now place (member_at program.now place) result }
{
    let member = match program.member(place) {
        Some(member) => member,
        None => return None,
    };
    let segment = match program.view(place) {
        Some(segment) => segment,
        None => return None,
    };
    Some(MemberPlace {
        place,
        lab_len: segment.header.lab_len,
        load_segment: member.load_segment,
        offset: member.offset,
    })
}
