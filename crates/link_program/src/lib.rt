//! The linked list: its members, what their names find, and the program that is resolved (GS/OS Reference, appendix F; the order of
//! search is this project's own).
#![tactic(auto)]

mod files;
mod finding;
mod growing;
mod linked;
mod member_place;
mod memory;
mod outside;
mod program;

pub use files::{length_of, segment_in};
pub use growing::grow;
pub use link_tables::{
    LinkLayout, LoadOffset, Matches, Offers, Origin, expression_of, headers, next_record,
    size_after, size_at,
};
pub use linked::Linked;
pub use member_place::{MemberPlace, place_of_member};
pub use memory::memory_fault;
pub use outside::OutsideNames;
pub use program::{Definition, LinkMember, Program, ResolvedProgram};
