//! What the records of all members meet, and where one of them is.

ghost use Rattle.std.specs.Prelude.{◌≡◌, List, map};
ghost use Rattle.omf_format.specs.Header.{HeaderFields};
ghost use Rattle.link_meaning.specs.LinkedCells.{bank_of};
ghost use Rattle.link_content.specs.Fits.{to_load_limits};

use link_program::{MemberPlace, Program};
use omf_format::{Value, ValueFault};
use omf_records::Rec;

/// What is kept of a load segment's header.
#[derive(Clone, Copy)]
pub struct LoadLimits {
    pub dynamic: bool,
    pub length: u32,
    pub bank_size: u32,
}

/// What the records of all members meet.
#[derive(Clone, Copy)]
pub struct LinkContext<'e, 'a> {
    pub program: &'e Program<'a>,
    /// What is kept of the load segments' headers.
    pub loads: &'e [LoadLimits],
    /// The number of the load segment that is the jump table, after all others.
    pub table: u16,
}

/// Where a record is.
#[derive(Clone, Copy)]
pub struct RecordPlace {
    /// Where its member is.
    pub member: MemberPlace,
    /// How many of the member's cells are before it.
    pub location: u32,
}

/// A record, and what its expression is worth: the value or its fault; a number, where it has none.
#[derive(Clone, Copy)]
pub struct ValuedRecord<'r, 'a> {
    pub rec: &'r Rec<'a>,
    pub value: Result<Value, ValueFault>,
}

/// BANKSIZE of the load segment with this number.
pub fn bank_of(loads: &[LoadLimits], number: u16) -> u32
    ensures { (headers : List HeaderFields) → loads.now ≡ map to_load_limits headers → result ≡ bank_of headers number }
{
    match loads.get(usize::from(number).saturating_sub(1)) {
        Some(load) => load.bank_size,
        None => 0,
    }
}
