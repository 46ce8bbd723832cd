//! What an expression meets in a member of the program.

ghost use Rattle.std.specs.Prelude.{◌≡◌};
ghost use Rattle.link_program.specs.Programs.{symbol_of};
ghost use Rattle.link_values.specs.Operands.{attribute_in_view};

use crate::slots::{ValueSlot, label_of};
use link_program::{Definition, Program};
use omf_expr::Env;
use omf_format::Value;
use std::marker::Model;

/// What names, the location counter and the segment's start mean in a member. Contracts see where that is.
#[derive(Drop)]
pub struct MemberEnv<'e, 'a> {
    program: &'e Program<'a>,
    slots: &'e [ValueSlot],
    place: u32,
    location: Value,
    start: Value,
}

impl<'e, 'a> Model for MemberEnv<'e, 'a> {
    ghost use Rattle.link_values.specs.Surroundings.{Surroundings, AreKnown};

    ghost Value = { Surroundings };

    ghost view = { λ m. record { list = m.program.now; slots = m.slots.now; place = m.place; location = m.location; start = m.start } };

    ghost invariant = { λ m. AreKnown m.program.now m.slots.now };
}

impl<'e, 'a> MemberEnv<'e, 'a> {
    ghost use Rattle.link_values.specs.Surroundings.{AreKnown};

    /// What an expression meets in the member at a place, from 1, where these are the values of all definitions.
    pub fn new(
        program: &'e Program<'a>,
        slots: &'e [ValueSlot],
        place: u32,
        location: Value,
        start: Value,
    ) -> MemberEnv<'e, 'a>
        requires { AreKnown program.now slots.now }
        ensures { result ≡ record { list = program.now; slots = slots.now; place = place; location = location; start = start } }
    {
        MemberEnv {
            program,
            slots,
            place,
            location,
            start,
        }
    }
}

/// The length (term $84), type ($85) or count of a name that found a definition.
fn attribute_of(term: u8, definition: &Definition) -> u32
    ensures { result ≡ attribute_in_view term (symbol_of definition.now) }
{
    if term == 0x84 {
        u32::from(definition.length)
    } else if term == 0x85 {
        u32::from(definition.form)
    } else {
        1
    }
}

impl<'e, 'a> Env for MemberEnv<'e, 'a> {
    ghost use Rattle.link_values.specs.Surroundings.{environment_of};

    ghost meaning = { environment_of };

    fn label(&self, name: &[u8], weak: bool) -> Option<Value> {
        label_of(self.slots, self.program.find(self.place, name), weak)
    }

    fn attribute(&self, term: u8, name: &[u8]) -> Option<u32> {
        match self.program.symbol(self.place, name) {
            Some(definition) => Some(attribute_of(term, &definition)),
            None => { if term == 0x86 { Some(0) } else { None } }
        }
    }

    fn location(&self) -> Value {
        self.location
    }

    fn start(&self) -> Value {
        self.start
    }
}
