//! Handles: names of blocks that outlive the block's place, and that distinguish a reused slot from the old one.

ghost use Rattle.std.specs.Prelude.{Some};

use std::fmt;

/// A slot of a table, and how often the slot had been released when the handle was made.
#[derive(Clone, Copy, PartialEq, Eq, Debug)]
pub struct Handle {
    /// The place of the slot in its table, from 0.
    pub slot: u16,
    /// How often the slot had been released before.
    pub generation: u8,
}

/// Six upper-case hexadecimal digits: four of the slot, then two of the generation.
impl fmt::Display for Handle {
    ghost use Rattle.iigs_meaning.specs.Printed.{six_digits};

    ghost output = { λ h. Some (six_digits h.slot h.generation) };

    #[tactic(auto, using(crate::proofs::Nibbles::one_digit))]
    fn fmt<W: fmt::Write>(&self, f: &mut fmt::Formatter<W>) -> fmt::Result {
        let slot = self.slot;
        let generation = self.generation;
        let [a, b, c, d] = [slot / 4096, slot / 256 % 16, slot / 16 % 16, slot % 16];
        let [e, g] = [generation / 16, generation % 16];
        write!(f, "{a:X}{b:X}{c:X}{d:X}{e:X}{g:X}")
    }
}

/// The handle isn't live: its slot isn't used, or it is used under another generation.
#[derive(Clone, Copy, PartialEq, Eq, Debug)]
pub struct Stale;
