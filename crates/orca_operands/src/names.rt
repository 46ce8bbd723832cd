//! The names that a segment defines, and the constants from outside segments.

ghost use Rattle.std.specs.Prelude.{◌≡◌, ◌<◌, ◌^◌, List, ℕ, Some};
ghost use Rattle.name_map.specs.Held.{value_of_name};

use name_map::{NameMap, get_by_name, insert_by_name};
use std::alloc::{AllocError, Global};

/// The names that a segment defines, each with its value where it is a constant.
#[derive(Drop)]
pub struct DefinedNames {
    pub(crate) map: NameMap<Option<u32>>,
    ghost small: { (name : List ℕ) (n : ℕ) → value_of_name map name ≡ Some (Some n) → n < 2 ^ 32 },
}

/// The constants from outside segments.
#[derive(Drop)]
pub struct OutsideConstants {
    pub(crate) map: NameMap<u32>,
    ghost small: { (name : List ℕ) (n : ℕ) → value_of_name map name ≡ Some n → n < 2 ^ 32 },
}

/// The constants that are known at a line.
#[derive(Clone, Copy)]
pub struct KnownConstants<'a> {
    /// Those of the open segment are among its names.
    pub names: Option<&'a DefinedNames>,
    pub outside: &'a OutsideConstants,
}

impl DefinedNames {
    ghost use Rattle.std.specs.Prelude.{◌≡◌, [], length, bytes_eq, None, IfOk, OnOk, MatchOption, is_some, option_copied};
    ghost use Rattle.orca_meaning.specs.Names.{with_name};
    ghost use Rattle.asm_meaning.specs.State.{no_names, no_constants};
    ghost use Rattle.asm_meaning.specs.Constant.{AreSmall};
    ghost use Rattle.orca_operands.specs.NamesView.{names_of, outside_of, constants, value_in_names};

    /// None.
    #[tactic(auto, using(crate::proofs::Maps::no_names_held))]
    pub fn new(alloc: Global) -> DefinedNames
        ensures { names_of result ≡ no_names }
    {
        DefinedNames {
            map: NameMap::new(alloc),
        }
    }

    /// A name's value, if the segment defines it.
    pub fn get(&self, name: &[u8]) -> Option<Option<u32>>
        ensures { result ≡ names_of self.now name.now }
    {
        match get_by_name(&self.map, name) {
            Some(value) => Some(*value),
            None => None,
        }
    }

    /// One more name, with a value.
    fn set_number(&mut self, alloc: Global, name: &[u8], n: u32) -> Result<(), AllocError>
        ensures { OnOk result (names_of self.new ≡ with_name name.now (Some n) (names_of self.old)) }
    {
        insert_by_name(alloc, &mut self.map, name, Some(n))
    }

    /// One more name, without a value.
    fn set_open(&mut self, alloc: Global, name: &[u8]) -> Result<(), AllocError>
        ensures { OnOk result (names_of self.new ≡ with_name name.now None (names_of self.old)) }
    {
        insert_by_name(alloc, &mut self.map, name, None)
    }

    /// One more name.
    pub fn set(&mut self, alloc: Global, name: &[u8], value: Option<u32>) -> Result<(), AllocError>
        ensures { OnOk result (names_of self.new ≡ with_name name.now value (names_of self.old)) }
    {
        match value {
            Some(n) => self.set_number(alloc, name, n),
            None => self.set_open(alloc, name),
        }
    }
}

impl OutsideConstants {
    ghost use Rattle.std.specs.Prelude.{◌≡◌, [], length, bytes_eq, None, IfOk, OnOk, MatchOption, is_some, option_copied};
    ghost use Rattle.orca_meaning.specs.Names.{with_name};
    ghost use Rattle.asm_meaning.specs.State.{no_names, no_constants};
    ghost use Rattle.asm_meaning.specs.Constant.{AreSmall};
    ghost use Rattle.orca_operands.specs.NamesView.{names_of, outside_of, constants, value_in_names};

    /// None.
    #[tactic(auto, using(crate::proofs::Maps::no_constants_held))]
    pub fn new(alloc: Global) -> OutsideConstants
        ensures { outside_of result ≡ no_constants }
    {
        OutsideConstants {
            map: NameMap::new(alloc),
        }
    }

    /// A constant's value.
    pub fn get(&self, name: &[u8]) -> Option<u32>
        ensures { result ≡ outside_of self.now name.now }
    {
        match get_by_name(&self.map, name) {
            Some(value) => Some(*value),
            None => None,
        }
    }

    /// One more constant.
    pub fn set(&mut self, alloc: Global, name: &[u8], value: u32) -> Result<(), AllocError>
        ensures { OnOk result (outside_of self.new ≡ with_name name.now value (outside_of self.old)) }
    {
        insert_by_name(alloc, &mut self.map, name, value)
    }
}

impl<'a> KnownConstants<'a> {
    ghost use Rattle.std.specs.Prelude.{◌≡◌, [], length, bytes_eq, None, IfOk, OnOk, MatchOption, is_some, option_copied};
    ghost use Rattle.orca_meaning.specs.Names.{with_name};
    ghost use Rattle.asm_meaning.specs.State.{no_names, no_constants};
    ghost use Rattle.asm_meaning.specs.Constant.{AreSmall};
    ghost use Rattle.orca_operands.specs.NamesView.{names_of, outside_of, constants, value_in_names};

    /// The value of a name in the open segment.
    fn inside(self, name: &[u8]) -> Option<u32>
        ensures { result ≡ value_in_names (option_copied self.entry.names) name.now }
    {
        match self.names {
            Some(found) => match found.get(name) {
                Some(value) => value,
                None => None,
            },
            None => None,
        }
    }

    /// Their values have 32 bits.
    #[tactic(auto, using(crate::proofs::Small::known_small))]
    pub fn recall_small(self)
        ensures { AreSmall (constants self.entry) }
    {}

    /// The value of a name: in the segment, and else outside.
    pub(crate) fn value(self, name: &[u8]) -> Option<u32>
        ensures { result ≡ constants self.entry name.now }
    {
        match self.inside(name) {
            Some(value) => Some(value),
            None => self.outside.get(name),
        }
    }
}
