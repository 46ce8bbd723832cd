//! A program with the values of its equates.

ghost use Rattle.std.specs.Prelude.{◌≡◌, Some, IfOk, IfErr};
ghost use Rattle.omf_format.specs.Expression.{IsExpression};
ghost use Rattle.link_meaning.specs.Member.{Member};
ghost use Rattle.link_meaning.specs.LinkValues.{IsTable, place_value, value_in};
ghost use Rattle.link_meaning.specs.LinkedCells.{targets};
ghost use Rattle.link_program.specs.Linked.{member_at};
ghost use Rattle.link_file.specs.Answers.{IsEmitRefused};
ghost use Rattle.link_file.specs.Valued.{HasPlace};

use crate::emitting::calls_of;
use jump_table::Table;
use link_meaning::LinkFault;
use link_program::{Program, place_of_member};
use link_values::{ValueSlot, place_at, value_in, values_of};
use omf_format::{Value, ValueFault};
use std::alloc::Global;
use std::marker::Model;

/// A program and what its equates are worth. Contracts see the linked list with the table of these values.
#[derive(Drop)]
pub struct EquateValues<'e, 'a> {
    program: &'e Program<'a>,
    slots: Vec<ValueSlot>,
}

impl<'e, 'a> Model for EquateValues<'e, 'a> {
    ghost use Rattle.link_program.specs.Outside.{all_found};
    ghost use Rattle.link_values.specs.Slots.{rows_of};
    ghost use Rattle.link_values.specs.Equates.{AreValues};
    ghost use Rattle.link_file.specs.Valued.{Valued};

    ghost Value = { Valued };

    ghost view = { λ v. record { list = v.program.now; table = rows_of (all_found v.program.now) v.slots.items } };

    ghost invariant = { λ v. AreValues v.program.now v.slots.items };
}

impl<'e, 'a> EquateValues<'e, 'a> {
    /// The values of a program's equates. Otherwise the fault of the first that leads back to itself.
    pub fn of(alloc: Global, program: &'e Program<'a>) -> Result<EquateValues<'e, 'a>, LinkFault>
        ensures list { IfOk result (λ values. values.list ≡ program.now) }
        ensures valued { IfOk result (λ values. IsTable values.list values.table) }
        ensures refused { IfErr result (λ fault. IsEmitRefused program.now fault) }
    {
        program.know_files();
        let slots = values_of(alloc, program)?;
        Ok(EquateValues { program, slots })
    }

    /// The program whose equates have these values.
    pub fn program(&self) -> &'e Program<'a>
        ensures { result.now ≡ self.now.list }
    {
        self.program
    }

    /// The place `at` bytes from the start of the member at a place of the list, from 1.
    pub fn place_in(&self, place: u32, at: u32) -> Value
        requires { HasPlace self.now.list place at }
        ensures { (m : Member) → member_at self.now.list place ≡ Some m → result ≡ place_value self.now.list place m at }
    {
        let member_place = match place_of_member(self.program, place) {
            Some(member_place) => member_place,
            None => unreachable!(),
        };
        place_at(member_place, at)
    }

    /// What an expression is worth in the member at a place of the list, from 1, where `location` of its cells are before the record.
    pub fn value_in(&self, place: u32, location: u32, expr: &[u8]) -> Result<Value, ValueFault>
        requires here { HasPlace self.now.list place location }
        requires spelled { (m : Member) → member_at self.now.list place ≡ Some m → IsExpression m.segment.fields.lab_len expr.now }
        ensures { (m : Member) → member_at self.now.list place ≡ Some m → result ≡ value_in self.now.list self.now.table place m location expr.now }
    {
        let member_place = match place_of_member(self.program, place) {
            Some(member_place) => member_place,
            None => unreachable!(),
        };
        value_in(
            self.program,
            self.slots.as_slice(),
            member_place,
            location,
            expr,
        )
    }

    /// The places that the program's records call through the jump table, in order of first call. Otherwise the first fault of a record.
    pub fn targets(&self, alloc: Global) -> Result<Table, LinkFault>
        ensures made { IfOk result (λ table. table ≡ targets self.now.list self.now.table) }
        ensures refused { IfErr result (λ fault. IsEmitRefused self.now.list fault) }
    {
        calls_of(alloc, self.program, self.slots.as_slice())
    }
}
