//! Definitions in order, by number.

ghost use Rattle.std.specs.Prelude.{◌≡◌, ◌<◌, ◌^◌, ◌++◌, ◌∷◌, [], ℕ, None, length, option_map, slice_get, IfOk, OnOk, if◌then◌else◌};
ghost use Rattle.link_tables.specs.Listed.{definition_of, expr_at};

use crate::definitions::Defined;
use indexmap::IndexMap;
use std::alloc::{AllocError, Global};
use std::marker::Model;

/// A definition without its expression, and whether it has one.
#[derive(Clone, Copy)]
struct DefinitionMark {
    member: u32,
    at: u32,
    length: u16,
    form: u8,
    is_equate: bool,
}

/// Definitions in order. The expressions of equates are kept apart, by number, since most definitions are none.
#[derive(Drop)]
pub struct Listed<'a> {
    marks: Vec<DefinitionMark>,
    exprs: IndexMap<usize, &'a [u8]>,
}

impl<'a> Model for Listed<'a> {
    ghost use Rattle.std.specs.Prelude.{List};
    ghost use Rattle.link_tables.specs.Listed.{DefinitionRow, expr_at, rows_from};

    ghost Value = { List DefinitionRow };

    ghost view = { λ listed. rows_from (expr_at listed.exprs) 0 listed.marks.items };
}

/// Keeps the expression, if there is one, of the definition with this number, and returns whether there is.
fn keep_expr<'a>(
    exprs: &mut IndexMap<usize, &'a [u8]>,
    number: usize,
    expr: Option<&'a [u8]>,
) -> Result<bool, AllocError>
    ensures kept { IfOk result (λ is_equate. (if is_equate then expr_at exprs.new number else None) ≡ option_map (λ text. text.now) expr.entry) }
    ensures others { OnOk result ((k : ℕ) → k < number → expr_at exprs.new k ≡ expr_at exprs.old k) }
{
    match expr {
        None => Ok(false),
        Some(text) => {
            exprs.insert(number, text)?;
            Ok(true)
        }
    }
}

/// The expression of the definition with this number, where it is an equate.
fn expr_of<'a>(
    exprs: &IndexMap<usize, &'a [u8]>,
    number: usize,
    is_equate: bool,
) -> Option<&'a [u8]>
    ensures { option_map (λ text. text.now) result ≡ (if is_equate then expr_at exprs.now number else None) }
{
    if !is_equate {
        return None;
    }
    match exprs.get(&number) {
        Some(text) => Some(*text),
        None => None,
    }
}

impl<'a> Listed<'a> {
    /// No definition.
    pub fn new(alloc: Global) -> Listed<'a>
        ensures { result ≡ [] }
    {
        Listed {
            marks: Vec::new(alloc),
            exprs: IndexMap::new(alloc),
        }
    }

    /// How many definitions there are.
    pub fn count(&self) -> usize
        ensures value { result ≡ length self.now }
        ensures few { result < 2 ^ 63 }
    {
        self.marks.as_slice().len()
    }

    /// The definition with this number, from 0.
    pub fn get(&self, number: usize) -> Option<Defined<'a>>
        ensures { option_map definition_of result ≡ slice_get self.now number }
    {
        match self.marks.get(number) {
            Some(mark) => Some(Defined {
                member: mark.member,
                at: mark.at,
                expr: expr_of(&self.exprs, number, mark.is_equate),
                length: mark.length,
                form: mark.form,
            }),
            None => None,
        }
    }

    /// Adds a definition after the others.
    pub fn push(&mut self, definition: Defined<'a>) -> Result<(), AllocError>
        ensures { OnOk result (self.new ≡ self.old ++ definition_of definition.entry ∷ []) }
    {
        let number = self.marks.as_slice().len();
        let is_equate = keep_expr(&mut self.exprs, number, definition.expr)?;
        self.marks.push(DefinitionMark {
            member: definition.member,
            at: definition.at,
            length: definition.length,
            form: definition.form,
            is_equate,
        })?;
        Ok(())
    }
}
