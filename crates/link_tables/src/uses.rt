//! What the members of the linked list use.

ghost use Rattle.std.specs.Prelude.{◌≡◌, ◌<◌, ◌++◌, ◌∷◌, [], Some, length, slice_get, OnOk};
ghost use Rattle.omf_format.specs.Expression.{IsExpression, terms_in};
ghost use Rattle.omf_expr.specs.View as terms;
ghost use Rattle.omf_records.specs.View.{view};
ghost use Rattle.link_meaning.specs.Uses.{used_by_term, used_by};
ghost use Rattle.link_meaning.specs.laws.Steps.{used_in_text};
ghost use Rattle.link_tables.specs.Uses.{use_of, at_place, HasSpelling, HaveShortNames, IsShortTerm};

use link_meaning::SearchKind;
use omf_expr::{Expr, Term, Terms};
use omf_records::Rec;
use std::alloc::{AllocError, Global};
use std::marker::Model;

/// A use of a name.
#[derive(Clone, Copy)]
pub struct Use<'a> {
    pub want: SearchKind,
    pub name: &'a [u8],
    /// The record's displacement in the file.
    pub at: u32,
    /// The member's place in the linked list, from 1.
    pub place: u32,
}

/// A use of a name, without what it wants.
#[derive(Clone, Copy)]
struct UseSite<'a> {
    name: &'a [u8],
    at: u32,
    place: u32,
}

/// Uses in order. What each wants is kept apart, since one byte beside 24 takes less memory than both together.
#[derive(Drop)]
pub struct Uses<'a> {
    wants: Vec<SearchKind>,
    sites: Vec<UseSite<'a>>,
}

impl<'a> Model for Uses<'a> {
    ghost use Rattle.std.specs.Prelude.{◌≡◌, ℕ, List, length};
    ghost use Rattle.link_meaning.specs.Uses.{Use};
    ghost use Rattle.link_tables.specs.Uses.{uses_of_sites};

    ghost Value = { List (ℕ × Use) };

    ghost view = { λ uses. uses_of_sites uses.wants.items uses.sites.items };

    ghost invariant = { λ uses. length uses.wants.items ≡ length uses.sites.items };
}

impl<'a> Uses<'a> {
    /// No use.
    pub fn new(alloc: Global) -> Uses<'a>
        ensures { result ≡ [] }
    {
        Uses {
            wants: Vec::new(alloc),
            sites: Vec::new(alloc),
        }
    }

    /// How many uses there are.
    pub fn count(&self) -> usize
        ensures { result ≡ length self.now }
    {
        self.sites.as_slice().len()
    }

    /// The use with this number, from 0.
    pub fn get(&self, number: usize) -> Use<'a>
        requires { number < length self.now }
        ensures { slice_get self.now number ≡ Some (use_of result) }
    {
        let site = self.sites[number];
        Use {
            want: self.wants[number],
            name: site.name,
            at: site.at,
            place: site.place,
        }
    }

    /// Adds a use after the others.
    fn push(&mut self, used: Use<'a>) -> Result<(), AllocError>
        ensures { OnOk result (self.new ≡ self.old ++ use_of used.entry ∷ []) }
    {
        let site = UseSite {
            name: used.name,
            at: used.at,
            place: used.place,
        };
        self.wants.push(used.want)?;
        if let Err(error) = self.sites.push(site) {
            self.wants.pop();
            return Err(AllocError::from(error));
        }
        Ok(())
    }
}

/// The use of a term. $82 is a weak name; $86 is no use.
fn add_term<'a>(uses: &mut Uses<'a>, term: Term<'a>, at: u32, place: u32) -> Result<(), AllocError>
    requires { IsShortTerm (terms.view term) }
    ensures gave { OnOk result (uses.new ≡ uses.old ++ at_place place (used_by_term at (terms.view term.entry))) }
    ensures short { OnOk result (HaveShortNames uses.old → HaveShortNames uses.new) }
{
    match term {
        Term::Named(code, name) => {
            if code == 0x86 {
                return Ok(());
            }
            let want = if code == 0x82 {
                SearchKind::Any
            } else {
                SearchKind::One
            };
            uses.push(Use {
                want,
                name,
                at,
                place,
            })?;
            Ok(())
        }
        Term::Operator(_) | Term::Location | Term::Constant(_) | Term::Offset(_) => Ok(()),
    }
}

/// The terms of bytes that spell an expression.
fn terms_of(expr: &[u8], lab_len: u8) -> Terms<'_>
    requires { IsExpression lab_len expr.now }
    ensures { result ≡ terms_in lab_len 0 expr.now }
{
    Expr::spelled(expr, lab_len).terms()
}

/// The uses of an expression, in the order of its terms.
fn add_terms<'a>(
    uses: &mut Uses<'a>,
    expr: &'a [u8],
    lab_len: u8,
    at: u32,
    place: u32,
) -> Result<(), AllocError>
    requires { IsExpression lab_len expr.now }
    ensures gave { OnOk result (uses.new ≡ uses.old ++ at_place place (used_in_text lab_len at expr.now)) }
    ensures short { OnOk result (HaveShortNames uses.old → HaveShortNames uses.new) }
{
    let mut terms = terms_of(expr, lab_len);
    'terms: loop {
        match terms.next() {
            None => return Ok(()),
            Some((_, term)) => add_term(uses, term, at, place)?,
        }
    }
}

/// The uses of a record.
pub fn add_record<'a>(
    uses: &mut Uses<'a>,
    rec: &Rec<'a>,
    lab_len: u8,
    at: u32,
    place: u32,
) -> Result<(), AllocError>
    requires { HasSpelling lab_len (view rec.now) }
    ensures gave { OnOk result (uses.new ≡ uses.old ++ at_place place (used_by lab_len at (view rec.now))) }
    ensures short { OnOk result (HaveShortNames uses.old → HaveShortNames uses.new) }
{
    let (want, name) = match rec {
        Rec::Using { name } => (SearchKind::Data, *name),
        Rec::Strong { name } => (SearchKind::One, *name),
        // An arm each: one for both would keep each record in memory, whatever its type.
        Rec::Equate { expr, .. } => return add_terms(uses, expr, lab_len, at, place),
        Rec::Formula { expr, .. } => return add_terms(uses, expr, lab_len, at, place),
        Rec::End
        | Rec::Const { .. }
        | Rec::LongConst { .. }
        | Rec::Align { .. }
        | Rec::Org { .. }
        | Rec::Space { .. }
        | Rec::Reloc { .. }
        | Rec::InterSeg { .. }
        | Rec::ShortReloc { .. }
        | Rec::ShortInterSeg { .. }
        | Rec::Super { .. }
        | Rec::Label { .. }
        | Rec::Entry { .. } => return Ok(()),
    };
    uses.push(Use {
        want,
        name,
        at,
        place,
    })?;
    Ok(())
}
