//! Formulas of expression records.

ghost use Rattle.std.specs.Prelude.{◌≡◌, ◌++◌, ◌∷◌, ◌≤◌, ◌==◌, ◌&&◌, ◌||◌, [], ℕ, List, Some, false, map, take, drop, codes, slice_get, option_map, vec_len, OnOk, IfOk, IfSome};
ghost use Rattle.omf_format.specs.Expression.{Term, Tree, Leaf, Spells, IsExpression, Operator, terms_in, operands_of, operand_count};
ghost use Rattle.omf_expr.specs.View.{view};
ghost use Rattle.object_meaning.specs.Terms.{tree_in, with_term};
ghost use Rattle.list_meaning.specs.Listed.{operator_text, formula_text};
ghost use Rattle.list_meaning.specs.Listing.{is_open, term_listable, term_may_stand};
ghost use Rattle.list_lines.specs.FormulaView.{all_terms, any_term, term_at, moved_by, simple_four, weak_two, number_two, IsFront, parenthesized, part_view, part_of_tree, all_reported};
ghost use Rattle.list_lines.specs.LineView.{HasSize, operand_view};
ghost use Rattle.list_lines.specs.NamesView.{AreNames};

use crate::lines::Wanted;
use crate::names::{Names, is_listable};
use omf_base::{Line, LineFault};
use omf_expr::{Expr, Term, Terms};
use std::alloc::{AllocError, Global};

/// More bytes of a formula than a line has aren't kept.
const MAX_TEXT: usize = 256;

/// What is known of the terms of a formula.
#[derive(Clone, Copy, Debug, PartialEq, Eq)]
pub struct FormulaFacts {
    /// Its names can be listed, and none is an equate of the segment.
    pub named: bool,
    /// It has names, numbers, `*` and operators that are written in a formula, and no other terms.
    pub written: bool,
    /// It contains a name or `*`.
    pub varies: bool,
}

/// Whether a term's name can be listed, and is no equate of the segment.
fn is_named(term: Term, equates: &Names) -> bool
    ensures { (all : List (List ℕ)) → AreNames equates.now all → result ≡ term_listable all (view term.entry) }
{
    match term {
        Term::Named(_, name) => is_listable(name) && !equates.has(name),
        Term::Operator(_) | Term::Location | Term::Constant(_) | Term::Offset(_) => true,
    }
}

/// Whether a term is written in a formula.
fn is_written(term: Term) -> bool
    ensures { result ≡ term_may_stand (view term.entry) }
{
    match term {
        Term::Operator(code) => 0x01 <= code && code <= 0x11 && code != 0x05,
        Term::Location | Term::Constant(_) => true,
        Term::Named(code, _) => code == 0x83,
        Term::Offset(_) => false,
    }
}

/// Whether a term is a name or `*`.
fn is_open(term: Term) -> bool
    ensures { result ≡ is_open (view term.entry) }
{
    match term {
        Term::Location => true,
        Term::Named(code, _) => code == 0x83,
        Term::Operator(_) | Term::Constant(_) | Term::Offset(_) => false,
    }
}

/// The same with one term more.
fn with_term(known: FormulaFacts, term: Term, equates: &Names) -> FormulaFacts
    ensures named { (all : List (List ℕ)) → AreNames equates.now all → result.named ≡ (known.named && term_listable all (view term.entry)) }
    ensures written { result.written ≡ (known.written && term_may_stand (view term.entry)) }
    ensures varies { result.varies ≡ (known.varies || is_open (view term.entry)) }
{
    FormulaFacts {
        named: known.named && is_named(term, equates),
        written: known.written && is_written(term),
        varies: known.varies || is_open(term),
    }
}

/// What is known of all terms.
#[tactic(auto, using(crate::proofs::TermLaws::all_end, crate::proofs::TermLaws::any_end))]
pub fn facts_of(expr: &Expr, equates: &Names) -> FormulaFacts
    ensures named { (all : List (List ℕ)) → AreNames equates.now all → result.named ≡ all_terms (term_listable all) (terms_in expr.now.lab_len 0 expr.now.text) }
    ensures written { result.written ≡ all_terms term_may_stand (terms_in expr.now.lab_len 0 expr.now.text) }
    ensures varies { result.varies ≡ any_term is_open (terms_in expr.now.lab_len 0 expr.now.text) }
{
    let mut known = FormulaFacts {
        named: true,
        written: true,
        varies: false,
    };
    let mut terms = expr.terms();
    'terms: loop {
        match terms.next() {
            Some((_, term)) => known = with_term(known, term, equates),
            None => return known,
        }
    }
}

/// The first four terms of an expression, as far as it has them.
#[derive(Clone, Copy)]
pub struct Front<'a> {
    first: Option<Term<'a>>,
    second: Option<Term<'a>>,
    third: Option<Term<'a>>,
    fourth: Option<Term<'a>>,
}

/// The next term.
fn next_of<'a>(terms: &mut Terms<'a>) -> Option<Term<'a>>
    ensures answer { option_map view result ≡ term_at terms.old 0 }
    ensures after { terms.new ≡ drop 1 terms.old }
{
    match terms.next() {
        Some((_, term)) => Some(term),
        None => None,
    }
}

/// The first four terms of an expression.
pub fn front_of<'a>(expr: &Expr<'a>) -> Front<'a>
    ensures { IsFront expr.now result }
{
    let mut terms = expr.terms();
    let first = next_of(&mut terms);
    let second = next_of(&mut terms);
    let third = next_of(&mut terms);
    let fourth = next_of(&mut terms);
    Front {
        first,
        second,
        third,
        fourth,
    }
}

/// What a name with a number that an operator joins to it means.
fn name_with_number<'a>(name: &'a [u8], n: u32, operator: u8) -> Option<Wanted<'a>>
    ensures value { option_map operand_view result ≡ moved_by name.now n operator }
    ensures size { IfSome result (λ operand. HasSize (operand_view operand)) }
{
    match operator {
        0x01 => Some(Wanted::Moved(name, true, n)),
        0x02 => Some(Wanted::Moved(name, false, n)),
        _ => None,
    }
}

impl<'a> Front<'a> {
    /// One name, or one name and a number that is added to it or taken from it.
    pub fn simple(self) -> Option<Wanted<'a>>
        ensures value { option_map operand_view result
            ≡ simple_four (option_map view self.entry.first) (option_map view self.entry.second) (option_map view self.entry.third) (option_map view self.entry.fourth) }
        ensures size { IfSome result (λ operand. HasSize (operand_view operand)) }
    {
        match (self.first, self.second, self.third, self.fourth) {
            (Some(Term::Named(0x83, name)), None, _, _) => Some(Wanted::Label(name)),
            (
                Some(Term::Named(0x83, name)),
                Some(Term::Constant(n)),
                Some(Term::Operator(code)),
                None,
            ) => name_with_number(name, n, code),
            _ => None,
        }
    }

    /// The name where the expression is one weak name.
    pub fn weak(self) -> Option<&'a [u8]>
        ensures { option_map (λ name. name.now) result ≡ weak_two (option_map view self.entry.first) (option_map view self.entry.second) }
    {
        match (self.first, self.second) {
            (Some(Term::Named(0x82, name)), None) => Some(name),
            _ => None,
        }
    }

    /// The number where the expression is one number.
    pub fn number(self) -> Option<u32>
        ensures { result ≡ number_two (option_map view self.entry.first) (option_map view self.entry.second) }
    {
        match (self.first, self.second) {
            (Some(Term::Constant(n)), None) => Some(n),
            _ => None,
        }
    }
}

/// The text of a part of a formula, its first 256 bytes at least where it has as many.
#[derive(Drop)]
struct FormulaPart {
    text: Line,
    /// As an operand it is written without parentheses.
    alone: bool,
}

/// The first bytes, `most` at most.
pub fn first_bytes(bytes: &[u8], most: usize) -> &[u8]
    ensures { result.now ≡ take most bytes.now }
{
    &bytes[..bytes.len().min(most)]
}

/// Appends bytes, as far as they count.
fn append_capped(text: &mut Line, bytes: &[u8]) -> Result<(), LineFault>
    ensures { OnOk result (take 256 text.new ≡ take 256 (text.old ++ bytes.now)) }
{
    let left = MAX_TEXT - text.bytes().len().min(MAX_TEXT);
    text.put(first_bytes(bytes, left))
}

/// Appends a part as an operand.
fn put_operand(text: &mut Line, part: &FormulaPart) -> Result<(), LineFault>
    ensures { OnOk result (take 256 text.new ≡ take 256 (text.old ++ parenthesized part.now.alone part.now.text)) }
{
    if part.alone {
        return append_capped(text, part.text.bytes());
    }
    append_capped(text, b"(")?;
    append_capped(text, part.text.bytes())?;
    append_capped(text, b")")
}

/// How an operator is written.
#[tactic(auto, unfolding(list_meaning::specs::Listed::operator_text))]
fn operator_text(code: u8) -> &'static str
    ensures { result.now ≡ operator_text code }
{
    match code {
        0x01 => "+",
        0x02 | 0x06 => "-",
        0x03 => "*",
        0x04 => "/",
        0x07 => "|",
        0x08 => ".AND.",
        0x09 => ".OR.",
        0x0A => ".EOR.",
        0x0B => ".NOT.",
        0x0C => "<=",
        0x0D => ">=",
        0x0E => "<>",
        0x0F => "<",
        0x10 => ">",
        0x11 => "=",
        _ => "",
    }
}

/// Appends an operator and the operand after it.
fn put_right(text: &mut Line, code: u8, part: &FormulaPart) -> Result<(), LineFault>
    ensures { OnOk result (take 256 text.new ≡ take 256 (text.old ++ (operator_text code ++ parenthesized part.now.alone part.now.text))) }
{
    append_capped(text, operator_text(code).as_bytes())?;
    put_operand(text, part)
}

/// The part that a term is which takes no operands.
fn leaf(alloc: Global, term: Term) -> Result<FormulaPart, LineFault>
    ensures { IfOk result (λ part. part_view part ≡ part_of_tree (Leaf (view term.entry))) }
{
    let mut text = Line::new(alloc);
    match term {
        Term::Location => text.text("*")?,
        Term::Constant(n) => {
            text.text("$")?;
            text.hex(n, 8)?;
        }
        Term::Named(_, name) => text.put(name)?,
        Term::Operator(_) | Term::Offset(_) => {}
    }
    Ok(FormulaPart { text, alone: true })
}

/// An operator over one operand.
fn over_one(alloc: Global, code: u8, right: &FormulaPart) -> Result<FormulaPart, LineFault>
    ensures text { IfOk result (λ part. take 256 part.text ≡ take 256 (operator_text code ++ parenthesized right.now.alone right.now.text)) }
    ensures alone { IfOk result (λ part. part.alone ≡ false) }
{
    let mut text = Line::new(alloc);
    put_right(&mut text, code, right)?;
    Ok(FormulaPart { text, alone: false })
}

/// An operator over two operands.
fn over_two(
    alloc: Global,
    code: u8,
    left: &FormulaPart,
    right: &FormulaPart,
) -> Result<FormulaPart, LineFault>
    ensures text { IfOk result (λ part. take 256 part.text
        ≡ take 256 (parenthesized left.now.alone left.now.text ++ (operator_text code ++ parenthesized right.now.alone right.now.text))) }
    ensures alone { IfOk result (λ part. part.alone ≡ false) }
{
    let mut text = Line::new(alloc);
    put_operand(&mut text, left)?;
    put_right(&mut text, code, right)?;
    Ok(FormulaPart { text, alone: false })
}

/// Whether an operator has one operand.
fn is_unary(code: u8) -> bool
    ensures { result ≡ (operand_count code == 1) }
{
    code == 0x06 || code == 0x0B || code == 0x15
}

/// An operator over the last parts.
#[tactic(auto, using(crate::proofs::PartLaws::part_count))]
fn apply_operator(
    alloc: Global,
    parts: &mut Vec<FormulaPart>,
    code: u8,
) -> Result<FormulaPart, LineFault>
    requires { operand_count code ≤ vec_len parts.old }
    ensures { (trees : List Tree) → map part_view parts.old.items ≡ all_reported trees
        → IfOk result (λ part. map part_view parts.new.items ++ part_view part ∷ [] ≡ all_reported (with_term trees (Operator code))) }
{
    let Some(right) = parts.pop() else {
        unreachable!()
    };
    if is_unary(code) {
        return over_one(alloc, code, &right);
    }
    let Some(left) = parts.pop() else {
        unreachable!()
    };
    over_two(alloc, code, &left, &right)
}

/// The part of a term and of the parts that it takes.
#[tactic(auto, using(crate::proofs::PartLaws::leaf_after))]
fn part_of(
    alloc: Global,
    parts: &mut Vec<FormulaPart>,
    term: Term,
) -> Result<FormulaPart, LineFault>
    requires { operands_of (view term) ≤ vec_len parts.old }
    ensures { (trees : List Tree) → map part_view parts.old.items ≡ all_reported trees
        → IfOk result (λ part. map part_view parts.new.items ++ part_view part ∷ [] ≡ all_reported (with_term trees (view term.entry))) }
{
    match term {
        Term::Operator(code) => apply_operator(alloc, parts, code),
        Term::Location | Term::Constant(_) | Term::Named(_, _) | Term::Offset(_) => {
            leaf(alloc, term)
        }
    }
}

/// One more part.
fn add(parts: &mut Vec<FormulaPart>, part: FormulaPart) -> Result<(), AllocError>
    ensures { OnOk result (parts.new.items ≡ parts.old.items ++ part ∷ []) }
{
    parts.push(part)?;
    Ok(())
}

/// The text of a formula, of which the first 256 bytes count.
pub fn text_of(alloc: Global, expr: &Expr) -> Result<Line, LineFault>
    requires { IsExpression expr.now.lab_len expr.now.text }
    ensures { IfOk result (λ text. (tree : Tree) → tree_in expr.now.lab_len expr.now.text ≡ Some tree → take 256 text ≡ take 256 (formula_text tree)) }
{
    let mut parts: Vec<FormulaPart> = Vec::new(alloc);
    let mut terms = expr.terms();
    'terms: loop {
        match terms.next() {
            Some((_, term)) => {
                let part = part_of(alloc, &mut parts, term)?;
                add(&mut parts, part)?;
            }
            None => break,
        }
    }
    match parts.pop() {
        Some(part) => Ok(part.text),
        None => unreachable!(),
    }
}
