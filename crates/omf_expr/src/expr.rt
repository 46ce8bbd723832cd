//! An expression in postfix form.

ghost use Rattle.std.specs.Prelude.{◌≡◌, ◌<◌, ◌≤◌, List, ℕ, length, Ok, IfOk, IfErr, IfSome};
ghost use Rattle.omf_format.specs.Expression.{Tree, Spells, terms_of, terms_in, placed_terms, operand_count, operands_of, pending_after_term, term_step, IsExpression, IsFirstFault, BeginsWith, expression_field};
ghost use Rattle.omf_format.specs.laws.TermSteps.{read_all};
ghost use Rattle.omf_format.specs.Field.{Gives};
ghost use Rattle.omf_expr.specs.View.{view, view_next, as_field};

use crate::reading::next_term;
use crate::term::Term;
use crate::terms::Terms;
use omf_format::{ExprFault, Flaw};
use std::marker::Model;

/// An expression: borrowed bytes that spell one, with the LABLEN of its names. Contracts see these bytes, the $00 at the end included, and
/// the LABLEN.
#[derive(Drop)]
pub struct Expr<'a> {
    bytes: &'a [u8],
    lab_len: u8,
}

impl<'a> Model for Expr<'a> {
    ghost use Rattle.omf_format.specs.Expression.{Expression, IsExpression};

    ghost Value = { Expression };

    ghost view = { λ e. record { text = e.bytes.now; lab_len = e.lab_len } };

    ghost invariant = { λ e. IsExpression e.lab_len e.bytes.now };
}

impl<'a> Expr<'a> {
    /// The bytes at the start that spell an expression whose names follow this LABLEN. Displacements in faults are in the bytes. At most 64
    /// values are ever pending.
    pub fn of(bytes: &'a [u8], lab_len: u8) -> Result<Expr<'a>, ExprFault>
        ensures lab_len { IfOk result (λ e. e.lab_len ≡ lab_len) }
        ensures found { IfOk result (λ e. BeginsWith lab_len bytes.now e.text) }
        ensures only { (text : List ℕ) → BeginsWith lab_len bytes.now text → result ≡ Ok (record { text = text; lab_len = lab_len }) }
        ensures fault { IfErr result (λ fault. IsFirstFault lab_len bytes.now fault) }

        // How a record takes it as one of its fields.
        ensures field { as_field bytes.now result ≡ expression_field lab_len bytes.now }
    {
        let rest = following_end(bytes, lab_len)?;
        Ok(Expr {
            bytes: &bytes[..bytes.len() - rest.len()],
            lab_len,
        })
    }

    /// The expression that bytes spell. They aren't read again.
    pub fn spelled(bytes: &'a [u8], lab_len: u8) -> Expr<'a>
        requires { IsExpression lab_len bytes.now }
        ensures { result ≡ record { text = bytes.now; lab_len = lab_len } }
    {
        Expr { bytes, lab_len }
    }

    /// The bytes of the expression, the $00 at their end included.
    pub fn bytes(&self) -> &'a [u8]
        ensures value { result.now ≡ self.now.text }
        ensures expression { IsExpression self.now.lab_len result.now }
    {
        self.bytes
    }

    /// The terms of the expression, from the first on, as they are in postfix order.
    pub fn terms(&self) -> Terms<'a>
        ensures tree { (tree : Tree) → Spells self.now.lab_len self.now.text tree
            → result ≡ placed_terms self.now.lab_len 0 (terms_of tree) }

        // As a function of the bytes.
        ensures bytes { result ≡ terms_in self.now.lab_len 0 self.now.text }
    {
        Terms::of(self.bytes, self.lab_len)
    }

    /// The LABLEN of its names.
    pub(crate) fn lab_len(&self) -> u8
        ensures { result ≡ self.now.lab_len }
    {
        self.lab_len
    }
}

/// The bytes after the expression at the start.
#[tactic(auto, using(crate::proofs::ReadTerms::reads_begin, crate::proofs::ReadTerms::reads_more, crate::proofs::ReadTerms::reads_end, crate::proofs::ReadTerms::reads_wrong))]
fn following_end(bytes: &[u8], lab_len: u8) -> Result<&[u8], ExprFault>
    ensures gives { Gives (λ x. x.now) result (read_all lab_len bytes.now) }
    ensures within { IfOk result (λ x. length x.now ≤ length bytes.now) }
{
    let mut left = bytes;
    let mut pending = 0;
    'terms: loop {
        let at = bytes.len() - left.len();
        let (step, rest) = next_step(left, lab_len, at, pending)?;
        let Some(following) = step else {
            return Ok(rest);
        };
        pending = following;
        left = rest;
    }
}

/// How many values may be pending at once.
const MOST_PENDING: usize = 64;

/// How many operands the operator has.
#[inline]
pub(crate) fn operand_count(code: u8) -> usize
    ensures value { result ≡ operand_count code }
    ensures few { result ≤ 2 }
{
    match code {
        0x06 | 0x0B | 0x15 => 1,
        _ => 2,
    }
}

/// How many pending values the term takes. It leaves one.
#[inline]
fn operands_of(term: Term) -> usize
    ensures value { result ≡ operands_of (view term.entry) }
    ensures few { result ≤ 2 }
{
    match term {
        Term::Operator(code) => operand_count(code),
        Term::Location | Term::Constant(_) | Term::Named(_, _) | Term::Offset(_) => 0,
    }
}

/// How many values are pending after a term, or None after the end, where `pending` are pending before it.
#[inline]
fn pending_after_term(
    next: Option<Term>,
    at: usize,
    pending: usize,
) -> Result<Option<usize>, ExprFault>
    requires { pending ≤ 64 }
    ensures value { result ≡ pending_after_term at pending (view_next next.entry) }
    ensures bounded { IfOk result (λ following. IfSome following (λ n. n ≤ 64)) }
{
    let Some(term) = next else {
        if pending == 1 {
            return Ok(None);
        }
        return Err(ExprFault::Shape(at));
    };
    let operands = operands_of(term);
    if pending < operands {
        return Err(ExprFault::Shape(at));
    }
    let following = pending - operands + 1;
    if MOST_PENDING < following {
        return Err(ExprFault::TooDeep(at));
    }
    Ok(Some(following))
}

/// The same for the term at the start of the bytes, with the bytes after it.
#[inline]
#[tactic(auto, unfolding(omf_format::specs::Expression::term_step))]
fn next_step(
    bytes: &[u8],
    lab_len: u8,
    at: usize,
    pending: usize,
) -> Result<(Option<usize>, &[u8]), ExprFault>
    requires { pending ≤ 64 }
    ensures gives { Gives (λ x. (x.0, x.1.now)) result (term_step lab_len at pending bytes.now) }
    ensures shorter { IfOk result (λ x. length x.1.now < length bytes.now) }
    ensures bounded { IfOk result (λ x. IfSome x.0 (λ n. n ≤ 64)) }
{
    match next_term(bytes, lab_len) {
        Ok((next, rest)) => {
            let following = pending_after_term(next, at, pending)?;
            Ok((following, rest))
        }
        Err(Flaw::Cut) => Err(ExprFault::Truncated(at)),
        Err(Flaw::Unread) => Err(ExprFault::BadTerm(at)),
        Err(Flaw::Broken) => Err(ExprFault::BadTerm(at)),
    }
}
