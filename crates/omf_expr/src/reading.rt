//! The term at the start of the bytes.

ghost use Rattle.std.specs.Prelude.{◌<◌, length, IfOk};
ghost use Rattle.omf_format.specs.Field.{Gives};
ghost use Rattle.omf_format.specs.Expression.{term_field};
ghost use Rattle.omf_expr.specs.View.{view_next};

use crate::term::Term;
use omf_base::{name_field, u32_field};
use omf_format::Flaw;

/// The term, or at $00 the end, and the bytes after it.
#[inline]
#[tactic(auto, unfolding(omf_format::specs::Expression::term_field))]
pub fn next_term(bytes: &[u8], lab_len: u8) -> Result<(Option<Term<'_>>, &[u8]), Flaw>
    ensures gives { Gives (λ x. (view_next x.0, x.1.now)) result (term_field lab_len bytes.now) }
    ensures shorter { IfOk result (λ x. length x.1.now < length bytes.now) }
{
    match bytes {
        [] => Err(Flaw::Cut),
        [0x00, rest @ ..] => Ok((None, rest)),
        [code @ 0x01..=0x15, rest @ ..] => Ok((Some(Term::Operator(*code)), rest)),
        [0x80, rest @ ..] => Ok((Some(Term::Location), rest)),
        [0x81, rest @ ..] => {
            let (n, rest) = u32_field(rest)?;
            Ok((Some(Term::Constant(n)), rest))
        }
        [code @ 0x82..=0x86, rest @ ..] => {
            let (name, rest) = name_field(rest, lab_len)?;
            Ok((Some(Term::Named(*code, name)), rest))
        }
        [0x87, rest @ ..] => {
            let (n, rest) = u32_field(rest)?;
            Ok((Some(Term::Offset(n)), rest))
        }
        [_, ..] => Err(Flaw::Broken),
    }
}
