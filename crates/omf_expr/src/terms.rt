//! The terms of an expression, one by one.

ghost use Rattle.std.specs.Prelude.{◌≡◌, List, ℕ, drop, slice_get, option_map};
ghost use Rattle.omf_expr.specs.View.{view_placed};

use crate::reading::next_term;
use crate::term::Term;
use std::marker::Model;

/// The terms of an expression that are left, in order. Contracts see them as a list, each with the displacement of its first byte in the
/// expression's bytes.
#[derive(Drop)]
pub struct Terms<'a> {
    text: &'a [u8],
    left: &'a [u8],
    lab_len: u8,
}

impl<'a> Model for Terms<'a> {
    ghost use Rattle.std.specs.Prelude.{ℕ, ◌-◌, List, length};
    ghost use Rattle.omf_format.specs.Expression.{Term, terms_in};
    ghost use Rattle.omf_expr.specs.View.{AreLeft};

    ghost Value = { List (ℕ × Term) };

    ghost view = { λ t. terms_in t.lab_len (length t.text.now - length t.left.now) t.left.now };

    ghost invariant = { λ t. AreLeft t.lab_len t.text.now t.left.now };
}

impl<'a> Terms<'a> {
    ghost use Rattle.omf_format.specs.Expression.{IsExpression, terms_in};

    /// The terms of bytes that spell an expression.
    pub(crate) fn of(text: &'a [u8], lab_len: u8) -> Terms<'a>
        requires { IsExpression lab_len text.now }
        ensures { result ≡ terms_in lab_len 0 text.now }
    {
        Terms {
            text,
            left: text,
            lab_len,
        }
    }

    /// The next term, with its displacement in the expression's bytes, and None after the last. The names in it are slices
    /// of these bytes. No memory is taken.
    pub fn next(&mut self) -> Option<(usize, Term<'a>)>
        ensures answer { option_map view_placed result ≡ slice_get self.old 0 }
        ensures after { self.new ≡ drop 1 self.old }
    {
        let at = self.text.len() - self.left.len();
        match next_term(self.left, self.lab_len) {
            Ok((Some(term), rest)) => {
                self.left = rest;
                Some((at, term))
            }
            Ok((None, _)) => None,
            Err(_) => unreachable!(),
        }
    }
}
