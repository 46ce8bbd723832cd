//! The terms of formulas.

ghost use Rattle.std.specs.Prelude.{◌≡◌, map};
ghost use Rattle.orca_text.specs.View.{term};

use omf_base::Name;
use std::marker::Model;

/// A term of a formula in postfix order, as a term of an expression (GS/OS Reference, appendix F, "Expressions").
#[derive(Drop)]
pub enum FormulaTerm {
    /// An operator, by its code.
    Operator(u8),
    /// The location counter, `*`.
    Location,
    /// A number.
    Constant(u32),
    /// A name ($83), or its length ($84) or count ($86), by the code.
    Named(u8, Name),
    /// An offset from the segment's start. No source line gives one.
    Offset(u32),
}

/// A formula: its terms in postfix order. Contracts see the list of them as terms of an expression.
#[derive(Drop)]
pub struct Formula {
    terms: Vec<FormulaTerm>,
}

impl Model for Formula {
    ghost use Rattle.std.specs.Prelude.{List, map};
    ghost use Rattle.omf_format.specs.Expression.{Term};
    ghost use Rattle.orca_text.specs.View.{term};

    ghost Value = { List Term };

    ghost view = { λ formula. map term formula.terms.items };
}

impl Formula {
    /// The formula of these terms.
    pub(crate) fn of(terms: Vec<FormulaTerm>) -> Formula
        ensures { result ≡ map term terms.items }
    {
        Formula { terms }
    }

    /// The terms of the formula, in order.
    pub fn terms(&self) -> &[FormulaTerm]
        ensures { map term result.now ≡ self.now }
    {
        self.terms.as_slice()
    }
}
