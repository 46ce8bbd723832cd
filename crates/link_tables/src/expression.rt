//! Expressions of records.

ghost use Rattle.std.specs.Prelude.{◌≡◌};
ghost use Rattle.omf_format.specs.Expression.{IsExpression};

use omf_expr::Expr;

/// The expression that a record's bytes spell.
pub fn expression_of(bytes: &[u8], lab_len: u8) -> Expr<'_>
    requires { IsExpression lab_len bytes.now }
    ensures { result ≡ record { text = bytes.now; lab_len = lab_len } }
{
    Expr::spelled(bytes, lab_len)
}
