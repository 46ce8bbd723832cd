//! What statements give: constant bytes and records (GS/OS Reference, appendix F, "Segment body").

ghost use Rattle.std.specs.Prelude.{◌≡◌, ◌≤◌, ◌<◌, ◌^◌, ◌++◌, ◌∷◌, ◌/◌, [], List, ℕ, length, take, map, IfOk, OnOk};
ghost use Rattle.byteorder.specs.Endian.{little_bytes};
ghost use Rattle.omf_format.specs.Expression.{IsTerm, term_text, terms_text, terms_of, Tree, Leaf};
ghost use Rattle.omf_format.specs.Expression as expression;
ghost use Rattle.asm_meaning.specs.Formulas.{expression_text};
ghost use Rattle.asm_meaning.specs.Instruction.{with_right_shift};
ghost use Rattle.orca_operands.specs.PieceView.{piece};

use omf_base::Name;
use omf_expr::{Term, put_term};
use std::alloc::{AllocError, Global};

/// Constant bytes, or a record of another kind.
#[derive(Drop)]
pub(crate) enum Piece {
    /// Constant bytes.
    Bytes(Vec<u8>),
    /// An expression record: its code, its count of bytes, its distance, and the expression's bytes.
    Formula {
        code: u8,
        count: u8,
        n: u32,
        expr: Vec<u8>,
    },
    /// STRONG.
    Strong(Name),
}

/// Appends a number as a term.
fn put_constant(out: &mut Vec<u8>, n: u32) -> Result<(), AllocError>
    ensures { OnOk result (out.new.items ≡ out.old.items ++ term_text 0 (expression.Constant n)) }
{
    match put_term(out, &Term::Constant(n)) {
        Ok(()) => Ok(()),
        Err(_) => Err(AllocError),
    }
}

/// Appends an operator as a term.
fn put_operator(out: &mut Vec<u8>, code: u8) -> Result<(), AllocError>
    requires { IsTerm 0 (expression.Operator code) }
    ensures { OnOk result (out.new.items ≡ out.old.items ++ term_text 0 (expression.Operator code)) }
{
    match put_term(out, &Term::Operator(code)) {
        Ok(()) => Ok(()),
        Err(_) => Err(AllocError),
    }
}

/// The terms of an expression, shifted to the right by `shift` bits, and its end.
#[tactic(auto, using(crate::proofs::Ends::end_plain, crate::proofs::Ends::end_shifted))]
#[inline(always)]
pub fn shift_and_end(text: Vec<u8>, shift: u8) -> Result<Vec<u8>, AllocError>
    ensures { IfOk result (λ v. (tree : Tree) → text.items ≡ terms_text 0 (terms_of tree) → v.items ≡ expression_text (with_right_shift shift tree)) }
{
    let mut out = text;
    if shift == 0 {
        out.push(0)?;
        return Ok(out);
    }
    put_constant(&mut out, 0xFFFF_FFFF - u32::from(shift) + 1)?;
    put_operator(&mut out, 0x07)?;
    out.push(0)?;
    Ok(out)
}

/// The terms of a number.
#[tactic(auto, using(crate::proofs::Ends::one_term))]
pub fn number_text(alloc: Global, n: u32) -> Result<Vec<u8>, AllocError>
    ensures { IfOk result (λ v. v.items ≡ terms_text 0 (terms_of (Leaf (expression.Constant n)))) }
{
    let mut out = Vec::new(alloc);
    put_constant(&mut out, n)?;
    Ok(out)
}

/// Appends the lowest `width` bytes of a number.
#[tactic(auto, using(crate::proofs::Ends::take_little))]
#[inline(always)]
fn put_number(out: &mut Vec<u8>, width: u8, n: u32) -> Result<(), AllocError>
    requires { width ≤ 4 }
    ensures { OnOk result (out.new.items ≡ out.old.items ++ little_bytes width n) }
{
    let bytes = n.to_le_bytes();
    out.extend_from_slice(&bytes[..width as usize])
}

/// The lowest `width` bytes of a number.
pub(crate) fn number_bytes(alloc: Global, width: u8, n: u32) -> Result<Vec<u8>, AllocError>
    requires { width ≤ 4 }
    ensures { IfOk result (λ v. v.items ≡ little_bytes width n) }
{
    let mut out = Vec::with_capacity(alloc, 4)?;
    put_number(&mut out, width, n)?;
    Ok(out)
}
