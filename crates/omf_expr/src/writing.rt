//! Writing terms with names after a length byte (LABLEN 0).

ghost use Rattle.std.specs.Prelude.{◌≡◌, ◌+◌, ◌≤◌, ◌++◌, ◌∷◌, length, OnOk, OnErr};
ghost use Rattle.byteorder.specs.Endian.{little_bytes};
ghost use Rattle.omf_format.specs.Expression.{IsTerm, term_text};
ghost use Rattle.omf_expr.specs.View.{view};

use crate::term::Term;
use byteorder::{ByteOrder, LittleEndian};
use std::alloc::AllocError;

/// Why a term isn't written.
#[derive(Clone, Copy, Debug, PartialEq, Eq)]
pub enum ExprPutFault {
    /// Out of memory.
    Memory,
}

impl From<AllocError> for ExprPutFault {
    ghost use Rattle.std.specs.Prelude.{◌≡◌};
    ghost use Rattle.omf_expr.specs.declared.writing.ExprPutFault.TheVariants.{Memory};

    ghost from_gives = { λ _ fault. fault ≡ Memory };

    fn from(_: AllocError) -> ExprPutFault {
        ExprPutFault::Memory
    }
}

/// Writes a term at the end of the bytes; a name in it, of 1 to 255 bytes, follows a length byte. When out of memory, nothing is written.
#[tactic(auto, unfolding(omf_format::specs::Expression::term_text, omf_format::specs::Field::name_text))]
pub fn put_term(out: &mut Vec<u8>, term: &Term) -> Result<(), ExprPutFault>
    requires { IsTerm 0 (view term.now) }
    ensures ok { OnOk result (out.new.items ≡ out.old.items ++ term_text 0 (view term.now)) }
    ensures err { OnErr result (out.new.items ≡ out.old.items) }
{
    match *term {
        Term::Operator(code) => out.extend_from_slice(&[code])?,
        Term::Location => out.extend_from_slice(&[0x80])?,
        Term::Constant(n) => put_number(out, 0x81, n)?,
        Term::Named(code, name) => put_both(out, &[code, name.len() as u8], name)?,
        Term::Offset(n) => put_number(out, 0x87, n)?,
    }
    Ok(())
}

/// Writes a code and a number of four bytes.
fn put_number(out: &mut Vec<u8>, code: u8, n: u32) -> Result<(), AllocError>
    ensures ok { OnOk result (out.new.items ≡ out.old.items ++ (code ∷ little_bytes 4 n)) }
    ensures err { OnErr result (out.new.items ≡ out.old.items) }
{
    let mut number = [0; 4];
    LittleEndian::write_u32(&mut number, n);
    put_both(out, &[code], &number)
}

/// Writes bytes and more bytes after them, or nothing.
fn put_both(out: &mut Vec<u8>, front: &[u8], back: &[u8]) -> Result<(), AllocError>
    ensures ok { OnOk result (out.new.items ≡ out.old.items ++ (front.now ++ back.now)) }
    ensures err { OnErr result (out.new.items ≡ out.old.items) }
{
    let before = out.len();
    out.extend_from_slice(front)?;
    match out.extend_from_slice(back) {
        Ok(()) => Ok(()),
        Err(fault) => {
            out.truncate(before);
            Err(fault)
        }
    }
}
