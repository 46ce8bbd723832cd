//! Names in operands and labels (ORCA/M reference manual, "Assembler directives").

ghost use Rattle.std.specs.Prelude.{◌≡◌, Some, None, IfOk, MatchOption};
ghost use Rattle.orca_meaning.specs.Characters.{is_name};
ghost use Rattle.asm_meaning.specs.Statement.{following_here, name_of};
ghost use Rattle.orca_operands.specs.OperandView.{name_answer};

use asm_meaning::AsmCause;
use omf_base::Name;
use orca_text::{LinePart, is_name_start, name_len, to_upper_case};
use std::alloc::{AllocError, Global};

/// Whether a text is a name.
#[tactic(auto, unfolding(orca_meaning::specs::Characters::is_name), using(crate::proofs::Labels::all_name_bytes))]
pub fn is_name(text: &[u8]) -> bool
    ensures { result ≡ is_name text.now }
{
    let Some((first, following)) = text.split_first() else {
        return false;
    };
    is_name_start(*first) && name_len(following) == following.len()
}

/// What follows `*+` at the start, with which ORG moves the location counter.
pub fn following_here(text: &[u8]) -> Option<&[u8]>
    ensures { MatchOption result (following_here text.now ≡ None) (λ following. following_here text.now ≡ Some following.now) }
{
    let Some((first, others)) = text.split_first() else {
        return None;
    };
    let Some((second, following)) = others.split_first() else {
        return None;
    };
    if *first == b'*' && *second == b'+' {
        return Some(following);
    }
    None
}

/// A name in upper case.
pub fn name_of(alloc: Global, text: LinePart<'_>) -> Result<Result<Name, AsmCause>, AllocError>
    ensures { IfOk result (λ answer. name_answer answer ≡ name_of text.entry.bytes.now) }
{
    if is_name(text.bytes) {
        let name = to_upper_case(alloc, text)?;
        return Ok(Ok(name));
    }
    Ok(Err(AsmCause::BadOperand))
}
