//! Names that commas separate in a text (ORCA/M reference manual, "Declare Constant").

ghost use Rattle.std.specs.Prelude.{◌≡◌, ◌∷◌, ◌++◌, [], List, ℕ, Some, None, IfOk, IfSome, IfNone};
ghost use Rattle.asm_meaning.specs.Elements.{AreNames};

use omf_base::Name;
use orca_text::{LinePart, after_byte, name_at};
use std::alloc::{AllocError, Global};

/// The names that a text is, separated by commas.
pub(crate) fn names_in(alloc: Global, text: LinePart<'_>) -> Result<Option<Vec<Name>>, AllocError>
    ensures found { IfOk result (λ found. IfSome found (λ v. AreNames text.entry.bytes.now v.items)) }
    ensures none { IfOk result (λ found. IfNone found ((names : List (List ℕ)) → AreNames text.entry.bytes.now names → ⊥)) }
{
    let mut out = Vec::new(alloc);
    let mut left = text.bytes;
    'names: loop {
        let Some((name, rest)) = name_at(alloc, LinePart { bytes: left })? else {
            return Ok(None);
        };
        out.push(name)?;
        if rest.is_empty() {
            return Ok(Some(out));
        }
        let Some(following) = after_byte(rest, b',') else {
            return Ok(None);
        };
        left = following;
    }
}
