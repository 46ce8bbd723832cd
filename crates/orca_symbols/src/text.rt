//! Short texts that are kept: few bytes are in the value itself, and more of them in memory.

ghost use Rattle.std.specs.Prelude.{◌≡◌, ◌≤◌, length, IfOk};

use arrayvec::ArrayVec;
use omf_base::{Name, NameFault};
use orca_text::LinePart;
use std::alloc::{AllocError, Global};
use std::marker::Model;

/// How many bytes are in the value itself.
const FEW: usize = 16;

/// The bytes of a part.
pub(crate) fn name(alloc: Global, part: LinePart<'_>) -> Result<Name, AllocError>
    ensures { IfOk result (λ n. n ≡ part.entry.bytes.now) }
{
    match Name::of(alloc, part.bytes) {
        Ok(name) => Ok(name),
        Err(NameFault::TooLong) => unreachable!(),
        Err(NameFault::Memory) => Err(AllocError),
    }
}

/// Where the bytes of a text are stored.
#[derive(Drop)]
enum TextBytes {
    /// In the value itself.
    Few(ArrayVec<u8, FEW>),
    /// In memory.
    Many(Name),
}

/// At most 255 bytes. Contracts see them.
#[derive(Drop)]
pub struct SymbolText {
    kept: TextBytes,
}

impl Model for SymbolText {
    ghost use Rattle.std.specs.Prelude.{◌≤◌, ℕ, List, length};
    ghost use Rattle.orca_symbols.specs.Kept.{kept_bytes};

    ghost Value = { List ℕ };

    ghost view = { λ text. kept_bytes text.kept };

    ghost invariant = { λ text. length (kept_bytes text.kept) ≤ 255 };
}

impl SymbolText {
    /// A copy of bytes. A few of them take no memory.
    pub fn of(alloc: Global, part: LinePart<'_>) -> Result<SymbolText, AllocError>
        ensures { IfOk result (λ text. text ≡ part.entry.bytes.now) }
    {
        let mut few = ArrayVec::new();
        match few.try_extend_from_slice(part.bytes) {
            Ok(()) => Ok(SymbolText {
                kept: TextBytes::Few(few),
            }),
            Err(_) => {
                let many = name(alloc, part)?;
                Ok(SymbolText {
                    kept: TextBytes::Many(many),
                })
            }
        }
    }

    /// The text whose bytes these are. It takes no memory.
    pub fn from_vec(bytes: Vec<u8>) -> SymbolText
        requires { length bytes.items ≤ 255 }
        ensures { result ≡ bytes.items }
    {
        SymbolText {
            kept: TextBytes::Many(Name::from_vec(bytes)),
        }
    }

    /// The bytes of the text.
    pub fn bytes(&self) -> &[u8]
        ensures value { result.now ≡ self.now }
        ensures short { length result.now ≤ 255 }
    {
        match &self.kept {
            TextBytes::Few(few) => few.as_slice(),
            TextBytes::Many(many) => many.bytes(),
        }
    }
}
