//! The sequence symbol in column 1 of a line (ORCA/M reference manual, "Sequence symbols").

ghost use Rattle.std.specs.Prelude.{◌≡◌, ◌==◌, ◌≤◌, length, take};
ghost use Rattle.macro_meaning.specs.Effect.{without_sequence_symbol};
ghost use Rattle.macro_meaning.specs.Substitution.{first_passes};

use crate::names::is_sequence;
use orca_text::{LinePart, label_in};

/// Whether a dot is at the start.
#[inline(always)]
pub fn begins_dot(text: &[u8]) -> bool
    ensures { result ≡ first_passes (λ byte. byte == 0x2E) text.now }
{
    match text.split_first() {
        Some((byte, _)) => *byte == b'.',
        None => false,
    }
}

/// The rest of the line after a sequence symbol in column 1.
#[tactic(auto, unfolding(macro_meaning::specs::Effect::without_sequence_symbol), using(crate::proofs::Cuts::cut_none))]
pub fn skip_sequence_symbol(text: LinePart<'_>) -> LinePart<'_>
    ensures value { result.bytes.now ≡ without_sequence_symbol text.entry.bytes.now }
    ensures bound { length result.bytes.now ≤ length text.entry.bytes.now }
{
    if !begins_dot(text.bytes) {
        return text;
    }
    let label = label_in(text);
    if is_sequence(label.bytes) {
        let (_, following) = text.bytes.split_at(label.bytes.len());
        return LinePart { bytes: following };
    }
    text
}
