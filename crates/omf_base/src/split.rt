//! Lines of a text, taken from its start.

ghost use Rattle.std.specs.Prelude.{◌≡◌, ◌≢◌, ◌∷◌, ◌<◌, ◌≤◌, [], true, length, slice_index, position};
ghost use Rattle.omf_format.specs.Lines.{lines_of};
ghost use Rattle.omf_format.specs.laws.Steps.{is_end_byte};

/// Where the first LF or CR is.
fn first_end(text: &[u8]) -> Option<usize>
    ensures { result ≡ position is_end_byte text.now }
{
    text.iter()
        .position(|byte| *byte == b'\n' || *byte == b'\r')
}

/// What follows the line end at the start, which is LF, CR or CR LF.
#[tactic(auto, unfolding(omf_format::specs::Lines::lines_of))]
fn following_end(text: &[u8]) -> &[u8]
    requires end { is_end_byte (slice_index text.now 0) ≡ true }
    ensures lines { lines_of text.now ≡ [] ∷ lines_of result.now }
    ensures shorter { length result.now < length text.now }
{
    match text.split_first() {
        Some((b'\r', following)) => without_lf(following),
        Some((_, following)) => following,
        None => text,
    }
}

/// The text without the LF at its start, if there is one.
fn without_lf(text: &[u8]) -> &[u8]
    ensures lf { slice_index text.now 0 ≡ 0x0A → text.now ≡ 0x0A ∷ result.now }
    ensures none { slice_index text.now 0 ≢ 0x0A → result.now ≡ text.now }
    ensures no_longer { length result.now ≤ length text.now }
{
    match text.split_first() {
        Some((b'\n', following)) => following,
        Some(_) => text,
        None => text,
    }
}

/// The first line, and what follows its end.
#[tactic(auto, using(crate::proofs::FirstLine::lines_of_first, crate::proofs::FirstLine::lines_of_only, crate::proofs::FirstLine::end_at))]
pub fn split_line(text: &[u8]) -> (&[u8], &[u8])
    requires { 0 < length text.now }
    ensures lines { lines_of text.now ≡ result.0.now ∷ lines_of result.1.now }
    ensures shorter { length result.1.now < length text.now }
{
    match first_end(text) {
        Some(end) => {
            let (line, rest) = text.split_at(end);
            (line, following_end(rest))
        }
        None => (text, &[]),
    }
}
