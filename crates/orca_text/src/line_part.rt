//! Parts of lines.

ghost use Rattle.std.specs.Prelude.{◌≤◌, length};

/// A part of a line, of at most 255 bytes.
#[derive(Clone, Copy)]
pub struct LinePart<'a> {
    pub bytes: &'a [u8],
    pub ghost short: { length bytes.now ≤ 255 },
}
