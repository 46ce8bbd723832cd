//! A name that a segment has for others.

ghost use Rattle.std.specs.Prelude.{◌≤◌, length};

/// A name that a segment has for others: its SEGNAME, a GLOBAL or a GEQU.
#[derive(Clone, Copy, Debug, PartialEq, Eq, Hash)]
pub struct Outer<'a> {
    pub name: &'a [u8],
    /// The number of the segment's file in a library.
    pub file: u16,
    pub private: bool,
    /// Where the segment starts.
    pub at: u64,
    ghost short: { length name.now ≤ 255 },
}
