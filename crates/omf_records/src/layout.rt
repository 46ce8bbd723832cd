//! How a segment's names and labels are laid out.

/// LABLEN and VERSION of a segment's header.
#[derive(Clone, Copy, Debug, PartialEq, Eq)]
pub struct Layout {
    /// How many bytes a name takes, or 0 where each has a length byte.
    pub lab_len: u8,
    /// In version 1 the length of a label has one byte, and in version 2 two.
    pub version: u8,
}
