//! Why a file has no listing.

/// What is wrong with it.
#[derive(Clone, Copy, PartialEq, Eq, Debug)]
pub enum ListCause {
    /// The file ends too early.
    Truncated,
    /// A header with a value that no header has.
    BadHeader,
    /// A header or a record that isn't read.
    Unsupported,
    /// A record with a value that no record has.
    BadRecord,
    /// A segment, or a record of it, for which there is no line.
    NotListable,
    /// The text would have more than 16,777,216 bytes, or more than 65,536 lines.
    TooLong,
    /// Out of memory.
    Memory,
}

/// A cause with its place.
#[derive(Clone, Copy, PartialEq, Eq, Debug)]
pub struct ListFault {
    pub cause: ListCause,
    /// The number of the segment, from 1. 0 where the text is too long or when out of memory.
    pub segment: u32,
    /// The displacement in the file. 0 where the text is too long or when out of memory.
    pub at: u32,
}
