//! Cells.

/// What a segment in memory holds at one offset.
#[derive(Clone, Copy, Debug, PartialEq, Eq)]
pub enum Cell {
    Byte(u8),
    /// Byte `index`, lowest first, of a number of 32 bits: the place of the file's segment, from 1, plus `offset`, shifted
    /// left by `shift`, or right where it is negative.
    Part {
        file: u16,
        segment: u16,
        offset: u32,
        shift: i8,
        index: u8,
    },
}
