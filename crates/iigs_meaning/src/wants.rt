//! Blocks of memory, and what is asked of the place where one is put.

/// What is asked of a block's place.
#[derive(Clone, Copy, PartialEq, Eq, Debug)]
pub struct Want {
    /// How many bytes, at least 1.
    pub size: u32,
    /// The address is a multiple of this: 1, $100 or $10000.
    pub align: u32,
    /// Whether the block may not lie across a border of banks.
    pub no_cross: bool,
    /// Whether no byte may lie in special memory.
    pub no_special: bool,
    /// The address, where it is fixed.
    pub at: Option<u32>,
    /// The bank of all bytes, where it is fixed.
    pub bank: Option<u32>,
    /// The address modulo $10000, where it is fixed.
    pub low: Option<u32>,
}

/// A block of memory, without its bytes.
#[derive(Clone, Copy, PartialEq, Eq, Debug)]
pub struct Block {
    /// Where its first byte lies; none where it was purged.
    pub at: Option<u32>,
    /// The want with which it was last placed.
    pub want: Want,
    /// Whose it is; 0 is the script.
    pub user: u16,
    /// How willingly it is purged: 0 never, the highest level first.
    pub level: u8,
    /// Whether it may not be purged or moved meanwhile.
    pub locked: bool,
    /// Whether it was made to be moved while it isn't locked.
    pub movable: bool,
}

/// What is reported of a block.
#[derive(Clone, Copy, PartialEq, Eq, Debug)]
pub struct BlockState {
    /// Where its first byte lies; none where it was purged.
    pub at: Option<u32>,
    /// How many bytes it has, or had when it was purged.
    pub size: u32,
    /// Whose it is; 0 is the script.
    pub user: u16,
    /// How willingly it is purged: 0 never, the highest level first.
    pub level: u8,
    /// Whether it may not be purged meanwhile.
    pub locked: bool,
}
