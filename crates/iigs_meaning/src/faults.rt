//! Why memory or a block of it is refused.

/// Why there are no banks.
#[derive(Clone, Copy, PartialEq, Eq, Debug)]
pub enum BanksFault {
    /// No bank is named.
    NoBanks,
    /// This bank is the first that is named again.
    BankTwice(u8),
    /// There is no memory for the banks.
    Memory,
}

/// Why a block isn't placed.
#[derive(Clone, Copy, PartialEq, Eq, Debug)]
pub enum PlaceFault {
    /// The handle isn't live.
    Stale,
    /// The handle's block is there.
    NotEmpty,
    /// Fewer slots are free than are needed.
    NoHandle,
    /// The want at this place, from 0, has no room, whatever may be purged and, where movable blocks slide, slid down.
    NoRoom(u32),
    /// Out of memory. No call returns this, since placement allocates nothing.
    Memory,
}

/// Why nothing can be done with a block.
#[derive(Clone, Copy, PartialEq, Eq, Debug)]
pub enum BlockFault {
    /// The handle isn't live.
    Stale,
    /// The handle's block was purged.
    Empty,
}

/// Why a block isn't purged.
#[derive(Clone, Copy, PartialEq, Eq, Debug)]
pub enum EmptyFault {
    /// The handle isn't live.
    Stale,
    /// The handle's block was purged.
    Empty,
    /// The block is locked, or its level is 0.
    NotPurgeable,
}

/// Why a block isn't moved.
#[derive(Clone, Copy, PartialEq, Eq, Debug)]
pub enum ShiftFault {
    /// The handle isn't live.
    Stale,
    /// The handle's block was purged.
    Empty,
    /// The block is locked.
    Locked,
    /// The address is above the block's.
    Higher,
    /// The want with which the block was last placed doesn't fit there beside the other blocks.
    NoFit,
}
