//! What is reported of users and their segments.

use iigs_meaning::Handle;

/// What is kept of a segment's header.
#[derive(Clone, Copy, PartialEq, Eq, Debug)]
pub struct SegmentHead {
    pub length: u32,
    /// KIND as it is in the file.
    pub kind: u16,
    pub bank_size: u32,
    pub align: u32,
    pub org: u32,
    pub entry: u32,
}

/// What is reported of a segment where a file has changed. Where only the number of segments has, the segment is 0 and the fields after it
/// are 0.
#[derive(Clone, Copy, PartialEq, Eq, Debug)]
pub struct Facts {
    /// How many segments the file has.
    pub count: u32,
    /// The segment's number, from 1.
    pub segment: u32,
    pub length: u32,
    /// KIND as it is in the file.
    pub kind: u16,
    pub bank_size: u32,
    pub align: u32,
    pub org: u32,
    pub entry: u32,
}

/// Whether a user runs.
#[derive(Clone, Copy, PartialEq, Eq, Debug)]
pub enum Life {
    Running,
    /// It was shut down and can be restarted.
    Dormant,
}

/// Whether and where a segment is in memory.
#[derive(Clone, Copy, PartialEq, Eq, Debug)]
pub enum Presence {
    /// It has no handle.
    Absent,
    /// Its block was purged.
    Purged(Handle),
    /// Its block is at this address and isn't locked.
    Idle(Handle, u32),
    /// Its block is at this address and locked.
    Active(Handle, u32),
}
