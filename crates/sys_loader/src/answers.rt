//! What calls of a loader answer.

use loader_machine::Presence;

/// A program that runs.
#[derive(Clone, Copy, PartialEq, Eq, Debug)]
pub struct Started {
    /// The user's ID.
    pub user: u16,
    /// The address at which it begins, if it has one.
    pub entry: Option<u32>,
}

/// A place in an active segment.
#[derive(Clone, Copy, PartialEq, Eq, Debug)]
pub struct Entered {
    /// The user's ID.
    pub user: u16,
    /// The segment's number, from 1.
    pub segment: u16,
    /// The offset in the segment.
    pub offset: u32,
    /// The address.
    pub address: u32,
}

/// What is known of a segment.
#[derive(Clone, Copy, PartialEq, Eq, Debug)]
pub struct Info {
    pub presence: Presence,
    /// LENGTH.
    pub length: u32,
    /// KIND as it is in the file.
    pub kind: u16,
}
