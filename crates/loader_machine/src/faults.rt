//! Why the loader refuses a call.

use crate::seen::Facts;
use load_meaning::LoadFault;

/// Why the loader refuses a call.
#[derive(Clone, Copy, PartialEq, Eq, Debug)]
pub enum LoaderFault {
    /// No user with this ID was made, or it is gone; or, of a shutdown and a restart, it is attached to another user.
    NoUser,
    /// The user is dormant.
    NotRunning,
    /// The user runs.
    Running,
    /// The user's file has no segment of this number, or it is skipped.
    NoSegment,
    /// The segment isn't dynamic.
    Static,
    /// The segment isn't active.
    NotActive,
    /// The bytes pass the segment's end.
    OutOfSegment,
    /// The segment is a jump table.
    TableByte,
    /// There is no JSL at the offset.
    NotJsl,
    /// The JSL's address lies in no active segment of a running user.
    NoTarget,
    /// The JSL's address is in a jump table, but isn't the code of an entry.
    NotEntry,
    /// 255 users were made; or, of a load, there would be more with the program and one for each row of its file.
    TooManyUsers,
    /// The file, or of a load that of a row, isn't held, is too long or couldn't be read.
    CannotRead,
    /// The file isn't a load file, or that of an attached user isn't a run-time library file: its first fault. Or, of a load and a restart,
    /// an entry of the jump table for another file leads to no segment of the attached user below its LENGTH: NoSuchTarget, at that entry.
    BadFile(LoadFault),
    /// The file isn't the one that was loaded: the first segment that differs.
    Changed { kept: Facts, found: Facts },
    /// No slot is left for a handle.
    NoHandle,
    /// The segment with this number has no room, whatever may be purged and slid down; 0 is a block of the script.
    NoRoom(u16),
    /// The handle isn't live.
    Stale,
    /// The handle's block is a user's.
    LoaderOwned,
    /// The handle's block was purged.
    Empty,
    /// Out of memory.
    Memory,
}
