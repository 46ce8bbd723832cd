//! The outcome of a call, and how it is handed to the caller.

ghost use Rattle.std.specs.Prelude.{◌≡◌};
ghost use Rattle.omf_c_files.specs.Handed.{IsPut, IsHanded, outcome_of};

use crate::fault::OmfFault;

/// What was asked for is there.
pub const DONE: u32 = 0;

/// What is given has a first fault, which is reported.
pub const REFUSED: u32 = 1;

/// Out of memory.
pub const MEMORY: u32 = 2;

/// The call was given what it can't take.
pub const MISUSED: u32 = 3;

/// The caller's room is too small.
pub const SMALL: u32 = 4;

/// No file is open.
pub const NO_FILE: u32 = 5;

/// A file is open already.
pub const IS_OPEN: u32 = 6;

/// No segment has the number.
pub const NO_SEGMENT: u32 = 7;

/// There are more or fewer addresses than segments.
pub const OTHER_COUNT: u32 = 8;

/// No path, no exported name or no cause has the number.
pub const NO_ITEM: u32 = 9;

/// A file has more than 4,294,967,295 bytes.
pub const TOO_LONG: u32 = 10;

/// What a call made, or why it made nothing.
#[derive(Drop)]
pub enum Answer {
    Made(Vec<u8>),
    Refused(OmfFault),
    Memory,
    Misused,
}

/// Puts bytes into the caller's room, if they fit, and reports their number.
pub fn write_answer(bytes: &[u8], room: &mut [u8], size: &mut usize) -> u32
    ensures { IsPut bytes.now result (record { items = room.old; size = size.old }) (record { items = room.new; size = size.new }) }
{
    *size = bytes.len();
    if room.len() < bytes.len() {
        return SMALL;
    }
    room[..bytes.len()].copy_from_slice(bytes);
    DONE
}

/// Hands an answer to the caller.
pub fn hand(answer: Answer, room: &mut [u8], size: &mut usize, fault: &mut OmfFault) -> u32
    ensures { IsHanded (outcome_of answer) result (record { items = room.old; size = size.old }) (record { items = room.new; size = size.new }) fault.old fault.new }
{
    match answer {
        Answer::Made(bytes) => write_answer(&bytes, room, size),
        Answer::Refused(reported) => {
            *fault = reported;
            REFUSED
        }
        Answer::Memory => MEMORY,
        Answer::Misused => MISUSED,
    }
}
