//! The commands of a script, with the values of their words.

ghost use Rattle.std.specs.Prelude.{◌≡◌, ◌≤◌, length};

use iigs_meaning::Handle;
use omf_base::Name;
use std::marker::Model;

/// 1 to 256 numbers of banks. Contracts see the list of them.
#[derive(Drop)]
pub struct BankList {
    banks: Vec<u8>,
}

impl Model for BankList {
    ghost use Rattle.std.specs.Prelude.{ℕ, List};
    ghost use Rattle.script_text.specs.Banks.{AreBanks};

    ghost Value = { List ℕ };

    ghost view = { λ list. list.banks.items };

    ghost invariant = { λ list. AreBanks list.banks.items };
}

impl BankList {
    pub(crate) fn new(banks: Vec<u8>) -> BankList
        requires some { 1 ≤ length banks.items }
        requires few { length banks.items ≤ 256 }
        ensures { result ≡ banks.items }
    {
        BankList { banks }
    }

    /// The banks, in the order in which they were named.
    pub fn bytes(&self) -> &[u8]
        ensures value { result.now ≡ self.now }
        ensures some { 1 ≤ length self.now }
        ensures few { length self.now ≤ 256 }
    {
        self.banks.as_slice()
    }
}

/// A command of a script.
#[derive(Drop)]
pub enum Command {
    /// The banks of memory to begin with.
    Banks {
        list: BankList,
    },
    /// A load file to be loaded.
    Load {
        path: Name,
    },
    /// A dynamic segment to be made active.
    LoadSegment {
        user: u16,
        segment: u16,
    },
    /// A dynamic segment to be let go.
    UnloadSegment {
        user: u16,
        segment: u16,
    },
    /// A JSL in a user's segment to be followed, at the offset `at`.
    Jsl {
        user: u16,
        segment: u16,
        at: u32,
    },
    /// A program to be shut down: kept dormant, or dropped.
    ShutDown {
        user: u16,
        keep: bool,
    },
    /// A dormant program to be restarted.
    Restart {
        user: u16,
    },
    /// A user's purgeable blocks to be emptied.
    Purge {
        user: u16,
    },
    /// A byte to be written into a user's segment, at the offset `at`.
    Poke {
        user: u16,
        segment: u16,
        at: u32,
        byte: u8,
    },
    /// Bytes of a user's segment to be shown, from the offset `at` on.
    Bytes {
        user: u16,
        segment: u16,
        at: u32,
        length: u32,
    },
    /// An address to be located.
    Where {
        address: u32,
    },
    /// A user's segment to be reported.
    Info {
        user: u16,
        segment: u16,
    },
    /// A block to be placed for the script.
    Alloc {
        size: u32,
        /// What is asked of its place, and how it can be purged.
        attr: u16,
        address: u32,
    },
    /// A block to be released, and its handle with it.
    Free {
        handle: Handle,
    },
    Lock {
        handle: Handle,
    },
    Unlock {
        handle: Handle,
    },
    /// A block's purge level to be set.
    Level {
        handle: Handle,
        level: u8,
    },
    /// A handle's block to be reported.
    Handle {
        handle: Handle,
    },
    /// The free bytes to be counted.
    Room,
    /// The movable blocks to be slid down.
    Compact,
}
