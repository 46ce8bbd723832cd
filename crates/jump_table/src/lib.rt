//! Jump tables: entries through which code reaches dynamic segments (GS/OS Reference, appendix F, jump table segment).
#![tactic(auto)]

mod entry;
mod laws;
mod table;

pub use entry::{
    entry_at, entry_count, is_unloaded, put_entry, read_entry, set_loaded, set_unloaded, set_user,
    target_at, target_in, user_in,
};
pub use laws::entries_are_read_in_one_way;
pub use load_meaning::{Entry, Target};
pub use table::{MOST_ENTRIES, Table, TableFault};
