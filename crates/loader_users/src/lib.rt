//! What the loader keeps of users and their segments, and what is done with them by themselves: a file is read, planned, compared and
//! looked up; its segments are placed, filled and turned, and the entries that lead to them renewed.
#![tactic(auto)]

mod comparison;
mod file;
mod fill;
mod head;
mod levels;
mod locate;
mod losses;
mod memory;
mod place;
mod plan;
mod reading;
mod renew;
mod user;
mod users;

pub use comparison::compare;
pub use file::segments_of;
pub use fill::{fill_all, fill_block};
pub use head::{is_dynamic, is_read_again, is_static, is_table, want_of};
pub use levels::{activate, idle};
pub use locate::{owner_of, search_owner};
pub use losses::{first_dangling_entry, first_dangling_entry_of};
pub use memory::{active, presence, slice};
pub use place::{assign_handles, entry_of, number_of, place_of, set_places};
pub use plan::{LoadPlan, plan_of};
pub use reading::{load_of, read_file, runtime_load};
pub use renew::{address_in, relink_tables};
pub use user::{FIRST_ID, User, UserSegment};
pub use users::{
    attached_count, attached_in, holder_of, remove, set_handle, set_life, set_lives, set_segments,
    user_in,
};
