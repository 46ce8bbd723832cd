//! Entries of a file's jump table for other files that lead nowhere.

ghost use Rattle.std.specs.Prelude.{◌≡◌, ◌⊎◌, ◌<◌, ℕ, length, map, option_map, nat_lt, nat_le, slice_get, false, ◌||◌, Some, IsSome};
ghost use Rattle.std.specs.Option.{option_map_or, option_and_then};
ghost use Rattle.load_meaning.specs.LoadTable.{entry_count, table_of};
ghost use Rattle.omf_cells.specs.Load.{IsOutside, HasLength};
ghost use Rattle.loader_machine.specs.Heads.{at_number};
ghost use Rattle.loader_machine.specs.State.{user_of};
ghost use Rattle.loader_machine.specs.Steps as steps;
ghost use Rattle.loader_machine.specs.laws.Words as words;
ghost use Rattle.loader_users.specs.View.{kept};
ghost use Rattle.loader_users.specs.Users.{new_heads, kept_heads, lost_entry};

use crate::user::User;
use crate::users::user_in;
use load_meaning::Target;
use omf_cells::{LoadCause, LoadFault, LoadFile};

/// The bytes before the first entry of a table, and those of an entry.
const FRONT: u32 = 8;

const ENTRY: u32 = 14;

/// How many bytes a segment has; 0 where there is none with this number.
fn length_of(load: &LoadFile<'_>, number: u32) -> u32
    ensures { IsOutside load.now number ⊎ HasLength load.now number result }
{
    match load.header(number) {
        Some(header) => header.length,
        None => 0,
    }
}

/// The entry at a place of a table of this length leads nowhere.
fn lost_at(table: u32, length: u32, place: u32) -> LoadFault
    requires { place < entry_count length }
    ensures { result ≡ lost_entry table place }
{
    LoadFault {
        cause: LoadCause::NoSuchTarget,
        segment: table,
        at: FRONT + ENTRY * place,
    }
}

/// Whether a target is an offset below LENGTH of a segment of this user.
fn is_inside(user: &User, target: &Target) -> bool
    ensures { result ≡ option_map_or (λ head. nat_lt target.now.offset head.length) (at_number (map (λ s. s.head) user.now.segments.items) target.now.segment) false }
{
    match user.segment(target.segment) {
        Some(segment) => target.offset < segment.head.length,
        None => false,
    }
}

/// Whether an entry leads into the file itself, or to a segment of one of these users.
fn is_reached(joined: &Vec<User>, target: &Target) -> bool
    ensures { result ≡ words.is_reached (new_heads joined.now.items) target.now }
{
    if target.file <= 1 {
        return true;
    }
    match joined.get(usize::from(target.file) - 2) {
        Some(user) => is_inside(user, target),
        None => false,
    }
}

/// Whether an entry leads into the file itself, or to a segment of one of the users with these IDs.
fn is_reached_in(users: &Vec<Option<User>>, attached: &Vec<u16>, target: &Target) -> bool
    requires { (place id : ℕ) → slice_get attached.now.items place ≡ Some id → IsSome (user_of (map (option_map kept) users.now.items) id) }
    ensures { result ≡ words.is_reached (kept_heads (map (option_map kept) users.now.items) attached.now.items) target.now }
{
    if target.file <= 1 {
        return true;
    }
    match attached.get(usize::from(target.file) - 2) {
        Some(id) => is_inside(user_in(users, *id), target),
        None => false,
    }
}

/// The first entry that leads nowhere, where these are the users of the rows.
pub fn first_dangling_entry(load: &LoadFile<'_>, joined: &Vec<User>) -> Option<LoadFault>
    ensures { result ≡ option_and_then (steps.lost_in (new_heads joined.now.items) load.now) (table_of load.now) }
{
    let table = match load.table() {
        Some(table) => table,
        None => return None,
    };
    let length = length_of(load, table);
    'entries: for place in 0..load.target_count() {
        let target = match load.target(place) {
            Some(target) => target,
            None => unreachable!(),
        };
        if !is_reached(joined, &target) {
            return Some(lost_at(table, length, place));
        }
    }
    None
}

/// The first entry of the load file that leads nowhere, where these are the IDs of the attached users.
pub fn first_dangling_entry_of(
    load: &LoadFile<'_>,
    users: &Vec<Option<User>>,
    attached: &Vec<u16>,
) -> Option<LoadFault>
    requires { (place id : ℕ) → slice_get attached.now.items place ≡ Some id → IsSome (user_of (map (option_map kept) users.now.items) id) }
    ensures { result ≡ option_and_then (steps.lost_in (kept_heads (map (option_map kept) users.now.items) attached.now.items) load.now) (table_of load.now) }
{
    let table = match load.table() {
        Some(table) => table,
        None => return None,
    };
    let length = length_of(load, table);
    'entries: for place in 0..load.target_count() {
        let target = match load.target(place) {
            Some(target) => target,
            None => unreachable!(),
        };
        if !is_reached_in(users, attached, &target) {
            return Some(lost_at(table, length, place));
        }
    }
    None
}
