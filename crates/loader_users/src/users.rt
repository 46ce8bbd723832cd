//! Users by their IDs.

ghost use Rattle.std.specs.Prelude.{◌≡◌, ◌<◌, ◌≤◌, slice_get, length, IsSome, Some, None, map, option_map, vec_capacity};
ghost use Rattle.std.specs.Option.{option_and_then};
ghost use Rattle.loader_machine.specs.State as state;
ghost use Rattle.loader_machine.specs.State.{user_of, with_user, with_all, max_users};
ghost use Rattle.loader_agrees.specs.Agrees.{LoadedUser, kept_outlines, AreAttached};
ghost use Rattle.load_meaning.specs.Pathnames.{most_paths};
ghost use Rattle.loader_users.specs.View.{kept};
ghost use Rattle.loader_users.specs.Users.{with_handle};
ghost use Rattle.loader_users.specs.Users.{HasItsUsers, with_life};

use crate::user::{FIRST_ID, User, UserSegment};
use iigs_meaning::Handle;
use loader_machine::Life;

/// The user of an ID, which has one.
pub fn user_in(users: &Vec<Option<User>>, id: u16) -> &User
    requires { IsSome (user_of (map (option_map kept) users.now.items) id) }
    ensures { user_of (map (option_map kept) users.now.items) id ≡ Some (kept result.now) }
{
    if id < FIRST_ID {
        unreachable!()
    }
    match users.get(usize::from(id - FIRST_ID)) {
        Some(Some(user)) => user,
        Some(None) => unreachable!(),
        None => unreachable!(),
    }
}

/// The file number under which an ID is in a list of attached users, of which the first has the number 2.
fn file_in(attached: &Vec<u16>, id: u16) -> Option<u16>
    requires { length attached.now.items ≤ most_paths }
    ensures { result ≡ state.file_in 2 attached.now.items id }
{
    'files: for place in 0..attached.len() {
        if attached[place] == id {
            return Some(place as u16 + 2);
        }
    }
    None
}

/// The file number under which an ID is in the list of a user, if the user isn't gone.
fn file_of(user: &Option<User>, id: u16) -> Option<u16>
    requires { (k : LoadedUser) → option_map kept user.now ≡ Some k → length k.attached ≤ most_paths }
    ensures { result ≡ option_and_then (λ k. state.file_in 2 k.attached id) (option_map kept user.now) }
{
    match user {
        Some(user) => file_in(&user.attached, id),
        None => None,
    }
}

/// The user to which the user of an ID is attached, and the file number under which it is.
pub fn holder_of(users: &Vec<Option<User>>, id: u16) -> Option<(u16, u16)>
    requires few { length users.now.items ≤ max_users }
    requires attached { AreAttached (map (option_map kept) users.now.items) }
    ensures { result ≡ state.holder_of (kept_outlines (map (option_map kept) users.now.items)) id }
{
    'users: for place in 0..users.len() {
        match file_of(&users[place], id) {
            Some(file) => return Some((FIRST_ID + place as u16, file)),
            None => {}
        }
    }
    None
}

/// Removes the user of an ID, which has one.
pub fn remove(users: &mut Vec<Option<User>>, id: u16)
    requires { IsSome (user_of (map (option_map kept) users.old.items) id) }
    ensures gone { map (option_map kept) users.new.items ≡ with_user (map (option_map kept) users.old.items) id None }
    ensures room { vec_capacity users.new ≡ vec_capacity users.old }
{
    users[usize::from(id - FIRST_ID)] = None;
}

/// The user of an ID, which has one, runs, and its segments are these.
pub fn set_segments(users: &mut Vec<Option<User>>, id: u16, segments: Vec<UserSegment>)
    requires { IsSome (user_of (map (option_map kept) users.old.items) id) }
    ensures set { (k : LoadedUser) → user_of (map (option_map kept) users.old.items) id ≡ Some k
        → map (option_map kept) users.new.items ≡ with_user (map (option_map kept) users.old.items) id (Some (record k {
          life = Life.Running;
          handles = map (λ s. s.handle) segments.items;
          heads = map (λ s. s.head) segments.items;
        })) }
    ensures room { vec_capacity users.new ≡ vec_capacity users.old }
{
    match &mut users[usize::from(id - FIRST_ID)] {
        Some(user) => {
            user.life = Life::Running;
            user.segments = segments;
        }
        None => unreachable!(),
    }
}

/// Sets whether the user of an ID, which has one, runs.
pub fn set_life(users: &mut Vec<Option<User>>, id: u16, life: Life)
    requires { IsSome (user_of (map (option_map kept) users.old.items) id) }
    ensures set { (k : LoadedUser) → user_of (map (option_map kept) users.old.items) id ≡ Some k
        → map (option_map kept) users.new.items ≡ with_user (map (option_map kept) users.old.items) id (Some (record k { life = life })) }
    ensures room { vec_capacity users.new ≡ vec_capacity users.old }
{
    match &mut users[usize::from(id - FIRST_ID)] {
        Some(user) => user.life = life,
        None => unreachable!(),
    }
}

/// How many users are attached to the user of an ID, which has one.
pub fn attached_count(users: &Vec<Option<User>>, id: u16) -> usize
    requires { IsSome (user_of (map (option_map kept) users.now.items) id) }
    ensures { (k : LoadedUser) → user_of (map (option_map kept) users.now.items) id ≡ Some k → result ≡ length k.attached }
{
    user_in(users, id).attached.len()
}

/// The ID of the user at a place, from 0, among those that are attached to the user of an ID, which has one.
pub fn attached_in(users: &Vec<Option<User>>, id: u16, place: usize) -> u16
    requires made { IsSome (user_of (map (option_map kept) users.now.items) id) }
    requires inside { (k : LoadedUser) → user_of (map (option_map kept) users.now.items) id ≡ Some k → place < length k.attached }
    ensures { (k : LoadedUser) → user_of (map (option_map kept) users.now.items) id ≡ Some k → slice_get k.attached place ≡ Some result }
{
    user_in(users, id).attached[place]
}

/// Sets whether the users that are attached to the user of an ID, which has one, run.
pub fn set_lives(users: &mut Vec<Option<User>>, id: u16, life: Life)
    requires made { IsSome (user_of (map (option_map kept) users.old.items) id) }
    requires there { HasItsUsers (map (option_map kept) users.old.items) id }
    ensures set { (k : LoadedUser) → user_of (map (option_map kept) users.old.items) id ≡ Some k
        → map (option_map kept) users.new.items ≡ with_all (with_life life) (map (option_map kept) users.old.items) k.attached }
    ensures room { vec_capacity users.new ≡ vec_capacity users.old }
{
    'places: for place in 0..attached_count(users, id) {
        let other = attached_in(users, id, place);
        set_life(users, other, life);
    }
}

/// Gives the segment with a number of the user of an ID, which has both, a handle.
pub fn set_handle(users: &mut Vec<Option<User>>, id: u16, number: u16, h: Handle)
    requires made { IsSome (user_of (map (option_map kept) users.old.items) id) }
    requires inside { (k : LoadedUser) → user_of (map (option_map kept) users.old.items) id ≡ Some k → (1 ≤ number) × (number ≤ length k.heads) }
    ensures set { (k : LoadedUser) → user_of (map (option_map kept) users.old.items) id ≡ Some k
        → map (option_map kept) users.new.items ≡ with_user (map (option_map kept) users.old.items) id (Some (with_handle k number h)) }
    ensures room { vec_capacity users.new ≡ vec_capacity users.old }
{
    match &mut users[usize::from(id - FIRST_ID)] {
        Some(user) => user.set_handle(number, h),
        None => unreachable!(),
    }
}
