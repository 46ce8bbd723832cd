//! Users: programs that were loaded.

ghost use Rattle.std.specs.Prelude.{◌≡◌, ◌≤◌, length, map, option_map, Some, IfOk, IfErr};
ghost use Rattle.loader_machine.specs.Heads.{at_number};
ghost use Rattle.loader_machine.specs.Presences.{handle_at};
ghost use Rattle.loader_agrees.specs.Agrees.{seen_in};
ghost use Rattle.loader_agrees.specs.Checks.{PassesSegment, StopsSegment};
ghost use Rattle.loader_users.specs.View.{kept};
ghost use Rattle.loader_users.specs.Users.{with_handle};

use crate::head::is_skipped;
use iigs_meaning::Handle;
use loader_machine::{Life, LoaderFault, SegmentHead};

/// The ID of the first user.
pub const FIRST_ID: u16 = 0x1001;

/// A segment of a user's file.
#[derive(Clone, Copy, PartialEq, Eq, Debug)]
pub struct UserSegment {
    pub handle: Option<Handle>,
    pub head: SegmentHead,
}

/// A user as the loader keeps it.
#[derive(Drop)]
pub struct User {
    /// The path of its file.
    pub path: String,
    pub life: Life,
    /// In the order of the file.
    pub segments: Vec<UserSegment>,
    /// The IDs of the users that are attached to it, in the order of its file's rows.
    pub attached: Vec<u16>,
}

impl User {
    /// The segment with a number, from 1.
    pub fn segment(&self, number: u16) -> Option<&UserSegment>
        ensures { option_map (λ s. s.now) result ≡ at_number self.now.segments.items number }
    {
        if number == 0 {
            return None;
        }
        self.segments.get(usize::from(number) - 1)
    }

    /// The segment with a number, from 1, if it isn't skipped.
    pub fn kept_segment(&self, number: u16) -> Result<UserSegment, LoaderFault>
        ensures ok { IfOk result (λ s. (at_number (kept self.now).heads number ≡ Some s.head) × (handle_at (kept self.now).handles number ≡ s.handle)
            × PassesSegment (seen_in (kept self.now)) number s.head) }
        ensures err { IfErr result (λ fault. StopsSegment (seen_in (kept self.now)) number fault) }
    {
        let Some(segment) = self.segment(number) else {
            return Err(LoaderFault::NoSegment);
        };
        if is_skipped(&segment.head) {
            return Err(LoaderFault::NoSegment);
        }
        Ok(*segment)
    }

    /// Gives the segment with a number, from 1, a handle.
    pub fn set_handle(&mut self, number: u16, h: Handle)
        requires some { 1 ≤ number }
        requires inside { number ≤ length self.old.segments.items }
        ensures { kept self.new ≡ with_handle (kept self.old) number h }
    {
        let place = usize::from(number) - 1;
        let head = self.segments[place].head;
        self.segments[place] = UserSegment {
            handle: Some(h),
            head,
        };
    }
}
