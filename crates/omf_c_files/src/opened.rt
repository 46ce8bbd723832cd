//! Calls on an open load file. Each leaves it open as it is. Status NO_FILE: none is open.

ghost use Rattle.std.specs.Prelude.{◌≡◌, length};
ghost use Rattle.load_meaning.specs.Exports.{exports_of};
ghost use Rattle.load_meaning.specs.Pathnames.{paths_of};
ghost use Rattle.omf_c_files.specs.Held.{inside};
ghost use Rattle.omf_c_files.specs.Opened.{Counts, GivesEntries, GivesExport, GivesHeader, GivesPath, IsPlaced, OnOpen, runtime_number};

use crate::answer::{DONE, NO_FILE};
use crate::export::OmfExport;
use crate::header::OmfHeader;
use crate::holder::OmfFileView;
use crate::parts::{is_runtime, put_export, put_header, put_path, put_placed, put_targets};
use crate::target::OmfTarget;
use std::alloc::Global;

impl OmfFileView {
    /// How many segments the file has.
    pub fn count_segments(&mut self, alloc: Global, count: &mut u32) -> u32
        ensures kept { inside self.new ≡ inside self.old }
        ensures answered { OnOpen (inside self.old) (Counts (λ segments. length segments)) result count.old count.new }
    {
        let Some(load) = self.take(alloc) else {
            return NO_FILE;
        };
        *count = load.count();
        self.put(load);
        DONE
    }

    /// The header of the segment with a number, from 1. Status NO_SEGMENT: no segment has it.
    pub fn header(&mut self, alloc: Global, number: u32, reported: &mut OmfHeader) -> u32
        ensures kept { inside self.new ≡ inside self.old }
        ensures answered { OnOpen (inside self.old) (GivesHeader number) result reported.old reported.new }
    {
        let Some(load) = self.take(alloc) else {
            return NO_FILE;
        };
        let status = put_header(&load, number, reported);
        self.put(load);
        status
    }

    /// The bytes in memory of the segment with a number, from 1, where the segments lie at these addresses, one for each. Status
    /// NO_SEGMENT: no segment has the number; OTHER_COUNT: there are more or fewer addresses than segments.
    pub fn place(
        &mut self,
        alloc: Global,
        number: u32,
        addresses: &[u32],
        room: &mut [u8],
        size: &mut usize,
    ) -> u32
        ensures kept { inside self.new ≡ inside self.old }
        ensures answered { OnOpen (inside self.old) (IsPlaced number addresses.now) result (record { items = room.old; size = size.old }) (record { items = room.new; size = size.new }) }
    {
        let Some(load) = self.take(alloc) else {
            return NO_FILE;
        };
        let status = put_placed(alloc, &load, number, addresses, room, size);
        self.put(load);
        status
    }

    /// Where the entries of the jump table lead, in order; none where there is no table.
    pub fn entries(&mut self, alloc: Global, room: &mut [OmfTarget], size: &mut usize) -> u32
        ensures kept { inside self.new ≡ inside self.old }
        ensures answered { OnOpen (inside self.old) GivesEntries result (record { items = room.old; size = size.old }) (record { items = room.new; size = size.new }) }
    {
        let Some(load) = self.take(alloc) else {
            return NO_FILE;
        };
        let status = put_targets(&load, room, size);
        self.put(load);
        status
    }

    /// How many paths the pathname segment has; 0 where there is none.
    pub fn count_paths(&mut self, alloc: Global, count: &mut u32) -> u32
        ensures kept { inside self.new ≡ inside self.old }
        ensures answered { OnOpen (inside self.old) (Counts (λ segments. length (paths_of segments))) result count.old count.new }
    {
        let Some(load) = self.take(alloc) else {
            return NO_FILE;
        };
        *count = load.paths();
        self.put(load);
        DONE
    }

    /// The path of the file with a number, from 2. Status NO_ITEM: no path is that of a file with the number.
    pub fn path(&mut self, alloc: Global, number: u32, room: &mut [u8], size: &mut usize) -> u32
        ensures kept { inside self.new ≡ inside self.old }
        ensures answered { OnOpen (inside self.old) (GivesPath number) result (record { items = room.old; size = size.old }) (record { items = room.new; size = size.new }) }
    {
        let Some(load) = self.take(alloc) else {
            return NO_FILE;
        };
        let status = put_path(&load, number, room, size);
        self.put(load);
        status
    }

    /// How many names the file exports.
    pub fn count_exports(&mut self, alloc: Global, count: &mut u32) -> u32
        ensures kept { inside self.new ≡ inside self.old }
        ensures answered { OnOpen (inside self.old) (Counts (λ segments. length (exports_of segments))) result count.old count.new }
    {
        let Some(load) = self.take(alloc) else {
            return NO_FILE;
        };
        *count = load.exports();
        self.put(load);
        DONE
    }

    /// The name at a place among those that the file exports, from 0, in segment and record order, and what it represents. Status NO_ITEM:
    /// no name is at the place.
    pub fn export(
        &mut self,
        alloc: Global,
        place: u32,
        room: &mut [u8],
        size: &mut usize,
        reported: &mut OmfExport,
    ) -> u32
        ensures kept { inside self.new ≡ inside self.old }
        ensures answered { OnOpen (inside self.old) (GivesExport place) result (record { items = room.old; size = size.old }, reported.old) (record { items = room.new; size = size.new }, reported.new) }
    {
        let Some(load) = self.take(alloc) else {
            return NO_FILE;
        };
        let status = put_export(&load, place, room, size, reported);
        self.put(load);
        status
    }

    /// Whether it is a run-time library file: all segments are dynamic, and none is skipped. 1 where it is, and else 0.
    pub fn tell_runtime(&mut self, alloc: Global, number: &mut u32) -> u32
        ensures kept { inside self.new ≡ inside self.old }
        ensures answered { OnOpen (inside self.old) (Counts runtime_number) result number.old number.new }
    {
        let Some(load) = self.take(alloc) else {
            return NO_FILE;
        };
        *number = u32::from(is_runtime(&load));
        self.put(load);
        DONE
    }
}
