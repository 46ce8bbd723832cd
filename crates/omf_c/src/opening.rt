//! Load files that are opened: each call is one of `OmfFileView`.

ghost use Rattle.std.specs.Prelude.{◌≡◌, None, length, MatchOption};
ghost use Rattle.load_meaning.specs.Exports.{exports_of};
ghost use Rattle.load_meaning.specs.Pathnames.{paths_of};
ghost use Rattle.omf_c_files.specs.Held.{inside};
ghost use Rattle.omf_c_files.specs.Handed.{status_done, status_no_file};
ghost use Rattle.omf_c_files.specs.Opened.{Counts, GivesEntries, GivesExport, GivesHeader, GivesPath, IsOpened, IsPlaced, OnOpen, runtime_number};

use omf_c_files::{OmfExport, OmfFault, OmfFileView, OmfHeader, OmfTarget, close_file, open_file};
use std::alloc::Global;

/// Reads and checks a load file, and keeps it open. It borrows the bytes, which have to stay as they are until `omf_close`. Status IS_OPEN:
/// a file is open there already; TOO_LONG: the file has more than 4,294,967,295 bytes.
#[unsafe(no_mangle)]
pub extern "C" fn omf_open(
    alloc: Global,
    file: &'static [u8],
    view: &mut OmfFileView,
    fault: &mut OmfFault,
) -> u32
    ensures { IsOpened file.now result (inside view.old) (inside view.new) fault.old fault.new }
{
    open_file(alloc, file, view, fault)
}

/// Closes a file, and frees what was kept of it. Status NO_FILE: none is open.
#[unsafe(no_mangle)]
pub extern "C" fn omf_close(alloc: Global, view: &mut OmfFileView) -> u32
    ensures none { inside view.new ≡ None }
    ensures status { MatchOption (inside view.old) (result ≡ status_no_file) (λ _. result ≡ status_done) }
{
    close_file(alloc, view)
}

/// Reports how many segments an open file has. Status NO_FILE: none is open.
#[unsafe(no_mangle)]
pub extern "C" fn omf_segments(alloc: Global, view: &mut OmfFileView, count: &mut u32) -> u32
    ensures kept { inside view.new ≡ inside view.old }
    ensures answered { OnOpen (inside view.old) (Counts (λ segments. length segments)) result count.old count.new }
{
    view.count_segments(alloc, count)
}

/// Reports the header of the segment with a number, from 1. Status NO_SEGMENT: no segment has it; NO_FILE: no file is open.
#[unsafe(no_mangle)]
pub extern "C" fn omf_header(
    alloc: Global,
    view: &mut OmfFileView,
    number: u32,
    header: &mut OmfHeader,
) -> u32
    ensures kept { inside view.new ≡ inside view.old }
    ensures answered { OnOpen (inside view.old) (GivesHeader number) result header.old header.new }
{
    view.header(alloc, number, header)
}

/// Writes the bytes in memory of the segment with a number, from 1, where the segments lie at these addresses, one for each. Status
/// NO_SEGMENT: no segment has the number; OTHER_COUNT: there are more or fewer addresses than segments; NO_FILE: no file is open.
#[unsafe(no_mangle)]
pub extern "C" fn omf_place(
    alloc: Global,
    view: &mut OmfFileView,
    number: u32,
    addresses: &[u32],
    room: &mut [u8],
    size: &mut usize,
) -> u32
    ensures kept { inside view.new ≡ inside view.old }
    ensures answered { OnOpen (inside view.old) (IsPlaced number addresses.now) result (record { items = room.old; size = size.old }) (record { items = room.new; size = size.new }) }
{
    view.place(alloc, number, addresses, room, size)
}

/// Writes where the entries of the jump table lead, in order; none where there is no table. Status NO_FILE: no file is open.
#[unsafe(no_mangle)]
pub extern "C" fn omf_entries(
    alloc: Global,
    view: &mut OmfFileView,
    room: &mut [OmfTarget],
    size: &mut usize,
) -> u32
    ensures kept { inside view.new ≡ inside view.old }
    ensures answered { OnOpen (inside view.old) GivesEntries result (record { items = room.old; size = size.old }) (record { items = room.new; size = size.new }) }
{
    view.entries(alloc, room, size)
}

/// Reports how many paths of other files the pathname segment has; 0 where there is none. Status NO_FILE: no file is open.
#[unsafe(no_mangle)]
pub extern "C" fn omf_paths(alloc: Global, view: &mut OmfFileView, count: &mut u32) -> u32
    ensures kept { inside view.new ≡ inside view.old }
    ensures answered { OnOpen (inside view.old) (Counts (λ segments. length (paths_of segments))) result count.old count.new }
{
    view.count_paths(alloc, count)
}

/// Writes the path of the file with a number, from 2, to which entries of the jump table lead. Status NO_ITEM: no path is that of a file
/// with the number; NO_FILE: no file is open.
#[unsafe(no_mangle)]
pub extern "C" fn omf_path(
    alloc: Global,
    view: &mut OmfFileView,
    number: u32,
    room: &mut [u8],
    size: &mut usize,
) -> u32
    ensures kept { inside view.new ≡ inside view.old }
    ensures answered { OnOpen (inside view.old) (GivesPath number) result (record { items = room.old; size = size.old }) (record { items = room.new; size = size.new }) }
{
    view.path(alloc, number, room, size)
}

/// Reports how many names an open file exports. Status NO_FILE: none is open.
#[unsafe(no_mangle)]
pub extern "C" fn omf_exports(alloc: Global, view: &mut OmfFileView, count: &mut u32) -> u32
    ensures kept { inside view.new ≡ inside view.old }
    ensures answered { OnOpen (inside view.old) (Counts (λ segments. length (exports_of segments))) result count.old count.new }
{
    view.count_exports(alloc, count)
}

/// Writes the name at a place among those that the file exports, from 0, in segment and record order, and reports the place in a segment
/// that it represents. Status NO_ITEM: no name is at the place; NO_FILE: no file is open.
#[unsafe(no_mangle)]
pub extern "C" fn omf_export(
    alloc: Global,
    view: &mut OmfFileView,
    place: u32,
    room: &mut [u8],
    size: &mut usize,
    exported: &mut OmfExport,
) -> u32
    ensures kept { inside view.new ≡ inside view.old }
    ensures answered { OnOpen (inside view.old) (GivesExport place) result (record { items = room.old; size = size.old }, exported.old) (record { items = room.new; size = size.new }, exported.new) }
{
    view.export(alloc, place, room, size, exported)
}

/// Reports whether an open file is a run-time library file, all segments of which are dynamic, and none skipped: 1 where it is, and else 0.
/// Status NO_FILE: no file is open.
#[unsafe(no_mangle)]
pub extern "C" fn omf_is_runtime(alloc: Global, view: &mut OmfFileView, answer: &mut u32) -> u32
    ensures kept { inside view.new ≡ inside view.old }
    ensures answered { OnOpen (inside view.old) (Counts runtime_number) result answer.old answer.new }
{
    view.tell_runtime(alloc, answer)
}
