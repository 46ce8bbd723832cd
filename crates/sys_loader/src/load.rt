//! Programs that are loaded.

ghost use Rattle.std.specs.Prelude.{◌≡◌, ◌⊎◌, ◌+◌, ◌++◌, ◌<◌, ◌≤◌, ◌^◌, ℕ, List, map, option_map, length, slice_get, string_bytes, vec_capacity, All, Some, None, false, IfOk, IfErr, OnOk, OnErr};
ghost use Rattle.omf_format.specs.File as omf;
ghost use Rattle.omf_io.specs.Counts.{one_more, saturating_sum};
ghost use Rattle.omf_io.specs.Files.{FileMap};
ghost use Rattle.load_meaning.specs.Pathnames.{paths_of};
ghost use Rattle.load_meaning.specs.Loadable.{IsLoadable};
ghost use Rattle.iigs_meaning.specs.Fits.{IsWant};
ghost use Rattle.loader_machine.specs.Rule.{RoomRule};
ghost use Rattle.iigs_meaning.specs.Memory.{Memory, AreAllPlaced};
ghost use Rattle.loader_machine.specs.Heads.{head_of, wants_of};
ghost use Rattle.loader_machine.specs.Found.{Joins};
ghost use Rattle.loader_machine.specs.State as state;
ghost use Rattle.loader_machine.specs.State.{Machine, first_id, max_users};
ghost use Rattle.loader_machine.specs.Steps.{held_of_heads, lost_refusal};
ghost use Rattle.loader_machine.specs.Commands.{Load};
ghost use Rattle.loader_agrees.specs.Agrees.{Agrees, Meets, MeetsReads};
ghost use Rattle.loader_agrees.specs.Acts.{HasBegun, joined_kept};
ghost use Rattle.loader_users.specs.View.{kept};
ghost use Rattle.loader_users.specs.Planned.{IsPlan};
ghost use Rattle.sys_loader.specs.Calls.{IsSettled, IsBeginRefusal, AreRowsRead, HasJoined, JoinStops, AreJoinedUsers, RowsStop, HasLoadedRows, HasLoadedFile, HasLoaded};
ghost use Rattle.sys_loader.specs.Replies.{load_reply};

use crate::answers::Started;
use crate::loader::{Loader, MAX_USERS};
use iigs_compact_memory::CompactBanks;
use iigs_meaning::{Handle, PlaceFault, Want};
use loader_machine::{Life, LoaderFault};
use loader_users::{
    FIRST_ID, LoadPlan, User, UserSegment, assign_handles, entry_of, fill_all,
    first_dangling_entry, load_of, number_of, plan_of, read_file, runtime_load, segments_of,
    set_places,
};
use omf_cells::{LoadFile, Places};
use omf_io::Files;
use std::alloc::{AllocError, Global};

/// Places blocks for all static segments, in order, or none.
fn place_all(
    banks: &mut CompactBanks,
    user: u16,
    segments: &Vec<UserSegment>,
    wants: &[Want],
    handles: &mut [Handle],
) -> Result<(), LoaderFault>
    requires short { length segments.now.items < 2 ^ 16 }
    requires wants { wants.now ≡ wants_of (map (λ s. s.head) segments.now.items) }
    requires are { All IsWant wants.now }
    requires lengths { length handles.old ≡ length wants.now }
    ensures placed { OnOk result (AreAllPlaced RoomRule banks.old user false wants.now handles.new banks.new) }
    ensures refused { IfErr result (IsBeginRefusal banks.old user (map (λ s. s.head) segments.now.items)) }
    ensures err { OnErr result (banks.new ≡ banks.old) }
{
    match banks.place_all(user, false, wants, handles) {
        Ok(()) => Ok(()),
        Err(PlaceFault::NoHandle) => Err(LoaderFault::NoHandle),
        Err(PlaceFault::NoRoom(place)) => Err(LoaderFault::NoRoom(number_of(segments, place))),
        Err(PlaceFault::Stale) => unreachable!(),
        Err(PlaceFault::NotEmpty) => unreachable!(),
        Err(PlaceFault::Memory) => unreachable!(),
    }
}

/// Writes the static segments into their new blocks, once all of these are placed.
pub fn write_all(
    banks: &mut CompactBanks,
    load: &LoadFile<'_>,
    segments: &mut Vec<UserSegment>,
    handles: &[Handle],
    places: &mut Places,
    user: u16,
)
    requires taken { (file : List ℕ) × IsLoadable file load.now }
    requires short { length load.now < 2 ^ 16 }
    requires heads { map (λ s. s.head) segments.old.items ≡ map head_of load.now }
    requires room { length places.old ≡ length segments.old.items }
    requires placed { (before : Memory) × AreAllPlaced RoomRule before user false (wants_of (map head_of load.now)) handles.now banks.old }
    ensures heads { map (λ s. s.head) segments.new.items ≡ map head_of load.now }
    ensures handles { map (λ s. s.handle) segments.new.items ≡ map (λ held. held.handle) (held_of_heads (map head_of load.now) handles.now) }
    ensures settled { IsSettled load.now user handles.now banks.old banks.new }
{
    assign_handles(segments, handles);
    set_places(banks, segments, places);
    fill_all(banks, load, segments, places, user);
}

/// How many segments a load file has: the number of the last one.
pub fn count_of(load: &LoadFile<'_>) -> u16
    requires taken { (file : List ℕ) × IsLoadable file load.now }
    ensures { result ≡ length load.now }
{
    match load.header(load.count()) {
        Some(header) => header.seg_num,
        None => unreachable!(),
    }
}

/// A user that is attached to another: none of its segments is there.
fn join_user(alloc: Global, load: &LoadFile<'_>, path: &str) -> Result<User, AllocError>
    ensures { IfOk result (λ user. kept user ≡ joined_kept path.now (map head_of load.now)) }
{
    let path = String::from_str(alloc, path)?;
    let segments = segments_of(alloc, load)?;
    Ok(User {
        path,
        life: Life::Running,
        segments,
        attached: Vec::new(alloc),
    })
}

/// The path of a row.
fn path_of<'a>(load: &LoadFile<'a>, place: u32) -> &'a str
    requires loadable { (file : List ℕ) × IsLoadable file load.now }
    requires inside { place < length (paths_of load.now) }
    ensures { slice_get (paths_of load.now) place ≡ Some result.now }
{
    let path = match load.path(place) {
        Some(path) => path,
        None => unreachable!(),
    };
    match str::from_utf8(path) {
        Ok(path) => path,
        Err(_) => unreachable!(),
    }
}

/// The user of a row, whose file is read.
fn join<F: Files>(alloc: Global, files: &mut F, path: &str) -> Result<User, LoaderFault>
    ensures held { (F.seen files.new).held ≡ (F.seen files.old).held }
    ensures never_falls { (F.seen files.old).faults ≤ (F.seen files.new).faults }
    ensures asked { (F.seen files.new).asked ≡ one_more (F.seen files.old).asked }
    ensures joins { IfOk result (λ user. HasJoined (F.seen files.old).held path.now (kept user) × ((F.seen files.new).faults ≡ (F.seen files.old).faults)) }
    ensures stops { IfErr result (JoinStops (F.seen files.old).held path.now (F.seen files.old).faults (F.seen files.new).faults) }
{
    let bytes = read_file(alloc, files, path)?;
    let load = runtime_load(alloc, &bytes)?;
    let _count = count_of(&load);
    match join_user(alloc, &load, path) {
        Ok(user) => Ok(user),
        Err(AllocError) => Err(LoaderFault::Memory),
    }
}

/// The users of all rows, whose files are read in order.
fn join_all<F: Files>(
    alloc: Global,
    files: &mut F,
    load: &LoadFile<'_>,
) -> Result<Vec<User>, LoaderFault>
    requires { (file : List ℕ) × IsLoadable file load.now }
    ensures held { (F.seen files.new).held ≡ (F.seen files.old).held }
    ensures never_falls { (F.seen files.old).faults ≤ (F.seen files.new).faults }
    ensures joins { IfOk result (λ users. (all : List (List omf.Segment)) × AreRowsRead (F.seen files.old).held (paths_of load.now) (F.seen files.old).faults (F.seen files.new).faults (Joins all)
        × AreJoinedUsers (paths_of load.now) all (map kept users.items) × ((F.seen files.new).asked ≡ saturating_sum (length all) (F.seen files.old).asked)) }
    ensures stops { IfErr result (RowsStop (F.seen files.old).held (paths_of load.now) (F.seen files.old) (F.seen files.new)) }
{
    let mut users = Vec::new(alloc);
    'rows: for place in 0..load.paths() {
        let user = join(alloc, files, path_of(load, place))?;
        match users.push(user) {
            Ok(()) => {}
            Err(_) => return Err(LoaderFault::Memory),
        }
    }
    Ok(users)
}

/// `count` IDs, from one on.
fn ids_from(alloc: Global, id: u16, count: usize) -> Result<Vec<u16>, AllocError>
    requires { id + count < 2 ^ 16 }
    ensures { IfOk result (λ ids. ids.items ≡ state.ids_from id count) }
{
    let mut ids = Vec::new(alloc);
    'ids: for place in 0..count {
        ids.push(id + place as u16)?;
    }
    Ok(ids)
}

/// Users that are put after others, for which there is room.
fn push_all(users: &mut Vec<Option<User>>, joined: Vec<User>)
    requires { length users.old.items + length joined.items ≤ vec_capacity users.old }
    ensures pushed { map (option_map kept) users.new.items ≡ map (option_map kept) users.old.items ++ map (λ k. Some k) (map kept joined.items) }
    ensures room { vec_capacity users.new ≡ vec_capacity users.old }
{
    'joined: for user in joined {
        users.push_reserved(Some(user));
    }
}

impl Loader {
    // A program of a load file begins, with the users of its rows after it.
    fn start(
        &mut self,
        load: &LoadFile<'_>,
        plan: LoadPlan,
        path: String,
        joined: Vec<User>,
        attached: Vec<u16>,
    ) -> Result<Started, LoaderFault>
        requires few { length self.old.users + 1 + length joined.items ≤ max_users }
        requires loadable { (file : List ℕ) × IsLoadable file load.now }
        requires short { length load.now < 2 ^ 16 }
        requires plan { IsPlan load.now plan }
        requires users { (all : List (List omf.Segment)) × AreJoinedUsers (paths_of load.now) all (map kept joined.items) × (lost_refusal (map (map head_of) all) load.now ≡ None) }
        requires attached { attached.items ≡ state.ids_from (first_id + length self.old.users + 1) (length (paths_of load.now)) }
        ensures begun { (all : List (List omf.Segment)) → AreJoinedUsers (paths_of load.now) all (map kept joined.items)
            → IfOk result (λ started. HasBegun self.old (string_bytes path) load.now all started.user started.entry self.new) }
        ensures refused { IfErr result (IsBeginRefusal self.old.memory (first_id + length self.old.users) (map head_of load.now)) }
        ensures err { OnErr result (self.new ≡ self.old) }
    {
        let LoadPlan {
            mut segments,
            wants,
            mut handles,
            mut places,
        } = plan;
        let user = FIRST_ID + self.users.len() as u16;
        place_all(
            &mut self.banks,
            user,
            &segments,
            wants.as_slice(),
            handles.as_mut_slice(),
        )?;
        write_all(
            &mut self.banks,
            load,
            &mut segments,
            handles.as_slice(),
            &mut places,
            user,
        );
        let entry = entry_of(&self.banks, &segments);
        self.users.push_reserved(Some(User {
            path,
            life: Life::Running,
            segments,
            attached,
        }));
        push_all(&mut self.users, joined);
        Ok(Started { user, entry })
    }

    // A program of a load file begins so, once what it takes is made.
    fn plan_and_start(
        &mut self,
        load: &LoadFile<'_>,
        path: &str,
        joined: Vec<User>,
    ) -> Result<Started, LoaderFault>
        requires few { length self.old.users + 1 + length joined.items ≤ max_users }
        requires loadable { (file : List ℕ) × IsLoadable file load.now }
        requires users { (all : List (List omf.Segment)) × AreJoinedUsers (paths_of load.now) all (map kept joined.items) × (lost_refusal (map (map head_of) all) load.now ≡ None) }
        ensures begun { (all : List (List omf.Segment)) → AreJoinedUsers (paths_of load.now) all (map kept joined.items)
            → IfOk result (λ started. HasBegun self.old path.now load.now all started.user started.entry self.new) }
        ensures refused { IfErr result (λ why. (why ≡ LoaderFault.Memory) ⊎ IsBeginRefusal self.old.memory (first_id + length self.old.users) (map head_of load.now) why) }
        ensures err { OnErr result (self.new ≡ self.old) }
    {
        let _count = count_of(load);
        let first = FIRST_ID + self.users.len() as u16 + 1;
        let attached = match ids_from(self.alloc, first, joined.len()) {
            Ok(attached) => attached,
            Err(AllocError) => return Err(LoaderFault::Memory),
        };
        let plan = match plan_of(self.alloc, load) {
            Ok(plan) => plan,
            Err(AllocError) => return Err(LoaderFault::Memory),
        };
        let path = match String::from_str(self.alloc, path) {
            Ok(path) => path,
            Err(AllocError) => return Err(LoaderFault::Memory),
        };
        self.start(load, plan, path, joined, attached)
    }

    // A program of a load file begins, once the files of its rows are read.
    fn join_and_start<F: Files>(
        &mut self,
        files: &mut F,
        load: &LoadFile<'_>,
        path: &str,
    ) -> Result<Started, LoaderFault>
        requires few { length self.old.users < max_users }
        requires loadable { (file : List ℕ) × IsLoadable file load.now }
        ensures held { (F.seen files.new).held ≡ (F.seen files.old).held }
        ensures never_falls { (F.seen files.old).faults ≤ (F.seen files.new).faults }
        ensures loaded { (more : ℕ) × HasLoadedRows (F.seen files.old).held self.old path.now load.now result self.new (F.seen files.old).faults (F.seen files.new).faults more
            × ((F.seen files.new).asked ≡ saturating_sum more (F.seen files.old).asked) }
    {
        if self.users.len() + 1 + load.paths() as usize > MAX_USERS {
            return Err(LoaderFault::TooManyUsers);
        }
        let joined = join_all(self.alloc, files, load)?;
        match first_dangling_entry(load, &joined) {
            Some(fault) => return Err(LoaderFault::BadFile(fault)),
            None => {}
        }
        self.plan_and_start(load, path, joined)
    }

    // A program of a file begins, if it is a load file.
    fn begin<F: Files>(
        &mut self,
        files: &mut F,
        file: &[u8],
        path: &str,
    ) -> Result<Started, LoaderFault>
        requires few { length self.old.users < max_users }
        requires short { length file.now < 2 ^ 32 }
        ensures held { (F.seen files.new).held ≡ (F.seen files.old).held }
        ensures never_falls { (F.seen files.old).faults ≤ (F.seen files.new).faults }
        ensures loaded { (more : ℕ) × HasLoadedFile (F.seen files.old).held self.old path.now file.now result self.new (F.seen files.old).faults (F.seen files.new).faults more
            × ((F.seen files.new).asked ≡ saturating_sum more (F.seen files.old).asked) }
    {
        let load = load_of(self.alloc, file, false)?;
        self.join_and_start(files, &load, path)
    }

    // A program of the file at a path begins.
    fn read_and_begin<F: Files>(
        &mut self,
        files: &mut F,
        path: &str,
    ) -> Result<Started, LoaderFault>
        ensures held { (F.seen files.new).held ≡ (F.seen files.old).held }
        ensures never_falls { (F.seen files.old).faults ≤ (F.seen files.new).faults }
        ensures loaded { (reads : ℕ) × HasLoaded (F.seen files.old).held self.old path.now result self.new (F.seen files.old).faults (F.seen files.new).faults reads
            × ((F.seen files.new).asked ≡ saturating_sum reads (F.seen files.old).asked) }
    {
        if self.users.len() >= MAX_USERS {
            return Err(LoaderFault::TooManyUsers);
        }
        let bytes = read_file(self.alloc, files, path)?;
        self.begin(files, &bytes, path)
    }

    /// Loads a program: the static segments of a load file are placed, all or none, and are active then. The files of its rows are read
    /// after it, in order, before anything is placed: each is a run-time library file, and a user of its own that is attached to the
    /// program, none of whose segments is there. No file is read where 255 users were made, and no row's where there is no place for its
    /// user.
    pub fn load<F: Files>(&mut self, files: &mut F, path: &str) -> Result<Started, LoaderFault>
        ensures held { (F.seen files.new).held ≡ (F.seen files.old).held }
        ensures never_falls { (F.seen files.old).faults ≤ (F.seen files.new).faults }

        // Where the store reveals its files, and the loader agrees with them, it is the machine's step, and reads what that needs.
        ensures meets { (held : FileMap) (state : Machine) → (F.seen files.old).held ≡ Some held → Agrees held self.old state
            → Meets RoomRule held state (Load path.now) (load_reply result) self.new (F.seen files.old).faults (F.seen files.new).faults }
        ensures needed { (held : FileMap) (state : Machine) → (F.seen files.old).held ≡ Some held → Agrees held self.old state
            → MeetsReads RoomRule held state (Load path.now) (load_reply result) self.new (F.seen files.old) (F.seen files.new) }

        // Over any files this much of it holds, with how many of them were read.
        ensures loaded { (reads : ℕ) × HasLoaded (F.seen files.old).held self.old path.now result self.new (F.seen files.old).faults (F.seen files.new).faults reads
            × ((F.seen files.new).asked ≡ saturating_sum reads (F.seen files.old).asked) }
    {
        self.recall_invariant();
        self.read_and_begin(files, path)
    }
}
