//! Commands on users and their segments: each is given to the loader, and the line of its reply made.

ghost use Rattle.std.specs.Prelude.{◌≡◌, true};
ghost use Rattle.omf_io.specs.Files.{StoreSeen};
ghost use Rattle.loader_machine.specs.Commands as machine;
ghost use Rattle.loader_machine.specs.Script.{is_word};
ghost use Rattle.loader_replies.specs.Answered.{HasLine};

use crate::replies::{
    active_line, counted_line, done_line, entered_line, info_line, refusal_line, shown_line,
    started_line, where_line,
};
use omf_base::{Line, LineFault, Name};
use omf_io::Files;
use std::alloc::Global;
use std::str;
use sys_loader::Loader;

/// The path that a word of a script names.
fn path_of(word: &Name) -> &str
    requires { is_word word.now ≡ true }
    ensures { result.now ≡ word.now }
{
    match str::from_utf8(word.bytes()) {
        Ok(path) => path,
        Err(_) => unreachable!(),
    }
}

/// Loads a file.
pub fn load<F: Files>(
    alloc: Global,
    path: &Name,
    loader: &mut Loader,
    files: &mut F,
) -> Result<Line, LineFault>
    requires { is_word path.now ≡ true }
    ensures { HasLine result (machine.Load path.now) loader.old loader.new (F.seen files.old) (F.seen files.new) }
{
    match loader.load(files, path_of(path)) {
        Ok(started) => started_line(alloc, started),
        Err(fault) => refusal_line(alloc, fault),
    }
}

/// Makes a user's dynamic segment active.
pub fn load_segment<F: Files>(
    alloc: Global,
    user: u16,
    segment: u16,
    loader: &mut Loader,
    files: &mut F,
) -> Result<Line, LineFault>
    ensures { HasLine result (machine.LoadSegment user segment) loader.old loader.new (F.seen files.old) (F.seen files.new) }
{
    match loader.load_segment(files, user, segment) {
        Ok(address) => active_line(alloc, segment, address),
        Err(fault) => refusal_line(alloc, fault),
    }
}

/// Follows a JSL in a user's segment.
pub fn jsl<F: Files>(
    alloc: Global,
    user: u16,
    segment: u16,
    at: u32,
    loader: &mut Loader,
    files: &mut F,
) -> Result<Line, LineFault>
    ensures { HasLine result (machine.Jsl user segment at) loader.old loader.new (F.seen files.old) (F.seen files.new) }
{
    match loader.jsl(files, user, segment, at) {
        Ok(place) => entered_line(alloc, place),
        Err(fault) => refusal_line(alloc, fault),
    }
}

/// Restarts a dormant program.
pub fn restart<F: Files>(
    alloc: Global,
    user: u16,
    loader: &mut Loader,
    files: &mut F,
) -> Result<Line, LineFault>
    ensures { HasLine result (machine.Restart user) loader.old loader.new (F.seen files.old) (F.seen files.new) }
{
    match loader.restart(files, user) {
        Ok(started) => started_line(alloc, started),
        Err(fault) => refusal_line(alloc, fault),
    }
}

/// Lets a user's dynamic segment go.
pub fn unload_segment(
    alloc: Global,
    user: u16,
    segment: u16,
    loader: &mut Loader,
) -> Result<Line, LineFault>
    ensures { (store : StoreSeen) → HasLine result (machine.UnloadSegment user segment) loader.old loader.new store store }
{
    done_line(alloc, loader.unload_segment(user, segment))
}

/// Shuts a program down.
pub fn shut_down(
    alloc: Global,
    user: u16,
    keep: bool,
    loader: &mut Loader,
) -> Result<Line, LineFault>
    ensures { (store : StoreSeen) → HasLine result (machine.ShutDown user keep) loader.old loader.new store store }
{
    done_line(alloc, loader.shut_down(user, keep))
}

/// Empties a user's purgeable blocks.
pub fn purge(alloc: Global, user: u16, loader: &mut Loader) -> Result<Line, LineFault>
    ensures { (store : StoreSeen) → HasLine result (machine.Purge user) loader.old loader.new store store }
{
    match loader.purge(user) {
        Ok(count) => counted_line(alloc, count),
        Err(fault) => refusal_line(alloc, fault),
    }
}

/// Writes a byte into a user's segment.
pub fn poke(
    alloc: Global,
    user: u16,
    segment: u16,
    at: u32,
    byte: u8,
    loader: &mut Loader,
) -> Result<Line, LineFault>
    ensures { (store : StoreSeen) → HasLine result (machine.Poke user segment at byte) loader.old loader.new store store }
{
    done_line(alloc, loader.poke(user, segment, at, byte))
}

/// Shows bytes of a user's segment.
pub fn bytes(
    alloc: Global,
    user: u16,
    segment: u16,
    at: u32,
    count: u32,
    loader: &Loader,
) -> Result<Line, LineFault>
    ensures { (store : StoreSeen) → HasLine result (machine.Bytes user segment at count) loader.now loader.now store store }
{
    match loader.bytes(user, segment, at, count) {
        Ok(bytes) => shown_line(alloc, bytes),
        Err(fault) => refusal_line(alloc, fault),
    }
}

/// Reports where an address lies.
pub fn where_(alloc: Global, address: u32, loader: &Loader) -> Result<Line, LineFault>
    ensures { (store : StoreSeen) → HasLine result (machine.Where address) loader.now loader.now store store }
{
    where_line(alloc, loader.locate(address))
}

/// Reports what is known of a user's segment.
pub fn info(alloc: Global, user: u16, segment: u16, loader: &Loader) -> Result<Line, LineFault>
    ensures { (store : StoreSeen) → HasLine result (machine.Info user segment) loader.now loader.now store store }
{
    match loader.info(user, segment) {
        Ok(info) => info_line(alloc, info),
        Err(fault) => refusal_line(alloc, fault),
    }
}
