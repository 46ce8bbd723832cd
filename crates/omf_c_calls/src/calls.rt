//! The loader's calls, for the loader in a caller's struct. Status MISUSED: no loader is there.

ghost use Rattle.std.specs.Prelude.{◌≡◌};
ghost use Rattle.omf_c_loader.specs.Held.{inside};
ghost use Rattle.omf_c_calls.specs.Answers.{Answers, entered_view, started_view};
ghost use Rattle.omf_c_calls.specs.Calls.{Follows, LoadsSegment, Pokes, Purges, Restarts, ShutsDown, Unloads};

use crate::answers::{
    OmfEntered, OmfStarted, answer_done, answer_entered, answer_number, answer_started,
};
use omf_c_loader::{HandedFiles, MISUSED, OmfLoader, OmfRefusal, OmfStored};
use std::alloc::Global;

/// Writes a byte into an active segment of a user that runs, as `Loader::poke`.
pub fn poke(
    alloc: Global,
    holder: &mut OmfLoader,
    user: u16,
    segment: u16,
    at: u32,
    byte: u8,
    refusal: &mut OmfRefusal,
) -> u32
    ensures { Answers (λ nothing. nothing) (Pokes user segment at byte) (inside holder.old) (inside holder.new) result tt tt refusal.old refusal.new }
{
    let Some(mut loader) = holder.take(alloc) else {
        return MISUSED;
    };
    let done = loader.poke(user, segment, at, byte);
    holder.put(loader);
    answer_done(done, refusal)
}

/// Lets an active dynamic segment go, as `Loader::unload_segment`.
pub fn unload_segment(
    alloc: Global,
    holder: &mut OmfLoader,
    user: u16,
    segment: u16,
    refusal: &mut OmfRefusal,
) -> u32
    ensures { Answers (λ nothing. nothing) (Unloads user segment) (inside holder.old) (inside holder.new) result tt tt refusal.old refusal.new }
{
    let Some(mut loader) = holder.take(alloc) else {
        return MISUSED;
    };
    let done = loader.unload_segment(user, segment);
    holder.put(loader);
    answer_done(done, refusal)
}

/// Shuts a program down, and keeps it or drops it, as `Loader::shut_down`.
pub fn shut_down(
    alloc: Global,
    holder: &mut OmfLoader,
    user: u16,
    keep: bool,
    refusal: &mut OmfRefusal,
) -> u32
    ensures { Answers (λ nothing. nothing) (ShutsDown user keep) (inside holder.old) (inside holder.new) result tt tt refusal.old refusal.new }
{
    let Some(mut loader) = holder.take(alloc) else {
        return MISUSED;
    };
    let done = loader.shut_down(user, keep);
    holder.put(loader);
    answer_done(done, refusal)
}

/// Empties the purgeable blocks of a user, and counts them, as `Loader::purge`.
pub fn purge(
    alloc: Global,
    holder: &mut OmfLoader,
    user: u16,
    count: &mut u32,
    refusal: &mut OmfRefusal,
) -> u32
    ensures { Answers (λ n. n) (Purges user) (inside holder.old) (inside holder.new) result count.old count.new refusal.old refusal.new }
{
    let Some(mut loader) = holder.take(alloc) else {
        return MISUSED;
    };
    let counted = loader.purge(user);
    holder.put(loader);
    answer_number(counted, count, refusal)
}

/// Makes a dynamic segment active, as `Loader::load_segment` over the files that are handed in, and reports its address.
pub fn load_segment(
    alloc: Global,
    holder: &mut OmfLoader,
    files: &[OmfStored<'_>],
    user: u16,
    segment: u16,
    address: &mut u32,
    refusal: &mut OmfRefusal,
) -> u32
    ensures { Answers (λ n. n) (LoadsSegment files.now user segment) (inside holder.old) (inside holder.new) result address.old address.new refusal.old refusal.new }
{
    let Some(mut loader) = holder.take(alloc) else {
        return MISUSED;
    };
    let mut store = HandedFiles { files, asked: 0 };
    let made = loader.load_segment(&mut store, user, segment);
    let HandedFiles { files: _, asked: _ } = store;
    holder.put(loader);
    answer_number(made, address, refusal)
}

/// Follows a JSL, as `Loader::jsl` over the files that are handed in.
pub fn jsl(
    alloc: Global,
    holder: &mut OmfLoader,
    files: &[OmfStored<'_>],
    user: u16,
    segment: u16,
    at: u32,
    entered: &mut OmfEntered,
    refusal: &mut OmfRefusal,
) -> u32
    ensures { Answers entered_view (Follows files.now user segment at) (inside holder.old) (inside holder.new) result entered.old entered.new refusal.old refusal.new }
{
    let Some(mut loader) = holder.take(alloc) else {
        return MISUSED;
    };
    let mut store = HandedFiles { files, asked: 0 };
    let place = loader.jsl(&mut store, user, segment, at);
    let HandedFiles { files: _, asked: _ } = store;
    holder.put(loader);
    answer_entered(place, entered, refusal)
}

/// Restarts a dormant program, as `Loader::restart` over the files that are handed in.
pub fn restart(
    alloc: Global,
    holder: &mut OmfLoader,
    files: &[OmfStored<'_>],
    user: u16,
    started: &mut OmfStarted,
    refusal: &mut OmfRefusal,
) -> u32
    ensures { Answers started_view (Restarts files.now user) (inside holder.old) (inside holder.new) result started.old started.new refusal.old refusal.new }
{
    let Some(mut loader) = holder.take(alloc) else {
        return MISUSED;
    };
    let mut store = HandedFiles { files, asked: 0 };
    let begun = loader.restart(&mut store, user);
    let HandedFiles { files: _, asked: _ } = store;
    holder.put(loader);
    answer_started(begun, started, refusal)
}
