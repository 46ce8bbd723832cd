//! The search for the least number of purges after which a slide makes room.

ghost use Rattle.std.specs.Prelude.{◌≡◌, ℕ, false, IsTrue, MatchOption};
ghost use Rattle.iigs_meaning.specs.Fits.{IsWant};
ghost use Rattle.iigs_meaning.specs.Slide.{AreSettled};
ghost use Rattle.iigs_compact_memory.specs.Needs.{FitsSlid, NoneAfter, NeedsPurges};

use crate::purge_bound::bound_of_purges;
use iigs_meaning::Want;
use iigs_places::BlockPlaces;

// Whether a want fits somewhere once `count` blocks are purged and the movable ones are slid down, which is done in `trial` then.
fn fits_after(places: &BlockPlaces, trial: &mut BlockPlaces, want: &Want, count: u32) -> bool
    requires want { IsWant want.now }
    requires banks { trial.old.banks ≡ places.now.banks }
    requires settled { AreSettled places.now.banks places.now.slots }
    ensures yes { IsTrue result → FitsSlid places.now.banks places.now.slots want.now count trial.new.slots }
    ensures no { result ≡ false → NoneAfter places.now.banks places.now.slots want.now count }
    ensures banks { trial.new.banks ≡ places.now.banks }
{
    trial.start_from(places, 0, false);
    trial.purge_first(count);
    if !trial.fits_slid(want) {
        return false;
    }
    trial.slide();
    trial.has_room(want)
}

/// The least number of purges after which a want fits somewhere once the movable blocks are slid down, which is done in
/// `trial` then.
pub fn least_purges(places: &BlockPlaces, trial: &mut BlockPlaces, want: &Want) -> Option<u32>
    requires want { IsWant want.now }
    requires banks { trial.old.banks ≡ places.now.banks }
    requires settled { AreSettled places.now.banks places.now.slots }
    ensures needs { MatchOption result ((count : ℕ) → NoneAfter places.now.banks places.now.slots want.now count)
        (λ count. NeedsPurges places.now.banks places.now.slots want.now count trial.new.slots) }
    ensures banks { trial.new.banks ≡ trial.old.banks }
{
    let Some(least) = bound_of_purges(places, trial, want) else {
        return None;
    };
    let most = places.purgeable();
    for count in least..most + 1 {
        if fits_after(places, trial, want, count) {
            return Some(count);
        }
    }
    None
}
