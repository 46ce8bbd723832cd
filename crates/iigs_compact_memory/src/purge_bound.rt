//! A bound of the search for the least number of purges: with fewer the want doesn't even fit beside the blocks that no slide moves.

ghost use Rattle.std.specs.Prelude.{◌≡◌, ◌<◌, ◌≤◌, ℕ, MatchOption, false};
ghost use Rattle.iigs_meaning.specs.Fits.{IsWant};
ghost use Rattle.iigs_meaning.specs.Slide.{AreSettled};
ghost use Rattle.iigs_compact_memory.specs.Needs.{NoneAfter};

use iigs_meaning::Want;
use iigs_places::BlockPlaces;

// Whether a want fits somewhere beside the blocks that no slide moves, once `count` blocks are purged. `trial` is scratch space.
fn may_fit(places: &BlockPlaces, trial: &mut BlockPlaces, want: &Want, count: u32) -> bool
    requires want { IsWant want.now }
    requires banks { trial.old.banks ≡ places.now.banks }
    requires settled { AreSettled places.now.banks places.now.slots }
    ensures no { result ≡ false → (fewer : ℕ) → fewer ≤ count → NoneAfter places.now.banks places.now.slots want.now fewer }
    ensures banks { trial.new.banks ≡ places.now.banks }
{
    places.know_arranged();
    trial.start_from(places, 0, false);
    trial.purge_first(count);
    trial.may_fit(want)
}

/// A number of purges, with fewer than which no slide makes room for a want; none where no number lets one make it. `trial` is
/// scratch space.
pub fn bound_of_purges(places: &BlockPlaces, trial: &mut BlockPlaces, want: &Want) -> Option<u32>
    requires want { IsWant want.now }
    requires banks { trial.old.banks ≡ places.now.banks }
    requires settled { AreSettled places.now.banks places.now.slots }
    ensures none { MatchOption result ((count : ℕ) → NoneAfter places.now.banks places.now.slots want.now count)
        (λ least. (count : ℕ) → count < least → NoneAfter places.now.banks places.now.slots want.now count) }
    ensures banks { trial.new.banks ≡ places.now.banks }
{
    places.know_arranged();
    if places.most_room() < want.size {
        return None;
    }
    let mut enough = places.purgeable();
    if !may_fit(places, trial, want, enough) {
        return None;
    }
    let mut least = 0;
    while least < enough {
        let middle = least + (enough - least) / 2;
        if may_fit(places, trial, want, middle) {
            enough = middle;
        } else {
            least = middle + 1;
        }
    }
    Some(least)
}
