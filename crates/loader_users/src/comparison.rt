//! Whether a file is the one that was loaded.

ghost use Rattle.std.specs.Prelude.{◌≡◌, ◌≢◌, ◌<◌, ◌^◌, ℕ, List, map, length, true, false, IfOk, IfErr};
ghost use Rattle.load_meaning.specs.Loadable.{IsLoadable};
ghost use Rattle.loader_machine.specs.Heads.{head_of};
ghost use Rattle.loader_users.specs.Changed as activating;
ghost use Rattle.loader_users.specs.Changed.{IsChanged};

use crate::file::head_from;
use crate::user::UserSegment;
use loader_machine::{Facts, LoaderFault, SegmentHead};
use omf_cells::LoadFile;

/// What is reported for a segment of a file with `count` segments.
fn facts_of(count: u32, segment: u32, head: &SegmentHead) -> Facts
    ensures { result ≡ activating.facts_of count segment head.now }
{
    Facts {
        count,
        segment,
        length: head.length,
        kind: head.kind,
        bank_size: head.bank_size,
        align: head.align,
        org: head.org,
        entry: head.entry,
    }
}

/// What is reported for a file of which only the number of segments has changed.
fn count_facts(count: u32) -> Facts
    ensures { result ≡ activating.count_facts count }
{
    Facts {
        count,
        segment: 0,
        length: 0,
        kind: 0,
        bank_size: 0,
        align: 0,
        org: 0,
        entry: 0,
    }
}

/// Whether two headers are the same.
fn is_same(one: &SegmentHead, other: &SegmentHead) -> bool
    ensures yes { result ≡ true → one.now ≡ other.now }
    ensures no { result ≡ false → one.now ≢ other.now }
{
    one.length == other.length
        && one.kind == other.kind
        && one.bank_size == other.bank_size
        && one.align == other.align
        && one.org == other.org
        && one.entry == other.entry
}

/// Compares a load file with what is kept of the one that was loaded, segment by segment and then by their number.
pub fn compare(load: &LoadFile<'_>, segments: &Vec<UserSegment>) -> Result<(), LoaderFault>
    requires taken { (file : List ℕ) × IsLoadable file load.now }
    requires kept { length segments.now.items < 2 ^ 16 }
    ensures same { IfOk result (λ _. map head_of load.now ≡ map (λ s. s.head) segments.now.items) }
    ensures changed { IfErr result (IsChanged (map (λ s. s.head) segments.now.items) (map head_of load.now)) }
{
    let kept = segments.len() as u32;
    let found = load.count();
    'places: for place in 0..kept.min(found) {
        let head = match load.header(place + 1) {
            Some(header) => head_from(header),
            None => unreachable!(),
        };
        let was = segments[place as usize].head;
        if !is_same(&was, &head) {
            return Err(LoaderFault::Changed {
                kept: facts_of(kept, place + 1, &was),
                found: facts_of(found, place + 1, &head),
            });
        }
    }
    if kept != found {
        return Err(LoaderFault::Changed {
            kept: count_facts(kept),
            found: count_facts(found),
        });
    }
    Ok(())
}
