//! Places of segments.

use crate::asserting::same;
use omf_cells::{Places, PlacesFault};
use std::alloc::Global;

/// What places 0 to 3 of places for two segments hold, before and after the second one is set.
fn seen(alloc: Global) -> Result<[[Option<u32>; 4]; 2], PlacesFault> {
    let mut places = Places::new(alloc, 2)?;
    let before = all_of(&places);
    places.set(2, Some(7));
    Ok([before, all_of(&places)])
}

fn all_of(places: &Places) -> [Option<u32>; 4] {
    [places.get(0), places.get(1), places.get(2), places.get(3)]
}

#[test]
fn places_are_set_one_by_one(rt: HostRuntime) {
    let after = [None, None, Some(7), None];
    same(&rt, &"places", seen(rt.alloc()), Ok([[None; 4], after]));
}
