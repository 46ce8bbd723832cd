//! What is made before a program begins, so that nothing is placed when out of memory.

ghost use Rattle.std.specs.Prelude.{◌≡◌, length, IfOk};
ghost use Rattle.loader_users.specs.Planned.{IsPlan};

use crate::file::segments_of;
use crate::place::wants_of;
use crate::user::UserSegment;
use iigs_meaning::{Handle, Want};
use omf_cells::{LoadFile, Places, PlacesFault};
use std::alloc::{AllocError, Global};

/// What a program needs beside its blocks.
#[derive(Drop)]
pub struct LoadPlan {
    /// The segments, none of which has a handle.
    pub segments: Vec<UserSegment>,
    /// What the static ones ask of their places, in order.
    pub wants: Vec<Want>,
    /// Room for a handle for each want.
    pub handles: Vec<Handle>,
    /// Room for an address for each segment.
    pub places: Places,
}

fn no_handles(alloc: Global, count: usize) -> Result<Vec<Handle>, AllocError>
    ensures { IfOk result (λ handles. length handles.items ≡ count) }
{
    let none = Handle {
        slot: 0,
        generation: 0,
    };
    vec![in alloc; none; count]
}

/// What a program of this load file needs.
pub fn plan_of(alloc: Global, load: &LoadFile<'_>) -> Result<LoadPlan, AllocError>
    ensures { IfOk result (IsPlan load.now) }
{
    let segments = segments_of(alloc, load)?;
    let wants = wants_of(alloc, &segments)?;
    let handles = no_handles(alloc, wants.len())?;
    let places = match Places::new(alloc, load.count()) {
        Ok(places) => places,
        Err(PlacesFault::Memory) => return Err(AllocError),
    };
    Ok(LoadPlan {
        segments,
        wants,
        handles,
        places,
    })
}
