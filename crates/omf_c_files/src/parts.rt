//! What a load file has: its segments, their headers and bytes in memory, and its tables, each put where C wants it.

ghost use Rattle.std.specs.Prelude.{◌≡◌, ◌<◌, ◌≤◌, ◌^◌, length, map, Some, IfOk, IsSomeAnd};
ghost use Rattle.std.specs.List.{list_all};
ghost use Rattle.omf_format.specs.File.{segment_at};
ghost use Rattle.omf_c_files.specs.Opened.{GivesEntries, GivesExport, GivesHeader, GivesPath, IsPlaced, is_callable};

use crate::answer::{DONE, MEMORY, NO_ITEM, NO_SEGMENT, OTHER_COUNT, SMALL, write_answer};
use crate::export::{OmfExport, to_omf_export};
use crate::header::{OmfHeader, to_omf_header};
use crate::target::{OmfTarget, to_omf_target};
use omf_cells::{LoadFile, Places, PlacesFault, patch_into};
use std::alloc::Global;

/// The header of the segment with a number, from 1.
pub fn put_header(load: &LoadFile<'_>, number: u32, reported: &mut OmfHeader) -> u32
    ensures { GivesHeader number load.now result reported.old reported.new }
{
    match load.content(number) {
        Some(found) => {
            *reported = to_omf_header(&found.0.header);
            DONE
        }
        None => NO_SEGMENT,
    }
}

/// The addresses of a load file's segments, each by its number.
fn places_of(alloc: Global, addresses: &[u32]) -> Result<Places, PlacesFault>
    requires { length addresses.now < 2 ^ 32 }
    ensures { IfOk result (λ places. places ≡ map (λ a. Some a) addresses.now) }
{
    let mut places = Places::new(alloc, addresses.len() as u32)?;
    for k in 0..addresses.len() {
        places.set(k as u32 + 1, Some(addresses[k]));
    }
    Ok(places)
}

/// Writes a segment's bytes in memory into the caller's room, if they fit.
pub fn put_placed(
    alloc: Global,
    load: &LoadFile<'_>,
    number: u32,
    addresses: &[u32],
    room: &mut [u8],
    size: &mut usize,
) -> u32
    ensures { IsPlaced number addresses.now load.now result (record { items = room.old; size = size.old }) (record { items = room.new; size = size.new }) }
{
    let length = match load.content(number) {
        Some(found) => found.0.header.length as usize,
        None => return NO_SEGMENT,
    };
    if addresses.len() != load.count() as usize {
        return OTHER_COUNT;
    }
    let places = match places_of(alloc, addresses) {
        Ok(places) => places,
        Err(PlacesFault::Memory) => return MEMORY,
    };
    *size = length;
    if room.len() < length {
        return SMALL;
    }
    patch_into(load, number, &places, &mut room[..length]);
    DONE
}

/// Writes where the entries of a load file's jump table lead into the caller's room, if they fit.
pub fn put_targets(load: &LoadFile<'_>, room: &mut [OmfTarget], size: &mut usize) -> u32
    ensures { GivesEntries load.now result (record { items = room.old; size = size.old }) (record { items = room.new; size = size.new }) }
{
    let count = load.target_count();
    *size = count as usize;
    if room.len() < count as usize {
        return SMALL;
    }
    for k in 0..count {
        match load.target(k) {
            Some(target) => room[k as usize] = to_omf_target(target),
            None => unreachable!(),
        }
    }
    DONE
}

/// The path of the file with a number, from 2.
pub fn put_path(load: &LoadFile<'_>, number: u32, room: &mut [u8], size: &mut usize) -> u32
    ensures { GivesPath number load.now result (record { items = room.old; size = size.old }) (record { items = room.new; size = size.new }) }
{
    if number < 2 {
        return NO_ITEM;
    }
    match load.path(number - 2) {
        Some(path) => write_answer(path, room, size),
        None => NO_ITEM,
    }
}

/// The name at a place among those that the file exports, from 0, and the place that it represents.
pub fn put_export(
    load: &LoadFile<'_>,
    place: u32,
    room: &mut [u8],
    size: &mut usize,
    reported: &mut OmfExport,
) -> u32
    ensures { GivesExport place load.now result (record { items = room.old; size = size.old }, reported.old) (record { items = room.new; size = size.new }, reported.new) }
{
    let Some(export) = load.export(place) else {
        return NO_ITEM;
    };
    let status = write_answer(export.name, room, size);
    if status == DONE {
        *reported = to_omf_export(&export);
    }
    status
}

/// Whether the segment with a number, from 1, is dynamic and isn't skipped.
fn is_callable(load: &LoadFile<'_>, number: u32) -> bool
    requires { (1 ≤ number) × (number ≤ length load.now) }
    ensures { IsSomeAnd (segment_at load.now number) (λ s. result ≡ is_callable s) }
{
    match load.content(number) {
        Some(found) => found.0.header.kind.is_dynamic() && !found.0.header.kind.is_skip(),
        None => unreachable!(),
    }
}

/// Whether all segments are dynamic, and none is skipped.
pub fn is_runtime(load: &LoadFile<'_>) -> bool
    ensures { result ≡ list_all is_callable load.now }
{
    for k in 0..load.count() {
        if !is_callable(load, k + 1) {
            return false;
        }
    }
    true
}
