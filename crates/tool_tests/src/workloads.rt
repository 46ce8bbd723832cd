// The loaders that workloads hand out.
use crate::files::File;
use crate::rows::all_alike;
use crate::runs::run_whole;
use std::alloc::Global;
use std::test::Fail;
use sys_loader::Loader;

/// A workload, the prints that fail, and of the loader that is handed out how many segments are looked at, the sum of their bytes, and
/// whether it has one more.
type Workload = (&'static str, &'static [u32], u16, Option<(u32, bool)>);

static WORKLOADS: [Workload; 4] = [
    // The loader that ran it is handed out, and its segments have the sum that is printed.
    ("stress 1 0", &[], 3, Some((0xD68, false))),
    ("stress 64 1", &[], 0, Some((0, true))),
    ("stress 064 0000000001", &[], 0, Some((0, true))),
    // A line that isn't printed.
    ("stress 1 0", &[1], 0, None),
];

/// What the store holds, whose first call would fail.
static KEPT: [(&str, File); 1] = [("prog", File::Of(b"kept"))];

/// Whether a user has more than `segments` segments.
fn has_more(loader: &Loader, segments: u16) -> bool {
    loader.info(0x1001, segments.wrapping_add(1)).is_ok()
}

/// The sum of the bytes of a user's active segments among the first ones.
fn sum_of(loader: &Loader, count: u16) -> u32 {
    let mut sum: u32 = 0;
    for segment in 1..=count {
        if let Ok(info) = loader.info(0x1001, segment) {
            if let Ok(bytes) = loader.bytes(0x1001, segment, 0, info.length) {
                for byte in bytes {
                    sum = sum.wrapping_add(u32::from(*byte));
                }
            }
        }
    }
    sum
}

/// Of the loader that was handed out the sum of its first segments, and whether it has one more.
fn reported(last: &Option<Loader>, segments: u16) -> Option<(u32, bool)> {
    match last {
        Some(loader) => Some((sum_of(loader, segments), has_more(loader, segments))),
        None => None,
    }
}

/// The place of the first workload that isn't so.
fn first_unlike_workload(alloc: Global, rows: &[Workload]) -> Result<Option<usize>, Fail> {
    for (place, (words, sink, segments, wanted)) in rows.iter().enumerate() {
        let (_status, last) = run_whole(alloc, words, &KEPT, &[1], sink)?;
        let found = reported(&last, *segments);
        drop(last);
        if found != *wanted {
            return Ok(Some(place));
        }
    }
    Ok(None)
}

#[test]
fn workloads_hand_out_their_loaders(rt: HostRuntime) -> Result<(), Fail> {
    all_alike(&rt, first_unlike_workload(rt.alloc(), &WORKLOADS)?);
    Ok(())
}
