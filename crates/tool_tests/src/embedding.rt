// The loader in the hands of others: that of a run, and the example of docs/LOADER.md, which embeds it. In the program of six segments the
// JSL at offset 4 of segment 1 calls the table's one entry, which leads to the dynamic segment 3, offset 1.
use crate::files::{File, bytes_of};
use crate::rows::{all_alike, is_well};
use crate::runs::run_whole;
use omf_cli::Status;
use omf_io::MemoryFiles;
use std::alloc::Global;
use std::test::Fail;
use sys_loader::{Entered, Loader, LoaderFault};

/// The program that is run.
static PROGRAM: File = File::Six(&[]);

/// Runs the program at `prog`, shuts it down and restarts it: where its JSL leads, before and after.
fn run_twice(
    loader: &mut Loader,
    files: &mut MemoryFiles,
) -> Result<(Entered, Entered), LoaderFault> {
    let started = loader.load(files, "prog")?;
    let first = loader.jsl(files, started.user, 1, 4)?;
    loader.shut_down(started.user, true)?;
    loader.restart(files, started.user)?;
    let again = loader.jsl(files, started.user, 1, 4)?;
    loader.shut_down(started.user, false)?;
    Ok((first, again))
}

/// Where the JSL leads, before and after, with a new loader.
fn entered_twice(
    alloc: Global,
    files: &mut MemoryFiles,
) -> Result<(Entered, Entered), LoaderFault> {
    match Loader::new(alloc, &[0x02, 0x00]) {
        Ok(mut loader) => {
            let entered = run_twice(&mut loader, files);
            drop(loader);
            entered
        }
        Err(_) => Err(LoaderFault::Memory),
    }
}

/// The place that the JSL leads to.
static ENTERED: Entered = Entered {
    user: 0x1001,
    segment: 3,
    offset: 1,
    address: 0x82B,
};

/// Whether it leads there twice, and the file is read for the load and for the first call alone; the segment is idle while the program rests.
fn runs_twice(alloc: Global) -> Result<bool, Fail> {
    let mut files = MemoryFiles::new(alloc, Vec::new(alloc));
    files.set("prog", &bytes_of(alloc, &PROGRAM)?)?;
    let is_entered = entered_twice(alloc, &mut files) == Ok((ENTERED, ENTERED));
    Ok(is_entered && (files.faults(), files.asked()) == (0, 2))
}

/// Scripts over the program, prints that fail, how the runs end, and, where they hand out a loader, the byte that this shows first in segment
/// 1 of the first user.
static HANDED_OUT: [(&[u8], &[u32], Status, Option<Option<u8>>); 4] = [
    (
        b"banks 00\nload prog\n",
        &[],
        Status::Done,
        Some(Some(0xAF)),
    ),
    (b"; nothing\n", &[], Status::Done, None),
    (b"banks 00\nlod prog\n", &[], Status::Refused, None),
    (b"banks 00\nload prog\n", &[2], Status::CannotPrint, None),
];

fn first_byte(loader: &Loader) -> Option<u8> {
    match loader.bytes(0x1001, 1, 0, 1) {
        Ok([byte]) => Some(*byte),
        _ => None,
    }
}

/// How a run of a script ends, and what the loader shows.
fn handed_out(
    alloc: Global,
    script: &[u8],
    sink: &[u32],
) -> Result<(Status, Option<Option<u8>>), Fail> {
    let held = [("s", File::Of(script)), ("prog", PROGRAM)];
    let (status, last) = run_whole(alloc, "run s", &held, &[], sink)?;
    let byte = match &last {
        Some(loader) => Some(first_byte(loader)),
        None => None,
    };
    drop(last);
    Ok((status, byte))
}

/// The place of the first script with which this isn't so.
fn first_unlike_loader(
    alloc: Global,
    rows: &[(&[u8], &[u32], Status, Option<Option<u8>>)],
) -> Result<Option<usize>, Fail> {
    for (place, (script, sink, status, byte)) in rows.iter().enumerate() {
        if handed_out(alloc, script, sink)? != (*status, *byte) {
            return Ok(Some(place));
        }
    }
    Ok(None)
}

#[test]
fn loaders_are_used(rt: HostRuntime) -> Result<(), Fail> {
    let alloc = rt.alloc();
    is_well(&rt, runs_twice(alloc)?);
    all_alike(&rt, first_unlike_loader(alloc, &HANDED_OUT)?);
    Ok(())
}
