// A program that is restarted over another file.
use crate::files::{File, bytes_of};
use crate::programs::{DATA_BYTE, DATA_KIND};
use crate::rows::is_well;
use crate::runs::run_whole;
use omf_io::MemoryFiles;
use std::alloc::Global;
use std::test::Fail;
use sys_loader::{Loader, LoaderFault};

/// What a restart of the first user answers.
fn restarted(files: &mut MemoryFiles, loader: &mut Loader) -> &'static str {
    match loader.restart(files, 0x1001) {
        Ok(started) if started.entry == Some(0x800) => "restarted",
        Ok(_) => "entered elsewhere",
        Err(LoaderFault::Changed { .. }) => "changed",
        Err(LoaderFault::BadFile(_)) => "bad file",
        Err(_) => "refused",
    }
}

/// Whether the data of the first user are these.
fn shows(loader: &Loader, data: &[u8]) -> bool {
    match loader.bytes(0x1001, 2, 0, 4) {
        Ok(bytes) => bytes == data,
        Err(_) => false,
    }
}

/// The program whose data is read again, and a script that leaves it without its block.
static LEFT: [(&str, File); 2] = [
    (
        "s",
        File::Of(b"banks 02 00\nload prog\npoke 1001 2 3 7F\nshutdown 1001 keep\n"),
    ),
    ("prog", File::Six(&[(DATA_KIND, 4)])),
];

/// What `prog` holds then, one after the other, and what a restart answers: the program without its change, no file, and one with another
/// byte of data.
static OTHERS: [(File, &str); 3] = [
    (File::Six(&[]), "changed"),
    (File::Of(b""), "bad file"),
    (File::Six(&[(DATA_KIND, 4), (DATA_BYTE, 0x33)]), "restarted"),
];

/// Whether restarts answer so, and the other byte is shown then.
fn over_others(alloc: Global, loader: &mut Loader) -> Result<bool, Fail> {
    let mut files = MemoryFiles::new(alloc, Vec::new(alloc));
    for (file, reported) in &OTHERS {
        let bytes = bytes_of(alloc, file)?;
        files.set("prog", &bytes)?;
        if restarted(&mut files, loader) != *reported {
            return Ok(false);
        }
    }
    Ok(shows(loader, &[0x11, 0x33, 0, 0]))
}

/// Whether restarts of the loader that a run hands out answer so.
fn left_over_others(alloc: Global) -> Result<bool, Fail> {
    let (_status, last) = run_whole(alloc, "run s", &LEFT, &[], &[])?;
    match last {
        Some(mut loader) => {
            let well = over_others(alloc, &mut loader);
            drop(loader);
            well
        }
        None => Err(Fail::new("no loader was handed out")),
    }
}

// What is kept of the headers must be as it was; the bytes are those of the file as it is.
#[test]
fn another_file_is_refused(rt: HostRuntime) -> Result<(), Fail> {
    is_well(&rt, left_over_others(rt.alloc())?);
    Ok(())
}
