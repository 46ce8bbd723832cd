//! The program `omf_map`: prints the map of the link of files, or their first fault. `link FILE..`, `rtl FILE..` and `linkrt K FILE..` say which
//! link, as they do to `omf`.
#![tactic(auto)]

mod form;
mod making;
mod map;

pub use map::run_map;
use omf_io::{HostFiles, HostSink};
use omf_making::Status;
use std::alloc::AllocError;
use std::env;
use std::io::{self, ErrorKind};
use std::process::ExitCode;

/// The arguments after the program's name. Where one isn't UTF-8 text, none.
fn words(rt: &HostRuntime) -> Result<Vec<String>, AllocError> {
    match collect_arguments(rt) {
        Ok(words) => Ok(words),
        Err(error) if error.kind() == ErrorKind::OutOfMemory => Err(AllocError),
        Err(_) => Ok(Vec::new(rt.alloc())),
    }
}

fn collect_arguments(rt: &HostRuntime) -> io::Result<Vec<String>> {
    let words = env::args(rt)?.skip(1).collect(rt.alloc())?;
    Ok(words)
}

fn main(rt: HostRuntime) -> ExitCode {
    let status = match words(&rt) {
        Ok(words) => {
            let mut files = HostFiles::new(&rt);
            let mut out = HostSink::new(&rt);
            run_map(rt.alloc(), words.as_slice(), &mut files, &mut out)
        }
        Err(AllocError) => Status::Memory,
    };
    ExitCode::from(status.code())
}
