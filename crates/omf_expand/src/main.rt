//! The program `omf_expand SRC MACROS..`: prints the lines of a source after expansion with 0 to 254 macro files, or its first fault.
#![tactic(auto)]

mod expand;

pub use expand::run_expand;
use omf_io::{HostFiles, HostSink};
use omf_making::Status;
use std::alloc::AllocError;
use std::env;
use std::io::{self, ErrorKind};
use std::process::ExitCode;

/// The arguments after the program's name. Where one isn't UTF-8 text, none.
fn words(rt: &HostRuntime) -> Result<Vec<String>, AllocError> {
    match collect_arguments(rt) {
        Ok(words) => Ok(words),
        Err(error) if error.kind() == ErrorKind::OutOfMemory => Err(AllocError),
        Err(_) => Ok(Vec::new(rt.alloc())),
    }
}

fn collect_arguments(rt: &HostRuntime) -> io::Result<Vec<String>> {
    let words = env::args(rt)?.skip(1).collect(rt.alloc())?;
    Ok(words)
}

fn main(rt: HostRuntime) -> ExitCode {
    let status = match words(&rt) {
        Ok(words) => {
            let mut files = HostFiles::new(&rt);
            let mut out = HostSink::new(&rt);
            run_expand(rt.alloc(), words.as_slice(), &mut files, &mut out)
        }
        Err(AllocError) => Status::Memory,
    };
    ExitCode::from(status.code())
}
