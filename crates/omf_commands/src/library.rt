//! `lib`: the library of object files.

ghost use Rattle.std.specs.Prelude.{◌≡◌, ◌≢◌, ◌<◌, ◌≤◌, ◌^◌, length, map, All, IfOk, IsTrue, MatchOption};
ghost use Rattle.lib_dict.specs.Made.{given_file};
ghost use Rattle.omf_making.specs.Words.{are_paths, words_of};
ghost use Rattle.omf_commands.specs.LibCauses.{lib_cause_name};
ghost use Rattle.omf_commands.specs.Library.{given_of, LibMakes, ReportsFault};
ghost use Rattle.omf_making.specs.Made.{all_bytes, made_of, AreShort};

use lib_dict::{LibCause, LibFault, Member, make_library};
use omf_base::Name;
use omf_making::{Maker, Making, refused_line};
use std::alloc::{AllocError, Global};

/// The command with its inputs, whose paths are the names of the files in the library.
#[derive(Drop)]
pub struct Lib<'a> {
    pub inputs: &'a [String],
    ghost paths: { IsTrue (are_paths 1 255 (words_of inputs.now)) },
}

/// A file under its path.
fn member_of(alloc: Global, path: &str, file: &[u8]) -> Result<Member, AllocError>
    requires { length path.now ≤ 255 }
    ensures name { IfOk result (λ member. member.name ≡ path.now) }
    ensures bytes { IfOk result (λ member. member.bytes.items ≡ file.now) }
{
    let name = Vec::from_slice(alloc, path.as_bytes())?;
    let bytes = Vec::from_slice(alloc, file)?;
    Ok(Member {
        name: Name::from_vec(name),
        bytes,
    })
}

/// The files under their paths.
fn members_of(alloc: Global, paths: &[String], files: &[Vec<u8>]) -> Result<Vec<Member>, AllocError>
    requires paths { IsTrue (are_paths 1 255 (words_of paths.now)) }
    requires short { AreShort (all_bytes files.now) }
    ensures are { IfOk result (λ members. map given_file members.items ≡ given_of (words_of paths.now) (all_bytes files.now)) }
    ensures few { IfOk result (λ members. length members.items ≤ 255) }
    ensures short { IfOk result (λ members. All (λ m. length m.bytes.items < 2 ^ 32) members.items) }
{
    let mut members = Vec::new(alloc);
    'paths: for path in paths {
        match files.get(members.len()) {
            Some(file) => members.push(member_of(alloc, path.as_str(), file.as_slice())?)?,
            None => return Ok(members),
        }
    }
    Ok(members)
}

/// The name of a cause, as it is printed. `Memory` has none, and no other cause is without one.
fn cause_name(cause: LibCause) -> Option<&'static str>
    ensures { MatchOption result (cause ≡ LibCause.Memory) (λ name. (cause ≢ LibCause.Memory) × (name.now ≡ lib_cause_name cause)) }
{
    match cause {
        LibCause::Truncated => Some("Truncated"),
        LibCause::BadHeader => Some("BadHeader"),
        LibCause::Unsupported => Some("Unsupported"),
        LibCause::BadRecord => Some("BadRecord"),
        LibCause::TooLong => Some("TooLong"),
        LibCause::Memory => None,
    }
}

/// The line that says why no library is made, unless out of memory.
fn refusal(alloc: Global, fault: LibFault) -> Result<Making, AllocError>
    ensures { IfOk result (λ made. ReportsFault fault (made_of made)) }
{
    match cause_name(fault.cause) {
        Some(name) => {
            let line = refused_line(alloc, name, None, fault.spot);
            Ok(Making::Refusal(line.map_err(|_| AllocError)?))
        }
        None => Err(AllocError),
    }
}

/// The library of the files under their paths, or the line that says why there is none.
fn make_of(alloc: Global, paths: &[String], files: &[Vec<u8>]) -> Result<Making, AllocError>
    requires paths { IsTrue (are_paths 1 255 (words_of paths.now)) }
    requires short { AreShort (all_bytes files.now) }
    ensures { IfOk result (λ made. LibMakes (words_of paths.now) (all_bytes files.now) (made_of made)) }
{
    let members = members_of(alloc, paths, files)?;
    match make_library(alloc, &members) {
        Ok(bytes) => Ok(Making::Bytes(bytes)),
        Err(fault) => refusal(alloc, fault),
    }
}

impl Maker for Lib<'_> {
    ghost use Rattle.omf_making.specs.Words.{words_of};
    ghost use Rattle.omf_commands.specs.Library.{LibMakes};

    ghost makes = { λ lib files made. LibMakes (words_of lib.inputs.now) files made };

    fn make(&self, alloc: Global, files: Vec<Vec<u8>>) -> Result<Making, AllocError> {
        make_of(alloc, self.inputs, &files)
    }
}
