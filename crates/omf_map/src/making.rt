//! The map of the link of files.

ghost use Rattle.std.specs.Prelude.{◌≡◌, ◌≤◌, ◌-◌, length, take, drop, IfOk, IsTrue};
ghost use Rattle.link_resolve.specs.Resolved.{given_of, FewGiven, HavePaths};
ghost use Rattle.link_resolve.specs.Runtimes.{files_of};
ghost use Rattle.omf_making.specs.Words.{are_paths, words_of};
ghost use Rattle.omf_making.specs.Steps.{are_printing};
ghost use Rattle.omf_making.specs.Made.{all_bytes, made_of, AreShort};
ghost use Rattle.omf_cli.specs.Link.{given_alone, given_with};
ghost use Rattle.omf_cli.specs.Steps.{under_paths};
ghost use Rattle.omf_map.specs.Mapped.{MapMakes};

use lib_dict::Member;
use link_map::map_files;
use link_meaning::LinkForm;
use omf_base::Name;
use omf_cli::refusal;
use omf_making::{Maker, Making};
use std::alloc::{AllocError, Global};

/// All files are inputs, and are linked in this form.
#[derive(Drop)]
pub struct Map {
    pub form: LinkForm,
}

/// A program of which the last files are run-time library files with these paths.
#[derive(Drop)]
pub struct MapRt<'a> {
    pub runtimes: &'a [String],
    ghost paths: { IsTrue (are_paths 1 16 (words_of runtimes.now)) },
    ghost printing: { IsTrue (are_printing (words_of runtimes.now)) },
}

/// The map of what is given, or the line that says why there is none.
fn make_of(
    alloc: Global,
    inputs: &Vec<Vec<u8>>,
    runtimes: &Vec<Member>,
    form: LinkForm,
) -> Result<Making, AllocError>
    requires few { FewGiven (given_of inputs.now.items runtimes.now.items form) }
    requires paths { HavePaths (given_of inputs.now.items runtimes.now.items form) }
    ensures { IfOk result (λ made. MapMakes (given_of inputs.now.items runtimes.now.items form) (made_of made)) }
{
    match map_files(alloc, inputs, runtimes, form) {
        Ok(text) => Ok(Making::Bytes(text.into_bytes())),
        Err(fault) => refusal(alloc, fault),
    }
}

/// A file under its path.
fn under_path(alloc: Global, path: &str, bytes: Vec<u8>) -> Result<Member, AllocError>
    requires { length path.now ≤ 255 }
    ensures name { IfOk result (λ member. member.name ≡ path.now) }
    ensures bytes { IfOk result (λ member. member.bytes.items ≡ bytes.items) }
{
    let name = Vec::from_slice(alloc, path.as_bytes())?;
    Ok(Member {
        name: Name::from_vec(name),
        bytes,
    })
}

/// The files under their paths.
fn under_paths(
    alloc: Global,
    paths: &[String],
    files: Vec<Vec<u8>>,
) -> Result<Vec<Member>, AllocError>
    requires { IsTrue (are_paths 1 16 (words_of paths.now)) }
    ensures { IfOk result (λ members. files_of members.items ≡ under_paths (words_of paths.now) (all_bytes files.items)) }
{
    let mut members = Vec::new(alloc);
    let mut files = files.into_iter();
    'paths: for path in paths {
        match files.next() {
            Some(bytes) => members.push(under_path(alloc, path.as_str(), bytes)?)?,
            None => return Ok(members),
        }
    }
    Ok(members)
}

/// The files but the last `count`, and the last `count`.
fn split_last(
    mut files: Vec<Vec<u8>>,
    count: usize,
) -> Result<(Vec<Vec<u8>>, Vec<Vec<u8>>), AllocError>
    ensures front { IfOk result (λ parts. parts.0.items ≡ take (length files.items - count) files.items) }
    ensures following { IfOk result (λ parts. parts.1.items ≡ drop (length files.items - count) files.items) }
{
    let following = files.split_off(files.len().saturating_sub(count))?;
    Ok((files, following))
}

/// The map of all files.
fn make_alone(alloc: Global, files: &Vec<Vec<u8>>, form: LinkForm) -> Result<Making, AllocError>
    requires short { AreShort (all_bytes files.now.items) }
    requires few { length files.now.items ≤ 255 }
    ensures { IfOk result (λ made. MapMakes (given_alone form (all_bytes files.now.items)) (made_of made)) }
{
    let runtimes = Vec::new(alloc);
    make_of(alloc, files, &runtimes, form)
}

/// The map of a program of files, of which the last are run-time library files with these paths.
fn make_with(alloc: Global, files: Vec<Vec<u8>>, paths: &[String]) -> Result<Making, AllocError>
    requires short { AreShort (all_bytes files.items) }
    requires few { length files.items ≤ 255 }
    requires paths { IsTrue (are_paths 1 16 (words_of paths.now)) }
    requires printing { IsTrue (are_printing (words_of paths.now)) }
    ensures { IfOk result (λ made. MapMakes (given_with (words_of paths.now) (all_bytes files.items)) (made_of made)) }
{
    let (inputs, following) = split_last(files, paths.len())?;
    let runtimes = under_paths(alloc, paths, following)?;
    make_of(alloc, &inputs, &runtimes, LinkForm::Program)
}

impl Maker for Map {
    ghost use Rattle.omf_cli.specs.Link.{given_alone};
    ghost use Rattle.omf_map.specs.Mapped.{MapMakes};

    ghost makes = { λ map files made. MapMakes (given_alone map.form files) made };

    fn make(&self, alloc: Global, files: Vec<Vec<u8>>) -> Result<Making, AllocError> {
        make_alone(alloc, &files, self.form)
    }
}

impl Maker for MapRt<'_> {
    ghost use Rattle.omf_making.specs.Words.{words_of};
    ghost use Rattle.omf_cli.specs.Link.{given_with};
    ghost use Rattle.omf_map.specs.Mapped.{MapMakes};

    ghost makes = { λ map files made. MapMakes (given_with (words_of map.runtimes.now) files) made };

    fn make(&self, alloc: Global, files: Vec<Vec<u8>>) -> Result<Making, AllocError> {
        make_with(alloc, files, self.runtimes)
    }
}
