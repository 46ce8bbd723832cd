//! `link`, `rtl` and `linkrt`: the load file of objects and libraries, and of run-time library files after them.

ghost use Rattle.std.specs.Prelude.{◌≡◌, ◌≢◌, ◌≤◌, ◌-◌, length, take, drop, IfOk, IsTrue, MatchOption};
ghost use Rattle.omf_cli.specs.LinkCauses.{link_cause_name};
ghost use Rattle.link_resolve.specs.Resolved.{given_of, FewGiven, HavePaths};
ghost use Rattle.link_resolve.specs.Runtimes.{files_of};
ghost use Rattle.omf_making.specs.Words.{are_paths, words_of};
ghost use Rattle.omf_making.specs.Steps.{are_printing};
ghost use Rattle.omf_cli.specs.Link.{link_fault_line, given_alone, given_with, LinkMakes, ReportsLinkFault};
ghost use Rattle.omf_cli.specs.Steps.{under_paths};
ghost use Rattle.omf_making.specs.Made.{all_bytes, made_of, AreShort};

use lib_dict::Member;
use link_emit::link_with;
use link_meaning::{LinkCause, LinkFault, LinkForm};
use omf_base::{Line, LineFault, Name};
use omf_making::{Maker, Making, refused_line};
use std::alloc::{AllocError, Global};

/// All files are inputs, and are linked in this form.
#[derive(Drop)]
pub struct Link {
    pub form: LinkForm,
}

/// A program of which the last files are run-time library files with these paths.
#[derive(Drop)]
pub struct LinkRt<'a> {
    pub runtimes: &'a [String],
    ghost paths: { IsTrue (are_paths 1 16 (words_of runtimes.now)) },
    ghost printing: { IsTrue (are_printing (words_of runtimes.now)) },
}

/// The name of a cause, as it is printed. `Memory` has none, and no other cause is without one.
fn cause_name(cause: LinkCause) -> Option<&'static str>
    ensures { MatchOption result (cause ≡ LinkCause.Memory) (λ name. (cause ≢ LinkCause.Memory) × (name.now ≡ link_cause_name cause)) }
{
    match cause {
        LinkCause::Truncated => Some("Truncated"),
        LinkCause::BadHeader => Some("BadHeader"),
        LinkCause::Unsupported => Some("Unsupported"),
        LinkCause::BadRecord => Some("BadRecord"),
        LinkCause::AlignFault => Some("AlignFault"),
        LinkCause::BadLength => Some("BadLength"),
        LinkCause::BadLibrary => Some("BadLibrary"),
        LinkCause::BadRuntime => Some("BadRuntime"),
        LinkCause::Empty => Some("Empty"),
        LinkCause::Unresolved => Some("Unresolved"),
        LinkCause::Duplicate => Some("Duplicate"),
        LinkCause::OrgConflict => Some("OrgConflict"),
        LinkCause::TooManySegments => Some("TooManySegments"),
        LinkCause::SegmentTooLong => Some("SegmentTooLong"),
        LinkCause::NotDynamic => Some("NotDynamic"),
        LinkCause::Circular => Some("Circular"),
        LinkCause::DivideByZero => Some("DivideByZero"),
        LinkCause::NotRelocatable => Some("NotRelocatable"),
        LinkCause::DynamicReference => Some("DynamicReference"),
        LinkCause::OutOfSegment => Some("OutOfSegment"),
        LinkCause::TooManyEntries => Some("TooManyEntries"),
        LinkCause::DoesNotFit => Some("DoesNotFit"),
        LinkCause::FileTooLong => Some("FileTooLong"),
        LinkCause::Memory => None,
    }
}

/// The line of a fault, whose cause has this name.
fn fault_line(alloc: Global, cause: &str, fault: &LinkFault) -> Result<Line, LineFault>
    requires { cause.now ≡ link_cause_name fault.now.cause }
    ensures { IfOk result (λ text. text ≡ link_fault_line fault.now) }
{
    match &fault.name {
        Some(name) => refused_line(alloc, cause, Some(name.bytes()), fault.spot),
        None => refused_line(alloc, cause, None, fault.spot),
    }
}

/// The line that says why nothing is linked, unless out of memory.
pub fn refusal(alloc: Global, fault: LinkFault) -> Result<Making, AllocError>
    ensures { IfOk result (λ made. ReportsLinkFault fault (made_of made)) }
{
    match cause_name(fault.cause) {
        Some(cause) => {
            let line = fault_line(alloc, cause, &fault);
            Ok(Making::Refusal(line.map_err(|_| AllocError)?))
        }
        None => Err(AllocError),
    }
}

/// The load file of what is given, or the line that says why there is none.
fn make_of(
    alloc: Global,
    inputs: &Vec<Vec<u8>>,
    runtimes: &Vec<Member>,
    form: LinkForm,
) -> Result<Making, AllocError>
    requires few { FewGiven (given_of inputs.now.items runtimes.now.items form) }
    requires paths { HavePaths (given_of inputs.now.items runtimes.now.items form) }
    ensures { IfOk result (λ made. LinkMakes (given_of inputs.now.items runtimes.now.items form) (made_of made)) }
{
    match link_with(alloc, inputs, runtimes, form) {
        Ok(output) => Ok(Making::Bytes(output)),
        Err(fault) => refusal(alloc, fault),
    }
}

/// A file under its path.
fn under_path(alloc: Global, path: &str, bytes: Vec<u8>) -> Result<Member, AllocError>
    requires { length path.now ≤ 255 }
    ensures name { IfOk result (λ member. member.name ≡ path.now) }
    ensures bytes { IfOk result (λ member. member.bytes.items ≡ bytes.items) }
{
    let name = Vec::from_slice(alloc, path.as_bytes())?;
    Ok(Member {
        name: Name::from_vec(name),
        bytes,
    })
}

/// The files under their paths.
fn under_paths(
    alloc: Global,
    paths: &[String],
    files: Vec<Vec<u8>>,
) -> Result<Vec<Member>, AllocError>
    requires { IsTrue (are_paths 1 16 (words_of paths.now)) }
    ensures { IfOk result (λ members. files_of members.items ≡ under_paths (words_of paths.now) (all_bytes files.items)) }
{
    let mut members = Vec::new(alloc);
    let mut files = files.into_iter();
    'paths: for path in paths {
        match files.next() {
            Some(bytes) => members.push(under_path(alloc, path.as_str(), bytes)?)?,
            None => return Ok(members),
        }
    }
    Ok(members)
}

/// The files but the last `count`, and the last `count`.
fn split_last(
    mut files: Vec<Vec<u8>>,
    count: usize,
) -> Result<(Vec<Vec<u8>>, Vec<Vec<u8>>), AllocError>
    ensures front { IfOk result (λ parts. parts.0.items ≡ take (length files.items - count) files.items) }
    ensures following { IfOk result (λ parts. parts.1.items ≡ drop (length files.items - count) files.items) }
{
    let following = files.split_off(files.len().saturating_sub(count))?;
    Ok((files, following))
}

/// The load file of all files.
fn make_alone(alloc: Global, files: &Vec<Vec<u8>>, form: LinkForm) -> Result<Making, AllocError>
    requires short { AreShort (all_bytes files.now.items) }
    requires few { length files.now.items ≤ 255 }
    ensures { IfOk result (λ made. LinkMakes (given_alone form (all_bytes files.now.items)) (made_of made)) }
{
    let runtimes = Vec::new(alloc);
    make_of(alloc, files, &runtimes, form)
}

/// The program of files, of which the last are run-time library files with these paths.
fn make_with(alloc: Global, files: Vec<Vec<u8>>, paths: &[String]) -> Result<Making, AllocError>
    requires short { AreShort (all_bytes files.items) }
    requires few { length files.items ≤ 255 }
    requires paths { IsTrue (are_paths 1 16 (words_of paths.now)) }
    requires printing { IsTrue (are_printing (words_of paths.now)) }
    ensures { IfOk result (λ made. LinkMakes (given_with (words_of paths.now) (all_bytes files.items)) (made_of made)) }
{
    let (inputs, following) = split_last(files, paths.len())?;
    let runtimes = under_paths(alloc, paths, following)?;
    make_of(alloc, &inputs, &runtimes, LinkForm::Program)
}

impl Maker for Link {
    ghost use Rattle.omf_cli.specs.Link.{LinkMakes, given_alone};

    ghost makes = { λ link files made. LinkMakes (given_alone link.form files) made };

    fn make(&self, alloc: Global, files: Vec<Vec<u8>>) -> Result<Making, AllocError> {
        make_alone(alloc, &files, self.form)
    }
}

impl Maker for LinkRt<'_> {
    ghost use Rattle.omf_making.specs.Words.{words_of};
    ghost use Rattle.omf_cli.specs.Link.{LinkMakes, given_with};

    ghost makes = { λ link files made. LinkMakes (given_with (words_of link.runtimes.now) files) made };

    fn make(&self, alloc: Global, files: Vec<Vec<u8>>) -> Result<Making, AllocError> {
        make_with(alloc, files, self.runtimes)
    }
}
