//! Linking: from files to the load file, or the first fault.

ghost use Rattle.std.specs.Prelude.{◌≡◌, Ok, IfOk, IfErr};
ghost use Rattle.link_meaning.specs.LinkFaults.{plain};
ghost use Rattle.link_meaning.specs.EmitFaults.{IsEmitAnswer, IsLinkedTo};
ghost use Rattle.link_resolve.specs.Resolved.{all_bytes, given_of, AreFew, FewGiven, HavePaths};
ghost use Rattle.link_file.specs.Answers.{IsLinkRefused};

use lib_dict::Member;
use link_file::emit;
use link_meaning::LinkFault;
use link_resolve::{LinkForm, resolve_with};
use std::alloc::Global;

/// The load file of files, which are objects and libraries in any order, linked with run-time library files, each with the path by
/// which it is known; or a run-time library file of them, which has none. Otherwise the first fault of all, with its place.
pub fn link_with(
    alloc: Global,
    inputs: &Vec<Vec<u8>>,
    runtimes: &Vec<Member>,
    form: LinkForm,
) -> Result<Vec<u8>, LinkFault>
    requires few { FewGiven (given_of inputs.now.items runtimes.now.items form) }
    requires paths { HavePaths (given_of inputs.now.items runtimes.now.items form) }
    ensures linked { IfOk result (λ output. IsLinkedTo (given_of inputs.now.items runtimes.now.items form) output.items) }
    ensures refused { IfErr result (λ fault. IsLinkRefused (given_of inputs.now.items runtimes.now.items form) fault) }
{
    let program = resolve_with(alloc, inputs, runtimes, form)?;
    let emitted = emit(alloc, &program);
    drop(program);
    emitted
}

/// The load file of files, which are objects and libraries in any order. Otherwise the first fault of all, with its place.
pub fn link(alloc: Global, inputs: &Vec<Vec<u8>>) -> Result<Vec<u8>, LinkFault>
    requires { AreFew (all_bytes inputs.now.items) }
    ensures linked { IfOk result (λ output. IsLinkedTo (plain (all_bytes inputs.now.items)) output.items) }
    ensures refused { IfErr result (λ fault. IsLinkRefused (plain (all_bytes inputs.now.items)) fault) }
{
    let none = Vec::new(alloc);
    link_with(alloc, inputs, &none, LinkForm::Program)
}
