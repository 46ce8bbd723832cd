//! The numbers of a file are bytes.

ghost use Rattle.link_resolve.specs.Runtimes.{files_of};
ghost use Rattle.std.specs.List.{AllByRecursion};
ghost use Rattle.omf_format.specs.Number.{IsBytes};
ghost use Rattle.link_resolve.specs.Resolved.{all_bytes};

use lib_dict::Member;

/// The numbers of a file are bytes.
fn recall_file(file: &[u8])
    ensures { IsBytes file.now }
{}

/// The numbers of each file are bytes.
pub fn know_bytes(inputs: &Vec<Vec<u8>>)
    ensures { AllByRecursion IsBytes (all_bytes inputs.now.items) }
{
    'files: for file in inputs {
        recall_file(file.as_slice());
    }
}

/// The numbers of each run-time library file are bytes.
pub fn know_members(given: &[Member])
    ensures { AllByRecursion (λ file. IsBytes file.1) (files_of given.now) }
{
    'files: for member in given {
        recall_file(member.bytes.as_slice());
    }
}
