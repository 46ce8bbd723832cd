//! First faults, as C sees them.

ghost use Rattle.std.specs.Prelude.{◌≡◌, ◌≢◌, ◌≤◌, ℕ, List, length, MatchOption, Some};
ghost use Rattle.load_meaning.specs.declared.load.LoadCause.TheVariants as load_causes;
ghost use Rattle.loader_machine.specs.Replies.{cause_text};
ghost use Rattle.omf_c_files.specs.Causes.{name_of};
ghost use Rattle.omf_c_files.specs.Faults.{zero_padded, Reports, ReportsLoad};

use load_meaning::{LoadCause, LoadFault};
use omf_base::Spot;

/// A first fault: the number of its cause, and where it is. What a fault doesn't have is 0.
#[repr(C)]
#[derive(Drop)]
pub struct OmfFault {
    /// The number of the cause, whose name `omf_cause_name` reports.
    pub cause: u32,
    /// The file, from 1; of a source the source is 0 and its macro files follow from 1.
    pub file: u32,
    /// The segment in the file, from 1.
    pub segment: u32,
    /// The displacement in the file, in bytes.
    pub at: u32,
    /// The line of the file, from 1.
    pub line: u32,
    /// How many bytes the name has to which the fault belongs.
    pub name_size: u32,
    /// The name, with zeros after it.
    pub name: [u8; 256],
}

/// A name with zeros after it.
pub fn zero_padded(name: &[u8]) -> [u8; 256]
    requires { length name.now ≤ 255 }
    ensures { result ≡ zero_padded 256 name.now }
{
    let mut out = [0u8; 256];
    out[..name.len()].copy_from_slice(name);
    out
}

/// A fault of a file at a place, of this cause, with this name.
pub fn to_omf_fault(cause: u32, spot: Spot, line: u32, name: &[u8]) -> OmfFault
    requires { length name.now ≤ 255 }
    ensures { (text : List ℕ) → name_of cause ≡ Some text → Reports result text spot.file spot.segment spot.at line name.now }
{
    OmfFault {
        cause,
        file: spot.file,
        segment: spot.segment,
        at: spot.at,
        line,
        name_size: name.len() as u32,
        name: zero_padded(name),
    }
}

/// The number of the cause of a load file's fault; None when out of memory.
#[tactic(auto, unfolding(loader_machine::specs::Replies::cause_text))]
fn load_number(cause: LoadCause) -> Option<u32>
    ensures { MatchOption result (cause ≡ load_causes.Memory) (λ number. (cause ≢ load_causes.Memory) × (name_of number ≡ Some (cause_text cause))) }
{
    match cause {
        LoadCause::NotLoadFile => Some(5),
        LoadCause::Truncated => Some(1),
        LoadCause::BadHeader => Some(2),
        LoadCause::Unsupported => Some(3),
        LoadCause::BadRecord => Some(4),
        LoadCause::Sequence => Some(6),
        LoadCause::DataTooLong => Some(7),
        LoadCause::PatchOutside => Some(8),
        LoadCause::NoSuchTarget => Some(9),
        LoadCause::DynamicTarget => Some(10),
        LoadCause::BadTable => Some(11),
        LoadCause::Memory => None,
    }
}

/// A fault of a load file, unless out of memory.
pub fn load_fault(fault: LoadFault) -> Option<OmfFault>
    ensures { MatchOption result (fault.cause ≡ load_causes.Memory) (λ reported. (fault.cause ≢ load_causes.Memory) × ReportsLoad reported fault) }
{
    let spot = Spot {
        file: 1,
        segment: fault.segment,
        at: fault.at,
    };
    Some(to_omf_fault(load_number(fault.cause)?, spot, 0, &[]))
}
