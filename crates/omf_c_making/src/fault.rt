//! First faults of sources and files, as C sees them.

ghost use Rattle.std.specs.Prelude.{◌≡◌, ◌≢◌, ◌≤◌, [], length, MatchOption};
ghost use Rattle.std.specs.Option.{option_map_or};
ghost use Rattle.omf_format.specs.declared.fault.FileCause.TheVariants as file_causes;
ghost use Rattle.lib_dict.specs.declared.fault.LibCause.TheVariants as lib_causes;
ghost use Rattle.link_meaning.specs.declared.fault.LinkCause.TheVariants as link_causes;
ghost use Rattle.asm_meaning.specs.declared.faults.AsmCause.TheVariants as asm_causes;
ghost use Rattle.list_meaning.specs.declared.faults.ListCause.TheVariants as list_causes;
ghost use Rattle.omf_compact.specs.declared.fault.CompactCause.TheVariants as compact_causes;
ghost use Rattle.macro_meaning.specs.declared.faults.MacroCause.TheVariants as macro_causes;
ghost use Rattle.omf_c_making.specs.Faults.{ReportsFile, ReportsLib, ReportsLink, ReportsAsm, ReportsList, ReportsCompact, ReportsMacro};

use crate::causes::{
    asm_number, compact_number, file_number, lib_number, link_number, list_number, to_asm_cause,
};
use lib_dict::LibFault;
use link_meaning::LinkFault;
use macro_meaning::MacroFault;
use omf_base::{Name, Spot};
use omf_c_files::{OmfFault, to_omf_fault};
use omf_compact::CompactFault;
use omf_records::FileFault;
use orca_asm::AsmFault;
use w65_list::ListFault;

/// A fault of a listed file, unless out of memory.
pub fn file_fault(fault: FileFault) -> Option<OmfFault>
    ensures { MatchOption result (fault.cause ≡ file_causes.Memory) (λ reported. (fault.cause ≢ file_causes.Memory) × ReportsFile reported fault) }
{
    let spot = Spot {
        file: 1,
        segment: fault.segment,
        at: fault.at,
    };
    Some(to_omf_fault(file_number(fault.cause)?, spot, 0, &[]))
}

/// A fault of a library's files, unless out of memory.
pub fn lib_fault(fault: LibFault) -> Option<OmfFault>
    ensures { MatchOption result (fault.cause ≡ lib_causes.Memory) (λ reported. (fault.cause ≢ lib_causes.Memory) × ReportsLib reported fault) }
{
    Some(to_omf_fault(lib_number(fault.cause)?, fault.spot, 0, &[]))
}

/// The bytes of a name, if there is one.
fn bytes_of(name: &Option<Name>) -> &[u8]
    ensures value { result.now ≡ option_map_or (λ n. n) name.now [] }
    ensures short { length result.now ≤ 255 }
{
    match name {
        Some(name) => name.bytes(),
        None => &[],
    }
}

/// A fault of linked files, unless out of memory.
pub fn link_fault(fault: &LinkFault) -> Option<OmfFault>
    ensures { MatchOption result (fault.now.cause ≡ link_causes.Memory) (λ reported. (fault.now.cause ≢ link_causes.Memory) × ReportsLink reported fault.now) }
{
    let number = link_number(fault.cause)?;
    Some(to_omf_fault(number, fault.spot, 0, bytes_of(&fault.name)))
}

/// A fault of a source, unless out of memory.
pub fn asm_fault(fault: AsmFault) -> Option<OmfFault>
    ensures { MatchOption result (fault.cause ≡ asm_causes.Memory) (λ reported. (fault.cause ≢ asm_causes.Memory) × ReportsAsm reported fault) }
{
    let spot = Spot {
        file: fault.file,
        segment: 0,
        at: 0,
    };
    Some(to_omf_fault(asm_number(fault.cause)?, spot, fault.line, &[]))
}

/// A fault of a source's expansion, unless out of memory.
pub fn macro_fault(fault: MacroFault) -> Option<OmfFault>
    ensures { MatchOption result (fault.cause ≡ macro_causes.Memory) (λ reported. (fault.cause ≢ macro_causes.Memory) × ReportsMacro reported fault) }
{
    let spot = Spot {
        file: fault.file,
        segment: 0,
        at: 0,
    };
    let number = asm_number(to_asm_cause(fault.cause))?;
    Some(to_omf_fault(number, spot, fault.line, &[]))
}

/// A fault of an object that is listed as a source, unless out of memory.
pub fn list_fault(fault: ListFault) -> Option<OmfFault>
    ensures { MatchOption result (fault.cause ≡ list_causes.Memory) (λ reported. (fault.cause ≢ list_causes.Memory) × ReportsList reported fault) }
{
    let spot = Spot {
        file: 1,
        segment: fault.segment,
        at: fault.at,
    };
    Some(to_omf_fault(list_number(fault.cause)?, spot, 0, &[]))
}

/// A fault of a load file that is compacted, unless out of memory.
pub fn compact_fault(fault: CompactFault) -> Option<OmfFault>
    ensures { MatchOption result (fault.cause ≡ compact_causes.Memory) (λ reported. (fault.cause ≢ compact_causes.Memory) × ReportsCompact reported fault) }
{
    let spot = Spot {
        file: 1,
        segment: fault.segment,
        at: fault.at,
    };
    Some(to_omf_fault(compact_number(fault.cause)?, spot, 0, &[]))
}
