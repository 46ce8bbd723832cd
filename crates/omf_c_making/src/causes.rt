//! The numbers of causes.

ghost use Rattle.std.specs.Prelude.{◌≡◌, ◌≢◌, Some, MatchOption};
ghost use Rattle.omf_making.specs.FileCauses.{cause_name};
ghost use Rattle.omf_commands.specs.LibCauses.{lib_cause_name};
ghost use Rattle.omf_cli.specs.LinkCauses.{link_cause_name};
ghost use Rattle.omf_commands.specs.AsmCauses.{asm_cause_name};
ghost use Rattle.omf_format.specs.declared.fault.FileCause.TheVariants as file_causes;
ghost use Rattle.lib_dict.specs.declared.fault.LibCause.TheVariants as lib_causes;
ghost use Rattle.link_meaning.specs.declared.fault.LinkCause.TheVariants as link_causes;
ghost use Rattle.asm_meaning.specs.declared.faults.AsmCause.TheVariants as asm_causes;
ghost use Rattle.list_meaning.specs.declared.faults.ListCause.TheVariants as list_causes;
ghost use Rattle.omf_compact.specs.declared.fault.CompactCause.TheVariants as compact_causes;
ghost use Rattle.omf_commands.specs.ListCauses.{list_cause_name};
ghost use Rattle.omf_commands.specs.CompactCauses.{compact_cause_name};
ghost use Rattle.source_meaning.specs.Object.{cause_of};
ghost use Rattle.omf_c_files.specs.Causes.{name_of};

use lib_dict::LibCause;
use link_meaning::LinkCause;
use macro_meaning::MacroCause;
use omf_compact::CompactCause;
use omf_records::FileCause;
use orca_asm::AsmCause;
use w65_list::ListCause;

/// The number of the cause of a listed file's fault; None when out of memory.
pub fn file_number(cause: FileCause) -> Option<u32>
    ensures { MatchOption result (cause ≡ file_causes.Memory) (λ number. (cause ≢ file_causes.Memory) × (name_of number ≡ Some (cause_name cause))) }
{
    match cause {
        FileCause::Truncated => Some(1),
        FileCause::BadHeader => Some(2),
        FileCause::Unsupported => Some(3),
        FileCause::BadRecord => Some(4),
        FileCause::Memory => None,
    }
}

/// The number of the cause of a fault of a library's files; None when out of memory.
pub fn lib_number(cause: LibCause) -> Option<u32>
    ensures { MatchOption result (cause ≡ lib_causes.Memory) (λ number. (cause ≢ lib_causes.Memory) × (name_of number ≡ Some (lib_cause_name cause))) }
{
    match cause {
        LibCause::Truncated => Some(1),
        LibCause::BadHeader => Some(2),
        LibCause::Unsupported => Some(3),
        LibCause::BadRecord => Some(4),
        LibCause::TooLong => Some(12),
        LibCause::Memory => None,
    }
}

/// The number of the cause of a fault of linked files; None when out of memory.
pub fn link_number(cause: LinkCause) -> Option<u32>
    ensures { MatchOption result (cause ≡ link_causes.Memory) (λ number. (cause ≢ link_causes.Memory) × (name_of number ≡ Some (link_cause_name cause))) }
{
    match cause {
        LinkCause::Truncated => Some(1),
        LinkCause::BadHeader => Some(2),
        LinkCause::Unsupported => Some(3),
        LinkCause::BadRecord => Some(4),
        LinkCause::AlignFault => Some(13),
        LinkCause::BadLength => Some(14),
        LinkCause::BadLibrary => Some(15),
        LinkCause::BadRuntime => Some(16),
        LinkCause::Empty => Some(17),
        LinkCause::Unresolved => Some(18),
        LinkCause::Duplicate => Some(19),
        LinkCause::OrgConflict => Some(20),
        LinkCause::TooManySegments => Some(21),
        LinkCause::SegmentTooLong => Some(22),
        LinkCause::NotDynamic => Some(23),
        LinkCause::Circular => Some(24),
        LinkCause::DivideByZero => Some(25),
        LinkCause::NotRelocatable => Some(26),
        LinkCause::DynamicReference => Some(27),
        LinkCause::OutOfSegment => Some(28),
        LinkCause::TooManyEntries => Some(29),
        LinkCause::DoesNotFit => Some(30),
        LinkCause::FileTooLong => Some(31),
        LinkCause::Memory => None,
    }
}

/// The number of the cause of a fault of a source; None when out of memory.
pub fn asm_number(cause: AsmCause) -> Option<u32>
    ensures { MatchOption result (cause ≡ asm_causes.Memory) (λ number. (cause ≢ asm_causes.Memory) × (name_of number ≡ Some (asm_cause_name cause))) }
{
    match cause {
        AsmCause::LineTooLong => Some(32),
        AsmCause::TooManyLines => Some(33),
        AsmCause::NoSuchSymbol => Some(34),
        AsmCause::BadSetting => Some(35),
        AsmCause::BadArguments => Some(36),
        AsmCause::NoSequenceSymbol => Some(37),
        AsmCause::Unclosed => Some(38),
        AsmCause::Counter => Some(39),
        AsmCause::TooNested => Some(40),
        AsmCause::Noted(_) => Some(41),
        AsmCause::UnknownOperation => Some(42),
        AsmCause::OutsideSegment => Some(43),
        AsmCause::BadLabel => Some(44),
        AsmCause::BadOperand => Some(45),
        AsmCause::BadNumber => Some(46),
        AsmCause::BadMode => Some(47),
        AsmCause::Duplicate => Some(19),
        AsmCause::UnknownConstant => Some(48),
        AsmCause::DivideByZero => Some(25),
        AsmCause::DoesNotFit => Some(30),
        AsmCause::SegmentTooLong => Some(22),
        AsmCause::TooLong => Some(12),
        AsmCause::Memory => None,
    }
}

/// A cause of macros as one of the assembler.
pub fn to_asm_cause(cause: MacroCause) -> AsmCause
    ensures { result ≡ cause_of cause }
{
    match cause {
        MacroCause::LineTooLong => AsmCause::LineTooLong,
        MacroCause::TooManyLines => AsmCause::TooManyLines,
        MacroCause::NoSuchSymbol => AsmCause::NoSuchSymbol,
        MacroCause::BadSetting => AsmCause::BadSetting,
        MacroCause::BadArguments => AsmCause::BadArguments,
        MacroCause::NoSequenceSymbol => AsmCause::NoSequenceSymbol,
        MacroCause::Unclosed => AsmCause::Unclosed,
        MacroCause::Counter => AsmCause::Counter,
        MacroCause::TooNested => AsmCause::TooNested,
        MacroCause::Noted(severity) => AsmCause::Noted(severity),
        MacroCause::Memory => AsmCause::Memory,
    }
}

/// The number of the cause against an object that is listed as a source; None when out of memory.
pub fn list_number(cause: ListCause) -> Option<u32>
    ensures { MatchOption result (cause ≡ list_causes.Memory) (λ number. (cause ≢ list_causes.Memory) × (name_of number ≡ Some (list_cause_name cause))) }
{
    match cause {
        ListCause::Truncated => Some(1),
        ListCause::BadHeader => Some(2),
        ListCause::Unsupported => Some(3),
        ListCause::BadRecord => Some(4),
        ListCause::NotListable => Some(49),
        ListCause::TooLong => Some(12),
        ListCause::Memory => None,
    }
}

/// The number of the cause against a load file that is compacted; None when out of memory.
pub fn compact_number(cause: CompactCause) -> Option<u32>
    ensures { MatchOption result (cause ≡ compact_causes.Memory) (λ number. (cause ≢ compact_causes.Memory) × (name_of number ≡ Some (compact_cause_name cause))) }
{
    match cause {
        CompactCause::NotLoadFile => Some(5),
        CompactCause::Truncated => Some(1),
        CompactCause::BadHeader => Some(2),
        CompactCause::Unsupported => Some(3),
        CompactCause::BadRecord => Some(4),
        CompactCause::Sequence => Some(6),
        CompactCause::DataTooLong => Some(7),
        CompactCause::PatchOutside => Some(8),
        CompactCause::NoSuchTarget => Some(9),
        CompactCause::DynamicTarget => Some(10),
        CompactCause::BadTable => Some(11),
        CompactCause::BrokenPart => Some(50),
        CompactCause::TooLong => Some(12),
        CompactCause::Memory => None,
    }
}
