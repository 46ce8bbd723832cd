//! The names of causes.

ghost use Rattle.std.specs.Prelude.{◌≡◌, MatchOption, option_map};
ghost use Rattle.omf_c_files.specs.Causes.{name_of};
ghost use Rattle.omf_c_files.specs.Handed.{IsPut, status_misused};

use omf_c_files::{MISUSED, write_answer};

/// The name of the cause with a number.
fn name_of(number: u32) -> Option<&'static str>
    ensures { option_map (λ name. name.now) result ≡ name_of number }
{
    if number == 0 || number > 50 {
        return None;
    }
    let name = match number {
        1 => "Truncated",
        2 => "BadHeader",
        3 => "Unsupported",
        4 => "BadRecord",
        5 => "NotLoadFile",
        6 => "Sequence",
        7 => "DataTooLong",
        8 => "PatchOutside",
        9 => "NoSuchTarget",
        10 => "DynamicTarget",
        11 => "BadTable",
        12 => "TooLong",
        13 => "AlignFault",
        14 => "BadLength",
        15 => "BadLibrary",
        16 => "BadRuntime",
        17 => "Empty",
        18 => "Unresolved",
        19 => "Duplicate",
        20 => "OrgConflict",
        21 => "TooManySegments",
        22 => "SegmentTooLong",
        23 => "NotDynamic",
        24 => "Circular",
        25 => "DivideByZero",
        26 => "NotRelocatable",
        27 => "DynamicReference",
        28 => "OutOfSegment",
        29 => "TooManyEntries",
        30 => "DoesNotFit",
        31 => "FileTooLong",
        32 => "LineTooLong",
        33 => "TooManyLines",
        34 => "NoSuchSymbol",
        35 => "BadSetting",
        36 => "BadArguments",
        37 => "NoSequenceSymbol",
        38 => "Unclosed",
        39 => "Counter",
        40 => "TooNested",
        41 => "Noted",
        42 => "UnknownOperation",
        43 => "OutsideSegment",
        44 => "BadLabel",
        45 => "BadOperand",
        46 => "BadNumber",
        47 => "BadMode",
        48 => "UnknownConstant",
        49 => "NotListable",
        50 => "BrokenPart",
        _ => unreachable!(),
    };
    Some(name)
}

/// Reports the name of the cause with a number, from 1, as the program prints it. A number that no cause has is misuse.
#[unsafe(no_mangle)]
pub extern "C" fn omf_cause_name(number: u32, room: &mut [u8], size: &mut usize) -> u32
    ensures { MatchOption (name_of number) ((result ≡ status_misused) × (room.new ≡ room.old) × (size.new ≡ size.old))
        (λ name. IsPut name result (record { items = room.old; size = size.old }) (record { items = room.new; size = size.new })) }
{
    match name_of(number) {
        Some(name) => write_answer(name.as_bytes(), room, size),
        None => MISUSED,
    }
}
