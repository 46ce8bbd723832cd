//! `asm`: the object of a source with macro files.

ghost use Rattle.std.specs.Prelude.{◌≡◌, ◌≢◌, ◌∷◌, IfOk, MatchOption};
ghost use Rattle.omf_commands.specs.AsmCauses.{asm_cause_name};
ghost use Rattle.omf_commands.specs.Assemble.{following_first, AsmMakes, ReportsAsmFault};
ghost use Rattle.omf_making.specs.Made.{all_bytes, made_of, first_of};
ghost use Rattle.omf_making.specs.Words.{words_of};

use omf_making::{Maker, Making, line_fault_line};
use orca_asm::{AsmCause, AsmFault, assemble};
use std::alloc::{AllocError, Global};

pub struct Asm;

/// The inputs of the command, in the order in which they are read: the source, then the macro files.
pub fn inputs_of(alloc: Global, source: &str, macros: &[String]) -> Result<Vec<String>, AllocError>
    ensures { IfOk result (λ inputs. words_of inputs.items ≡ source.now ∷ words_of macros.now) }
{
    let mut inputs = Vec::new(alloc);
    inputs.push(String::from_str(alloc, source)?)?;
    'macros: for path in macros {
        inputs.push(String::from_str(alloc, path.as_str())?)?;
    }
    Ok(inputs)
}

/// The name of a cause, as it is printed. `Memory` has none, and no other cause is without one.
fn cause_name(cause: AsmCause) -> Option<&'static str>
    ensures { MatchOption result (cause ≡ AsmCause.Memory) (λ name. (cause ≢ AsmCause.Memory) × (name.now ≡ asm_cause_name cause)) }
{
    match cause {
        AsmCause::LineTooLong => Some("LineTooLong"),
        AsmCause::TooManyLines => Some("TooManyLines"),
        AsmCause::NoSuchSymbol => Some("NoSuchSymbol"),
        AsmCause::BadSetting => Some("BadSetting"),
        AsmCause::BadArguments => Some("BadArguments"),
        AsmCause::NoSequenceSymbol => Some("NoSequenceSymbol"),
        AsmCause::Unclosed => Some("Unclosed"),
        AsmCause::Counter => Some("Counter"),
        AsmCause::TooNested => Some("TooNested"),
        AsmCause::Noted(_) => Some("Noted"),
        AsmCause::UnknownOperation => Some("UnknownOperation"),
        AsmCause::OutsideSegment => Some("OutsideSegment"),
        AsmCause::BadLabel => Some("BadLabel"),
        AsmCause::BadOperand => Some("BadOperand"),
        AsmCause::BadNumber => Some("BadNumber"),
        AsmCause::BadMode => Some("BadMode"),
        AsmCause::Duplicate => Some("Duplicate"),
        AsmCause::UnknownConstant => Some("UnknownConstant"),
        AsmCause::DivideByZero => Some("DivideByZero"),
        AsmCause::DoesNotFit => Some("DoesNotFit"),
        AsmCause::SegmentTooLong => Some("SegmentTooLong"),
        AsmCause::TooLong => Some("TooLong"),
        AsmCause::Memory => None,
    }
}

/// The line that says why nothing is assembled, unless out of memory.
fn refusal(alloc: Global, fault: AsmFault) -> Result<Making, AllocError>
    ensures { IfOk result (λ made. ReportsAsmFault fault (made_of made)) }
{
    match cause_name(fault.cause) {
        Some(name) => {
            let line = line_fault_line(alloc, name, fault.file, fault.line);
            Ok(Making::Refusal(line.map_err(|_| AllocError)?))
        }
        None => Err(AllocError),
    }
}

/// Takes the first file out.
pub fn take_first(alloc: Global, files: &mut Vec<Vec<u8>>) -> Vec<u8>
    ensures first { result.items ≡ first_of (all_bytes files.old.items) }
    ensures following { all_bytes files.new.items ≡ following_first (all_bytes files.old.items) }
{
    if files.is_empty() {
        return Vec::new(alloc);
    }
    files.remove(0)
}

/// The object of the first file with the others as its macro files, or the line that says why there is none.
fn make_of(alloc: Global, files: Vec<Vec<u8>>) -> Result<Making, AllocError>
    ensures { IfOk result (λ made. AsmMakes (all_bytes files.items) (made_of made)) }
{
    let mut macros = files;
    let source = take_first(alloc, &mut macros);
    match assemble(alloc, &source, &macros) {
        Ok(object) => Ok(Making::Bytes(object)),
        Err(fault) => refusal(alloc, fault),
    }
}

impl Maker for Asm {
    ghost use Rattle.omf_commands.specs.Assemble.{AsmMakes};

    ghost makes = { λ _ files made. AsmMakes files made };

    fn make(&self, alloc: Global, files: Vec<Vec<u8>>) -> Result<Making, AllocError> {
        make_of(alloc, files)
    }
}
