//! Sources with macro files to objects (ORCA/M reference manual; GS/OS Reference, appendix F).

ghost use Rattle.std.specs.Prelude.{◌≡◌, List, ℕ, IfOk, IfErr};
ghost use Rattle.orca_macro.specs.Files.{texts_of_files};
ghost use Rattle.macro_meaning.specs.Expansion.{IsMacroFault};
ghost use Rattle.source_meaning.specs.Object.{IsObject, IsAsmFault, cause_of};

use asm_meaning::{AsmCause, AsmFault};
use orca_macro::{MacroCause, MacroFault, expand};
use orca_object::assemble_lines;
use std::alloc::Global;

/// The fault when out of memory.
fn no_memory() -> AsmFault
    ensures { result ≡ record { cause = AsmCause.Memory; file = 0; line = 0 } }
{
    AsmFault {
        cause: AsmCause::Memory,
        file: 0,
        line: 0,
    }
}

/// What is wrong with a line or a whole by the fault of its expansion.
fn cause_of(cause: MacroCause) -> AsmCause
    ensures { result ≡ cause_of cause }
{
    match cause {
        MacroCause::LineTooLong => AsmCause::LineTooLong,
        MacroCause::TooManyLines => AsmCause::TooManyLines,
        MacroCause::NoSuchSymbol => AsmCause::NoSuchSymbol,
        MacroCause::BadSetting => AsmCause::BadSetting,
        MacroCause::BadArguments => AsmCause::BadArguments,
        MacroCause::NoSequenceSymbol => AsmCause::NoSequenceSymbol,
        MacroCause::Unclosed => AsmCause::Unclosed,
        MacroCause::Counter => AsmCause::Counter,
        MacroCause::TooNested => AsmCause::TooNested,
        MacroCause::Noted(n) => AsmCause::Noted(n),
        MacroCause::Memory => AsmCause::Memory,
    }
}

/// A fault of the expansion.
fn macro_fault(fault: MacroFault) -> AsmFault
    ensures same { result ≡ record { cause = cause_of fault.cause; file = fault.file; line = fault.line } }
    ensures reported { (source : List ℕ) (macros : List (List ℕ)) → IsMacroFault source macros fault → IsAsmFault source macros result }
{
    AsmFault {
        cause: cause_of(fault.cause),
        file: fault.file,
        line: fault.line,
    }
}

/// The object of a source with macro files: its segments one after another, as ORCA/M's directives and the 65816's
/// instructions give them. Else the first fault: of reading, macro files in order and then the source; of a definition; of the
/// first visited line that expands with one; of the first expanded line with one, by the order of the causes; `Unclosed` at the
/// line that begins a segment without END; `TooLong`, with file 0 and line 0, where the object would exceed 16,777,216 bytes.
pub fn assemble(alloc: Global, source: &[u8], macros: &Vec<Vec<u8>>) -> Result<Vec<u8>, AsmFault>
    ensures object { IfOk result (λ object. IsObject source.now (texts_of_files macros.now.items) object.items) }
    ensures refused { IfErr result (λ fault. IsAsmFault source.now (texts_of_files macros.now.items) fault) }
{
    let lines = match expand(alloc, source, macros) {
        Ok(lines) => lines,
        Err(fault) => return Err(macro_fault(fault)),
    };
    match assemble_lines(alloc, &lines) {
        Ok(answer) => answer,
        Err(_) => Err(no_memory()),
    }
}
