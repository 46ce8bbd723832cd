//! All that the program does.

ghost use Rattle.std.specs.Prelude.{◌≡◌, ◌⊎◌, IfOk};
ghost use Rattle.source_meaning.specs.Object.{cause_of};
ghost use Rattle.omf_io.specs.Outside.{outside};
ghost use Rattle.omf_commands.specs.AsmCauses.{asm_cause_name};
ghost use Rattle.omf_making.specs.Made.{all_bytes, made_of};
ghost use Rattle.omf_making.specs.Words.{words_of};
ghost use Rattle.omf_expand.specs.Expanded.{ExpandMakes, ReportsMacroFault, expand_usage_line, HasExpanded, CanExpand};

use expand_lines::expand_text;
use macro_meaning::{MacroCause, MacroFault};
use omf_base::{Line, LineFault};
use omf_commands::take_first;
use omf_io::{Files, Sink};
use omf_making::{Maker, Making, Status, are_paths, line_fault_line, print, run_maker};
use std::alloc::{AllocError, Global};

/// The command that prints the lines of a source after expansion.
struct Expand;

/// The name of a cause, as `asm` prints it.
fn cause_name(cause: MacroCause) -> &'static str
    ensures { result.now ≡ asm_cause_name (cause_of cause) }
{
    match cause {
        MacroCause::LineTooLong => "LineTooLong",
        MacroCause::TooManyLines => "TooManyLines",
        MacroCause::NoSuchSymbol => "NoSuchSymbol",
        MacroCause::BadSetting => "BadSetting",
        MacroCause::BadArguments => "BadArguments",
        MacroCause::NoSequenceSymbol => "NoSequenceSymbol",
        MacroCause::Unclosed => "Unclosed",
        MacroCause::Counter => "Counter",
        MacroCause::TooNested => "TooNested",
        MacroCause::Noted(_) => "Noted",
        MacroCause::Memory => "Memory",
    }
}

/// The line that says why nothing is expanded, unless out of memory.
fn refusal(alloc: Global, fault: MacroFault) -> Result<Making, AllocError>
    ensures { IfOk result (λ made. ReportsMacroFault fault (made_of made)) }
{
    match fault.cause {
        MacroCause::Memory => Err(AllocError),
        MacroCause::LineTooLong
        | MacroCause::TooManyLines
        | MacroCause::NoSuchSymbol
        | MacroCause::BadSetting
        | MacroCause::BadArguments
        | MacroCause::NoSequenceSymbol
        | MacroCause::Unclosed
        | MacroCause::Counter
        | MacroCause::TooNested
        | MacroCause::Noted(_) => {
            let line = line_fault_line(alloc, cause_name(fault.cause), fault.file, fault.line);
            Ok(Making::Refusal(line.map_err(|_| AllocError)?))
        }
    }
}

/// The lines of the first file after expansion with the others as its macro files, or the line that says why there are none.
fn make_of(alloc: Global, files: Vec<Vec<u8>>) -> Result<Making, AllocError>
    ensures { IfOk result (λ made. ExpandMakes (all_bytes files.items) (made_of made)) }
{
    let mut macros = files;
    let source = take_first(alloc, &mut macros);
    match expand_text(alloc, &source, &macros) {
        Ok(text) => Ok(Making::Bytes(text.into_bytes())),
        Err(fault) => refusal(alloc, fault),
    }
}

impl Maker for Expand {
    ghost use Rattle.omf_expand.specs.Expanded.{ExpandMakes};

    ghost makes = { λ _ files made. ExpandMakes files made };

    fn make(&self, alloc: Global, files: Vec<Vec<u8>>) -> Result<Making, AllocError> {
        make_of(alloc, files)
    }
}

/// The line that says which arguments there are.
fn usage_line(alloc: Global) -> Result<Line, LineFault>
    ensures { IfOk result (λ text. text ≡ expand_usage_line) }
{
    let mut line = Line::new(alloc);
    line.text("usage: omf_expand SRC MACROS..")?;
    line.text("\n")?;
    Ok(line)
}

/// Prints the lines of a source after expansion, where the arguments name it and then its macro files, 1 to 255 files together; or its
/// first fault, or the usage line.
pub fn run_expand<F: Files, S: Sink>(
    alloc: Global,
    words: &[String],
    files: &mut F,
    out: &mut S,
) -> Status
    ensures run { HasExpanded (words_of words.now) result (outside (F.seen files.old) (F.seen files.new) (S.seen out.old) (S.seen out.new)) }
    ensures completes { CanExpand (words_of words.now) (outside (F.seen files.old) (F.seen files.new) (S.seen out.old) (S.seen out.new))
        → (result ≡ Status.Done) ⊎ (result ≡ Status.Memory) }
{
    if !are_paths(1, 255, words) {
        return print(usage_line(alloc), Status::Usage, out);
    }
    run_maker(alloc, &Expand, None, words, files, out)
}
