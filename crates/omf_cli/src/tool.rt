//! All that the program does.

ghost use Rattle.std.specs.Prelude.{◌≡◌, ◌⊎◌, ◌≤◌, ◌∷◌, length, None, Some};
ghost use Rattle.omf_io.specs.Outside.{outside};
ghost use Rattle.omf_making.specs.Words.{words_of};
ghost use Rattle.omf_commands.specs.Assemble.{AsmMakes};
ghost use Rattle.omf_making.specs.Form.{form_of};
ghost use Rattle.omf_making.specs.Making.{MakesRun, CanMake};
ghost use Rattle.omf_cli.specs.Tool.{HasRun, CanSucceed};

use crate::link::{Link, LinkRt};
use crate::stress::run_stress;
use link_meaning::LinkForm;
use omf_commands::{Asm, Compact, Dump, Lib, Listing, inputs_of, run_file};
use omf_io::{Files, Sink};
use omf_making::{CommandForm, Status, print, read_form, run_maker, usage_line};
use std::alloc::Global;
use sys_loader::Loader;

/// Reads the source and then the macro files, and writes the object.
fn run_asm<F: Files, S: Sink>(
    alloc: Global,
    source: &str,
    output: &str,
    macros: &[String],
    files: &mut F,
    out: &mut S,
) -> Status
    requires few { length macros.now ≤ 254 }
    ensures run { MakesRun AsmMakes (Some output.now) (source.now ∷ words_of macros.now) result
        (outside (F.seen files.old) (F.seen files.new) (S.seen out.old) (S.seen out.new)) }
    ensures completes { CanMake AsmMakes (source.now ∷ words_of macros.now)
        (outside (F.seen files.old) (F.seen files.new) (S.seen out.old) (S.seen out.new))
        → (result ≡ Status.Done) ⊎ (result ≡ Status.Memory) }
{
    match inputs_of(alloc, source, macros) {
        Ok(inputs) => run_maker(alloc, &Asm, Some(output), &inputs, files, out),
        Err(_) => Status::Memory,
    }
}

/// Does what the arguments say over a store of files and a sink of text, and returns the status. `last` is to hold no loader. Where a
/// script was run to its end it holds the loader that ran the commands, if there were any; where a workload was run and its line printed,
/// the loader that answered its calls; and else none.
///
/// `asm SRC OBJ MACROS..` assembles a source with 0 to 254 macro files; all are read, the source first, before anything is written; a
/// refusal reports the first fault with its cause, its file (0 is the source) and its line. `link OUT FILE..` links 1 to 255 files, objects
/// and libraries, in this order. All are read, in order, before anything is written; a refusal reports the first fault with its cause, its
/// name if it has one, and its place. `dump FILE` prints a line for each segment of a file, and one for each of its records. `run SCRIPT`
/// runs a script of loader commands, which is read whole before, and prints a line for each. `lib OUT OBJ..` makes a library of 1 to 255
/// object files, whose paths are their names in it; all are read in order before anything is written. `stress N SEED` makes a workload of N
/// dynamic segments, 1 to 64, for a seed of 32 bits, links it, runs it over a store of its own, and prints a line. `rtl OUT FILE..` links 1
/// to 255 files to a run-time library file. `linkrt OUT K FILE..` links a program of 2 to 255 files, of which the last K, 1 to 16, are
/// run-time library files with their paths. `list OBJ SRC` writes the source from which `asm` makes an object with the same content; a
/// refusal reports what can't be listed, and where. `compact IN OUT` writes a load file in its one fixed form. Other arguments print the
/// usage line.
pub fn run_tool<F: Files, S: Sink>(
    alloc: Global,
    words: &Vec<String>,
    files: &mut F,
    out: &mut S,
    last: &mut Option<Loader>,
) -> Status
    requires { last.old ≡ None }

    // What was read, what became of the files, which text was printed, and why; and which loader is handed out.
    ensures run { HasRun result (form_of (words_of words.now.items)) last.new
        (outside (F.seen files.old) (F.seen files.new) (S.seen out.old) (S.seen out.new)) }

    // A command whose inputs are held and have no fault gets done, where the outside doesn't fail and memory is left.
    ensures completes { CanSucceed (form_of (words_of words.now.items))
        (outside (F.seen files.old) (F.seen files.new) (S.seen out.old) (S.seen out.new))
        → (result ≡ Status.Done) ⊎ (result ≡ Status.Memory) }
{
    match read_form(words) {
        None => print(usage_line(alloc), Status::Usage, out),
        Some(
            CommandForm::Asm {
                source,
                output,
                macros,
            },
        ) => run_asm(alloc, source, output, macros, files, out),
        Some(CommandForm::Link { output, inputs }) => {
            let link = Link {
                form: LinkForm::Program,
            };
            run_maker(alloc, &link, Some(output), inputs, files, out)
        }
        Some(CommandForm::Dump { inputs }) => run_maker(alloc, &Dump, None, inputs, files, out),
        Some(CommandForm::Run { inputs }) => run_file(alloc, inputs, files, out, last),
        Some(CommandForm::Lib { output, inputs }) => {
            run_maker(alloc, &Lib { inputs }, Some(output), inputs, files, out)
        }
        Some(CommandForm::Stress { count, seed }) => run_stress(alloc, count, seed, out, last),
        Some(CommandForm::Rtl { output, inputs }) => {
            let link = Link {
                form: LinkForm::Runtime,
            };
            run_maker(alloc, &link, Some(output), inputs, files, out)
        }
        Some(
            CommandForm::LinkRt {
                output,
                inputs,
                runtimes,
            },
        ) => run_maker(
            alloc,
            &LinkRt { runtimes },
            Some(output),
            inputs,
            files,
            out,
        ),
        Some(CommandForm::Listing { output, inputs }) => {
            run_maker(alloc, &Listing, Some(output), inputs, files, out)
        }
        Some(CommandForm::Compact { output, inputs }) => {
            run_maker(alloc, &Compact, Some(output), inputs, files, out)
        }
    }
}
