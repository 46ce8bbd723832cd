//! All that the program does.

ghost use Rattle.std.specs.Prelude.{◌≡◌, ◌⊎◌, IfOk};
ghost use Rattle.omf_io.specs.Outside.{outside};
ghost use Rattle.omf_making.specs.Words.{words_of};
ghost use Rattle.omf_making.specs.Form.{form_of};
ghost use Rattle.omf_map.specs.Mapped.{map_usage_line, with_output, HasMapped, HasMappedIn, CanMap, CanMapIn};

use crate::form::with_output;
use crate::making::{Map, MapRt};
use link_meaning::LinkForm;
use omf_base::{Line, LineFault};
use omf_io::{Files, Sink};
use omf_making::{CommandForm, Status, print, read_form, run_maker};
use std::alloc::{AllocError, Global};

/// The line that says which arguments there are.
fn usage_line(alloc: Global) -> Result<Line, LineFault>
    ensures { IfOk result (λ text. text ≡ map_usage_line) }
{
    let mut line = Line::new(alloc);
    line.text("usage: omf_map link FILE.., rtl FILE.. or linkrt K FILE..")?;
    line.text("\n")?;
    Ok(line)
}

/// Prints the map of the link that arguments of `omf` say, or its first fault, or the usage line.
fn run_words<F: Files, S: Sink>(
    alloc: Global,
    words: &[String],
    files: &mut F,
    out: &mut S,
) -> Status
    ensures run { HasMappedIn (form_of (words_of words.now)) result (outside (F.seen files.old) (F.seen files.new) (S.seen out.old) (S.seen out.new)) }
    ensures completes { CanMapIn (form_of (words_of words.now)) (outside (F.seen files.old) (F.seen files.new) (S.seen out.old) (S.seen out.new))
        → (result ≡ Status.Done) ⊎ (result ≡ Status.Memory) }
{
    match read_form(words) {
        Some(CommandForm::Link { output: _, inputs }) => {
            let map = Map {
                form: LinkForm::Program,
            };
            run_maker(alloc, &map, None, inputs, files, out)
        }
        Some(CommandForm::Rtl { output: _, inputs }) => {
            let map = Map {
                form: LinkForm::Runtime,
            };
            run_maker(alloc, &map, None, inputs, files, out)
        }
        Some(
            CommandForm::LinkRt {
                output: _,
                inputs,
                runtimes,
            },
        ) => run_maker(alloc, &MapRt { runtimes }, None, inputs, files, out),
        None => print(usage_line(alloc), Status::Usage, out),
        Some(
            CommandForm::Asm {
                source: _,
                output: _,
                macros: _,
            }
            | CommandForm::Dump { inputs: _ }
            | CommandForm::Run { inputs: _ }
            | CommandForm::Lib {
                output: _,
                inputs: _,
            }
            | CommandForm::Stress { count: _, seed: _ }
            | CommandForm::Listing {
                output: _,
                inputs: _,
            }
            | CommandForm::Compact {
                output: _,
                inputs: _,
            },
        ) => print(usage_line(alloc), Status::Usage, out),
    }
}

/// Prints the map of a link, or its first fault: `link FILE..` of a program of 1 to 255 files, objects and libraries; `rtl FILE..` of a run-time
/// library file of them; `linkrt K FILE..` of a program of 2 to 255 files, of which the last K, 1 to 16, are run-time library files with
/// their paths. Other arguments print the usage line.
pub fn run_map<F: Files, S: Sink>(
    alloc: Global,
    words: &[String],
    files: &mut F,
    out: &mut S,
) -> Status
    ensures run { HasMapped (words_of words.now) result (outside (F.seen files.old) (F.seen files.new) (S.seen out.old) (S.seen out.new)) }
    ensures completes { CanMap (words_of words.now) (outside (F.seen files.old) (F.seen files.new) (S.seen out.old) (S.seen out.new))
        → (result ≡ Status.Done) ⊎ (result ≡ Status.Memory) }
{
    match with_output(alloc, words) {
        Ok(words) => run_words(alloc, &words, files, out),
        Err(AllocError) => Status::Memory,
    }
}
