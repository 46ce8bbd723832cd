//! The lines of the run-time library files.

ghost use Rattle.std.specs.Prelude.{◌≡◌, ◌++◌, length, OnOk};
ghost use Rattle.load_meaning.specs.Pathnames.{paths_text};
ghost use Rattle.link_program.specs.OfFiles.{IsOfFiles};
ghost use Rattle.link_file.specs.Paths.{paths_of};
ghost use Rattle.link_map.specs.MapText.{numbered_texts, runtime_line, runtimes_text};

use crate::members::{LoadLine, put_load_line};
use dump_lines::put_quoted;
use link_program::Program;
use omf_base::{Line, LineFault};

/// How many bytes the pathname segment has.
fn paths_size(program: &Program) -> u32
    requires { IsOfFiles program.now }
    ensures { result ≡ length (paths_text (paths_of program.now)) }
{
    let mut size = 0;
    let mut place = 0;
    'paths: while place < program.runtimes() {
        let path = match program.runtime_path(place) {
            Some(path) => path,
            None => unreachable!(),
        };
        size += 11 + path.bytes().len() as u32;
        place += 1;
    }
    size + 2
}

/// Appends the line of a run-time library file: its number and its path.
#[tactic(auto, unfolding(crate::specs::MapText::runtime_line))]
fn put_runtime(line: &mut Line, number: u32, path: &[u8]) -> Result<(), LineFault>
    ensures { OnOk result (line.new ≡ line.old ++ runtime_line number path.now) }
{
    line.text("runtime ")?;
    line.dec(number)?;
    line.text(" name ")?;
    put_quoted(line, path)?;
    line.text("\n")
}

/// Appends the lines of all run-time library files, whose numbers begin with 2.
fn put_files(line: &mut Line, program: &Program) -> Result<(), LineFault>
    requires { IsOfFiles program.now }
    ensures { OnOk result (line.new ≡ line.old ++ numbered_texts runtime_line 2 (paths_of program.now)) }
{
    let mut place = 0;
    'files: while place < program.runtimes() {
        let path = match program.runtime_path(place) {
            Some(path) => path,
            None => unreachable!(),
        };
        put_runtime(line, place + 2, path.bytes())?;
        place += 1;
    }
    Ok(())
}

/// Appends the lines of the pathname segment, which is the load segment with this number, and of the run-time library files, where there
/// are these.
pub fn put_runtimes(line: &mut Line, number: u32, program: &Program) -> Result<(), LineFault>
    requires { IsOfFiles program.now }
    ensures { OnOk result (line.new ≡ line.old ++ runtimes_text number (paths_of program.now)) }
{
    if program.runtimes() == 0 {
        return Ok(());
    }
    let load = LoadLine {
        number,
        length: paths_size(program),
        kind: 0x0004,
        align: 0,
        name: b"~Pathnames",
    };
    put_load_line(line, load)?;
    put_files(line, program)
}
