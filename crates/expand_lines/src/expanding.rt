//! From a source with macro files to the text of its lines after expansion.

ghost use Rattle.std.specs.Prelude.{◌≡◌, ◌++◌, IfOk, IfErr, OnOk, flat_map};
ghost use Rattle.macro_meaning.specs.Expansion.{IsMacroFault};
ghost use Rattle.orca_macro.specs.Files.{texts_of_files};
ghost use Rattle.orca_text.specs.View.{line};
ghost use Rattle.expand_lines.specs.LinesText.{line_text, IsTextOf};

use macro_meaning::{MacroCause, MacroFault};
use omf_base::{Line, LineFault};
use orca_macro::expand;
use orca_text::{Lines, SourceLine};
use std::alloc::Global;

/// Appends a line with its file and its number there.
#[tactic(auto, unfolding(crate::specs::LinesText::line_text))]
fn put_line(text: &mut Line, of: &SourceLine) -> Result<(), LineFault>
    ensures { OnOk result (text.new ≡ text.old ++ line_text (line of.now)) }
{
    text.dec(of.file)?;
    text.text(" ")?;
    text.dec(of.line)?;
    text.text(" ")?;
    text.put(of.text.bytes())?;
    text.text("\n")
}

/// The text of lines.
fn text_of(alloc: Global, lines: &Lines) -> Result<Line, LineFault>
    ensures { IfOk result (λ text. text ≡ flat_map line_text lines.now) }
{
    let mut text = Line::new(alloc);
    let mut place = 0;
    'lines: while place < lines.count() {
        match lines.get(place) {
            Some(of) => put_line(&mut text, of)?,
            None => unreachable!(),
        }
        place += 1;
    }
    Ok(text)
}

/// The fault when out of memory.
fn no_memory() -> MacroFault
    ensures { result ≡ record { cause = MacroCause.Memory; file = 0; line = 0 } }
{
    MacroFault {
        cause: MacroCause::Memory,
        file: 0,
        line: 0,
    }
}

/// The text of a source's lines after expansion with macro files. Otherwise its first fault.
pub fn expand_text(alloc: Global, source: &[u8], macros: &Vec<Vec<u8>>) -> Result<Line, MacroFault>
    ensures expanded { IfOk result (λ text. IsTextOf source.now (texts_of_files macros.now.items) text) }
    ensures refused { IfErr result (λ fault. IsMacroFault source.now (texts_of_files macros.now.items) fault) }
{
    let lines = expand(alloc, source, macros)?;
    let reported = text_of(alloc, &lines);
    drop(lines);
    match reported {
        Ok(text) => Ok(text),
        Err(_) => Err(no_memory()),
    }
}
