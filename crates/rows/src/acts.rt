//! What a line does.

use crate::asking::{ask, ask_number, asked};
use crate::expanding::report_expanded;
use crate::failing::run_each;
use crate::fixture::Fixture;
use crate::loading::load;
use crate::pieces::{
    displacement, hex, number, put_again, put_at, put_hex, put_series, put_text, text_of,
};
use crate::prefixes::dump_prefixes;
use crate::reporting::{put_line, report_bytes, report_run, report_text};
use crate::running::{run, words_of};
use crate::shelf::{Shelf, ShelfFile};
use std::alloc::{AllocError, Global};

/// Where the body of a segment with a name of one letter begins.
const BODY: &str = "38";

/// A word, and what follows the space after it.
fn first_word(line: &str) -> (&str, &str) {
    match line.split_once(' ') {
        Some((word, rest)) => (word, rest),
        None => (line, ""),
    }
}

/// Does what a line says.
pub fn act(alloc: Global, fixture: &mut Fixture, line: &str) -> Result<(), AllocError> {
    let (word, rest) = first_word(line);
    match word {
        "" | ";" => Ok(()),
        "==" => begin(fixture, line),
        "let" | "file" | "+" | "put" => open(alloc, &mut fixture.shelf, word, rest),
        "|" | "text" | "x" | "fill" | "repeat" | "series" | "cut" => match fixture.shelf.last() {
            Some(bytes) => put_piece(alloc, bytes, word, rest),
            None => Ok(()),
        },
        "at" | "count" => change(alloc, &mut fixture.shelf, word, rest),
        "store" | "sink" | "last" => set(alloc, fixture, word, rest),
        "bytes" | "end" | "body" | "show" => ask(alloc, fixture, word, rest),
        "size" | "reads" => ask_number(alloc, fixture, word),
        "hold" => hold(alloc, fixture, rest),
        _ => do_row(alloc, fixture, line, word, rest),
    }
}

/// Begins a row, whose title is printed.
fn begin(fixture: &mut Fixture, line: &str) -> Result<(), AllocError> {
    fixture.begin();
    put_line(fixture.out(), "")?;
    put_line(fixture.out(), line)
}

/// Begins a file of all rows or of the row, a segment, or nothing, and appends pieces that are named.
fn open(alloc: Global, shelf: &mut Shelf, word: &str, rest: &str) -> Result<(), AllocError> {
    let (name, following) = first_word(rest);
    let pieces = match word {
        "let" | "file" => following,
        _ => rest,
    };
    match word {
        "let" => shelf.put_common(alloc, name)?,
        "file" => shelf.put(alloc, name, Vec::new(alloc))?,
        "+" => shelf.begin_segment(),
        _ => {}
    }
    for piece in pieces.split(' ') {
        put_named(alloc, shelf, piece)?;
    }
    Ok(())
}

/// Appends a copy of a file to the last one.
fn put_named(alloc: Global, shelf: &mut Shelf, name: &str) -> Result<(), AllocError> {
    let bytes = shelf.copy_of(alloc, name)?;
    match shelf.last() {
        Some(last) => last.extend_from_slice(&bytes),
        None => Ok(()),
    }
}

/// Appends a piece to a file, or cuts it.
fn put_piece(alloc: Global, bytes: &mut Vec<u8>, word: &str, rest: &str) -> Result<(), AllocError> {
    let (count, what) = first_word(rest);
    match word {
        "|" => {
            bytes.extend_from_slice(rest.as_bytes())?;
            bytes.push(b'\n')?;
            Ok(())
        }
        "text" => put_text(bytes, rest),
        "x" => put_hex(bytes, rest),
        "fill" => {
            let size = bytes.len().saturating_add(number(count));
            bytes.resize(size, (hex(what) % 256) as u8)
        }
        "repeat" => put_again(alloc, bytes, number(count), what),
        "series" => put_series(bytes, (number(count) % 0x1_0000) as u32, what),
        _ => {
            bytes.truncate(number(rest));
            Ok(())
        }
    }
}

/// Changes bytes of the segment, or sets BYTECNT to its size.
fn change(alloc: Global, shelf: &mut Shelf, word: &str, rest: &str) -> Result<(), AllocError> {
    if word == "count" {
        let size = (shelf.size() % 0x1_0000_0000) as u32;
        shelf.change(0, &size.to_le_bytes());
        return Ok(());
    }
    let (at, words) = first_word(rest);
    let mut bytes = Vec::new(alloc);
    put_hex(&mut bytes, words)?;
    shelf.change(displacement(at), &bytes);
    Ok(())
}

/// The numbers of calls.
fn calls_of(alloc: Global, words: &str) -> Result<Vec<u32>, AllocError> {
    let mut calls = Vec::new(alloc);
    for word in words.split(' ') {
        calls.push((number(word) % 0x1_0000) as u32)?;
    }
    Ok(calls)
}

/// Sets which calls fail, or how many of the last lines are printed.
fn set(alloc: Global, fixture: &mut Fixture, word: &str, rest: &str) -> Result<(), AllocError> {
    match word {
        "store" => fixture.store = calls_of(alloc, rest)?,
        "sink" => fixture.sink = calls_of(alloc, rest)?,
        _ => fixture.lines = number(rest),
    }
    Ok(())
}

/// Stores the bytes at `out` at a path of the row.
fn hold(alloc: Global, fixture: &mut Fixture, path: &str) -> Result<(), AllocError> {
    let bytes = match fixture.outcome.output() {
        Some(bytes) => bytes.to_vec(alloc)?,
        None => Vec::new(alloc),
    };
    fixture.shelf.put(alloc, path, bytes)
}

/// Prints a line, and then does what it says.
fn do_row(
    alloc: Global,
    fixture: &mut Fixture,
    line: &str,
    word: &str,
    rest: &str,
) -> Result<(), AllocError> {
    put_line(fixture.out(), line)?;
    let (what, following) = first_word(rest);
    match (word, what) {
        (">", "") => run_list(alloc, fixture, &Vec::new(alloc)),
        (">", _) => run_list(alloc, fixture, &words_of(alloc, rest)?),
        ("each", _) => run_each(alloc, fixture, what == "store", following),
        ("prefixes", _) => dump_prefixes(alloc, fixture, what == "counted", following),
        ("records", _) => link_records(alloc, fixture, what, following),
        ("asm", _) => assemble(alloc, fixture, what, following),
        ("forms", _) => assemble_forms(alloc, fixture, what, following),
        ("load", _) => load(alloc, fixture, what),
        ("script", _) => run_script(alloc, fixture, rest),
        ("expand" | "expands" | "places", _) => expand(alloc, fixture, word, what, following),
        _ => put_line(fixture.out(), "? no such line"),
    }
}

/// Runs the tool with these arguments over the row's files, and prints what it did.
fn run_list(alloc: Global, fixture: &mut Fixture, words: &Vec<String>) -> Result<(), AllocError> {
    let run = run(
        alloc,
        words,
        fixture.shelf.row(),
        &fixture.store,
        &fixture.sink,
    )?;
    let lines = fixture.lines;
    report_run(alloc, fixture.out(), &run, lines)?;
    fixture.outcome = run;
    Ok(())
}

/// Runs the tool with these arguments over one file, and prints this part of the bytes at `out` then, or else what the tool printed.
fn run_one(
    alloc: Global,
    fixture: &mut Fixture,
    words: &str,
    file: ShelfFile,
    part: (&str, &str),
) -> Result<(), AllocError> {
    let mut row = Vec::new(alloc);
    row.push(file)?;
    let run = run(alloc, &words_of(alloc, words)?, &row, &[], &[])?;
    match asked(&run, part.0, part.1) {
        Some(made) => report_bytes(fixture.out(), made)?,
        None => report_text(fixture.out(), &run.text)?,
    }
    fixture.outcome = run;
    Ok(())
}

/// A file at a path.
fn held(alloc: Global, path: &str, bytes: Vec<u8>) -> Result<ShelfFile, AllocError> {
    let path = String::from_str(alloc, path)?;
    Ok(ShelfFile { path, bytes })
}

/// A text between two files.
fn between(
    alloc: Global,
    shelf: &Shelf,
    before: &str,
    text: &str,
    following: &str,
) -> Result<Vec<u8>, AllocError> {
    let mut bytes = shelf.copy_of(alloc, before)?;
    put_text(&mut bytes, text)?;
    bytes.extend_from_slice(&shelf.copy_of(alloc, following)?)?;
    Ok(bytes)
}

/// The source that two words and the text after them give: the file of the first word, the text, and the file of the second.
fn source_of(
    alloc: Global,
    fixture: &Fixture,
    before: &str,
    rest: &str,
) -> Result<Vec<u8>, AllocError> {
    let (following, text) = first_word(rest);
    between(alloc, &fixture.shelf, before, text, following)
}

/// Assembles a source, and prints the records of its first segment.
fn assemble(
    alloc: Global,
    fixture: &mut Fixture,
    before: &str,
    rest: &str,
) -> Result<(), AllocError> {
    let source = source_of(alloc, fixture, before, rest)?;
    let file = held(alloc, "src", source)?;
    run_one(alloc, fixture, "asm src out", file, ("bytes", BODY))
}

/// What the tool prints for a source of the text `before` and one statement of a mnemonic with an operand.
fn said_of(
    alloc: Global,
    before: &[u8],
    mnemonic: &str,
    operand: &str,
) -> Result<Vec<u8>, AllocError> {
    let operand = if operand == "''" { "" } else { operand };
    let mut source = Vec::from_slice(alloc, before)?;
    let line = format!(in alloc; " {mnemonic} {operand}\n")?;
    source.extend_from_slice(line.as_bytes())?;
    let mut row = Vec::new(alloc);
    row.push(held(alloc, "src", source)?)?;
    let run = run(alloc, &words_of(alloc, "asm src out")?, &row, &[], &[])?;
    Ok(run.text)
}

/// Assembles a mnemonic with each of several operands after the line `START`, and reports what is printed: once for neighbours that have it
/// in common.
fn assemble_forms(
    alloc: Global,
    fixture: &mut Fixture,
    mnemonic: &str,
    operands: &str,
) -> Result<(), AllocError> {
    let before = fixture.shelf.copy_of(alloc, "START")?;
    let mut last = Vec::new(alloc);
    for operand in operands.split(' ') {
        let said = said_of(alloc, &before, mnemonic, operand)?;
        if said.as_slice() != last.as_slice() {
            report_form(alloc, fixture.out(), operand, &said)?;
            last = said;
        }
    }
    Ok(())
}

/// Reports what is printed from an operand on.
fn report_form(
    alloc: Global,
    out: &mut Vec<u8>,
    operand: &str,
    said: &[u8],
) -> Result<(), AllocError> {
    put_line(out, format!(in alloc; "from {operand}")?.as_str())?;
    report_text(out, said)
}

/// Runs a script.
fn run_script(alloc: Global, fixture: &mut Fixture, text: &str) -> Result<(), AllocError> {
    let file = held(alloc, "s", text_of(alloc, text)?)?;
    run_one(alloc, fixture, "run s", file, ("", ""))
}

/// Expands a source with the row's files.
fn expand(
    alloc: Global,
    fixture: &mut Fixture,
    word: &str,
    before: &str,
    rest: &str,
) -> Result<(), AllocError> {
    let source = source_of(alloc, fixture, before, rest)?;
    let mut reported = Vec::new(alloc);
    report_expanded(alloc, &mut reported, word, &source, fixture.shelf.row())?;
    fixture.out().extend_from_slice(&reported)
}

/// The object of a segment M of a given number of cells with these records, and of the segments that the file `OTHERS` has.
fn object_of(
    alloc: Global,
    shelf: &Shelf,
    cells: usize,
    records: &str,
) -> Result<Vec<u8>, AllocError> {
    let mut object = shelf.copy_of(alloc, "M")?;
    put_hex(&mut object, records)?;
    object.push(0)?;
    let size = (object.len() % 0x1_0000) as u32;
    put_at(&mut object, 0, &size.to_le_bytes());
    put_at(&mut object, 8, &((cells % 0x1_0000) as u32).to_le_bytes());
    object.extend_from_slice(&shelf.copy_of(alloc, "OTHERS")?)?;
    Ok(object)
}

/// Links records, and prints the body of the first load segment.
fn link_records(
    alloc: Global,
    fixture: &mut Fixture,
    cells: &str,
    records: &str,
) -> Result<(), AllocError> {
    let object = object_of(alloc, &fixture.shelf, number(cells), records)?;
    let file = held(alloc, "obj", object)?;
    run_one(alloc, fixture, "link out obj", file, ("body", ""))
}
