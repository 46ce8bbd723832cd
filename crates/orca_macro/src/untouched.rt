//! Lines that no macro and no statement of conditional assembly concerns.

ghost use Rattle.std.specs.Prelude.{IsTrue, ◌≡◌, ◌==◌, not, length};
ghost use Rattle.macro_meaning.specs.Effect.{operation_or_anop};
ghost use Rattle.orca_meaning.specs.Line.{HaveFields, fields_of, part};
ghost use Rattle.orca_macro.specs.Untouched.{IsUntouched, AreUntouched};
ghost use Rattle.orca_text.specs.View.{line};

use crate::visits::MOST_VISITS;
use macro_meaning::Statement;
use orca_symbols::{begins_dot, is_plain, operation_is, statement_of};
use orca_text::{Lines, SourceLine, is_comment};

/// The statement that an operation is. A line without one is read as ANOP.
#[inline(always)]
fn statement_or_anop(operation: &[u8]) -> Option<Statement>
    ensures { result ≡ operation_or_anop operation.now }
{
    if operation.is_empty() {
        return Some(Statement::Nothing);
    }
    statement_of(operation)
}

/// Whether a line has a label.
#[inline(always)]
fn is_labelled(of: &SourceLine) -> bool
    requires { HaveFields of.now.text (line of.now).fields }
    ensures { result ≡ not (length (part of.now.text of.now.label) == 0) }
{
    !of.part(of.label).bytes.is_empty()
}

/// Whether a line is a comment, or is given unchanged unless a macro has the name of its operation, whatever the symbols are: it
/// begins with no dot and has no `&`, and its operation is no statement of conditional assembly, or ANOP with a label.
#[inline(always)]
pub(crate) fn is_untouched(of: &SourceLine) -> bool
    requires fields { HaveFields of.now.text (line of.now).fields }
    requires own { (line of.now).fields ≡ fields_of of.now.text }
    ensures { IsTrue result → IsUntouched (line of.now) }
{
    let operation = of.part(of.operation).bytes;
    let text = of.text.bytes();
    if operation.is_empty() {
        if is_comment(text) {
            return true;
        }
    }
    if begins_dot(text) {
        return false;
    }
    if !is_plain(text) {
        return false;
    }
    if operation_is(of, b"MACRO") {
        return false;
    }
    match statement_or_anop(operation) {
        Some(Statement::Nothing) => is_labelled(of),
        Some(_) => false,
        None => true,
    }
}

/// Whether each line is untouched, and no more of them than are visited at most: without macros all but the comments are given.
#[tactic(auto, using(crate::proofs::Sources::to_none, crate::proofs::Sources::to_more))]
pub(crate) fn are_untouched(lines: &Lines) -> bool
    ensures { IsTrue result → AreUntouched lines.now }
{
    let count = lines.count();
    if count > MOST_VISITS {
        return false;
    }
    let mut at = 0;
    'lines: while at < count {
        let Some(line) = lines.get(at) else {
            unreachable!();
        };
        if !is_untouched(line) {
            return false;
        }
        at += 1;
    }
    true
}
