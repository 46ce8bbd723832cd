//! What is known of a line before it is visited.

ghost use Rattle.std.specs.Prelude.{◌≡◌, ◌==◌, List, ℕ, length, true, false, IfOk};
ghost use Rattle.orca_meaning.specs.Line.{HaveFields, is_comment};
ghost use Rattle.orca_macro.specs.Head.{BeginsSo};
ghost use Rattle.orca_symbols.specs.Plain.{plain_len};
ghost use Rattle.orca_macro.specs.Plan.{known_effect, FitsDone, FitsStatement, FitsLine, Fits};
ghost use Rattle.orca_text.specs.View.{line};

use crate::head::{LineHead, head_of};
use macro_meaning::Statement;
use omf_base::Name;
use orca_symbols::{
    TemplatePart, is_plain, operation_is, parts_of, plain_front, skip_sequence_symbol,
    statement_of, target_name,
};
use orca_text::{LinePart, SourceLine, is_comment, part, three_fields};
use std::alloc::{AllocError, Global};

/// What a line does at each of its visits, as far as that rests on no symbol and no macro.
#[derive(Drop)]
pub(crate) enum KnownHead {
    /// That isn't known.
    Open,
    /// Nothing.
    Rests,
    /// It branches to a sequence symbol.
    Goes(Name),
    /// It ends its expansion.
    Leaves,
}

/// What is known of a line.
#[derive(Drop)]
pub(crate) enum LinePlan {
    /// It is a comment.
    Comment,
    /// It contains no `&`.
    Plain(KnownHead),
    /// Its parts, and what is known of its start.
    Parts(Vec<TemplatePart>, Option<LineHead>),
}

/// What a statement does.
fn known_of_done(
    alloc: Global,
    statement: Statement,
    text: LinePart<'_>,
    label: LinePart<'_>,
    operand: LinePart<'_>,
) -> Result<KnownHead, AllocError>
    ensures { IfOk result (λ p. FitsDone statement text.entry.bytes.now label.entry.bytes.now operand.entry.bytes.now (known_effect p)) }
{
    match statement {
        Statement::Branch => match target_name(alloc, operand)? {
            Some(name) => Ok(KnownHead::Goes(name)),
            None => Ok(KnownHead::Open),
        },
        Statement::Nothing => {
            if label.bytes.is_empty() {
                return Ok(KnownHead::Rests);
            }
            Ok(KnownHead::Open)
        }
        Statement::Leave => Ok(KnownHead::Leaves),
        Statement::Declare(_)
        | Statement::Set(_)
        | Statement::Middle
        | Statement::BranchIf
        | Statement::Count
        | Statement::Note
        | Statement::Define => Ok(KnownHead::Open),
    }
}

/// What the text after a line's sequence symbol does, where it isn't a comment.
#[tactic(auto, using(crate::proofs::Plans::statement_fits))]
fn known_of_statement(alloc: Global, text: LinePart<'_>) -> Result<KnownHead, AllocError>
    ensures { IfOk result (λ p. FitsStatement text.entry.bytes.now (known_effect p)) }
{
    let fields = three_fields(text);
    let operation = part(text, fields.operation);
    let label = part(text, fields.label);
    let operand = part(text, fields.operand);
    if operation.bytes.is_empty() {
        return Ok(KnownHead::Open);
    }
    match statement_of(operation.bytes) {
        Some(found) => known_of_done(alloc, found, text, label, operand),
        None => Ok(KnownHead::Open),
    }
}

/// What a line without `&` does that isn't a comment.
#[tactic(auto, using(crate::proofs::Plans::rest_fits, crate::proofs::Plans::line_fits))]
fn known_of(alloc: Global, of: &SourceLine, text: LinePart<'_>) -> Result<KnownHead, AllocError>
    requires fields { HaveFields of.now.text (line of.now).fields }
    requires text { text.bytes.now ≡ of.now.text }
    requires other { is_comment text.bytes.now ≡ false }
    requires plain { (plain_len text.bytes.now == length text.bytes.now) ≡ true }
    ensures { IfOk result (λ p. FitsLine (line of.now) (known_effect p)) }
{
    if operation_is(of, b"MACRO") {
        return Ok(KnownHead::Open);
    }
    let rest = skip_sequence_symbol(text);
    if is_comment(rest.bytes) {
        return Ok(KnownHead::Rests);
    }
    known_of_statement(alloc, rest)
}

/// What is known of the start of a line with these parts.
#[tactic(auto, using(crate::proofs::Heads::heads_begin, crate::proofs::Heads::no_head))]
fn head_in(alloc: Global, parts: &[TemplatePart]) -> Result<Option<LineHead>, AllocError>
    ensures { IfOk result (λ head. BeginsSo parts.now head) }
{
    match plain_front(parts) {
        Some(front) => head_of(alloc, front),
        None => Ok(None),
    }
}

/// What is known of a line.
#[tactic(auto, using(crate::proofs::Plans::plain_fits))]
pub(crate) fn plan_of(alloc: Global, of: &SourceLine) -> Result<LinePlan, AllocError>
    requires { HaveFields of.now.text (line of.now).fields }
    ensures { IfOk result (λ p. Fits (line of.now) p) }
{
    let text = of.text.bytes();
    if is_comment(text) {
        return Ok(LinePlan::Comment);
    }
    if is_plain(text) {
        let known = known_of(alloc, of, LinePart { bytes: text })?;
        return Ok(LinePlan::Plain(known));
    }
    let parts = parts_of(alloc, of)?;
    let head = head_in(alloc, parts.as_slice())?;
    Ok(LinePlan::Parts(parts, head))
}
