//! Starts of lines whose label and operation are known, whatever follows them.

ghost use Rattle.std.specs.Prelude.{◌≡◌, ◌≤◌, length, take, drop, IfOk, IfSome};
ghost use Rattle.orca_macro.specs.Head.{IsHead};

use macro_meaning::Statement;
use omf_base::Name;
use orca_symbols::{skip_sequence_symbol, statement_of};
use orca_text::{LinePart, is_comment, part, three_fields, to_upper_case};
use std::alloc::{AllocError, Global};

/// The start of a line, with a blank after its operation.
#[derive(Drop)]
pub(crate) struct LineHead {
    /// How many bytes the sequence symbol in column 1 has, which is cut off.
    pub(crate) sequence: usize,
    /// Where the label ends in the text after the sequence symbol.
    pub(crate) label: usize,
    /// Where the operation ends in the text after the sequence symbol.
    pub(crate) end: usize,
    /// The operation in upper case.
    pub(crate) operation: Name,
    /// The statement that it is.
    pub(crate) statement: Option<Statement>,
}

impl LineHead {
    /// What follows the sequence symbol.
    pub(crate) fn after_sequence<'a>(&self, text: LinePart<'a>) -> LinePart<'a>
        requires { self.now.sequence ≤ length text.bytes.now }
        ensures value { result.bytes.now ≡ drop self.now.sequence text.entry.bytes.now }
        ensures bound { length result.bytes.now ≤ length text.entry.bytes.now }
    {
        let (_, following) = text.bytes.split_at(self.sequence);
        LinePart { bytes: following }
    }

    /// The label in the text after the sequence symbol.
    pub(crate) fn label_in<'a>(&self, text: LinePart<'a>) -> LinePart<'a>
        requires { self.now.label ≤ length text.bytes.now }
        ensures value { result.bytes.now ≡ take self.now.label text.entry.bytes.now }
        ensures bound { length result.bytes.now ≤ length text.entry.bytes.now }
    {
        let (label, _) = text.bytes.split_at(self.label);
        LinePart { bytes: label }
    }
}

/// The head that these bytes are, if they are one.
#[tactic(auto, using(crate::proofs::Heads::head_is))]
pub(crate) fn head_of(alloc: Global, front: LinePart<'_>) -> Result<Option<LineHead>, AllocError>
    ensures { IfOk result (λ head. IfSome head (λ h. IsHead h front.entry.bytes.now)) }
{
    let text = skip_sequence_symbol(front);
    let fields = three_fields(text);
    let operation = part(text, fields.operation);
    if is_comment(text.bytes)
        || operation.bytes.is_empty()
        || fields.operation.to as usize >= text.bytes.len()
    {
        return Ok(None);
    }
    Ok(Some(LineHead {
        sequence: front.bytes.len() - text.bytes.len(),
        label: fields.label.to as usize,
        end: fields.operation.to as usize,
        operation: to_upper_case(alloc, operation)?,
        statement: statement_of(operation.bytes),
    }))
}
