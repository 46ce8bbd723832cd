//! Model lines (ORCA/M reference manual, "Macro definitions").

ghost use Rattle.std.specs.Prelude.{◌≡◌, [], List, ℕ, Some, None, IfOk, MatchOption, option_map};
ghost use Rattle.macro_meaning.specs.Definition.{names_of, parameters_of, label_of, model_of};
ghost use Rattle.macro_meaning.specs.laws.Steps.{model_by};
ghost use Rattle.orca_symbols.specs.ModelView.{model};
ghost use Rattle.orca_text.specs.View.{fields};
ghost use Rattle.orca_meaning.specs.Line.{HaveFields};

use crate::names::{symbol_name, whole_match};
use crate::operands::{OperandPiece, piece_at, pieces};
use omf_base::Name;
use orca_text::{LineFields, LinePart, is_comment, name_at, part, three_fields};
use std::alloc::{AllocError, Global};

/// What a model line says, with all names in upper case.
#[derive(Drop)]
pub struct ModelLine {
    /// The macro's name.
    pub name: Name,
    /// Its label parameter.
    pub label: Option<Name>,
    /// Its parameters.
    pub parameters: Vec<Name>,
}

/// The names of parameters `&NAME`.
#[tactic(auto, using(crate::proofs::Models::names_start, crate::proofs::Models::names_next, crate::proofs::Models::names_none, crate::proofs::Models::names_end))]
fn names_of(alloc: Global, pieces: &[OperandPiece<'_>]) -> Result<Option<Vec<Name>>, AllocError>
    ensures { IfOk result (λ found. MatchOption found (names_of pieces.now ≡ None) (λ v. names_of pieces.now ≡ Some v.items)) }
{
    let mut names = Vec::new(alloc);
    let mut at = 0;
    'pieces: loop {
        let Some(piece) = piece_at(pieces, at) else {
            return Ok(Some(names));
        };
        let Some(name) = symbol_name(alloc, piece.part())? else {
            return Ok(None);
        };
        names.push(name)?;
        at += 1;
    }
}

/// The parameters of an operand.
fn parameters_of(alloc: Global, operand: LinePart<'_>) -> Result<Option<Vec<Name>>, AllocError>
    ensures { IfOk result (λ found. MatchOption found (parameters_of operand.entry.bytes.now ≡ None) (λ v. parameters_of operand.entry.bytes.now ≡ Some v.items)) }
{
    if operand.bytes.is_empty() {
        return Ok(Some(Vec::new(alloc)));
    }
    let found = pieces(alloc, b',', operand)?;
    names_of(alloc, found.as_slice())
}

/// The label parameter, which may be missing; none where the label is no parameter.
fn label_of(alloc: Global, label: LinePart<'_>) -> Result<Option<Option<Name>>, AllocError>
    ensures { IfOk result (λ found. found ≡ label_of label.entry.bytes.now) }
{
    if label.bytes.is_empty() {
        return Ok(Some(None));
    }
    match symbol_name(alloc, label)? {
        Some(name) => Ok(Some(Some(name))),
        None => Ok(None),
    }
}

/// The model line with these fields.
fn model_by(
    alloc: Global,
    text: LinePart<'_>,
    at: LineFields,
) -> Result<Option<ModelLine>, AllocError>
    requires { HaveFields text.bytes.now (fields at) }
    ensures { IfOk result (λ found. MatchOption found (model_by text.entry.bytes.now (fields at) ≡ None) (λ m. model_by text.entry.bytes.now (fields at) ≡ Some (model m))) }
{
    let named = name_at(alloc, part(text, at.operation))?;
    let Some(name) = whole_match(named) else {
        return Ok(None);
    };
    let Some(label) = label_of(alloc, part(text, at.label))? else {
        return Ok(None);
    };
    let Some(parameters) = parameters_of(alloc, part(text, at.operand))? else {
        return Ok(None);
    };
    Ok(Some(ModelLine {
        name,
        label,
        parameters,
    }))
}

/// What a line says as a model line, if it is one.
#[tactic(auto, unfolding(macro_meaning::specs::Definition::model_of))]
pub fn model_of(alloc: Global, text: LinePart<'_>) -> Result<Option<ModelLine>, AllocError>
    ensures { IfOk result (λ found. MatchOption found (model_of text.entry.bytes.now ≡ None) (λ m. model_of text.entry.bytes.now ≡ Some (model m))) }
{
    if is_comment(text.bytes) {
        return Ok(None);
    }
    model_by(alloc, text, three_fields(text))
}
