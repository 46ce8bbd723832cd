//! What a visited line does (ORCA/M reference manual, "Conditional assembly directives").

ghost use Rattle.std.specs.Prelude.{IsTrue, ◌≡◌, ◌==◌, ◌<◌, nat_lt, length, take, slice_get, Some, None, Ok, IfOk, MatchOption, false};
ghost use Rattle.macro_meaning.specs.Effect.{calling_at, IsEffect, IsStatement, without_sequence_symbol};
ghost use Rattle.macro_meaning.specs.laws.Steps.{calling_if, begins_definition, IsShort};
ghost use Rattle.macro_meaning.specs.Substitution.{first_passes};
ghost use Rattle.orca_symbols.specs.View.{values};
ghost use Rattle.orca_macro.specs.EffectView.{effect_view, where_};
ghost use Rattle.orca_macro.specs.Parts.{definition};
ghost use Rattle.orca_macro.specs.Plan.{Fits, FitsLine, IsGiven, IsPlain, known_effect};
ghost use Rattle.orca_macro.specs.Head.{HasFields, HasHead, MayHaveHead, BeginsSo};
ghost use Rattle.orca_symbols.specs.Template.{HasParts};
ghost use Rattle.orca_meaning.specs.Line.{HaveFields, fields_of, part, three_fields, is_comment};
ghost use Rattle.orca_meaning.specs.Characters.{folded};
ghost use Rattle.macro_meaning.specs.Definition.{first_named};
ghost use Rattle.orca_text.specs.View.{line};

use crate::definitions::MacroDefinition;
use crate::doing::effect_of_statement;
use crate::effect::Effect;
use crate::head::LineHead;
use crate::plan::{KnownHead, LinePlan};
use crate::program::MacroProgram;
use crate::untouched::is_untouched;
use macro_meaning::{MacroCause, Statement};
use orca_symbols::{
    Symbols, TemplatePart, Values, Word, bind_arguments, instantiate, is_folded, is_operation,
    is_plain, names_count, skip_sequence_symbol, statement_of, substitute,
};
use orca_text::{
    LinePart, SourceLine, is_comment, operand_after, part, three_fields, to_upper_case,
};
use std::alloc::{AllocError, Global};

/// Where a line is.
#[derive(Clone, Copy)]
pub(crate) struct Standing<'a> {
    pub(crate) program: &'a MacroProgram,
    /// The line of the source at which its outermost expansion began.
    pub(crate) root: u32,
    /// Whether it is a line of the source itself.
    pub(crate) in_source: bool,
    pub(crate) values: Values<'a>,
}

/// The first macro that an operation names, with its place.
fn macro_of_operation<'a>(
    alloc: Global,
    program: &'a MacroProgram,
    operation: LinePart<'_>,
) -> Result<Option<(usize, &'a MacroDefinition)>, AllocError>
    ensures { IfOk result (λ found. MatchOption found (first_named (folded operation.entry.bytes.now) program.now.definitions ≡ None)
        (λ x. (first_named (folded operation.entry.bytes.now) program.now.definitions ≡ Some x.0) × (slice_get program.now.definitions x.0 ≡ Some (definition x.1.now)))) }
{
    if is_folded(operation.bytes) {
        return Ok(program.macro_by_name(operation.bytes));
    }
    let asked = to_upper_case(alloc, operation)?;
    Ok(program.macro_by_name(asked.bytes()))
}

/// A call of this macro, or a line that is given, where it doesn't count yet.
fn effect_of_call<'a>(
    alloc: Global,
    at: Standing<'_>,
    text: LinePart<'a>,
    place: usize,
    found: &MacroDefinition,
    label: LinePart<'_>,
    operand: LinePart<'_>,
    spare: &mut Symbols,
) -> Result<Effect<'a>, AllocError>
    ensures { IfOk result (λ d. effect_view d ≡ calling_if (where_ at.entry).root text.entry.bytes.now place (Some (definition found.now)) label.entry.bytes.now operand.entry.bytes.now) }
{
    if found.visible_after >= at.root {
        return Ok(Effect::Emit(Word::borrowed(text)));
    }
    if names_count(&found.model) {
        return Ok(Effect::Fail(MacroCause::BadSetting));
    }
    let taken = std::mem::replace(spare, Symbols::new(alloc));
    match bind_arguments(alloc, &found.model, label, operand, taken)? {
        Some(symbols) => Ok(Effect::CallMacro(place, symbols)),
        None => Ok(Effect::Fail(MacroCause::BadArguments)),
    }
}

/// A call of a macro, or a line that is given.
fn calling<'a>(
    alloc: Global,
    at: Standing<'_>,
    text: LinePart<'a>,
    operation: LinePart<'_>,
    label: LinePart<'_>,
    operand: LinePart<'_>,
    spare: &mut Symbols,
) -> Result<Effect<'a>, AllocError>
    ensures { IfOk result (λ d. effect_view d ≡ calling_at (where_ at.entry).definitions (where_ at.entry).root text.entry.bytes.now
        (first_named (folded operation.entry.bytes.now) (where_ at.entry).definitions) label.entry.bytes.now operand.entry.bytes.now) }
{
    match macro_of_operation(alloc, at.program, operation)? {
        Some((place, found)) => effect_of_call(
            alloc, at, text, place, found, label, operand, spare,
        ),
        None => Ok(Effect::Emit(Word::borrowed(text))),
    }
}

/// What the text after a line's sequence symbol does, with the symbols' texts in place, where it isn't a comment.
fn effect_of_statement_text<'a>(
    alloc: Global,
    at: Standing<'_>,
    text: LinePart<'a>,
    spare: &mut Symbols,
) -> Result<Effect<'a>, AllocError>
    ensures { IfOk result (λ d. IsStatement (where_ at.entry) text.entry.bytes.now (three_fields text.entry.bytes.now) (effect_view d)) }
{
    let fields = three_fields(text);
    let operation = part(text, fields.operation);
    let label = part(text, fields.label);
    let operand = part(text, fields.operand);
    if operation.bytes.is_empty() {
        return effect_of_statement(alloc, at.values, Statement::Nothing, text, label, operand);
    }
    match statement_of(operation.bytes) {
        Some(found) => effect_of_statement(alloc, at.values, found, text, label, operand),
        None => calling(alloc, at, text, operation, label, operand, spare),
    }
}

/// Whether a line is the MACRO line of a definition in the source.
fn begins_definition(at: Standing<'_>, of: &SourceLine) -> bool
    requires { HaveFields of.now.text (line of.now).fields }
    ensures { result ≡ begins_definition (where_ at.entry) (line of.now) }
{
    at.in_source && is_operation(of.part(of.operation).bytes, b"MACRO")
}

/// What a line does, with the texts in place.
fn effect_of_text<'a>(
    alloc: Global,
    at: Standing<'_>,
    of: &SourceLine,
    text: &'a [u8],
    spare: &mut Symbols,
) -> Result<Effect<'a>, AllocError>
    requires { HaveFields of.now.text (line of.now).fields }
    ensures { IfOk result (λ d. IsShort (where_ at.entry) (line of.now) (nat_lt 255 (length text.now)) text.now (effect_view d)) }
{
    if text.len() > 255 {
        return Ok(Effect::Fail(MacroCause::LineTooLong));
    }
    if begins_definition(at, of) {
        return Ok(Effect::NoEffect);
    }
    let rest = skip_sequence_symbol(LinePart { bytes: text });
    if is_comment(rest.bytes) {
        return Ok(Effect::NoEffect);
    }
    effect_of_statement_text(alloc, at, rest, spare)
}

/// Whether a line is given unchanged, whatever the symbols are: it is no comment, it is untouched, and its operation isn't
/// the name of a macro.
#[tactic(auto, using(crate::proofs::Given::given_unnamed))]
pub(crate) fn is_given(
    alloc: Global,
    program: &MacroProgram,
    of: &SourceLine,
) -> Result<bool, AllocError>
    requires fields { HaveFields of.now.text (line of.now).fields }
    requires own { (line of.now).fields ≡ fields_of of.now.text }
    ensures { IfOk result (λ given. IsTrue given → IsGiven program.now.definitions (line of.now)) }
{
    if is_comment(of.text.bytes()) {
        return Ok(false);
    }
    if !is_untouched(of) {
        return Ok(false);
    }
    match macro_of_operation(alloc, program, of.part(of.operation))? {
        Some(_) => Ok(false),
        None => Ok(true),
    }
}

/// A call of the macro that a head names, or a line that is given.
fn headed_call<'a>(
    alloc: Global,
    at: Standing<'_>,
    text: LinePart<'a>,
    head: &LineHead,
    spare: &mut Symbols,
) -> Result<Effect<'a>, AllocError>
    requires { HasFields head.now text.bytes.now }
    ensures { IfOk result (λ d. effect_view d ≡ calling_at (where_ at.entry).definitions (where_ at.entry).root text.entry.bytes.now
        (first_named head.now.operation (where_ at.entry).definitions) (take head.now.label text.entry.bytes.now) (part text.entry.bytes.now (three_fields text.entry.bytes.now).operand)) }
{
    match at.program.macro_by_name(head.operation.bytes()) {
        Some((place, found)) => {
            let operand = operand_after(text, head.end);
            effect_of_call(
                alloc,
                at,
                text,
                place,
                found,
                head.label_in(text),
                operand,
                spare,
            )
        }
        None => Ok(Effect::Emit(Word::borrowed(text))),
    }
}

/// What the text after a line's sequence symbol does, where the line has a head.
#[tactic(auto, using(crate::proofs::Heads::statement_ok, crate::proofs::Heads::call_ok))]
fn headed_statement<'a>(
    alloc: Global,
    at: Standing<'_>,
    text: LinePart<'a>,
    head: &LineHead,
    spare: &mut Symbols,
) -> Result<Effect<'a>, AllocError>
    requires { HasFields head.now text.bytes.now }
    ensures { IfOk result (λ d. IsStatement (where_ at.entry) text.entry.bytes.now (three_fields text.entry.bytes.now) (effect_view d)) }
{
    match head.statement {
        Some(statement) => {
            let operand = operand_after(text, head.end);
            effect_of_statement(
                alloc,
                at.values,
                statement,
                text,
                head.label_in(text),
                operand,
            )
        }
        None => headed_call(alloc, at, text, head, spare),
    }
}

/// What a line does that has a head.
#[tactic(auto, using(crate::proofs::Heads::after_cut, crate::proofs::Heads::after_has))]
fn effect_of_head<'a>(
    alloc: Global,
    at: Standing<'_>,
    of: &SourceLine,
    text: &'a [u8],
    head: &LineHead,
    spare: &mut Symbols,
) -> Result<Effect<'a>, AllocError>
    requires fields { HaveFields of.now.text (line of.now).fields }
    requires head { HasHead head.now text.now }
    ensures { IfOk result (λ d. IsShort (where_ at.entry) (line of.now) (nat_lt 255 (length text.now)) text.now (effect_view d)) }
{
    if text.len() > 255 {
        return Ok(Effect::Fail(MacroCause::LineTooLong));
    }
    if begins_definition(at, of) {
        return Ok(Effect::NoEffect);
    }
    let following = head.after_sequence(LinePart { bytes: text });
    headed_statement(alloc, at, following, head, spare)
}

/// What a visited line does. The buffer takes its text, so that not every line allocates memory.
pub(crate) fn effect_of<'a>(
    alloc: Global,
    at: Standing<'_>,
    of: &'a SourceLine,
    buffer: &'a mut Vec<u8>,
    spare: &mut Symbols,
) -> Result<Effect<'a>, AllocError>
    requires { HaveFields of.now.text (line of.now).fields }
    ensures { IfOk result (λ d. IsEffect (where_ at.entry) (line of.now) (effect_view d)) }
{
    let text = of.text.bytes();
    if is_comment(text) {
        return Ok(Effect::NoEffect);
    }
    if is_plain(text) {
        return effect_of_text(alloc, at, of, text, spare);
    }
    let taken = std::mem::replace(buffer, Vec::new(alloc));
    match substitute(alloc, at.values, of, taken)? {
        Some(text) => {
            *buffer = text;
            effect_of_text(alloc, at, of, buffer.as_slice(), spare)
        }
        None => Ok(Effect::Fail(MacroCause::NoSuchSymbol)),
    }
}

/// What a line without `&` does.
#[tactic(auto, using(crate::proofs::Plans::always))]
fn effect_of_known<'a>(
    alloc: Global,
    at: Standing<'_>,
    of: &'a SourceLine,
    said: &'a KnownHead,
    spare: &mut Symbols,
) -> Result<Effect<'a>, AllocError>
    requires fields { HaveFields of.now.text (line of.now).fields }
    requires plain { IsPlain (line of.now) }
    requires known { FitsLine (line of.now) (known_effect said.now) }
    ensures { IfOk result (λ d. IsEffect (where_ at.entry) (line of.now) (effect_view d)) }
{
    match said {
        KnownHead::Rests => Ok(Effect::NoEffect),
        KnownHead::Leaves => Ok(Effect::Exit),
        KnownHead::Goes(target) => {
            let name = LinePart {
                bytes: target.bytes(),
            };
            Ok(Effect::BranchTo(Word::borrowed(name)))
        }
        KnownHead::Open => effect_of_text(alloc, at, of, of.text.bytes(), spare),
    }
}

/// What a line with its text in place does, where something may be known of its start.
fn with_head<'a>(
    alloc: Global,
    at: Standing<'_>,
    of: &SourceLine,
    text: &'a [u8],
    head: &Option<LineHead>,
    spare: &mut Symbols,
) -> Result<Effect<'a>, AllocError>
    requires fields { HaveFields of.now.text (line of.now).fields }
    requires head { MayHaveHead head.now text.now }
    ensures { IfOk result (λ d. IsShort (where_ at.entry) (line of.now) (nat_lt 255 (length text.now)) text.now (effect_view d)) }
{
    match head {
        Some(head) => effect_of_head(alloc, at, of, text, head, spare),
        None => effect_of_text(alloc, at, of, text, spare),
    }
}

/// What a line with these parts does. The buffer takes its text, so that not every line allocates memory.
#[tactic(auto, using(crate::proofs::Heads::begins_so))]
fn effect_of_fields<'a>(
    alloc: Global,
    at: Standing<'_>,
    of: &SourceLine,
    parts: &[TemplatePart],
    head: &Option<LineHead>,
    buffer: &'a mut Vec<u8>,
    spare: &mut Symbols,
) -> Result<Effect<'a>, AllocError>
    requires fields { HaveFields of.now.text (line of.now).fields }
    requires other { is_comment of.now.text ≡ false }
    requires parts { HasParts (line of.now) parts.now }
    requires head { BeginsSo parts.now head.now }
    ensures { IfOk result (λ d. IsEffect (where_ at.entry) (line of.now) (effect_view d)) }
{
    if !instantiate(at.values, parts, buffer)? {
        return Ok(Effect::Fail(MacroCause::NoSuchSymbol));
    }
    with_head(alloc, at, of, buffer.as_slice(), head, spare)
}

/// What a visited line does, of which something is known.
#[tactic(auto, using(crate::proofs::Plans::comment_rests))]
pub(crate) fn effect_of_template<'a>(
    alloc: Global,
    at: Standing<'_>,
    of: &'a SourceLine,
    plan: &'a LinePlan,
    buffer: &'a mut Vec<u8>,
    spare: &mut Symbols,
) -> Result<Effect<'a>, AllocError>
    requires fields { HaveFields of.now.text (line of.now).fields }
    requires plan { Fits (line of.now) plan.now }
    ensures { IfOk result (λ d. IsEffect (where_ at.entry) (line of.now) (effect_view d)) }
{
    match plan {
        LinePlan::Comment => Ok(Effect::NoEffect),
        LinePlan::Plain(said) => effect_of_known(alloc, at, of, said, spare),
        LinePlan::Parts(parts, head) => effect_of_fields(
            alloc,
            at,
            of,
            parts.as_slice(),
            head,
            buffer,
            spare,
        ),
    }
}
