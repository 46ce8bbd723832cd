//! What a line's operation is, where it may be, and its label (ORCA/M reference manual, "Assembler directives", "The label
//! field").

ghost use Rattle.std.specs.Prelude.{◌≡◌, bytes_eq, is_some, IfOk, true};
ghost use Rattle.orca_meaning.specs.Characters.{folded};
ghost use Rattle.orca_meaning.specs.Line.{LiesIn, part};
ghost use Rattle.orca_meaning.specs.Operation.{value_of_spelling};
ghost use Rattle.asm_meaning.specs.Operations.{directives, ignored_directives, as_ignored, operation_of};
ghost use Rattle.orca_object.specs.Tables.{directives_after_gequ};
ghost use Rattle.asm_meaning.specs.Statement.{following_here, is_labelled, needs_segment, begins_segment, needs_label, label_of};
ghost use Rattle.orca_operands.specs.OperandView.{name_answer, no_label};
ghost use Rattle.asm_meaning.specs.State.{State};
ghost use Rattle.orca_object.specs.DoneView.{IsSome};
ghost use Rattle.orca_object.specs.StateView.{ShowsState};

use crate::state::AsmState;
use asm_meaning::{AsmCause, Class, Directive, Operation, Switch};
use omf_base::Name;
use orca_operands::{following_here, is_name};
use orca_text::{DecodedLine, LinePart, is_spelled, to_upper_case};
use std::alloc::{AllocError, Global};

/// Whether an operation has this spelling.
fn is_operation(operation: &[u8], spelling: &[u8]) -> bool
    ensures { result ≡ bytes_eq spelling.now (folded operation.now) }
{
    is_spelled(operation, spelling)
}

/// A directive without effect.
#[tactic(auto, unfolding(asm_meaning::specs::Operations::ignored_directives, orca_meaning::specs::Operation::value_of_spelling))]
fn ignored_directive(operation: &[u8]) -> Option<Directive>
    ensures { result ≡ value_of_spelling (folded operation.now) (Rattle.std.specs.Prelude.map as_ignored ignored_directives) }
{
    if is_operation(operation, b"KEEP") {
        return Some(Directive::Ignored);
    }
    if is_operation(operation, b"MCOPY") {
        return Some(Directive::Ignored);
    }
    if is_operation(operation, b"LIST") {
        return Some(Directive::Ignored);
    }
    if is_operation(operation, b"GEN") {
        return Some(Directive::Ignored);
    }
    if is_operation(operation, b"SYMBOL") {
        return Some(Directive::Ignored);
    }
    if is_operation(operation, b"EXPAND") {
        return Some(Directive::Ignored);
    }
    if is_operation(operation, b"TITLE") {
        return Some(Directive::Ignored);
    }
    if is_operation(operation, b"EJECT") {
        return Some(Directive::Ignored);
    }
    if is_operation(operation, b"PRINTER") {
        return Some(Directive::Ignored);
    }
    if is_operation(operation, b"ABSADDR") {
        return Some(Directive::Ignored);
    }
    if is_operation(operation, b"65816") {
        return Some(Directive::Ignored);
    }
    None
}

/// A directive that is after GEQU in the table.
#[tactic(auto, unfolding(orca_meaning::specs::Operation::value_of_spelling))]
fn later_directive(operation: &[u8]) -> Option<Directive>
    ensures { result ≡ value_of_spelling (folded operation.now) directives_after_gequ }
{
    if is_operation(operation, b"DC") {
        return Some(Directive::Constants);
    }
    if is_operation(operation, b"DS") {
        return Some(Directive::Space);
    }
    if is_operation(operation, b"ALIGN") {
        return Some(Directive::Align);
    }
    if is_operation(operation, b"ORG") {
        return Some(Directive::Org);
    }
    if is_operation(operation, b"KIND") {
        return Some(Directive::Kind);
    }
    if is_operation(operation, b"LONGA") {
        return Some(Directive::Turn(Switch::LongA));
    }
    if is_operation(operation, b"LONGI") {
        return Some(Directive::Turn(Switch::LongI));
    }
    if is_operation(operation, b"MSB") {
        return Some(Directive::Turn(Switch::Msb));
    }
    if is_operation(operation, b"ANOP") {
        return Some(Directive::Nothing);
    }
    ignored_directive(operation)
}

/// The directive that an operation is, in upper or lower case.
#[tactic(auto, unfolding(asm_meaning::specs::Operations::directives, orca_meaning::specs::Operation::value_of_spelling))]
fn directive_of(operation: &[u8]) -> Option<Directive>
    ensures { result ≡ value_of_spelling (folded operation.now) directives }
{
    if is_operation(operation, b"START") {
        return Some(Directive::Begin(Class::Code));
    }
    if is_operation(operation, b"PRIVATE") {
        return Some(Directive::Begin(Class::PrivateCode));
    }
    if is_operation(operation, b"DATA") {
        return Some(Directive::Begin(Class::Data));
    }
    if is_operation(operation, b"PRIVDATA") {
        return Some(Directive::Begin(Class::PrivateData));
    }
    if is_operation(operation, b"END") {
        return Some(Directive::End);
    }
    if is_operation(operation, b"ENTRY") {
        return Some(Directive::Entry);
    }
    if is_operation(operation, b"USING") {
        return Some(Directive::Using);
    }
    if is_operation(operation, b"EQU") {
        return Some(Directive::Equ);
    }
    if is_operation(operation, b"GEQU") {
        return Some(Directive::Gequ);
    }
    later_directive(operation)
}

/// What a line's operation is. A line without one is read as ANOP.
#[tactic(auto, unfolding(asm_meaning::specs::Operations::operation_of))]
pub(crate) fn operation_of(of: &DecodedLine) -> Option<Operation>
    requires { LiesIn of.now.line.text of.now.line.operation }
    ensures { result ≡ operation_of (part of.now.line.text of.now.line.operation) }
{
    let operation = of.line.part(of.line.operation).bytes;
    if operation.is_empty() {
        return Some(Operation::Direct(Directive::Nothing));
    }
    if let Some(mnemonic) = of.operation.mnemonic {
        return Some(Operation::Instruct(mnemonic));
    }
    match directive_of(operation) {
        Some(directive) => Some(Operation::Direct(directive)),
        None => None,
    }
}

/// Whether a statement has a label.
#[inline(always)]
fn is_labelled(label: &[u8]) -> bool
    ensures { result ≡ is_labelled label.now }
{
    match label.split_first() {
        Some(_) => true,
        None => false,
    }
}

/// Whether an operand begins with `*+`.
fn begins_here(operand: &[u8]) -> bool
    ensures { result ≡ is_some (following_here operand.now) }
{
    match following_here(operand) {
        Some(_) => true,
        None => false,
    }
}

/// Whether a statement must not be outside segments.
#[inline(always)]
pub(crate) fn needs_segment(operation: Operation, label: &[u8], operand: &[u8]) -> bool
    ensures { result ≡ needs_segment operation label.now operand.now }
{
    let directive = match operation {
        Operation::Instruct(_) => return true,
        Operation::Direct(directive) => directive,
    };
    match directive {
        Directive::Begin(_) => false,
        Directive::End => true,
        Directive::Entry => true,
        Directive::Using => true,
        Directive::Equ => true,
        Directive::Gequ => false,
        Directive::Constants => true,
        Directive::Space => true,
        Directive::Align => is_labelled(label),
        Directive::Org => is_labelled(label) || begins_here(operand),
        Directive::Kind => true,
        Directive::Turn(_) => is_labelled(label),
        Directive::Nothing => is_labelled(label),
        Directive::Ignored => is_labelled(label),
    }
}

/// Whether a statement begins a segment.
#[inline(always)]
pub(crate) fn begins_segment(operation: Operation) -> bool
    ensures { result ≡ begins_segment operation }
{
    match operation {
        Operation::Direct(Directive::Begin(_)) => true,
        Operation::Direct(_) => false,
        Operation::Instruct(_) => false,
    }
}

/// Whether a statement needs a label.
#[inline(always)]
fn needs_label(operation: Operation) -> bool
    ensures { result ≡ needs_label operation }
{
    match operation {
        Operation::Direct(Directive::Begin(_)) => true,
        Operation::Direct(Directive::Entry) => true,
        Operation::Direct(Directive::Equ) => true,
        Operation::Direct(Directive::Gequ) => true,
        Operation::Direct(_) => false,
        Operation::Instruct(_) => false,
    }
}

/// No label, unless the operation needs one.
fn no_label(alloc: Global, operation: Operation) -> Result<Name, AsmCause>
    ensures { name_answer result ≡ no_label operation }
{
    if needs_label(operation) {
        return Err(AsmCause::BadLabel);
    }
    Ok(Name::from_vec(Vec::new(alloc)))
}

/// A label in upper case, empty where there is none; `Duplicate` where it can't be defined again.
pub(crate) fn label_of(
    alloc: Global,
    kept: &AsmState,
    operation: Operation,
    text: LinePart<'_>,
) -> Result<Result<Name, AsmCause>, AllocError>
    ensures value { IfOk result (λ answer. (state : State) → ShowsState state kept.now → answer ≡ label_of state operation text.entry.bytes.now) }
    ensures some { IfOk result (λ answer. needs_label operation ≡ true → IsSome answer) }
{
    if text.bytes.is_empty() {
        return Ok(no_label(alloc, operation));
    }
    if !is_name(text.bytes) {
        return Ok(Err(AsmCause::BadLabel));
    }
    let name = to_upper_case(alloc, text)?;
    if kept.is_taken(begins_segment(operation), name.bytes()) {
        return Ok(Err(AsmCause::Duplicate));
    }
    Ok(Ok(name))
}
