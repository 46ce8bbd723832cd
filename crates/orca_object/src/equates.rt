//! EQU and GEQU (ORCA/M reference manual, "EQU" and "GEQU"; GS/OS Reference, appendix F).

ghost use Rattle.std.specs.Prelude.{◌≡◌, IfOk};
ghost use Rattle.omf_format.specs.Expression.{IsExpression};
ghost use Rattle.asm_meaning.specs.Constant as meaning;
ghost use Rattle.asm_meaning.specs.Constant.{tree_of_amount};
ghost use Rattle.asm_meaning.specs.Formulas.{expression_text};
ghost use Rattle.asm_meaning.specs.laws.Steps.{value_of};
ghost use Rattle.orca_operands.specs.AmountView.{kept_view, kept_of};
ghost use Rattle.orca_operands.specs.FineView.{IsFineAmount};
ghost use Rattle.orca_meaning.specs.Line.{Line};
ghost use Rattle.asm_meaning.specs.declared.directives.Operation.TheVariants.{Direct};
ghost use Rattle.asm_meaning.specs.declared.directives.Directive.TheVariants as directives;
ghost use Rattle.asm_meaning.specs.State.{State};
ghost use Rattle.orca_object.specs.StateView.{ShowsState, IsLeft};
ghost use Rattle.orca_object.specs.DoneView.{IsSome};
ghost use Rattle.orca_object.specs.DoingView.{IsEquated, IsConstant};

use crate::state::AsmState;
use asm_meaning::AsmCause;
use omf_base::Name;
use omf_format::DIRECTIVE_LABEL;
use omf_records::Rec;
use orca_operands::{
    Amount, amount_in, number_in, number_text, pair_or_earlier_fault, shift_and_end,
};
use orca_text::LinePart;
use std::alloc::{AllocError, Global};

/// The expression of a number.
#[tactic(auto, using(crate::proofs::EquateLaws::number_spelled))]
fn number_expression(alloc: Global, n: u32) -> Result<Vec<u8>, AllocError>
    ensures text { IfOk result (λ v. (meant : meaning.Amount) → kept_view (Amount.Known n) ≡ kept_of 0 meant → v.items ≡ expression_text (tree_of_amount meant)) }
    ensures fine { IfOk result (λ v. IsExpression 0 v.items) }
{
    let text = number_text(alloc, n)?;
    shift_and_end(text, 0)
}

/// The expression of an amount.
fn expression_of(alloc: Global, amount: Amount) -> Result<Vec<u8>, AllocError>
    requires { IsFineAmount amount }
    ensures text { IfOk result (λ v. (meant : meaning.Amount) → kept_view amount ≡ kept_of 0 meant → v.items ≡ expression_text (tree_of_amount meant)) }
    ensures fine { IfOk result (λ v. IsExpression 0 v.items) }
{
    match amount {
        Amount::Known(n) => number_expression(alloc, n),
        Amount::Written(text) => shift_and_end(text, 0),
    }
}

/// The value that is known from the next line on.
fn value_of(amount: &Amount) -> Option<u32>
    ensures { (meant : meaning.Amount) → kept_view amount.now ≡ kept_of 0 meant → result ≡ value_of meant }
{
    match amount {
        Amount::Known(n) => Some(*n),
        Amount::Written(_) => None,
    }
}

impl AsmState {
    ghost use Rattle.std.specs.Prelude.{◌≡◌, ◌≤◌, length, OnOk};
    ghost use Rattle.asm_meaning.specs.Constant as meaning;
    ghost use Rattle.orca_operands.specs.AmountView.{kept_view, kept_of};
    ghost use Rattle.orca_operands.specs.FineView.{IsFineAmount};
    ghost use Rattle.asm_meaning.specs.State.{State, in_segment};
    ghost use Rattle.asm_meaning.specs.Statement.{with_equate};
    ghost use Rattle.orca_object.specs.StateView.{ShowsState};
    ghost use Rattle.orca_object.specs.EquateView.{with_constant};

    /// EQU and GEQU in a segment.
    fn equate(
        &mut self,
        alloc: Global,
        global: bool,
        label: &Name,
        amount: Amount,
    ) -> Result<(), AllocError>
        requires some { 1 ≤ length label.now }
        requires fine { IsFineAmount amount }
        ensures { OnOk result ((state : State) (meant : meaning.Amount) → ShowsState state self.old → kept_view amount ≡ kept_of 0 meant → ShowsState (in_segment (with_equate global label.now meant) state) self.new) }
    {
        let value = value_of(&amount);
        let expr = expression_of(alloc, amount)?;
        let equate = Rec::Equate {
            global,
            name: label.bytes(),
            length: 0,
            form: DIRECTIVE_LABEL,
            private: 0,
            expr: expr.as_slice(),
        };
        if let Some(open) = &mut self.segment {
            open.name_record(alloc, label, value, &equate)?;
            return Ok(());
        }
        Ok(())
    }

    /// GEQU outside segments.
    fn equate_outside(&mut self, alloc: Global, label: &Name, n: u32) -> Result<(), AllocError>
        requires some { 1 ≤ length label.now }
        ensures { OnOk result ((state : State) → ShowsState state self.old → ShowsState (with_constant label.now n state) self.new) }
    {
        let name = label.bytes();
        self.outside.set(alloc, name, n)?;
        let expr = number_expression(alloc, n)?;
        let equate = Rec::Equate {
            global: true,
            name,
            length: 0,
            form: DIRECTIVE_LABEL,
            private: 0,
            expr: expr.as_slice(),
        };
        self.front.put(&equate)?;
        Ok(())
    }
}

/// EQU, and GEQU in a segment.
fn do_equate(
    alloc: Global,
    kept: &mut AsmState,
    global: bool,
    label: Result<Name, AsmCause>,
    text: LinePart<'_>,
) -> Result<Result<(), AsmCause>, AllocError>
    requires some { IsSome label }
    ensures { IfOk result (λ done. (state : State) → ShowsState state kept.old → IsEquated state global label text.entry.bytes.now done kept.new) }
{
    let amount = amount_in(alloc, kept.known_constants(), text)?;
    match pair_or_earlier_fault(label, amount) {
        Ok((name, amount)) => {
            kept.equate(alloc, global, &name, amount)?;
            Ok(Ok(()))
        }
        Err(cause) => Ok(Err(cause)),
    }
}

/// GEQU outside segments.
fn do_constant(
    alloc: Global,
    kept: &mut AsmState,
    label: Result<Name, AsmCause>,
    text: LinePart<'_>,
) -> Result<Result<(), AsmCause>, AllocError>
    requires some { IsSome label }
    ensures { IfOk result (λ done. (state : State) → ShowsState state kept.old → IsConstant state label text.entry.bytes.now done kept.new) }
{
    let number = number_in(alloc, kept.known_constants(), text)?;
    match pair_or_earlier_fault(label, number) {
        Ok((name, n)) => {
            kept.equate_outside(alloc, &name, n)?;
            Ok(Ok(()))
        }
        Err(cause) => Ok(Err(cause)),
    }
}

/// EQU.
pub(crate) fn do_equ(
    alloc: Global,
    kept: &mut AsmState,
    label: Result<Name, AsmCause>,
    text: LinePart<'_>,
) -> Result<Result<(), AsmCause>, AllocError>
    requires some { IsSome label }
    ensures { IfOk result (λ done. (state : State) (l : Line) → ShowsState state kept.old → IsLeft state l (Direct directives.Equ) label text.entry.bytes.now done kept.new) }
{
    do_equate(alloc, kept, false, label, text)
}

/// GEQU.
pub(crate) fn do_gequ(
    alloc: Global,
    kept: &mut AsmState,
    label: Result<Name, AsmCause>,
    text: LinePart<'_>,
) -> Result<Result<(), AsmCause>, AllocError>
    requires some { IsSome label }
    ensures { IfOk result (λ done. (state : State) (l : Line) → ShowsState state kept.old → IsLeft state l (Direct directives.Gequ) label text.entry.bytes.now done kept.new) }
{
    if kept.is_open() {
        return do_equate(alloc, kept, true, label, text);
    }
    do_constant(alloc, kept, label, text)
}
