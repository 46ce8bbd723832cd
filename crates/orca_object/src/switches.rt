//! LONGA, LONGI and MSB (ORCA/M reference manual, "Assembler directives").

ghost use Rattle.std.specs.Prelude.{◌≡◌, IfOk};
ghost use Rattle.asm_meaning.specs.Statement.{switch_of};
ghost use Rattle.asm_meaning.specs.laws.Steps.{turning};
ghost use Rattle.asm_meaning.specs.State.{State};
ghost use Rattle.orca_object.specs.StateView.{ShowsState, Leaves};

use crate::state::AsmState;
use asm_meaning::{AsmCause, Switch};
use omf_base::Name;
use orca_operands::pair_or_earlier_fault;
use orca_text::is_spelled;
use std::alloc::{AllocError, Global};

/// ON or OFF, in upper or lower case.
fn switch_of(text: &[u8]) -> Result<bool, AsmCause>
    ensures { result ≡ switch_of text.now }
{
    if is_spelled(text, b"ON") {
        return Ok(true);
    }
    if is_spelled(text, b"OFF") {
        return Ok(false);
    }
    Err(AsmCause::BadOperand)
}

impl AsmState {
    ghost use Rattle.std.specs.Prelude.{[], OnOk};
    ghost use Rattle.omf_format.specs.declared.codes.TheConstants.{DIRECTIVE_LABEL};
    ghost use Rattle.asm_meaning.specs.State.{State, in_segment, with_local_record, with_switch_set};
    ghost use Rattle.orca_object.specs.StateView.{ShowsState};

    /// LONGA, LONGI and MSB, with a label.
    fn put_switch(
        &mut self,
        alloc: Global,
        label: &Name,
        switch: Switch,
        on: bool,
    ) -> Result<(), AllocError>
        ensures { OnOk result ((state : State) → ShowsState state self.old → ShowsState (with_switch_set switch on (in_segment (with_local_record label.now DIRECTIVE_LABEL []) state)) self.new) }
    {
        self.mark_alone(alloc, label)?;
        match switch {
            Switch::LongA => self.widths.long_a = on,
            Switch::LongI => self.widths.long_i = on,
            Switch::Msb => self.msb = on,
        }
        Ok(())
    }
}

/// LONGA, LONGI and MSB.
pub(crate) fn turning(
    alloc: Global,
    kept: &mut AsmState,
    switch: Switch,
    label: Result<Name, AsmCause>,
    text: &[u8],
) -> Result<Result<(), AsmCause>, AllocError>
    ensures { IfOk result (λ done. (state : State) → ShowsState state kept.old → Leaves done kept.new (turning state switch label text.now)) }
{
    match pair_or_earlier_fault(label, switch_of(text)) {
        Ok((name, on)) => {
            kept.put_switch(alloc, &name, switch, on)?;
            Ok(Ok(()))
        }
        Err(cause) => Ok(Err(cause)),
    }
}
