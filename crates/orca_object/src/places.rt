//! ALIGN and ORG (ORCA/M reference manual, "ALIGN" and "ORG"; GS/OS Reference, appendix F).

ghost use Rattle.std.specs.Prelude.{◌≡◌, IfOk};
ghost use Rattle.omf_format.specs.Header.{alignment_of};
ghost use Rattle.orca_meaning.specs.Line.{Line};
ghost use Rattle.asm_meaning.specs.State.{State};
ghost use Rattle.orca_object.specs.StateView.{ShowsState, Leaves, IsLeft};
ghost use Rattle.orca_object.specs.DoneView.{aligned_by, moved_by};
ghost use Rattle.asm_meaning.specs.declared.directives.Operation.TheVariants.{Direct};
ghost use Rattle.asm_meaning.specs.declared.directives.Directive.TheVariants as directives;
ghost use Rattle.orca_object.specs.DoingView.{HasDistance};

use crate::state::AsmState;
use asm_meaning::AsmCause;
use omf_base::{Name, padding};
use omf_records::Rec;
use orca_operands::{following_here, number_in, pair_or_earlier_fault};
use orca_text::LinePart;
use std::alloc::{AllocError, Global};

/// Of what the address of a segment with this ALIGN is a multiple.
fn address_alignment(align: u32) -> u32
    ensures { result ≡ alignment_of align }
{
    match align {
        0 => 1,
        1..=0x100 => 0x100,
        _ => 0x10000,
    }
}

impl AsmState {
    ghost use Rattle.std.specs.Prelude.{◌≡◌, ◌≤◌, Ok, IfOk};
    ghost use Rattle.asm_meaning.specs.State.{State};
    ghost use Rattle.asm_meaning.specs.Statement.{alignment_in, state_after_align, distance_in, state_after_org};
    ghost use Rattle.orca_object.specs.StateView.{ShowsState, Leaves};
    ghost use Rattle.orca_object.specs.ActView.{IsNear};

    /// An alignment: a power of two up to $10000, and in a segment up to its own.
    fn check_alignment(&self, n: u32) -> Result<u32, AsmCause>
        ensures value { (state : State) → ShowsState state self.now → result ≡ alignment_in state n }
        ensures some { IfOk result (λ n. 1 ≤ n) }
    {
        let most = match &self.segment {
            Some(open) => address_alignment(open.align),
            None => 0x10000,
        };
        if n.is_power_of_two() && n <= most {
            return Ok(n);
        }
        Err(AsmCause::BadOperand)
    }

    /// ALIGN.
    fn put_align(
        &mut self,
        alloc: Global,
        label: &Name,
        n: u32,
    ) -> Result<Result<(), AsmCause>, AllocError>
        requires some { 1 ≤ n }
        ensures { IfOk result (λ done. (state : State) → ShowsState state self.old → Leaves done self.new (Ok (state_after_align state state.segment label.now n))) }
    {
        if let Some(open) = &mut self.segment {
            let size = u64::from(padding(n, open.body.cells as u32));
            return open.give_record(alloc, label, &Rec::Align { n }, size);
        }
        self.align = n;
        Ok(Ok(()))
    }

    /// A distance of ORG: in a segment one below $80000000.
    fn distance(&self, n: u32) -> Result<u32, AsmCause>
        ensures value { (state : State) → ShowsState state self.now → result ≡ distance_in state.segment n }
        ensures near { IfOk result (IsNear self.now.segment) }
    {
        if self.segment.is_some() && n >= 0x8000_0000 {
            return Err(AsmCause::BadOperand);
        }
        Ok(n)
    }

    /// ORG.
    fn org(
        &mut self,
        alloc: Global,
        label: &Name,
        n: u32,
    ) -> Result<Result<(), AsmCause>, AllocError>
        requires near { IsNear self.old.segment n }
        ensures { IfOk result (λ done. (state : State) → ShowsState state self.old → Leaves done self.new (Ok (state_after_org state state.segment label.now n))) }
    {
        if let Some(open) = &mut self.segment {
            return open.give_record(alloc, label, &Rec::Org { n }, u64::from(n));
        }
        self.org = n;
        Ok(Ok(()))
    }
}

/// ALIGN, by its number.
fn apply_align(
    alloc: Global,
    kept: &mut AsmState,
    label: Result<Name, AsmCause>,
    number: Result<u32, AsmCause>,
) -> Result<Result<(), AsmCause>, AllocError>
    ensures { IfOk result (λ done. (state : State) → ShowsState state kept.old → Leaves done kept.new (aligned_by state label number)) }
{
    let step = match number {
        Ok(n) => kept.check_alignment(n),
        Err(cause) => Err(cause),
    };
    match pair_or_earlier_fault(label, step) {
        Ok((name, n)) => kept.put_align(alloc, &name, n),
        Err(cause) => Ok(Err(cause)),
    }
}

/// ALIGN.
pub(crate) fn do_align(
    alloc: Global,
    kept: &mut AsmState,
    label: Result<Name, AsmCause>,
    text: LinePart<'_>,
) -> Result<Result<(), AsmCause>, AllocError>
    ensures { IfOk result (λ done. (state : State) (line : Line) → ShowsState state kept.old → IsLeft state line (Direct directives.Align) label text.entry.bytes.now done kept.new) }
{
    let number = number_in(alloc, kept.known_constants(), text)?;
    apply_align(alloc, kept, label, number)
}

/// The number of ORG: in a segment it is after `*+`.
fn distance_in(
    alloc: Global,
    kept: &AsmState,
    text: LinePart<'_>,
) -> Result<Result<u32, AsmCause>, AllocError>
    ensures { IfOk result (λ number. (state : State) → ShowsState state kept.now → HasDistance state text.entry.bytes.now number) }
{
    if kept.segment.is_none() {
        return number_in(alloc, kept.known_constants(), text);
    }
    match following_here(text.bytes) {
        Some(following) => number_in(alloc, kept.known_constants(), LinePart { bytes: following }),
        None => Ok(Err(AsmCause::BadOperand)),
    }
}

/// ORG, by its number.
fn moving(
    alloc: Global,
    kept: &mut AsmState,
    label: Result<Name, AsmCause>,
    number: Result<u32, AsmCause>,
) -> Result<Result<(), AsmCause>, AllocError>
    ensures { IfOk result (λ done. (state : State) → ShowsState state kept.old → Leaves done kept.new (moved_by state label number)) }
{
    let distance = match number {
        Ok(n) => kept.distance(n),
        Err(cause) => Err(cause),
    };
    match pair_or_earlier_fault(label, distance) {
        Ok((name, n)) => kept.org(alloc, &name, n),
        Err(cause) => Ok(Err(cause)),
    }
}

/// ORG.
pub(crate) fn do_org(
    alloc: Global,
    kept: &mut AsmState,
    label: Result<Name, AsmCause>,
    text: LinePart<'_>,
) -> Result<Result<(), AsmCause>, AllocError>
    ensures { IfOk result (λ done. (state : State) (line : Line) → ShowsState state kept.old → IsLeft state line (Direct directives.Org) label text.entry.bytes.now done kept.new) }
{
    let number = distance_in(alloc, kept, text)?;
    moving(alloc, kept, label, number)
}
