//! Which of several faults is reported.

ghost use Rattle.std.specs.Prelude.{◌≡◌, Err, OnOk, Some};
ghost use Rattle.asm_meaning.specs.Answer.{rank, earlier, pair_or_earlier_fault};
ghost use Rattle.orca_operands.specs.DcView.{fault_after, all_following, all_or};

use asm_meaning::AsmCause;
use std::alloc::AllocError;

/// The place of a fault in the order of those of one statement.
fn rank(cause: AsmCause) -> u8
    ensures { result ≡ rank cause }
{
    match cause {
        AsmCause::UnknownOperation => 0,
        AsmCause::OutsideSegment => 1,
        AsmCause::BadLabel => 2,
        AsmCause::BadOperand => 3,
        AsmCause::BadNumber => 4,
        AsmCause::BadMode => 5,
        AsmCause::Duplicate => 6,
        AsmCause::UnknownConstant => 7,
        AsmCause::DivideByZero => 8,
        AsmCause::DoesNotFit => 9,
        AsmCause::SegmentTooLong => 10,
        AsmCause::LineTooLong
        | AsmCause::TooManyLines
        | AsmCause::NoSuchSymbol
        | AsmCause::BadSetting
        | AsmCause::BadArguments
        | AsmCause::NoSequenceSymbol
        | AsmCause::Unclosed
        | AsmCause::Counter
        | AsmCause::TooNested
        | AsmCause::Noted(_)
        | AsmCause::TooLong
        | AsmCause::Memory => 11,
    }
}

/// Of two faults the one that is first in their order.
pub fn earlier(cause: AsmCause, other: AsmCause) -> AsmCause
    ensures { result ≡ earlier cause other }
{
    if rank(other) < rank(cause) {
        return other;
    }
    cause
}

/// Both of two answers, or the earlier of their faults.
pub fn pair_or_earlier_fault<A: Drop, B: Drop>(
    first: Result<A, AsmCause>,
    second: Result<B, AsmCause>,
) -> Result<(A, B), AsmCause>
    ensures { result ≡ pair_or_earlier_fault first second }
{
    match first {
        Ok(a) => match second {
            Ok(b) => Ok((a, b)),
            Err(cause) => Err(cause),
        },
        Err(cause) => match second {
            Ok(_b) => Err(cause),
            Err(other) => Err(earlier(cause, other)),
        },
    }
}

/// Keeps what an answer gives, or its fault if none precedes it.
pub fn gather_answer<T: Drop>(
    out: &mut Vec<T>,
    fault: &mut Option<AsmCause>,
    answer: Result<T, AsmCause>,
) -> Result<(), AllocError>
    ensures fault { OnOk result (fault.new ≡ fault_after fault.old answer) }
    ensures all { OnOk result (out.new.items ≡ all_following out.old.items answer) }
{
    match answer {
        Ok(value) => {
            out.push(value)?;
            Ok(())
        }
        Err(cause) => {
            *fault = Some(first_of(*fault, cause));
            Ok(())
        }
    }
}

/// The earlier of two faults, if there are two.
fn first_of(before: Option<AsmCause>, cause: AsmCause) -> AsmCause
    ensures { Some result ≡ fault_after {T = Unit {0}} before (Err cause) }
{
    match before {
        Some(before) => earlier(before, cause),
        None => cause,
    }
}

/// All that was given, unless there is a fault.
pub fn answer_or_fault<T: Drop>(fault: Option<AsmCause>, out: T) -> Result<T, AsmCause>
    ensures { result ≡ all_or fault out }
{
    match fault {
        Some(cause) => Err(cause),
        None => Ok(out),
    }
}
