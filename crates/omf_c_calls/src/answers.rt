//! What calls answer, as C sees it.

ghost use Rattle.std.specs.Prelude.{◌≡◌};
ghost use Rattle.omf_c_calls.specs.Answers.{IsAnswered, started_view, entered_view};

use loader_machine::LoaderFault;
use omf_c_loader::{DONE, OmfRefusal, report};
use sys_loader::{Entered, Started};

/// A program that runs.
#[repr(C)]
#[derive(Clone, Copy, Drop)]
pub struct OmfStarted {
    /// The user's ID.
    pub user: u32,
    /// 1 where it has an address at which it begins, and else 0.
    pub enters: u32,
    /// That address, or 0.
    pub entry: u32,
}

/// A place in an active segment.
#[repr(C)]
#[derive(Clone, Copy, Drop)]
pub struct OmfEntered {
    /// The user's ID.
    pub user: u32,
    /// The segment's number, from 1.
    pub segment: u32,
    /// The offset in the segment.
    pub offset: u32,
    /// The address.
    pub address: u32,
}

/// A program that runs, as C sees it.
fn to_omf_started(started: Started) -> OmfStarted
    ensures { result ≡ started_view started }
{
    match started.entry {
        Some(address) => OmfStarted {
            user: u32::from(started.user),
            enters: 1,
            entry: address,
        },
        None => OmfStarted {
            user: u32::from(started.user),
            enters: 0,
            entry: 0,
        },
    }
}

/// A place, as C sees it.
fn to_omf_entered(entered: Entered) -> OmfEntered
    ensures { result ≡ entered_view entered }
{
    OmfEntered {
        user: u32::from(entered.user),
        segment: u32::from(entered.segment),
        offset: entered.offset,
        address: entered.address,
    }
}

/// Answers a call that has nothing to report.
pub fn answer_done(done: Result<(), LoaderFault>, refusal: &mut OmfRefusal) -> u32
    ensures { IsAnswered (λ nothing. nothing) done result tt tt refusal.old refusal.new }
{
    match done {
        Ok(()) => DONE,
        Err(fault) => report(fault, refusal),
    }
}

/// Answers a call that reports a number.
pub fn answer_number(
    number: Result<u32, LoaderFault>,
    reported: &mut u32,
    refusal: &mut OmfRefusal,
) -> u32
    ensures { IsAnswered (λ n. n) number result reported.old reported.new refusal.old refusal.new }
{
    match number {
        Ok(number) => {
            *reported = number;
            DONE
        }
        Err(fault) => report(fault, refusal),
    }
}

/// Answers a call that starts a program.
pub fn answer_started(
    started: Result<Started, LoaderFault>,
    reported: &mut OmfStarted,
    refusal: &mut OmfRefusal,
) -> u32
    ensures { IsAnswered started_view started result reported.old reported.new refusal.old refusal.new }
{
    match started {
        Ok(started) => {
            *reported = to_omf_started(started);
            DONE
        }
        Err(fault) => report(fault, refusal),
    }
}

/// Answers a call that enters a segment.
pub fn answer_entered(
    entered: Result<Entered, LoaderFault>,
    reported: &mut OmfEntered,
    refusal: &mut OmfRefusal,
) -> u32
    ensures { IsAnswered entered_view entered result reported.old reported.new refusal.old refusal.new }
{
    match entered {
        Ok(entered) => {
            *reported = to_omf_entered(entered);
            DONE
        }
        Err(fault) => report(fault, refusal),
    }
}
