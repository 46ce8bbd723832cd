//! Why a call is refused, as C sees it.

ghost use Rattle.std.specs.Prelude.{◌≡◌};
ghost use Rattle.omf_c_loader.specs.Refusals.{IsFaultReported, facts_view, lacks_memory, load_cause_number, plain_refusal, refusal_of};

use load_meaning::LoadCause;
use loader_machine::{Facts, LoaderFault};

/// The call did what was asked for.
pub const DONE: u32 = 0;

/// The call is refused, which is reported.
pub const REFUSED: u32 = 1;

/// Out of memory.
pub const MEMORY: u32 = 2;

/// The call was given what it can't take.
pub const MISUSED: u32 = 3;

/// What is reported of a segment where a file has changed.
#[repr(C)]
#[derive(Clone, Copy, Drop)]
pub struct OmfFacts {
    /// How many segments the file has.
    pub count: u32,
    /// The segment's number, from 1, or 0 where only the number of segments has changed.
    pub segment: u32,
    pub length: u32,
    pub kind: u32,
    pub bank_size: u32,
    pub align: u32,
    pub org: u32,
    pub entry: u32,
}

/// Why a call is refused: the number of the cause, and what it carries. What a cause doesn't have is 0.
#[repr(C)]
#[derive(Clone, Copy, Drop)]
pub struct OmfRefusal {
    /// The number of the cause.
    pub cause: u32,
    /// The number of the cause of a bad file.
    pub file_cause: u32,
    /// The segment of a bad file, or that has no room.
    pub segment: u32,
    /// The displacement in a bad file.
    pub at: u32,
    /// Of a changed file: what is kept of the first segment that differs.
    pub kept: OmfFacts,
    /// What the file has there.
    pub found: OmfFacts,
}

/// What is reported of a segment, as C sees it.
fn to_omf_facts(facts: Facts) -> OmfFacts
    ensures { result ≡ facts_view facts }
{
    OmfFacts {
        count: facts.count,
        segment: facts.segment,
        length: facts.length,
        kind: u32::from(facts.kind),
        bank_size: facts.bank_size,
        align: facts.align,
        org: facts.org,
        entry: facts.entry,
    }
}

/// The number of the cause of a bad file.
fn load_number(cause: LoadCause) -> u32
    ensures { result ≡ load_cause_number cause }
{
    match cause {
        LoadCause::NotLoadFile => 5,
        LoadCause::Truncated => 1,
        LoadCause::BadHeader => 2,
        LoadCause::Unsupported => 3,
        LoadCause::BadRecord => 4,
        LoadCause::Sequence => 6,
        LoadCause::DataTooLong => 7,
        LoadCause::PatchOutside => 8,
        LoadCause::NoSuchTarget => 9,
        LoadCause::DynamicTarget => 10,
        LoadCause::BadTable => 11,
        LoadCause::Memory => 0,
    }
}

/// A refusal of a cause alone.
fn plain(cause: u32) -> OmfRefusal
    ensures { result ≡ plain_refusal cause }
{
    let none = OmfFacts {
        count: 0,
        segment: 0,
        length: 0,
        kind: 0,
        bank_size: 0,
        align: 0,
        org: 0,
        entry: 0,
    };
    OmfRefusal {
        cause,
        file_cause: 0,
        segment: 0,
        at: 0,
        kept: none,
        found: none,
    }
}

/// A refusal, as C sees it.
fn to_omf_refusal(fault: LoaderFault) -> OmfRefusal
    ensures { result ≡ refusal_of fault }
{
    match fault {
        LoaderFault::NoUser => plain(1),
        LoaderFault::NotRunning => plain(2),
        LoaderFault::Running => plain(3),
        LoaderFault::NoSegment => plain(4),
        LoaderFault::Static => plain(5),
        LoaderFault::NotActive => plain(6),
        LoaderFault::OutOfSegment => plain(7),
        LoaderFault::TableByte => plain(8),
        LoaderFault::NotJsl => plain(9),
        LoaderFault::NoTarget => plain(10),
        LoaderFault::NotEntry => plain(11),
        LoaderFault::TooManyUsers => plain(12),
        LoaderFault::CannotRead => plain(13),
        LoaderFault::BadFile(bad) => {
            let mut refusal = plain(14);
            refusal.file_cause = load_number(bad.cause);
            refusal.segment = bad.segment;
            refusal.at = bad.at;
            refusal
        }
        LoaderFault::Changed { kept, found } => {
            let mut refusal = plain(15);
            refusal.kept = to_omf_facts(kept);
            refusal.found = to_omf_facts(found);
            refusal
        }
        LoaderFault::NoHandle => plain(16),
        LoaderFault::NoRoom(segment) => {
            let mut refusal = plain(17);
            refusal.segment = u32::from(segment);
            refusal
        }
        LoaderFault::Stale => plain(18),
        LoaderFault::LoaderOwned => plain(19),
        LoaderFault::Empty => plain(20),
        LoaderFault::Memory => plain(0),
    }
}

/// Whether a fault is that memory is missing.
fn is_memory(fault: LoaderFault) -> bool
    ensures { result ≡ lacks_memory fault }
{
    match fault {
        LoaderFault::Memory => true,
        _ => false,
    }
}

/// Reports why a call did nothing, and returns its status.
pub fn report(fault: LoaderFault, refusal: &mut OmfRefusal) -> u32
    ensures { IsFaultReported fault result refusal.old refusal.new }
{
    if is_memory(fault) {
        return MEMORY;
    }
    *refusal = to_omf_refusal(fault);
    REFUSED
}
