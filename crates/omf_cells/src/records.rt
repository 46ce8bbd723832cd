//! The records of a load segment, checked one by one.

ghost use Rattle.std.specs.Prelude.{◌≡◌, Some, OnOk, IfErr};
ghost use Rattle.load_meaning.specs.Loadable.{record_refusal, as_load};
ghost use Rattle.load_meaning.specs.laws.Steps.{in_segment};
ghost use Rattle.omf_format.specs.File.{to_file_record_fault};
ghost use Rattle.omf_records.specs.View.{view};
ghost use Rattle.load_content.specs.Walk.{IsLoadBody, HasBodyFault};

use crate::reported::load_fault;
use load_meaning::{LoadCause, LoadFault};
use omf_format::RecordFault;
use omf_records::{Rec, Records, to_file_record_fault};

/// Goes over the records up to END.
pub fn check_records(records: Records, number: u32) -> Result<(), LoadFault>
    ensures ok { OnOk result (IsLoadBody records.entry) }
    ensures number { IfErr result (λ fault. fault.segment ≡ number) }
    ensures fault { IfErr result (λ fault. HasBodyFault records.entry (fault.cause, fault.at)) }
    ensures named { IfErr result (λ fault. fault.cause ≡ LoadCause.Memory → ⊥) }
{
    let mut records = records;
    'records: loop {
        match records.next() {
            Ok(None) => return Ok(()),
            Ok(Some(found)) => match refusal(&found.1) {
                Some(cause) => {
                    return Err(LoadFault {
                        cause,
                        segment: number,
                        at: found.0,
                    });
                }
                None => {}
            },
            Err(fault) => return Err(record_fault(fault, number)),
        }
    }
}

/// Why a load segment can't have this record.
fn refusal(rec: &Rec) -> Option<LoadCause>
    ensures value { result ≡ record_refusal (view rec.now) }
    ensures named { result ≡ Some LoadCause.Memory → ⊥ }
{
    match rec {
        Rec::End
        | Rec::Const { .. }
        | Rec::LongConst { .. }
        | Rec::Space { .. }
        | Rec::Reloc { .. }
        | Rec::InterSeg { .. }
        | Rec::ShortReloc { .. }
        | Rec::ShortInterSeg { .. }
        | Rec::Super { .. }
        | Rec::Entry { .. } => None,
        Rec::Align { .. }
        | Rec::Org { .. }
        | Rec::Using { .. }
        | Rec::Strong { .. }
        | Rec::Label { .. }
        | Rec::Equate { .. }
        | Rec::Formula { .. } => Some(LoadCause::NotLoadFile),
    }
}

/// A record's fault as one of the load file.
#[tactic(auto, using(crate::proofs::FrontFaults::reported_named))]
fn record_fault(fault: RecordFault, segment: u32) -> LoadFault
    ensures value { result ≡ in_segment segment (as_load (to_file_record_fault fault)) }
    ensures named { result.cause ≡ LoadCause.Memory → ⊥ }
{
    load_fault(to_file_record_fault(fault), segment)
}
