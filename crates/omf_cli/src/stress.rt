//! `stress`: a workload of the whole chain.

ghost use Rattle.std.specs.Prelude.{◌≡◌, ◌⊎◌, ◌≤◌, ◌<◌, ◌-◌, ◌^◌, ◌∷◌, [], ℕ, length, None, IfOk, List};
ghost use Rattle.omf_io.specs.Steps.{Rose};
ghost use Rattle.omf_format.specs.Number.{IsBytes};
ghost use Rattle.link_meaning.specs.LinkFaults.{plain};
ghost use Rattle.link_meaning.specs.EmitFaults.{IsLinkedTo};
ghost use Rattle.link_resolve.specs.Resolved.{all_bytes};
ghost use Rattle.workload_meaning.specs.Object as workload;
ghost use Rattle.omf_cli.specs.Stress.{IsOfWorkload, IsStore, RunsTo, HasEnded, stress_line};
ghost use Rattle.omf_format.specs.File.{IsFile, Segment};

use link_emit::link;
use link_meaning::LinkCause;
use omf_base::{Line, LineFault};
use omf_io::Sink;
use omf_making::{Status, print};
use omf_records::{FileCause, segments};
use std::alloc::{AllocError, Global};
use sys_loader::Loader;
use workload::{Draws, ReliableFiles, Worked, object, work};

/// The numbers of an object are bytes.
fn recall_bytes(object: &[u8])
    ensures { IsBytes object.now }
{}

/// The load file of a workload's object, which has no fault.
#[tactic(auto, using(crate::proofs::Stressing::few_object))]
fn link_object(alloc: Global, inputs: &Vec<Vec<u8>>) -> Result<Vec<u8>, AllocError>
    requires { IsOfWorkload (all_bytes inputs.now.items) }
    ensures { IfOk result (λ file. IsLinkedTo (plain (all_bytes inputs.now.items)) file.items) }
{
    match link(alloc, inputs) {
        Ok(output) => Ok(output),
        Err(fault) => match fault.cause {
            LinkCause::Memory => Err(AllocError),
            _ => unreachable!(),
        },
    }
}

/// How many segments the load file of an object has.
fn count_of(alloc: Global, object: &[u8], file: &[u8]) -> Result<u16, AllocError>
    requires { IsLinkedTo (plain (object.now ∷ [])) file.now }
    ensures count { IfOk result (λ count. ((segments : List Segment) × IsFile segments file.now × (count ≡ length segments))) }
    ensures few { IfOk result (λ count. count ≤ 256) }
{
    recall_bytes(object);
    match segments(alloc, file) {
        Ok(list) => Ok(list.count() as u16),
        Err(fault) => match fault.cause {
            FileCause::Memory => Err(AllocError),
            _ => unreachable!(),
        },
    }
}

/// The line that reports the result of a run.
fn worked_line(alloc: Global, count: u32, n: u32, worked: &Worked) -> Result<Line, LineFault>
    ensures { IfOk result (λ text. text ≡ stress_line count n worked.now.entered worked.now.refused worked.now.sum) }
{
    let mut line = Line::new(alloc);
    line.text("segments ")?;
    line.dec(count)?;
    line.text(" entries ")?;
    line.dec(n)?;
    line.text(" entered ")?;
    line.dec(worked.entered)?;
    line.text(" refused ")?;
    line.dec(worked.refused)?;
    line.text(" sum ")?;
    line.hex(worked.sum, 8)?;
    line.text("\n")?;
    Ok(line)
}

/// A store that holds the load file of a workload's object alone, and how many segments that has.
#[tactic(auto, using(crate::proofs::Stressing::one_object, crate::proofs::Stressing::one_stored))]
fn store_of(alloc: Global, object: Vec<u8>) -> Result<(ReliableFiles, u16), AllocError>
    requires short { length object.items ≤ 16777216 }
    requires made { (n : ℕ) × (seed : ℕ) × (1 ≤ n) × (n ≤ 64) × (object.items ≡ workload.object n seed) }
    ensures store { IfOk result (λ held. IsStore object.items held.0.files held.1) }
    ensures few { IfOk result (λ held. held.1 ≤ 256) }
{
    recall_bytes(&object);
    let mut inputs = Vec::new(alloc);
    inputs.push(object)?;
    let file = link_object(alloc, &inputs)?;
    let count = count_of(alloc, &inputs[0], &file)?;
    let mut files = ReliableFiles::new(alloc);
    files.set("prog", &file)?;
    Ok((files, count))
}

/// Makes the workload, links it and runs it. Returns the number of segments of its load file, and the result of the run.
fn run_workload(alloc: Global, n: u32, seed: u32) -> Result<(u32, Worked), AllocError>
    requires some { 1 ≤ n }
    requires few { n ≤ 64 }
    ensures { IfOk result (λ run. RunsTo n seed run.1.loader run.0 run.1.entered run.1.refused run.1.sum) }
{
    let mut draws = Draws { last: seed };
    let object = object(alloc, n, &mut draws)?;
    let (mut files, count) = store_of(alloc, object)?;
    let worked = work(alloc, n, &mut draws, &mut files, count)?;
    Ok((u32::from(count), worked))
}

/// Runs the workload and prints its line. The loader that answered all calls is handed out.
pub fn run_stress<S: Sink>(
    alloc: Global,
    n: u32,
    seed: u32,
    out: &mut S,
    last: &mut Option<Loader>,
) -> Status
    requires none { last.old ≡ None }
    requires some { 1 ≤ n }
    requires few { n ≤ 64 }
    ensures run { HasEnded result n seed last.new (S.seen out.old) (S.seen out.new) }
    ensures completes { ¬ Rose (S.seen out.old).faults (S.seen out.new).faults → (result ≡ Status.Done) ⊎ (result ≡ Status.Memory) }
{
    let (count, worked) = match run_workload(alloc, n, seed) {
        Ok(run) => run,
        Err(AllocError) => return Status::Memory,
    };
    let line = worked_line(alloc, count, n, &worked);
    match print(line, Status::Done, out) {
        Status::Done => {
            *last = Some(worked.loader);
            Status::Done
        }
        other => other,
    }
}
