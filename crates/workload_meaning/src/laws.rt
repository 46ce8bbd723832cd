//! What holds of the workload. These functions do nothing: each is there for its contract.

ghost use Rattle.workload_meaning.specs.LinkedLaws.{WorkloadIsLinked};

/// The object of a workload has no fault of linking.
pub fn workloads_are_linked()
    ensures { WorkloadIsLinked }
{}
