//! What the workload is: the definitions of its draws and of its object, and what holds of these.
#![tactic(auto)]

mod laws;

pub use laws::workloads_are_linked;
