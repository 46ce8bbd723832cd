//! Tests of what no row of `rows` shows: records that are written, a script's commands, loaders in the hands of others, and the longest
//! expansion.
#![tactic(auto)]

#[cfg(test)]
mod embedding;
#[cfg(test)]
mod every_record;
#[cfg(test)]
mod files;
#[cfg(test)]
mod macros;
#[cfg(test)]
mod programs;
#[cfg(test)]
mod reading;
#[cfg(test)]
mod restarts;
#[cfg(test)]
mod rows;
#[cfg(test)]
mod runs;
#[cfg(test)]
mod workloads;
