//! Tests of canonical load files.
#![tactic(auto)]

#[cfg(test)]
mod asserting;
#[cfg(test)]
mod faults;
#[cfg(test)]
mod files;
#[cfg(test)]
mod overlaps;
#[cfg(test)]
mod whole;
