//! Tests of the loader over files that change, and where memory is refused.
#![tactic(auto)]

#[cfg(test)]
mod asserting;
#[cfg(test)]
mod changed_files;
#[cfg(test)]
mod pathnames;
#[cfg(test)]
mod programs;
#[cfg(test)]
mod refused_memory;
