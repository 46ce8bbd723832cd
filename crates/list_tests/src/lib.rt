//! Tests of the lister.
#![tactic(auto)]

#[cfg(test)]
mod listings;
