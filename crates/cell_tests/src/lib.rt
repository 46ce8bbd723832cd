//! Tests of load files as cells, and of written bodies.
#![tactic(auto)]

#[cfg(test)]
mod asserting;
#[cfg(test)]
mod cells;
#[cfg(test)]
mod files;
#[cfg(test)]
mod order;
#[cfg(test)]
mod places;
#[cfg(test)]
mod runtime;
#[cfg(test)]
mod tables;
#[cfg(test)]
mod written;
