//! Tests of lines and operands of assembly source, and of instructions as bytes.
#![tactic(auto)]

#[cfg(test)]
mod instructions;
#[cfg(test)]
mod reading;
