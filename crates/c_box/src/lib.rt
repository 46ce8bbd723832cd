//! A value on the heap, behind a pointer or not there: what a struct for C is made from and turned into.
#![tactic(auto)]

mod slot;

pub use slot::Slot;
