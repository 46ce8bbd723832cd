//! What the expressions of a program are worth: the values of its definitions, and of the terms of an expression in a member; or the first
//! equate that leads back to itself.
#![tactic(auto)]

mod circular;
mod equates;
mod leads;
mod member_env;
mod slots;
mod value;

pub use equates::values_of;
pub use slots::{ValueSlot, label_of};
pub use value::{place_at, value_in};
