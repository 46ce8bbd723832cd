//! The load file of a resolved program: the values of equates and of records, and the bytes that are written (GS/OS Reference,
//! appendix F; the rules by which a value fits are this project's own).
#![tactic(auto)]

mod emitting;
mod exports;
mod file;
mod image;
mod pathnames;
mod values;
mod walk;

pub use emitting::emit;
pub use values::EquateValues;
