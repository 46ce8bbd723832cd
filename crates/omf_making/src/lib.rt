//! What the commands of the tool share: arguments are read as a form, inputs are read, and what is made of them is written or printed.
#![tactic(auto)]

mod form;
mod making;
mod printing;
mod reading;
mod status;

pub use form::{CommandForm, are_paths, read_form};
pub use making::{Maker, Making, first_of, run_maker};
pub use printing::{
    cause_name, line_fault_line, path_line, print, refused_line, script_cause_name, script_line,
    usage_line,
};
pub use reading::{Reading, read_all};
pub use status::Status;
