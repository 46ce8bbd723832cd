//! The tables of a load file: its jump table, its pathnames and the names that it exports; and the types of segments that a
//! run-time library file may have (GS/OS Reference, appendix F).
#![tactic(auto)]

mod exports;
mod kinds;
mod pathnames;
mod table;

pub use exports::{Export, add_exports};
pub use kinds::check_kinds;
pub use pathnames::{check_pathnames, pathnames_of};
pub use table::{check_tables, table_of, target_from};
