//! Libraries: files of object segments after a dictionary of the names that they define (GS/OS Reference, appendix F, "Library Dictionary
//! Segment").
#![tactic(auto)]

mod dictionary;
mod fault;
mod files;
mod known;
mod laws;
mod listed;
mod making;
mod member;
mod members;
mod names_following;
mod outer;
mod parts;
mod reading;
mod record_forms;
mod rows;
mod texts;

pub use dictionary::{Dictionary, Row};
pub use fault::{DictFault, LibCause, LibFault};
pub use laws::{made_is_read, made_is_refused_for_memory_alone, rows_are_laid_out};
pub use making::make_library;
pub use member::Member;
pub use reading::{dictionary_of_list, read_dictionary};
