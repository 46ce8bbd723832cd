//! What operands of instructions and data directives encode to: amounts, modes, the elements of DC, and the records that they give
//! (ORCA/M reference manual, "Assembler directives"; GS/OS Reference, appendix F).
#![tactic(auto)]

mod amount;
mod causes;
mod count;
mod dc;
mod digits;
mod element;
mod encoding;
mod instruction;
mod lists;
mod mode;
mod names;
mod numbers;
mod operand;
mod piece;
mod record_bytes;
mod short_bytes;
mod writer;

pub use amount::{Amount, amount_in, number_in};
pub use causes::{answer_or_fault, earlier, gather_answer, pair_or_earlier_fault};
pub use dc::element_at;
pub use encoding::{Encoding, RepeatedPieces, label_and_encoding};
pub use instruction::instruct;
pub use mode::Widths;
pub use names::{DefinedNames, KnownConstants, OutsideConstants};
pub use operand::{following_here, is_name, name_of};
pub use piece::{number_text, shift_and_end};
pub use record_bytes::{MAX_FILE, RecordBytes};
pub use writer::RecordWriter;
