//! The lines of a listing: how each is written, formulas among them, and which names can be listed
//! (ORCA/M reference manual, "Assembler directives"; WDC 65C816 data sheet, addressing modes).
#![tactic(auto)]

mod formula;
mod lines;
mod names;
mod output;
mod spellings;
mod stop;

pub use formula::{FormulaFacts, Front, facts_of, first_bytes, front_of, text_of};
pub use lines::{
    Wanted, put_align, put_dc_bytes, put_dc_formula, put_dc_strong, put_dc_weak, put_ds, put_end,
    put_equate, put_instruction, put_kind, put_label, put_next_align, put_next_org, put_org,
    put_start, put_switch, put_using,
};
pub use names::{Names, is_listable};
pub use output::ListingText;
pub use stop::LineStop;
