//! What files of the Object Module Format mean: the definitions that the contracts of the crates above
//! cite (GS/OS Reference, appendix F, "Object Module Format Version 2.1"), and the faults that they name.
#![tactic(auto)]

mod codes;
mod expression;
mod fault;
mod value;

pub use codes::{
    ALIGN, BEXPR, DIRECTIVE_LABEL, DS, ENTRY, EQU, EXPR, GEQU, GLOBAL, INSTRUCTION_LABEL, INTERSEG,
    LCONST, LEXPR, LOCAL, ORG, RELEXPR, RELOC, SHORT_INTERSEG, SHORT_RELOC, STRONG, SUPER, USING,
    ZEXPR,
};
pub use expression::ExprFault;
pub use fault::{Field, FileCause, FileFault, Flaw, HeaderFault, RecordFault};
pub use value::{Value, ValueFault};
