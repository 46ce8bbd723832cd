//! Codes of records and types of labels, as they are in a file (GS/OS Reference, appendix F, "Segment body").

/// ALIGN: zeros up to a multiple of a number.
pub const ALIGN: u8 = 0xE0;
/// ORG: zeros up to a place.
pub const ORG: u8 = 0xE1;
/// RELOC: a patch of a place in the file itself.
pub const RELOC: u8 = 0xE2;
/// INTERSEG: a patch of a place in any file.
pub const INTERSEG: u8 = 0xE3;
/// USING: the names of a data segment are visible.
pub const USING: u8 = 0xE4;
/// STRONG: a name that has to be linked.
pub const STRONG: u8 = 0xE5;
/// GLOBAL: a label that other segments see.
pub const GLOBAL: u8 = 0xE6;
/// GEQU: an equate that other segments see.
pub const GEQU: u8 = 0xE7;
/// EXPR: the value of an expression.
pub const EXPR: u8 = 0xEB;
/// ZEXPR: the value of an expression, whose bytes that are cut off are 0.
pub const ZEXPR: u8 = 0xEC;
/// BEXPR: the value of an expression, whose bytes that are cut off are those of the segment's bank.
pub const BEXPR: u8 = 0xED;
/// RELEXPR: the distance to the value of an expression.
pub const RELEXPR: u8 = 0xEE;
/// LOCAL: a label of its segment alone.
pub const LOCAL: u8 = 0xEF;
/// EQU: an equate of its segment alone.
pub const EQU: u8 = 0xF0;
/// DS: a number of zeros.
pub const DS: u8 = 0xF1;
/// LCONST: constant bytes after a count of four bytes.
pub const LCONST: u8 = 0xF2;
/// LEXPR: the value of an expression, which may lead into a dynamic segment.
pub const LEXPR: u8 = 0xF3;
/// ENTRY: a name of a run-time library file and its place.
pub const ENTRY: u8 = 0xF4;
/// cRELOC: a RELOC in fewer bytes.
pub const SHORT_RELOC: u8 = 0xF5;
/// cINTERSEG: an INTERSEG in fewer bytes.
pub const SHORT_INTERSEG: u8 = 0xF6;
/// SUPER: patches that are packed.
pub const SUPER: u8 = 0xF7;

/// `M`: the type of a label of an instruction.
pub const INSTRUCTION_LABEL: u8 = 0x4D;
/// `N`: the type of a label of a directive, and of an equate.
pub const DIRECTIVE_LABEL: u8 = 0x4E;
