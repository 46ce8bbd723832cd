//! A record as a value.

/// A record. Bytes, names and expressions are slices of the file; a name is without what pads it, and an expression is kept
/// as its bytes, the $00 at its end included. Places and offsets count bytes from the start of a segment in memory.
#[derive(Clone, Copy)]
pub enum Rec<'a> {
    /// END: the body ends.
    End,
    /// CONST: 1 to $DF bytes as they are.
    Const {
        bytes: &'a [u8],
    },
    /// LCONST: bytes as they are.
    LongConst {
        bytes: &'a [u8],
    },
    /// ALIGN: zeros up to a multiple of n.
    Align {
        n: u32,
    },
    /// ORG: the location counter goes forward by n, which is below $80000000.
    Org {
        n: u32,
    },
    /// DS: `n` zero bytes.
    Space {
        n: u32,
    },
    /// RELOC: 1 to 4 bytes at a location are the place of an offset in the segment itself, shifted left by `shift` bits, or right where it
    /// is negative; a shift is -31 to 31.
    Reloc {
        count: u8,
        shift: i8,
        location: u32,
        offset: u32,
    },
    /// INTERSEG: the same for an offset in a segment of a file.
    InterSeg {
        count: u8,
        shift: i8,
        location: u32,
        file: u16,
        segment: u16,
        offset: u32,
    },
    /// cRELOC: a RELOC in fewer bytes.
    ShortReloc {
        count: u8,
        shift: i8,
        location: u16,
        offset: u16,
    },
    /// cINTERSEG: an INTERSEG of file 1 in fewer bytes.
    ShortInterSeg {
        count: u8,
        shift: i8,
        location: u16,
        segment: u8,
        offset: u16,
    },
    /// SUPER: patches of one type; the subrecords say where.
    Super {
        form: u8,
        bytes: &'a [u8],
    },
    /// USING: names of a data segment are looked for.
    Using {
        name: &'a [u8],
    },
    /// STRONG: the name's segment is linked.
    Strong {
        name: &'a [u8],
    },
    /// GLOBAL or LOCAL: a label, with its length attribute, its type byte and its private byte.
    Label {
        global: bool,
        name: &'a [u8],
        length: u16,
        form: u8,
        private: u8,
    },
    /// GEQU or EQU: the same for a name that represents an expression.
    Equate {
        global: bool,
        name: &'a [u8],
        length: u16,
        form: u8,
        private: u8,
        expr: &'a [u8],
    },
    /// EXPR, ZEXPR, BEXPR, RELEXPR or LEXPR, by the record's code: 1 to 4 bytes of an expression's value. Only RELEXPR has
    /// an n, the distance from the record's place to the place from which it counts.
    Formula {
        code: u8,
        count: u8,
        n: u32,
        expr: &'a [u8],
    },
    /// ENTRY: the name of a place, an offset in a segment of the file. It is used in run-time library files.
    Entry {
        segment: u16,
        offset: u32,
        name: &'a [u8],
    },
}
