//! A term as a value.

/// A term of an expression in postfix form.
#[derive(Clone, Copy, Debug, PartialEq, Eq)]
pub enum Term<'a> {
    /// An operator: its code, $01 to $15.
    Operator(u8),
    /// The location counter ($80).
    Location,
    /// A number ($81).
    Constant(u32),
    /// A weak name ($82), a name ($83), or the length ($84), type ($85) or count ($86) attribute of a name: the code, and the
    /// name without what pads it.
    Named(u8, &'a [u8]),
    /// An offset from the segment's start ($87).
    Offset(u32),
}
