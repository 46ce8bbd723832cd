//! The value of an expression.

/// A number, or a place in a load segment that no one knows yet.
#[derive(Clone, Copy, Debug, PartialEq, Eq)]
pub enum Value {
    /// 32 bits, in two's complement where an operator is signed.
    Fixed(u32),
    /// The place of a byte: the load segment's file and number, from 1, and the byte's offset in it. What is meant is that place shifted
    /// left by `shift` bits, or right where it is negative.
    At {
        file: u16,
        segment: u16,
        offset: u32,
        shift: i8,
    },
}

/// Why an expression has no value: the first fault in the order of its terms.
#[derive(Clone, Copy, Debug, PartialEq, Eq)]
pub enum ValueFault {
    /// A number divided by 0.
    DivideByZero,
    /// An operator that no load file can apply to a place.
    NotRelocatable,
    /// The environment has no answer for the term at this displacement in the expression's bytes.
    Unknown(usize),
}
