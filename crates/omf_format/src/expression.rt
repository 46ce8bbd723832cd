//! Why bytes don't begin with an expression.

/// The first term that is wrong, with its displacement in the bytes. For one term the first of these that holds.
#[derive(Clone, Copy, Debug, PartialEq, Eq)]
pub enum ExprFault {
    /// The bytes end in the term, or before it.
    Truncated(usize),
    /// There is no term there, or one with an empty name.
    BadTerm(usize),
    /// An operator without its operands, or an end where other than one value is left.
    Shape(usize),
    /// A 65th value would be pending.
    TooDeep(usize),
}
