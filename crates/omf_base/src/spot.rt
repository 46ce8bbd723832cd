// Where in the inputs something is.

/// A place in the input files. A fault of no place has the spot 0, 0, 0.
#[derive(Clone, Copy, Debug, PartialEq, Eq)]
pub struct Spot {
    /// The file, counted from 1 in the order in which the files were given.
    pub file: u32,
    /// The segment of that file, counted from 1.
    pub segment: u32,
    /// The displacement in that file, in bytes from its start.
    pub at: u32,
}
