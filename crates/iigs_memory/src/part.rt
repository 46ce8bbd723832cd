//! Parts of the buffer of all banks' bytes.

/// Bytes of the buffer, from one place up to another.
#[derive(Clone, Copy)]
pub struct BlockPart {
    pub start: usize,
    pub end: usize,
}
