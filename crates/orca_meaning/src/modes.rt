//! The addressing modes of the 65816 (WDC 65C816 data sheet, addressing modes).

/// An addressing mode, with the data sheet's abbreviation.
#[derive(Clone, Copy, PartialEq, Eq, Hash, Debug)]
pub enum Mode {
    /// `i`: no operand, also where the stack is used (`s` in the data sheet).
    Implied,
    /// `A`: the accumulator itself.
    Accumulator,
    /// `#`: the operand is the value, of one byte or two.
    Immediate,
    /// `d`: an address in the direct page.
    Direct,
    /// `d,x`: the same, indexed with X.
    DirectX,
    /// `d,y`: the same, indexed with Y.
    DirectY,
    /// `(d)`: the address that is in the direct page.
    DirectIndirect,
    /// `(d),y`: that address, indexed with Y.
    DirectIndirectY,
    /// `(d,x)`: the address that is in the direct page, at a place indexed with X.
    DirectXIndirect,
    /// `[d]`: the long address that is in the direct page.
    DirectLong,
    /// `[d],y`: that address, indexed with Y.
    DirectLongY,
    /// `d,s`: relative to the stack pointer.
    Stack,
    /// `(d,s),y`: the address that is stored relative to the stack pointer, indexed with Y.
    StackIndirectY,
    /// `a`: an address of two bytes.
    Absolute,
    /// `a,x`: the same, indexed with X.
    AbsoluteX,
    /// `a,y`: the same, indexed with Y.
    AbsoluteY,
    /// `(a)`: the address that is stored there.
    AbsoluteIndirect,
    /// `(a,x)`: the address that is stored there, at a place indexed with X.
    AbsoluteXIndirect,
    /// `[a]`: the long address that is stored there.
    AbsoluteLongIndirect,
    /// `al`: an address of three bytes.
    Long,
    /// `al,x`: the same, indexed with X.
    LongX,
    /// `r`: a displacement of one byte from the next instruction.
    Relative8,
    /// `rl`: a displacement of two bytes from the next instruction.
    Relative16,
    /// `xyc`: two bank bytes, of the destination and of the source.
    Move,
    /// A signature byte after the opcode, which the processor passes over.
    Signature,
}
