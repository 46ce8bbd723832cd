//! The mnemonics of the 65816 (WDC 65C816 data sheet, instruction set).

/// A mnemonic, in the order of the alphabet.
#[derive(Clone, Copy, PartialEq, Eq, Hash, Debug)]
pub enum Mnemonic {
    /// Add memory to the accumulator with carry.
    Adc,
    /// And memory with the accumulator.
    And,
    /// Shift one bit left, memory or the accumulator.
    Asl,
    /// Branch where carry is clear. `BLT` is another name of it.
    Bcc,
    /// Branch where carry is set. `BGE` is another name of it.
    Bcs,
    /// Branch where equal.
    Beq,
    /// Test bits.
    Bit,
    /// Branch where the result is minus.
    Bmi,
    /// Branch where not equal.
    Bne,
    /// Branch where the result is plus.
    Bpl,
    /// Branch always.
    Bra,
    /// Force break, a software interrupt.
    Brk,
    /// Branch always, long.
    Brl,
    /// Branch where overflow is clear.
    Bvc,
    /// Branch where overflow is set.
    Bvs,
    /// Clear carry.
    Clc,
    /// Clear decimal mode.
    Cld,
    /// Clear interrupt disable.
    Cli,
    /// Clear overflow.
    Clv,
    /// Compare memory and the accumulator.
    Cmp,
    /// Call the coprocessor, a software interrupt.
    Cop,
    /// Compare memory and index X.
    Cpx,
    /// Compare memory and index Y.
    Cpy,
    /// Decrement memory or the accumulator by one.
    Dec,
    /// Decrement index X by one.
    Dex,
    /// Decrement index Y by one.
    Dey,
    /// Exclusive or of memory with the accumulator.
    Eor,
    /// Increment memory or the accumulator by one.
    Inc,
    /// Increment index X by one.
    Inx,
    /// Increment index Y by one.
    Iny,
    /// Jump long.
    Jml,
    /// Jump to a new location.
    Jmp,
    /// Jump to a subroutine, long.
    Jsl,
    /// Jump to a subroutine.
    Jsr,
    /// Load the accumulator from memory.
    Lda,
    /// Load index X from memory.
    Ldx,
    /// Load index Y from memory.
    Ldy,
    /// Shift one bit right, memory or the accumulator.
    Lsr,
    /// Move a block, upward from its first byte.
    Mvn,
    /// Move a block, downward from its last byte.
    Mvp,
    /// No operation.
    Nop,
    /// Or memory with the accumulator.
    Ora,
    /// Push an effective absolute address.
    Pea,
    /// Push an effective indirect address.
    Pei,
    /// Push an effective address relative to the program counter.
    Per,
    /// Push the accumulator.
    Pha,
    /// Push the data bank register.
    Phb,
    /// Push the direct register.
    Phd,
    /// Push the program bank register.
    Phk,
    /// Push the processor status.
    Php,
    /// Push index X.
    Phx,
    /// Push index Y.
    Phy,
    /// Pull the accumulator.
    Pla,
    /// Pull the data bank register.
    Plb,
    /// Pull the direct register.
    Pld,
    /// Pull the processor status.
    Plp,
    /// Pull index X.
    Plx,
    /// Pull index Y.
    Ply,
    /// Reset bits of the processor status.
    Rep,
    /// Rotate one bit left, memory or the accumulator.
    Rol,
    /// Rotate one bit right, memory or the accumulator.
    Ror,
    /// Return from an interrupt.
    Rti,
    /// Return from a subroutine, long.
    Rtl,
    /// Return from a subroutine.
    Rts,
    /// Subtract memory from the accumulator with borrow.
    Sbc,
    /// Set carry.
    Sec,
    /// Set decimal mode.
    Sed,
    /// Set interrupt disable.
    Sei,
    /// Set bits of the processor status.
    Sep,
    /// Store the accumulator in memory.
    Sta,
    /// Stop the clock.
    Stp,
    /// Store index X in memory.
    Stx,
    /// Store index Y in memory.
    Sty,
    /// Store zero in memory.
    Stz,
    /// Transfer the accumulator to index X.
    Tax,
    /// Transfer the accumulator to index Y.
    Tay,
    /// Transfer the 16-bit accumulator to the direct register.
    Tcd,
    /// Transfer the 16-bit accumulator to the stack pointer.
    Tcs,
    /// Transfer the direct register to the 16-bit accumulator.
    Tdc,
    /// Test and reset bits.
    Trb,
    /// Test and set bits.
    Tsb,
    /// Transfer the stack pointer to the 16-bit accumulator.
    Tsc,
    /// Transfer the stack pointer to index X.
    Tsx,
    /// Transfer index X to the accumulator.
    Txa,
    /// Transfer index X to the stack pointer.
    Txs,
    /// Transfer index X to index Y.
    Txy,
    /// Transfer index Y to the accumulator.
    Tya,
    /// Transfer index Y to index X.
    Tyx,
    /// Wait for an interrupt.
    Wai,
    /// Reserved for future use.
    Wdm,
    /// Exchange the two bytes of the accumulator.
    Xba,
    /// Exchange carry and emulation bits.
    Xce,
}
