/// An operand of an instruction as a number.
#[derive(Clone, Copy)]
pub enum Argument {
    /// An address register by its number; there are 0 to 15.
    Register(u8),
    /// An immediate number, or the address of a target. A number that no operand can have is a fault.
    Value(i64),
    /// A special or user register by its number.
    Special(u8),
}

/// Why a mnemonic and its operands make no instruction.
#[derive(Clone, Copy, PartialEq, Eq)]
pub enum OperandFault {
    /// An operand is outside its row's range. No such mnemonic, or operands of another form, are of this kind too.
    Range,
    /// The target of a call, or the address of an L32R's literal, is no multiple of 4.
    Misaligned,
    /// The address of an L32R's literal is not within its reach.
    OutOfReach,
}
