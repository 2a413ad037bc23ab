//! The mnemonics as values, by the form of the operands.

use xt_isa::boolean::{ChoiceName, EightName, FourName, LogicName, TestName};
use xt_isa::control::{
    BitName, BranchName, CallName, CallxName, ConstName, ConstuName, LoopName, OppositeName,
    ReturnName, ZeroName,
};
use xt_isa::density::{BareName, NarrowName, NarrowZeroName};
use xt_isa::memory::{ByteName, HalfName, WindowName, WordName};
use xt_isa::shift::{
    AmountName, ByteAmountName, NormalizeName, ShiftRightName, SignName, SignedName,
};
use xt_isa::system::{ExceptionReturnName, SpecialName, SyncName, UserName, WaitName};
use xt_isa::three::{
    BitwiseName, DifferenceName, DivideName, MinMaxName, MoveName, Mul16Name, MulHighName, SumName,
};

/// A mnemonic: an instruction without its operands.
#[derive(Clone, Copy)]
pub enum Mnemonic {
    /// An instruction without operands.
    Nothing(Plain),
    /// One register.
    One(One),
    /// Two registers.
    Two(Two),
    /// Three registers.
    Three(Three),
    /// A number.
    Number(Number),
    /// The two numbers of BREAK.
    Break,
    /// A register and a number.
    OneAndNumber(OneAndNumber),
    /// Two registers and a number.
    TwoAndNumber(TwoAndNumber),
    /// The two registers and two numbers of EXTUI.
    Extui,
    /// A register and a special or user register.
    OneAndSpecial(OneAndSpecial),
    /// The target of J.
    Jump,
    /// The target of a call.
    Call(CallName),
    /// The register of L32R and the address of a literal.
    Literal,
    /// A register and a target.
    OneAndTarget(OneAndTarget),
    /// A register, a number and a target.
    OneNumberAndTarget(OneNumberAndTarget),
    /// Two registers and a target.
    TwoAndTarget(TwoAndTarget),
}

/// The instructions without operands.
#[derive(Clone, Copy)]
pub enum Plain {
    Return(ReturnName),
    Sync(SyncName),
    Wait(WaitName),
    ExceptionReturn(ExceptionReturnName),
    Syscall,
    Bare(BareName),
}

/// The instructions of one register.
#[derive(Clone, Copy)]
pub enum One {
    Amount(AmountName),
    ByteAmount(ByteAmountName),
    Jx,
    Callx(CallxName),
}

/// The instructions of two registers. `Mov` is OR with one source twice; `Any4` and `Any8` name Boolean registers.
#[derive(Clone, Copy)]
pub enum Two {
    Sign(SignName),
    ShiftRight(ShiftRightName),
    Sll,
    Normalize(NormalizeName),
    Movsp,
    Mov,
    MovNarrow,
    Four(FourName),
    Eight(EightName),
}

/// The instructions of three registers. `Andb` names Boolean registers, and `Movf` has one as its third.
#[derive(Clone, Copy)]
pub enum Three {
    Bitwise(BitwiseName),
    Sum(SumName),
    Difference(DifferenceName),
    Src,
    Mul16(Mul16Name),
    Mull,
    MulHigh(MulHighName),
    Divide(DivideName),
    MinMax(MinMaxName),
    Move(MoveName),
    AddNarrow,
    Logic(LogicName),
    Choice(ChoiceName),
}

/// The instructions of a number.
#[derive(Clone, Copy)]
pub enum Number {
    Ssai,
    Rfi,
    Waiti,
    Rotw,
    BreakNarrow,
}

/// The instructions of a register and a number.
#[derive(Clone, Copy)]
pub enum OneAndNumber {
    Movi,
    Rsil,
    Entry,
    MoviNarrow,
}

/// The instructions of a register and a special or user register.
#[derive(Clone, Copy)]
pub enum OneAndSpecial {
    Special(SpecialName),
    User(UserName),
}

/// The instructions of a register and a target. `Bf` names a Boolean register.
#[derive(Clone, Copy)]
pub enum OneAndTarget {
    BranchZero(ZeroName),
    Loop(LoopName),
    BranchZeroNarrow(NarrowZeroName),
    Test(TestName),
}

/// The instructions of a register, a number and a target.
#[derive(Clone, Copy)]
pub enum OneNumberAndTarget {
    BranchConst(ConstName),
    BranchConstu(ConstuName),
    BranchBit(BitName),
}

/// The instructions of two registers and a number.
#[derive(Clone, Copy)]
pub enum TwoAndNumber {
    Slli,
    Srai,
    Srli,
    Signed(SignedName),
    Byte(ByteName),
    Half(HalfName),
    Word(WordName),
    S32c1i,
    Window(WindowName),
    Addi,
    Addmi,
    WordNarrow(NarrowName),
    AddiNarrow,
}

/// The instructions of two registers and a target.
#[derive(Clone, Copy)]
pub enum TwoAndTarget {
    Branch(BranchName),
    BranchNot(OppositeName),
}
