//! An instruction as its mnemonic and its operands, and back, by the form of the operands.

ghost use Rattle.std.specs.Prelude.{◌≡◌};
ghost use Rattle.xt_names.specs.Forms.{size_of};
ghost use Rattle.xt_names.specs.Insns.{insn_of, insn_size, of_number, of_one, of_one_and_number, of_one_and_special, of_one_and_target, of_one_number_and_target, of_plain, of_three, of_two, of_two_and_number, of_two_and_target};
ghost use Rattle.xt_names.specs.InsnParts.{boolean_parts, control_parts, density_parts, memory_parts, mnemonic_in, parts_of, shift_parts, system_parts, three_parts};

use crate::mnemonic::{
    Mnemonic, Number, One, OneAndNumber, OneAndSpecial, OneAndTarget, OneNumberAndTarget, Plain,
    Three, Two, TwoAndNumber, TwoAndTarget,
};
use xt_isa::boolean::Boolean;
use xt_isa::control::{CallName, Control};
use xt_isa::density::Density;
use xt_isa::memory::Memory;
use xt_isa::shift::Shift;
use xt_isa::system::{LevelName, System, TrapName};
use xt_isa::three::BitwiseName;
use xt_isa::{Insn, three};

/// An instruction as its mnemonic and its operands in the order of the text, by their form. A register is 0 to 15. Of a
/// target the instruction keeps the offset.
#[derive(Clone, Copy)]
pub enum Parts {
    /// No operands.
    Nothing(Plain),
    /// One register.
    One(One, u8),
    /// Two registers.
    Two(Two, (u8, u8)),
    /// Three registers.
    Three(Three, (u8, u8, u8)),
    /// A number.
    Number(Number, i32),
    /// The two numbers of BREAK.
    Break((i32, i32)),
    /// A register and a number.
    OneAndNumber(OneAndNumber, (u8, i32)),
    /// Two registers and a number.
    TwoAndNumber(TwoAndNumber, (u8, u8, i32)),
    /// The two registers and two numbers of EXTUI.
    Extui((u8, u8, i32, i32)),
    /// A register and the number of a special or user register.
    OneAndSpecial(OneAndSpecial, (u8, u8)),
    /// The offset of J.
    Jump(i32),
    /// The offset of a call.
    Call(CallName, i32),
    /// The register of L32R and the offset of its literal.
    Literal((u8, i32)),
    /// A register and an offset.
    OneAndTarget(OneAndTarget, (u8, i32)),
    /// A register, a number and an offset.
    OneNumberAndTarget(OneNumberAndTarget, (u8, i32, i32)),
    /// Two registers and an offset.
    TwoAndTarget(TwoAndTarget, (u8, u8, i32)),
}

/// The mnemonic among the parts of an instruction.
pub fn mnemonic_in(parts: Parts) -> Mnemonic
    ensures { result ≡ mnemonic_in parts }
{
    match parts {
        Parts::Nothing(name) => Mnemonic::Nothing(name),
        Parts::One(name, _) => Mnemonic::One(name),
        Parts::Two(name, _) => Mnemonic::Two(name),
        Parts::Three(name, _) => Mnemonic::Three(name),
        Parts::Number(name, _) => Mnemonic::Number(name),
        Parts::Break(_) => Mnemonic::Break,
        Parts::OneAndNumber(name, _) => Mnemonic::OneAndNumber(name),
        Parts::TwoAndNumber(name, _) => Mnemonic::TwoAndNumber(name),
        Parts::Extui(_) => Mnemonic::Extui,
        Parts::OneAndSpecial(name, _) => Mnemonic::OneAndSpecial(name),
        Parts::Jump(_) => Mnemonic::Jump,
        Parts::Call(name, _) => Mnemonic::Call(name),
        Parts::Literal(_) => Mnemonic::Literal,
        Parts::OneAndTarget(name, _) => Mnemonic::OneAndTarget(name),
        Parts::OneNumberAndTarget(name, _) => Mnemonic::OneNumberAndTarget(name),
        Parts::TwoAndTarget(name, _) => Mnemonic::TwoAndTarget(name),
    }
}

fn three_parts(i: three::Three) -> Parts
    ensures { result ≡ three_parts i }
{
    match i {
        three::Three::Bitwise(name, r, s, t) => Parts::Three(Three::Bitwise(name), (r, s, t)),
        three::Three::Sum(name, r, s, t) => Parts::Three(Three::Sum(name), (r, s, t)),
        three::Three::Difference(name, r, s, t) => Parts::Three(Three::Difference(name), (r, s, t)),
        three::Three::Src(r, s, t) => Parts::Three(Three::Src, (r, s, t)),
        three::Three::Mul16(name, r, s, t) => Parts::Three(Three::Mul16(name), (r, s, t)),
        three::Three::Mull(r, s, t) => Parts::Three(Three::Mull, (r, s, t)),
        three::Three::MulHigh(name, r, s, t) => Parts::Three(Three::MulHigh(name), (r, s, t)),
        three::Three::Divide(name, r, s, t) => Parts::Three(Three::Divide(name), (r, s, t)),
        three::Three::MinMax(name, r, s, t) => Parts::Three(Three::MinMax(name), (r, s, t)),
        three::Three::Move(name, r, s, t) => Parts::Three(Three::Move(name), (r, s, t)),
    }
}

fn shift_parts(i: Shift) -> Parts
    ensures { result ≡ shift_parts i }
{
    match i {
        Shift::Sign(name, r, t) => Parts::Two(Two::Sign(name), (r, t)),
        Shift::ShiftRight(name, r, t) => Parts::Two(Two::ShiftRight(name), (r, t)),
        Shift::Sll(r, s) => Parts::Two(Two::Sll, (r, s)),
        Shift::Slli(r, s, n) => Parts::TwoAndNumber(TwoAndNumber::Slli, (r, s, n)),
        Shift::Srai(r, t, n) => Parts::TwoAndNumber(TwoAndNumber::Srai, (r, t, n)),
        Shift::Srli(r, t, n) => Parts::TwoAndNumber(TwoAndNumber::Srli, (r, t, n)),
        Shift::Extui(r, t, n, w) => Parts::Extui((r, t, n, w)),
        Shift::Signed(name, r, s, b) => Parts::TwoAndNumber(TwoAndNumber::Signed(name), (r, s, b)),
        Shift::Normalize(name, t, s) => Parts::Two(Two::Normalize(name), (t, s)),
        Shift::Movsp(t, s) => Parts::Two(Two::Movsp, (t, s)),
        Shift::Amount(name, s) => Parts::One(One::Amount(name), s),
        Shift::ByteAmount(name, s) => Parts::One(One::ByteAmount(name), s),
        Shift::Ssai(n) => Parts::Number(Number::Ssai, n),
    }
}

fn memory_parts(i: Memory) -> Parts
    ensures { result ≡ memory_parts i }
{
    match i {
        Memory::Byte(name, t, s, n) => Parts::TwoAndNumber(TwoAndNumber::Byte(name), (t, s, n)),
        Memory::Half(name, t, s, n) => Parts::TwoAndNumber(TwoAndNumber::Half(name), (t, s, n)),
        Memory::Word(name, t, s, n) => Parts::TwoAndNumber(TwoAndNumber::Word(name), (t, s, n)),
        Memory::S32c1i(t, s, n) => Parts::TwoAndNumber(TwoAndNumber::S32c1i, (t, s, n)),
        Memory::Window(name, t, s, n) => Parts::TwoAndNumber(TwoAndNumber::Window(name), (t, s, n)),
        Memory::L32r(t, offset) => Parts::Literal((t, offset)),
        Memory::Movi(t, n) => Parts::OneAndNumber(OneAndNumber::Movi, (t, n)),
        Memory::Addi(t, s, n) => Parts::TwoAndNumber(TwoAndNumber::Addi, (t, s, n)),
        Memory::Addmi(t, s, n) => Parts::TwoAndNumber(TwoAndNumber::Addmi, (t, s, n)),
    }
}

fn control_parts(i: Control) -> Parts
    ensures { result ≡ control_parts i }
{
    match i {
        Control::J(d) => Parts::Jump(d),
        Control::Call(name, d) => Parts::Call(name, d),
        Control::Return(name) => Parts::Nothing(Plain::Return(name)),
        Control::Jx(s) => Parts::One(One::Jx, s),
        Control::Callx(name, s) => Parts::One(One::Callx(name), s),
        Control::BranchZero(name, s, d) => Parts::OneAndTarget(
            OneAndTarget::BranchZero(name),
            (s, d),
        ),
        Control::BranchConst(name, s, c, d) => {
            Parts::OneNumberAndTarget(OneNumberAndTarget::BranchConst(name), (s, c, d))
        }
        Control::BranchConstu(name, s, c, d) => {
            Parts::OneNumberAndTarget(OneNumberAndTarget::BranchConstu(name), (s, c, d))
        }
        Control::Branch(name, s, t, d) => {
            Parts::TwoAndTarget(TwoAndTarget::Branch(name), (s, t, d))
        }
        Control::BranchNot(name, s, t, d) => Parts::TwoAndTarget(
            TwoAndTarget::BranchNot(name),
            (s, t, d),
        ),
        Control::BranchBit(name, s, b, d) => {
            Parts::OneNumberAndTarget(OneNumberAndTarget::BranchBit(name), (s, b, d))
        }
        Control::Entry(s, n) => Parts::OneAndNumber(OneAndNumber::Entry, (s, n)),
        Control::Loop(name, s, d) => Parts::OneAndTarget(OneAndTarget::Loop(name), (s, d)),
    }
}

fn system_parts(i: System) -> Parts
    ensures { result ≡ system_parts i }
{
    match i {
        System::Sync(name) => Parts::Nothing(Plain::Sync(name)),
        System::Wait(name) => Parts::Nothing(Plain::Wait(name)),
        System::ExceptionReturn(name) => Parts::Nothing(Plain::ExceptionReturn(name)),
        System::Rfi(l) => Parts::Number(Number::Rfi, l),
        System::Trap(TrapName::Break, x, y) => Parts::Break((x, y)),
        System::Trap(TrapName::Syscall, _, _) => Parts::Nothing(Plain::Syscall),
        System::Level(LevelName::Rsil, t, l) => Parts::OneAndNumber(OneAndNumber::Rsil, (t, l)),
        System::Level(LevelName::Waiti, _, l) => Parts::Number(Number::Waiti, l),
        System::Rotw(n) => Parts::Number(Number::Rotw, n),
        System::Special(name, t, n) => Parts::OneAndSpecial(OneAndSpecial::Special(name), (t, n)),
        System::User(name, r, n) => Parts::OneAndSpecial(OneAndSpecial::User(name), (r, n)),
    }
}

fn density_parts(i: Density) -> Parts
    ensures { result ≡ density_parts i }
{
    match i {
        Density::Word(name, t, s, n) => {
            Parts::TwoAndNumber(TwoAndNumber::WordNarrow(name), (t, s, n))
        }
        Density::Add(r, s, t) => Parts::Three(Three::AddNarrow, (r, s, t)),
        Density::Addi(r, s, n) => Parts::TwoAndNumber(TwoAndNumber::AddiNarrow, (r, s, n)),
        Density::Movi(s, n) => Parts::OneAndNumber(OneAndNumber::MoviNarrow, (s, n)),
        Density::BranchZero(name, s, d) => Parts::OneAndTarget(
            OneAndTarget::BranchZeroNarrow(name),
            (s, d),
        ),
        Density::Mov(t, s) => Parts::Two(Two::MovNarrow, (t, s)),
        Density::Bare(name) => Parts::Nothing(Plain::Bare(name)),
        Density::Break(n) => Parts::Number(Number::BreakNarrow, n),
    }
}

fn boolean_parts(i: Boolean) -> Parts
    ensures { result ≡ boolean_parts i }
{
    match i {
        Boolean::Logic(name, r, s, t) => Parts::Three(Three::Logic(name), (r, s, t)),
        Boolean::Four(name, t, s) => Parts::Two(Two::Four(name), (t, s)),
        Boolean::Eight(name, t, s) => Parts::Two(Two::Eight(name), (t, s)),
        Boolean::Test(name, s, d) => Parts::OneAndTarget(OneAndTarget::Test(name), (s, d)),
        Boolean::Choice(name, r, s, t) => Parts::Three(Three::Choice(name), (r, s, t)),
    }
}

/// The mnemonic and the operands of an instruction.
pub fn parts_of(i: Insn) -> Parts
    ensures { result ≡ parts_of i }
{
    match i {
        Insn::Three(i) => three_parts(i),
        Insn::Shift(i) => shift_parts(i),
        Insn::Memory(i) => memory_parts(i),
        Insn::Control(i) => control_parts(i),
        Insn::System(i) => system_parts(i),
        Insn::Density(i) => density_parts(i),
        Insn::Boolean(i) => boolean_parts(i),
    }
}

/// Without operands.
fn of_plain(name: Plain) -> Insn
    ensures { result ≡ of_plain name }
{
    match name {
        Plain::Return(name) => Insn::Control(Control::Return(name)),
        Plain::Sync(name) => Insn::System(System::Sync(name)),
        Plain::Wait(name) => Insn::System(System::Wait(name)),
        Plain::ExceptionReturn(name) => Insn::System(System::ExceptionReturn(name)),
        Plain::Syscall => Insn::System(System::Trap(TrapName::Syscall, 0, 0)),
        Plain::Bare(name) => Insn::Density(Density::Bare(name)),
    }
}

/// Of one register.
fn of_one(name: One, s: u8) -> Insn
    ensures { result ≡ of_one name s }
{
    match name {
        One::Amount(name) => Insn::Shift(Shift::Amount(name, s)),
        One::ByteAmount(name) => Insn::Shift(Shift::ByteAmount(name, s)),
        One::Jx => Insn::Control(Control::Jx(s)),
        One::Callx(name) => Insn::Control(Control::Callx(name, s)),
    }
}

/// Of two registers.
fn of_two(name: Two, registers: (u8, u8)) -> Insn
    ensures { result ≡ of_two name registers.0 registers.1 }
{
    let (a, b) = registers;
    match name {
        Two::Sign(name) => Insn::Shift(Shift::Sign(name, a, b)),
        Two::ShiftRight(name) => Insn::Shift(Shift::ShiftRight(name, a, b)),
        Two::Sll => Insn::Shift(Shift::Sll(a, b)),
        Two::Normalize(name) => Insn::Shift(Shift::Normalize(name, a, b)),
        Two::Movsp => Insn::Shift(Shift::Movsp(a, b)),
        Two::Mov => Insn::Three(three::Three::Bitwise(BitwiseName::Or, a, b, b)),
        Two::MovNarrow => Insn::Density(Density::Mov(a, b)),
        Two::Four(name) => Insn::Boolean(Boolean::Four(name, a, b)),
        Two::Eight(name) => Insn::Boolean(Boolean::Eight(name, a, b)),
    }
}

/// Of three registers.
fn of_three(name: Three, registers: (u8, u8, u8)) -> Insn
    ensures { result ≡ of_three name registers.0 registers.1 registers.2 }
{
    let (r, s, t) = registers;
    match name {
        Three::Bitwise(name) => Insn::Three(three::Three::Bitwise(name, r, s, t)),
        Three::Sum(name) => Insn::Three(three::Three::Sum(name, r, s, t)),
        Three::Difference(name) => Insn::Three(three::Three::Difference(name, r, s, t)),
        Three::Src => Insn::Three(three::Three::Src(r, s, t)),
        Three::Mul16(name) => Insn::Three(three::Three::Mul16(name, r, s, t)),
        Three::Mull => Insn::Three(three::Three::Mull(r, s, t)),
        Three::MulHigh(name) => Insn::Three(three::Three::MulHigh(name, r, s, t)),
        Three::Divide(name) => Insn::Three(three::Three::Divide(name, r, s, t)),
        Three::MinMax(name) => Insn::Three(three::Three::MinMax(name, r, s, t)),
        Three::Move(name) => Insn::Three(three::Three::Move(name, r, s, t)),
        Three::AddNarrow => Insn::Density(Density::Add(r, s, t)),
        Three::Logic(name) => Insn::Boolean(Boolean::Logic(name, r, s, t)),
        Three::Choice(name) => Insn::Boolean(Boolean::Choice(name, r, s, t)),
    }
}

/// Of a number.
fn of_number(name: Number, n: i32) -> Insn
    ensures { result ≡ of_number name n }
{
    match name {
        Number::Ssai => Insn::Shift(Shift::Ssai(n)),
        Number::Rfi => Insn::System(System::Rfi(n)),
        Number::Waiti => Insn::System(System::Level(LevelName::Waiti, 0, n)),
        Number::Rotw => Insn::System(System::Rotw(n)),
        Number::BreakNarrow => Insn::Density(Density::Break(n)),
    }
}

/// Of a register and a number.
fn of_one_and_number(name: OneAndNumber, operands: (u8, i32)) -> Insn
    ensures { result ≡ of_one_and_number name operands.0 operands.1 }
{
    let (s, n) = operands;
    match name {
        OneAndNumber::Movi => Insn::Memory(Memory::Movi(s, n)),
        OneAndNumber::Rsil => Insn::System(System::Level(LevelName::Rsil, s, n)),
        OneAndNumber::Entry => Insn::Control(Control::Entry(s, n)),
        OneAndNumber::MoviNarrow => Insn::Density(Density::Movi(s, n)),
    }
}

/// Of a register and a special or user register.
fn of_one_and_special(name: OneAndSpecial, operands: (u8, u8)) -> Insn
    ensures { result ≡ of_one_and_special name operands.0 operands.1 }
{
    let (t, n) = operands;
    match name {
        OneAndSpecial::Special(name) => Insn::System(System::Special(name, t, n)),
        OneAndSpecial::User(name) => Insn::System(System::User(name, t, n)),
    }
}

/// Of a register and the offset of a target.
fn of_one_and_target(name: OneAndTarget, operands: (u8, i32)) -> Insn
    ensures { result ≡ of_one_and_target name operands.0 operands.1 }
{
    let (s, offset) = operands;
    match name {
        OneAndTarget::BranchZero(name) => Insn::Control(Control::BranchZero(name, s, offset)),
        OneAndTarget::Loop(name) => Insn::Control(Control::Loop(name, s, offset)),
        OneAndTarget::BranchZeroNarrow(name) => Insn::Density(Density::BranchZero(name, s, offset)),
        OneAndTarget::Test(name) => Insn::Boolean(Boolean::Test(name, s, offset)),
    }
}

/// Of a register, a number and the offset of a target.
fn of_one_number_and_target(name: OneNumberAndTarget, operands: (u8, i32, i32)) -> Insn
    ensures { result ≡ of_one_number_and_target name operands.0 operands.1 operands.2 }
{
    let (s, n, offset) = operands;
    match name {
        OneNumberAndTarget::BranchConst(name) => Insn::Control(Control::BranchConst(
            name, s, n, offset,
        )),
        OneNumberAndTarget::BranchConstu(name) => Insn::Control(Control::BranchConstu(
            name, s, n, offset,
        )),
        OneNumberAndTarget::BranchBit(name) => Insn::Control(Control::BranchBit(
            name, s, n, offset,
        )),
    }
}

/// Of two registers and a number.
fn of_two_and_number(name: TwoAndNumber, operands: (u8, u8, i32)) -> Insn
    ensures { result ≡ of_two_and_number name operands.0 operands.1 operands.2 }
{
    let (a, b, n) = operands;
    match name {
        TwoAndNumber::Slli => Insn::Shift(Shift::Slli(a, b, n)),
        TwoAndNumber::Srai => Insn::Shift(Shift::Srai(a, b, n)),
        TwoAndNumber::Srli => Insn::Shift(Shift::Srli(a, b, n)),
        TwoAndNumber::Signed(name) => Insn::Shift(Shift::Signed(name, a, b, n)),
        TwoAndNumber::Byte(name) => Insn::Memory(Memory::Byte(name, a, b, n)),
        TwoAndNumber::Half(name) => Insn::Memory(Memory::Half(name, a, b, n)),
        TwoAndNumber::Word(name) => Insn::Memory(Memory::Word(name, a, b, n)),
        TwoAndNumber::S32c1i => Insn::Memory(Memory::S32c1i(a, b, n)),
        TwoAndNumber::Window(name) => Insn::Memory(Memory::Window(name, a, b, n)),
        TwoAndNumber::Addi => Insn::Memory(Memory::Addi(a, b, n)),
        TwoAndNumber::Addmi => Insn::Memory(Memory::Addmi(a, b, n)),
        TwoAndNumber::WordNarrow(name) => Insn::Density(Density::Word(name, a, b, n)),
        TwoAndNumber::AddiNarrow => Insn::Density(Density::Addi(a, b, n)),
    }
}

/// Of two registers and the offset of a target.
fn of_two_and_target(name: TwoAndTarget, operands: (u8, u8, i32)) -> Insn
    ensures { result ≡ of_two_and_target name operands.0 operands.1 operands.2 }
{
    let (s, t, offset) = operands;
    match name {
        TwoAndTarget::Branch(name) => Insn::Control(Control::Branch(name, s, t, offset)),
        TwoAndTarget::BranchNot(name) => Insn::Control(Control::BranchNot(name, s, t, offset)),
    }
}

/// The instruction of a mnemonic and its operands.
pub fn insn_of(parts: Parts) -> Insn
    ensures value { result ≡ insn_of parts }
    ensures size { insn_size result ≡ size_of (mnemonic_in parts) }
{
    match parts {
        Parts::Nothing(name) => of_plain(name),
        Parts::One(name, s) => of_one(name, s),
        Parts::Two(name, registers) => of_two(name, registers),
        Parts::Three(name, registers) => of_three(name, registers),
        Parts::Number(name, n) => of_number(name, n),
        Parts::Break((x, y)) => Insn::System(System::Trap(TrapName::Break, x, y)),
        Parts::OneAndNumber(name, operands) => of_one_and_number(name, operands),
        Parts::TwoAndNumber(name, operands) => of_two_and_number(name, operands),
        Parts::Extui((r, t, n, w)) => Insn::Shift(Shift::Extui(r, t, n, w)),
        Parts::OneAndSpecial(name, operands) => of_one_and_special(name, operands),
        Parts::Jump(d) => Insn::Control(Control::J(d)),
        Parts::Call(name, d) => Insn::Control(Control::Call(name, d)),
        Parts::Literal((t, d)) => Insn::Memory(Memory::L32r(t, d)),
        Parts::OneAndTarget(name, operands) => of_one_and_target(name, operands),
        Parts::OneNumberAndTarget(name, operands) => of_one_number_and_target(name, operands),
        Parts::TwoAndTarget(name, operands) => of_two_and_target(name, operands),
    }
}
