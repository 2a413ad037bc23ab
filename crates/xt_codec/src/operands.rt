//! Whether each operand of an instruction is in its range, by the tables of instructions.
#![tactic(auto)]

ghost use Rattle.std.specs.Prelude.{◌≡◌};
ghost use Rattle.xt_isa.specs.Ranges.{in_range, three_in_range, shift_in_range, memory_in_range, control_in_range, system_in_range, density_in_range, boolean_in_range};

use crate::ranges::{
    call_within, frame_within, halves_within, is_b4const, is_b4constu, literal_within,
    narrow_within, narrow_words_within, natural_within, one_register, page_within, signed_within,
    small_within, three_registers, two_registers, window_within, words_within,
};
use xt_isa::boolean::Boolean;
use xt_isa::control::Control;
use xt_isa::density::Density;
use xt_isa::memory::Memory;
use xt_isa::shift::Shift;
use xt_isa::special::{can_exchange, can_read, can_write};
use xt_isa::system::{LevelName, SpecialName, System, TrapName};
use xt_isa::three::Three;
use xt_isa::{Insn, number};

fn three_in_range(i: Three) -> bool
    ensures { result ≡ three_in_range i }
{
    match i {
        Three::Bitwise(_, r, s, t)
        | Three::Sum(_, r, s, t)
        | Three::Difference(_, r, s, t)
        | Three::Src(r, s, t)
        | Three::Mul16(_, r, s, t)
        | Three::Mull(r, s, t)
        | Three::MulHigh(_, r, s, t)
        | Three::Divide(_, r, s, t)
        | Three::MinMax(_, r, s, t)
        | Three::Move(_, r, s, t) => three_registers(r, s, t),
    }
}

fn shift_in_range(i: Shift) -> bool
    ensures { result ≡ shift_in_range i }
{
    match i {
        Shift::Sign(_, r, t) | Shift::ShiftRight(_, r, t) => two_registers(r, t),
        Shift::Sll(r, s) => two_registers(r, s),
        Shift::Slli(r, s, n) => two_registers(r, s) && natural_within(1, 31, n),
        Shift::Srai(r, t, n) => two_registers(r, t) && natural_within(0, 31, n),
        Shift::Srli(r, t, n) => two_registers(r, t) && natural_within(0, 15, n),
        Shift::Extui(r, t, n, m) => {
            two_registers(r, t) && natural_within(0, 31, n) && natural_within(1, 16, m)
        }
        Shift::Signed(_, r, s, b) => two_registers(r, s) && natural_within(7, 22, b),
        Shift::Normalize(_, t, s) | Shift::Movsp(t, s) => two_registers(t, s),
        Shift::Amount(_, s) | Shift::ByteAmount(_, s) => one_register(s),
        Shift::Ssai(n) => natural_within(0, 31, n),
    }
}

fn memory_in_range(i: Memory) -> bool
    ensures { result ≡ memory_in_range i }
{
    match i {
        Memory::Byte(_, t, s, n) => two_registers(t, s) && natural_within(0, 255, n),
        Memory::Half(_, t, s, n) => two_registers(t, s) && halves_within(n),
        Memory::Word(_, t, s, n) => two_registers(t, s) && words_within(n),
        Memory::S32c1i(t, s, n) => two_registers(t, s) && words_within(n),
        Memory::Window(_, t, s, n) => two_registers(t, s) && window_within(n),
        Memory::L32r(t, n) => one_register(t) && literal_within(n),
        Memory::Movi(t, n) => one_register(t) && signed_within(2048, n),
        Memory::Addi(t, s, n) => two_registers(t, s) && signed_within(128, n),
        Memory::Addmi(t, s, n) => two_registers(t, s) && page_within(n),
    }
}

fn control_in_range(i: Control) -> bool
    ensures { result ≡ control_in_range i }
{
    match i {
        Control::J(n) => signed_within(131072, n),
        Control::Call(_, n) => call_within(n),
        Control::Return(_) => true,
        Control::Jx(s) | Control::Callx(_, s) => one_register(s),
        Control::BranchZero(_, s, n) => one_register(s) && signed_within(2048, n),
        Control::BranchConst(_, s, c, n) => one_register(s)
            && is_b4const(c)
            && signed_within(128, n),
        Control::BranchConstu(_, s, c, n) => one_register(s)
            && is_b4constu(c)
            && signed_within(128, n),
        Control::Branch(_, s, t, n) => two_registers(s, t) && signed_within(128, n),
        Control::BranchNot(_, s, t, n) => two_registers(s, t) && signed_within(128, n),
        Control::BranchBit(_, s, b, n) => {
            one_register(s) && natural_within(0, 31, b) && signed_within(128, n)
        }
        Control::Entry(s, n) => one_register(s) && frame_within(n),
        Control::Loop(_, s, n) => one_register(s) && natural_within(0, 255, n),
    }
}

fn system_in_range(i: System) -> bool
    ensures { result ≡ system_in_range i }
{
    match i {
        System::Sync(_) | System::Wait(_) | System::ExceptionReturn(_) => true,
        System::Rfi(n) => natural_within(2, 7, n),
        System::Trap(TrapName::Break, m, n) => {
            natural_within(0, 15, m) && natural_within(0, 15, n)
        }
        System::Trap(TrapName::Syscall, m, n) => {
            natural_within(0, 0, m) && natural_within(0, 0, n)
        }
        System::Level(LevelName::Rsil, t, n) => one_register(t) && natural_within(0, 15, n),
        System::Level(LevelName::Waiti, t, n) => t == 0 && natural_within(0, 15, n),
        System::Rotw(n) => signed_within(8, n),
        System::Special(SpecialName::Rsr, t, n) => one_register(t) && can_read(n),
        System::Special(SpecialName::Wsr, t, n) => one_register(t) && can_write(n),
        System::Special(SpecialName::Xsr, t, n) => one_register(t) && can_exchange(n),
        System::User(_, r, n) => one_register(r) && n == number::THREADPTR,
    }
}

fn density_in_range(i: Density) -> bool
    ensures { result ≡ density_in_range i }
{
    match i {
        Density::Word(_, t, s, n) => two_registers(t, s) && narrow_words_within(n),
        Density::Add(r, s, t) => three_registers(r, s, t),
        Density::Addi(r, s, n) => two_registers(r, s) && small_within(n),
        Density::Movi(s, n) => one_register(s) && narrow_within(n),
        Density::BranchZero(_, s, n) => one_register(s) && natural_within(0, 63, n),
        Density::Mov(t, s) => two_registers(t, s),
        Density::Bare(_) => true,
        Density::Break(n) => natural_within(0, 15, n),
    }
}

fn boolean_in_range(i: Boolean) -> bool
    ensures { result ≡ boolean_in_range i }
{
    match i {
        Boolean::Logic(_, r, s, t) | Boolean::Choice(_, r, s, t) => three_registers(r, s, t),
        Boolean::Four(_, t, s) => two_registers(t, s) && s % 4 == 0,
        Boolean::Eight(_, t, s) => two_registers(t, s) && s % 8 == 0,
        Boolean::Test(_, s, n) => one_register(s) && signed_within(128, n),
    }
}

/// Whether each operand is in its range.
pub fn in_range(i: Insn) -> bool
    ensures { result ≡ in_range i }
{
    match i {
        Insn::Three(i) => three_in_range(i),
        Insn::Shift(i) => shift_in_range(i),
        Insn::Memory(i) => memory_in_range(i),
        Insn::Control(i) => control_in_range(i),
        Insn::System(i) => system_in_range(i),
        Insn::Density(i) => density_in_range(i),
        Insn::Boolean(i) => boolean_in_range(i),
    }
}
