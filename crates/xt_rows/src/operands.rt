ghost use Rattle.std.specs.Prelude.{◌≡◌, ◌<◌, true};
ghost use Rattle.xt_isa.specs.Ranges.{in_range, natural_within};
ghost use Rattle.xt_special.specs.Numbers as number;
ghost use Rattle.xt_rows.specs.Numbers.{natural};
ghost use Rattle.xt_rows.specs.Operands.{boolean_named, boolean_reads, call_size, callx_size, changes_interrupt, control_named, control_reads, density_named, density_reads, memory_named, memory_reads, highest_register, reads, shift_named, shift_reads, special_reads, system_named, system_reads, system_special_reads, three_named, three_reads, two};

use crate::numbers::natural;
use xt_isa::boolean::Boolean;
use xt_isa::control::{CallName, CallxName, Control};
use xt_isa::density::{BareName, Density, NarrowName};
use xt_isa::memory::{ByteName, HalfName, Memory, WindowName, WordName};
use xt_isa::shift::Shift;
use xt_isa::system::{ExceptionReturnName, LevelName, SpecialName, System, UserName};
use xt_isa::three::Three;
use xt_isa::{Insn, number};

/// Up to two registers by number.
pub type Registers = (Option<u8>, Option<u8>);

/// By how many windows a call moves.
#[inline(always)]
pub fn call_size(name: CallName) -> u8
    ensures size { result ≡ call_size name }
    ensures range { result < 4 }
{
    match name {
        CallName::Call0 => 0,
        CallName::Call4 => 1,
        CallName::Call8 => 2,
        CallName::Call12 => 3,
    }
}

/// By how many windows a call by register moves.
#[inline(always)]
pub fn callx_size(name: CallxName) -> u8
    ensures size { result ≡ callx_size name }
    ensures range { result < 4 }
{
    match name {
        CallxName::Callx0 => 0,
        CallxName::Callx4 => 1,
        CallxName::Callx8 => 2,
        CallxName::Callx12 => 3,
    }
}

#[inline(always)]
fn three_reads(i: Three) -> Registers
    ensures { result ≡ three_reads i }
{
    match i {
        Three::Bitwise(_, _, s, t)
        | Three::Sum(_, _, s, t)
        | Three::Difference(_, _, s, t)
        | Three::Src(_, s, t)
        | Three::Mul16(_, _, s, t)
        | Three::Mull(_, s, t)
        | Three::MulHigh(_, _, s, t)
        | Three::Divide(_, _, s, t)
        | Three::MinMax(_, _, s, t)
        | Three::Move(_, _, s, t) => (Some(s), Some(t)),
    }
}

#[inline(always)]
fn shift_reads(i: Shift) -> Registers
    ensures { result ≡ shift_reads i }
{
    match i {
        Shift::Sign(_, _, s)
        | Shift::ShiftRight(_, _, s)
        | Shift::Sll(_, s)
        | Shift::Slli(_, s, _)
        | Shift::Srai(_, s, _)
        | Shift::Srli(_, s, _)
        | Shift::Extui(_, s, _, _)
        | Shift::Signed(_, _, s, _)
        | Shift::Normalize(_, _, s)
        | Shift::Movsp(_, s)
        | Shift::Amount(_, s)
        | Shift::ByteAmount(_, s) => (Some(s), None),
        Shift::Ssai(_) => (None, None),
    }
}

#[inline(always)]
fn memory_reads(i: Memory) -> Registers
    ensures { result ≡ memory_reads i }
{
    match i {
        Memory::Byte(ByteName::L8ui, _, s, _)
        | Memory::Half(HalfName::L16ui | HalfName::L16si, _, s, _)
        | Memory::Word(WordName::L32i | WordName::L32ai, _, s, _)
        | Memory::Window(WindowName::L32e, _, s, _)
        | Memory::Addi(_, s, _)
        | Memory::Addmi(_, s, _) => (Some(s), None),
        Memory::Byte(ByteName::S8i, t, s, _)
        | Memory::Half(HalfName::S16i, t, s, _)
        | Memory::Word(WordName::S32i | WordName::S32ri, t, s, _)
        | Memory::S32c1i(t, s, _)
        | Memory::Window(WindowName::S32e, t, s, _) => (Some(s), Some(t)),
        Memory::L32r(_, _) | Memory::Movi(_, _) => (None, None),
    }
}

#[inline(always)]
fn control_reads(i: Control) -> Registers
    ensures { result ≡ control_reads i }
{
    match i {
        Control::J(_) | Control::Call(_, _) => (None, None),
        Control::Return(_) => (Some(0), None),
        Control::Jx(s)
        | Control::Callx(_, s)
        | Control::BranchZero(_, s, _)
        | Control::BranchConst(_, s, _, _)
        | Control::BranchConstu(_, s, _, _)
        | Control::BranchBit(_, s, _, _)
        | Control::Entry(s, _)
        | Control::Loop(_, s, _) => (Some(s), None),
        Control::Branch(_, s, t, _) | Control::BranchNot(_, s, t, _) => (Some(s), Some(t)),
    }
}

#[inline(always)]
fn system_reads(i: System) -> Registers
    ensures { result ≡ system_reads i }
{
    match i {
        System::Special(SpecialName::Wsr | SpecialName::Xsr, t, _) => (Some(t), None),
        System::User(UserName::Wur, t, _) => (Some(t), None),
        _ => (None, None),
    }
}

#[inline(always)]
fn density_reads(i: Density) -> Registers
    ensures { result ≡ density_reads i }
{
    match i {
        Density::Word(NarrowName::L32i, _, s, _)
        | Density::Addi(_, s, _)
        | Density::BranchZero(_, s, _)
        | Density::Mov(_, s) => (Some(s), None),
        Density::Word(NarrowName::S32i, t, s, _) => (Some(s), Some(t)),
        Density::Add(_, s, t) => (Some(s), Some(t)),
        Density::Bare(BareName::Ret | BareName::Retw) => (Some(0), None),
        Density::Movi(_, _) | Density::Bare(BareName::Nop | BareName::Ill) | Density::Break(_) => (
            None, None,
        ),
    }
}

#[inline(always)]
fn boolean_reads(i: Boolean) -> Registers
    ensures { result ≡ boolean_reads i }
{
    match i {
        Boolean::Choice(_, _, s, _) => (Some(s), None),
        Boolean::Logic(_, _, _, _)
        | Boolean::Four(_, _, _)
        | Boolean::Eight(_, _, _)
        | Boolean::Test(_, _, _) => (None, None),
    }
}

/// The visible registers whose values the instruction uses.
#[tactic(auto, unfolding(crate::specs::Operands::reads))]
#[inline(always)]
pub fn reads(i: Insn) -> Registers
    ensures { result ≡ reads i }
{
    match i {
        Insn::Three(i) => three_reads(i),
        Insn::Shift(i) => shift_reads(i),
        Insn::Memory(i) => memory_reads(i),
        Insn::Control(i) => control_reads(i),
        Insn::System(i) => system_reads(i),
        Insn::Density(i) => density_reads(i),
        Insn::Boolean(i) => boolean_reads(i),
    }
}

// INTERRUPT, where a write of this special register changes bits of it.
#[inline(always)]
fn changes_interrupt(n: u8) -> Option<u8>
    ensures { result ≡ changes_interrupt n }
{
    match n {
        number::INTERRUPT | number::INTCLEAR | number::CCOMPARE0..=number::CCOMPARE2 => {
            Some(number::INTERRUPT)
        }
        _ => None,
    }
}

#[inline(always)]
fn system_special_reads(i: System) -> Registers
    requires { in_range (Insn.System i) ≡ true }
    ensures { result ≡ system_special_reads i }
{
    match i {
        System::ExceptionReturn(
            ExceptionReturnName::Rfe | ExceptionReturnName::Rfwo | ExceptionReturnName::Rfwu,
        ) => (Some(number::EPC1), None),
        System::ExceptionReturn(ExceptionReturnName::Rfde) => (Some(number::DEPC), None),
        System::Rfi(level) => return_registers(level),
        System::Special(SpecialName::Rsr, _, n) => (Some(n), None),
        System::Special(SpecialName::Wsr, _, n) => (None, changes_interrupt(n)),
        System::Special(SpecialName::Xsr, _, n) => (Some(n), changes_interrupt(n)),
        _ => (None, None),
    }
}

// EPC and EPS of a level.
#[tactic(auto, unfolding(crate::specs::Numbers::natural, xt_isa::specs::Ranges::natural_within))]
#[inline(always)]
fn return_registers(level: i32) -> Registers
    requires { natural_within 2 7 level ≡ true }
    ensures { result ≡ two (number.epc (natural level)) (number.eps (natural level)) }
{
    let level = natural(level) as u8;
    let above = level - 2;
    (Some(number::EPC2 + above), Some(number::EPS2 + above))
}

/// The special registers whose values the instruction uses, beside PS and THREADPTR.
#[tactic(auto, unfolding(crate::specs::Operands::special_reads))]
#[inline(always)]
pub fn special_reads(i: Insn) -> Registers
    requires { in_range i ≡ true }
    ensures { result ≡ special_reads i }
{
    match i {
        Insn::Three(Three::Src(_, _, _)) => (Some(number::SAR), None),
        Insn::Shift(Shift::ShiftRight(_, _, _) | Shift::Sll(_, _)) => (Some(number::SAR), None),
        Insn::Memory(Memory::S32c1i(_, _, _)) => (Some(number::SCOMPARE1), None),
        Insn::System(i) => system_special_reads(i),
        Insn::Boolean(_) => (Some(number::BR), None),
        _ => (None, None),
    }
}

#[inline(always)]
fn three_named(i: Three) -> u8
    ensures { result ≡ three_named i }
{
    match i {
        Three::Bitwise(_, r, s, t)
        | Three::Sum(_, r, s, t)
        | Three::Difference(_, r, s, t)
        | Three::Src(r, s, t)
        | Three::Mul16(_, r, s, t)
        | Three::Mull(r, s, t)
        | Three::MulHigh(_, r, s, t)
        | Three::Divide(_, r, s, t)
        | Three::MinMax(_, r, s, t)
        | Three::Move(_, r, s, t) => r.max(s.max(t)),
    }
}

#[inline(always)]
fn shift_named(i: Shift) -> u8
    ensures { result ≡ shift_named i }
{
    match i {
        Shift::Sign(_, r, s)
        | Shift::ShiftRight(_, r, s)
        | Shift::Sll(r, s)
        | Shift::Slli(r, s, _)
        | Shift::Srai(r, s, _)
        | Shift::Srli(r, s, _)
        | Shift::Extui(r, s, _, _)
        | Shift::Signed(_, r, s, _)
        | Shift::Normalize(_, r, s)
        | Shift::Movsp(r, s) => r.max(s),
        Shift::Amount(_, s) | Shift::ByteAmount(_, s) => s,
        Shift::Ssai(_) => 0,
    }
}

#[inline(always)]
fn memory_named(i: Memory) -> u8
    ensures { result ≡ memory_named i }
{
    match i {
        Memory::Byte(_, t, s, _)
        | Memory::Half(_, t, s, _)
        | Memory::Word(_, t, s, _)
        | Memory::S32c1i(t, s, _)
        | Memory::Window(_, t, s, _)
        | Memory::Addi(t, s, _)
        | Memory::Addmi(t, s, _) => t.max(s),
        Memory::L32r(t, _) | Memory::Movi(t, _) => t,
    }
}

#[inline(always)]
fn control_named(i: Control) -> u8
    ensures { result ≡ control_named i }
{
    match i {
        Control::J(_) | Control::Return(_) => 0,
        Control::Call(name, _) => 4 * call_size(name),
        Control::Callx(name, s) => (4 * callx_size(name)).max(s),
        Control::Jx(s)
        | Control::BranchZero(_, s, _)
        | Control::BranchConst(_, s, _, _)
        | Control::BranchConstu(_, s, _, _)
        | Control::BranchBit(_, s, _, _)
        | Control::Entry(s, _)
        | Control::Loop(_, s, _) => s,
        Control::Branch(_, s, t, _) | Control::BranchNot(_, s, t, _) => s.max(t),
    }
}

#[inline(always)]
fn system_named(i: System) -> u8
    ensures { result ≡ system_named i }
{
    match i {
        System::Level(LevelName::Rsil, t, _) | System::Special(_, t, _) | System::User(_, t, _) =>
            t,
        _ => 0,
    }
}

#[inline(always)]
fn density_named(i: Density) -> u8
    ensures { result ≡ density_named i }
{
    match i {
        Density::Word(_, t, s, _) | Density::Addi(t, s, _) | Density::Mov(t, s) => t.max(s),
        Density::Add(r, s, t) => r.max(s.max(t)),
        Density::Movi(s, _) | Density::BranchZero(_, s, _) => s,
        Density::Bare(_) | Density::Break(_) => 0,
    }
}

#[inline(always)]
fn boolean_named(i: Boolean) -> u8
    ensures { result ≡ boolean_named i }
{
    match i {
        Boolean::Choice(_, r, s, _) => r.max(s),
        Boolean::Logic(_, _, _, _)
        | Boolean::Four(_, _, _)
        | Boolean::Eight(_, _, _)
        | Boolean::Test(_, _, _) => 0,
    }
}

/// The highest visible register that the instruction names, or 0 where it names none.
#[tactic(auto, unfolding(crate::specs::Operands::highest_register))]
#[inline(always)]
pub fn highest_register(i: Insn) -> u8
    ensures { result ≡ highest_register i }
{
    match i {
        Insn::Three(i) => three_named(i),
        Insn::Shift(i) => shift_named(i),
        Insn::Memory(i) => memory_named(i),
        Insn::Control(i) => control_named(i),
        Insn::System(i) => system_named(i),
        Insn::Density(i) => density_named(i),
        Insn::Boolean(i) => boolean_named(i),
    }
}
