//! The words with three registers, by their minor operation codes.
#![tactic(auto, unfolding(xt_isa::specs::Spelling::spelled_insn, xt_isa::specs::Spelling::all_rows))]

ghost use Rattle.std.specs.Prelude.{◌≡◌, ℕ, ◌+◌, ◌*◌, ◌%◌, ◌<◌, ◌≤◌, ◌⊎◌};
ghost use Rattle.xt_isa.specs.Spelling.{spelled_insn};

use crate::immediate::{below, join_five, join_two, plain};
use xt_isa::boolean::{Boolean, ChoiceName, LogicName};
use xt_isa::memory::{Memory, WindowName};
use xt_isa::shift::{Shift, ShiftRightName, SignedName};
use xt_isa::special::{can_exchange, can_read, can_write};
use xt_isa::system::{SpecialName, System, UserName};
use xt_isa::three::{
    BitwiseName, DifferenceName, DivideName, MinMaxName, MoveName, Mul16Name, MulHighName, SumName,
    Three,
};
use xt_isa::{Insn, number};

/// SLLI, where the amount is not 32.
#[inline(always)]
fn slli(t: u8, s: u8, r: u8, op2: u8) -> Option<Insn>
    requires t { t < 16 }
    requires s { s < 16 }
    requires r { r < 16 }
    requires op2 { op2 < 2 }
    ensures { result ≡ spelled_insn (record { op0 = 0; t = t; s = s; r = r; op1 = 1; op2 = op2 }) }
{
    let amount = join_five(t, op2);
    if amount == 0 {
        None
    } else {
        Some(Insn::Shift(Shift::Slli(r, s, plain(32 - amount as u32))))
    }
}

/// The opcode map RST1, by op2.
#[inline(always)]
pub fn rst1(t: u8, s: u8, r: u8, op2: u8) -> Option<Insn>
    requires t { t < 16 }
    requires s { s < 16 }
    requires r { r < 16 }
    requires op2 { op2 < 16 }
    ensures { result ≡ spelled_insn (record { op0 = 0; t = t; s = s; r = r; op1 = 1; op2 = op2 }) }
{
    match op2 {
        0 | 1 => slli(t, s, r, op2),
        2 | 3 => Some(Insn::Shift(Shift::Srai(r, t, plain(join_five(s, op2) as u32)))),
        4 => Some(Insn::Shift(Shift::Srli(r, t, plain(s as u32)))),
        6 => {
            let number = join_two(s, r);
            if can_exchange(number) {
                Some(Insn::System(System::Special(SpecialName::Xsr, t, number)))
            } else {
                None
            }
        }
        8 => Some(Insn::Three(Three::Src(r, s, t))),
        9 => {
            if s == 0 {
                Some(Insn::Shift(Shift::ShiftRight(ShiftRightName::Srl, r, t)))
            } else {
                None
            }
        }
        10 => {
            if t == 0 {
                Some(Insn::Shift(Shift::Sll(r, s)))
            } else {
                None
            }
        }
        11 => {
            if s == 0 {
                Some(Insn::Shift(Shift::ShiftRight(ShiftRightName::Sra, r, t)))
            } else {
                None
            }
        }
        12 => Some(Insn::Three(Three::Mul16(Mul16Name::Mul16u, r, s, t))),
        13 => Some(Insn::Three(Three::Mul16(Mul16Name::Mul16s, r, s, t))),
        _ => None,
    }
}

/// The opcode map RST2, by op2.
#[inline(always)]
pub fn rst2(t: u8, s: u8, r: u8, op2: u8) -> Option<Insn>
    requires t { t < 16 }
    requires s { s < 16 }
    requires r { r < 16 }
    requires op2 { op2 < 16 }
    ensures { result ≡ spelled_insn (record { op0 = 0; t = t; s = s; r = r; op1 = 2; op2 = op2 }) }
{
    Some(Insn::Three(match op2 {
        0 => return Some(Insn::Boolean(Boolean::Logic(LogicName::Andb, r, s, t))),
        1 => return Some(Insn::Boolean(Boolean::Logic(LogicName::Andbc, r, s, t))),
        2 => return Some(Insn::Boolean(Boolean::Logic(LogicName::Orb, r, s, t))),
        3 => return Some(Insn::Boolean(Boolean::Logic(LogicName::Orbc, r, s, t))),
        4 => return Some(Insn::Boolean(Boolean::Logic(LogicName::Xorb, r, s, t))),
        8 => Three::Mull(r, s, t),
        10 => Three::MulHigh(MulHighName::Muluh, r, s, t),
        11 => Three::MulHigh(MulHighName::Mulsh, r, s, t),
        12 => Three::Divide(DivideName::Quou, r, s, t),
        13 => Three::Divide(DivideName::Quos, r, s, t),
        14 => Three::Divide(DivideName::Remu, r, s, t),
        15 => Three::Divide(DivideName::Rems, r, s, t),
        _ => return None,
    }))
}

/// The opcode map RST3, by op2.
#[inline(always)]
pub fn rst3(t: u8, s: u8, r: u8, op2: u8) -> Option<Insn>
    requires t { t < 16 }
    requires s { s < 16 }
    requires r { r < 16 }
    requires op2 { op2 < 16 }
    ensures { result ≡ spelled_insn (record { op0 = 0; t = t; s = s; r = r; op1 = 3; op2 = op2 }) }
{
    match op2 {
        0 => {
            let number = join_two(s, r);
            if can_read(number) {
                Some(Insn::System(System::Special(SpecialName::Rsr, t, number)))
            } else {
                None
            }
        }
        1 => {
            let number = join_two(s, r);
            if can_write(number) {
                Some(Insn::System(System::Special(SpecialName::Wsr, t, number)))
            } else {
                None
            }
        }
        2 => Some(Insn::Shift(Shift::Signed(SignedName::Sext, r, s, plain(t as u32 + 7)))),
        3 => Some(Insn::Shift(Shift::Signed(SignedName::Clamps, r, s, plain(t as u32 + 7)))),
        4 => Some(Insn::Three(Three::MinMax(MinMaxName::Min, r, s, t))),
        5 => Some(Insn::Three(Three::MinMax(MinMaxName::Max, r, s, t))),
        6 => Some(Insn::Three(Three::MinMax(MinMaxName::Minu, r, s, t))),
        7 => Some(Insn::Three(Three::MinMax(MinMaxName::Maxu, r, s, t))),
        8 => Some(Insn::Three(Three::Move(MoveName::Moveqz, r, s, t))),
        9 => Some(Insn::Three(Three::Move(MoveName::Movnez, r, s, t))),
        10 => Some(Insn::Three(Three::Move(MoveName::Movltz, r, s, t))),
        11 => Some(Insn::Three(Three::Move(MoveName::Movgez, r, s, t))),
        12 => Some(Insn::Boolean(Boolean::Choice(ChoiceName::Movf, r, s, t))),
        13 => Some(Insn::Boolean(Boolean::Choice(ChoiceName::Movt, r, s, t))),
        14 => {
            if s == 14 && t == 7 {
                Some(Insn::System(System::User(UserName::Rur, r, number::THREADPTR)))
            } else {
                None
            }
        }
        15 => {
            if r == 14 && s == 7 {
                Some(Insn::System(System::User(UserName::Wur, t, number::THREADPTR)))
            } else {
                None
            }
        }
        _ => None,
    }
}

/// The opcode map RST0, by op2.
#[inline(always)]
pub fn rst0(t: u8, s: u8, r: u8, op2: u8) -> Option<Insn>
    requires t { t < 16 }
    requires s { s < 16 }
    requires r { r < 16 }
    requires op2 { op2 < 16 }
    ensures { result ≡ spelled_insn (record { op0 = 0; t = t; s = s; r = r; op1 = 0; op2 = op2 }) }
{
    Some(Insn::Three(match op2 {
        0 => return crate::zero::st0(t, s, r),
        1 => Three::Bitwise(BitwiseName::And, r, s, t),
        2 => Three::Bitwise(BitwiseName::Or, r, s, t),
        3 => Three::Bitwise(BitwiseName::Xor, r, s, t),
        4 => return crate::zero::st1(t, s, r),
        6 => return crate::zero::rt0(t, s, r),
        8 => Three::Sum(SumName::Add, r, s, t),
        9 => Three::Sum(SumName::Addx2, r, s, t),
        10 => Three::Sum(SumName::Addx4, r, s, t),
        11 => Three::Sum(SumName::Addx8, r, s, t),
        12 => Three::Difference(DifferenceName::Sub, r, s, t),
        13 => Three::Difference(DifferenceName::Subx2, r, s, t),
        14 => Three::Difference(DifferenceName::Subx4, r, s, t),
        15 => Three::Difference(DifferenceName::Subx8, r, s, t),
        _ => return None,
    }))
}

/// EXTUI, of op1 4 and 5.
#[inline(always)]
fn extui(t: u8, s: u8, r: u8, op1: u8, op2: u8) -> Option<Insn>
    requires t { t < 16 }
    requires s { s < 16 }
    requires r { r < 16 }
    requires low { 4 ≤ op1 }
    requires high { op1 < 6 }
    requires op2 { op2 < 16 }
    ensures { result ≡ spelled_insn (record { op0 = 0; t = t; s = s; r = r; op1 = op1; op2 = op2 }) }
{
    let shift = plain(join_five(s, op1) as u32);
    let width = plain(op2 as u32 + 1);
    // (an arm for each number, since the proof looks the row up by it)
    match op1 {
        4 => Some(Insn::Shift(Shift::Extui(r, t, shift, width))),
        5 => Some(Insn::Shift(Shift::Extui(r, t, shift, width))),
        _ => None,
    }
}

/// The opcode map LSC4, by op2.
#[inline(always)]
fn window(t: u8, s: u8, r: u8, op2: u8) -> Option<Insn>
    requires t { t < 16 }
    requires s { s < 16 }
    requires r { r < 16 }
    requires op2 { op2 < 16 }
    ensures { result ≡ spelled_insn (record { op0 = 0; t = t; s = s; r = r; op1 = 9; op2 = op2 }) }
{
    match op2 {
        0 => Some(Insn::Memory(Memory::Window(WindowName::L32e, t, s, below(4 * r as u32, 64)))),
        4 => Some(Insn::Memory(Memory::Window(WindowName::S32e, t, s, below(4 * r as u32, 64)))),
        _ => None,
    }
}

/// Values of op1 that spell nothing.
#[inline(always)]
fn empty_group(t: u8, s: u8, r: u8, op1: u8, op2: u8) -> Option<Insn>
    requires op1 { op1 ≡ 6 ⊎ (op1 ≡ 7 ⊎ (op1 ≡ 8 ⊎ (9 < op1 × op1 < 16))) }
    requires op2 { op2 < 16 }
    ensures { result ≡ spelled_insn (record { op0 = 0; t = t; s = s; r = r; op1 = op1; op2 = op2 }) }
{
    match op1 {
        6 | 7 | 8 | 10 | 11 | 12 | 13 | 14 | 15 => None,
        _ => None,
    }
}

/// The opcode map QRST, by op1.
#[tactic(auto)]
#[inline(always)]
pub fn qrst(t: u8, s: u8, r: u8, op1: u8, op2: u8) -> Option<Insn>
    requires t { t < 16 }
    requires s { s < 16 }
    requires r { r < 16 }
    requires op1 { op1 < 16 }
    requires op2 { op2 < 16 }
    ensures { result ≡ spelled_insn (record { op0 = 0; t = t; s = s; r = r; op1 = op1; op2 = op2 }) }
{
    match op1 {
        0 => rst0(t, s, r, op2),
        1 => rst1(t, s, r, op2),
        2 => rst2(t, s, r, op2),
        3 => rst3(t, s, r, op2),
        4 | 5 => extui(t, s, r, op1, op2),
        9 => window(t, s, r, op2),
        _ => empty_group(t, s, r, op1, op2),
    }
}
