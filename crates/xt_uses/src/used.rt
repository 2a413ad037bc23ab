//! Which bits of its operands each instruction uses.
#![tactic(auto)]

ghost use Rattle.std.specs.Prelude.{◌≡◌};
ghost use Rattle.xt_rows.specs.Numbers.{plus};
ghost use Rattle.xt_frames.specs.Marks.{holds_marks};
ghost use Rattle.xt_uses.specs.Used.{bit_number, both_whole, control_used, counted_bits, density_used, holds_owb, memory_used, shift_used, store_used, system_used, tested_known, three_used, used_are_known};

use crate::discipline::{Discipline, is_strict};
use crate::words::{ALL_BITS, Word, and_word, is_whole, knows, not_word};
use xt_isa::Insn;
use xt_isa::control::{BranchName, Control, OppositeName, ZeroName};
use xt_isa::density::{Density, NarrowName};
use xt_isa::memory::{ByteName, HalfName, Memory, WindowName, WordName};
use xt_isa::shift::Shift;
use xt_isa::system::{SpecialName, System};
use xt_isa::three::{MoveName, Three};
use xt_map::UART_TRANSMIT;
use xt_rows::natural;
use xt_special::number;

const SIGN_BIT: u32 = 0x8000_0000;

/// EXCSAVE1 to EXCSAVE7 and MISC0 to MISC3, which keep what is not known.
pub fn keeps_unknown(n: u8) -> bool
    ensures { result ≡ holds_marks n }
{
    (number::EXCSAVE1 <= n && n <= number::EXCSAVE7) || (number::MISC0 <= n && n <= number::MISC3)
}

/// PS and EPS2 to EPS7, which hold OWB.
fn holds_owb(n: u8) -> bool
    ensures { result ≡ holds_owb n }
{
    n == number::PS || (number::EPS2 <= n && n <= number::EPS7)
}

/// The bits of a special register that count: in the strict discipline OWB is neither known nor used.
pub fn counted_bits(discipline: Discipline, n: u8) -> u32
    ensures { result ≡ counted_bits discipline n }
{
    if holds_owb(n) && is_strict(discipline) {
        0xFFFF_F0FF
    } else {
        ALL_BITS
    }
}

fn bit_number(n: u32) -> u32
    ensures { result ≡ bit_number n }
{
    1u32 << (n % 32)
}

#[tactic(auto, unfolding(xt_rows::specs::Numbers::plus))]
fn plus(x: u32, n: i32) -> u32
    ensures { result ≡ plus x n }
{
    x.wrapping_add(n.cast_unsigned())
}

fn store_used(x: Word, y: Word, offset: i32) -> bool
    ensures { result ≡ store_used x y offset }
{
    is_whole(x)
        && if plus(x.value, offset) == UART_TRANSMIT {
            knows(0xFF, y)
        } else {
            true
        }
}

#[tactic(auto, unfolding(crate::specs::Used::three_used))]
fn three_used(i: Three, x: Word, y: Word) -> bool
    ensures { result ≡ three_used i x y }
{
    match i {
        Three::Divide(_, _, _, _) => is_whole(y),
        Three::Move(MoveName::Moveqz, _, _, _) => is_whole(y),
        Three::Move(MoveName::Movnez, _, _, _) => is_whole(y),
        Three::Move(MoveName::Movltz, _, _, _) => knows(SIGN_BIT, y),
        Three::Move(MoveName::Movgez, _, _, _) => knows(SIGN_BIT, y),
        _ => true,
    }
}

#[tactic(auto, unfolding(crate::specs::Used::shift_used))]
fn shift_used(i: Shift, x: Word) -> bool
    ensures { result ≡ shift_used i x }
{
    match i {
        Shift::Amount(_, _) => knows(0x1F, x),
        Shift::ByteAmount(_, _) => knows(3, x),
        Shift::Movsp(_, _) => is_whole(x),
        _ => true,
    }
}

#[tactic(auto, unfolding(crate::specs::Used::memory_used))]
fn memory_used(i: Memory, x: Word, y: Word) -> bool
    ensures { result ≡ memory_used i x y }
{
    match i {
        Memory::Byte(ByteName::L8ui, _, _, _) => is_whole(x),
        Memory::Byte(ByteName::S8i, _, _, offset) => store_used(x, y, offset),
        Memory::Half(HalfName::L16ui, _, _, _) => is_whole(x),
        Memory::Half(HalfName::L16si, _, _, _) => is_whole(x),
        Memory::Half(HalfName::S16i, _, _, offset) => store_used(x, y, offset),
        Memory::Word(WordName::L32i, _, _, _) => is_whole(x),
        Memory::Word(WordName::S32i, _, _, offset) => store_used(x, y, offset),
        Memory::Word(WordName::L32ai, _, _, _) => is_whole(x),
        Memory::Word(WordName::S32ri, _, _, offset) => store_used(x, y, offset),
        Memory::S32c1i(_, _, _) => is_whole(x) && is_whole(y),
        Memory::Window(WindowName::L32e, _, _, _) => is_whole(x),
        Memory::Window(WindowName::S32e, _, _, offset) => store_used(x, y, offset),
        _ => true,
    }
}

fn both_whole(x: Word, y: Word) -> bool
    ensures { result ≡ both_whole x y }
{
    is_whole(x) && is_whole(y)
}

fn tested_known(x: Word, y: Word) -> bool
    ensures { result ≡ tested_known x y }
{
    knows(0x1F, y) && knows(bit_number(y.value), x)
}

#[tactic(auto, unfolding(crate::specs::Used::control_used))]
fn control_used(i: Control, x: Word, y: Word) -> bool
    ensures { result ≡ control_used i x y }
{
    match i {
        Control::J(_) => true,
        Control::Call(_, _) => true,
        Control::Return(_) => is_whole(x),
        Control::Jx(_) => is_whole(x),
        Control::Callx(_, _) => is_whole(x),
        Control::BranchZero(ZeroName::Beqz, _, _) => is_whole(x),
        Control::BranchZero(ZeroName::Bnez, _, _) => is_whole(x),
        Control::BranchZero(ZeroName::Bltz, _, _) => knows(SIGN_BIT, x),
        Control::BranchZero(ZeroName::Bgez, _, _) => knows(SIGN_BIT, x),
        Control::BranchConst(_, _, _, _) => is_whole(x),
        Control::BranchConstu(_, _, _, _) => is_whole(x),
        Control::Branch(BranchName::Bnone, _, _, _) => is_whole(and_word(x, y)),
        Control::Branch(BranchName::Ball, _, _, _) => is_whole(and_word(not_word(x), y)),
        Control::Branch(BranchName::Bbc, _, _, _) => tested_known(x, y),
        Control::Branch(_, _, _, _) => both_whole(x, y),
        Control::BranchNot(OppositeName::Bany, _, _, _) => is_whole(and_word(x, y)),
        Control::BranchNot(OppositeName::Bnall, _, _, _) => is_whole(and_word(not_word(x), y)),
        Control::BranchNot(OppositeName::Bbs, _, _, _) => tested_known(x, y),
        Control::BranchNot(_, _, _, _) => both_whole(x, y),
        Control::BranchBit(_, _, b, _) => knows(bit_number(natural(b)), x),
        Control::Entry(_, _) => is_whole(x),
        Control::Loop(_, _, _) => is_whole(x),
    }
}

#[tactic(auto, unfolding(crate::specs::Used::system_used))]
fn system_used(discipline: Discipline, i: System, x: Word) -> bool
    ensures { result ≡ system_used discipline i x }
{
    match i {
        System::Special(SpecialName::Wsr, _, n) => {
            keeps_unknown(n) || knows(counted_bits(discipline, n), x)
        }
        System::Special(SpecialName::Xsr, _, n) => {
            keeps_unknown(n) || knows(counted_bits(discipline, n), x)
        }
        _ => true,
    }
}

#[tactic(auto, unfolding(crate::specs::Used::density_used))]
fn density_used(i: Density, x: Word, y: Word) -> bool
    ensures { result ≡ density_used i x y }
{
    match i {
        Density::Word(NarrowName::L32i, _, _, _) => is_whole(x),
        Density::Word(NarrowName::S32i, _, _, offset) => store_used(x, y, offset),
        Density::BranchZero(_, _, _) => is_whole(x),
        Density::Bare(_) => is_whole(x),
        _ => true,
    }
}

/// Whether the bits that an instruction uses are known, where x and y are the words of the registers that it reads.
#[tactic(auto, unfolding(crate::specs::Used::used_are_known))]
pub fn used_are_known(discipline: Discipline, i: Insn, x: Word, y: Word) -> bool
    ensures { result ≡ used_are_known discipline i x y }
{
    match i {
        Insn::Three(i) => three_used(i, x, y),
        Insn::Shift(i) => shift_used(i, x),
        Insn::Memory(i) => memory_used(i, x, y),
        Insn::Control(i) => control_used(i, x, y),
        Insn::System(i) => system_used(discipline, i, x),
        Insn::Density(i) => density_used(i, x, y),
        Insn::Boolean(_) => true,
    }
}
