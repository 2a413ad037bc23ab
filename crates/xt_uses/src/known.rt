//! Which bits are known of the register that an instruction writes.
#![tactic(auto)]

ghost use Rattle.std.specs.Prelude.{◌≡◌, ◌<◌, ◌≤◌, ◌^◌, true};
ghost use Rattle.xt_isa.specs.Ranges.{in_range, natural_within, shift_in_range};
ghost use Rattle.xt_rows.specs.RowLaws.{IsShiftAmount};
ghost use Rattle.xt_rows.specs.Numbers.{loaded_value, natural};
ghost use Rattle.xt_uses.specs.Known.{add_mask, boolean_mask, density_mask, half_mask, loaded_mask, memory_mask, result_mask, scaled_mask, scaled_sum, shift_mask, src_mask, sum_mask, system_mask, three_mask, where_both};

use crate::discipline::Discipline;
use crate::used::counted_bits;
use crate::words::{
    ALL_BITS, Word, and_mask, below_unknown, both_mask, complement, is_whole, mask_where, or_mask,
};
use xt_isa::Insn;
use xt_isa::boolean::Boolean;
use xt_isa::density::Density;
use xt_isa::memory::{HalfName, Memory};
use xt_isa::shift::{Shift, ShiftRightName, SignName, SignedName};
use xt_isa::system::{LevelName, SpecialName, System, UserName};
use xt_isa::three::{BitwiseName, DifferenceName, SumName, Three};
use xt_rows::natural;
use xt_special::number;
use xt_word::unary::sext;
use xt_word::{extui, sll, slli, sra, srai, src, srl, srli};

// An operand within a range of numbers below 256.
#[tactic(auto, unfolding(xt_rows::specs::Numbers::natural, xt_isa::specs::Ranges::natural_within))]
fn within(n: i32, first: u8, last: u8) -> u8
    requires { natural_within first last n ≡ true }
    ensures value { result ≡ natural n }
    ensures low { first ≤ result }
    ensures high { result ≤ last }
{
    natural(n) as u8
}

fn where_both(x: Word, y: Word) -> u32
    ensures { result ≡ where_both x y }
{
    mask_where(is_whole(x) && is_whole(y))
}

// Of a sum, a difference or a product.
fn sum_mask(x: u32, y: u32) -> u32
    ensures { result ≡ sum_mask x y }
{
    below_unknown(x & y)
}

fn scaled_mask(k: u8, x: u32) -> u32
    requires low { 1 ≤ k }
    requires high { k < 32 }
    ensures { result ≡ scaled_mask k x }
{
    complement(slli(complement(x), k))
}

fn scaled_sum(k: u8, x: Word, y: Word) -> u32
    requires low { 1 ≤ k }
    requires high { k < 32 }
    ensures { result ≡ scaled_sum k x y }
{
    sum_mask(scaled_mask(k, x.mask), y.mask)
}

fn add_mask(s: u8, t: u8, x: Word, y: Word) -> u32
    ensures { result ≡ add_mask s t x y }
{
    if s == t {
        scaled_mask(1, x.mask)
    } else {
        sum_mask(x.mask, y.mask)
    }
}

// Of the low half, where the high half counts as known.
fn half_mask(mask: u32) -> u32
    ensures { result ≡ half_mask mask }
{
    mask | 0xFFFF_0000
}

fn src_mask(x: Word, y: Word, sar: u8) -> u32
    requires { sar < 64 }
    ensures { result ≡ src_mask x y sar }
{
    complement(src(complement(x.mask), complement(y.mask), sar))
}

#[tactic(auto, unfolding(crate::specs::Known::three_mask))]
fn three_mask(i: Three, x: Word, y: Word, sar: u8) -> u32
    requires { sar < 64 }
    ensures { result ≡ three_mask i x y sar }
{
    match i {
        Three::Bitwise(BitwiseName::And, _, _, _) => and_mask(x, y),
        Three::Bitwise(BitwiseName::Or, _, _, _) => or_mask(x, y),
        Three::Bitwise(BitwiseName::Xor, _, _, _) => both_mask(x, y),
        Three::Sum(SumName::Add, _, s, t) => add_mask(s, t, x, y),
        Three::Sum(SumName::Addx2, _, _, _) => scaled_sum(1, x, y),
        Three::Sum(SumName::Addx4, _, _, _) => scaled_sum(2, x, y),
        Three::Sum(SumName::Addx8, _, _, _) => scaled_sum(3, x, y),
        Three::Difference(DifferenceName::Sub, _, _, _) => sum_mask(x.mask, y.mask),
        Three::Difference(DifferenceName::Subx2, _, _, _) => scaled_sum(1, x, y),
        Three::Difference(DifferenceName::Subx4, _, _, _) => scaled_sum(2, x, y),
        Three::Difference(DifferenceName::Subx8, _, _, _) => scaled_sum(3, x, y),
        Three::Mul16(_, _, _, _) => sum_mask(half_mask(x.mask), half_mask(y.mask)),
        Three::Mull(_, _, _) => sum_mask(x.mask, y.mask),
        Three::Src(_, _, _) => src_mask(x, y, sar),
        Three::Move(_, _, _, _) => x.mask,
        _ => where_both(x, y),
    }
}

// The bits that are not known move as the values do.
#[tactic(auto, unfolding(crate::specs::Known::shift_mask))]
fn shift_mask(i: Shift, x: Word, sar: u8) -> u32
    requires range { shift_in_range i ≡ true }
    requires sar { sar < 64 }
    ensures { result ≡ shift_mask i x sar }
{
    let lacks = complement(x.mask);
    match i {
        Shift::Sign(SignName::Neg, _, _) => below_unknown(x.mask),
        Shift::ShiftRight(ShiftRightName::Srl, _, _) => complement(srl(lacks, sar)),
        Shift::ShiftRight(ShiftRightName::Sra, _, _) => complement(sra(lacks, sar)),
        Shift::Sll(_, _) => complement(sll(lacks, sar)),
        Shift::Slli(_, _, n) => complement(slli(lacks, within(n, 1, 31))),
        Shift::Srai(_, _, n) => complement(srai(lacks, within(n, 0, 31))),
        Shift::Srli(_, _, n) => complement(srli(lacks, within(n, 0, 15))),
        Shift::Extui(_, _, n, width) => {
            complement(extui(lacks, within(n, 0, 31), within(width, 1, 16)))
        }
        Shift::Signed(SignedName::Sext, _, _, b) => complement(sext(lacks, within(b, 7, 22))),
        _ => mask_where(is_whole(x)),
    }
}

#[tactic(auto, unfolding(xt_rows::specs::Numbers::loaded_value))]
fn extended(signed: bool, n: u32) -> u32
    ensures { result ≡ loaded_value signed n }
{
    if signed { xt_word::sext(n, 16) } else { n }
}

fn loaded_mask(signed: bool, reply: u32) -> u32
    ensures { result ≡ loaded_mask signed reply }
{
    complement(extended(signed, complement(reply)))
}

#[tactic(auto, unfolding(crate::specs::Known::memory_mask))]
fn memory_mask(i: Memory, x: Word, reply: u32) -> u32
    ensures { result ≡ memory_mask i x reply }
{
    match i {
        Memory::Byte(_, _, _, _) => loaded_mask(false, reply),
        Memory::Half(HalfName::L16si, _, _, _) => loaded_mask(true, reply),
        Memory::Half(_, _, _, _) => loaded_mask(false, reply),
        Memory::Word(_, _, _, _) => loaded_mask(false, reply),
        Memory::S32c1i(_, _, _) => loaded_mask(false, reply),
        Memory::Window(_, _, _, _) => loaded_mask(false, reply),
        Memory::L32r(_, _) => loaded_mask(false, reply),
        Memory::Movi(_, _) => ALL_BITS,
        Memory::Addi(_, _, _) => below_unknown(x.mask),
        Memory::Addmi(_, _, _) => below_unknown(x.mask),
    }
}

#[tactic(auto, unfolding(crate::specs::Known::system_mask))]
fn system_mask(discipline: Discipline, i: System, u: Word, pointer: u32) -> u32
    ensures { result ≡ system_mask discipline i u pointer }
{
    match i {
        System::Special(SpecialName::Rsr, _, _) => u.mask,
        System::Special(SpecialName::Xsr, _, _) => u.mask,
        System::Level(LevelName::Rsil, _, _) => counted_bits(discipline, number::PS),
        System::User(UserName::Rur, _, _) => pointer,
        _ => ALL_BITS,
    }
}

#[tactic(auto, unfolding(crate::specs::Known::density_mask))]
fn density_mask(i: Density, x: Word, y: Word, reply: u32) -> u32
    ensures { result ≡ density_mask i x y reply }
{
    match i {
        Density::Word(_, _, _, _) => loaded_mask(false, reply),
        Density::Add(_, s, t) => add_mask(s, t, x, y),
        Density::Addi(_, _, _) => below_unknown(x.mask),
        Density::Mov(_, _) => x.mask,
        _ => ALL_BITS,
    }
}

#[tactic(auto, unfolding(crate::specs::Known::boolean_mask))]
fn boolean_mask(i: Boolean, x: Word) -> u32
    ensures { result ≡ boolean_mask i x }
{
    match i {
        Boolean::Choice(_, _, _, _) => x.mask,
        _ => ALL_BITS,
    }
}

/// The known bits of the register that an instruction writes: x and y are the words of the registers that it reads, u that of its
/// special register, `pointer` the mask of THREADPTR and `reply` that of the reply.
///
/// Conditions: its operands are in their ranges, and where it shifts by SAR, that is below 64.
#[tactic(auto, unfolding(crate::specs::Known::result_mask))]
pub fn result_mask(
    discipline: Discipline,
    i: Insn,
    x: Word,
    y: Word,
    u: Word,
    pointer: u32,
    reply: u32,
) -> u32
    requires range { in_range i ≡ true }
    requires sar { IsShiftAmount i u.value }
    ensures { result ≡ result_mask discipline i x y u pointer reply }
{
    match i {
        Insn::Three(i) => three_mask(i, x, y, u.value as u8),
        Insn::Shift(i) => shift_mask(i, x, u.value as u8),
        Insn::Memory(i) => memory_mask(i, x, reply),
        Insn::Control(_) => ALL_BITS,
        Insn::System(i) => system_mask(discipline, i, u, pointer),
        Insn::Density(i) => density_mask(i, x, y, reply),
        Insn::Boolean(i) => boolean_mask(i, x),
    }
}
