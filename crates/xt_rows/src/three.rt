ghost use Rattle.std.specs.Prelude.{◌≡◌, ℕ, ◌<◌, ◌^◌};
ghost use Rattle.xt_isa.specs.declared.three.Three.TheVariants as three;
ghost use Rattle.xt_rows.specs.Outcomes.{three_outcome};

use crate::cause;
use crate::effects::{moves, puts};
use crate::outcome::{Effect, Outcome};
use xt_isa::three::{
    BitwiseName, DifferenceName, DivideName, MinMaxName, MoveName, Mul16Name, MulHighName, SumName,
    Three,
};
use xt_word::arithmetic::{addx, bit_and, bit_or, bit_xor, max, maxu, min, minu, subx};
use xt_word::conditions::{Cond, holds};
use xt_word::multiply::{mul16s, mul16u, mull, mulsh, muluh, quos, quou, rems, remu};
use xt_word::shifts::src;

#[tactic(auto, unfolding(crate::specs::Outcomes::three_outcome))]
#[inline(always)]
fn bitwise(name: BitwiseName, r: u8, x: u32, y: u32, e: Effect) -> Outcome
    ensures { (s t u : ℕ) → result ≡ three_outcome (three.Bitwise name r s t) x y u e }
{
    match name {
        BitwiseName::And => puts(r, bit_and(x, y), e),
        BitwiseName::Or => puts(r, bit_or(x, y), e),
        BitwiseName::Xor => puts(r, bit_xor(x, y), e),
    }
}

#[tactic(auto, unfolding(crate::specs::Outcomes::three_outcome))]
#[inline(always)]
fn sum(name: SumName, r: u8, x: u32, y: u32, e: Effect) -> Outcome
    ensures { (s t u : ℕ) → result ≡ three_outcome (three.Sum name r s t) x y u e }
{
    match name {
        SumName::Add => puts(r, addx(x, y, 0), e),
        SumName::Addx2 => puts(r, addx(x, y, 1), e),
        SumName::Addx4 => puts(r, addx(x, y, 2), e),
        SumName::Addx8 => puts(r, addx(x, y, 3), e),
    }
}

#[tactic(auto, unfolding(crate::specs::Outcomes::three_outcome))]
#[inline(always)]
fn difference(name: DifferenceName, r: u8, x: u32, y: u32, e: Effect) -> Outcome
    ensures { (s t u : ℕ) → result ≡ three_outcome (three.Difference name r s t) x y u e }
{
    match name {
        DifferenceName::Sub => puts(r, subx(x, y, 0), e),
        DifferenceName::Subx2 => puts(r, subx(x, y, 1), e),
        DifferenceName::Subx4 => puts(r, subx(x, y, 2), e),
        DifferenceName::Subx8 => puts(r, subx(x, y, 3), e),
    }
}

#[tactic(auto, unfolding(crate::specs::Outcomes::three_outcome))]
#[inline(always)]
fn product_of_halves(name: Mul16Name, r: u8, x: u32, y: u32, e: Effect) -> Outcome
    ensures { (s t u : ℕ) → result ≡ three_outcome (three.Mul16 name r s t) x y u e }
{
    match name {
        Mul16Name::Mul16u => puts(r, mul16u(x, y), e),
        Mul16Name::Mul16s => puts(r, mul16s(x, y), e),
    }
}

#[tactic(auto, unfolding(crate::specs::Outcomes::three_outcome))]
#[inline(always)]
fn high_product(name: MulHighName, r: u8, x: u32, y: u32, e: Effect) -> Outcome
    ensures { (s t u : ℕ) → result ≡ three_outcome (three.MulHigh name r s t) x y u e }
{
    match name {
        MulHighName::Muluh => puts(r, muluh(x, y), e),
        MulHighName::Mulsh => puts(r, mulsh(x, y), e),
    }
}

#[tactic(auto, unfolding(crate::specs::Outcomes::three_outcome))]
#[inline(always)]
fn quotient(name: DivideName, r: u8, x: u32, y: u32, e: Effect) -> Outcome
    ensures { (s t u : ℕ) → result ≡ three_outcome (three.Divide name r s t) x y u e }
{
    if y == 0 {
        return Outcome::Raises(cause::DIVIDE_BY_ZERO, None);
    }
    match name {
        DivideName::Quou => puts(r, quou(x, y), e),
        DivideName::Quos => puts(r, quos(x, y), e),
        DivideName::Remu => puts(r, remu(x, y), e),
        DivideName::Rems => puts(r, rems(x, y), e),
    }
}

#[tactic(auto, unfolding(crate::specs::Outcomes::three_outcome))]
#[inline(always)]
fn least_or_greatest(name: MinMaxName, r: u8, x: u32, y: u32, e: Effect) -> Outcome
    ensures { (s t u : ℕ) → result ≡ three_outcome (three.MinMax name r s t) x y u e }
{
    match name {
        MinMaxName::Min => puts(r, min(x, y), e),
        MinMaxName::Max => puts(r, max(x, y), e),
        MinMaxName::Minu => puts(r, minu(x, y), e),
        MinMaxName::Maxu => puts(r, maxu(x, y), e),
    }
}

#[tactic(auto, unfolding(crate::specs::Outcomes::three_outcome))]
#[inline(always)]
fn conditional_move(name: MoveName, r: u8, x: u32, y: u32, e: Effect) -> Outcome
    ensures { (s t u : ℕ) → result ≡ three_outcome (three.Move name r s t) x y u e }
{
    match name {
        MoveName::Moveqz => moves(holds(Cond::Eq, y, 0), r, x, e),
        MoveName::Movnez => moves(holds(Cond::Ne, y, 0), r, x, e),
        MoveName::Movltz => moves(holds(Cond::Lt, y, 0), r, x, e),
        MoveName::Movgez => moves(holds(Cond::Ge, y, 0), r, x, e),
    }
}

/// What an instruction of three registers does, where AR[s], AR[t] and SAR are these.
#[tactic(auto, unfolding(crate::specs::Outcomes::three_outcome))]
#[inline(always)]
pub fn three_outcome<U>(i: Three, x: u32, y: u32, u: u32, e: Effect) -> Outcome
    requires { u < 64 }
    ensures { result ≡ three_outcome i x y u e }
{
    match i {
        Three::Bitwise(name, r, _, _) => bitwise(name, r, x, y, e),
        Three::Sum(name, r, _, _) => sum(name, r, x, y, e),
        Three::Difference(name, r, _, _) => difference(name, r, x, y, e),
        Three::Src(r, _, _) => puts(r, src(x, y, u as u8), e),
        Three::Mul16(name, r, _, _) => product_of_halves(name, r, x, y, e),
        Three::Mull(r, _, _) => puts(r, mull(x, y), e),
        Three::MulHigh(name, r, _, _) => high_product(name, r, x, y, e),
        Three::Divide(name, r, _, _) => quotient(name, r, x, y, e),
        Three::MinMax(name, r, _, _) => least_or_greatest(name, r, x, y, e),
        Three::Move(name, r, _, _) => conditional_move(name, r, x, y, e),
    }
}
