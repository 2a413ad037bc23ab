ghost use Rattle.std.specs.Prelude.{◌≡◌, ℕ, ℤ};
ghost use Rattle.xt_isa.specs.declared.density.Density.TheVariants as density;
ghost use Rattle.xt_map.specs.Memory.{constant_byte};
ghost use Rattle.xt_rows.specs.Numbers.{plus};
ghost use Rattle.xt_rows.specs.Outcomes.{density_outcome};

use crate::cause;
use crate::effects::{branches, goes, loads, puts, stores};
use crate::numbers::plus;
use crate::outcome::{Effect, Outcome, WindowStep};
use xt_isa::density::{BareName, Density, NarrowName, NarrowZeroName};
use xt_map::Constants;
use xt_word::arithmetic::addx;
use xt_word::conditions::{Cond, holds};

#[tactic(auto, unfolding(crate::specs::Outcomes::density_outcome))]
#[inline(always)]
fn narrow_access(code: &Constants, name: NarrowName, t: u8, addr: u32, y: u32, e: Effect) -> Outcome
    ensures { (s pc x : ℕ) (offset : ℤ) → addr ≡ plus x offset
        → result ≡
        density_outcome (constant_byte code.now) (density.Word name t s offset) pc x y e }
{
    match name {
        NarrowName::L32i => loads(code, 4, false, t, addr, e),
        NarrowName::S32i => stores(4, y, addr, e),
    }
}

/// What a 16-bit instruction at `pc` does, where AR[s] (of a return a0) and AR[t] are these.
#[tactic(auto, unfolding(crate::specs::Outcomes::density_outcome))]
#[inline(always)]
pub fn density_outcome<U>(
    code: &Constants,
    i: Density,
    pc: u32,
    x: u32,
    y: u32,
    e: Effect,
) -> Outcome
    ensures { result ≡ density_outcome (constant_byte code.now) i pc x y e }
{
    match i {
        Density::Word(name, t, _, offset) => narrow_access(code, name, t, plus(x, offset), y, e),
        Density::Add(r, _, _) => puts(r, addx(x, y, 0), e),
        Density::Addi(r, _, n) => puts(r, plus(x, n), e),
        Density::Movi(s, n) => puts(s, plus(0, n), e),
        Density::BranchZero(NarrowZeroName::Beqz, _, offset) => {
            branches(holds(Cond::Eq, x, 0), pc, offset, e)
        }
        Density::BranchZero(NarrowZeroName::Bnez, _, offset) => {
            branches(holds(Cond::Ne, x, 0), pc, offset, e)
        }
        Density::Mov(t, _) => puts(t, x, e),
        Density::Bare(BareName::Ret) => goes(x, e),
        Density::Bare(BareName::Retw) => Outcome::Windowed(WindowStep::Returns(x)),
        Density::Bare(BareName::Nop) => Outcome::Does(e),
        Density::Bare(BareName::Ill) => Outcome::Raises(cause::ILLEGAL_INSTRUCTION, None),
        Density::Break(_) => Outcome::Stops,
    }
}
