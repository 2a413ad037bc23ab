ghost use Rattle.std.specs.Prelude.{◌≡◌, ℕ, ◌<◌, ◌^◌, true};
ghost use Rattle.xt_isa.specs.Ranges.{boolean_in_range};
ghost use Rattle.xt_isa.specs.declared.boolean.Boolean.TheVariants as boolean;
ghost use Rattle.xt_rows.specs.Outcomes.{boolean_outcome, booleans, sets_br};

use crate::effects::{branches, moves, sets_special};
use crate::outcome::{Effect, Outcome};
use xt_isa::boolean::{Boolean, ChoiceName, EightName, FourName, LogicName, TestName};
use xt_special::number;
use xt_word::conditions::{Cond, holds};
use xt_word::{BoolOp, group, logic};

// The sixteen Boolean registers, where BR has this value.
#[inline(always)]
fn booleans(u: u32) -> u16
    ensures { result ≡ booleans u }
{
    (u % 0x1_0000) as u16
}

#[inline(always)]
fn sets_br(value: u16, e: Effect) -> Outcome
    ensures { result ≡ sets_br value e }
{
    sets_special(number::BR, value as u32, e)
}

#[tactic(auto, unfolding(crate::specs::Outcomes::boolean_outcome, xt_isa::specs::Ranges::three_registers))]
#[inline(always)]
fn operation(name: LogicName, r: u8, s: u8, t: u8, u: u32, e: Effect) -> Outcome
    requires { boolean_in_range (boolean.Logic name r s t) ≡ true }
    ensures { (pc x : ℕ) → result ≡ boolean_outcome (boolean.Logic name r s t) pc x u e }
{
    match name {
        LogicName::Andb => sets_br(logic(BoolOp::And, booleans(u), r, s, t), e),
        LogicName::Andbc => sets_br(logic(BoolOp::AndNot, booleans(u), r, s, t), e),
        LogicName::Orb => sets_br(logic(BoolOp::Or, booleans(u), r, s, t), e),
        LogicName::Orbc => sets_br(logic(BoolOp::OrNot, booleans(u), r, s, t), e),
        LogicName::Xorb => sets_br(logic(BoolOp::Xor, booleans(u), r, s, t), e),
    }
}

#[tactic(auto, unfolding(crate::specs::Outcomes::boolean_outcome, xt_isa::specs::Ranges::two_registers))]
#[inline(always)]
fn of_four(name: FourName, t: u8, s: u8, u: u32, e: Effect) -> Outcome
    requires { boolean_in_range (boolean.Four name t s) ≡ true }
    ensures { (pc x : ℕ) → result ≡ boolean_outcome (boolean.Four name t s) pc x u e }
{
    match name {
        FourName::Any4 => sets_br(group(false, 4, booleans(u), t, s), e),
        FourName::All4 => sets_br(group(true, 4, booleans(u), t, s), e),
    }
}

#[tactic(auto, unfolding(crate::specs::Outcomes::boolean_outcome, xt_isa::specs::Ranges::two_registers))]
#[inline(always)]
fn of_eight(name: EightName, t: u8, s: u8, u: u32, e: Effect) -> Outcome
    requires { boolean_in_range (boolean.Eight name t s) ≡ true }
    ensures { (pc x : ℕ) → result ≡ boolean_outcome (boolean.Eight name t s) pc x u e }
{
    match name {
        EightName::Any8 => sets_br(group(false, 8, booleans(u), t, s), e),
        EightName::All8 => sets_br(group(true, 8, booleans(u), t, s), e),
    }
}

#[tactic(auto, unfolding(crate::specs::Outcomes::boolean_outcome))]
#[inline(always)]
fn test_branch(name: TestName, s: u8, offset: i32, pc: u32, u: u32, e: Effect) -> Outcome
    ensures { (x : ℕ) → result ≡ boolean_outcome (boolean.Test name s offset) pc x u e }
{
    match name {
        TestName::Bf => branches(holds(Cond::BitClear, u, s as u32), pc, offset, e),
        TestName::Bt => branches(holds(Cond::BitSet, u, s as u32), pc, offset, e),
    }
}

#[tactic(auto, unfolding(crate::specs::Outcomes::boolean_outcome))]
#[inline(always)]
fn choice(name: ChoiceName, r: u8, t: u8, x: u32, u: u32, e: Effect) -> Outcome
    ensures { (s pc : ℕ) → result ≡ boolean_outcome (boolean.Choice name r s t) pc x u e }
{
    match name {
        ChoiceName::Movf => moves(holds(Cond::BitClear, u, t as u32), r, x, e),
        ChoiceName::Movt => moves(holds(Cond::BitSet, u, t as u32), r, x, e),
    }
}

/// What an instruction of Boolean registers at `pc` does, where AR[s] and BR are these.
#[tactic(auto, unfolding(crate::specs::Outcomes::boolean_outcome))]
#[inline(always)]
pub fn boolean_outcome<U>(i: Boolean, pc: u32, x: u32, u: u32, e: Effect) -> Outcome
    requires { boolean_in_range i ≡ true }
    ensures { result ≡ boolean_outcome i pc x u e }
{
    match i {
        Boolean::Logic(name, r, s, t) => operation(name, r, s, t, u, e),
        Boolean::Four(name, t, s) => of_four(name, t, s, u, e),
        Boolean::Eight(name, t, s) => of_eight(name, t, s, u, e),
        Boolean::Test(name, s, offset) => test_branch(name, s, offset, pc, u, e),
        Boolean::Choice(name, r, _, t) => choice(name, r, t, x, u, e),
    }
}
