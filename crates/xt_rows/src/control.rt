ghost use Rattle.std.specs.Prelude.{◌≡◌, ℕ};
ghost use Rattle.xt_isa.specs.declared.control.Control.TheVariants as control;
ghost use Rattle.xt_rows.specs.Outcomes.{control_outcome};

use crate::effects::{branches, calls, goes, loops};
use crate::numbers::{branch_target, call_target, minus, natural, plus};
use crate::operands::{call_size, callx_size};
use crate::outcome::{Effect, Outcome, WindowStep};
use xt_isa::control::{
    BitName, BranchName, ConstName, ConstuName, Control, LoopName, OppositeName, ReturnName,
    ZeroName,
};
use xt_word::conditions::{Cond, holds};

#[tactic(auto, unfolding(crate::specs::Outcomes::control_outcome))]
#[inline(always)]
fn zero_branch(name: ZeroName, offset: i32, pc: u32, x: u32, e: Effect) -> Outcome
    ensures { (s y : ℕ) → result ≡ control_outcome (control.BranchZero name s offset) pc x y e }
{
    match name {
        ZeroName::Beqz => branches(holds(Cond::Eq, x, 0), pc, offset, e),
        ZeroName::Bnez => branches(holds(Cond::Ne, x, 0), pc, offset, e),
        ZeroName::Bltz => branches(holds(Cond::Lt, x, 0), pc, offset, e),
        ZeroName::Bgez => branches(holds(Cond::Ge, x, 0), pc, offset, e),
    }
}

#[tactic(auto, unfolding(crate::specs::Outcomes::control_outcome))]
#[inline(always)]
fn constant_branch(name: ConstName, c: i32, offset: i32, pc: u32, x: u32, e: Effect) -> Outcome
    ensures { (s y : ℕ) → result ≡ control_outcome (control.BranchConst name s c offset) pc x y e }
{
    match name {
        ConstName::Beqi => branches(holds(Cond::Eq, x, plus(0, c)), pc, offset, e),
        ConstName::Bnei => branches(holds(Cond::Ne, x, plus(0, c)), pc, offset, e),
        ConstName::Blti => branches(holds(Cond::Lt, x, plus(0, c)), pc, offset, e),
        ConstName::Bgei => branches(holds(Cond::Ge, x, plus(0, c)), pc, offset, e),
    }
}

#[tactic(auto, unfolding(crate::specs::Outcomes::control_outcome))]
#[inline(always)]
fn unsigned_branch(name: ConstuName, c: i32, offset: i32, pc: u32, x: u32, e: Effect) -> Outcome
    ensures { (s y : ℕ) → result ≡ control_outcome (control.BranchConstu name s c offset) pc x y e }
{
    match name {
        ConstuName::Bltui => branches(holds(Cond::Ltu, x, plus(0, c)), pc, offset, e),
        ConstuName::Bgeui => branches(holds(Cond::Geu, x, plus(0, c)), pc, offset, e),
    }
}

#[tactic(auto, unfolding(crate::specs::Outcomes::control_outcome))]
#[inline(always)]
fn branch(name: BranchName, offset: i32, pc: u32, x: u32, y: u32, e: Effect) -> Outcome
    ensures { (s t : ℕ) → result ≡ control_outcome (control.Branch name s t offset) pc x y e }
{
    match name {
        BranchName::Bnone => branches(holds(Cond::NoBits, x, y), pc, offset, e),
        BranchName::Beq => branches(holds(Cond::Eq, x, y), pc, offset, e),
        BranchName::Blt => branches(holds(Cond::Lt, x, y), pc, offset, e),
        BranchName::Bltu => branches(holds(Cond::Ltu, x, y), pc, offset, e),
        BranchName::Ball => branches(holds(Cond::AllBits, x, y), pc, offset, e),
        BranchName::Bbc => branches(holds(Cond::BitClear, x, y), pc, offset, e),
    }
}

#[tactic(auto, unfolding(crate::specs::Outcomes::control_outcome))]
#[inline(always)]
fn opposite_branch(name: OppositeName, offset: i32, pc: u32, x: u32, y: u32, e: Effect) -> Outcome
    ensures { (s t : ℕ) → result ≡ control_outcome (control.BranchNot name s t offset) pc x y e }
{
    match name {
        OppositeName::Bany => branches(holds(Cond::AnyBits, x, y), pc, offset, e),
        OppositeName::Bne => branches(holds(Cond::Ne, x, y), pc, offset, e),
        OppositeName::Bge => branches(holds(Cond::Ge, x, y), pc, offset, e),
        OppositeName::Bgeu => branches(holds(Cond::Geu, x, y), pc, offset, e),
        OppositeName::Bnall => branches(holds(Cond::NotAllBits, x, y), pc, offset, e),
        OppositeName::Bbs => branches(holds(Cond::BitSet, x, y), pc, offset, e),
    }
}

#[tactic(auto, unfolding(crate::specs::Outcomes::control_outcome))]
#[inline(always)]
fn bit_branch(name: BitName, b: i32, offset: i32, pc: u32, x: u32, e: Effect) -> Outcome
    ensures { (s y : ℕ) → result ≡ control_outcome (control.BranchBit name s b offset) pc x y e }
{
    match name {
        BitName::Bbci => branches(holds(Cond::BitClear, x, natural(b)), pc, offset, e),
        BitName::Bbsi => branches(holds(Cond::BitSet, x, natural(b)), pc, offset, e),
    }
}

#[tactic(auto, unfolding(crate::specs::Outcomes::control_outcome))]
#[inline(always)]
fn loop_entry(name: LoopName, offset: i32, pc: u32, x: u32, e: Effect) -> Outcome
    ensures { (s y : ℕ) → result ≡ control_outcome (control.Loop name s offset) pc x y e }
{
    match name {
        LoopName::Loop => loops(false, x, pc, offset, e),
        LoopName::Loopnez => loops(holds(Cond::Eq, x, 0), x, pc, offset, e),
        LoopName::Loopgtz => loops(holds(Cond::Ge, 0, x), x, pc, offset, e),
    }
}

/// What a jump, a call, a branch, an ENTRY or a loop at `pc` does, where AR[s] (of a return a0) and
/// AR[t] are these.
#[tactic(auto, unfolding(crate::specs::Outcomes::control_outcome))]
#[inline(always)]
pub fn control_outcome<U>(i: Control, pc: u32, x: u32, y: u32, e: Effect) -> Outcome
    ensures { result ≡ control_outcome i pc x y e }
{
    match i {
        Control::J(offset) => goes(branch_target(pc, offset), e),
        Control::Call(name, offset) => calls(call_size(name), call_target(pc, offset), pc, e),
        Control::Return(ReturnName::Ret) => goes(x, e),
        Control::Return(ReturnName::Retw) => Outcome::Windowed(WindowStep::Returns(x)),
        Control::Jx(_) => goes(x, e),
        Control::Callx(name, _) => calls(callx_size(name), x, pc, e),
        Control::BranchZero(name, _, offset) => zero_branch(name, offset, pc, x, e),
        Control::BranchConst(name, _, c, offset) => constant_branch(name, c, offset, pc, x, e),
        Control::BranchConstu(name, _, c, offset) => unsigned_branch(name, c, offset, pc, x, e),
        Control::Branch(name, _, _, offset) => branch(name, offset, pc, x, y, e),
        Control::BranchNot(name, _, _, offset) => opposite_branch(name, offset, pc, x, y, e),
        Control::BranchBit(name, _, b, offset) => bit_branch(name, b, offset, pc, x, e),
        Control::Entry(s, n) => Outcome::Windowed(WindowStep::Enters(s, minus(x, natural(n)))),
        Control::Loop(name, _, offset) => loop_entry(name, offset, pc, x, e),
    }
}
