ghost use Rattle.std.specs.Prelude.{◌≡◌, ℕ, ◌<◌, ◌≤◌, Option, true, false, IfSome};
ghost use Rattle.xt_isa.specs.Ranges.{in_range};
ghost use Rattle.xt_map.specs.Memory.{constant_byte};
ghost use Rattle.xt_window.specs.Ring.{ahead, visible};
ghost use Rattle.xt_rows.specs.Effects.{no_change};
ghost use Rattle.xt_map.specs.Fetching.{Fetches};
ghost use Rattle.xt_rows.specs.RowLaws.{AsksWith, IsAny, IsProper, IsProperAwaited, IsRegister};
ghost use Rattle.xt_rows.specs.Outcomes.{outcome_at, value_of};
ghost use Rattle.xt_exec.specs.States.{state_of};
ghost use Rattle.xt_exec.specs.Turn.{turn_or_overflow, outcome_turn, fetched_turn, has_windows, illegal_return, is_illegal, looks, window_check};
ghost use Rattle.xt_exec.specs.Halves.{IsPlan, reply_target, overflow_at};
ghost use Rattle.xt_exec.specs.Steps.{OutcomeGoesBack, WritesRegister, turn_of};

use crate::plans::{Effect, Pending, Plan};
use crate::regs::Regs;
use xt_isa::Insn;
use xt_isa::control::{Control, ReturnName};
use xt_isa::density::{BareName, Density};
use xt_map::{Access, Constants};
use xt_rows::settling::special_value;
use xt_rows::{
    Outcome, ReplyTarget, Values, cause, highest_register, outcome_of, reads, special_reads,
};
use xt_trace::StepKind;
use xt_window::{Overflow, Windows};

impl<W: Windows> Regs<W> {
    #[inline(always)]
    fn has_windows(&self) -> bool
        ensures { result ≡ has_windows (state_of W.regs W.base W.start self.now).control.ps }
    {
        self.sr.woe() && !self.sr.excm()
    }

    #[inline(always)]
    fn is_illegal_return(&self) -> bool
        ensures { result ≡ illegal_return (state_of W.regs W.base W.start self.now) }
    {
        let size = (self.win.read(0) / 0x4000_0000) as u8;
        self.win.is_bad(size) || !self.has_windows()
    }

    /// Whether the instruction is illegal for a reason that is tested before the window check.
    #[tactic(auto, unfolding(crate::specs::Turn::is_illegal))]
    #[inline(always)]
    pub(crate) fn is_illegal(&self, i: Insn) -> bool
        ensures { result ≡ is_illegal i (state_of W.regs W.base W.start self.now) }
    {
        match i {
            Insn::Control(Control::Entry(number, _)) => number > 3 || !self.has_windows(),
            Insn::Control(Control::Return(ReturnName::Retw)) => self.is_illegal_return(),
            Insn::Density(Density::Bare(BareName::Retw)) => self.is_illegal_return(),
            _ => false,
        }
    }

    // How many windows ahead the check looks.
    #[inline(always)]
    fn looks(&self, i: Insn) -> u8
        requires { in_range i ≡ true }
        ensures value { result ≡ looks i (state_of W.regs W.base W.start self.now).control.ps }
        ensures range { result < 4 }
    {
        match i {
            Insn::Control(Control::Entry(_, _)) => self.sr.callinc(),
            _ => highest_register(i) / 4,
        }
    }

    #[inline(always)]
    fn visible_value(&self, register: Option<u8>) -> u32
        requires { IsRegister register }
        ensures { result ≡ value_of (visible (state_of W.regs W.base W.start self.now).regs (state_of W.regs W.base W.start self.now).base) register }
    {
        match register {
            Some(number) => self.win.read(number),
            None => 0,
        }
    }

    // What comes of the instruction.
    #[inline(always)]
    fn outcome(&self, code: &Constants, i: Insn) -> Outcome
        requires { in_range i ≡ true }
        ensures formula { result ≡ outcome_at (constant_byte code.now) i (visible (state_of W.regs W.base W.start self.now).regs (state_of W.regs W.base W.start self.now).base) (state_of W.regs W.base W.start self.now).control }
        ensures proper { IsProper IsAny result }
        ensures alone { AsksWith (no_change self.now.sr.ps self.now.sr.threadptr) result }
    {
        let (first, second) = reads(i);
        let (special, other) = special_reads(i);
        let values = Values {
            x: self.visible_value(first),
            y: self.visible_value(second),
            u: special_value(&self.sr, special),
            v: special_value(&self.sr, other),
        };
        let ps = self.sr.ps_fields();
        outcome_of::<W>(code, i, self.pc, values, ps, self.sr.threadptr())
    }

    // Whether none of the next three windows is a frame's. Then no register's name matters.
    #[inline(always)]
    fn is_clear(&self) -> bool
        ensures { result ≡ true → (q : ℕ) → ahead (W.start self.now.win) (W.base self.now.win) q ≡ 0 }
    {
        match self.win.check(3) {
            None => true,
            Some(_) => false,
        }
    }

    // The window that the instruction would write over, if there is one.
    // (no hint to inline: with it the whole turn grows past the size at which its own hint is dropped)
    fn overflowing(&self, i: Insn) -> Option<Overflow>
        requires { in_range i ≡ true }
        ensures value { let s = state_of W.regs W.base W.start self.now in result ≡ overflow_at (window_check i s) s }
        ensures range { IfSome result (λ o. (1 ≤ o.by) × (o.by < 4) × (1 ≤ o.size) × (o.size < 4)) }
    {
        if !self.has_windows() {
            return None;
        }
        if self.is_clear() {
            return None;
        }
        self.win.check(self.looks(i))
    }

    // Writes the register that a turn writes.
    #[inline(always)]
    fn outcome_turn(&mut self, e: Effect) -> Plan
        requires { WritesRegister e }
        ensures { let s = state_of W.regs W.base W.start self.old in
            IsPlan result s (state_of W.regs W.base W.start self.new) (turn_of e s) }
    {
        self.write(e.write);
        Plan::Done(e)
    }

    // What comes of an outcome.
    #[inline(always)]
    fn carry_out(&mut self, outcome: Outcome, len: u8) -> Plan
        requires proper { IsProper IsAny outcome }
        requires alone { AsksWith (no_change self.old.sr.ps self.old.sr.threadptr) outcome }
        requires back { OutcomeGoesBack outcome (state_of W.regs W.base W.start self.old) }
        ensures { let s = state_of W.regs W.base W.start self.old in
            IsPlan result s (state_of W.regs W.base W.start self.new) (outcome_turn outcome len s) }
    {
        match outcome {
            Outcome::Does(e) => {
                self.apply(e, len);
                self.outcome_turn(Effect::of(StepKind::Insn, e.write))
            }
            Outcome::Raises(cause, addr) => {
                let e = self.raise(cause, addr);
                self.outcome_turn(e)
            }
            Outcome::Asks(access, awaited, _) => Plan::Bus(access, pending(access, awaited, len)),
            Outcome::Stops => self.outcome_turn(Effect::of(StepKind::Stop, None)),
            Outcome::Windowed(step) => {
                let e = self.window_turn(step, len);
                self.outcome_turn(e)
            }
        }
    }

    // An instruction that is not illegal: a window overflows, or it is carried out.
    #[inline(always)]
    fn execute(&mut self, code: &Constants, i: Insn, len: u8) -> Plan
        requires range { in_range i ≡ true }
        requires legal { is_illegal i (state_of W.regs W.base W.start self.old) ≡ false }
        ensures { let s = state_of W.regs W.base W.start self.old in
            IsPlan result s (state_of W.regs W.base W.start self.new) (turn_or_overflow (window_check i s) (constant_byte code.now) i len s) }
    {
        match self.overflowing(i) {
            Some(found) => {
                let e = self.overflow(found);
                self.outcome_turn(e)
            }
            None => {
                let outcome = self.outcome(code, i);
                self.carry_out(outcome, len)
            }
        }
    }
}

/// The first half of an instruction of this length: all of it, or, where it makes a bus access, what waits for the reply; then the
/// registers are as before. The turn's tick is left to the caller.
///
/// Condition: the instruction's operands are in their ranges, as those of every instruction that is spelled.
#[inline(always)]
pub fn plan<W: Windows>(r: &mut Regs<W>, code: &Constants, insn: Insn, len: u8) -> Plan
    requires { in_range insn ≡ true }
    ensures { let s = state_of W.regs W.base W.start r.old in
        IsPlan result s (state_of W.regs W.base W.start r.new) (fetched_turn (Fetches insn len) (constant_byte code.now) s) }
{
    if r.is_illegal(insn) {
        let e = r.raise(cause::ILLEGAL_INSTRUCTION, None);
        r.outcome_turn(e)
    } else {
        r.execute(code, insn, len)
    }
}

// An instruction that waits for the reply to this access.
#[inline(always)]
fn pending(access: Access, awaited: Option<ReplyTarget>, len: u8) -> Pending
    requires { IsProperAwaited awaited }
    ensures access { result.access ≡ access }
    ensures awaited { reply_target result.target result.signed ≡ awaited }
    ensures target { IsRegister result.target }
    ensures len { result.len ≡ len }
{
    match awaited {
        Some(a) => Pending {
            access,
            target: Some(a.number),
            signed: a.signed,
            len,
        },
        None => Pending {
            access,
            target: None,
            signed: false,
            len,
        },
    }
}
