ghost use Rattle.std.specs.Prelude.{◌≡◌, ◌<◌, ◌≤◌, ◌+◌, true};
ghost use Rattle.xt_isa.specs.Ranges.{signed_within};
ghost use Rattle.xt_window.specs.Ring.{size_at};
ghost use Rattle.xt_rows.specs.declared.outcome.WindowStep.TheVariants.{Exchanges, Reads, Returns, Rotates, Sets};
ghost use Rattle.xt_rows.specs.RowLaws.{IsProperStep};
ghost use Rattle.xt_exec.specs.States.{state_of};
ghost use Rattle.xt_exec.specs.Turn.{entry_turn, moved_stack, overflow, resuming_turn, return_turn, window_value, with_window_value, window_turn};
ghost use Rattle.xt_exec.specs.Steps.{GoesBack, WritesRegister, turn_of};

use crate::plans::Effect;
use crate::regs::Regs;
use xt_rows::settling::return_pc;
use xt_rows::{WindowRegister, WindowStep, cause, write_to};
use xt_trace::StepKind;
use xt_window::ring::{with_bit, without_bit};
use xt_window::{Overflow, Return, Windows};

impl<W: Windows> Regs<W> {
    /// The overflow of the window that the check found.
    #[tactic(auto, unfolding(crate::specs::Turn::overflow))]
    #[inline(never)]
    pub(crate) fn overflow(&mut self, found: Overflow) -> Effect
        requires size { found.size ≡ size_at (state_of W.regs W.base W.start self.old).start ((state_of W.regs W.base W.start self.old).base + found.by) }
        requires by { found.by < 4 }
        requires low { 1 ≤ found.size }
        requires high { found.size < 4 }
        ensures after { turn_of result (state_of W.regs W.base W.start self.new) ≡ overflow found.by (state_of W.regs W.base W.start self.old) }
        ensures registers { WritesRegister result }
    {
        let base = (self.win.base() + found.by) % 16;
        self.window_exception(2 * (found.size - 1), base)
    }

    /// ENTRY.
    #[tactic(auto, unfolding(crate::specs::Turn::entry_turn))]
    #[inline(always)]
    fn enter(&mut self, number: u8, value: u32, len: u8) -> Effect
        requires { number < 16 }
        ensures after { turn_of result (state_of W.regs W.base W.start self.new) ≡ entry_turn number value len (state_of W.regs W.base W.start self.old) }
        ensures registers { WritesRegister result }
    {
        let size = self.sr.callinc();
        self.fall_through(len);
        self.win.enter(size);
        Effect::of(StepKind::Insn, write_to(number, value))
    }

    /// RETW with this value of a0, of a size that is not bad.
    #[tactic(auto, using(crate::proofs::Returns::is_there, crate::proofs::Returns::is_absent), unfolding(crate::specs::Turn::return_turn, crate::specs::Turn::underflow))]
    #[inline(always)]
    fn return_to(&mut self, a0: u32) -> Effect
        requires { GoesBack (Returns a0) (state_of W.regs W.base W.start self.old) }
        ensures after { turn_of result (state_of W.regs W.base W.start self.new) ≡ return_turn a0 (state_of W.regs W.base W.start self.old) }
        ensures registers { WritesRegister result }
    {
        let size = (a0 / 0x4000_0000) as u8;
        let old = self.win.base();
        match self.win.retw(size) {
            Return::Returned => {
                self.pc = return_pc(self.pc, a0);
                Effect::of(StepKind::Insn, None)
            }
            Return::Under => {
                let vector = 2 * size.saturating_sub(1) + 1;
                self.enter_vector(vector, old);
                Effect::of(StepKind::Window(vector), None)
            }
            Return::Bad => unreachable!(),
        }
    }

    /// RFWO and RFWU: back to the instruction at EPC1 and to its window.
    #[tactic(auto, unfolding(crate::specs::Turn::resuming_turn))]
    #[inline(never)]
    fn resume(&mut self, start: u16, epc1: u32) -> Effect
        ensures after { turn_of result (state_of W.regs W.base W.start self.new) ≡ resuming_turn start epc1 (state_of W.regs W.base W.start self.old) }
        ensures registers { WritesRegister result }
    {
        self.win.set_base(self.sr.owb());
        self.win.set_start(start);
        self.pc = epc1;
        self.sr.set_excm(false);
        Effect::of(StepKind::Insn, None)
    }

    /// MOVSP.
    #[tactic(auto, unfolding(crate::specs::Turn::moved_stack))]
    #[inline(never)]
    fn move_stack(&mut self, number: u8, value: u32, len: u8) -> Effect
        requires { number < 16 }
        ensures after { turn_of result (state_of W.regs W.base W.start self.new) ≡ moved_stack number value len (state_of W.regs W.base W.start self.old) }
        ensures registers { WritesRegister result }
    {
        if self.win.behind() == 0 {
            return self.raise(cause::NO_CALLER_WINDOW, None);
        }
        self.fall_through(len);
        Effect::of(StepKind::Insn, write_to(number, value))
    }

    #[inline(always)]
    fn window_value(&self, register: WindowRegister) -> u32
        ensures { result ≡ window_value register (state_of W.regs W.base W.start self.now) }
    {
        match register {
            WindowRegister::Base => self.win.base() as u32,
            WindowRegister::Start => self.win.start() as u32,
        }
    }

    #[inline(always)]
    fn set_window_value(&mut self, register: WindowRegister, value: u32)
        ensures { state_of W.regs W.base W.start self.new ≡ with_window_value register value (state_of W.regs W.base W.start self.old) }
    {
        match register {
            WindowRegister::Base => self.win.set_base((value % 16) as u8),
            WindowRegister::Start => self.win.set_start((value % 0x1_0000) as u16),
        }
    }

    /// RSR of a window register.
    #[inline(never)]
    fn read_window(&mut self, register: WindowRegister, number: u8, len: u8) -> Effect
        requires { number < 16 }
        ensures after { turn_of result (state_of W.regs W.base W.start self.new) ≡ window_turn (Reads register number) len (state_of W.regs W.base W.start self.old) }
        ensures registers { WritesRegister result }
    {
        let value = self.window_value(register);
        self.fall_through(len);
        Effect::of(StepKind::Insn, write_to(number, value))
    }

    /// WSR of a window register.
    #[inline(never)]
    fn write_window(&mut self, register: WindowRegister, value: u32, len: u8) -> Effect
        ensures after { turn_of result (state_of W.regs W.base W.start self.new) ≡ window_turn (Sets register value) len (state_of W.regs W.base W.start self.old) }
        ensures registers { WritesRegister result }
    {
        self.fall_through(len);
        self.set_window_value(register, value);
        Effect::of(StepKind::Insn, None)
    }

    /// XSR of a window register.
    #[inline(never)]
    fn exchange_window(
        &mut self,
        register: WindowRegister,
        number: u8,
        value: u32,
        len: u8,
    ) -> Effect
        requires { number < 16 }
        ensures after { turn_of result (state_of W.regs W.base W.start self.new) ≡ window_turn (Exchanges register number value) len (state_of W.regs W.base W.start self.old) }
        ensures registers { WritesRegister result }
    {
        let old = self.window_value(register);
        self.fall_through(len);
        self.set_window_value(register, value);
        Effect::of(StepKind::Insn, write_to(number, old))
    }

    /// ROTW.
    #[tactic(auto, unfolding(xt_isa::specs::Ranges::signed_within))]
    #[inline(never)]
    fn rotate(&mut self, n: i32, len: u8) -> Effect
        requires { signed_within 8 n ≡ true }
        ensures after { turn_of result (state_of W.regs W.base W.start self.new) ≡ window_turn (Rotates n) len (state_of W.regs W.base W.start self.old) }
        ensures registers { WritesRegister result }
    {
        self.fall_through(len);
        self.win.rotate(n as i8);
        Effect::of(StepKind::Insn, None)
    }

    /// An instruction that moves the window or looks at the windows.
    // (no hint to inline: with it the whole turn grows past the size at which its own hint is dropped)
    pub(crate) fn window_turn(&mut self, step: WindowStep, len: u8) -> Effect
        requires proper { IsProperStep step }
        requires back { GoesBack step (state_of W.regs W.base W.start self.old) }
        ensures after { turn_of result (state_of W.regs W.base W.start self.new) ≡ window_turn step len (state_of W.regs W.base W.start self.old) }
        ensures registers { WritesRegister result }
    {
        let start = self.win.start();
        let base = self.win.base();
        match step {
            WindowStep::Enters(number, value) => self.enter(number, value, len),
            WindowStep::Returns(a0) => self.return_to(a0),
            WindowStep::EndsOverflow(epc1) => self.resume(without_bit(start, base), epc1),
            WindowStep::EndsUnderflow(epc1) => self.resume(with_bit(start, base), epc1),
            WindowStep::Rotates(n) => self.rotate(n, len),
            WindowStep::MovesStack(number, value) => self.move_stack(number, value, len),
            WindowStep::Reads(register, number) => self.read_window(register, number, len),
            WindowStep::Sets(register, value) => self.write_window(register, value, len),
            WindowStep::Exchanges(register, number, value) => {
                self.exchange_window(register, number, value, len)
            }
        }
    }
}
