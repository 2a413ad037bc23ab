use crate::plans::Effect;
use crate::regs::Regs;
use xt_trace::StepKind;
use xt_window::Windows;

impl<W: Windows> Regs<W> {
    ghost use Rattle.std.specs.Prelude.{◌≡◌, ◌<◌, ◌≤◌};
    ghost use Rattle.xt_special.specs.WindowExceptions.{after_window_exception};
    ghost use Rattle.xt_rows.specs.Settling.{settled_exception, settled_interrupt};
    ghost use Rattle.xt_exec.specs.States.{state_of};
    ghost use Rattle.xt_exec.specs.Turn.{in_window, window_exception};
    ghost use Rattle.xt_exec.specs.Halves.{IsEffect};
    ghost use Rattle.xt_exec.specs.Steps.{WritesRegister, turn_of};

    /// Enters an exception of this cause (EXCCAUSE), with the address that it concerns.
    ///
    /// Condition: `cause` is below 64.
    #[inline(never)]
    pub fn raise(&mut self, cause: u8, addr: Option<u32>) -> Effect
        requires { cause < 64 }
        ensures effect { let s = state_of W.regs W.base W.start self.old in
            IsEffect result (state_of W.regs W.base W.start self.new) (in_window (settled_exception cause addr s.control) s) }
        ensures turn { let s = state_of W.regs W.base W.start self.old in
            turn_of result (state_of W.regs W.base W.start self.new) ≡ in_window (settled_exception cause addr s.control) s }
        ensures register { WritesRegister result }
    {
        self.pc = xt_special::entries::general(&mut self.sr, self.pc, cause, addr);
        Effect::of(StepKind::Exc(cause), None)
    }

    /// Takes an interrupt of this level, which ends waiting.
    ///
    /// Condition: `level` is 1 to 5.
    #[inline(never)]
    pub fn interrupt(&mut self, level: u8) -> Effect
        requires low { 1 ≤ level }
        requires high { level ≤ 5 }
        ensures { let s = state_of W.regs W.base W.start self.old in
            IsEffect result (state_of W.regs W.base W.start self.new) (in_window (settled_interrupt level s.control) s) }
    {
        self.pc = xt_special::entries::interrupt(&mut self.sr, self.pc, level);
        self.waiting = false;
        Effect::of(StepKind::Interrupt(level), None)
    }

    // Keeps where a window exception came from, and goes to its vector. The window `old` is kept in PS.OWB.
    #[inline(always)]
    pub(crate) fn enter_vector(&mut self, vector: u8, old: u8)
        requires vector { vector < 6 }
        requires old { old < 16 }
        ensures { let s = state_of W.regs W.base W.start self.old in
            state_of W.regs W.base W.start self.new ≡ record s { control = after_window_exception old vector s.control } }
    {
        self.pc = xt_special::entries::window(&mut self.sr, self.pc, old, vector);
    }

    /// Enters a window exception through the vector of this number, and the window `base`.
    #[inline(always)]
    pub(crate) fn window_exception(&mut self, vector: u8, base: u8) -> Effect
        requires vector { vector < 6 }
        requires base { base < 16 }
        ensures turn { turn_of result (state_of W.regs W.base W.start self.new) ≡ window_exception vector base (state_of W.regs W.base W.start self.old) }
        ensures register { WritesRegister result }
    {
        let old = self.win.base();
        self.enter_vector(vector, old);
        self.win.set_base(base);
        Effect::of(StepKind::Window(vector), None)
    }
}
