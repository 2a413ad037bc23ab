use xt_rows::{Effect, settling};
use xt_special::Special;
use xt_trace::RegWrite;
use xt_window::Windows;

/// The registers of a core.
#[derive(Clone, Copy)]
pub struct Regs<W: Windows> {
    /// The program counter.
    pub pc: u32,
    /// The register windows.
    pub win: W,
    /// The special registers.
    pub sr: Special,
    /// Whether the core waits after a WAITI.
    pub waiting: bool,
}

impl<W: Windows> Regs<W> {
    ghost use Rattle.std.specs.Prelude.{◌≡◌, ◌<◌, ◌≤◌, ◌%◌, ◌^◌};
    ghost use Rattle.xt_window.specs.Ring.{cleared_regs};
    ghost use Rattle.xt_exec.specs.State.{opening_state};
    ghost use Rattle.xt_rows.specs.RowLaws.{IsAny, IsProperEffect, IsProperWrite};
    ghost use Rattle.xt_rows.specs.Settling.{after_effect};
    ghost use Rattle.xt_exec.specs.States.{state_of};
    ghost use Rattle.xt_exec.specs.Turn.{fall_through, with_write};
    ghost use Rattle.xt_exec.specs.Halves.{gone_on};

    /// The registers with which a core opens at `pc`: its a1 is 64 below the end of its stack, and its opening frame was called by 8
    /// registers.
    ///
    /// Conditions: the core is 0 or 1, `vecbase` is a multiple of 1024, `stack_end` is at least 64, and `win` has 64 registers that
    /// hold 0, WINDOWBASE 0 and WINDOWSTART 1.
    #[tactic(auto, unfolding(crate::specs::State::opening_state, crate::specs::State::opening_regs))]
    pub fn open(core: u8, pc: u32, vecbase: u32, stack_end: u32, win: W) -> Regs<W>
        requires core { core < 2 }
        requires vecbase { vecbase % 2 ^ 10 ≡ 0 }
        requires stack { 64 ≤ stack_end }
        requires regs { W.regs win ≡ cleared_regs }
        requires base { W.base win ≡ 0 }
        requires start { W.start win ≡ 1 }
        ensures { state_of W.regs W.base W.start result ≡ opening_state core pc vecbase stack_end }
    {
        let prid = if core == 0 { 0xCDCD } else { 0xABAB };
        let mut win = win;
        win.write(1, stack_end - 64);
        win.write(8, 0x8000_0000);
        Regs {
            pc,
            win,
            sr: Special::new(prid, vecbase),
            waiting: false,
        }
    }

    /// Goes on to the next instruction, or back in a loop.
    #[inline(always)]
    pub(crate) fn fall_through(&mut self, len: u8)
        ensures { state_of W.regs W.base W.start self.new ≡ fall_through len (state_of W.regs W.base W.start self.old) }
    {
        self.pc = settling::falls(&mut self.sr, self.pc, len);
    }

    /// Goes on after a reply: an instruction that asked has no other effect on the control state.
    #[tactic(auto, unfolding(xt_rows::specs::Settling::after_effect))]
    #[inline(always)]
    pub(crate) fn go_on(&mut self, len: u8)
        ensures { state_of W.regs W.base W.start self.new ≡ gone_on len (state_of W.regs W.base W.start self.old) }
    {
        self.waiting = false;
        self.fall_through(len);
    }

    /// What an instruction of this length changes beside the visible registers.
    #[inline(always)]
    pub(crate) fn apply(&mut self, e: Effect, len: u8)
        requires { IsProperEffect IsAny e }
        ensures { let s = state_of W.regs W.base W.start self.old in
            state_of W.regs W.base W.start self.new ≡ record s { control = after_effect e len s.control } }
    {
        self.pc = settling::apply(&mut self.sr, self.pc, e, len);
        self.waiting = e.waits;
    }

    /// Writes a visible register of the window at hand.
    #[inline(always)]
    pub(crate) fn write(&mut self, write: Option<RegWrite>)
        requires { IsProperWrite IsAny write }
        ensures { state_of W.regs W.base W.start self.new ≡ with_write write (state_of W.regs W.base W.start self.old) }
    {
        if let Some(w) = write {
            self.win.write(w.reg, w.value);
        }
    }
}
