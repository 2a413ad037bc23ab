//! A core between two turns.
ghost use Rattle.std.specs.Prelude.{◌≡◌, ◌<◌, true, false};
ghost use Rattle.xt_outcomes.specs.SideMarks.{mixed, pairs_of, side_mark};

use crate::turns::leave_time;
use std::marker::Model;
use xt_exec::Regs;
use xt_special::number;
use xt_trace::{Options, Stop};
use xt_window::{WindowFile, Windows};

/// A core between two turns: its registers, the turns that it has left, and whether it has stopped.
/// Contracts see its state in place of the registers.
#[derive(Drop)]
pub struct Side {
    pub(crate) regs: Regs<WindowFile>,
    pub(crate) left: u32,
    pub(crate) stopped: bool,
}

impl Model for Side {
    ghost use Rattle.xt_exec.specs.State.{State};
    ghost use Rattle.xt_exec.specs.States.{file_state};
    ghost use Rattle.xt_exec.specs.TurnLaws.{IsShaped};
    ghost use Rattle.xt_outcomes.specs.States as spots;

    ghost Value = { spots.Side State };

    ghost view = { λ s. record { state = file_state s.regs; left = s.left; stopped = s.stopped } };

    ghost invariant = { λ s. IsShaped (file_state s.regs) };
}

// A number, and all registers two after two.
fn mixed(digest: u64, windows: &WindowFile) -> u64
    ensures { result ≡ mixed (pairs_of windows.now.regs) digest 32 }
{
    let mut ring = *windows;
    let mut digest = digest;
    for n in 0..32u8 {
        ring.set_base(n / 2);
        let low = ring.read(n % 2 * 2) as u64;
        let high = ring.read(n % 2 * 2 + 1) as u64;
        digest = digest
            .wrapping_mul(0x9E37_79B9_7F4A_7C15)
            .wrapping_add(high.wrapping_mul(0x1_0000_0000))
            .wrapping_add(low);
    }
    digest
}

impl Side {
    ghost use Rattle.xt_trace.specs.Traces.{stop_where};
    ghost use Rattle.xt_trace.specs.Validity.{IsValid};
    ghost use Rattle.xt_core.specs.Runs.{opening_at};
    ghost use Rattle.xt_outcomes.specs.Spots.{left_kept, state_kept};

    /// A core that opens at `pc`, with this core's stack of the options, and so many turns.
    ///
    /// Conditions: the core is 0 or 1, and the options are valid.
    pub fn open(core: u8, pc: u32, options: &Options, timed: bool, turns: u32) -> Side
        requires core { core < 2 }
        requires valid { IsValid options.now }
        ensures { result ≡ record { state = state_kept timed (opening_at core pc options.now); left = left_kept timed turns false; stopped = false } }
    {
        let stack = if core == 0 {
            options.stack0
        } else {
            options.stack1
        };
        let mut regs = Regs::open(core, pc, options.vecbase, stack.hi, WindowFile::new());
        leave_time(&mut regs, timed);
        Side {
            regs,
            left: if timed { turns } else { 1 },
            stopped: false,
        }
    }

    /// The same core.
    #[inline(always)]
    pub fn copy(&self) -> Side
        ensures { result ≡ self.now }
    {
        Side {
            regs: self.regs,
            left: self.left,
            stopped: self.stopped,
        }
    }

    /// Whether two cores are equal.
    pub fn is_same(&self, other: &Side) -> bool
        ensures same { result ≡ true → self.now ≡ other.now }
        ensures equal { self.now ≡ other.now → result ≡ true }
    {
        self.left == other.left
            && self.stopped == other.stopped
            && self.regs.pc == other.regs.pc
            && self.regs.waiting == other.regs.waiting
            && self.regs.win.is_same(&other.regs.win)
            && self.regs.sr.is_same(&other.regs.sr)
    }

    /// The turns that are left.
    pub fn left(&self) -> u32
        ensures { result ≡ self.now.left }
    {
        self.left
    }

    /// The program counter.
    pub fn pc(&self) -> u32
        ensures { result ≡ self.now.state.control.pc }
    {
        self.regs.pc
    }

    /// WINDOWBASE.
    pub fn base(&self) -> u8
        ensures { result ≡ self.now.state.base }
    {
        self.regs.win.base()
    }

    /// How the core has ended.
    pub fn stop(&self) -> Stop
        ensures { result ≡ stop_where self.now.stopped }
    {
        if self.stopped {
            Stop::Break
        } else {
            Stop::Turns
        }
    }

    /// A number that is the same for equal cores. All registers and SCOMPARE1 are part of it: those of callers
    /// and the value of a lock often differ where nothing else does.
    pub fn digest(&self) -> u64
        ensures { result ≡ side_mark self.now }
    {
        let digest = (self.regs.pc as u64)
            .wrapping_add((self.left as u64).wrapping_mul(0x1_0000_0000))
            .wrapping_add((self.regs.sr.register(number::SCOMPARE1) as u64).wrapping_mul(0x1_0001));
        mixed(digest, &self.regs.win)
    }
}
