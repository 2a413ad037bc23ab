//! The plain register file: 64 words, WINDOWBASE and WINDOWSTART.
#![tactic(auto)]

ghost use Rattle.std.specs.Prelude.{◌≡◌, true};
ghost use Rattle.xt_window.specs.Ring.{cleared_regs};

use crate::Windows;
use std::marker::{Model, PhantomData};

/// The plain form of a register file with windows, for the user `U`, a type that only names it. The compiler makes a turn for each
/// type of register file. So the turn of a user with a name of its own is one piece with the user's loop, and a turn that others
/// call too would stay a call with calls of its own.
#[derive_where(Clone, Copy)]
pub struct OwnFile<U> {
    regs: [u32; 64],
    base: u8,
    start: u16,
    user: PhantomData<U>,
}

/// The name of those who need no turn of their own.
pub struct Anyone;

/// The plain register file of those who need no turn of their own.
pub type WindowFile = OwnFile<Anyone>;

impl<U> Model for OwnFile<U> {
    ghost use Rattle.std.specs.Prelude.{◌<◌};
    ghost use Rattle.xt_window.specs.Values.{WindowState};

    ghost Value = { WindowState };

    ghost view = { λ w. record { regs = w.regs; base = w.base; start = w.start } };

    ghost invariant = { λ w. w.base < 16 };

    ghost inverse = { λ v. record { regs = v.regs; base = v.base; start = v.start; user = record {} } };
}

#[tactic(auto, unfolding(crate::specs::Ring::cleared_regs))]
fn cleared_regs() -> [u32; 64]
    ensures { result ≡ cleared_regs }
{
    [0; 64]
}

impl<U> OwnFile<U> {
    /// Registers that hold 0, with WINDOWBASE 0 and the bit of window 0 alone.
    pub fn new() -> OwnFile<U>
        ensures { result ≡ record { regs = cleared_regs; base = 0; start = 1 } }
    {
        OwnFile {
            regs: cleared_regs(),
            base: 0,
            start: 1,
            user: PhantomData,
        }
    }

    /// Whether all registers, WINDOWBASE and WINDOWSTART are equal.
    pub fn is_same(&self, other: &OwnFile<U>) -> bool
        ensures same { result ≡ true → self.now ≡ other.now }
        ensures equal { self.now ≡ other.now → result ≡ true }
    {
        self.base == other.base && self.start == other.start && self.regs == other.regs
    }
}

impl<U> Windows for OwnFile<U> {
    ghost regs = { λ w. w.regs };

    ghost base = { λ w. w.base };

    ghost start = { λ w. w.start };

    #[inline(always)]
    fn read(&self, i: u8) -> u32 {
        self.regs[((4 * self.base + i) % 64) as usize]
    }

    #[inline(always)]
    fn write(&mut self, i: u8, v: u32) {
        self.regs[((4 * self.base + i) % 64) as usize] = v;
    }

    #[inline(always)]
    fn base(&self) -> u8 {
        self.base
    }

    #[inline(always)]
    fn start(&self) -> u16 {
        self.start
    }

    #[inline(always)]
    fn set_base(&mut self, b: u8) {
        self.base = b;
    }

    #[inline(always)]
    fn set_start(&mut self, s: u16) {
        self.start = s;
    }
}
