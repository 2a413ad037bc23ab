//! The register file with a front: the 16 visible registers in an array of their own, before the ring.
#![tactic(auto)]

ghost use Rattle.std.specs.Prelude.{◌≡◌, ℕ, ◌<◌, slice_index};
ghost use Rattle.xt_window.specs.Ring.{cleared_regs, place};
ghost use Rattle.xt_window.specs.FrontAndRing.{written_back};

use crate::Windows;
use std::marker::{Model, PhantomData};

/// A register file with windows that keeps the visible registers apart. A number of the ring that the front covers is
/// out of date until the front is written back, which `set_base` does. It is for the user `U`, as an `OwnFile` is.
pub struct FrontFile<U> {
    front: [u32; 16],
    ring: [u32; 64],
    base: u8,
    start: u16,
    user: PhantomData<U>,
}

// A `drop` of its own is one call at each place where a value is dropped.
impl<U> Drop for FrontFile<U> {
    fn drop(self) {
        let FrontFile {
            front: _,
            ring: _,
            base: _,
            start: _,
            user: _,
        } = self;
    }
}

impl<U> Model for FrontFile<U> {
    ghost use Rattle.std.specs.Prelude.{◌<◌};
    ghost use Rattle.xt_window.specs.Values.{WindowState};
    ghost use Rattle.xt_window.specs.FrontAndRing.{written_back};

    ghost Value = { WindowState };

    ghost view = { λ w. record { regs = written_back w.ring w.front w.base 16; base = w.base; start = w.start } };

    ghost invariant = { λ w. w.base < 16 };
}

// Writes the front of window `base` back to the ring.
#[tactic(auto, unfolding(crate::specs::FrontAndRing::written_back))]
#[inline(always)]
fn write_back(ring: &mut [u32; 64], front: &[u32; 16], base: u8)
    requires { base < 16 }
    ensures { ring.new ≡ written_back ring.old front.now base 16 }
{
    for i in 0..16 {
        ring[(4 * base as usize + i) % 64] = front[i];
    }
}

// Loads the front of window `base` from the ring.
#[inline(always)]
fn load(front: &mut [u32; 16], ring: &[u32; 64], base: u8)
    requires { base < 16 }
    ensures { (i : ℕ) → i < 16 → slice_index front.new i ≡ slice_index ring.now (place base i) }
{
    for i in 0..16 {
        front[i] = ring[(4 * base as usize + i) % 64];
    }
}

impl<U> FrontFile<U> {
    /// Registers that hold 0, with WINDOWBASE 0 and the bit of window 0 alone.
    #[tactic(auto, unfolding(crate::specs::FrontAndRing::written_back, crate::specs::Ring::cleared_regs))]
    pub fn new() -> FrontFile<U>
        ensures { result ≡ record { regs = cleared_regs; base = 0; start = 1 } }
    {
        FrontFile {
            front: [0; 16],
            ring: [0; 64],
            base: 0,
            start: 1,
            user: PhantomData,
        }
    }
}

impl<U> Windows for FrontFile<U> {
    ghost regs = { λ w. w.regs };

    ghost base = { λ w. w.base };

    ghost start = { λ w. w.start };

    #[inline(always)]
    fn read(&self, i: u8) -> u32 {
        self.front[i as usize]
    }

    #[inline(always)]
    fn write(&mut self, i: u8, v: u32) {
        self.front[i as usize] = v;
    }

    #[inline(always)]
    fn base(&self) -> u8 {
        self.base
    }

    #[inline(always)]
    fn start(&self) -> u16 {
        self.start
    }

    fn set_base(&mut self, b: u8) {
        write_back(&mut self.ring, &self.front, self.base);
        load(&mut self.front, &self.ring, b);
        self.base = b;
    }

    #[inline(always)]
    fn set_start(&mut self, s: u16) {
        self.start = s;
    }
}
