//! What a register file with windows does.
#![tactic(auto)]

ghost use Rattle.std.specs.Prelude.{◌≡◌, ℕ, ◌<◌, ◌≤◌, ◌≤ℤ◌, pos, negsuc, List, IfSome, slice_set};
ghost use Rattle.xt_window.specs.Ring.{place, visible, with_bit};
ghost use Rattle.xt_window.specs.Moves.{base_after_call, base_rotated, behind, is_bad};
ghost use Rattle.xt_window.specs.WindowAnswers.{overflow_of, return_of, base_past, start_past};

use crate::ring::{ahead, behind, bit, size_at, with_bit, without_bit};

/// The window that an instruction would write over.
#[derive(Clone, Copy)]
pub struct Overflow {
    /// How many windows ahead it is, 1 to 3.
    pub by: u8,
    /// By how many windows its frame moved ahead when it called, 1 to 3: the choice among the vectors for 4, 8 and 12 registers.
    pub size: u8,
}

/// What a return by some windows finds.
#[derive(Clone, Copy)]
pub enum Return {
    /// The caller's window is in the registers.
    Returned,
    /// It is not, and has to be filled.
    Under,
    /// The return names another window than the nearest one behind, or none.
    Bad,
}

/// A register file with windows. Contracts see the list of its 64 physical registers, WINDOWBASE and WINDOWSTART.
pub trait Windows {
    ghost regs: { Self → List ℕ };

    ghost base: { Self → ℕ };

    ghost start: { Self → ℕ };

    /// The visible register `i`.
    ///
    /// Condition: `i` is below 16.
    fn read(&self, i: u8) -> u32
        requires { i < 16 }
        ensures { result ≡ visible (regs self.now) (base self.now) i };

    /// Writes the visible register `i`, and changes nothing else.
    ///
    /// Condition: `i` is below 16.
    fn write(&mut self, i: u8, v: u32)
        requires { i < 16 }
        ensures regs { regs self.new ≡ slice_set (regs self.old) (place (base self.old) i) v }
        ensures base { base self.new ≡ base self.old }
        ensures start { start self.new ≡ start self.old };

    /// WINDOWBASE.
    fn base(&self) -> u8
        ensures value { result ≡ base self.now }
        ensures range { result < 16 };

    /// WINDOWSTART.
    fn start(&self) -> u16
        ensures { result ≡ start self.now };

    /// Sets WINDOWBASE, and changes nothing else.
    ///
    /// Condition: `b` is below 16.
    fn set_base(&mut self, b: u8)
        requires { b < 16 }
        ensures regs { regs self.new ≡ regs self.old }
        ensures base { base self.new ≡ b }
        ensures start { start self.new ≡ start self.old };

    /// Sets WINDOWSTART, and changes nothing else.
    fn set_start(&mut self, s: u16)
        ensures regs { regs self.new ≡ regs self.old }
        ensures base { base self.new ≡ base self.old }
        ensures start { start self.new ≡ s };

    /// The window check of an instruction that names registers up to a(4q + 3): the nearest of the next `q` windows whose bit is
    /// set, and none exactly where no such bit is set.
    ///
    /// Condition: `q` is below 4.
    fn check(&self, q: u8) -> Option<Overflow>
        requires { q < 4 }
        ensures value { result ≡ overflow_of (start self.now) (base self.now) q }
        ensures range { IfSome result (λ o. (1 ≤ o.by) × (o.by < 4) × (1 ≤ o.size) × (o.size < 4)) }
    {
        let start = self.start();
        let base = self.base();
        let by = ahead(start, base, q);
        if by == 0 {
            None
        } else {
            Some(Overflow {
                by,
                size: size_at(start, base + by),
            })
        }
    }

    /// How far the nearest set bit is among the three windows behind, or 0.
    fn behind(&self) -> u8
        ensures value { result ≡ behind (start self.now) (base self.now) }
        ensures range { result < 4 }
    {
        behind(self.start(), self.base())
    }

    /// Enters the window that is `n` ahead, and sets its bit.
    ///
    /// Condition: `n` is below 4.
    fn enter(&mut self, n: u8)
        requires { n < 4 }
        ensures regs { regs self.new ≡ regs self.old }
        ensures base { base self.new ≡ base_after_call (base self.old) n }
        ensures start { start self.new ≡ with_bit (start self.old) (base_after_call (base self.old) n) }
    {
        let base = (self.base() + n) % 16;
        let start = with_bit(self.start(), base);
        self.set_base(base);
        self.set_start(start);
    }

    /// Whether a return by `n` windows is illegal: `n` is 0, or the nearest window behind is another.
    fn is_bad(&self, n: u8) -> bool
        ensures { result ≡ is_bad (start self.now) (base self.now) n }
    {
        let nearest = self.behind();
        n == 0 || nearest != 0 && nearest != n
    }

    /// Returns to the window that is `n` behind. Where it is the nearest one, the bit of the window that is left is cleared. Where
    /// no window stands among the three behind, the window has moved, no bit has changed, and the answer is `Under`. Where `n` is 0
    /// or the nearest window is another, nothing has changed, and the answer is `Bad`.
    ///
    /// Condition: `n` is below 4.
    #[tactic(auto, unfolding(crate::specs::WindowAnswers::return_of))]
    fn retw(&mut self, n: u8) -> Return
        requires { n < 4 }
        ensures answer { result ≡ return_of (start self.old) (base self.old) n }
        ensures regs { regs self.new ≡ regs self.old }
        ensures base { base self.new ≡ base_past result (base self.old) n }
        ensures start { start self.new ≡ start_past result (start self.old) (base self.old) }
    {
        if self.is_bad(n) {
            return Return::Bad;
        }
        let start = self.start();
        let base = self.base();
        let caller = (base + (16 - n)) % 16;
        self.set_base(caller);
        if !bit(start, caller) {
            return Return::Under;
        }
        self.set_start(without_bit(start, base));
        Return::Returned
    }

    /// Moves WINDOWBASE by `k` windows, and changes nothing else.
    ///
    /// Condition: `k` is -8 to 7.
    fn rotate(&mut self, k: i8)
        requires low { negsuc 7 ≤ℤ k }
        requires high { k ≤ℤ pos 7 }
        ensures regs { regs self.new ≡ regs self.old }
        ensures base { base self.new ≡ base_rotated (base self.old) k }
        ensures start { start self.new ≡ start self.old }
    {
        let base = self.base() as i8;
        self.set_base(((base + 16 + k) % 16) as u8);
    }
}
