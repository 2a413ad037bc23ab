//! A core whose control state is another's but for EPC1, as that of a processor with windows is.
#![tactic(auto)]

ghost use Rattle.std.specs.Prelude.{◌≡◌, ◌≤◌, ◌<◌, ℕ, true, None, length, slice_index, slice_index_or};
ghost use Rattle.xt_special.specs.Values.{control_at};
ghost use Rattle.xt_frames.specs.Levels.{IsLevel, levelled, with_epc1};
ghost use Rattle.xt_special.specs.Control.{special_of};
ghost use Rattle.xt_special.specs.Numbers as numbers;

use crate::frames::Frames;
use crate::registers::Seen;
use crate::view::FrameRegisters;
use xt_special::{Ps, Special, number};

// Whether all fields of PS are equal.
fn is_same_ps(a: Ps, b: Ps) -> bool
    ensures { result ≡ true → a ≡ b }
{
    a == b
}

/// Whether both hold the same words at the register numbers from the first on, up to but without the second.
fn are_same_between(a: &Special, b: &Special, from: u32, to: u32) -> bool
    requires { to ≤ 256 }
    ensures { result ≡ true → (k : ℕ) → from ≤ k → k < to → slice_index a.now.file k ≡ slice_index b.now.file k }
{
    // (the loop goes on after a difference, so that many words are compared at once)
    let mut same = true;
    for n in from..to {
        if a.register(n as u8) != b.register(n as u8) {
            same = false;
        }
    }
    same
}

impl FrameRegisters {
    /// Whether the control state is seen to be this but for EPC1.
    ///
    /// Condition: both have 256 special registers.
    pub fn is_level(&self, pc: u32, waits: bool, special: &Special) -> bool
        requires own { length self.now.control.special ≡ 256 }
        requires others { length special.now.file ≡ 256 }
        ensures { result ≡ true → self.now.control ≡ with_epc1 (special_of self.now.control (numbers.epc 1)) (control_at pc waits special.now) }
    {
        if self.pc != pc || self.waits != waits || self.special.threadptr() != special.threadptr() {
            return false;
        }
        if !is_same_ps(self.special.ps_fields(), special.ps_fields()) {
            return false;
        }
        are_same_between(&self.special, special, 0, 177)
            && are_same_between(&self.special, special, 178, 256)
    }

    /// Takes these registers, and this control state but for EPC1.
    pub fn bring_level(&mut self, pc: u32, waits: bool, special: &Special, seen: &Seen)
        ensures { self.new ≡ record self.old { seen = seen.now; control = with_epc1 (special_of self.old.control (numbers.epc 1)) (control_at pc waits special.now) } }
    {
        let epc1 = self.special.register(number::EPC1);
        self.pc = pc;
        self.waits = waits;
        self.seen = *seen;
        self.special = *special;
        self.special.set_register(number::EPC1, epc1);
    }
}

impl Frames {
    /// The visible registers. In a nested interrupt those that are kept.
    pub fn seen(&self) -> Seen
        ensures { result ≡ self.now.state.seen }
    {
        self.view.seen()
    }

    /// Whether the record of this number comes next after the last judged one, and the control state
    /// is seen to be this but for EPC1.
    ///
    /// Condition: both have 256 special registers.
    pub fn is_level(&self, index: u32, pc: u32, waits: bool, special: &Special) -> bool
        requires own { length self.now.state.control.special ≡ 256 }
        requires others { length special.now.file ≡ 256 }
        ensures { result ≡ true → IsLevel self.now index (control_at pc waits special.now) }
    {
        self.next == u64::from(index) && self.view.is_level(pc, waits, special)
    }

    /// Takes these registers, and this control state but for EPC1, before the record of this number.
    ///
    /// Condition: a1 stays.
    pub fn bring_level(&mut self, index: u32, pc: u32, waits: bool, special: &Special, seen: &Seen)
        requires { slice_index_or seen.now 1 None ≡ slice_index_or self.old.state.seen 1 None }
        ensures { self.new ≡ record self.old { state = levelled self.old.state seen.now (control_at pc waits special.now); next = index } }
    {
        self.view.bring_level(pc, waits, special, seen);
        self.next = u64::from(index);
    }
}
