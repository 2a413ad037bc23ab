//! The effect so far, on marks.
#![tactic(auto)]

ghost use Rattle.std.specs.Prelude.{◌≡◌, ◌≤◌, ◌<◌, ◌+◌, ◌-◌, ◌*◌, ℕ, true, false, length, Some};
ghost use Rattle.xt_handlers.specs.Symbols.{Effect, effect_after_step, opening};
ghost use Rattle.xt_handlers.specs.Needs.{has_effect, are_right, is_done, marked_stores, wanted_stores};
ghost use Rattle.xt_handlers.specs.Flat.{Tracks, symbols_of};
ghost use Rattle.xt_handlers.specs.declared.stretch.HandlerInsn.TheVariants.{L32e, S32e};
ghost use Rattle.xt_handlers.specs.declared.stretch.Side.TheVariants.{Overflow, Underflow};

use crate::marks::{is_right, loaded, saved};
use crate::{Evaluation, Mark, Side};

/// The saves that an opening evaluation wants.
fn wanted_saves(side: Side, n: u8) -> [bool; 12]
    requires low { 0 < n }
    requires high { n < 4 }
    ensures count { length result ≡ 12 }
    ensures saves { wanted_stores side n ≡ marked_stores n 0 result }
{
    match side {
        Side::Underflow => [false; 12],
        Side::Overflow => match n {
            1 => [
                true, true, true, true, false, false, false, false, false, false, false, false,
            ],
            2 => [
                true, true, true, true, true, true, true, true, false, false, false, false,
            ],
            _ => [true; 12],
        },
    }
}

impl Evaluation {
    /// Before the first instruction.
    pub fn start(side: Side, n: u8) -> Self
        requires low { 0 < n }
        requires high { n < 4 }
        ensures { Tracks side n result opening }
    {
        let marks = [
            Mark::Initial(0),
            Mark::Initial(1),
            Mark::Initial(2),
            Mark::Initial(3),
            Mark::Initial(4),
            Mark::Initial(5),
            Mark::Initial(6),
            Mark::Initial(7),
            Mark::Initial(8),
            Mark::Initial(9),
            Mark::Initial(10),
            Mark::Initial(11),
            Mark::Initial(12),
            Mark::Initial(13),
            Mark::Initial(14),
            Mark::Initial(15),
        ];
        let wanted = wanted_saves(side, n);
        Evaluation {
            marks,
            wanted,
            spoiled: false,
        }
    }

    pub fn load(&mut self, side: Side, n: u8, target: u8, base: u8, back: u8)
        requires low { 0 < n }
        requires high { n < 4 }
        requires target { target < 16 }
        requires base { base < 16 }
        ensures { (e : Effect) → Tracks side n self.old e → Tracks side n self.new (effect_after_step e (L32e target base back)) }
    {
        if self.spoiled {
            return;
        }
        match loaded(side, n, self.marks[usize::from(base)], back) {
            Some(mark) => self.marks[usize::from(target)] = mark,
            None => self.spoiled = true,
        }
    }

    pub fn store(&mut self, side: Side, n: u8, source: u8, base: u8, back: u8)
        requires low { 0 < n }
        requires high { n < 4 }
        requires source { source < 16 }
        requires base { base < 16 }
        ensures { (e : Effect) → Tracks side n self.old e → Tracks side n self.new (effect_after_step e (S32e source base back)) }
    {
        if self.spoiled {
            return;
        }
        match side {
            Side::Underflow => self.spoiled = true,
            Side::Overflow => {
                let base = self.marks[usize::from(base)];
                match saved(n, base, back, self.marks[usize::from(source)]) {
                    Some(register) => {
                        let i = usize::from(register);
                        if self.wanted[i] {
                            self.wanted[i] = false;
                        } else {
                            self.spoiled = true;
                        }
                    }
                    None => self.spoiled = true,
                }
            }
        }
    }

    /// Whether each register ends as it has to.
    fn are_right(&self, side: Side, n: u8) -> bool
        requires low { 0 < n }
        requires high { n < 4 }
        ensures { result ≡ are_right side n 0 (symbols_of side n self.now.marks) }
    {
        for i in 0..16 {
            if !is_right(side, n, i as u8, self.marks[i]) {
                return false;
            }
        }
        true
    }

    /// Whether no store is still wanted.
    fn is_done(&self, n: u8) -> bool
        ensures { result ≡ is_done (Some (marked_stores n 0 self.now.wanted)) }
    {
        for flag in self.wanted {
            if flag {
                return false;
            }
        }
        true
    }

    pub fn has_effect(&self, side: Side, n: u8) -> bool
        requires low { 0 < n }
        requires high { n < 4 }
        ensures { (e : Effect) → Tracks side n self.now e → result ≡ has_effect side n e }
    {
        if self.spoiled {
            return false;
        }
        if !self.is_done(n) {
            return false;
        }
        self.are_right(side, n)
    }
}
