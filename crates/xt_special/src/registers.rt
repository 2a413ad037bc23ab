//! The special registers that a core keeps.
#![tactic(auto)]

ghost use Rattle.std.specs.Prelude.{◌≡◌, ◌<◌, ◌≤◌, ◌+◌, ◌-◌, ◌%◌, ◌^◌, true, slice_index, slice_set, bit_or};
ghost use Rattle.xt_special.specs.Numbers as numbers;
ghost use Rattle.xt_special.specs.Shape.{CanHold, IsPs};
ghost use Rattle.xt_special.specs.Opening.{no_special, opening_special, opening_ps};
ghost use Rattle.xt_special.specs.Access.{timer_bit};

mod access;
mod fields;

use crate::{Ps, number};
pub use access::{ps_written, value_kept, value_read, without_bits};
use std::marker::Model;

/// The special registers of a core but WINDOWBASE and WINDOWSTART, and THREADPTR.
///
/// Contracts see them as PS, a list of 256 words by register number, and THREADPTR. PS, and WINDOWBASE and WINDOWSTART, which are
/// kept with the windows, have no place in that list.
#[derive(Clone, Copy)]
pub struct Special {
    ps: Ps,
    file: [u32; 256],
    threadptr: u32,
}

impl Model for Special {
    ghost use Rattle.xt_special.specs.Values.{Specials};

    ghost Value = { Specials };

    ghost use Rattle.xt_special.specs.Shape.{IsPs, HasShape};

    ghost view = { λ s. record { ps = s.ps; file = s.file; threadptr = s.threadptr } };

    ghost invariant = { λ s. IsPs s.ps × HasShape s.file };

    ghost inverse = { λ v. record { ps = v.ps; file = v.file; threadptr = v.threadptr } };
}

#[tactic(auto, unfolding(crate::specs::Opening::no_special))]
fn no_registers() -> [u32; 256]
    ensures { result ≡ no_special }
{
    [0; 256]
}

impl Special {
    /// The special registers in which a core opens: all are 0 but PRID and VECBASE. PS detects window overflows, uses user vectors,
    /// and says that a CALL8 opened the frame.
    ///
    /// Condition: `vecbase` is a multiple of 1024.
    #[tactic(auto, unfolding(crate::specs::Opening::opening_special))]
    pub fn new(prid: u32, vecbase: u32) -> Special
        requires { vecbase % 2 ^ 10 ≡ 0 }
        ensures { result ≡ record { ps = opening_ps; file = opening_special prid vecbase; threadptr = 0 } }
    {
        let mut file = no_registers();
        file[number::PRID as usize] = prid;
        file[number::VECBASE as usize] = vecbase;
        let ps = Ps {
            intlevel: 0,
            excm: false,
            um: true,
            ring: 0,
            owb: 0,
            callinc: 2,
            woe: true,
        };
        Special {
            ps,
            file,
            threadptr: 0,
        }
    }

    /// The word that is kept at a register number; it is 0 at a number that no register has.
    #[inline(always)]
    pub fn register(&self, n: u8) -> u32
        ensures { result ≡ slice_index self.now.file n }
    {
        self.file[n as usize]
    }

    /// Puts a word at a register number, by none of the rules for WSR. Nothing else changes.
    ///
    /// Condition: the register can hold it: below 64 for SAR, and a multiple of 1024 for VECBASE.
    #[inline(always)]
    pub fn set_register(&mut self, n: u8, v: u32)
        requires { CanHold n v }
        ensures { self.new ≡ record self.old { file = slice_set self.old.file n v } }
    {
        self.file[n as usize] = v;
    }

    /// Whether all registers, PS and THREADPTR are equal.
    pub fn is_same(&self, other: &Special) -> bool
        ensures same { result ≡ true → self.now ≡ other.now }
        ensures equal { self.now ≡ other.now → result ≡ true }
    {
        self.file == other.file && self.ps == other.ps && self.threadptr == other.threadptr
    }

    /// SAR.
    #[inline(always)]
    pub fn sar(&self) -> u8
        ensures value { result ≡ slice_index self.now.file numbers.sar }
        ensures range { result < 2 ^ 6 }
    {
        self.file[number::SAR as usize] as u8
    }

    /// VECBASE.
    #[inline(always)]
    pub fn vecbase(&self) -> u32
        ensures value { result ≡ slice_index self.now.file numbers.vecbase }
        ensures range { result ≤ 2 ^ 32 - 2 ^ 10 }
    {
        self.file[number::VECBASE as usize]
    }

    /// THREADPTR.
    #[inline(always)]
    pub fn threadptr(&self) -> u32
        ensures { result ≡ self.now.threadptr }
    {
        self.threadptr
    }

    /// Sets THREADPTR, and changes nothing else.
    #[inline(always)]
    pub fn set_threadptr(&mut self, v: u32)
        ensures { self.new ≡ record self.old { threadptr = v } }
    {
        self.threadptr = v;
    }

    /// Sets the bit of a timer in INTERRUPT, and changes nothing else.
    ///
    /// Condition: `timer` is 0, 1 or 2.
    #[tactic(auto, unfolding(crate::specs::Access::timer_bit))]
    #[inline(always)]
    pub fn raise(&mut self, timer: u8)
        requires { timer < 3 }
        ensures { let raised = bit_or (slice_index self.old.file numbers.interrupt) (timer_bit (numbers.ccompare timer)) in
            self.new ≡ record self.old { file = slice_set self.old.file numbers.interrupt raised } }
    {
        let interrupt = self.register(number::INTERRUPT);
        self.set_register(number::INTERRUPT, interrupt | timer_bit(timer));
    }
}

/// The bit of a timer in INTERRUPT.
///
/// Condition: `timer` is 0, 1 or 2.
#[tactic(auto, unfolding(crate::specs::Access::timer_bit))]
#[inline(always)]
pub fn timer_bit(timer: u8) -> u32
    requires { timer < 3 }
    ensures { result ≡ timer_bit (numbers.ccompare timer) }
{
    match timer {
        0 => 1 << 6,
        1 => 1 << 15,
        _ => 1 << 16,
    }
}
