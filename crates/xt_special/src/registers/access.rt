//! What RSR and WSR do.
#![tactic(auto)]

ghost use Rattle.std.specs.Prelude.{◌≡◌, if◌then◌else◌};
ghost use Rattle.xt_special.specs.Shape.{AreProperSets, CanHold, IsProperSet, IsPs};
ghost use Rattle.xt_special.specs.Access.{can_write_here, changed_by, ps_written, read_of, special_written, value_kept, value_read, with_set, with_sets, without_bits};

use super::Special;
use crate::writes::{SpecialWrite, SpecialWrites, written_by};
use crate::{Ps, number};
use xt_isa::special::{can_read, can_write};

/// The bits of INTERRUPT that software sets and clears: 7 and 29.
const SOFTWARE_BITS: u32 = 0x2000_0080;

/// The bits of INTENABLE that there are: those of software and of the three timers.
const ENABLED_BITS: u32 = 0x2001_80C0;

/// A word without some bits.
#[tactic(auto, unfolding(crate::specs::Access::without_bits))]
#[inline(always)]
pub fn without_bits(word: u32, bits: u32) -> u32
    ensures { result ≡ without_bits word bits }
{
    word & !bits
}

/// What the register that a write of this number changes keeps of the word `v`. INTERRUPT was `interrupt`.
#[tactic(auto, unfolding(crate::specs::Access::value_kept))]
#[inline(always)]
pub fn value_kept(n: u8, v: u32, interrupt: u32) -> u32
    ensures value { result ≡ value_kept n v interrupt }
    ensures range { CanHold (changed_by n) result }
{
    match n {
        number::SAR | number::EXCCAUSE => v % 64,
        number::BR => v % 0x1_0000,
        number::VECBASE => v / 1024 * 1024,
        number::INTENABLE => v & ENABLED_BITS,
        number::EPS2..=number::EPS7 => Ps::of_word(v).word(),
        number::INTERRUPT => interrupt | v & SOFTWARE_BITS,
        number::INTCLEAR => without_bits(interrupt, v & SOFTWARE_BITS),
        _ => v,
    }
}

/// The value of a special register, which is that of PS where the number is that of PS, else `u`.
#[inline(always)]
pub fn value_read(n: u8, u: u32, ps: Ps) -> u32
    requires { IsPs ps }
    ensures { result ≡ value_read n u ps }
{
    if n == number::PS { ps.word() } else { u }
}

/// PS after a write of `x` to the special register of this number.
#[inline(always)]
pub fn ps_written(n: u8, x: u32, ps: Ps) -> Ps
    ensures { result ≡ ps_written n x ps }
{
    if n == number::PS { Ps::of_word(x) } else { ps }
}

impl Special {
    /// The value that RSR reads: none where it reaches no register of this number, and for WINDOWBASE and WINDOWSTART.
    pub fn read(&self, n: u8) -> Option<u32>
        ensures { result ≡ read_of n self.now.file self.now.ps }
    {
        if !can_read(n) || n == number::WINDOWBASE || n == number::WINDOWSTART {
            return None;
        }
        Some(value_read(n, self.register(n), self.ps))
    }

    /// What WSR writes. The answer is false, and nothing has changed, where it reaches no register of this number, and for
    /// WINDOWBASE and WINDOWSTART.
    #[tactic(auto, unfolding(crate::specs::Access::special_written))]
    pub fn write(&mut self, n: u8, v: u32) -> bool
        ensures accepted { result ≡ can_write_here n }
        ensures after { self.new ≡ (if result then record { ps = ps_written n v self.old.ps; file = special_written n v self.old.file; threadptr = self.old.threadptr } else self.old) }
    {
        if !can_write(n) || n == number::WINDOWBASE || n == number::WINDOWSTART {
            return false;
        }
        let interrupt = self.register(number::INTERRUPT);
        self.set_registers(written_by(n, v, interrupt));
        if n == number::PS {
            self.ps = Ps::of_word(v);
        }
        true
    }

    /// Makes a write to a special register, or none.
    #[inline(always)]
    fn set_one(&mut self, set: Option<SpecialWrite>)
        requires { IsProperSet set }
        ensures { self.new ≡ record self.old { file = with_set set self.old.file } }
    {
        if let Some(w) = set {
            self.set_register(w.number, w.value);
        }
    }

    /// Makes these writes in order, and changes nothing else.
    ///
    /// Condition: each register can hold its value.
    #[inline(always)]
    pub fn set_registers(&mut self, sets: SpecialWrites)
        requires { AreProperSets sets }
        ensures { self.new ≡ record self.old { file = with_sets sets self.old.file } }
    {
        let (first, second, third) = sets;
        self.set_one(first);
        self.set_one(second);
        self.set_one(third);
    }
}
