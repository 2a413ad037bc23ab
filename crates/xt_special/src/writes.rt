//! What a WSR or XSR writes, as data.
#![tactic(auto)]

ghost use Rattle.std.specs.Prelude.{◌≡◌};
ghost use Rattle.xt_special.specs.Access.{set_to, written_by};
ghost use Rattle.xt_special.specs.Shape.{AreProperSets};

use crate::number;
use crate::registers::{timer_bit, value_kept, without_bits};

/// A write to a special register other than PS.
#[derive(Clone, Copy)]
pub struct SpecialWrite {
    /// The number of the special register.
    pub number: u8,
    /// The value that it keeps.
    pub value: u32,
}

/// The special registers that an instruction writes, in order: at most three, as LOOP writes LCOUNT, LBEG and LEND.
pub type SpecialWrites = (
    Option<SpecialWrite>,
    Option<SpecialWrite>,
    Option<SpecialWrite>,
);

/// The write of this value.
#[inline(always)]
pub fn set_to(number: u8, value: u32) -> Option<SpecialWrite>
    ensures { result ≡ set_to number value }
{
    Some(SpecialWrite { number, value })
}

/// The special registers that a write of `x` to the special register `n` changes, where INTERRUPT was `v`. PS is none of them.
///
/// SAR and EXCCAUSE keep six bits, VECBASE all but the low ten, INTENABLE the bits that there are, EPS2 to EPS7 what PS keeps.
/// INTSET and INTCLEAR set and clear the bits of software alone. A write of CCOMPARE clears the timer's bit of INTERRUPT.
#[inline(always)]
pub fn written_by(n: u8, x: u32, v: u32) -> SpecialWrites
    ensures value { result ≡ written_by n x v }
    ensures proper { AreProperSets result }
{
    match n {
        number::PS => (None, None, None),
        number::CCOMPARE0..=number::CCOMPARE2 => (
            set_to(n, x),
            set_to(
                number::INTERRUPT,
                without_bits(v, timer_bit(n - number::CCOMPARE0)),
            ),
            None,
        ),
        number::INTCLEAR => (set_to(number::INTERRUPT, value_kept(n, x, v)), None, None),
        _ => (set_to(n, value_kept(n, x, v)), None, None),
    }
}
