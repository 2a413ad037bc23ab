//! Operations on one word.
#![tactic(auto)]

ghost use Rattle.std.specs.Prelude.{◌≡◌, ◌≤◌};
ghost use Rattle.xt_word.specs.Arithmetic.{neg, abs, sext, clamps, nsa, nsau};

/// NEG: the two's complement.
#[tactic(auto, unfolding(crate::specs::Arithmetic::neg))]
#[inline(always)]
pub fn neg(v: u32) -> u32
    ensures { result ≡ neg v }
{
    0u32.wrapping_sub(v)
}

/// ABS: the absolute value; that of -2^31 is 0x8000_0000.
#[tactic(auto, unfolding(crate::specs::Arithmetic::abs))]
#[inline(always)]
pub fn abs(v: u32) -> u32
    ensures { result ≡ abs v }
{
    v.cast_signed().unsigned_abs()
}

/// SEXT: sign extension from bit `b`.
///
/// Condition: `b` is 7 to 22.
#[tactic(auto, unfolding(crate::specs::Arithmetic::sext))]
#[inline(always)]
pub fn sext(v: u32, b: u8) -> u32
    requires low { 7 ≤ b }
    requires high { b ≤ 22 }
    ensures { result ≡ sext v b }
{
    crate::sext(v, b + 1)
}

/// CLAMPS: the nearest signed number from -2^b to 2^b - 1.
///
/// Condition: `b` is 7 to 22.
#[tactic(auto, unfolding(crate::specs::Arithmetic::clamps))]
#[inline(always)]
pub fn clamps(v: u32, b: u8) -> u32
    requires low { 7 ≤ b }
    requires high { b ≤ 22 }
    ensures { result ≡ clamps v b }
{
    let end = 1u32 << b;
    if v < 1 << 31 {
        v.min(end - 1)
    } else {
        u32::MAX - (u32::MAX - v).min(end - 1)
    }
}

/// NSA: leading bits that equal the sign, less one; 31 for 0 and for -1.
#[tactic(auto, unfolding(crate::specs::Arithmetic::nsa))]
#[inline(always)]
pub fn nsa(v: u32) -> u32
    ensures { result ≡ nsa v }
{
    let bits = if v < 1 << 31 { v } else { u32::MAX - v };
    bits.leading_zeros().saturating_sub(1)
}

/// NSAU: leading zeros; 32 for 0.
#[tactic(auto, unfolding(crate::specs::Arithmetic::nsau))]
#[inline(always)]
pub fn nsau(v: u32) -> u32
    ensures { result ≡ nsau v }
{
    v.leading_zeros()
}
