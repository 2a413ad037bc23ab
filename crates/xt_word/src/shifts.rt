//! Shifts, bit fields, and the new SAR.
#![tactic(auto)]

ghost use Rattle.std.specs.Prelude.{◌≡◌, ◌<◌, ◌≤◌};
ghost use Rattle.xt_word.specs.Shifts.{src, srl, sra, sll, slli, srai, srli, extui, ssr, ssl, ssa8l, ssa8b};

use crate::{field, pair_right};

/// SRC: the low word of the pair (`s`, `t`), shifted right by SAR.
///
/// Condition: `sar` is below 64.
#[tactic(auto, unfolding(crate::specs::Shifts::src))]
#[inline(always)]
pub fn src(s: u32, t: u32, sar: u8) -> u32
    requires { sar < 64 }
    ensures { result ≡ src s t sar }
{
    pair_right(s, t, sar)
}

/// SRL: the low word of the pair (0, `v`), shifted right by SAR.
///
/// Condition: `sar` is below 64.
#[tactic(auto, unfolding(crate::specs::Shifts::srl))]
#[inline(always)]
pub fn srl(v: u32, sar: u8) -> u32
    requires { sar < 64 }
    ensures { result ≡ srl v sar }
{
    pair_right(0, v, sar)
}

/// SRA: the signed number `v`, shifted right by SAR.
///
/// Condition: `sar` is below 64.
#[tactic(auto, unfolding(crate::specs::Shifts::sra))]
#[inline(always)]
pub fn sra(v: u32, sar: u8) -> u32
    requires { sar < 64 }
    ensures { result ≡ sra v sar }
{
    ((v.cast_signed() as i64 >> sar) as i32).cast_unsigned()
}

/// SLL: the low word of the pair (`v`, 0), shifted right by SAR.
///
/// Condition: `sar` is below 64.
#[tactic(auto, unfolding(crate::specs::Shifts::sll))]
#[inline(always)]
pub fn sll(v: u32, sar: u8) -> u32
    requires { sar < 64 }
    ensures { result ≡ sll v sar }
{
    pair_right(v, 0, sar)
}

/// SLLI: `s` shifted left by `n`.
///
/// Condition: `n` is 1 to 31.
#[tactic(auto, unfolding(crate::specs::Shifts::slli))]
#[inline(always)]
pub fn slli(s: u32, n: u8) -> u32
    requires low { 1 ≤ n }
    requires high { n < 32 }
    ensures { result ≡ slli s n }
{
    s << n
}

/// SRAI: the signed number `t`, shifted right by `n`.
///
/// Condition: `n` is below 32.
#[tactic(auto, unfolding(crate::specs::Shifts::srai))]
#[inline(always)]
pub fn srai(t: u32, n: u8) -> u32
    requires { n < 32 }
    ensures { result ≡ srai t n }
{
    (t.cast_signed() >> n).cast_unsigned()
}

/// SRLI: `t` shifted right by `n`.
///
/// Condition: `n` is below 16.
#[tactic(auto, unfolding(crate::specs::Shifts::srli))]
#[inline(always)]
pub fn srli(t: u32, n: u8) -> u32
    requires { n < 16 }
    ensures { result ≡ srli t n }
{
    t >> n
}

/// EXTUI: the low `w` bits of `t` shifted right by `n`.
///
/// Conditions: `n` is below 32, and `w` is 1 to 16.
#[tactic(auto, unfolding(crate::specs::Shifts::extui))]
#[inline(always)]
pub fn extui(t: u32, n: u8, w: u8) -> u32
    requires place { n < 32 }
    requires low { 1 ≤ w }
    requires high { w ≤ 16 }
    ensures { result ≡ extui t n w }
{
    field(t >> n, 0, w)
}

/// SSR: the SAR for a shift to the right by `s` modulo 32.
#[tactic(auto, unfolding(crate::specs::Shifts::ssr))]
#[inline(always)]
pub fn ssr(s: u32) -> u8
    ensures value { result ≡ ssr s }
    ensures range { result < 32 }
{
    (s % 32) as u8
}

/// SSL: the SAR for a shift to the left by `s` modulo 32; 1 to 32.
#[tactic(auto, unfolding(crate::specs::Shifts::ssl))]
#[inline(always)]
pub fn ssl(s: u32) -> u8
    ensures value { result ≡ ssl s }
    ensures range { result < 33 }
{
    (32 - s % 32) as u8
}

/// SSA8L: the SAR that aligns bytes of the least address first; 0, 8, 16 or 24.
#[tactic(auto, unfolding(crate::specs::Shifts::ssa8l))]
#[inline(always)]
pub fn ssa8l(s: u32) -> u8
    ensures value { result ≡ ssa8l s }
    ensures range { result < 25 }
{
    (8 * (s % 4)) as u8
}

/// SSA8B: the SAR that aligns bytes of the greatest address first; 32, 24, 16 or 8.
#[tactic(auto, unfolding(crate::specs::Shifts::ssa8b))]
#[inline(always)]
pub fn ssa8b(s: u32) -> u8
    ensures value { result ≡ ssa8b s }
    ensures range { result < 33 }
{
    (32 - 8 * (s % 4)) as u8
}
