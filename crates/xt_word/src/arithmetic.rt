//! Sums, differences, bitwise operations, and the lesser and the greater of two words.
#![tactic(auto)]

ghost use Rattle.std.specs.Prelude.{◌≡◌, ◌<◌, bit_and, bit_or, bit_xor, min, max};
ghost use Rattle.xt_word.specs.Arithmetic.{addx, subx, signed_min, signed_max};

/// ADD, ADDX2, ADDX4, ADDX8: `s` times 2^k plus `t`, modulo 2^32.
///
/// Condition: `k` is below 4.
#[tactic(auto, unfolding(crate::specs::Arithmetic::addx))]
#[inline(always)]
pub fn addx(s: u32, t: u32, k: u8) -> u32
    requires { k < 4 }
    ensures { result ≡ addx s t k }
{
    (((s as u64) * (1u64 << k) + t as u64) % (1u64 << 32)) as u32
}

/// SUB, SUBX2, SUBX4, SUBX8: `s` times 2^k minus `t`, modulo 2^32.
///
/// Condition: `k` is below 4.
#[tactic(auto, unfolding(crate::specs::Arithmetic::subx))]
#[inline(always)]
pub fn subx(s: u32, t: u32, k: u8) -> u32
    requires { k < 4 }
    ensures { result ≡ subx s t k }
{
    (((s as u64) * (1u64 << k) + ((1u64 << 32) - t as u64)) % (1u64 << 32)) as u32
}

/// AND.
#[inline(always)]
pub fn bit_and(s: u32, t: u32) -> u32
    ensures { result ≡ bit_and s t }
{
    s & t
}

/// OR.
#[inline(always)]
pub fn bit_or(s: u32, t: u32) -> u32
    ensures { result ≡ bit_or s t }
{
    s | t
}

/// XOR.
#[inline(always)]
pub fn bit_xor(s: u32, t: u32) -> u32
    ensures { result ≡ bit_xor s t }
{
    s ^ t
}

/// MIN: the lesser of two signed numbers.
#[tactic(auto, unfolding(crate::specs::Arithmetic::signed_min))]
#[inline(always)]
pub fn min(s: u32, t: u32) -> u32
    ensures { result ≡ signed_min s t }
{
    if s.cast_signed() < t.cast_signed() {
        s
    } else {
        t
    }
}

/// MAX: the greater of two signed numbers.
#[tactic(auto, unfolding(crate::specs::Arithmetic::signed_max))]
#[inline(always)]
pub fn max(s: u32, t: u32) -> u32
    ensures { result ≡ signed_max s t }
{
    let is_less = s.cast_signed() < t.cast_signed();
    if is_less { t } else { s }
}

/// MINU: the lesser of two unsigned numbers.
#[inline(always)]
pub fn minu(s: u32, t: u32) -> u32
    ensures { result ≡ min s t }
{
    s.min(t)
}

/// MAXU: the greater of two unsigned numbers.
#[inline(always)]
pub fn maxu(s: u32, t: u32) -> u32
    ensures { result ≡ max s t }
{
    s.max(t)
}
