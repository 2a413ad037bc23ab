//! Products, quotients and remainders.
#![tactic(auto)]

ghost use Rattle.std.specs.Prelude.{◌≡◌, ◌≢◌};
ghost use Rattle.xt_word.specs.Arithmetic.{mul16u, mul16s, mull, muluh, mulsh, quou, quos, remu, rems};

/// MUL16U: the product of the low halves.
#[tactic(auto, unfolding(crate::specs::Arithmetic::mul16u))]
#[inline(always)]
pub fn mul16u(s: u32, t: u32) -> u32
    ensures { result ≡ mul16u s t }
{
    (s % (1 << 16)) * (t % (1 << 16))
}

/// MUL16S: the product of the low halves, as signed numbers.
#[tactic(auto, unfolding(crate::specs::Arithmetic::mul16s))]
#[inline(always)]
pub fn mul16s(s: u32, t: u32) -> u32
    ensures { result ≡ mul16s s t }
{
    let s = ((s % (1 << 16)) as u16).cast_signed();
    let t = ((t % (1 << 16)) as u16).cast_signed();
    (s as i32 * t as i32).cast_unsigned()
}

/// MULL: the low word of the product.
#[tactic(auto, unfolding(crate::specs::Arithmetic::mull))]
#[inline(always)]
pub fn mull(s: u32, t: u32) -> u32
    ensures { result ≡ mull s t }
{
    s.wrapping_mul(t)
}

/// MULUH: the high word of the product.
#[tactic(auto, unfolding(crate::specs::Arithmetic::muluh))]
#[inline(always)]
pub fn muluh(s: u32, t: u32) -> u32
    ensures { result ≡ muluh s t }
{
    ((s as u64 * t as u64) >> 32) as u32
}

/// MULSH: the high word of the product of two signed numbers.
#[tactic(auto, unfolding(crate::specs::Arithmetic::mulsh))]
#[inline(always)]
pub fn mulsh(s: u32, t: u32) -> u32
    ensures { result ≡ mulsh s t }
{
    let product = s.cast_signed() as i64 * t.cast_signed() as i64;
    ((product >> 32) as i32).cast_unsigned()
}

/// QUOU: the quotient of two unsigned numbers.
///
/// Condition: `t` is not zero.
#[tactic(auto, unfolding(crate::specs::Arithmetic::quou))]
#[inline(always)]
pub fn quou(s: u32, t: u32) -> u32
    requires { t ≢ 0 }
    ensures { result ≡ quou s t }
{
    s / t
}

/// QUOS: the quotient of two signed numbers, rounded toward zero; -2^31 by -1 gives 0x8000_0000.
///
/// Condition: `t` is not zero.
#[tactic(auto, unfolding(crate::specs::Arithmetic::quos))]
#[inline(always)]
pub fn quos(s: u32, t: u32) -> u32
    requires { t ≢ 0 }
    ensures { result ≡ quos s t }
{
    s.cast_signed()
        .wrapping_div(t.cast_signed())
        .cast_unsigned()
}

/// REMU: the remainder of two unsigned numbers.
///
/// Condition: `t` is not zero.
#[tactic(auto, unfolding(crate::specs::Arithmetic::remu))]
#[inline(always)]
pub fn remu(s: u32, t: u32) -> u32
    requires { t ≢ 0 }
    ensures { result ≡ remu s t }
{
    s % t
}

/// REMS: the remainder of two signed numbers, with the sign of the dividend; -2^31 by -1 gives 0.
///
/// Condition: `t` is not zero.
#[tactic(auto, unfolding(crate::specs::Arithmetic::rems))]
#[inline(always)]
pub fn rems(s: u32, t: u32) -> u32
    requires { t ≢ 0 }
    ensures { result ≡ rems s t }
{
    s.cast_signed()
        .wrapping_rem(t.cast_signed())
        .cast_unsigned()
}
