//! The conditions of branches.
#![tactic(auto)]

ghost use Rattle.std.specs.Prelude.{◌≡◌};
ghost use Rattle.xt_word.specs.Conditions.{holds};

/// A condition on two words. The branches with a zero and the conditional moves take it with zero as the second word.
#[derive(Clone, Copy)]
pub enum Cond {
    /// The words are equal.
    Eq,
    Ne,
    /// The first is less, as signed numbers.
    Lt,
    Ge,
    /// The first is less, as unsigned numbers.
    Ltu,
    Geu,
    /// No bit is set in both.
    NoBits,
    AnyBits,
    /// All bits of the second are set in the first.
    AllBits,
    NotAllBits,
    /// The bit of the first whose number is the second modulo 32 is clear.
    BitClear,
    BitSet,
}

/// Whether the condition holds of `s` and `t`.
#[tactic(auto, unfolding(crate::specs::Conditions::holds))]
#[inline(always)]
pub fn holds(c: Cond, s: u32, t: u32) -> bool
    ensures { result ≡ holds c s t }
{
    match c {
        Cond::Eq => s == t,
        Cond::Ne => s != t,
        Cond::Lt => s.cast_signed() < t.cast_signed(),
        Cond::Ge => s.cast_signed() >= t.cast_signed(),
        Cond::Ltu => s < t,
        Cond::Geu => s >= t,
        Cond::NoBits => s & t == 0,
        Cond::AnyBits => s & t != 0,
        Cond::AllBits => s & t == t,
        Cond::NotAllBits => s & t != t,
        Cond::BitClear => (s >> (t % 32)) % 2 == 0,
        Cond::BitSet => (s >> (t % 32)) % 2 == 1,
    }
}
