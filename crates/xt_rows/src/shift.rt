ghost use Rattle.std.specs.Prelude.{◌≡◌, ℕ, ◌<◌, ◌≤◌, true};
ghost use Rattle.xt_isa.specs.Ranges.{natural_within, shift_in_range};
ghost use Rattle.xt_isa.specs.declared.shift.Shift.TheVariants as shift;
ghost use Rattle.xt_rows.specs.Numbers.{natural};
ghost use Rattle.xt_rows.specs.Outcomes.{sets_sar, shift_outcome};

use crate::effects::{puts, sets_special};
use crate::numbers::natural;
use crate::outcome::{Effect, Outcome, WindowStep};
use xt_isa::shift::{
    AmountName, ByteAmountName, NormalizeName, Shift, ShiftRightName, SignName, SignedName,
};
use xt_special::number;
use xt_word::shifts::{extui, sll, slli, sra, srai, srl, srli, ssa8b, ssa8l, ssl, ssr};
use xt_word::unary::{abs, clamps, neg, nsa, nsau, sext};

// An operand within a range of numbers below 256.
#[tactic(auto, unfolding(crate::specs::Numbers::natural, xt_isa::specs::Ranges::natural_within))]
#[inline(always)]
pub fn within(n: i32, first: u8, last: u8) -> u8
    requires { natural_within first last n ≡ true }
    ensures value { result ≡ natural n }
    ensures low { first ≤ result }
    ensures high { result ≤ last }
{
    natural(n) as u8
}

#[inline(always)]
fn sets_sar(amount: u32, e: Effect) -> Outcome
    ensures { result ≡ sets_sar amount e }
{
    sets_special(number::SAR, amount, e)
}

#[tactic(auto, unfolding(crate::specs::Outcomes::shift_outcome))]
#[inline(always)]
fn negated(name: SignName, r: u8, x: u32, e: Effect) -> Outcome
    ensures { (t u : ℕ) → result ≡ shift_outcome (shift.Sign name r t) x u e }
{
    match name {
        SignName::Neg => puts(r, neg(x), e),
        SignName::Abs => puts(r, abs(x), e),
    }
}

#[tactic(auto, unfolding(crate::specs::Outcomes::shift_outcome))]
#[inline(always)]
fn shifted_right(name: ShiftRightName, r: u8, x: u32, sar: u8, e: Effect) -> Outcome
    requires { sar < 64 }
    ensures { (t : ℕ) → result ≡ shift_outcome (shift.ShiftRight name r t) x sar e }
{
    match name {
        ShiftRightName::Srl => puts(r, srl(x, sar), e),
        ShiftRightName::Sra => puts(r, sra(x, sar), e),
    }
}

#[tactic(auto, unfolding(crate::specs::Outcomes::shift_outcome))]
#[inline(always)]
fn sign_extended(name: SignedName, r: u8, x: u32, b: i32, e: Effect) -> Outcome
    requires { natural_within 7 22 b ≡ true }
    ensures { (s u : ℕ) → result ≡ shift_outcome (shift.Signed name r s b) x u e }
{
    match name {
        SignedName::Sext => puts(r, sext(x, within(b, 7, 22)), e),
        SignedName::Clamps => puts(r, clamps(x, within(b, 7, 22)), e),
    }
}

#[tactic(auto, unfolding(crate::specs::Outcomes::shift_outcome))]
#[inline(always)]
fn leading_bits(name: NormalizeName, t: u8, x: u32, e: Effect) -> Outcome
    ensures { (s u : ℕ) → result ≡ shift_outcome (shift.Normalize name t s) x u e }
{
    match name {
        NormalizeName::Nsa => puts(t, nsa(x), e),
        NormalizeName::Nsau => puts(t, nsau(x), e),
    }
}

#[tactic(auto, unfolding(crate::specs::Outcomes::shift_outcome))]
#[inline(always)]
fn sets_amount(name: AmountName, x: u32, e: Effect) -> Outcome
    ensures { (s u : ℕ) → result ≡ shift_outcome (shift.Amount name s) x u e }
{
    match name {
        AmountName::Ssr => sets_sar(ssr(x) as u32, e),
        AmountName::Ssl => sets_sar(ssl(x) as u32, e),
    }
}

#[tactic(auto, unfolding(crate::specs::Outcomes::shift_outcome))]
#[inline(always)]
fn sets_byte_amount(name: ByteAmountName, x: u32, e: Effect) -> Outcome
    ensures { (s u : ℕ) → result ≡ shift_outcome (shift.ByteAmount name s) x u e }
{
    match name {
        ByteAmountName::Ssa8l => sets_sar(ssa8l(x) as u32, e),
        ByteAmountName::Ssa8b => sets_sar(ssa8b(x) as u32, e),
    }
}

/// What a shift or an instruction of one source does, where the source and SAR are these.
#[tactic(auto, unfolding(crate::specs::Outcomes::shift_outcome))]
#[inline(always)]
pub fn shift_outcome<U>(i: Shift, x: u32, u: u32, e: Effect) -> Outcome
    requires range { shift_in_range i ≡ true }
    requires sar { u < 64 }
    ensures { result ≡ shift_outcome i x u e }
{
    match i {
        Shift::Sign(name, r, _) => negated(name, r, x, e),
        Shift::ShiftRight(name, r, _) => shifted_right(name, r, x, u as u8, e),
        Shift::Sll(r, _) => puts(r, sll(x, u as u8), e),
        Shift::Slli(r, _, n) => puts(r, slli(x, within(n, 1, 31)), e),
        Shift::Srai(r, _, n) => puts(r, srai(x, within(n, 0, 31)), e),
        Shift::Srli(r, _, n) => puts(r, srli(x, within(n, 0, 15)), e),
        Shift::Extui(r, _, n, width) => {
            puts(r, extui(x, within(n, 0, 31), within(width, 1, 16)), e)
        }
        Shift::Signed(name, r, _, b) => sign_extended(name, r, x, b, e),
        Shift::Normalize(name, t, _) => leading_bits(name, t, x, e),
        Shift::Movsp(t, _) => Outcome::Windowed(WindowStep::MovesStack(t, x)),
        Shift::Amount(name, _) => sets_amount(name, x, e),
        Shift::ByteAmount(name, _) => sets_byte_amount(name, x, e),
        Shift::Ssai(n) => sets_sar(natural(n), e),
    }
}
