//! What arms a timer, and what a turn leaves of the timers' bits.
ghost use Rattle.std.specs.Prelude.{◌≡◌, ◌<◌};
ghost use Rattle.xt_special.specs.Access.{timer_bit, without_bits};
ghost use Rattle.xt_special.specs.Numbers as numbers;
ghost use Rattle.xt_moments.specs.Moments.{armed_by, armed_by_write, interrupt_past};

use xt_isa::Insn;
use xt_isa::system::{SpecialName, System};
use xt_special::number;

/// The bits of INTERRUPT that the timers set: 6, 15 and 16.
pub const TIMER_BITS: u32 = 0x1_8040;

/// The bit of a timer in INTERRUPT.
///
/// Condition: `timer` is 0, 1 or 2.
#[tactic(auto, unfolding(xt_special::specs::Access::timer_bit))]
pub fn timer_bit(timer: u8) -> u32
    requires { timer < 3 }
    ensures { result ≡ timer_bit (numbers.ccompare timer) }
{
    match timer {
        0 => 1 << 6,
        1 => 1 << 15,
        _ => 1 << 16,
    }
}

// The bit whose timer a write of a special register arms, 0 if it arms none.
#[tactic(auto, unfolding(xt_special::specs::Access::timer_bit))]
fn armed_by_write(n: u8) -> u32
    ensures { result ≡ armed_by_write n }
{
    match n {
        240 => 1 << 6,
        241 => 1 << 15,
        242 => 1 << 16,
        _ => 0,
    }
}

/// The bit of INTERRUPT whose timer an instruction arms, 0 if it arms none: WSR and XSR of
/// CCOMPARE0 to CCOMPARE2.
pub fn armed_by(insn: Insn) -> u32
    ensures { result ≡ armed_by insn }
{
    match insn {
        Insn::System(System::Special(SpecialName::Wsr, _, n)) => armed_by_write(n),
        Insn::System(System::Special(SpecialName::Xsr, _, n)) => armed_by_write(n),
        _ => 0,
    }
}

/// A word without these bits.
#[tactic(auto, unfolding(xt_special::specs::Access::without_bits))]
pub(crate) fn without_bits(word: u32, bits: u32) -> u32
    ensures { result ≡ without_bits word bits }
{
    word & !bits
}

/// INTERRUPT after a turn that began with `before`, arms these timers and left `after`: the bits of
/// the timers are those that were set before and whose timers the turn does not arm.
pub fn interrupt_past(before: u32, armed: u32, after: u32) -> u32
    ensures { result ≡ interrupt_past before armed after }
{
    without_bits(after, TIMER_BITS) | without_bits(before & TIMER_BITS, armed)
}
