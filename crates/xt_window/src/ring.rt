//! The bits of WINDOWSTART. A window is a number whose remainder by 16 is its WINDOWBASE.
#![tactic(auto)]

ghost use Rattle.std.specs.Prelude.{◌≡◌, ◌<◌, ◌≤◌};
ghost use Rattle.xt_window.specs.Ring.{bit, with_bit, without_bit, ahead, size_at};
ghost use Rattle.xt_window.specs.Moves.{behind};

/// Whether the bit of a window is set in WINDOWSTART.
#[tactic(auto, unfolding(crate::specs::Ring::bit))]
#[inline(always)]
pub fn bit(start: u16, window: u8) -> bool
    ensures { result ≡ bit start window }
{
    (start >> (window % 16)) % 2 == 1
}

/// WINDOWSTART with the bit of a window.
#[tactic(auto, unfolding(crate::specs::Ring::with_bit))]
#[inline(always)]
pub fn with_bit(start: u16, window: u8) -> u16
    ensures { result ≡ with_bit start window }
{
    start | 1 << (window % 16)
}

/// WINDOWSTART without the bit of a window.
#[tactic(auto, unfolding(crate::specs::Ring::without_bit))]
#[inline(always)]
pub fn without_bit(start: u16, window: u8) -> u16
    ensures { result ≡ without_bit start window }
{
    start & !(1 << (window % 16))
}

/// How far the nearest set bit is among the next `q` windows, or 0.
#[tactic(auto, unfolding(crate::specs::Ring::ahead))]
#[inline(always)]
pub(crate) fn ahead(start: u16, base: u8, q: u8) -> u8
    requires { base < 16 }
    ensures value { result ≡ ahead start base q }
    ensures range { result < 4 }
{
    if q >= 1 && bit(start, base + 1) {
        1
    } else if q >= 2 && bit(start, base + 2) {
        2
    } else if q >= 3 && bit(start, base + 3) {
        3
    } else {
        0
    }
}

/// By how many windows the frame in this window moved ahead when it called.
#[tactic(auto, unfolding(crate::specs::Ring::size_at))]
#[inline(always)]
pub(crate) fn size_at(start: u16, window: u8) -> u8
    requires { window < 32 }
    ensures value { result ≡ size_at start window }
    ensures low { 1 ≤ result }
    ensures high { result ≤ 3 }
{
    if bit(start, window + 1) {
        1
    } else if bit(start, window + 2) {
        2
    } else {
        3
    }
}

/// How far the nearest set bit is among the three windows behind, or 0.
#[tactic(auto, unfolding(crate::specs::Moves::behind))]
#[inline(always)]
pub(crate) fn behind(start: u16, base: u8) -> u8
    requires { base < 16 }
    ensures value { result ≡ behind start base }
    ensures range { result < 4 }
{
    if bit(start, base + 15) {
        1
    } else if bit(start, base + 14) {
        2
    } else if bit(start, base + 13) {
        3
    } else {
        0
    }
}
