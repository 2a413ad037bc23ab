//! Accesses to bytes that lie in no live save area and are not stale, as most are.
#![tactic(auto)]

ghost use Rattle.std.specs.Prelude.{◌≡◌, ◌+◌, ◌<◌, ◌^◌, ℕ, true, length};
ghost use Rattle.xt_discipline.specs.ByteMarks.{held_at, nothing};
ghost use Rattle.xt_shadow.specs.Quiet.{IsPassedBy, IsQuiet};

use xt_discipline::{Held, held_at, loads, saves, store};
use xt_map::Access;

// Whether nothing is known of so many bytes.
#[inline(always)]
fn are_unknown(marks: &[Held], addr: u64, size: u64) -> bool
    requires { addr + size < 2 ^ 64 }
    ensures { result ≡ true → (k : ℕ) → k < size → held_at marks.now (addr + k) ≡ nothing }
{
    for k in 0..size {
        let held = held_at(marks, addr + k);
        if held.live0 || held.live1 || held.stale {
            return false;
        }
    }
    true
}

// Whether an access, if there is one, touches no byte of a live save area and none that is stale.
#[inline(always)]
fn is_quiet(marks: &[Held], access: Option<Access>) -> bool
    ensures { result ≡ true → IsQuiet marks.now access }
{
    match access {
        Some(access) => are_unknown(marks, u64::from(access.addr), u64::from(access.size)),
        None => true,
    }
}

/// Whether an access, if there is one, shows no breach. Then the marks follow it.
#[inline(always)]
pub fn passes(marks: &mut [Held], access: Option<Access>) -> bool
    ensures len { length marks.new ≡ length marks.old }
    ensures passed { result ≡ true → IsPassedBy marks.old marks.new access }
{
    if is_quiet(marks, access) {
        return true;
    }
    if saves(marks, access) || loads(marks, access) {
        return false;
    }
    store(marks, access);
    true
}
