//! Whether a record's access touches live save areas or stale bytes.
#![tactic(auto)]

ghost use Rattle.std.specs.Prelude.{◌≡◌, ◌+◌, ◌<◌, ◌^◌, ℕ, Bool};
ghost use Rattle.xt_frames.specs.Breaches.{loads_stale, some_byte, touches_save_area};
ghost use Rattle.xt_discipline.specs.ByteMarks.{Agrees, either, held_at, is_held};

use crate::bytes::{Held, held_at};
use xt_map::{Access, Kind};

/// Whether one of the bytes lies in a live save area.
fn some_live(marks: &[Held], addr: u64, size: u64) -> bool
    requires { addr + size < 2 ^ 64 }
    ensures { result ≡ some_byte (λ a. is_held (held_at marks.now a)) addr size }
{
    for k in 0..size {
        let held = held_at(marks, addr + k);
        if held.live0 || held.live1 {
            return true;
        }
    }
    false
}

/// Whether one of the bytes is stale.
fn some_stale(marks: &[Held], addr: u64, size: u64) -> bool
    requires { addr + size < 2 ^ 64 }
    ensures { result ≡ some_byte (λ a. (held_at marks.now a).stale) addr size }
{
    for k in 0..size {
        if held_at(marks, addr + k).stale {
            return true;
        }
    }
    false
}

/// Whether a store or S32C1I touches a live save area of either core.
pub fn saves(marks: &[Held], access: Option<Access>) -> bool
    ensures { (live0 live1 stale : ℕ → Bool) → Agrees marks.now live0 live1 stale → touches_save_area (either live0 live1) access ≡ result }
{
    match access {
        Some(access) => match access.kind {
            Kind::Load => false,
            _ => some_live(marks, u64::from(access.addr), u64::from(access.size)),
        },
        None => false,
    }
}

/// Whether a load or S32C1I touches a stale byte, or a load a live save area of either core.
pub fn loads(marks: &[Held], access: Option<Access>) -> bool
    ensures { (live0 live1 stale : ℕ → Bool) → Agrees marks.now live0 live1 stale → loads_stale (either live0 live1) stale access ≡ result }
{
    match access {
        Some(access) => match access.kind {
            Kind::Store(_) => false,
            Kind::Load => {
                some_stale(marks, u64::from(access.addr), u64::from(access.size))
                    || some_live(marks, u64::from(access.addr), u64::from(access.size))
            }
            Kind::Cas(_, _) => some_stale(marks, u64::from(access.addr), u64::from(access.size)),
        },
        None => false,
    }
}
