//! Which bytes an access touches: live ones and stale ones.
ghost use Rattle.std.specs.Prelude.{◌≡◌, ◌+◌, ◌<◌, ◌^◌, ℕ, true, false, option_copied};
ghost use Rattle.xt_map.specs.Touching.{is_store, touches};
ghost use Rattle.xt_frames.specs.Breaches.{loads_stale, some_byte, stores_at, touches_save_area};
ghost use Rattle.xt_discipline.specs.Sides.{in_areas};
ghost use Rattle.xt_judged.specs.Lives.{is_live_in};
ghost use Rattle.xt_judged.specs.Past.{in_call, is_spared};
ghost use Rattle.xt_judged.specs.Stales.{among};

use crate::live::{is_live, may_be_live, touches};
use crate::stale::Stale;
use xt_discipline::Areas;
use xt_frames::Frames;
use xt_map::{Access, Kind};

/// Whether a byte lies in a live save area of either core, or of one, if the other is not looked at.
pub fn is_live_in(own: &Frames, other: Option<&Frames>, addr: u64) -> bool
    ensures { result ≡ is_live_in own.now (option_copied other.entry) addr }
{
    if is_live(own, addr) {
        return true;
    }
    match other {
        Some(other) => is_live(other, addr),
        None => false,
    }
}

/// Whether some of so many bytes may lie in a live save area of either core, or of one, if the other is not
/// looked at; false: none does.
pub fn may_be_live_in(own: &Frames, other: Option<&Frames>, from: u64, size: u64) -> bool
    requires { from + size < 2 ^ 64 }
    ensures { result ≡ false → (a : ℕ) → touches from size a ≡ true → is_live_in own.now (option_copied other.entry) a ≡ false }
{
    if may_be_live(own, from, size) {
        return true;
    }
    match other {
        Some(other) => may_be_live(other, from, size),
        None => false,
    }
}

// Whether one of these bytes is live.
fn some_live(own: &Frames, other: Option<&Frames>, addr: u64, size: u64) -> bool
    requires { addr + size < 2 ^ 64 }
    ensures { result ≡ some_byte (is_live_in own.now (option_copied other.entry)) addr size }
{
    if !may_be_live_in(own, other, addr, size) {
        return false;
    }
    for k in 0..size {
        if is_live_in(own, other, addr + k) {
            return true;
        }
    }
    false
}

// Whether one of these bytes is stale.
fn some_stale(stale: &Stale, addr: u64, size: u64) -> bool
    requires { addr + size < 2 ^ 64 }
    ensures { result ≡ some_byte (among stale.now) addr size }
{
    for k in 0..size {
        if stale.has(addr + k) {
            return true;
        }
    }
    false
}

/// Whether a store or S32C1I touches a live save area of either core.
pub fn saves(own: &Frames, other: Option<&Frames>, access: Option<Access>) -> bool
    ensures { touches_save_area (is_live_in own.now (option_copied other.entry)) access ≡ result }
{
    match access {
        Some(access) => match access.kind {
            Kind::Load => false,
            _ => some_live(own, other, u64::from(access.addr), u64::from(access.size)),
        },
        None => false,
    }
}

/// Whether a load or S32C1I touches a stale byte, or a load a live save area of either core.
pub fn loads(own: &Frames, other: Option<&Frames>, stale: &Stale, access: Option<Access>) -> bool
    ensures { loads_stale (is_live_in own.now (option_copied other.entry)) (among stale.now) access ≡ result }
{
    match access {
        Some(access) => match access.kind {
            Kind::Store(_) => false,
            Kind::Load => {
                let addr = u64::from(access.addr);
                let size = u64::from(access.size);
                some_stale(stale, addr, size) || some_live(own, other, addr, size)
            }
            Kind::Cas(_, _) => some_stale(stale, u64::from(access.addr), u64::from(access.size)),
        },
        None => false,
    }
}

// Whether an access is a store.
fn is_store(kind: Kind) -> bool
    ensures { result ≡ is_store kind }
{
    matches!(kind, Kind::Store(_))
}

/// Whether a store writes a byte.
pub fn stores_at(access: Option<Access>, addr: u32) -> bool
    ensures { result ≡ stores_at access addr }
{
    match access {
        Some(access) => {
            is_store(access.kind)
                && touches(
                    u64::from(access.addr),
                    u64::from(access.size),
                    u64::from(addr),
                )
        }
        None => false,
    }
}

// Whether a byte lies in one of the areas of a call.
fn in_areas(areas: Areas, addr: u64) -> bool
    ensures { result ≡ in_areas areas addr }
{
    touches(u64::from(areas.low), 16, addr)
        || touches(u64::from(areas.high), u64::from(areas.size), addr)
}

// Whether a byte lies in an area of a call, if there is one.
fn in_call(call: Option<Areas>, addr: u32) -> bool
    ensures { result ≡ in_call call addr }
{
    match call {
        Some(areas) => in_areas(areas, u64::from(addr)),
        None => false,
    }
}

/// Whether no store writes a byte, and it lies in no area of a call.
pub fn is_spared(access: Option<Access>, call: Option<Areas>, addr: u32) -> bool
    ensures { result ≡ is_spared access call addr }
{
    !stores_at(access, addr) && !in_call(call, addr)
}
