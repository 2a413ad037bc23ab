//! What is known of each byte of memory.
#![tactic(auto)]

ghost use Rattle.std.specs.Prelude.{◌≡◌, ◌≤◌, ◌<◌, ◌==◌, ◌||◌, ℕ, true, not, if◌then◌else◌, IfOk, IfSome};
ghost use Rattle.xt_map.specs.Regions.{is_mapped};
ghost use Rattle.xt_map.specs.Touching.{touches};
ghost use Rattle.xt_frames.specs.Breaches.{some_byte};
ghost use Rattle.xt_use_walk.specs.MaskedBytes.{AreBytes, AreMasks, IsFull, mask_at};
ghost use Rattle.xt_simulation.specs.FirstLeak.{stores_hidden};
ghost use Rattle.xt_simulation.specs.SecretBytes.{bytes_past, opening_bytes};
ghost use Rattle.xt_simulation.specs.WatchedRuns.{has_byte_at};
ghost use Rattle.xt_secret_walk.specs.KnownBytes.{KnowsBytes, address_at, is_hidden_byte, stored_in_bytes};

use std::alloc::{AllocError, Global};
use xt_map::{Access, Kind, is_in_memory};
use xt_use_walk::{ByteMasks, stored_byte};

/// How many bytes the three memory regions have.
const BYTES: u32 = 0x5_6000;

/// The address of the byte at a place.
fn address(place: u32) -> u32
    requires { place < 0x56000 }
    ensures { result ≡ address_at place }
{
    if 0x5_4000 <= place {
        place - 0x5_4000 + 0x5000_0000
    } else if 0x2000 <= place {
        place - 0x2000 + 0x3FFA_E000
    } else {
        place + 0x3FF8_0000
    }
}

/// Whether so many bytes from an address on have a byte at this address.
#[inline(always)]
fn touches(first: u32, count: u32, addr: u32) -> bool
    ensures { result ≡ touches first count addr }
{
    first <= addr && addr - first < count
}

/// Whether one of these ranges, each its first address and how many bytes it has, has a byte at
/// this address.
fn has_byte_at(ranges: &[(u32, u32)], addr: u32) -> bool
    ensures { result ≡ has_byte_at ranges.now addr }
{
    for range in ranges {
        if touches(range.0, range.1, addr) {
            return true;
        }
    }
    false
}

/// The mask of a byte as a run begins.
fn opening_mask(secret: &[(u32, u32)], public: &[(u32, u32)], addr: u32) -> u8
    ensures { result ≡ opening_bytes (has_byte_at secret.now) (has_byte_at public.now) addr }
{
    if has_byte_at(secret, addr) && !has_byte_at(public, addr) {
        0
    } else {
        0xFF
    }
}

/// Whether one of two holds.
#[inline(always)]
pub fn is_either(a: bool, b: bool) -> bool
    ensures { result ≡ (a || b) }
{
    a || b
}

/// The mask that a byte gets if a value with this mask is stored: a public byte is known.
fn kept_byte(public: &[(u32, u32)], addr: u32, mask: u8) -> u8
    ensures { result ≡ (if not (has_byte_at public.now addr || mask == 255) then mask else 255) }
{
    if mask == 0xFF {
        return 0xFF;
    }
    if has_byte_at(public, addr) {
        0xFF
    } else {
        mask
    }
}

/// As a run begins: nothing is known of the secret bytes that are not public, and all else is.
/// The only error is running out of memory.
pub fn open_masks(
    alloc: Global,
    secret: &[(u32, u32)],
    public: &[(u32, u32)],
) -> Result<ByteMasks, AllocError>
    ensures { IfOk result (λ m. KnowsBytes m (has_byte_at public.now) (opening_bytes (has_byte_at secret.now) (has_byte_at public.now))) }
{
    let mut masks = Vec::with_capacity(alloc, BYTES as usize)?;
    for place in 0..BYTES {
        masks.push(opening_mask(secret, public, address(place)))?;
    }
    Ok(ByteMasks { masks })
}

/// So many bytes of memory from an address on get what is known of a value that is stored, and
/// public ones are known: whether one is left with a bit that is not known.
fn store_bytes(
    masks: &mut ByteMasks,
    public: &[(u32, u32)],
    addr: u32,
    size: u32,
    stored: u32,
) -> bool
    requires full { IsFull masks.old }
    requires bytes { AreBytes addr size }
    requires size { size ≤ 4 }
    ensures full { IsFull masks.new }
    ensures masks { AreMasks masks.new (stored_in_bytes (has_byte_at public.now) stored addr size (mask_at masks.old)) }
    ensures hides { result ≡ some_byte (is_hidden_byte (has_byte_at public.now) stored addr) addr size }
{
    let mut hides = false;
    for k in 0..size {
        let mask = kept_byte(public, addr + k, stored_byte(stored, k));
        masks.put(addr + k, mask);
        hides = is_either(hides, mask != 0xFF);
    }
    hides
}

/// After a turn with this access, which stores what is known in this mask: whether it leaves a
/// byte that is not public with a bit that is not known.
#[inline(always)]
pub fn store(
    masks: &mut ByteMasks,
    public: &[(u32, u32)],
    access: Option<Access>,
    stored: u32,
) -> bool
    requires full { IsFull masks.old }
    requires served { IfSome access (λ a. is_mapped a ≡ true) }
    ensures bytes { (known : ℕ → ℕ) → KnowsBytes masks.old (has_byte_at public.now) known
        → KnowsBytes masks.new (has_byte_at public.now) (bytes_past (has_byte_at public.now) stored access known) }
    ensures hides { result ≡ stores_hidden (has_byte_at public.now) stored access }
{
    let Some(a) = access else {
        return false;
    };
    match a.kind {
        Kind::Store(_) => {
            if is_in_memory(a.addr) {
                store_bytes(masks, public, a.addr, u32::from(a.size), stored)
            } else {
                false
            }
        }
        Kind::Load => false,
        Kind::Cas(_, _) => false,
    }
}
