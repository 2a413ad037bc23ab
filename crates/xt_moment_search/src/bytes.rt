//! What memory holds, and which bits of it are not known.
ghost use Rattle.std.specs.Prelude.{◌≡◌, ◌*◌, ◌<◌, ◌%◌, ◌^◌, ℕ, Some, true, OnOk};
ghost use Rattle.xt_map.specs.Memory.{HasSizes};
ghost use Rattle.xt_map.specs.Regions.{is_mapped, is_size};
ghost use Rattle.xt_map.specs.Touching.{IsMemory};
ghost use Rattle.xt_map.specs.declared.access.Kind.TheVariants as kinds;
ghost use Rattle.xt_trace.specs.Worlds.{memory_left};
ghost use Rattle.xt_search.specs.Changed.{contents_of};
ghost use Rattle.xt_exec.specs.TurnLaws.{IsServed};
ghost use Rattle.xt_use_walk.specs.MaskedBytes.{is_byte};
ghost use Rattle.xt_uses.specs.UseStep.{reply_mask};
ghost use Rattle.xt_simulation.specs.SecretBytes.{mask_stored};
ghost use Rattle.xt_moment_search.specs.KnownCores.{known_byte, read_mask};

use std::alloc::AllocError;
use xt_bus::Memory;
use xt_map::{Access, Kind, is_in_memory};
use xt_search::Changes;
use xt_uses::ALL_BITS;

/// What memory holds, and which bits of it are not known: both as bytes that differ from others, the one from those with
/// which memory opened, the other from 0.
#[derive(Drop)]
pub struct Bytes {
    pub held: Changes,
    pub hidden: Changes,
}

// The value without what an access of this size does not store.
fn low_bytes(size: u8, value: u32) -> u32
    requires { is_size size ≡ true }
    ensures { result ≡ value % 2 ^ (8 * size) }
{
    match size {
        1 => value % 0x100,
        2 => value % 0x1_0000,
        _ => value,
    }
}

// The same access, which stores this value.
fn storing(access: Access, value: u32) -> Access
    requires { is_mapped access ≡ true }
    ensures access { result ≡ record { addr = access.addr; size = access.size; kind = kinds.Store (value % 2 ^ (8 * access.size)) } }
    ensures mapped { is_mapped result ≡ true }
{
    Access {
        addr: access.addr,
        size: access.size,
        kind: Kind::Store(low_bytes(access.size, value)),
    }
}

// The mask of what an access reads.
fn read_mask(hidden: &Changes, cleared: &Memory, access: Access) -> u32
    requires sizes { HasSizes cleared.now.contents }
    requires served { is_mapped access ≡ true }
    ensures { IsMemory (contents_of cleared.now.contents hidden.now) → result ≡ read_mask (known_byte cleared.now.contents hidden.now) access }
{
    if !is_in_memory(access.addr) {
        return ALL_BITS;
    }
    hidden.number(cleared, access.addr, access.size) ^ ALL_BITS
}

/// The mask of the reply to an access.
pub fn reply_mask(hidden: &Changes, cleared: &Memory, access: Option<Access>) -> u32
    requires sizes { HasSizes cleared.now.contents }
    requires served { IsServed access }
    ensures { IsMemory (contents_of cleared.now.contents hidden.now) → result ≡ reply_mask (known_byte cleared.now.contents hidden.now) access }
{
    let Some(access) = access else {
        return ALL_BITS;
    };
    match access.kind {
        Kind::Store(_) => ALL_BITS,
        Kind::Load => read_mask(hidden, cleared, access),
        Kind::Cas(_, _) => read_mask(hidden, cleared, access),
    }
}

// A store to memory stores what is known in this mask. The only error is running out of memory.
fn hide(
    hidden: &mut Changes,
    cleared: &Memory,
    access: Access,
    stored: u32,
) -> Result<(), AllocError>
    requires sizes { HasSizes cleared.now.contents }
    requires served { is_mapped access ≡ true }
    ensures bytes { OnOk result ((a : ℕ) → is_byte a ≡ true → known_byte cleared.now.contents hidden.new a ≡ mask_stored stored (Some access) (known_byte cleared.now.contents hidden.old) a) }
    ensures memory { OnOk result (IsMemory (contents_of cleared.now.contents hidden.old) → IsMemory (contents_of cleared.now.contents hidden.new)) }
{
    if let Kind::Store(_) = access.kind {
        if is_in_memory(access.addr) {
            hidden.serve(cleared, storing(access, stored ^ ALL_BITS))?;
        }
    }
    Ok(())
}

/// Serves an access, which stores what is known in this mask. The only error is running out of
/// memory.
pub fn serve(
    bytes: &mut Bytes,
    opening: &Memory,
    cleared: &Memory,
    access: Option<Access>,
    stored: u32,
) -> Result<(), AllocError>
    requires sizes { HasSizes opening.now.contents }
    requires clear_sizes { HasSizes cleared.now.contents }
    requires served { IsServed access }
    ensures held { OnOk result (contents_of opening.now.contents bytes.new.held ≡ memory_left access (contents_of opening.now.contents bytes.old.held)) }
    ensures hidden { OnOk result ((a : ℕ) → is_byte a ≡ true → known_byte cleared.now.contents bytes.new.hidden a ≡ mask_stored stored access (known_byte cleared.now.contents bytes.old.hidden) a) }
    ensures memory { OnOk result (IsMemory (contents_of cleared.now.contents bytes.old.hidden) → IsMemory (contents_of cleared.now.contents bytes.new.hidden)) }
{
    if let Some(access) = access {
        bytes.held.serve(opening, access)?;
        hide(&mut bytes.hidden, cleared, access, stored)?;
    }
    Ok(())
}
