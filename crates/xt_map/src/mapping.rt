ghost use Rattle.std.specs.Prelude.{◌≡◌, ◌≤◌};
ghost use Rattle.xt_map.specs.Regions.{is_mapped, is_memory, is_uart, region_of, kind_fits, uart_takes};

use crate::access::{Access, Kind};
use crate::lookup::region;
use crate::region_kinds::{UART_STATUS, UART_TRANSMIT};
use crate::regions::Region;

// A stored value has no more bytes than the access, and a compare-and-swap is of a word.
#[inline(always)]
fn does_kind_fit(kind: Kind, size: u8) -> bool
    requires { size ≤ 4 }
    ensures { result ≡ kind_fits kind size }
{
    match kind {
        Kind::Load => true,
        Kind::Store(value) => (value as u64) < 1 << (8 * size),
        Kind::Cas(_, _) => size == 4,
    }
}

#[inline(always)]
fn does_uart_take(kind: Kind) -> bool
    ensures { result ≡ uart_takes kind }
{
    match kind {
        Kind::Load | Kind::Store(_) => true,
        Kind::Cas(_, _) => false,
    }
}

/// Whether an address lies in a region of memory that can be stored to.
#[inline(always)]
pub fn is_in_memory(addr: u32) -> bool
    ensures { result ≡ is_memory (region_of addr) }
{
    match region(addr) {
        Some(Region::RtcFastData | Region::Dram | Region::RtcSlow) => true,
        _ => false,
    }
}

/// Whether the bus serves an access: an aligned load, store or compare-and-swap of 1, 2 or 4 bytes
/// (4 for a compare-and-swap) in a memory region, or a load or store at one of the two addresses
/// of UART0, with a stored value that fits the size.
#[inline(always)]
pub fn mapped(a: &Access) -> bool
    ensures { result ≡ is_mapped a.now }
{
    let size = a.size;
    if size != 1 && size != 2 && size != 4 {
        return false;
    }
    let is_uart = a.addr == UART_TRANSMIT || a.addr == UART_STATUS;
    does_kind_fit(a.kind, size)
        && ((is_in_memory(a.addr) && a.addr % size as u32 == 0)
            || (is_uart && does_uart_take(a.kind)))
}
