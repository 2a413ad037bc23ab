ghost use Rattle.std.specs.Prelude.{◌≡◌, ◌+◌, ◌<◌, ◌^◌, true};
ghost use Rattle.xt_map.specs.Regions.{is_constant, is_executable, region_of};

use crate::lookup::region;
use crate::regions::Region;

/// The address of UART0 to which a store sends a byte.
pub const UART_TRANSMIT: u32 = 0x3FF4_0000;

/// The address of UART0's status, which is loaded as 0.
pub const UART_STATUS: u32 = 0x3FF4_001C;

/// Whether an address lies in an executable region, from which instructions are fetched.
#[tactic(auto, unfolding(crate::specs::Regions::region_of))]
#[inline(always)]
pub fn can_execute_at(addr: u32) -> bool
    ensures test { result ≡ is_executable (region_of addr) }
    ensures small { result ≡ true → addr + 4 < 2 ^ 32 }
{
    match region(addr) {
        Some(Region::Iram | Region::RtcFastCode | Region::Irom) => true,
        _ => false,
    }
}

/// Whether an address lies in a constant region, which is never written.
#[tactic(auto, unfolding(crate::specs::Regions::region_of))]
#[inline(always)]
pub fn is_constant_at(addr: u32) -> bool
    ensures test { result ≡ is_constant (region_of addr) }
    ensures small { result ≡ true → addr + 4 < 2 ^ 32 }
{
    match region(addr) {
        Some(Region::Drom | Region::Iram | Region::RtcFastCode | Region::Irom) => true,
        _ => false,
    }
}
