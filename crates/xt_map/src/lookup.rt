ghost use Rattle.std.specs.Prelude.{◌≡◌};
ghost use Rattle.xt_map.specs.Regions.{region_of};

use crate::regions::Region;

/// The region that an address lies in, or none outside the memory map.
#[tactic(auto, unfolding(crate::specs::Regions::region_of))]
#[inline(always)]
pub fn region(addr: u32) -> Option<Region>
    ensures { result ≡ region_of addr }
{
    match addr {
        0x3F400000..=0x3F7FFFFF => Some(Region::Drom),
        0x3FF40000 | 0x3FF4001C => Some(Region::Uart),
        0x3FF80000..=0x3FF81FFF => Some(Region::RtcFastData),
        0x3FFAE000..=0x3FFFFFFF => Some(Region::Dram),
        0x40070000..=0x4009FFFF => Some(Region::Iram),
        0x400C0000..=0x400C1FFF => Some(Region::RtcFastCode),
        0x400D0000..=0x403FFFFF => Some(Region::Irom),
        0x50000000..=0x50001FFF => Some(Region::RtcSlow),
        _ => None,
    }
}
