//! Which list of bytes an address lies in.
ghost use Rattle.xt_bus.specs.Places.{IsPlaceOf};

/// A memory region and a place in its list of bytes, or no memory region.
#[derive(Clone, Copy)]
pub(crate) enum Place {
    RtcFastData(usize),
    Dram(usize),
    RtcSlow(usize),
    Outside,
}

/// The place of an address.
#[tactic(auto, unfolding(xt_map::specs::Regions::region_of))]
pub(crate) fn place_of(addr: u64) -> Place
    ensures { IsPlaceOf addr result }
{
    match addr {
        0x3FFAE000..=0x3FFFFFFF => Place::Dram((addr - 0x3FFAE000) as usize),
        0x3FF80000..=0x3FF81FFF => Place::RtcFastData((addr - 0x3FF80000) as usize),
        0x50000000..=0x50001FFF => Place::RtcSlow((addr - 0x50000000) as usize),
        _ => Place::Outside,
    }
}
