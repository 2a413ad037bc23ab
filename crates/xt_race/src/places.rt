//! The bytes of the memory regions, in a row.
ghost use Rattle.std.specs.Prelude.{◌≡◌, ◌<◌, IfSome};
ghost use Rattle.xt_map.specs.Regions.{is_memory, region_of};
ghost use Rattle.xt_race.specs.Tables.{place_of};

/// The place of an address among the bytes of the memory regions, if it is one of them.
#[tactic(auto, unfolding(crate::specs::Tables::place_of))]
pub fn place_of(addr: u64) -> Option<usize>
    ensures place { result ≡ place_of addr }
    ensures small { IfSome result (λ p. p < 0x56000) }
{
    match addr {
        0x3FF8_0000..=0x3FF8_1FFF => Some((addr - 0x3FF8_0000) as usize),
        0x3FFA_E000..=0x3FFF_FFFF => Some((addr - 0x3FFA_E000 + 0x2000) as usize),
        0x5000_0000..=0x5000_1FFF => Some((addr - 0x5000_0000 + 0x54000) as usize),
        _ => None,
    }
}

/// Whether an address is one of the memory regions.
pub fn is_in_memory(addr: u64) -> bool
    ensures { result ≡ is_memory (region_of addr) }
{
    match place_of(addr) {
        Some(_place) => true,
        None => false,
    }
}
