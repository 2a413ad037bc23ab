ghost use Rattle.std.specs.Prelude.{◌≡◌, ◌+◌, ◌<◌, ◌^◌};
ghost use Rattle.xt_layout.specs.Faults.{is_in_place, within};

use crate::spot::Span;

/// Whether bytes lie between two addresses.
fn within(first: u64, last: u64, bytes: Span) -> bool
    requires { last < 2 ^ 32 }
    ensures { result ≡ within first last bytes }
{
    first <= bytes.start && bytes.end <= last + 1
}

/// Whether bytes lie in the region of a segment's start; none lie in UART0 or outside the memory map.
#[tactic(auto, unfolding(crate::specs::Faults::is_in_place))]
pub(crate) fn is_in_place(start: u64, bytes: Span) -> bool
    ensures { result ≡ is_in_place start bytes }
{
    match start {
        0x3F400000..=0x3F7FFFFF => within(0x3F400000, 0x3F7FFFFF, bytes),
        0x3FF80000..=0x3FF81FFF => within(0x3FF80000, 0x3FF81FFF, bytes),
        0x3FFAE000..=0x3FFFFFFF => within(0x3FFAE000, 0x3FFFFFFF, bytes),
        0x40070000..=0x4009FFFF => within(0x40070000, 0x4009FFFF, bytes),
        0x400C0000..=0x400C1FFF => within(0x400C0000, 0x400C1FFF, bytes),
        0x400D0000..=0x403FFFFF => within(0x400D0000, 0x403FFFFF, bytes),
        0x50000000..=0x50001FFF => within(0x50000000, 0x50001FFF, bytes),
        _ => false,
    }
}
