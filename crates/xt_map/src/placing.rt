ghost use Rattle.std.specs.Prelude.{◌≡◌, ◌↔◌, ◌&&◌, nat_le, IsTrue};
ghost use Rattle.std.specs.List.{list_any};
ghost use Rattle.xt_map.specs.Memory.{is_loaded};
ghost use Rattle.xt_map.specs.Placing.{IsPlaced, do_overlap, is_well_placed};

use crate::segment::Segment;

// The first address of each region that takes segments, and the one after its last.
const PLACES: [(u128, u128); 7] = [
    (0x3F400000, 0x3F800000),
    (0x3FF80000, 0x3FF82000),
    (0x3FFAE000, 0x40000000),
    (0x40070000, 0x400A0000),
    (0x400C0000, 0x400C2000),
    (0x400D0000, 0x40400000),
    (0x50000000, 0x50002000),
];

/// Whether a segment is loaded. One below the address 0x10000000 is padding and is not.
pub fn is_segment_loaded(segment: &Segment) -> bool
    ensures { result ≡ is_loaded segment.now }
{
    segment.addr >= 0x10000000
}

// Whether one of some places has the addresses from the first up to the one after the last.
fn lies_in(places: &[(u128, u128)], first: u128, behind: u128) -> bool
    ensures { result ≡ list_any (λ p. nat_le p.0 first && nat_le behind p.1) places.now }
{
    places
        .iter()
        .any(|place| place.0 <= first && behind <= place.1)
}

/// Whether a segment may stand at its address: it is padding, or has no byte, or lies whole in
/// one region other than UART0.
pub fn is_placed(segment: &Segment) -> bool
    ensures { result ≡ is_well_placed segment.now }
{
    let first = segment.addr as u128;
    let behind = first + segment.bytes.len() as u128;
    !is_segment_loaded(segment) || segment.bytes.is_empty() || lies_in(&PLACES, first, behind)
}

/// Whether two segments are both loaded and share a byte.
pub fn share_bytes(one: &Segment, other: &Segment) -> bool
    ensures { result ≡ do_overlap one.now other.now }
{
    let (first, second) = (one.addr as u128, other.addr as u128);
    let behind_first = first + one.bytes.len() as u128;
    let behind_second = second + other.bytes.len() as u128;
    is_segment_loaded(one)
        && is_segment_loaded(other)
        && first.max(second) < behind_first.min(behind_second)
}

// Whether one of some segments shares a byte with this one.
fn shares_with_any(before: &[Segment], segment: &Segment) -> bool
    ensures { result ≡ list_any (λ s. do_overlap s segment.now) before.now }
{
    before.iter().any(|other| share_bytes(other, segment))
}

/// Whether segments meet the condition of `Constants::make`: each may stand at its address, and
/// no two share a byte.
pub fn are_placed(segments: &[Segment]) -> bool
    ensures { IsTrue result ↔ IsPlaced segments.now }
{
    for (number, segment) in segments.iter().enumerate() {
        if !is_placed(segment) {
            return false;
        }
        if shares_with_any(&segments[..number], segment) {
            return false;
        }
    }
    true
}
