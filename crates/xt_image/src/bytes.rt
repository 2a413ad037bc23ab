ghost use Rattle.std.specs.Prelude.{◌≡◌, ◌≤◌, ◌+◌, length, fold, bit_xor};
ghost use Rattle.xt_image.specs.Layout.{half_at, word_at};
ghost use Rattle.xt_image.specs.Rules.{checksum};

use xt_map::Segment;

/// The little-endian number in the two bytes at a place.
pub fn half(bytes: &[u8], place: usize) -> u16
    requires { place + 2 ≤ length bytes.now }
    ensures { result ≡ half_at bytes.now place }
{
    u16::from_le_bytes([bytes[place], bytes[place + 1]])
}

/// The little-endian number in the four bytes at a place.
#[tactic(auto, unfolding(crate::specs::Layout::word_at))]
pub fn word(bytes: &[u8], place: usize) -> u32
    requires { place + 4 ≤ length bytes.now }
    ensures { result ≡ word_at bytes.now place }
{
    u32::from_le_bytes([
        bytes[place],
        bytes[place + 1],
        bytes[place + 2],
        bytes[place + 3],
    ])
}

fn xor_all(sum: u8, bytes: &[u8]) -> u8
    ensures { result ≡ fold bit_xor sum bytes.now }
{
    let mut total = sum;
    for byte in bytes {
        total ^= *byte;
    }
    total
}

/// EF xor all bytes of the segments.
pub fn checksum_of(segments: &[Segment]) -> u8
    ensures { result ≡ checksum segments.now }
{
    let mut sum: u8 = 0xEF;
    for segment in segments {
        sum = xor_all(sum, segment.bytes.as_slice());
    }
    sum
}
