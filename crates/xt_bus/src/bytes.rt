//! One access at a place of a region's bytes.
ghost use Rattle.std.specs.Prelude.{◌≡◌, ◌+◌, ◌<◌, ◌≤◌, true, length};
ghost use Rattle.xt_map.specs.Memory.{low_bytes};
ghost use Rattle.xt_map.specs.Regions.{is_size};
ghost use Rattle.xt_map.specs.Serving.{access_reply};
ghost use Rattle.xt_bus.specs.ListBytes.{changed_in, number_in, put_in};

use xt_map::{Access, Kind};

// The little-endian number in 1, 2 or 4 bytes.
fn number(bytes: &[u8], at: usize, size: u8) -> u32
    requires size { is_size size ≡ true }
    requires within { at + size ≤ length bytes.now }
    ensures { result ≡ number_in bytes.now at size }
{
    let first = bytes[at] as u32;
    if size == 1 {
        return first;
    }
    let second = at + 1;
    let half = first + 256 * (bytes[second] as u32);
    if size == 2 {
        return half;
    }
    let third = second + 1;
    let fourth = third + 1;
    half + 65536 * (bytes[third] as u32 + 256 * (bytes[fourth] as u32))
}

// Writes the low 1, 2 or 4 bytes of a number, least byte first.
fn put(bytes: &mut [u8], at: usize, size: u8, value: u32)
    requires size { is_size size ≡ true }
    requires within { at + size ≤ length bytes.old }
    ensures { bytes.new ≡ put_in bytes.old at (low_bytes size value) }
{
    bytes[at] = (value % 256) as u8;
    if size == 1 {
        return;
    }
    let second = at + 1;
    let rest = value / 256;
    bytes[second] = (rest % 256) as u8;
    if size == 2 {
        return;
    }
    let third = second + 1;
    let fourth = third + 1;
    let rest = rest / 256;
    bytes[third] = (rest % 256) as u8;
    let rest = rest / 256;
    bytes[fourth] = (rest % 256) as u8;
}

/// Does one access at a place of a region's bytes, and answers its reply.
pub(crate) fn act(bytes: &mut [u8], at: usize, access: Access) -> u32
    requires size { is_size access.size ≡ true }
    requires within { at + access.size ≤ length bytes.old }
    ensures reply { result ≡ access_reply access.kind (number_in bytes.old at access.size) }
    ensures after { bytes.new ≡ changed_in bytes.old at access.size access.kind }
{
    match access.kind {
        Kind::Load => number(bytes, at, access.size),
        Kind::Store(value) => {
            put(bytes, at, access.size, value);
            0
        }
        Kind::Cas(expected, new) => {
            let found = number(bytes, at, access.size);
            if found == expected {
                put(bytes, at, access.size, new);
            }
            found
        }
    }
}
