ghost use Rattle.std.specs.Prelude.{◌≡◌, ◌≤◌, ◌++◌, length, IfOk, option_map};
ghost use Rattle.std.specs.List.{flat_map};
ghost use Rattle.xt_map.specs.Placing.{IsPlaced};
ghost use Rattle.xt_image.specs.Layout.{front, segment_bytes, segments_at};
ghost use Rattle.xt_image.specs.Rules.{image_fault};
ghost use Rattle.xt_image.specs.Format.{Reads, head_of};
ghost use Rattle.xt_image.specs.ImageParts.{IsFileOf, IsWellFormed};

use crate::bytes::{checksum_of, half, word};
use crate::fault::ImageFault;
use crate::image::{Head, Image};
use crate::rules::{end_fault, head_fault, segment_fault};
use std::alloc::{AllocError, Global};
use xt_map::{Bytes, Segment, Segments};

// The segment at the front, where a whole one stands there, and what follows it.
#[tactic(auto, unfolding(crate::specs::Layout::front))]
fn front_segment(alloc: Global, bytes: &[u8]) -> Result<Option<(Segment, &[u8])>, AllocError>
    ensures { IfOk result (λ found. option_map (λ x. (x.0, x.1.now)) found ≡ front bytes.now) }
{
    if bytes.len() < 8 {
        return Ok(None);
    }
    let rest = &bytes[8..];
    let len = word(bytes, 4) as usize;
    if len > rest.len() {
        return Ok(None);
    }
    let (held, rest) = rest.split_at(len);
    let segment = Segment {
        addr: word(bytes, 0),
        bytes: Bytes::new(Vec::from_slice(alloc, held)?),
    };
    Ok(Some((segment, rest)))
}

// The whole segments at the front, at most so many, and what follows them.
fn segments_of(alloc: Global, count: u8, bytes: &[u8]) -> Result<(Vec<Segment>, &[u8]), AllocError>
    ensures found { IfOk result (λ r. r.0.items ≡ segments_at count bytes.now) }
    ensures number { IfOk result (λ r. length r.0.items ≤ count) }
    ensures joined { IfOk result (λ r. bytes.now ≡ flat_map segment_bytes r.0.items ++ r.1.now) }
{
    let mut found = Vec::new(alloc);
    let mut rest = bytes;
    for _ in 0..count {
        let Some((segment, after)) = front_segment(alloc, rest)? else {
            return Ok((found, rest));
        };
        found.push(segment)?;
        rest = after;
    }
    Ok((found, rest))
}

fn head_in(bytes: &[u8]) -> Head
    requires { 24 ≤ length bytes.now }
    ensures { result ≡ head_of bytes.now }
{
    Head {
        mode: bytes[2],
        size_freq: bytes[3],
        wp_pin: bytes[8],
        drive: [bytes[9], bytes[10], bytes[11]],
        min_rev_old: bytes[14],
        min_rev: half(bytes, 15),
        max_rev: half(bytes, 17),
        reserved: [bytes[19], bytes[20], bytes[21], bytes[22]],
    }
}

/// The image that the bytes of a file hold, or the first rule that they break.
///
/// The bytes are at most 8,388,608. `ImageFault` has the rules, in their order. What stands
/// between the last segment and the checksum, and after the end, may be anything.
pub fn read(alloc: Global, bytes: &[u8]) -> Result<Image, ImageFault>
    requires { length bytes.now ≤ 8388608 }
    ensures exact { Reads result bytes.now (image_fault bytes.now) }
    ensures parts { IfOk result (λ i. IsFileOf i bytes.now) }
    ensures well_formed { IfOk result IsWellFormed }
    ensures placed { IfOk result (λ i. IsPlaced i.segments) }
{
    if let Some(fault) = head_fault(bytes) {
        return Err(fault);
    }
    let count = bytes[1];
    let (segments, rest) = segments_of(alloc, count, &bytes[24..])?;
    let parts = segments.as_slice();
    if let Some(fault) = segment_fault(count, parts) {
        return Err(fault);
    }
    let end = bytes.len() - rest.len();
    let place = end + (15 - end % 16);
    if let Some(fault) = end_fault(bytes, place, checksum_of(parts)) {
        return Err(fault);
    }
    Ok(Image {
        head: head_in(bytes),
        entry: word(bytes, 4),
        digest: bytes[23] == 1,
        segments: Segments::new(segments),
    })
}
