ghost use Rattle.std.specs.Prelude.{◌≡◌, ◌<◌, ◌≤◌, ◌^◌, [], length, slice_index, IsNone};
ghost use Rattle.std.specs.List.{position};
ghost use Rattle.xt_map.specs.Placing.{do_overlap};
ghost use Rattle.xt_image.specs.Findings.{first};
ghost use Rattle.xt_image.specs.Rules.{head_rules, segment_rules, first_overlap, end_rules, is_uneven, is_misplaced};

use crate::bytes::{half, word};
use crate::fault::ImageFault;
use sha2::{Digest, Sha256};
use xt_map::{Segment, can_execute_at, is_placed, share_bytes};

/// What is wrong with the head.
pub fn head_fault(bytes: &[u8]) -> Option<ImageFault>
    ensures first { result ≡ first (head_rules bytes.now) }
    ensures long { IsNone result → 24 ≤ length bytes.now }
    ensures count { IsNone result → slice_index bytes.now 1 ≤ 16 }
{
    if bytes.len() < 24 {
        return Some(ImageFault::Short);
    }
    if bytes[0] != 0xE9 {
        return Some(ImageFault::Magic(bytes[0]));
    }
    if bytes[1] == 0 || bytes[1] > 16 {
        return Some(ImageFault::Count(bytes[1]));
    }
    let chip = half(bytes, 12);
    if chip != 0 {
        return Some(ImageFault::Chip(chip));
    }
    if bytes[23] > 1 {
        return Some(ImageFault::DigestFlag(bytes[23]));
    }
    None
}

// The first segment whose length is no multiple of 4.
fn first_uneven(segments: &[Segment]) -> Option<usize>
    ensures { result ≡ position is_uneven segments.now }
{
    for (i, segment) in segments.iter().enumerate() {
        if segment.bytes.len() % 4 != 0 {
            return Some(i);
        }
    }
    None
}

// The first segment that may not stand at its address.
fn first_misplaced(segments: &[Segment]) -> Option<usize>
    ensures { result ≡ position is_misplaced segments.now }
{
    for (i, segment) in segments.iter().enumerate() {
        if !is_placed(segment) {
            return Some(i);
        }
    }
    None
}

// The first of some segments that shares a byte with this one.
fn first_sharing(before: &[Segment], segment: &Segment) -> Option<usize>
    ensures { result ≡ position (λ t. do_overlap t segment.now) before.now }
{
    for (i, other) in before.iter().enumerate() {
        if share_bytes(other, segment) {
            return Some(i);
        }
    }
    None
}

// The first segment that shares a byte with one before it.
fn overlap_fault(segments: &[Segment]) -> Option<ImageFault>
    requires { length segments.now ≤ 16 }
    ensures { result ≡ first_overlap [] segments.now }
{
    for j in 0..segments.len() {
        if let Some(i) = first_sharing(&segments[..j], &segments[j]) {
            return Some(ImageFault::SegmentOverlap(i as u8, j as u8));
        }
    }
    None
}

/// What is wrong with the segments, of which there should be so many.
pub fn segment_fault(count: u8, segments: &[Segment]) -> Option<ImageFault>
    requires { length segments.now ≤ 16 }
    ensures { result ≡ first (segment_rules count segments.now) }
{
    if segments.len() < count as usize {
        return Some(ImageFault::SegmentEnd(segments.len() as u8));
    }
    if let Some(i) = first_uneven(segments) {
        return Some(ImageFault::SegmentLength(i as u8));
    }
    if let Some(i) = first_misplaced(segments) {
        return Some(ImageFault::SegmentPlace(i as u8));
    }
    overlap_fault(segments)
}

/// What is wrong with the end and the entry, where the checksum is at this place and should be
/// this sum.
pub fn end_fault(bytes: &[u8], place: usize, sum: u8) -> Option<ImageFault>
    requires head { 24 ≤ length bytes.now }
    requires place { place < 2 ^ 62 }
    ensures { result ≡ first (end_rules bytes.now place sum) }
{
    if bytes.len() <= place {
        return Some(ImageFault::NoChecksum);
    }
    let kept = bytes[place];
    if kept != sum {
        return Some(ImageFault::Checksum(kept, sum));
    }
    if bytes[23] == 1 {
        if bytes.len() < place + 33 {
            return Some(ImageFault::NoDigest);
        }
        let mut kept = [0u8; 32];
        kept.copy_from_slice(&bytes[place + 1..place + 33]);
        let right = Sha256::digest(&bytes[..place + 1]);
        if kept != right {
            return Some(ImageFault::Digest(kept, right));
        }
    }
    let entry = word(bytes, 4);
    if !can_execute_at(entry) {
        return Some(ImageFault::Entry(entry));
    }
    None
}
