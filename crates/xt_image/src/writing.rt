ghost use Rattle.std.specs.Prelude.{◌≡◌, ◌≤◌, ◌<◌, ◌^◌, ◌+◌, ◌-◌, ◌++◌, [], length, replicate, vec_len, OnOk, IfOk};
ghost use Rattle.std.specs.List.{flat_map};
ghost use Rattle.xt_image.specs.Layout.{end_of, segment_bytes};
ghost use Rattle.xt_image.specs.Rules.{image_fault};
ghost use Rattle.xt_image.specs.Format.{Reads};
ghost use Rattle.xt_image.specs.ImageParts.{IsWellFormed, file_bytes, gap_length, head_bytes, image_bytes, summed_bytes};

use crate::bytes::checksum_of;
use crate::image::Image;
use sha2::{Digest, Sha256};
use std::alloc::{AllocError, Global};
use xt_map::{Bytes, Segment};

fn put_segment(out: &mut Vec<u8>, segment: &Segment) -> Result<(), AllocError>
    requires { length segment.now.bytes < 2 ^ 32 }
    ensures { OnOk result (out.new.items ≡ out.old.items ++ segment_bytes segment.now) }
{
    out.extend_from_slice(&segment.addr.to_le_bytes())?;
    out.extend_from_slice(&(segment.bytes.len() as u32).to_le_bytes())?;
    out.extend_from_slice(segment.bytes.as_slice())
}

#[tactic(auto, unfolding(crate::specs::ImageParts::head_bytes))]
fn put_head(out: &mut Vec<u8>, image: &Image) -> Result<(), AllocError>
    requires { length image.now.segments ≤ 16 }
    ensures head { OnOk result (out.new.items ≡ out.old.items ++ head_bytes image.now) }
    ensures long { OnOk result (vec_len out.new ≡ vec_len out.old + 24) }
{
    let head = &image.head;
    let count = image.segments.as_slice().len() as u8;
    let entry = image.entry.to_le_bytes();
    let min_rev = head.min_rev.to_le_bytes();
    let max_rev = head.max_rev.to_le_bytes();
    out.extend_from_slice(&[
        0xE9,
        count,
        head.mode,
        head.size_freq,
        entry[0],
        entry[1],
        entry[2],
        entry[3],
        head.wp_pin,
    ])?;
    out.extend_from_slice(&head.drive)?;
    out.extend_from_slice(&[
        0,
        0,
        head.min_rev_old,
        min_rev[0],
        min_rev[1],
        max_rev[0],
        max_rev[1],
    ])?;
    out.extend_from_slice(&head.reserved)?;
    out.push(if image.digest { 1 } else { 0 })?;
    Ok(())
}

fn put_segments(out: &mut Vec<u8>, segments: &[Segment]) -> Result<(), AllocError>
    requires { length (flat_map segment_bytes segments.now) < 2 ^ 32 }
    ensures { OnOk result (out.new.items ≡ out.old.items ++ flat_map segment_bytes segments.now) }
{
    for segment in segments {
        put_segment(out, segment)?;
    }
    Ok(())
}

// The head, the segments, zeros and the checksum.
#[tactic(auto, unfolding(crate::specs::ImageParts::summed_bytes))]
fn summed(alloc: Global, image: &Image) -> Result<Vec<u8>, AllocError>
    requires few { length image.now.segments ≤ 16 }
    requires short { length (flat_map segment_bytes image.now.segments) < 2 ^ 32 }
    ensures { IfOk result (λ out. out.items ≡ summed_bytes image.now (replicate (gap_length image.now) 0)) }
{
    let segments = image.segments.as_slice();
    let mut out = Vec::new(alloc);
    put_head(&mut out, image)?;
    put_segments(&mut out, segments)?;
    let end = out.len();
    out.resize(end + (15 - end % 16), 0)?;
    out.push(checksum_of(segments))?;
    Ok(out)
}

// All parts of the file, with zeros in the gap.
#[tactic(auto, unfolding(crate::specs::ImageParts::file_bytes, crate::specs::ImageParts::image_bytes))]
fn whole(alloc: Global, image: &Image) -> Result<Vec<u8>, AllocError>
    requires few { length image.now.segments ≤ 16 }
    requires short { length (flat_map segment_bytes image.now.segments) < 2 ^ 32 }
    ensures { IfOk result (λ out. out.items ≡ image_bytes image.now) }
{
    let mut out = summed(alloc, image)?;
    if image.digest {
        let digest = Sha256::digest(out.as_slice());
        out.extend_from_slice(&digest)?;
    }
    Ok(out)
}

/// The image as a file, with zeros between the last segment and the checksum, at most 8,388,608
/// bytes. `read` gives the same image again. The only error is running out of memory.
pub fn write(alloc: Global, image: &Image) -> Result<Bytes, AllocError>
    requires { IsWellFormed image.now }
    ensures bytes { IfOk result (λ bytes. bytes ≡ image_bytes image.now) }
    ensures again { IfOk result (λ bytes. Reads (Ok image.now) bytes (image_fault bytes)) }
    ensures short { IfOk result (λ bytes. length bytes ≤ 8388608) }
{
    Ok(Bytes::new(whole(alloc, image)?))
}

// The place behind the last segment of a file.
fn end_of(segments: &[Segment]) -> usize
    requires { length (flat_map segment_bytes segments.now) < 2 ^ 32 }
    ensures { result ≡ end_of segments.now }
{
    let mut end = 24;
    for segment in segments {
        end += 8 + segment.bytes.len();
    }
    end
}

/// How many bytes the image has as a file, as `write` makes it. Takes no memory.
pub fn written_length(image: &Image) -> usize
    requires { IsWellFormed image.now }
    ensures { result ≡ length (image_bytes image.now) }
{
    let end = end_of(image.segments.as_slice());
    let digest = if image.digest { 32 } else { 0 };
    end + (15 - end % 16) + 1 + digest
}
