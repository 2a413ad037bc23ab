//! A recording, written.
ghost use Rattle.std.specs.Prelude.{◌≡◌, ◌≤◌, ◌++◌, length, IfOk, Ok, OnOk};
ghost use Rattle.std.specs.List.{concat, flat_map};
ghost use Rattle.xt_image.specs.ImageParts.{IsWellFormed};
ghost use Rattle.xt_core.specs.Runs.{IsRunOf};
ghost use Rattle.xt_record.specs.Checkpoints.{checkpoints_of};
ghost use Rattle.xt_record.specs.Fitting.{FitsRun};
ghost use Rattle.xt_record.specs.Format.{Reads, recording_fault};
ghost use Rattle.xt_record.specs.Joined.{joined_parts};
ghost use Rattle.xt_record.specs.Written.{recording_bytes};
ghost use Rattle.xt_record.specs.RecordingParts.{entry_bytes, first_operand, kind_number, options_bytes, second_operand};

use crate::fault::RecordFault;
use crate::points::POINT_SIZE;
use crate::walk::walk_entries;
use crate::words::put_words;
use std::alloc::{AllocError, Global};
use xt_image::{Image, well_formed_is_placed};
use xt_map::{Bytes, Entry, Kind};
use xt_trace::{Options, Run};

const FRONT_SIZE: usize = 52;

const ENTRY_SIZE: usize = 20;

// The number of a kind of access, and its operands.
#[inline(always)]
fn fields_of(kind: Kind) -> (u8, u32, u32)
    ensures { result ≡ (kind_number kind, first_operand kind, second_operand kind) }
{
    match kind {
        Kind::Load => (0, 0, 0),
        Kind::Store(value) => (1, value, 0),
        Kind::Cas(expected, new) => (2, expected, new),
    }
}

// The 20 bytes of an entry.
#[inline(always)]
#[tactic(auto, unfolding(crate::specs::RecordingParts::entry_bytes))]
fn bytes_of(entry: &Entry) -> [u8; 20]
    ensures { result ≡ entry_bytes entry.now }
{
    let access = entry.access;
    let (kind, first, second) = fields_of(access.kind);
    let addr = access.addr.to_le_bytes();
    let first = first.to_le_bytes();
    let second = second.to_le_bytes();
    let reply = entry.reply.to_le_bytes();
    [
        entry.core,
        kind,
        access.size,
        0,
        addr[0],
        addr[1],
        addr[2],
        addr[3],
        first[0],
        first[1],
        first[2],
        first[3],
        second[0],
        second[1],
        second[2],
        second[3],
        reply[0],
        reply[1],
        reply[2],
        reply[3],
    ]
}

// Writes entries.
fn put_entries(out: &mut Vec<u8>, entries: &[Entry]) -> Result<(), AllocError>
    ensures { OnOk result (out.new.items ≡ out.old.items ++ flat_map entry_bytes entries.now) }
{
    for entry in entries {
        out.extend_from_slice(&bytes_of(entry))?;
    }
    Ok(())
}

// Writes the options of a run.
fn put_options(out: &mut Vec<u8>, options: &Options) -> Result<(), AllocError>
    ensures { OnOk result (out.new.items ≡ out.old.items ++ options_bytes options.now) }
{
    put_words(
        out,
        &[
            options.turns0,
            options.turns1,
            options.entry1,
            options.vecbase,
            options.stack0.lo,
            options.stack0.hi,
            options.stack1.lo,
            options.stack1.hi,
        ],
    )
}

// Writes checkpoints.
fn put_points(out: &mut Vec<u8>, points: &[Bytes]) -> Result<(), AllocError>
    ensures { OnOk result (out.new.items ≡ out.old.items ++ concat points.now) }
{
    for point in points {
        out.extend_from_slice(point.as_slice())?;
    }
    Ok(())
}

// The checkpoints of a run, which is made again: it breaks no rule of the turns, so that only
// running out of memory stops it.
fn points_of(alloc: Global, image: &Image, run: &Run) -> Result<Vec<Bytes>, AllocError>
    requires image { IsWellFormed image.now }
    requires run { IsRunOf image.now run.now }
    ensures points { IfOk result (λ points. points.items ≡ checkpoints_of image.now run.now) }
    ensures few { IfOk result (λ points. (length points.items ≤ 8000000) × (length run.now.history ≤ 8000000)) }
{
    well_formed_is_placed();
    match walk_entries(alloc, image, &run.options, run.history.as_slice()) {
        Ok(walked) => Ok(walked.points),
        Err(fault) => match fault {
            RecordFault::Memory => Err(AllocError),
            _ => unreachable!(),
        },
    }
}

// Appends the recording of a run with the bytes of its image and its checkpoints.
fn put_recording(
    out: &mut Vec<u8>,
    file: &[u8],
    run: &Run,
    points: &[Bytes],
) -> Result<(), AllocError>
    requires file { length file.now ≤ 8388608 }
    requires entries { length run.now.history ≤ 8000000 }
    requires points { length points.now ≤ 8000000 }
    ensures { OnOk result (out.new.items ≡ out.old.items ++ joined_parts file.now run.now points.now) }
{
    let entries = run.history.as_slice();
    out.extend_from_slice(b"XTRC")?;
    put_words(out, &[2, file.len() as u32])?;
    out.extend_from_slice(file)?;
    put_options(out, &run.options)?;
    put_words(out, &[entries.len() as u32])?;
    put_entries(out, entries)?;
    put_words(out, &[points.len() as u32])?;
    put_points(out, points)?;
    Ok(())
}

// The recording of a run with the bytes of its image and its checkpoints.
fn joined(alloc: Global, file: &[u8], run: &Run, points: &[Bytes]) -> Result<Bytes, AllocError>
    requires file { length file.now ≤ 8388608 }
    requires entries { length run.now.history ≤ 8000000 }
    requires points { length points.now ≤ 8000000 }
    ensures { IfOk result (λ bytes. bytes ≡ joined_parts file.now run.now points.now) }
{
    let entries = run.history.len();
    let size = FRONT_SIZE + file.len() + ENTRY_SIZE * entries + POINT_SIZE * points.len();
    let mut out = Vec::with_capacity(alloc, size)?;
    put_recording(&mut out, file, run, points)?;
    Ok(Bytes::new(out))
}

/// The recording of a run: version 2, with its image and its checkpoints. The only error is running
/// out of memory. What was written reads again as this image and this run, whose numbers are in the
/// ranges of their types.
///
/// Conditions: the image is well formed, and the run is the image's.
pub fn write_recording(alloc: Global, image: &Image, run: &Run) -> Result<Bytes, AllocError>
    requires image { IsWellFormed image.now }
    requires run { IsRunOf image.now run.now }
    ensures bytes { IfOk result (λ bytes. bytes ≡ recording_bytes image.now run.now) }
    ensures again { FitsRun run.now → IfOk result (λ bytes. Reads (Ok (image.now, run.now)) bytes (recording_fault bytes)) }
{
    let file = xt_image::write(alloc, image)?;
    let points = points_of(alloc, image, run)?;
    joined(alloc, file.as_slice(), run, points.as_slice())
}
