//! A recording, read.
ghost use Rattle.std.specs.Prelude.{◌≡◌, ◌≤◌, ◌+◌, ◌*◌, None, length, IfOk, if◌then◌else◌, ◌==◌};
ghost use Rattle.xt_image.specs.ImageParts.{IsWellFormed};
ghost use Rattle.xt_core.specs.Runs.{IsRunOf};
ghost use Rattle.xt_record.specs.Fields.{behind_image, blocks, checkpoint_size, checkpoints_in, version};
ghost use Rattle.xt_record.specs.Format.{Reads, recording_fault};
ghost use Rattle.xt_record.specs.Heads.{HasParts, IsParts};
ghost use Rattle.xt_record.specs.Standing.{ReadsRun};
ghost use Rattle.xt_record.specs.TurnRules.{first_difference};

use crate::fault::RecordFault;
use crate::parts::{Parts, parts_in};
use crate::points::POINT_SIZE;
use crate::walk::{Walked, walk_entries};
use std::alloc::Global;
use xt_image::{Image, word};
use xt_map::{Bytes, History};
use xt_trace::Run;

// The first place where so many checkpoints of a file and the checkpoints of a run differ, or where
// the ones or the others end.
fn first_difference(kept: &[u8], count: u32, points: &[Bytes]) -> Option<u32>
    requires { length kept.now ≡ checkpoint_size * count }
    ensures { result ≡ first_difference (blocks count kept.now) points.now }
{
    let mut rest = kept;
    let mut index = 0u32;
    for point in points {
        if index == count {
            return Some(index);
        }
        let (block, behind) = rest.split_at(POINT_SIZE);
        if block != point.as_slice() {
            return Some(index);
        }
        rest = behind;
        index += 1;
    }
    if index < count { Some(index) } else { None }
}

// The same for a file, which has checkpoints in version 2.
fn point_difference(bytes: &[u8], points: &[Bytes]) -> Option<u32>
    requires { HasParts bytes.now }
    ensures { result ≡ (if version bytes.now == 1 then None else first_difference (checkpoints_in (behind_image bytes.now)) points.now) }
{
    if word(bytes, 4) == 1 {
        return None;
    }
    let rest = &bytes[12 + word(bytes, 8) as usize..];
    let end = 36 + 20 * word(rest, 32) as usize;
    first_difference(&rest[end + 4..], word(rest, end), points)
}

// The run of the parts, made again, or the first rule that its turns or its checkpoints break.
fn walked_parts(alloc: Global, bytes: &[u8], parts: &Parts) -> Result<Walked, RecordFault>
    requires { IsParts parts.now bytes.now }
    ensures { ReadsRun result parts.now bytes.now }
{
    let walked = walk_entries(
        alloc,
        &parts.image,
        &parts.options,
        parts.entries.as_slice(),
    )?;
    match point_difference(bytes, walked.points.as_slice()) {
        Some(index) => Err(RecordFault::Checkpoint(index)),
        None => Ok(walked),
    }
}

/// The image and the run that a recording of version 1 or 2 holds, or the first rule that it
/// breaks. `RecordFault` has the rules, in their order. The run is made again from its entries.
///
/// The image is well formed, and the run is the image's.
pub fn read_recording(alloc: Global, bytes: &[u8]) -> Result<(Image, Run), RecordFault>
    ensures exact { Reads result bytes.now (recording_fault bytes.now) }
    ensures well_formed { IfOk result (λ r. IsWellFormed r.0) }
    ensures run { IfOk result (λ r. IsRunOf r.0 r.1) }
{
    let parts = parts_in(alloc, bytes)?;
    let walked = walked_parts(alloc, bytes, &parts)?;
    let Parts {
        image,
        options,
        entries,
    } = parts;
    let Walked { trace0, trace1, .. } = walked;
    let run = Run {
        options,
        history: History::new(entries),
        trace0,
        trace1,
    };
    Ok((image, run))
}
