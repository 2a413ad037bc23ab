//! The walk of the judge up to a position of a run.
#![tactic(auto)]

ghost use Rattle.std.specs.Prelude.{◌≡◌, ◌+◌, ◌<◌, ◌≤◌, ◌^◌, All, IfOk, length};
ghost use Rattle.xt_map.specs.Memory.{constant_byte};
ghost use Rattle.xt_map.specs.Placing.{IsPlaced};
ghost use Rattle.xt_frames.specs.Breaches.{Bounds};
ghost use Rattle.xt_frames.specs.Verdict.{Known, judgement};
ghost use Rattle.xt_discipline.specs.Before.{judgement_before, known_before, known_in};
ghost use Rattle.xt_discipline.specs.Places.{Ends, IsThere, is_whole};
ghost use Rattle.xt_discipline.specs.Schedules.{HasSchedule, schedule_in};
ghost use Rattle.xt_discipline.specs.Verdicts.{are_yes, opened0, opened1};
ghost use Rattle.xt_discipline.specs.Walks.{Knows};

use crate::judging::are_yes;
use crate::order::schedule_of;
use crate::walk::Walk;
use std::alloc::{AllocError, Global};
use xt_frames::Judged;
use xt_handlers::Handlers;
use xt_image::Image;
use xt_map::Constants;
use xt_trace::{Records, Run};

/// Nothing but the end of the records ended a walk.
fn is_whole(judged: Judged) -> bool
    ensures { result ≡ is_whole judged }
{
    match judged {
        Judged::Whole => true,
        Judged::Broken(_) => false,
        Judged::Unchecked => false,
    }
}

/// Makes the turns of the cores in this order, as far as the cores have records: whether no breach came.
fn follows<R: Records>(walk: &mut Walk, schedule: &[u8], records0: &mut R, records1: &mut R) -> bool
    requires cores { All (λ c. c < 2) schedule.now }
    requires known { (b0 : Bounds) × (b1 : Bounds) × (k : Known) × Knows walk.old b0 b1 k }
    requires room { walk.old.side0.steps + walk.old.side1.steps + length schedule.now < 2 ^ 32 }
    ensures { (b0 b1 : Bounds) (k : Known) → Knows walk.old b0 b1 k
        → Ends result walk.new b0 b1 (known_in (judgement (constant_byte walk.old.code) b0 b1 schedule.now (R.left records0.old) (R.left records1.old) k)) }
{
    for core in schedule {
        if let Err(judged) = walk.turn(*core, records0, records1) {
            return is_whole(judged);
        }
    }
    true
}

/// The walk of the judge past the first `position` steps of a run of an image, in the order of the
/// run's schedule, where the cores have these records: none where some window handler does not pass
/// the check, or a breach comes in those steps. The only error is running out of memory.
///
/// Conditions: as of `judge`, and the position is at most the length of the schedule.
pub fn walk_before<'a, R: Records>(
    alloc: Global,
    image: &'a Image,
    handlers: &Handlers,
    run: &Run,
    position: u32,
    records0: &mut R,
    records1: &mut R,
) -> Result<Option<Walk<'a>>, AllocError>
    requires schedule { HasSchedule run.now }
    requires placed { IsPlaced image.now.segments }
    requires within { position ≤ length (schedule_in run.now) }
    ensures { IfOk result (λ walk. IsThere walk (opened0 image.now run.now.options).bounds (opened1 run.now.options).bounds
        (known_before (are_yes handlers.now) (judgement_before image.now run.now position (R.left records0.old) (R.left records1.old)))) }
{
    if !are_yes(handlers) {
        return Ok(None);
    }
    let code = Constants::make(alloc, image.segments.as_slice())?;
    let mut walk = Walk::open(alloc, code, image.entry, &run.options)?;
    let schedule = schedule_of(alloc, run)?;
    let first = &schedule.as_slice()[..position as usize];
    if follows(&mut walk, first, records0, records1) {
        Ok(Some(walk))
    } else {
        Ok(None)
    }
}
