//! What is judged of a run.
#![tactic(auto)]

ghost use Rattle.std.specs.Prelude.{◌≡◌, ◌%◌, ◌≤◌, IfOk, length};
ghost use Rattle.xt_map.specs.Memory.{constant_byte};
ghost use Rattle.xt_map.specs.Placing.{IsPlaced};
ghost use Rattle.xt_handlers.specs.CheckAnswers.{handlers_of};
ghost use Rattle.xt_frames.specs.Verdict.{verdict};
ghost use Rattle.xt_discipline.specs.Schedules.{HasSchedule, schedule_in};
ghost use Rattle.xt_discipline.specs.Verdicts.{are_yes, is_yes, judgement_in};

use crate::walk::Walk;
use std::alloc::{AllocError, Global};
use xt_frames::Judged;
use xt_handlers::{HandlerVerdict, Handlers, check};
use xt_image::Image;
use xt_map::Constants;
use xt_trace::{Records, Run};

fn is_yes(answer: HandlerVerdict) -> bool
    ensures { result ≡ is_yes answer }
{
    match answer {
        HandlerVerdict::Yes => true,
        HandlerVerdict::No(_) => false,
    }
}

/// Whether the six window handlers pass the check.
pub fn are_yes(handlers: &Handlers) -> bool
    ensures { result ≡ are_yes handlers.now }
{
    is_yes(handlers.of4)
        && is_yes(handlers.uf4)
        && is_yes(handlers.of8)
        && is_yes(handlers.uf8)
        && is_yes(handlers.of12)
        && is_yes(handlers.uf12)
}

/// The answers for the six window handlers of an image from `vecbase` on. The only error is running
/// out of memory.
///
/// Conditions: `vecbase` is a multiple of 1024. The image's segments lie in one region each and share no byte, as those of every image
/// that was read.
pub fn handlers_of(alloc: Global, image: &Image, vecbase: u32) -> Result<Handlers, AllocError>
    requires placed { IsPlaced image.now.segments }
    requires aligned { vecbase % 1024 ≡ 0 }
    ensures { IfOk result (λ h. h ≡ handlers_of (constant_byte image.now.segments) vecbase) }
{
    let code = Constants::make(alloc, image.segments.as_slice())?;
    Ok(check(&code, vecbase))
}

/// What is judged of a run of an image, whose cores have these records: nothing where some window handler does not pass the check;
/// else the first breach in the order of the run's schedule, handler steps left out, if a judged step shows one. The only error is
/// running out of memory.
///
/// Conditions: the run has a schedule. The image's segments lie in one region each and share no byte, as those of every image that was
/// read. Where a core has fewer records than its turns, the walk ends with its last one.
pub fn judge<R: Records>(
    alloc: Global,
    image: &Image,
    handlers: &Handlers,
    run: &Run,
    records0: &mut R,
    records1: &mut R,
) -> Result<Judged, AllocError>
    requires schedule { HasSchedule run.now }
    requires placed { IsPlaced image.now.segments }
    ensures { IfOk result (λ judged. judged ≡ verdict (are_yes handlers.now) (judgement_in image.now run.now (R.left records0.old) (R.left records1.old))) }
{
    if !are_yes(handlers) {
        return Ok(Judged::Unchecked);
    }
    let code = Constants::make(alloc, image.segments.as_slice())?;
    let mut walk = Walk::open(alloc, code, image.entry, &run.options)?;
    Ok(walk.judge(run, records0, records1))
}
