//! What is judged of a run.
#![tactic(auto)]

ghost use Rattle.std.specs.Prelude.{◌≡◌, IfOk};
ghost use Rattle.xt_map.specs.Placing.{IsPlaced};
ghost use Rattle.xt_discipline.specs.Verdicts.{judged_in};
ghost use Rattle.xt_core.specs.Runs.{IsRunOf};

use crate::walk::ShadowWalk;
use std::alloc::{AllocError, Global};
use xt_core::Cursor;
use xt_discipline::{are_yes, judge};
use xt_frames::Judged;
use xt_handlers::Handlers;
use xt_image::Image;
use xt_trace::Run;

/// What is judged of a run over the records of both cores, which are made again one by one.
fn judge_records(
    alloc: Global,
    image: &Image,
    handlers: &Handlers,
    run: &Run,
) -> Result<Judged, AllocError>
    requires run { IsRunOf image.now run.now }
    requires placed { IsPlaced image.now.segments }
    ensures { IfOk result (λ judged. judged ≡ judged_in handlers.now image.now run.now) }
{
    let mut records0 = Cursor::make(alloc, image, run, 0)?;
    let mut records1 = Cursor::make(alloc, image, run, 1)?;
    let judged = judge(alloc, image, handlers, run, &mut records0, &mut records1)?;
    Ok(judged)
}

/// What is judged of a run of an image: nothing where some window handler does not pass the check;
/// else the first breach in the order of the run's schedule, handler steps left out, if a judged step
/// shows one. The only error is running out of memory.
///
/// The turns of both cores are made again. Where a core and its frames are in step, most turns are
/// judged by a few tests of what the core holds; where that does not tell, the run is judged once
/// more over its records.
///
/// Conditions: the run is the image's. The image's segments lie in one region each and share no
/// byte, as those of every image that was read.
pub fn judge_run(
    alloc: Global,
    image: &Image,
    handlers: &Handlers,
    run: &Run,
) -> Result<Judged, AllocError>
    requires run { IsRunOf image.now run.now }
    requires placed { IsPlaced image.now.segments }
    ensures { IfOk result (λ judged. judged ≡ judged_in handlers.now image.now run.now) }
{
    if !are_yes(handlers) {
        return Ok(Judged::Unchecked);
    }
    let mut walk = ShadowWalk::open(alloc, image, run)?;
    match walk.judge(run) {
        Some(judged) => Ok(judged),
        None => judge_records(alloc, image, handlers, run),
    }
}
