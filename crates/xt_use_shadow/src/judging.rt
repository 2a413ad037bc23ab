//! What the discipline of uses says of a run of an image.
#![tactic(auto)]

ghost use Rattle.std.specs.Prelude.{IfOk};
ghost use Rattle.xt_map.specs.Placing.{IsPlaced};
ghost use Rattle.xt_core.specs.Runs.{IsRunOf};
ghost use Rattle.xt_use_shadow.specs.Judging.{IsUsesIn};
ghost use Rattle.xt_use_shadow.specs.Shadows.{IsUsesOver};

use crate::walk::UseShadowWalk;
use std::alloc::{AllocError, Global};
use xt_discipline::are_yes;
use xt_handlers::Handlers;
use xt_image::Image;
use xt_trace::Run;
use xt_use_walk::Uses;
use xt_uses::Discipline;

/// What a discipline of uses says of a run whose handlers pass the check. The walk makes the turns of
/// both cores again. If `may_step`, it keeps the cores in step with their frames as far as it can, and
/// says nothing if a turn was made in step that has to be judged as a whole. If not, it judges each
/// turn as a whole.
fn judge_turns(
    alloc: Global,
    discipline: Discipline,
    image: &Image,
    run: &Run,
    may_step: bool,
) -> Result<Option<Uses>, AllocError>
    requires run { IsRunOf image.now run.now }
    requires placed { IsPlaced image.now.segments }
    ensures { IfOk result (IsUsesOver discipline image.now run.now may_step) }
{
    let mut walk = UseShadowWalk::open(alloc, discipline, image, run, may_step)?;
    walk.judge(run)
}

/// What this discipline of uses says of a run of an image: nothing where some window handler does not
/// pass the check; else the first breach in the order of the run's schedule, handler steps left out, if
/// a judged step shows one. The only error is running out of memory.
///
/// The turns of both cores are made again. Where a core and its frames are in step, most turns are
/// judged by a few tests of what the core holds; where that does not tell, the run is judged once
/// more, each turn as a whole.
///
/// Conditions: the run is the image's. The image's segments lie in one region each and share no byte,
/// as those of every image that was read.
pub fn judge_uses_of(
    alloc: Global,
    discipline: Discipline,
    image: &Image,
    handlers: &Handlers,
    run: &Run,
) -> Result<Uses, AllocError>
    requires run { IsRunOf image.now run.now }
    requires placed { IsPlaced image.now.segments }
    ensures { IfOk result (IsUsesIn discipline handlers.now image.now run.now) }
{
    if !are_yes(handlers) {
        return Ok(Uses::Unchecked);
    }
    let judged = judge_turns(alloc, discipline, image, run, true)?;
    if let Some(uses) = judged {
        return Ok(uses);
    }
    let again = judge_turns(alloc, discipline, image, run, false)?;
    match again {
        Some(uses) => Ok(uses),
        None => unreachable!(),
    }
}
