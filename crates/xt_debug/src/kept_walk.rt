//! The walk of the judge that is kept from one command to the next.
ghost use Rattle.std.specs.Prelude.{◌≡◌, ◌<◌, ◌≤◌, ◌++◌, IfOk, OnOk};
ghost use Rattle.xt_debug.specs.Calls.{calls_text, stack_end};
ghost use Rattle.xt_debug.specs.Depths.{depth_at, frame_at};
ghost use Rattle.xt_debug.specs.Printed.{frames_text};
ghost use Rattle.xt_debug.specs.Runs.{IsOf};

use crate::frame_walk::FrameWalk;
use crate::printing::push_frames;
use std::alloc::{AllocError, Global};
use xt_replay::Replay;

// A walk that is not beyond the position of a replay: the one that was kept, or one at the start.
fn walk_before<'a>(
    alloc: Global,
    kept: Option<FrameWalk<'a>>,
    replay: &Replay<'a>,
) -> Result<FrameWalk<'a>, AllocError>
    requires { IsOf kept replay.now.image replay.now.run }
    ensures image { IfOk result (λ w. w.image ≡ replay.now.image) }
    ensures run { IfOk result (λ w. w.run ≡ replay.now.run) }
    ensures before { IfOk result (λ w. w.position ≤ replay.now.position) }
{
    if let Some(walk) = kept {
        if walk.position() <= replay.position() {
            return Ok(walk);
        }
    }
    FrameWalk::make(alloc, replay.image(), replay.run())
}

// The walk at the position of a replay. The only error is running out of memory.
fn walk_at<'a>(
    alloc: Global,
    kept: Option<FrameWalk<'a>>,
    replay: &Replay<'a>,
) -> Result<FrameWalk<'a>, AllocError>
    requires { IsOf kept replay.now.image replay.now.run }
    ensures { IfOk result (λ w. w ≡ replay.now) }
{
    let mut walk = walk_before(alloc, kept, replay)?;
    walk.skip(replay.position() - walk.position());
    Ok(walk)
}

/// Appends the line of how many frames a core has at the position of a replay. The walk there is kept.
///
/// Condition: the core is 0 or 1.
pub fn show_frames<'a>(
    alloc: Global,
    out: &mut Vec<u8>,
    core: u8,
    replay: &Replay<'a>,
    kept: &mut Option<FrameWalk<'a>>,
) -> Result<(), AllocError>
    requires core { core < 2 }
    requires kept { IsOf kept.old replay.now.image replay.now.run }
    ensures text { OnOk result (out.new.items ≡ out.old.items ++ frames_text core (depth_at replay.now.image replay.now.run core replay.now.position)) }
    ensures kept { IsOf kept.new replay.now.image replay.now.run }
{
    let walk = walk_at(alloc, kept.take(), replay)?;
    let pushed = push_frames(alloc, out, core, walk.depth(core));
    *kept = Some(walk);
    pushed
}

/// Appends the lines of the frames of a core at the position of a replay, or the line that says that they are not known.
/// The walk there is kept.
///
/// Condition: the core is 0 or 1.
pub fn show_calls<'a>(
    alloc: Global,
    out: &mut Vec<u8>,
    core: u8,
    replay: &Replay<'a>,
    kept: &mut Option<FrameWalk<'a>>,
) -> Result<(), AllocError>
    requires core { core < 2 }
    requires kept { IsOf kept.old replay.now.image replay.now.run }
    ensures text { OnOk result (out.new.items ≡ out.old.items ++ calls_text core (stack_end core replay.now.run) (frame_at replay.now.image replay.now.run core replay.now.position)) }
    ensures kept { IsOf kept.new replay.now.image replay.now.run }
{
    let walk = walk_at(alloc, kept.take(), replay)?;
    let pushed = walk.push_calls(alloc, out, core);
    *kept = Some(walk);
    pushed
}
