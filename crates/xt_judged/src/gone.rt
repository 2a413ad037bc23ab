//! The stale bytes after a judged step.
ghost use Rattle.std.specs.Prelude.{◌≡◌, ◌+◌, ◌<◌, ◌≤◌, ◌^◌, ◌==◌, ℕ, not, ◌&&◌, ◌||◌, Some, IfOk, OnOk, option_copied};
ghost use Rattle.xt_map.specs.Touching.{touches};
ghost use Rattle.xt_frames.specs.Breaches.{stale_after, stores_at};
ghost use Rattle.xt_frames.specs.Stacks.{Moves};
ghost use Rattle.xt_frames.specs.Walked.{Walked};
ghost use Rattle.xt_discipline.specs.Sides.{in_areas};
ghost use Rattle.xt_judged.specs.Lives.{AreApart, is_live_in};
ghost use Rattle.xt_judged.specs.Past.{HasRoom, IsBefore, IsOnStack};
ghost use Rattle.xt_judged.specs.Stales.{among, renewed};

use crate::bytes::{is_live_in, may_be_live_in};
use crate::stale::Stale;
use std::alloc::{AllocError, Global};
use xt_discipline::{Areas, areas, newest};
use xt_frames::Frames;
use xt_map::Access;

/// What is kept of a core's frames before a step.
#[derive(Clone, Copy)]
pub struct Before {
    /// How many callers there are.
    pub depth: u32,
    /// The save areas of the newest call, if there is one.
    pub call: Option<Areas>,
}

/// What is kept of a core's frames before a step.
pub fn kept_before(frames: &Frames) -> Before
    ensures kept { IsBefore result frames.now }
    ensures room { HasRoom result.call }
    ensures stack { IsOnStack frames.now }
{
    let depth = frames.depth();
    Before {
        depth,
        call: newest(frames, frames.limits().hi),
    }
}

// Adds a byte that is not live for either core. The only error is running out of memory.
fn add_one(
    stale: &mut Stale,
    own: &Frames,
    other: Option<&Frames>,
    addr: u32,
) -> Result<(), AllocError>
    ensures { OnOk result ((a : ℕ) → among stale.new a ≡ ((addr == a && not (is_live_in own.now (option_copied other.entry) addr)) || among stale.old a)) }
{
    if is_live_in(own, other, u64::from(addr)) {
        return Ok(());
    }
    stale.add(addr)?;
    Ok(())
}

// Adds those of so many bytes that are not live for either core. The only error is running out of memory.
fn add_gone(
    stale: &mut Stale,
    own: &Frames,
    other: Option<&Frames>,
    from: u32,
    size: u32,
) -> Result<(), AllocError>
    requires { 0 < size → from + size ≤ 2 ^ 32 }
    ensures { OnOk result ((a : ℕ) → among stale.new a ≡ (among stale.old a || (touches from size a && not (is_live_in own.now (option_copied other.entry) a)))) }
{
    let start = u64::from(from);
    if !stale.has_some(from, size) && !may_be_live_in(own, other, start, u64::from(size)) {
        stale.add_run(from, size)?;
        return Ok(());
    }
    for k in 0..size {
        add_one(stale, own, other, from + k)?;
    }
    Ok(())
}

// The stale bytes after a return from the call with these areas. The only error is running out of memory.
fn past_return(
    alloc: Global,
    call: Areas,
    own: &Frames,
    other: Option<&Frames>,
    stale: &Stale,
    access: Option<Access>,
) -> Result<Stale, AllocError>
    requires { HasRoom (Some call) }
    ensures { IfOk result (λ s. (a : ℕ) → among s a ≡ ((among stale.now a && not (stores_at access a)) || (in_areas call a && not (is_live_in own.now (option_copied other.entry) a)))) }
{
    let mut after = stale.spared(alloc, access, None)?;
    add_gone(&mut after, own, other, call.low, 16)?;
    add_gone(&mut after, own, other, call.high, call.size)?;
    Ok(after)
}

// The stale bytes after a step that stays in its frame; none where they are the same. The only error is
// running out of memory.
fn past_stay(
    alloc: Global,
    stale: &Stale,
    access: Option<Access>,
) -> Result<Option<Stale>, AllocError>
    ensures { IfOk result (λ s. (a : ℕ) → among (renewed stale.now s) a ≡ (among stale.now a && not (stores_at access a))) }
{
    if !stale.is_written(access) {
        return Ok(None);
    }
    Ok(Some(stale.spared(alloc, access, None)?))
}

/// The stale bytes after a judged step with this access; none where they are the same. The only error is
/// running out of memory.
pub fn stale_past(
    alloc: Global,
    before: Before,
    own: &Frames,
    other: Option<&Frames>,
    stale: &Stale,
    access: Option<Access>,
) -> Result<Option<Stale>, AllocError>
    requires { HasRoom before.call }
    ensures { IfOk result (λ s. (w : Walked) → IsBefore before w → own.now.bounds ≡ w.bounds → Moves w.state own.now.state → AreApart w (option_copied other.entry) stale.now
        → (a : ℕ) → among (renewed stale.now s) a ≡ stale_after (is_live_in own.now (option_copied other.entry)) (is_live_in w (option_copied other.entry)) (among stale.now) access a) }
{
    let depth = own.depth();
    if depth == before.depth {
        return past_stay(alloc, stale, access);
    }
    if before.depth < depth {
        let call = areas(own, own.limits().hi);
        return Ok(Some(stale.spared(alloc, access, Some(call))?));
    }
    match before.call {
        Some(call) => Ok(Some(past_return(alloc, call, own, other, stale, access)?)),
        None => Ok(None),
    }
}
