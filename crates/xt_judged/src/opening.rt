//! How the search of what is judged opens.
ghost use Rattle.std.specs.Prelude.{◌≡◌, ◌<◌, None, IfOk};
ghost use Rattle.xt_trace.specs.Runs.{world_at_start};
ghost use Rattle.xt_trace.specs.Validity.{IsValid};
ghost use Rattle.xt_frames.specs.Judging.{opening_standing};
ghost use Rattle.xt_frames.specs.Walked.{opening_walked};
ghost use Rattle.xt_core.specs.Runs.{memory_of, opening_of};
ghost use Rattle.xt_map.specs.declared.contents.MemoryContents.{MemoryContents};
ghost use Rattle.xt_outcomes.specs.Dead.{spot_forgotten};
ghost use Rattle.xt_outcomes.specs.KeptWorlds.{spot_of};
ghost use Rattle.xt_outcomes.specs.Spots.{spot_in};
ghost use Rattle.xt_judged.specs.Forgotten.{Stands};
ghost use Rattle.xt_judged.specs.Kept.{IsFirst, standing_of};
ghost use Rattle.xt_judged.specs.Lives.{AreApart};
ghost use Rattle.xt_judged.specs.OwnJudges.{opening_judge};
ghost use Rattle.xt_judged.specs.WatchedKept.{judge_of, watched_of};
ghost use Rattle.xt_judged.specs.WatchedSearch.{first_watched};

use crate::scene::{Scene, Standing};
use crate::stale::Stale;
use crate::watched::{Fate, OwnJudge, Watched};
use std::alloc::{AllocError, Global};
use std::rc::Rc;
use xt_frames::{Frames, HandlerPhase};
use xt_image::Image;
use xt_outcomes::{Dead, Desk, World};
use xt_trace::Options;

// What the judge knows of a core that opens at `pc`. The only error is running out of memory.
#[tactic(auto, using(xt_discipline::proofs::Opens::range_of_core))]
fn standing(alloc: Global, core: u8, pc: u32, options: &Options) -> Result<Standing, AllocError>
    requires core { core < 2 }
    requires valid { IsValid options.now }
    ensures known { IfOk result (λ s. standing_of s ≡ opening_standing (opening_walked core pc options.now).state) }
    ensures bounds { IfOk result (λ s. s.frames.bounds ≡ (opening_walked core pc options.now).bounds) }
{
    let frames = Frames::make(alloc, core, pc, options)?;
    Ok(Standing {
        frames: frames.snapshot(alloc, 0)?,
        phase: HandlerPhase::Outside,
    })
}

// The same, to be shared. The only error is running out of memory.
fn shared_standing(
    alloc: Global,
    core: u8,
    pc: u32,
    options: &Options,
) -> Result<Rc<Standing>, AllocError>
    requires core { core < 2 }
    requires valid { IsValid options.now }
    ensures known { IfOk result (λ s. standing_of s.value ≡ opening_standing (opening_walked core pc options.now).state) }
    ensures bounds { IfOk result (λ s. s.value.frames.bounds ≡ (opening_walked core pc options.now).bounds) }
{
    let standing = standing(alloc, core, pc, options)?;
    Ok(Rc::new(alloc, standing)?)
}

/// The world in which the runs of an image open. The only error is running out of memory.
///
/// Condition: the options are valid.
pub fn open_world(
    alloc: Global,
    image: &Image,
    options: &Options,
    timed: bool,
) -> Result<World, AllocError>
    requires { IsValid options.now }
    ensures { IfOk result (λ w. spot_of (memory_of image.now options.now) w ≡ spot_in timed (world_at_start (opening_of image.now options.now))) }
{
    let mut desk = Desk::new(alloc)?;
    xt_outcomes::open(alloc, image, options, &mut desk, timed)
}

/// The scene in which the runs of an image open. The only error is running out of memory.
///
/// Condition: the options are valid.
pub fn open(
    alloc: Global,
    image: &Image,
    options: &Options,
    timed: bool,
) -> Result<Scene, AllocError>
    requires { IsValid options.now }
    ensures { IfOk result (IsFirst image.now options.now timed) }
{
    let world = open_world(alloc, image, options, timed)?;
    let standing0 = shared_standing(alloc, 0, image.entry, options)?;
    let standing1 = shared_standing(alloc, 1, options.entry1, options)?;
    let stale = Rc::new(alloc, Stale::none(alloc))?;
    Ok(Scene {
        world,
        standing0,
        standing1,
        stale,
        only: None,
        breach: None,
        turns: 0,
    })
}

// The judge of a core that opens at `pc`. The only error is running out of memory.
fn judge(alloc: Global, core: u8, pc: u32, options: &Options) -> Result<OwnJudge, AllocError>
    requires core { core < 2 }
    requires valid { IsValid options.now }
    ensures judge { IfOk result (λ j. judge_of j ≡ opening_judge (opening_walked core pc options.now)) }
    ensures apart { IfOk result (λ j. AreApart j.standing.frames None j.stale) }
{
    Ok(OwnJudge {
        standing: standing(alloc, core, pc, options)?,
        stale: Stale::none(alloc),
        fate: Fate::Goes,
    })
}

// The same, to be shared. The only error is running out of memory.
fn shared_judge(
    alloc: Global,
    core: u8,
    pc: u32,
    options: &Options,
) -> Result<Rc<OwnJudge>, AllocError>
    requires core { core < 2 }
    requires valid { IsValid options.now }
    ensures judge { IfOk result (λ j. judge_of j.value ≡ opening_judge (opening_walked core pc options.now)) }
    ensures apart { IfOk result (λ j. AreApart j.value.standing.frames None j.value.stale) }
{
    let judge = judge(alloc, core, pc, options)?;
    Ok(Rc::new(alloc, judge)?)
}

// The same world without the registers that are dead. The only error is running out of memory.
fn without_dead(alloc: Global, world: &World, dead: &Dead) -> Result<World, AllocError>
    ensures { IfOk result (λ w. (m : MemoryContents) → spot_of m w ≡ spot_forgotten dead.now.masks.items (spot_of m world.now)) }
{
    let mut side0 = world.side(0).copy();
    side0.forget(dead);
    let mut side1 = world.side(1).copy();
    side1.forget(dead);
    Ok(World {
        side0: Rc::new(alloc, side0)?,
        side1: Rc::new(alloc, side1)?,
        changes: world.changes.clone()?,
    })
}

/// Both cores as the runs of an image open, each with its judge, without the registers that are dead. The
/// only error is running out of memory.
///
/// Condition: the options are valid.
pub fn open_watched(
    alloc: Global,
    image: &Image,
    options: &Options,
    timed: bool,
    dead: &Dead,
) -> Result<Watched, AllocError>
    requires { IsValid options.now }
    ensures { IfOk result (λ w. Stands dead.now.masks.items (watched_of (memory_of image.now options.now) w) (first_watched image.now options.now timed)) }
{
    let whole = open_world(alloc, image, options, timed)?;
    let world = without_dead(alloc, &whole, dead)?;
    let judge0 = shared_judge(alloc, 0, image.entry, options)?;
    let judge1 = shared_judge(alloc, 1, options.entry1, options)?;
    Ok(Watched {
        world,
        judge0,
        judge1,
        turns: 0,
    })
}
