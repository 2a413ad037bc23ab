//! The walk over a run that counts its call stacks.
#![tactic(auto)]

ghost use Rattle.std.specs.Prelude.{◌≡◌, ℕ, ◌+◌, ◌-◌, ◌<◌, ◌≤◌, ◌^◌, IfOk, OnOk, List, length};
ghost use Rattle.xt_map.specs.Memory.{constant_byte};
ghost use Rattle.xt_map.specs.Placing.{IsPlaced};
ghost use Rattle.xt_trace.specs.declared.record.StepRecord.{StepRecord};
ghost use Rattle.xt_frames.specs.Breaches.{Bounds};
ghost use Rattle.xt_frames.specs.Verdict.{Known, judgement};
ghost use Rattle.xt_discipline.specs.Ended.{records_left};
ghost use Rattle.xt_discipline.specs.Schedules.{HasSchedule, schedule_in};
ghost use Rattle.xt_discipline.specs.Verdicts.{are_yes};
ghost use Rattle.xt_discipline.specs.Walks.{IsOpened, Knows};
ghost use Rattle.xt_handlers.specs.CheckAnswers.{handlers_of};
ghost use Rattle.xt_core.specs.Runs.{IsRunOf, code_of};
ghost use Rattle.xt_profile.specs.Cuts.{AreAtCut, AreFresh, IsAtCut};
ghost use Rattle.xt_profile.specs.Follows.{AreCut, Follows, IsMade, depth_in};
ghost use Rattle.xt_profile.specs.Peeks.{pc_and_kind};
ghost use Rattle.xt_profile.specs.Profiled.{AddsUp, CoreAddsUp, core_profile, profile_of, records};
ghost use Rattle.xt_profile.specs.Steps.{Step};
ghost use Rattle.xt_profile.specs.CountedSteps.{IsTally, Origin, profile_of_steps, from_here};

use crate::peeked::Peeked;
use crate::profiles::{CoreProfile, Profile};
use crate::tally::Tally;
use std::alloc::{AllocError, Global};
use xt_core::Cursor;
use xt_discipline::{ScheduleIter, Walk, are_yes, handlers_of};
use xt_frames::HandlerPhase;
use xt_image::Image;
use xt_map::Constants;
use xt_trace::{Run, StepKind};

/// A turn that was made.
#[derive(Clone, Copy)]
pub struct Made {
    /// Its PC.
    pub pc: u32,
    /// What it was.
    pub phase: HandlerPhase,
    /// How many frames its core has after it.
    pub after: u32,
}

/// The PC and the kind of the next record of a core.
fn peek<'a>(
    core: u8,
    records0: &mut Peeked<'a>,
    records1: &mut Peeked<'a>,
) -> Option<(u32, StepKind)>
    requires { core < 2 }
    ensures same0 { records0.new ≡ records0.old }
    ensures same1 { records1.new ≡ records1.old }
    ensures peeked { result ≡ pc_and_kind (records_left core records0.old records1.old) }
{
    if core == 0 {
        records0.peek()
    } else {
        records1.peek()
    }
}

/// How many frames a core has.
fn depth_of(walk: &Walk, core: u8) -> u32
    requires { core < 2 }
    ensures { result ≡ depth_in core walk.now }
{
    let (depth0, depth1) = walk.depths();
    if core == 0 { depth0 } else { depth1 }
}

/// The next turn of a core: none where the core has no record left, or a breach comes.
fn turn<'a>(
    walk: &mut Walk,
    core: u8,
    records0: &mut Peeked<'a>,
    records1: &mut Peeked<'a>,
) -> Option<Made>
    requires core { core < 2 }
    requires known { (b0 : Bounds) × (b1 : Bounds) × (k : Known) × Knows walk.old b0 b1 k }
    requires room { walk.old.side0.steps + walk.old.side1.steps + 1 < 2 ^ 32 }
    ensures { (b0 b1 : Bounds) (k : Known) → Knows walk.old b0 b1 k
        → IsMade (constant_byte walk.old.code) b0 b1 core k records0.old records1.old walk.new records0.new records1.new result }
{
    let Some((pc, kind)) = peek(core, records0, records1) else {
        return None;
    };
    let phase = walk.phase(core, kind);
    match walk.turn(core, records0, records1) {
        Ok(()) => {
            let after = depth_of(walk, core);
            Some(Made { pc, phase, after })
        }
        Err(_) => None,
    }
}

/// Counts the turns of a run in the order of its schedule, up to the first breach.
fn follow<'a>(
    alloc: Global,
    walk: &mut Walk,
    run: &Run,
    records0: &mut Peeked<'a>,
    records1: &mut Peeked<'a>,
    tally0: &mut Tally,
    tally1: &mut Tally,
) -> Result<(), AllocError>
    requires schedule { HasSchedule run.now }
    requires known { (b0 : Bounds) × (b1 : Bounds) × (k : Known) × (e0 : Origin) × (e1 : Origin) × Follows (constant_byte walk.old.code) b0 b1 k (schedule_in run.now) e0 e1 records0.old records1.old walk.old 0 records0.old records1.old tally0.old tally1.old }
    requires room { walk.old.side0.steps + walk.old.side1.steps + length (schedule_in run.now) < 2 ^ 32 }
    ensures { OnOk result ((b0 b1 : Bounds) (k : Known) (e0 e1 : Origin)
        → Follows (constant_byte walk.old.code) b0 b1 k (schedule_in run.now) e0 e1 records0.old records1.old walk.old 0 records0.old records1.old tally0.old tally1.old
        → AreCut (constant_byte walk.old.code) k e0 e1 records0.old records1.old (judgement (constant_byte walk.old.code) b0 b1 (schedule_in run.now) records0.old records1.old k) tally0.new tally1.new) }
{
    for core in ScheduleIter::of(run) {
        let Some(made) = turn(walk, core, records0, records1) else {
            return Ok(());
        };
        if core == 0 {
            tally0.step(alloc, made.pc, made.phase, made.after)?;
        } else {
            tally1.step(alloc, made.pc, made.phase, made.after)?;
        }
    }
    Ok(())
}

/// A core at the cut.
#[derive(Drop)]
pub struct AtCut {
    /// Its profile.
    pub profile: CoreProfile,
    /// How many of its turns stand before the cut.
    pub cut: u32,
    /// A tally of the turns from there on.
    pub tally: Tally,
}

/// A core at the cut, from what was counted before it. The core has so many turns in all.
fn at_cut(alloc: Global, tally: Tally, count: u32) -> Result<AtCut, AllocError>
    requires known { (opening : Origin) × (past : List Step) × IsTally opening past tally }
    requires within { tally.steps ≤ count }
    ensures profile { IfOk result (λ c. (opening : Origin) (past : List Step) → IsTally opening past tally → c.profile ≡ profile_of_steps opening past (count - tally.steps)) }
    ensures cut { IfOk result (λ c. c.cut ≡ tally.steps) }
    ensures tally { IfOk result (λ c. (opening : Origin) (past : List Step) → IsTally opening past tally → IsTally (from_here opening past) past c.tally) }
    ensures none { IfOk result (λ c. c.tally.steps ≡ 0) }
{
    let cut = tally.steps();
    let (turns, later) = tally.split(alloc)?;
    let profile = CoreProfile {
        lines: turns.lines,
        handlers: turns.handlers,
        after: count - cut,
    };
    Ok(AtCut {
        profile,
        cut,
        tally: later,
    })
}

/// The walk as both cores open, with all of their records.
fn pass_over<'a>(
    alloc: Global,
    image: &'a Image,
    run: &'a Run,
) -> Result<(Walk<'a>, Peeked<'a>, Peeked<'a>), AllocError>
    requires placed { IsPlaced image.now.segments }
    requires run { IsRunOf image.now run.now }
    ensures walk { IfOk result (λ p. IsOpened p.0 image.now.segments image.now.entry run.now.options) }
    ensures zero { IfOk result (λ p. p.1 ≡ records 0 image.now run.now) }
    ensures one { IfOk result (λ p. p.2 ≡ records 1 image.now run.now) }
{
    let cursor0 = Cursor::make(alloc, image, run, 0)?;
    let cursor1 = Cursor::make(alloc, image, run, 1)?;
    let code = Constants::make(alloc, image.segments.as_slice())?;
    let walk = Walk::open(alloc, code, image.entry, &run.options)?;
    Ok((walk, Peeked::new(cursor0), Peeked::new(cursor1)))
}

/// Counts the turns of a run before the first breach, where the tallies have counted none yet.
fn count_to_cut<'a>(
    alloc: Global,
    image: &'a Image,
    run: &'a Run,
    tally0: &mut Tally,
    tally1: &mut Tally,
) -> Result<(), AllocError>
    requires placed { IsPlaced image.now.segments }
    requires run { IsRunOf image.now run.now }
    requires fresh { (d : ℕ) × AreFresh d image.now run.now tally0.old tally1.old }
    ensures { OnOk result ((d : ℕ) → AreFresh d image.now run.now tally0.old tally1.old
        → AreAtCut d image.now run.now tally0.new tally1.new) }
{
    let (mut walk, mut records0, mut records1) = pass_over(alloc, image, run)?;
    follow(
        alloc,
        &mut walk,
        run,
        &mut records0,
        &mut records1,
        tally0,
        tally1,
    )
}

/// Both cores at the cut of a run whose window handlers pass the check.
pub fn cores(
    alloc: Global,
    depth: u32,
    image: &Image,
    run: &Run,
) -> Result<(AtCut, AtCut), AllocError>
    requires placed { IsPlaced image.now.segments }
    requires run { IsRunOf image.now run.now }
    ensures zero { IfOk result (λ p. IsAtCut 0 depth image.now run.now run.now.trace0.count p.0) }
    ensures one { IfOk result (λ p. IsAtCut 1 depth image.now run.now run.now.trace1.count p.1) }
{
    let mut tally0 = Tally::open(alloc, image.entry, depth)?;
    let mut tally1 = Tally::open(alloc, run.options.entry1, depth)?;
    count_to_cut(alloc, image, run, &mut tally0, &mut tally1)?;
    let zero = at_cut(alloc, tally0, run.trace0.count)?;
    let one = at_cut(alloc, tally1, run.trace1.count)?;
    Ok((zero, one))
}

/// The call profile of a run of an image: how many of its turns before the first breach each stack
/// of functions has, and how many are handler steps or come later. Nothing where a window handler
/// does not pass the check. The only error is running out of memory.
///
/// A stack of more than `depth` functions has a cut key, with the first of them and the last `depth` less one.
///
/// Conditions: the run is the image's. The image's segments lie in one region each and share no
/// byte, as those of every image that was read.
#[tactic(auto, unfolding(crate::specs::Profiled::profile_of))]
pub fn profile(alloc: Global, depth: u32, image: &Image, run: &Run) -> Result<Profile, AllocError>
    requires placed { IsPlaced image.now.segments }
    requires run { IsRunOf image.now run.now }
    ensures profile { IfOk result (λ profile. profile ≡ profile_of depth image.now run.now) }
    ensures sums { IfOk result (λ profile. AddsUp profile run.now) }
{
    let handlers = handlers_of(alloc, image, run.options.vecbase)?;
    if !are_yes(&handlers) {
        return Ok(Profile::Unchecked);
    }
    let (zero, one) = cores(alloc, depth, image, run)?;
    Ok(Profile::Cores(zero.profile, one.profile))
}
