//! The walk over the turns of both cores.
#![tactic(auto)]

ghost use Rattle.std.specs.Prelude.{◌≡◌, ◌+◌, ◌<◌, ◌^◌, ℕ, List, IfOk, length};
ghost use Rattle.xt_map.specs.Memory.{constant_byte};
ghost use Rattle.xt_map.specs.Placing.{IsPlaced};
ghost use Rattle.xt_core.specs.Runs.{IsRunOf};
ghost use Rattle.xt_frames.specs.Breaches.{Bounds};
ghost use Rattle.xt_discipline.specs.Schedules.{HasSchedule, schedule_in};
ghost use Rattle.xt_uses.specs.UseWalk.{UseKnown};
ghost use Rattle.xt_use_walk.specs.declared.walk.Uses.TheVariants.{Whole};
ghost use Rattle.xt_use_shadow.specs.Shadows.{IsFound, IsFoundIn, IsOpenedWalk, IsWalked, KnowsBoth, NeverSteps, judged_from, shown};

use crate::cores::UseShadow;
use crate::seeing::End;
use std::alloc::{AllocError, Global};
use xt_discipline::ScheduleIter;
use xt_image::Image;
use xt_map::Constants;
use xt_shadow::Lookups;
use xt_trace::Run;
use xt_use_walk::{Bytes, FirstUse, Uses, opening_bytes};
use xt_uses::Discipline;

/// The walk so far: both cores past the turns that were made, and what is known of memory.
#[derive(Drop)]
pub struct UseShadowWalk<'a> {
    pub code: Lookups<'a>,
    pub side0: UseShadow<'a>,
    pub side1: UseShadow<'a>,
    /// What is known of the bytes of memory.
    pub bytes: Bytes,
    /// The first breach, once it is found.
    pub first: Option<FirstUse>,
}

impl<'a> UseShadowWalk<'a> {
    /// Both cores as a run of an image opens. `may_step` says whether the walk may put them in step;
    /// if not, it judges each turn as a whole. The only error is running out of memory.
    pub fn open(
        alloc: Global,
        discipline: Discipline,
        image: &'a Image,
        run: &'a Run,
        may_step: bool,
    ) -> Result<UseShadowWalk<'a>, AllocError>
        requires run { IsRunOf image.now run.now }
        requires placed { IsPlaced image.now.segments }
        ensures { IfOk result (λ w. IsOpenedWalk discipline image.now run.now may_step w) }
    {
        let constants = Constants::make(alloc, image.segments.as_slice())?;
        let code = Lookups::make(alloc, constants)?;
        let side0 = UseShadow::open(alloc, discipline, image, run, 0, may_step)?;
        let side1 = UseShadow::open(alloc, discipline, image, run, 1, may_step)?;
        let bytes = opening_bytes(alloc, discipline, &run.options)?;
        Ok(UseShadowWalk {
            code,
            side0,
            side1,
            bytes,
            first: None,
        })
    }

    /// The next turn of this core, if it has one.
    #[inline(always)]
    fn turn(&mut self, core: u8) -> Result<(), End>
        requires core { core < 2 }
        requires known { (b0 : Bounds) × (b1 : Bounds) × (k : UseKnown) × KnowsBoth self.old b0 b1 k }
        requires room { (shown self.old.side0).steps + (shown self.old.side1).steps + 1 < 2 ^ 32 }
        ensures never { NeverSteps self.old → NeverSteps self.new }
        ensures turned { (b0 b1 : Bounds) (k : UseKnown) → KnowsBoth self.old b0 b1 k → IsWalked (constant_byte self.old.code) b0 b1 core k self.old self.new result }
    {
        if core == 0 {
            self.side0
                .turn(&mut self.code, &mut self.bytes, &mut self.first)
        } else {
            self.side1
                .turn(&mut self.code, &mut self.bytes, &mut self.first)
        }
    }

    /// The turns of a run in the order of its schedule.
    fn follow(&mut self, run: &Run) -> Result<(), End>
        requires schedule { HasSchedule run.now }
        requires known { (b0 : Bounds) × (b1 : Bounds) × (k : UseKnown) × KnowsBoth self.old b0 b1 k }
        requires room { (shown self.old.side0).steps + (shown self.old.side1).steps + length (schedule_in run.now) < 2 ^ 32 }
        ensures { (b0 b1 : Bounds) (k : UseKnown) → KnowsBoth self.old b0 b1 k → IsFound (constant_byte self.old.code) (judged_from (constant_byte self.old.code) b0 b1 (schedule_in run.now) k self.old) k self.old self.new result }
    {
        for core in ScheduleIter::of(run) {
            self.turn(core)?;
        }
        Ok(())
    }

    /// What is said where no breach came.
    #[tactic(auto, using(crate::proofs::Turning::shown_carried))]
    fn whole(&self) -> Uses
        ensures { result ≡ Whole (shown self.now.side0).carried (shown self.now.side1).carried }
    {
        Uses::Whole(self.side0.side.carried, self.side1.side.carried)
    }

    /// What the discipline says of a run, from here on; nothing if a turn was made in step that has
    /// to be judged as a whole. If the walk may put no core in step, it always says something.
    pub fn judge(&mut self, run: &Run) -> Result<Option<Uses>, AllocError>
        requires schedule { HasSchedule run.now }
        requires known { (b0 : Bounds) × (b1 : Bounds) × (k : UseKnown) × KnowsBoth self.old b0 b1 k }
        requires room { (shown self.old.side0).steps + (shown self.old.side1).steps + length (schedule_in run.now) < 2 ^ 32 }
        ensures { (b0 b1 : Bounds) (k : UseKnown) → KnowsBoth self.old b0 b1 k
            → IfOk result (IsFoundIn (constant_byte self.old.code) (judged_from (constant_byte self.old.code) b0 b1 (schedule_in run.now) k self.old) k self.old) }
    {
        match self.follow(run) {
            Ok(()) => Ok(Some(self.whole())),
            Err(End::NoTurn) => Ok(Some(self.whole())),
            Err(End::Breaks) => match self.first {
                Some(first) => Ok(Some(Uses::Broken(first))),
                None => unreachable!(),
            },
            Err(End::NoMemory(error)) => Err(error),
            Err(End::Lost) => Ok(None),
        }
    }
}
