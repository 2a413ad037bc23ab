//! The judge over the turns of both cores.
#![tactic(auto)]

ghost use Rattle.std.specs.Prelude.{◌≡◌, ◌+◌, ◌<◌, ◌^◌, ℕ, List, IfOk, length};
ghost use Rattle.xt_map.specs.Memory.{constant_byte};
ghost use Rattle.xt_map.specs.Placing.{IsPlaced};
ghost use Rattle.xt_core.specs.Runs.{IsRunOf};
ghost use Rattle.xt_frames.specs.Breaches.{Bounds};
ghost use Rattle.xt_frames.specs.Verdict.{Known};
ghost use Rattle.xt_discipline.specs.Schedules.{HasSchedule, schedule_in};
ghost use Rattle.xt_shadow.specs.Shadows.{IsFound, IsFoundIn, IsOpenedWalk, IsWalked, KnowsBoth, judged_from, shown};

use crate::cores::{End, ShadowCore};
use crate::lookups::Lookups;
use std::alloc::{AllocError, Global};
use xt_discipline::{Held, ScheduleIter, opening_marks};
use xt_frames::Judged;
use xt_image::Image;
use xt_map::Constants;
use xt_trace::Run;

/// The judge so far: both cores past the turns that were made, and what is known of memory.
pub struct ShadowWalk<'a> {
    pub code: Lookups<'a>,
    pub side0: ShadowCore<'a>,
    pub side1: ShadowCore<'a>,
    /// What is known of each byte of internal data memory.
    pub marks: Vec<Held>,
}

// A `drop` of its own is one call at each place where a value is dropped.
impl Drop for ShadowWalk<'_> {
    fn drop(self) {
        let ShadowWalk {
            code: _,
            side0: _,
            side1: _,
            marks: _,
        } = self;
    }
}

impl<'a> ShadowWalk<'a> {
    /// Both cores as a run of an image opens. The only error is running out of memory; all of it is
    /// taken here.
    pub fn open(alloc: Global, image: &'a Image, run: &'a Run) -> Result<ShadowWalk<'a>, AllocError>
        requires run { IsRunOf image.now run.now }
        requires placed { IsPlaced image.now.segments }
        ensures { IfOk result (λ w. IsOpenedWalk image.now run.now w) }
    {
        let constants = Constants::make(alloc, image.segments.as_slice())?;
        let code = Lookups::make(alloc, constants)?;
        let side0 = ShadowCore::open(alloc, image, run, 0)?;
        let side1 = ShadowCore::open(alloc, image, run, 1)?;
        let marks = opening_marks(alloc, &run.options)?;
        Ok(ShadowWalk {
            code,
            side0,
            side1,
            marks,
        })
    }

    /// The next turn of this core, if it has one.
    #[inline(always)]
    fn turn(&mut self, core: u8) -> Result<(), End>
        requires core { core < 2 }
        requires known { (b0 : Bounds) × (b1 : Bounds) × (k : Known) × KnowsBoth self.old b0 b1 k }
        requires room { (shown self.old.side0).steps + (shown self.old.side1).steps + 1 < 2 ^ 32 }
        ensures { (b0 b1 : Bounds) (k : Known) → KnowsBoth self.old b0 b1 k → IsWalked (constant_byte self.old.code) b0 b1 core k self.old self.new result }
    {
        if core == 0 {
            self.side0.turn(&mut self.code, &mut self.marks)
        } else {
            self.side1.turn(&mut self.code, &mut self.marks)
        }
    }

    /// The turns of a run in the order of its schedule.
    fn follow(&mut self, run: &Run) -> Result<(), End>
        requires schedule { HasSchedule run.now }
        requires known { (b0 : Bounds) × (b1 : Bounds) × (k : Known) × KnowsBoth self.old b0 b1 k }
        requires room { (shown self.old.side0).steps + (shown self.old.side1).steps + length (schedule_in run.now) < 2 ^ 32 }
        ensures { (b0 b1 : Bounds) (k : Known) → KnowsBoth self.old b0 b1 k → IsFound (judged_from (constant_byte self.old.code) b0 b1 (schedule_in run.now) k self.old) result }
    {
        for core in ScheduleIter::of(run) {
            self.turn(core)?;
        }
        Ok(())
    }

    /// What is judged of a run; none where a turn was made in step that has to be judged as a whole.
    pub fn judge(&mut self, run: &Run) -> Option<Judged>
        requires schedule { HasSchedule run.now }
        requires known { (b0 : Bounds) × (b1 : Bounds) × (k : Known) × KnowsBoth self.old b0 b1 k }
        requires room { (shown self.old.side0).steps + (shown self.old.side1).steps + length (schedule_in run.now) < 2 ^ 32 }
        ensures { (b0 b1 : Bounds) (k : Known) → KnowsBoth self.old b0 b1 k → IsFoundIn (judged_from (constant_byte self.old.code) b0 b1 (schedule_in run.now) k self.old) result }
    {
        match self.follow(run) {
            Ok(()) => Some(Judged::Whole),
            Err(End::Is(judged)) => Some(judged),
            Err(End::Lost) => None,
        }
    }
}
