//! The walk over the turns of both cores.
#![tactic(auto)]

ghost use Rattle.std.specs.Prelude.{◌≡◌, ◌<◌, ◌∷◌, ℕ, List, IfOk};
ghost use Rattle.xt_map.specs.Memory.{constant_byte};
ghost use Rattle.xt_map.specs.Placing.{IsPlaced};
ghost use Rattle.xt_trace.specs.Scheduled.{HasSchedule};
ghost use Rattle.xt_trace.specs.Schedule.{schedule_in};
ghost use Rattle.xt_core.specs.Runs.{IsRunOf};
ghost use Rattle.xt_simulation.specs.FirstLeak.{Watched};
ghost use Rattle.xt_simulation.specs.WatchedRuns.{has_byte_at, watched_of};
ghost use Rattle.xt_secret_walk.specs.Answers.{IsSaidOf};
ghost use Rattle.xt_secret_walk.specs.Walked.{IsFollowed, IsOn, IsTurned};

use crate::bytes::open_masks;
use crate::leak::{End, FirstLeak, Secrets};
use crate::side::Side;
use std::alloc::{AllocError, Global};
use xt_discipline::ScheduleIter;
use xt_image::Image;
use xt_map::Constants;
use xt_trace::Run;
use xt_use_walk::ByteMasks;

/// The walk so far: both cores past the turns that were made, and what is known of memory.
pub struct Walk<'a> {
    pub code: Constants<'a>,
    pub public: &'a [(u32, u32)],
    pub side0: Side<'a>,
    pub side1: Side<'a>,
    pub bytes: ByteMasks,
    /// The first leak, once it is found.
    pub leak: Option<FirstLeak>,
}

// A `drop` of its own is one call at each place where a value is dropped.
impl Drop for Walk<'_> {
    fn drop(self) {
        let Walk {
            code: _,
            public: _,
            side0: _,
            side1: _,
            bytes: _,
            leak: _,
        } = self;
    }
}

impl<'a> Walk<'a> {
    /// Both cores as a run of an image opens. The only error is running out of memory.
    pub fn open(
        alloc: Global,
        image: &'a Image,
        run: &'a Run,
        secret: &[(u32, u32)],
        public: &'a [(u32, u32)],
    ) -> Result<Walk<'a>, AllocError>
        requires run { IsRunOf image.now run.now }
        requires placed { IsPlaced image.now.segments }
        ensures { IfOk result (λ w. IsOn (watched_of image.now run.now (has_byte_at secret.now) (has_byte_at public.now)) w (schedule_in run.now) 0) }
    {
        let code = Constants::make(alloc, image.segments.as_slice())?;
        let bytes = open_masks(alloc, secret, public)?;
        let side0 = Side::open(image, run, 0);
        let side1 = Side::open(image, run, 1);
        Ok(Walk {
            code,
            public,
            side0,
            side1,
            bytes,
            leak: None,
        })
    }

    /// The next turn of this core, if it has one.
    ///
    /// Condition: the walk stands before this turn of a run.
    #[inline(always)]
    fn turn(&mut self, core: u8) -> Result<(), End>
        requires core { core < 2 }
        requires on { (r : Watched) × (cores : List ℕ) × (p : ℕ) × IsOn r self.old (core ∷ cores) p }
        ensures { (r : Watched) (cores : List ℕ) (p : ℕ) → IsOn r self.old (core ∷ cores) p → IsTurned r self.new cores p result }
    {
        if core == 0 {
            self.side0
                .turn(&self.code, self.public, &mut self.bytes, &mut self.leak)
        } else {
            self.side1
                .turn(&self.code, self.public, &mut self.bytes, &mut self.leak)
        }
    }

    /// The turns of a run in the order of its schedule.
    fn follow(&mut self, run: &Run) -> Result<(), End>
        requires schedule { HasSchedule run.now }
        requires on { (r : Watched) × IsOn r self.old (schedule_in run.now) 0 }
        ensures { (r : Watched) → IsOn r self.old (schedule_in run.now) 0 → IsFollowed r self.new result }
    {
        for core in ScheduleIter::of(run) {
            self.turn(core)?;
        }
        Ok(())
    }

    /// What is said of a run, from its beginning on.
    pub fn judge(&mut self, run: &Run) -> Secrets
        requires schedule { HasSchedule run.now }
        requires on { (r : Watched) × IsOn r self.old (schedule_in run.now) 0 }
        ensures { (r : Watched) → IsOn r self.old (schedule_in run.now) 0 → IsSaidOf r result }
    {
        match self.follow(run) {
            Err(End::Leaks) => match self.leak {
                Some(first) => Secrets::Leaks(first),
                None => unreachable!(),
            },
            Err(End::NoTurn) => Secrets::Whole(self.side0.carried, self.side1.carried),
            Ok(()) => Secrets::Whole(self.side0.carried, self.side1.carried),
        }
    }
}
