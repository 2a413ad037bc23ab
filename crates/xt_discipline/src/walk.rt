//! The walk over the records of both cores.
#![tactic(auto)]

ghost use Rattle.std.specs.Prelude.{◌≡◌, ◌+◌, ◌<◌, ◌^◌, ℕ, Bool, false, [], Err, IfOk, OnOk, length, replicate};
ghost use Rattle.xt_map.specs.Memory.{constant_byte};
ghost use Rattle.xt_trace.specs.declared.options.Options.{Options};
ghost use Rattle.xt_trace.specs.Validity.{IsValid};
ghost use Rattle.xt_frames.specs.declared.kinds.HandlerPhase.TheVariants.{Outside};
ghost use Rattle.xt_frames.specs.declared.kinds.Judged.TheVariants.{Whole};
ghost use Rattle.xt_frames.specs.Breaches.{Bounds};
ghost use Rattle.xt_frames.specs.Stacks.{IsRange};
ghost use Rattle.xt_frames.specs.Verdict.{Known, judgement, verdict_on};
ghost use Rattle.xt_frames.specs.Walked.{opening_walked, stack_of};
ghost use Rattle.xt_discipline.specs.ByteMarks.{AreOpened, IsEnd, KnowsOf, held_at, nothing};
ghost use Rattle.xt_discipline.specs.Phases.{step_phase};
ghost use Rattle.xt_discipline.specs.Places.{frames_in};
ghost use Rattle.xt_discipline.specs.Schedules.{HasSchedule, schedule_in};
ghost use Rattle.xt_discipline.specs.Sides.{IsSide, live_in};
ghost use Rattle.xt_discipline.specs.Ended.{HasEnded, IsFirst, IsTaken};
ghost use Rattle.xt_discipline.specs.Walks.{IsOpened, IsTurned, Knows, Turns, found_on, phase_in};

use crate::bytes::{Change, Held, change_bytes, nothing};
use crate::order::ScheduleIter;
use crate::roles::role_of;
use crate::side::Side;
use std::alloc::{AllocError, Global};
use xt_frames::{Frames, HandlerPhase, Judged};
use xt_map::Constants;
use xt_trace::{Options, Records, Run, StepKind};

/// The walk of the judge so far: what it knows of both cores past the turns that were made.
pub struct Walk<'a> {
    code: Constants<'a>,
    side0: Side,
    side1: Side,
    // What is known of each byte of internal data memory.
    marks: Vec<Held>,
}

// A `drop` of its own is one call at each place where a value is dropped.
impl Drop for Walk<'_> {
    fn drop(self) {
        let Walk {
            code: _,
            side0: _,
            side1: _,
            marks: _,
        } = self;
    }
}

/// A core as it opens.
#[tactic(auto, using(crate::proofs::Opens::range_of_core))]
fn side_of(alloc: Global, core: u8, pc: u32, options: &Options, hi: u32) -> Result<Side, AllocError>
    requires core { core < 2 }
    requires valid { IsValid options.now }
    requires end { hi ≡ (stack_of core options.now).hi }
    ensures { IfOk result (λ s. s ≡ record { core = core; hi = hi; frames = opening_walked core pc options.now; phase = Outside; steps = 0 }) }
{
    Ok(Side {
        core,
        hi,
        frames: Frames::make(alloc, core, pc, options)?,
        phase: HandlerPhase::Outside,
        steps: 0,
    })
}

/// Each stack opens with a word 76 below its end, which lies in a live save area.
fn open_stacks(marks: &mut [Held], hi0: u32, hi1: u32)
    requires len { length marks.old ≡ 0x52000 }
    requires zero { IsEnd hi0 }
    requires one { IsEnd hi1 }
    ensures len { length marks.new ≡ 0x52000 }
    ensures marks { ((a : ℕ) → held_at marks.old a ≡ nothing) → AreOpened marks.new hi0 hi1 }
{
    change_bytes(marks, Change::Enters(0), u64::from(hi0 - 76), 4);
    change_bytes(marks, Change::Enters(1), u64::from(hi1 - 76), 4);
}

/// So many bytes of which nothing is known.
fn unmarked(alloc: Global, count: u32) -> Result<Vec<Held>, AllocError>
    ensures { IfOk result (λ marks. marks.items ≡ replicate count nothing) }
{
    vec![in alloc; nothing(); count as usize]
}

/// What is known of the bytes as both cores open.
pub fn opening_marks(alloc: Global, options: &Options) -> Result<Vec<Held>, AllocError>
    requires { IsValid options.now }
    ensures len { IfOk result (λ marks. length marks.items ≡ 0x52000) }
    ensures marks { IfOk result (λ marks. AreOpened marks.items options.now.stack0.hi options.now.stack1.hi) }
{
    let mut marks = unmarked(alloc, 0x52000)?;
    open_stacks(&mut marks, options.stack0.hi, options.stack1.hi);
    Ok(marks)
}

/// The next record of a core, if it has one: no breach, or what is judged of the run.
fn turn_of<R: Records>(
    code: &Constants,
    side: &mut Side,
    marks: &mut [Held],
    records: &mut R,
) -> Result<(), Judged>
    requires side { IsSide side.old }
    requires room { side.old.steps + 1 < 2 ^ 32 }
    requires len { length marks.old ≡ 0x52000 }
    ensures len { length marks.new ≡ length marks.old }
    ensures turns { (others stale : ℕ → Bool) → KnowsOf side.old.core marks.old (live_in side.old.frames) others stale
        → Turns (constant_byte code.now) side.old side.new marks.new others stale (R.left records.old) (R.left records.new) result }
    ensures ended { result ≡ Err Whole → (R.left records.old ≡ []) × (side.new ≡ side.old) }
    ensures taken { OnOk result (IsFirst (R.left records.old) (R.left records.new)) }
{
    match records.next() {
        None => Err(Judged::Whole),
        Some(rec) => match side.see(code, marks, &rec) {
            Ok(()) => Ok(()),
            Err(breach) => Err(Judged::Broken(breach)),
        },
    }
}

impl<'a> Walk<'a> {
    /// Both cores as they open. The only error is running out of memory; all of it is taken here.
    pub fn open(
        alloc: Global,
        code: Constants<'a>,
        entry: u32,
        options: &Options,
    ) -> Result<Walk<'a>, AllocError>
        requires { IsValid options.now }
        ensures { IfOk result (λ w. IsOpened w code.entry entry options.now) }
    {
        let side0 = side_of(alloc, 0, entry, options, options.stack0.hi)?;
        let side1 = side_of(alloc, 1, options.entry1, options, options.stack1.hi)?;
        let marks = opening_marks(alloc, options)?;
        Ok(Walk {
            code,
            side0,
            side1,
            marks,
        })
    }

    /// How many frames of callers core 0 and core 1 have.
    pub fn depths(&self) -> (u32, u32)
        ensures { result ≡ (length self.now.side0.frames.state.frames, length self.now.side1.frames.state.frames) }
    {
        (self.side0.frames.depth(), self.side1.frames.depth())
    }

    /// The frames of a core.
    pub fn frames(&self, core: u8) -> &Frames
        requires { core < 2 }
        ensures { result.now ≡ frames_in core self.now }
    {
        if core == 0 {
            &self.side0.frames
        } else {
            &self.side1.frames
        }
    }

    /// What the next record of a core is, where it is of this kind.
    pub fn phase(&self, core: u8, kind: StepKind) -> HandlerPhase
        requires { core < 2 }
        ensures { result ≡ step_phase (phase_in core self.now) kind }
    {
        let before = if core == 0 {
            self.side0.phase
        } else {
            self.side1.phase
        };
        role_of(before, kind).phase()
    }

    /// The next record of this core, if it has one, which is taken: no breach, or what is judged of
    /// the run.
    ///
    /// Conditions: the core is 0 or 1, the walk began where both cores open, and fewer than 2^32 turns
    /// were made.
    pub fn turn<R: Records>(
        &mut self,
        core: u8,
        records0: &mut R,
        records1: &mut R,
    ) -> Result<(), Judged>
        requires core { core < 2 }
        requires known { (b0 : Bounds) × (b1 : Bounds) × (k : Known) × Knows self.old b0 b1 k }
        requires room { self.old.side0.steps + self.old.side1.steps + 1 < 2 ^ 32 }
        ensures turned { (b0 b1 : Bounds) (k : Known) → Knows self.old b0 b1 k
            → IsTurned (constant_byte self.old.code) b0 b1 core k (R.left records0.old) (R.left records1.old) self.new (R.left records0.new) (R.left records1.new) result }
        ensures ended { result ≡ Err Whole → HasEnded core self.old self.new (R.left records0.old) (R.left records1.old) }
        ensures taken { OnOk result (IsTaken core (R.left records0.old) (R.left records1.old) (R.left records0.new) (R.left records1.new)) }
    {
        if core == 0 {
            turn_of(&self.code, &mut self.side0, &mut self.marks, records0)
        } else {
            turn_of(&self.code, &mut self.side1, &mut self.marks, records1)
        }
    }

    /// The turns of a run in the order of its schedule. No breach, or what is judged of the run.
    fn follow<R: Records>(
        &mut self,
        run: &Run,
        records0: &mut R,
        records1: &mut R,
    ) -> Result<(), Judged>
        requires schedule { HasSchedule run.now }
        requires known { (b0 : Bounds) × (b1 : Bounds) × (k : Known) × Knows self.old b0 b1 k }
        requires room { self.old.side0.steps + self.old.side1.steps + length (schedule_in run.now) < 2 ^ 32 }
        ensures { (b0 b1 : Bounds) (k : Known) → Knows self.old b0 b1 k
            → found_on result ≡ verdict_on (judgement (constant_byte self.old.code) b0 b1 (schedule_in run.now) (R.left records0.old) (R.left records1.old) k).breach }
    {
        for core in ScheduleIter::of(run) {
            self.turn(core, records0, records1)?;
        }
        Ok(())
    }

    /// What is judged of a run, from here on.
    pub fn judge<R: Records>(&mut self, run: &Run, records0: &mut R, records1: &mut R) -> Judged
        requires schedule { HasSchedule run.now }
        requires known { (b0 : Bounds) × (b1 : Bounds) × (k : Known) × Knows self.old b0 b1 k }
        requires room { self.old.side0.steps + self.old.side1.steps + length (schedule_in run.now) < 2 ^ 32 }
        ensures { (b0 b1 : Bounds) (k : Known) → Knows self.old b0 b1 k
            → result ≡ verdict_on (judgement (constant_byte self.old.code) b0 b1 (schedule_in run.now) (R.left records0.old) (R.left records1.old) k).breach }
    {
        match self.follow(run, records0, records1) {
            Ok(()) => Judged::Whole,
            Err(judged) => judged,
        }
    }
}
