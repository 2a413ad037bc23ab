//! One core of the walk.
#![tactic(auto)]

ghost use Rattle.std.specs.Prelude.{◌≡◌, ◌<◌, ◌+◌, ◌^◌, ℕ, Bool, true, false, length};
ghost use Rattle.xt_map.specs.Memory.{constant_byte};
ghost use Rattle.xt_frames.specs.Frames.{FrameState};
ghost use Rattle.xt_frames.specs.FrameStep.{with_inputs};
ghost use Rattle.xt_frames.specs.HandlerSteps.{phase_after};
ghost use Rattle.xt_frames.specs.Judging.{seen_record, seen_judged};
ghost use Rattle.xt_frames.specs.Nesting.{current};
ghost use Rattle.xt_frames.specs.Stacks.{Moves, Stack};
ghost use Rattle.xt_frames.specs.Breaches.{inputs_of, stores_at, window_breach};
ghost use Rattle.xt_discipline.specs.ByteMarks.{AreChanged, KnowsOf};
ghost use Rattle.xt_discipline.specs.declared.bytes.Change.TheVariants.{Stored};
ghost use Rattle.xt_discipline.specs.Sides.{Begins, IsCallOf, IsFollowed, IsSeen, IsSide, in_areas, live_in, standing_of};

use crate::accesses::{loads, saves};
use crate::bytes::{Change, Held, change_bytes};
use crate::calling::{areas, newest};
use crate::roles::{Role, phase_after, role_of};
use xt_frames::{Breach, Frames, HandlerPhase};
use xt_map::{Access, Constants, Kind};
use xt_trace::StepRecord;

/// The two save areas of a call.
#[derive(Clone, Copy)]
pub struct Areas {
    /// The first of the 16 bytes below the callee's stack pointer.
    pub low: u32,
    /// The first of the bytes that end 16 below the stack pointer of the caller's caller.
    pub high: u32,
    /// How many those are.
    pub size: u32,
}

/// One core of the walk.
#[derive(Drop)]
pub struct Side {
    pub core: u8,
    pub hi: u32,
    pub frames: Frames,
    // Before the next record.
    pub phase: HandlerPhase,
    // The number of the next record.
    pub steps: u32,
}

/// Changes what is known of the bytes of two areas.
pub fn change_areas(marks: &mut [Held], change: Change, areas: Areas)
    ensures len { length marks.new ≡ length marks.old }
    ensures bytes { AreChanged change (in_areas areas) marks.old marks.new }
{
    change_bytes(marks, change, u64::from(areas.low), 16);
    change_bytes(marks, change, u64::from(areas.high), u64::from(areas.size));
}

/// A judged store makes the bytes that it touches fresh.
pub fn store(marks: &mut [Held], access: Option<Access>)
    ensures len { length marks.new ≡ length marks.old }
    ensures bytes { AreChanged Stored (stores_at access) marks.old marks.new }
{
    if let Some(access) = access {
        if let Kind::Store(_) = access.kind {
            change_bytes(
                marks,
                Change::Stored,
                u64::from(access.addr),
                u64::from(access.size),
            );
        }
    }
}

impl Side {
    /// Follows the frames, which were `depth` in number before the step, with the newest call's areas `call`.
    fn follow(&self, marks: &mut [Held], depth: u32, call: Option<Areas>)
        requires { IsSide self.now }
        ensures len { length marks.new ≡ length marks.old }
        ensures stack { Stack self.now.frames.bounds.range.lo self.now.frames.bounds.range.hi self.now.frames.state.seen self.now.frames.state.frames }
        ensures follows { (g : FrameState) (m : Moves g self.now.frames.state) → depth ≡ length g.frames → IsCallOf call self.now.hi g
            → IsFollowed self.now.core self.now.hi g self.now.frames.state m marks.old marks.new }
    {
        if depth < self.frames.depth() {
            change_areas(
                marks,
                Change::Enters(self.core),
                areas(&self.frames, self.hi),
            );
        } else if self.frames.depth() < depth {
            if let Some(areas) = call {
                change_areas(marks, Change::Leaves(self.core), areas);
            }
        }
    }

    /// Judges a record that is no handler step: a breach, after which nothing has changed, or the frame step, whose save areas the marks
    /// follow, and then the phase is the next one.
    fn judge(
        &mut self,
        code: &Constants,
        marks: &mut [Held],
        rec: &StepRecord,
        nested: bool,
        next: HandlerPhase,
    ) -> Result<(), Breach>
        requires side { IsSide self.old }
        requires room { self.old.steps + 1 < 2 ^ 32 }
        requires next { next ≡ phase_after (constant_byte code.now) self.old.phase rec.now }
        requires len { length marks.old ≡ 0x52000 }
        ensures len { length marks.new ≡ length marks.old }
        ensures seen { (others stale : ℕ → Bool) → KnowsOf self.old.core marks.old (live_in self.old.frames) others stale
            → IsSeen self.old self.new marks.new others stale
            (seen_judged (constant_byte code.now) self.old.frames.bounds (standing_of self.old) others stale nested rec.now) result }
    {
        let saves = saves(marks, rec.access);
        let stale = loads(marks, rec.access);
        let depth = self.frames.depth();
        // The areas of the newest call are worked out only for a step that may leave its frame.
        if self
            .frames
            .quick(code, self.steps, rec, nested, saves, stale)
        {
            // (so that what its stack is past the step is known)
            let _depth = self.frames.depth();
            self.phase = next;
            self.steps += 1;
            store(marks, rec.access);
            return Ok(());
        }
        let call = newest(&self.frames, self.hi);
        self.frames
            .judge_whole(code, self.steps, rec, nested, saves, stale)?;
        self.phase = next;
        self.steps += 1;
        store(marks, rec.access);
        self.follow(marks, depth, call);
        Ok(())
    }

    /// Tests the record of a window exception outside handler steps: a breach, after which nothing has changed, or the first of the
    /// handler steps.
    fn begin(&mut self, code: &Constants, rec: &StepRecord) -> Result<(), Breach>
        requires { self.old.steps + 1 < 2 ^ 32 }
        ensures { Begins (window_breach (constant_byte code.now) rec.now.kind (with_inputs (inputs_of rec.now) (current self.old.frames.state))) self.old result self.new }
    {
        self.frames.test(code, self.steps, rec)?;
        self.phase = HandlerPhase::InHandler;
        self.steps += 1;
        Ok(())
    }

    /// Sees the core's next record, which is a handler step or judged.
    pub fn see(
        &mut self,
        code: &Constants,
        marks: &mut [Held],
        rec: &StepRecord,
    ) -> Result<(), Breach>
        requires side { IsSide self.old }
        requires room { self.old.steps + 1 < 2 ^ 32 }
        requires len { length marks.old ≡ 0x52000 }
        ensures len { length marks.new ≡ length marks.old }
        ensures seen { (others stale : ℕ → Bool) → KnowsOf self.old.core marks.old (live_in self.old.frames) others stale
            → IsSeen self.old self.new marks.new others stale
            (seen_record (constant_byte code.now) self.old.frames.bounds (standing_of self.old) others stale rec.now) result }
    {
        let next = phase_after(code, self.phase, rec);
        match role_of(self.phase, rec.kind) {
            Role::Own => self.judge(code, marks, rec, false, next),
            Role::NestedStep => self.judge(code, marks, rec, true, next),
            Role::Entry => self.begin(code, rec),
            Role::HandlerStep => {
                self.phase = next;
                self.steps += 1;
                Ok(())
            }
        }
    }
}
