//! A core of the machine with unbounded frames.
#![tactic(auto)]

ghost use Rattle.std.specs.Prelude.{◌≡◌, ◌≤◌, ◌<◌, ◌+◌, ◌%◌, ◌^◌, ℕ, Bool, true, false, None, length, IfOk, is_some, slice_index_or};
ghost use Rattle.xt_map.specs.Memory.{constant_byte};
ghost use Rattle.xt_frames.specs.Backtrace.{a0_of_frame, address_of_frame, size_of_frame};
ghost use Rattle.xt_frames.specs.FrameStep.{with_inputs};
ghost use Rattle.xt_frames.specs.Nesting.{current, mark_in};
ghost use Rattle.xt_frames.specs.SaveAreas.{before};
ghost use Rattle.xt_frames.specs.Breaches.{inputs_of, loads_stale, own_breach, touches_save_area, window_breach};
ghost use Rattle.xt_frames.specs.KeptFrameState.{IsNewest, IsSmall, state_at};
ghost use Rattle.xt_frames.specs.Stacks.{IsRange, Moves, Stack};
ghost use Rattle.xt_frames.specs.Walked.{IsJudged, IsTested, bounds_of, calls_at, found_in, fresh_before, opening_walked, sp_at, stack_of, walked_past};

use crate::breach::{Case, Limits, return_breach, underflows};
use crate::callers::{a0_in, calls_in, change, depth_of, newest_of, sp_in, under};
use crate::holes::UndefinedParts;
use crate::judged::judge;
use crate::kinds::{Breach, BreachKind};
use crate::view::{Caller, FrameRegisters};
use std::alloc::{AllocError, Global};
use std::marker::Model;
use xt_map::Constants;
use xt_rows::settling::return_pc;
use xt_trace::{Options, Stack as Range, StepRecord};

/// A core of the machine with unbounded frames, as it walks over the judged records of its core. Contracts see its number, its stack
/// range and VECBASE, its frame state, whether EPC1 has what was last written, and the number of the record after the last judged
/// one.
///
/// Its stack pointers lie in a chain, so that the frames that can stand on its stack are few, and there is room for all of them.
pub struct Frames {
    pub(crate) core: u8,
    pub(crate) limits: Limits,
    pub(crate) view: FrameRegisters,
    pub(crate) holes: UndefinedParts,
    // The callers, the oldest first.
    pub(crate) callers: Vec<Caller>,
    // Whether EPC1 has what was last written.
    pub(crate) fresh: bool,
    // The number of the record after the last judged one.
    pub(crate) next: u64,
}

// A `drop` of its own is one call at each place where a value is dropped.
impl Drop for Frames {
    fn drop(self) {
        let Frames {
            core: _,
            limits: _,
            view: _,
            holes: _,
            callers: _,
            fresh: _,
            next: _,
        } = self;
    }
}

impl Model for Frames {
    ghost use Rattle.std.specs.Prelude.{vec_capacity};
    ghost use Rattle.xt_frames.specs.KeptFrameState.{AreKept, frames_of, state_at};
    ghost use Rattle.xt_frames.specs.Walked.{Walked, bounds_of};

    ghost Value = { Walked };

    ghost view = { λ f. record { core = f.core; bounds = bounds_of f.limits; state = state_at (frames_of f.callers.items) f.holes f.view; fresh = f.fresh; next = f.next } };

    ghost use Rattle.std.specs.Prelude.{IfSome};
    ghost use Rattle.xt_special.specs.Shape.{IsPs};

    ghost invariant = { λ f. AreKept f.limits.lo f.limits.hi f.view f.callers.items (vec_capacity f.callers) × IfSome f.holes.nested (λ x. IsPs x.ps) };
}

impl Frames {
    /// A core as it opens, at `pc`. It takes all memory that its frames ever need: room for (HI - LO)/16 + 2 of them. The only error
    /// is running out of memory.
    ///
    /// Conditions: the core is 0 or 1, `vecbase` is a multiple of 1024, and the core's stack range is one of multiples of 16 below
    /// 2^30, of 256 bytes at least.
    pub fn make(alloc: Global, core: u8, pc: u32, options: &Options) -> Result<Frames, AllocError>
        requires core { core < 2 }
        requires vecbase { options.now.vecbase % 2 ^ 10 ≡ 0 }
        requires stack { IsRange (stack_of core options.now).lo (stack_of core options.now).hi }
        ensures { IfOk result (λ f. f ≡ opening_walked core pc options.now) }
    {
        let stack = stack_of(core, options);
        let room = (stack.hi - stack.lo) / 16 + 2;
        let view = FrameRegisters::open(core, pc, options.vecbase, stack.hi);
        let callers = Vec::with_capacity(alloc, room as usize)?;
        Ok(Frames {
            core,
            limits: Limits {
                lo: stack.lo,
                hi: stack.hi,
                vecbase: options.vecbase,
            },
            view,
            holes: UndefinedParts {
                unset: [false; 256],
                nested: None,
            },
            callers,
            fresh: true,
            next: 0,
        })
    }

    /// The newest caller, if any.
    fn newest(&self) -> Option<Caller>
        ensures newest { IsNewest result self.now.state.frames }
        ensures small { IsSmall result }
    {
        newest_of(&self.callers)
    }

    /// The newest caller's stack pointer, or HI.
    fn under(&self) -> u32
        ensures { result ≡ before self.now.bounds.range.hi self.now.state.frames }
    {
        under(&self.callers, self.limits.hi)
    }

    fn breach(&self, step: u32, kind: BreachKind) -> Breach
        ensures { result ≡ record { core = self.now.core; step = step; kind = kind } }
    {
        Breach {
            core: self.core,
            step,
            kind,
        }
    }

    /// What a record of this number is tested by.
    fn case(&self, index: u32, saves: bool, stale: bool) -> Case
        ensures bounds { bounds_of result.limits ≡ self.now.bounds }
        ensures fresh { result.fresh ≡ fresh_before self.now index }
        ensures small { IsSmall result.newest }
        ensures newest { IsNewest result.newest self.now.state.frames }
        ensures under { result.under ≡ before result.limits.hi self.now.state.frames }
        ensures saves { result.saves ≡ saves }
        ensures stale { result.stale ≡ stale }
    {
        Case {
            limits: self.limits,
            fresh: self.is_fresh(index),
            saves,
            stale,
            newest: self.newest(),
            under: self.under(),
        }
    }

    /// The state without its callers, in a nested interrupt that inside, over which the inputs of a record are laid.
    fn laid_view(&self, rec: &StepRecord) -> FrameRegisters
        ensures { (h : UndefinedParts) → h.unset ≡ self.now.state.unset → h.nested ≡ self.now.state.nested
            → state_at self.now.state.frames h result ≡ with_inputs (inputs_of rec.now) (current self.now.state) }
    {
        let mut view = self.view.current(&self.holes);
        view.lay(rec);
        view
    }

    /// Whether EPC1 has what was last written, before the record of this number.
    #[inline(always)]
    fn is_fresh(&self, index: u32) -> bool
        ensures { result ≡ fresh_before self.now index }
    {
        self.fresh && self.next == u64::from(index)
    }

    /// Makes the step of a record of this number, if it shows no breach and stays in its frame: whether it did. Else nothing has
    /// changed. Most steps are such. `judge_whole` serves all others.
    pub fn quick(
        &mut self,
        code: &Constants,
        index: u32,
        rec: &StepRecord,
        nested: bool,
        saves: bool,
        stale: bool,
    ) -> bool
        ensures judged { result ≡ true → (live dead : ℕ → Bool) → touches_save_area live rec.now.access ≡ saves → loads_stale live dead rec.now.access ≡ stale
            → (found_in self.old (constant_byte code.now) live dead index nested rec.now ≡ None) × (self.new ≡ walked_past self.old (constant_byte code.now) index nested rec.now) }
        ensures moves { result ≡ true → Moves self.old.state self.new.state }
        ensures frames { result ≡ true → self.new.state.frames ≡ self.old.state.frames }
        ensures other { result ≡ false → self.new ≡ self.old }
    {
        if nested || saves || stale || self.holes.nested.is_some() {
            return false;
        }
        let fresh = self.is_fresh(index);
        match self.view.quick(&self.holes, self.limits, fresh, code, rec) {
            Some(_) => {
                self.fresh = fresh;
                self.next = u64::from(index) + 1;
                true
            }
            None => false,
        }
    }

    /// Judges a record of this number, by the inputs, the written register and the access of the record, and by whether it is nested,
    /// alone: a breach, or the frame step. After a breach nothing has changed. Takes no memory.
    ///
    /// `saves` says whether the record's access is a store or S32C1I that touches a live save area of either core, and `stale`
    /// whether it is a load or S32C1I that touches a stale byte, or a load that touches a live save area.
    ///
    /// Condition: there are live and stale bytes for which both are so.
    #[inline(never)]
    pub fn judge_whole(
        &mut self,
        code: &Constants,
        index: u32,
        rec: &StepRecord,
        nested: bool,
        saves: bool,
        stale: bool,
    ) -> Result<(), Breach>
        requires { (live : ℕ → Bool) × (dead : ℕ → Bool) × (touches_save_area live rec.now.access ≡ saves) × (loads_stale live dead rec.now.access ≡ stale) }
        ensures judged { (live dead : ℕ → Bool) → touches_save_area live rec.now.access ≡ saves → loads_stale live dead rec.now.access ≡ stale
            → IsJudged (found_in self.old (constant_byte code.now) live dead index nested rec.now) self.old (constant_byte code.now) index nested rec.now result self.new }
        ensures moves { IfOk result (λ u. Moves self.old.state self.new.state) }
    {
        let case = self.case(index, saves, stale);
        match judge(&mut self.view, &mut self.holes, &case, code, rec, nested) {
            Ok(done) => {
                self.fresh = done.fresh;
                self.next = u64::from(index) + 1;
                change(&mut self.callers, done.call);
                Ok(())
            }
            Err(kind) => Err(Breach {
                core: self.core,
                step: index,
                kind,
            }),
        }
    }

    /// Judges a record of this number, by the inputs, the written register and the access of the record, and by whether it is nested,
    /// alone: a breach, or the frame step. After a breach nothing has changed. Takes no memory.
    ///
    /// `saves` says whether the record's access is a store or S32C1I that touches a live save area of either core, and `stale`
    /// whether it is a load or S32C1I that touches a stale byte, or a load that touches a live save area.
    ///
    /// Condition: there are live and stale bytes for which both are so.
    pub fn judge(
        &mut self,
        code: &Constants,
        index: u32,
        rec: &StepRecord,
        nested: bool,
        saves: bool,
        stale: bool,
    ) -> Result<(), Breach>
        requires { (live : ℕ → Bool) × (dead : ℕ → Bool) × (touches_save_area live rec.now.access ≡ saves) × (loads_stale live dead rec.now.access ≡ stale) }
        ensures judged { (live dead : ℕ → Bool) → touches_save_area live rec.now.access ≡ saves → loads_stale live dead rec.now.access ≡ stale
            → IsJudged (found_in self.old (constant_byte code.now) live dead index nested rec.now) self.old (constant_byte code.now) index nested rec.now result self.new }
        ensures moves { IfOk result (λ u. Moves self.old.state self.new.state) }
    {
        if self.quick(code, index, rec, nested, saves, stale) {
            Ok(())
        } else {
            self.judge_whole(code, index, rec, nested, saves, stale)
        }
    }

    /// Judges a record of this number by what one core alone shows: the first breach of a kind other than SaveStore and StaleLoad,
    /// or the frame step. After a breach nothing has changed. Takes no memory.
    pub fn step(
        &mut self,
        code: &Constants,
        index: u32,
        rec: &StepRecord,
        nested: bool,
    ) -> Result<(), Breach>
        ensures { IsJudged (own_breach self.old.bounds (fresh_before self.old index) (constant_byte code.now) nested rec.now self.old.state) self.old (constant_byte code.now) index nested rec.now result self.new }
    {
        self.judge(code, index, rec, nested, false, false)
    }

    /// Tests the record of a window exception: of an underflow the RETW at the frame state's PC is tested for Unset, ReturnMismatch
    /// and NoCaller. No other record shows anything.
    pub fn test(&self, code: &Constants, index: u32, rec: &StepRecord) -> Result<(), Breach>
        ensures { IsTested (window_breach (constant_byte code.now) rec.now.kind (with_inputs (inputs_of rec.now) (current self.now.state))) self.now index result }
    {
        if !underflows(rec.kind) {
            return Ok(());
        }
        let view = self.laid_view(rec);
        match return_breach(code, &view, &self.holes, &self.newest()) {
            Some(kind) => Err(self.breach(index, kind)),
            None => Ok(()),
        }
    }

    /// How many frames have called another.
    pub fn depth(&self) -> u32
        ensures depth { result ≡ length self.now.state.frames }
        ensures stack { Stack self.now.bounds.range.lo self.now.bounds.range.hi self.now.state.seen self.now.state.frames }
    {
        depth_of(&self.callers)
    }

    /// The stack pointer of frame `j`, where the opening frame is 0.
    ///
    /// Condition: `j` is at most the depth.
    pub fn sp(&self, j: u32) -> u32
        requires { j ≤ length self.now.state.frames }
        ensures { result ≡ sp_at self.now j }
    {
        sp_in(&self.callers, self.view.value_or_zero(1), j)
    }

    /// The a0 of frame `j`; none where it has no value.
    ///
    /// Condition: `j` is at most the depth.
    fn a0(&self, j: u32) -> Option<u32>
        requires { j ≤ length self.now.state.frames }
        ensures { result ≡ a0_of_frame self.now.state j }
    {
        a0_in(&self.callers, self.view.visible(0), j)
    }

    /// Where frame `j` goes on: the newest at PC, another where the frame that it called returns to; none where that frame's a0 has
    /// no value.
    ///
    /// Condition: `j` is at most the depth.
    pub fn address(&self, j: u32) -> Option<u32>
        requires { j ≤ length self.now.state.frames }
        ensures { result ≡ address_of_frame self.now.state j }
    {
        if j == self.depth() {
            return Some(self.view.pc());
        }
        let a0 = self.a0(j + 1)?;
        Some(return_pc(self.view.pc(), a0))
    }

    /// The bytes from the stack pointer of frame `j` up to its caller's, or up to HI.
    ///
    /// Condition: `j` is at most the depth.
    pub fn size(&self, j: u32) -> u32
        requires { j ≤ length self.now.state.frames }
        ensures { result ≡ size_of_frame self.now.bounds.range.hi self.now.state j }
    {
        let end = if j == 0 {
            self.limits.hi
        } else {
            self.sp(j - 1)
        };
        end.saturating_sub(self.sp(j))
    }

    /// By how many windows frame `j` called, 1, 2 or 3.
    ///
    /// Condition: `j` is below the depth.
    pub fn calls(&self, j: u32) -> u8
        requires { j < length self.now.state.frames }
        ensures { result ≡ calls_at self.now j }
    {
        calls_in(&self.callers, j)
    }

    /// Whether a register of the current frame has a value. In a nested interrupt these registers are kept.
    ///
    /// Condition: the register is one of a0 to a15.
    pub fn has_value(&self, i: u8) -> bool
        requires { i < 16 }
        ensures { result ≡ is_some (slice_index_or self.now.state.seen i None) }
    {
        self.view.visible(i).is_some()
    }

    /// The mark that a register holds in a nested interrupt, if it holds one.
    ///
    /// Condition: the register is one of a0 to a15.
    pub fn mark(&self, i: u8) -> Option<u8>
        requires { i < 16 }
        ensures { result ≡ mark_in self.now.state.nested i }
    {
        match &self.holes.nested {
            Some(nested) => nested.marks[i as usize],
            None => None,
        }
    }
}

/// The stack range of a core.
fn stack_of(core: u8, options: &Options) -> Range
    ensures { result ≡ stack_of core options.now }
{
    if core == 0 {
        options.stack0
    } else {
        options.stack1
    }
}
