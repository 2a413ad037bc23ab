//! A core of the machine of uses.
#![tactic(auto)]

ghost use Rattle.std.specs.Prelude.{◌≡◌, ◌≤◌, ◌<◌, ◌+◌, ◌-◌, ◌%◌, ◌^◌, ℕ, Bool, true, false, None, All, length, slice_index_or, IfOk, IfSome, Ok, OnOk};
ghost use Rattle.xt_map.specs.Memory.{constant_byte};
ghost use Rattle.xt_map.specs.Regions.{is_mapped};
ghost use Rattle.xt_special.specs.Values.{control_at};
ghost use Rattle.xt_rows.specs.RowLaws.{IsRegister};
ghost use Rattle.xt_frames.specs.Breaches.{inputs_of};
ghost use Rattle.xt_frames.specs.Frames.{FrameState, value_or_zero};
ghost use Rattle.xt_frames.specs.FrameStep.{with_inputs};
ghost use Rattle.xt_frames.specs.Nesting.{current};
ghost use Rattle.xt_frames.specs.KeptFrameState.{IsNewest, IsSmall, state_at};
ghost use Rattle.xt_frames.specs.SaveAreas.{before};
ghost use Rattle.xt_frames.specs.Stacks.{IsRange, Stack};
ghost use Rattle.xt_frames.specs.Walked.{bounds_of, calls_in, sp_in, stack_of};
ghost use Rattle.xt_frames.specs.declared.holes.UndefinedParts.{UndefinedParts};
ghost use Rattle.xt_uses.specs.Lacks.{lack_of, lacks_among, lacks_before, mark_in};
ghost use Rattle.xt_uses.specs.UseBreaches.{use_breach, window_use};
ghost use Rattle.xt_uses.specs.UseState.{current_masks, is_strict_in};
ghost use Rattle.xt_uses.specs.Words.{all_bits};
ghost use Rattle.xt_uses.specs.UseQuick.{StandsStill};
ghost use Rattle.xt_uses.specs.UseLevels.{IsUseLevel, use_levelled};
ghost use Rattle.xt_uses.specs.UseParts.{AreFew, IsNewestMasks, IsTouched, IsUseJudged, IsUseTested, KeepsFew, UseMoves, fresh_at, kept_after, kept_of, opened_use};

use crate::discipline::{Discipline, is_strict};
use crate::lacking::Lack;
use crate::masks::{Keep, KeptMasks, TopMasks};
use crate::stepping::Top;
use crate::testing::{Touched, return_use, underflows};
use crate::told::{JudgeError, Used};
use crate::words::ALL_BITS;
use std::alloc::{AllocError, Global};
use std::marker::Model;
use xt_codec::{Fetch, instruction_at};
use xt_frames::{
    Breach, BreachKind, Caller, Case, FrameRegisters, Limits, Nested, UndefinedParts, calls_in,
    change, depth_of, newest_of, sp_in, under,
};
use xt_map::Constants;
use xt_rows::reads;
use xt_special::Special;
use xt_trace::{Options, Stack as Range, StepRecord};

/// A core of the machine of uses, as it walks over the judged records of its core. Contracts see its number, its stack range and
/// VECBASE, its state, whether EPC1 has what was last written, and the number of the record after the last judged one.
pub struct UseCore {
    core: u8,
    limits: Limits,
    top: Top,
    // The callers, the oldest first, and their masks.
    callers: Vec<Caller>,
    kept: Vec<KeptMasks>,
    fresh: bool,
    // The number of the record after the last judged one.
    next: u64,
}

// A `drop` of its own is one call at each place where a value is dropped.
impl Drop for UseCore {
    fn drop(self) {
        let UseCore {
            core: _,
            limits: _,
            top: _,
            callers: _,
            kept: _,
            fresh: _,
            next: _,
        } = self;
    }
}

impl Model for UseCore {
    ghost use Rattle.std.specs.Prelude.{◌<◌, All, IfSome, vec_capacity};
    ghost use Rattle.xt_special.specs.Shape.{IsPs};
    ghost use Rattle.xt_frames.specs.KeptFrameState.{AreKept, frames_of};
    ghost use Rattle.xt_frames.specs.Walked.{bounds_of};
    ghost use Rattle.xt_uses.specs.UseParts.{UseWalked, kept_of, use_at};

    ghost Value = { UseWalked };

    ghost view = { λ c. record { core = c.core; bounds = bounds_of c.limits; state = use_at (frames_of c.callers.items) (kept_of c.kept.items) c.top.holes c.top.view c.top.masks; fresh = c.fresh; next = c.next } };

    ghost invariant = { λ c. AreKept c.limits.lo c.limits.hi c.top.view c.callers.items (vec_capacity c.callers) × IfSome c.top.holes.nested (λ x. IsPs x.ps) × All (λ k. k.by < 4) c.kept.items };
}

/// The stack range of a core.
fn stack_of(core: u8, options: &Options) -> Range
    ensures { result ≡ stack_of core options.now }
{
    if core == 0 {
        options.stack0
    } else {
        options.stack1
    }
}

/// The masks of the callers after a step.
fn change_masks(kept: &mut Vec<KeptMasks>, keep: Keep) -> Result<(), AllocError>
    requires kept { All (λ k. k.by < 4) kept.old.items }
    requires keep { KeepsFew keep }
    ensures masks { OnOk result (kept_of kept.new.items ≡ kept_after keep (kept_of kept.old.items)) }
    ensures few { All (λ k. k.by < 4) kept.new.items }
{
    match keep {
        Keep::Stays => Ok(()),
        Keep::Keeps(masks) => {
            kept.push(masks)?;
            Ok(())
        }
        Keep::Restores => {
            let _masks = kept.pop();
            Ok(())
        }
    }
}

/// The masks of the newest caller, if any.
fn newest_masks(kept: &[KeptMasks]) -> Option<KeptMasks>
    requires { All (λ k. k.by < 4) kept.now }
    ensures newest { IsNewestMasks result (kept_of kept.now) }
    ensures few { AreFew result }
{
    let depth = kept.len();
    if depth == 0 {
        None
    } else {
        Some(kept[depth - 1])
    }
}

/// The mark that a visible register of a nested interrupt holds.
fn mark_in(nested: &Option<Nested>, number: u8) -> Option<u8>
    requires { number < 16 }
    ensures { result ≡ mark_in nested.now number }
{
    match nested {
        Some(x) => x.marks[number as usize],
        None => None,
    }
}

impl UseCore {
    /// A core of this discipline as it opens, at `pc`. It takes all memory that its frames ever need: room for (HI - LO)/16 + 2 of them. The only error
    /// is running out of memory.
    ///
    /// Conditions: the core is 0 or 1, `vecbase` is a multiple of 1024, and the core's stack range is one of multiples of 16 below
    /// 2^30, of 256 bytes at least.
    pub fn make(
        alloc: Global,
        discipline: Discipline,
        core: u8,
        pc: u32,
        options: &Options,
    ) -> Result<UseCore, AllocError>
        requires core { core < 2 }
        requires vecbase { options.now.vecbase % 2 ^ 10 ≡ 0 }
        requires stack { IsRange (stack_of core options.now).lo (stack_of core options.now).hi }
        ensures { IfOk result (λ c. c ≡ opened_use discipline core pc options.now) }
    {
        let stack = stack_of(core, options);
        let room = (stack.hi - stack.lo) / 16 + 2;
        let callers = Vec::with_capacity(alloc, room as usize)?;
        let kept = Vec::with_capacity(alloc, room as usize)?;
        Ok(UseCore {
            core,
            limits: Limits {
                lo: stack.lo,
                hi: stack.hi,
                vecbase: options.vecbase,
            },
            top: Top {
                view: FrameRegisters::open(core, pc, options.vecbase, stack.hi),
                holes: UndefinedParts {
                    unset: [false; 256],
                    nested: None,
                },
                masks: TopMasks::whole(discipline),
            },
            callers,
            kept,
            fresh: true,
            next: 0,
        })
    }

    fn breach(&self, step: u32, kind: BreachKind) -> Breach
        ensures { result ≡ record { core = self.now.core; step = step; kind = kind } }
    {
        Breach {
            core: self.core,
            step,
            kind,
        }
    }

    /// What a record of this number is tested by.
    fn case(&self, index: u32, touched: &Touched) -> Case
        ensures bounds { bounds_of result.limits ≡ self.now.bounds }
        ensures fresh { result.fresh ≡ fresh_at self.now index }
        ensures small { IsSmall result.newest }
        ensures newest { IsNewest result.newest self.now.state.frame.frames }
        ensures under { result.under ≡ before result.limits.hi self.now.state.frame.frames }
        ensures saves { result.saves ≡ touched.now.saves }
        ensures stale { result.stale ≡ false }
    {
        Case {
            limits: self.limits,
            fresh: self.fresh && self.next == u64::from(index),
            saves: touched.saves,
            stale: false,
            newest: newest_of(&self.callers),
            under: under(&self.callers, self.limits.hi),
        }
    }

    /// Whether EPC1 has what was last written, before the record of this number.
    #[inline(always)]
    fn is_fresh(&self, index: u32) -> bool
        ensures { result ≡ fresh_at self.now index }
    {
        self.fresh && self.next == u64::from(index)
    }

    /// Makes the step of a record of this number, if it shows no breach, stays in its frame with the stack pointer as it was, and reads
    /// and writes words of which each bit is known: whether it did. Else nothing has changed.
    ///
    /// Condition: the record's access is one that the bus serves.
    pub fn quick(
        &mut self,
        code: &Constants,
        index: u32,
        rec: &StepRecord,
        nested: bool,
        touched: &Touched,
    ) -> bool
        requires { IfSome rec.now.access (λ a. is_mapped a ≡ true) }
        ensures judged { result ≡ true → (live : ℕ → Bool) (bytes : ℕ → ℕ) → IsTouched touched.now rec.now live bytes
            → IsUseJudged (use_breach self.old.bounds (fresh_at self.old index) (constant_byte code.now) live bytes nested rec.now self.old.state) self.old (constant_byte code.now) index nested rec.now bytes (Ok (record { stored = all_bits; carries = false })) self.new }
        ensures still { result ≡ true → StandsStill self.old.state.frame self.new.state.frame }
        ensures other { result ≡ false → self.new ≡ self.old }
    {
        if nested {
            return false;
        }
        let fresh = self.is_fresh(index);
        if self.top.quick(self.limits, fresh, touched, code, rec) {
            self.fresh = fresh;
            self.next = u64::from(index) + 1;
            true
        } else {
            false
        }
    }

    /// Judges a record of this number, which is nested where `nested` says so, by what it touches: a breach, after which nothing has
    /// changed, or the step. Where memory runs out, nothing is said of the core from then on.
    ///
    /// Conditions: the record's access is one that the bus serves, and there are live bytes and masks of bytes that it touches so.
    #[inline(never)]
    pub fn judge(
        &mut self,
        code: &Constants,
        index: u32,
        rec: &StepRecord,
        nested: bool,
        touched: &Touched,
    ) -> Result<Used, JudgeError>
        requires access { IfSome rec.now.access (λ a. is_mapped a ≡ true) }
        requires touched { (live : ℕ → Bool) × (bytes : ℕ → ℕ) × IsTouched touched.now rec.now live bytes }
        ensures judged { (live : ℕ → Bool) (bytes : ℕ → ℕ) → IsTouched touched.now rec.now live bytes
            → IsUseJudged (use_breach self.old.bounds (fresh_at self.old index) (constant_byte code.now) live bytes nested rec.now self.old.state) self.old (constant_byte code.now) index nested rec.now bytes result self.new }
        ensures moves { OnOk result (UseMoves self.old.state.frame self.new.state.frame) }
    {
        let case = self.case(index, touched);
        let newest = newest_masks(&self.kept);
        match self.top.judge(&case, touched, &newest, code, rec, nested) {
            Ok(done) => {
                self.fresh = done.fresh;
                self.next = u64::from(index) + 1;
                change(&mut self.callers, done.call);
                if let Err(error) = change_masks(&mut self.kept, done.keep) {
                    return Err(JudgeError::NoMemory(error));
                }
                Ok(Used {
                    stored: done.stored,
                    carries: done.carries,
                })
            }
            Err(kind) => Err(JudgeError::Breaks(Breach {
                core: self.core,
                step: index,
                kind,
            })),
        }
    }

    /// The state that the step of a record finds.
    fn laid_view(&self, rec: &StepRecord) -> FrameRegisters
        ensures { (h : UndefinedParts) → h.unset ≡ self.now.state.frame.unset → h.nested ≡ self.now.state.frame.nested
            → state_at self.now.state.frame.frames h result ≡ with_inputs (inputs_of rec.now) (current self.now.state.frame) }
    {
        let mut view = self.top.view.current(&self.top.holes);
        view.lay(rec);
        view
    }

    /// Tests the record of a window exception: of an underflow the RETW at the state's PC is tested for Unset, ReturnMismatch and
    /// NoCaller. No other record shows anything.
    pub fn test(&self, code: &Constants, index: u32, rec: &StepRecord) -> Result<(), Breach>
        ensures { IsUseTested (window_use (constant_byte code.now) rec.now self.now.state) self.now index result }
    {
        if !underflows(rec.kind) {
            return Ok(());
        }
        let view = self.laid_view(rec);
        let top = &self.top;
        match return_use(
            code,
            &view,
            &top.masks,
            &top.holes,
            &newest_of(&self.callers),
        ) {
            Some(kind) => Err(self.breach(index, kind)),
            None => Ok(()),
        }
    }

    /// The visible registers. In a nested interrupt those that are kept.
    pub fn seen(&self) -> [Option<u32>; 16]
        ensures { result ≡ self.now.state.frame.seen }
    {
        self.top.view.seen()
    }

    /// The known bits of each of them.
    pub fn seen_masks(&self) -> [u32; 16]
        ensures { result ≡ self.now.state.masks.seen }
    {
        self.top.masks.seen
    }

    /// Whether the record of this number comes next after the last judged one, and the control state is seen to be this but for EPC1.
    ///
    /// Condition: both have 256 special registers.
    pub fn is_level(&self, index: u32, pc: u32, waits: bool, special: &Special) -> bool
        requires own { length self.now.state.frame.control.special ≡ 256 }
        requires others { length special.now.file ≡ 256 }
        ensures { result ≡ true → IsUseLevel self.now index (control_at pc waits special.now) }
    {
        self.next == u64::from(index) && self.top.view.is_level(pc, waits, special)
    }

    /// Takes these registers with their masks, and this control state but for EPC1, before the record of this number.
    ///
    /// Condition: a1 stays.
    pub fn bring_level(
        &mut self,
        index: u32,
        pc: u32,
        waits: bool,
        special: &Special,
        seen: &[Option<u32>; 16],
        masks: &[u32; 16],
    )
        requires { slice_index_or seen.now 1 None ≡ slice_index_or self.old.state.frame.seen 1 None }
        ensures { self.new ≡ record self.old { state = use_levelled self.old.state seen.now masks.now (control_at pc waits special.now); next = index } }
    {
        self.top.view.bring_level(pc, waits, special, seen);
        self.top.masks.seen = *masks;
        self.next = u64::from(index);
    }

    /// Whether its discipline is the strict one.
    pub fn is_strict(&self) -> bool
        ensures { result ≡ is_strict_in self.now.state }
    {
        is_strict(self.top.masks.discipline)
    }

    /// How many frames have called another.
    pub fn depth(&self) -> u32
        ensures depth { result ≡ length self.now.state.frame.frames }
        ensures stack { Stack self.now.bounds.range.lo self.now.bounds.range.hi self.now.state.frame.seen self.now.state.frame.frames }
    {
        depth_of(&self.callers)
    }

    /// The stack pointer of frame `j`, where the opening frame is 0.
    ///
    /// Condition: `j` is at most the depth.
    pub fn sp(&self, j: u32) -> u32
        requires { j ≤ length self.now.state.frame.frames }
        ensures { result ≡ sp_in self.now.state.frame.frames (value_or_zero self.now.state.frame.seen 1) (length self.now.state.frame.frames - j) }
    {
        sp_in(&self.callers, self.top.view.value_or_zero(1), j)
    }

    /// By how many windows frame `j` called, 1, 2 or 3.
    ///
    /// Condition: `j` is below the depth.
    pub fn calls(&self, j: u32) -> u8
        requires { j < length self.now.state.frame.frames }
        ensures { result ≡ calls_in self.now.state.frame.frames (length self.now.state.frame.frames - 1 - j) }
    {
        calls_in(&self.callers, j)
    }

    /// The known bits of a visible register, as the next step finds it.
    ///
    /// Condition: the number is below 16.
    pub fn known(&self, number: u8) -> u32
        requires { number < 16 }
        ensures { result ≡ slice_index_or (current_masks self.now.state) number 0 }
    {
        self.top
            .masks
            .visible(self.top.holes.nested.is_some(), number)
    }

    /// The register as a step finds it, where not every bit of it is known.
    fn lack(&self, view: &FrameRegisters, number: u8) -> Option<Lack>
        requires { number < 16 }
        ensures { (f : FrameState) → f.seen ≡ view.now.seen → result ≡ lack_of self.now.state f number }
    {
        let mask = self.known(number);
        if mask == ALL_BITS {
            return None;
        }
        Some(Lack {
            number,
            value: view.value_or_zero(number),
            mask,
            mark: mark_in(&self.top.holes.nested, number),
        })
    }

    /// The registers, of those that an instruction reads, once each and in the order of their numbers.
    fn lacks_among(
        &self,
        view: &FrameRegisters,
        first: Option<u8>,
        second: Option<u8>,
    ) -> (Option<Lack>, Option<Lack>)
        requires first { IsRegister first }
        requires second { IsRegister second }
        ensures { (f : FrameState) → f.seen ≡ view.now.seen → result ≡ lacks_among self.now.state f (first, second) }
    {
        match (first, second) {
            (None, _) => (None, None),
            (Some(x), None) => (self.lack(view, x), None),
            (Some(x), Some(y)) => {
                if x < y {
                    (self.lack(view, x), self.lack(view, y))
                } else if y < x {
                    (self.lack(view, y), self.lack(view, x))
                } else {
                    (self.lack(view, x), None)
                }
            }
        }
    }

    /// The registers that the instruction of a record reads and of which not every bit is known before its step, once each and in the
    /// order of their numbers.
    pub fn lacks(&self, code: &Constants, rec: &StepRecord) -> (Option<Lack>, Option<Lack>)
        ensures { result ≡ lacks_before (constant_byte code.now) rec.now self.now.state }
    {
        let view = self.laid_view(rec);
        match instruction_at::<Lack>(code, view.pc()) {
            Fetch::Insn(i, _) => {
                let (first, second) = reads(i);
                self.lacks_among(&view, first, second)
            }
            Fetch::Fails(_) | Fetch::Nothing => (None, None),
        }
    }
}
