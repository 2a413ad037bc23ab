//! One core of the judge: the processor's core, whose turns are made again, and its frames.
#![tactic(auto)]

ghost use Rattle.std.specs.Prelude.{◌≡◌, ◌<◌, ◌+◌, ◌^◌, ℕ, Bool, true, false, IfOk, length};
ghost use Rattle.xt_isa.specs.declared.Insn.{Insn};
ghost use Rattle.xt_map.specs.Memory.{constant_byte};
ghost use Rattle.xt_rows.specs.RowLaws.{IsRegister};
ghost use Rattle.xt_core.specs.Runs.{IsRunOf};
ghost use Rattle.xt_map.specs.Fetching.{fetch_at};
ghost use Rattle.xt_special.specs.Interrupts.{pending_of};
ghost use Rattle.xt_trace.specs.Traces.{replies_past, reply_for};
ghost use Rattle.xt_exec.specs.Halves.{IsPlan};
ghost use Rattle.xt_exec.specs.Turn.{demand, fetched_turn, planned_turn, turn};
ghost use Rattle.xt_discipline.specs.ByteMarks.{KnowsOf};
ghost use Rattle.xt_discipline.specs.Sides.{live_in, standing_of};
ghost use Rattle.xt_frames.specs.declared.kinds.HandlerPhase.TheVariants.{Outside};
ghost use Rattle.xt_frames.specs.Judging.{seen_record};
ghost use Rattle.xt_shadow.specs.Lookups.{IsTested};
ghost use Rattle.xt_shadow.specs.Shadows.{IsCore, IsMade, IsOpenedCore, IsPassed, IsReadyFor, IsSeenBy, IsStarted, IsTurned, core_state, records_left, settled, shown};

use crate::file::ShadowFile;
use crate::instructions::{agrees, is_executed, is_in_vectors, is_sp};
use crate::lookups::{Lookup, Lookups};
use crate::quiet::passes;
use crate::seeing::see;
use std::alloc::{AllocError, Global};
use xt_codec::Fetch;
use xt_core::{Replies, end_turn, head_of, left_past, local_turn};
use xt_discipline::{Held, Side};
use xt_exec::plans::{Effect, Plan};
use xt_exec::{Regs, plan};
use xt_frames::{Frames, HandlerPhase, Judged};
use xt_image::Image;
use xt_map::Constants;
use xt_rows::cause;
use xt_trace::{Run, StepKind, StepRecord};
use xt_window::Windows;

/// How the judge of a run ends.
#[derive(Clone, Copy)]
pub enum End {
    /// This is judged.
    Is(Judged),
    /// A turn was made in step that has to be judged as a whole.
    Lost,
}

/// One core of the judge.
#[derive(Drop)]
pub struct ShadowCore<'a> {
    /// What the judge knows of the core. In step the visible registers and the control state of its
    /// frames are out of date.
    pub side: Side,
    /// The registers of the processor before the next turn.
    pub regs: Regs<ShadowFile>,
    /// The turns that are left.
    pub left: u32,
    /// The replies to their accesses.
    pub replies: Replies<'a>,
    /// Whether the core is in step: the frames have the control state of the processor, but for EPC1.
    pub level: bool,
    /// Whether no interrupt has come in the middle of a window handler.
    pub plain: bool,
    /// In step the visible registers of the newest frame.
    pub seen: [Option<u32>; 16],
    /// VECBASE as it opened.
    pub vecbase: u32,
    /// Whether one of the next three windows may be a frame's. In step no turn moves a window, so
    /// this stays.
    pub near: bool,
}

impl<'a> ShadowCore<'a> {
    /// A core of a run as it opens. The only error is running out of memory.
    ///
    /// Conditions: the core is 0 or 1, and the run is the image's.
    pub fn open(
        alloc: Global,
        image: &Image,
        run: &'a Run,
        core: u8,
    ) -> Result<ShadowCore<'a>, AllocError>
        requires core { core < 2 }
        requires run { IsRunOf image.now run.now }
        ensures { IfOk result (λ c. IsOpenedCore image.now run.now core c) }
    {
        let options = &run.options;
        let (entry, turns, stack) = if core == 0 {
            (image.entry, options.turns0, options.stack0)
        } else {
            (options.entry1, options.turns1, options.stack1)
        };
        let side = Side {
            core,
            hi: stack.hi,
            frames: Frames::make(alloc, core, entry, options)?,
            phase: HandlerPhase::Outside,
            steps: 0,
        };
        Ok(ShadowCore {
            side,
            regs: Regs::open(core, entry, options.vecbase, stack.hi, ShadowFile::new()),
            left: turns,
            replies: Replies::of(run, core),
            level: false,
            plain: true,
            seen: [None; 16],
            vecbase: options.vecbase,
            near: true,
        })
    }

    /// Brings the frames up to date, so that the next turn is judged as a whole.
    #[inline(never)]
    fn settle(&mut self)
        requires { IsCore self.old }
        ensures { self.new ≡ settled self.old }
    {
        if self.level {
            self.side.frames.bring_level(
                self.side.steps,
                self.regs.pc,
                self.regs.waiting,
                &self.regs.sr,
                &self.seen,
            );
            self.level = false;
        }
    }

    /// Whether the instruction that was found at PC can be made in step.
    #[inline(always)]
    fn is_ready(&self, found: &Lookup) -> bool
        requires first { IsRegister found.now.first }
        requires second { IsRegister found.now.second }
        requires ahead { found.now.ahead < 4 }
        ensures { result ≡ true → (i : Insn) → IsTested found.now i → IsReadyFor i self.now }
    {
        self.level
            && found.is_plain
            && !self.regs.sr.excm()
            && self.regs.sr.vecbase() == self.vecbase
            && !is_in_vectors(self.vecbase, self.regs.pc)
            && agrees(&self.seen, &self.regs, found.first)
            && agrees(&self.seen, &self.regs, found.second)
            && (!self.near || self.regs.win.check(found.ahead).is_none())
    }

    /// The instruction at the program counter.
    #[inline(always)]
    fn instruction(&mut self, lookups: &mut Lookups) -> Plan
        requires inside { IsCore self.old }
        requires quiet { pending_of (core_state self.old).control ≡ 0 }
        requires goes { (core_state self.old).control.waits ≡ false }
        ensures plan { let s = core_state self.old in
            IsPlan result s (core_state self.new) (fetched_turn (fetch_at (constant_byte lookups.old) s.control.pc) (constant_byte lookups.old) s) }
        ensures started { IsStarted (constant_byte lookups.old) self.old self.new }
        ensures replies { self.new.replies ≡ self.old.replies }
        ensures code { lookups.new ≡ lookups.old }
    {
        let found = lookups.at(self.regs.pc);
        match found.fetch {
            Fetch::Fails(addr) => {
                self.settle();
                Plan::Done(self.regs.raise(cause::FETCH_ERROR, Some(addr)))
            }
            Fetch::Nothing => {
                self.settle();
                Plan::Done(self.regs.raise(cause::ILLEGAL_INSTRUCTION, None))
            }
            Fetch::Insn(insn, len) => {
                if !self.is_ready(&found) {
                    self.settle();
                }
                plan(&mut self.regs, lookups.code(), insn, len)
            }
        }
    }

    /// The next turn before its tick: an interrupt that can be taken, else waiting, else the
    /// instruction.
    #[inline(always)]
    #[tactic(auto, unfolding(xt_exec::specs::Turn::planned_turn))]
    fn start(&mut self, lookups: &mut Lookups) -> Plan
        requires inside { IsCore self.old }
        ensures plan { let s = core_state self.old in
            IsPlan result s (core_state self.new) (planned_turn (constant_byte lookups.old) s) }
        ensures started { IsStarted (constant_byte lookups.old) self.old self.new }
        ensures replies { self.new.replies ≡ self.old.replies }
        ensures code { lookups.new ≡ lookups.old }
    {
        match xt_special::entries::pending(&self.regs.sr) {
            Some(level) => {
                self.settle();
                Plan::Done(self.regs.interrupt(level))
            }
            None => {
                if self.regs.waiting {
                    self.settle();
                    Plan::Done(Effect {
                        kind: StepKind::Wait,
                        write: None,
                    })
                } else {
                    self.instruction(lookups)
                }
            }
        }
    }

    /// The next turn, with the reply that is left for it: its record.
    #[inline(always)]
    fn next(&mut self, lookups: &mut Lookups) -> StepRecord
        requires inside { IsCore self.old }
        ensures turn { let s = core_state self.old in let code = constant_byte lookups.old in
            (result, core_state self.new) ≡ turn code s (reply_for (demand code s) self.old.replies) }
        ensures rest { let s = core_state self.old in
            self.new.replies ≡ replies_past (demand (constant_byte lookups.old) s) self.old.replies }
        ensures owb { (core_state self.old).control.ps.owb < 16 }
        ensures started { IsStarted (constant_byte lookups.old) self.old self.new }
        ensures code { lookups.new ≡ lookups.old }
    {
        let head = head_of(&self.regs);
        let plan = self.start(lookups);
        match plan {
            Plan::Done(effect) => local_turn(&mut self.regs, head, effect),
            Plan::Bus(_, pending) => {
                let reply = self.replies.next();
                end_turn(&mut self.regs, pending, reply)
            }
        }
    }

    /// Makes the next turn: its record. The core is in step only if the turn was ready for that.
    ///
    /// Condition: a turn is left.
    #[inline(always)]
    fn make(&mut self, lookups: &mut Lookups) -> StepRecord
        requires inside { IsCore self.old }
        requires left { 0 < self.old.left }
        ensures made { IsMade (constant_byte lookups.old) self.old self.new result }
        ensures code { lookups.new ≡ lookups.old }
    {
        let rec = self.next(lookups);
        self.left = left_past(rec, self.left - 1);
        rec
    }

    /// Judges a turn that was made in step.
    #[inline(always)]
    fn pass(&mut self, marks: &mut [Held], rec: &StepRecord) -> Result<(), End>
        requires { self.old.side.steps + 1 < 2 ^ 32 }
        ensures len { length marks.new ≡ length marks.old }
        ensures passed { IsPassed self.old self.new marks.old marks.new rec.now result }
    {
        if !is_executed(rec.kind) || is_sp(rec.write) {
            return Err(End::Lost);
        }
        if !self.regs.sr.woe() || self.regs.sr.vecbase() != self.vecbase {
            return Err(End::Lost);
        }
        if !passes(marks, rec.access) {
            return Err(End::Lost);
        }
        if let Some(w) = rec.write {
            if w.reg > 15 {
                return Err(End::Lost);
            }
            self.seen[w.reg as usize] = Some(w.value);
        }
        self.side.steps += 1;
        Ok(())
    }

    /// Finds out whether the core is in step.
    fn find_level(&mut self)
        requires inside { IsCore self.old }
        requires level { self.old.level ≡ false }
        requires outside { self.old.side.phase ≡ Outside }
        ensures inside { IsCore self.new }
        ensures shown { shown self.new ≡ self.old.side }
        ensures rest { self.new ≡ record self.old { seen = self.new.seen; level = self.new.level; near = self.new.near } }
    {
        if !self.plain {
            return;
        }
        // (so that its stack is known)
        let _depth = self.side.frames.depth();
        if self.side.frames.is_level(
            self.side.steps,
            self.regs.pc,
            self.regs.waiting,
            &self.regs.sr,
        ) {
            self.seen = self.side.frames.seen();
            self.near = self.regs.win.check(3).is_some();
            self.level = true;
        }
    }

    /// Judges the record of a turn as a whole. `special` says that the core was in step before it.
    #[inline(never)]
    fn judge(
        &mut self,
        code: &Constants,
        marks: &mut [Held],
        rec: StepRecord,
        special: bool,
    ) -> Result<(), End>
        requires inside { IsCore self.old }
        requires level { self.old.level ≡ false }
        requires room { self.old.side.steps + 1 < 2 ^ 32 }
        requires len { length marks.old ≡ 0x52000 }
        requires known { (others : ℕ → Bool) × (stale : ℕ → Bool) × KnowsOf self.old.side.core marks.old (live_in self.old.side.frames) others stale }
        ensures len { length marks.new ≡ length marks.old }
        ensures kept { (code : ℕ → ℕ) → records_left code self.new ≡ records_left code self.old }
        ensures seen { (others stale : ℕ → Bool) → KnowsOf self.old.side.core marks.old (live_in self.old.side.frames) others stale
            → IsSeenBy self.old self.new marks.new others stale
            (seen_record (constant_byte code.now) self.old.side.frames.bounds (standing_of self.old.side) others stale rec) result }
    {
        if let Err(breach) = see(&mut self.side, code, marks, &rec, special) {
            return Err(End::Is(Judged::Broken(breach)));
        }
        match self.side.phase {
            HandlerPhase::Outside => self.find_level(),
            HandlerPhase::InHandler => {}
            HandlerPhase::Nested => self.plain = false,
        }
        Ok(())
    }

    /// The next turn of the core, if it has one: no breach, or how the judge ends.
    #[inline(never)]
    pub fn turn(&mut self, lookups: &mut Lookups, marks: &mut [Held]) -> Result<(), End>
        requires inside { IsCore self.old }
        requires room { self.old.side.steps + 1 < 2 ^ 32 }
        requires len { length marks.old ≡ 0x52000 }
        requires known { (others : ℕ → Bool) × (stale : ℕ → Bool) × KnowsOf (shown self.old).core marks.old (live_in (shown self.old).frames) others stale }
        ensures len { length marks.new ≡ length marks.old }
        ensures code { lookups.new ≡ lookups.old }
        ensures turned { (others stale : ℕ → Bool) → KnowsOf (shown self.old).core marks.old (live_in (shown self.old).frames) others stale
            → IsTurned (constant_byte lookups.old) self.old self.new marks.new others stale result }
    {
        if self.left == 0 {
            return Err(End::Is(Judged::Whole));
        }
        let special = self.level;
        let rec = self.make(lookups);
        if self.level {
            self.pass(marks, &rec)
        } else {
            self.judge(lookups.code(), marks, rec, special)
        }
    }
}
