//! One core of the walk: the processor's core, whose turns are made again, and its frames with
//! what is known of them.
#![tactic(auto)]

ghost use Rattle.std.specs.Prelude.{◌≡◌, ◌<◌, ◌+◌, ◌^◌, ℕ, Bool, true, false, IfOk, IfSome};
ghost use Rattle.xt_isa.specs.declared.Insn.{Insn};
ghost use Rattle.xt_isa.specs.Ranges.{in_range};
ghost use Rattle.xt_map.specs.Memory.{constant_byte};
ghost use Rattle.xt_map.specs.Regions.{is_mapped};
ghost use Rattle.xt_rows.specs.RowLaws.{IsRegister};
ghost use Rattle.xt_core.specs.Runs.{IsRunOf};
ghost use Rattle.xt_map.specs.Fetching.{Fetches, fetch_at};
ghost use Rattle.xt_special.specs.Interrupts.{pending_of};
ghost use Rattle.xt_trace.specs.Traces.{replies_past, reply_for};
ghost use Rattle.xt_window.specs.Values.{WindowState};
ghost use Rattle.xt_exec.specs.declared.regs.Regs.{Regs};
ghost use Rattle.xt_exec.specs.Halves.{IsPlan};
ghost use Rattle.xt_exec.specs.Turn.{demand, fetched_turn, planned_turn, turn};
ghost use Rattle.xt_frames.specs.declared.kinds.HandlerPhase.TheVariants.{Outside};
ghost use Rattle.xt_shadow.specs.Lookups.{IsTested};
ghost use Rattle.xt_use_walk.specs.MaskedBytes.{AreFull, IsSpared, KnowsBytes};
ghost use Rattle.xt_use_walk.specs.Sides.{live_in};
ghost use Rattle.xt_use_shadow.specs.Shadows.{HasSp, IsAsked, IsCore, IsMade, IsOpenedCore, IsPassed, IsReadyFor, IsSeenBy, IsStarted, IsTurned, KnownAt, core_state, records_left, settled, shown};

use crate::file::UseFile;
use crate::seeing::{End, see};
use std::alloc::{AllocError, Global};
use xt_codec::Fetch;
use xt_core::{Replies, end_turn, head_of, left_past, local_turn};
use xt_exec::plans::{Effect, Plan};
use xt_exec::{Regs, plan};
use xt_frames::HandlerPhase;
use xt_image::Image;
use xt_map::{Access, Constants};
use xt_rows::cause;
use xt_shadow::{Lookup, Lookups, agrees, is_executed, is_in_vectors, is_sp};
use xt_trace::{Run, StepKind, StepRecord};
use xt_use_walk::{Bytes, FirstUse, Side, side_of};
use xt_uses::{ALL_BITS, Discipline};
use xt_window::Windows;

/// One core of the walk.
#[derive(Drop)]
pub struct UseShadow<'a> {
    /// What the walk knows of the core. In step the visible registers with their masks and the control
    /// state of its frames are out of date.
    pub side: Side,
    /// The registers of the processor before the next turn.
    pub regs: Regs<UseFile>,
    /// The turns that are left.
    pub left: u32,
    /// The replies to their accesses.
    pub replies: Replies<'a>,
    /// Whether the core is in step: the frames have the control state of the processor, but for EPC1.
    pub level: bool,
    /// Whether the walk may put the core in step. After an interrupt in the middle of a window
    /// handler it may not.
    pub may_step: bool,
    /// In step the visible registers of the newest frame.
    pub seen: [Option<u32>; 16],
    /// And the known bits of each.
    pub masks: [u32; 16],
    /// VECBASE as it opened.
    pub vecbase: u32,
    /// Whether one of the next three windows may be a frame's. In step no turn moves a window, so
    /// this stays.
    pub near: bool,
}

impl<'a> UseShadow<'a> {
    /// A core of a run as it opens. `may_step` says whether the walk may put it in step. The only
    /// error is running out of memory.
    ///
    /// Conditions: the core is 0 or 1, and the run is the image's.
    pub fn open(
        alloc: Global,
        discipline: Discipline,
        image: &Image,
        run: &'a Run,
        core: u8,
        may_step: bool,
    ) -> Result<UseShadow<'a>, AllocError>
        requires core { core < 2 }
        requires run { IsRunOf image.now run.now }
        ensures { IfOk result (λ c. IsOpenedCore discipline image.now run.now core may_step c) }
    {
        let options = &run.options;
        let (entry, turns, stack) = if core == 0 {
            (image.entry, options.turns0, options.stack0)
        } else {
            (options.entry1, options.turns1, options.stack1)
        };
        let side = side_of(alloc, discipline, core, entry, options, stack.hi)?;
        Ok(UseShadow {
            side,
            regs: Regs::open(core, entry, options.vecbase, stack.hi, UseFile::new()),
            left: turns,
            replies: Replies::of(run, core),
            level: false,
            may_step,
            seen: [None; 16],
            masks: [0; 16],
            vecbase: options.vecbase,
            near: true,
        })
    }

    /// Brings the frames up to date, so that the next turn is judged as a whole.
    #[inline(never)]
    fn settle(&mut self)
        requires sp { self.old.level ≡ true → HasSp self.old }
        ensures { self.new ≡ settled self.old }
    {
        if self.level {
            self.side.uses.bring_level(
                self.side.steps,
                self.regs.pc,
                self.regs.waiting,
                &self.regs.sr,
                &self.seen,
                &self.masks,
            );
            self.level = false;
        }
    }

    /// Whether each bit of the register, if there is one, is known.
    #[inline(always)]
    fn knows(&self, register: Option<u8>) -> bool
        requires { IsRegister register }
        ensures { result ≡ true → KnownAt self.now.masks register }
    {
        match register {
            Some(number) => self.masks[number as usize] == ALL_BITS,
            None => true,
        }
    }

    /// Whether the instruction that was found at PC can be made in step.
    #[inline(always)]
    fn is_ready(&self, found: &Lookup) -> bool
        requires first { IsRegister found.now.first }
        requires second { IsRegister found.now.second }
        requires ahead { found.now.ahead < 4 }
        ensures { result ≡ true → (i : Insn) → IsTested found.now i → IsReadyFor i self.now }
    {
        self.level
            && found.is_plain
            && !self.regs.sr.excm()
            && self.regs.sr.vecbase() == self.vecbase
            && !is_in_vectors(self.vecbase, self.regs.pc)
            && agrees(&self.seen, &self.regs, found.first)
            && agrees(&self.seen, &self.regs, found.second)
            && self.knows(found.first)
            && self.knows(found.second)
            && (!self.near || self.regs.win.check(found.ahead).is_none())
    }

    /// Brings the frames up to date, unless the instruction that was found at PC can be made in step.
    #[inline(always)]
    fn prepare(&mut self, found: &Lookup)
        requires sp { self.old.level ≡ true → HasSp self.old }
        requires first { IsRegister found.now.first }
        requires second { IsRegister found.now.second }
        requires ahead { found.now.ahead < 4 }
        ensures started { (code : ℕ → ℕ) (i : Insn) (len : ℕ) (r : Regs WindowState) → IsTested found.now i → in_range i ≡ true
            → fetch_at code (core_state self.old).control.pc ≡ Fetches i len
            → pending_of (core_state self.old).control ≡ 0 → (core_state self.old).control.waits ≡ false
            → IsStarted code self.old (record self.new { regs = r }) }
        ensures regs { self.new.regs ≡ self.old.regs }
        ensures replies { self.new.replies ≡ self.old.replies }
    {
        if self.is_ready(found) {
            return;
        }
        self.settle();
    }

    /// The instruction at the program counter.
    #[inline(always)]
    fn instruction(&mut self, lookups: &mut Lookups) -> Plan
        requires inside { IsCore self.old }
        requires quiet { pending_of (core_state self.old).control ≡ 0 }
        requires goes { (core_state self.old).control.waits ≡ false }
        ensures plan { let s = core_state self.old in
            IsPlan result s (core_state self.new) (fetched_turn (fetch_at (constant_byte lookups.old) s.control.pc) (constant_byte lookups.old) s) }
        ensures started { IsStarted (constant_byte lookups.old) self.old self.new }
        ensures replies { self.new.replies ≡ self.old.replies }
        ensures code { lookups.new ≡ lookups.old }
    {
        let found = lookups.at(self.regs.pc);
        match found.fetch {
            Fetch::Fails(addr) => {
                self.settle();
                Plan::Done(self.regs.raise(cause::FETCH_ERROR, Some(addr)))
            }
            Fetch::Nothing => {
                self.settle();
                Plan::Done(self.regs.raise(cause::ILLEGAL_INSTRUCTION, None))
            }
            Fetch::Insn(insn, len) => {
                self.prepare(&found);
                plan(&mut self.regs, lookups.code(), insn, len)
            }
        }
    }

    /// The next turn before its tick: an interrupt that can be taken, else waiting, else the
    /// instruction.
    #[inline(always)]
    #[tactic(auto, unfolding(xt_exec::specs::Turn::planned_turn))]
    fn start(&mut self, lookups: &mut Lookups) -> Plan
        requires inside { IsCore self.old }
        ensures plan { let s = core_state self.old in
            IsPlan result s (core_state self.new) (planned_turn (constant_byte lookups.old) s) }
        ensures started { IsStarted (constant_byte lookups.old) self.old self.new }
        ensures replies { self.new.replies ≡ self.old.replies }
        ensures code { lookups.new ≡ lookups.old }
    {
        match xt_special::entries::pending(&self.regs.sr) {
            Some(level) => {
                self.settle();
                Plan::Done(self.regs.interrupt(level))
            }
            None => {
                if self.regs.waiting {
                    self.settle();
                    Plan::Done(Effect {
                        kind: StepKind::Wait,
                        write: None,
                    })
                } else {
                    self.instruction(lookups)
                }
            }
        }
    }

    /// Before an access: brings the frames up to date, unless the access touches no live byte and
    /// reads known bits alone.
    #[inline(always)]
    fn ask(&mut self, bytes: &Bytes, access: Access)
        requires sp { self.old.level ≡ true → HasSp self.old }
        requires full { AreFull bytes.now }
        requires served { is_mapped access ≡ true }
        ensures { IsAsked bytes.now access self.old self.new }
    {
        if !self.level {
            return;
        }
        if bytes.spares(Some(access)) {
            return;
        }
        self.settle();
    }

    /// The next turn, with the reply that is left for it: its record.
    #[inline(always)]
    fn next(&mut self, lookups: &mut Lookups, bytes: &Bytes) -> StepRecord
        requires inside { IsCore self.old }
        requires full { AreFull bytes.now }
        ensures turn { let s = core_state self.old in let code = constant_byte lookups.old in
            (result, core_state self.new) ≡ turn code s (reply_for (demand code s) self.old.replies) }
        ensures rest { let s = core_state self.old in
            self.new.replies ≡ replies_past (demand (constant_byte lookups.old) s) self.old.replies }
        ensures owb { (core_state self.old).control.ps.owb < 16 }
        ensures started { IsStarted (constant_byte lookups.old) self.old self.new }
        ensures spared { self.new.level ≡ true → IsSpared bytes.now result.access }
        ensures code { lookups.new ≡ lookups.old }
    {
        let head = head_of(&self.regs);
        let plan = self.start(lookups);
        match plan {
            Plan::Done(effect) => local_turn(&mut self.regs, head, effect),
            Plan::Bus(_, pending) => {
                self.ask(bytes, pending.access);
                let reply = self.replies.next();
                end_turn(&mut self.regs, pending, reply)
            }
        }
    }

    /// Makes the next turn: its record. The core is in step only if the turn was ready for that.
    ///
    /// Condition: a turn is left.
    #[inline(always)]
    fn make(&mut self, lookups: &mut Lookups, bytes: &Bytes) -> StepRecord
        requires inside { IsCore self.old }
        requires full { AreFull bytes.now }
        requires left { 0 < self.old.left }
        ensures made { IsMade (constant_byte lookups.old) bytes.now self.old self.new result }
        ensures served { IfSome result.access (λ a. is_mapped a ≡ true) }
        ensures code { lookups.new ≡ lookups.old }
    {
        let rec = self.next(lookups, bytes);
        self.left = left_past(rec, self.left - 1);
        rec
    }

    /// Judges a turn that was made in step.
    #[inline(always)]
    fn pass(&mut self, bytes: &mut Bytes, rec: &StepRecord) -> Result<(), End>
        requires room { self.old.side.steps + 1 < 2 ^ 32 }
        requires full { AreFull bytes.old }
        requires served { IfSome rec.now.access (λ a. is_mapped a ≡ true) }
        ensures full { AreFull bytes.new }
        ensures passed { IsPassed self.old self.new bytes.old bytes.new rec.now result }
    {
        if !is_executed(rec.kind) || is_sp(rec.write) {
            return Err(End::Lost);
        }
        if !self.regs.sr.woe() || self.regs.sr.vecbase() != self.vecbase {
            return Err(End::Lost);
        }
        if let Some(w) = rec.write {
            if w.reg > 15 {
                return Err(End::Lost);
            }
            self.seen[w.reg as usize] = Some(w.value);
            self.masks[w.reg as usize] = ALL_BITS;
        }
        bytes.store(rec.access, ALL_BITS);
        self.side.steps += 1;
        Ok(())
    }

    /// Finds out whether the core is in step.
    fn find_level(&mut self)
        requires inside { IsCore self.old }
        requires level { self.old.level ≡ false }
        requires outside { self.old.side.phase ≡ Outside }
        ensures inside { IsCore self.new }
        ensures shown { shown self.new ≡ self.old.side }
        ensures rest { self.new ≡ record self.old { seen = self.new.seen; masks = self.new.masks; level = self.new.level; near = self.new.near } }
    {
        if !self.may_step {
            return;
        }
        // (so that its stack is known)
        let _depth = self.side.uses.depth();
        if self.side.uses.is_level(
            self.side.steps,
            self.regs.pc,
            self.regs.waiting,
            &self.regs.sr,
        ) {
            self.seen = self.side.uses.seen();
            self.masks = self.side.uses.seen_masks();
            self.near = self.regs.win.check(3).is_some();
            self.level = true;
        }
    }

    /// Judges the record of a turn as a whole. `special` says that the core was in step before it. A
    /// breach is told in `first`.
    #[inline(never)]
    fn judge(
        &mut self,
        code: &Constants,
        bytes: &mut Bytes,
        rec: StepRecord,
        special: bool,
        first: &mut Option<FirstUse>,
    ) -> Result<(), End>
        requires inside { IsCore self.old }
        requires level { self.old.level ≡ false }
        requires room { self.old.side.steps + 1 < 2 ^ 32 }
        requires served { IfSome rec.access (λ a. is_mapped a ≡ true) }
        requires full { AreFull bytes.old }
        requires known { (others : ℕ → Bool) × (masks : ℕ → ℕ) × KnowsBytes self.old.side.core bytes.old (live_in self.old.side.uses) others masks }
        ensures full { AreFull bytes.new }
        ensures kept { (code : ℕ → ℕ) → records_left code self.new ≡ records_left code self.old }
        ensures never { self.old.may_step ≡ false → self.new.may_step ≡ false }
        ensures seen { (others : ℕ → Bool) (masks : ℕ → ℕ) → KnowsBytes self.old.side.core bytes.old (live_in self.old.side.uses) others masks
            → IsSeenBy (constant_byte code.now) self.old self.new bytes.new others masks rec first.new result }
    {
        see(&mut self.side, code, bytes, rec, special, first)?;
        match self.side.phase {
            HandlerPhase::Outside => self.find_level(),
            HandlerPhase::InHandler => {}
            HandlerPhase::Nested => self.may_step = false,
        }
        Ok(())
    }

    /// The next turn of the core, if it has one: no breach, or how the walk ends. A breach is told in
    /// `first`.
    #[inline(never)]
    pub fn turn(
        &mut self,
        lookups: &mut Lookups,
        bytes: &mut Bytes,
        first: &mut Option<FirstUse>,
    ) -> Result<(), End>
        requires inside { IsCore self.old }
        requires room { self.old.side.steps + 1 < 2 ^ 32 }
        requires full { AreFull bytes.old }
        requires known { (others : ℕ → Bool) × (masks : ℕ → ℕ) × KnowsBytes (shown self.old).core bytes.old (live_in (shown self.old).uses) others masks }
        ensures full { AreFull bytes.new }
        ensures code { lookups.new ≡ lookups.old }
        ensures never { self.old.may_step ≡ false → self.new.may_step ≡ false }
        ensures turned { (others : ℕ → Bool) (masks : ℕ → ℕ) → KnowsBytes (shown self.old).core bytes.old (live_in (shown self.old).uses) others masks
            → IsTurned (constant_byte lookups.old) self.old self.new bytes.new others masks first.new result }
    {
        if self.left == 0 {
            return Err(End::NoTurn);
        }
        let special = self.level;
        let rec = self.make(lookups, &*bytes);
        if self.level {
            self.pass(bytes, &rec)
        } else {
            self.judge(lookups.code(), bytes, rec, special, first)
        }
    }
}
