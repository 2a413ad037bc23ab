//! The judge of one core past a record, and two cores with their judges past a turn.
ghost use Rattle.std.specs.Prelude.{◌≡◌, ◌<◌, ◌==◌, ◌&&◌, ◌||◌, ◌⊎◌, not, None, true, false, IfOk, OnOk};
ghost use Rattle.xt_map.specs.Fetching.{fetch_at};
ghost use Rattle.xt_map.specs.Memory.{constant_byte};
ghost use Rattle.xt_map.specs.declared.contents.MemoryContents.{MemoryContents};
ghost use Rattle.xt_search.specs.Changed.{contents_of};
ghost use Rattle.xt_timeless.specs.Time.{fetches_compare};
ghost use Rattle.xt_outcomes.specs.Dead.{dead_at, has_compare};
ghost use Rattle.xt_outcomes.specs.KeptWorlds.{moved_spot, spot_of};
ghost use Rattle.xt_judged.specs.Lives.{AreApart};
ghost use Rattle.xt_judged.specs.Forgotten.{IsCompareFit, IsForgotten, IsOuter, IsRevived, StandsPast};
ghost use Rattle.xt_judged.specs.OwnJudges.{goes, judge_past, range_of, with_judge};
ghost use Rattle.xt_judged.specs.Past.{IsOnStack};
ghost use Rattle.xt_judged.specs.Stales.{renewed};
ghost use Rattle.xt_judged.specs.WatchedKept.{IsRunning, judge_at, judge_in, judge_of, watched_of};

use crate::moved::{is_same_world, moved_world, same_world};
use crate::record::{Beside, see_beside};
use crate::scene::{Shown, Standing};
use crate::stale::Stale;
use crate::watched::{Fate, OwnJudge, Running, Watched, comes_to};
use std::alloc::{AllocError, Global};
use std::rc::Rc;
use xt_codec::{Fetch, instruction_at};
use xt_frames::{Frames, HandlerPhase, is_nesting};
use xt_map::Constants;
use xt_outcomes::{Dead, Part, Side, has_compare, registers_in};
use xt_search::Changes;
use xt_timeless::reads_compare;
use xt_trace::{Stack, StepRecord};
use xt_window::ring::bit;

// Whether a record is one of a nested interrupt, in this phase before it.
fn is_nested(phase: HandlerPhase, rec: &StepRecord) -> bool
    ensures { result ≡ false → IsOuter phase rec.now }
{
    match phase {
        HandlerPhase::Outside => false,
        HandlerPhase::InHandler => is_nesting(rec.kind),
        HandlerPhase::Nested => true,
    }
}

// Takes its value from a register, if it is one of a mask and not the stack pointer.
fn forget_one(frames: &mut Frames, mask: u16, number: u8)
    requires { number < 16 }
    ensures { IsForgotten frames.old frames.new }
{
    if number == 1 {
        return;
    }
    if !bit(mask, number) {
        return;
    }
    frames.forget(number);
}

// Takes their values from the registers of a mask, except from the stack pointer, outside of handler steps.
fn forget_dead(frames: &mut Frames, phase: HandlerPhase, mask: u16)
    ensures { IsForgotten frames.old frames.new }
{
    if !matches!(phase, HandlerPhase::Outside) {
        return;
    }
    for i in 0..16u8 {
        forget_one(frames, mask, i);
    }
}

// Whether the instruction at a program counter, from which the turn of a record does not start, reads SCOMPARE1
// though that is dead there.
fn reads_dead(code: &Constants, dead: &Dead, rec: &StepRecord, from: u32) -> bool
    ensures { result ≡ false → has_compare (dead_at dead.now.masks.items from) ≡ true → (from ≡ rec.now.pc) ⊎ (fetches_compare (fetch_at (constant_byte code.now) from) ≡ false) }
{
    if from == rec.pc {
        return false;
    }
    if !has_compare(dead.at(from)) {
        return false;
    }
    match instruction_at::<Frames>(code, from) {
        Fetch::Insn(insn, _) => reads_compare(insn),
        Fetch::Fails(_) => false,
        Fetch::Nothing => false,
    }
}

// Whether the step of these frames on a record, which starts from a program counter, executes what the turn of the
// core executed, past which SCOMPARE1 is not dead.
fn revives(frames: &Frames, dead: &Dead, rec: &StepRecord, from: u32, pc: u32) -> bool
    ensures { result ≡ true → IsRevived dead.now.masks.items frames.now.state rec.now from pc }
{
    if from != rec.pc {
        return false;
    }
    if has_compare(dead.at(pc)) {
        return false;
    }
    frames.executes(rec)
}

// Whether SCOMPARE1 was dead before a step that does not write it, and is not dead after it.
fn is_lost(before: bool, writes: bool, after: bool) -> bool
    ensures { result ≡ (before && (not writes && not after)) }
{
    before && !writes && !after
}

// Becomes the stale bytes past a record: those before it, where there are no others.
fn renew(stale: &mut Stale, new: Option<Stale>)
    ensures { stale.new ≡ renewed stale.old new }
{
    match new {
        Some(bytes) => *stale = bytes,
        None => {}
    }
}

impl OwnJudge {
    /// The judge as its core begins to make turns: these become the frames of the core. The only error is
    /// running out of memory.
    ///
    /// Condition: no byte that is stale for the core is live for it.
    pub fn begin(&self, alloc: Global, frames: &mut Frames) -> Result<Running, AllocError>
        requires { AreApart self.now.standing.frames None self.now.stale }
        ensures judge { IfOk result (λ r. judge_at frames.new r ≡ judge_of self.now) }
        ensures running { IfOk result (λ r. IsRunning frames.new r) }
    {
        frames.reload(alloc, &self.standing.frames)?;
        Ok(Running {
            phase: self.standing.phase,
            stale: self.stale.copy(alloc)?,
            fate: self.fate,
        })
    }
}

impl Running {
    /// The judge as it is kept, of the core with these frames. The only error is running out of memory.
    #[inline(always)]
    pub fn kept(self, alloc: Global, frames: &Frames) -> Result<Rc<OwnJudge>, AllocError>
        requires { IsRunning frames.now self }
        ensures judge { IfOk result (λ j. judge_of j.value ≡ judge_at frames.now self) }
        ensures apart { IfOk result (λ j. AreApart j.value.standing.frames None j.value.stale) }
    {
        let Running { phase, stale, fate } = self;
        let judge = Rc::new(
            alloc,
            OwnJudge {
                standing: Standing {
                    frames: frames.snapshot(alloc, 0)?,
                    phase,
                },
                stale,
                fate,
            },
        )?;
        Ok(judge)
    }

    // Becomes the judge past a record of its core, with the frames of that, where the other core has this
    // stack. The only error is running out of memory.
    fn past(
        &mut self,
        alloc: Global,
        code: &Constants,
        frames: &mut Frames,
        other: Stack,
        core: u8,
        rec: &StepRecord,
    ) -> Result<(), AllocError>
        requires { IsRunning frames.old self.old }
        ensures judge { OnOk result (judge_at frames.new self.new ≡ judge_past (constant_byte code.now) (range_of other) core (judge_at frames.old self.old) rec.now) }
        ensures running { OnOk result (IsRunning frames.new self.new) }
        ensures stack { OnOk result (goes self.new.fate ≡ true → IsOnStack frames.old × IsOnStack frames.new) }
    {
        if comes_to(other, rec.access) {
            self.fate = Fate::Crossed;
            return Ok(());
        }
        match see_beside(alloc, code, self.phase, frames, None, &self.stale, rec)? {
            Ok(beside) => {
                let Beside { phase, stale } = beside;
                frames.recount(1);
                self.phase = phase;
                renew(&mut self.stale, stale);
                Ok(())
            }
            Err(kind) => {
                let pc = rec.pc;
                self.fate = Fate::Broke(Shown { core, pc, kind });
                Ok(())
            }
        }
    }

    /// Becomes the judge past a record of its core, which leads to this program counter, with the frames of
    /// the core, without the registers that are dead there. If some register is dead, it gives up at an
    /// interrupt in handler steps, and where SCOMPARE1 is dead for the core and not for its frames. The only
    /// error is running out of memory.
    ///
    /// Condition: the turn of the record fits a dead SCOMPARE1.
    pub fn go_past(
        &mut self,
        alloc: Global,
        code: &Constants,
        frames: &mut Frames,
        other: Stack,
        core: u8,
        rec: &StepRecord,
        dead: &Dead,
        pc: u32,
    ) -> Result<(), AllocError>
        requires running { IsRunning frames.old self.old }
        requires fit { IsCompareFit (constant_byte code.now) dead.now.masks.items rec.now pc }
        ensures stands { OnOk result (StandsPast (constant_byte code.now) dead.now.masks.items (range_of other) core rec.now (judge_at frames.old self.old) (judge_at frames.new self.new)) }
        ensures running { OnOk result (IsRunning frames.new self.new) }
    {
        if dead.masks.is_empty() {
            return self.past(alloc, code, frames, other, core, rec);
        }
        let from = frames.current_pc();
        if is_nested(self.phase, rec) || reads_dead(code, dead, rec, from) {
            self.fate = Fate::Crossed;
            return Ok(());
        }
        let writes = revives(frames, dead, rec, from, pc);
        self.past(alloc, code, frames, other, core, rec)?;
        let after = dead.at(frames.current_pc());
        if is_lost(has_compare(dead.at(from)), writes, has_compare(after)) {
            self.fate = Fate::Crossed;
            return Ok(());
        }
        forget_dead(frames, self.phase, registers_in(dead.at(pc)));
        if has_compare(after) {
            frames.clear_compare();
        }
        Ok(())
    }
}

/// Whether a core makes no turn: its judge has come to an end, or it has ended itself.
pub fn is_over(side: &Side, fate: Fate) -> bool
    ensures { result ≡ (not (goes fate) || (side.now.left == 0)) }
{
    if !fate.goes() {
        return true;
    }
    side.left() == 0
}

impl Watched {
    /// The judge of a core, 0 or 1.
    pub fn judge(&self, core: u8) -> &OwnJudge
        ensures { result.now ≡ judge_in core self.now }
    {
        if core == 0 {
            self.judge0.as_ref()
        } else {
            self.judge1.as_ref()
        }
    }

    /// The same once more. The only error is that a part of it has too many owners.
    pub fn copy(&self) -> Result<Watched, AllocError>
        ensures { IfOk result (λ w. (m : MemoryContents) → watched_of m w ≡ watched_of m self.now) }
    {
        Ok(Watched {
            world: same_world(&self.world)?,
            judge0: self.judge0.clone()?,
            judge1: self.judge1.clone()?,
            turns: self.turns,
        })
    }

    /// What is reached as a core has come so far by so many turns, with this core, what memory holds, and its
    /// judge. The only error is running out of memory.
    ///
    /// Condition: no byte that is stale for the core is live for it.
    #[inline(always)]
    pub fn moved(
        &self,
        alloc: Global,
        core: u8,
        side: Side,
        changes: Changes,
        judge: Rc<OwnJudge>,
        turns: u32,
    ) -> Result<Watched, AllocError>
        requires { AreApart judge.value.standing.frames None judge.value.stale }
        ensures { IfOk result (λ w. (m : MemoryContents) → watched_of m w ≡ with_judge core (judge_of judge.value) (moved_spot core side (contents_of m changes) (spot_of m self.now.world)) (watched_of m self.now)) }
    {
        let world = moved_world(alloc, &self.world, core, side, changes)?;
        if core == 0 {
            Ok(Watched {
                world,
                judge0: judge,
                judge1: self.judge1.clone()?,
                turns,
            })
        } else {
            Ok(Watched {
                world,
                judge0: self.judge0.clone()?,
                judge1: judge,
                turns,
            })
        }
    }

    /// Whether both are seen to be the same.
    pub fn is_same(&self, other: &Watched) -> bool
        ensures { result ≡ true → (m : MemoryContents) → watched_of m self.now ≡ watched_of m other.now }
    {
        if !is_same_world(&self.world, &other.world) {
            return false;
        }
        if !self.judge0.is_like(other.judge0.as_ref()) {
            return false;
        }
        self.judge1.is_like(other.judge1.as_ref())
    }
}
