//! The turns of two cores, each of which has a judge of its own.
ghost use Rattle.std.specs.Prelude.{◌≡◌, ◌<◌, ◌&&◌, not, true, false, IfNone, IfOk, IfSome, OnOk};
ghost use Rattle.xt_map.specs.Memory.{constant_byte};
ghost use Rattle.xt_map.specs.declared.contents.MemoryContents.{MemoryContents};
ghost use Rattle.xt_search.specs.Changed.{contents_of};
ghost use Rattle.xt_outcomes.specs.Ahead.{IsAhead, IsReady};
ghost use Rattle.xt_outcomes.specs.Dead.{fits};
ghost use Rattle.xt_outcomes.specs.KeptWorlds.{moved_spot, spot_of};
ghost use Rattle.xt_outcomes.specs.Nexts.{misfits};
ghost use Rattle.xt_outcomes.specs.Passages.{AreUses};
ghost use Rattle.xt_judged.specs.Forgotten.{IsLed, IsOwnTurn, kept_bars};
ghost use Rattle.xt_judged.specs.OwnJudges.{is_alone, is_over, other_range, own_in, range_of, uses_time, watched_bars, with_judge};
ghost use Rattle.xt_judged.specs.WatchedKept.{AreSettled, IsRunning, judge_at, own_at, watched_of};

use crate::clock::uses_time_by;
use crate::judging::SceneDesk;
use crate::own_judges::is_over;
use crate::watched::{Running, Watched};
use std::alloc::{AllocError, Global};
use xt_frames::Frames;
use xt_outcomes::{Ahead, Places, Side, Timed, Uses, uses_at};
use xt_search::{Changes, Machine};
use xt_special::number;
use xt_trace::Stack;

/// The machine of an image, whose cores have a judge each, and what is taken for granted of the words of
/// memory. What it takes for granted of dead registers, `timed` has.
pub struct Watching<'a> {
    pub timed: Timed<'a>,
    pub places: Places,
    pub stack0: Stack,
    pub stack1: Stack,
    /// How many turns that meet nothing are made at once at most, after a turn.
    pub most_local: u16,
    pub alloc: Global,
}

// A `drop` of its own is one call at each place where a value is dropped.
impl Drop for Watching<'_> {
    fn drop(self) {
        let Watching {
            timed: _,
            places: _,
            stack0: _,
            stack1: _,
            most_local: _,
            alloc: _,
        } = self;
    }
}

impl<'a> Watching<'a> {
    // The stack of the other core.
    fn other_stack(&self, core: u8) -> Stack
        ensures { range_of result ≡ other_range core (range_of self.now.stack0) (range_of self.now.stack1) }
    {
        if core == 0 { self.stack1 } else { self.stack0 }
    }

    // Whether the next turn of a core that makes one, with these frames, uses time; the instruction at its
    // program counter uses these.
    fn bars(&self, side: &Side, frames: &Frames, uses: Uses) -> bool
        requires { AreUses (constant_byte self.now.timed.code) side.now.state.control.pc uses }
        ensures { result ≡ uses_time (constant_byte self.now.timed.code) self.now.timed.timed side.now frames.now.state }
    {
        let code = &self.timed.code;
        if side.bars_by(code, self.timed.timed, uses.reads_time) {
            return true;
        }
        if self.timed.timed {
            return false;
        }
        let intenable = frames.special(number::INTENABLE);
        uses_time_by(
            code,
            intenable,
            frames.current_pc(),
            side.pc(),
            uses.reads_time,
        )
    }

    // Whether the next turn of a core that makes one, with these frames, which is this turn, uses no time and
    // fits the dead registers.
    fn is_free(&self, side: &Side, frames: &Frames, ahead: &Ahead) -> bool
        ensures { (m : MemoryContents) → IsAhead (constant_byte self.now.timed.code) side.now.state m ahead.now
            → result ≡ (not (uses_time (constant_byte self.now.timed.code) self.now.timed.timed side.now frames.now.state) && fits (constant_byte self.now.timed.code) self.now.timed.dead.masks.items side.now.state) }
    {
        let uses = uses_at(&self.timed.code, side.pc());
        if self.bars(side, frames, uses) {
            return false;
        }
        self.timed.fits_next(side, ahead, uses)
    }

    // Puts the next turn of a core, with these frames and this judge, in place of another one, whose registers
    // are those of the core, and answers whether it makes that, the turn meets nothing of the other core, uses
    // no time, and fits the dead registers.
    fn local(
        &self,
        side: &Side,
        changes: &Changes,
        frames: &Frames,
        judge: &Running,
        core: u8,
        ahead: &mut Ahead,
    ) -> bool
        requires ready { IsReady side.now.state ahead.old }
        ensures alone { result ≡ true → is_alone (constant_byte self.now.timed.code) self.now.timed.timed self.now.places.list.items core (own_at side.now frames.now judge.now) ≡ true }
        ensures fit { result ≡ true → misfits (constant_byte self.now.timed.code) self.now.timed.dead.masks.items side.now ≡ false }
        ensures ahead { result ≡ true → IsAhead (constant_byte self.now.timed.code) side.now.state (contents_of self.now.timed.opening.contents changes.now) ahead.new }
    {
        if is_over(side, judge.fate) {
            return false;
        }
        side.look_ahead(&self.timed.code, &self.timed.opening, changes, ahead);
        if !self.places.is_own(core, ahead.record.access) {
            return false;
        }
        self.is_free(side, frames, ahead)
    }

    // A core makes its next turn, in place, and its frames and judge become those after it. The only error is
    // running out of memory.
    //
    // Conditions: the core is 0 or 1, it makes a turn, and the next one is this; that uses no time and fits the
    // dead registers.
    fn turn(
        &self,
        frames: &mut Frames,
        side: &mut Side,
        changes: &mut Changes,
        judge: &mut Running,
        core: u8,
        ahead: &mut Ahead,
    ) -> Result<(), AllocError>
        requires core { core < 2 }
        requires on { is_over (own_at side.old frames.old judge.old) ≡ false }
        requires free { watched_bars (constant_byte self.now.timed.code) self.now.timed.timed (own_at side.old frames.old judge.old) ≡ false }
        requires fit { misfits (constant_byte self.now.timed.code) self.now.timed.dead.masks.items side.old ≡ false }
        requires ahead { IsAhead (constant_byte self.now.timed.code) side.old.state (contents_of self.now.timed.opening.contents changes.old) ahead.old }
        requires running { IsRunning frames.old judge.old }
        ensures turn { let t = self.now.timed in let m = t.opening.contents in
            OnOk result (IsOwnTurn (constant_byte t.code) t.dead.masks.items (range_of self.now.stack0) (range_of self.now.stack1) t.timed core (own_at side.old frames.old judge.old) (contents_of m changes.old) (own_at side.new frames.new judge.new) (contents_of m changes.new)) }
        ensures running { OnOk result (IsRunning frames.new judge.new) }
        ensures ready { OnOk result (IsReady side.new.state ahead.new) }
    {
        judge.go_past(
            self.alloc,
            &self.timed.code,
            frames,
            self.other_stack(core),
            core,
            &ahead.record,
            &self.timed.dead,
            ahead.regs.pc,
        )?;
        self.timed.go_on(side, ahead, changes)?;
        Ok(())
    }

    // What is reached as a core has come so far, with these frames and this judge. The only error is running
    // out of memory.
    #[inline(always)]
    fn come_to(
        &self,
        watched: &Watched,
        core: u8,
        side: Side,
        changes: Changes,
        frames: &Frames,
        judge: Running,
        turns: u32,
    ) -> Result<Watched, AllocError>
        requires { IsRunning frames.now judge }
        ensures { let m = self.now.timed.opening.contents in IfOk result (λ w. watched_of m w ≡ with_judge core (judge_at frames.now judge) (moved_spot core side (contents_of m changes) (spot_of m watched.now.world)) (watched_of m watched.now)) }
    {
        let judge = judge.kept(self.alloc, frames)?;
        watched.moved(self.alloc, core, side, changes, judge, turns)
    }

    // A turn of a core that makes one, and then its turns that use no time, fit the dead registers and meet
    // nothing; None: the first one uses time or does not fit. The only error is running out of memory.
    //
    // Condition: the core is 0 or 1.
    fn run(
        &self,
        frames: &mut Frames,
        watched: &Watched,
        core: u8,
    ) -> Result<Option<Watched>, AllocError>
        requires core { core < 2 }
        requires on { is_over (own_in core (watched_of self.now.timed.opening.contents watched.now)) ≡ false }
        ensures led { let t = self.now.timed in
            IfOk result (λ o. IfSome o (λ w. IsLed (constant_byte t.code) t.dead.masks.items (range_of self.now.stack0) (range_of self.now.stack1) t.timed self.now.places.list.items core (watched_of t.opening.contents watched.now) (watched_of t.opening.contents w))) }
        ensures barred { let t = self.now.timed in IfOk result (λ o. IfNone o (kept_bars (constant_byte t.code) t.dead.masks.items t.timed t.opening.contents core watched.now ≡ true)) }
    {
        let mut changes = watched.world.changes.copy(self.alloc)?;
        let mut side = watched.world.side(core).copy();
        let mut judge = watched.judge(core).begin(self.alloc, frames)?;
        let mut ahead = side.ahead(&self.timed.code, &self.timed.opening, &changes);
        if !self.is_free(&side, frames, &ahead) {
            return Ok(None);
        }
        self.turn(
            frames,
            &mut side,
            &mut changes,
            &mut judge,
            core,
            &mut ahead,
        )?;
        let mut turns = 1;
        for made in 0..self.most_local {
            if !self.local(&side, &changes, frames, &judge, core, &mut ahead) {
                let next = self.come_to(watched, core, side, changes, frames, judge, turns)?;
                return Ok(Some(next));
            }
            self.turn(
                frames,
                &mut side,
                &mut changes,
                &mut judge,
                core,
                &mut ahead,
            )?;
            turns += 1;
        }
        let next = self.come_to(watched, core, side, changes, frames, judge, turns)?;
        Ok(Some(next))
    }

    /// Whether both judges go on, and the places tell of both next turns.
    pub fn is_settled(&self, watched: &Watched) -> bool
        ensures { result ≡ true → AreSettled (constant_byte self.now.timed.code) self.now.places.list.items watched.now }
    {
        if !watched.judge0.fate.goes() || !watched.judge1.fate.goes() {
            return false;
        }
        let code = &self.timed.code;
        let access0 = watched.world.side0.next_access(code);
        let access1 = watched.world.side1.next_access(code);
        self.places.may_access(0, access0) && self.places.may_access(1, access1)
    }
}

impl<'a> Machine for Watching<'a> {
    ghost use Rattle.std.specs.Prelude.{◌==◌, ◌&&◌};

    type World = Watched;

    type Desk = SceneDesk;

    ghost use Rattle.xt_judged.specs.Forgotten as kept;

    ghost Leads = { λ t c v w. kept.Leads (constant_byte t.timed.code) t.timed.dead.masks.items (range_of t.stack0) (range_of t.stack1) t.timed.timed t.places.list.items t.timed.opening.contents c v w };

    ghost bars = { λ t c w. kept.kept_bars (constant_byte t.timed.code) t.timed.dead.masks.items t.timed.timed t.timed.opening.contents c w };

    // That no two are the same is not claimed.
    ghost Same = { λ _ _ _. ⊥ };

    ghost IsMark = { λ _ _ _. Unit {0} };

    ghost ends = { λ _ w. (w.world.side0.value.left == 0) && (w.world.side1.value.left == 0) };

    fn turned(
        &self,
        desk: &mut SceneDesk,
        watched: &Watched,
        core: u8,
    ) -> Result<Option<Watched>, AllocError> {
        if is_over(watched.world.side(core), watched.judge(core).fate) {
            return Ok(Some(watched.copy()?));
        }
        let made = self.run(&mut desk.own, watched, core)?;
        match made {
            None => Ok(None),
            Some(led) => {
                let mut next = led;
                desk.keep_watched(&mut next)?;
                Ok(Some(next))
            }
        }
    }

    fn is_same(&self, a: &Watched, b: &Watched) -> bool {
        a.is_same(b)
    }

    fn is_end(&self, watched: &Watched) -> bool {
        watched.world.side0.left() == 0 && watched.world.side1.left() == 0
    }

    fn digest(&self, watched: &Watched) -> u64 {
        let mark0 = watched.judge0.standing.digest().wrapping_mul(131);
        let mark1 = watched.judge1.standing.digest().wrapping_mul(65_537);
        self.timed
            .digest(&watched.world)
            .wrapping_add(mark0)
            .wrapping_add(mark1)
            .wrapping_add(watched.judge0.stale.digest())
            .wrapping_add(watched.judge1.stale.digest().wrapping_mul(31))
    }

    ghost marks_agree = { λ t a b m n same. absurd same };
}
