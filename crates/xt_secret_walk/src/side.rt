//! One core of the walk.
#![tactic(auto)]

ghost use Rattle.std.specs.Prelude.{◌≡◌, ◌≤◌, ◌<◌, ◌+◌, ◌^◌, ℕ, IfSome, true};
ghost use Rattle.xt_map.specs.Memory.{constant_byte};
ghost use Rattle.xt_map.specs.Regions.{is_mapped};
ghost use Rattle.xt_map.specs.Fetching.{fetch_at};
ghost use Rattle.xt_core.specs.Runs.{IsRunOf};
ghost use Rattle.xt_simulation.specs.WatchedRuns.{has_byte_at};
ghost use Rattle.xt_use_walk.specs.MaskedBytes.{IsFull};
ghost use Rattle.xt_secret_walk.specs.KnownBytes.{KnowsBytes};
ghost use Rattle.xt_secret_walk.specs.SeenWords.{IsGoodSeen, executed_in, seen_of, stored_of};
ghost use Rattle.xt_secret_walk.specs.Walked.{IsMade, IsNext, IsOpenSide, IsPassed, IsSide, IsWritten, count_of, side_known, side_state};

use crate::bytes::{is_either, store};
use crate::file::WatchedFile;
use crate::leak::{End, FirstLeak};
use crate::making::next_turn;
use crate::masks::CoreMasks;
use crate::seen::{Seen, seen_lacks, turn_uses};
use xt_core::{Replies, left_past};
use xt_exec::Regs;
use xt_image::Image;
use xt_map::Constants;
use xt_trace::{Run, StepKind, StepRecord};
use xt_use_walk::ByteMasks;
use xt_uses::ALL_BITS;
use xt_window::Windows;

/// One core of the walk: its registers before its next turn, and what is known of them.
#[derive(Drop)]
pub struct Side<'a> {
    pub core: u8,
    pub regs: Regs<WatchedFile>,
    pub masks: CoreMasks,
    /// The turns that are left.
    pub left: u32,
    /// The replies to their accesses.
    pub replies: Replies<'a>,
    /// How many turns are made.
    pub steps: u32,
    /// How many of them have left a register or a byte with a bit that is not known.
    pub carried: u32,
}

/// How many turns more carry what is not known.
#[inline(always)]
fn count_of(carries: bool) -> u32
    ensures value { result ≡ count_of carries }
    ensures small { result ≤ 1 }
{
    if carries { 1 } else { 0 }
}

/// The mask of what a turn of this kind stores.
#[inline(always)]
fn stored_by(kind: StepKind, seen: &Option<Seen>) -> u32
    ensures { result ≡ stored_of (executed_in kind seen.now) }
{
    match kind {
        StepKind::Insn => match seen {
            Some(x) => x.y.mask,
            None => ALL_BITS,
        },
        StepKind::Window(_)
        | StepKind::Exc(_)
        | StepKind::Interrupt(_)
        | StepKind::Wait
        | StepKind::Stop => ALL_BITS,
    }
}

impl<'a> Side<'a> {
    /// A core of a run as it opens.
    ///
    /// Conditions: the core is 0 or 1, and the run is the image's.
    pub fn open(image: &Image, run: &'a Run, core: u8) -> Side<'a>
        requires core { core < 2 }
        requires run { IsRunOf image.now run.now }
        ensures { IsOpenSide image.now run.now core result }
    {
        let options = &run.options;
        let (entry, turns, stack) = if core == 0 {
            (image.entry, options.turns0, options.stack0)
        } else {
            (options.entry1, options.turns1, options.stack1)
        };
        Side {
            core,
            regs: Regs::open(core, entry, options.vecbase, stack.hi, WatchedFile::new()),
            masks: CoreMasks::whole(),
            left: turns,
            replies: Replies::of(run, core),
            steps: 0,
            carried: 0,
        }
    }

    /// Makes the next turn: its record, and what it finds before.
    ///
    /// Condition: a turn is left.
    #[inline(always)]
    fn make(&mut self, code: &Constants, found: &mut Option<Seen>) -> StepRecord
        requires { 0 < self.old.left }
        ensures made { IsMade (constant_byte code.now) self.old self.new result }
        ensures served { IfSome result.access (λ a. is_mapped a ≡ true) }
        ensures seen { let s = side_state self.old in
            found.new ≡ seen_of (fetch_at (constant_byte code.now) s.control.pc) (side_known self.old) s }
        ensures good { IsGoodSeen found.new }
    {
        let rec = next_turn(&mut self.regs, &self.masks, code, &mut self.replies, found);
        self.left = left_past(rec, self.left - 1);
        rec
    }

    /// The next turn of the core, if it has one: whether it uses known bits alone, and what is
    /// known after it. A leak is told in `leak`.
    #[inline(never)]
    pub fn turn(
        &mut self,
        code: &Constants,
        public: &[(u32, u32)],
        bytes: &mut ByteMasks,
        leak: &mut Option<FirstLeak>,
    ) -> Result<(), End>
        requires side { IsSide self.old }
        requires full { IsFull bytes.old }
        ensures { (masks : ℕ → ℕ) → KnowsBytes bytes.old (has_byte_at public.now) masks
            → IsNext (constant_byte code.now) (has_byte_at public.now) self.old self.new bytes.old bytes.new (side_state self.old) (side_known self.old) masks leak.new result }
    {
        if self.left == 0 {
            return Err(End::NoTurn);
        }
        let mut seen = None;
        let rec = self.make(code, &mut seen);
        let reply = bytes.reply_mask(rec.access);
        if !turn_uses(rec.kind, rec.access, &seen, reply) {
            *leak = Some(FirstLeak {
                core: self.core,
                step: self.steps,
                rec,
                lacks: seen_lacks(&seen),
            });
            return Err(End::Leaks);
        }
        self.pass(public, bytes, &rec, &seen, reply);
        Ok(())
    }

    /// What is known after a turn with this record, which found this, and whose reply has this
    /// mask. The core's registers are already those after the turn.
    #[inline(always)]
    fn pass(
        &mut self,
        public: &[(u32, u32)],
        bytes: &mut ByteMasks,
        rec: &StepRecord,
        seen: &Option<Seen>,
        reply: u32,
    )
        requires carried { self.old.carried ≤ self.old.steps }
        requires room { self.old.steps + 1 < 2 ^ 32 }
        requires good { IsGoodSeen seen.now }
        requires full { IsFull bytes.old }
        requires served { IfSome rec.now.access (λ a. is_mapped a ≡ true) }
        ensures { IsPassed (has_byte_at public.now) self.old self.new bytes.old bytes.new rec.now seen.now reply }
    {
        let written = self.write(rec, seen, reply);
        let hides = store(bytes, public, rec.access, stored_by(rec.kind, seen));
        self.carried += count_of(is_either(written, hides));
        self.steps += 1;
    }

    /// The registers that an executed instruction writes get their masks: whether one is left with
    /// a bit that is not known.
    #[inline(always)]
    fn write(&mut self, rec: &StepRecord, seen: &Option<Seen>, reply: u32) -> bool
        requires { IsGoodSeen seen.now }
        ensures { IsWritten self.old self.new rec.now (executed_in rec.now.kind seen.now) reply result }
    {
        match rec.kind {
            StepKind::Insn => match seen {
                Some(x) => self.masks.pass(x, rec.write, self.regs.win.base(), reply),
                None => false,
            },
            StepKind::Window(_)
            | StepKind::Exc(_)
            | StepKind::Interrupt(_)
            | StepKind::Wait
            | StepKind::Stop => false,
        }
    }
}
