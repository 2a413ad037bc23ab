//! A judged step of the machine of uses that shows no breach, stays in its frame, and reads and writes words of which each bit is
//! known, in place. Most steps are such; all others are left to the whole judge.
#![tactic(auto)]

ghost use Rattle.std.specs.Prelude.{◌≡◌, ℕ, Bool, List, IfSome, None, false, true};
ghost use Rattle.xt_isa.specs.declared.Insn.{Insn};
ghost use Rattle.xt_map.specs.Memory.{constant_byte};
ghost use Rattle.xt_map.specs.Regions.{is_mapped};
ghost use Rattle.xt_map.specs.Fetching.{Fetches, fetch_at};
ghost use Rattle.xt_frames.specs.declared.view.Caller.{Caller};
ghost use Rattle.xt_frames.specs.Frames.{Frame, FrameState, value_or_zero};
ghost use Rattle.xt_frames.specs.KeptFrameState.{AreKept};
ghost use Rattle.xt_uses.specs.UseParts.{IsTouched, use_at};
ghost use Rattle.xt_uses.specs.UseQuick.{AreWhole, IsQuickUse};

use crate::stepping::Top;
use crate::testing::Touched;
use crate::words::ALL_BITS;
use xt_codec::{Fetch, instruction_at};
use xt_frames::Limits;
use xt_map::Constants;
use xt_trace::StepRecord;

impl Top {
    /// Whether the next step, outside nested interrupts, executes an instruction that reads words of which each bit is known, if it
    /// executes one.
    #[inline(always)]
    fn reads_whole(&self, code: &Constants) -> bool
        ensures { result ≡ true → (i : Insn) (len : ℕ) (frames : List Frame) (kept : List (List ℕ)) (f : FrameState)
            → fetch_at (constant_byte code.now) self.now.view.control.pc ≡ Fetches i len → self.now.holes.nested ≡ None
            → AreWhole i (use_at frames kept self.now.holes self.now.view self.now.masks) f }
    {
        match instruction_at::<Touched>(code, self.view.pc()) {
            Fetch::Insn(i, _) => self.masks.reads_whole(i),
            Fetch::Fails(_) | Fetch::Nothing => false,
        }
    }

    /// Steps by a record that is not nested, if the step shows no breach, stays in its frame, and reads and writes words of which
    /// each bit is known: whether it did. Else nothing has changed.
    ///
    /// Condition: the record's access is one that the bus serves.
    pub fn quick(
        &mut self,
        limits: Limits,
        fresh: bool,
        touched: &Touched,
        code: &Constants,
        rec: &StepRecord,
    ) -> bool
        requires { IfSome rec.now.access (λ a. is_mapped a ≡ true) }
        ensures quick { result ≡ true → (frames : List Frame) (kept : List (List ℕ)) (live : ℕ → Bool) (bytes : ℕ → ℕ) → IsTouched touched.now rec.now live bytes
            → IsQuickUse limits fresh (constant_byte code.now) live rec.now bytes (use_at frames kept self.old.holes self.old.view self.old.masks) (λ fs ks. use_at fs ks self.new.holes self.new.view self.new.masks) }
        ensures kept { result ≡ true → (lo hi : ℕ) (callers : List Caller) (capacity : ℕ) → AreKept lo hi self.old.view callers capacity → AreKept lo hi self.new.view callers capacity }
        ensures sp { result ≡ true → value_or_zero self.new.view.seen 1 ≡ value_or_zero self.old.view.seen 1 }
        ensures holes { self.new.holes ≡ self.old.holes }
        ensures other { result ≡ false → self.new ≡ self.old }
    {
        if self.holes.nested.is_some() || touched.saves || touched.swaps {
            return false;
        }
        if touched.reply != ALL_BITS || !self.reads_whole(code) {
            return false;
        }
        match self.view.quick(&self.holes, limits, fresh, code, rec) {
            Some(write) => {
                self.masks.know(write);
                true
            }
            None => false,
        }
    }
}
