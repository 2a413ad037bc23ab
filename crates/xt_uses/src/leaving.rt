//! What a return of the strict discipline leaves to the caller.
#![tactic(auto)]

ghost use Rattle.std.specs.Prelude.{◌≡◌, ◌≤◌, ◌<◌, ℕ, List, if◌then◌else◌};
ghost use Rattle.xt_frames.specs.Frames.{Frame};
ghost use Rattle.xt_frames.specs.KeptFrameState.{IsNewest, IsSmall};
ghost use Rattle.xt_uses.specs.UseStep.{is_left, leave_results};
ghost use Rattle.xt_uses.specs.UseParts.{use_at, without_register};

use crate::stepping::Top;
use xt_frames::Caller;

/// Whether it leaves a register, where register `first` was the callee's a0: one of the caller's own, or a result.
fn is_left(first: u8, i: u8) -> bool
    requires { first ≤ 12 }
    ensures { result ≡ is_left first i }
{
    i < first || (first + 2 <= i && i < first + 6) || 16 <= i
}

impl Top {
    /// Nothing is known of a register, if a return does not leave it.
    fn leave_register(&mut self, first: u8, i: u8)
        requires first { first ≤ 12 }
        requires register { i < 16 }
        ensures { self.new ≡ (if is_left first i then self.old else without_register i self.old) }
    {
        if is_left(first, i) {
            return;
        }
        self.view.put(i, None);
        self.masks.seen[i as usize] = 0;
    }

    /// Nothing is known of the registers that a return to this caller does not leave, if the step is one that forgets them.
    pub fn leave(&mut self, forgets: bool, newest: &Option<Caller>)
        requires { IsSmall newest.now }
        ensures state { (frames callers : List Frame) (kept : List (List ℕ)) → IsNewest newest.now callers
            → use_at frames kept self.new.holes self.new.view self.new.masks
            ≡ (if forgets then leave_results callers (use_at frames kept self.old.holes self.old.view self.old.masks) else use_at frames kept self.old.holes self.old.view self.old.masks) }
        ensures holes { self.new.holes ≡ self.old.holes }
    {
        if !forgets {
            return;
        }
        let Some(caller) = newest else {
            return;
        };
        let first = 4 * caller.by;
        for i in 0..16u8 {
            self.leave_register(first, i);
        }
    }
}
