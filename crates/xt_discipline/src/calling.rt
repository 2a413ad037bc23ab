//! The save areas of a core's newest call.
#![tactic(auto)]

ghost use Rattle.std.specs.Prelude.{◌≡◌, ◌≤◌, ◌<◌, ◌-◌, length};
ghost use Rattle.xt_frames.specs.Breaches.{Bounds};
ghost use Rattle.xt_frames.specs.Frames.{FrameState, value_or_zero};
ghost use Rattle.xt_frames.specs.Stacks.{Stack};
ghost use Rattle.xt_frames.specs.Walked.{calls_in, sp_in};
ghost use Rattle.xt_discipline.specs.Sides.{IsCallOf, IsNewestCall};

use crate::side::Areas;
use xt_frames::Frames;

/// A core whose frames can be looked at by their numbers, where the opening frame is 0.
pub trait Stacked {
    /// Its stack range and VECBASE.
    ghost bounds: { Self → Bounds };

    /// Its frames, and what its newest frame holds.
    ghost frame: { Self → FrameState };

    /// How many frames have called another.
    fn callers(&self) -> u32
        ensures depth { result ≡ length (frame self.now).frames }
        ensures stack { Stack (bounds self.now).range.lo (bounds self.now).range.hi (frame self.now).seen (frame self.now).frames };

    /// The stack pointer of frame `j`, which is at most the number of callers.
    fn stack_pointer(&self, j: u32) -> u32
        requires { j ≤ length (frame self.now).frames }
        ensures { result ≡ sp_in (frame self.now).frames (value_or_zero (frame self.now).seen 1) (length (frame self.now).frames - j) };

    /// By how many windows frame `j` called, which is below the number of callers: 1, 2 or 3.
    fn windows(&self, j: u32) -> u8
        requires { j < length (frame self.now).frames }
        ensures { result ≡ calls_in (frame self.now).frames (length (frame self.now).frames - 1 - j) };
}

impl Stacked for Frames {
    ghost bounds = { λ w. w.bounds };

    ghost frame = { λ w. w.state };

    fn callers(&self) -> u32 {
        self.depth()
    }

    fn stack_pointer(&self, j: u32) -> u32 {
        self.sp(j)
    }

    fn windows(&self, j: u32) -> u8 {
        self.calls(j)
    }
}

/// The stack pointer of the caller of frame `j`, or the end of the stack.
fn under<C: Stacked>(core: &C, hi: u32, j: u32) -> u32
    requires { j < length (C.frame core.now).frames }
    ensures first { j ≡ 0 → result ≡ hi }
    ensures more { 0 < j → result ≡ sp_in (C.frame core.now).frames (value_or_zero (C.frame core.now).seen 1) (length (C.frame core.now).frames - (j - 1)) }
{
    if j == 0 {
        hi
    } else {
        core.stack_pointer(j - 1)
    }
}

/// The stack pointer of the newest frame of a core.
pub fn newest_sp<C: Stacked>(core: &C) -> u32
    ensures value { result ≡ value_or_zero (C.frame core.now).seen 1 }
    ensures stack { Stack (C.bounds core.now).range.lo (C.bounds core.now).range.hi (C.frame core.now).seen (C.frame core.now).frames }
{
    core.stack_pointer(core.callers())
}

/// The areas of the newest call of a core, whose stack ends at `hi`.
pub fn areas<C: Stacked>(core: &C, hi: u32) -> Areas
    requires end { (C.bounds core.now).range.hi ≡ hi }
    requires called { 0 < length (C.frame core.now).frames }
    ensures { IsNewestCall result hi (C.frame core.now) }
{
    let depth = core.callers();
    let n = u32::from(core.windows(depth - 1));
    let top = under(core, hi, depth - 1);
    Areas {
        low: newest_sp(core) - 16,
        high: top - 16 * n,
        size: 16 * (n - 1),
    }
}

/// The areas of the newest call of a core, whose stack ends at `hi`; none where there is none.
pub fn newest<C: Stacked>(core: &C, hi: u32) -> Option<Areas>
    requires { (C.bounds core.now).range.hi ≡ hi }
    ensures { IsCallOf result hi (C.frame core.now) }
{
    if core.callers() == 0 {
        None
    } else {
        Some(areas(core, hi))
    }
}
