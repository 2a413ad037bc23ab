//! The callers as they are kept, the oldest first.
#![tactic(auto)]

ghost use Rattle.std.specs.Prelude.{◌≡◌, ◌≤◌, ◌<◌, ◌-◌, ◌^◌, length, vec_len, vec_capacity};
ghost use Rattle.xt_frames.specs.Backtrace.{a0_in};
ghost use Rattle.xt_frames.specs.SaveAreas.{before, sp_of};
ghost use Rattle.xt_frames.specs.KeptFrameState.{IsNewest, IsSmall, frame_of, frames_after, frames_of};
ghost use Rattle.xt_frames.specs.Stacks.{AreFrames};
ghost use Rattle.xt_frames.specs.Walked.{calls_in, sp_in};

use crate::view::{Call, Caller};

/// The stack pointer of a caller.
pub fn sp_of(caller: &Caller) -> u32
    requires { 0 < caller.now.by }
    ensures { result ≡ sp_of (frame_of caller.now) }
{
    match caller.kept[1] {
        Some(sp) => sp,
        None => 0,
    }
}

/// How many callers there are.
pub fn depth_of(callers: &[Caller]) -> u32
    requires { length callers.now < 2 ^ 32 }
    ensures { result ≡ length callers.now }
{
    callers.len() as u32
}

/// The newest caller, if any.
pub fn newest_of(callers: &[Caller]) -> Option<Caller>
    requires { AreFrames (frames_of callers.now) }
    ensures newest { IsNewest result (frames_of callers.now) }
    ensures small { IsSmall result }
{
    let depth = callers.len();
    if depth == 0 {
        None
    } else {
        Some(callers[depth - 1])
    }
}

/// The newest caller's stack pointer, or HI.
pub fn under(callers: &[Caller], hi: u32) -> u32
    requires { AreFrames (frames_of callers.now) }
    ensures { result ≡ before hi (frames_of callers.now) }
{
    let depth = callers.len();
    if depth == 0 {
        hi
    } else {
        sp_of(&callers[depth - 1])
    }
}

/// The stack pointer of frame `j`, where `sp` is that of the newest frame.
pub fn sp_in(callers: &[Caller], sp: u32, j: u32) -> u32
    requires frames { AreFrames (frames_of callers.now) }
    requires place { j ≤ length callers.now }
    ensures { result ≡ sp_in (frames_of callers.now) sp (length callers.now - j) }
{
    if j as usize == callers.len() {
        sp
    } else {
        sp_of(&callers[j as usize])
    }
}

/// The a0 of frame `j`, where this is that of the newest frame; none where it has no value.
pub fn a0_in(callers: &[Caller], a0: Option<u32>, j: u32) -> Option<u32>
    requires frames { AreFrames (frames_of callers.now) }
    requires place { j ≤ length callers.now }
    ensures { result ≡ a0_in (frames_of callers.now) a0 (length callers.now - j) }
{
    if j as usize == callers.len() {
        a0
    } else {
        callers[j as usize].kept[0]
    }
}

/// By how many windows frame `j` called.
pub fn calls_in(callers: &[Caller], j: u32) -> u8
    requires { j < length callers.now }
    ensures { result ≡ calls_in (frames_of callers.now) (length callers.now - 1 - j) }
{
    callers[j as usize].by
}

/// The callers after a call, a return or another step. Takes no memory: there has to be room for one more.
pub fn change(callers: &mut Vec<Caller>, call: Call)
    requires { vec_len callers.old < vec_capacity callers.old }
    ensures frames { frames_of callers.new.items ≡ frames_after call (frames_of callers.old.items) }
    ensures room { vec_capacity callers.new ≡ vec_capacity callers.old }
{
    match call {
        Call::Stays => {}
        Call::Calls(caller) => callers.push_reserved(caller),
        Call::Returns => {
            let _caller = callers.pop();
        }
    }
}
