//! Laws of time. Each is the contract of a function that does nothing.
#![tactic(auto)]

ghost use Rattle.xt_timeless.specs.TimeLaws.{TimeIsUsedByBoth, TimersWait, TurnsKeepTimeOut, WorldsKeepTimeOut};

/// From states that are equal but for time, a turn that uses no time is the same turn, and leaves
/// states that are equal but for time.
#[tactic(auto, using(crate::proofs::Turning::turns_keep_time_out))]
pub fn turns_keep_time_out()
    ensures { TurnsKeepTimeOut }
{}

/// From states that are equal but for time, a turn uses time in both or in neither.
#[tactic(auto, using(crate::proofs::Turning::time_is_used_by_both))]
pub fn time_is_used_by_both()
    ensures { TimeIsUsedByBoth }
{}

/// From worlds that are equal but for time, turns that use no time lead to worlds that are equal but
/// for time.
#[tactic(auto, using(crate::proofs::Going::worlds_keep_time_out))]
pub fn worlds_keep_time_out()
    ensures { WorldsKeepTimeOut }
{}

/// If other bits of timers in INTERRUPT let the same interrupt in, or none, a turn that does not read
/// a register of time is the same, and leaves states that are equal but for these bits.
pub fn timers_wait()
    ensures { TimersWait }
{}
