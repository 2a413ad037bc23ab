ghost use Rattle.std.specs.Prelude.{◌≡◌};
ghost use Rattle.xt_trace.specs.Calls.{is_stop};
ghost use Rattle.xt_trace.specs.Worlds.{left_past};

use xt_trace::{StepKind, StepRecord};

/// Whether a turn stops its core.
#[inline(always)]
pub fn stops(kind: StepKind) -> bool
    ensures { result ≡ is_stop kind }
{
    match kind {
        StepKind::Stop => true,
        _ => false,
    }
}

/// The turns that are left after one with this record, where else so many would be: none after a Stop.
#[inline(always)]
pub fn left_past(step: StepRecord, left: u32) -> u32
    ensures { result ≡ left_past step left }
{
    if stops(step.kind) { 0 } else { left }
}
