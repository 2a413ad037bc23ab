//! Where a run ends.
ghost use Rattle.std.specs.Prelude.{◌≡◌, length};
ghost use Rattle.xt_core.specs.Positions.{schedule_in};

use crate::Replay;

/// The position after a run's last step.
pub fn end_of(replay: &Replay) -> u32
    ensures { result ≡ length (schedule_in replay.now.run) }
{
    let run = replay.run();
    run.trace0.count + run.trace1.count
}
