//! What `trace` prints.
ghost use Rattle.std.specs.Prelude.{◌≡◌, ◌≤◌, ◌++◌, OnOk};
ghost use Rattle.xt_events.specs.Lines.{turns_text};
ghost use Rattle.xt_replay.specs.Shown.{replay_at};
ghost use Rattle.xt_debug.specs.Searches.{end_of};

use std::alloc::{AllocError, Global};
use xt_events::{Filter, push_next_turn};
use xt_replay::Replay;

/// Goes on to a position, and appends the lines of the turns on the way. If memory runs out, it stands somewhere.
///
/// Condition: the run has this position, which is not before the present one.
pub fn push_turns(
    alloc: Global,
    out: &mut Vec<u8>,
    replay: &mut Replay,
    to: u32,
) -> Result<(), AllocError>
    requires from { replay.old.position ≤ to }
    requires within { to ≤ end_of replay.old.run }
    ensures text { OnOk result (out.new.items ≡ out.old.items ++ turns_text replay.old.image replay.old.run replay.old.position to) }
    ensures there { OnOk result (replay.new ≡ replay_at replay.old to) }
    ensures moved { replay.new ≡ replay_at replay.old replay.new.position }
{
    for _ in replay.position()..to {
        push_next_turn(alloc, out, Filter::everything(), replay)?;
    }
    Ok(())
}
