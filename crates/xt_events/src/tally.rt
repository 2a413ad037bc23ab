//! What is counted at an address.
ghost use Rattle.std.specs.Prelude.{◌≡◌, ◌<◌, Some};
ghost use Rattle.xt_events.specs.Counts.{goes_to};
ghost use Rattle.xt_events.specs.CountedTurns.{IsSmall, tally_with_turn, more, empty_tally};

use crate::turn::{Turn, is_executed, is_raised};

/// What the turns of a core did with the instruction at an address.
#[derive(Clone, Copy)]
pub struct Tally {
    /// How many executed it.
    pub executed: u32,
    /// How many tried it, and had an exception or a window exception in its place.
    pub raised: u32,
    /// Its target, where it is a conditional branch, LOOPNEZ or LOOPGTZ.
    pub target: Option<u32>,
    /// How many executed it and went on at the target.
    pub taken: u32,
}

// One more, or none.
fn more(b: bool, n: u32) -> u32
    requires { n < 4294967295 }
    ensures { result ≡ more b n }
{
    if b { n + 1 } else { n }
}

// Whether a core that stands at `next` now went to the target of a branch.
fn goes_to(target: Option<u32>, next: u32) -> bool
    ensures { result ≡ goes_to target next }
{
    match target {
        Some(target) => next == target,
        None => false,
    }
}

impl Tally {
    /// No turn yet at an instruction with this target.
    pub fn start(target: Option<u32>) -> Tally
        ensures { result ≡ empty_tally target }
    {
        Tally {
            executed: 0,
            raised: 0,
            target,
            taken: 0,
        }
    }

    /// With one turn more.
    pub fn with(self, turn: Turn) -> Tally
        requires { IsSmall 4294967295 (Some self) }
        ensures { result ≡ tally_with_turn turn self }
    {
        let executed = is_executed(turn.kind);
        Tally {
            executed: more(executed, self.executed),
            raised: more(is_raised(turn.kind), self.raised),
            target: self.target,
            taken: more(executed && goes_to(self.target, turn.next), self.taken),
        }
    }
}
