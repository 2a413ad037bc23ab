//! The turns of a core with an access.
ghost use Rattle.std.specs.Prelude.{◌+◌, ◌<◌, ◌^◌, length};

use xt_core::Cursor;
use xt_trace::{Records, StepRecord};

/// What is left of the turns of a core, of which so many are past.
#[derive(Drop)]
pub struct Turns<'a> {
    pub cursor: Cursor<'a>,
    pub count: u32,
    ghost room: { count + length cursor < 2 ^ 32 },
}

impl<'a> Turns<'a> {
    ghost use Rattle.std.specs.Prelude.{◌≡◌, [], ◌∷◌, MatchOption};
    ghost use Rattle.xt_race.specs.KeptEntries.{turns_left};

    /// The next turn with an access, with its number, if there is one.
    pub fn next(&mut self) -> Option<(u32, StepRecord)>
        ensures { MatchOption result (turns_left self.old ≡ []) (λ t. turns_left self.old ≡ t ∷ turns_left self.new) }
    {
        while let Some(step) = self.cursor.next() {
            let number = self.count;
            self.count += 1;
            if step.access.is_some() {
                return Some((number, step));
            }
        }
        None
    }
}
