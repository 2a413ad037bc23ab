//! What becomes of a script that leads beyond the run.
ghost use Rattle.std.specs.Prelude.{map, string_bytes};
ghost use Rattle.xt_command_line.specs.MeaningAnswers.{Means};
ghost use Rattle.xt_command_line.specs.Beyond.{beyond_of};

use crate::command::Refusal;
use crate::option_commands::{REPLAY, matches_for};
use std::alloc::Global;

/// What becomes of a script at a command that leads beyond the run.
#[derive(Clone, Copy)]
pub enum Beyond {
    /// It ends there.
    Ends,
    /// It goes on (`--lenient`).
    GoesOn,
}

/// What the words of `replay`, the first of which stands for the command, say of a script that leads beyond the run.
///
/// The words are read as for `script_text`. `Usage(3)` says that they do not match. `Memory` says only that memory ran
/// out.
pub fn script_beyond(alloc: Global, words: &[String]) -> Result<Beyond, Refusal>
    ensures { Means result (beyond_of (map string_bytes words.now)) }
{
    let matches = matches_for(alloc, "replay", &REPLAY, words)?;
    if matches.is_given("lenient") {
        Ok(Beyond::GoesOn)
    } else {
        Ok(Beyond::Ends)
    }
}
