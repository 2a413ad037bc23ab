//! The words of `trace`.
ghost use Rattle.std.specs.Prelude.{◌≡◌, None, map, string_bytes, option_map};
ghost use Rattle.xt_command_line.specs.MeaningAnswers.{Means};
ghost use Rattle.xt_command_line.specs.Options.{said_or};
ghost use Rattle.xt_command_line.specs.Turns.{chosen_turns, core_of, turns_of};

use crate::command::{Refusal, Turns};
use crate::numbers::number;
use crate::option_commands::matches_for;
use crate::option_words::number_or;
use crate::simple::Form;
use std::alloc::Global;

// The arguments of `trace`.
const ARGUMENTS: [(Form, &str); 6] = [
    (Form::Text, "from"),
    (Form::Text, "to"),
    (Form::Text, "core"),
    (Form::Flag, "accesses"),
    (Form::Flag, "jumps"),
    (Form::Flag, "frames"),
];

// The core that a text says, 0 or 1, or none where there is no text. Nothing says that a text says none.
fn given_core(text: Option<&str>) -> Option<Option<u8>>
    ensures { result ≡ said_or core_of None (option_map (λ t. t.now) text.entry) }
{
    let Some(text) = text else {
        return Some(None);
    };
    match number(text)? {
        0 => Some(Some(0)),
        1 => Some(Some(1)),
        _ => None,
    }
}

// These turns, or the rule of usage that a text breaks which is no number, or no core.
fn choose(
    from: Option<u32>,
    to: Option<u32>,
    core: Option<Option<u8>>,
    accesses: bool,
    jumps: bool,
    frames: bool,
) -> Result<Turns, Refusal>
    ensures { result ≡ chosen_turns from to core accesses jumps frames }
{
    match (from, to, core) {
        (Some(from), Some(to), Some(core)) => Ok(Turns {
            from,
            to,
            core,
            accesses,
            jumps,
            frames,
        }),
        _ => Err(Refusal::Usage(4)),
    }
}

/// The turns that the words of `trace` say, the first of which stands for the command.
///
/// The words are read as a simple command of `clap` with the options `--from N`, whose default is 0, `--to N`, whose
/// default is above every position, and `--core C`, and the flags `--accesses`, `--jumps` and `--frames`. N is as for
/// `run`, and C is a number that is 0 or 1. `Usage` has the first rule that the words break: 3 they do not match, 4 a text
/// is no number, or no core. `Memory` says only that memory ran out.
pub fn trace_turns(alloc: Global, words: &[String]) -> Result<Turns, Refusal>
    ensures { Means result (turns_of (map string_bytes words.now)) }
{
    let matches = matches_for(alloc, "trace", &ARGUMENTS, words)?;
    choose(
        number_or(matches.text("from"), 0),
        number_or(matches.text("to"), u32::MAX),
        given_core(matches.text("core")),
        matches.is_given("accesses"),
        matches.is_given("jumps"),
        matches.is_given("frames"),
    )
}
