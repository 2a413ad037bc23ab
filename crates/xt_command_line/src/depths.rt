//! The words of `profile`.
ghost use Rattle.std.specs.Prelude.{◌≡◌, map, string_bytes};
ghost use Rattle.xt_command_line.specs.MeaningAnswers.{Means};
ghost use Rattle.xt_command_line.specs.Depths.{judged_depth, profile_options_of};

use crate::command::{ProfileOptions, Refusal};
use crate::option_commands::matches_for;
use crate::option_words::number_or;
use crate::simple::Form;
use std::alloc::Global;

// The arguments of `profile`.
const ARGUMENTS: [(Form, &str); 2] = [(Form::Text, "depth"), (Form::Flag, "after")];

/// How many functions a key of `profile` has at most, but for cut ones, where no word says it.
pub const DEFAULT_DEPTH: u32 = 8;

// These options, or the rule of usage that the depth breaks.
fn judge_depth(depth: Option<u32>, after: bool) -> Result<ProfileOptions, Refusal>
    ensures { result ≡ judged_depth depth after }
{
    match depth {
        Some(depth) if 1 <= depth && depth <= 64 => Ok(ProfileOptions { depth, after }),
        _ => Err(Refusal::Usage(4)),
    }
}

/// The options that the words of `profile` say, the first of which stands for the command.
///
/// The words are read as a simple command of `clap` with the option `--depth N`, whose default is
/// 8, and the flag `--after`. N is a number as for `run`. `Usage` has the first rule that the words
/// break: 3 they do not match, 4 the text is no number from 1 to 64. `Memory` says only that memory
/// ran out.
pub fn profile_options(alloc: Global, words: &[String]) -> Result<ProfileOptions, Refusal>
    ensures { Means result (profile_options_of (map string_bytes words.now)) }
{
    let matches = matches_for(alloc, "profile", &ARGUMENTS, words)?;
    judge_depth(
        number_or(matches.text("depth"), DEFAULT_DEPTH),
        matches.is_given("after"),
    )
}
