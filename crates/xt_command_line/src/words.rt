ghost use Rattle.std.specs.Prelude.{◌≡◌, Err, IfOk, Some, map, string_bytes, true};
ghost use Rattle.clap.specs.Words.{is_simple_and_free, new_app};
ghost use Rattle.xt_command_line.specs.MeaningAnswers.{Means};
ghost use Rattle.xt_command_line.specs.Meaning.{HasValidOptions, MayWantMemory, TakesMemory, meaning_by, meaning_of, command_named, name_in, without_options};
ghost use Rattle.xt_command_line.specs.declared.command.Refusal.TheVariants.{Memory};

use crate::arguments::{check_vecbase, generator_number, secret_options, uses_rigor};
use crate::command::{Command, Name, Refusal};
use crate::depths::profile_options;
use crate::listings::listing;
use crate::option_commands::matches_for;
use crate::option_words::{record_options, run_options};
use crate::outcomes::outcomes_options;
use crate::turns::trace_turns;
use std::alloc::Global;

// The commands by their words.
const NAMES: [(&str, Name); 18] = [
    ("asm", Name::Assemble),
    ("elf", Name::Convert),
    ("dis", Name::Disassemble),
    ("map", Name::Map),
    ("check", Name::Check),
    ("run", Name::Run),
    ("record", Name::Record),
    ("replay", Name::Replay),
    ("migrate", Name::Migrate),
    ("events", Name::Events),
    ("counts", Name::Counts),
    ("trace", Name::Trace),
    ("race", Name::Race),
    ("profile", Name::Profile),
    ("uses", Name::Uses),
    ("secrets", Name::Secrets),
    ("outcomes", Name::Outcomes),
    ("gen", Name::Generate),
];

// The command that a word names in a list.
fn name_in(names: &[(&str, Name)], word: &str) -> Option<Name>
    ensures { result ≡ name_in (map (λ n. (n.0.now, n.1)) names.now) word.now }
{
    for name in names {
        if word == name.0 {
            return Some(name.1);
        }
    }
    None
}

#[tactic(auto, unfolding(crate::specs::Meaning::command_named))]
fn name_of(word: &str) -> Option<Name>
    ensures { result ≡ command_named word.now }
{
    name_in(&NAMES, word)
}

// The answer, where the words are the command's name and no option.
fn without_options<'a, T: Drop>(
    alloc: Global,
    name: &'a str,
    answer: T,
    words: &'a [String],
) -> Result<T, Refusal>
    requires { is_simple_and_free (new_app name.now) ≡ true }
    ensures means { Means result (without_options name.now answer (map string_bytes words.now)) }
    ensures same { IfOk result (λ a. a ≡ answer) }
{
    matches_for(alloc, name, &[], words)?;
    Ok(answer)
}

// What the words of this command mean, the first of which names it.
fn named_meaning(alloc: Global, name: Name, words: &[String]) -> Result<Command, Refusal>
    ensures means { Means result (meaning_by (Some name) (map string_bytes words.now)) }
    ensures valid { IfOk result HasValidOptions }
    ensures memory { result ≡ Err Memory → TakesMemory (Some name) }
{
    match name {
        Name::Run => Ok(Command::Run(run_options(alloc, words)?)),
        Name::Record => Ok(Command::Record(record_options(alloc, words)?)),
        Name::Assemble => without_options(alloc, "asm", Command::Assemble, words),
        Name::Convert => without_options(alloc, "elf", Command::Convert, words),
        Name::Disassemble => Ok(Command::Disassemble(listing(alloc, words)?)),
        Name::Map => without_options(alloc, "map", Command::Map, words),
        Name::Replay => Ok(Command::Replay),
        Name::Migrate => without_options(alloc, "migrate", Command::Migrate, words),
        Name::Events => without_options(alloc, "events", Command::Events, words),
        Name::Counts => without_options(alloc, "counts", Command::Counts, words),
        Name::Trace => Ok(Command::Trace(trace_turns(alloc, words)?)),
        Name::Race => without_options(alloc, "race", Command::Race, words),
        Name::Profile => Ok(Command::Profile(profile_options(alloc, words)?)),
        Name::Uses => Ok(Command::Uses(uses_rigor(alloc, words)?)),
        Name::Secrets => Ok(Command::Secrets(secret_options(alloc, words)?)),
        Name::Check => Ok(Command::Check(check_vecbase(alloc, words)?)),
        Name::Outcomes => Ok(Command::Outcomes(outcomes_options(alloc, words)?)),
        Name::Generate => Ok(Command::Generate(generator_number(alloc, words)?)),
    }
}

/// The command with its options that the words after the program's name say, or why they say none.
///
/// - No word is `Usage(1)`, and a first word that is no command `Usage(2)`.
/// - `asm`, `elf`, `map`, `migrate`, `events`, `counts` and `race` take no further word. Other words after
///   them are `Usage(3)`, as far as `clap` does not take them: it takes one that is `--`.
/// - `dis` has the listing that `listing` says, with the rules of usage 3, 4, 6 and 7.
/// - `check` has the option that `check_vecbase` says, with the rules of usage 3, 4 and 7.
/// - `run` has the options that `run_options` says, with the rules of usage 3 to 8 and 10, and `record` those of
///   `record_options`, with the same.
/// - `trace` has the turns that `trace_turns` says, with the rules of usage 3 and 4.
/// - `profile` has the options that `profile_options` says, with the rules of usage 3 and 4.
/// - `uses` has the rigor that `uses_rigor` says, with rule 3.
/// - `secrets` has the options that `secret_options` says, with the rules of usage 3 and 10.
/// - `outcomes` has the options that `outcomes_options` says, with the rules of usage 3 to 8.
/// - `gen` has the number that `generator_number` says, with the same.
/// - `replay` is `Replay`, whatever follows: `script_text` reads its words.
///
/// `Memory` says only that memory ran out.
pub fn meaning(alloc: Global, words: &[String]) -> Result<Command, Refusal>
    ensures means { Means result (meaning_of (map string_bytes words.now)) }
    ensures valid { IfOk result HasValidOptions }
    ensures memory { result ≡ Err Memory → MayWantMemory (map string_bytes words.now) }
{
    let Some(word) = words.first() else {
        return Err(Refusal::Usage(1));
    };
    match name_of(word.as_str()) {
        None => Err(Refusal::Usage(2)),
        Some(name) => named_meaning(alloc, name, words),
    }
}
