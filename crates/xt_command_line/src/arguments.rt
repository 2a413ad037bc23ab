//! The words of `check`, `gen`, `replay`, `uses` and `secrets`.
ghost use Rattle.std.specs.Prelude.{◌≡◌, IfOk, map, string_bytes, ok_or, option_and_then, option_map};
ghost use Rattle.xt_command_line.specs.MeaningAnswers.{Means, MeansAs};
ghost use Rattle.xt_command_line.specs.Arguments.{IsVecbase, generator_number_of, judged_vecbase, rigor_of, script_text_of, secret_options_of, secrets_app, uses_app, vecbase_of};
ghost use Rattle.xt_command_line.specs.Numbers.{number_of};
ghost use Rattle.xt_command_line.specs.Simple.{Matches, rows_by};
ghost use Rattle.xt_command_line.specs.declared.command.Refusal.TheVariants.{Usage};

use crate::command::{Refusal, Rigor};
use crate::numbers::number;
use crate::option_commands::{REPLAY, matches_for};
use crate::option_words::{DEFAULT_VECBASE, number_or};
use crate::secrets::{SecretOptions, secrets_in};
use crate::simple::{Form, Matched};
use std::alloc::Global;

// The arguments of `secrets`.
const SECRETS: [(Form, &str); 2] = [(Form::Text, "secret"), (Form::Text, "public")];

// A VECBASE, or the first rule of usage that it breaks.
fn judge_vecbase(vecbase: Option<u32>) -> Result<u32, Refusal>
    ensures means { result ≡ judged_vecbase vecbase }
    ensures valid { IfOk result IsVecbase }
{
    match vecbase {
        None => Err(Refusal::Usage(4)),
        Some(vecbase) if vecbase % 1024 == 0 => Ok(vecbase),
        Some(_) => Err(Refusal::Usage(7)),
    }
}

/// The VECBASE that the words of `check` say, the first of which stands for the command.
///
/// The words are read as a simple command of `clap` with the option `--vecbase N`, whose default is 0x40080000. N is as
/// for `run`. `Usage` has the first rule that the words break: 3 they do not match, 4 the text is no number, 7 it is no
/// multiple of 1024. `Memory` says only that memory ran out.
pub fn check_vecbase(alloc: Global, words: &[String]) -> Result<u32, Refusal>
    ensures means { Means result (vecbase_of (map string_bytes words.now)) }
    ensures valid { IfOk result IsVecbase }
{
    let matches = matches_for(alloc, "check", &[(Form::Text, "vecbase")], words)?;
    judge_vecbase(number_or(matches.text("vecbase"), DEFAULT_VECBASE))
}

// The number of a text.
fn number_from(text: Option<&str>) -> Result<u32, Refusal>
    ensures { result ≡ ok_or (option_and_then number_of (option_map (λ t. t.now) text.entry)) (Usage 4) }
{
    match text {
        Some(text) => number(text).ok_or(Refusal::Usage(4)),
        None => Err(Refusal::Usage(4)),
    }
}

/// The number that the words of `gen` say, the first of which stands for the command.
///
/// The words are read as a simple command of `clap` with one text that must be there. It is a number as for `run`.
/// `Usage` has the first rule that the words break: 3 they do not match, 4 the text is no number. `Memory` says only that
/// memory ran out.
pub fn generator_number(alloc: Global, words: &[String]) -> Result<u32, Refusal>
    ensures { Means result (generator_number_of (map string_bytes words.now)) }
{
    let matches = matches_for(alloc, "gen", &[(Form::Positional, "number")], words)?;
    number_from(matches.text("number"))
}

/// The text of the script that the words of `replay` have, the first of which stands for the command.
///
/// The words are read as a simple command of `clap` with one text that must be there and the flag `--lenient`.
/// `Usage(3)` says that they do not match. `Memory` says only that memory ran out.
pub fn script_text<'a>(alloc: Global, words: &'a [String]) -> Result<&'a str, Refusal>
    ensures { MeansAs (λ t. t.now) result (script_text_of (map string_bytes words.now)) }
{
    let matches = matches_for(alloc, "replay", &REPLAY, words)?;
    matches.text("script").ok_or(Refusal::Usage(3))
}

// What `clap` matches on the words of `uses`.
fn uses_matches<'a>(alloc: Global, words: &'a [String]) -> Result<Matched<'a>, Refusal>
    ensures { Matches result (rows_by uses_app (map string_bytes words.now)) }
{
    matches_for(alloc, "uses", &[(Form::Flag, "lenient")], words)
}

/// The rigor that the words of `uses` say, the first of which stands for the command.
///
/// The words are read as a simple command of `clap` with the flag `--lenient`. `Usage(3)` says that they do not match.
/// `Memory` says only that memory ran out.
pub fn uses_rigor(alloc: Global, words: &[String]) -> Result<Rigor, Refusal>
    ensures { Means result (rigor_of (map string_bytes words.now)) }
{
    let matches = uses_matches(alloc, words)?;
    if matches.is_given("lenient") {
        Ok(Rigor::Lenient)
    } else {
        Ok(Rigor::Strict)
    }
}

// What is secret, which has to be said.
fn needed_secrets(secrets: Option<SecretOptions>) -> Result<SecretOptions, Refusal>
    ensures { result ≡ ok_or secrets (Usage 10) }
{
    match secrets {
        Some(secrets) => Ok(secrets),
        None => Err(Refusal::Usage(10)),
    }
}

// What `clap` matches on the words of `secrets`.
fn secrets_matches<'a>(alloc: Global, words: &'a [String]) -> Result<Matched<'a>, Refusal>
    ensures { Matches result (rows_by secrets_app (map string_bytes words.now)) }
{
    matches_for(alloc, "secrets", &SECRETS, words)
}

/// What the words of `secrets` say to be secret, the first of which stands for the command.
///
/// The words are read as a simple command of `clap` with the options `--secret LIST` and `--public LIST`. `Usage` has the
/// first rule that the words break: 3 they do not match, 10 `--secret` is not there, or `secrets_in` refuses a list.
/// `Memory` says only that memory ran out.
pub fn secret_options(alloc: Global, words: &[String]) -> Result<SecretOptions, Refusal>
    ensures { Means result (secret_options_of (map string_bytes words.now)) }
{
    let matches = secrets_matches(alloc, words)?;
    let secrets = secrets_in(alloc, matches.text("secret"), matches.text("public"))?;
    needed_secrets(secrets)
}
