//! The words of `run` and `record` with all their options.
ghost use Rattle.std.specs.Prelude.{◌≡◌, IfOk, map, string_bytes, option_map};
ghost use Rattle.xt_command_line.specs.MeaningAnswers.{Means};
ghost use Rattle.xt_command_line.specs.Numbers.{number_of};
ghost use Rattle.xt_command_line.specs.Options.{AreValid, are_secrets_required, stack_between, given_number_of, options_or_refusal, options_in, options_with, options_without_secrets, range_of, record_app, record_options_of, run_app, run_options_of, said_or, judged_texts};
ghost use Rattle.xt_command_line.specs.Simple.{Matches, rows_by};

use crate::command::Refusal;
use crate::numbers::number;
use crate::option_commands::matches_for;
use crate::options::{RunOptions, within_limits};
use crate::requirements::{Requirement, Requirements, is_among, required_in};
use crate::secrets::{SecretOptions, secrets_in};
use crate::simple::{Form, Matched};
use crate::spans::{Spans, shown_in};
use crate::turn_orders::{TurnOrder, order_in};
use std::alloc::Global;
use xt_trace::Stack;

// The arguments of `run`.
const RUN: [(Form, &str); 17] = [
    (Form::Text, "turns0"),
    (Form::Text, "turns1"),
    (Form::Text, "entry1"),
    (Form::Text, "vecbase"),
    (Form::Text, "stack0"),
    (Form::Text, "stack1"),
    (Form::Text, "seed"),
    (Form::Text, "order"),
    (Form::Text, "require"),
    (Form::Text, "memory"),
    (Form::Text, "secret"),
    (Form::Text, "public"),
    (Form::Flag, "events"),
    (Form::Flag, "race"),
    (Form::Flag, "profile"),
    (Form::Flag, "uses"),
    (Form::Flag, "trace"),
];

// The arguments of `record`.
const RECORD: [(Form, &str); 9] = [
    (Form::Text, "turns0"),
    (Form::Text, "turns1"),
    (Form::Text, "entry1"),
    (Form::Text, "vecbase"),
    (Form::Text, "stack0"),
    (Form::Text, "stack1"),
    (Form::Text, "seed"),
    (Form::Text, "order"),
    (Form::Text, "require"),
];

// The range from one number to another, where both are there.
fn between_both(lo: Option<u32>, hi: Option<u32>) -> Option<Stack>
    ensures { result ≡ stack_between lo hi }
{
    match (lo, hi) {
        (Some(lo), Some(hi)) => Some(Stack { lo, hi }),
        _ => None,
    }
}

// The range that `LO:HI` says.
fn range(text: &str) -> Option<Stack>
    ensures { result ≡ range_of text.now }
{
    match text.split_once(':') {
        Some((lo, hi)) => between_both(number(lo), number(hi)),
        None => None,
    }
}

// The stack of core 0 where no word says another.
const BELOW: Stack = Stack {
    lo: 0x3FFF0000,
    hi: 0x3FFF8000,
};

// The stack of core 1 where no word says another.
const ABOVE: Stack = Stack {
    lo: 0x3FFF8000,
    hi: 0x40000000,
};

/// VECBASE where no word says another.
pub const DEFAULT_VECBASE: u32 = 0x40080000;

/// The number of a text, or the default where there is none.
pub fn number_or(text: Option<&str>, default: u32) -> Option<u32>
    ensures { result ≡ said_or number_of default (option_map (λ t. t.now) text.entry) }
{
    match text {
        Some(text) => number(text),
        None => Some(default),
    }
}

/// The number of a text that is given. Nothing says that a text which is given is no number.
pub fn given_number(text: Option<&str>) -> Option<Option<u32>>
    ensures { result ≡ said_or given_number_of None (option_map (λ t. t.now) text.entry) }
{
    match text {
        Some(text) => Some(Some(number(text)?)),
        None => Some(None),
    }
}

// The range of a text, or the default where there is none.
fn range_or(text: Option<&str>, default: Stack) -> Option<Stack>
    ensures { result ≡ said_or range_of default (option_map (λ t. t.now) text.entry) }
{
    match text {
        Some(text) => range(text),
        None => Some(default),
    }
}

// The options that the texts say, with this order, these requirements and these words of memory, or none where a text is
// no number or no range.
fn options_from(
    matches: &Matched<'_>,
    order: TurnOrder,
    required: Option<Requirements>,
    memory: Option<Spans>,
) -> Option<RunOptions>
    ensures { result ≡ options_in matches.now order required memory }
{
    match (
        number_or(matches.text("turns0"), 100_000),
        number_or(matches.text("turns1"), 100_000),
        given_number(matches.text("entry1")),
        number_or(matches.text("vecbase"), DEFAULT_VECBASE),
        range_or(matches.text("stack0"), BELOW),
        range_or(matches.text("stack1"), ABOVE),
    ) {
        (Some(turns0), Some(turns1), Some(entry1), Some(vecbase), Some(stack0), Some(stack1)) => {
            Some(RunOptions {
                turns0,
                turns1,
                entry1,
                vecbase,
                stack0,
                stack1,
                order,
                trace: matches.is_given("trace"),
                events: matches.is_given("events"),
                race: matches.is_given("race"),
                profile: matches.is_given("profile"),
                uses: matches.is_given("uses"),
                required,
                memory,
                secrets: None,
            })
        }
        _ => None,
    }
}

// The requirements ask for `secrets whole`.
fn are_secrets_required(required: &Option<Requirements>) -> bool
    ensures { result ≡ are_secrets_required required.now }
{
    match required {
        Some(list) => is_among(Requirement::Secret, list.as_slice()),
        None => false,
    }
}

// The options with what is secret, or the rule of usage that they break.
fn options_with(options: RunOptions, secrets: Option<SecretOptions>) -> Result<RunOptions, Refusal>
    requires valid { AreValid options }
    ensures means { result ≡ options_with options secrets }
    ensures valid { IfOk result AreValid }
{
    if secrets.is_none() && are_secrets_required(&options.required) {
        return Err(Refusal::Usage(10));
    }
    let mut options = options;
    options.secrets = secrets;
    Ok(options)
}

// Options that keep the rules of usage 5 to 8, or the first rule that is broken.
fn options_or_refusal(options: Option<RunOptions>) -> Result<RunOptions, Refusal>
    ensures means { result ≡ options_or_refusal options }
    ensures valid { IfOk result AreValid }
{
    match options {
        Some(options) => within_limits(options),
        None => Err(Refusal::Usage(4)),
    }
}

// The options that the texts say but for what is secret, or the first rule of usage that they break.
fn options_without_secrets(alloc: Global, matches: &Matched<'_>) -> Result<RunOptions, Refusal>
    ensures means { Means result (options_without_secrets matches.now) }
    ensures valid { IfOk result AreValid }
{
    let order = order_in(alloc, matches.text("seed"), matches.text("order"))?;
    let required = required_in(alloc, matches.text("require"))?;
    let memory = shown_in(alloc, matches.text("memory"))?;
    options_or_refusal(options_from(matches, order, required, memory))
}

/// The options that the texts say, or the first rule of usage that they break.
pub fn judged_texts(alloc: Global, matches: &Matched<'_>) -> Result<RunOptions, Refusal>
    ensures means { Means result (judged_texts matches.now) }
    ensures valid { IfOk result AreValid }
{
    let options = options_without_secrets(alloc, matches)?;
    let secrets = secrets_in(alloc, matches.text("secret"), matches.text("public"))?;
    options_with(options, secrets)
}

// What `clap` matches on the words of `run`.
fn run_matches<'a>(alloc: Global, words: &'a [String]) -> Result<Matched<'a>, Refusal>
    ensures { Matches result (rows_by run_app (map string_bytes words.now)) }
{
    matches_for(alloc, "run", &RUN, words)
}

// What `clap` matches on the words of `record`.
fn record_matches<'a>(alloc: Global, words: &'a [String]) -> Result<Matched<'a>, Refusal>
    ensures { Matches result (rows_by record_app (map string_bytes words.now)) }
{
    matches_for(alloc, "record", &RECORD, words)
}

/// The options that the words of `run` say, the first of which stands for the command.
///
/// The words are read as a simple command of `clap` with the options `--turns0 N`, `--turns1 N`, `--entry1 N`,
/// `--vecbase N`, `--stack0 LO:HI`, `--stack1 LO:HI`, `--seed N`, `--order LIST`, `--require LIST`, `--memory LIST`,
/// `--secret LIST` and `--public LIST` and the flags `--events`, `--race`, `--profile`, `--uses` and `--trace`. N, LO and HI are decimal digits, or `0x` and one to
/// eight hexadecimal digits, below 2^32; the list of an order is `C*N,C*N,..` of at most 65,536 bytes, where C is a number
/// of value 0 or 1; `required_in`, `shown_in` and `secrets_in` say what the other lists are. `Usage` has the first rule that the words
/// break: 3 they do not match, or `--seed` and `--order` stand together, 4 a text is no number, range or list, 5 a number of turns is above 4,000,000, or an order asks for more than 8,000,000, 6 `entry1` is in no
/// executable region, 7 `vecbase` is no multiple of 1024, 8 a stack is no range of at least 256 bytes in the internal
/// data memory with ends at multiples of 16, 10 `secrets_in` refuses the lists of what is secret, or `secret` is required
/// where nothing is secret. `Memory` says only that memory ran out.
pub fn run_options(alloc: Global, words: &[String]) -> Result<RunOptions, Refusal>
    ensures means { Means result (run_options_of (map string_bytes words.now)) }
    ensures valid { IfOk result AreValid }
{
    let matches = run_matches(alloc, words)?;
    judged_texts(alloc, &matches)
}

/// The same of `record`, which has neither `--memory`, `--secret` and `--public` nor the five flags.
pub fn record_options(alloc: Global, words: &[String]) -> Result<RunOptions, Refusal>
    ensures means { Means result (record_options_of (map string_bytes words.now)) }
    ensures valid { IfOk result AreValid }
{
    let matches = record_matches(alloc, words)?;
    judged_texts(alloc, &matches)
}
