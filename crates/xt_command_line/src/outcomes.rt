//! The words of `outcomes`.
ghost use Rattle.std.specs.Prelude.{◌≡◌, ◌+◌, ◌≤◌, ◌^◌, All, true, IfOk, IfSome, codes, length, map, string_bytes, option_map};
ghost use Rattle.xt_command_line.specs.MeaningAnswers.{Means};
ghost use Rattle.clap.specs.Words.{first_of};
ghost use Rattle.xt_command_line.specs.Options.{judged_texts, said_or};
ghost use Rattle.xt_command_line.specs.Parts.{all_said};
ghost use Rattle.xt_command_line.specs.Simple.{Matches, rows_by};
ghost use Rattle.xt_command_line.specs.Outcomes.{AreOutcomeOptions, is_place, may_count, may_show, may_stand, outcomes_app, outcomes_of, outcomes_with, place_of, shown_of, states_of, word_texts};
ghost use Rattle.xt_command_line.specs.declared.outcomes.Shown.TheVariants as shown;

use crate::command::Refusal;
use crate::numbers::number;
use crate::option_commands::matches_for;
use crate::option_words::judged_texts;
use crate::options::RunOptions;
use crate::roots::Addresses;
use crate::simple::{Form, Matched};
use std::alloc::{AllocError, Global};
use xt_map::is_in_memory;

// The arguments of `outcomes`.
const ARGUMENTS: [(Form, &str); 11] = [
    (Form::Text, "turns0"),
    (Form::Text, "turns1"),
    (Form::Text, "entry1"),
    (Form::Text, "vecbase"),
    (Form::Text, "stack0"),
    (Form::Text, "stack1"),
    (Form::Text, "states"),
    (Form::Text, "show"),
    (Form::Texts, "word"),
    (Form::Flag, "timed"),
    (Form::Flag, "any-time"),
];

/// How many worlds are kept at most, where no word says it.
const DEFAULT_STATES: u32 = 1_000_000;

/// The most worlds that can be asked for.
const MOST_STATES: u32 = 16_000_000;

/// The most words that an outcome can have.
const MOST_WORDS: usize = 4;

/// Of which order `outcomes --any-time` also prints the turns (`--show`).
#[derive(Clone, Copy)]
pub enum Shown {
    /// Of none.
    Nothing,
    /// Of the order of the outcome with this number, counted from 1.
    Outcome(u32),
    /// Of the order that no order continues to an end.
    Stuck,
}

/// What `outcomes` looks at.
#[derive(Drop)]
pub struct OutcomeOptions {
    /// The turns, where core 1 begins, VECBASE and the stacks, as for `run`.
    pub run: RunOptions,
    /// Whether each core has the turns that the options give it (`--timed`).
    pub timed: bool,
    /// Whether an armed timer may fire before any turn (`--any-time`).
    pub any_time: bool,
    /// Of which order it also prints the turns (`--show`).
    pub shown: Shown,
    /// The addresses of the words that belong to an outcome (`--word`).
    pub words: Addresses,
    /// How many worlds are kept at most (`--states`).
    pub states: u32,
}

// An aligned address of memory.
fn is_place(address: u32) -> bool
    ensures place { result ≡ is_place address }
    ensures low { result ≡ true → address + 4 ≤ 2 ^ 32 }
{
    is_in_memory(address) && address % 4 == 0
}

// The address that a text says.
#[tactic(auto, unfolding(crate::specs::Outcomes::place_of))]
fn place_of(text: &str) -> Option<u32>
    ensures place { result ≡ place_of text.now }
    ensures low { IfSome result (λ a. a + 4 ≤ 2 ^ 32) }
{
    match number(text) {
        Some(address) if is_place(address) => Some(address),
        _ => None,
    }
}

// The addresses of these texts, each of which has to say one.
fn places_of(alloc: Global, texts: &[&str]) -> Result<Option<Addresses>, AllocError>
    ensures places { IfOk result (λ list. list ≡ all_said place_of (map (λ text. text.now) texts.now)) }
    ensures low { IfOk result (λ list. IfSome list (λ words. All (λ a. a + 4 ≤ 2 ^ 32) words)) }
{
    let mut words = Vec::new(alloc);
    for text in texts {
        match place_of(text) {
            Some(address) => words.push(address)?,
            None => return Ok(None),
        }
    }
    Ok(Some(Addresses::new(words)))
}

// How many worlds a text says, or the default where there is none.
fn states_or(text: Option<&str>, default: u32) -> Option<u32>
    ensures { result ≡ said_or states_of default (option_map (λ t. t.now) text.entry) }
{
    let Some(text) = text else {
        return Some(default);
    };
    match number(text) {
        Some(states) if 1 <= states && states <= MOST_STATES => Some(states),
        _ => None,
    }
}

// What a text of `--show` says.
#[tactic(auto, unfolding(crate::specs::Outcomes::shown_of))]
fn shown_of(text: &str) -> Option<Shown>
    ensures { result ≡ shown_of text.now }
{
    match text {
        "stuck" => Some(Shown::Stuck),
        _ => match number(text) {
            Some(outcome) if 1 <= outcome => Some(Shown::Outcome(outcome)),
            _ => None,
        },
    }
}

// What `--show` says, or that nothing is shown where there is no text.
fn shown_or(text: Option<&str>) -> Option<Shown>
    ensures { result ≡ said_or shown_of shown.Nothing (option_map (λ t. t.now) text.entry) }
{
    match text {
        Some(text) => shown_of(text),
        None => Some(Shown::Nothing),
    }
}

// Whether a number of turns is given only where `--timed` is.
fn may_count(timed: bool, matches: &Matched<'_>) -> bool
    ensures { result ≡ may_count timed matches.now }
{
    timed || (matches.text("turns0").is_none() && matches.text("turns1").is_none())
}

// Whether an order is to be shown only where `--any-time` is given.
fn may_show(any_time: bool, matches: &Matched<'_>) -> bool
    ensures { result ≡ may_show any_time matches.now }
{
    any_time || matches.text("show").is_none()
}

// Whether the flags stand together, and with the numbers of turns and what is to be shown.
fn may_stand(timed: bool, any_time: bool, matches: &Matched<'_>) -> bool
    ensures { result ≡ may_stand timed any_time matches.now }
{
    may_count(timed, matches) && !(timed && any_time) && may_show(any_time, matches)
}

// The options that the texts of `--word`, `--states` and `--show` and those of a run say, or the first rule of usage that they
// break.
fn options_with(
    alloc: Global,
    timed: bool,
    any_time: bool,
    words: &[&str],
    matches: &Matched<'_>,
) -> Result<OutcomeOptions, Refusal>
    ensures means { Means result (outcomes_with timed any_time (all_said place_of (map (λ text. text.now) words.now)) (said_or states_of 1000000 (first_of (codes "states") matches.now)) (said_or shown_of shown.Nothing (first_of (codes "show") matches.now)) (judged_texts matches.now)) }
    ensures valid { IfOk result AreOutcomeOptions }
{
    let places = places_of(alloc, words)?;
    let states = states_or(matches.text("states"), DEFAULT_STATES);
    match (places, states, shown_or(matches.text("show"))) {
        (Some(words), Some(states), Some(shown)) => {
            let run = judged_texts(alloc, matches)?;
            Ok(OutcomeOptions {
                run,
                timed,
                any_time,
                shown,
                words,
                states,
            })
        }
        (_, _, _) => Err(Refusal::Usage(4)),
    }
}

// What `clap` matches on the words of `outcomes`.
fn outcomes_matches<'a>(alloc: Global, words: &'a [String]) -> Result<Matched<'a>, Refusal>
    ensures { Matches result (rows_by outcomes_app (map string_bytes words.now)) }
{
    matches_for(alloc, "outcomes", &ARGUMENTS, words)
}

/// The options that the words of `outcomes` say, the first of which stands for the command.
///
/// The words are read as a simple command of `clap` with the options `--turns0 N`, `--turns1 N`, `--entry1 N`,
/// `--vecbase N`, `--stack0 LO:HI` and `--stack1 LO:HI`, as for `run`, `--states N`, whose default is 1,000,000, and
/// `--word N`, which may stand four times, `--show K`, and the flags `--timed` and `--any-time`. `Usage` has the first rule
/// that the words break: 3 they do not match, a fifth word stands there, both flags do, `--turns0` or `--turns1` without
/// `--timed`, or `--show` without `--any-time`, 4 a text is no number or range, the one of `--states` none from 1 to
/// 16,000,000, that of `--show` neither a number from 1 on nor `stuck`, or that of a word no multiple of 4 in a region of
/// memory, 5 to 8 as for `run`. `Memory` says only that memory ran out.
pub fn outcomes_options(alloc: Global, words: &[String]) -> Result<OutcomeOptions, Refusal>
    ensures means { Means result (outcomes_of (map string_bytes words.now)) }
    ensures valid { IfOk result AreOutcomeOptions }
{
    let matches = outcomes_matches(alloc, words)?;
    let places = matches.texts("word").unwrap_or(&[]);
    let timed = matches.is_given("timed");
    let any_time = matches.is_given("any-time");
    if !may_stand(timed, any_time, &matches) || places.len() > MOST_WORDS {
        return Err(Refusal::Usage(3));
    }
    options_with(alloc, timed, any_time, places, &matches)
}
