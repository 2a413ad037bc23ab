//! The words of `dis`.
ghost use Rattle.std.specs.Prelude.{◌≡◌, IfOk, map, string_bytes, option_map};
ghost use Rattle.xt_command_line.specs.MeaningAnswers.{Means};
ghost use Rattle.xt_command_line.specs.Listings.{AreOpenings, IsListing, IsWay, dis_app, judged_openings, listing_of, openings_with, way_in};
ghost use Rattle.xt_command_line.specs.Simple.{Matches, rows_by};

use crate::command::{Listing, Openings, Refusal, Way};
use crate::option_commands::matches_for;
use crate::option_words::{DEFAULT_VECBASE, given_number, number_or};
use crate::options::is_good_entry;
use crate::roots::{Addresses, roots_or_none};
use crate::simple::{Form, Matched};
use std::alloc::Global;

// The arguments of `dis`.
const ARGUMENTS: [(Form, &str); 5] = [
    (Form::Text, "vecbase"),
    (Form::Text, "entry1"),
    (Form::Text, "roots"),
    (Form::Flag, "flow"),
    (Form::Flag, "data"),
];

// The openings that the texts say with these roots, or none where a text is no number or no list.
fn openings_from(
    vecbase: Option<&str>,
    entry1: Option<&str>,
    roots: Option<Addresses>,
) -> Option<Openings>
    ensures { result ≡ openings_with (option_map (λ t. t.now) vecbase.entry) (option_map (λ t. t.now) entry1.entry) roots }
{
    let vecbase = number_or(vecbase, DEFAULT_VECBASE)?;
    let entry1 = given_number(entry1)?;
    Some(Openings {
        vecbase,
        entry1,
        roots: roots?,
    })
}

// Openings, or the first rule of usage that they break.
fn judge_openings(openings: Option<Openings>) -> Result<Openings, Refusal>
    ensures means { result ≡ judged_openings openings }
    ensures valid { IfOk result AreOpenings }
{
    let Some(openings) = openings else {
        return Err(Refusal::Usage(4));
    };
    if !is_good_entry(openings.entry1) {
        return Err(Refusal::Usage(6));
    }
    if openings.vecbase % 1024 != 0 {
        return Err(Refusal::Usage(7));
    }
    Ok(openings)
}

// Which bytes are instructions, by whether `--flow` was given and the texts of the options that stand with it alone.
fn way_from(
    alloc: Global,
    flow: bool,
    vecbase: Option<&str>,
    entry1: Option<&str>,
    roots: Option<&str>,
) -> Result<Way, Refusal>
    ensures means { Means result (way_in flow (option_map (λ t. t.now) vecbase.entry) (option_map (λ t. t.now) entry1.entry) (option_map (λ t. t.now) roots.entry)) }
    ensures valid { IfOk result IsWay }
{
    if flow {
        let roots = roots_or_none(alloc, roots)?;
        let openings = judge_openings(openings_from(vecbase, entry1, roots))?;
        return Ok(Way::Flow(openings));
    }
    match (vecbase, entry1, roots) {
        (None, None, None) => Ok(Way::Sweep),
        _ => Err(Refusal::Usage(3)),
    }
}

// What `clap` matches on the words of `dis`.
fn dis_matches<'a>(alloc: Global, words: &'a [String]) -> Result<Matched<'a>, Refusal>
    ensures { Matches result (rows_by dis_app (map string_bytes words.now)) }
{
    matches_for(alloc, "dis", &ARGUMENTS, words)
}

/// The listing that the words of `dis` say, the first of which stands for the command.
///
/// The words are read as a simple command of `clap` with the flags `--flow` and `--data` and the options `--vecbase N`,
/// whose default is 0x40080000, `--entry1 N` and `--roots N,N,..`. N is as for `run`. `Usage` has the first rule that the
/// words break: 3 they do not match, or an option stands without `--flow`, 4 a text is no number or no list of numbers, 6
/// `entry1` is in no executable region, 7 `vecbase` is no multiple of 1024. `Memory` says only that memory ran out.
pub fn listing(alloc: Global, words: &[String]) -> Result<Listing, Refusal>
    ensures means { Means result (listing_of (map string_bytes words.now)) }
    ensures valid { IfOk result IsListing }
{
    let matches = dis_matches(alloc, words)?;
    let way = way_from(
        alloc,
        matches.is_given("flow"),
        matches.text("vecbase"),
        matches.text("entry1"),
        matches.text("roots"),
    )?;
    let as_text = matches.is_given("data");
    Ok(Listing { way, as_text })
}
