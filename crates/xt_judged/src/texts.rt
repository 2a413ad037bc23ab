//! The text of everything that can come out.
ghost use Rattle.std.specs.Prelude.{◌≡◌, ◌+◌, ◌≤◌, ◌^◌, ◌++◌, IfOk, OnOk, string_bytes, flat_map, option_map};
ghost use Rattle.std.specs.List.{All};
ghost use Rattle.xt_map.specs.Memory.{constant_byte};
ghost use Rattle.xt_trace.specs.Validity.{IsValid};
ghost use Rattle.xt_image.specs.ImageParts.{IsWellFormed};
ghost use Rattle.xt_judged.specs.OutcomesText.{IsAnswersText, all_text, answers_text, count_line, end_line, is_all, none_text, outcome_text, race_line, stuck_line, stuck_text};

use crate::frame_lines::push_frames;
use crate::frames::{JudgedOrders, judge_orders};
use crate::lines::append;
use crate::order_rows::order_text;
use crate::outcome_lines::push_outcome;
use crate::race_lines::push_turns;
use std::alloc::{AllocError, Global};
use xt_image::{Image, well_formed_is_placed};
use xt_map::{Constants, Text};
use xt_outcomes::{Answers, Ending, Found, NextRace, answers_of};
use xt_trace::Options;
use xt_word::hexadecimal;

// That there is none, as far as it is known.
fn none_text(whole: bool) -> &'static str
    ensures { result.now ≡ none_text whole }
{
    if whole { "none" } else { "unknown" }
}

// An order, or that there is none.
fn stuck_text(alloc: Global, whole: bool, order: Option<&[u8]>) -> Result<String, AllocError>
    ensures { IfOk result (λ text. string_bytes text ≡ stuck_text whole (option_map (λ v. v.now) order.entry)) }
{
    match order {
        Some(order) => order_text(alloc, order),
        None => {
            let none = none_text(whole);
            format!(in alloc; "{none}")
        }
    }
}

// The line of an order after which the cores never both end.
fn stuck_line(alloc: Global, whole: bool, stuck: &Option<Vec<u8>>) -> Result<String, AllocError>
    ensures { IfOk result (λ line. string_bytes line ≡ stuck_line whole (option_map (λ v. v.items) stuck.now)) }
{
    let text = match stuck {
        Some(order) => stuck_text(alloc, whole, Some(order.as_slice()))?,
        None => stuck_text(alloc, whole, None)?,
    };
    format!(in alloc; "stuck {text}\n")
}

// The line of a race.
fn race_line(alloc: Global, whole: bool, race: &Option<NextRace>) -> Result<String, AllocError>
    ensures { IfOk result (λ line. string_bytes line ≡ race_line whole race.now) }
{
    let text = match race {
        Some(race) => stuck_text(alloc, whole, Some(race.order.as_slice()))?,
        None => stuck_text(alloc, whole, None)?,
    };
    format!(in alloc; "race {text}\n")
}

// The line of so many outcomes.
fn count_line(alloc: Global, count: usize) -> Result<String, AllocError>
    ensures { IfOk result (λ line. string_bytes line ≡ count_line count) }
{
    format!(in alloc; "outcomes {count}\n")
}

// Whether every order was looked at.
fn is_all(ended: Ending) -> bool
    ensures { result ≡ is_all ended }
{
    match ended {
        Ending::All => true,
        Ending::States | Ending::Time(_, _) => false,
    }
}

// That every order was looked at, and whether it is known what is judged of their runs.
fn all_text(frames: &JudgedOrders) -> &'static str
    ensures { result.now ≡ all_text frames.now }
{
    match frames {
        JudgedOrders::Unknown => "some frames",
        JudgedOrders::Unchecked | JudgedOrders::Whole | JudgedOrders::Broken(_) => "all",
    }
}

// How the search ended.
fn end_line(alloc: Global, frames: &JudgedOrders, ended: Ending) -> Result<String, AllocError>
    ensures { IfOk result (λ line. string_bytes line ≡ end_line frames.now ended) }
{
    match ended {
        Ending::All => {
            let all = all_text(frames);
            format!(in alloc; "{all}\n")
        }
        Ending::States => format!(in alloc; "some states\n"),
        Ending::Time(core, pc) => {
            let pc = hexadecimal(alloc, pc)?;
            format!(in alloc; "some time core {core} pc {pc}\n")
        }
    }
}

// Appends the lines of the outcomes.
fn push_outcomes(
    alloc: Global,
    out: &mut Vec<u8>,
    addresses: &[u32],
    list: &[Found],
) -> Result<(), AllocError>
    ensures { OnOk result (out.new.items ≡ out.old.items ++ flat_map (outcome_text addresses.now) list.now) }
{
    for found in list {
        push_outcome(alloc, out, addresses, found)?;
    }
    Ok(())
}

/// The lines of all that was found, and what is judged of the frames:
///
/// ```text
/// outcome uart N
/// the N bytes that were sent, as they are
/// core 0 stop S pc ADDR
/// core 1 stop S pc ADDR
/// word ADDR VALUE
/// order LIST
/// outcomes N
/// stuck LIST
/// race LIST
/// the lines of the next turns of both cores after it, as `trace` prints them
/// frames F
/// breach KIND core C pc ADDR order LIST
/// all
/// ```
///
/// The first six for each outcome, with a line `word` for each address; S is `break` or `turns`, ADDR
/// and VALUE have eight upper-case hexadecimal digits. LIST is an order, as `run --order` reads it; of
/// `stuck` and `race` it is `none` where no order is so, and `unknown` where this is not known. F is
/// `unknown`, `none`, `whole` or `broken`, and a line for each breach that was met stands after
/// `broken`. The last line is `all` if all orders were looked at, or `some frames` if F is `unknown` then;
/// `some states` if as many worlds are kept as may be, and `some time core C pc ADDR` if a turn uses time.
/// The only error is running out of memory.
pub fn answers_text(
    alloc: Global,
    code: &Constants,
    addresses: &[u32],
    answers: &Answers,
    frames: &JudgedOrders,
) -> Result<Text, AllocError>
    ensures { IfOk result (λ text. text ≡ answers_text (constant_byte code.now) addresses.now answers.now frames.now) }
{
    let mut out = Vec::new(alloc);
    push_outcomes(alloc, &mut out, addresses, answers.found.as_slice())?;
    let count = count_line(alloc, answers.found.len())?;
    append(&mut out, count)?;
    let whole = is_all(answers.ended);
    let stuck = stuck_line(alloc, whole, &answers.stuck)?;
    append(&mut out, stuck)?;
    let race = race_line(alloc, whole, &answers.race)?;
    append(&mut out, race)?;
    push_turns(alloc, &mut out, code, &answers.race)?;
    push_frames(alloc, &mut out, frames)?;
    let end = end_line(alloc, frames, answers.ended)?;
    append(&mut out, end)?;
    Ok(Text::new(out))
}

/// The lines of everything that can come out of an image's runs, in any order of their turns, timed or
/// not, where each search keeps at most so many worlds. Outcomes have the words at these addresses. The only error is running
/// out of memory.
///
/// Conditions: the image is well formed, the options are valid, and each address lies at least 4 below
/// 2^32.
pub fn outcomes_text(
    alloc: Global,
    image: &Image,
    options: &Options,
    timed: bool,
    addresses: &[u32],
    most: u32,
) -> Result<Text, AllocError>
    requires image { IsWellFormed image.now }
    requires valid { IsValid options.now }
    requires words { All (λ a. a + 4 ≤ 2 ^ 32) addresses.now }
    ensures { IfOk result (IsAnswersText image.now options.now timed addresses.now most) }
{
    well_formed_is_placed();
    let answers = answers_of(alloc, image, options, timed, addresses, most)?;
    let frames = judge_orders(alloc, image, options, timed, &answers.dead, most)?;
    let code = Constants::make(alloc, image.segments.as_slice())?;
    answers_text(alloc, &code, addresses, &answers, &frames)
}
