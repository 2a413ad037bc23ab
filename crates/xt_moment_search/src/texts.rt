//! The text of what can come out where timers fire at any moment.
ghost use Rattle.std.specs.Prelude.{◌≡◌, ◌+◌, ◌≤◌, ◌^◌, ◌++◌, IfOk, OnOk, string_bytes, flat_map};
ghost use Rattle.std.specs.List.{All};
ghost use Rattle.xt_trace.specs.Validity.{IsValid};
ghost use Rattle.xt_image.specs.ImageParts.{IsWellFormed};
ghost use Rattle.xt_moment_search.specs.MomentLines.{ending_line, found_line, found_text, moments_text, stuck_lines};
ghost use Rattle.xt_moment_search.specs.Told.{IsMomentsTold};

use crate::answers::{Answers, Ending, answers_of};
use crate::found::Found;
use crate::lines::push_found;
use crate::order_rows::order_text;
use crate::showing::{push_order, shown_order};
use crate::stuck::Stuck;
use std::alloc::{AllocError, Global};
use xt_command_line::Shown;
use xt_image::{Image, well_formed_is_placed};
use xt_map::Text;
use xt_trace::Options;
use xt_word::hexadecimal;

// The line of so many outcomes.
fn found_line(alloc: Global, count: usize) -> Result<String, AllocError>
    ensures { IfOk result (λ line. string_bytes line ≡ found_line count) }
{
    format!(in alloc; "outcomes {count}\n")
}

// The line of orders that no order continues to an end, and those of what is not looked at.
fn stuck_lines(alloc: Global, stuck: &Stuck) -> Result<String, AllocError>
    ensures { IfOk result (λ line. string_bytes line ≡ stuck_lines stuck.now) }
{
    match stuck {
        Stuck::Never => format!(in alloc; "stuck none\nrace unknown\nframes unknown\n"),
        Stuck::Order(order) => {
            let order = order_text(alloc, order.as_slice())?;
            format!(in alloc; "stuck {order}\nrace unknown\nframes unknown\n")
        }
        Stuck::Unknown => format!(in alloc; "stuck unknown\nrace unknown\nframes unknown\n"),
    }
}

// How the search ended.
fn ending_line(alloc: Global, ended: Ending) -> Result<String, AllocError>
    ensures { IfOk result (λ line. string_bytes line ≡ ending_line ended) }
{
    match ended {
        Ending::All => format!(in alloc; "all\n"),
        Ending::States => format!(in alloc; "some states\n"),
        Ending::Time(core, pc) => {
            let pc = hexadecimal(alloc, pc)?;
            format!(in alloc; "some time core {core} pc {pc}\n")
        }
    }
}

// Appends the lines of the outcomes.
fn push_outcomes(
    alloc: Global,
    out: &mut Vec<u8>,
    addresses: &[u32],
    list: &[Found],
) -> Result<(), AllocError>
    ensures { OnOk result (out.new.items ≡ out.old.items ++ flat_map (found_text addresses.now) list.now) }
{
    for found in list {
        push_found(alloc, out, addresses, found)?;
    }
    Ok(())
}

// The lines of what was found. The only error is running out of memory.
fn answers_text(alloc: Global, addresses: &[u32], answers: &Answers) -> Result<Vec<u8>, AllocError>
    ensures { IfOk result (λ text. text.items ≡ moments_text addresses.now answers.now) }
{
    let mut out = Vec::new(alloc);
    push_outcomes(alloc, &mut out, addresses, answers.found.as_slice())?;
    let count = found_line(alloc, answers.found.len())?;
    let stuck = stuck_lines(alloc, &answers.stuck)?;
    let end = ending_line(alloc, answers.ended)?;
    out.extend_from_slice(count.as_bytes())?;
    out.extend_from_slice(stuck.as_bytes())?;
    out.extend_from_slice(end.as_bytes())?;
    Ok(out)
}

/// The lines of what can come out of an image's runs if each armed timer may fire before any turn of its core:
///
/// ```text
/// outcome uart N
/// the N bytes that were sent, as they are
/// core 0 stop break pc ADDR
/// core 1 stop break pc ADDR
/// word ADDR VALUE
/// order LIST
/// outcomes N
/// stuck none
/// race unknown
/// frames unknown
/// all
/// ```
///
/// The first six for each outcome, with a line `word` for each address. ADDR and VALUE have eight upper-case hexadecimal
/// digits. LIST is an order with moments: `C*N` for N turns of core C, and `C!K` where timer K of core C fires. The last line
/// is `all` if the text has the outcome of every order with moments, `some states` if the search keeps as many worlds as may
/// be, and `some time core C pc ADDR` if a turn uses what CCOUNT decides. The lines of the turns of the order that is shown
/// follow, as `trace` prints them. The only error is running out of memory.
///
/// Conditions: the image is well formed, the options are valid, and each address lies at least 4 below 2^32.
pub fn moments_text(
    alloc: Global,
    image: &Image,
    options: &Options,
    addresses: &[u32],
    most: u32,
    shown: Shown,
) -> Result<Text, AllocError>
    requires image { IsWellFormed image.now }
    requires valid { IsValid options.now }
    requires words { All (λ a. a + 4 ≤ 2 ^ 32) addresses.now }
    ensures { IfOk result (IsMomentsTold image.now options.now addresses.now shown) }
{
    well_formed_is_placed();
    let answers = answers_of(alloc, image, options, addresses, most)?;
    let mut out = answers_text(alloc, addresses, &answers)?;
    push_order(
        alloc,
        &mut out,
        image,
        options,
        shown_order(&answers, shown),
    )?;
    Ok(Text::new(out))
}
