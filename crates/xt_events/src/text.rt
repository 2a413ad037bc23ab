//! What `counts` prints.
ghost use Rattle.std.specs.Prelude.{◌≡◌, ◌++◌, ◌<◌, ℕ, IfOk, OnOk, string_bytes};
ghost use Rattle.std.specs.Ordering.{nat_cmp};
ghost use Rattle.std.specs.BTreeMap.{IsOrdered, get};
ghost use Rattle.xt_map.specs.Placing.{IsPlaced};
ghost use Rattle.xt_core.specs.Runs.{IsRunOf, code_of};
ghost use Rattle.xt_events.specs.CountsText.{IsCountsText, line_text, lines_text, taken_text, turns_of};
ghost use Rattle.xt_events.specs.CountedTurns.{AreAppended};

use crate::execution_counting::counts_of;
use crate::tally::Tally;
use std::alloc::{AllocError, Global};
use std::collections::BTreeMap;
use std::fmt::Write;
use xt_core::Cursor;
use xt_image::Image;
use xt_map::{Constants, Text};
use xt_trace::Run;
use xt_word::push_hex8;

// Appends how often a branch was taken.
fn push_taken(out: &mut String, tally: &Tally) -> Result<(), AllocError>
    ensures { OnOk result (string_bytes out.new ≡ string_bytes out.old ++ taken_text tally.now.target tally.now.taken) }
{
    let taken = tally.taken;
    match tally.target {
        None => out.push_str("-"),
        Some(_) => write!(out, "{taken}"),
    }
}

// Appends the line of an address.
#[tactic(auto, unfolding(crate::specs::CountsText::line_text))]
fn push_line(out: &mut String, core: u8, address: u32, tally: &Tally) -> Result<(), AllocError>
    ensures { OnOk result (string_bytes out.new ≡ string_bytes out.old ++ line_text core (address, tally.now)) }
{
    write!(out, "core {core} ")?;
    push_hex8(out, address)?;
    write!(out, " {} {} ", tally.executed, tally.raised)?;
    push_taken(out, tally)?;
    out.push_str("\n")
}

// Appends the line of each address.
fn push_lines(out: &mut String, core: u8, counts: BTreeMap<u32, Tally>) -> Result<(), AllocError>
    ensures text { OnOk result (string_bytes out.new ≡ string_bytes out.old ++ lines_text core counts.entries) }
    ensures ordered { IsOrdered nat_cmp counts }
{
    for (address, tally) in counts {
        push_line(out, core, address, &tally)?;
    }
    Ok(())
}

// Appends the lines of a core, which stands at `last` after its last turn.
fn push_core(
    alloc: Global,
    out: &mut String,
    image: &Image,
    run: &Run,
    core: u8,
    last: u32,
) -> Result<(), AllocError>
    requires core { core < 2 }
    requires run { IsRunOf image.now run.now }
    requires placed { IsPlaced image.now.segments }
    ensures { OnOk result (AreAppended core (code_of image.now) (turns_of core image.now run.now last) (string_bytes out.old) (string_bytes out.new)) }
{
    let code = Constants::make(alloc, image.segments.as_slice())?;
    let mut records = Cursor::make(alloc, image, run, core)?;
    let counts = counts_of(alloc, &code, last, &mut records)?;
    push_lines(out, core, counts)
}

/// What each core of a run did at each address: for core 0 and then core 1, for each address at
/// which a turn executed or tried an instruction, in rising order, a line
///
/// ```text
/// core C ADDR EXECUTED RAISED TAKEN
/// ```
///
/// EXECUTED says how many turns executed the instruction at ADDR. RAISED says how many tried it
/// and had an exception or a window exception in its place. TAKEN says how many of EXECUTED went
/// on at its target, where it is a conditional branch, LOOPNEZ or LOOPGTZ, and is `-` for other
/// instructions. The only error is running out of memory.
///
/// Conditions: the run is the image's. The image's segments lie in one region each and share no
/// byte, as those of every image that was read.
pub fn counts_text(alloc: Global, image: &Image, run: &Run) -> Result<Text, AllocError>
    requires run { IsRunOf image.now run.now }
    requires placed { IsPlaced image.now.segments }
    ensures { IfOk result (IsCountsText image.now run.now) }
{
    let mut out = String::new(alloc);
    push_core(alloc, &mut out, image, run, 0, run.trace0.pc)?;
    push_core(alloc, &mut out, image, run, 1, run.trace1.pc)?;
    Ok(Text::new(out.into_bytes()))
}
