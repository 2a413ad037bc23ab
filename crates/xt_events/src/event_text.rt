//! The kinds of turns as text.
ghost use Rattle.std.specs.Prelude.{◌≡◌, ◌++◌, ◌<◌, IfOk, OnOk, length, string_bytes};
ghost use Rattle.std.specs.List.{flat_map};
ghost use Rattle.xt_map.specs.Placing.{IsPlaced};
ghost use Rattle.xt_trace.specs.Lines.{kind_text};
ghost use Rattle.xt_core.specs.Runs.{IsRunOf, records_of};
ghost use Rattle.xt_events.specs.Events.{core_text, event_line, events_text};

use crate::counting::events_of;
use crate::event::Event;
use std::alloc::{AllocError, Global};
use std::fmt::Write;
use xt_core::Cursor;
use xt_image::Image;
use xt_map::Text;
use xt_trace::{Run, StepKind};
use xt_word::push_hex8;

// Appends what a turn was.
fn push_kind(out: &mut String, kind: StepKind) -> Result<(), AllocError>
    ensures { OnOk result (string_bytes out.new ≡ string_bytes out.old ++ kind_text kind) }
{
    match kind {
        StepKind::Insn => out.push_str("insn"),
        StepKind::Window(vector) => write!(out, "window {vector}"),
        StepKind::Exc(cause) => write!(out, "exc {cause}"),
        StepKind::Interrupt(level) => write!(out, "int {level}"),
        StepKind::Wait => out.push_str("wait"),
        StepKind::Stop => out.push_str("stop"),
    }
}

// Appends the line of a kind of turns.
#[tactic(auto, unfolding(crate::specs::Events::event_line))]
fn push_event(out: &mut String, core: u8, event: &Event) -> Result<(), AllocError>
    ensures { OnOk result (string_bytes out.new ≡ string_bytes out.old ++ event_line core event.now) }
{
    write!(out, "core {core} ")?;
    push_kind(out, event.kind)?;
    write!(out, " times {} first {} pc ", event.times, event.first)?;
    push_hex8(out, event.pc)?;
    out.push_str("\n")
}

fn push_events(out: &mut String, core: u8, events: &[Event]) -> Result<(), AllocError>
    ensures { OnOk result (string_bytes out.new ≡ string_bytes out.old ++ flat_map (event_line core) events.now) }
{
    for event in events {
        push_event(out, core, event)?;
    }
    Ok(())
}

// Appends the lines of a core, which makes so many turns.
fn push_core(
    alloc: Global,
    out: &mut String,
    image: &Image,
    run: &Run,
    core: u8,
    count: u32,
) -> Result<(), AllocError>
    requires core { core < 2 }
    requires count { length (records_of core image.now run.now).records ≡ count }
    requires run { IsRunOf image.now run.now }
    requires placed { IsPlaced image.now.segments }
    ensures { OnOk result (string_bytes out.new ≡ string_bytes out.old ++ core_text core image.now run.now) }
{
    let mut records = Cursor::make(alloc, image, run, core)?;
    let events = events_of(alloc, count, &mut records)?;
    push_events(out, core, events.as_slice())
}

/// What happened to each core in a run: for core 0 and then core 1, for each kind of turn that occurs, in
/// the order of the first turn of each kind, a line
///
/// ```text
/// core C KIND times N first K pc ADDR
/// ```
///
/// KIND is as in a printed trace, N says how many turns of this kind there are, K is the number of the
/// first and ADDR its program counter. The only error is running out of memory.
///
/// Conditions: the run is the image's. The image's segments lie in one region each and share no byte, as
/// those of every image that was read.
#[tactic(auto, unfolding(crate::specs::Events::events_text))]
pub fn events_text(alloc: Global, image: &Image, run: &Run) -> Result<Text, AllocError>
    requires run { IsRunOf image.now run.now }
    requires placed { IsPlaced image.now.segments }
    ensures { IfOk result (λ text. text ≡ events_text image.now run.now) }
{
    let mut out = String::new(alloc);
    push_core(alloc, &mut out, image, run, 0, run.trace0.count)?;
    push_core(alloc, &mut out, image, run, 1, run.trace1.count)?;
    Ok(Text::new(out.into_bytes()))
}
