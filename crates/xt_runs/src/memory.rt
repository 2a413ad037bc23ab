//! What `run --memory` writes of memory as the run leaves it.
ghost use Rattle.std.specs.Prelude.{◌≡◌, ◌++◌, IfOk, OnOk};
ghost use Rattle.xt_runs.specs.Memory.{memory_text, shown_last, span_lines};
ghost use Rattle.xt_core.specs.Runs.{IsRunOf};
ghost use Rattle.xt_map.specs.Placing.{IsPlaced};
ghost use Rattle.xt_replay.specs.Shown.{shown_at};

use std::alloc::{AllocError, Global};
use xt_command_line::{RunOptions, Span};
use xt_image::Image;
use xt_map::Text;
use xt_replay::{Replay, State, end_of, push_words};
use xt_trace::Run;

// Appends a line for each place.
fn push_spans(
    alloc: Global,
    out: &mut Vec<u8>,
    state: &State,
    spans: &[Span],
) -> Result<(), AllocError>
    ensures { OnOk result (out.new.items ≡ out.old.items ++ span_lines state.now spans.now) }
{
    for span in spans {
        push_words(alloc, out, state, span.addr, span.count)?;
    }
    Ok(())
}

// The replay of a run at its end.
pub(crate) fn at_end<'a>(
    alloc: Global,
    image: &'a Image,
    run: &'a Run,
) -> Result<Replay<'a>, AllocError>
    requires run { IsRunOf image.now run.now }
    requires placed { IsPlaced image.now.segments }
    ensures { IfOk result (λ replay. shown_at replay.image replay.run replay.position ≡ shown_last image.now run.now) }
{
    let mut replay = Replay::make(alloc, image, run)?;
    let _ = replay.seek(end_of(&replay));
    Ok(replay)
}

/// A line `words ADDR ..` for each place that the words name, of what memory holds after the run's last turn. The only
/// error is running out of memory.
///
/// Conditions: the run is the image's. The image's segments lie in one region each and share no byte, as those of every
/// image that was read.
pub fn memory_text(
    alloc: Global,
    options: &RunOptions,
    image: &Image,
    run: &Run,
) -> Result<Text, AllocError>
    requires run { IsRunOf image.now run.now }
    requires placed { IsPlaced image.now.segments }
    ensures { IfOk result (λ text. text ≡ memory_text options.now image.now run.now) }
{
    let mut out = Vec::new(alloc);
    if let Some(spans) = &options.memory {
        let replay = at_end(alloc, image, run)?;
        push_spans(alloc, &mut out, &replay.state(), spans.as_slice())?;
    }
    Ok(Text::new(out))
}
