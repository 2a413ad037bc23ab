//! What is printed of the first race.
ghost use Rattle.std.specs.Prelude.{◌≡◌, ◌++◌, IfOk, OnOk, codes};
ghost use Rattle.std.specs.Fmt.{decimal};
ghost use Rattle.xt_map.specs.Placing.{IsPlaced};
ghost use Rattle.xt_core.specs.Runs.{IsRunOf};
ghost use Rattle.xt_race.specs.Races.{events_of};
ghost use Rattle.xt_race.specs.RaceTexts.{IsRaceText, event_line};

use crate::event::Event;
use crate::race::{Pair, pair_of};
use std::alloc::{AllocError, Global};
use xt_image::Image;
use xt_map::Text;
use xt_trace::{Run, line};

// Appends the trace line of an entry's record.
fn push_event(alloc: Global, out: &mut Vec<u8>, event: &Event) -> Result<(), AllocError>
    ensures { OnOk result (out.new.items ≡ out.old.items ++ event_line event.now) }
{
    let text = line(alloc, event.entry.core, event.turn, &event.step)?;
    out.extend_from_slice(text.as_slice())
}

// What is printed of a race with these entries.
fn pair_text(alloc: Global, pair: &Pair) -> Result<Text, AllocError>
    ensures { IfOk result (λ text. text ≡ codes "race " ++ decimal pair.now.race.first ++ codes " " ++ decimal pair.now.race.second ++ codes "\n" ++ event_line pair.now.first ++ event_line pair.now.second) }
{
    let head = format!(in alloc; "race {} {}\n", pair.race.first, pair.race.second)?;
    let mut out = head.into_bytes();
    push_event(alloc, &mut out, &pair.first)?;
    push_event(alloc, &mut out, &pair.second)?;
    Ok(Text::new(out))
}

// What is printed where there is no race.
fn none_text(alloc: Global) -> Result<Text, AllocError>
    ensures { IfOk result (λ text. text ≡ codes "race none\n") }
{
    let text = format!(in alloc; "race none\n")?;
    Ok(Text::new(text.into_bytes()))
}

/// What is printed of the first race of a run of an image: `race none`; or `race I J`, the places of its entries, and then the trace lines
/// of the records of these entries. The only error is running out of memory.
///
/// Conditions: the run is the image's. The image's segments lie in one region each and share no byte, as those of every image that was
/// read.
pub fn race_text(alloc: Global, image: &Image, run: &Run) -> Result<Text, AllocError>
    requires run { IsRunOf image.now run.now }
    requires placed { IsPlaced image.now.segments }
    ensures { IfOk result (IsRaceText (events_of image.now run.now)) }
{
    let found = pair_of(alloc, image, run)?;
    match found {
        None => none_text(alloc),
        Some(pair) => pair_text(alloc, &pair),
    }
}
