//! The first race.
ghost use Rattle.std.specs.Prelude.{◌≡◌, ◌<◌, ◌≤◌, ℕ, Some, IfOk, length, slice_get};
ghost use Rattle.xt_map.specs.Placing.{IsPlaced};
ghost use Rattle.xt_core.specs.Runs.{IsRunOf};
ghost use Rattle.xt_race.specs.declared.event.Event.{Event};
ghost use Rattle.xt_race.specs.Found.{Knows};
ghost use Rattle.xt_race.specs.KeptEntries.{events_left};
ghost use Rattle.xt_race.specs.Races.{IsFirstRace, events_of};
ghost use Rattle.xt_race.specs.Firsts.{IsEarlier, IsLater, IsPair, fits_in};

use crate::event::Event;
use crate::events::Events;
use crate::finder::Finder;
use std::alloc::{AllocError, Global};
use xt_image::Image;
use xt_trace::Run;

/// A race: two entries of a history, by their places from 0.
#[derive(Clone, Copy)]
pub struct Race {
    /// The earlier entry.
    pub first: u32,
    /// The later entry.
    pub second: u32,
}

// The later entry of the first race.
#[derive(Clone, Copy)]
struct Later {
    place: u32,
    event: Event,
    // How many entries of the other core its core has acquired.
    seen: u32,
}

// The earlier entry of the first race.
#[derive(Clone, Copy)]
struct Earlier {
    place: u32,
    event: Event,
}

/// A race, with its two entries.
#[derive(Clone, Copy)]
pub struct Pair {
    pub race: Race,
    pub first: Event,
    pub second: Event,
}

// The later entry of the first race of these entries, if there is a race.
fn later_in(events: &mut Events, finder: &mut Finder) -> Result<Option<Later>, AllocError>
    requires few { length (events_left events.old) ≤ 8000000 }
    requires cores { (n : ℕ) (e : Event) → slice_get (events_left events.old) n ≡ Some e → e.entry.core < 2 }
    requires knows { Knows finder.old (events_left events.old) 0 }
    ensures { IfOk result (λ found. IsLater (events_left events.old) found) }
{
    while let Some(event) = events.next() {
        let place = finder.count;
        let taken = finder.take(&event)?;
        if taken.hit {
            return Ok(Some(Later {
                place,
                event,
                seen: taken.seen,
            }));
        }
    }
    Ok(None)
}

// The later entry of the first race, if there is a race.
fn later_of(alloc: Global, image: &Image, run: &Run) -> Result<Option<Later>, AllocError>
    requires run { IsRunOf image.now run.now }
    requires placed { IsPlaced image.now.segments }
    ensures { IfOk result (λ found. IsLater (events_of image.now run.now) found) }
{
    let mut events = Events::open(alloc, image, run)?;
    let mut finder = Finder::new(alloc)?;
    later_in(&mut events, &mut finder)
}

// Whether an entry at this place races with the later one.
fn fits(later: &Later, place: u32, event: &Event) -> bool
    ensures { result ≡ fits_in later.now place (Some event.now) }
{
    later.seen <= place && event.conflicts(&later.event)
}

// The first of these entries that races with the later one.
fn earlier_in(events: &mut Events, later: &Later) -> Option<Earlier>
    requires { length (events_left events.old) ≤ 8000000 }
    ensures { IsEarlier (events_left events.old) later.now result }
{
    let mut place = 0;
    while let Some(event) = events.next() {
        if fits(later, place, &event) {
            return Some(Earlier { place, event });
        }
        place += 1;
    }
    None
}

// The first entry that races with the later one.
fn earlier_of(
    alloc: Global,
    image: &Image,
    run: &Run,
    later: &Later,
) -> Result<Option<Earlier>, AllocError>
    requires run { IsRunOf image.now run.now }
    requires placed { IsPlaced image.now.segments }
    ensures { IfOk result (λ found. IsEarlier (events_of image.now run.now) later.now found) }
{
    let mut events = Events::open(alloc, image, run)?;
    Ok(earlier_in(&mut events, later))
}

/// The first race of a run of an image, with its entries.
pub fn pair_of(alloc: Global, image: &Image, run: &Run) -> Result<Option<Pair>, AllocError>
    requires run { IsRunOf image.now run.now }
    requires placed { IsPlaced image.now.segments }
    ensures { IfOk result (λ found. IsPair (events_of image.now run.now) found) }
{
    let found = later_of(alloc, image, run)?;
    match found {
        None => Ok(None),
        Some(later) => {
            let fitting = earlier_of(alloc, image, run, &later)?;
            match fitting {
                Some(earlier) => Ok(Some(Pair {
                    race: Race {
                        first: earlier.place,
                        second: later.place,
                    },
                    first: earlier.event,
                    second: later.event,
                })),
                None => unreachable!(),
            }
        }
    }
}

/// The first race of a run of an image: the one with the least later entry and, for that, the least earlier one; none exactly where the
/// run has no race. The only error is running out of memory.
///
/// Conditions: the run is the image's. The image's segments lie in one region each and share no byte, as those of every image that was
/// read.
///
/// The time that it takes is linear in the turns of the run: it makes them again once, and once more up to the race.
pub fn first_race(alloc: Global, image: &Image, run: &Run) -> Result<Option<Race>, AllocError>
    requires run { IsRunOf image.now run.now }
    requires placed { IsPlaced image.now.segments }
    ensures { IfOk result (λ found. IsFirstRace (events_of image.now run.now) found) }
{
    let found = pair_of(alloc, image, run)?;
    match found {
        None => Ok(None),
        Some(pair) => Ok(Some(pair.race)),
    }
}
