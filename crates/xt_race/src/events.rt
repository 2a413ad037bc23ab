//! The entries of a run's history, one by one, with the turns that made them.
ghost use Rattle.std.specs.Prelude.{◌≡◌, ◌<◌, [], ◌∷◌, IfOk, MatchOption};
ghost use Rattle.xt_map.specs.Memory.{constant_byte};
ghost use Rattle.xt_map.specs.Placing.{IsPlaced};
ghost use Rattle.xt_core.specs.Runs.{IsRunOf, records_of};
ghost use Rattle.xt_race.specs.KeptEntries.{events_left, turns_left};
ghost use Rattle.xt_race.specs.Races.{event, events_of, turns_from};

use crate::event::{Event, order_at};
use crate::turns::Turns;
use std::alloc::{AllocError, Global};
use xt_core::Cursor;
use xt_image::Image;
use xt_map::{Constants, Entry};
use xt_trace::{Run, StepRecord};

/// What is left of the entries of a history, and of the turns of both cores that made them.
pub struct Events<'a> {
    code: Constants<'a>,
    entries: &'a [Entry],
    zero: Turns<'a>,
    one: Turns<'a>,
}

// A `drop` of its own is one call at each place where a value is dropped.
impl Drop for Events<'_> {
    fn drop(self) {
        let Events {
            code: _,
            entries: _,
            zero: _,
            one: _,
        } = self;
    }
}

// The turns of a core of a run.
fn turns_of<'a>(
    alloc: Global,
    image: &'a Image,
    run: &'a Run,
    core: u8,
) -> Result<Turns<'a>, AllocError>
    requires core { core < 2 }
    requires run { IsRunOf image.now run.now }
    requires placed { IsPlaced image.now.segments }
    ensures { IfOk result (λ t. turns_left t ≡ turns_from 0 (records_of core image.now run.now).records) }
{
    let cursor = Cursor::make(alloc, image, run, core)?;
    Ok(Turns { cursor, count: 0 })
}

// An entry with the turn that made it.
fn made(code: &Constants, entry: Entry, turn: (u32, StepRecord)) -> Event
    ensures { result ≡ event (constant_byte code.now) entry turn }
{
    let (turn, step) = turn;
    let order = order_at(code, step.pc);
    Event {
        entry,
        turn,
        step,
        order,
    }
}

impl<'a> Events<'a> {
    /// Before the first entry of a run of an image. The only error is running out of memory; all of it is taken here.
    pub fn open(alloc: Global, image: &'a Image, run: &'a Run) -> Result<Events<'a>, AllocError>
        requires run { IsRunOf image.now run.now }
        requires placed { IsPlaced image.now.segments }
        ensures { IfOk result (λ e. events_left e ≡ events_of image.now run.now) }
    {
        Ok(Events {
            code: Constants::make(alloc, image.segments.as_slice())?,
            entries: run.history.as_slice(),
            zero: turns_of(alloc, image, run, 0)?,
            one: turns_of(alloc, image, run, 1)?,
        })
    }

    /// The next entry, if there is one, with the turn that made it.
    pub fn next(&mut self) -> Option<Event>
        ensures { MatchOption result (events_left self.old ≡ []) (λ e. events_left self.old ≡ e ∷ events_left self.new) }
    {
        let (entry, rest) = self.entries.split_first()?;
        self.entries = rest;
        if entry.core == 0 {
            let turn = self.zero.next()?;
            Some(made(&self.code, *entry, turn))
        } else {
            let turn = self.one.next()?;
            Some(made(&self.code, *entry, turn))
        }
    }
}
