//! Counting turns by their kinds.
ghost use Rattle.std.specs.Prelude.{◌≡◌, IfOk, OnOk, length};
ghost use Rattle.xt_events.specs.Events.{events_in};
ghost use Rattle.xt_events.specs.Noted.{HasRoom, events_after_record};

use crate::event::{Event, Events, same_kind};
use std::alloc::{AllocError, Global};
use xt_trace::{Records, StepRecord};

// Counts a turn: one more of its kind, or the first one.
fn note(events: &mut Vec<Event>, step: u32, r: &StepRecord) -> Result<(), AllocError>
    requires { HasRoom 4294967295 events.old.items }
    ensures { OnOk result (events.new.items ≡ events_after_record step r.now events.old.items) }
{
    for place in 0..events.len() {
        if same_kind(r.kind, events[place].kind) {
            events[place].times += 1;
            return Ok(());
        }
    }
    events.push(Event {
        kind: r.kind,
        times: 1,
        first: step,
        pc: r.pc,
    })?;
    Ok(())
}

/// The kinds of a core's turns, whose records these are: for each kind how many turns there are, the
/// number of the first and its program counter, in the order of these numbers. The records are taken
/// one by one, and none is kept. The only error is running out of memory.
///
/// Condition: there are so many records.
pub fn events_of<R: Records>(
    alloc: Global,
    count: u32,
    records: &mut R,
) -> Result<Events, AllocError>
    requires { length (R.left records.old) ≡ count }
    ensures { IfOk result (λ events. events ≡ events_in (R.left records.old)) }
{
    let mut events = Vec::new(alloc);
    for step in 0..count {
        match records.next() {
            Some(r) => note(&mut events, step, &r)?,
            None => return Ok(Events::new(events)),
        }
    }
    Ok(Events::new(events))
}
