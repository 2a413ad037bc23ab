//! The schedule of a run, and the order of its turns.
ghost use Rattle.std.specs.Prelude.{◌≡◌, ◌+◌, ◌<◌, ◌≤◌, All, IfOk, length};
ghost use Rattle.std.specs.Iterator.{YieldsFirst, item_count};
ghost use Rattle.xt_discipline.specs.Ordered.{HasAccess, IsOrder, IsPiece, IsUpto, turns_left};
ghost use Rattle.xt_discipline.specs.Schedules.{HasSchedule, schedule_in};

use std::alloc::{AllocError, Global};
use std::marker::Model;
use xt_map::Entry;
use xt_trace::{Run, Trace};

/// A list of cores, each 0 or 1, one for each turn. Contracts see the list.
#[derive(Drop)]
pub struct Schedule {
    items: Vec<u8>,
}

impl Model for Schedule {
    ghost use Rattle.std.specs.Prelude.{ℕ, List};

    ghost Value = { List ℕ };

    ghost view = { λ s. s.items.items };
}

impl Schedule {
    /// These numbers, without a copy.
    pub fn new(items: Vec<u8>) -> Schedule
        ensures { result ≡ items.items }
    {
        Schedule { items }
    }

    /// The numbers.
    pub fn as_slice(&self) -> &[u8]
        ensures { result.now ≡ self.now }
    {
        &self.items
    }

    /// How many numbers there are.
    pub fn len(&self) -> usize
        ensures { result ≡ length self.now }
    {
        self.items.len()
    }
}

/// What is left of a core's turns.
#[derive(Drop)]
struct Stretch<'a> {
    // The numbers of those with an access.
    places: &'a [u32],
    // How many turns are past, of how many.
    past: u32,
    count: u32,
}

impl<'a> Stretch<'a> {
    fn of(trace: &'a Trace) -> Stretch<'a>
        ensures places { result.places.now ≡ trace.now.places }
        ensures past { result.past ≡ 0 }
        ensures count { result.count ≡ trace.now.count }
    {
        Stretch {
            places: trace.places.as_slice(),
            past: 0,
            count: trace.count,
        }
    }

    // Passes the turns up to and with the next access: how many.
    fn upto_access(&mut self) -> u32
        requires { HasAccess self.old }
        ensures { IsUpto self.old self.new result }
    {
        let upto = self.places[0] + 1;
        let times = upto - self.past;
        self.places = &self.places[1..];
        self.past = upto;
        times
    }

    // Passes all the turns: how many.
    fn rest(&mut self) -> u32
        requires { self.old.past ≤ self.old.count }
        ensures times { result + self.old.past ≡ self.old.count }
        ensures rest { self.new ≡ record self.old { past = self.old.count } }
    {
        let times = self.count - self.past;
        self.past = self.count;
        times
    }
}

/// What is left of the turns of a run in the order of its schedule, which is never written down: an
/// iterator over their cores.
#[derive(Drop)]
pub struct ScheduleIter<'a> {
    // The entries of the history that come.
    entries: &'a [Entry],
    zero: Stretch<'a>,
    one: Stretch<'a>,
    // So many turns of this core come first.
    core: u8,
    times: u32,
}

impl<'a> ScheduleIter<'a> {
    /// All the turns of a run.
    pub fn of(run: &'a Run) -> ScheduleIter<'a>
        requires { HasSchedule run.now }
        ensures order { IsOrder result }
        ensures left { turns_left result ≡ schedule_in run.now }
    {
        ScheduleIter {
            entries: run.history.as_slice(),
            zero: Stretch::of(&run.trace0),
            one: Stretch::of(&run.trace1),
            core: 0,
            times: 0,
        }
    }

    // Passes the turns of one core that come next in a row: the core, and how many. There are none
    // after the last turn.
    fn piece(&mut self) -> (u8, u32)
        requires { IsOrder self.old }
        ensures { IsPiece self.old self.new result.0 result.1 }
    {
        if let Some((entry, rest)) = self.entries.split_first() {
            self.entries = rest;
            if entry.core == 0 {
                (0, self.zero.upto_access())
            } else {
                (1, self.one.upto_access())
            }
        } else if self.zero.past < self.zero.count {
            (0, self.zero.rest())
        } else {
            (1, self.one.rest())
        }
    }
}

impl Iterator for ScheduleIter<'_> {
    type Item = u8;

    ghost can_next = { IsOrder };

    ghost next_gives = { YieldsFirst turns_left };

    ghost remaining = { item_count turns_left };

    fn next(&mut self) -> Option<u8> {
        if self.times == 0 {
            let (core, times) = self.piece();
            self.core = core;
            self.times = times;
            if times == 0 {
                return None;
            }
        }
        self.times -= 1;
        Some(self.core)
    }
}

// The numbers of the schedule of a run.
fn written(alloc: Global, run: &Run) -> Result<Vec<u8>, AllocError>
    requires { HasSchedule run.now }
    ensures { IfOk result (λ list. list.items ≡ schedule_in run.now) }
{
    ScheduleIter::of(run).collect(alloc)
}

/// The schedule of a run: for each entry of the history in order, the turns of its core after its
/// previous access, up to and with this one; then the rest of core 0's turns, and then the rest of
/// core 1's. The only error is running out of memory.
///
/// Condition: the run has a schedule.
#[tactic(auto, using(crate::proofs::Orders::of_cores))]
pub fn schedule_of(alloc: Global, run: &Run) -> Result<Schedule, AllocError>
    requires { HasSchedule run.now }
    ensures schedule { IfOk result (λ s. s ≡ schedule_in run.now) }
    ensures cores { IfOk result (λ s. All (λ c. c < 2) s) }
{
    let items = written(alloc, run)?;
    Ok(Schedule { items })
}
