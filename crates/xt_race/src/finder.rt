//! What is kept of the entries so far, by which the second entry of the first race is found.
ghost use Rattle.std.specs.Prelude.{◌≡◌, ◌+◌, ◌<◌, ◌^◌, List, ℕ, Some, IfOk, slice_get};
ghost use Rattle.xt_race.specs.declared.event.Event.{Event};
ghost use Rattle.xt_race.specs.Tables.{acquired_by, note_of, other, with_seen};
ghost use Rattle.xt_race.specs.Found.{IsTaken, Knows};

use crate::event::Event;
use crate::latest::Note;
use crate::marks::Marks;
use crate::releases::Releases;
use std::alloc::{AllocError, Global};

/// What is kept of the entries so far.
pub struct Finder {
    /// How many they are.
    pub count: u32,
    /// How many entries of core 1 core 0 has acquired.
    pub seen0: u32,
    /// How many entries of core 0 core 1 has acquired.
    pub seen1: u32,
    pub marks: Marks,
    pub releases: Releases,
}

// A `drop` of its own is one call at each place where a value is dropped.
impl Drop for Finder {
    fn drop(self) {
        let Finder {
            count: _,
            seen0: _,
            seen1: _,
            marks: _,
            releases: _,
        } = self;
    }
}

/// What one more entry comes to.
#[derive(Clone, Copy)]
pub struct RaceStep {
    /// Whether it races with an entry before it.
    pub hit: bool,
    /// How many entries of the other core its core has acquired, up to and with this one.
    pub seen: u32,
}

// What an entry leaves with the bytes that it touches.
fn note_of(event: &Event, upto: u32) -> Note
    ensures { result ≡ note_of event.now upto }
{
    Note {
        core: event.entry.core,
        writes: event.writes(),
        plain: !event.synchronises(),
        upto,
    }
}

// The other core.
fn other(core: u8) -> u8
    ensures { result ≡ other core }
{
    if core == 0 { 1 } else { 0 }
}

impl Finder {
    /// Before the first entry. The only error is running out of memory.
    pub fn new(alloc: Global) -> Result<Finder, AllocError>
        ensures { IfOk result (λ f. (events : List Event) → Knows f events 0) }
    {
        Ok(Finder {
            count: 0,
            seen0: 0,
            seen1: 0,
            marks: Marks::new(alloc)?,
            releases: Releases::new(alloc),
        })
    }

    // How many entries of the other core the core of an entry has acquired, up to and with this one.
    fn acquired(&self, event: &Event) -> u32
        ensures { result ≡ acquired_by self.now event.now }
    {
        let core = event.entry.core;
        let seen = if core == 0 { self.seen0 } else { self.seen1 };
        if event.acquires() {
            seen.max(self.releases.latest(other(core), event.entry.access.addr))
        } else {
            seen
        }
    }

    // A core has acquired so many.
    fn keep_seen(&mut self, core: u8, seen: u32)
        ensures { self.new ≡ with_seen core seen self.old }
    {
        if core == 0 {
            self.seen0 = seen;
        } else {
            self.seen1 = seen;
        }
    }

    /// Takes one more entry. The only error is running out of memory.
    ///
    /// Condition: there are fewer than 4,294,967,295 entries before it.
    pub fn take(&mut self, event: &Event) -> Result<RaceStep, AllocError>
        requires { self.old.count + 1 < 2 ^ 32 }
        ensures count { IfOk result (λ r. self.new.count ≡ self.old.count + 1) }
        ensures taken { IfOk result (λ r. (events : List Event) (n : ℕ) → Knows self.old events n → slice_get events n ≡ Some event.now → event.now.entry.core < 2 → IsTaken events n event.now self.new r) }
    {
        let upto = self.count + 1;
        let access = event.entry.access;
        let note = note_of(event, upto);
        let seen = self.acquired(event);
        let hit = self.marks.has_rival(note, access.addr, access.size, seen);
        self.marks.note(note, access.addr, access.size)?;
        self.releases.keep(event, upto)?;
        self.keep_seen(note.core, seen);
        self.count = upto;
        Ok(RaceStep { hit, seen })
    }
}
