//! The latest releases of both cores at each address.
ghost use Rattle.std.specs.Prelude.{◌≡◌, ◌==◌, ℕ, IfOk, OnOk, if◌then◌else◌};
ghost use Rattle.xt_race.specs.Tables.{count_of, released_at};
ghost use Rattle.xt_race.specs.Found.{releases_at};

use crate::event::Event;
use std::alloc::{AllocError, Global};
use std::collections::HashMap;

/// The latest releases of both cores at each address: of each one more than its place in the history.
#[derive(Drop)]
pub struct Releases {
    pub zero: HashMap<u32, u32>,
    pub one: HashMap<u32, u32>,
}

// What stands at a key, 0 where nothing does.
fn count_of(counts: &HashMap<u32, u32>, key: u32) -> u32
    ensures { result ≡ count_of counts.now key }
{
    counts.get(&key).copied().unwrap_or(0)
}

// Puts a number at a key.
fn put(counts: &mut HashMap<u32, u32>, key: u32, count: u32) -> Result<(), AllocError>
    ensures { OnOk result ((q : ℕ) → count_of counts.new q ≡ (if q == key then count else count_of counts.old q)) }
{
    counts.insert(key, count)?;
    Ok(())
}

impl Releases {
    /// None.
    pub fn new(alloc: Global) -> Releases
        ensures { (c q : ℕ) → released_at result c q ≡ 0 }
    {
        Releases {
            zero: HashMap::new(alloc),
            one: HashMap::new(alloc),
        }
    }

    /// The latest of a core at an address, 0 where there is none.
    pub fn latest(&self, core: u8, addr: u32) -> u32
        ensures { result ≡ released_at self.now core addr }
    {
        if core == 0 {
            count_of(&self.zero, addr)
        } else {
            count_of(&self.one, addr)
        }
    }

    /// Past an entry of which, where it releases, this is one more than its place.
    pub fn keep(&mut self, event: &Event, upto: u32) -> Result<(), AllocError>
        ensures { OnOk result ((c q : ℕ) → released_at self.new c q ≡ (if releases_at c q event.now then upto else released_at self.old c q)) }
    {
        if !event.releases() {
            return Ok(());
        }
        if event.entry.core == 0 {
            put(&mut self.zero, event.entry.access.addr, upto)
        } else {
            put(&mut self.one, event.entry.access.addr, upto)
        }
    }
}
