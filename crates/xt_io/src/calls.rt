//! The calls of a source or a sink in memory: how many bytes each moves, and which of them fail.
ghost use Rattle.std.specs.Prelude.{◌≡◌, ◌≤◌, IfOk};

use std::alloc::{AllocError, Global};

/// The calls that were made, and what is to come of the others.
#[derive(Drop)]
pub(crate) struct Calls {
    /// The most bytes that one call moves.
    pub(crate) most: usize,
    /// The numbers of the calls that are to fail, from 0.
    fails: Vec<u64>,
    /// How many calls were made. It stops at `u64::MAX`.
    made: u64,
    /// How many of these failed. It stops at `u64::MAX`.
    failed: u64,
    ghost room: { 1 ≤ most },
}

impl Calls {
    ghost use Rattle.xt_io.specs.Calls.{fails_next, IsUnused, CountsCall};

    /// No call was made yet. `most` is at least 1. The error is running out of memory.
    pub(crate) fn new(alloc: Global, most: usize, fails: &[u64]) -> Result<Calls, AllocError>
        requires { 1 ≤ most }
        ensures { IfOk result (IsUnused most fails.now) }
    {
        Ok(Calls {
            most,
            fails: fails.to_vec(alloc)?,
            made: 0,
            failed: 0,
        })
    }

    /// Counts one more call, and answers whether it is to fail.
    pub(crate) fn next_fails(&mut self) -> bool
        ensures answer { result ≡ fails_next self.old }
        ensures counts { CountsCall self.old self.new }
        ensures later { self.old.failed ≤ self.new.failed }
    {
        let fails = self.fails.contains(&self.made);
        self.made = self.made.saturating_add(1);
        if fails {
            self.failed = self.failed.saturating_add(1);
        }
        fails
    }
}
