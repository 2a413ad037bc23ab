//! What the turns of a search need beside the worlds.

use crate::dead::Dead;
use crate::paths::{Passage, Paths};
use crate::places::{Places, Seen};
use crate::world::Shared;
use std::alloc::{AllocError, Global};
use xt_map::Access;

// After so many turns one after another of which none told of a new path, the next ones are not noted.
const QUIET: u32 = 100000;

/// What worlds share, and what was seen of the turns that were made.
pub struct Desk {
    pub(crate) shared: Shared,
    seen: Seen,
    paths: Paths,
    has_new_place: bool,
    has_new_path: bool,
    quiet: u32,
}

// A `drop` of its own is one call at each place where a value is dropped.
impl Drop for Desk {
    fn drop(self) {
        let Desk {
            shared: _,
            seen: _,
            paths: _,
            has_new_place: _,
            has_new_path: _,
            quiet: _,
        } = self;
    }
}

impl Desk {
    /// Nothing is shared yet, and nothing was seen. The only error is running out of memory.
    pub fn new(alloc: Global) -> Result<Desk, AllocError> {
        Ok(Desk {
            shared: Shared::new(alloc)?,
            seen: Seen::new(alloc)?,
            paths: Paths::new(alloc)?,
            has_new_place: false,
            has_new_path: false,
            quiet: 0,
        })
    }

    /// Nothing is shared any more, and nothing is new; what was seen stays. The only error is running out
    /// of memory.
    pub(crate) fn clear(&mut self, alloc: Global) -> Result<(), AllocError> {
        self.shared = Shared::new(alloc)?;
        self.has_new_place = false;
        self.has_new_path = false;
        self.quiet = 0;
        Ok(())
    }

    /// Notes a turn of a core, which fits or not. Its path is not noted if it fits and many turns before it told
    /// of nothing new. The only error is running out of memory.
    pub(crate) fn note(
        &mut self,
        core: u8,
        access: Option<Access>,
        passage: &Passage,
        fits: bool,
    ) -> Result<(), AllocError> {
        if self.seen.note(core, access) {
            self.has_new_place = true;
        }
        if fits && self.quiet == QUIET {
            return Ok(());
        }
        if self.paths.note(passage)? {
            self.has_new_path = true;
            self.quiet = 0;
        } else if self.quiet < QUIET {
            self.quiet += 1;
        }
        Ok(())
    }

    /// Whether a core came where it was not seen before.
    pub(crate) fn has_new_place(&self) -> bool {
        self.has_new_place
    }

    /// Whether something was seen that was not seen before.
    pub(crate) fn is_new(&self) -> bool {
        self.has_new_place || self.has_new_path
    }

    /// Who comes to each place, as far as was seen. The only error is running out of memory.
    pub(crate) fn places(&self, alloc: Global) -> Result<Places, AllocError> {
        self.seen.places(alloc)
    }

    /// The registers that nobody will read, as far as was seen. The only error is running out of memory.
    pub(crate) fn dead(&self, alloc: Global) -> Result<Dead, AllocError> {
        self.paths.dead(alloc)
    }
}
