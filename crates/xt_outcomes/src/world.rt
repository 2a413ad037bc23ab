//! What stands for a world in a search.
ghost use Rattle.std.specs.Prelude.{◌≡◌, true, IfOk};
ghost use Rattle.xt_map.specs.declared.contents.MemoryContents.{MemoryContents};
ghost use Rattle.xt_search.specs.Changed.{contents_of};
ghost use Rattle.xt_outcomes.specs.KeptWorlds.{moved_spot, spot_of};
ghost use Rattle.xt_outcomes.specs.Marks.{IsSameWorld};
ghost use Rattle.xt_outcomes.specs.Spots.{side_of};

use crate::shelf::{Part, Shelf};
use crate::sides::Side;
use std::alloc::{AllocError, Global};
use std::rc::Rc;
use xt_search::Changes;

/// Two cores between two turns, and what memory holds. Worlds share what is equal in them.
pub struct World {
    pub side0: Rc<Side>,
    pub side1: Rc<Side>,
    pub changes: Rc<Changes>,
}

// A `drop` of its own is one call at each place where a value is dropped.
impl Drop for World {
    fn drop(self) {
        let World {
            side0: _,
            side1: _,
            changes: _,
        } = self;
    }
}

impl Part for Side {
    fn is_like(&self, other: &Side) -> bool {
        self.is_same(other)
    }

    fn mark(&self) -> u64 {
        self.digest()
    }
}

impl Part for Changes {
    fn is_like(&self, other: &Changes) -> bool {
        self.is_same(other)
    }

    fn mark(&self) -> u64 {
        self.digest()
    }
}

impl World {
    /// A core of the world.
    pub fn side(&self, core: u8) -> &Side
        ensures { (m : MemoryContents) → result.now ≡ side_of core (spot_of m self.now) }
    {
        if core == 0 {
            self.side0.as_ref()
        } else {
            self.side1.as_ref()
        }
    }

    /// Whether two worlds are the same.
    pub fn is_same(&self, other: &World) -> bool
        ensures same { result ≡ true → IsSameWorld self.now other.now }
        ensures equal { IsSameWorld self.now other.now → result ≡ true }
    {
        if !self.side0.as_ref().is_same(other.side0.as_ref()) {
            return false;
        }
        if !self.side1.as_ref().is_same(other.side1.as_ref()) {
            return false;
        }
        self.changes.as_ref().is_same(other.changes.as_ref())
    }
}

/// What worlds share.
pub struct Shared {
    sides: Shelf<Side>,
    changes: Shelf<Changes>,
}

// A `drop` of its own is one call at each place where a value is dropped.
impl Drop for Shared {
    fn drop(self) {
        let Shared {
            sides: _,
            changes: _,
        } = self;
    }
}

impl Shared {
    /// Nothing is shared yet. The only error is running out of memory.
    pub fn new(alloc: Global) -> Result<Shared, AllocError> {
        Ok(Shared {
            sides: Shelf::new(alloc)?,
            changes: Shelf::new(alloc)?,
        })
    }

    /// Puts parts that are shared in place of those of a world. The only error is running out of memory.
    pub fn keep(&mut self, world: &mut World) -> Result<(), AllocError>
        ensures { (m : MemoryContents) → spot_of m world.new ≡ spot_of m world.old }
    {
        self.sides.keep(&mut world.side0)?;
        self.sides.keep(&mut world.side1)?;
        self.changes.keep(&mut world.changes)
    }

    /// The world of these parts. The only error is running out of memory.
    pub fn world(
        &mut self,
        alloc: Global,
        side0: Side,
        side1: Side,
        changes: Changes,
    ) -> Result<World, AllocError>
        ensures changes { IfOk result (λ w. w.changes.value ≡ changes) }
        ensures spot { IfOk result (λ w. (m : MemoryContents) → spot_of m w ≡ record { side0 = side0; side1 = side1; memory = contents_of m changes }) }
    {
        Ok(World {
            side0: self.sides.shared(alloc, side0)?,
            side1: self.sides.shared(alloc, side1)?,
            changes: self.changes.shared(alloc, changes)?,
        })
    }

    /// The world in which a core has come so far. The only error is running out of memory.
    ///
    /// Condition: the core is 0 or 1.
    #[inline(always)]
    pub fn moved(
        &mut self,
        alloc: Global,
        world: &World,
        core: u8,
        side: Side,
        changes: Changes,
    ) -> Result<World, AllocError>
        ensures changes { IfOk result (λ w. w.changes.value ≡ changes) }
        ensures spot { IfOk result (λ w. (m : MemoryContents) → spot_of m w ≡ moved_spot core side (contents_of m changes) (spot_of m world.now)) }
    {
        let side = self.sides.shared(alloc, side)?;
        let changes = self.changes.shared(alloc, changes)?;
        if core == 0 {
            Ok(World {
                side0: side,
                side1: world.side1.clone()?,
                changes,
            })
        } else {
            Ok(World {
                side0: world.side0.clone()?,
                side1: side,
                changes,
            })
        }
    }
}
