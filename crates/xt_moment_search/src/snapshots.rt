//! A world of a search on its way from one kept world to the next.
ghost use Rattle.std.specs.Prelude.{◌≡◌, true, IfOk};
ghost use Rattle.xt_moment_search.specs.Covering.{side_at, snapshot_of, with_side};

use crate::bytes::Bytes;
use crate::sides::Side;
use crate::worlds::World;
use std::alloc::{AllocError, Global};

/// Two cores between two turns, what memory holds, and which bits of it are not known.
#[derive(Drop)]
pub struct Snapshot {
    pub side0: Side,
    pub side1: Side,
    pub bytes: Bytes,
}

impl Snapshot {
    /// A copy of a kept world. The only error is running out of memory.
    pub fn of(alloc: Global, world: &World) -> Result<Snapshot, AllocError>
        ensures { IfOk result (λ s. s ≡ snapshot_of world.now) }
    {
        let bytes = world.bytes(alloc)?;
        Ok(Snapshot {
            side0: world.side(0).copy(),
            side1: world.side(1).copy(),
            bytes,
        })
    }

    /// A core.
    pub fn side(&self, core: u8) -> &Side
        ensures { result.now ≡ side_at core self.now }
    {
        if core == 0 { &self.side0 } else { &self.side1 }
    }

    /// Puts a core in the place of the one with this number.
    pub fn put(&mut self, core: u8, side: Side)
        ensures { self.new ≡ with_side core side self.old }
    {
        if core == 0 {
            self.side0 = side;
        } else {
            self.side1 = side;
        }
    }

    /// Whether a kept world is a copy of this one.
    pub fn is_at(&self, world: &World) -> bool
        ensures { result ≡ true → self.now ≡ snapshot_of world.now }
    {
        self.side0.is_same(world.side(0))
            && self.side1.is_same(world.side(1))
            && self.bytes.held.is_same(world.held.as_ref())
            && self.bytes.hidden.is_same(world.hidden.as_ref())
    }
}
