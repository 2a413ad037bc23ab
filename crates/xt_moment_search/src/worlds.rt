//! What stands for a world in a search.
ghost use Rattle.std.specs.Prelude.{◌≡◌, ◌&&◌, ◌==◌, true, IfOk, if◌then◌else◌};
ghost use Rattle.xt_moment_search.specs.Parts.{HaveSameParts, HasParts};

use crate::bytes::Bytes;
use crate::sides::Side;
use std::alloc::{AllocError, Global};
use std::rc::Rc;
use xt_outcomes::Shelf;
use xt_search::Changes;

/// Two cores between two turns, what memory holds, which bits of it are not known, and how many of the moves that may come
/// next are passed over. Worlds share what is equal in them.
#[derive(Drop)]
pub struct World {
    pub side0: Rc<Side>,
    pub side1: Rc<Side>,
    pub held: Rc<Changes>,
    pub hidden: Rc<Changes>,
    pub passed: usize,
}

impl World {
    /// A core of the world.
    pub fn side(&self, core: u8) -> &Side
        ensures { result.now ≡ (if core == 0 then self.now.side0.value else self.now.side1.value) }
    {
        if core == 0 {
            self.side0.as_ref()
        } else {
            self.side1.as_ref()
        }
    }

    /// Whether both cores have stopped.
    pub fn has_ended(&self) -> bool
        ensures { result ≡ (self.now.side0.value.stopped && self.now.side1.value.stopped) }
    {
        self.side0.has_stopped() && self.side1.has_stopped()
    }

    /// A copy of what memory holds. The only error is running out of memory.
    pub fn bytes(&self, alloc: Global) -> Result<Bytes, AllocError>
        ensures held { IfOk result (λ b. b.held ≡ self.now.held.value) }
        ensures hidden { IfOk result (λ b. b.hidden ≡ self.now.hidden.value) }
    {
        Ok(Bytes {
            held: self.held.as_ref().copy(alloc)?,
            hidden: self.hidden.as_ref().copy(alloc)?,
        })
    }

    /// The same world, of whose moves so many are passed over. The only error is that a part has too many owners.
    pub fn passing(&self, passed: usize) -> Result<World, AllocError>
        ensures passed { IfOk result (λ w. w.passed ≡ passed) }
        ensures parts { IfOk result (λ w. HaveSameParts self.now w) }
    {
        Ok(World {
            side0: self.side0.clone()?,
            side1: self.side1.clone()?,
            held: self.held.clone()?,
            hidden: self.hidden.clone()?,
            passed,
        })
    }

    /// Whether two worlds are the same.
    pub fn is_same(&self, other: &World) -> bool
        ensures passed { result ≡ true → self.now.passed ≡ other.now.passed }
        ensures parts { result ≡ true → HaveSameParts self.now other.now }
    {
        self.passed == other.passed
            && self.side0.as_ref().is_same(other.side0.as_ref())
            && self.side1.as_ref().is_same(other.side1.as_ref())
            && self.held.as_ref().is_same(other.held.as_ref())
            && self.hidden.as_ref().is_same(other.hidden.as_ref())
    }

    /// A number that is the same for equal worlds.
    pub fn digest(&self) -> u64 {
        let side0 = self.side0.as_ref().digest();
        let side1 = self.side1.as_ref().digest();
        self.held
            .as_ref()
            .digest()
            .wrapping_add(side0.wrapping_mul(31))
            .wrapping_add(side1.wrapping_mul(1009))
            .wrapping_add(self.passed as u64)
    }
}

/// What worlds share.
#[derive(Drop)]
pub struct Shared {
    sides: Shelf<Side>,
    held: Shelf<Changes>,
    hidden: Shelf<Changes>,
}

impl Shared {
    /// Nothing is shared yet. The only error is running out of memory.
    pub fn new(alloc: Global) -> Result<Shared, AllocError> {
        Ok(Shared {
            sides: Shelf::new(alloc)?,
            held: Shelf::new(alloc)?,
            hidden: Shelf::new(alloc)?,
        })
    }

    /// The world of these parts, of whose moves none is passed over. The only error is running out of memory.
    pub fn world(
        &mut self,
        alloc: Global,
        side0: Side,
        side1: Side,
        bytes: Bytes,
    ) -> Result<World, AllocError>
        ensures passed { IfOk result (λ w. w.passed ≡ 0) }
        ensures parts { IfOk result (λ w. HasParts side0 side1 bytes w) }
    {
        Ok(World {
            side0: self.sides.shared(alloc, side0)?,
            side1: self.sides.shared(alloc, side1)?,
            held: self.held.shared(alloc, bytes.held)?,
            hidden: self.hidden.shared(alloc, bytes.hidden)?,
            passed: 0,
        })
    }
}
