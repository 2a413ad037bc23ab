//! What stands for a world and what the judge knows of it.
ghost use Rattle.std.specs.Prelude.{◌≡◌, Some, true, length};
ghost use Rattle.xt_judged.specs.Lives.{AreApart};

use crate::breaches::Met;
use crate::stale::Stale;
use std::rc::Rc;
use xt_frames::{BreachKind, HandlerPhase, Snapshot};
use xt_outcomes::{Part, World};

/// What the judge knows of one core: its frames, and where it stands among handler steps before its next record.
pub struct Standing {
    pub frames: Snapshot,
    pub phase: HandlerPhase,
    // It has all special registers.
    ghost whole: { length frames.state.control.special ≡ 256 },
    // Its records are counted from the next one on.
    ghost first: { frames.next ≡ 0 },
}

// A `drop` of its own is one call at each place where a value is dropped.
impl Drop for Standing {
    fn drop(self) {
        let Standing {
            frames: _,
            phase: _,
        } = self;
    }
}

/// A breach that a turn of this core at this address showed.
#[derive(Clone, Copy, PartialEq, Eq)]
pub struct Shown {
    pub core: u8,
    pub pc: u32,
    pub kind: BreachKind,
}

/// Two cores between two turns, what memory holds, and what the judge knows of them. Scenes share what is
/// equal in them.
pub struct Scene {
    pub world: World,
    pub standing0: Rc<Standing>,
    pub standing1: Rc<Standing>,
    pub stale: Rc<Stale>,
    /// The core that has made a turn without an access since its last one with an access: it alone
    /// goes on, until it makes the next.
    pub only: Option<u8>,
    /// The breach to which the last turn came. No turn follows it.
    pub breach: Option<Shown>,
    /// How many turns of one core led here, when the scene was met first.
    pub turns: u32,
    // No stale byte is live.
    ghost apart: { AreApart standing0.value.frames (Some standing1.value.frames) stale.value },
}

impl Drop for Scene {
    fn drop(self) {
        let Scene {
            world: _,
            standing0: _,
            standing1: _,
            stale: _,
            only: _,
            breach: _,
            turns: _,
        } = self;
    }
}

// Whether both phases are the same.
fn is_same_phase(a: HandlerPhase, b: HandlerPhase) -> bool
    ensures { result ≡ true → a ≡ b }
{
    matches!(
        (a, b),
        (HandlerPhase::Outside, HandlerPhase::Outside)
            | (HandlerPhase::InHandler, HandlerPhase::InHandler)
            | (HandlerPhase::Nested, HandlerPhase::Nested)
    )
}

impl Standing {
    /// Whether both are seen to be equal.
    pub fn is_same(&self, other: &Standing) -> bool
        ensures { result ≡ true → self.now ≡ other.now }
    {
        is_same_phase(self.phase, other.phase) && self.frames.is_same(&other.frames)
    }

    /// A number that is the same for equal ones.
    pub fn digest(&self) -> u64 {
        self.frames.digest()
    }
}

impl Met for Scene {
    ghost shows = { λ s. s.breach };

    fn breach(&self) -> Option<Shown> {
        self.breach
    }

    fn turns(&self) -> u32 {
        self.turns
    }
}

impl Part for Standing {
    fn is_like(&self, other: &Standing) -> bool {
        self.is_same(other)
    }

    fn mark(&self) -> u64 {
        self.digest()
    }
}

impl Part for Stale {
    fn is_like(&self, other: &Stale) -> bool {
        self.is_same(other)
    }

    fn mark(&self) -> u64 {
        self.digest()
    }
}

// Whether both breaches are the same, or there is none.
pub(crate) fn is_same_breach(a: Option<Shown>, b: Option<Shown>) -> bool
    ensures { result ≡ true → a ≡ b }
{
    a == b
}

// Whether both cores are the same, or there is none.
pub(crate) fn is_same_core(a: Option<u8>, b: Option<u8>) -> bool
    ensures { result ≡ true → a ≡ b }
{
    a == b
}
